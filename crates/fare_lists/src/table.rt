use fare_layout::TableNumber;

/// The rows of a table, each with its numbers, in their order.
pub type List = Vec<Vec<u32>>;

/// A table that holds a list.
pub struct ListTable {
    /// Which of the store's tables it is.
    pub number: TableNumber,
    /// How many numbers a row has.
    pub columns: usize,
    /// Shows each row in the order of the rowids: its rowid, and its numbers.
    pub read: &'static str,
    /// Writes a row: its rowid, and its numbers.
    pub put: &'static str,
    /// Removes all rows.
    pub clear: &'static str,
}
