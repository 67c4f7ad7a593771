use fare_layout::TableNumber;

/// The table with the row that says whose tables these are, and of what format.
pub const META: TableNumber = TableNumber { number: 0 };

/// The table with a row for each device.
pub const DEVICE: TableNumber = TableNumber { number: 1 };

/// The table of the taps.
pub const TAP: TableNumber = TableNumber { number: 2 };

/// The table of the statements.
pub const STATED: TableNumber = TableNumber { number: 3 };
