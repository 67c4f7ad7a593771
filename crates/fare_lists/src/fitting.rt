ghost use Rattle.std.specs.Prelude.{◌↔◌, IsTrue};
ghost use Rattle.fare_lists.specs.Lists.{told, told_list, AreWide, AreAllWide};

use crate::{List, ListTable};

// Whether each row has so many numbers.
fn is_wide(columns: usize, list: &[Vec<u32>]) -> bool
    ensures { IsTrue result ↔ AreWide columns (told_list list.now) }
{
    for row in list {
        if row.len() != columns {
            return false;
        }
    }
    true
}

/// Whether there is a list for each of these tables, and each of its rows has as many numbers as its table has columns.
pub fn lists_fit(tables: &[ListTable], lists: &[List]) -> bool
    ensures { IsTrue result ↔ AreAllWide tables.now (told lists.now) }
{
    let [table, tables @ ..] = tables else {
        return lists.is_empty();
    };
    let [list, lists @ ..] = lists else {
        return false;
    };
    is_wide(table.columns, list.as_slice()) && lists_fit(tables, lists)
}
