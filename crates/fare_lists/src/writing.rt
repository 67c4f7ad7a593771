ghost use Rattle.std.specs.Prelude.{◌≡◌, ◌<◌, ◌^◌, ℕ, false, length, IsTrue, IfOk, OnOk, OnErr};
ghost use Rattle.sqlite.specs.State.{HasCleanDisk, Survives};
ghost use Rattle.sqlite.specs.Held.{state};
ghost use Rattle.sqlite.specs.Values.{bound};
ghost use Rattle.fare_layout.specs.declared.place.TableNumber.{TableNumber};
ghost use Rattle.fare_tables.specs.Asking.{IsLive, SameRows, Inside};
ghost use Rattle.fare_opening.specs.declared.site.Site.{Site};
ghost use Rattle.fare_opening.specs.Listed.{IsPutting, Puts};
ghost use Rattle.fare_opening.specs.Parts.{Parts};
ghost use Rattle.fare_opening.specs.Sites.{IsSite};
ghost use Rattle.fare_lists.specs.Lists.{told, told_list, row_at, rows_from, AreWide, AreAllWide, IsListed, IsReplaced, AreReplaced, CanReplace, ReplacedFrom};

use crate::{List, ListTable};
use fare_opening::{clear_rows, put_row};
use fare_store::Fault;
use fare_tables::{commit, parameter};
use sqlite::types::ValueRef;
use sqlite::{Alter, Connection, Transaction};
use std::alloc::Global;

// The cells of a row.
fn cells_of(alloc: Global, place: u64, numbers: &[u32]) -> Result<Vec<ValueRef<'static>>, Fault>
    requires { place < 2 ^ 63 }
    ensures { IfOk result (λ cells. bound cells.items ≡ row_at place numbers.now) }
{
    let mut cells = Vec::new(alloc);
    cells.push(parameter(place))?;
    for number in numbers {
        cells.push(parameter(u64::from(*number)))?;
    }
    Ok(cells)
}

// The rows of a list, numbered from 1 on.
fn put_rows<S: Alter>(
    alloc: Global,
    tx: &mut Transaction<'_, S>,
    put: &str,
    rows: &[Vec<u32>],
) -> Result<(), Fault>
    requires { length rows.now < 2 ^ 63 }
    ensures same_reference { tx.new.conn.ghost_name ≡ tx.old.conn.ghost_name }
    ensures made { HasCleanDisk (state S.Store tx.new.conn.now) → IsTrue (state S.Store tx.old.conn.now).in_transaction → (p : Parts) (k : TableNumber) (columns : ℕ) (w : Site) → IsPutting p k columns put.now → IsSite p w → (state S.Store tx.old.conn.now).now.schema ≡ w.schema
        → OnOk result (Puts w k columns (rows_from 1 (told_list rows.now)) (state S.Store tx.old.conn.now).now (state S.Store tx.new.conn.now).now × IsTrue (state S.Store tx.new.conn.now).in_transaction) }
    ensures inside { HasCleanDisk (state S.Store tx.new.conn.now) → Inside (state S.Store tx.old.conn.now) (state S.Store tx.new.conn.now) }
    ensures survives { Survives (state S.Store tx.old.conn.now) (state S.Store tx.new.conn.now) (λ _. ⊥) }
{
    for place in 0..rows.len() {
        let cells = cells_of(alloc, place as u64 + 1, rows[place].as_slice())?;
        put_row(tx, put, cells.as_slice())?;
    }
    Ok(())
}

// A table's list, in place of its rows.
fn write_list<S: Alter>(
    alloc: Global,
    tx: &mut Transaction<'_, S>,
    table: &ListTable,
    list: &[Vec<u32>],
) -> Result<(), Fault>
    requires { length list.now < 2 ^ 63 }
    ensures same_reference { tx.new.conn.ghost_name ≡ tx.old.conn.ghost_name }
    ensures written { HasCleanDisk (state S.Store tx.new.conn.now) → IsTrue (state S.Store tx.old.conn.now).in_transaction → (p : Parts) (w : Site) → IsListed p table.now → IsSite p w → (state S.Store tx.old.conn.now).now.schema ≡ w.schema → AreWide table.now.columns (told_list list.now)
        → OnOk result (IsReplaced w table.now (told_list list.now) (state S.Store tx.old.conn.now).now (state S.Store tx.new.conn.now).now × IsTrue (state S.Store tx.new.conn.now).in_transaction) }
    ensures inside { HasCleanDisk (state S.Store tx.new.conn.now) → Inside (state S.Store tx.old.conn.now) (state S.Store tx.new.conn.now) }
    ensures survives { Survives (state S.Store tx.old.conn.now) (state S.Store tx.new.conn.now) (λ _. ⊥) }
{
    clear_rows(tx, table.clear)?;
    put_rows(alloc, tx, table.put, list)
}

// The lists of tables, in place of their rows.
fn write_lists<S: Alter>(
    alloc: Global,
    tx: &mut Transaction<'_, S>,
    tables: &[ListTable],
    lists: &[List],
) -> Result<(), Fault>
    ensures same_reference { tx.new.conn.ghost_name ≡ tx.old.conn.ghost_name }
    ensures written { HasCleanDisk (state S.Store tx.new.conn.now) → IsTrue (state S.Store tx.old.conn.now).in_transaction → AreAllWide tables.now (told lists.now) → (p : Parts) (w : Site) → CanReplace p w tables.now (state S.Store tx.old.conn.now).now
        → OnOk result (AreReplaced w tables.now (told lists.now) (state S.Store tx.old.conn.now).now (state S.Store tx.new.conn.now).now × IsTrue (state S.Store tx.new.conn.now).in_transaction) }
    ensures inside { HasCleanDisk (state S.Store tx.new.conn.now) → Inside (state S.Store tx.old.conn.now) (state S.Store tx.new.conn.now) }
    ensures survives { Survives (state S.Store tx.old.conn.now) (state S.Store tx.new.conn.now) (λ _. ⊥) }
{
    let [table, tables @ ..] = tables else {
        return Ok(());
    };
    let [list, lists @ ..] = lists else {
        return Ok(());
    };
    write_list(alloc, tx, table, list.as_slice())?;
    write_lists(alloc, tx, tables, lists)
}

/// Puts a list in the place of the rows of each of these tables, in one transaction. Each list is as wide as its table,
/// which `lists_fit` tells. The error is that of the database; after it the rows are as before.
pub fn replace_lists<S: Alter>(
    alloc: Global,
    conn: &mut Connection<S>,
    tables: &[ListTable],
    lists: &[List],
) -> Result<(), Fault>
    requires idle { conn.old.in_transaction ≡ false }
    requires wide { AreAllWide tables.now (told lists.now) }
    ensures replaced { IsLive (state S.Store conn.new) → (p : Parts) (w : Site) → CanReplace p w tables.now (state S.Store conn.old).now → OnOk result (AreReplaced w tables.now (told lists.now) (state S.Store conn.old).now (state S.Store conn.new).now × ((state S.Store conn.new).now ≡ (state S.Store conn.new).committed)) }
    ensures same { IsLive (state S.Store conn.new) → (p : Parts) (w : Site) → CanReplace p w tables.now (state S.Store conn.old).now → (state S.Store conn.old).now ≡ (state S.Store conn.old).committed → OnErr result (SameRows (state S.Store conn.old) (state S.Store conn.new)) }
    ensures crash { Survives (state S.Store conn.old) (state S.Store conn.new) (ReplacedFrom tables.now (told lists.now) (state S.Store conn.old).now) }
    ensures live { IsLive (state S.Store conn.new) → IsLive (state S.Store conn.old) }
    ensures stays { HasCleanDisk (state S.Store conn.new) → OnOk result (IsTrue (state S.Store conn.new).is_open) }
    ensures idle { conn.new.in_transaction ≡ false }
{
    let mut tx = conn.transaction();
    write_lists(alloc, &mut tx, tables, lists)?;
    commit(tx)
}
