ghost use Rattle.std.specs.Prelude.{◌≡◌, ◌++◌, ◌∷◌, [], ℕ, false, drop, option_map, IsTrue, IfOk, OnOk};
ghost use Rattle.sqlite.specs.State.{HasCleanDisk, Survives};
ghost use Rattle.sqlite.specs.Held.{state};
ghost use Rattle.sqlite.specs.Values.{bound};
ghost use Rattle.fare_tables.specs.Asking.{IsLive, IsAtRest, SameRows, Inside};
ghost use Rattle.fare_opening.specs.declared.site.Site.{Site};
ghost use Rattle.fare_opening.specs.Moves.{Fills, Moves, MovesAny};
ghost use Rattle.fare_opening.specs.Moving.{MovingParts, moving_told, columns_of, IsNumbered, copy_of};
ghost use Rattle.fare_opening.specs.Parts.{Parts, OlderParts, IsDesign, IsOlder, IsMoving, parts_of};
ghost use Rattle.fare_opening.specs.Raising.{AreRead};
ghost use Rattle.fare_opening.specs.Sites.{IsSite};

use crate::{Site, clear_rows, put_row, read_rows};
use fare_layout::TableNumber;
use fare_store::Fault;
use fare_tables::parameter;
use sqlite::types::ValueRef;
use sqlite::{Alter, Connection, Row, Transaction};
use std::alloc::Global;

/// How a raise moves the rows of a table, which the newest format leaves empty, to another.
pub struct Moving {
    /// The table whose rows go, which the older format has.
    pub from: TableNumber,
    /// The table that gets them, which is made by the raise.
    pub to: TableNumber,
    /// Shows each row of the first in the order of their rowids: rowid, then its columns. It is a text of the older
    /// format.
    pub read: &'static str,
    /// Writes a row of the second: the cells that `read` shows of a row, and 0 behind them.
    pub put: &'static str,
    /// Removes all rows of the first.
    pub clear: &'static str,
}

// The cells of a row from one on, behind others.
fn add_cells<'a>(cells: &mut Vec<ValueRef<'a>>, row: &'a Row, at: usize) -> Result<(), Fault>
    ensures { OnOk result ((n : ℕ) → IsNumbered n row.now → bound cells.new.items ≡ bound cells.old.items ++ drop at row.now) }
{
    if at >= row.column_count() {
        return Ok(());
    }
    match row.get_ref(at) {
        Ok(value) => {
            cells.push(value)?;
            add_cells(cells, row, at + 1)
        }
        Err(_) => Ok(()),
    }
}

// The cells of a row, and a 0 behind them.
fn copied<'a>(alloc: Global, row: &'a Row) -> Result<Vec<ValueRef<'a>>, Fault>
    ensures { IfOk result (λ cells. (n : ℕ) → IsNumbered n row.now → bound cells.items ≡ copy_of row.now) }
{
    let mut cells = Vec::new(alloc);
    add_cells(&mut cells, row, 0)?;
    cells.push(parameter(0))?;
    Ok(cells)
}

// A copy of a row.
fn put_copy<S: Alter>(
    alloc: Global,
    tx: &mut Transaction<'_, S>,
    put: &str,
    row: &Row,
) -> Result<(), Fault>
    ensures same_reference { tx.new.conn.ghost_name ≡ tx.old.conn.ghost_name }
    ensures made { HasCleanDisk (state S.Store tx.new.conn.now) → IsTrue (state S.Store tx.old.conn.now).in_transaction → (d : Parts) (o : OlderParts) (m : MovingParts) (w : Site) → IsMoving d o m → m.put ≡ put.now → IsSite d w → (state S.Store tx.old.conn.now).now.schema ≡ w.schema
        → OnOk result (Fills w m.to (columns_of o.own m.from) (row.now ∷ []) (state S.Store tx.old.conn.now).now (state S.Store tx.new.conn.now).now × IsTrue (state S.Store tx.new.conn.now).in_transaction) }
    ensures inside { HasCleanDisk (state S.Store tx.new.conn.now) → Inside (state S.Store tx.old.conn.now) (state S.Store tx.new.conn.now) }
    ensures survives { Survives (state S.Store tx.old.conn.now) (state S.Store tx.new.conn.now) (λ _. ⊥) }
{
    let cells = copied(alloc, row)?;
    put_row(tx, put, cells.as_slice())
}

// A copy of each row, one after the other.
fn put_copies<S: Alter>(
    alloc: Global,
    tx: &mut Transaction<'_, S>,
    put: &str,
    rows: &[Row],
) -> Result<(), Fault>
    ensures same_reference { tx.new.conn.ghost_name ≡ tx.old.conn.ghost_name }
    ensures made { HasCleanDisk (state S.Store tx.new.conn.now) → IsTrue (state S.Store tx.old.conn.now).in_transaction → (d : Parts) (o : OlderParts) (m : MovingParts) (w : Site) → IsMoving d o m → m.put ≡ put.now → IsSite d w → (state S.Store tx.old.conn.now).now.schema ≡ w.schema
        → OnOk result (Fills w m.to (columns_of o.own m.from) rows.now (state S.Store tx.old.conn.now).now (state S.Store tx.new.conn.now).now × IsTrue (state S.Store tx.new.conn.now).in_transaction) }
    ensures inside { HasCleanDisk (state S.Store tx.new.conn.now) → Inside (state S.Store tx.old.conn.now) (state S.Store tx.new.conn.now) }
    ensures survives { Survives (state S.Store tx.old.conn.now) (state S.Store tx.new.conn.now) (λ _. ⊥) }
{
    for row in rows {
        put_copy(alloc, tx, put, row)?;
    }
    Ok(())
}

// The rows that were read go to the other table.
fn move_these<S: Alter>(
    alloc: Global,
    tx: &mut Transaction<'_, S>,
    moving: &Moving,
    rows: &[Row],
) -> Result<(), Fault>
    ensures same_reference { tx.new.conn.ghost_name ≡ tx.old.conn.ghost_name }
    ensures moved { HasCleanDisk (state S.Store tx.new.conn.now) → IsTrue (state S.Store tx.old.conn.now).in_transaction → (d : Parts) (o : OlderParts) (w : Site) → IsMoving d o (moving_told moving.now) → IsDesign d → IsOlder d o → IsSite d w → (state S.Store tx.old.conn.now).now.schema ≡ w.schema
        → OnOk result (Moves o w rows.now (state S.Store tx.old.conn.now).now (state S.Store tx.new.conn.now).now (moving_told moving.now) × IsTrue (state S.Store tx.new.conn.now).in_transaction) }
    ensures inside { HasCleanDisk (state S.Store tx.new.conn.now) → Inside (state S.Store tx.old.conn.now) (state S.Store tx.new.conn.now) }
    ensures survives { Survives (state S.Store tx.old.conn.now) (state S.Store tx.new.conn.now) (λ _. ⊥) }
{
    put_copies(alloc, tx, moving.put, rows)?;
    clear_rows(tx, moving.clear)
}

// They do, if any rows move.
pub(crate) fn move_rows<S: Alter>(
    alloc: Global,
    tx: &mut Transaction<'_, S>,
    moving: &Option<Moving>,
    rows: &[Row],
) -> Result<(), Fault>
    ensures same_reference { tx.new.conn.ghost_name ≡ tx.old.conn.ghost_name }
    ensures moved { HasCleanDisk (state S.Store tx.new.conn.now) → IsTrue (state S.Store tx.old.conn.now).in_transaction → (d : Parts) (o : OlderParts) (w : Site) → option_map moving_told moving.now ≡ o.moving → IsDesign d → IsOlder d o → IsSite d w → (state S.Store tx.old.conn.now).now.schema ≡ w.schema
        → OnOk result (MovesAny o w rows.now (state S.Store tx.old.conn.now).now (state S.Store tx.new.conn.now).now o.moving × IsTrue (state S.Store tx.new.conn.now).in_transaction) }
    ensures inside { HasCleanDisk (state S.Store tx.new.conn.now) → Inside (state S.Store tx.old.conn.now) (state S.Store tx.new.conn.now) }
    ensures survives { Survives (state S.Store tx.old.conn.now) (state S.Store tx.new.conn.now) (λ _. ⊥) }
{
    match moving {
        Some(moving) => move_these(alloc, tx, moving, rows),
        None => Ok(()),
    }
}

// The rows that are to move, where the tables of the older format stand.
pub(crate) fn rows_to_move<S: Alter>(
    alloc: Global,
    conn: &mut Connection<S>,
    site: &Site,
    moving: &Option<Moving>,
) -> Result<Vec<Row>, Fault>
    requires { (d : Parts) × (o : OlderParts) × IsOlder d o × (option_map moving_told moving.now ≡ o.moving) × IsSite (parts_of o) site.now }
    ensures rows { HasCleanDisk (state S.Store conn.new) → (state S.Store conn.old).now.schema ≡ site.now.schema → IfOk result (λ rows. (d : Parts) (o : OlderParts) → IsOlder d o → option_map moving_told moving.now ≡ o.moving → IsSite (parts_of o) site.now → AreRead o site.now (state S.Store conn.old).now rows.items) }
    ensures read { HasCleanDisk (state S.Store conn.new) → (state S.Store conn.old).now.schema ≡ site.now.schema → OnOk result (SameRows (state S.Store conn.old) (state S.Store conn.new)) }
    ensures same { IsLive (state S.Store conn.new) → IsAtRest site.now.schema (state S.Store conn.old) → SameRows (state S.Store conn.old) (state S.Store conn.new) }
    ensures crash { Survives (state S.Store conn.old) (state S.Store conn.new) (λ _. ¬ ((state S.Store conn.old).now.schema ≡ site.now.schema)) }
    ensures live { IsLive (state S.Store conn.new) → IsLive (state S.Store conn.old) }
    ensures up { HasCleanDisk (state S.Store conn.new) → IsTrue (state S.Store conn.old).is_open → OnOk result (IsTrue (state S.Store conn.new).is_open) }
    ensures mode { conn.old.in_transaction ≡ false → conn.new.in_transaction ≡ false }
{
    match moving {
        Some(moving) => read_rows(conn, site, moving.read),
        None => Ok(Vec::new(alloc)),
    }
}
