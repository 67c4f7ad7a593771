ghost use Rattle.std.specs.Prelude.{◌≡◌, [], ◌∷◌, ℕ, List, false, IsTrue, IfOk, OnOk};
ghost use Rattle.sqlite.specs.State.{HasCleanDisk, Survives};
ghost use Rattle.sqlite.specs.Held.{state};
ghost use Rattle.sqlite.specs.Values.{bound};
ghost use Rattle.fare_layout.specs.declared.place.TableNumber.{TableNumber};
ghost use Rattle.fare_tables.specs.Asking.{IsLive, IsAtRest, SameRows, Inside};
ghost use Rattle.fare_opening.specs.declared.site.Site.{Site};
ghost use Rattle.fare_opening.specs.Listed.{IsReading, IsPutting, IsClearing, Puts};
ghost use Rattle.fare_opening.specs.Moves.{Clears};
ghost use Rattle.fare_opening.specs.Moving.{AreNumbered};
ghost use Rattle.fare_opening.specs.Parts.{Parts};
ghost use Rattle.fare_opening.specs.Sites.{IsSite, rows_at};

use crate::{Site, ask_rows};
use fare_store::Fault;
use fare_tables::change;
use sqlite::types::ValueRef;
use sqlite::{Alter, Connection, Row, Transaction};

/// All rows of a table, in the order of their rowids, each with its rowid before its cells.
pub fn read_rows<S: Alter>(
    conn: &mut Connection<S>,
    site: &Site,
    read: &str,
) -> Result<Vec<Row>, Fault>
    requires { (p : Parts) × (k : TableNumber) × (columns : ℕ) × IsReading p k columns read.now × IsSite p site.now }
    ensures rows { HasCleanDisk (state S.Store conn.new) → (state S.Store conn.old).now.schema ≡ site.now.schema → IfOk result (λ rows. (p : Parts) (k : TableNumber) (columns : ℕ) → IsReading p k columns read.now → IsSite p site.now → AreNumbered columns (rows_at site.now k (state S.Store conn.old).now.trees) → rows.items ≡ rows_at site.now k (state S.Store conn.old).now.trees) }
    ensures read { HasCleanDisk (state S.Store conn.new) → (state S.Store conn.old).now.schema ≡ site.now.schema → OnOk result (SameRows (state S.Store conn.old) (state S.Store conn.new)) }
    ensures same { IsLive (state S.Store conn.new) → IsAtRest site.now.schema (state S.Store conn.old) → SameRows (state S.Store conn.old) (state S.Store conn.new) }
    ensures crash { Survives (state S.Store conn.old) (state S.Store conn.new) (λ _. ¬ ((state S.Store conn.old).now.schema ≡ site.now.schema)) }
    ensures live { IsLive (state S.Store conn.new) → IsLive (state S.Store conn.old) }
    ensures stays { HasCleanDisk (state S.Store conn.new) → OnOk result (IsTrue (state S.Store conn.new).is_open) }
    ensures mode { conn.old.in_transaction ≡ false → conn.new.in_transaction ≡ false }
{
    ask_rows(conn, &site.schema, read, &[])
}

/// Puts a row, its rowid before its cells, into a table.
pub fn put_row<S: Alter>(
    tx: &mut Transaction<'_, S>,
    put: &str,
    cells: &[ValueRef<'_>],
) -> Result<(), Fault>
    ensures same_reference { tx.new.conn.ghost_name ≡ tx.old.conn.ghost_name }
    ensures made { HasCleanDisk (state S.Store tx.new.conn.now) → IsTrue (state S.Store tx.old.conn.now).in_transaction → (p : Parts) (k : TableNumber) (columns : ℕ) (w : Site) → IsPutting p k columns put.now → IsSite p w → (state S.Store tx.old.conn.now).now.schema ≡ w.schema
        → OnOk result (Puts w k columns (bound cells.now ∷ []) (state S.Store tx.old.conn.now).now (state S.Store tx.new.conn.now).now × IsTrue (state S.Store tx.new.conn.now).in_transaction) }
    ensures inside { HasCleanDisk (state S.Store tx.new.conn.now) → Inside (state S.Store tx.old.conn.now) (state S.Store tx.new.conn.now) }
    ensures survives { Survives (state S.Store tx.old.conn.now) (state S.Store tx.new.conn.now) (λ _. ⊥) }
{
    change(tx, put, cells)?;
    Ok(())
}

/// Removes all rows of a table.
pub fn clear_rows<S: Alter>(tx: &mut Transaction<'_, S>, clear: &str) -> Result<(), Fault>
    ensures same_reference { tx.new.conn.ghost_name ≡ tx.old.conn.ghost_name }
    ensures cleared { HasCleanDisk (state S.Store tx.new.conn.now) → IsTrue (state S.Store tx.old.conn.now).in_transaction → (p : Parts) (k : TableNumber) (columns : ℕ) (w : Site) → IsClearing p k clear.now → IsSite p w → (state S.Store tx.old.conn.now).now.schema ≡ w.schema
        → OnOk result (Clears w k columns (state S.Store tx.old.conn.now).now (state S.Store tx.new.conn.now).now × IsTrue (state S.Store tx.new.conn.now).in_transaction) }
    ensures inside { HasCleanDisk (state S.Store tx.new.conn.now) → Inside (state S.Store tx.old.conn.now) (state S.Store tx.new.conn.now) }
    ensures survives { Survives (state S.Store tx.old.conn.now) (state S.Store tx.new.conn.now) (λ _. ⊥) }
{
    change(tx, clear, &[])?;
    Ok(())
}
