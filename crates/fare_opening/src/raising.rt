ghost use Rattle.std.specs.Prelude.{◌≡◌, ℕ, false, IsTrue, OnOk, OnErr};
ghost use Rattle.sqlite.specs.State.{HasCleanDisk, Survives};
ghost use Rattle.sqlite.specs.Held.{state};
ghost use Rattle.fare_tables.specs.Asking.{IsLive, SameRows, Inside};
ghost use Rattle.fare_opening.specs.declared.site.Site.{Site};
ghost use Rattle.fare_opening.specs.MetaRow.{IsMeta};
ghost use Rattle.fare_opening.specs.Numbers.{Meta};
ghost use Rattle.fare_opening.specs.Raising.{SetsMeta, IsRising, RaisesAll, RaisesFrom};
ghost use Rattle.fare_opening.specs.Sites.{IsSite, rows_at};

use crate::making::make_tables;
use crate::moving::move_rows;
use crate::{Design, Older};
use fare_store::Fault;
use fare_tables::{change, commit, parameter};
use sqlite::{Alter, Connection, Row, Transaction};
use std::alloc::Global;

// The newest format in the row of meta.
fn put_format<D: Design, S: Alter>(tx: &mut Transaction<'_, S>) -> Result<(), Fault>
    ensures same_reference { tx.new.conn.ghost_name ≡ tx.old.conn.ghost_name }
    ensures set { HasCleanDisk (state S.Store tx.new.conn.now) → IsTrue (state S.Store tx.old.conn.now).in_transaction → (w : Site) → IsSite D.parts w → (state S.Store tx.old.conn.now).now.schema ≡ w.schema
        → (format owner : ℕ) → IsMeta format owner (rows_at w Meta (state S.Store tx.old.conn.now).now.trees)
        → OnOk result (SetsMeta D.parts owner w (state S.Store tx.old.conn.now).now (state S.Store tx.new.conn.now).now × IsTrue (state S.Store tx.new.conn.now).in_transaction) }
    ensures inside { HasCleanDisk (state S.Store tx.new.conn.now) → Inside (state S.Store tx.old.conn.now) (state S.Store tx.new.conn.now) }
    ensures survives { Survives (state S.Store tx.old.conn.now) (state S.Store tx.new.conn.now) (λ _. ⊥) }
{
    D::sound();
    let cells = [parameter(u64::from(D::format()))];
    change(tx, D::meta().set, &cells)?;
    Ok(())
}

// The tables that an older format lacks, the rows that move, and the newest format in the row of meta.
fn raise_all<D: Design, S: Alter>(
    alloc: Global,
    tx: &mut Transaction<'_, S>,
    older: &Older,
    rows: &[Row],
) -> Result<(), Fault>
    ensures same_reference { tx.new.conn.ghost_name ≡ tx.old.conn.ghost_name }
    ensures raised { HasCleanDisk (state S.Store tx.new.conn.now) → IsTrue (state S.Store tx.old.conn.now).in_transaction → IsRising D.parts older.now (state S.Store tx.old.conn.now).now rows.now
        → OnOk result (RaisesAll D.parts older.now (state S.Store tx.old.conn.now).now (state S.Store tx.new.conn.now).now × IsTrue (state S.Store tx.new.conn.now).in_transaction) }
    ensures inside { HasCleanDisk (state S.Store tx.new.conn.now) → Inside (state S.Store tx.old.conn.now) (state S.Store tx.new.conn.now) }
    ensures survives { Survives (state S.Store tx.old.conn.now) (state S.Store tx.new.conn.now) (λ _. ⊥) }
{
    D::sound();
    make_tables(tx, older.missing)?;
    move_rows(alloc, tx, &older.moving, rows)?;
    put_format::<D, S>(tx)
}

// A store of the newest format of one of an older format, in one transaction.
pub(crate) fn raise_store<D: Design, S: Alter>(
    alloc: Global,
    conn: &mut Connection<S>,
    older: &Older,
    rows: &[Row],
) -> Result<(), Fault>
    requires { conn.old.in_transaction ≡ false }
    ensures raised { IsLive (state S.Store conn.new) → IsRising D.parts older.now (state S.Store conn.old).now rows.now → OnOk result (RaisesAll D.parts older.now (state S.Store conn.old).now (state S.Store conn.new).now × ((state S.Store conn.new).now ≡ (state S.Store conn.new).committed)) }
    ensures same { IsLive (state S.Store conn.new) → IsRising D.parts older.now (state S.Store conn.old).now rows.now → (state S.Store conn.old).now ≡ (state S.Store conn.old).committed → OnErr result (SameRows (state S.Store conn.old) (state S.Store conn.new)) }
    ensures crash { Survives (state S.Store conn.old) (state S.Store conn.new) (λ trees. IsRising D.parts older.now (state S.Store conn.old).now rows.now → RaisesFrom D.parts older.now (state S.Store conn.old).now trees) }
    ensures live { IsLive (state S.Store conn.new) → IsLive (state S.Store conn.old) }
    ensures stays { HasCleanDisk (state S.Store conn.new) → OnOk result (IsTrue (state S.Store conn.new).is_open) }
    ensures idle { conn.new.in_transaction ≡ false }
{
    let mut tx = conn.transaction();
    raise_all::<D, S>(alloc, &mut tx, older, rows)?;
    commit(tx)
}
