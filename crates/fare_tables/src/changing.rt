ghost use Rattle.std.specs.Prelude.{◌≡◌, false, IsTrue, IfOk, OnErr, OnOk, Ok};
ghost use Rattle.sqlite.specs.State.{HasCleanDisk, Survives, Executes, Commits};
ghost use Rattle.sqlite.specs.Held.{state};
ghost use Rattle.sqlite.specs.Values.{bound};
ghost use Rattle.fare_tables.specs.Asking.{Inside, Undoes};

use crate::fault_of;
use fare_store::Fault;
use sqlite::types::ValueRef;
use sqlite::{Alter, Transaction};

/// One statement of a transaction, and how many rows it changed. Nothing is committed.
pub fn change<S: Alter>(
    tx: &mut Transaction<'_, S>,
    sql: &str,
    params: &[ValueRef<'_>],
) -> Result<usize, Fault>
    ensures same_reference { tx.new.conn.ghost_name ≡ tx.old.conn.ghost_name }
    ensures ran { HasCleanDisk (state S.Store tx.new.conn.now) → IsTrue (state S.Store tx.old.conn.now).in_transaction → IfOk result (λ count.
        Executes sql.now (bound params.now) (state S.Store tx.old.conn.now) (state S.Store tx.new.conn.now) (Ok count) × IsTrue (state S.Store tx.new.conn.now).in_transaction) }
    ensures inside { HasCleanDisk (state S.Store tx.new.conn.now) → Inside (state S.Store tx.old.conn.now) (state S.Store tx.new.conn.now) }
    ensures survives { Survives (state S.Store tx.old.conn.now) (state S.Store tx.new.conn.now) (λ _. ⊥) }
{
    match tx.execute(sql, params) {
        Ok(count) => Ok(count),
        Err(error) => Err(fault_of(error)),
    }
}

/// Ends a transaction, so that all that it changed is committed. Where that fails nothing of it is.
pub fn commit<S: Alter>(tx: Transaction<'_, S>) -> Result<(), Fault>
    ensures ended { tx.exit.0.now.in_transaction ≡ false }
    ensures done { HasCleanDisk (state S.Store tx.exit.0.now) → OnOk result (IsTrue (state S.Store tx.entry.conn.now).in_transaction × Commits (state S.Store tx.entry.conn.now) (state S.Store tx.exit.0.now)) }
    ensures undone { HasCleanDisk (state S.Store tx.exit.0.now) → OnErr result (Undoes (state S.Store tx.entry.conn.now) (state S.Store tx.exit.0.now)) }
    ensures survives { Survives (state S.Store tx.entry.conn.now) (state S.Store tx.exit.0.now) (λ trees. trees ≡ (state S.Store tx.entry.conn.now).now.trees) }
{
    match tx.commit() {
        Ok(()) => Ok(()),
        Err(error) => Err(fault_of(error)),
    }
}
