ghost use Rattle.std.specs.Prelude.{◌≡◌, false, [], IsTrue, IfOk, OnOk, Ok, MatchOption};
ghost use Rattle.sqlite.specs.State.{HasCleanDisk, Survives, Shown, QueriesRow};
ghost use Rattle.sqlite.specs.Held.{state};
ghost use Rattle.sqlite.specs.Values.{bound};
ghost use Rattle.fare_tables.specs.Asking.{IsLive, SameRows, Reads};

use crate::fault_of;
use fare_store::Fault;
use sqlite::types::ValueRef;
use sqlite::{Alter, Connection, Error, Row};

/// Whether the connection is open: it compiles a short text. A later question on a connection that has passed
/// this commits nothing, whatever was before.
pub fn touch<S: Alter>(conn: &mut Connection<S>) -> Result<(), Fault>
    ensures same { IsLive (state S.Store conn.new) → (state S.Store conn.old).now ≡ (state S.Store conn.old).committed → SameRows (state S.Store conn.old) (state S.Store conn.new) }
    ensures crash { Survives (state S.Store conn.old) (state S.Store conn.new) (λ _. ⊥) }
    ensures live { IsLive (state S.Store conn.new) → IsLive (state S.Store conn.old) }
    ensures stays { HasCleanDisk (state S.Store conn.new) → OnOk result (IsTrue (state S.Store conn.new).is_open) }
    ensures mode { conn.old.in_transaction ≡ false → conn.new.in_transaction ≡ false }
{
    match conn.prepare("SELECT 1") {
        Ok(_) => Ok(()),
        Err(error) => Err(fault_of(error)),
    }
}

/// The first row of the answer to a text that only reads, if there is one.
pub fn ask<S: Alter>(
    conn: &mut Connection<S>,
    sql: &str,
    params: &[ValueRef<'_>],
) -> Result<Option<Row>, Fault>
    ensures row { HasCleanDisk (state S.Store conn.new) → Reads (state S.Store conn.old).now.schema sql.now → IfOk result (λ first. MatchOption first
        (Shown sql.now (bound params.now) (state S.Store conn.old) (state S.Store conn.new) [])
        (λ row. QueriesRow sql.now (bound params.now) (state S.Store conn.old) (state S.Store conn.new) (Ok row))) }
    ensures same { IsLive (state S.Store conn.new) → Reads (state S.Store conn.old).now.schema sql.now → (state S.Store conn.old).now ≡ (state S.Store conn.old).committed → SameRows (state S.Store conn.old) (state S.Store conn.new) }
    ensures crash { Survives (state S.Store conn.old) (state S.Store conn.new) (λ _. ¬ Reads (state S.Store conn.old).now.schema sql.now) }
    ensures live { IsLive (state S.Store conn.new) → IsLive (state S.Store conn.old) }
    ensures stays { HasCleanDisk (state S.Store conn.new) → OnOk result (IsTrue (state S.Store conn.new).is_open) }
    ensures mode { conn.old.in_transaction ≡ false → conn.new.in_transaction ≡ false }
{
    match conn.query_row(sql, params) {
        Ok(row) => Ok(Some(row)),
        Err(Error::QueryReturnedNoRows) => Ok(None),
        Err(error) => Err(fault_of(error)),
    }
}

/// All rows of the answer to a text that only reads.
pub fn ask_all<S: Alter>(
    conn: &mut Connection<S>,
    sql: &str,
    params: &[ValueRef<'_>],
) -> Result<Vec<Row>, Fault>
    ensures rows { HasCleanDisk (state S.Store conn.new) → IfOk result (λ rows. Shown sql.now (bound params.now) (state S.Store conn.old) (state S.Store conn.new) rows.items) }
    ensures same { IsLive (state S.Store conn.new) → Reads (state S.Store conn.old).now.schema sql.now → (state S.Store conn.old).now ≡ (state S.Store conn.old).committed → SameRows (state S.Store conn.old) (state S.Store conn.new) }
    ensures crash { Survives (state S.Store conn.old) (state S.Store conn.new) (λ _. ¬ Reads (state S.Store conn.old).now.schema sql.now) }
    ensures live { IsLive (state S.Store conn.new) → IsLive (state S.Store conn.old) }
    ensures stays { HasCleanDisk (state S.Store conn.new) → OnOk result (IsTrue (state S.Store conn.new).is_open) }
    ensures mode { conn.old.in_transaction ≡ false → conn.new.in_transaction ≡ false }
{
    match conn.query_all(sql, params) {
        Ok(rows) => Ok(rows),
        Err(error) => Err(fault_of(error)),
    }
}
