ghost use Rattle.std.specs.Prelude.{◌≡◌, false, [], IsTrue, IfOk, OnOk, Ok, MatchOption};
ghost use Rattle.sqlite.specs.State.{HasCleanDisk, Survives, Shown, QueriesRow};
ghost use Rattle.sqlite.specs.Held.{state};
ghost use Rattle.sqlite.specs.Values.{bound};
ghost use Rattle.fare_tables.specs.Asking.{IsLive, IsAtRest, SameRows, Reads};
ghost use Rattle.fare_outbox_rows.specs.Layouts.{schema_in};

use crate::Layout;
use fare_store::Fault;
use sqlite::types::ValueRef;
use sqlite::{Alter, Connection, Row};

/// The first row of the answer to a text that only reads the tables, in the database where they stand. A read that
/// fails answers Store, and want of memory Memory; it leaves the rows as they were.
pub fn ask<S: Alter>(
    conn: &mut Connection<S>,
    layout: &Layout,
    sql: &str,
    params: &[ValueRef<'_>],
) -> Result<Option<Row>, Fault>
    requires { Reads (schema_in layout.now) sql.now }
    ensures row { HasCleanDisk (state S.Store conn.new) → IsAtRest (schema_in layout.now) (state S.Store conn.old) → IfOk result (λ first. MatchOption first
        (Shown sql.now (bound params.now) (state S.Store conn.old) (state S.Store conn.new) [])
        (λ row. QueriesRow sql.now (bound params.now) (state S.Store conn.old) (state S.Store conn.new) (Ok row))) }
    ensures same { IsLive (state S.Store conn.new) → IsAtRest (schema_in layout.now) (state S.Store conn.old) → SameRows (state S.Store conn.old) (state S.Store conn.new) }
    ensures crash { Survives (state S.Store conn.old) (state S.Store conn.new) (λ _. ¬ IsAtRest (schema_in layout.now) (state S.Store conn.old)) }
    ensures live { IsLive (state S.Store conn.new) → IsLive (state S.Store conn.old) }
    ensures stays { HasCleanDisk (state S.Store conn.new) → OnOk result (IsTrue (state S.Store conn.new).is_open) }
    ensures mode { conn.old.in_transaction ≡ false → conn.new.in_transaction ≡ false }
{
    fare_opening::ask(conn, &layout.schema, sql, params)
}
