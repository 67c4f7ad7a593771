ghost use Rattle.std.specs.Prelude.{◌≡◌, false, [], IsTrue, IfOk, OnOk, Ok, MatchOption};
ghost use Rattle.sqlite.specs.State.{HasCleanDisk, Survives, Shown, QueriesRow};
ghost use Rattle.sqlite.specs.Held.{state};
ghost use Rattle.sqlite.specs.Values.{bound};
ghost use Rattle.fare_tables.specs.Asking.{IsLive, IsAtRest, SameRows, Reads};

use fare_store::Fault;
use sqlite::types::ValueRef;
use sqlite::{Alter, Connection, Row};
use sqlite_schema::schema::Schema;

/// The first row of the answer to a text that only reads under a schema, which is the database's.
pub fn ask<S: Alter>(
    conn: &mut Connection<S>,
    schema: &Schema,
    sql: &str,
    params: &[ValueRef<'_>],
) -> Result<Option<Row>, Fault>
    requires { Reads schema.now sql.now }
    ensures row { HasCleanDisk (state S.Store conn.new) → IsAtRest schema.now (state S.Store conn.old) → IfOk result (λ first. MatchOption first
        (Shown sql.now (bound params.now) (state S.Store conn.old) (state S.Store conn.new) [])
        (λ row. QueriesRow sql.now (bound params.now) (state S.Store conn.old) (state S.Store conn.new) (Ok row))) }
    ensures same { IsLive (state S.Store conn.new) → IsAtRest schema.now (state S.Store conn.old) → SameRows (state S.Store conn.old) (state S.Store conn.new) }
    ensures crash { Survives (state S.Store conn.old) (state S.Store conn.new) (λ _. ¬ IsAtRest schema.now (state S.Store conn.old)) }
    ensures live { IsLive (state S.Store conn.new) → IsLive (state S.Store conn.old) }
    ensures stays { HasCleanDisk (state S.Store conn.new) → OnOk result (IsTrue (state S.Store conn.new).is_open) }
    ensures mode { conn.old.in_transaction ≡ false → conn.new.in_transaction ≡ false }
{
    fare_tables::ask(conn, sql, params)
}

/// All rows of the answer to such a text.
pub fn ask_rows<S: Alter>(
    conn: &mut Connection<S>,
    schema: &Schema,
    sql: &str,
    params: &[ValueRef<'_>],
) -> Result<Vec<Row>, Fault>
    requires { Reads schema.now sql.now }
    ensures rows { HasCleanDisk (state S.Store conn.new) → IfOk result (λ rows. Shown sql.now (bound params.now) (state S.Store conn.old) (state S.Store conn.new) rows.items) }
    ensures same { IsLive (state S.Store conn.new) → IsAtRest schema.now (state S.Store conn.old) → SameRows (state S.Store conn.old) (state S.Store conn.new) }
    ensures crash { Survives (state S.Store conn.old) (state S.Store conn.new) (λ _. ¬ ((state S.Store conn.old).now.schema ≡ schema.now)) }
    ensures live { IsLive (state S.Store conn.new) → IsLive (state S.Store conn.old) }
    ensures stays { HasCleanDisk (state S.Store conn.new) → OnOk result (IsTrue (state S.Store conn.new).is_open) }
    ensures mode { conn.old.in_transaction ≡ false → conn.new.in_transaction ≡ false }
{
    fare_tables::ask_all(conn, sql, params)
}
