ghost use Rattle.std.specs.Prelude.{◌≡◌, ◌≢◌, ℕ, ◌<◌, ◌^◌, pos, IfOk, IfErr};
ghost use Rattle.sqlite_value.specs.Order.{column};
ghost use Rattle.fare_tables.specs.Cells.{int};

use fare_store::Fault;
use sqlite::Row;
use sqlite::types::ValueRef;

/// A number as a parameter of a statement.
pub fn parameter(n: u64) -> ValueRef<'static>
    requires { n < 2 ^ 63 }
    ensures { result ≡ ValueRef.Int (pos n) }
{
    ValueRef::Int(n as i64)
}

/// The number of a cell, counted from 0. A cell with no number, or with a negative one, answers Store.
pub fn cell_number(row: &Row, at: usize) -> Result<u64, Fault>
    ensures read { IfOk result (λ n. column row.now at ≡ int n) }
    ensures none { IfErr result (λ fault. (fault ≡ Fault.Store) × ((n : ℕ) → column row.now at ≢ int n)) }
{
    match row.get_ref(at) {
        Ok(ValueRef::Int(n)) => {
            if n >= 0 {
                Ok(n as u64)
            } else {
                Err(Fault::Store)
            }
        }
        _ => Err(Fault::Store),
    }
}

/// What `count(*)` shows in a cell. SQLite ends a count at its greatest integer: that one answers Store, as does a
/// cell with no number or with a negative one.
pub fn cell_total(row: &Row, at: usize) -> Result<u64, Fault>
    ensures read { IfOk result (λ n. column row.now at ≡ int n) }
    ensures valid { IfOk result (λ n. n < 9223372036854775807) }
    ensures none { IfErr result (λ fault. (fault ≡ Fault.Store) × ((n : ℕ) → n < 9223372036854775807 → column row.now at ≢ int n)) }
{
    let n = cell_number(row, at)?;
    if n < 9_223_372_036_854_775_807 {
        Ok(n)
    } else {
        Err(Fault::Store)
    }
}
