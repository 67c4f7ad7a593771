ghost use Rattle.std.specs.Prelude.{◌≡◌, ℕ, ◌≤◌, ◌+◌, IfOk, IfErr};
ghost use Rattle.sqlite_value.specs.Order.{column};
ghost use Rattle.fare_record.specs.Limits.{IsNumber, IsCount, IsDay};
ghost use Rattle.fare_record.specs.Values.{TapValue};
ghost use Rattle.fare_tables.specs.Cells.{int};
ghost use Rattle.fare_tables.specs.Records.{HoldsNone, IsTap, ShowsTap};

use crate::cell_number;
use fare_record::{Day, LAST_NUMBER, Moment, ProductId, Tap, Token};
use fare_store::Fault;
use sqlite::Row;

/// The link or lane number of a cell. A cell with no number that a device gives a tap answers Store.
pub fn cell_tap_number(row: &Row, at: usize) -> Result<u64, Fault>
    ensures read { IfOk result (λ n. column row.now at ≡ int n) }
    ensures valid { IfOk result IsNumber }
    ensures none { IfErr result (λ fault. (fault ≡ Fault.Store) × HoldsNone IsNumber row.now at) }
{
    let n = cell_number(row, at)?;
    if n == 0 || n > LAST_NUMBER {
        return Err(Fault::Store);
    }
    Ok(n)
}

/// The count of a cell. A cell with no count answers Store.
pub fn cell_count(row: &Row, at: usize) -> Result<u64, Fault>
    ensures read { IfOk result (λ n. column row.now at ≡ int n) }
    ensures valid { IfOk result IsCount }
    ensures none { IfErr result (λ fault. (fault ≡ Fault.Store) × HoldsNone IsCount row.now at) }
{
    let n = cell_number(row, at)?;
    if n > LAST_NUMBER {
        return Err(Fault::Store);
    }
    Ok(n)
}

/// The day of a cell. A cell with no day answers Store.
pub fn cell_day(row: &Row, at: usize) -> Result<Day, Fault>
    ensures read { IfOk result (λ day. column row.now at ≡ int day) }
    ensures none { IfErr result (λ fault. (fault ≡ Fault.Store) × HoldsNone IsDay row.now at) }
{
    match Day::new(cell_number(row, at)?) {
        Some(day) => Ok(day),
        None => Err(Fault::Store),
    }
}

/// The tap of five cells from a place on: product, token, moment, day and route. Where one of them holds no such number
/// within its limits, it answers Store.
pub fn tap_in_cells(row: &Row, from: usize) -> Result<Tap, Fault>
    requires { from ≤ 1000 }
    ensures read { IfOk result (ShowsTap row.now from) }
    ensures none { IfErr result (λ fault. (fault ≡ Fault.Store) × ((t : TapValue) → IsTap t → ¬ ShowsTap row.now from t)) }
{
    let product = cell_number(row, from)?;
    let token = cell_number(row, from + 1)?;
    let moment = cell_number(row, from + 2)?;
    let day = cell_day(row, from + 3)?;
    let route = u16::try_from(cell_number(row, from + 4)?);
    match (
        ProductId::new(product),
        Token::new(token),
        Moment::new(moment),
        route,
    ) {
        (Some(product), Some(token), Some(moment), Ok(route)) => {
            Ok(Tap::new(product, token, moment, day, route))
        }
        _ => Err(Fault::Store),
    }
}
