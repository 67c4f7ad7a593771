ghost use Rattle.std.specs.Prelude.{◌≡◌, ◌≤◌, IfOk, All, length};
ghost use Rattle.std.specs.Cmp.{partial_equiv_from_equiv};
ghost use Rattle.fare_cap.specs.Same.{same_bill, same_bill_equiv};
ghost use Rattle.fare_cap.specs.Bills.{bill_of, total_of, row_of, bill_rows};

use crate::counting::accounts_on;
use crate::fares::amount;
use crate::{Account, Rides, Row, in_order};
use fare_record::{Day, Record};
use fare_scheme::Scheme;
use std::alloc::{AllocError, Global};
use std::marker::Model;

/// What the accounts pay for a day.
#[derive(Debug, Drop)]
pub struct Bill {
    rows: Vec<Row>,
    total: u128,
}

impl Model for Bill {
    ghost use Rattle.fare_cap.specs.Bills.{BillValue};

    ghost Value = { BillValue };

    ghost view = { λ bill. record { rows = bill.rows.items; total = bill.total } };
}

impl PartialEq for Bill {
    ghost eq = { same_bill };

    ghost laws = { partial_equiv_from_equiv same_bill_equiv };

    fn eq(&self, other: &Bill) -> bool {
        self.rows == other.rows && self.total == other.total
    }
}

impl Eq for Bill {
    ghost laws = { same_bill_equiv };
}

impl Bill {
    /// A row for each account with a tap that counts on the day, ascending by product, then token.
    pub fn rows(&self) -> &[Row]
        ensures { result.now ≡ self.now.rows }
    {
        &self.rows
    }

    /// The sum of the rows' amounts, in pence.
    pub fn total(&self) -> u128
        ensures { result ≡ self.now.total }
    {
        self.total
    }
}

// The sum of the rows' amounts.
fn total(rows: &[Row]) -> u128
    requires { All (λ (row : Row). row.amount ≤ 10000000) rows.now }
    ensures { result ≡ total_of rows.now }
{
    let mut total = 0;
    for row in rows {
        total += row.amount.get() as u128;
    }
    total
}

// A row for each account with a tap on the day, of records in order.
fn rows(
    alloc: Global,
    scheme: &Scheme,
    ordered: &[Record],
    day: Day,
) -> Result<Vec<Row>, AllocError>
    ensures value { IfOk result (λ rows. rows.items ≡ bill_rows scheme.now ordered.now day) }
    ensures capped { IfOk result (λ rows. All (λ (row : Row). row.amount ≤ 10000000) rows.items) }
{
    let rides = Rides::count(alloc, scheme, ordered)?;
    let accounts = accounts_on(alloc, scheme, ordered, day)?;
    let mut rows = Vec::new(alloc);
    for account in &accounts {
        rows.push(Row {
            account: *account,
            rides: rides.get(*account, day).taps,
            amount: amount(scheme, &rides, *account, day),
        })?;
    }
    Ok(rows)
}

/// The bill of a day, by these records: its rows tell how many taps of each account count on the day, free ones too,
/// and by how much the day's fare, that of the paid ones and at most the daily cap, raises what the account's week comes
/// to under the weekly cap. A tap of an unknown product or device, or of a day before the scheme's first one, counts
/// nowhere. The one error is want of memory.
pub fn day_bill(
    alloc: Global,
    scheme: &Scheme,
    taps: &[Record],
    day: Day,
) -> Result<Bill, AllocError>
    ensures { IfOk result (λ bill. bill ≡ bill_of scheme.now taps.now day) }
{
    let ordered = in_order(alloc, taps)?;
    let rows = rows(alloc, scheme, &ordered, day)?;
    let total = total(&rows);
    Ok(Bill { rows, total })
}
