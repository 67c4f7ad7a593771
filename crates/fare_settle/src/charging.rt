ghost use Rattle.std.specs.Prelude.{◌≡◌, ◌≤◌, IsTrue, IfOk, All};
ghost use Rattle.fare_cap.specs.Accounts.{account_of, counts};
ghost use Rattle.fare_cap.specs.Order.{in_order as ordered_list};
ghost use Rattle.fare_cap.specs.RidesWords.{paid_by};
ghost use Rattle.fare_settle.specs.Charges.{charge_by, charges_of};

use crate::Charge;
use fare_cap::{Account, Rides, counts_on, day_fare, fares_before, hop_of, in_order};
use fare_record::{Day, Pence, Record};
use fare_scheme::{Scheme, Tariff};
use std::alloc::{AllocError, Global};

// The charge of a tap that counts, by how many taps of its account are paid on the day before it and with it.
fn charge(scheme: &Scheme, rides: &Rides, day: Day, tap: Record, before: u64, after: u64) -> Charge
    requires counted { IsTrue (counts scheme.now tap) }
    requires grows { before ≤ after }
    ensures value { result ≡ charge_by scheme.now (paid_by rides.now (account_of tap)) day tap before after }
    ensures capped { result.amount ≤ 10000000 }
{
    let (Some(operator), Some(tariff)) = (
        scheme.operator_of(tap.device()),
        scheme.tariff_of(tap.tap().product()),
    ) else {
        unreachable!()
    };
    let week = fares_before(scheme, rides, &tariff, Account::of(tap), day).get();
    let from = week + day_fare(&tariff, before).get();
    let to = week + day_fare(&tariff, after).get();
    let weekly = tariff.weekly.get();
    Charge {
        operator,
        route: tap.tap().route(),
        amount: Pence::new(weekly.min(to) - weekly.min(from)),
    }
}

// The charge of each tap of the day that counts, of records in order: one walk, with a table of the taps so far.
fn charges_in_order(
    alloc: Global,
    scheme: &Scheme,
    ordered: &[Record],
    day: Day,
) -> Result<Vec<Charge>, AllocError>
    ensures value { IfOk result (λ charges. charges.items ≡ charges_of scheme.now ordered.now day) }
    ensures capped { IfOk result (λ charges. All (λ (c : Charge). c.amount ≤ 10000000) charges.items) }
{
    let rides = Rides::count(alloc, scheme, ordered)?;
    let mut so_far = Rides::new(alloc);
    let mut charges = Vec::new(alloc);
    for tap in ordered {
        if counts_on(scheme, day, *tap) {
            let account = Account::of(*tap);
            let before = so_far.get(account, day).paid;
            so_far.add(*tap, hop_of(scheme, account))?;
            let after = so_far.get(account, day).paid;
            charges.push(charge(scheme, &rides, day, *tap, before, after))?;
        }
    }
    Ok(charges)
}

/// The charge of each tap of the day, by moment, device and lane number; those that tie keep the places that they
/// have in the list. A tap that is free is charged 0. One of an unknown product or device, or of a day before the scheme's
/// first one, is charged nowhere. The one error is want of memory.
pub fn charges(
    alloc: Global,
    scheme: &Scheme,
    taps: &[Record],
    day: Day,
) -> Result<Vec<Charge>, AllocError>
    ensures value { IfOk result (λ charges. charges.items ≡ charges_of scheme.now (ordered_list taps.now) day) }
    ensures capped { IfOk result (λ charges. All (λ (c : Charge). c.amount ≤ 10000000) charges.items) }
{
    let ordered = in_order(alloc, taps)?;
    charges_in_order(alloc, scheme, &ordered, day)
}
