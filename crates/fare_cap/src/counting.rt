ghost use Rattle.std.specs.Prelude.{◌≡◌, ◌&&◌, ◌==◌, is_some, IfSome, IfOk};
ghost use Rattle.fare_cap.specs.Accounts.{account_of, counts as is_counted, counted_on, accounts_of};
ghost use Rattle.fare_cap.specs.Fares.{hop_of};

use crate::Account;
use fare_record::{Day, Record};
use fare_scheme::Scheme;
use std::alloc::{AllocError, Global};
use std::collections::BTreeSet;

// The window of a record's product, where the record counts: its product and its device are registered, and its day
// isn't before the scheme's first one.
pub(crate) fn counted_hop(scheme: &Scheme, tap: Record) -> Option<u32>
    ensures found { is_some result ≡ is_counted scheme.now tap }
    ensures value { IfSome result (λ hop. hop ≡ hop_of scheme.now (account_of tap)) }
{
    let tariff = scheme.tariff_of(tap.tap().product())?;
    scheme.operator_of(tap.device())?;
    if tap.tap().day() < scheme.start() {
        return None;
    }
    Some(tariff.hop)
}

/// Whether a record counts on a day: it is of that day, its product and its device are registered, and the day isn't
/// before the scheme's first one.
pub fn counts_on(scheme: &Scheme, day: Day, tap: Record) -> bool
    ensures { result ≡ (is_counted scheme.now tap && tap.tap.day == day) }
{
    // the day first, which is told without a look-up
    tap.tap().day() == day && counted_hop(scheme, tap).is_some()
}

// The accounts with a tap that counts on the day, ascending.
pub(crate) fn accounts_on(
    alloc: Global,
    scheme: &Scheme,
    records: &[Record],
    day: Day,
) -> Result<BTreeSet<Account>, AllocError>
    ensures { IfOk result (λ accounts. accounts.keys ≡ accounts_of (counted_on scheme.now day records.now)) }
{
    let mut accounts = BTreeSet::new(alloc);
    for tap in records {
        if counts_on(scheme, day, *tap) {
            accounts.insert(Account::of(*tap))?;
        }
    }
    Ok(accounts)
}
