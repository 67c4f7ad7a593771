ghost use Rattle.std.specs.Prelude.{◌≡◌, ◌↔◌, Some, IfOk, IfErr, OnOk, IsTrue};
ghost use Rattle.fare_store.specs.declared.fault.Fault.TheVariants as fault;
ghost use Rattle.fare_store.specs.LedgerWords.{IsEmptyLedger};
ghost use Rattle.fare_store.specs.Standing.{fault_of};
ghost use Rattle.fare_world.specs.Making.{AreOfOwners, EachLedger, AreLedgersKept, LedgerFailed, AllLive, AllLawful, AllEmpty, AreKept, SomeFailed, MayBeMade, WhyRefused, store_fault};

use crate::world::WorldFault;
use fare_scheme::Scheme;
use fare_store::{Fault, Ledger, Outbox};

// Whether a world can be made of these stores: there is one ledger for each owner, and all of them are empty.
pub(super) fn judge<O: Outbox, L: Ledger>(
    scheme: &Scheme,
    outbox: &mut O,
    ledgers: &mut [L],
) -> Result<(), WorldFault>
    ensures may_be { OnOk result (MayBeMade O.standing L.standing scheme.now outbox.old ledgers.old outbox.new ledgers.new) }
    ensures kept { IfErr result (λ fault. AreKept O.standing L.standing outbox.old ledgers.old outbox.new ledgers.new (store_fault fault)) }
    ensures why { IfErr result (WhyRefused O.standing L.standing scheme.now outbox.old ledgers.old outbox.new ledgers.new) }
{
    if !are_of_owners(scheme, ledgers) {
        return Err(WorldFault::WrongLedgers);
    }
    match are_all_empty(outbox, ledgers) {
        Ok(true) => Ok(()),
        Ok(false) => Err(WorldFault::NotEmpty),
        Err(Fault::Memory) => Err(WorldFault::Memory),
        Err(Fault::Store) => Err(WorldFault::Store),
    }
}

// Whether there is one ledger for each owner of the scheme, in order.
fn are_of_owners<L: Ledger>(scheme: &Scheme, ledgers: &[L]) -> bool
    ensures { IsTrue result ↔ AreOfOwners L.standing scheme.now ledgers.now }
{
    if ledgers.len() != scheme.owner_count() {
        return false;
    }
    for (place, ledger) in ledgers.iter().enumerate() {
        let Some(owner) = scheme.owner_at(place) else {
            unreachable!()
        };
        if ledger.owner() != owner {
            return false;
        }
    }
    true
}

// Whether all stores are empty. A store is asked only where those before it are.
fn are_all_empty<O: Outbox, L: Ledger>(outbox: &mut O, ledgers: &mut [L]) -> Result<bool, Fault>
    ensures kept { AreKept O.standing L.standing outbox.old ledgers.old outbox.new ledgers.new (fault_of result) }
    ensures empty { IfOk result (λ empty. AllLive O.standing L.standing outbox.new ledgers.new → AllLawful O.standing L.standing outbox.old ledgers.old → (IsTrue empty ↔ AllEmpty O.standing L.standing outbox.old ledgers.old)) }
    ensures cause { fault_of result ≡ Some fault.Store → SomeFailed O.standing L.standing outbox.old ledgers.old outbox.new ledgers.new }
{
    if outbox.is_empty()? {
        are_empty(ledgers)
    } else {
        Ok(false)
    }
}

// Whether all ledgers are empty.
fn are_empty<L: Ledger>(ledgers: &mut [L]) -> Result<bool, Fault>
    ensures kept { AreLedgersKept L.standing ledgers.old ledgers.new (fault_of result) }
    ensures empty { IfOk result (λ empty. EachLedger L.standing (λ s. s.live) ledgers.new → EachLedger L.standing (λ s. s.lawful) ledgers.old → (IsTrue empty ↔ EachLedger L.standing (λ s. IsEmptyLedger s.value) ledgers.old)) }
    ensures cause { fault_of result ≡ Some fault.Store → LedgerFailed L.standing ledgers.old ledgers.new }
{
    for ledger in ledgers.iter_mut() {
        if !ledger.is_empty()? {
            return Ok(false);
        }
    }
    Ok(true)
}
