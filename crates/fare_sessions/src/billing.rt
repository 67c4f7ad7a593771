//! What an owner is charged for a day, and what each operator gets of it, by the hub's ledgers.
ghost use Rattle.std.specs.Prelude.{◌≡◌, ◌≢◌, ◌≤◌, ◌<◌, ℕ, None, true, List, IfOk};
ghost use Rattle.fare_cap.specs.Bills.{bill_of};
ghost use Rattle.fare_cap.specs.Fares.{week_start};
ghost use Rattle.fare_record.specs.Limits.{IsDay};
ghost use Rattle.fare_record.specs.Values.{RecordValue};
ghost use Rattle.fare_scheme.specs.Words.{position_of_owner};
ghost use Rattle.fare_settle.specs.Settling.{settlement_of};
ghost use Rattle.fare_store.specs.Standing.{Calls, Reads, fault_in};
ghost use Rattle.fare_store.specs.LedgerWords.{AreTapsBetween};
ghost use Rattle.fare_world.specs.Knowing.{knows_owner};
ghost use Rattle.fare_side.specs.Answering.{Answered};
ghost use Rattle.fare_side.specs.declared.bill_fault.BillFault.TheVariants.{UnknownOwner, BeforeStart};
ghost use Rattle.fare_history.specs.Stores.{StoresValue};
ghost use Rattle.fare_agreement.specs.Agreeing.{AreNumberedLists, Agrees};
ghost use Rattle.fare_agreement.specs.Parts.{parts_of, first_forgotten};
ghost use Rattle.fare_sessions.specs.declared.billing.BillingFault.TheVariants.{Unbilled};
ghost use Rattle.fare_sessions.specs.Billing.{refusal_of, gone_in, open_in, short_in, TellsWeek, HasAsked, HasBasis, OnlyReads, IsBillRefusal, IsRefusedAtOnce};
ghost use Rattle.fare_sessions.specs.Stores.{HasLedgers, AreClean, AreSound, MayStandAs};

use crate::hub::Hub;
use fare_cap::{Bill, day_bill, week_start};
use fare_record::{Day, DeviceId, OwnerId};
use fare_scheme::Scheme;
use fare_settle::{Settlement, settle};
use fare_store::{Fault, Ledger, Outbox, Refused};
use fare_world::{BillFault, WeekTaps, taps_of_week};
use std::alloc::Global;
use thiserror::Error;

/// Why there is no bill and no settlement of a day, in the order in which this is tested: `UnknownOwner` and
/// `BeforeStart`, then `Forgotten`, then `NotClosed`.
#[derive(Clone, Copy, PartialEq, Eq, Debug, Error)]
pub enum BillingFault {
    /// There is none, whatever is held.
    #[error("there is no bill")]
    Unbilled(BillFault),
    /// Not all taps of the day's week are held of this device, the first such one in order of registration.
    #[error("taps of the week were let go")]
    Forgotten { device: DeviceId },
}

// The first device of which not all from a day on is held, if there is one.
fn first_unheld<L: Ledger>(
    scheme: &Scheme,
    ledger: &mut L,
    day: Day,
) -> Result<Option<DeviceId>, Fault>
    ensures { Reads (L.standing ledger.old) (L.standing ledger.new) (λ found. found ≡ first_forgotten (L.standing ledger.old).value.from day scheme.now.devices) result }
{
    for device in scheme.devices() {
        let from = ledger.held_from(*device)?;
        if from > day {
            return Ok(Some(*device));
        }
    }
    Ok(None)
}

// The taps that a ledger holds from where the week of a day begins to the day, where all of them are held and it has
// closed the day of each device of the scheme or retired its lane.
fn taps_of_held_week<L: Ledger>(
    alloc: Global,
    scheme: &Scheme,
    ledger: &mut L,
    day: Day,
) -> Result<WeekTaps, Refused<BillingFault>>
    ensures tells { Calls (L.standing ledger.old) (L.standing ledger.new) (fault_in result) (((L.standing ledger.new).value ≡ (L.standing ledger.old).value) × ((L.standing ledger.old).value.start ≤ day → Answered (TellsWeek scheme.now day (L.standing ledger.old).value) result)) (λ v. ⊥) }
    ensures dated { IsDay day }
{
    prove!(day.get() <= 100_000);
    if let Some(device) = first_unheld(scheme, ledger, week_start(scheme, day))? {
        return Err(Refused::Because(BillingFault::Forgotten { device }));
    }
    match taps_of_week(alloc, scheme, ledger, day) {
        Ok(week) => Ok(week),
        Err(Refused::Because(why)) => Err(Refused::Because(BillingFault::Unbilled(why))),
        Err(Refused::Failed(fault)) => Err(Refused::Failed(fault)),
    }
}

impl<O: Outbox, L: Ledger> Hub<O, L> {
    /// An owner's bill of a day: the capped fare, account by account, of the taps that its ledger has from where the
    /// day's week begins to the day; where the rows agree with the lists of what the devices numbered, of exactly the
    /// owner's parts of these, but that of a retired lane it has what was taken. There is one only once the owner has
    /// closed the day of each device or retired its lane, and only as long as nothing of the week was let go. With it
    /// the devices of which it is short, in order of registration: their lanes are retired, and the day was not closed.
    ///
    /// Refused by the first case of `BillingFault` that applies, by `UnknownOwner` and `BeforeStart` before a store is
    /// asked; then `Memory` where there was none for it, and `Store` where the owner's ledger failed. The stores hold what
    /// they held.
    pub fn bill(
        &mut self,
        alloc: Global,
        owner: OwnerId,
        day: Day,
    ) -> Result<(Bill, Vec<DeviceId>), Refused<BillingFault>>
        requires ledgers { HasLedgers self.old }
        ensures reads { OnlyReads O.standing L.standing self.old self.new }
        ensures unknown { position_of_owner self.old.scheme owner ≡ None → IsRefusedAtOnce self.old self.new (Unbilled UnknownOwner) result }
        ensures early { position_of_owner self.old.scheme owner ≢ None → day < self.old.scheme.start → IsRefusedAtOnce self.old self.new (Unbilled BeforeStart) result }
        ensures cause { position_of_owner self.old.scheme owner ≢ None → self.old.scheme.start ≤ day → HasAsked L.standing self.old self.new owner (fault_in result) }
        ensures refused { AreClean O.standing L.standing self.new → AreSound O.standing L.standing self.old → IsBillRefusal O.standing L.standing self.old owner day (refusal_of result) }
        ensures held { AreClean O.standing L.standing self.new → AreSound O.standing L.standing self.old → IfOk result (λ _. (h : StoresValue) → MayStandAs O.standing L.standing self.old h → gone_in self.old.scheme (h.ledgers owner) day ≡ None) }
        ensures closed { AreClean O.standing L.standing self.new → AreSound O.standing L.standing self.old → IfOk result (λ _. (h : StoresValue) → MayStandAs O.standing L.standing self.old h → open_in self.old.scheme (h.ledgers owner) day ≡ None) }
        ensures short { AreClean O.standing L.standing self.new → AreSound O.standing L.standing self.old → IfOk result (λ told. (h : StoresValue) → MayStandAs O.standing L.standing self.old h → told.1.items ≡ short_in self.old.scheme (h.ledgers owner) day) }
        ensures taken { AreClean O.standing L.standing self.new → AreSound O.standing L.standing self.old → IfOk result (λ told. (rows : List RecordValue) × ((h : StoresValue) → MayStandAs O.standing L.standing self.old h → AreTapsBetween (h.ledgers owner) (week_start self.old.scheme day) day rows) × (told.0 ≡ bill_of self.old.scheme rows day)) }
        ensures value { AreClean O.standing L.standing self.new → AreSound O.standing L.standing self.old → IfOk result (λ told. (lists : ℕ → List RecordValue) (h : StoresValue) → AreNumberedLists lists → MayStandAs O.standing L.standing self.old h → Agrees self.old.scheme lists h → told.0 ≡ bill_of self.old.scheme (parts_of self.old.scheme lists (h.ledgers owner) owner) day) }
    {
        let (taps, short) = self.basis(alloc, owner, day)?.into_parts();
        let bill = day_bill(alloc, &self.scheme, &taps, day)?;
        Ok((bill, short))
    }

    /// What each operator gets of an owner's bill of a day, in order of registration, and the devices of which it is
    /// short.
    ///
    /// Refused and failed as `bill`. The stores hold what they held.
    pub fn settlement(
        &mut self,
        alloc: Global,
        owner: OwnerId,
        day: Day,
    ) -> Result<(Settlement, Vec<DeviceId>), Refused<BillingFault>>
        requires ledgers { HasLedgers self.old }
        ensures reads { OnlyReads O.standing L.standing self.old self.new }
        ensures unknown { position_of_owner self.old.scheme owner ≡ None → IsRefusedAtOnce self.old self.new (Unbilled UnknownOwner) result }
        ensures early { position_of_owner self.old.scheme owner ≢ None → day < self.old.scheme.start → IsRefusedAtOnce self.old self.new (Unbilled BeforeStart) result }
        ensures cause { position_of_owner self.old.scheme owner ≢ None → self.old.scheme.start ≤ day → HasAsked L.standing self.old self.new owner (fault_in result) }
        ensures refused { AreClean O.standing L.standing self.new → AreSound O.standing L.standing self.old → IsBillRefusal O.standing L.standing self.old owner day (refusal_of result) }
        ensures held { AreClean O.standing L.standing self.new → AreSound O.standing L.standing self.old → IfOk result (λ _. (h : StoresValue) → MayStandAs O.standing L.standing self.old h → gone_in self.old.scheme (h.ledgers owner) day ≡ None) }
        ensures closed { AreClean O.standing L.standing self.new → AreSound O.standing L.standing self.old → IfOk result (λ _. (h : StoresValue) → MayStandAs O.standing L.standing self.old h → open_in self.old.scheme (h.ledgers owner) day ≡ None) }
        ensures short { AreClean O.standing L.standing self.new → AreSound O.standing L.standing self.old → IfOk result (λ told. (h : StoresValue) → MayStandAs O.standing L.standing self.old h → told.1.items ≡ short_in self.old.scheme (h.ledgers owner) day) }
        ensures taken { AreClean O.standing L.standing self.new → AreSound O.standing L.standing self.old → IfOk result (λ told. (rows : List RecordValue) × ((h : StoresValue) → MayStandAs O.standing L.standing self.old h → AreTapsBetween (h.ledgers owner) (week_start self.old.scheme day) day rows) × (told.0 ≡ settlement_of self.old.scheme rows day)) }
        ensures value { AreClean O.standing L.standing self.new → AreSound O.standing L.standing self.old → IfOk result (λ told. (lists : ℕ → List RecordValue) (h : StoresValue) → AreNumberedLists lists → MayStandAs O.standing L.standing self.old h → Agrees self.old.scheme lists h → told.0 ≡ settlement_of self.old.scheme (parts_of self.old.scheme lists (h.ledgers owner) owner) day) }
    {
        let (taps, short) = self.basis(alloc, owner, day)?.into_parts();
        let settlement = settle(alloc, &self.scheme, &taps, day)?;
        Ok((settlement, short))
    }

    // The taps that an owner has taken from where the week of a day begins to the day, once it has closed the day of
    // each device or retired its lane.
    fn basis(
        &mut self,
        alloc: Global,
        owner: OwnerId,
        day: Day,
    ) -> Result<WeekTaps, Refused<BillingFault>>
        requires ledgers { HasLedgers self.old }
        ensures reads { OnlyReads O.standing L.standing self.old self.new }
        ensures unknown { position_of_owner self.old.scheme owner ≡ None → IsRefusedAtOnce self.old self.new (Unbilled UnknownOwner) result }
        ensures early { position_of_owner self.old.scheme owner ≢ None → day < self.old.scheme.start → IsRefusedAtOnce self.old self.new (Unbilled BeforeStart) result }
        ensures cause { position_of_owner self.old.scheme owner ≢ None → self.old.scheme.start ≤ day → HasAsked L.standing self.old self.new owner (fault_in result) }
        ensures refused { AreClean O.standing L.standing self.new → AreSound O.standing L.standing self.old → IsBillRefusal O.standing L.standing self.old owner day (refusal_of result) }
        ensures known { IfOk result (λ _. knows_owner self.old.scheme owner ≡ true) }
        ensures basis { AreClean O.standing L.standing self.new → AreSound O.standing L.standing self.old → IfOk result (λ week. (h : StoresValue) → MayStandAs O.standing L.standing self.old h → HasBasis self.old.scheme (h.ledgers owner) day week.taps.items week.short.items) }
    {
        let Some(at) = self.scheme.owner_position(owner) else {
            return Err(Refused::Because(BillingFault::Unbilled(BillFault::UnknownOwner)));
        };
        if day < self.scheme.start() {
            return Err(Refused::Because(BillingFault::Unbilled(BillFault::BeforeStart)));
        }
        taps_of_held_week(alloc, &self.scheme, &mut self.ledgers[at], day)
    }
}
