//! What waits for an owner.
ghost use Rattle.std.specs.Prelude.{◌≡◌, ◌≢◌, ◌↔◌, ◌⊎◌, ◌≤◌, ◌<◌, ℕ, None, Some, length, IsTrue, IfOk, IfErr, IfSome};
ghost use Rattle.fare_history.specs.Stores.{StoresValue};
ghost use Rattle.std.specs.Map.{keys_of};
ghost use Rattle.fare_scheme.specs.Words.{position_of_owner};
ghost use Rattle.fare_store.specs.Standing.{Reads, fault_of};
ghost use Rattle.fare_sessions.specs.Stores.{AreClean, AreSound, HasLedgers, MayStandAs};
ghost use Rattle.fare_desk.specs.Causes.{IsCaused, store_fault};
ghost use Rattle.fare_desk.specs.Showing.{OnlyAsks};
ghost use Rattle.fare_desk.specs.Waiting.{IsAndLane, IsLast, IsOldest, TellsOwner, TellsOwners, WaitsBehind, WaitsInLane, earlier, nothing_waits};

use crate::fault::DeskFault;
use crate::standing::{ask_ledger, ask_retired, ask_statements};
use fare_record::{DeviceId, Moment, OwnerId};
use fare_sessions::Hub;
use fare_store::{Fault, Ledger, Outbox};
use std::alloc::Global;

/// What waits for an owner in lanes that it has not retired.
#[derive(Clone, Copy, PartialEq, Eq, Debug)]
pub struct Waiting {
    /// How far the outbox's rows reach behind the taps that the owner has taken, of all lanes together; it stays at
    /// 2^64 - 1.
    pub rows: u64,
    /// How many statements the outbox holds of days that the owner hasn't closed; it stays at 2^64 - 1.
    pub statements: u64,
    /// When the earliest of those taps was made that come next in their lanes, if one waits.
    pub oldest: Option<Moment>,
}

/// What waits for one owner.
#[derive(Clone, Copy, PartialEq, Eq, Debug)]
pub struct OwnerWaits {
    pub owner: OwnerId,
    pub waiting: Waiting,
}

// The earlier of two moments.
fn earlier(one: Option<Moment>, other: Option<Moment>) -> Option<Moment>
    ensures { result ≡ earlier one other }
{
    match (one, other) {
        (None, other) => other,
        (Some(one), None) => Some(one),
        (Some(one), Some(other)) => Some(if one.get() <= other.get() { one } else { other }),
    }
}

impl Waiting {
    // Nothing.
    fn none() -> Waiting
        ensures { result ≡ nothing_waits }
    {
        Waiting {
            rows: 0,
            statements: 0,
            oldest: None,
        }
    }

    // And what waits in one lane more.
    fn and(self, lane: Waiting) -> Waiting
        ensures { IsAndLane self lane result }
    {
        Waiting {
            rows: self.rows.saturating_add(lane.rows),
            statements: self.statements.saturating_add(lane.statements),
            oldest: earlier(self.oldest, lane.oldest),
        }
    }
}

// Whether a search is over: it has come as far as up to where rows may stand.
fn is_over(low: u64, high: Option<u64>) -> bool
    ensures { IsTrue result ↔ ((last : ℕ) × (high ≡ Some last) × (last ≤ low)) }
{
    match high {
        Some(last) => last <= low,
        None => false,
    }
}

// Where a search goes on: further on by a step, or halfway to where no row stands any more.
fn probe_of(low: u64, high: Option<u64>, step: u64) -> u64
    ensures far { low ≤ result }
    ensures inside { IfSome high (λ last. low < last → result < last) }
{
    match high {
        None => low.saturating_add(step),
        Some(last) => low + last.saturating_sub(low) / 2,
    }
}

// The lane number of the last row of a lane behind this one, in steps that double, and then halves.
fn last_behind<O: Outbox>(
    outbox: &mut O,
    owner: OwnerId,
    device: DeviceId,
    after: u64,
) -> Result<u64, Fault>
    ensures { Reads (O.standing outbox.old) (O.standing outbox.new) (IsLast ((O.standing outbox.old).value.rows owner device) after) result }
{
    let mut low = after;
    let mut high: Option<u64> = None;
    let mut step: u64 = 0;
    while !is_over(low, high) {
        let probe = probe_of(low, high, step);
        let next = outbox.next_row(owner, device, probe)?;
        let lane = match next {
            Some(row) => row.lane(),
            None => 0,
        };
        if lane > probe {
            low = lane;
            step = step.saturating_mul(2).saturating_add(1);
        } else {
            high = Some(probe);
        }
    }
    Ok(low)
}

// When the tap was made that comes next in a lane behind a lane number.
fn oldest_behind<O: Outbox>(
    outbox: &mut O,
    owner: OwnerId,
    device: DeviceId,
    after: u64,
) -> Result<Option<Moment>, Fault>
    ensures { Reads (O.standing outbox.old) (O.standing outbox.new) (IsOldest (O.standing outbox.old).value.rows owner device after) result }
{
    let row = outbox.next_row(owner, device, after)?;
    Ok(row.map(|row| row.tap().moment()))
}

// The last row of a lane behind a lane number.
fn ask_last<O: Outbox, L: Ledger>(
    hub: &mut Hub<O, L>,
    owner: OwnerId,
    device: DeviceId,
    after: u64,
) -> Result<u64, Fault>
    ensures asks { OnlyAsks O.standing L.standing hub.old hub.new }
    ensures cause { IsCaused O.standing L.standing hub.old hub.new (fault_of result) }
    ensures tells { AreClean O.standing L.standing hub.new → AreSound O.standing L.standing hub.old → IfOk result (λ last. (h : StoresValue) → MayStandAs O.standing L.standing hub.old h → IsLast (h.outbox.rows owner device) after last) }
{
    last_behind(&mut hub.outbox, owner, device, after)
}

// When the tap was made that comes next in a lane behind a lane number.
fn ask_oldest<O: Outbox, L: Ledger>(
    hub: &mut Hub<O, L>,
    owner: OwnerId,
    device: DeviceId,
    after: u64,
) -> Result<Option<Moment>, Fault>
    ensures asks { OnlyAsks O.standing L.standing hub.old hub.new }
    ensures cause { IsCaused O.standing L.standing hub.old hub.new (fault_of result) }
    ensures tells { AreClean O.standing L.standing hub.new → AreSound O.standing L.standing hub.old → IfOk result (λ oldest. (h : StoresValue) → MayStandAs O.standing L.standing hub.old h → IsOldest h.outbox.rows owner device after oldest) }
{
    oldest_behind(&mut hub.outbox, owner, device, after)
}

// What waits in a lane that may be open.
fn waits_behind<O: Outbox, L: Ledger>(
    hub: &mut Hub<O, L>,
    owner: OwnerId,
    device: DeviceId,
) -> Result<Waiting, Fault>
    requires ledgers { HasLedgers hub.old }
    requires known { position_of_owner hub.old.scheme owner ≢ None }
    ensures asks { OnlyAsks O.standing L.standing hub.old hub.new }
    ensures cause { IsCaused O.standing L.standing hub.old hub.new (fault_of result) }
    ensures tells { AreClean O.standing L.standing hub.new → AreSound O.standing L.standing hub.old → IfOk result (λ waiting. (h : StoresValue) → MayStandAs O.standing L.standing hub.new h → WaitsBehind h owner device (length ((h.ledgers owner).taken device)) waiting) }
{
    let told = ask_ledger(hub, owner, device)?;
    let last = ask_last(hub, owner, device, told.0)?;
    let oldest = ask_oldest(hub, owner, device, told.0)?;
    let statements = ask_statements(hub, owner, device, told.1)?;
    Ok(Waiting {
        rows: last.saturating_sub(told.0),
        statements,
        oldest,
    })
}

// What waits in a lane.
fn waits_in_lane<O: Outbox, L: Ledger>(
    hub: &mut Hub<O, L>,
    owner: OwnerId,
    device: DeviceId,
) -> Result<Waiting, Fault>
    requires ledgers { HasLedgers hub.old }
    requires known { position_of_owner hub.old.scheme owner ≢ None }
    ensures asks { OnlyAsks O.standing L.standing hub.old hub.new }
    ensures cause { IsCaused O.standing L.standing hub.old hub.new (fault_of result) }
    ensures tells { AreClean O.standing L.standing hub.new → AreSound O.standing L.standing hub.old → IfOk result (λ waiting. (h : StoresValue) → MayStandAs O.standing L.standing hub.new h → WaitsInLane h owner device waiting) }
{
    let retired = ask_retired(hub, owner, device)?;
    if retired {
        Ok(Waiting::none())
    } else {
        waits_behind(hub, owner, device)
    }
}

// What waits for an owner that is registered.
fn waits_for<O: Outbox, L: Ledger>(hub: &mut Hub<O, L>, owner: OwnerId) -> Result<Waiting, Fault>
    requires ledgers { HasLedgers hub.old }
    requires known { position_of_owner hub.old.scheme owner ≢ None }
    ensures asks { OnlyAsks O.standing L.standing hub.old hub.new }
    ensures cause { IsCaused O.standing L.standing hub.old hub.new (fault_of result) }
    ensures tells { IfOk result (TellsOwner O.standing L.standing owner hub.old hub.new) }
{
    let mut waiting = Waiting::none();
    for place in 0..hub.scheme.devices().len() {
        let device = hub.scheme.devices()[place];
        let lane = waits_in_lane(hub, owner, device)?;
        waiting = waiting.and(lane);
    }
    Ok(waiting)
}

/// What waits for each owner in its lanes, those that it has retired left out, in the scheme's order. It asks the outbox some
/// questions for each lane, two more where twice as many rows wait, and none for each row. The stores hold what they held.
///
/// `Memory` where there was none for it, and `Store` where a store failed.
pub fn what_waits<O: Outbox, L: Ledger>(
    alloc: Global,
    hub: &mut Hub<O, L>,
) -> Result<Vec<OwnerWaits>, DeskFault>
    requires ledgers { HasLedgers hub.old }
    ensures asks { OnlyAsks O.standing L.standing hub.old hub.new }
    ensures cause { IsCaused O.standing L.standing hub.old hub.new (store_fault result) }
    ensures tells { IfOk result (λ waits. TellsOwners O.standing L.standing (keys_of hub.old.scheme.owners) hub.old hub.new waits.items) }
    ensures fault { IfErr result (λ fault. (fault ≡ DeskFault.Memory) ⊎ (fault ≡ DeskFault.Store)) }
{
    let mut waits = Vec::with_capacity(alloc, hub.scheme.owner_count())?;
    for place in 0..hub.scheme.owners().len() {
        let owner = hub.scheme.owners()[place];
        let waiting = waits_for(hub, owner)?;
        waits.push(OwnerWaits { owner, waiting })?;
    }
    Ok(waits)
}
