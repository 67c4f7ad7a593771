//! What is of days that are over goes from the owners' ledgers and the outbox, lane by lane.
ghost use Rattle.std.specs.Prelude.{◌≡◌, ◌≢◌, ◌||◌, ◌-◌, [], ◌∷◌, ◌++◌, ℕ, None, false, true, is_some, nat_le, string_bytes, OnOk, IfErr, IfOk};
ghost use Rattle.std.specs.Map.{keys_of};
ghost use Rattle.fare_cap.specs.Fares.{week_start as start_of_week};
ghost use Rattle.fare_scheme.specs.Words.{position_of_device, position_of_owner};
ghost use Rattle.fare_store.specs.LedgerWords.{gone_of};
ghost use Rattle.fare_store.specs.Standing.{fault_of};
ghost use Rattle.fare_history.specs.Stores.{StoresValue, Forgets};
ghost use Rattle.fare_agreement.specs.Stopping.{IsLeftBy};
ghost use Rattle.fare_sessions.specs.Billing.{day_behind};
ghost use Rattle.fare_sessions.specs.Stores.{AreClean, AreSound, ComesOf, HasLedgers, MayStandAs};
ghost use Rattle.fare_desk.specs.Causes.{IsAtWork, IsCaused, store_fault};
ghost use Rattle.fare_desk.specs.Closing.{GoesOnLettingGo, lanes_of, lanes_with};
ghost use Rattle.fare_desk.specs.Faults.{is_refusal};
ghost use Rattle.fare_desk.specs.Forgetting.{LeavesSome, LetsGo, LetsSomeGo, MayGo, gone_line, is_over, lane_gone, let_lane_go, open_word, without};
ghost use Rattle.fare_desk.specs.Showing.{OnlyAsks};

use crate::fault::DeskFault;
use crate::standing::{ask_held_from, ask_ledger, ask_retired};
use crate::writing::write_text;
use fare_cap::week_start;
use fare_record::{Day, DeviceId, OwnerId};
use fare_sessions::Hub;
use fare_store::{Fault, Ledger, Outbox, Refused};
use std::alloc::{AllocError, Global};
use std::io::Write;

/// How many days a week has.
const WEEK: u32 = 7;

/// What came of letting go a lane's days before one: how many of its taps went, the first day of which all is held, and
/// whether these days were over; where they weren't, nothing went.
#[derive(Clone, Copy)]
pub(crate) struct LaneGone {
    taps: u64,
    from: Day,
    over: bool,
}

// Whether the days of a lane before this one are over, by the last day that is closed and by whether it is retired.
fn are_over(retired: bool, closed: Option<Day>, start: Day, day: Day) -> bool
    ensures { result ≡ (retired || nat_le day (day_behind closed start)) }
{
    let closed = match closed {
        Some(last) => day.get() <= last.get() + 1,
        None => day <= start,
    };
    retired || closed
}

// Whether all days of an owner's lane before this one are over: closed, or the lane is retired.
fn ask_over<O: Outbox, L: Ledger>(
    hub: &mut Hub<O, L>,
    owner: OwnerId,
    device: DeviceId,
    day: Day,
) -> Result<bool, Fault>
    requires ledgers { HasLedgers hub.old }
    requires known { position_of_owner hub.old.scheme owner ≢ None }
    ensures asks { OnlyAsks O.standing L.standing hub.old hub.new }
    ensures cause { IsCaused O.standing L.standing hub.old hub.new (fault_of result) }
    ensures works { IfOk result (λ _. IsAtWork O.standing L.standing hub.new owner) }
    ensures tells { AreClean O.standing L.standing hub.new → AreSound O.standing L.standing hub.old → IfOk result (λ over. (h : StoresValue) → MayStandAs O.standing L.standing hub.new h → over ≡ is_over (h.ledgers owner) device day) }
{
    let told = ask_ledger(hub, owner, device)?;
    let retired = ask_retired(hub, owner, device)?;
    Ok(are_over(retired, told.1, hub.scheme.start(), day))
}

// How many taps of an owner's lane of a device were let go.
fn ask_gone<O: Outbox, L: Ledger>(
    hub: &mut Hub<O, L>,
    owner: OwnerId,
    device: DeviceId,
) -> Result<u64, Fault>
    requires ledgers { HasLedgers hub.old }
    requires known { position_of_owner hub.old.scheme owner ≢ None }
    ensures asks { OnlyAsks O.standing L.standing hub.old hub.new }
    ensures cause { IsCaused O.standing L.standing hub.old hub.new (fault_of result) }
    ensures tells { AreClean O.standing L.standing hub.new → AreSound O.standing L.standing hub.old → IfOk result (λ gone. (h : StoresValue) → MayStandAs O.standing L.standing hub.old h → gone ≡ gone_of ((h.ledgers owner).taken device)) }
{
    let Some(at) = hub.scheme.owner_position(owner) else {
        unreachable!()
    };
    hub.ledgers[at].gone(device)
}

// Lets go what is of a lane's days before this one, which are over. A ledger that refuses that is none of this scheme's, or
// has lost a close: `Store`.
fn let_go_once<O: Outbox, L: Ledger>(
    hub: &mut Hub<O, L>,
    owner: OwnerId,
    device: DeviceId,
    day: Day,
) -> Result<(), Fault>
    requires ledgers { HasLedgers hub.old }
    requires known { position_of_owner hub.old.scheme owner ≢ None }
    ensures goes { GoesOnLettingGo O.standing L.standing hub.old hub.new }
    ensures cause { AreClean O.standing L.standing hub.new → AreSound O.standing L.standing hub.old → MayGo O.standing L.standing day owner device hub.old → IsCaused O.standing L.standing hub.old hub.new (fault_of result) }
    ensures still { OnOk result (AreSound O.standing L.standing hub.old → (later : ℕ) → MayGo O.standing L.standing later owner device hub.old → MayGo O.standing L.standing later owner device hub.new) }
    ensures left { ComesOf O.standing L.standing hub.old hub.new (λ h k. IsLeftBy h (Forgets owner device day) k) }
    ensures gone { OnOk result (ComesOf O.standing L.standing hub.old hub.new (λ h k. k ≡ without day owner device h)) }
{
    match hub.forget(owner, device, day) {
        Ok(()) => Ok(()),
        Err(Refused::Because(_)) => Err(Fault::Store),
        Err(Refused::Failed(fault)) => Err(fault),
    }
}

// Lets go what is of a lane's days before the last week that begins before this one, a week at a time from a day on, each
// in a commit of its own.
fn let_go_weeks<O: Outbox, L: Ledger>(
    hub: &mut Hub<O, L>,
    owner: OwnerId,
    device: DeviceId,
    from: Day,
    day: Day,
) -> Result<(), Fault>
    requires ledgers { HasLedgers hub.old }
    requires known { position_of_owner hub.old.scheme owner ≢ None }
    ensures some { LetsSomeGo O.standing L.standing day owner device hub.old hub.new }
    ensures cause { AreClean O.standing L.standing hub.new → AreSound O.standing L.standing hub.old → MayGo O.standing L.standing day owner device hub.old → IsCaused O.standing L.standing hub.old hub.new (fault_of result) }
    ensures still { OnOk result (AreSound O.standing L.standing hub.old → MayGo O.standing L.standing day owner device hub.old → MayGo O.standing L.standing day owner device hub.new) }
{
    let mut week = from.get() + WEEK;
    while week < day.get() {
        let Some(next) = Day::new(u64::from(week)) else {
            unreachable!()
        };
        let_go_once(hub, owner, device, next)?;
        week += WEEK;
    }
    Ok(())
}

// Lets go what is of a lane's days before this one, which are over, a week at a time.
fn let_go_days<O: Outbox, L: Ledger>(
    hub: &mut Hub<O, L>,
    owner: OwnerId,
    device: DeviceId,
    day: Day,
) -> Result<(), Fault>
    requires ledgers { HasLedgers hub.old }
    requires known { position_of_owner hub.old.scheme owner ≢ None }
    ensures some { LetsSomeGo O.standing L.standing day owner device hub.old hub.new }
    ensures cause { AreClean O.standing L.standing hub.new → AreSound O.standing L.standing hub.old → MayGo O.standing L.standing day owner device hub.old → IsCaused O.standing L.standing hub.old hub.new (fault_of result) }
    ensures gone { OnOk result (ComesOf O.standing L.standing hub.old hub.new (λ h k. k ≡ without day owner device h)) }
{
    let held = ask_held_from(hub, owner, device)?;
    let from = held.max(hub.scheme.start());
    let_go_weeks(hub, owner, device, from, day)?;
    let_go_once(hub, owner, device, day)
}

// The same, where the days are over; and whether they are.
fn let_go_over<O: Outbox, L: Ledger>(
    hub: &mut Hub<O, L>,
    owner: OwnerId,
    device: DeviceId,
    day: Day,
) -> Result<bool, Fault>
    requires ledgers { HasLedgers hub.old }
    requires known { position_of_owner hub.old.scheme owner ≢ None }
    ensures some { LetsSomeGo O.standing L.standing day owner device hub.old hub.new }
    ensures cause { AreClean O.standing L.standing hub.new → AreSound O.standing L.standing hub.old → is_some (position_of_device hub.old.scheme device) ≡ true → IsCaused O.standing L.standing hub.old hub.new (fault_of result) }
    ensures gone { IfOk result (λ over. ComesOf O.standing L.standing hub.old hub.new (λ h k. (over ≡ is_over (h.ledgers owner) device day) × (k ≡ let_lane_go day owner device h))) }
{
    let over = ask_over(hub, owner, device, day)?;
    if over {
        let_go_days(hub, owner, device, day)?;
    }
    Ok(over)
}

// Lets go what is of a lane's days before this one, where they are over, and tells what came of it.
fn let_lane<O: Outbox, L: Ledger>(
    hub: &mut Hub<O, L>,
    owner: OwnerId,
    device: DeviceId,
    day: Day,
) -> Result<LaneGone, Fault>
    requires ledgers { HasLedgers hub.old }
    requires known { position_of_owner hub.old.scheme owner ≢ None }
    ensures some { LetsSomeGo O.standing L.standing day owner device hub.old hub.new }
    ensures cause { AreClean O.standing L.standing hub.new → AreSound O.standing L.standing hub.old → is_some (position_of_device hub.old.scheme device) ≡ true → IsCaused O.standing L.standing hub.old hub.new (fault_of result) }
    ensures gone { IfOk result (λ lane. ComesOf O.standing L.standing hub.old hub.new (λ h k. (lane ≡ lane_gone day owner device h) × (k ≡ let_lane_go day owner device h))) }
{
    let before = ask_gone(hub, owner, device)?;
    let over = let_go_over(hub, owner, device, day)?;
    let after = ask_gone(hub, owner, device)?;
    let from = ask_held_from(hub, owner, device)?;
    Ok(LaneGone {
        taps: after.saturating_sub(before),
        from,
        over,
    })
}

// What the line of a lane ends with whose days aren't over.
fn open_text(over: bool) -> &'static str
    ensures { result.now ≡ open_word over }
{
    if over { "" } else { " open" }
}

// The line of a lane.
fn line_of(
    alloc: Global,
    owner: OwnerId,
    device: DeviceId,
    lane: LaneGone,
) -> Result<String, AllocError>
    ensures { IfOk result (λ line. string_bytes line ≡ gone_line owner device lane) }
{
    let owner = owner.get();
    let device = device.get();
    let taps = lane.taps;
    let from = lane.from.get();
    let mut line = format!(in alloc; "forgot {owner} {device} taps {taps}")?;
    line.push_str(&format!(in alloc; " from {from}")?)?;
    line.push_str(open_text(lane.over))?;
    line.push_str("\n")?;
    Ok(line)
}

// Lets go what is of a lane's days before this one, where they are over, and writes its line.
fn forget_lane<O: Outbox, L: Ledger, W: Write>(
    alloc: Global,
    hub: &mut Hub<O, L>,
    owner: OwnerId,
    device: DeviceId,
    day: Day,
    output: &mut W,
) -> Result<(), DeskFault>
    requires ledgers { HasLedgers hub.old }
    requires known { position_of_owner hub.old.scheme owner ≢ None }
    ensures goes { GoesOnLettingGo O.standing L.standing hub.old hub.new }
    ensures cause { AreClean O.standing L.standing hub.new → AreSound O.standing L.standing hub.old → is_some (position_of_device hub.old.scheme device) ≡ true → IsCaused O.standing L.standing hub.old hub.new (store_fault result) }
    ensures gone { OnOk result (LetsGo O.standing L.standing day ((owner, device) ∷ []) hub.old hub.new (W.contents output.old) (W.contents output.new)) }
    ensures rest { ComesOf O.standing L.standing hub.old hub.new (LeavesSome day ((owner, device) ∷ [])) }
    ensures unnamed { IfErr result (λ fault. is_refusal fault ≡ false) }
{
    let lane = let_lane(hub, owner, device, day)?;
    let line = line_of(alloc, owner, device, lane)?;
    write_text(output, line.as_bytes())
}

// Lets go what is of the days before this one of all lanes of an owner.
fn forget_owner<O: Outbox, L: Ledger, W: Write>(
    alloc: Global,
    hub: &mut Hub<O, L>,
    owner: OwnerId,
    day: Day,
    output: &mut W,
) -> Result<(), DeskFault>
    requires ledgers { HasLedgers hub.old }
    requires known { position_of_owner hub.old.scheme owner ≢ None }
    ensures goes { GoesOnLettingGo O.standing L.standing hub.old hub.new }
    ensures cause { AreClean O.standing L.standing hub.new → AreSound O.standing L.standing hub.old → IsCaused O.standing L.standing hub.old hub.new (store_fault result) }
    ensures gone { OnOk result (LetsGo O.standing L.standing day (lanes_with owner (keys_of hub.old.scheme.devices)) hub.old hub.new (W.contents output.old) (W.contents output.new)) }
    ensures rest { IfErr result (λ _. ComesOf O.standing L.standing hub.old hub.new (LeavesSome day (lanes_with owner (keys_of hub.old.scheme.devices)))) }
    ensures unnamed { IfErr result (λ fault. is_refusal fault ≡ false) }
{
    for place in 0..hub.scheme.devices().len() {
        let device = hub.scheme.devices()[place];
        forget_lane(alloc, hub, owner, device, day, output)?;
    }
    Ok(())
}

/// Lets go what the owners' ledgers hold of the days before the week of this day, and behind each the outbox's statements:
/// for each owner and each device, in the scheme's orders, the taps and the statements of these days, where all of them are
/// closed or the lane is retired, and nothing of it where they aren't. Writes a line for each, `forgot OWNER DEVICE taps N from DAY`: how many taps went, and
/// from which day on all is held; it ends with one word more, ` open`, where the days aren't closed. Each week of a lane
/// goes in a commit of its own. The bills of the day's week and of later ones stay what they are.
///
/// `Memory` where there was none for it, `Store` where a store failed or a ledger has lost a close, `Write` where the writer
/// failed: then of the lanes in their order the first ones are let go, and of one behind them some weeks may be.
pub fn forget_days<O: Outbox, L: Ledger, W: Write>(
    alloc: Global,
    hub: &mut Hub<O, L>,
    day: Day,
    output: &mut W,
) -> Result<(), DeskFault>
    requires ledgers { HasLedgers hub.old }
    ensures goes { GoesOnLettingGo O.standing L.standing hub.old hub.new }
    ensures cause { AreClean O.standing L.standing hub.new → AreSound O.standing L.standing hub.old → IsCaused O.standing L.standing hub.old hub.new (store_fault result) }
    ensures gone { OnOk result (LetsGo O.standing L.standing (start_of_week hub.old.scheme day) (lanes_of hub.old.scheme) hub.old hub.new (W.contents output.old) (W.contents output.new)) }
    ensures rest { IfErr result (λ _. ComesOf O.standing L.standing hub.old hub.new (LeavesSome (start_of_week hub.old.scheme day) (lanes_of hub.old.scheme))) }
    ensures unnamed { IfErr result (λ fault. is_refusal fault ≡ false) }
{
    let first = week_start(&hub.scheme, day);
    for place in 0..hub.scheme.owners().len() {
        let owner = hub.scheme.owners()[place];
        forget_owner(alloc, hub, owner, first, output)?;
    }
    Ok(())
}
