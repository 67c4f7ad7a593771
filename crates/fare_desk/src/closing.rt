//! The closes of all days that can be closed.
ghost use Rattle.std.specs.Prelude.{◌≡◌, ◌≢◌, ◌↔◌, [], ◌∷◌, IsTrue, None, false, OnOk, IfErr, IfOk};
ghost use Rattle.fare_record.specs.Limits.{IsDay};
ghost use Rattle.fare_scheme.specs.Words.{position_of_owner};
ghost use Rattle.fare_store.specs.Standing.{fault_of};
ghost use Rattle.fare_sessions.specs.Stores.{AreClean, AreSound, HasLedgers};
ghost use Rattle.std.specs.Map.{keys_of};
ghost use Rattle.fare_desk.specs.Causes.{IsCaused, store_fault};
ghost use Rattle.fare_desk.specs.Faults.{is_refusal};
ghost use Rattle.fare_desk.specs.Closing.{GoesOn, HasAnswered, HasClosedLanes, IsDayBehind, close_refusal, lanes_of, lanes_with, reply_of, try_line};

use crate::fault::DeskFault;
use crate::standing::ask_retired;
use crate::writing::write_text;
use fare_event::{Refusal, Reply};
use fare_lines::print_reply;
use fare_owner::CloseFault;
use fare_record::{Day, DeviceId, OwnerId};
use fare_sessions::{ClosingFault, Hub};
use fare_store::{Fault, Ledger, Outbox, Refused};
use std::alloc::{AllocError, Global};
use std::io::Write;

/// How many days there are.
const DAYS: u32 = 100_001;

// The refusal of a close, as a trace names it.
fn refusal_of(why: CloseFault) -> Refusal
    ensures { result ≡ close_refusal why }
{
    match why {
        CloseFault::Retired => Refusal::Retired,
        CloseFault::Unstated => Refusal::Unstated,
        CloseFault::AlreadyClosed => Refusal::AlreadyClosed,
        CloseFault::OutOfOrder => Refusal::OutOfOrder,
        CloseFault::CountsShort { stated, taken } => Refusal::CountsShort { stated, taken },
        CloseFault::CountsOver { stated, taken } => Refusal::CountsOver { stated, taken },
    }
}

// The reply to a close.
fn reply_to(device: DeviceId, day: Day, answer: Result<(), CloseFault>) -> Reply
    ensures { result ≡ reply_of device day answer }
{
    match answer {
        Ok(()) => Reply::Closed { device, day },
        Err(why) => Reply::Refused(refusal_of(why)),
    }
}

// The line of what came of closing a day.
fn line_of(
    alloc: Global,
    owner: OwnerId,
    device: DeviceId,
    day: Day,
    answer: Result<(), CloseFault>,
) -> Result<Vec<u8>, AllocError>
    ensures line { IfOk result (λ line. line.items ≡ try_line owner device day (reply_of device day answer)) }
    ensures dated { IsDay day }
{
    let reply = reply_to(device, day, answer);
    let owner = owner.get();
    let device = device.get();
    let number = day.get();
    let text = format!(in alloc; "close {owner} {device} {number}: ")?;
    let mut line = Vec::new(alloc);
    line.extend_from_slice(text.as_bytes())?;
    print_reply(&reply, &mut line)?;
    Ok(line)
}

// Closes a day, or tells why its ledger refuses that.
fn try_close<O: Outbox, L: Ledger>(
    hub: &mut Hub<O, L>,
    owner: OwnerId,
    device: DeviceId,
    day: Day,
) -> Result<Result<(), CloseFault>, Fault>
    requires ledgers { HasLedgers hub.old }
    requires known { position_of_owner hub.old.scheme owner ≢ None }
    ensures goes { GoesOn O.standing L.standing hub.old hub.new }
    ensures cause { IsCaused O.standing L.standing hub.old hub.new (fault_of result) }
    ensures answered { IfOk result (HasAnswered O.standing L.standing owner device day hub.old hub.new) }
{
    match hub.close(owner, device, day) {
        Ok(()) => Ok(Ok(())),
        Err(Refused::Because(ClosingFault::Ledger(why))) => Ok(Err(why)),
        Err(Refused::Because(ClosingFault::UnknownOwner)) => unreachable!(),
        Err(Refused::Failed(fault)) => Err(fault),
    }
}

// Whether a day is the one behind the last that was closed, where one was.
fn is_behind(last: Option<Day>, day: Day) -> bool
    ensures { IsTrue result ↔ IsDayBehind last day }
{
    match last {
        Some(last) => day.get() == last.get() + 1,
        None => true,
    }
}

// Closes the days of an owner's device, from the first one that isn't closed on, as long as a statement of the day is
// held and its count is met; and writes a line for each, the last one's refusal among them. Of a retired lane nothing is
// tried. A ledger that names another day than the one behind the last that it closed has lost that close: `Store`.
fn close_lane<O: Outbox, L: Ledger, W: Write>(
    alloc: Global,
    hub: &mut Hub<O, L>,
    owner: OwnerId,
    device: DeviceId,
    output: &mut W,
) -> Result<(), DeskFault>
    requires ledgers { HasLedgers hub.old }
    requires known { position_of_owner hub.old.scheme owner ≢ None }
    ensures goes { GoesOn O.standing L.standing hub.old hub.new }
    ensures cause { AreClean O.standing L.standing hub.new → AreSound O.standing L.standing hub.old → IsCaused O.standing L.standing hub.old hub.new (store_fault result) }
    ensures closed { OnOk result (HasClosedLanes O.standing L.standing ((owner, device) ∷ []) hub.old hub.new (W.contents output.old) (W.contents output.new)) }
    ensures unnamed { IfErr result (λ fault. is_refusal fault ≡ false) }
{
    let retired = ask_retired(hub, owner, device)?;
    if retired {
        return Ok(());
    }
    let mut last: Option<Day> = None;
    for _ in 0..DAYS {
        let Some(day) = hub.next_close(owner, device)? else {
            return Ok(());
        };
        if !is_behind(last, day) {
            return Err(DeskFault::Store);
        }
        let answer = try_close(hub, owner, device, day)?;
        let line = line_of(alloc, owner, device, day, answer)?;
        write_text(output, &line)?;
        match answer {
            Ok(()) => last = Some(day),
            Err(_) => return Ok(()),
        }
    }
    Ok(())
}

// Closes the days of all devices of an owner.
fn close_owner<O: Outbox, L: Ledger, W: Write>(
    alloc: Global,
    hub: &mut Hub<O, L>,
    owner: OwnerId,
    output: &mut W,
) -> Result<(), DeskFault>
    requires ledgers { HasLedgers hub.old }
    requires known { position_of_owner hub.old.scheme owner ≢ None }
    ensures goes { GoesOn O.standing L.standing hub.old hub.new }
    ensures cause { AreClean O.standing L.standing hub.new → AreSound O.standing L.standing hub.old → IsCaused O.standing L.standing hub.old hub.new (store_fault result) }
    ensures closed { OnOk result (HasClosedLanes O.standing L.standing (lanes_with owner (keys_of hub.old.scheme.devices)) hub.old hub.new (W.contents output.old) (W.contents output.new)) }
    ensures unnamed { IfErr result (λ fault. is_refusal fault ≡ false) }
{
    for place in 0..hub.scheme.devices().len() {
        let device = hub.scheme.devices()[place];
        close_lane(alloc, hub, owner, device, output)?;
    }
    Ok(())
}

/// Closes all days that can be closed: for each owner and each device, in the scheme's orders, from the first day that
/// isn't closed on, as long as a statement of the day is held. Writes a line for each try, `close OWNER DEVICE DAY: ` and
/// the reply that a trace has for it; one that is refused, since the stated count is not that of the day's taps, ends
/// its lane. A lane that the owner has retired is passed over: nothing of it is tried, and no line is written.
///
/// `Memory` where there was none for it, `Store` where a ledger failed or has lost a close, `Write` where the writer
/// failed: then the closes before it stand, and that of a line that isn't written may.
pub fn close_days<O: Outbox, L: Ledger, W: Write>(
    alloc: Global,
    hub: &mut Hub<O, L>,
    output: &mut W,
) -> Result<(), DeskFault>
    requires ledgers { HasLedgers hub.old }
    ensures goes { GoesOn O.standing L.standing hub.old hub.new }
    ensures cause { AreClean O.standing L.standing hub.new → AreSound O.standing L.standing hub.old → IsCaused O.standing L.standing hub.old hub.new (store_fault result) }
    ensures closed { OnOk result (HasClosedLanes O.standing L.standing (lanes_of hub.old.scheme) hub.old hub.new (W.contents output.old) (W.contents output.new)) }
    ensures unnamed { IfErr result (λ fault. is_refusal fault ≡ false) }
{
    for place in 0..hub.scheme.owners().len() {
        let owner = hub.scheme.owners()[place];
        close_owner(alloc, hub, owner, output)?;
    }
    Ok(())
}
