//! The forwarder's thread: it reads the outbox, and puts what comes next of each device into the lane queue.
ghost use Rattle.std.specs.Prelude.{◌≡◌, ◌+◌, ◌++◌, ◌∷◌, [], length, true, false};
ghost use Rattle.std.specs.Result.{result_err};
ghost use Rattle.fare_lane_queue.specs.Lane.{IsNext, base_of, lanes_of};
ghost use Rattle.fare_lane_queue.specs.Passes.{sent_list, forward_bases, IsForwardOf};
ghost use Rattle.fare_session.specs.Forwarding.{is_due, lane_after, IsNextDue, AreApart, Forwarded, IsDeviceForwarded, HasCursor, HasCursors};

use crate::ending::Ending;
use crate::fault::SessionFault;
use crate::gate::{Gate, Point};
use crate::pace::Pace;
use crate::turns::Turns;
use fare_lane_queue::{ForwardPass, LaneQueue};
use fare_record::{DeviceId, Item};
use fare_route::Forwarder;
use fare_store::{Outbox, Refused};
use std::sync::Wait;
use std::time::Clock;

// Puts the item, and tries again while the queue is full, turns are left and the owner has not ended. Answers whether
// it was put.
fn put_item<G: Gate, R: Wait + Clock>(
    pace: &Pace<G, R>,
    line: &LaneQueue,
    ending: &Ending,
    item: &Item,
    pass: &mut ForwardPass,
) -> bool
    requires queue { IsForwardOf line.now pass.old }
    requires next { IsNext (forward_bases pass.old) (sent_list pass.old) item.now }
    ensures queue { IsForwardOf line.now pass.new × (forward_bases pass.new ≡ forward_bases pass.old) }
    ensures put { result ≡ true → sent_list pass.new ≡ sent_list pass.old ++ item.now ∷ [] }
    ensures not_put { result ≡ false → sent_list pass.new ≡ sent_list pass.old }
{
    let mut turns = Turns::new(pace.turns);
    for _ in pace.rt.forever() {
        if line.put(pace.rt, pass, *item).is_ok() {
            pace.gate.pass(Point::ForwardPut);
            return true;
        }
        turns.spend(pace.rt, pace.gate);
        if turns.are_used_up() || ending.has_owner_ended() {
            return false;
        }
    }
    unreachable!()
}

// Whether an item is the device's, and, where it is a tap, the next of its lane.
pub(crate) fn is_due(item: &Item, device: DeviceId, reached: u64) -> bool
    ensures { result ≡ is_due item.now device reached }
{
    match item {
        Item::Tap(row) => row.device() == device && row.lane() - 1 == reached,
        Item::Stated(statement) => statement.device() == device,
    }
}

// How far a lane is behind an item.
pub(crate) fn lane_after(item: &Item, reached: u64) -> u64
    ensures { result ≡ lane_after item.now reached }
{
    match item {
        Item::Tap(row) => row.lane(),
        Item::Stated(_) => reached,
    }
}

// What comes next of a device. A row that leaves out a lane number is refused.
pub(crate) fn next_due<O: Outbox>(
    forwarder: &mut Forwarder,
    outbox: &mut O,
    device: DeviceId,
    reached: u64,
) -> Result<Option<Item>, SessionFault>
    requires { HasCursor forwarder.old device }
    ensures { IsNextDue (O.standing outbox.old) (O.standing outbox.new) forwarder.old forwarder.new device reached result }
{
    match forwarder.next(outbox, device) {
        Ok(Some(item)) => {
            if is_due(&item, device, reached) {
                Ok(Some(item))
            } else {
                Err(SessionFault::Refused)
            }
        }
        Ok(None) => Ok(None),
        Err(Refused::Failed(fault)) => Err(SessionFault::from(fault)),
        Err(Refused::Because(_)) => unreachable!(),
    }
}

// Puts what comes next of a device behind its base, first its taps and then its statements. Answers whether it came to
// where nothing comes next any more: it did not where an item was not put.
fn forward_device<O: Outbox, G: Gate, R: Wait + Clock>(
    pace: &Pace<G, R>,
    line: &LaneQueue,
    ending: &Ending,
    base: (DeviceId, u64),
    forwarder: &mut Forwarder,
    outbox: &mut O,
    pass: &mut ForwardPass,
) -> Result<bool, SessionFault>
    requires queue { IsForwardOf line.now pass.old }
    requires reached { base.1 ≡ base_of (forward_bases pass.old) base.0 + length (lanes_of base.0 (sent_list pass.old)) }
    requires cursors { HasCursors (base ∷ []) forwarder.old }
    ensures queue { IsForwardOf line.now pass.new × (forward_bases pass.new ≡ forward_bases pass.old) }
    ensures forwarded { IsDeviceForwarded base (O.standing outbox.old) (O.standing outbox.new) forwarder.old forwarder.new (sent_list pass.old) (sent_list pass.new) result }
{
    let (device, mut reached) = base;
    for _ in pace.rt.forever() {
        let Some(item) = next_due(forwarder, outbox, device, reached)? else {
            return Ok(true);
        };
        if !put_item(pace, line, ending, &item, pass) {
            forwarder.put_back(device);
            return Ok(false);
        }
        reached = lane_after(&item, reached);
    }
    unreachable!()
}

// Puts what comes next of each device, one device after the other.
fn forward_devices<O: Outbox, G: Gate, R: Wait + Clock>(
    pace: &Pace<G, R>,
    line: &LaneQueue,
    ending: &Ending,
    bases: &[(DeviceId, u64)],
    forwarder: &mut Forwarder,
    outbox: &mut O,
    pass: &mut ForwardPass,
) -> Result<(), SessionFault>
    requires queue { IsForwardOf line.now pass.old }
    requires fresh { (sent_list pass.old ≡ []) × (forward_bases pass.old ≡ bases.now) }
    requires apart { AreApart bases.now }
    requires cursors { HasCursors bases.now forwarder.old }
    ensures queue { IsForwardOf line.now pass.new }
    ensures forwarded { Forwarded bases.now (O.standing outbox.old) (O.standing outbox.new) forwarder.old forwarder.new (sent_list pass.new) (result_err result) }
{
    for base in bases {
        if !forward_device(pace, line, ending, *base, forwarder, outbox, pass)? {
            return Ok(());
        }
    }
    Ok(())
}

/// The forwarder's thread. It ends at a fault, where nothing comes next any more, where its turns are used up, and
/// once the owner has ended.
pub(crate) fn forward_all<O: Outbox, G: Gate, R: Wait + Clock>(
    pace: &Pace<G, R>,
    line: &LaneQueue,
    ending: &Ending,
    bases: &[(DeviceId, u64)],
    forwarder: &mut Forwarder,
    outbox: &mut O,
    pass: &mut ForwardPass,
) -> Result<(), SessionFault>
    requires queue { IsForwardOf line.now pass.old }
    requires fresh { (sent_list pass.old ≡ []) × (forward_bases pass.old ≡ bases.now) }
    requires apart { AreApart bases.now }
    requires cursors { HasCursors bases.now forwarder.old }
    ensures queue { IsForwardOf line.now pass.new }
    ensures forwarded { Forwarded bases.now (O.standing outbox.old) (O.standing outbox.new) forwarder.old forwarder.new (sent_list pass.new) (result_err result) }
{
    let done = forward_devices(pace, line, ending, bases, forwarder, outbox, pass);
    ending.forwarder_ends();
    done
}
