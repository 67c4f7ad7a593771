ghost use Rattle.std.specs.Prelude.{◌≡◌, ◌∷◌, []};
ghost use Rattle.fare_lane_queue.specs.Passes.{sent_list, forward_bases, IsForwardOf, IsOwnerOf};

use crate::checking::same;
use fare_lane_queue::{ForwardPass, Full, LaneQueue, LaneQueueFault, OwnerPass};
use fare_record::{DeviceId, Item, Record, Statement};
use fare_samples::{FIRST, Numbers, record, statement};
use std::alloc::Global;
use std::process::Abort;
use std::sync::Wait;

fn device(rt: &impl Abort, number: u64) -> DeviceId
    ensures { result ≡ number }
{
    DeviceId::new(number).expect(rt, "device")
}

// Why there is no queue for so many items with bases of device 1, device 2 and this one, if there is none.
fn fault(rt: &impl Abort, alloc: Global, capacity: u32, third: u64) -> Option<LaneQueueFault> {
    let bases = [
        (device(rt, 1), 1),
        (device(rt, 2), 1),
        (device(rt, third), 2),
    ];
    LaneQueue::new(alloc, capacity, &bases).err()
}

#[test]
fn a_lane_queue_has_room_for_1_to_1024_items(rt: HostRuntime) {
    const RANGE: Option<LaneQueueFault> = Some(LaneQueueFault::Range);
    const CASES: [(u32, u64, Option<LaneQueueFault>); 4] = [
        (0, 3, RANGE),
        (1025, 3, RANGE),
        (4, 1, RANGE),
        (1024, 3, None),
    ];
    for &(capacity, third, want) in &CASES {
        same(&rt, &fault(&rt, rt.alloc(), capacity, third), &want);
    }
}

// The first tap of device 7 behind four that its owner has.
fn fifth(rt: &impl Abort) -> Record
    ensures { (result.device ≡ 7) × (result.lane ≡ 5) }
{
    let fifth = record(Numbers {
        device: 7,
        link: 9,
        lane: 5,
        ..FIRST
    });
    fifth.expect(rt, "record")
}

fn stated(rt: &impl Abort) -> Statement {
    statement(7, 19_723, 1, 5).expect(rt, "statement")
}

// A queue of two behind four taps of device 7.
fn behind_four(rt: &impl Abort, alloc: Global) -> (LaneQueue, ForwardPass, OwnerPass)
    ensures passes { IsForwardOf result.0 result.1 × IsOwnerOf result.0 result.2 }
    ensures bases { forward_bases result.1 ≡ (7, 4) ∷ [] }
    ensures none { sent_list result.1 ≡ [] }
{
    LaneQueue::new(alloc, 2, &[(device(rt, 7), 4)]).expect(rt, "queue")
}

// The tap and then the statement twice, into a queue of two.
fn puts<R: Wait>(
    rt: &R,
    queue: &LaneQueue,
    pass: &mut ForwardPass,
    tapped: Record,
    stated: Statement,
) -> [Result<(), Full>; 3]
    requires queue { IsForwardOf queue.now pass.old }
    requires first { (forward_bases pass.old ≡ (7, 4) ∷ []) × (sent_list pass.old ≡ []) }
    requires fifth { (tapped.device ≡ 7) × (tapped.lane ≡ 5) }
    ensures { IsForwardOf queue.now pass.new }
{
    let first = queue.put(rt, pass, Item::Tap(tapped));
    let second = queue.put(rt, pass, Item::Stated(stated));
    let third = queue.put(rt, pass, Item::Stated(stated));
    [first, second, third]
}

// How many items were taken and how many are left, the next two of these, and the same numbers then.
fn ending<R: Wait>(
    rt: &R,
    queue: LaneQueue,
    forward: ForwardPass,
    owner: OwnerPass,
) -> ((u64, u64), [Option<Item>; 2], (u64, u64))
    requires { IsForwardOf queue forward × IsOwnerOf queue owner }
{
    let mut ended = queue.finish(rt, forward, owner);
    let before = (ended.taken, ended.left);
    let left = [ended.next(rt), ended.next(rt)];
    (before, left, (ended.taken, ended.left))
}

#[test]
fn what_is_taken_and_left_is_what_was_put(rt: HostRuntime) {
    let (queue, mut forward, mut owner) = behind_four(&rt, rt.alloc());
    let (tapped, stated) = (fifth(&rt), stated(&rt));
    let put = puts(&rt, &queue, &mut forward, tapped, stated);
    let taken = queue.take(&rt, &mut owner);
    let ended = ending(&rt, queue, forward, owner);
    same(
        &rt,
        &put,
        &[Ok(()), Ok(()), Err(Full(Item::Stated(stated)))],
    );
    let left = [Some(Item::Stated(stated)), None];
    same(
        &rt,
        &(taken, ended),
        &(Some(Item::Tap(tapped)), ((1, 1), left, (1, 0))),
    );
}
