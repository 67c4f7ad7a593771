//! The session.
ghost use Rattle.std.specs.Prelude.{◌≡◌, ◌+◌, ◌-◌, ◌<◌, ◌≤◌, [], None, Some, IsSome, IfOk, IfErr};
ghost use Rattle.std.specs.Result.{result_err};
ghost use Rattle.fare_scheme.specs.Words.{position_of_owner};
ghost use Rattle.fare_lane_queue.specs.Passes.{capacity_of, sent_list, taken_list, forward_bases, IsForwardOf, IsOwnerOf};
ghost use Rattle.fare_store.specs.Standing.{IsSound};
ghost use Rattle.fare_session.specs.Forwarding.{AreApart, Forwarded, HasCursors};
ghost use Rattle.fare_session.specs.Taking.{IsTaking};
ghost use Rattle.fare_session.specs.Batching.{IsBatch};
ghost use Rattle.fare_lane_queue.specs.Lane.{IsRoom};
ghost use Rattle.fare_session.specs.Session.{IsThreaded, IsSession};
ghost use Rattle.fare_session.specs.Served.{IsServed, report_of};

use crate::asking::{Asked, ask};
use crate::batching::{Halt, batch_of};
use crate::ending::Ending;
use crate::fault::SessionFault;
use crate::forwarding::forward_all;
use crate::gate::Gate;
use crate::pace::Pace;
use crate::pruning::prune_all;
use crate::report::OwnerReport;
use crate::rest::take_rest;
use crate::taking::{take_all, take_left};
use crate::working::sift;
use fare_lane_queue::{ForwardPass, LaneQueue, LaneQueueFault, OwnerPass};
use fare_record::{DeviceId, OwnerId};
use fare_route::Forwarder;
use fare_scheme::Scheme;
use fare_store::{Ledger, Outbox};
use std::alloc::{AllocError, Global};
use std::sync::Wait;
use std::thread::{Threads, join_mut};
use std::time::Clock;

// The lane queue of a session, the passes of its two threads, and how many items the owner takes at once, at most.
struct Passage {
    queue: LaneQueue,
    forward: ForwardPass,
    mine: OwnerPass,
    batch: usize,
}

// The two threads.
fn run_threads<
    O: Outbox + Send,
    L: Ledger + Send,
    G: Gate + Sync,
    R: Threads + Wait + Clock + Sync,
>(
    pace: &Pace<G, R>,
    bases: &[(DeviceId, u64)],
    forwarder: &mut Forwarder,
    outbox: &mut O,
    ledger: &mut L,
    taken: &mut u64,
    passage: &mut Passage,
) -> (Result<(), SessionFault>, Result<(), Halt>)
    requires batch { IsBatch passage.old.batch }
    requires forward { IsForwardOf passage.old.queue passage.old.forward × (sent_list passage.old.forward ≡ []) × (forward_bases passage.old.forward ≡ bases.now) }
    requires owner { IsOwnerOf passage.old.queue passage.old.mine × (taken_list passage.old.mine ≡ []) }
    requires apart { AreApart bases.now }
    requires cursors { HasCursors bases.now forwarder.old }
    ensures same { passage.new.queue ≡ passage.old.queue }
    ensures queue { IsForwardOf passage.old.queue passage.new.forward × IsOwnerOf passage.old.queue passage.new.mine }
    ensures forwarded { Forwarded bases.now (O.standing outbox.old) (O.standing outbox.new) forwarder.old forwarder.new (sent_list passage.new.forward) (result_err result.0) }
    ensures taken { IsTaking (L.standing ledger.old) (L.standing ledger.new) (taken_list passage.new.mine) (result_err result.1) taken.old taken.new }
    ensures few { IfErr result.1 (λ halt. halt.behind < passage.old.batch) }
{
    let ending = Ending::new();
    let ending = &ending;
    let Passage {
        queue,
        forward,
        mine,
        batch,
    } = passage;
    let (line, batch) = (&*queue, *batch);
    join_mut(
        pace.rt,
        &mut || -> Result<(), SessionFault>
            requires { IsForwardOf line.now forward.now × (sent_list forward.now ≡ []) × (forward_bases forward.now ≡ bases.now) × AreApart bases.now × HasCursors bases.now forwarder.now }
            ensures queue { IsForwardOf line.entry.now forward.exit.now }
            ensures forwarded { Forwarded bases.entry.now (O.standing outbox.entry.now) (O.standing outbox.exit.now) forwarder.entry.now forwarder.exit.now (sent_list forward.exit.now) (result_err result) }
        { forward_all(pace, line, ending, bases, forwarder, outbox, forward) },
        &mut || -> Result<(), Halt>
            requires { IsOwnerOf line.now mine.now × (taken_list mine.now ≡ []) × IsBatch batch }
            ensures queue { IsOwnerOf line.entry.now mine.exit.now }
            ensures taken { IsTaking (L.standing ledger.entry.now) (L.standing ledger.exit.now) (taken_list mine.exit.now) (result_err result) taken.entry.now taken.exit.now }
            ensures few { IfErr result (λ halt. halt.behind < batch) }
        { take_all(pace, line, ending, batch, ledger, taken, mine) },
    )
}

// The threads over a new queue, and then what is left in it. Answers how the forwarder ended, how the owner, and how
// many items are in the owner's hand and in the queue.
fn run_lanes<O: Outbox + Send, L: Ledger + Send, G: Gate + Sync, R: Threads + Wait + Clock + Sync>(
    pace: &Pace<G, R>,
    bases: &[(DeviceId, u64)],
    forwarder: &mut Forwarder,
    outbox: &mut O,
    ledger: &mut L,
    taken: &mut u64,
    mut passage: Passage,
) -> (Result<(), SessionFault>, Result<(), SessionFault>, u64)
    requires forward { IsForwardOf passage.queue passage.forward × (sent_list passage.forward ≡ []) × (forward_bases passage.forward ≡ bases.now) }
    requires owner { IsOwnerOf passage.queue passage.mine × (taken_list passage.mine ≡ []) }
    requires apart { AreApart bases.now }
    requires cursors { HasCursors bases.now forwarder.old }
    requires batch { IsBatch passage.batch }
    requires room { capacity_of passage.queue + (passage.batch - 1) ≤ 1024 }
    ensures { IsThreaded bases.now (capacity_of passage.queue + (passage.batch - 1)) (O.standing outbox.old) (O.standing outbox.new) (L.standing ledger.old) (L.standing ledger.new) forwarder.old forwarder.new (result_err result.0) (result_err result.1) taken.old taken.new result.2 }
{
    let (put, took) = run_threads(pace, bases, forwarder, outbox, ledger, taken, &mut passage);
    let Passage {
        queue,
        forward,
        mine,
        batch: _,
    } = passage;
    let mut ended = queue.finish(pace.rt, forward, mine);
    if let Err(halt) = took {
        return (put, Err(halt.fault), ended.left + halt.behind + 1);
    }
    match take_left(pace.rt, &mut ended, ledger, taken) {
        Err(halt) => (put, Err(halt.fault), ended.left + halt.behind + 1),
        Ok(()) => (put, Ok(()), 0),
    }
}

// A session over a queue and a forwarder that are ready: it goes on with the lanes of `bases`, and prunes all lanes.
fn serve_lanes<
    O: Outbox + Send,
    L: Ledger + Send,
    G: Gate + Sync,
    R: Threads + Wait + Clock + Sync,
>(
    pace: &Pace<G, R>,
    owner: OwnerId,
    bases: &[(DeviceId, u64)],
    lanes: &mut [(DeviceId, u64)],
    forwarder: &mut Forwarder,
    outbox: &mut O,
    ledger: &mut L,
    passage: Passage,
) -> OwnerReport
    requires forward { IsForwardOf passage.queue passage.forward × (sent_list passage.forward ≡ []) × (forward_bases passage.forward ≡ bases.now) }
    requires owner { IsOwnerOf passage.queue passage.mine × (taken_list passage.mine ≡ []) }
    requires apart { AreApart bases.now }
    requires cursors { HasCursors bases.now forwarder.old }
    requires batch { IsBatch passage.batch }
    requires room { capacity_of passage.queue + (passage.batch - 1) ≤ 1024 }
    requires mine { forwarder.old.owner ≡ owner }
    requires all { AreApart lanes.old }
    ensures { IsSession bases.now lanes.old (capacity_of passage.queue + (passage.batch - 1)) (O.standing outbox.old) (O.standing outbox.new) (L.standing ledger.old) (L.standing ledger.new) forwarder.old result }
{
    let mut taken = 0;
    let (put, took, left) = run_lanes(pace, bases, forwarder, outbox, ledger, &mut taken, passage);
    if let Err(fault) = took {
        return OwnerReport {
            taken,
            left,
            fault: Some(fault),
        };
    }
    if let Err(fault) = put {
        return OwnerReport {
            taken,
            left: 0,
            fault: Some(fault),
        };
    }
    let mut hand = 0;
    if let Err(fault) = take_rest(
        pace.rt, bases, forwarder, outbox, ledger, &mut taken, &mut hand,
    ) {
        return OwnerReport {
            taken,
            left: hand,
            fault: Some(fault),
        };
    }
    let pruned = prune_all(owner, lanes, outbox, ledger);
    OwnerReport {
        taken,
        left: 0,
        fault: pruned.err(),
    }
}

// The two stores keep the laws of their kind. A function that starts threads can't cite a trait's law itself.
fn have_laws<O: Outbox, L: Ledger>(_outbox: &O, _ledger: &L)
    ensures outbox { IsSound (O.standing _outbox.now) }
    ensures ledger { IsSound (L.standing _ledger.now) }
{}

// A session that ends before its threads start.
fn not_begun(fault: SessionFault) -> OwnerReport
    ensures { result ≡ report_of 0 0 (Some fault) }
{
    OwnerReport {
        taken: 0,
        left: 0,
        fault: Some(fault),
    }
}

// The lane queue of an owner. With what a batch leaves behind its item in the hand it holds the capacity at most.
fn open(alloc: Global, capacity: u32, bases: &[(DeviceId, u64)]) -> Result<Passage, AllocError>
    requires room { IsRoom capacity bases.now }
    ensures forward { IfOk result (λ p. IsForwardOf p.queue p.forward × (sent_list p.forward ≡ []) × (forward_bases p.forward ≡ bases.now)) }
    ensures owner { IfOk result (λ p. IsOwnerOf p.queue p.mine × (taken_list p.mine ≡ [])) }
    ensures batch { IfOk result (λ p. IsBatch p.batch) }
    ensures room { IfOk result (λ p. capacity_of p.queue + (p.batch - 1) ≡ capacity) }
{
    let batch = batch_of(capacity);
    let behind = (batch - 1) as u32;
    match LaneQueue::new(alloc, capacity - behind, bases) {
        Ok((queue, forward, mine)) => Ok(Passage {
            queue,
            forward,
            mine,
            batch,
        }),
        Err(LaneQueueFault::Memory) => Err(AllocError),
        Err(LaneQueueFault::Range) => unreachable!(),
    }
}

/// Serves an owner: one thread hands on what comes next in the outbox of the owner's lanes, over one lane queue,
/// and one takes it into the ledger. What is left once both have ended this call takes, and it prunes the lanes
/// to the ledger's counts. A lane that the ledger has retired is left out, but pruned as the others. A thread that found
/// the queue full or empty as often in a row as it may ends.
pub fn serve_owner<
    O: Outbox + Send,
    L: Ledger + Send,
    G: Gate + Sync,
    R: Threads + Wait + Clock + Sync,
>(
    pace: &Pace<G, R>,
    alloc: Global,
    scheme: &Scheme,
    outbox: &mut O,
    ledger: &mut L,
    owner: OwnerId,
) -> OwnerReport
    requires owner { IsSome (position_of_owner scheme.now owner) }
    ensures { IsServed scheme.now owner (O.standing outbox.old) (O.standing outbox.new) (L.standing ledger.old) (L.standing ledger.new) result }
{
    have_laws(outbox, ledger);
    let Some(capacity) = scheme.lane_capacity(owner) else {
        unreachable!()
    };
    let mut asked = Asked {
        standings: Vec::new(alloc),
        bases: Vec::new(alloc),
    };
    if let Err(fault) = ask(scheme, ledger, &mut asked) {
        return not_begun(SessionFault::from(fault));
    }
    let mut working = Vec::new(alloc);
    if let Err(fault) = sift(ledger, &asked.bases, &mut working) {
        return not_begun(SessionFault::from(fault));
    }
    let Ok(mut forwarder) = Forwarder::start(alloc, scheme, owner, &asked.standings) else {
        return not_begun(SessionFault::Memory);
    };
    let Ok(passage) = open(alloc, capacity, &working) else {
        return not_begun(SessionFault::Memory);
    };
    serve_lanes(
        pace,
        owner,
        &working,
        &mut asked.bases,
        &mut forwarder,
        outbox,
        ledger,
        passage,
    )
}
