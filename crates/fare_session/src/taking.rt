//! The owner's thread: it takes from the lane queue, and alone writes the ledger.
ghost use Rattle.std.specs.Prelude.{◌≡◌, ◌<◌, [], IfErr};
ghost use Rattle.std.specs.Result.{result_err};
ghost use Rattle.fare_record.specs.Limits.{IsDay};
ghost use Rattle.fare_record.specs.declared.item.Item.TheVariants.{Tap, Stated};
ghost use Rattle.fare_lane_queue.specs.Passes.{taken_list, IsOwnerOf, left_list, IsEnded};
ghost use Rattle.fare_history.specs.Serving.{IsDated};
ghost use Rattle.fare_session.specs.Batching.{IsBatch};
ghost use Rattle.fare_session.specs.Taking.{IsKept, IsTaken, IsTaking, IsLeftTaken, done_by, held_by};

use crate::batching::{Halt, keep_batch, keep_batch_left, take_one};
use crate::ending::Ending;
use crate::fault::SessionFault;
use crate::gate::{Gate, Point};
use crate::pace::Pace;
use crate::turns::Turns;
use fare_lane_queue::{Ended, LaneQueue, OwnerPass};
use fare_owner::StatementFault;
use fare_record::{Item, Record, Statement};
use fare_store::{Ledger, Refused};
use std::sync::Wait;
use std::time::Clock;

// A tap goes to the ledger. Answers that it is new there.
fn keep_tap<L: Ledger>(ledger: &mut L, row: &Record) -> Result<bool, SessionFault>
    ensures { IsKept (L.standing ledger.old) (L.standing ledger.new) (Tap row.now) result }
{
    match ledger.take(row) {
        Ok(()) => Ok(true),
        Err(Refused::Failed(fault)) => Err(SessionFault::from(fault)),
        Err(Refused::Because(_)) => Err(SessionFault::Refused),
    }
}

// A statement goes to the ledger, which may hold it already. Answers whether it is new there.
fn keep_statement<L: Ledger>(ledger: &mut L, statement: &Statement) -> Result<bool, SessionFault>
    ensures kept { IsKept (L.standing ledger.old) (L.standing ledger.new) (Stated statement.now) result }
    ensures dated { IsDay statement.now.day }
{
    prove!(statement.day().get() <= 100_000);
    match ledger.state(statement) {
        Ok(()) => Ok(true),
        Err(Refused::Failed(fault)) => Err(SessionFault::from(fault)),
        Err(Refused::Because(StatementFault::Repeated)) => Ok(false),
        Err(Refused::Because(_)) => Err(SessionFault::Refused),
    }
}

// An item goes to the ledger. Answers whether it is new there.
fn keep<L: Ledger>(ledger: &mut L, item: &Item) -> Result<bool, SessionFault>
    ensures kept { IsKept (L.standing ledger.old) (L.standing ledger.new) item.now result }
    ensures dated { IsDated item.now }
{
    match item {
        Item::Tap(row) => keep_tap(ledger, row),
        Item::Stated(statement) => keep_statement(ledger, statement),
    }
}

/// An item goes to the ledger. `taken` counts those that are new there.
pub(crate) fn keep_item<L: Ledger>(
    ledger: &mut L,
    item: &Item,
    taken: &mut u64,
) -> Result<(), SessionFault>
    ensures { IsTaken (L.standing ledger.old) (L.standing ledger.new) (done_by item.now (result_err result)) (held_by item.now (result_err result)) [] (result_err result) taken.old taken.new }
{
    if keep(ledger, item)? {
        *taken = taken.saturating_add(1);
    }
    Ok(())
}

/// The owner's thread, which takes at most so many items at once. It ends at a fault, where its turns are used up, and where the queue is empty once the
/// forwarder has ended.
pub(crate) fn take_all<L: Ledger, G: Gate, R: Wait + Clock>(
    pace: &Pace<G, R>,
    line: &LaneQueue,
    ending: &Ending,
    batch: usize,
    ledger: &mut L,
    taken: &mut u64,
    pass: &mut OwnerPass,
) -> Result<(), Halt>
    requires queue { IsOwnerOf line.now pass.old × (taken_list pass.old ≡ []) }
    requires batch { IsBatch batch }
    ensures queue { IsOwnerOf line.now pass.new }
    ensures taken { IsTaking (L.standing ledger.old) (L.standing ledger.new) (taken_list pass.new) (result_err result) taken.old taken.new }
    ensures few { IfErr result (λ halt. halt.behind < batch) }
{
    let mut turns = Turns::new(pace.turns);
    for _ in pace.rt.forever() {
        let ended = ending.has_forwarder_ended();
        match take_one(pace, line, pass) {
            Some(item) => {
                turns.found();
                if let Err(halt) = keep_batch(pace, line, batch, &item, ledger, taken, pass) {
                    ending.owner_ends();
                    return Err(halt);
                }
                pace.gate.pass(Point::OwnerCommitted);
            }
            None => {
                turns.spend(pace.rt, pace.gate);
                if ended || turns.are_used_up() {
                    break;
                }
            }
        }
    }
    ending.owner_ends();
    Ok(())
}

/// Takes what the threads left in the queue.
pub(crate) fn take_left<L: Ledger, R: Wait>(
    rt: &R,
    ended: &mut Ended,
    ledger: &mut L,
    taken: &mut u64,
) -> Result<(), Halt>
    requires { IsEnded ended.old }
    ensures ended { IsEnded ended.new }
    ensures taken { IsLeftTaken (L.standing ledger.old) (L.standing ledger.new) (left_list ended.old) (left_list ended.new) (result_err result) taken.old taken.new }
{
    for _ in rt.forever() {
        let Some(item) = ended.next(rt) else {
            return Ok(());
        };
        keep_batch_left(rt, ended, &item, ledger, taken)?;
    }
    unreachable!()
}
