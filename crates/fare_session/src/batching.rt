//! A batch: what the owner's thread finds in its queue at once. The taps in it that stand together go to the ledger in
//! one commit.
ghost use Rattle.std.specs.Prelude.{◌≡◌, ◌<◌, ◌≤◌, ◌++◌, ◌∷◌, [], length, take, IfOk, IfErr, IfSome, IfNone};
ghost use Rattle.std.specs.Result.{result_err};
ghost use Rattle.fare_lane_queue.specs.Passes.{taken_list, IsOwnerOf, IsEnded};
ghost use Rattle.fare_session.specs.Batching.{IsBatch, CameWith, CameFrom, HasTakenMore, AreTaps, TakesFirst, IsBatchTaken};
ghost use Rattle.fare_session.specs.Taking.{IsTaking};

use crate::fault::SessionFault;
use crate::gate::{Gate, Point};
use crate::pace::Pace;
use crate::taking::keep_item;
use fare_lane_queue::{Ended, LaneQueue, OwnerPass};
use fare_record::{Item, Record};
use fare_store::Ledger;
use std::sync::Wait;
use std::time::Clock;

// As many items are in a batch at most.
const BATCH: usize = 256;

/// What ended the owner at an item, and how many items of its batch stand behind that one.
#[derive(Clone, Copy, PartialEq, Eq, Debug)]
pub(crate) struct Halt {
    pub(crate) fault: SessionFault,
    pub(crate) behind: u64,
}

/// As many items are in a batch at most: half of what the queue may hold, so that it has room for as many again.
pub(crate) fn batch_of(capacity: u32) -> usize
    requires { 1 ≤ capacity }
    ensures batch { IsBatch result }
    ensures few { result ≤ capacity }
{
    let capacity = capacity as usize;
    let half = capacity - capacity / 2;
    if half < BATCH { half } else { BATCH }
}

/// Takes the item that the queue has in front, if it has one.
pub(crate) fn take_one<G: Gate, R: Wait>(
    pace: &Pace<G, R>,
    line: &LaneQueue,
    pass: &mut OwnerPass,
) -> Option<Item>
    requires { IsOwnerOf line.now pass.old }
    ensures queue { IsOwnerOf line.now pass.new }
    ensures some { IfSome result (λ item. taken_list pass.new ≡ taken_list pass.old ++ item ∷ []) }
    ensures none { IfNone result (taken_list pass.new ≡ taken_list pass.old) }
{
    let item = line.take(pace.rt, pass)?;
    pace.gate.pass(Point::OwnerTook);
    Some(item)
}

// Takes what the queue has behind the items that there are, as many as are a batch, and answers how many there are
// then.
fn take_more<G: Gate, R: Wait>(
    pace: &Pace<G, R>,
    line: &LaneQueue,
    batch: usize,
    pass: &mut OwnerPass,
    items: &mut [Item],
    count: usize,
) -> usize
    requires queue { IsOwnerOf line.now pass.old }
    requires few { count ≤ batch }
    requires room { batch ≤ length items.old }
    ensures queue { IsOwnerOf line.now pass.new }
    ensures taken { HasTakenMore (CameWith pass.old pass.new) (take count items.old) (take result items.new) }
    ensures few { result ≤ batch }
{
    for place in count..batch {
        let Some(item) = take_one(pace, line, pass) else {
            return place;
        };
        items[place] = item;
    }
    batch
}

// The rows of the taps before the first statement, and how many these are.
fn lead(items: &[Item], rows: &mut [Record]) -> usize
    requires { length items.now ≤ length rows.old }
    ensures { AreTaps items.now rows.new result }
{
    for place in 0..items.len() {
        let Some(row) = items[place].tap() else {
            return place;
        };
        rows[place] = row;
    }
    items.len()
}

// The taps before the first statement go to the ledger in one commit, or the first of them. Where there is one alone it
// is left.
fn keep_lead<L: Ledger>(
    ledger: &mut L,
    items: &[Item],
    rows: &mut [Record],
    taken: &mut u64,
) -> Result<usize, SessionFault>
    requires some { 1 ≤ length items.now }
    requires room { length items.now ≤ length rows.old }
    ensures { TakesFirst (L.standing ledger.old) (L.standing ledger.new) items.now result taken.old taken.new }
{
    let count = lead(items, rows);
    if count < 2 {
        return Ok(0);
    }
    let kept = ledger.take_all(&rows[..count])?;
    *taken = taken.saturating_add(kept as u64);
    Ok(kept)
}

// The first taps go to the ledger in one commit, or else the first item alone. Answers how many it took.
fn keep_some<L: Ledger>(
    ledger: &mut L,
    items: &[Item],
    rows: &mut [Record],
    taken: &mut u64,
) -> Result<usize, SessionFault>
    requires some { 1 ≤ length items.now }
    requires room { length items.now ≤ length rows.old }
    ensures took { TakesFirst (L.standing ledger.old) (L.standing ledger.new) items.now result taken.old taken.new }
    ensures some { IfOk result (λ n. 1 ≤ n) }
{
    let kept = keep_lead(ledger, items, rows, taken)?;
    if kept > 0 {
        return Ok(kept);
    }
    keep_item(ledger, &items[0], taken)?;
    Ok(1)
}

// Items go to the ledger, in order.
fn keep_all<L: Ledger>(
    ledger: &mut L,
    items: &[Item],
    rows: &mut [Record],
    taken: &mut u64,
) -> Result<(), Halt>
    requires room { length items.now ≤ length rows.old }
    ensures taken { IsTaking (L.standing ledger.old) (L.standing ledger.new) items.now (result_err result) taken.old taken.new }
    ensures few { IfErr result (λ halt. halt.behind < length items.now) }
{
    let mut place = 0;
    while place < items.len() {
        match keep_some(ledger, &items[place..], rows, taken) {
            Ok(kept) => place += kept,
            Err(fault) => {
                let behind = items.len() - place - 1;
                return Err(Halt {
                    fault,
                    behind: behind as u64,
                });
            }
        }
    }
    Ok(())
}

// An item goes to the ledger alone.
fn keep_one<L: Ledger>(ledger: &mut L, item: &Item, taken: &mut u64) -> Result<(), Halt>
    ensures taken { IsTaking (L.standing ledger.old) (L.standing ledger.new) (item.now ∷ []) (result_err result) taken.old taken.new }
    ensures alone { IfErr result (λ halt. halt.behind ≡ 0) }
{
    match keep_item(ledger, item, taken) {
        Ok(()) => Ok(()),
        Err(fault) => Err(Halt { fault, behind: 0 }),
    }
}

/// An item goes to the ledger, and with a tap what the queue has behind it, as many items as are a batch.
pub(crate) fn keep_batch<L: Ledger, G: Gate, R: Wait>(
    pace: &Pace<G, R>,
    line: &LaneQueue,
    batch: usize,
    item: &Item,
    ledger: &mut L,
    taken: &mut u64,
    pass: &mut OwnerPass,
) -> Result<(), Halt>
    requires queue { IsOwnerOf line.now pass.old }
    requires batch { IsBatch batch }
    ensures queue { IsOwnerOf line.now pass.new }
    ensures taken { IsBatchTaken (L.standing ledger.old) (L.standing ledger.new) item.now (CameWith pass.old pass.new) (result_err result) taken.old taken.new }
    ensures few { IfErr result (λ halt. halt.behind < batch) }
{
    let Some(row) = item.tap() else {
        return keep_one(ledger, item, taken);
    };
    if batch == 1 {
        return keep_one(ledger, item, taken);
    }
    let Some(next) = take_one(pace, line, pass) else {
        return keep_one(ledger, item, taken);
    };
    let mut items = [*item; BATCH];
    items[1] = next;
    let count = take_more(pace, line, batch, pass, &mut items, 2);
    let mut rows = [row; BATCH];
    keep_all(ledger, &items[..count], &mut rows, taken)
}

// Takes what is left in the queue behind the items that there are, as many as are a batch, and answers how many there
// are then.
fn take_more_left<R: Wait>(rt: &R, ended: &mut Ended, items: &mut [Item], count: usize) -> usize
    requires ended { IsEnded ended.old }
    requires few { count ≤ length items.old }
    ensures ended { IsEnded ended.new }
    ensures taken { HasTakenMore (CameFrom ended.old ended.new) (take count items.old) (take result items.new) }
    ensures few { result ≤ length items.new }
{
    for place in count..items.len() {
        let Some(item) = ended.next(rt) else {
            return place;
        };
        items[place] = item;
    }
    items.len()
}

/// An item that was left in the queue goes to the ledger, and with a tap what is left behind it, as many items as are a
/// batch.
pub(crate) fn keep_batch_left<L: Ledger, R: Wait>(
    rt: &R,
    ended: &mut Ended,
    item: &Item,
    ledger: &mut L,
    taken: &mut u64,
) -> Result<(), Halt>
    requires { IsEnded ended.old }
    ensures ended { IsEnded ended.new }
    ensures taken { IsBatchTaken (L.standing ledger.old) (L.standing ledger.new) item.now (CameFrom ended.old ended.new) (result_err result) taken.old taken.new }
{
    let Some(row) = item.tap() else {
        return keep_one(ledger, item, taken);
    };
    if ended.left == 0 {
        return keep_one(ledger, item, taken);
    }
    let mut items = [*item; BATCH];
    let count = take_more_left(rt, ended, &mut items, 1);
    let mut rows = [row; BATCH];
    keep_all(ledger, &items[..count], &mut rows, taken)
}
