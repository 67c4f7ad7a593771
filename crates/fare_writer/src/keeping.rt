//! Items that are stored once the threads have joined, when no line is told.
ghost use Rattle.std.specs.Prelude.{◌≡◌, ◌≤◌, ◌∷◌, [], Some, None, length, take, IfOk, IfErr};
ghost use Rattle.std.specs.Result.{result_err};
ghost use Rattle.fare_writer.specs.Handling.{batch_of};
ghost use Rattle.fare_inbox_queue.specs.InboxPasses.{IsInboxEnded};
ghost use Rattle.fare_writer.specs.Keeping.{HasKept, HasTakenLeft, HasKeptBatch};

use crate::batching::{BATCH, batch_of};
use crate::halt::Halt;
use crate::leading::{halted, store_lead};
use crate::storing::store;
use crate::tally::Tally;
use fare_inbox_queue::{Arrived, InboxEnded};
use fare_record::Record;
use fare_scheme::Scheme;
use fare_store::Outbox;
use std::sync::Wait;

/// Stores an item, and tells no line.
///
/// An error ends the writer, with the item in its hand: `Memory` where none is left to note a statement's day,
/// before the outbox is called, or for the outbox itself, `Refused` where the outbox refuses the item, and `Store` where
/// it fails.
pub fn keep<O: Outbox>(
    scheme: &Scheme,
    item: Arrived,
    tally: &mut Tally,
    outbox: &mut O,
) -> Result<(), Halt>
    ensures kept { HasKept scheme.now (O.standing outbox.old) (O.standing outbox.new) (item ∷ []) tally.old tally.new (result_err result) }
    ensures alone { IfErr result (λ halt. halt.behind ≡ 0) }
{
    store(scheme, &item, tally, outbox)?;
    Ok(())
}

// Stores the first taps all at once, or else the first item alone. Answers how many it stored.
fn keep_some<O: Outbox>(
    scheme: &Scheme,
    items: &[Arrived],
    rows: &mut [Record],
    tally: &mut Tally,
    outbox: &mut O,
) -> Result<usize, Halt>
    requires some { 1 ≤ length items.now }
    requires few { length items.now ≤ batch_of scheme.now }
    requires room { length items.now ≤ length rows.old }
    ensures some { IfOk result (λ n. (1 ≤ n) × (n ≤ length items.now)) }
    ensures kept { IfOk result (λ n. HasKept scheme.now (O.standing outbox.old) (O.standing outbox.new) (take n items.now) tally.old tally.new None) }
    ensures halted { IfErr result (λ halt. HasKept scheme.now (O.standing outbox.old) (O.standing outbox.new) items.now tally.old tally.new (Some halt)) }
{
    let stored = store_lead(outbox, items, rows)?;
    if stored > 0 {
        tally.count_all(stored);
        return Ok(stored);
    }
    match keep(scheme, items[0], tally, outbox) {
        Ok(()) => Ok(1),
        Err(halt) => Err(halted(halt, &items[1..])),
    }
}

/// Stores items of a batch, in order, and tells no line: taps that stand together in one commit. Their rows go into a
/// place of the caller's.
///
/// An error ends the writer, as for one item; then those that are neither stored nor in the hand stand behind
/// that one.
pub fn keep_all<O: Outbox>(
    scheme: &Scheme,
    items: &[Arrived],
    rows: &mut [Record],
    tally: &mut Tally,
    outbox: &mut O,
) -> Result<(), Halt>
    requires few { length items.now ≤ batch_of scheme.now }
    requires room { length items.now ≤ length rows.old }
    ensures { HasKept scheme.now (O.standing outbox.old) (O.standing outbox.new) items.now tally.old tally.new (result_err result) }
{
    let mut place = 0;
    while place < items.len() {
        place += keep_some(scheme, &items[place..], rows, tally, outbox)?;
    }
    Ok(())
}

// Takes what is left in the inbox behind the first item, as long as there is room, and answers how many items there are
// then.
fn take_left<R: Wait>(rt: &R, ended: &mut InboxEnded, items: &mut [Arrived], most: usize) -> usize
    requires ended { IsInboxEnded ended.old }
    requires some { 1 ≤ most }
    requires room { most ≤ length items.old }
    ensures ended { IsInboxEnded ended.new }
    ensures taken { HasTakenLeft ended.old ended.new (take 1 items.old) (take result items.new) }
    ensures some { 1 ≤ result }
    ensures few { result ≤ most }
{
    for place in 1..most {
        let Some(item) = ended.next(rt) else {
            return place;
        };
        items[place] = item;
    }
    most
}

/// Stores an item and those that are left in the inbox behind it, as many as are a batch, and tells no line: taps that
/// stand together in one commit.
///
/// An error ends the writer, as for one item; then those of the batch that are neither stored nor in the hand
/// stand behind that one.
pub fn keep_batch<O: Outbox, R: Wait>(
    rt: &R,
    scheme: &Scheme,
    ended: &mut InboxEnded,
    item: Arrived,
    tally: &mut Tally,
    outbox: &mut O,
) -> Result<(), Halt>
    requires { IsInboxEnded ended.old }
    ensures ended { IsInboxEnded ended.new }
    ensures kept { HasKeptBatch scheme.now (O.standing outbox.old) (O.standing outbox.new) item ended.old ended.new tally.old tally.new (result_err result) }
{
    let Arrived::Tap(_, row) = item else {
        return keep(scheme, item, tally, outbox);
    };
    let mut items = [item; BATCH];
    let most = batch_of(scheme);
    let count = take_left(rt, ended, &mut items, most);
    let mut rows = [row; BATCH];
    keep_all(scheme, &items[..count], &mut rows, tally, outbox)
}
