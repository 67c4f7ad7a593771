//! Several items in one commit.
ghost use Rattle.std.specs.Prelude.{◌≡◌, ◌+◌, ◌≤◌, ◌∷◌, [], Some, None, min, length, take, IfOk, IfErr};
ghost use Rattle.std.specs.Result.{result_err};
ghost use Rattle.fare_inbox_queue.specs.InboxPasses.{stations_of, IsWriterOf};
ghost use Rattle.fare_writer.specs.Batches.{HasTakenMore, HaveTold, HasWrittenBatch};
ghost use Rattle.fare_writer.specs.Handling.{AreTellers, HasWritten, batch_of};

use crate::floor::Floor;
use crate::halt::Halt;
use crate::handling::{handle, tell};
use crate::leading::{halted, store_lead};
use crate::tally::Tally;
use crate::teller::Teller;
use fare_inbox_queue::{AckLine, Arrived, Inbox, WriterPass};
use fare_record::{Ack, AckItem, Record};
use fare_scheme::Scheme;
use fare_session::{Gate, Point};
use fare_store::Outbox;
use std::sync::Wait;
use std::time::Clock;

/// As many items are in a batch at most.
pub const BATCH: usize = 256;

/// As many items are in a batch at most: half of what the inbox may hold, so that the queue has room for as many again.
pub fn batch_of(scheme: &Scheme) -> usize
    ensures is { result ≡ batch_of scheme.now }
    ensures some { 1 ≤ result }
    ensures few { result ≤ scheme.now.inbox_capacity }
{
    let capacity = scheme.inbox_capacity() as usize;
    let half = capacity - capacity / 2;
    if half < BATCH { half } else { BATCH }
}

// Takes what the inbox has behind the first item, as long as there is room, and answers how many items there are then.
fn take_more<R: Wait>(
    rt: &R,
    inbox: &Inbox,
    writer: &mut WriterPass,
    items: &mut [Arrived],
    most: usize,
) -> usize
    requires queue { IsWriterOf inbox.now writer.old }
    requires some { 1 ≤ most }
    requires room { most ≤ length items.old }
    ensures queue { IsWriterOf inbox.now writer.new × (stations_of writer.new ≡ stations_of writer.old) }
    ensures taken { HasTakenMore writer.old writer.new (take 1 items.old) (take result items.new) }
    ensures some { 1 ≤ result }
    ensures few { result ≤ most }
{
    for place in 1..most {
        let Some(item) = inbox.take(rt, writer) else {
            return place;
        };
        items[place] = item;
    }
    most
}

// Tells an item's station what may be acknowledged of it, once it is stored: of a tap its link.
fn tell_one<G, R: Wait + Clock>(
    floor: &Floor<G, R>,
    lines: &[AckLine],
    item: Arrived,
    tellers: &mut [Teller],
)
    requires { AreTellers lines.now tellers.old }
    ensures ready { AreTellers lines.now tellers.new }
    ensures told { HaveTold floor.now.scheme.now (item ∷ []) tellers.old tellers.new }
{
    if let Arrived::Tap(station, row) = item {
        let ack = AckItem::Upto(Ack::new(row.device(), row.link()));
        let place = floor.scheme.station_position(station);
        tell(floor.pace.rt, lines, place, ack, row.link(), tellers);
    }
}

// Counts items that were stored, and tells each one's station.
fn tell_all<G: Gate, R: Wait + Clock>(
    floor: &Floor<G, R>,
    lines: &[AckLine],
    items: &[Arrived],
    tally: &mut Tally,
    tellers: &mut [Teller],
)
    requires { AreTellers lines.now tellers.old }
    ensures ready { AreTellers lines.now tellers.new }
    ensures told { HaveTold floor.now.scheme.now items.now tellers.old tellers.new }
    ensures stored { min tally.new.stored 18446744073709551615 ≡ min (tally.old.stored + length items.now) 18446744073709551615 }
    ensures days { tally.new.days ≡ tally.old.days }
{
    for place in 0..items.len() {
        tally.count();
        floor.pace.gate.pass(Point::WriterStored);
        tell_one(floor, lines, items[place], tellers);
    }
}

// Stores the first taps all at once, or else the first item alone, and tells their stations' lines. Answers how many it
// stored.
fn handle_some<O: Outbox, G: Gate, R: Wait + Clock>(
    floor: &Floor<G, R>,
    lines: &[AckLine],
    items: &[Arrived],
    rows: &mut [Record],
    tally: &mut Tally,
    outbox: &mut O,
    tellers: &mut [Teller],
) -> Result<usize, Halt>
    requires ready { AreTellers lines.now tellers.old }
    requires some { 1 ≤ length items.now }
    requires few { length items.now ≤ batch_of floor.now.scheme.now }
    requires room { length items.now ≤ length rows.old }
    ensures ready { AreTellers lines.now tellers.new }
    ensures some { IfOk result (λ n. (1 ≤ n) × (n ≤ length items.now)) }
    ensures written { IfOk result (λ n. HasWritten floor.now.scheme.now (O.standing outbox.old) (O.standing outbox.new) (take n items.now) tellers.old tellers.new tally.old tally.new None) }
    ensures halted { IfErr result (λ halt. HasWritten floor.now.scheme.now (O.standing outbox.old) (O.standing outbox.new) items.now tellers.old tellers.new tally.old tally.new (Some halt)) }
{
    let stored = store_lead(outbox, items, rows)?;
    if stored > 0 {
        floor.pace.gate.pass(Point::WriterCommitted);
        tell_all(floor, lines, &items[..stored], tally, tellers);
        return Ok(stored);
    }
    match handle(floor, lines, items[0], tally, outbox, tellers) {
        Ok(()) => Ok(1),
        Err(halt) => Err(halted(halt, &items[1..])),
    }
}

// Stores items and tells their stations' lines, in order: taps that stand together all at once.
fn handle_all<O: Outbox, G: Gate, R: Wait + Clock>(
    floor: &Floor<G, R>,
    lines: &[AckLine],
    items: &[Arrived],
    rows: &mut [Record],
    tally: &mut Tally,
    outbox: &mut O,
    tellers: &mut [Teller],
) -> Result<(), Halt>
    requires ready { AreTellers lines.now tellers.old }
    requires few { length items.now ≤ batch_of floor.now.scheme.now }
    requires room { length items.now ≤ length rows.old }
    ensures ready { AreTellers lines.now tellers.new }
    ensures written { HasWritten floor.now.scheme.now (O.standing outbox.old) (O.standing outbox.new) items.now tellers.old tellers.new tally.old tally.new (result_err result) }
{
    let mut place = 0;
    while place < items.len() {
        place += handle_some(floor, lines, &items[place..], rows, tally, outbox, tellers)?;
    }
    Ok(())
}

/// Stores an item and those that the inbox has behind it, as many as are a batch: taps that stand together in one
/// commit. Each is told to its station's line once the commit that holds it is done. A full line drops that.
///
/// An error ends the writer, as for one item; then those of the batch that are neither stored nor in the hand
/// stand behind that one.
pub fn handle_batch<O: Outbox, G: Gate, R: Wait + Clock>(
    floor: &Floor<G, R>,
    inbox: &Inbox,
    lines: &[AckLine],
    item: Arrived,
    tally: &mut Tally,
    outbox: &mut O,
    writer: &mut WriterPass,
    tellers: &mut [Teller],
) -> Result<(), Halt>
    requires queue { IsWriterOf inbox.now writer.old }
    requires ready { AreTellers lines.now tellers.old }
    ensures queue { IsWriterOf inbox.now writer.new × (stations_of writer.new ≡ stations_of writer.old) }
    ensures ready { AreTellers lines.now tellers.new }
    ensures written { HasWrittenBatch floor.now.scheme.now (O.standing outbox.old) (O.standing outbox.new) item writer.old writer.new tellers.old tellers.new tally.old tally.new (result_err result) }
{
    let Arrived::Tap(_, row) = item else {
        return handle(floor, lines, item, tally, outbox, tellers);
    };
    let mut items = [item; BATCH];
    let most = batch_of(floor.scheme);
    let count = take_more(floor.pace.rt, inbox, writer, &mut items, most);
    let mut rows = [row; BATCH];
    handle_all(
        floor,
        lines,
        &items[..count],
        &mut rows,
        tally,
        outbox,
        tellers,
    )
}
