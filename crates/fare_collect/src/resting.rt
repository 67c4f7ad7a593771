//! What the call itself stores after the joins.
ghost use Rattle.std.specs.Prelude.{◌≡◌, ◌≤◌, length, take, None, true, false, IfSome};
ghost use Rattle.std.specs.Result.{result_err};
ghost use Rattle.fare_inbox_queue.specs.InboxPasses.{IsInboxEnded};
ghost use Rattle.fare_writer.specs.Entries.{in_hand};
ghost use Rattle.fare_collect.specs.Resting.{AreApart, HasKeptLeft, HasNext, HasPassed, HasReadOn, HasRested, HasRestedBatch, HaveRested, IsGoing};

use crate::fault::StationFault;
use crate::station::Station;
use fare_frame::Frame;
use fare_inbox_queue::{Arrived, InboxEnded};
use fare_record::StationId;
use fare_scheme::Scheme;
use fare_source::Source;
use fare_store::Outbox;
use fare_writer::{
    BATCH, Halt, Tally, UnexpectedFrame, batch_of, judge, keep, keep_all, keep_batch,
};
use std::sync::Wait;
use std::time::Clock;

// Stores what is left in the inbox.
pub(crate) fn keep_left<O: Outbox, R: Wait + Clock>(
    rt: &R,
    scheme: &Scheme,
    ended: &mut InboxEnded,
    tally: &mut Tally,
    outbox: &mut O,
) -> Result<(), Halt>
    requires { IsInboxEnded ended.old }
    ensures ended { IsInboxEnded ended.new }
    ensures kept { HasKeptLeft scheme.now (O.standing outbox.old) (O.standing outbox.new) ended.old ended.new tally.old tally.new (result_err result) }
{
    for _ in rt.forever() {
        let Some(item) = ended.next(rt) else {
            return Ok(());
        };
        keep_batch(rt, scheme, ended, item, tally, outbox)?;
    }
    unreachable!()
}

// The next frame: first the one that is held.
fn next_frame<S: Source>(station: &mut Station<S>) -> Option<Frame>
    ensures { HasNext (S.talk station.old.source) (S.talk station.new.source) station.old.end station.new.end result × (station.new.collector ≡ station.old.collector) }
{
    if let Some(frame) = station.end.held.take() {
        return Some(frame);
    }
    match station.source.next() {
        Err(fault) => {
            station.end.fault = Some(StationFault::from(fault));
            None
        }
        Ok(None) => {
            station.end.ended = true;
            None
        }
        Ok(Some(frame)) => Some(frame),
    }
}

// The next item: what the collector accepts of the frames that come. `None` where no frame comes any more.
fn next_item<S: Source, R: Wait + Clock>(
    rt: &R,
    scheme: &Scheme,
    id: StationId,
    station: &mut Station<S>,
) -> Option<Arrived>
    requires { IsGoing station.old.end }
    ensures passed { HasPassed scheme.now S.talk id station.old station.new (in_hand result) }
    ensures held { station.new.end.held ≡ None }
    ensures going { IfSome result (λ _. IsGoing station.new.end) }
    ensures over { result ≡ None → station.new.end.fault ≡ None → station.new.end.ended ≡ true }
{
    for _ in rt.forever() {
        let frame = next_frame(station)?;
        match judge(scheme, id, &frame, &mut station.collector) {
            Err(UnexpectedFrame) => {
                station.end.fault = Some(StationFault::Unexpected);
                return None;
            }
            Ok(None) => {}
            Ok(Some(item)) => return Some(item),
        }
    }
    unreachable!()
}

// Reads on behind the first item, as long as there is room, and answers how many items there are then.
fn read_on<S: Source, R: Wait + Clock>(
    rt: &R,
    scheme: &Scheme,
    id: StationId,
    station: &mut Station<S>,
    items: &mut [Arrived],
    most: usize,
) -> usize
    requires going { IsGoing station.old.end }
    requires held { station.old.end.held ≡ None }
    requires some { 1 ≤ most }
    requires room { most ≤ length items.old }
    ensures read { HasReadOn scheme.now S.talk id station.old station.new (take 1 items.old) (take result items.new) }
    ensures held { station.new.end.held ≡ None }
    ensures some { 1 ≤ result }
    ensures few { result ≤ most }
{
    for place in 1..most {
        let Some(item) = next_item(rt, scheme, id, station) else {
            return place;
        };
        items[place] = item;
    }
    most
}

// Stores an item of a station's source and those that come behind it, as many as are a batch: taps that stand together in
// one commit.
fn rest_batch<S: Source, O: Outbox, R: Wait + Clock>(
    rt: &R,
    scheme: &Scheme,
    id: StationId,
    item: Arrived,
    tally: &mut Tally,
    outbox: &mut O,
    station: &mut Station<S>,
) -> Result<(), Halt>
    requires going { IsGoing station.old.end }
    requires held { station.old.end.held ≡ None }
    ensures rested { HasRestedBatch scheme.now S.talk id (O.standing outbox.old) (O.standing outbox.new) item tally.old tally.new station.old station.new (result_err result) }
    ensures held { station.new.end.held ≡ None }
{
    let Arrived::Tap(_, row) = item else {
        return keep(scheme, item, tally, outbox);
    };
    let mut items = [item; BATCH];
    let most = batch_of(scheme);
    let count = read_on(rt, scheme, id, station, &mut items, most);
    let mut rows = [row; BATCH];
    keep_all(scheme, &items[..count], &mut rows, tally, outbox)
}

// Stores the rest of a station's source: first the frame that is held. Of a source of which a part is read that is all.
pub(crate) fn rest<S: Source, O: Outbox, R: Wait + Clock>(
    rt: &R,
    scheme: &Scheme,
    id: StationId,
    tally: &mut Tally,
    outbox: &mut O,
    station: &mut Station<S>,
) -> Result<(), Halt>
    requires { (station.old.end.fault ≡ None) × (station.old.end.ended ≡ false) }
    ensures { HasRested scheme.now S.talk id (O.standing outbox.old) (O.standing outbox.new) tally.old tally.new station.old station.new (result_err result) }
{
    station.source.finish();
    for _ in rt.forever() {
        if station.end.is_over() {
            return Ok(());
        }
        let Some(item) = next_item(rt, scheme, id, station) else {
            return Ok(());
        };
        rest_batch(rt, scheme, id, item, tally, outbox, station)?;
    }
    unreachable!()
}

// Stores the rest of each source whose station met no fault.
pub(crate) fn rest_all<S: Source, O: Outbox, R: Wait + Clock>(
    rt: &R,
    scheme: &Scheme,
    tally: &mut Tally,
    outbox: &mut O,
    stations: &mut [Station<S>],
) -> Result<(), Halt>
    requires { AreApart stations.old }
    ensures { HaveRested scheme.now S.talk (O.standing outbox.old) (O.standing outbox.new) tally.old tally.new stations.old stations.new (length stations.old) (result_err result) }
{
    for place in 0..stations.len() {
        if stations[place].end.fault.is_some() || stations[place].end.ended {
            continue;
        }
        let id = stations[place].collector.station();
        rest(rt, scheme, id, tally, outbox, &mut stations[place])?;
    }
    Ok(())
}
