ghost use Rattle.std.specs.Prelude.{◌≡◌, ◌++◌, ◌∷◌, [], true, false, IfErr, IfOk, is_err};
ghost use Rattle.fare_inbox_queue.specs.Inbox.{station_in};
ghost use Rattle.fare_inbox_queue.specs.InboxPasses.{station_of, sent_list, IsStationOf};
ghost use Rattle.fare_collector.specs.Collecting.{next_in};
ghost use Rattle.fare_collect.specs.Stations.{HasPassedOn};
ghost use Rattle.fare_writer.specs.Arriving.{IsUnexpected};
ghost use Rattle.fare_frame.specs.declared.frame.Frame.TheVariants.{Tapped};

use crate::ended::Ended;
use crate::pacing::Pacing;
use fare_collector::{Collector, unaccept_undoes_accept};
use fare_frame::Frame;
use fare_inbox_queue::{Arrived, Inbox, StationPass};
use fare_record::Record;
use fare_session::{Gate, Point};
use fare_writer::{Floor, UnexpectedFrame};
use std::sync::Wait;
use std::time::Clock;

// Puts an item, trying again while the inbox is full, turns are left and the writer has not ended.
pub(crate) fn put<G: Gate, R: Wait + Clock>(
    floor: &Floor<G, R>,
    inbox: &Inbox,
    ended: &Ended,
    item: &Arrived,
    pacing: &mut Pacing,
    pass: &mut StationPass,
) -> bool
    requires queue { IsStationOf inbox.now pass.old }
    requires station { station_in item.now ≡ station_of pass.old }
    ensures queue { IsStationOf inbox.now pass.new × (station_of pass.new ≡ station_of pass.old) }
    ensures put { result ≡ true → sent_list pass.new ≡ sent_list pass.old ++ item.now ∷ [] }
    ensures not_put { result ≡ false → sent_list pass.new ≡ sent_list pass.old }
{
    for _ in floor.pace.rt.forever() {
        if inbox.put(floor.pace.rt, pass, *item).is_ok() {
            floor.pace.gate.pass(Point::StationPut);
            pacing.put();
            return true;
        }
        pacing.spend(floor.pace.rt, floor.pace.gate);
        if pacing.are_used_up() || ended.has_writer_ended() {
            return false;
        }
    }
    unreachable!()
}

// Takes a tap to its collector and, where that accepts it, to the inbox. False where the inbox didn't take it, and
// then the collector is as it was.
fn put_tap<G: Gate, R: Wait + Clock>(
    floor: &Floor<G, R>,
    inbox: &Inbox,
    ended: &Ended,
    tapped: Record,
    pacing: &mut Pacing,
    pass: &mut StationPass,
    collector: &mut Collector,
) -> bool
    requires queue { IsStationOf inbox.now pass.old }
    ensures queue { IsStationOf inbox.now pass.new }
    ensures passed { HasPassedOn floor.now.scheme.now (station_of pass.old) (next_in collector.old) (next_in collector.new) (sent_list pass.old) (sent_list pass.new) (Tapped tapped) result }
    ensures station { (station_of pass.new ≡ station_of pass.old) × (collector.new.station ≡ collector.old.station) }
{
    if collector.accept(floor.scheme, &tapped).is_err() {
        return true;
    }
    let item = Arrived::Tap(pass.station(), tapped);
    if put(floor, inbox, ended, &item, pacing, pass) {
        return true;
    }
    unaccept_undoes_accept();
    collector.unaccept(tapped.device());
    false
}

// Takes a frame to the collector and, where that accepts it, to the inbox. False where the inbox didn't take it, and
// then the collector is as it was. Refused where no device sends such a frame.
pub(crate) fn pass_on<G: Gate, R: Wait + Clock>(
    floor: &Floor<G, R>,
    inbox: &Inbox,
    ended: &Ended,
    frame: &Frame,
    pacing: &mut Pacing,
    pass: &mut StationPass,
    collector: &mut Collector,
) -> Result<bool, UnexpectedFrame>
    requires queue { IsStationOf inbox.now pass.old }
    ensures queue { IsStationOf inbox.now pass.new }
    ensures passed { IfOk result (HasPassedOn floor.now.scheme.now (station_of pass.old) (next_in collector.old) (next_in collector.new) (sent_list pass.old) (sent_list pass.new) frame.now) }
    ensures expected { IsUnexpected frame.now → is_err result ≡ true }
    ensures refused { IfErr result (λ _. IsUnexpected frame.now × (next_in collector.new ≡ next_in collector.old) × (sent_list pass.new ≡ sent_list pass.old)) }
    ensures station { (station_of pass.new ≡ station_of pass.old) × (collector.new.station ≡ collector.old.station) }
{
    floor.pace.gate.pass(Point::StationRead(pass.station()));
    if let Some(tapped) = frame.tapped() {
        return Ok(put_tap(floor, inbox, ended, tapped, pacing, pass, collector));
    }
    let statement = frame.stated().ok_or(UnexpectedFrame)?;
    if collector
        .accept_statement(floor.scheme, &statement)
        .is_err()
    {
        return Ok(true);
    }
    let item = Arrived::Stated(pass.station(), statement);
    Ok(put(floor, inbox, ended, &item, pacing, pass))
}
