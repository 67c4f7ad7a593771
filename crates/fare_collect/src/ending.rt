//! The answers after the joins.
ghost use Rattle.std.specs.Prelude.{◌≤◌, ◌∷◌, [], length};
ghost use Rattle.fare_collect.specs.Ending.{IsHanded, IsHandedLeft, AreHandedLeft};
ghost use Rattle.fare_inbox_queue.specs.LinePasses.{IsAckOf, IsHearOf};
ghost use Rattle.fare_collect.specs.Opening.{AreHears};
ghost use Rattle.fare_writer.specs.Handling.{AreTellers};

use crate::fault::StationFault;
use crate::reading::frame_of;
use crate::station::Station;
use fare_inbox_queue::{AckLine, HearPass};
use fare_record::AckItem;
use fare_source::Source;
use fare_writer::Teller;
use std::sync::Wait;
use std::time::Clock;

// Hands a station's source an answer, and keeps its first fault.
pub(crate) fn hand<S: Source>(item: &AckItem, station: &mut Station<S>)
    ensures { IsHanded S.talk (item.now ∷ []) station.old station.new }
{
    if let Err(fault) = station.source.answer(&frame_of(item)) {
        if station.end.fault.is_none() {
            station.end.fault = Some(StationFault::from(fault));
        }
    }
}

// Hands a station's source what is left in its line.
fn hand_left<S: Source, R: Wait + Clock>(
    rt: &R,
    line: AckLine,
    teller: Teller,
    hear: HearPass,
    station: &mut Station<S>,
)
    requires { IsAckOf line teller.pass × IsHearOf line hear }
    ensures { IsHandedLeft S.talk teller hear station.old station.new }
{
    let mut ended = line.finish(rt, teller.into_pass(), hear);
    for _ in rt.forever() {
        let Some(item) = ended.next(rt) else {
            return;
        };
        hand(&item, station);
    }
}

// Hands each station's source what is left in its line.
pub(crate) fn hand_all<S: Source, R: Wait + Clock>(
    rt: &R,
    lines: Vec<AckLine>,
    tellers: Vec<Teller>,
    hears: Vec<HearPass>,
    stations: &mut [Station<S>],
)
    requires tellers { AreTellers lines.items tellers.items }
    requires hears { AreHears lines.items hears.items }
    requires few { length lines.items ≤ length stations.old }
    ensures { AreHandedLeft S.talk tellers.items hears.items stations.old stations.new }
{
    let mut lines = lines;
    let mut tellers = tellers;
    let mut hears = hears;
    while let Some(line) = lines.pop() {
        let Some(teller) = tellers.pop() else {
            unreachable!()
        };
        let Some(hear) = hears.pop() else {
            unreachable!()
        };
        let place = lines.len();
        hand_left(rt, line, teller, hear, &mut stations[place]);
    }
}
