//! The stations take their posts with their passes, all threads run, and what is left in the inbox is stored.
ghost use Rattle.std.specs.Result.{result_err};
ghost use Rattle.std.specs.Prelude.{◌≡◌, ◌<◌, ◌≤◌, [], ℕ, length, map, None};
ghost use Rattle.fare_inbox_queue.specs.InboxPasses.{station_of, taken_list, stations_of, left_of, capacity_of, IsWriterOf, IsInboxEnded};
ghost use Rattle.fare_collect.specs.Opening.{AreHears, AreNew};
ghost use Rattle.fare_writer.specs.Handling.{AreTellers, HasWritten};
ghost use Rattle.fare_collect.specs.Resting.{AreApart, AreRead};
ghost use Rattle.fare_collect.specs.Session.{HaveGivenBack, AreReady, HaveGathered};

use crate::opening::{post_all, relieve_all};
use crate::resting::{keep_left, rest_all};
use crate::station::Station;
use crate::threads::run_threads;
use fare_inbox_queue::{AckLine, HearPass, Inbox, InboxEnded, StationPass, WriterPass};
use fare_session::Gate;
use fare_source::Source;
use fare_store::Outbox;
use fare_writer::{Floor, Halt, Tally, Teller};
use std::sync::Wait;
use std::thread::Threads;
use std::time::Clock;

// The inbox of a session, with the passes of its stations and of its writer.
pub(crate) struct Intake {
    pub(crate) inbox: Inbox,
    pub(crate) passes: Vec<StationPass>,
    pub(crate) writer: WriterPass,
}

// Posts the stations with their passes, runs all threads, and relieves them of the passes.
fn serve_stations<
    S: Source + Send,
    O: Outbox + Send,
    G: Gate + Sync,
    R: Threads + Wait + Clock + Sync,
>(
    floor: &Floor<G, R>,
    intake: &mut Intake,
    lines: &[AckLine],
    tally: &mut Tally,
    outbox: &mut O,
    hears: &mut Vec<HearPass>,
    tellers: &mut [Teller],
    stations: &mut [Station<S>],
) -> Result<(), Halt>
    requires some { 0 < length stations.old }
    requires passes { AreReady intake.old.inbox stations.old intake.old.passes.items }
    requires lines { AreNew (length stations.old) lines.now tellers.old hears.old.items }
    requires queue { IsWriterOf intake.old.inbox intake.old.writer × (taken_list intake.old.writer ≡ []) }
    ensures same { intake.new.inbox ≡ intake.old.inbox }
    ensures served { HaveGivenBack floor.now.scheme.now S.talk intake.old.inbox lines.now stations.old stations.new intake.old.passes.items intake.new.passes.items hears.old.items hears.new.items }
    ensures queue { IsWriterOf intake.old.inbox intake.new.writer × (stations_of intake.new.writer ≡ stations_of intake.old.writer) }
    ensures tellers { AreTellers lines.now tellers.new }
    ensures hears { AreHears lines.now hears.new.items }
    ensures written { HasWritten floor.now.scheme.now (O.standing outbox.old) (O.standing outbox.new) (taken_list intake.new.writer) tellers.old tellers.new tally.old tally.new (result_err result) }
{
    let Intake {
        inbox,
        passes,
        writer,
    } = intake;
    post_all(stations, passes, hears);
    let wrote = run_threads(
        floor, inbox, lines, tally, outbox, writer, tellers, stations,
    );
    relieve_all(stations, passes, hears);
    wrote
}

// The same, and then what is left in the inbox is stored.
pub(crate) fn serve<
    S: Source + Send,
    O: Outbox + Send,
    G: Gate + Sync,
    R: Threads + Wait + Clock + Sync,
>(
    floor: &Floor<G, R>,
    mut intake: Intake,
    lines: &[AckLine],
    tally: &mut Tally,
    outbox: &mut O,
    hears: &mut Vec<HearPass>,
    tellers: &mut [Teller],
    stations: &mut [Station<S>],
) -> (Result<(), Halt>, InboxEnded)
    requires some { 0 < length stations.old }
    requires passes { AreReady intake.inbox stations.old intake.passes.items }
    requires all { map station_of intake.passes.items ≡ stations_of intake.writer }
    requires lines { AreNew (length stations.old) lines.now tellers.old hears.old.items }
    requires queue { IsWriterOf intake.inbox intake.writer × (taken_list intake.writer ≡ []) }
    ensures ended { IsInboxEnded result.1 }
    ensures tellers { AreTellers lines.now tellers.new }
    ensures hears { AreHears lines.now hears.new.items }
    ensures gathered { HaveGathered floor.now.scheme.now S.talk (O.standing outbox.old) (O.standing outbox.new) tellers.old tellers.new tally.old tally.new stations.old stations.new hears.new.items (capacity_of intake.inbox) result.1.left (result_err result.0) }

    // Where the writer met no fault nothing is left.
    ensures whole { result_err result.0 ≡ None → ((station : ℕ) → left_of result.1 station ≡ []) × (result.1.left ≡ 0) }
{
    let wrote = serve_stations(
        floor,
        &mut intake,
        lines,
        tally,
        outbox,
        hears,
        tellers,
        stations,
    );
    let Intake {
        inbox,
        passes,
        writer,
    } = intake;
    let mut ended = inbox.finish(floor.pace.rt, passes, writer);
    if let Err(halt) = wrote {
        return (Err(halt), ended);
    }
    let kept = keep_left(floor.pace.rt, floor.scheme, &mut ended, tally, outbox);
    (kept, ended)
}

// The same, and then the rest of each source is stored whose station met no fault.
pub(crate) fn gather<
    S: Source + Send,
    O: Outbox + Send,
    G: Gate + Sync,
    R: Threads + Wait + Clock + Sync,
>(
    floor: &Floor<G, R>,
    intake: Intake,
    lines: &[AckLine],
    tally: &mut Tally,
    outbox: &mut O,
    hears: &mut Vec<HearPass>,
    tellers: &mut [Teller],
    stations: &mut [Station<S>],
) -> (Result<(), Halt>, InboxEnded)
    requires some { 0 < length stations.old }
    requires apart { AreApart stations.old }
    requires passes { AreReady intake.inbox stations.old intake.passes.items }
    requires all { map station_of intake.passes.items ≡ stations_of intake.writer }
    requires lines { AreNew (length stations.old) lines.now tellers.old hears.old.items }
    requires queue { IsWriterOf intake.inbox intake.writer × (taken_list intake.writer ≡ []) }
    ensures tellers { AreTellers lines.now tellers.new }
    ensures hears { AreHears lines.now hears.new.items }
    ensures gathered { HaveGathered floor.now.scheme.now S.talk (O.standing outbox.old) (O.standing outbox.new) tellers.old tellers.new tally.old tally.new stations.old stations.new hears.new.items (capacity_of intake.inbox) result.1.left (result_err result.0) }
    ensures whole { result_err result.0 ≡ None → (result.1.left ≡ 0) × AreRead stations.new (length stations.old) }
{
    let (wrote, ended) = serve(
        floor, intake, lines, tally, outbox, hears, tellers, stations,
    );
    if let Err(halt) = wrote {
        return (Err(halt), ended);
    }
    let rested = rest_all(floor.pace.rt, floor.scheme, tally, outbox, stations);
    (rested, ended)
}
