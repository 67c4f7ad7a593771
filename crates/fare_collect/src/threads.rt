//! All stations' threads, and the writer's.
ghost use Rattle.std.specs.Result.{result_err};
ghost use Rattle.std.specs.Prelude.{◌≡◌, ◌<◌, [], ℕ, length};
ghost use Rattle.fare_inbox_queue.specs.InboxPasses.{taken_list, stations_of, IsWriterOf};
ghost use Rattle.fare_collect.specs.Stations.{IsPostedAt, ArePosted, HasRunStation, HaveRun};
ghost use Rattle.fare_writer.specs.Handling.{AreTellers, HasWritten};

use crate::ended::Ended;
use crate::reading::read_all;
use crate::station::Station;
use crate::writing::write_all;
use fare_inbox_queue::{AckLine, Inbox, WriterPass};
use fare_session::Gate;
use fare_source::Source;
use fare_store::Outbox;
use fare_writer::{Floor, Halt, Tally, Teller};
use std::sync::Wait;
use std::thread;
use std::thread::{Threads, join_mut};
use std::time::Clock;

// A station's thread.
fn run_station<S: Source, G: Gate, R: Wait + Clock>(
    floor: &Floor<G, R>,
    inbox: &Inbox,
    lines: &[AckLine],
    ended: &Ended,
    place: usize,
    station: &mut Station<S>,
)
    requires { IsPostedAt inbox.now lines.now place station.old }
    ensures { HasRunStation floor.now.scheme.now S.talk inbox.now lines.now place station.old station.new }
{
    let Some(post) = &mut station.post else {
        return;
    };
    read_all(
        floor,
        inbox,
        &lines[place],
        ended,
        post,
        &mut station.collector,
        &mut station.source,
    );
}

// Each station in a thread of its own.
fn run_stations<S: Source + Send, G: Gate + Sync, R: Threads + Wait + Clock + Sync>(
    floor: &Floor<G, R>,
    inbox: &Inbox,
    lines: &[AckLine],
    ended: &Ended,
    stations: &mut [Station<S>],
)
    requires some { 0 < length stations.old }
    requires ready { ArePosted inbox.now lines.now stations.old }
    ensures { HaveRun floor.now.scheme.now S.talk inbox.now lines.now stations.old stations.new }
{
    let count = stations.len();
    thread::for_each_mut(
        floor.pace.rt,
        stations,
        count,
        &|place: usize, station: &mut Station<S>|
            requires { IsPostedAt inbox.now lines.now place station.old }
            ensures { HasRunStation floor.entry.now.scheme.now S.talk inbox.entry.now lines.entry.now place station.old station.new }
        { run_station(floor, inbox, lines, ended, place, station) },
    );
}

// All stations' threads and the writer's, and what each did.
pub(crate) fn run_threads<
    S: Source + Send,
    O: Outbox + Send,
    G: Gate + Sync,
    R: Threads + Wait + Clock + Sync,
>(
    floor: &Floor<G, R>,
    inbox: &Inbox,
    lines: &[AckLine],
    tally: &mut Tally,
    outbox: &mut O,
    writer: &mut WriterPass,
    tellers: &mut [Teller],
    stations: &mut [Station<S>],
) -> Result<(), Halt>
    requires some { 0 < length stations.old }
    requires ready { ArePosted inbox.now lines.now stations.old }
    requires queue { IsWriterOf inbox.now writer.old × (taken_list writer.old ≡ []) }
    requires tellers { AreTellers lines.now tellers.old }
    ensures ran { HaveRun floor.now.scheme.now S.talk inbox.now lines.now stations.old stations.new }
    ensures queue { IsWriterOf inbox.now writer.new × (stations_of writer.new ≡ stations_of writer.old) }
    ensures tellers { AreTellers lines.now tellers.new }
    ensures written { HasWritten floor.now.scheme.now (O.standing outbox.old) (O.standing outbox.new) (taken_list writer.new) tellers.old tellers.new tally.old tally.new (result_err result) }
{
    let ended = Ended::new();
    let ended = &ended;
    let (_, wrote) = join_mut(
        floor.pace.rt,
        &mut ||
            requires { (0 < length stations.now) × ArePosted inbox.now lines.now stations.now }
            ensures { HaveRun floor.entry.now.scheme.now S.talk inbox.entry.now lines.entry.now stations.entry.now stations.exit.now }
        { run_stations(floor, inbox, lines, ended, stations) },
        &mut || -> Result<(), Halt>
            requires { IsWriterOf inbox.now writer.now × (taken_list writer.now ≡ []) × AreTellers lines.now tellers.now }
            ensures queue { IsWriterOf inbox.entry.now writer.exit.now × (stations_of writer.exit.now ≡ stations_of writer.entry.now) }
            ensures tellers { AreTellers lines.entry.now tellers.exit.now }
            ensures written { HasWritten floor.entry.now.scheme.now (O.standing outbox.entry.now) (O.standing outbox.exit.now) (taken_list writer.exit.now) tellers.entry.now tellers.exit.now tally.entry.now tally.exit.now (result_err result) }
        { write_all(floor, inbox, lines, ended, tally, outbox, writer, tellers) },
    );
    wrote
}
