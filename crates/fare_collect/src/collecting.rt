ghost use Rattle.fare_writer.specs.declared.fault.WriterFault.{WriterFault};
ghost use Rattle.std.specs.Result.{result_err};
ghost use Rattle.std.specs.Prelude.{◌≡◌, ◌+◌, ◌≤◌, ◌++◌, [], min, length, map, IfOk, IsErr, Option, vec_len, vec_capacity};
ghost use Rattle.fare_collect.specs.Collected.{as_session, fault_at, faults_at, fault_of_halt, writer_faults, station_faults, HaveDevices, IsCollected};
ghost use Rattle.fare_store.specs.Standing.{IsSound};
ghost use Rattle.fare_writer.specs.Entries.{in_hand};
ghost use Rattle.fare_collect.specs.Resuming.{AreStations, HaveBegun, HaveResumed};
ghost use Rattle.fare_collect.specs.Session.{id_of, IsOpen, HasSession};

use crate::answering::answer_last;
use crate::ending::hand_all;
use crate::fault::StationFault;
use crate::opening::{Lines, open_lines};
use crate::placing::place_of_station;
use crate::serving::{Intake, gather};
use crate::station::{End, Station};
use fare_inbox_queue::{Inbox, StationPass, WriterPass};
use fare_record::StationId;
use fare_scheme::Scheme;
use fare_session::{Gate, Pace, SessionFault};
use fare_source::Source;
use fare_store::{Fault, Outbox};
use fare_writer::{Floor, Halt, Tally, WriterFault, batch_of};
use std::alloc::{AllocError, Global};
use std::sync::Wait;
use std::thread::Threads;
use std::time::Clock;

/// What a session of the stations and the writer did.
#[derive(Drop)]
pub struct CollectReport {
    /// How many items were stored, taps and statements alike; it stays at 2^64 - 1.
    pub stored: u64,
    /// How many items are in no store: those in the writer's hand and in the inbox.
    pub left: u64,
    /// What ended a part, the writer's first, then by station.
    pub faults: Vec<SessionFault>,
}

// The outbox keeps the laws of its kind. A function that starts threads can't cite a trait's law itself.
fn have_law<O: Outbox>(_outbox: &O)
    ensures { IsSound (O.standing _outbox.now) }
{}

// Nothing became of any station yet.
fn begin<S>(stations: &mut [Station<S>])
    ensures { HaveBegun stations.old stations.new }
{
    for station in stations.iter_mut() {
        station.end = End::new();
    }
}

// Each station goes on behind what the outbox has had of its devices.
fn resume<S, O: Outbox>(
    scheme: &Scheme,
    outbox: &mut O,
    stations: &mut [Station<S>],
) -> Result<(), Fault>
    requires { AreStations scheme.now stations.old }
    ensures { HaveResumed scheme.now (O.standing outbox.old) (O.standing outbox.new) stations.old stations.new result }
{
    for device in scheme.devices() {
        let upto = outbox.upto(*device)?;
        let place = place_of_station(scheme, *device);
        if place < stations.len() {
            stations[place].collector.resume(*device, upto);
        }
    }
    Ok(())
}

// The stations' ids, in their order.
fn ids_of<S>(alloc: Global, stations: &[Station<S>]) -> Result<Vec<StationId>, AllocError>
    ensures { IfOk result (λ ids. ids.items ≡ map id_of stations.now) }
{
    let mut ids = Vec::new(alloc);
    for station in stations {
        ids.push(station.collector.station())?;
    }
    Ok(ids)
}

// The queues of a session.
struct Queues {
    inbox: Inbox,
    passes: Vec<StationPass>,
    writer: WriterPass,
    lines: Lines,
}

impl Drop for Queues {
    fn drop(self) {
        let Queues {
            inbox,
            passes,
            writer,
            lines,
        } = self;
        drop(inbox);
        drop(passes);
        drop(writer);
        drop(lines);
    }
}

fn open<S>(alloc: Global, scheme: &Scheme, stations: &[Station<S>]) -> Result<Queues, AllocError>
    ensures { IfOk result (λ q. IsOpen scheme.now stations.now q.inbox q.passes.items q.writer q.lines.lines.items q.lines.tellers.items q.lines.hears.items) }
{
    let ids = ids_of(alloc, stations)?;
    let capacity = scheme.inbox_capacity();
    let lines = open_lines(alloc, capacity, stations.len())?;
    let behind = (batch_of(scheme) - 1) as u32;
    let Ok((inbox, passes, writer)) = Inbox::new(alloc, capacity - behind, &ids) else {
        return Err(AllocError);
    };
    Ok(Queues {
        inbox,
        passes,
        writer,
        lines,
    })
}

impl Queues {
    fn into_parts(self) -> (Inbox, Vec<StationPass>, WriterPass, Lines)
        ensures { result ≡ (self.inbox, self.passes, self.writer, self.lines) }
    {
        let Queues {
            inbox,
            passes,
            writer,
            lines,
        } = self;
        (inbox, passes, writer, lines)
    }
}

// How many items the writer had in its hand and behind it.
fn not_handled(halt: &Halt) -> u64
    ensures { result ≡ min (length (in_hand halt.now.hand) + halt.now.behind) 18446744073709551615 }
{
    let behind = halt.behind;
    match halt.hand {
        Some(_) => behind.saturating_add(1),
        None => behind,
    }
}

// All of a session behind its opening: how many items are left, and what ended the writer.
fn run<S: Source + Send, O: Outbox + Send, G: Gate + Sync, R: Threads + Wait + Clock + Sync>(
    pace: &Pace<G, R>,
    scheme: &Scheme,
    queues: Queues,
    tally: &mut Tally,
    outbox: &mut O,
    stations: &mut [Station<S>],
) -> (u64, Result<(), Halt>)
    requires open { IsOpen scheme.now stations.old queues.inbox queues.passes.items queues.writer queues.lines.lines.items queues.lines.tellers.items queues.lines.hears.items }
    requires order { AreStations scheme.now stations.old }
    requires unnoted { tally.old.days.keys ≡ [] }
    ensures { HasSession scheme.now S.talk (O.standing outbox.old) (O.standing outbox.new) tally.old tally.new stations.old stations.new result.0 (result_err result.1) }
{
    let (inbox, passes, writer, lines) = queues.into_parts();
    let (lines, mut tellers, mut hears) = lines.into_parts();
    let floor = Floor { pace, scheme };
    let intake = Intake {
        inbox,
        passes,
        writer,
    };
    let (gathered, ended) = gather(
        &floor,
        intake,
        &lines,
        tally,
        outbox,
        &mut hears,
        &mut tellers,
        stations,
    );
    let left = ended.left;
    drop(ended);
    hand_all(pace.rt, lines, tellers, hears, stations);
    if let Err(halt) = gathered {
        return (left.saturating_add(not_handled(&halt)), Err(halt));
    }
    match answer_last(scheme, &tally.days, outbox, stations) {
        Ok(()) => (left, Ok(())),
        Err(fault) => (left, Err(Halt::from(fault))),
    }
}

fn of_writer(fault: WriterFault) -> SessionFault
    ensures { result ≡ as_session fault }
{
    match fault {
        WriterFault::Refused => SessionFault::Refused,
        WriterFault::Memory => SessionFault::Memory,
        WriterFault::Store => SessionFault::Store,
    }
}

fn of_station(fault: StationFault, station: StationId) -> SessionFault
    ensures { result ≡ fault_at station fault }
{
    match fault {
        StationFault::Source => SessionFault::Source(station),
        StationFault::Unexpected => SessionFault::Unexpected(station),
        StationFault::Memory => SessionFault::Memory,
    }
}

// What ended the writer, if it halted.
fn fault_in(done: Result<(), Halt>) -> Result<(), WriterFault>
    ensures { result_err result ≡ fault_of_halt (result_err done) }
{
    match done {
        Ok(()) => Ok(()),
        Err(halt) => Err(halt.fault),
    }
}

// All of a session, but for its list of faults: how many items are left, and what ended the writer.
fn session<S: Source + Send, O: Outbox + Send, G: Gate + Sync, R: Threads + Wait + Clock + Sync>(
    pace: &Pace<G, R>,
    alloc: Global,
    scheme: &Scheme,
    tally: &mut Tally,
    outbox: &mut O,
    stations: &mut [Station<S>],
) -> (u64, Result<(), WriterFault>)
    requires order { AreStations scheme.now stations.old }
    requires devices { HaveDevices scheme.now stations.old }
    requires none { tally.old.stored ≡ 0 }
    requires unnoted { tally.old.days.keys ≡ [] }
    ensures { IsCollected scheme.now S.talk (O.standing outbox.old) (O.standing outbox.new) stations.old stations.new tally.new.stored result.0 (result_err result.1) }
{
    have_law(outbox);
    begin(stations);
    if let Err(fault) = resume(scheme, outbox, stations) {
        return (0, Err(WriterFault::from(fault)));
    }
    match open(alloc, scheme, stations) {
        Err(_) => (0, Err(WriterFault::Memory)),
        Ok(queues) => {
            let (left, done) = run(pace, scheme, queues, tally, outbox, stations);
            (left, fault_in(done))
        }
    }
}

// Adds a station's fault, if it met one.
fn list_fault(station: StationId, fault: Option<StationFault>, faults: &mut Vec<SessionFault>)
    requires { vec_len faults.old + 1 ≤ vec_capacity faults.old }
    ensures listed { faults.new.items ≡ faults.old.items ++ faults_at station fault }
    ensures few { vec_len faults.new ≤ vec_len faults.old + 1 }
    ensures room { vec_capacity faults.new ≡ vec_capacity faults.old }
{
    if let Some(fault) = fault {
        faults.push_reserved(of_station(fault, station));
    }
}

// Adds the stations' faults, in their order.
fn list_faults<S>(stations: &[Station<S>], faults: &mut Vec<SessionFault>)
    requires { vec_len faults.old + length stations.now ≤ vec_capacity faults.old }
    ensures { faults.new.items ≡ faults.old.items ++ station_faults stations.now }
{
    for station in stations {
        list_fault(station.collector.station(), station.end.fault, faults);
    }
}

/// A session of the stations and the writer: each station's thread reads its source, its collector judges, and the inbox
/// takes what is accepted; the writer's thread stores it, and only then tells the station's line what may be
/// acknowledged. Once all have ended, this call stores what is left in the inbox and the rest of each source, hands each
/// source what its line still holds, and then the last acknowledgements: of each day that a statement among these items
/// names, where the outbox holds the statements of all owners, and then of each device's greatest link.
///
/// The stations, 1 to 16, are those of the scheme, in its order. `Memory` where the list of faults gets no room, before
/// anything is read; want of memory later is a fault of the report.
pub fn collect<
    S: Source + Send,
    O: Outbox + Send,
    G: Gate + Sync,
    R: Threads + Wait + Clock + Sync,
>(
    pace: &Pace<G, R>,
    alloc: Global,
    scheme: &Scheme,
    stations: &mut [Station<S>],
    outbox: &mut O,
) -> Result<CollectReport, AllocError>
    requires few { length stations.old ≤ 16 }
    requires order { AreStations scheme.now stations.old }
    requires devices { HaveDevices scheme.now stations.old }
    ensures ok { IfOk result (λ report. (ended : Option WriterFault) × IsCollected scheme.now S.talk (O.standing outbox.old) (O.standing outbox.new) stations.old stations.new report.stored report.left ended × (report.faults.items ≡ writer_faults ended ++ station_faults stations.new)) }
    ensures memory { IsErr result → (outbox.new ≡ outbox.old) × (stations.new ≡ stations.old) }
{
    let mut faults = Vec::with_capacity(alloc, stations.len() + 1)?;
    let mut tally = Tally::new(alloc);
    let (left, done) = session(pace, alloc, scheme, &mut tally, outbox, stations);
    if let Err(fault) = done {
        faults.push_reserved(of_writer(fault));
    }
    list_faults(stations, &mut faults);
    Ok(CollectReport {
        stored: tally.stored,
        left,
        faults,
    })
}
