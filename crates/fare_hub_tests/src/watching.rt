//! What an operator is told of serving over sockets: lines that are refused and that break, and a station whose line is
//! lost.
ghost use Rattle.fare_sessions.specs.Stores.{HasLedgers};
ghost use Rattle.fare_serve.specs.Pausing.{does_nothing};

use crate::checking::same;
use crate::rounds::{LIMITS, dial, has_ended, hears, hub_of, send};
use crate::serving::listener;
use fare_frame::Frame;
use fare_record::{DeviceId, Hello, OwnerId};
use fare_samples::{FIRST, record};
use fare_scheme::{DemoSize, Scheme};
use fare_serve::{BrokenLines, Pause, Progress, RefusedLines, ServeFault, serve_rounds};
use fare_sessions::Hub;
use fare_store::{Ledger, Outbox, PlainLedger, PlainOutbox};
use std::alloc::Global;
use std::fs;
use std::io::Write;
use std::net::{Net, SocketAddr, TcpListener, TcpStream};
use std::sync::Wait;
use std::thread::{self, Threads};
use std::time::{Clock, SystemTime};

/// What the last pause was lent.
#[derive(Clone, Copy, Debug)]
struct Watch {
    refused: RefusedLines,
    broken: BrokenLines,
    // whether the first station had a line at a pause, and whether each of the two had one at the last pause
    was_up: bool,
    are_up: (bool, bool),
    last_frame: Option<u64>,
    round_millis: Option<u64>,
    commits: (u64, u64),
    rounds: u64,
}

impl Watch {
    // No pause came yet.
    fn new() -> Watch {
        Watch {
            refused: RefusedLines {
                no_hello: 0,
                bad_version: 0,
                unknown_device: 0,
                failed: 0,
                no_greeting: 0,
                second: 0,
            },
            broken: BrokenLines {
                failed: 0,
                unexpected: 0,
            },
            was_up: false,
            are_up: (false, false),
            last_frame: None,
            round_millis: None,
            commits: (0, 0),
            rounds: 0,
        }
    }

    // Looks at the lines of the two stations.
    fn look_at_lines(&mut self, progress: &Progress) {
        let lines = &progress.seen.lines;
        if lines.len() == 2 {
            self.was_up = self.was_up || lines[0].is_up;
            self.are_up = (lines[0].is_up, lines[1].is_up);
            self.last_frame = lines[0].last_frame;
        }
    }
}

impl<O: Outbox, L: Ledger> Pause<O, L> for Watch {
    ghost does = { does_nothing };

    fn pause(&mut self, _rt: &HostRuntime, _hub: &mut Hub<O, L>, progress: &Progress) {
        self.refused = progress.seen.refused;
        self.broken = progress.seen.broken;
        self.round_millis = progress.seen.round_millis;
        self.commits = (progress.seen.outbox_commits, progress.seen.ledger_commits);
        self.rounds = progress.rounds;
        self.look_at_lines(progress);
    }
}

// Sends what is no station's greeting over a line of its own, and waits till that is let go.
fn is_refused<R: Net<Listener = TcpListener, Stream = TcpStream>>(
    rt: &R,
    alloc: Global,
    address: SocketAddr,
    frame: Frame,
) -> Option<()> {
    let mut stream = TcpStream::connect(rt, address).ok()?;
    send(alloc, &mut stream, frame)?;
    if has_ended(alloc, &mut stream) {
        Some(())
    } else {
        None
    }
}

// The first station's line comes, is acknowledged a tap and breaks; others are refused; and the second station's comes,
// which is handed back.
fn perform<R: Net<Listener = TcpListener, Stream = TcpStream>>(
    rt: &R,
    alloc: Global,
    address: SocketAddr,
) -> Option<TcpStream> {
    let mut first = dial(rt, alloc, address, 1, &[1])?;
    hears(alloc, &mut first, 1, 1)?;
    let (known, unknown) = (DeviceId::new(1)?, DeviceId::new(77)?);
    is_refused(rt, alloc, address, Frame::Tapped(record(FIRST)?))?;
    is_refused(rt, alloc, address, Frame::Greeted(Hello::new(known, 9)))?;
    is_refused(rt, alloc, address, Frame::Greeted(Hello::new(unknown, 1)))?;
    is_refused(rt, alloc, address, Frame::Greeted(Hello::new(unknown, 1)))?;
    first.write_all(&[0x00, 0x30, 0x01]).ok()?;
    if !has_ended(alloc, &mut first) {
        return None;
    }
    let mut second = dial(rt, alloc, address, 2, &[1])?;
    hears(alloc, &mut second, 2, 1)?;
    Some(second)
}

// Performs it, and then makes the file that ends serving. The second station's line stays until serving lets it go, so that
// it is there at the last pause.
fn perform_and_end<R: Net<Listener = TcpListener, Stream = TcpStream>>(
    host: &HostRuntime,
    rt: &R,
    address: SocketAddr,
    path: &str,
) -> bool {
    let alloc = host.alloc();
    let line = perform(rt, alloc, address);
    let is_told = fs::write(host, path, "").is_ok();
    match line {
        Some(mut second) => has_ended(alloc, &mut second) && is_told,
        None => false,
    }
}

// How many seconds have passed since 1970-01-01T00:00:00Z.
fn seconds_now<R: Clock>(rt: &R) -> Option<u64> {
    let now = SystemTime::now(rt).ok()?;
    Some(now.duration_since(SystemTime::UNIX_EPOCH).ok()?.as_secs())
}

fn watch_until<R: Threads + Wait + Clock + Eprint + Sync>(
    host: &HostRuntime,
    rt: &R,
    listener: &TcpListener,
    hub: Hub<PlainOutbox, PlainLedger>,
    path: &str,
) -> (Result<(), ServeFault>, Watch)
    requires { HasLedgers hub }
{
    let (mut hub, mut output) = (hub, Vec::new(host.alloc()));
    let mut watch = Watch::new();
    let ended = serve_rounds(
        host,
        rt,
        listener,
        &mut hub,
        LIMITS,
        Some(path),
        &mut watch,
        &mut output,
    );
    (ended, watch)
}

// Whether all was heard that is waited for, how serving ended meanwhile, and what the last pause was lent.
fn watched<
    R: Net<Listener = TcpListener, Stream = TcpStream> + Threads + Wait + Clock + Eprint + Sync,
>(host: &HostRuntime, rt: &R, path: &str) -> Option<(bool, Result<(), ServeFault>, Watch)> {
    let alloc = host.alloc();
    let _ = fs::remove_file(host, path);
    let (listener, address) = listener(rt)?;
    let scheme = Scheme::demo(alloc, DemoSize::TwoDevices, 4, 4, 4).ok()?;
    let ledger = PlainLedger::new(alloc, &scheme, OwnerId::new(1)?).ok()?;
    let hub = hub_of(alloc, scheme, ledger)?;
    if hub.scheme.owner_count() != hub.ledgers.len() {
        return None;
    }
    let ((ended, watch), heard) = thread::join(
        rt,
        || -> (Result<(), ServeFault>, Watch)
            requires { HasLedgers hub }
        { watch_until(host, rt, &listener, hub, path) },
        || perform_and_end(host, rt, address, path),
    );
    Some((heard, ended, watch))
}

#[test]
fn refused_and_broken_lines_are_counted_and_a_lost_line_is_down(rt: HostRuntime) {
    let begun = seconds_now(&rt).expect(&rt, "clock");
    let (heard, ended, watch) = watched(&rt, &rt, "watched.end").expect(&rt, "memory");
    same(&rt, &(heard, ended), &(true, Ok(())));
    same(
        &rt,
        &(watch.refused.no_hello, watch.refused.bad_version),
        &(1, 1),
    );
    same(
        &rt,
        &(watch.refused.unknown_device, watch.refused.failed),
        &(2, 0),
    );
    same(
        &rt,
        &(watch.broken.failed, watch.broken.unexpected),
        &(1, 0),
    );
    same(&rt, &(watch.was_up, watch.are_up), &(true, (false, true)));
    assert!(rt; watch.last_frame >= Some(begun));
    assert!(rt; watch.rounds >= 1 && watch.round_millis.is_some());
    assert!(rt; watch.commits.0 >= 1 && watch.commits.1 >= 1);
}
