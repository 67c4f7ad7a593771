//! Serving in rounds over sockets: a validator that comes late, one that breaks and comes again, a newer line, and
//! lines that don't fall quiet, alone and beside one that does.
ghost use Rattle.fare_sessions.specs.Stores.{HasLedgers};

use crate::checking::same;
use crate::serving::listener;
use fare_frame::Frame;
use fare_record::{Ack, DeviceId, Hello, LAST_NUMBER, OwnerId};
use fare_samples::{FIRST, Numbers, record};
use fare_scheme::{DemoSize, Scheme};
use fare_serve::{Limits, Rest, ServeFault, serve_rounds};
use fare_sessions::Hub;
use fare_store::{PlainLedger, PlainOutbox};
use std::alloc::Global;
use std::fs;
use std::io::{Read, Write};
use std::net::{Net, SocketAddr, TcpListener, TcpStream};
use std::process::Abort;
use std::sync::Wait;
use std::thread::{self, Threads};
use std::time::{Clock, Duration};

// A read waits 5 milliseconds; a round goes on to the owners where no line brought anything for two of them, or after 20
// milliseconds.
pub(crate) const LIMITS: Limits = Limits {
    turns: 100,
    read_millis: 5,
    write_millis: 1_000,
    rounds: 2_000,
    patience: 2,
    round_millis: 20,
};

// Rounds that last as long as a line brings something.
const LONG_ROUNDS: Limits = Limits {
    round_millis: 60_000,
    ..LIMITS
};

// How many taps a line that goes on brings, and how many at most where it goes on till it is let go.
const TAPS: u64 = 200;

const MOST_TAPS: u64 = 5_000;

// How many answers are waited for at most.
const MOST_ANSWERS: usize = 1_000;

/// What validators do till serving is told to end.
#[derive(Clone, Copy, PartialEq, Eq, Debug)]
enum Play {
    /// That of device 2 comes when the tap of device 1 is acknowledged.
    ComesLate,
    /// It sends what is no frame, and then comes again, with the tap that was acknowledged and another.
    BreaksAndComesAgain,
    /// It comes again on another line, and the first one is still there.
    ComesTwice,
    /// It goes on with a tap each millisecond, so that its line doesn't fall quiet.
    GoesOn,
    /// It goes on so also where serving is told to end, till its line is let go.
    GoesOnToTheEnd,
    /// It goes on so in a long round, and that of device 2, which has come too, sends a tap after it was quiet for a while.
    SpeaksBeside,
}

fn device(number: u64) -> Option<DeviceId> {
    DeviceId::new(number)
}

pub(crate) fn send(alloc: Global, stream: &mut TcpStream, frame: Frame) -> Option<()> {
    let mut bytes = Vec::new(alloc);
    frame.put(&mut bytes).ok()?;
    stream.write_all(&bytes).ok()
}

// A device's tap of this number is sent.
fn tap(alloc: Global, stream: &mut TcpStream, number: u64, link: u64) -> Option<()> {
    let numbers = Numbers {
        device: number,
        link,
        lane: link,
        ..FIRST
    };
    send(alloc, stream, Frame::Tapped(record(numbers)?))
}

// Sends device 1's taps from one number to another, one each millisecond. None where its line is over before.
fn go_on(host: &HostRuntime, stream: &mut TcpStream, first: u64, last: u64) -> Option<()> {
    for link in first..=last {
        tap(host.alloc(), stream, 1, link)?;
        thread::sleep(host, Duration::from_millis(1));
    }
    Some(())
}

// Goes on, makes the file that ends serving amid that, and still goes on till the line is let go. None where it isn't.
fn go_on_to_the_end(host: &HostRuntime, stream: &mut TcpStream, path: &str) -> Option<()> {
    go_on(host, stream, 2, TAPS)?;
    fs::write(host, path, "").ok()?;
    match go_on(host, stream, TAPS + 1, MOST_TAPS) {
        Some(()) => None,
        None => Some(()),
    }
}

// Goes on till the second tap of device 2 is acknowledged on the other line. None where it isn't, or a line is over before.
fn go_on_beside(alloc: Global, stream: &mut TcpStream, other: &mut TcpStream) -> Option<()> {
    let mut wanted = Vec::new(alloc);
    Frame::Acked(Ack::new(device(2)?, 2)).put(&mut wanted).ok()?;
    other.set_read_timeout(Some(Duration::from_millis(1))).ok()?;
    for link in TAPS + 1..=MOST_TAPS {
        tap(alloc, stream, 1, link)?;
        let mut bytes = [0u8; 15];
        if other.read_exact(&mut bytes).is_ok() && bytes.as_slice() == wanted.as_slice() {
            return Some(());
        }
    }
    None
}

// A line of a device, on which these taps were sent.
pub(crate) fn dial<R: Net<Listener = TcpListener, Stream = TcpStream>>(
    rt: &R,
    alloc: Global,
    address: SocketAddr,
    number: u64,
    links: &[u64],
) -> Option<TcpStream> {
    let mut stream = TcpStream::connect(rt, address).ok()?;
    stream
        .set_read_timeout(Some(Duration::from_millis(5_000)))
        .ok()?;
    let hello = Hello::new(device(number)?, 1);
    send(alloc, &mut stream, Frame::Greeted(hello))?;
    for link in links {
        tap(alloc, &mut stream, number, *link)?;
    }
    Some(stream)
}

// Waits until the taps of a device up to this one are acknowledged.
pub(crate) fn hears(alloc: Global, stream: &mut TcpStream, number: u64, upto: u64) -> Option<()> {
    if upto > LAST_NUMBER {
        return None;
    }
    let mut wanted = Vec::new(alloc);
    let ack = Ack::new(device(number)?, upto);
    Frame::Acked(ack).put(&mut wanted).ok()?;
    for _ in 0..MOST_ANSWERS {
        let mut bytes = [0u8; 15];
        stream.read_exact(&mut bytes).ok()?;
        if bytes.as_slice() == wanted.as_slice() {
            return Some(());
        }
    }
    None
}

// Whether the other side of a line has let it go, once it said all that it had to say.
pub(crate) fn has_ended(alloc: Global, stream: &mut TcpStream) -> bool {
    let mut bytes = Vec::new(alloc);
    stream.read_to_end(&mut bytes).is_ok()
}

fn perform<R: Net<Listener = TcpListener, Stream = TcpStream>>(
    host: &HostRuntime,
    rt: &R,
    address: SocketAddr,
    what: Play,
    path: &str,
) -> Option<()> {
    let alloc = host.alloc();
    let mut first = dial(rt, alloc, address, 1, &[1])?;
    hears(alloc, &mut first, 1, 1)?;
    match what {
        Play::ComesLate => {
            let mut second = dial(rt, alloc, address, 2, &[1])?;
            hears(alloc, &mut second, 2, 1)
        }
        Play::BreaksAndComesAgain => {
            first.write_all(&[0x00, 0x30, 0x01]).ok()?;
            let mut second = dial(rt, alloc, address, 1, &[1, 2])?;
            hears(alloc, &mut second, 1, 2)
        }
        Play::ComesTwice => {
            let mut second = dial(rt, alloc, address, 1, &[2])?;
            hears(alloc, &mut second, 1, 2)?;
            if has_ended(alloc, &mut first) {
                Some(())
            } else {
                None
            }
        }
        Play::GoesOn => {
            go_on(host, &mut first, 2, TAPS)?;
            hears(alloc, &mut first, 1, TAPS)
        }
        Play::GoesOnToTheEnd => go_on_to_the_end(host, &mut first, path),
        Play::SpeaksBeside => {
            let mut second = dial(rt, alloc, address, 2, &[1])?;
            hears(alloc, &mut second, 2, 1)?;
            go_on(host, &mut first, 2, TAPS)?;
            tap(alloc, &mut second, 2, 2)?;
            go_on_beside(alloc, &mut first, &mut second)
        }
    }
}

// Performs it, and then makes the file that ends serving.
fn perform_and_end<R: Net<Listener = TcpListener, Stream = TcpStream>>(
    host: &HostRuntime,
    rt: &R,
    address: SocketAddr,
    what: Play,
    path: &str,
) -> bool {
    let performed = perform(host, rt, address, what, path).is_some();
    fs::write(host, path, "").is_ok() && performed
}

fn serve_until<R: Threads + Wait + Clock + Eprint + Sync>(
    host: &HostRuntime,
    rt: &R,
    listener: &TcpListener,
    hub: Hub<PlainOutbox, PlainLedger>,
    limits: Limits,
    path: &str,
) -> (Result<(), ServeFault>, Vec<u8>)
    requires { HasLedgers hub }
{
    let (mut hub, mut output) = (hub, Vec::new(host.alloc()));
    let ended = serve_rounds(
        host,
        rt,
        listener,
        &mut hub,
        limits,
        Some(path),
        &mut Rest,
        &mut output,
    );
    (ended, output)
}

// A hub of one owner with this ledger.
pub(crate) fn hub_of(
    alloc: Global,
    scheme: Scheme,
    ledger: PlainLedger,
) -> Option<Hub<PlainOutbox, PlainLedger>> {
    Some(Hub {
        scheme,
        outbox: PlainOutbox::new(alloc),
        ledgers: Vec::from_array(alloc, [ledger]).ok()?,
    })
}

// Whether all was heard that the play waits for, how serving ended meanwhile, and what was written.
fn played<
    R: Net<Listener = TcpListener, Stream = TcpStream> + Threads + Wait + Clock + Eprint + Sync,
>(
    host: &HostRuntime,
    rt: &R,
    what: Play,
    path: &str,
) -> Option<(bool, Result<(), ServeFault>, Vec<u8>)> {
    let alloc = host.alloc();
    let _ = fs::remove_file(host, path);
    let (listener, address) = listener(rt)?;
    let scheme = Scheme::demo(alloc, DemoSize::TwoDevices, 4, 4, 4).ok()?;
    let ledger = PlainLedger::new(alloc, &scheme, OwnerId::new(1)?).ok()?;
    let hub = hub_of(alloc, scheme, ledger)?;
    let limits = match what {
        Play::SpeaksBeside => LONG_ROUNDS,
        _ => LIMITS,
    };
    if hub.scheme.owner_count() != hub.ledgers.len() {
        return None;
    }
    let ((ended, output), heard) = thread::join(
        rt,
        || -> (Result<(), ServeFault>, Vec<u8>)
            requires { HasLedgers hub }
        { serve_until(host, rt, &listener, hub, limits, path) },
        || perform_and_end(host, rt, address, what, path),
    );
    Some((heard, ended, output))
}

#[test]
fn a_validator_that_comes_in_a_later_round_is_served(rt: HostRuntime) {
    let seen = played(&rt, &rt, Play::ComesLate, "late.end");
    let (heard, ended, output) = seen.expect(&rt, "memory");
    same(
        &rt,
        &(heard, ended, output.as_slice()),
        &(true, Ok(()), b"stored 2\ntaken 1 2\nleft 0\n".as_slice()),
    );
}

#[test]
fn a_validator_whose_line_broke_comes_again_and_each_tap_is_stored_once(rt: HostRuntime) {
    let seen = played(&rt, &rt, Play::BreaksAndComesAgain, "broken.end");
    let (heard, ended, output) = seen.expect(&rt, "memory");
    same(
        &rt,
        &(heard, ended, output.as_slice()),
        &(true, Ok(()), b"stored 2\ntaken 1 2\nleft 0\n".as_slice()),
    );
}

#[test]
fn a_newer_line_of_a_station_replaces_the_older_one(rt: HostRuntime) {
    let seen = played(&rt, &rt, Play::ComesTwice, "twice.end");
    let (heard, ended, output) = seen.expect(&rt, "memory");
    same(
        &rt,
        &(heard, ended, output.as_slice()),
        &(true, Ok(()), b"stored 2\ntaken 1 2\nleft 0\n".as_slice()),
    );
}

// The number behind the word `stored`.
fn stored_in(text: &str) -> Option<u64> {
    let (stored, _) = text.strip_prefix("stored ")?.split_once("\n")?;
    stored.parse::<u64>().ok()
}

#[test]
fn each_tap_of_a_line_that_goes_on_is_stored_once_and_answered(rt: HostRuntime) {
    let seen = played(&rt, &rt, Play::GoesOn, "going.end");
    let (heard, ended, output) = seen.expect(&rt, "memory");
    same(
        &rt,
        &(heard, ended, output.as_slice()),
        &(
            true,
            Ok(()),
            b"stored 200\ntaken 1 200\nleft 0\n".as_slice(),
        ),
    );
}

// How a play ends whose number of taps isn't known: serving ended well, and what was stored was taken.
fn plays_well<
    R: Net<Listener = TcpListener, Stream = TcpStream>
        + Threads
        + Wait
        + Clock
        + Eprint
        + Abort
        + Sync,
>(host: &HostRuntime, rt: &R, what: Play, path: &str) {
    let (heard, ended, output) = played(host, rt, what, path).expect(rt, "memory");
    let said = std::str::from_utf8(&output).unwrap_or("no text");
    let stored = stored_in(said).expect(rt, "counts");
    let wanted = format!(in host.alloc(); "stored {stored}\ntaken 1 {stored}\nleft 0\n").expect(
        rt, "memory",
    );
    same(rt, &(heard, ended, said), &(true, Ok(()), wanted.as_str()));
}

// Serving ends long before the line does, and what was stored up to there was taken.
#[test]
fn a_round_ends_though_a_line_goes_on(rt: HostRuntime) {
    plays_well(&rt, &rt, Play::GoesOnToTheEnd, "amid.end");
}

// The round goes on as long as one line does, and so does each other line.
#[test]
fn a_quiet_line_is_heard_beside_one_that_goes_on(rt: HostRuntime) {
    plays_well(&rt, &rt, Play::SpeaksBeside, "beside.end");
}
