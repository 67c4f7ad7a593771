use crate::checking::same;
use fare_record::OwnerId;
use fare_samples::{ACKED, GREETED, TAPPED};
use fare_scheme::{DemoSize, Scheme};
use fare_serve::{Limits, Rest, ServeFault, serve_rounds};
use fare_sessions::Hub;
use fare_store::{FailingOutbox, Outbox, PlainLedger, PlainOutbox};
use std::alloc::Global;
use std::io::{Read, Write};
use std::net::{Net, Shutdown, SocketAddr, TcpListener, TcpStream};
use std::sync::Wait;
use std::thread::Threads;
use std::time::Clock;

// A read waits 5 milliseconds, and one round is all.
fn limits(turns: u32) -> Limits {
    Limits {
        turns,
        read_millis: 5,
        write_millis: 1_000,
        rounds: 1,
        patience: 1,
        round_millis: 1_000,
    }
}

// A listener on a port of its own that doesn't block, and where it is.
pub(crate) fn listener<R: Net<Listener = TcpListener, Stream = TcpStream>>(
    rt: &R,
) -> Option<(TcpListener, SocketAddr)> {
    let listener = TcpListener::bind(rt, "127.0.0.1:0").ok()?;
    listener.set_nonblocking(true).ok()?;
    let address = listener.local_addr().ok()?;
    Some((listener, address))
}

// A client that has sent these bytes and ended its side.
fn client<R: Net<Listener = TcpListener, Stream = TcpStream>>(
    rt: &R,
    address: SocketAddr,
    bytes: &[&[u8]],
) -> Option<TcpStream> {
    let mut stream = TcpStream::connect(rt, address).ok()?;
    for piece in bytes {
        stream.write_all(piece).ok()?;
    }
    stream.shutdown(Shutdown::Write).ok()?;
    Some(stream)
}

// How serving these stations ended, and what was written.
fn served<O: Outbox + Send + Drop, R: Threads + Wait + Clock + Eprint + Sync>(
    rt: &HostRuntime,
    handles: &R,
    listener: &TcpListener,
    size: DemoSize,
    outbox: O,
    turns: u32,
) -> Option<(Result<(), ServeFault>, Vec<u8>)> {
    let alloc = rt.alloc();
    let scheme = Scheme::demo(alloc, size, 4, 4, 4).ok()?;
    let ledger = PlainLedger::new(alloc, &scheme, OwnerId::new(1)?).ok()?;
    let mut hub = Hub {
        scheme,
        outbox,
        ledgers: Vec::from_array(alloc, [ledger]).ok()?,
    };
    if hub.scheme.owner_count() != hub.ledgers.len() {
        return None;
    }
    let mut output = Vec::new(alloc);
    let ended = serve_rounds(
        rt,
        handles,
        listener,
        &mut hub,
        limits(turns),
        None,
        &mut Rest,
        &mut output,
    );
    Some((ended, output))
}

// Whether a client got this at last, and then its end.
fn hears_last(alloc: Global, mut client: TcpStream, last: &[u8]) -> bool {
    let mut bytes = Vec::new(alloc);
    client.read_to_end(&mut bytes).is_ok() && bytes.as_slice().ends_with(last)
}

#[test]
fn a_client_is_served_and_hears_its_acknowledgement_last(rt: HostRuntime) {
    let (listener, address) = listener(&rt).expect(&rt, "listener");
    let client = client(&rt, address, &[&GREETED, &TAPPED]).expect(&rt, "client");
    let outbox = PlainOutbox::new(rt.alloc());
    let (ended, output) = served(
        &rt,
        &rt,
        &listener,
        DemoSize::OneDevice,
        outbox,
        1_000_000,
    ).expect(&rt, "memory");
    same(
        &rt,
        &(ended, output.as_slice()),
        &(Ok(()), b"stored 1\ntaken 1 1\nleft 0\n".as_slice()),
    );
    assert!(rt; hears_last(rt.alloc(), client, &ACKED));
}

#[test]
fn a_station_for_which_no_line_came_keeps_none_from_being_served(rt: HostRuntime) {
    let (listener, address) = listener(&rt).expect(&rt, "listener");
    let client = client(&rt, address, &[&GREETED, &TAPPED]).expect(&rt, "client");
    let outbox = PlainOutbox::new(rt.alloc());
    let (ended, output) = served(&rt, &rt, &listener, DemoSize::TwoDevices, outbox, 50).expect(
        &rt, "memory",
    );
    same(
        &rt,
        &(ended, output.as_slice()),
        &(Ok(()), b"stored 1\ntaken 1 1\nleft 0\n".as_slice()),
    );
    assert!(rt; hears_last(rt.alloc(), client, &ACKED));
}

#[test]
fn a_store_that_fails_ends_all_with_nothing_written(rt: HostRuntime) {
    for call in [1, 2, 3, 4] {
        let (listener, address) = listener(&rt).expect(&rt, "listener");
        let _client = client(&rt, address, &[&GREETED, &TAPPED]).expect(&rt, "client");
        let outbox = FailingOutbox::new(PlainOutbox::new(rt.alloc()), call);
        let (ended, output) = served(
            &rt,
            &rt,
            &listener,
            DemoSize::OneDevice,
            outbox,
            1_000,
        ).expect(&rt, "memory");
        same(
            &rt,
            &(call, (ended, output.len())),
            &(call, (Err(ServeFault::Store), 0)),
        );
    }
}
