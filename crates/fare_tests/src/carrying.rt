//! What the program does for its words, from the scheme that is served to the bill, and for words that ask for nothing else.
use crate::checking::same;
use crate::endings::told;
use crate::stores_in_files::Dialler;
use fare_run::{Failure, carry_out};
use fare_samples::{GREETED, TAPPED};
use std::net::{Net, TcpListener, TcpStream};
use std::sync::Wait;
use std::thread::Threads;
use std::time::Clock;

/// A scheme of one device, as it is printed.
const SCHEME: &[u8] = b"owner 1 4
operator 1
station 1 1
product 1 1 175
caps 1 525 2470
hop 1 3600
device 1 1 4
inbox 4
zone GMT0BST,M3.5.0/1,M10.5.0
start 19723
seal
";

/// One after the other over the same stores: the words, the input, the status, what standard error gets, and the output.
const CASES: [(&[&str], &[u8], u8, &str, &[u8]); 14] = [
    (&["stand", "--outbox", "tap.db"], b"", 1, "no scheme", b""),
    (&["scheme", "--outbox", "tap.db"], b"", 1, "no scheme", b""),
    (
        &["serve", "--port", "0", "--outbox", "tap.db"],
        SCHEME,
        0,
        "",
        b"stored 1\ntaken 1 1\nleft 0\n",
    ),
    (&["scheme", "--outbox", "tap.db"], b"", 0, "", SCHEME),
    (
        &["stand", "--outbox", "tap.db"],
        b"",
        0,
        "",
        b"upto 1 1\nlane 1 1 taken 1 closed none rows 0 statements 0\n",
    ),
    (
        &[
            "bill", "--outbox", "tap.db", "--owner", "1", "--day", "19723",
        ],
        b"",
        1,
        "refused NotClosed 1",
        b"",
    ),
    (
        &[
            "retire", "--outbox", "tap.db", "--owner", "1", "--device", "1",
        ],
        b"",
        0,
        "",
        b"retired 1\n",
    ),
    (
        &[
            "bill", "--outbox", "tap.db", "--owner", "1", "--day", "19723",
        ],
        b"",
        0,
        "",
        b"bill 1 19723 1 175\naccount 1 77 1 175\nshort 1\n",
    ),
    (
        &["serve", "--port", "0", "--outbox", "tap.db"],
        b"demo 1 4 4 4\n",
        1,
        "refused SchemeChanged product 1",
        b"",
    ),
    (&["stand"], b"", 2, "error: ", b""),
    (&["--version"], b"", 0, "", b"fare_hub 0.1.0\n"),
    (&["replay"], b"demo 1 4 4 4\n", 0, "", b"ok\n"),
    (
        &["replay", "--store", "sql"],
        b"demo 1 4 4 4\n",
        0,
        "",
        b"ok\n",
    ),
    (&["replay"], b"tap 1", 1, "bad line 1", b""),
];

// How the program ends for these words by this input, with a validator at the door that greets and sends a tap, and what it
// writes, but for the port at which it listens.
fn carried<
    R: Net<Listener = TcpListener, Stream = TcpStream> + Threads + Wait + Clock + Eprint + Sync,
>(rt: &HostRuntime, handles: &R, words: &[&str], input: &[u8]) -> (Result<(), Failure>, Vec<u8>) {
    let mut input = input;
    let mut output = Dialler::new(rt.alloc(), handles, &[&GREETED, &TAPPED]);
    let ended = carry_out(rt, handles, words, &mut input, &mut output);
    (ended, output.into_said())
}

#[test]
fn words_are_carried_out(rt: HostRuntime) {
    for &(words, input, status, line, output) in &CASES {
        let (ended, said) = carried(&rt, &rt, words, input);
        same(
            &rt,
            &(told(rt.alloc(), &ended, line), said.as_slice()),
            &(Some((status, true)), output),
        );
    }
}
