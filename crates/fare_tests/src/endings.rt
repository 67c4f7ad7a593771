use crate::checking::same;
use fare_command::{Question, SchemeSource};
use fare_desk::DeskFault;
use fare_event::Refusal;
use fare_keeping::KeepFault;
use fare_record::DeviceId;
use fare_replay::ReplayFault;
use fare_run::{AskFailure, AskOptions, Failure, Left, ServeFailure, ServeOptions, run};
use fare_samples::{Closed, Lossy};
use fare_serve::Limits;
use std::alloc::Global;
use std::io::Write;

/// The status of a run, and whether this is what standard error gets of it: the whole line of a failure, or the
/// begin of what refused words are told.
pub(crate) fn told(alloc: Global, ended: &Result<(), Failure>, said: &str) -> Option<(u8, bool)> {
    let Err(failure) = ended else {
        return Some((0, said.is_empty()));
    };
    let text = format!(in alloc; "{failure}").ok()?;
    let is_said = match failure {
        Failure::Refused(_) => text.starts_with(said),
        _ => text.as_str() == said,
    };
    Some((failure.status(), is_said))
}

#[test]
fn words_and_traces_decide_the_ending(rt: HostRuntime) {
    // The words, the trace, the status, what standard error gets, and how the output begins.
    const CASES: [(&[&str], &[u8], u8, &str, &[u8]); 11] = [
        (&["--version"], b"", 0, "", b"fare_hub 0.1.0\n"),
        (&["replay", "--help"], b"tap 1", 0, "", b"Reads a trace"),
        (&[], b"", 2, "error: ", b""),
        (&["play"], b"", 2, "error: ", b""),
        (&["replay", "--store", "disk"], b"", 2, "error: ", b""),
        (&["replay"], b"", 0, "", b""),
        (&["replay"], b"demo 1 4 4 4\n", 0, "", b"ok\n"),
        (&["replay"], b"tap 1", 1, "bad line 1", b""),
        (&["replay", "--store", "sql"], b"", 0, "", b""),
        (
            &["replay", "--store", "sql"],
            b"demo 1 4 4 4\n",
            0,
            "",
            b"ok\n",
        ),
        (
            &["replay", "--store", "sql"],
            b"tap 1",
            1,
            "bad line 1",
            b"",
        ),
    ];
    for &(words, trace, status, said, begin) in &CASES {
        let mut input = trace;
        let mut output = Vec::new(rt.alloc());
        let ended = match run(rt.alloc(), words, &mut input, &mut output) {
            Ok(None) => Ok(()),
            Ok(Some(_)) => panic!(rt; "something is left to do"),
            Err(failure) => Err(failure),
        };
        same(
            &rt,
            &(
                told(rt.alloc(), &ended, said),
                output.as_slice().starts_with(begin),
            ),
            &(Some((status, true)), true),
        );
    }
}

#[test]
fn each_failure_has_its_line(rt: HostRuntime) {
    let cases = [
        (Failure::Replay(ReplayFault::Store), "store failed"),
        (Failure::Write, "write failed"),
        (Failure::Memory, "no memory"),
        (
            Failure::Serve(ServeFailure::Lines(ReplayFault::BadLine { line: 2 })),
            "bad line 2",
        ),
        (
            Failure::Serve(ServeFailure::Lines(ReplayFault::Read)),
            "read failed",
        ),
        (
            Failure::Serve(ServeFailure::Refused(Refusal::Taken)),
            "scheme refused Taken",
        ),
        (Failure::Serve(ServeFailure::NoScheme), "no scheme"),
        (
            Failure::Serve(ServeFailure::Kept(KeepFault::Unreadable)),
            "refused SchemeUnreadable",
        ),
        (
            Failure::Scheme(ServeFailure::Kept(KeepFault::Foreign)),
            "refused SchemeForeign",
        ),
        (Failure::Serve(ServeFailure::Memory), "no memory"),
        (Failure::Serve(ServeFailure::Store), "store failed"),
        (Failure::Serve(ServeFailure::Network), "network failed"),
        (Failure::Serve(ServeFailure::Write), "write failed"),
        (
            Failure::Ask(AskFailure::Stores(ServeFailure::NoScheme)),
            "no scheme",
        ),
        (
            Failure::Ask(AskFailure::Stores(ServeFailure::Store)),
            "store failed",
        ),
    ];
    for (failure, line) in cases {
        same(
            &rt,
            &told(rt.alloc(), &Err(failure), line),
            &Some((1, true)),
        );
    }
}

#[test]
fn each_answer_that_is_none_has_its_line(rt: HostRuntime) {
    let device = DeviceId::new(2).expect(&rt, "device");
    let cases = [
        (DeskFault::UnknownOwner, "refused UnknownOwner"),
        (DeskFault::BeforeStart, "refused BeforeStart"),
        (DeskFault::NotClosed { device }, "refused NotClosed 2"),
        (DeskFault::Memory, "no memory"),
        (DeskFault::Store, "store failed"),
        (DeskFault::Write, "write failed"),
    ];
    for (fault, line) in cases {
        let failure = Failure::Ask(AskFailure::Desk(fault));
        same(
            &rt,
            &told(rt.alloc(), &Err(failure), line),
            &Some((1, true)),
        );
    }
}

#[test]
fn words_that_ask_to_serve_leave_it_to_do(rt: HostRuntime) {
    let words = [
        "serve",
        "--port",
        "7000",
        "--turns",
        "9",
        "--outbox",
        "x",
        "--read-ms",
        "20",
        "--scheme",
        "y",
    ];
    let (mut input, mut output) = (b"draw\n".as_slice(), Vec::new(rt.alloc()));
    let left = run(rt.alloc(), &words, &mut input, &mut output).expect(&rt, "words");
    let options = ServeOptions {
        port: 7_000,
        path: "x",
        scheme: SchemeSource::File("y"),
        limits: Limits {
            turns: 9,
            read_millis: 20,
            write_millis: 1_000,
            rounds: 1,
            patience: 2,
            round_millis: 1_000,
        },
        until: None,
        ask: None,
    };
    same(
        &rt,
        &(left, input.len(), output.len()),
        &(Some(Left::Serve(options)), 5, 0),
    );
}

#[test]
fn words_that_ask_a_question_leave_it_to_do(rt: HostRuntime) {
    let (mut input, mut output) = (b"draw\n".as_slice(), Vec::new(rt.alloc()));
    let words = ["stand", "--outbox", "x"];
    let left = run(rt.alloc(), &words, &mut input, &mut output).expect(&rt, "words");
    let options = AskOptions {
        path: "x",
        scheme: SchemeSource::Unsaid,
        question: Question::Stand,
    };
    same(
        &rt,
        &(left, input.len(), output.len()),
        &(Some(Left::Ask(options)), 5, 0),
    );
}

#[test]
fn words_that_ask_for_the_kept_scheme_leave_it_to_do(rt: HostRuntime) {
    let (mut input, mut output) = (b"draw\n".as_slice(), Vec::new(rt.alloc()));
    let words = ["scheme", "--outbox", "x"];
    let left = run(rt.alloc(), &words, &mut input, &mut output).expect(&rt, "words");
    same(
        &rt,
        &(left, input.len(), output.len()),
        &(Some(Left::Scheme { path: "x" }), 5, 0),
    );
}

/// A run that shows the version, or replays a line, to this writer.
fn written_to<W: Write>(alloc: Global, word: &str, writer: &mut W) -> Result<(), Failure> {
    let mut input: &[u8] = b"draw\n";
    match run(alloc, &[word], &mut input, writer) {
        Ok(_) => Ok(()),
        Err(failure) => Err(failure),
    }
}

#[test]
fn a_writer_fails(rt: HostRuntime) {
    let alloc = rt.alloc();
    for word in ["--version", "replay"] {
        let closed = written_to(alloc, word, &mut Closed);
        let lossy = written_to(alloc, word, &mut Lossy);
        same(
            &rt,
            &(
                told(alloc, &closed, "write failed"),
                told(alloc, &lossy, "write failed"),
            ),
            &(Some((1, true)), Some((1, true))),
        );
    }
}
