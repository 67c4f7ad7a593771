use crate::checking::same;
use fare_command::{Question, SchemeSource};
use fare_desk::DeskFault;
use fare_event::Refusal;
use fare_record::{Day, DeviceId, OwnerId};
use fare_replay::{ReplayFault, replay};
use fare_run::{AskFailure, AskOptions, ServeFailure, ServeOptions, ask, serve};
use fare_samples::{GREETED, STATED, TAPPED};
use fare_serve::Limits;
use std::alloc::Global;
use std::fs;
use std::io::{self, ErrorKind, Write};
use std::net::{Ipv4Addr, Net, Shutdown, TcpListener, TcpStream};
use std::sync::Wait;
use std::thread::Threads;
use std::time::Clock;

const LIMITS: Limits = Limits {
    turns: 2_000,
    read_millis: 5,
    write_millis: 1_000,
    rounds: 1,
    patience: 10,
    round_millis: 1_000,
};

// A scheme of one device.
const DEMO: &[u8] = b"demo 1 4 4 4\n";

/// Takes what is written, and once it learns the port connects to it, sends a validator's frames, and ends that side. Where
/// an operator is answered at a port too, it connects to that as well, and asks nothing.
#[derive(Drop)]
pub(crate) struct Dialler<'a, R> {
    rt: &'a R,
    frames: &'a [&'a [u8]],
    ask: Option<u16>,
    said: Vec<u8>,
    port: Option<u16>,
    line: Option<TcpStream>,
}

// The port of a line `listening PORT`, and what stands behind it.
fn port_in(text: &[u8]) -> Option<(u16, &[u8])> {
    let text = std::str::from_utf8(text).ok()?;
    let (digits, behind) = text.strip_prefix("listening ")?.split_once('\n')?;
    Some((digits.parse::<u16>().ok()?, behind.as_bytes()))
}

impl<'a, R: Net<Listener = TcpListener, Stream = TcpStream>> Dialler<'a, R> {
    /// One that has written nothing yet, with these frames to send.
    pub(crate) fn new(alloc: Global, rt: &'a R, frames: &'a [&'a [u8]]) -> Dialler<'a, R> {
        Dialler {
            rt,
            frames,
            ask: None,
            said: Vec::new(alloc),
            port: None,
            line: None,
        }
    }

    /// What was written behind the port, once its line is let go.
    pub(crate) fn into_said(self) -> Vec<u8> {
        let Dialler { said, line, .. } = self;
        drop(line);
        said
    }

    // A line on which these frames were sent.
    fn dial(&self, port: u16) -> io::Result<TcpStream> {
        let mut stream = TcpStream::connect(self.rt, (Ipv4Addr::LOCALHOST, port))?;
        for frame in self.frames {
            stream.write_all(frame)?;
        }
        stream.shutdown(Shutdown::Write)?;
        Ok(stream)
    }

    // Whether somebody listens at the operator's port, where there is one.
    fn ring(&self) -> io::Result<()> {
        if let Some(port) = self.ask {
            TcpStream::connect(self.rt, (Ipv4Addr::LOCALHOST, port))?;
        }
        Ok(())
    }
}

impl<'a, R: Net<Listener = TcpListener, Stream = TcpStream>> Write for Dialler<'a, R> {
    fn write(&mut self, bytes: &[u8]) -> io::Result<usize> {
        let mut rest = bytes;
        if let Some((port, behind)) = port_in(bytes) {
            self.line = Some(self.dial(port)?);
            self.ring()?;
            self.port = Some(port);
            rest = behind;
        }
        match self.said.extend_from_slice(rest) {
            Ok(()) => Ok(bytes.len()),
            Err(_) => Err(ErrorKind::OutOfMemory.into()),
        }
    }

    fn flush(&mut self) -> io::Result<()> {
        Ok(())
    }
}

// How serving by these options ends. Its kind of database, a file, is so named in one place of these tests.
fn serve_with<
    O: Write,
    R: Net<Listener = TcpListener, Stream = TcpStream> + Threads + Wait + Clock + Eprint + Sync,
>(
    rt: &HostRuntime,
    handles: &R,
    options: &ServeOptions<'_>,
    input: &mut &[u8],
    output: &mut O,
) -> Result<(), ServeFailure> {
    serve(rt, handles, options, input, output)
}

/// How serving a scheme from a source, by this input and with these frames at the door, ended, and what was written behind the
/// port.
pub(crate) fn served_by<
    'a,
    R: Net<Listener = TcpListener, Stream = TcpStream> + Threads + Wait + Clock + Eprint + Sync,
>(
    rt: &HostRuntime,
    handles: &R,
    path: &'a str,
    source: SchemeSource<'a>,
    input: &[u8],
    frames: &[&[u8]],
) -> (Result<(), ServeFailure>, Vec<u8>) {
    let mut input = input;
    let mut output = Dialler::new(rt.alloc(), handles, frames);
    let options = ServeOptions {
        port: 0,
        path,
        scheme: source,
        limits: LIMITS,
        until: None,
        ask: None,
    };
    let ended = serve_with(rt, handles, &options, &mut input, &mut output);
    (ended, output.into_said())
}

// Two ports at which nobody listens: the system chose them, and both were let go again.
fn free_ports<R: Net<Listener = TcpListener, Stream = TcpStream>>(
    handles: &R,
) -> Option<(u16, u16)> {
    let one = TcpListener::bind(handles, (Ipv4Addr::LOCALHOST, 0)).ok()?;
    let other = TcpListener::bind(handles, (Ipv4Addr::LOCALHOST, 0)).ok()?;
    let ports = (
        one.local_addr().ok()?.port(),
        other.local_addr().ok()?.port(),
    );
    Some(ports)
}

// How serving with these two ports named ended, with a tap at the door, which port it told as its own, and what was written
// behind it.
fn served_at<
    R: Net<Listener = TcpListener, Stream = TcpStream> + Threads + Wait + Clock + Eprint + Sync,
>(
    rt: &HostRuntime,
    handles: &R,
    port: u16,
    ask: u16,
) -> (Result<(), ServeFailure>, Option<u16>, Vec<u8>) {
    let mut input = DEMO;
    let mut output = Dialler::new(rt.alloc(), handles, &[&GREETED, &TAPPED]);
    output.ask = Some(ask);
    let options = ServeOptions {
        port,
        path: "named.db",
        scheme: SchemeSource::Input,
        limits: LIMITS,
        until: None,
        ask: Some(ask),
    };
    let ended = serve_with(rt, handles, &options, &mut input, &mut output);
    let told = output.port;
    (ended, told, output.into_said())
}

// A station is served at the port that is named for it, and an operator at the other.
#[test]
fn it_listens_at_the_ports_that_are_named(rt: HostRuntime) {
    let (port, ask) = free_ports(&rt).expect(&rt, "ports");
    let (ended, told, said) = served_at(&rt, &rt, port, ask);
    let lines = format!(in rt.alloc(); "answering {ask}\nstored 1\ntaken 1 1\nleft 0\n").expect(
        &rt, "lines",
    );
    same(
        &rt,
        &(ended, told, said.as_slice()),
        &(Ok(()), Some(port), lines.as_bytes()),
    );
}

// The same of a scheme on the input.
fn served<
    R: Net<Listener = TcpListener, Stream = TcpStream> + Threads + Wait + Clock + Eprint + Sync,
>(
    rt: &HostRuntime,
    handles: &R,
    path: &str,
    scheme: &[u8],
    frames: &[&[u8]],
) -> (Result<(), ServeFailure>, Vec<u8>) {
    served_by(rt, handles, path, SchemeSource::Input, scheme, frames)
}

#[test]
fn a_tap_that_is_sent_again_is_stored_and_taken_once(rt: HostRuntime) {
    for counts in [
        b"stored 1\ntaken 1 1\nleft 0\n".as_slice(),
        b"stored 0\ntaken 1 0\nleft 0\n",
    ] {
        let (ended, said) = served(&rt, &rt, "served.db", DEMO, &[&GREETED, &TAPPED]);
        same(&rt, &(ended, said.as_slice()), &(Ok(()), counts));
    }
}

#[test]
fn what_comes_before_serving_writes_nothing(rt: HostRuntime) {
    const CASES: [(&[u8], ServeFailure); 5] = [
        (
            b"tap",
            ServeFailure::Lines(ReplayFault::BadLine { line: 1 }),
        ),
        (b"owner 0 4\n", ServeFailure::Refused(Refusal::ZeroId)),
        (b"owner 1 4\n", ServeFailure::NoScheme),
        (b"", ServeFailure::NoScheme),
        (b"demo 1 4 4 4\n", ServeFailure::Store),
    ];
    for &(scheme, failure) in &CASES {
        let (ended, said) = served(&rt, &rt, "no-such-folder/served.db", scheme, &[]);
        same(&rt, &(ended, said.len()), &(Err(failure), 0));
    }
}

// An input that is no trace: whoever reads it is told so.
const NO_TRACE: &[u8] = b"tap";

// How serving no line, for the scheme in a file, ended, what was written, and how many bytes of the input are left.
fn served_from<
    'a,
    R: Net<Listener = TcpListener, Stream = TcpStream> + Threads + Wait + Clock + Eprint + Sync,
>(
    rt: &HostRuntime,
    handles: &R,
    path: &'a str,
    file: &'a str,
) -> (Result<(), ServeFailure>, Vec<u8>, usize) {
    let mut input = NO_TRACE;
    let mut output = Dialler::new(rt.alloc(), handles, &[]);
    let options = ServeOptions {
        port: 0,
        path,
        scheme: SchemeSource::File(file),
        limits: Limits { turns: 4, ..LIMITS },
        until: None,
        ask: None,
    };
    let ended = serve_with(rt, handles, &options, &mut input, &mut output);
    (ended, output.into_said(), input.len())
}

// How the question where the lanes of these stores stand ends, for the scheme in a file, what is written, and how many bytes
// of the input are left.
fn asked_from<'a>(
    rt: &HostRuntime,
    path: &'a str,
    file: &'a str,
) -> (Result<(), AskFailure>, Vec<u8>, usize) {
    let mut input = NO_TRACE;
    let mut output = Vec::new(rt.alloc());
    let options = AskOptions {
        path,
        scheme: SchemeSource::File(file),
        question: Question::Stand,
    };
    let ended = ask(rt, &options, &mut input, &mut output);
    (ended, output, input.len())
}

// The scheme's lines come from the file that is named, and the input is not read.
#[test]
fn a_scheme_in_a_file(rt: HostRuntime) {
    const STANDS: &[u8] = b"upto 1 0\nlane 1 1 taken 0 closed none rows 0 statements 0\n";
    assert!(rt; fs::write(&rt, "demo.scheme", DEMO).is_ok());
    let (ended, said, left) = served_from(&rt, &rt, "by-file.db", "demo.scheme");
    same(
        &rt,
        &(ended, said.as_slice(), left),
        &(Ok(()), b"stored 0\ntaken 1 0\nleft 0\n".as_slice(), 3),
    );
    let (ended, said, left) = asked_from(&rt, "by-file.db", "demo.scheme");
    same(&rt, &(ended, said.as_slice(), left), &(Ok(()), STANDS, 3));
}

// A file that isn't there, a folder, an empty name, and lines that make no scheme: nothing is written, and no store is made.
#[test]
fn a_scheme_that_is_not_in_its_file(rt: HostRuntime) {
    const CASES: [(&str, ServeFailure); 6] = [
        ("no-such.scheme", ServeFailure::Lines(ReplayFault::Read)),
        (".", ServeFailure::Lines(ReplayFault::Read)),
        ("", ServeFailure::Lines(ReplayFault::Read)),
        (
            "bad.scheme",
            ServeFailure::Lines(ReplayFault::BadLine { line: 2 }),
        ),
        ("refused.scheme", ServeFailure::Refused(Refusal::ZeroId)),
        ("open.scheme", ServeFailure::NoScheme),
    ];
    let bad = fs::write(&rt, "bad.scheme", b"owner 1 4\ntap\n");
    let refused = fs::write(&rt, "refused.scheme", b"owner 0 4\n");
    let open = fs::write(&rt, "open.scheme", b"owner 1 4\n");
    assert!(rt; bad.is_ok() && refused.is_ok() && open.is_ok());
    for &(file, failure) in &CASES {
        let (ended, said, left) = served_from(&rt, &rt, "never-made.db", file);
        same(&rt, &(ended, said.len(), left), &(Err(failure), 0, 3));
        let (ended, said, left) = asked_from(&rt, "never-made.db", file);
        let none = Err(AskFailure::Stores(failure));
        same(&rt, &(ended, said.len(), left), &(none, 0, 3));
        same(&rt, &fs::exists(&rt, "never-made.db").ok(), &Some(false));
    }
}

/// How a question of the stores at a path ends, for a scheme from a source, by this input, and what is written.
pub(crate) fn asked_by<'a>(
    rt: &HostRuntime,
    path: &'a str,
    source: SchemeSource<'a>,
    input: &[u8],
    question: Question,
) -> (Result<(), AskFailure>, Vec<u8>) {
    let mut input = input;
    let mut output = Vec::new(rt.alloc());
    let options = AskOptions {
        path,
        scheme: source,
        question,
    };
    let ended = ask(rt, &options, &mut input, &mut output);
    (ended, output)
}

// The same of a scheme on the input.
fn asked(rt: &HostRuntime, path: &str, question: Question) -> (Result<(), AskFailure>, Vec<u8>) {
    asked_by(rt, path, SchemeSource::Input, DEMO, question)
}

// The bill of a day.
fn bill(day: u64) -> Option<Question> {
    Some(Question::Bill {
        owner: OwnerId::new(1)?,
        day: Day::new(day)?,
    })
}

// The end of the lane of device 1.
fn retire() -> Option<Question> {
    Some(Question::Retire {
        owner: OwnerId::new(1)?,
        device: DeviceId::new(1)?,
    })
}

// One tap is served; its day isn't closed, for want of a statement, so it has no bill before its lane is retired.
#[test]
fn questions_of_what_was_served(rt: HostRuntime) {
    let (ended, _) = served(&rt, &rt, "asked.db", DEMO, &[&GREETED, &TAPPED]);
    same(&rt, &ended, &Ok(()));
    let device = DeviceId::new(1).expect(&rt, "device");
    let cases: [(Option<Question>, Result<(), AskFailure>, &[u8]); 8] = [
        (
            Some(Question::Stand),
            Ok(()),
            b"upto 1 1\nlane 1 1 taken 1 closed none rows 0 statements 0\n",
        ),
        (Some(Question::Close), Ok(()), b""),
        (
            bill(19_722),
            Err(AskFailure::Desk(DeskFault::BeforeStart)),
            b"",
        ),
        (
            bill(19_723),
            Err(AskFailure::Desk(DeskFault::NotClosed { device })),
            b"",
        ),
        (retire(), Ok(()), b"retired 1\n"),
        (retire(), Err(AskFailure::Desk(DeskFault::Retired)), b""),
        (
            bill(19_723),
            Ok(()),
            b"bill 1 19723 1 175\naccount 1 77 1 175\nshort 1\n",
        ),
        (
            Some(Question::Stand),
            Ok(()),
            b"upto 1 1\nlane 1 1 taken 1 closed none rows 0 statements 0 retired\n",
        ),
    ];
    for (question, ends, lines) in cases {
        let question = question.expect(&rt, "question");
        let (ended, said) = asked(&rt, "asked.db", question);
        same(&rt, &(ended, said.as_slice()), &(ends, lines));
    }
}

// A question makes no store.
#[test]
fn questions_of_stores_that_are_not_there(rt: HostRuntime) {
    for _ in 0..2 {
        let (ended, said) = asked(&rt, "never-served.db", Question::Stand);
        let none = Err(AskFailure::Stores(ServeFailure::Store));
        same(&rt, &(ended, said.len()), &(none, 0));
    }
}

// The same tap and the same statement of its day as a trace.
const TRACE: &[u8] = b"demo 1 4 4 4
tap 1 1 77 1704100000
send 1
arrive 1
draw
store
forward 1 1
fetch 1
take 1
turn 1
state 1 19723 1
arrive 2
draw
store
forward 1 1
fetch 1
take 1
close 1 1 19723
bill 1 19723
settle 1 19723
";

// What `close` says in front of the reply to the close of a trace.
const TRIED: &[u8] = b"close 1 1 19723: ";

// What the questions that close the day, bill it and settle it write, one after the other, but for what `close` says
// first.
fn closed_and_billed(rt: &HostRuntime, path: &str) -> Option<Vec<u8>> {
    let owner = OwnerId::new(1)?;
    let day = Day::new(19_723)?;
    let (closed, tries) = asked(rt, path, Question::Close);
    let (billed, bill) = asked(rt, path, Question::Bill { owner, day });
    let (settled, settlement) = asked(rt, path, Question::Settle { owner, day });
    if closed.is_err() || billed.is_err() || settled.is_err() {
        return None;
    }
    let mut lines = Vec::new(rt.alloc());
    lines.extend_from_slice(tries.strip_prefix(TRIED)?).ok()?;
    lines.extend_from_slice(&bill).ok()?;
    lines.extend_from_slice(&settlement).ok()?;
    Some(lines)
}

// What the questions write of a store that was served is what a replay of the same tap writes.
#[test]
fn a_served_tap_is_closed_and_billed_as_a_replayed_one(rt: HostRuntime) {
    // The last byte of a statement is its count.
    let mut stated = STATED;
    stated[20] = 1;
    let frames: [&[u8]; 3] = [&GREETED, &TAPPED, &stated];
    let (ended, _) = served(&rt, &rt, "billed.db", DEMO, &frames);
    same(&rt, &ended, &Ok(()));
    let lines = closed_and_billed(&rt, "billed.db").expect(&rt, "answers");
    let want =
        b"closed 1 19723\nbill 1 19723 1 175\naccount 1 77 1 175\nsettlement 1 19723 1\noperator 1 1 175\n";
    same(&rt, &lines.as_slice(), &want.as_slice());
    let mut replies = Vec::new(rt.alloc());
    let mut trace = TRACE;
    same(&rt, &replay(rt.alloc(), &mut trace, &mut replies), &Ok(()));
    assert!(rt; replies.as_slice().ends_with(want));
}

// How a question ends that writes nothing; well where it writes something.
fn asked_in_vain(rt: &HostRuntime, path: &str, question: Question) -> Result<(), AskFailure> {
    let (ended, said) = asked(rt, path, question);
    if said.is_empty() { ended } else { Ok(()) }
}

/// Takes what is written, and once serving has begun asks where the stores stand and has their days closed.
#[derive(Drop)]
struct Asker<'a> {
    rt: &'a HostRuntime,
    path: &'a str,
    shown: Result<(), AskFailure>,
    closed: Result<(), AskFailure>,
}

impl<'a> Write for Asker<'a> {
    fn write(&mut self, bytes: &[u8]) -> io::Result<usize> {
        if port_in(bytes).is_some() {
            self.shown = asked_in_vain(self.rt, self.path, Question::Stand);
            self.closed = asked_in_vain(self.rt, self.path, Question::Close);
        }
        Ok(bytes.len())
    }

    fn flush(&mut self) -> io::Result<()> {
        Ok(())
    }
}

// How these two questions end while the stores at a path are served; well where none was asked.
fn asked_while_served<
    R: Net<Listener = TcpListener, Stream = TcpStream> + Threads + Wait + Clock + Eprint + Sync,
>(rt: &HostRuntime, handles: &R, path: &str) -> (Result<(), AskFailure>, Result<(), AskFailure>) {
    let mut input = DEMO;
    let mut output = Asker {
        rt,
        path,
        shown: Ok(()),
        closed: Ok(()),
    };
    let options = ServeOptions {
        port: 0,
        path,
        scheme: SchemeSource::Input,
        limits: Limits { turns: 4, ..LIMITS },
        until: None,
        ask: None,
    };
    let ended = serve_with(rt, handles, &options, &mut input, &mut output);
    let Asker { shown, closed, .. } = output;
    if ended.is_err() {
        return (Ok(()), Ok(()));
    }
    (shown, closed)
}

// While the stores are served their files are locked: a question fails, and they hold what they held.
#[test]
fn a_question_of_locked_stores(rt: HostRuntime) {
    let (ended, _) = served(&rt, &rt, "locked.db", DEMO, &[&GREETED, &TAPPED]);
    same(&rt, &ended, &Ok(()));
    let (_, before) = asked(&rt, "locked.db", Question::Stand);
    let (shown, closed) = asked_while_served(&rt, &rt, "locked.db");
    let locked = Err(AskFailure::Stores(ServeFailure::Store));
    same(&rt, &shown, &locked);
    same(&rt, &closed, &locked);
    let (ended, after) = asked(&rt, "locked.db", Question::Stand);
    same(
        &rt,
        &(ended, after.as_slice()),
        &(Ok(()), before.as_slice()),
    );
}
