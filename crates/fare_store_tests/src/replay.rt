use crate::checking::same;
use crate::worked::{
    TRACES_OF_DAYS, TRACES_OF_RETIRED, TRACES_OF_ROUTES, TRACES_OF_SCHEMES, TRACES_OF_TAPS,
};
use fare_lines::{ParseFault, parse};
use fare_replay::{ReplayFault, replay};
use fare_samples::{Bytewise, Closed, Lossy, Zeros};
use std::alloc::{AllocError, Global};
use std::process::Abort;

// What a replay of a trace writes.
fn answered(alloc: Global, trace: &[u8]) -> Result<Vec<u8>, ReplayFault> {
    let mut reader = trace;
    let mut output = Vec::new(alloc);
    replay(alloc, &mut reader, &mut output)?;
    Ok(output)
}

// Whether a replay of a trace writes this.
fn is_answered(alloc: Global, trace: &[u8], want: &[u8]) -> Result<bool, ReplayFault> {
    Ok(answered(alloc, trace)?.as_slice() == want)
}

// What a replay writes of a trace that comes byte by byte, after an interrupted read.
fn answered_bytewise(alloc: Global, bytes: &[u8]) -> Result<Vec<u8>, ReplayFault> {
    let mut reader = Bytewise {
        bytes,
        interrupts: true,
        fails: false,
    };
    let mut output = Vec::new(alloc);
    replay(alloc, &mut reader, &mut output)?;
    Ok(output)
}

// Whether it writes this.
fn is_answered_bytewise(alloc: Global, trace: &[u8], want: &[u8]) -> Result<bool, ReplayFault> {
    Ok(answered_bytewise(alloc, trace)?.as_slice() == want)
}

// These traces are answered so, whole and byte by byte.
fn are_answered(rt: &impl Abort, alloc: Global, cases: &[(&[u8], &[u8])]) {
    for (place, (trace, want)) in cases.iter().enumerate() {
        let both = (
            is_answered(alloc, trace, want),
            is_answered_bytewise(alloc, trace, want),
        );
        same(rt, &(place, both), &(place, (Ok(true), Ok(true))));
    }
}

#[test]
fn replays_traces(rt: HostRuntime) {
    are_answered(&rt, rt.alloc(), &TRACES_OF_TAPS);
}

#[test]
fn replays_traces_of_days(rt: HostRuntime) {
    are_answered(&rt, rt.alloc(), &TRACES_OF_DAYS);
}

#[test]
fn replays_traces_of_retired_devices(rt: HostRuntime) {
    are_answered(&rt, rt.alloc(), &TRACES_OF_RETIRED);
}

#[test]
fn replays_traces_of_routes(rt: HostRuntime) {
    are_answered(&rt, rt.alloc(), &TRACES_OF_ROUTES);
}

#[test]
fn replays_traces_of_schemes(rt: HostRuntime) {
    are_answered(&rt, rt.alloc(), &TRACES_OF_SCHEMES);
}

// 454 taps, one after the other, each brought to its owner's ledger and acknowledged: 4,995 lines.
fn long_trace(alloc: Global) -> Result<Vec<u8>, AllocError> {
    let mut text = Vec::new(alloc);
    text.extend_from_slice(b"demo 1 4 4 4\n")?;
    for tap in 1..455u64 {
        let packet = 2 * tap - 1;
        let answer = 2 * tap;
        let lines = format!(in alloc;
            "tap 1 1 77 1704100000\nsend 1\narrive {packet}\ndraw\nstore\nack 1\nanswer 1\narrive {answer}\nforward 1 1\nfetch 1\ntake 1\n"
        )?;
        text.extend_from_slice(lines.as_bytes())?;
    }
    Ok(text)
}

// The replies to what brings a tap in this packet to the outbox.
fn stored(alloc: Global, tap: u64, packet: u64) -> Result<String, AllocError> {
    Ok(format!(in alloc;
        "record {tap} {tap}\npacket {packet} link {tap}\naccepted\ndrawn 1 link {tap}\nstored 1 link {tap}\nack {tap}\n"
    )?)
}

// The replies to what acknowledges it in this packet and brings it to the ledger.
fn taken(alloc: Global, tap: u64, packet: u64) -> Result<String, AllocError> {
    Ok(format!(in alloc;
        "packet {packet} ack 1 {tap}\nacked 1\nforwarded lane {tap}\nfetched 1 lane {tap}\ntaken 1 lane {tap}\n"
    )?)
}

// The replies to it.
fn long_answers(alloc: Global) -> Result<Vec<u8>, AllocError> {
    let mut text = Vec::new(alloc);
    text.extend_from_slice(b"ok\n")?;
    for tap in 1..455u64 {
        text.extend_from_slice(stored(alloc, tap, 2 * tap - 1)?.as_bytes())?;
        text.extend_from_slice(taken(alloc, tap, 2 * tap)?.as_bytes())?;
    }
    Ok(text)
}

// How many lines a trace has.
fn lines_in(alloc: Global, trace: &[u8]) -> Result<usize, ParseFault> {
    Ok(parse(alloc, trace)?.len())
}

#[test]
fn a_long_trace_is_answered_whole(rt: HostRuntime) {
    let trace = long_trace(rt.alloc()).expect(&rt, "trace");
    let want = long_answers(rt.alloc()).expect(&rt, "answers");
    same(&rt, &lines_in(rt.alloc(), &trace), &Ok(4_995));
    are_answered(&rt, rt.alloc(), &[(&trace, &want)]);
}

// Why a replay of this many bytes, so many a read, after so many interrupted reads, writes nothing.
fn fault_of_zeros(
    alloc: Global,
    left: usize,
    most: usize,
    interrupts: usize,
) -> Option<ReplayFault> {
    let mut reader = Zeros {
        left,
        most,
        interrupts,
    };
    let mut output = Vec::new(alloc);
    let fault = replay(alloc, &mut reader, &mut output).err()?;
    output.is_empty().then_some(fault)
}

#[test]
fn a_trace_has_16777216_bytes_and_takes_16777217_reads(rt: HostRuntime) {
    const BAD: ReplayFault = ReplayFault::BadLine { line: 1 };
    const CASES: [((usize, usize, usize), ReplayFault); 5] = [
        ((16_777_216, 4096, 0), BAD),
        ((16_777_217, 4096, 0), ReplayFault::Read),
        ((16_777_216, 1, 0), BAD),
        ((16_777_216, 1, 1), ReplayFault::Read),
        ((0, 1, 16_777_217), ReplayFault::Read),
    ];
    for &((left, most, interrupts), fault) in &CASES {
        same(
            &rt,
            &fault_of_zeros(rt.alloc(), left, most, interrupts),
            &Some(fault),
        );
    }
}

#[test]
fn bad_lines_are_counted_from_one(rt: HostRuntime) {
    const CASES: [(&[u8], u64); 3] = [(b"tap 1", 1), (b"\n", 1), (b"draw\nstore\ntake 0\n", 3)];
    for &(trace, line) in &CASES {
        same(
            &rt,
            &answered(rt.alloc(), trace).err(),
            &Some(ReplayFault::BadLine { line }),
        );
    }
}

// Why a replay of what fails in mid-stream writes nothing.
fn fault_of_broken(alloc: Global) -> Option<ReplayFault> {
    let mut reader = Bytewise {
        bytes: b"send 1\ndraw\n",
        interrupts: false,
        fails: true,
    };
    let mut output = Vec::new(alloc);
    let fault = replay(alloc, &mut reader, &mut output).err()?;
    output.is_empty().then_some(fault)
}

#[test]
fn a_reader_and_a_writer_fail(rt: HostRuntime) {
    same(&rt, &fault_of_broken(rt.alloc()), &Some(ReplayFault::Read));
    let mut input: &[u8] = b"draw\n";
    let closed = replay(rt.alloc(), &mut input, &mut Closed);
    let mut input: &[u8] = b"draw\n";
    let lossy = replay(rt.alloc(), &mut input, &mut Lossy);
    same(
        &rt,
        &(closed, lossy),
        &(Err(ReplayFault::Write), Err(ReplayFault::Write)),
    );
}

// Whether the fault's line is this.
fn has_line(alloc: Global, fault: ReplayFault, line: &str) -> Option<bool> {
    let text = format!(in alloc; "{fault}").ok()?;
    Some(text.as_str() == line)
}

fn parse_has_line(alloc: Global, fault: ParseFault, line: &str) -> Option<bool> {
    let text = format!(in alloc; "{fault}").ok()?;
    Some(text.as_str() == line)
}

#[test]
fn each_fault_has_its_line(rt: HostRuntime) {
    const CASES: [(ReplayFault, &str); 4] = [
        (ReplayFault::Read, "read failed"),
        (ReplayFault::BadLine { line: 12 }, "bad line 12"),
        (ReplayFault::Memory, "no memory"),
        (ReplayFault::Write, "write failed"),
    ];
    for &(fault, line) in &CASES {
        same(
            &rt,
            &(line, has_line(rt.alloc(), fault, line)),
            &(line, Some(true)),
        );
    }
    let fault = ParseFault::BadLine { line: 3 };
    same(
        &rt,
        &parse_has_line(rt.alloc(), fault, "bad line 3"),
        &Some(true),
    );
}
