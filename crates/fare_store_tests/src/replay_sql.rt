use crate::checking::same;
use crate::worked::{
    TRACES_OF_DAYS, TRACES_OF_RETIRED, TRACES_OF_ROUTES, TRACES_OF_SCHEMES, TRACES_OF_TAPS,
};
use fare_replay::{ReplayFault, replay, replay_sql};
use std::alloc::{AllocError, Global};
use std::process::Abort;

// What a replay of a trace over tables writes.
fn answered(alloc: Global, trace: &[u8]) -> Result<Vec<u8>, ReplayFault> {
    let mut reader = trace;
    let mut output = Vec::new(alloc);
    replay_sql(alloc, &mut reader, &mut output)?;
    Ok(output)
}

// Whether it writes this.
fn is_answered(alloc: Global, trace: &[u8], want: &[u8]) -> Result<bool, ReplayFault> {
    Ok(answered(alloc, trace)?.as_slice() == want)
}

// These traces are answered so.
fn are_answered(rt: &impl Abort, alloc: Global, cases: &[(&[u8], &[u8])]) {
    for (place, (trace, want)) in cases.iter().enumerate() {
        same(
            rt,
            &(place, is_answered(alloc, trace, want)),
            &(place, Ok(true)),
        );
    }
}

#[test]
fn replays_traces_over_tables(rt: HostRuntime) {
    are_answered(&rt, rt.alloc(), &TRACES_OF_TAPS);
    are_answered(&rt, rt.alloc(), &TRACES_OF_DAYS);
    are_answered(&rt, rt.alloc(), &TRACES_OF_RETIRED);
    are_answered(&rt, rt.alloc(), &TRACES_OF_ROUTES);
    are_answered(&rt, rt.alloc(), &TRACES_OF_SCHEMES);
}

// 30 taps, one after the other, each brought to its owner's ledger and acknowledged, and then their day, up to its
// settlement: 375 lines.
fn longer_trace(alloc: Global) -> Result<Vec<u8>, AllocError> {
    let mut text = Vec::new(alloc);
    text.extend_from_slice(b"demo 1 4 4 4\n")?;
    for tap in 1..31u64 {
        let packet = 2 * tap - 1;
        let answer = 2 * tap;
        let lines = format!(in alloc;
            "tap 1 1 77 1704100000\nsend 1\narrive {packet}\ndraw\nstore\nack 1\nanswer 1\narrive {answer}\nforward 1 1\nfetch 1\ntake 1\nprune 1 1\n"
        )?;
        text.extend_from_slice(lines.as_bytes())?;
    }
    text.extend_from_slice(
        b"turn 1\nstate 1 19723 1\narrive 61\ndraw\nstore\nrestart hub\nforward 1 1\nfetch 1\ntake 1\nclose 1 1 19723\nbill 1 19723\nsettle 1 19723\nupto 1\ncount 1 1\n",
    )?;
    Ok(text)
}

// What a replay of a trace over lists writes.
fn answered_by_lists(alloc: Global, trace: &[u8]) -> Result<Vec<u8>, ReplayFault> {
    let mut reader = trace;
    let mut output = Vec::new(alloc);
    replay(alloc, &mut reader, &mut output)?;
    Ok(output)
}

#[test]
fn tables_answer_a_longer_trace_as_lists_do(rt: HostRuntime) {
    let trace = longer_trace(rt.alloc()).expect(&rt, "trace");
    let want = answered_by_lists(rt.alloc(), &trace).expect(&rt, "answers");
    assert!(rt;
        want.ends_with(
            b"account 1 77 30 525\nsettlement 1 19723 1\noperator 1 30 525\nupto 30\ncount 30\n"
        )
    );
    same(&rt, &is_answered(rt.alloc(), &trace, &want), &Ok(true));
}

// Why a replay of a trace over tables writes nothing.
fn fault_of(alloc: Global, trace: &[u8]) -> Option<ReplayFault> {
    let mut reader = trace;
    let mut output = Vec::new(alloc);
    let fault = replay_sql(alloc, &mut reader, &mut output).err()?;
    output.is_empty().then_some(fault)
}

#[test]
fn a_bad_line_over_tables_leaves_nothing_written(rt: HostRuntime) {
    let bad = ReplayFault::BadLine { line: 4 };
    same(
        &rt,
        &fault_of(rt.alloc(), b"demo 1 4 4 4\nupto 1\ncount 1 1\ntap 1\n"),
        &Some(bad),
    );
    let line = format!(in rt.alloc(); "{}", ReplayFault::Store).expect(&rt, "line");
    same(&rt, &line.as_str(), &("store failed"));
}
