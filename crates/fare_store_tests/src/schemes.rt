use crate::checking::same;
use crate::traces::{ONE_TAP, REGISTRAR_REFUSALS, REGISTRAR_SEALS};
use fare_event::Refusal;
use fare_lines::parse;
use fare_trace::{SchemeFault, scheme_of};
use std::alloc::Global;

// How many stations the scheme has that a text's lines make, or why they make none.
fn stations_of(alloc: Global, text: &[u8]) -> Option<Result<usize, SchemeFault>> {
    let lines = parse(alloc, text).ok()?;
    match scheme_of(alloc, &lines) {
        Ok(scheme) => Some(Ok(scheme.station_count())),
        Err(fault) => Some(Err(fault)),
    }
}

/// Lines that seal a scheme of one station, and one that would be refused.
const SEALED: &[u8] = b"owner 1 4
operator 1
station 1 1
product 1 1 175
device 1 1 4
start 19723
zone GMT0BST,M3.5.0/1,M10.5.0
seal
owner 0 4
";

/// An event line before the seal.
const EARLY: &[u8] = b"owner 1 4
tap 1 1 77 1704100000
demo 1 4 4 4
";

#[test]
fn lines_make_a_scheme_or_none(rt: HostRuntime) {
    const CASES: [(&[u8], Result<usize, SchemeFault>); 6] = [
        (
            REGISTRAR_REFUSALS,
            Err(SchemeFault::Refused(Refusal::ZeroId)),
        ),
        (REGISTRAR_SEALS, Err(SchemeFault::Refused(Refusal::NoStart))),
        (b"", Err(SchemeFault::NoScheme)),
        (EARLY, Err(SchemeFault::NoScheme)),
        (ONE_TAP, Ok(1)),
        (SEALED, Ok(1)),
    ];
    for &(text, want) in &CASES {
        same(&rt, &stations_of(rt.alloc(), text), &Some(want));
    }
}
