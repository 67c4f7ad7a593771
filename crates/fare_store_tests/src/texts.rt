use fare_lines::{Line, parse};
use fare_setup::{append_setup, print_setup, setup_lines};
use fare_trace::{ZonedScheme, zoned_scheme_of};
use std::alloc::Global;

/// The lines of a scheme, by kind and as they are printed: owners, operators, stations, products, devices, the inbox,
/// the zone, the start.
const FIRST: [&[u8]; 8] = [
    b"owner 1 4\nowner 2 4\n",
    b"operator 1\noperator 2\n",
    b"station 1 1\nstation 2 2\n",
    b"product 1 1 175\ncaps 1 525 2470\nhop 1 3600\nproduct 2 2 90\ncaps 2 450 900\nhop 2 0\n",
    b"device 1 1 4\ndevice 2 2 4\n",
    b"inbox 4\n",
    b"zone GMT0BST,M3.5.0/1,M10.5.0\n",
    b"start 19723\n",
];

/// A later scheme: of these kinds other lines.
pub(crate) type Later = &'static [(usize, &'static [u8])];

/// A later scheme with one more of each kind, and other capacities.
pub(crate) const GROWN: Later = &[
    (0, b"owner 1 9\nowner 2 8\nowner 3 4\n"),
    (1, b"operator 1\noperator 2\noperator 9\n"),
    (2, b"station 1 1\nstation 2 2\nstation 3 9\n"),
    (
        3,
        b"product 1 1 175\ncaps 1 525 2470\nhop 1 3600\nproduct 2 2 90\ncaps 2 450 900\nhop 2 0
product 3 3 200\ncaps 3 1000000 10000000\nhop 3 7200\n",
    ),
    (4, b"device 1 1 4096\ndevice 2 2 1\ndevice 3 3 4\n"),
    (5, b"inbox 1024\n"),
];

// The lines of a kind in a later scheme.
fn lines_of(later: Later, kind: usize) -> Option<&'static [u8]> {
    for &(other, lines) in later {
        if other == kind {
            return Some(lines);
        }
    }
    FIRST.get(kind).copied()
}

/// The text of a later scheme.
pub(crate) fn text_of(alloc: Global, later: Later) -> Option<Vec<u8>> {
    let mut text = Vec::new(alloc);
    for kind in 0..8 {
        text.extend_from_slice(lines_of(later, kind)?).ok()?;
    }
    text.extend_from_slice(b"seal\n").ok()?;
    Some(text)
}

/// The text of a scheme of so many devices.
pub(crate) fn many_devices(alloc: Global, devices: u32) -> Option<Vec<u8>> {
    let mut text = Vec::new(alloc);
    text.extend_from_slice(b"owner 1 4\noperator 1\nstation 1 1\n")
        .ok()?;
    text.extend_from_slice(b"product 1 1 175\ncaps 1 525 2470\nhop 1 3600\n")
        .ok()?;
    for place in 0..devices {
        let device = place.wrapping_add(1);
        let line = format!(in alloc; "device {device} 1 4\n").ok()?;
        text.extend_from_slice(line.as_bytes()).ok()?;
    }
    text.extend_from_slice(b"inbox 4\nzone UTC0\nstart 19723\nseal\n")
        .ok()?;
    Some(text)
}

/// The scheme that the lines of a text make.
pub(crate) fn scheme_in(alloc: Global, text: &[u8]) -> Option<ZonedScheme> {
    let lines = parse(alloc, text).ok()?;
    zoned_scheme_of(alloc, &lines).ok()
}

/// A later scheme.
pub(crate) fn later_scheme(alloc: Global, later: Later) -> Option<ZonedScheme> {
    let text = text_of(alloc, later)?;
    scheme_in(alloc, &text)
}

/// The text of lines that all set up a scheme.
pub(crate) fn printed(alloc: Global, lines: &[Line]) -> Option<Vec<u8>> {
    let mut text = Vec::new(alloc);
    for line in lines {
        let Line::Setup(line) = line else {
            return None;
        };
        append_setup(line, &mut text).ok()?;
    }
    Some(text)
}

/// The text that is printed of a scheme.
pub(crate) fn text_of_scheme(alloc: Global, made: &ZonedScheme) -> Option<Vec<u8>> {
    let lines = setup_lines(alloc, &made.scheme, &made.zone).ok()?;
    let mut text = Vec::new(alloc);
    print_setup(&lines, &mut text).ok()?;
    Some(text)
}
