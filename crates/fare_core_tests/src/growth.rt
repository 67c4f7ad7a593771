use crate::checking::same;
use crate::setting_up::scheme_of;
use fare_growth::{Contradiction, Entry, first_contradiction};
use std::alloc::Global;

/// The lines of a kept scheme, by kind: owners, operators, stations, products, devices, the inbox, the zone, the start.
const KEPT: [&[u8]; 8] = [
    b"owner 1 4\nowner 2 4\n",
    b"operator 1\noperator 2\n",
    b"station 1 1\nstation 2 2\n",
    b"product 1 1 175\ncaps 1 525 2470\nhop 1 3600\nproduct 2 2 90\n",
    b"device 1 1 4\ndevice 2 2 4\n",
    b"inbox 4\n",
    b"zone GMT0BST,M3.5.0/1,M10.5.0\n",
    b"start 19723\n",
];

// A later scheme: of these kinds other lines.
type Later = &'static [(usize, &'static [u8])];

// The kind, and for an entry its kind and its id.
type Told = (&'static str, &'static str, u64);

// The lines of a kind in a later scheme.
fn lines_of(later: Later, kind: usize) -> Option<&'static [u8]> {
    for &(other, lines) in later {
        if other == kind {
            return Some(lines);
        }
    }
    KEPT.get(kind).copied()
}

fn text_of(alloc: Global, later: Later) -> Option<Vec<u8>> {
    let mut text = Vec::new(alloc);
    for kind in 0..8 {
        text.extend_from_slice(lines_of(later, kind)?).ok()?;
    }
    Some(text)
}

fn entry_told(found: &'static str, entry: &Entry) -> Told {
    let (kind, id) = match *entry {
        Entry::Owner(owner) => ("owner", u64::from(owner.get())),
        Entry::Operator(operator) => ("operator", u64::from(operator.get())),
        Entry::Station(station) => ("station", u64::from(station.get())),
        Entry::Product(product) => ("product", u64::from(product.get())),
        Entry::Device(device) => ("device", u64::from(device.get())),
    };
    (found, kind, id)
}

fn told(found: &Contradiction) -> Told {
    match found {
        Contradiction::Start => ("start", "", 0),
        Contradiction::Zone => ("zone", "", 0),
        Contradiction::Gone(entry) => entry_told("gone", entry),
        Contradiction::Changed(entry) => entry_told("changed", entry),
    }
}

// What a later scheme contradicts first, if both are schemes.
fn contradicted(alloc: Global, later: Later) -> Option<Option<Told>> {
    let kept = text_of(alloc, &[])?;
    let later = text_of(alloc, later)?;
    let kept = scheme_of(alloc, &kept)?;
    let later = scheme_of(alloc, &later)?;
    Some(first_contradiction(&kept, &later).as_ref().map(told))
}

#[test]
fn a_later_scheme_may_add(rt: HostRuntime) {
    const LATER: [Later; 5] = [
        &[],
        &[
            (0, b"owner 1 9\nowner 2 8\n"),
            (4, b"device 1 1 4096\ndevice 2 2 1\n"),
            (5, b"inbox 1024\n"),
        ],
        &[(0, b"owner 1 4\nowner 2 4\nowner 3 4\n")],
        &[
            (1, b"operator 1\noperator 2\noperator 9\n"),
            (2, b"station 1 1\nstation 2 2\nstation 3 9\nstation 4 1\n"),
            (4, b"device 1 1 4\ndevice 2 2 4\ndevice 3 3 4\n"),
        ],
        &[(
            3,
            b"product 1 1 175\ncaps 1 525 2470\nhop 1 3600\nproduct 2 2 90\nproduct 3 1 200\n",
        )],
    ];
    for &later in &LATER {
        same(&rt, &contradicted(rt.alloc(), later), &Some(None));
    }
}

#[test]
fn what_a_later_scheme_contradicts_is_named(rt: HostRuntime) {
    const CASES: [(Later, Told); 16] = [
        (&[(7, b"start 19724\n")], ("start", "", 0)),
        (&[(6, b"zone UTC0\n")], ("zone", "", 0)),
        (
            &[
                (0, b"owner 1 4\nowner 3 4\n"),
                (
                    3,
                    b"product 1 1 175\ncaps 1 525 2470\nhop 1 3600\nproduct 2 3 90\n",
                ),
            ],
            ("gone", "owner", 2),
        ),
        (
            &[
                (1, b"operator 1\noperator 3\n"),
                (2, b"station 1 1\nstation 2 3\n"),
            ],
            ("gone", "operator", 2),
        ),
        (
            &[
                (2, b"station 1 1\nstation 3 2\n"),
                (4, b"device 1 1 4\ndevice 2 3 4\n"),
            ],
            ("gone", "station", 2),
        ),
        (
            &[(3, b"product 1 1 175\ncaps 1 525 2470\nhop 1 3600\n")],
            ("gone", "product", 2),
        ),
        (&[(4, b"device 2 2 4\n")], ("gone", "device", 1)),
        (&[(0, b"owner 2 4\nowner 1 4\n")], ("changed", "owner", 1)),
        (
            &[(1, b"operator 1\noperator 3\noperator 2\n")],
            ("changed", "operator", 2),
        ),
        (
            &[(2, b"station 1 1\nstation 2 1\n")],
            ("changed", "station", 2),
        ),
        (
            &[(
                3,
                b"product 1 1 175\ncaps 1 525 2470\nhop 1 3600\nproduct 2 1 90\n",
            )],
            ("changed", "product", 2),
        ),
        (
            &[(
                3,
                b"product 1 1 176\ncaps 1 525 2470\nhop 1 3600\nproduct 2 2 90\n",
            )],
            ("changed", "product", 1),
        ),
        (
            &[(
                3,
                b"product 1 1 175\ncaps 1 524 2470\nhop 1 3600\nproduct 2 2 90\n",
            )],
            ("changed", "product", 1),
        ),
        (
            &[(
                3,
                b"product 1 1 175\ncaps 1 525 2471\nhop 1 3600\nproduct 2 2 90\n",
            )],
            ("changed", "product", 1),
        ),
        (
            &[(3, b"product 1 1 175\ncaps 1 525 2470\nproduct 2 2 90\n")],
            ("changed", "product", 1),
        ),
        (
            &[(4, b"device 1 1 4\ndevice 2 1 4\n")],
            ("changed", "device", 2),
        ),
    ];
    for &(later, want) in &CASES {
        same(&rt, &contradicted(rt.alloc(), later), &Some(Some(want)));
    }
}

#[test]
fn of_two_contradictions_the_first_is_named(rt: HostRuntime) {
    const CASES: [(Later, Told); 5] = [
        (
            &[(7, b"start 19724\n"), (6, b"zone UTC0\n")],
            ("start", "", 0),
        ),
        (
            &[(6, b"zone UTC0\n"), (4, b"device 1 1 4\n")],
            ("zone", "", 0),
        ),
        (
            &[(0, b"owner 2 4\nowner 1 4\n"), (4, b"device 1 1 4\n")],
            ("gone", "device", 2),
        ),
        (
            &[
                (2, b"station 1 1\n"),
                (3, b"product 1 1 175\ncaps 1 525 2470\nhop 1 3600\n"),
                (4, b"device 1 1 4\ndevice 2 1 4\n"),
            ],
            ("gone", "station", 2),
        ),
        (
            &[
                (3, b"product 2 2 90\nproduct 1 1 175\n"),
                (4, b"device 2 2 4\ndevice 1 1 4\n"),
            ],
            ("changed", "product", 1),
        ),
    ];
    for &(later, want) in &CASES {
        same(&rt, &contradicted(rt.alloc(), later), &Some(Some(want)));
    }
}
