//! Schemes that are kept beside stores in files: over which one a run is, and which it refuses.
use crate::checking::same;
use crate::stores_in_files::{asked_by, served_by};
use fare_command::{Question, SchemeSource};
use fare_databases::{Absent, close_file, connect_file};
use fare_record::{Day, DeviceId, OwnerId};
use fare_run::{AskFailure, ServeFailure, show_scheme};
use fare_samples::{GREETED, STATED, TAPPED};
use sqlite_disk::Unknown;
use std::alloc::Global;
use std::fs;
use std::net::{Net, TcpListener, TcpStream};
use std::sync::Wait;
use std::thread::Threads;
use std::time::Clock;

/// The lines of a scheme, by kind and as they are printed: owners, operators, stations, products, devices, the inbox, the
/// zone, the start.
const FIRST: [&[u8]; 8] = [
    b"owner 1 4\n",
    b"operator 1\n",
    b"station 1 1\n",
    b"product 1 1 175\ncaps 1 525 2470\nhop 1 3600\n",
    b"device 1 1 4\n",
    b"inbox 4\n",
    b"zone GMT0BST,M3.5.0/1,M10.5.0\n",
    b"start 19723\n",
];

/// A later scheme: of these kinds other lines.
type Later = &'static [(usize, &'static [u8])];

/// One more of each kind, and other capacities.
const GROWN: Later = &[
    (0, b"owner 1 8\nowner 2 4\n"),
    (1, b"operator 1\noperator 2\n"),
    (2, b"station 1 1\nstation 2 2\n"),
    (
        3,
        b"product 1 1 175\ncaps 1 525 2470\nhop 1 3600\nproduct 2 2 90\ncaps 2 450 900\nhop 2 0\n",
    ),
    (4, b"device 1 1 8\ndevice 2 1 4\n"),
    (5, b"inbox 8\n"),
];

/// What `stand` writes once the tap of device 1 is taken.
const STANDS: &[u8] = b"upto 1 1\nlane 1 1 taken 1 closed none rows 0 statements 0\n";

/// What serving writes that stored a tap and handed it to its owner.
const STORED: &[u8] = b"stored 1\ntaken 1 1\nleft 0\n";

/// And where there was nothing to do.
const IDLE: &[u8] = b"stored 0\ntaken 1 0\nleft 0\n";

// The lines of a kind in a later scheme.
fn lines_of(later: Later, kind: usize) -> Option<&'static [u8]> {
    for &(other, lines) in later {
        if other == kind {
            return Some(lines);
        }
    }
    FIRST.get(kind).copied()
}

// The text of a later scheme.
fn text_of(alloc: Global, later: Later) -> Option<Vec<u8>> {
    let mut text = Vec::new(alloc);
    for kind in 0..8 {
        text.extend_from_slice(lines_of(later, kind)?).ok()?;
    }
    text.extend_from_slice(b"seal\n").ok()?;
    Some(text)
}

// What is written of the scheme that is kept at a path, or why nothing is.
fn shown(rt: &HostRuntime, path: &str) -> (Result<(), ServeFailure>, Vec<u8>) {
    let mut output = Vec::new(rt.alloc());
    let ended = show_scheme(rt, path, &mut output);
    (ended, output)
}

// Where the lanes of the stores at a path stand, for the kept scheme.
fn standing(rt: &HostRuntime, path: &str) -> (Result<(), AskFailure>, Vec<u8>) {
    asked_by(rt, path, SchemeSource::Unsaid, b"", Question::Stand)
}

// Whether the first scheme and a tap were served at a path.
fn is_first_served<
    R: Net<Listener = TcpListener, Stream = TcpStream> + Threads + Wait + Clock + Eprint + Sync,
>(rt: &HostRuntime, handles: &R, path: &str) -> bool {
    let Some(text) = text_of(rt.alloc(), &[]) else {
        return false;
    };
    let frames: [&[u8]; 2] = [&GREETED, &TAPPED];
    let (ended, said) = served_by(rt, handles, path, SchemeSource::Input, &text, &frames);
    ended == Ok(()) && said.as_slice() == STORED
}

// What is kept is printed, and served and asked where no scheme is given.
#[test]
fn the_kept_scheme_is_taken_where_none_is_given(rt: HostRuntime) {
    const NONE: SchemeSource = SchemeSource::Unsaid;
    assert!(rt; is_first_served(&rt, &rt, "kept.db"));
    let text = text_of(rt.alloc(), &[]).expect(&rt, "a text");
    same(&rt, &shown(&rt, "kept.db"), &(Ok(()), text));
    let (ended, said) = served_by(&rt, &rt, "kept.db", NONE, b"", &[&GREETED, &TAPPED]);
    same(&rt, &(ended, said.as_slice()), &(Ok(()), IDLE));
    let (ended, said) = standing(&rt, "kept.db");
    same(&rt, &(ended, said.as_slice()), &(Ok(()), STANDS));
}

// Lines that are given are taken, also where nothing says where they are.
#[test]
fn a_given_scheme_is_taken(rt: HostRuntime) {
    assert!(rt; is_first_served(&rt, &rt, "given.db"));
    let text = text_of(rt.alloc(), &[]).expect(&rt, "a text");
    assert!(rt; fs::write(&rt, "given.scheme", &text).is_ok());
    let given: [(SchemeSource, &[u8]); 3] = [
        (SchemeSource::Unsaid, &text),
        (SchemeSource::Input, &text),
        (SchemeSource::File("given.scheme"), b""),
    ];
    for (source, input) in given {
        let (ended, said) = asked_by(&rt, "given.db", source, input, Question::Stand);
        same(&rt, &(ended, said.as_slice()), &(Ok(()), STANDS));
    }
    let none = Err(AskFailure::Stores(ServeFailure::NoScheme));
    let (ended, said) = asked_by(&rt, "given.db", SchemeSource::Input, b"", Question::Stand);
    same(&rt, &(ended, said.len()), &(none, 0));
}

// Where nothing is given and no store is there, nothing is made.
#[test]
fn nothing_is_kept_where_no_store_is(rt: HostRuntime) {
    const NONE: SchemeSource = SchemeSource::Unsaid;
    const NO_SCHEME: Result<(), ServeFailure> = Err(ServeFailure::NoScheme);
    let (ended, said) = served_by(&rt, &rt, "nowhere.db", NONE, b"", &[]);
    same(&rt, &(ended, said.len()), &(NO_SCHEME, 0));
    let (ended, said) = standing(&rt, "nowhere.db");
    let none = Err(AskFailure::Stores(ServeFailure::NoScheme));
    same(&rt, &(ended, said.len()), &(none, 0));
    let (ended, said) = shown(&rt, "nowhere.db");
    same(&rt, &(ended, said.len()), &(NO_SCHEME, 0));
    same(&rt, &fs::exists(&rt, "nowhere.db").ok(), &Some(false));
}

// What serving a later scheme over the stores at a path and asking of them are told, and how much was written.
fn refused<
    R: Net<Listener = TcpListener, Stream = TcpStream> + Threads + Wait + Clock + Eprint + Sync,
>(rt: &HostRuntime, handles: &R, path: &str, later: Later) -> Option<(String, String, usize)> {
    let text = text_of(rt.alloc(), later)?;
    let source = SchemeSource::Unsaid;
    let (served, counts) = served_by(rt, handles, path, source, &text, &[]);
    let (asked, lines) = asked_by(rt, path, source, &text, Question::Close);
    let (Err(served), Err(asked)) = (served, asked) else {
        return None;
    };
    let served = format!(in rt.alloc(); "{served}").ok()?;
    let asked = format!(in rt.alloc(); "{asked}").ok()?;
    Some((served, asked, counts.len() + lines.len()))
}

// One that adds an owner and contradicts what is kept makes no ledger.
#[test]
fn what_contradicts_the_kept_scheme_is_refused(rt: HostRuntime) {
    const CASES: [(Later, &str); 5] = [
        (
            &[(0, b"owner 1 4\nowner 2 4\n"), (7, b"start 19724\n")],
            "refused SchemeChanged start",
        ),
        (&[(6, b"zone UTC0\n")], "refused SchemeChanged zone"),
        (
            &[(4, b"device 2 1 4\n")],
            "refused SchemeChanged device 1 gone",
        ),
        (
            &[(3, b"product 1 1 200\ncaps 1 525 2470\nhop 1 3600\n")],
            "refused SchemeChanged product 1",
        ),
        (
            &[(
                3,
                b"product 2 1 175\nproduct 1 1 175\ncaps 1 525 2470\nhop 1 3600\n",
            )],
            "refused SchemeChanged product 1",
        ),
    ];
    assert!(rt; is_first_served(&rt, &rt, "refused.db"));
    let text = text_of(rt.alloc(), &[]).expect(&rt, "a text");
    for &(later, want) in &CASES {
        let (served, asked, length) = refused(&rt, &rt, "refused.db", later).expect(
            &rt, "refusals",
        );
        same(
            &rt,
            &(served.as_str(), asked.as_str(), length),
            &(want, want, 0),
        );
        let (ended, said) = shown(&rt, "refused.db");
        same(&rt, &(ended, said.as_slice()), &(Ok(()), text.as_slice()));
        let (ended, said) = standing(&rt, "refused.db");
        same(&rt, &(ended, said.as_slice()), &(Ok(()), STANDS));
    }
    same(&rt, &fs::exists(&rt, "refused.db.2").ok(), &Some(false));
}

// The frames of device 2, which was added: a tap of product 2, which owner 2 owns, and that it was one on that day.
fn frames_of_added() -> ([u8; 9], [u8; 49], [u8; 21]) {
    let (mut greeted, mut tapped, mut stated) = (GREETED, TAPPED, STATED);
    greeted[6] = 2;
    tapped[6] = 2;
    tapped[16] = 2;
    tapped[28] = 2;
    stated[6] = 2;
    stated[12] = 2;
    stated[20] = 1;
    (greeted, tapped, stated)
}

// The bill of owner 2, once it has retired the lane of device 1, which states nothing to it, and its days are closed.
fn added_bill(rt: &HostRuntime, path: &str) -> Option<(Result<(), AskFailure>, Vec<u8>)> {
    let owner = OwnerId::new(2)?;
    let day = Day::new(19_723)?;
    let device = DeviceId::new(1)?;
    for order in [Question::Retire { owner, device }, Question::Close] {
        asked_by(rt, path, SchemeSource::Unsaid, b"", order).0.ok()?;
    }
    let bill = Question::Bill { owner, day };
    Some(asked_by(rt, path, SchemeSource::Unsaid, b"", bill))
}

// What a later scheme adds is kept, served and billed, and it stays.
#[test]
fn what_a_later_scheme_adds_is_served_and_billed(rt: HostRuntime) {
    const COUNTS: &[u8] = b"stored 2\ntaken 1 0\ntaken 2 2\nleft 0\n";
    const BILL: &[u8] = b"bill 2 19723 1 90\naccount 2 77 1 90\nshort 1\n";
    assert!(rt; is_first_served(&rt, &rt, "grown.db"));
    let text = text_of(rt.alloc(), GROWN).expect(&rt, "a text");
    let (greeted, tapped, stated) = frames_of_added();
    let frames: [&[u8]; 3] = [&greeted, &tapped, &stated];
    let (ended, said) = served_by(&rt, &rt, "grown.db", SchemeSource::Input, &text, &frames);
    same(&rt, &(ended, said.as_slice()), &(Ok(()), COUNTS));
    same(&rt, &shown(&rt, "grown.db"), &(Ok(()), text));
    let (ended, said) = added_bill(&rt, "grown.db").expect(&rt, "a bill");
    same(&rt, &(ended, said.as_slice()), &(Ok(()), BILL));
    let (served, asked, _) = refused(&rt, &rt, "grown.db", &[]).expect(&rt, "refusals");
    let want = "refused SchemeChanged owner 2 gone";
    same(&rt, &(served.as_str(), asked.as_str()), &(want, want));
}

// Whether statements were done in the database of the outbox at a path.
fn is_done(rt: &HostRuntime, path: &str, statements: &str) -> bool {
    let Ok(mut database) = connect_file(rt, path, Absent::Refused, Unknown) else {
        return false;
    };
    let done = database.execute_batch(statements).is_ok();
    close_file(database);
    done
}

// Stores that were made before schemes were kept get the one with which they are next opened, and hold what they held.
#[test]
fn stores_that_keep_no_scheme_get_one(rt: HostRuntime) {
    const DROPPED: &str =
        "DROP TABLE kept; DROP TABLE kept_scheme; DROP TABLE kept_zone; DROP TABLE kept_owner;
DROP TABLE kept_operator; DROP TABLE kept_station; DROP TABLE kept_product; DROP TABLE kept_device";
    const NO_SCHEME: Result<(), ServeFailure> = Err(ServeFailure::NoScheme);
    assert!(rt; is_first_served(&rt, &rt, "older.db"));
    assert!(rt; is_done(&rt, "older.db", DROPPED));
    let (ended, said) = shown(&rt, "older.db");
    same(&rt, &(ended, said.len()), &(NO_SCHEME, 0));
    let (ended, said) = standing(&rt, "older.db");
    let none = Err(AskFailure::Stores(ServeFailure::NoScheme));
    same(&rt, &(ended, said.len()), &(none, 0));
    let text = text_of(rt.alloc(), &[]).expect(&rt, "a text");
    let input = SchemeSource::Input;
    let (ended, said) = asked_by(&rt, "older.db", input, &text, Question::Stand);
    same(&rt, &(ended, said.as_slice()), &(Ok(()), STANDS));
    same(&rt, &shown(&rt, "older.db"), &(Ok(()), text));
}

// What is kept was changed, and tells no scheme any more, or a table has gone: no scheme is taken, and a given one isn't kept.
#[test]
fn what_tells_no_scheme_is_refused(rt: HostRuntime) {
    const CASES: [(&str, &str, &str); 2] = [
        (
            "unreadable.db",
            "UPDATE kept_device SET station = 7",
            "refused SchemeUnreadable",
        ),
        (
            "foreign.db",
            "DROP TABLE kept_device; CREATE TABLE kept_device (name TEXT)",
            "refused SchemeForeign",
        ),
    ];
    for &(path, statements, want) in &CASES {
        assert!(rt; is_first_served(&rt, &rt, path));
        assert!(rt; is_done(&rt, path, statements));
        let (served, asked, length) = refused(&rt, &rt, path, GROWN).expect(&rt, "refusals");
        same(
            &rt,
            &(served.as_str(), asked.as_str(), length),
            &(want, want, 0),
        );
    }
}
