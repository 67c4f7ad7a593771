use crate::checking::same;
use crate::disks::{Trial, reopened, tried};
use crate::keeping::{keep, kept_text, taps, with_outbox};
use crate::texts::{Later, later_scheme, text_of_scheme};
use fare_trace::ZonedScheme;
use sqlite::{Alter, Connection};
use sqlite_trees::store::Reopen;
use std::alloc::Global;

/// How many schemes were kept before the disks failed, and what was found then: nothing kept (0), the first scheme (1),
/// the later one (2), or anything else (9).
type Stopped = (u64, u64);

// A scheme with a short rule, and one that adds an owner to it, with another inbox.
const SHORT: Later = &[(6, b"zone UTC0\n")];

const LONGER: Later = &[
    (0, b"owner 1 4\nowner 2 4\nowner 3 4\n"),
    (5, b"inbox 5\n"),
    (6, b"zone UTC0\n"),
];

// How many of two schemes are kept until one fails.
fn done_in<S: Alter>(
    alloc: Global,
    conn: &mut Connection<S>,
    first: &ZonedScheme,
    later: &ZonedScheme,
) -> u64 {
    if keep(alloc, conn, first).is_err() {
        return 0;
    }
    if keep(alloc, conn, later).is_err() {
        return 1;
    }
    2
}

// Which of two schemes is kept.
fn found_in<S: Alter>(
    alloc: Global,
    conn: &mut Connection<S>,
    first: &ZonedScheme,
    later: &ZonedScheme,
) -> Option<u64> {
    let Some(text) = kept_text(alloc, conn)?.ok()? else {
        return Some(0);
    };
    if text == text_of_scheme(alloc, first)? {
        return Some(1);
    }
    Some(if text == text_of_scheme(alloc, later)? {
        2
    } else {
        9
    })
}

// What two schemes come to in a database with an outbox of one tap whose disks fail; none if the outbox doesn't have
// its tap then.
fn stopped<S: Alter + Reopen + Drop>(
    alloc: Global,
    conn: Connection<S>,
    first: &ZonedScheme,
    later: &ZonedScheme,
) -> Option<Stopped> {
    let mut conn = conn;
    let done = done_in(alloc, &mut conn, first, later);
    let mut conn = reopened(alloc, conn)?;
    let found = found_in(alloc, &mut conn, first, later)?;
    match taps(alloc, conn)? {
        (_, 1) => Some((done, found)),
        _ => None,
    }
}

// Two schemes are kept beside an outbox of one tap; nothing is seen if its database fails before it has its tap.
#[derive(Drop)]
struct KeepingTwo<'a> {
    first: &'a ZonedScheme,
    later: &'a ZonedScheme,
}

impl Trial for KeepingTwo<'_> {
    type Seen = Option<Stopped>;

    fn run<S: Alter + Reopen + Drop>(
        &self,
        alloc: Global,
        conn: Connection<S>,
    ) -> Option<Option<Stopped>> {
        match with_outbox(alloc, conn) {
            Some(conn) => Some(Some(stopped(alloc, conn, self.first, self.later)?)),
            None => Some(None),
        }
    }
}

// The disks fail at each of their calls in turn, until all is done. What is kept is then the scheme before or that
// after.
#[test]
fn a_failure_at_any_call_leaves_the_old_scheme_or_the_new(rt: HostRuntime) {
    let alloc = rt.alloc();
    let first = later_scheme(alloc, SHORT).expect(&rt, "a scheme");
    let later = later_scheme(alloc, LONGER).expect(&rt, "a later scheme");
    let keeping = KeepingTwo {
        first: &first,
        later: &later,
    };
    let mut early = false;
    let mut halfway = false;
    let mut full = false;
    for calls in 0..2_000 {
        let stop = tried(alloc, calls, &keeping).expect(&rt, "a failing store");
        let Some(Some((done, found))) = stop else {
            continue;
        };
        let kept = found == done || found == done.saturating_add(1);
        same(&rt, &(calls, kept), &(calls, true));
        early = early || done == 0;
        halfway = halfway || done == 1;
        if done == 2 {
            full = true;
            break;
        }
    }
    same(&rt, &(early, halfway, full), &(true, true, true));
}
