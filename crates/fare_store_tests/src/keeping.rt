use crate::checking::same;
use crate::kept::number;
use crate::texts::{
    GROWN, Later, later_scheme, many_devices, printed, scheme_in, text_of, text_of_scheme,
};
use fare_keeping::{KeepFault, keep_scheme, kept_lines};
use fare_outbox::{OutboxDesign, SqlOutbox};
use fare_registry::{register_scheme, registered_scheme};
use fare_trace::ZonedScheme;
use sqlite::{Alter, Connection, MemStore};
use std::alloc::Global;

/// Keeps a scheme beside an outbox.
pub(crate) fn keep<S: Alter>(
    alloc: Global,
    conn: &mut Connection<S>,
    made: &ZonedScheme,
) -> Result<(), KeepFault> {
    keep_scheme::<OutboxDesign, S>(alloc, conn, &made.scheme, &made.zone)
}

/// The text of what is kept, if something is.
pub(crate) fn kept_text<S: Alter>(
    alloc: Global,
    conn: &mut Connection<S>,
) -> Option<Result<Option<Vec<u8>>, KeepFault>> {
    if !conn.is_autocommit() {
        return None;
    }
    match kept_lines(alloc, conn) {
        Ok(Some(lines)) => Some(Ok(Some(printed(alloc, &lines)?))),
        Ok(None) => Some(Ok(None)),
        Err(fault) => Some(Err(fault)),
    }
}

/// How many taps an outbox in a database has, of which it has at least one, and the database.
pub(crate) fn taps<S: Alter + Drop>(
    alloc: Global,
    conn: Connection<S>,
) -> Option<(Connection<S>, i64)> {
    let outbox = SqlOutbox::open(alloc, conn).ok()?;
    let mut conn = outbox.into_connection();
    let taps = number(&mut conn, "SELECT count(*) FROM tap2")?;
    Some((conn, taps))
}

/// The database with an outbox made in it that has one tap.
pub(crate) fn with_outbox<S: Alter + Drop>(
    alloc: Global,
    conn: Connection<S>,
) -> Option<Connection<S>> {
    let outbox = SqlOutbox::open(alloc, conn).ok()?;
    let mut conn = outbox.into_connection();
    conn.execute_batch(
        "BEGIN; INSERT INTO device VALUES (1, 2);
INSERT INTO tap2 VALUES (1, 1, 2, 2, 1, 77, 1704100000, 19723, 7); COMMIT",
    )
    .ok()?;
    Some(conn)
}

// A database in memory with an outbox.
fn database(alloc: Global) -> Option<Connection<MemStore>> {
    with_outbox(alloc, Connection::open_in_memory(alloc).ok()?)
}

/// What keeping a scheme was answered, as text, what is kept then, and how many taps the outbox then has.
type Answered = (String, Option<Vec<u8>>, i64);

/// What keeping a scheme is answered, as text.
pub(crate) fn said(alloc: Global, answer: Result<(), KeepFault>) -> Option<String> {
    match answer {
        Ok(()) => format!(in alloc; "ok").ok(),
        Err(fault) => format!(in alloc; "{fault}").ok(),
    }
}

// What comes of a later scheme where the first one is kept beside an outbox.
fn answered<S: Alter + Drop>(
    alloc: Global,
    conn: Connection<S>,
    first: &ZonedScheme,
    later: &ZonedScheme,
) -> Option<Answered> {
    let mut conn = conn;
    keep(alloc, &mut conn, first).ok()?;
    let answer = keep(alloc, &mut conn, later);
    let kept = kept_text(alloc, &mut conn)?.ok()?;
    let (_, taps) = taps(alloc, conn)?;
    Some((said(alloc, answer)?, kept, taps))
}

// The same of a database in memory, and of a later scheme by its lines.
fn answered_to(alloc: Global, later: Later) -> Option<Answered> {
    let first = later_scheme(alloc, &[])?;
    let later = later_scheme(alloc, later)?;
    answered(alloc, database(alloc)?, &first, &later)
}

#[test]
fn what_a_later_scheme_contradicts_is_named_and_nothing_changes(rt: HostRuntime) {
    const CASES: [(Later, &str); 12] = [
        (&[(7, b"start 19724\n")], "refused SchemeChanged start"),
        (&[(6, b"zone UTC0\n")], "refused SchemeChanged zone"),
        (
            &[
                (0, b"owner 1 4\nowner 3 4\n"),
                (3, b"product 1 1 175\nproduct 2 3 90\n"),
            ],
            "refused SchemeChanged owner 2 gone",
        ),
        (
            &[
                (1, b"operator 1\noperator 3\n"),
                (2, b"station 1 1\nstation 2 3\n"),
            ],
            "refused SchemeChanged operator 2 gone",
        ),
        (
            &[
                (2, b"station 1 1\nstation 3 2\n"),
                (4, b"device 1 1 4\ndevice 2 3 4\n"),
            ],
            "refused SchemeChanged station 2 gone",
        ),
        (
            &[(3, b"product 1 1 175\ncaps 1 525 2470\nhop 1 3600\n")],
            "refused SchemeChanged product 2 gone",
        ),
        (
            &[(4, b"device 2 2 4\n")],
            "refused SchemeChanged device 1 gone",
        ),
        (
            &[(0, b"owner 2 4\nowner 1 4\n")],
            "refused SchemeChanged owner 1",
        ),
        (
            &[(1, b"operator 1\noperator 3\noperator 2\n")],
            "refused SchemeChanged operator 2",
        ),
        (
            &[(2, b"station 1 1\nstation 2 1\n")],
            "refused SchemeChanged station 2",
        ),
        (
            &[(3, b"product 1 1 176\nproduct 2 2 90\n")],
            "refused SchemeChanged product 1",
        ),
        (
            &[(4, b"device 1 1 4\ndevice 2 1 4\n")],
            "refused SchemeChanged device 2",
        ),
    ];
    let alloc = rt.alloc();
    let text = text_of(alloc, &[]);
    for &(later, want) in &CASES {
        let (said, kept, taps) = answered_to(alloc, later).expect(&rt, "an answer");
        same(&rt, &(said.as_str(), taps), &(want, 1));
        same(&rt, &kept, &text);
    }
}

#[test]
fn of_two_contradictions_the_first_is_named(rt: HostRuntime) {
    const CASES: [(Later, &str); 5] = [
        (
            &[(7, b"start 19724\n"), (6, b"zone UTC0\n")],
            "refused SchemeChanged start",
        ),
        (
            &[(6, b"zone UTC0\n"), (4, b"device 1 1 4\n")],
            "refused SchemeChanged zone",
        ),
        (
            &[(0, b"owner 2 4\nowner 1 4\n"), (4, b"device 1 1 4\n")],
            "refused SchemeChanged device 2 gone",
        ),
        (
            &[
                (2, b"station 1 1\n"),
                (3, b"product 1 1 175\n"),
                (4, b"device 1 1 4\ndevice 2 1 4\n"),
            ],
            "refused SchemeChanged station 2 gone",
        ),
        (
            &[
                (3, b"product 2 2 90\nproduct 1 1 175\n"),
                (4, b"device 2 2 4\ndevice 1 1 4\n"),
            ],
            "refused SchemeChanged product 1",
        ),
    ];
    let alloc = rt.alloc();
    let text = text_of(alloc, &[]);
    for &(later, want) in &CASES {
        let (said, kept, taps) = answered_to(alloc, later).expect(&rt, "an answer");
        same(&rt, &(said.as_str(), taps), &(want, 1));
        same(&rt, &kept, &text);
    }
}

#[test]
fn a_later_scheme_that_adds_is_kept(rt: HostRuntime) {
    const CASES: [Later; 7] = [
        &[],
        &[
            (0, b"owner 1 9\nowner 2 8\n"),
            (4, b"device 1 1 4096\ndevice 2 2 1\n"),
            (5, b"inbox 1024\n"),
        ],
        &[(0, b"owner 1 4\nowner 2 4\nowner 3 4\n")],
        &[
            (1, b"operator 1\noperator 2\noperator 9\n"),
            (2, b"station 1 1\nstation 2 2\nstation 3 9\nstation 4 1\n"),
        ],
        &[(4, b"device 1 1 4\ndevice 2 2 4\ndevice 4294967295 1 4\n")],
        &[(
            3,
            b"product 1 1 175\ncaps 1 525 2470\nhop 1 3600\nproduct 2 2 90\ncaps 2 450 900\nhop 2 0
product 3 1 200\ncaps 3 0 0\nhop 3 7200\n",
        )],
        GROWN,
    ];
    let alloc = rt.alloc();
    for &later in &CASES {
        let (said, kept, taps) = answered_to(alloc, later).expect(&rt, "an answer");
        same(&rt, &(said.as_str(), taps), &("ok", 1));
        same(&rt, &kept, &text_of(alloc, later));
    }
}

// A scheme is kept once more, then one that adds to it; the one before is refused then.
#[test]
fn what_was_added_stays(rt: HostRuntime) {
    let alloc = rt.alloc();
    let first = later_scheme(alloc, &[]).expect(&rt, "a scheme");
    let later = later_scheme(alloc, GROWN).expect(&rt, "a later scheme");
    let mut conn = database(alloc).expect(&rt, "a database");
    for (made, want) in [
        (&first, "ok"),
        (&first, "ok"),
        (&later, "ok"),
        (&first, "refused SchemeChanged owner 3 gone"),
    ] {
        let answer = keep(alloc, &mut conn, made);
        let said = said(alloc, answer).expect(&rt, "its text");
        same(&rt, &said.as_str(), &want);
    }
    let kept = kept_text(alloc, &mut conn).expect(&rt, "a reading");
    same(&rt, &kept, &Ok(text_of(alloc, GROWN)));
}

// Inside a transaction nothing is kept; behind it the scheme is.
#[test]
fn nothing_is_kept_inside_a_transaction(rt: HostRuntime) {
    const CASES: [(&str, &str); 3] = [
        ("BEGIN", "store failed"),
        ("ROLLBACK", "ok"),
        ("BEGIN", "store failed"),
    ];
    let alloc = rt.alloc();
    let first = later_scheme(alloc, &[]).expect(&rt, "a scheme");
    let mut conn = database(alloc).expect(&rt, "a database");
    for &(statement, want) in &CASES {
        let began = conn.execute_batch(statement).is_ok();
        let said = said(alloc, keep(alloc, &mut conn, &first)).expect(&rt, "its text");
        same(&rt, &(began, said.as_str()), &(true, want));
    }
}

// What registering a scheme of so many devices twice is answered, whether its text is kept then, and how many taps the
// outbox has.
fn registered(alloc: Global, devices: u32) -> Option<(String, String, bool, i64)> {
    let text = many_devices(alloc, devices)?;
    let made = scheme_in(alloc, &text)?;
    let mut conn = database(alloc)?;
    let once = register_scheme(alloc, &mut conn, &made.scheme, &made.zone);
    let twice = register_scheme(alloc, &mut conn, &made.scheme, &made.zone);
    let kept = kept_text(alloc, &mut conn)?.ok()?;
    let (_, taps) = taps(alloc, conn)?;
    Some((
        said(alloc, once)?,
        said(alloc, twice)?,
        kept == Some(text),
        taps,
    ))
}

#[test]
fn a_scheme_of_as_many_devices_as_it_may_have_is_registered(rt: HostRuntime) {
    let came = registered(rt.alloc(), 256).expect(&rt, "an answer");
    let (once, twice, is_kept, taps) = came;
    same(
        &rt,
        &(once.as_str(), twice.as_str(), is_kept, taps),
        &("ok", "ok", true, 1),
    );
}

// The text of the scheme that is kept beside an outbox, if one is.
fn told_text<S: Alter>(
    alloc: Global,
    conn: &mut Connection<S>,
) -> Option<Result<Option<Vec<u8>>, KeepFault>> {
    if !conn.is_autocommit() {
        return None;
    }
    match registered_scheme(alloc, conn) {
        Ok(Some(made)) => Some(Ok(Some(text_of_scheme(alloc, &made)?))),
        Ok(None) => Some(Ok(None)),
        Err(fault) => Some(Err(fault)),
    }
}

// The scheme of as many devices as one may have is kept, and told.
fn told_of_many(alloc: Global, text: &[u8]) -> Option<Result<Option<Vec<u8>>, KeepFault>> {
    let made = scheme_in(alloc, text)?;
    let mut conn = database(alloc)?;
    keep(alloc, &mut conn, &made).ok()?;
    told_text(alloc, &mut conn)
}

#[test]
fn the_kept_scheme_is_told(rt: HostRuntime) {
    let alloc = rt.alloc();
    let mut conn = database(alloc).expect(&rt, "a database");
    same(&rt, &told_text(alloc, &mut conn), &Some(Ok(None)));
    let first: Later = &[];
    for later in [first, GROWN] {
        let made = later_scheme(alloc, later).expect(&rt, "a scheme");
        same(&rt, &keep(alloc, &mut conn, &made), &Ok(()));
        let text = text_of(alloc, later);
        same(&rt, &told_text(alloc, &mut conn), &Some(Ok(text)));
    }
    let many = many_devices(alloc, 256).expect(&rt, "a text");
    let told = told_of_many(alloc, &many);
    same(&rt, &told, &Some(Ok(Some(many))));
}

// What is told of the first scheme's kept tables once a statement has changed them.
fn told_after(alloc: Global, statement: &str) -> Option<Result<Option<Vec<u8>>, KeepFault>> {
    let made = later_scheme(alloc, &[])?;
    let mut conn = database(alloc)?;
    keep(alloc, &mut conn, &made).ok()?;
    conn.execute_batch(statement).ok()?;
    told_text(alloc, &mut conn)
}

// Lists that are of no lines, and lines that make no scheme.
#[test]
fn kept_tables_that_tell_no_scheme_are_unreadable(rt: HostRuntime) {
    const STATEMENTS: [&str; 5] = [
        "UPDATE kept_device SET station = 7",
        "UPDATE kept_owner SET owner = 0 WHERE owner = 1",
        "UPDATE kept_product SET fare = 200000 WHERE product = 1",
        "UPDATE kept_zone SET byte = 33 WHERE rowid = 1",
        "DELETE FROM kept_scheme",
    ];
    for &statement in &STATEMENTS {
        let told = told_after(rt.alloc(), statement);
        same(&rt, &told, &Some(Err(KeepFault::Unreadable)));
    }
}
