//! What requests over HTTP get of a hub at rest.
use crate::checking::same;
use crate::desk::{DAY, WHOLE, answered, bill, failing_hub, hub_with, settle, waits_between};
use fare_command::Question;
use fare_desk::DeskFault;
use fare_page::Desk;
use fare_record::{OwnerId, StationId};
use fare_serve::{BrokenLines, Counts, LineSeen, Progress, RefusedLines, Seen, Taken};
use fare_sessions::Hub;
use fare_store::{Ledger, Outbox, PlainLedger, PlainOutbox};
use http_server::{Config, Connection};
use std::alloc::Global;
use std::hash::RandomState;

// Counts of a hub of one owner.
fn counts_of(alloc: Global) -> Option<Counts> {
    let mut taken = Vec::new(alloc);
    let owner = OwnerId::new(1)?;
    taken.push(Taken { owner, count: 4 }).ok()?;
    Some(Counts {
        stored: 6,
        taken,
        left: 0,
    })
}

// What was seen of two stations, of which one has a line.
fn seen_of(alloc: Global) -> Option<Seen> {
    let up = LineSeen {
        station: StationId::new(1)?,
        is_up: true,
        last_frame: Some(1_700_000_000),
    };
    let down = LineSeen {
        station: StationId::new(2)?,
        is_up: false,
        last_frame: None,
    };
    Some(Seen {
        refused: RefusedLines {
            no_hello: 1,
            bad_version: 2,
            unknown_device: 3,
            failed: 4,
            no_greeting: 5,
            second: 6,
        },
        replaced: 7,
        broken: BrokenLines {
            failed: 8,
            unexpected: 9,
        },
        lines: Vec::from_array(alloc, [up, down]).ok()?,
        round_millis: Some(1_043),
        outbox_commits: 10,
        ledger_commits: 11,
    })
}

// How far serving has come behind three rounds.
fn progress_of(alloc: Global) -> Option<Progress> {
    Some(Progress {
        counts: counts_of(alloc)?,
        rounds: 3,
        seen: seen_of(alloc)?,
    })
}

// Answers what has come whole, at a desk.
fn advance<O: Outbox, L: Ledger>(connection: &mut Connection, desk: &mut Desk<'_, '_, O, L>) {
    connection.advance(desk);
}

// Answers what has come whole over a connection, of a hub and of how far serving has come.
fn answer_whole<O: Outbox, L: Ledger>(
    alloc: Global,
    connection: &mut Connection,
    hub: &mut Hub<O, L>,
    progress: &Progress,
) {
    let mut desk = Desk {
        alloc,
        hub,
        progress,
    };
    advance(connection, &mut desk);
    let Desk {
        alloc: _,
        hub: _,
        progress: _,
    } = desk;
}

// What a request gets.
pub(crate) fn told<O: Outbox, L: Ledger>(
    rt: &HostRuntime,
    hub: &mut Hub<O, L>,
    request: &[u8],
) -> Option<Vec<u8>> {
    let alloc = rt.alloc();
    let progress = progress_of(alloc)?;
    let mut connection = Connection::new(alloc, RandomState::new(rt).ok()?, Config::default());
    let mut unread = request;
    connection.read_from(&mut unread).ok()?;
    answer_whole(alloc, &mut connection, hub, &progress);
    let mut sent = Vec::new(alloc);
    connection.write_to(&mut sent).ok()?;
    Some(sent)
}

// Whether an answer has this status and ends with this body, which stands behind an empty line.
pub(crate) fn is_answer(answer: &[u8], status: &[u8], body: &[u8]) -> bool {
    let Some(rest) = answer.strip_prefix(b"HTTP/1.1 ") else {
        return false;
    };
    match rest.strip_suffix(body) {
        Some(front) => front.starts_with(status) && front.ends_with(b"\r\n\r\n"),
        None => false,
    }
}

// A request, its status and its body.
pub(crate) type Case = (&'static [u8], &'static [u8], &'static [u8]);

// The place of the first of these requests of one hub that gets something else.
pub(crate) fn first_wrong<O: Outbox, L: Ledger>(
    rt: &HostRuntime,
    hub: &mut Hub<O, L>,
    cases: &[Case],
) -> Option<usize> {
    for place in 0..cases.len() {
        let (request, status, body) = cases[place];
        let is_right = match told(rt, hub, request) {
            Some(answer) => is_answer(&answer, status, body),
            None => false,
        };
        if !is_right {
            return Some(place);
        }
    }
    None
}

#[test]
fn an_operator_asks_and_closes_over_http(rt: HostRuntime) {
    const CASES: [Case; 10] = [
        (
            b"GET /stand HTTP/1.1\r\nHost: 127.0.0.1:7\r\n\r\n",
            b"200 ",
            b"upto 1 0\nupto 2 0\nlane 1 1 taken 2 closed none rows 0 statements 0\nlane 1 2 taken 2 closed none rows 0 statements 0\n",
        ),
        (
            b"GET /bill?owner=1&day=19723 HTTP/1.1\r\nHost: localhost\r\n\r\n",
            b"409 ",
            b"refused NotClosed 1\n",
        ),
        (
            b"POST /close HTTP/1.1\r\nHost: localhost:80\r\n\r\n",
            b"403 ",
            b"refused Foreign\n",
        ),
        (
            b"POST /close HTTP/1.1\r\nHost: localhost:80\r\nX-Fare-Hub: 1\r\n\r\n",
            b"200 ",
            b"close 1 1 19723: closed 1 19723\nclose 1 1 19724: closed 1 19724\nclose 1 2 19723: closed 2 19723\nclose 1 2 19724: closed 2 19724\n",
        ),
        (
            b"POST /close HTTP/1.1\r\nHost: localhost:80\r\nX-Fare-Hub: 1\r\n\r\n",
            b"200 ",
            b"",
        ),
        (
            b"GET /bill?owner=1&day=19723 HTTP/1.1\r\nHost: localhost\r\n\r\n",
            b"200 ",
            b"bill 1 19723 1 525\naccount 1 77 4 525\n",
        ),
        (
            b"GET /settle?owner=1&day=19723 HTTP/1.1\r\nHost: localhost\r\n\r\n",
            b"200 ",
            b"settlement 1 19723 2\noperator 1 2 350\noperator 2 2 175\n",
        ),
        (
            b"GET /settle?owner=9&day=19722 HTTP/1.1\r\nHost: localhost\r\n\r\n",
            b"409 ",
            b"refused UnknownOwner\n",
        ),
        (
            b"GET /bill?owner=1&day=19722 HTTP/1.1\r\nHost: localhost\r\n\r\n",
            b"409 ",
            b"refused BeforeStart\n",
        ),
        (
            b"GET /metrics HTTP/1.1\r\nHost: localhost\r\n\r\n",
            b"200 ",
            b"# HELP fare_hub_rounds_total Rounds that were held since serving began.\n# TYPE fare_hub_rounds_total counter\nfare_hub_rounds_total 3\n# HELP fare_hub_stored_total Taps and statements that were stored since serving began.\n# TYPE fare_hub_stored_total counter\nfare_hub_stored_total 6\n# HELP fare_hub_left_total Items that were in a queue or a hand at the ends of sessions.\n# TYPE fare_hub_left_total counter\nfare_hub_left_total 0\n# HELP fare_hub_taken_total Taps and statements that an owner took since serving began.\n# TYPE fare_hub_taken_total counter\nfare_hub_taken_total{owner=\"1\"} 4\n# HELP fare_hub_lines_refused_total Lines that were refused since serving began, by the reason.\n# TYPE fare_hub_lines_refused_total counter\nfare_hub_lines_refused_total{reason=\"no_hello\"} 1\nfare_hub_lines_refused_total{reason=\"bad_version\"} 2\nfare_hub_lines_refused_total{reason=\"unknown_device\"} 3\nfare_hub_lines_refused_total{reason=\"failed\"} 4\nfare_hub_lines_refused_total{reason=\"no_greeting\"} 5\nfare_hub_lines_refused_total{reason=\"second\"} 6\n# HELP fare_hub_lines_broken_total Lines that broke since serving began, by the reason.\n# TYPE fare_hub_lines_broken_total counter\nfare_hub_lines_broken_total{reason=\"failed\"} 8\nfare_hub_lines_broken_total{reason=\"unexpected\"} 9\n# HELP fare_hub_lines_replaced_total Lines that another one of their station replaced since serving began.\n# TYPE fare_hub_lines_replaced_total counter\nfare_hub_lines_replaced_total 7\n# HELP fare_hub_line_up Whether the station has a line now.\n# TYPE fare_hub_line_up gauge\nfare_hub_line_up{station=\"1\"} 1\nfare_hub_line_up{station=\"2\"} 0\n# HELP fare_hub_line_last_frame_timestamp_seconds When the last round ended in which a frame came off the station's line.\n# TYPE fare_hub_line_last_frame_timestamp_seconds gauge\nfare_hub_line_last_frame_timestamp_seconds{station=\"1\"} 1700000000\n# HELP fare_hub_last_round_seconds How long the last round took.\n# TYPE fare_hub_last_round_seconds gauge\nfare_hub_last_round_seconds 1.043\n# HELP fare_hub_commits_total Commits of what stations sent and of what owners took since serving began, by the store.\n# TYPE fare_hub_commits_total counter\nfare_hub_commits_total{store=\"outbox\"} 10\nfare_hub_commits_total{store=\"ledgers\"} 11\n# HELP fare_hub_waiting_rows Taps in the outbox that an owner has not taken, of lanes that are not retired.\n# TYPE fare_hub_waiting_rows gauge\nfare_hub_waiting_rows{owner=\"1\"} 0\n# HELP fare_hub_waiting_statements Statements in the outbox of days that an owner has not closed, of lanes that are not retired.\n# TYPE fare_hub_waiting_statements gauge\nfare_hub_waiting_statements{owner=\"1\"} 0\n# HELP fare_hub_oldest_waiting_tap_timestamp_seconds When the earliest of the taps was made that wait for an owner, in seconds since 1970; no line where none waits.\n# TYPE fare_hub_oldest_waiting_tap_timestamp_seconds gauge\n# HELP fare_hub_device_info At which station a device stands.\n# TYPE fare_hub_device_info gauge\nfare_hub_device_info{device=\"1\",station=\"1\"} 1\nfare_hub_device_info{device=\"2\",station=\"2\"} 1\n",
        ),
    ];
    let mut hub = hub_with(rt.alloc(), WHOLE, WHOLE).expect(&rt, "hub");
    same(&rt, &first_wrong(&rt, &mut hub, &CASES), &None);
}

// A lane is retired once, by its owner and its device, and only by an order; then the closes pass it over, and the bill is
// short of it.
// Four rows wait, of which the earliest was made in the second second.
#[test]
fn what_waits_for_an_owner_is_in_the_metrics(rt: HostRuntime) {
    const END: &[u8] =
        b"# TYPE fare_hub_waiting_rows gauge\nfare_hub_waiting_rows{owner=\"1\"} 4\n# HELP fare_hub_waiting_statements Statements in the outbox of days that an owner has not closed, of lanes that are not retired.\n# TYPE fare_hub_waiting_statements gauge\nfare_hub_waiting_statements{owner=\"1\"} 0\n# HELP fare_hub_oldest_waiting_tap_timestamp_seconds When the earliest of the taps was made that wait for an owner, in seconds since 1970; no line where none waits.\n# TYPE fare_hub_oldest_waiting_tap_timestamp_seconds gauge\nfare_hub_oldest_waiting_tap_timestamp_seconds{owner=\"1\"} 1704096002\n# HELP fare_hub_device_info At which station a device stands.\n# TYPE fare_hub_device_info gauge\nfare_hub_device_info{device=\"1\",station=\"1\"} 1\nfare_hub_device_info{device=\"2\",station=\"2\"} 1\n";
    let mut hub = waits_between(rt.alloc(), (3, 1), (2, 0)).expect(&rt, "hub");
    let request = b"GET /metrics HTTP/1.1\r\nHost: localhost\r\n\r\n";
    let answer = told(&rt, &mut hub, request).expect(&rt, "answer");
    same(&rt, &answer.ends_with(END), &true);
}

#[test]
fn an_operator_retires_a_lane_over_http(rt: HostRuntime) {
    const CASES: [Case; 8] = [
        (
            b"POST /retire?owner=1&device=1 HTTP/1.1\r\nHost: localhost\r\n\r\n",
            b"403 ",
            b"refused Foreign\n",
        ),
        (
            b"POST /retire?owner=9&device=9 HTTP/1.1\r\nHost: localhost\r\nX-Fare-Hub: 1\r\n\r\n",
            b"409 ",
            b"refused UnknownOwner\n",
        ),
        (
            b"POST /retire?owner=1&device=9 HTTP/1.1\r\nHost: localhost\r\nX-Fare-Hub: 1\r\n\r\n",
            b"409 ",
            b"refused UnknownDevice\n",
        ),
        (
            b"POST /retire?owner=1&device=1 HTTP/1.1\r\nHost: localhost\r\nX-Fare-Hub: 1\r\n\r\n",
            b"200 ",
            b"retired 1\n",
        ),
        (
            b"POST /retire?owner=1&device=1 HTTP/1.1\r\nHost: localhost\r\nX-Fare-Hub: 1\r\n\r\n",
            b"409 ",
            b"refused Retired\n",
        ),
        (
            b"POST /close HTTP/1.1\r\nHost: localhost\r\nX-Fare-Hub: 1\r\n\r\n",
            b"200 ",
            b"close 1 2 19723: closed 2 19723\nclose 1 2 19724: closed 2 19724\n",
        ),
        (
            b"GET /bill?owner=1&day=19723 HTTP/1.1\r\nHost: localhost\r\n\r\n",
            b"200 ",
            b"bill 1 19723 1 525\naccount 1 77 4 525\nshort 1\n",
        ),
        (
            b"GET /stand HTTP/1.1\r\nHost: localhost\r\n\r\n",
            b"200 ",
            b"upto 1 0\nupto 2 0\nlane 1 1 taken 2 closed none rows 0 statements 0 retired\nlane 1 2 taken 2 closed 19724 rows 0 statements 0\n",
        ),
    ];
    let mut hub = hub_with(rt.alloc(), WHOLE, WHOLE).expect(&rt, "hub");
    same(&rt, &first_wrong(&rt, &mut hub, &CASES), &None);
}

// Of two reasons the first is told: whose the request is, its path, its method, the field of an order, its words.
#[test]
fn what_is_no_request_of_this_machine_is_refused(rt: HostRuntime) {
    const FOREIGN: &[u8] = b"refused Foreign\n";
    const NOWHERE: &[u8] = b"refused Nowhere\n";
    const CASES: [Case; 10] = [
        (
            b"GET / HTTP/1.1\r\nHost: evil.example\r\n\r\n",
            b"403 ",
            FOREIGN,
        ),
        (
            b"GET / HTTP/1.1\r\nHost: 127.0.0.1.evil.example\r\n\r\n",
            b"403 ",
            FOREIGN,
        ),
        (
            b"GET / HTTP/1.1\r\nHost: localhost.evil\r\n\r\n",
            b"403 ",
            FOREIGN,
        ),
        (b"GET / HTTP/1.1\r\nHost:\r\n\r\n", b"403 ", FOREIGN),
        (
            b"GET http://evil.example/ HTTP/1.1\r\nHost: localhost\r\n\r\n",
            b"403 ",
            FOREIGN,
        ),
        (
            b"GET /stan HTTP/1.1\r\nHost: localhost\r\nSec-Fetch-Site: cross-site\r\n\r\n",
            b"403 ",
            FOREIGN,
        ),
        (
            b"POST /close HTTP/1.1\r\nHost: localhost\r\nX-Fare-Hub: 2\r\n\r\n",
            b"403 ",
            FOREIGN,
        ),
        (
            b"POST /retire HTTP/1.1\r\nHost: localhost\r\n\r\n",
            b"403 ",
            FOREIGN,
        ),
        (
            b"GET /stan HTTP/1.1\r\nHost: localhost\r\n\r\n",
            b"404 ",
            NOWHERE,
        ),
        (
            b"POST /close/ HTTP/1.1\r\nHost: localhost\r\nX-Fare-Hub: 1\r\n\r\n",
            b"404 ",
            NOWHERE,
        ),
    ];
    let mut hub = hub_with(rt.alloc(), WHOLE, WHOLE).expect(&rt, "hub");
    same(&rt, &first_wrong(&rt, &mut hub, &CASES), &None);
}

#[test]
fn a_wrong_method_or_wrong_words_are_refused(rt: HostRuntime) {
    const POST: &[u8] = b"refused WantsPost\n";
    const GET: &[u8] = b"refused WantsGet\n";
    const WORDS: &[u8] = b"refused Words\n";
    const CASES: [Case; 11] = [
        (
            b"GET /close HTTP/1.1\r\nHost: localhost\r\nX-Fare-Hub: 1\r\n\r\n",
            b"405 ",
            POST,
        ),
        (
            b"GET /retire?owner=1&device=1 HTTP/1.1\r\nHost: localhost\r\n\r\n",
            b"405 ",
            POST,
        ),
        (
            b"POST /stand HTTP/1.1\r\nHost: localhost\r\nX-Fare-Hub: 1\r\n\r\n",
            b"405 ",
            GET,
        ),
        (
            b"POST /bill HTTP/1.1\r\nHost: localhost\r\n\r\n",
            b"405 ",
            GET,
        ),
        (
            b"GET /bill HTTP/1.1\r\nHost: localhost\r\n\r\n",
            b"400 ",
            WORDS,
        ),
        (
            b"GET /bill?owner=0&day=1 HTTP/1.1\r\nHost: localhost\r\n\r\n",
            b"400 ",
            WORDS,
        ),
        (
            b"GET /bill?owner=1&day=100001 HTTP/1.1\r\nHost: localhost\r\n\r\n",
            b"400 ",
            WORDS,
        ),
        (
            b"GET /settle?owner=1&day=x HTTP/1.1\r\nHost: localhost\r\n\r\n",
            b"400 ",
            WORDS,
        ),
        (
            b"GET /settle?day=1&owner=1 HTTP/1.1\r\nHost: localhost\r\n\r\n",
            b"400 ",
            WORDS,
        ),
        (
            b"POST /retire?owner=1&device=0 HTTP/1.1\r\nHost: localhost\r\nX-Fare-Hub: 1\r\n\r\n",
            b"400 ",
            WORDS,
        ),
        (
            b"POST /retire?owner=1&day=1 HTTP/1.1\r\nHost: localhost\r\nX-Fare-Hub: 1\r\n\r\n",
            b"400 ",
            WORDS,
        ),
    ];
    let mut hub = hub_with(rt.alloc(), WHOLE, WHOLE).expect(&rt, "hub");
    same(&rt, &first_wrong(&rt, &mut hub, &CASES), &None);
}

// Whether a request gets what the same question writes.
fn is_told_as(
    rt: &HostRuntime,
    hub: &mut Hub<PlainOutbox, PlainLedger>,
    request: &[u8],
    question: Option<Question>,
) -> Option<bool> {
    let (ended, said) = answered(rt.alloc(), hub, question?)?;
    let answer = told(rt, hub, request)?;
    Some(ended.is_ok() && is_answer(&answer, b"200 ", &said))
}

#[test]
fn a_question_is_answered_as_on_the_command_line(rt: HostRuntime) {
    let alloc = rt.alloc();
    let mut hub = hub_with(alloc, WHOLE, WHOLE).expect(&rt, "hub");
    let (closed, _) = answered(alloc, &mut hub, Question::Close).expect(&rt, "closes");
    let wanted: Result<(), DeskFault> = Ok(());
    same(&rt, &closed, &wanted);
    let told = is_told_as(
        &rt,
        &mut hub,
        b"GET /bill?owner=1&day=19723 HTTP/1.1\r\nHost: localhost\r\n\r\n",
        bill(1, DAY),
    );
    same(&rt, &told, &Some(true));
    let told = is_told_as(
        &rt,
        &mut hub,
        b"GET /settle?owner=1&day=19723 HTTP/1.1\r\nHost: localhost\r\n\r\n",
        settle(1, DAY),
    );
    same(&rt, &told, &Some(true));
    let told = is_told_as(
        &rt,
        &mut hub,
        b"GET /stand HTTP/1.1\r\nHost: localhost\r\n\r\n",
        Some(Question::Stand),
    );
    same(&rt, &told, &Some(true));
}

// A ledger that fails is told by the status and a line, behind the lines of what was closed before; asked again the lane is
// retired.
#[test]
fn a_ledger_that_fails_is_told_by_status_and_line(rt: HostRuntime) {
    // The call of the ledger that fails, a request, and the body.
    const WANTED: [(u64, &[u8], &[u8]); 6] = [
        (
            1,
            b"GET /bill?owner=1&day=19723 HTTP/1.1\r\nHost: localhost\r\n\r\n",
            b"store failed\n",
        ),
        (
            1,
            b"GET /settle?owner=1&day=19723 HTTP/1.1\r\nHost: localhost\r\n\r\n",
            b"store failed\n",
        ),
        (
            1,
            b"GET /stand HTTP/1.1\r\nHost: localhost\r\n\r\n",
            b"store failed\n",
        ),
        (
            1,
            b"GET /metrics HTTP/1.1\r\nHost: localhost\r\n\r\n",
            b"store failed\n",
        ),
        (
            1,
            b"POST /close HTTP/1.1\r\nHost: localhost\r\nX-Fare-Hub: 1\r\n\r\n",
            b"store failed\n",
        ),
        (
            5,
            b"POST /close HTTP/1.1\r\nHost: localhost\r\nX-Fare-Hub: 1\r\n\r\n",
            b"close 1 1 19723: closed 1 19723\nstore failed\n",
        ),
    ];
    for (call, request, body) in &WANTED {
        let mut hub = failing_hub(rt.alloc(), *call).expect(&rt, "hub");
        let answer = told(&rt, &mut hub, request).expect(&rt, "answer");
        same(&rt, &is_answer(&answer, b"500 ", body), &true);
    }
    const RETIRE: [Case; 2] = [
        (
            b"POST /retire?owner=1&device=2 HTTP/1.1\r\nHost: localhost\r\nX-Fare-Hub: 1\r\n\r\n",
            b"500 ",
            b"store failed\n",
        ),
        (
            b"POST /retire?owner=1&device=2 HTTP/1.1\r\nHost: localhost\r\nX-Fare-Hub: 1\r\n\r\n",
            b"200 ",
            b"retired 2\n",
        ),
    ];
    let mut hub = failing_hub(rt.alloc(), 1).expect(&rt, "hub");
    same(&rt, &first_wrong(&rt, &mut hub, &RETIRE), &None);
}
