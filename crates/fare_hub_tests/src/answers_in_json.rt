//! What requests over HTTP get of a hub at rest that want JSON.
use crate::checking::same;
use crate::desk::{WHOLE, failing_hub, hub_with};
use crate::page::{Case, first_wrong, is_answer, told};
use fare_sessions::Hub;
use fare_store::{Ledger, Outbox};

// Whether an answer says that its body is JSON.
fn says_json(answer: &[u8]) -> bool {
    match std::str::from_utf8(answer) {
        Ok(text) => text.contains("\r\ncontent-type: application/json\r\n"),
        Err(_) => false,
    }
}

// The place of the first of these requests of one hub that gets something else than this JSON.
fn first_unlike<O: Outbox, L: Ledger>(
    rt: &HostRuntime,
    hub: &mut Hub<O, L>,
    cases: &[Case],
) -> Option<usize> {
    for place in 0..cases.len() {
        let (request, status, body) = cases[place];
        let is_right = match told(rt, hub, request) {
            Some(answer) => says_json(&answer) && is_answer(&answer, status, body),
            None => false,
        };
        if !is_right {
            return Some(place);
        }
    }
    None
}

#[test]
fn an_operator_asks_and_closes_in_json(rt: HostRuntime) {
    const CASES: [Case; 7] = [
        (
            b"GET /stand HTTP/1.1\r\nHost: localhost\r\nAccept: application/json\r\n\r\n",
            b"200 ",
            br#"[{"kind":"upto","device":1,"link":0},{"kind":"upto","device":2,"link":0},{"kind":"lane","owner":1,"device":1,"taken":2,"closed":null,"rows":0,"statements":0,"retired":false,"from":null},{"kind":"lane","owner":1,"device":2,"taken":2,"closed":null,"rows":0,"statements":0,"retired":false,"from":null}]"#,
        ),
        (
            b"GET /bill?owner=1&day=19723 HTTP/1.1\r\nHost: localhost\r\nAccept: application/json\r\n\r\n",
            b"409 ",
            br#"[{"kind":"refused","why":"NotClosed","device":1}]"#,
        ),
        (
            b"POST /close HTTP/1.1\r\nHost: localhost\r\nAccept: application/json\r\nX-Fare-Hub: 1\r\n\r\n",
            b"200 ",
            br#"[{"kind":"close","owner":1,"device":1,"day":19723,"refused":null},{"kind":"close","owner":1,"device":1,"day":19724,"refused":null},{"kind":"close","owner":1,"device":2,"day":19723,"refused":null},{"kind":"close","owner":1,"device":2,"day":19724,"refused":null}]"#,
        ),
        (
            b"POST /close HTTP/1.1\r\nHost: localhost\r\nAccept: application/json\r\nX-Fare-Hub: 1\r\n\r\n",
            b"200 ",
            b"[]",
        ),
        (
            b"GET /bill?owner=1&day=19723 HTTP/1.1\r\nHost: localhost\r\nAccept: application/json\r\n\r\n",
            b"200 ",
            br#"[{"kind":"bill","owner":1,"day":19723,"accounts":1,"total":525},{"kind":"account","product":1,"token":77,"rides":4,"amount":525}]"#,
        ),
        (
            b"GET /settle?owner=1&day=19723 HTTP/1.1\r\nHost: localhost\r\nAccept: application/json\r\n\r\n",
            b"200 ",
            br#"[{"kind":"settlement","owner":1,"day":19723,"operators":2},{"kind":"operator","operator":1,"taps":2,"amount":350},{"kind":"operator","operator":2,"taps":2,"amount":175}]"#,
        ),
        (
            b"GET /stand HTTP/1.1\r\nHost: localhost\r\nAccept: application/json\r\n\r\n",
            b"200 ",
            br#"[{"kind":"upto","device":1,"link":0},{"kind":"upto","device":2,"link":0},{"kind":"lane","owner":1,"device":1,"taken":2,"closed":19724,"rows":0,"statements":0,"retired":false,"from":null},{"kind":"lane","owner":1,"device":2,"taken":2,"closed":19724,"rows":0,"statements":0,"retired":false,"from":null}]"#,
        ),
    ];
    let mut hub = hub_with(rt.alloc(), WHOLE, WHOLE).expect(&rt, "hub");
    same(&rt, &first_unlike(&rt, &mut hub, &CASES), &None);
}

#[test]
fn an_operator_retires_a_lane_in_json(rt: HostRuntime) {
    const CASES: [Case; 5] = [
        (
            b"POST /retire?owner=1&device=1 HTTP/1.1\r\nHost: localhost\r\nAccept: application/json\r\nX-Fare-Hub: 1\r\n\r\n",
            b"200 ",
            br#"[{"kind":"retired","device":1}]"#,
        ),
        (
            b"POST /retire?owner=1&device=1 HTTP/1.1\r\nHost: localhost\r\nAccept: application/json\r\nX-Fare-Hub: 1\r\n\r\n",
            b"409 ",
            br#"[{"kind":"refused","why":"Retired"}]"#,
        ),
        (
            b"POST /close HTTP/1.1\r\nHost: localhost\r\nAccept: application/json\r\nX-Fare-Hub: 1\r\n\r\n",
            b"200 ",
            br#"[{"kind":"close","owner":1,"device":2,"day":19723,"refused":null},{"kind":"close","owner":1,"device":2,"day":19724,"refused":null}]"#,
        ),
        (
            b"GET /bill?owner=1&day=19723 HTTP/1.1\r\nHost: localhost\r\nAccept: application/json\r\n\r\n",
            b"200 ",
            br#"[{"kind":"bill","owner":1,"day":19723,"accounts":1,"total":525},{"kind":"account","product":1,"token":77,"rides":4,"amount":525},{"kind":"short","device":1}]"#,
        ),
        (
            b"GET /stand HTTP/1.1\r\nHost: localhost\r\nAccept: application/json\r\n\r\n",
            b"200 ",
            br#"[{"kind":"upto","device":1,"link":0},{"kind":"upto","device":2,"link":0},{"kind":"lane","owner":1,"device":1,"taken":2,"closed":null,"rows":0,"statements":0,"retired":true,"from":null},{"kind":"lane","owner":1,"device":2,"taken":2,"closed":19724,"rows":0,"statements":0,"retired":false,"from":null}]"#,
        ),
    ];
    let mut hub = hub_with(rt.alloc(), WHOLE, WHOLE).expect(&rt, "hub");
    same(&rt, &first_unlike(&rt, &mut hub, &CASES), &None);
}

#[test]
fn refusals_and_mistakes_are_told_in_json(rt: HostRuntime) {
    const CASES: [Case; 9] = [
        (
            b"GET /settle?owner=9&day=19722 HTTP/1.1\r\nHost: localhost\r\nAccept: application/json\r\n\r\n",
            b"409 ",
            br#"[{"kind":"refused","why":"UnknownOwner"}]"#,
        ),
        (
            b"GET /bill?owner=1&day=19722 HTTP/1.1\r\nHost: localhost\r\nAccept: application/json\r\n\r\n",
            b"409 ",
            br#"[{"kind":"refused","why":"BeforeStart"}]"#,
        ),
        (
            b"GET /settle?owner=1&day=19723 HTTP/1.1\r\nHost: localhost\r\nAccept: application/json\r\n\r\n",
            b"409 ",
            br#"[{"kind":"refused","why":"NotClosed","device":1}]"#,
        ),
        (
            b"POST /retire?owner=1&device=9 HTTP/1.1\r\nHost: localhost\r\nAccept: application/json\r\nX-Fare-Hub: 1\r\n\r\n",
            b"409 ",
            br#"[{"kind":"refused","why":"UnknownDevice"}]"#,
        ),
        (
            b"GET /stand HTTP/1.1\r\nHost: evil.example\r\nAccept: application/json\r\n\r\n",
            b"403 ",
            br#"[{"kind":"refused","why":"Foreign"}]"#,
        ),
        (
            b"GET /stan HTTP/1.1\r\nHost: localhost\r\nAccept: application/json\r\n\r\n",
            b"404 ",
            br#"[{"kind":"refused","why":"Nowhere"}]"#,
        ),
        (
            b"GET /close HTTP/1.1\r\nHost: localhost\r\nAccept: application/json\r\n\r\n",
            b"405 ",
            br#"[{"kind":"refused","why":"WantsPost"}]"#,
        ),
        (
            b"POST /bill HTTP/1.1\r\nHost: localhost\r\nAccept: application/json\r\n\r\n",
            b"405 ",
            br#"[{"kind":"refused","why":"WantsGet"}]"#,
        ),
        (
            b"GET /bill HTTP/1.1\r\nHost: localhost\r\nAccept: application/json\r\n\r\n",
            b"400 ",
            br#"[{"kind":"refused","why":"Words"}]"#,
        ),
    ];
    let mut hub = hub_with(rt.alloc(), WHOLE, WHOLE).expect(&rt, "hub");
    same(&rt, &first_unlike(&rt, &mut hub, &CASES), &None);
}

// JSON is wanted where one of the media ranges is it, whatever its case, its blanks and its parameters.
#[test]
fn json_is_wanted_by_its_name(rt: HostRuntime) {
    const JSON: &[u8] = br#"[{"kind":"refused","why":"Nowhere"}]"#;
    const TEXT: &[u8] = b"refused Nowhere\n";
    const WANTED: [Case; 4] = [
        (
            b"GET /x HTTP/1.1\r\nHost: localhost\r\nAccept: APPLICATION/Json\r\n\r\n",
            b"404 ",
            JSON,
        ),
        (
            b"GET /x HTTP/1.1\r\nHost: localhost\r\nAccept: text/plain, application/json;q=0.5\r\n\r\n",
            b"404 ",
            JSON,
        ),
        (
            b"GET /x HTTP/1.1\r\nHost: localhost\r\naccept: application/json ; charset=utf-8 , */*\r\n\r\n",
            b"404 ",
            JSON,
        ),
        (
            b"GET /x HTTP/1.1\r\nHost: localhost\r\nAccept: application/json\r\nAccept: text/plain\r\n\r\n",
            b"404 ",
            JSON,
        ),
    ];
    const UNWANTED: [Case; 7] = [
        (b"GET /x HTTP/1.1\r\nHost: localhost\r\n\r\n", b"404 ", TEXT),
        (
            b"GET /x HTTP/1.1\r\nHost: localhost\r\nAccept: */*\r\n\r\n",
            b"404 ",
            TEXT,
        ),
        (
            b"GET /x HTTP/1.1\r\nHost: localhost\r\nAccept: text/html,*/*\r\n\r\n",
            b"404 ",
            TEXT,
        ),
        (
            b"GET /x HTTP/1.1\r\nHost: localhost\r\nAccept: application/*\r\n\r\n",
            b"404 ",
            TEXT,
        ),
        (
            b"GET /x HTTP/1.1\r\nHost: localhost\r\nAccept: application/jsonl, text/json\r\n\r\n",
            b"404 ",
            TEXT,
        ),
        (
            b"GET /x HTTP/1.1\r\nHost: localhost\r\nAccept: text/plain;p=application/json\r\n\r\n",
            b"404 ",
            TEXT,
        ),
        (
            b"GET /x HTTP/1.1\r\nHost: localhost\r\nAccept: text/plain\r\nAccept: application/json\r\n\r\n",
            b"404 ",
            TEXT,
        ),
    ];
    let mut hub = hub_with(rt.alloc(), WHOLE, WHOLE).expect(&rt, "hub");
    same(&rt, &first_unlike(&rt, &mut hub, &WANTED), &None);
    same(&rt, &first_wrong(&rt, &mut hub, &UNWANTED), &None);
}

// The counts have one form.
#[test]
fn the_counts_are_no_json(rt: HostRuntime) {
    let mut hub = hub_with(rt.alloc(), WHOLE, WHOLE).expect(&rt, "hub");
    let metrics = b"GET /metrics HTTP/1.1\r\nHost: localhost\r\nAccept: application/json\r\n\r\n";
    let answer = told(&rt, &mut hub, metrics).expect(&rt, "answer");
    same(&rt, &says_json(&answer), &false);
    let plain = b"GET /metrics HTTP/1.1\r\nHost: localhost\r\n\r\n";
    let wanted = told(&rt, &mut hub, plain).expect(&rt, "answer");
    same(&rt, &answer, &wanted);
}

// That a store failed is told by the status and a line.
#[test]
fn a_ledger_that_fails_has_no_json(rt: HostRuntime) {
    const BILL: [Case; 1] = [(
        b"GET /bill?owner=1&day=19723 HTTP/1.1\r\nHost: localhost\r\nAccept: application/json\r\n\r\n",
        b"500 ",
        b"store failed\n",
    )];
    let mut hub = failing_hub(rt.alloc(), 1).expect(&rt, "hub");
    same(&rt, &first_wrong(&rt, &mut hub, &BILL), &None);
}
