//! Lists of sessions on a hub, and its bills and closes.
use crate::checking::same;
use crate::given::{ack, day_ack, ledger_of, sixteen};
use fare_cap::Bill;
use fare_collect::stations_of;
use fare_frame::Frame;
use fare_owner::CloseFault;
use fare_record::{Day, DeviceId, OwnerId, StationId};
use fare_samples::statement;
use fare_scheme::Scheme;
use fare_scripts::{
    Open, Placed, Script, Seen, collected_and_served, hub_of, narrow, scripts_of, seen_in,
    sources_in, sources_of, whole,
};
use fare_session::{Pace, SessionFault};
use fare_sessions::{BillingFault, ClosingFault, Hub, Session};
use fare_settle::Settlement;
use fare_store::{
    FailingLedger, FailingOutbox, Fault, Ledger, Outbox, PlainLedger, PlainOutbox, Refused,
};
use fare_supervisor::Supervisor;
use fare_world::BillFault;
use std::alloc::Global;
use std::sync::Wait;
use std::thread::Threads;
use std::time::Clock;

// The same over stores in memory.
fn plain_hub(alloc: Global, scheme: Scheme) -> Option<Hub<PlainOutbox, PlainLedger>> {
    let ledger = ledger_of(alloc, &scheme)?;
    hub_of(alloc, scheme, PlainOutbox::new(alloc), ledger)
}

// Whether each source was answered this number of its device last.
fn end_with(sources: &[Script], upto: u64) -> bool {
    for place in 0..sources.len() {
        let answer = sources[place].answered.last().copied();
        if answer != ack(place as u64 + 1, upto) {
            return false;
        }
    }
    true
}

#[test]
fn an_owner_takes_what_two_stations_stored(rt: HostRuntime) {
    let alloc = rt.alloc();
    let scheme = narrow(alloc).expect(&rt, "scheme");
    let mut hub = plain_hub(alloc, scheme).expect(&rt, "hub");
    let sources = scripts_of(alloc, 2, &[1, 2]).expect(&rt, "sources");
    let (got, sources) = collected_and_served(&rt, alloc, &mut hub, sources, 0).expect(
        &rt, "sessions",
    );
    same(&rt, &(got, sources.len()), &(whole(4, 4), 2));
    assert!(rt; end_with(&sources, 2));
}

#[test]
fn an_owner_takes_what_sixteen_stations_stored(rt: HostRuntime) {
    let alloc = rt.alloc();
    let scheme = sixteen(alloc).expect(&rt, "scheme");
    let mut hub = plain_hub(alloc, scheme).expect(&rt, "hub");
    let sources = scripts_of(alloc, 16, &[1, 2]).expect(&rt, "sources");
    let (got, sources) = collected_and_served(&rt, alloc, &mut hub, sources, 0).expect(
        &rt, "sessions",
    );
    same(&rt, &(got, sources.len()), &(whole(32, 32), 16));
    assert!(rt; end_with(&sources, 2));
}

/// A question about an owner's day, by the owner's and the day's number.
#[derive(Clone, Copy)]
enum Question {
    Bill(u64, u64),
    Settlement(u64, u64),
    // Of this device.
    Close(u64, u64, u64),
}

/// Why it is not answered.
#[derive(Clone, Copy, PartialEq, Eq, Debug)]
enum Why {
    Bill(Refused<BillingFault>),
    Closing(Refused<ClosingFault>),
}

fn bill<O: Outbox, L: Ledger>(
    alloc: Global,
    hub: &mut Hub<O, L>,
    owner: u64,
    day: u64,
) -> Option<Result<Bill, Why>> {
    if hub.ledgers.len() != hub.scheme.owner_count() {
        return None;
    }
    match hub.bill(alloc, OwnerId::new(owner)?, Day::new(day)?) {
        Ok((bill, short)) if short.is_empty() => Some(Ok(bill)),
        Ok(_) => None,
        Err(why) => Some(Err(Why::Bill(why))),
    }
}

fn settlement<O: Outbox, L: Ledger>(
    alloc: Global,
    hub: &mut Hub<O, L>,
    owner: u64,
    day: u64,
) -> Option<Result<Settlement, Why>> {
    if hub.ledgers.len() != hub.scheme.owner_count() {
        return None;
    }
    match hub.settlement(alloc, OwnerId::new(owner)?, Day::new(day)?) {
        Ok((settlement, short)) if short.is_empty() => Some(Ok(settlement)),
        Ok(_) => None,
        Err(why) => Some(Err(Why::Bill(why))),
    }
}

fn close<O: Outbox, L: Ledger>(
    hub: &mut Hub<O, L>,
    owner: u64,
    device: u64,
    day: u64,
) -> Option<Result<(), Why>> {
    if hub.ledgers.len() != hub.scheme.owner_count() {
        return None;
    }
    match hub.close(OwnerId::new(owner)?, DeviceId::new(device)?, Day::new(day)?) {
        Ok(()) => Some(Ok(())),
        Err(why) => Some(Err(Why::Closing(why))),
    }
}

// Why a question is not answered, if it isn't.
fn refusal<O: Outbox, L: Ledger>(
    alloc: Global,
    hub: &mut Hub<O, L>,
    question: Question,
) -> Option<Why> {
    match question {
        Question::Bill(owner, day) => bill(alloc, hub, owner, day)?.err(),
        Question::Settlement(owner, day) => settlement(alloc, hub, owner, day)?.err(),
        Question::Close(owner, device, day) => close(hub, owner, device, day)?.err(),
    }
}

fn not_closed(device: u64) -> Option<Why> {
    let device = DeviceId::new(device)?;
    billed(BillFault::NotClosed { device })
}

// The day of these frames, and of the statement of two taps behind them.
const DAY: u64 = 19_723;

// A source for each of two devices, of two taps of the day and then its statement.
fn stating(alloc: Global) -> Option<Vec<Script>> {
    let mut sources = scripts_of(alloc, 2, &[1, 2])?;
    for place in 0..sources.len() {
        let stated = Frame::Stated(statement(place as u64 + 1, DAY, 1, 2)?);
        sources[place].frames.insert(0, stated).ok()?;
    }
    Some(sources)
}

// How many accounts a bill has, the rides of the first, and the total.
fn read(bill: &Bill) -> Option<(usize, u64, u128)> {
    let rows = bill.rows();
    Some((rows.len(), rows.first()?.rides, bill.total()))
}

// The shares of a settlement of two operators: operator, taps and amount of each.
fn shares(settlement: &Settlement) -> Option<[(u16, u64, u128); 2]> {
    let [first, second] = settlement.shares() else {
        return None;
    };
    Some([
        (first.operator().get(), first.taps(), first.amount()),
        (second.operator().get(), second.taps(), second.amount()),
    ])
}

// A day has a bill once the owner has closed it of each device; until then the first device of which it isn't closed
// is named. The fares of the four rides of one account come to the daily cap.
#[test]
fn a_day_that_is_closed_has_a_bill(rt: HostRuntime) {
    let alloc = rt.alloc();
    let scheme = narrow(alloc).expect(&rt, "scheme");
    let mut hub = plain_hub(alloc, scheme).expect(&rt, "hub");
    let sources = stating(alloc).expect(&rt, "sources");
    let (got, sources) = collected_and_served(&rt, alloc, &mut hub, sources, 0).expect(
        &rt, "sessions",
    );
    same(&rt, &got, &whole(6, 6));
    for place in 0..sources.len() {
        let device = place as u64 + 1;
        same(
            &rt,
            &sources[place].last_two(),
            &(day_ack(device, DAY), ack(device, 2)),
        );
        for question in [Question::Bill(1, DAY), Question::Settlement(1, DAY)] {
            same(
                &rt,
                &refusal(alloc, &mut hub, question),
                &not_closed(device),
            );
        }
        same(&rt, &close(&mut hub, 1, device, DAY), &Some(Ok(())));
    }
    let closed = Why::Closing(Refused::Because(ClosingFault::Ledger(CloseFault::AlreadyClosed)));
    same(&rt, &close(&mut hub, 1, 1, DAY), &Some(Err(closed)));
    let bill = bill(alloc, &mut hub, 1, DAY)
        .expect(&rt, "day")
        .expect(&rt, "bill");
    same(&rt, &read(&bill), &Some((1, 4, 525)));
    let settlement = settlement(alloc, &mut hub, 1, DAY)
        .expect(&rt, "day")
        .expect(&rt, "shares");
    same(&rt, &shares(&settlement), &Some([(1, 2, 350), (2, 2, 175)]));
}

// A call that is never made.
const NEVER: u64 = 1_000_000;

/// Where a list of four sessions fails: one of the stations and one of the owner, and both again.
#[derive(Clone, Copy)]
struct Failing {
    // At which of its calls each source of the first session fails, and of the third; 0 for none.
    first: [u64; 2],
    third: [u64; 2],
    // At which of their calls the stores fail.
    outbox: u64,
    ledger: u64,
    // How many faults the supervisor answers with a restart.
    limit: u32,
}

fn at_sources(first: [u64; 2], third: [u64; 2], limit: u32) -> Failing {
    Failing {
        first,
        third,
        outbox: NEVER,
        ledger: NEVER,
        limit,
    }
}

fn at_stores(outbox: u64, ledger: u64, limit: u32) -> Failing {
    Failing {
        first: [0, 0],
        third: [0, 0],
        outbox,
        ledger,
        limit,
    }
}

// Two sources of two taps each, which fail so.
fn failing_sources(alloc: Global, calls: [u64; 2]) -> Option<Vec<Script>> {
    let mut sources = scripts_of(alloc, 2, &[1, 2])?;
    let [first, second] = sources.as_mut_slice() else {
        return None;
    };
    first.left = calls[0];
    second.left = calls[1];
    Some(sources)
}

// A session of the stations and one of owner 1, and both again, and the sources of the third session.
fn four_sessions<O: Outbox + Send, L: Ledger + Send, R: Threads + Wait + Clock + Sync>(
    rt: &R,
    alloc: Global,
    hub: &mut Hub<O, L>,
    first: Vec<Script>,
    third: Vec<Script>,
    limit: u32,
) -> Option<(Seen, Vec<Script>)> {
    let owner = OwnerId::new(1)?;
    hub.scheme.owner_position(owner)?;
    let first = stations_of(alloc, &hub.scheme, first).ok()?;
    let third = stations_of(alloc, &hub.scheme, third).ok()?;
    if first.len() > 16 || third.len() > 16 || hub.ledgers.len() != hub.scheme.owner_count() {
        return None;
    }
    let mut sessions = [
        Session::Collect(first),
        Session::Serve(owner),
        Session::Collect(third),
        Session::Serve(owner),
    ];
    let supervisor = Supervisor::new(limit);
    let pace = Pace {
        rt,
        gate: &Open,
        turns: 1_000_000,
    };
    let report = hub.sessions(&pace, alloc, &mut sessions, supervisor).ok()?;
    let [first, second, third, fourth] = sessions;
    drop(first);
    drop(second);
    drop(fourth);
    Some((seen_in(&report), sources_in(alloc, third)?))
}

// What is to be seen of such sessions that fail so, and how many frames the sources of the third one gave.
fn failed<R: Threads + Wait + Clock + Sync>(
    rt: &R,
    alloc: Global,
    failing: Failing,
) -> Option<(Seen, usize)> {
    let scheme = narrow(alloc)?;
    let ledger = FailingLedger::new(ledger_of(alloc, &scheme)?, failing.ledger.max(1));
    let outbox = FailingOutbox::new(PlainOutbox::new(alloc), failing.outbox.max(1));
    let mut hub = hub_of(alloc, scheme, outbox, ledger)?;
    let first = failing_sources(alloc, failing.first)?;
    let third = failing_sources(alloc, failing.third)?;
    let (got, third) = four_sessions(rt, alloc, &mut hub, first, third, failing.limit)?;
    let given = third.iter().fold(
        0_usize,
        |sum, source| sum.saturating_add(source.given.len()),
    );
    Some((got, given))
}

// The fault of a source, by the number of its station.
fn of_source(place: usize, station: u64) -> Placed {
    Some((place, SessionFault::Source(StationId::new(station)?)))
}

fn of_store(place: usize) -> Placed {
    Some((place, SessionFault::Store))
}

// Sessions with these faults, after the last of which the supervisor gave up.
fn gave_up(stored: u64, taken: u64, first: Placed, second: Placed) -> Seen {
    Seen {
        stored,
        taken,
        left: 0,
        faults: [first, second, None],
        gave_up: true,
    }
}

// Sessions with these faults that all ran.
fn went_on(stored: u64, taken: u64, first: Placed, second: Placed) -> Seen {
    Seen {
        stored,
        taken,
        left: 0,
        faults: [first, second, None],
        gave_up: false,
    }
}

// Each fault counts, in its order and with the place of its session, also a second one of a session; the session in
// which the supervisor gives up runs to its end, and those after it don't run.
#[test]
fn a_supervisor_gives_up_at_the_fault_past_its_limit(rt: HostRuntime) {
    let none = [0, 0];
    let (one, both) = ([1, 0], [1, 1]);
    let cases = [
        (at_sources(none, none, 0), whole(4, 4), 4),
        (
            at_sources(one, none, 0),
            gave_up(2, 0, of_source(0, 1), None),
            0,
        ),
        (
            at_sources(one, none, 1),
            went_on(4, 4, of_source(0, 1), None),
            4,
        ),
        (
            at_sources(one, one, 1),
            gave_up(2, 2, of_source(0, 1), of_source(2, 1)),
            2,
        ),
        (
            at_sources(one, one, 2),
            went_on(2, 2, of_source(0, 1), of_source(2, 1)),
            2,
        ),
        (
            at_sources(both, none, 1),
            gave_up(0, 0, of_source(0, 1), of_source(0, 2)),
            0,
        ),
        (
            at_sources(both, none, 2),
            went_on(4, 4, of_source(0, 1), of_source(0, 2)),
            4,
        ),
        (at_stores(1, NEVER, 0), gave_up(0, 0, of_store(0), None), 0),
        (at_stores(1, NEVER, 1), went_on(4, 4, of_store(0), None), 4),
        (at_stores(NEVER, 1, 0), gave_up(4, 0, of_store(1), None), 0),
        (at_stores(NEVER, 1, 1), went_on(4, 4, of_store(1), None), 4),
        (
            at_stores(1, 1, 1),
            gave_up(0, 0, of_store(0), of_store(1)),
            0,
        ),
        (
            at_stores(1, 1, 2),
            went_on(4, 4, of_store(0), of_store(1)),
            4,
        ),
    ];
    for (failing, want, given) in cases {
        same(&rt, &failed(&rt, rt.alloc(), failing), &Some((want, given)));
    }
}

// Why a hub that has seen nothing, and whose ledger fails at this call, doesn't answer a question.
fn refused(alloc: Global, ledger: u64, question: Question) -> Option<Why> {
    let scheme = narrow(alloc)?;
    let ledger = FailingLedger::new(ledger_of(alloc, &scheme)?, ledger.max(1));
    let mut hub = hub_of(alloc, scheme, PlainOutbox::new(alloc), ledger)?;
    refusal(alloc, &mut hub, question)
}

fn billed(why: BillFault) -> Option<Why> {
    Some(Why::Bill(Refused::Because(BillingFault::Unbilled(why))))
}

fn closed(why: ClosingFault) -> Option<Why> {
    Some(Why::Closing(Refused::Because(why)))
}

#[test]
fn questions_that_a_hub_refuses(rt: HostRuntime) {
    let early = DAY - 1;
    let unstated = ClosingFault::Ledger(CloseFault::Unstated);
    let cases = [
        (
            NEVER,
            Question::Bill(9, DAY),
            billed(BillFault::UnknownOwner),
        ),
        (
            NEVER,
            Question::Bill(1, early),
            billed(BillFault::BeforeStart),
        ),
        (NEVER, Question::Bill(1, DAY), not_closed(1)),
        (
            1,
            Question::Bill(1, DAY),
            Some(Why::Bill(Refused::Failed(Fault::Store))),
        ),
        (
            NEVER,
            Question::Settlement(9, DAY),
            billed(BillFault::UnknownOwner),
        ),
        (
            NEVER,
            Question::Settlement(1, early),
            billed(BillFault::BeforeStart),
        ),
        (NEVER, Question::Settlement(1, DAY), not_closed(1)),
        (
            1,
            Question::Settlement(1, DAY),
            Some(Why::Bill(Refused::Failed(Fault::Store))),
        ),
        (
            NEVER,
            Question::Close(9, 1, DAY),
            closed(ClosingFault::UnknownOwner),
        ),
        (NEVER, Question::Close(1, 1, early), closed(unstated)),
        (
            1,
            Question::Close(1, 1, DAY),
            Some(Why::Closing(Refused::Failed(Fault::Store))),
        ),
    ];
    for (ledger, question, want) in cases {
        same(&rt, &refused(rt.alloc(), ledger, question), &want);
    }
}
