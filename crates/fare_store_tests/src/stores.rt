use crate::checking::same;
use fare_owner::{CloseFault, RetireFault, StatementFault, TapFault};
use fare_record::{Day, DeviceId, Moment, OwnerId, Record, Statement};
use fare_samples::{FIRST, Numbers, record, statement};
use fare_scheme::{DemoSize, Scheme};
use fare_store::Refused::Because;
use fare_store::{
    FailingOutbox, Fault, ForgetFault, Ledger, LedgerFault, Outbox, PlainLedger, PlainOutbox,
    Refused, StatedFault, StoreFault,
};
use std::alloc::Global;
use std::process::Abort;

fn device() -> Option<DeviceId> {
    DeviceId::new(1)
}

fn owner() -> Option<OwnerId> {
    OwnerId::new(1)
}

/// A call on an outbox, for device 1 and owner 1.
#[derive(Clone, Copy)]
pub(crate) enum Asked {
    /// Whether it is empty.
    Empty,
    /// The greatest link.
    Upto,
    /// A tap with this link and this lane number is stored.
    Store(u64, u64),
    /// The taps from 1 to this are stored.
    StoreAll(u64),
    /// A statement of day 19723 with this count is stored.
    State(u64),
    /// A statement of this day with this count is stored.
    StateOf(u64, u64),
    /// Statements of the days from 1 to this are stored.
    StateAll(u64),
    /// The lane number of the next row after this one.
    NextRow(u64),
    /// The count of the next statement from this day on.
    NextStatement(u64),
    /// The rows up to this lane number are removed.
    Prune(u64),
    /// The statements of the days before this one are removed.
    Forget(u64),
}

/// What it answers.
#[derive(Clone, Copy, PartialEq, Eq, Debug)]
pub(crate) enum Said {
    Empty(Result<bool, Fault>),
    Number(Result<u64, Fault>),
    Found(Result<Option<u64>, Fault>),
    Stored(Result<(), Refused<StoreFault>>),
    Stated(Result<(), Refused<StatedFault>>),
}

fn store<O: Outbox>(outbox: &mut O, link: u64, lane: u64) -> Option<Said> {
    let row = record(Numbers {
        link,
        lane,
        ..FIRST
    })?;
    Some(Said::Stored(outbox.store(&row)))
}

fn store_all<O: Outbox>(outbox: &mut O, last: u64) -> Option<Said> {
    let mut said = None;
    for link in 1..=last {
        said = store(outbox, link, link);
    }
    said
}

fn state<O: Outbox>(outbox: &mut O, day: u64, count: u64) -> Option<Said> {
    let statement = statement(1, day, 1, count)?;
    Some(Said::Stated(outbox.store_statement(&statement)))
}

fn state_all<O: Outbox>(outbox: &mut O, last: u64) -> Option<Said> {
    let mut said = None;
    for day in 1..=last {
        said = state(outbox, day, 1);
    }
    said
}

fn forget_statements<O: Outbox>(outbox: &mut O, day: u64) -> Option<Said> {
    let removed = outbox.forget_statements(owner()?, device()?, Day::new(day)?);
    Some(Said::Number(removed))
}

// The lane number of the next row.
fn next_lane<O: Outbox>(
    outbox: &mut O,
    owner: OwnerId,
    device: DeviceId,
    after: u64,
) -> Result<Option<u64>, Fault> {
    Ok(outbox.next_row(owner, device, after)?.map(Record::lane))
}

// The count of the next statement.
fn next_count<O: Outbox>(
    outbox: &mut O,
    owner: OwnerId,
    device: DeviceId,
    from: Day,
) -> Result<Option<u64>, Fault> {
    let statement = outbox.next_statement(owner, device, from)?;
    Ok(statement.map(Statement::count))
}

fn next_row<O: Outbox>(outbox: &mut O, after: u64) -> Option<Said> {
    let lane = next_lane(outbox, owner()?, device()?, after);
    Some(Said::Found(lane))
}

fn next_statement<O: Outbox>(outbox: &mut O, from: u64) -> Option<Said> {
    let count = next_count(outbox, owner()?, device()?, Day::new(from)?);
    Some(Said::Found(count))
}

pub(crate) fn ask<O: Outbox>(outbox: &mut O, asked: Asked) -> Option<Said> {
    match asked {
        Asked::Empty => Some(Said::Empty(outbox.is_empty())),
        Asked::Upto => Some(Said::Number(outbox.upto(device()?))),
        Asked::Store(link, lane) => store(outbox, link, lane),
        Asked::StoreAll(last) => store_all(outbox, last),
        Asked::State(count) => state(outbox, 19_723, count),
        Asked::StateOf(day, count) => state(outbox, day, count),
        Asked::StateAll(last) => state_all(outbox, last),
        Asked::NextRow(after) => next_row(outbox, after),
        Asked::NextStatement(from) => next_statement(outbox, from),
        Asked::Prune(upto) => Some(Said::Number(outbox.prune(owner()?, device()?, upto))),
        Asked::Forget(day) => forget_statements(outbox, day),
    }
}

// The outbox answers these calls so, one after the other.
pub(crate) fn says<O: Outbox>(rt: &impl Abort, outbox: &mut O, calls: &[(Asked, Said)]) {
    for (asked, want) in calls {
        same(rt, &ask(outbox, *asked), &Some(*want));
    }
}

#[test]
fn an_outbox_stores_each_next_tap(rt: HostRuntime) {
    const CALLS: [(Asked, Said); 9] = [
        (Asked::Empty, Said::Empty(Ok(true))),
        (Asked::Upto, Said::Number(Ok(0))),
        (Asked::StoreAll(1_500), Said::Stored(Ok(()))),
        (Asked::Upto, Said::Number(Ok(1_500))),
        (Asked::Empty, Said::Empty(Ok(false))),
        (
            Asked::Store(1_500, 1_501),
            Said::Stored(Err(Because(StoreFault::Duplicate))),
        ),
        (
            Asked::Store(1_502, 1_501),
            Said::Stored(Err(Because(StoreFault::Gap))),
        ),
        (
            Asked::Store(1_501, 1_500),
            Said::Stored(Err(Because(StoreFault::Conflict))),
        ),
        (Asked::Store(1_501, 1_503), Said::Stored(Ok(()))),
    ];
    says(&rt, &mut PlainOutbox::new(rt.alloc()), &CALLS);
}

#[test]
fn an_outbox_gives_and_removes_rows_in_order(rt: HostRuntime) {
    const CALLS: [(Asked, Said); 9] = [
        (Asked::StoreAll(100), Said::Stored(Ok(()))),
        (Asked::Store(101, 103), Said::Stored(Ok(()))),
        (Asked::NextRow(0), Said::Found(Ok(Some(1)))),
        (Asked::NextRow(100), Said::Found(Ok(Some(103)))),
        (Asked::NextRow(103), Said::Found(Ok(None))),
        (Asked::Prune(102), Said::Number(Ok(100))),
        (Asked::NextRow(0), Said::Found(Ok(Some(103)))),
        (Asked::Prune(u64::MAX), Said::Number(Ok(1))),
        (Asked::Empty, Said::Empty(Ok(false))),
    ];
    says(&rt, &mut PlainOutbox::new(rt.alloc()), &CALLS);
}

#[test]
fn an_outbox_holds_a_statement_once(rt: HostRuntime) {
    const CALLS: [(Asked, Said); 6] = [
        (Asked::State(3), Said::Stated(Ok(()))),
        (
            Asked::State(3),
            Said::Stated(Err(Because(StatedFault::Duplicate))),
        ),
        (
            Asked::State(4),
            Said::Stated(Err(Because(StatedFault::Conflict))),
        ),
        (Asked::NextStatement(0), Said::Found(Ok(Some(3)))),
        (Asked::NextStatement(19_724), Said::Found(Ok(None))),
        (Asked::Empty, Said::Empty(Ok(false))),
    ];
    says(&rt, &mut PlainOutbox::new(rt.alloc()), &CALLS);
}

/// Statements that go, and one of a day that went, which is a new one.
pub(crate) const FORGETS: [(Asked, Said); 13] = [
    (Asked::StateAll(400), Said::Stated(Ok(()))),
    (Asked::Forget(1), Said::Number(Ok(0))),
    (Asked::Forget(400), Said::Number(Ok(399))),
    (Asked::NextStatement(0), Said::Found(Ok(Some(1)))),
    (Asked::StateOf(401, 4), Said::Stated(Ok(()))),
    (Asked::StateOf(403, 5), Said::Stated(Ok(()))),
    (Asked::Forget(403), Said::Number(Ok(2))),
    (Asked::NextStatement(0), Said::Found(Ok(Some(5)))),
    (Asked::Forget(403), Said::Number(Ok(0))),
    (Asked::StateOf(401, 7), Said::Stated(Ok(()))),
    (Asked::NextStatement(0), Said::Found(Ok(Some(7)))),
    (Asked::Forget(100_000), Said::Number(Ok(2))),
    (Asked::Empty, Said::Empty(Ok(true))),
];

// The first counts that are stated for two owners of two devices, once those of owner 1 and device 1 were removed.
fn counts_beside<O: Outbox>(outbox: &mut O) -> Option<[Result<Option<u64>, Fault>; 4]> {
    let lanes = [(1, 1), (1, 2), (2, 1), (2, 2)];
    for (owner, device) in lanes {
        let stated = statement(device, 19_723, owner, 3)?;
        outbox.store_statement(&stated).ok()?;
    }
    let day = Day::new(20_000)?;
    outbox.forget_statements(owner()?, device()?, day).ok()?;
    let mut counts = [Ok(None); 4];
    for place in 0..4 {
        let (owner, device) = lanes[place];
        let (owner, device) = (OwnerId::new(owner)?, DeviceId::new(device)?);
        counts[place] = next_count(outbox, owner, device, Day::new(0)?);
    }
    Some(counts)
}

/// Statements of another device or for another owner stay where one lane's go.
pub(crate) fn forgets_one_lane<O: Outbox>(rt: &impl Abort, outbox: &mut O) {
    let left = Ok(Some(3));
    same(
        rt,
        &counts_beside(outbox),
        &Some([Ok(None), left, left, left]),
    );
}

#[test]
fn an_outbox_removes_statements_of_earlier_days(rt: HostRuntime) {
    says(&rt, &mut PlainOutbox::new(rt.alloc()), &FORGETS);
    forgets_one_lane(&rt, &mut PlainOutbox::new(rt.alloc()));
}

#[test]
fn an_outbox_fails_at_one_call(rt: HostRuntime) {
    const CALLS: [(Asked, Said); 5] = [
        (Asked::Upto, Said::Number(Ok(0))),
        (
            Asked::Store(1, 1),
            Said::Stored(Err(Refused::Failed(Fault::Store))),
        ),
        (Asked::Upto, Said::Number(Ok(0))),
        (Asked::Store(1, 1), Said::Stored(Ok(()))),
        (Asked::Upto, Said::Number(Ok(1))),
    ];
    const LETS_GO: [(Asked, Said); 4] = [
        (Asked::State(3), Said::Stated(Ok(()))),
        (Asked::Forget(19_724), Said::Number(Err(Fault::Store))),
        (Asked::NextStatement(0), Said::Found(Ok(Some(3)))),
        (Asked::Forget(19_724), Said::Number(Ok(1))),
    ];
    for calls in [&CALLS[..], &LETS_GO[..]] {
        let outbox = PlainOutbox::new(rt.alloc());
        says(&rt, &mut FailingOutbox::new(outbox, 2), calls);
    }
}

/// A call on a ledger, for device 1 and day 19723.
#[derive(Clone, Copy)]
pub(crate) enum Call {
    /// Whether it is empty.
    Empty,
    /// How many taps it has taken.
    Count,
    /// How many of these are of the day.
    DayCount,
    /// The number of the last closed day.
    ClosedThrough,
    /// The stated count.
    Stated,
    /// A tap with this lane number is taken, of a later second for each lower one.
    Take(u64),
    /// The taps from 1 to this are taken.
    TakeAll(u64),
    /// A statement with this count is taken.
    State(u64),
    /// The day is closed.
    Close,
    /// The lane of the device with this number is retired.
    Retire(u64),
    /// Whether the lane is retired.
    Retired,
    /// What is of the days before the one with this number goes.
    Forget(u64),
    /// The number of the first day of which all is held.
    HeldFrom,
    /// How many taps went.
    Gone,
}

/// What it answers.
#[derive(Clone, Copy, PartialEq, Eq, Debug)]
pub(crate) enum Answer {
    Holds(Result<bool, Fault>),
    Number(Result<u64, Fault>),
    Maybe(Result<Option<u64>, Fault>),
    Taken(Result<(), Refused<TapFault>>),
    Stated(Result<(), Refused<StatementFault>>),
    Closed(Result<(), Refused<CloseFault>>),
    Ended(Result<(), Refused<RetireFault>>),
    Forgotten(Result<(), Refused<ForgetFault>>),
}

// The ledger of an owner of the demonstration scheme with one device.
fn ledger(alloc: Global, owner: u64) -> Option<PlainLedger> {
    let scheme = Scheme::demo(alloc, DemoSize::OneDevice, 4, 4, 4).ok()?;
    PlainLedger::new(alloc, &scheme, OwnerId::new(owner)?).ok()
}

// Why there is no ledger of an owner.
fn fault_of(alloc: Global, owner: u64) -> Option<LedgerFault> {
    let scheme = Scheme::demo(alloc, DemoSize::OneDevice, 4, 4, 4).ok()?;
    PlainLedger::new(alloc, &scheme, OwnerId::new(owner)?).err()
}

fn take<L: Ledger>(ledger: &mut L, lane: u64) -> Option<Answer> {
    let row = record(Numbers {
        link: lane,
        lane,
        moment: FIRST.moment.saturating_sub(lane),
        ..FIRST
    })?;
    Some(Answer::Taken(ledger.take(&row)))
}

fn take_all<L: Ledger>(ledger: &mut L, last: u64) -> Option<Answer> {
    let mut answer = None;
    for lane in 1..=last {
        answer = take(ledger, lane);
    }
    answer
}

// The number of the last closed day of a device.
fn closed_day<L: Ledger>(ledger: &mut L, device: DeviceId) -> Result<Option<u64>, Fault> {
    let day = ledger.closed_through(device)?.map(Day::get);
    Ok(day.map(u64::from))
}

fn closed_through<L: Ledger>(ledger: &mut L) -> Option<Answer> {
    Some(Answer::Maybe(closed_day(ledger, device()?)))
}

fn forget<L: Ledger>(ledger: &mut L, device: DeviceId, day: u64) -> Option<Answer> {
    Some(Answer::Forgotten(ledger.forget(device, Day::new(day)?)))
}

// The number of the first day of which a ledger holds all of a device.
fn first_held<L: Ledger>(ledger: &mut L, device: DeviceId) -> Result<u64, Fault> {
    Ok(u64::from(ledger.held_from(device)?.get()))
}

// The first and the last lane number of a ledger's taps of some days, in their order, and how many these are.
pub(crate) fn ends_between<L: Ledger>(
    ledger: &mut L,
    from: u64,
    to: u64,
) -> Option<(Option<u64>, Option<u64>, usize)> {
    let (from, to) = (Day::new(from)?, Day::new(to)?);
    let taps = ledger.taps_between(from, to).ok()?;
    let (first, last) = (taps.first().copied(), taps.last().copied());
    Some((first.map(Record::lane), last.map(Record::lane), taps.len()))
}

// The same of a ledger with three taps.
fn between(alloc: Global, from: u64, to: u64) -> Option<(Option<u64>, Option<u64>, usize)> {
    let mut ledger = ledger(alloc, 1)?;
    take_all(&mut ledger, 3)?;
    ends_between(&mut ledger, from, to)
}

pub(crate) fn answer_to<L: Ledger>(ledger: &mut L, call: Call) -> Option<Answer> {
    let (device, day) = (device()?, Day::new(19_723)?);
    match call {
        Call::Empty => Some(Answer::Holds(ledger.is_empty())),
        Call::Count => Some(Answer::Number(ledger.count(device))),
        Call::DayCount => Some(Answer::Number(ledger.day_count(device, day))),
        Call::ClosedThrough => closed_through(ledger),
        Call::Stated => Some(Answer::Maybe(ledger.stated(device, day))),
        Call::Take(lane) => take(ledger, lane),
        Call::TakeAll(last) => take_all(ledger, last),
        Call::State(count) => {
            let statement = statement(1, 19_723, 1, count)?;
            Some(Answer::Stated(ledger.state(&statement)))
        }
        Call::Close => Some(Answer::Closed(ledger.close(device, day))),
        Call::Retire(device) => Some(Answer::Ended(ledger.retire(DeviceId::new(device)?))),
        Call::Retired => Some(Answer::Holds(ledger.retired(device))),
        Call::Forget(before) => forget(ledger, device, before),
        Call::HeldFrom => Some(Answer::Number(first_held(ledger, device))),
        Call::Gone => Some(Answer::Number(ledger.gone(device))),
    }
}

// A new ledger answers these calls so, one after the other.
fn answers(rt: &impl Abort, alloc: Global, calls: &[(Call, Answer)]) {
    let mut ledger = ledger(alloc, 1).expect(rt, "ledger");
    for (call, want) in calls {
        same(rt, &answer_to(&mut ledger, *call), &Some(*want));
    }
}

#[test]
fn a_ledger_is_of_an_owner_of_the_scheme(rt: HostRuntime) {
    same(
        &rt,
        &fault_of(rt.alloc(), 9),
        &Some(LedgerFault::UnknownOwner),
    );
    let ledger = ledger(rt.alloc(), 1).expect(&rt, "ledger");
    same(&rt, &Some(ledger.owner()), &owner());
}

#[test]
fn a_ledger_takes_each_next_tap(rt: HostRuntime) {
    const CALLS: [(Call, Answer); 7] = [
        (Call::Empty, Answer::Holds(Ok(true))),
        (Call::Take(2), Answer::Taken(Err(Because(TapFault::Gap)))),
        (Call::TakeAll(1_500), Answer::Taken(Ok(()))),
        (
            Call::Take(1_500),
            Answer::Taken(Err(Because(TapFault::Duplicate))),
        ),
        (Call::Count, Answer::Number(Ok(1_500))),
        (Call::DayCount, Answer::Number(Ok(1_500))),
        (Call::Empty, Answer::Holds(Ok(false))),
    ];
    answers(&rt, rt.alloc(), &CALLS);
}

#[test]
fn a_ledger_orders_the_taps_of_some_days(rt: HostRuntime) {
    const CASES: [((u64, u64), (Option<u64>, Option<u64>, usize)); 3] = [
        ((19_723, 19_723), (Some(3), Some(1), 3)),
        ((19_724, 19_730), (None, None, 0)),
        ((19_724, 19_723), (None, None, 0)),
    ];
    for &((from, to), want) in &CASES {
        same(&rt, &between(rt.alloc(), from, to), &Some(want));
    }
}

// A tap's place in the order of taps.
fn place(row: &Record) -> (Day, Moment, DeviceId, u64) {
    (
        row.tap().day(),
        row.tap().moment(),
        row.device(),
        row.lane(),
    )
}

// Takes 600 taps of two devices on three days, in no order of days or moments.
fn take_scattered(ledger: &mut PlainLedger) -> Option<()> {
    for number in 0..600 {
        let row = record(Numbers {
            device: number % 2 + 1,
            link: number / 2 + 1,
            lane: number / 2 + 1,
            moment: FIRST.moment + number * 37 % 100,
            day: FIRST.day + number % 3,
            ..FIRST
        })?;
        ledger.take(&row).ok()?;
    }
    Some(())
}

// How many taps a ledger has of some days, and whether each comes after the one before it.
fn rising_between<L: Ledger>(ledger: &mut L, from: u64, to: u64) -> Option<(usize, bool)> {
    let (from, to) = (Day::new(from)?, Day::new(to)?);
    let taps = ledger.taps_between(from, to).ok()?;
    let rising = taps
        .iter()
        .zip(taps.iter().skip(1))
        .all(|(a, b)| place(a) < place(b));
    Some((taps.len(), rising))
}

// The same of a ledger with these taps.
fn scattered(alloc: Global, from: u64, to: u64) -> Option<(usize, bool)> {
    let scheme = Scheme::demo(alloc, DemoSize::TwoDevices, 4, 4, 4).ok()?;
    let mut ledger = PlainLedger::new(alloc, &scheme, owner()?).ok()?;
    take_scattered(&mut ledger)?;
    rising_between(&mut ledger, from, to)
}

#[test]
fn a_ledger_orders_many_taps_of_two_devices(rt: HostRuntime) {
    const CASES: [((u64, u64), usize); 4] = [
        ((19_723, 19_724), 400),
        ((19_725, 19_725), 200),
        ((19_722, 19_726), 600),
        ((19_726, 19_800), 0),
    ];
    for &((from, to), count) in &CASES {
        same(&rt, &scattered(rt.alloc(), from, to), &Some((count, true)));
    }
}

#[test]
fn a_ledger_closes_a_day_where_the_counts_agree(rt: HostRuntime) {
    const SHORT: CloseFault = CloseFault::CountsShort {
        stated: 1,
        taken: 0,
    };
    const REPEATED: Answer = Answer::Stated(Err(Because(StatementFault::Repeated)));
    const CONFLICT: Answer = Answer::Stated(Err(Because(StatementFault::Conflict)));
    const CALLS: [(Call, Answer); 12] = [
        (
            Call::Close,
            Answer::Closed(Err(Because(CloseFault::Unstated))),
        ),
        (Call::State(1), Answer::Stated(Ok(()))),
        (Call::Stated, Answer::Maybe(Ok(Some(1)))),
        (Call::State(1), REPEATED),
        (Call::State(2), CONFLICT),
        (Call::Close, Answer::Closed(Err(Because(SHORT)))),
        (Call::ClosedThrough, Answer::Maybe(Ok(None))),
        (Call::Take(1), Answer::Taken(Ok(()))),
        (Call::Close, Answer::Closed(Ok(()))),
        (Call::ClosedThrough, Answer::Maybe(Ok(Some(19_723)))),
        (
            Call::Take(2),
            Answer::Taken(Err(Because(TapFault::AfterClose))),
        ),
        (
            Call::Close,
            Answer::Closed(Err(Because(CloseFault::AlreadyClosed))),
        ),
    ];
    answers(&rt, rt.alloc(), &CALLS);
}

/// Calls on a new ledger that retire its lane of device 1, with their answers.
pub(crate) const RETIRING: [(Call, Answer); 13] = [
    (Call::Retired, Answer::Holds(Ok(false))),
    (Call::State(2), Answer::Stated(Ok(()))),
    (Call::TakeAll(2), Answer::Taken(Ok(()))),
    (
        Call::Retire(9),
        Answer::Ended(Err(Because(RetireFault::NotMine))),
    ),
    (Call::Retire(1), Answer::Ended(Ok(()))),
    (
        Call::Retire(1),
        Answer::Ended(Err(Because(RetireFault::Retired))),
    ),
    (Call::Retired, Answer::Holds(Ok(true))),
    (
        Call::Take(3),
        Answer::Taken(Err(Because(TapFault::Retired))),
    ),
    (
        Call::State(2),
        Answer::Stated(Err(Because(StatementFault::Retired))),
    ),
    (
        Call::Close,
        Answer::Closed(Err(Because(CloseFault::Retired))),
    ),
    (Call::Count, Answer::Number(Ok(2))),
    (Call::Stated, Answer::Maybe(Ok(Some(2)))),
    (Call::ClosedThrough, Answer::Maybe(Ok(None))),
];

/// A retired lane alone makes a ledger hold something.
pub(crate) const RETIRED_ALONE: [(Call, Answer); 3] = [
    (Call::Empty, Answer::Holds(Ok(true))),
    (Call::Retire(1), Answer::Ended(Ok(()))),
    (Call::Empty, Answer::Holds(Ok(false))),
];

#[test]
fn a_ledger_takes_nothing_more_of_a_retired_lane(rt: HostRuntime) {
    answers(&rt, rt.alloc(), &RETIRING);
    answers(&rt, rt.alloc(), &RETIRED_ALONE);
}

const OPEN: Answer = Answer::Forgotten(Err(Because(ForgetFault::NotClosed)));

/// Calls on a new ledger that let a closed day go, with their answers: what it took and closed stays told, and nothing of
/// the day is taken again. A statement that comes again is taken, since it isn't held, and goes once more.
pub(crate) const FORGETTING: [(Call, Answer); 25] = [
    (Call::TakeAll(3), Answer::Taken(Ok(()))),
    (Call::Forget(19_723), Answer::Forgotten(Ok(()))),
    (Call::HeldFrom, Answer::Number(Ok(19_723))),
    (Call::Gone, Answer::Number(Ok(0))),
    (Call::DayCount, Answer::Number(Ok(3))),
    (Call::Forget(19_724), OPEN),
    (Call::State(3), Answer::Stated(Ok(()))),
    (Call::Close, Answer::Closed(Ok(()))),
    (Call::Forget(19_725), OPEN),
    (Call::Stated, Answer::Maybe(Ok(Some(3)))),
    (Call::Forget(19_724), Answer::Forgotten(Ok(()))),
    (Call::HeldFrom, Answer::Number(Ok(19_724))),
    (Call::Gone, Answer::Number(Ok(3))),
    (Call::Count, Answer::Number(Ok(3))),
    (Call::DayCount, Answer::Number(Ok(0))),
    (Call::Stated, Answer::Maybe(Ok(None))),
    (Call::ClosedThrough, Answer::Maybe(Ok(Some(19_723)))),
    (
        Call::Take(3),
        Answer::Taken(Err(Because(TapFault::Duplicate))),
    ),
    (
        Call::Take(4),
        Answer::Taken(Err(Because(TapFault::AfterClose))),
    ),
    (Call::Take(5), Answer::Taken(Err(Because(TapFault::Gap)))),
    (Call::State(3), Answer::Stated(Ok(()))),
    (
        Call::Close,
        Answer::Closed(Err(Because(CloseFault::AlreadyClosed))),
    ),
    (Call::Forget(19_723), Answer::Forgotten(Ok(()))),
    (Call::HeldFrom, Answer::Number(Ok(19_724))),
    (Call::Empty, Answer::Holds(Ok(false))),
];

/// A day that was let go alone makes a ledger hold something, and what is of a retired lane goes though no day is closed.
pub(crate) const FORGOTTEN_ALONE: [(Call, Answer); 8] = [
    (Call::Forget(0), Answer::Forgotten(Ok(()))),
    (Call::Empty, Answer::Holds(Ok(true))),
    (Call::Forget(1), Answer::Forgotten(Ok(()))),
    (Call::Empty, Answer::Holds(Ok(false))),
    (Call::TakeAll(2), Answer::Taken(Ok(()))),
    (Call::Retire(1), Answer::Ended(Ok(()))),
    (Call::Forget(19_730), Answer::Forgotten(Ok(()))),
    (Call::Gone, Answer::Number(Ok(2))),
];

#[test]
fn a_ledger_lets_closed_days_go(rt: HostRuntime) {
    answers(&rt, rt.alloc(), &FORGETTING);
    answers(&rt, rt.alloc(), &FORGOTTEN_ALONE);
}
