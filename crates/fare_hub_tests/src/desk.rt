//! What an operator asks of stores and orders, and the lines that come of it.
ghost use Rattle.fare_sessions.specs.Stores.{HasLedgers};

use crate::checking::same;
use fare_command::Question;
use fare_desk::{
    DeskFault, Waiting, close_days, forget_days, retire_lane, what_waits, write_bill,
    write_settlement, write_standing,
};
use fare_record::{Day, DeviceId, Moment, OwnerId};
use fare_samples::{FIRST, Numbers, record, statement};
use fare_scheme::{DemoSize, Scheme};
use fare_sessions::Hub;
use fare_store::{FailingLedger, Ledger, Outbox, PlainLedger, PlainOutbox};
use std::alloc::Global;
use std::process::Abort;

// The day of the taps.
pub(crate) const DAY: u64 = 19_723;

// What a ledger took of each of two devices: so many taps of the day, and the counts stated of it and of the day after.
#[derive(Clone, Copy)]
pub(crate) struct Held {
    taps: u64,
    stated: Option<u64>,
    next_stated: Option<u64>,
}

fn fill<L: Ledger>(ledger: &mut L, device: u64, held: Held) -> Option<()> {
    for number in 1..=held.taps {
        let row = record(Numbers {
            device,
            link: number,
            lane: number,
            ..FIRST
        })?;
        ledger.take(&row).ok()?;
    }
    if let Some(count) = held.stated {
        ledger.state(&statement(device, DAY, 1, count)?).ok()?;
    }
    if let Some(count) = held.next_stated {
        ledger.state(&statement(device, DAY + 1, 1, count)?).ok()?;
    }
    Some(())
}

// A hub of one owner and two devices, of each of which its ledger took this.
pub(crate) fn hub_with(
    alloc: Global,
    first: Held,
    second: Held,
) -> Option<Hub<PlainOutbox, PlainLedger>> {
    let scheme = Scheme::demo(alloc, DemoSize::TwoDevices, 4, 1, 4).ok()?;
    let mut ledger = PlainLedger::new(alloc, &scheme, OwnerId::new(1)?).ok()?;
    fill(&mut ledger, 1, first)?;
    fill(&mut ledger, 2, second)?;
    Some(Hub {
        scheme,
        outbox: PlainOutbox::new(alloc),
        ledgers: Vec::from_array(alloc, [ledger]).ok()?,
    })
}

// Asks a hub this, or orders it.
fn ask<O: Outbox, L: Ledger>(
    alloc: Global,
    hub: &mut Hub<O, L>,
    question: Question,
    output: &mut Vec<u8>,
) -> Result<(), DeskFault>
    requires { HasLedgers hub.old }
{
    match question {
        Question::Close => close_days(alloc, hub, output),
        Question::Bill { owner, day } => write_bill(alloc, hub, owner, day, output),
        Question::Settle { owner, day } => write_settlement(alloc, hub, owner, day, output),
        Question::Stand => write_standing(alloc, hub, output),
        Question::Retire { owner, device } => retire_lane(alloc, hub, owner, device, output),
        Question::Forget { before } => forget_days(alloc, hub, before, output),
    }
}

// How a question of a hub is answered, and what was written.
pub(crate) fn answered<O: Outbox, L: Ledger>(
    alloc: Global,
    hub: &mut Hub<O, L>,
    question: Question,
) -> Option<(Result<(), DeskFault>, Vec<u8>)> {
    if hub.ledgers.len() != hub.scheme.owner_count() {
        return None;
    }
    let mut output = Vec::new(alloc);
    let ended = ask(alloc, hub, question, &mut output);
    Some((ended, output))
}

pub(crate) fn bill(owner: u64, day: u64) -> Option<Question> {
    Some(Question::Bill {
        owner: OwnerId::new(owner)?,
        day: Day::new(day)?,
    })
}

pub(crate) fn settle(owner: u64, day: u64) -> Option<Question> {
    Some(Question::Settle {
        owner: OwnerId::new(owner)?,
        day: Day::new(day)?,
    })
}

pub(crate) const WHOLE: Held = Held {
    taps: 2,
    stated: Some(2),
    next_stated: Some(0),
};

// Two days of each device are closed, and then a bill and a settlement are written as replies to a trace are.
#[test]
fn days_whose_counts_are_met_are_closed_and_billed(rt: HostRuntime) {
    let alloc = rt.alloc();
    let mut hub = hub_with(alloc, WHOLE, WHOLE).expect(&rt, "hub");
    let cases: [(Option<Question>, &[u8]); 4] = [
        (
            Some(Question::Close),
            b"close 1 1 19723: closed 1 19723\nclose 1 1 19724: closed 1 19724\nclose 1 2 19723: closed 2 19723\nclose 1 2 19724: closed 2 19724\n",
        ),
        (Some(Question::Close), b""),
        (bill(1, DAY), b"bill 1 19723 1 525\naccount 1 77 4 525\n"),
        (
            settle(1, DAY),
            b"settlement 1 19723 2\noperator 1 2 350\noperator 2 2 175\n",
        ),
    ];
    for (question, lines) in cases {
        let question = question.expect(&rt, "question");
        let (ended, said) = answered(alloc, &mut hub, question).expect(&rt, "answer");
        same(&rt, &(ended, said.as_slice()), &(Ok(()), lines));
    }
}

// A count that is not met ends its device's lane, and no other; what isn't stated is not tried.
#[test]
fn a_count_that_is_not_met_ends_its_lane(rt: HostRuntime) {
    let alloc = rt.alloc();
    let short = Held {
        stated: Some(3),
        ..WHOLE
    };
    let over = Held {
        stated: Some(1),
        ..WHOLE
    };
    let unstated = Held {
        stated: None,
        ..WHOLE
    };
    let cases: [(Held, Held, &[u8]); 3] = [
        (
            short,
            WHOLE,
            b"close 1 1 19723: refused CountsShort 3 2\nclose 1 2 19723: closed 2 19723\nclose 1 2 19724: closed 2 19724\n",
        ),
        (unstated, over, b"close 1 2 19723: refused CountsOver 1 2\n"),
        (unstated, unstated, b""),
    ];
    for (first, second, lines) in cases {
        let mut hub = hub_with(alloc, first, second).expect(&rt, "hub");
        let (ended, said) = answered(alloc, &mut hub, Question::Close).expect(&rt, "answer");
        same(&rt, &(ended, said.as_slice()), &(Ok(()), lines));
    }
}

// Each refusal writes nothing, in one order.
#[test]
fn a_question_without_an_answer_writes_nothing(rt: HostRuntime) {
    let alloc = rt.alloc();
    let device = DeviceId::new(1).expect(&rt, "device");
    let mut hub = hub_with(alloc, WHOLE, WHOLE).expect(&rt, "hub");
    let cases = [
        (bill(9, DAY - 1), DeskFault::UnknownOwner),
        (settle(9, DAY), DeskFault::UnknownOwner),
        (bill(1, DAY - 1), DeskFault::BeforeStart),
        (settle(1, DAY - 1), DeskFault::BeforeStart),
        (bill(1, DAY), DeskFault::NotClosed { device }),
        (settle(1, DAY), DeskFault::NotClosed { device }),
    ];
    for (question, fault) in cases {
        let question = question.expect(&rt, "question");
        let (ended, said) = answered(alloc, &mut hub, question).expect(&rt, "answer");
        same(&rt, &(ended, said.len()), &(Err(fault), 0));
    }
}

// An outbox with three taps of device 1 and its statement.
fn outbox_of(alloc: Global) -> Option<PlainOutbox> {
    let mut outbox = PlainOutbox::new(alloc);
    for number in 1..=3 {
        let row = record(Numbers {
            link: number,
            lane: number,
            ..FIRST
        })?;
        outbox.store(&row).ok()?;
    }
    outbox.store_statement(&statement(1, DAY, 1, 3)?).ok()?;
    Some(outbox)
}

// What waits is what the owner has not taken, and the statements of days that it has not closed.
#[test]
fn lanes_stand_where_their_stores_say(rt: HostRuntime) {
    let alloc = rt.alloc();
    let none = Held {
        taps: 0,
        stated: None,
        next_stated: None,
    };
    let two = Held { taps: 2, ..none };
    let closed = Held {
        taps: 3,
        stated: Some(3),
        ..none
    };
    let cases: [(Held, &[u8]); 3] = [
        (
            none,
            b"upto 1 3\nupto 2 0\nlane 1 1 taken 0 closed none rows 3 statements 1\nlane 1 2 taken 0 closed none rows 0 statements 0\n",
        ),
        (
            two,
            b"upto 1 3\nupto 2 0\nlane 1 1 taken 2 closed none rows 1 statements 1\nlane 1 2 taken 0 closed none rows 0 statements 0\n",
        ),
        (
            closed,
            b"upto 1 3\nupto 2 0\nlane 1 1 taken 3 closed 19723 rows 0 statements 0\nlane 1 2 taken 0 closed none rows 0 statements 0\n",
        ),
    ];
    for (first, lines) in cases {
        let mut hub = hub_with(alloc, first, none).expect(&rt, "hub");
        hub.outbox = outbox_of(alloc).expect(&rt, "outbox");
        let (ended, _) = answered(alloc, &mut hub, Question::Close).expect(&rt, "close");
        same(&rt, &ended, &Ok(()));
        let (ended, said) = answered(alloc, &mut hub, Question::Stand).expect(&rt, "answer");
        same(&rt, &(ended, said.as_slice()), &(Ok(()), lines));
    }
}

// Stores so many taps of a device, each made a second after the one before.
fn fill_outbox(outbox: &mut PlainOutbox, device: u64, taps: u64, before: u64) -> Option<()> {
    for number in 1..=taps {
        let row = record(Numbers {
            device,
            link: number,
            lane: number,
            moment: before.saturating_add(number),
            ..FIRST
        })?;
        outbox.store(&row).ok()?;
    }
    Some(())
}

// What waits for the only owner of a hub.
fn waits_of<O: Outbox, L: Ledger>(alloc: Global, hub: &mut Hub<O, L>) -> Option<Waiting> {
    if hub.ledgers.len() != hub.scheme.owner_count() {
        return None;
    }
    let waits = what_waits(alloc, hub).ok()?;
    match waits.as_slice() {
        [one] if one.owner.get() == 1 => Some(one.waiting),
        _ => None,
    }
}

// How many taps of a device are stored, and how many taken; and how many rows wait of two devices, and when the earliest
// was made of those that come next.
type Waits = ((u64, u64), (u64, u64), u64, Option<u64>);

// So many taps, and no statement.
fn took(taps: u64) -> Held {
    Held {
        taps,
        stated: None,
        next_stated: None,
    }
}

// What waits in two lanes, of each the taps that were stored and those that were taken.
pub(crate) fn waits_between(
    alloc: Global,
    first: (u64, u64),
    second: (u64, u64),
) -> Option<Hub<PlainOutbox, PlainLedger>> {
    let mut hub = hub_with(alloc, took(first.1), took(second.1))?;
    fill_outbox(&mut hub.outbox, 1, first.0, MORNING)?;
    fill_outbox(&mut hub.outbox, 2, second.0, MORNING + 100)?;
    Some(hub)
}

// Before the first tap of those that wait.
const MORNING: u64 = 1_704_096_000;

#[test]
fn what_waits_is_told_of_all_lanes_together(rt: HostRuntime) {
    const CASES: [Waits; 8] = [
        ((0, 0), (0, 0), 0, None),
        ((1, 0), (0, 0), 1, Some(MORNING + 1)),
        ((1, 1), (1, 1), 0, None),
        ((1, 1), (2, 1), 1, Some(MORNING + 102)),
        ((3, 1), (1, 1), 2, Some(MORNING + 2)),
        ((300, 0), (257, 256), 301, Some(MORNING + 1)),
        ((300, 300), (600, 1), 599, Some(MORNING + 102)),
        ((1_000, 250), (64, 0), 814, Some(MORNING + 101)),
    ];
    let alloc = rt.alloc();
    for &(first, second, rows, oldest) in &CASES {
        let mut hub = waits_between(alloc, first, second).expect(&rt, "hub");
        let waits = waits_of(alloc, &mut hub).expect(&rt, "waits");
        let moment = waits.oldest.map(Moment::get);
        same(
            &rt,
            &(waits.rows, waits.statements, moment),
            &(rows, 0, oldest),
        );
    }
}

// Statements wait until their day is closed; and of a lane that is retired nothing does.
#[test]
fn nothing_waits_of_closed_days_and_of_retired_lanes(rt: HostRuntime) {
    let alloc = rt.alloc();
    let taken = Held {
        taps: 2,
        stated: Some(2),
        next_stated: None,
    };
    let mut hub = hub_with(alloc, taken, WHOLE).expect(&rt, "hub");
    hub.outbox = outbox_of(alloc).expect(&rt, "outbox");
    const STEPS: [(Question, u64, u64); 3] = [
        (Question::Stand, 1, 1),
        (Question::Close, 1, 0),
        (Question::Stand, 1, 0),
    ];
    for &(question, rows, statements) in &STEPS {
        let (ended, _) = answered(alloc, &mut hub, question).expect(&rt, "answer");
        same(&rt, &ended, &Ok(()));
        let waits = waits_of(alloc, &mut hub).expect(&rt, "waits");
        same(&rt, &(waits.rows, waits.statements), &(rows, statements));
    }
    let question = retire(1, 1).expect(&rt, "question");
    let (ended, _) = answered(alloc, &mut hub, question).expect(&rt, "answer");
    same(&rt, &ended, &Ok(()));
    let waits = waits_of(alloc, &mut hub).expect(&rt, "waits");
    same(&rt, &(waits.rows, waits.oldest.is_none()), &(0, true));
}

// A hub of two whole devices, whose ledger fails at its k-th call.
pub(crate) fn failing_hub(alloc: Global, calls: u64) -> Option<Hub<PlainOutbox, FailingLedger>> {
    let Hub {
        scheme,
        outbox,
        mut ledgers,
    } = hub_with(alloc, WHOLE, WHOLE)?;
    let failing = FailingLedger::new(ledgers.pop()?, calls.max(1));
    Some(Hub {
        scheme,
        outbox,
        ledgers: Vec::from_array(alloc, [failing]).ok()?,
    })
}

// A ledger that fails at its k-th call ends the closes there, and what was written are the lines before it.
#[test]
fn a_ledger_that_fails_ends_the_closes(rt: HostRuntime) {
    let alloc = rt.alloc();
    const ONE: &[u8] = b"close 1 1 19723: closed 1 19723\n";
    const TWO: &[u8] = b"close 1 1 19723: closed 1 19723\nclose 1 1 19724: closed 1 19724\n";
    const THREE: &[u8] =
        b"close 1 1 19723: closed 1 19723\nclose 1 1 19724: closed 1 19724\nclose 1 2 19723: closed 2 19723\n";
    // A lane begins with the question whether it is retired; each day asks which is the last closed ONE and whether the
    // next is stated, and closes it; a lane ends with TWO questions.
    const CASES: [(u64, &[u8]); 11] = [
        (1, b""),
        (2, b""),
        (4, b""),
        (5, ONE),
        (7, ONE),
        (8, TWO),
        (9, TWO),
        (10, TWO),
        (11, TWO),
        (13, TWO),
        (14, THREE),
    ];
    for &(calls, lines) in &CASES {
        let mut hub = failing_hub(alloc, calls).expect(&rt, "hub");
        let (ended, said) = answered(alloc, &mut hub, Question::Close).expect(&rt, "answer");
        same(
            &rt,
            &(ended, said.as_slice()),
            &(Err(DeskFault::Store), lines),
        );
    }
}

fn retire(owner: u64, device: u64) -> Option<Question> {
    Some(Question::Retire {
        owner: OwnerId::new(owner)?,
        device: DeviceId::new(device)?,
    })
}

// How each of these questions of one hub is answered.
fn are_answered(
    rt: &impl Abort,
    alloc: Global,
    hub: &mut Hub<PlainOutbox, PlainLedger>,
    cases: &[(Option<Question>, Result<(), DeskFault>, &[u8])],
) {
    for &(question, end, lines) in cases {
        let question = question.expect(rt, "question");
        let (ended, said) = answered(alloc, hub, question).expect(rt, "answer");
        same(rt, &(ended, said.as_slice()), &(end, lines));
    }
}

// A retired lane is passed over by the closes, and billed with what was taken of it; the other lane is closed.
#[test]
fn a_retired_lane_is_passed_over_and_billed(rt: HostRuntime) {
    let alloc = rt.alloc();
    let mut hub = hub_with(alloc, WHOLE, WHOLE).expect(&rt, "hub");
    let second = DeviceId::new(2).expect(&rt, "device");
    let cases: [(Option<Question>, Result<(), DeskFault>, &[u8]); 10] = [
        (retire(9, 9), Err(DeskFault::UnknownOwner), b""),
        (retire(1, 9), Err(DeskFault::UnknownDevice), b""),
        (retire(1, 1), Ok(()), b"retired 1\n"),
        (retire(1, 1), Err(DeskFault::Retired), b""),
        (
            bill(1, DAY),
            Err(DeskFault::NotClosed { device: second }),
            b"",
        ),
        (
            Some(Question::Close),
            Ok(()),
            b"close 1 2 19723: closed 2 19723\nclose 1 2 19724: closed 2 19724\n",
        ),
        (Some(Question::Close), Ok(()), b""),
        (
            bill(1, DAY),
            Ok(()),
            b"bill 1 19723 1 525\naccount 1 77 4 525\nshort 1\n",
        ),
        (
            settle(1, DAY),
            Ok(()),
            b"settlement 1 19723 2\noperator 1 2 350\noperator 2 2 175\nshort 1\n",
        ),
        (
            Some(Question::Stand),
            Ok(()),
            b"upto 1 0\nupto 2 0\nlane 1 1 taken 2 closed none rows 0 statements 0 retired\nlane 1 2 taken 2 closed 19724 rows 0 statements 0\n",
        ),
    ];
    are_answered(&rt, alloc, &mut hub, &cases);
}

// A day that was closed before its lane was retired is billed whole, and no day behind it.
#[test]
fn a_day_that_was_closed_before_is_not_short(rt: HostRuntime) {
    let alloc = rt.alloc();
    let mut hub = hub_with(alloc, WHOLE, WHOLE).expect(&rt, "hub");
    let cases: [(Option<Question>, Result<(), DeskFault>, &[u8]); 5] = [
        (
            Some(Question::Close),
            Ok(()),
            b"close 1 1 19723: closed 1 19723\nclose 1 1 19724: closed 1 19724\nclose 1 2 19723: closed 2 19723\nclose 1 2 19724: closed 2 19724\n",
        ),
        (retire(1, 2), Ok(()), b"retired 2\n"),
        (
            bill(1, DAY),
            Ok(()),
            b"bill 1 19723 1 525\naccount 1 77 4 525\n",
        ),
        (retire(1, 1), Ok(()), b"retired 1\n"),
        (
            bill(1, DAY + 2),
            Ok(()),
            b"bill 1 19725 0 0\nshort 1\nshort 2\n",
        ),
    ];
    are_answered(&rt, alloc, &mut hub, &cases);
}

// A ledger that fails retires nothing, and nothing is written; asked again it retires the lane.
#[test]
fn a_ledger_that_fails_retires_nothing(rt: HostRuntime) {
    let alloc = rt.alloc();
    let mut hub = failing_hub(alloc, 1).expect(&rt, "hub");
    let cases: [(Result<(), DeskFault>, &[u8]); 3] = [
        (Err(DeskFault::Store), b""),
        (Ok(()), b"retired 2\n"),
        (Err(DeskFault::Retired), b""),
    ];
    for (end, lines) in cases {
        let question = retire(1, 2).expect(&rt, "question");
        let (ended, said) = answered(alloc, &mut hub, question).expect(&rt, "answer");
        same(&rt, &(ended, said.as_slice()), &(end, lines));
    }
}
