//! What is of closed weeks goes from stores by an operator's order, and the lines that come of it.
use crate::checking::same;
use crate::desk::{DAY, answered, bill};
use fare_command::Question;
use fare_desk::DeskFault;
use fare_record::{Day, DeviceId, OwnerId};
use fare_samples::{FIRST, Numbers, record, statement};
use fare_scheme::{DemoSize, Scheme};
use fare_sessions::Hub;
use fare_store::{FailingLedger, FailingOutbox, Ledger, Outbox, PlainLedger, PlainOutbox};
use std::alloc::Global;
use std::process::Abort;

// A tap of a device on the Monday of each of three weeks; of these days so many are closed, from the first on.
fn fill_weeks<L: Ledger>(ledger: &mut L, device: u64, days: u64) -> Option<()> {
    for week in 0..3u64 {
        let row = record(Numbers {
            device,
            link: week.saturating_add(1),
            lane: week.saturating_add(1),
            moment: FIRST.moment.saturating_add(week.saturating_mul(604_800)),
            day: DAY.saturating_add(week.saturating_mul(7)),
            ..FIRST
        })?;
        ledger.take(&row).ok()?;
    }
    for day in 0..days {
        let count = if day % 7 == 0 { 1 } else { 0 };
        let number = DAY.saturating_add(day);
        ledger.state(&statement(device, number, 1, count)?).ok()?;
        ledger
            .close(DeviceId::new(device)?, Day::new(number)?)
            .ok()?;
    }
    Some(())
}

// The outbox, which has the statements of device 1.
fn weeks_outbox(alloc: Global) -> Option<PlainOutbox> {
    let mut outbox = PlainOutbox::new(alloc);
    for day in 0..21 {
        let count = if day % 7 == 0 { 1 } else { 0 };
        let stated = statement(1, DAY.saturating_add(day), 1, count)?;
        outbox.store_statement(&stated).ok()?;
    }
    Some(outbox)
}

// A hub of an owner that has closed three weeks of device 1, and ten days of device 2.
fn weeks_hub(alloc: Global) -> Option<Hub<PlainOutbox, PlainLedger>> {
    let scheme = Scheme::demo(alloc, DemoSize::TwoDevices, 4, 1, 4).ok()?;
    let mut ledger = PlainLedger::new(alloc, &scheme, OwnerId::new(1)?).ok()?;
    fill_weeks(&mut ledger, 1, 21)?;
    fill_weeks(&mut ledger, 2, 10)?;
    Some(Hub {
        scheme,
        outbox: weeks_outbox(alloc)?,
        ledgers: Vec::from_array(alloc, [ledger]).ok()?,
    })
}

// The same, whose outbox fails at a call, and whose ledger at one.
fn failing_hub(
    alloc: Global,
    outbox_call: u64,
    ledger_call: u64,
) -> Option<Hub<FailingOutbox<PlainOutbox>, FailingLedger>> {
    let Hub {
        scheme,
        outbox,
        mut ledgers,
    } = weeks_hub(alloc)?;
    let failing = FailingLedger::new(ledgers.pop()?, ledger_call.max(1));
    Some(Hub {
        scheme,
        outbox: FailingOutbox::new(outbox, outbox_call.max(1)),
        ledgers: Vec::from_array(alloc, [failing]).ok()?,
    })
}

fn before(day: u64) -> Option<Question> {
    Some(Question::Forget {
        before: Day::new(day)?,
    })
}

fn retire(device: u64) -> Option<Question> {
    Some(Question::Retire {
        owner: OwnerId::new(1)?,
        device: DeviceId::new(device)?,
    })
}

// What is of the days before a day's week goes of each lane that is closed so far, and nothing of the others.
#[test]
fn closed_weeks_go_lane_by_lane(rt: HostRuntime) {
    let alloc = rt.alloc();
    let device = DeviceId::new(1).expect(&rt, "device");
    let cases: [(Option<Question>, Result<(), DeskFault>, &[u8]); 11] = [
        (
            before(DAY + 9),
            Ok(()),
            b"forgot 1 1 taps 1 from 19730\nforgot 1 2 taps 1 from 19730\n",
        ),
        (
            before(DAY + 7),
            Ok(()),
            b"forgot 1 1 taps 0 from 19730\nforgot 1 2 taps 0 from 19730\n",
        ),
        (
            before(DAY + 20),
            Ok(()),
            b"forgot 1 1 taps 1 from 19737\nforgot 1 2 taps 0 from 19730 open\n",
        ),
        (bill(1, DAY), Err(DeskFault::Forgotten { device }), b""),
        (bill(1, DAY + 9), Err(DeskFault::Forgotten { device }), b""),
        (
            Some(Question::Stand),
            Ok(()),
            b"upto 1 0\nupto 2 0\nlane 1 1 taken 3 closed 19743 rows 0 statements 0 from 19737\nlane 1 2 taken 3 closed 19732 rows 0 statements 0 from 19730\n",
        ),
        (
            before(0),
            Ok(()),
            b"forgot 1 1 taps 0 from 19737\nforgot 1 2 taps 0 from 19730\n",
        ),
        (retire(2), Ok(()), b"retired 2\n"),
        (
            before(DAY + 20),
            Ok(()),
            b"forgot 1 1 taps 0 from 19737\nforgot 1 2 taps 1 from 19737\n",
        ),
        (
            Some(Question::Stand),
            Ok(()),
            b"upto 1 0\nupto 2 0\nlane 1 1 taken 3 closed 19743 rows 0 statements 0 from 19737\nlane 1 2 taken 3 closed 19732 rows 0 statements 0 from 19737 retired\n",
        ),
        (
            bill(1, DAY + 14),
            Ok(()),
            b"bill 1 19737 1 350\naccount 1 77 2 350\nshort 2\n",
        ),
    ];
    let mut hub = weeks_hub(alloc).expect(&rt, "hub");
    for (question, want, lines) in cases {
        let question = question.expect(&rt, "question");
        let (ended, said) = answered(alloc, &mut hub, question).expect(&rt, "answer");
        same(&rt, &(ended, said.as_slice()), &(want, lines));
    }
}

/// How an order ended of which a store call fails, how the next one did, how many taps of device 1 are gone then, and the
/// first day of which the outbox has a statement of it.
type Orders = (Result<(), DeskFault>, Result<(), DeskFault>, u64, u64);

fn orders(alloc: Global, outbox_call: u64, ledger_call: u64) -> Option<Orders> {
    let mut hub = failing_hub(alloc, outbox_call, ledger_call)?;
    let (first, _) = answered(alloc, &mut hub, before(DAY + 14)?)?;
    let (second, _) = answered(alloc, &mut hub, before(DAY + 14)?)?;
    let (owner, device, day) = (OwnerId::new(1)?, DeviceId::new(1)?, Day::new(0)?);
    let ledger = hub.ledgers.first_mut()?;
    let gone = ledger.gone(device).ok()?;
    let stated = hub.outbox.next_statement(owner, device, day).ok()??;
    Some((first, second, gone, u64::from(stated.day().get())))
}

// How many of these calls come before one that an order doesn't make. Where one of those fails, the next order lets go
// what is left, in the ledger and in the outbox.
fn calls_of(rt: &impl Abort, alloc: Global, in_outbox: bool) -> u64 {
    for call in 1..60 {
        let (outbox_call, ledger_call) = if in_outbox {
            (call, 1_000)
        } else {
            (1_000, call)
        };
        let ended = orders(alloc, outbox_call, ledger_call).expect(rt, "orders");
        if ended.0 == Ok(()) {
            return call.saturating_sub(1);
        }
        same(rt, &ended, &(Err(DeskFault::Store), Ok(()), 2, DAY + 14));
    }
    0
}

// The outbox is asked once for each week of a lane that goes, and the ledger more often.
#[test]
fn an_order_that_failed_is_given_again(rt: HostRuntime) {
    same(&rt, &calls_of(&rt, rt.alloc(), true), &2);
    assert!(rt; calls_of(&rt, rt.alloc(), false) > 2);
}
