//! Lanes of devices that are retired between sessions.
use crate::checking::same;
use crate::given::{close_day, ledger_of};
use fare_owner::RetireFault;
use fare_record::{Day, DeviceId, OwnerId, Record};
use fare_samples::{FIRST, Numbers, record};
use fare_scripts::{collected_and_served, hub_of, narrow, scripts_of, whole};
use fare_sessions::{Hub, RetiringFault};
use fare_store::Refused::Because;
use fare_store::{FailingLedger, Fault, Ledger, Outbox, PlainLedger, PlainOutbox, Refused};
use std::alloc::Global;

// The day of the taps.
const DAY: u64 = 19_723;

// The ledger of an owner that has taken the first tap of device 1, and has closed the day of device 2.
fn waiting_ledger(alloc: Global, first: &Record) -> Option<PlainLedger> {
    let mut ledger = ledger_of(alloc, &narrow(alloc)?)?;
    ledger.take(first).ok()?;
    close_day(&mut ledger, 2, DAY, 0)?;
    Some(ledger)
}

// Stores three taps of device 1.
fn store_three<O: Outbox>(outbox: &mut O) -> Option<()> {
    for number in 1..=3 {
        let row = record(Numbers {
            link: number,
            lane: number,
            ..FIRST
        })?;
        outbox.store(&row).ok()?;
    }
    Some(())
}

// A hub with that ledger, in whose outbox lie three taps of device 1.
fn waiting_hub(alloc: Global) -> Option<Hub<PlainOutbox, PlainLedger>> {
    let first = record(FIRST)?;
    let scheme = narrow(alloc)?;
    let ledger = waiting_ledger(alloc, &first)?;
    let mut hub = hub_of(alloc, scheme, PlainOutbox::new(alloc), ledger)?;
    store_three(&mut hub.outbox)?;
    Some(hub)
}

// How an owner's lane of a device is retired.
fn retire<O: Outbox, L: Ledger>(
    hub: &mut Hub<O, L>,
    owner: u64,
    device: u64,
) -> Option<Result<(), Refused<RetiringFault>>> {
    if hub.ledgers.len() != hub.scheme.owner_count() {
        return None;
    }
    Some(hub.retire(OwnerId::new(owner)?, DeviceId::new(device)?))
}

/// What a bill of the day says.
#[derive(Clone, Copy, PartialEq, Eq, Debug)]
struct Billed {
    rides: u64,
    total: u128,
    // Of how many devices it is short, and the first of these.
    short: (usize, Option<DeviceId>),
}

fn bill_of_the_day<O: Outbox, L: Ledger>(alloc: Global, hub: &mut Hub<O, L>) -> Option<Billed> {
    if hub.ledgers.len() != hub.scheme.owner_count() {
        return None;
    }
    let (bill, short) = hub.bill(alloc, OwnerId::new(1)?, Day::new(DAY)?).ok()?;
    Some(Billed {
        rides: bill.rows().first()?.rides,
        total: bill.total(),
        short: (short.len(), short.first().copied()),
    })
}

// How many taps of device 1 the ledger has taken, and the lane number of the first row that the outbox holds of it.
fn held<O: Outbox, L: Ledger>(hub: &mut Hub<O, L>) -> Option<(u64, Option<u64>)> {
    let (owner, device) = (OwnerId::new(1)?, DeviceId::new(1)?);
    let row = hub.outbox.next_row(owner, device, 0).ok()?;
    let taken = hub.ledgers.first_mut()?.count(device).ok()?;
    Some((taken, row.map(Record::lane)))
}

// What was taken goes from the outbox and the rest stays there; nothing more is taken, and the bill is the same.
#[test]
fn a_session_leaves_the_rows_of_a_retired_lane(rt: HostRuntime) {
    let alloc = rt.alloc();
    let mut hub = waiting_hub(alloc).expect(&rt, "hub");
    same(&rt, &bill_of_the_day(alloc, &mut hub), &None);
    same(&rt, &retire(&mut hub, 1, 1), &Some(Ok(())));
    let want = Some(Billed {
        rides: 1,
        total: 175,
        short: (1, DeviceId::new(1)),
    });
    same(&rt, &bill_of_the_day(alloc, &mut hub), &want);
    same(&rt, &held(&mut hub), &Some((1, Some(1))));
    for _ in 0..2 {
        let silent = scripts_of(alloc, 2, &[]).expect(&rt, "sources");
        let (seen, _) = collected_and_served(&rt, alloc, &mut hub, silent, 0).expect(
            &rt, "sessions",
        );
        same(&rt, &seen, &whole(0, 0));
        same(&rt, &held(&mut hub), &Some((1, Some(2))));
        same(&rt, &bill_of_the_day(alloc, &mut hub), &want);
    }
}

#[test]
fn a_lane_is_retired_once(rt: HostRuntime) {
    let refused = |why| Err(Because(RetiringFault::Ledger(why)));
    let cases = [
        ((9, 9), Err(Because(RetiringFault::UnknownOwner))),
        ((1, 9), refused(RetireFault::NotMine)),
        ((1, 1), Ok(())),
        ((1, 1), refused(RetireFault::Retired)),
        ((1, 2), Ok(())),
    ];
    let mut hub = waiting_hub(rt.alloc()).expect(&rt, "hub");
    for ((owner, device), want) in cases {
        same(&rt, &retire(&mut hub, owner, device), &Some(want));
    }
}

// A ledger that fails leaves the lane as it was, and the next try retires it.
#[test]
fn a_retire_may_fail_and_be_tried_again(rt: HostRuntime) {
    let alloc = rt.alloc();
    let Hub {
        scheme,
        outbox,
        mut ledgers,
    } = waiting_hub(alloc).expect(&rt, "hub");
    let ledger = FailingLedger::new(ledgers.pop().expect(&rt, "ledger"), 1);
    let mut hub = hub_of(alloc, scheme, outbox, ledger).expect(&rt, "hub");
    let failed = Err(Refused::Failed(Fault::Store));
    same(&rt, &retire(&mut hub, 1, 1), &Some(failed));
    same(&rt, &bill_of_the_day(alloc, &mut hub), &None);
    same(&rt, &retire(&mut hub, 1, 1), &Some(Ok(())));
    let again = Err(Because(RetiringFault::Ledger(RetireFault::Retired)));
    same(&rt, &retire(&mut hub, 1, 1), &Some(again));
}
