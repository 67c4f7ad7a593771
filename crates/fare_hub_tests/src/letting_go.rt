//! What is of closed weeks goes from the ledgers and the outbox between sessions.
use crate::checking::same;
use crate::given::{close_day, ledger_of};
use fare_record::{Day, DeviceId, OwnerId, Record};
use fare_samples::{FIRST, Numbers, record, statement};
use fare_scripts::{collected_and_served, hub_of, narrow, scripts_of, whole};
use fare_sessions::{BillingFault, ForgettingFault, Hub};
use fare_store::Refused::{Because, Failed};
use fare_store::{
    FailingLedger, FailingOutbox, Fault, ForgetFault, Ledger, Outbox, PlainLedger, PlainOutbox,
    Refused,
};
use fare_world::BillFault;
use std::alloc::Global;

// The first Monday, and how many days the weeks have whose taps are closed.
const MONDAY: u64 = 19_723;

const DAYS: u64 = 35;

// How many taps each of two devices has in them: one a day on three days of each week.
const TAPS: u64 = 15;

// The tap of a device with this lane number.
fn tap_of(device: u64, number: u64) -> Option<Record> {
    let before = number.saturating_sub(1);
    let day = (before / 3).saturating_mul(7).saturating_add(before % 3);
    record(Numbers {
        device,
        link: number,
        lane: number,
        moment: FIRST.moment.saturating_add(day.saturating_mul(86_400)),
        day: MONDAY.saturating_add(day),
        ..FIRST
    })
}

// States and closes the days of a device.
fn close_days<L: Ledger>(ledger: &mut L, device: u64) -> Option<()> {
    for day in 0..DAYS {
        let count = if day % 7 < 3 { 1 } else { 0 };
        let number = MONDAY.saturating_add(day);
        close_day(ledger, device, number, count)?;
    }
    Some(())
}

// Takes a device's taps of five weeks, and closes its days.
fn take_weeks<L: Ledger>(ledger: &mut L, device: u64) -> Option<()> {
    for number in 1..=TAPS {
        ledger.take(&tap_of(device, number)?).ok()?;
    }
    close_days(ledger, device)
}

// The ledger of an owner that has taken five weeks of two devices, and closed them.
fn weeks_ledger(alloc: Global) -> Option<PlainLedger> {
    let mut ledger = ledger_of(alloc, &narrow(alloc)?)?;
    take_weeks(&mut ledger, 1)?;
    take_weeks(&mut ledger, 2)?;
    Some(ledger)
}

// Stores the statements of a device's days.
fn state_days<O: Outbox>(outbox: &mut O, device: u64) -> Option<()> {
    for day in 0..DAYS {
        let count = if day % 7 < 3 { 1 } else { 0 };
        let number = MONDAY.saturating_add(day);
        let stated = statement(device, number, 1, count)?;
        outbox.store_statement(&stated).ok()?;
    }
    Some(())
}

// Stores the taps of device 1, the next one too, and the statements of both devices.
fn store_weeks<O: Outbox>(outbox: &mut O) -> Option<()> {
    for number in 1..=TAPS.saturating_add(1) {
        outbox.store(&tap_of(1, number)?).ok()?;
    }
    state_days(outbox, 1)?;
    state_days(outbox, 2)
}

// The outbox that had these taps and statements, and the next tap of device 1.
fn weeks_outbox(alloc: Global) -> Option<PlainOutbox> {
    let mut outbox = PlainOutbox::new(alloc);
    store_weeks(&mut outbox)?;
    Some(outbox)
}

fn weeks_hub(alloc: Global) -> Option<Hub<PlainOutbox, PlainLedger>> {
    hub_of(
        alloc,
        narrow(alloc)?,
        weeks_outbox(alloc)?,
        weeks_ledger(alloc)?,
    )
}

/// What came of asking for a bill.
#[derive(Clone, Copy, PartialEq, Eq, Debug)]
enum Told {
    /// Its total.
    Total(u128),
    /// Taps of the week were let go, of this device first.
    Forgotten(u32),
    /// The day of this device is not closed.
    NotClosed(u32),
    /// It was refused for another cause, or the ledger failed.
    Other,
}

fn unbilled(why: BillFault) -> Told {
    match why {
        BillFault::NotClosed { device } => Told::NotClosed(device.get()),
        BillFault::UnknownOwner | BillFault::BeforeStart => Told::Other,
    }
}

fn refused(why: BillingFault) -> Told {
    match why {
        BillingFault::Forgotten { device } => Told::Forgotten(device.get()),
        BillingFault::Unbilled(why) => unbilled(why),
    }
}

// What came of asking for the bill of the last day of a week.
fn billed<O: Outbox, L: Ledger>(alloc: Global, hub: &mut Hub<O, L>, week: u64) -> Option<Told> {
    if hub.ledgers.len() != hub.scheme.owner_count() {
        return None;
    }
    let day = MONDAY
        .saturating_add(week.saturating_mul(7))
        .saturating_add(6);
    match hub.bill(alloc, OwnerId::new(1)?, Day::new(day)?) {
        Ok((bill, _)) => Some(Told::Total(bill.total())),
        Err(Because(why)) => Some(refused(why)),
        Err(Failed(_)) => Some(Told::Other),
    }
}

// Lets go what is of a device's days before a week's Monday.
fn forget<O: Outbox, L: Ledger>(
    hub: &mut Hub<O, L>,
    owner: u64,
    device: u64,
    week: u64,
) -> Option<Result<(), Refused<ForgettingFault>>> {
    if hub.ledgers.len() != hub.scheme.owner_count() {
        return None;
    }
    let day = MONDAY.saturating_add(week.saturating_mul(7));
    Some(hub.forget(OwnerId::new(owner)?, DeviceId::new(device)?, Day::new(day)?))
}

// How many taps of a device were taken, how many went, and the first day of which all is held.
fn held<O: Outbox, L: Ledger>(hub: &mut Hub<O, L>, device: u64) -> Option<(u64, u64, u64)> {
    let device = DeviceId::new(device)?;
    let ledger = hub.ledgers.first_mut()?;
    let taken = ledger.count(device).ok()?;
    let gone = ledger.gone(device).ok()?;
    let from = ledger.held_from(device).ok()?;
    Some((taken, gone, u64::from(from.get())))
}

// The first day of which the outbox holds a statement of each of the two devices.
fn first_stated<O: Outbox, L: Ledger>(hub: &mut Hub<O, L>) -> Option<[Option<u32>; 2]> {
    let (owner, day) = (OwnerId::new(1)?, Day::new(0)?);
    let mut first = [None; 2];
    for place in 0..2 {
        let device = DeviceId::new(place as u64 + 1)?;
        let next = hub.outbox.next_statement(owner, device, day).ok()?;
        first[place] = next.map(|statement| statement.day().get());
    }
    Some(first)
}

// What the bills of the five weeks say, in their order.
fn bills<O: Outbox, L: Ledger>(alloc: Global, hub: &mut Hub<O, L>) -> [Option<Told>; 5] {
    let mut told = [None; 5];
    for week in 0..5 {
        told[week] = billed(alloc, hub, week as u64);
    }
    told
}

#[test]
fn bills_of_weeks_that_are_held_stay_the_same(rt: HostRuntime) {
    let alloc = rt.alloc();
    let mut hub = weeks_hub(alloc).expect(&rt, "hub");
    let before = bills(alloc, &mut hub);
    same(&rt, &forget(&mut hub, 1, 2, 2), &Some(Ok(())));
    same(&rt, &held(&mut hub, 2), &Some((15, 6, MONDAY + 14)));
    let two = Some(Told::Forgotten(2));
    let want = [two, two, before[2], before[3], before[4]];
    same(&rt, &bills(alloc, &mut hub), &want);
    // Again, nothing more goes.
    for _ in 0..2 {
        same(&rt, &forget(&mut hub, 1, 1, 3), &Some(Ok(())));
        same(&rt, &held(&mut hub, 1), &Some((15, 9, MONDAY + 21)));
    }
    let one = Some(Told::Forgotten(1));
    let want = [one, one, one, before[3], before[4]];
    same(&rt, &bills(alloc, &mut hub), &want);
    let totals = before.map(|told| matches!(told, Some(Told::Total(_))));
    same(&rt, &totals, &[true; 5]);
}

#[test]
fn what_goes_is_of_days_that_are_over(rt: HostRuntime) {
    let refused = |why| Err(Because(ForgettingFault::Ledger(why)));
    let cases = [
        ((9, 9, 9), Err(Because(ForgettingFault::UnknownOwner))),
        ((1, 9, 9), refused(ForgetFault::UnknownDevice)),
        ((1, 1, 6), refused(ForgetFault::NotClosed)),
        ((1, 1, 5), Ok(())),
    ];
    let mut hub = weeks_hub(rt.alloc()).expect(&rt, "hub");
    for ((owner, device, week), want) in cases {
        same(&rt, &forget(&mut hub, owner, device, week), &Some(want));
    }
    same(&rt, &held(&mut hub, 1), &Some((15, 15, MONDAY + 35)));
    let device = DeviceId::new(2).expect(&rt, "device");
    let ledger = hub.ledgers.first_mut().expect(&rt, "ledger");
    same(&rt, &ledger.retire(device), &Ok(()));
    same(&rt, &forget(&mut hub, 1, 2, 6), &Some(Ok(())));
    same(&rt, &held(&mut hub, 2), &Some((15, 15, MONDAY + 42)));
}

// A tap of a day that went is refused as one of a closed day, and the next one is taken in a session.
#[test]
fn a_session_goes_on_behind_what_went(rt: HostRuntime) {
    let alloc = rt.alloc();
    let mut hub = weeks_hub(alloc).expect(&rt, "hub");
    same(&rt, &forget(&mut hub, 1, 1, 5), &Some(Ok(())));
    let silent = scripts_of(alloc, 2, &[]).expect(&rt, "sources");
    let (seen, _) = collected_and_served(&rt, alloc, &mut hub, silent, 0).expect(&rt, "sessions");
    same(&rt, &seen, &whole(0, 1));
    same(&rt, &held(&mut hub, 1), &Some((16, 15, MONDAY + 35)));
    let want = Some(Told::NotClosed(1));
    same(&rt, &billed(alloc, &mut hub, 5), &want);
}

// A ledger that fails holds what it held, and the next try lets it go.
#[test]
fn a_letting_go_may_fail_and_be_tried_again(rt: HostRuntime) {
    let alloc = rt.alloc();
    let ledger = weeks_ledger(alloc).expect(&rt, "ledger");
    let outbox = weeks_outbox(alloc).expect(&rt, "outbox");
    let scheme = narrow(alloc).expect(&rt, "scheme");
    let failing = FailingLedger::new(ledger, 1);
    let mut hub = hub_of(alloc, scheme, outbox, failing).expect(&rt, "hub");
    same(
        &rt,
        &forget(&mut hub, 1, 1, 3),
        &Some(Err(Failed(Fault::Store))),
    );
    same(&rt, &held(&mut hub, 1), &Some((15, 0, 0)));
    same(&rt, &forget(&mut hub, 1, 1, 3), &Some(Ok(())));
    same(&rt, &held(&mut hub, 1), &Some((15, 9, MONDAY + 21)));
}

// The statements of a lane go with what its ledger lets go, also where the outbox failed behind the ledger, and where
// nothing of the ledger is left to go.
#[test]
fn statements_go_behind_what_a_ledger_lets_go(rt: HostRuntime) {
    let alloc = rt.alloc();
    let ledger = weeks_ledger(alloc).expect(&rt, "ledger");
    let outbox = weeks_outbox(alloc).expect(&rt, "outbox");
    let scheme = narrow(alloc).expect(&rt, "scheme");
    let failing = FailingOutbox::new(outbox, 2);
    let mut hub = hub_of(alloc, scheme, failing, ledger).expect(&rt, "hub");
    same(
        &rt,
        &forget(&mut hub, 1, 1, 6),
        &Some(Err(Because(ForgettingFault::Ledger(ForgetFault::NotClosed)))),
    );
    same(&rt, &forget(&mut hub, 1, 2, 1), &Some(Ok(())));
    let cases = [
        (Err(Failed(Fault::Store)), 19_723),
        (Ok(()), 19_744),
        (Ok(()), 19_744),
    ];
    for (want, day) in cases {
        same(&rt, &forget(&mut hub, 1, 1, 3), &Some(want));
        same(&rt, &held(&mut hub, 1), &Some((15, 9, MONDAY + 21)));
        let first = [Some(day), Some(19_730)];
        same(&rt, &first_stated(&mut hub), &Some(first));
    }
}
