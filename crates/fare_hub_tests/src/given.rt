//! Frames, a scheme and a ledger that the tests of sessions are given.
use fare_day::Zone;
use fare_frame::Frame;
use fare_record::{Ack, Day, DayAck, DeviceId, LAST_NUMBER, OwnerId};
use fare_samples::statement;
use fare_scheme::{Draft, Scheme};
use fare_store::{Ledger, PlainLedger};
use std::alloc::Global;

pub(crate) fn ack(device: u64, upto: u64) -> Option<Frame> {
    if upto > LAST_NUMBER {
        return None;
    }
    Some(Frame::Acked(Ack::new(DeviceId::new(device)?, upto)))
}

pub(crate) fn day_ack(device: u64, day: u64) -> Option<Frame> {
    Some(Frame::DayAcked(DayAck::new(DeviceId::new(device)?, Day::new(day)?)))
}

// A new ledger of owner 1.
pub(crate) fn ledger_of(alloc: Global, scheme: &Scheme) -> Option<PlainLedger> {
    PlainLedger::new(alloc, scheme, OwnerId::new(1)?).ok()
}

// States to owner 1 how many taps a device had on a day, and closes the day.
pub(crate) fn close_day<L: Ledger>(
    ledger: &mut L,
    device: u64,
    day: u64,
    count: u64,
) -> Option<()> {
    ledger.state(&statement(device, day, 1, count)?).ok()?;
    ledger.close(DeviceId::new(device)?, Day::new(day)?).ok()
}

// Registers sixteen stations, each with one device.
fn add_stations(draft: &mut Draft) -> Option<()> {
    draft.add_owner(1, 64).ok()?;
    draft.add_operator(1).ok()?;
    draft.add_product(1, 1, 175).ok()?;
    for station in 1..=16_u16 {
        draft.add_station(station, 1).ok()?;
        draft.add_device(station as u32, station, 64).ok()?;
    }
    draft.set_inbox(4).ok()
}

pub(crate) fn sixteen(alloc: Global) -> Option<Scheme> {
    let zone = Zone::read("GMT0BST,M3.5.0/1,M10.5.0").ok()?;
    let mut draft = Draft::new(alloc);
    draft.set_zone(zone);
    draft.set_start(19_723).ok()?;
    add_stations(&mut draft)?;
    draft.seal().ok()
}
