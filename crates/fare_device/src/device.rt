ghost use Rattle.std.specs.Prelude.{◌≡◌, ◌≢◌, ◌↔◌, ◌<◌, ◌≤◌, ◌+◌, ◌-◌, ℕ, None, Some, IsSome, IsTrue, IsFalse, IfSome, IfNone, IsOk, IfOk, IfErr, IsErr, OnOk, OnErr, MatchResult, length, nat_eq, option_map, position, slice_get};
ghost use Rattle.fare_frame.specs.declared.frame.Frame.TheVariants.{Tapped};
ghost use Rattle.fare_scheme.specs.Words.{buffer_of, position_of_device};
ghost use Rattle.fare_device.specs.DeviceWords.{IsDeviceValue, fresh_device, taking_over, acknowledged, last_link, AreNumbers};
ghost use Rattle.std.specs.List.{sum};
ghost use Rattle.std.specs.Map.{keys_of};
ghost use Rattle.fare_device.specs.Tapping.{MayNumber, IsNumbered, IsTapped, TapRefused};
ghost use Rattle.fare_device.specs.Turning.{turn_judged, turned, stated, is_waiting, day_acknowledged};

use crate::days::{Counts, WaitingDays};
use fare_buffer::{Waiting, WaitingFault};
use fare_frame::Frame;
use fare_link::{AckAhead, Sender};
use fare_record::{
    Day, DeviceId, LAST_NUMBER, Moment, OwnerId, ProductId, Record, Statement, Tap, Token,
};
use fare_scheme::{MOST_OWNERS, Scheme};
use std::alloc::{AllocError, Global};
use std::marker::Model;
use thiserror::Error;

/// Why no device was made.
#[derive(Clone, Copy, PartialEq, Eq, Debug, Error)]
pub enum DeviceFault {
    /// The device is not registered.
    #[error("unknown device")]
    UnknownDevice,
    /// There was no memory for it.
    #[error("no memory")]
    Memory,
}

/// Why no device took numbers over.
#[derive(Clone, Copy, PartialEq, Eq, Debug, Error)]
pub enum NumbersFault {
    /// The device is not registered.
    #[error("unknown device")]
    UnknownDevice,
    /// There is not one lane count for each owner, their sum is not the last link, or that is above
    /// `LAST_NUMBER`.
    #[error("the numbers are out of range")]
    Range,
    /// There was no memory for it.
    #[error("no memory")]
    Memory,
}

/// Why a tap was not numbered.
#[derive(Clone, Copy, PartialEq, Eq, Debug, Error)]
pub enum TapRefusal {
    /// The product is not registered.
    #[error("unknown product")]
    UnknownProduct,
    /// The tap's day is before the open day.
    #[error("the day is closed")]
    DayClosed,
    /// The tap's day is after the open day.
    #[error("the day is ahead")]
    DayAhead,
    /// All link numbers were given out.
    #[error("the numbers are spent")]
    NumbersSpent,
    /// As many taps as the buffer holds wait for their acknowledgement.
    #[error("the buffer is full")]
    BufferFull,
}

/// Why the open day was not turned.
#[derive(Clone, Copy, PartialEq, Eq, Debug, Error)]
pub enum TurnRefusal {
    /// The open day is the last that there is.
    #[error("the open day is the last")]
    LastDay,
    /// As many days as there may be wait for their acknowledgement.
    #[error("the statements are full")]
    StatementsFull,
}

/// A day that does not wait, or an owner that is not registered: there is no such statement.
#[derive(Clone, Copy, PartialEq, Eq, Debug, Error)]
#[error("no such statement waits")]
pub struct NotWaiting;

/// A device: a validator that numbers the taps of its open day and keeps them until they are acknowledged, and
/// that keeps the counts of each turned day until its statements are acknowledged.
#[derive(Debug)]
pub struct Device {
    id: DeviceId,
    day: Day,
    waiting: Waiting,
    link: Sender,
    owners: Vec<OwnerId>,
    lanes: Vec<u64>,
    counts: Counts,
    days: WaitingDays,
}

impl Drop for Device {
    // Derived, its parts would stand in the proof of each function that may let a device go.
    fn drop(self) {
        let Device {
            id: _,
            day: _,
            waiting,
            link: _,
            owners,
            lanes,
            counts,
            days,
        } = self;
        drop(waiting);
        drop(owners);
        drop(lanes);
        drop(counts);
        drop(days);
    }
}

impl Model for Device {
    ghost use Rattle.fare_device.specs.DeviceWords.{DeviceValue, IsDeviceValue};

    ghost Value = { DeviceValue };

    ghost view = { λ a. record {
      id = a.id;
      day = a.day;
      waiting = a.waiting.items;
      room = a.waiting.capacity;
      base = a.link.base;
      cursor = a.link.cursor;
      owners = a.owners.items;
      lanes = a.lanes.items;
      counts = a.counts;
      days = a.days;
    } };

    ghost invariant = { λ a. IsDeviceValue (record {
      id = a.id;
      day = a.day;
      waiting = a.waiting.items;
      room = a.waiting.capacity;
      base = a.link.base;
      cursor = a.link.cursor;
      owners = a.owners.items;
      lanes = a.lanes.items;
      counts = a.counts;
      days = a.days;
    }) };
}

impl Device {
    /// A device that has numbered nothing; its open day is the scheme's first. `UnknownDevice` where it is
    /// not registered, `Memory` where there was none.
    pub fn new(alloc: Global, id: DeviceId, scheme: &Scheme) -> Result<Device, DeviceFault>
        ensures made { IfOk result (λ device. device ≡ fresh_device id scheme.now.start device.room (keys_of scheme.now.owners)) }
        ensures room { IfOk result (λ device. buffer_of scheme.now id ≡ Some device.room) }
        ensures lanes { IfOk result (λ device. length device.lanes ≡ length scheme.now.owners) }
        ensures known { IfOk result (λ _. IsSome (position_of_device scheme.now id)) }
        ensures unknown { IfErr result (λ fault. (fault ≡ DeviceFault.UnknownDevice) ↔ (position_of_device scheme.now id ≡ None)) }
    {
        let Some(buffer) = scheme.buffer_of(id) else {
            return Err(DeviceFault::UnknownDevice);
        };
        let waiting = match Waiting::new(alloc, buffer) {
            Ok(waiting) => waiting,
            Err(WaitingFault::Memory) => return Err(DeviceFault::Memory),
            Err(WaitingFault::Range) => unreachable!(),
        };
        let Ok(lanes) = vec![in alloc; 0; scheme.owner_count()] else {
            return Err(DeviceFault::Memory);
        };
        let Ok(owners) = scheme.owners().to_vec(alloc) else {
            return Err(DeviceFault::Memory);
        };
        let Ok(days) = WaitingDays::new(alloc) else {
            return Err(DeviceFault::Memory);
        };
        Ok(Device {
            id,
            day: scheme.start(),
            waiting,
            link: Sender::new(),
            owners,
            lanes,
            counts: [0; MOST_OWNERS],
            days,
        })
    }

    /// The device that takes the place of one which gave out the links up to `last`, and to each owner, in
    /// order of registration, as many lane numbers as `lanes` says. All of them count as acknowledged, so
    /// nothing waits, no day either. Its open day is `day`, of which the caller knows that no tap was numbered,
    /// so its counts are 0.
    ///
    /// The first fault that applies, in the order `UnknownDevice`, `Range`, `Memory`.
    pub fn with_numbers(
        alloc: Global,
        id: DeviceId,
        scheme: &Scheme,
        day: Day,
        last: u64,
        lanes: &[u64],
    ) -> Result<Device, NumbersFault>
        ensures made { IfOk result (λ device. device ≡ taking_over id day device.room (keys_of scheme.now.owners) last lanes.now) }
        ensures room { IfOk result (λ device. buffer_of scheme.now id ≡ Some device.room) }
        ensures lanes { IfOk result (λ device. length device.lanes ≡ length scheme.now.owners) }
        ensures numbers { IfOk result (λ _. AreNumbers scheme.now last lanes.now) }
        ensures unknown { IfErr result (λ fault. (fault ≡ NumbersFault.UnknownDevice) ↔ (position_of_device scheme.now id ≡ None)) }
        ensures range { IfErr result (λ fault. (fault ≡ NumbersFault.Range) ↔ (IsSome (position_of_device scheme.now id) × (AreNumbers scheme.now last lanes.now → ⊥))) }
    {
        if scheme.device_position(id).is_none() {
            return Err(NumbersFault::UnknownDevice);
        }
        if lanes.len() != scheme.owner_count() || last > LAST_NUMBER || !add_up(lanes, last) {
            return Err(NumbersFault::Range);
        }
        let Ok(mut device) = Device::new(alloc, id, scheme) else {
            return Err(NumbersFault::Memory);
        };
        device.lanes.copy_from_slice(lanes);
        device.day = day;
        if device.link.acked(last, last).is_err() {
            unreachable!()
        }
        Ok(device)
    }

    /// Its id.
    pub fn id(&self) -> DeviceId
        ensures value { result ≡ self.now.id }
        ensures valid { IsDeviceValue self.now }
    {
        self.id
    }

    /// The greatest link that was sent, 0 where none was.
    pub fn sent(&self) -> u64
        ensures { result ≡ self.now.cursor }
    {
        self.link.cursor()
    }

    /// The greatest link that was given out.
    pub fn last(&self) -> u64
        ensures value { result ≡ last_link self.now }
        ensures valid { result ≤ 1099511627775 }
    {
        self.link.base() + self.waiting.len() as u64
    }

    // The owner of a product and its place among the lanes, where a tap of this day may be numbered; else the first
    // refusal that applies but `BufferFull`.
    fn owner_for(
        &self,
        scheme: &Scheme,
        product: ProductId,
        day: Day,
    ) -> Result<(OwnerId, usize), TapRefusal>
        requires { length self.now.lanes ≡ length scheme.now.owners }
        ensures ok { IfOk result (λ p. MayNumber scheme.now self.now product day p.0 p.1) }
        ensures cause { IfErr result (λ e. TapRefused scheme.now self.now product day e × (e ≢ TapRefusal.BufferFull)) }
    {
        let Some(owner) = scheme.owner_of(product) else {
            return Err(TapRefusal::UnknownProduct);
        };
        if day < self.day {
            return Err(TapRefusal::DayClosed);
        }
        if day > self.day {
            return Err(TapRefusal::DayAhead);
        }
        if self.last() >= LAST_NUMBER {
            return Err(TapRefusal::NumbersSpent);
        }
        match scheme.owner_position(owner) {
            Some(place) => Ok((owner, place)),
            None => unreachable!(),
        }
    }

    // Numbers a tap for the owner at this place, counts it and keeps it at the end of those that wait; `BufferFull`
    // where there is no room.
    fn number(&mut self, owner: OwnerId, place: usize, tap: Tap) -> Result<Record, TapRefusal>
        requires place { place < length self.old.lanes }
        requires few { last_link self.old < 1099511627775 }
        ensures ok { IfOk result (λ r. IsNumbered self.old owner place tap r self.new) }
        ensures full { IfErr result (λ e. (e ≡ TapRefusal.BufferFull) × (length self.old.waiting ≡ self.old.room)) }
        ensures err { OnErr result (self.new ≡ self.old) }
        ensures lanes { length self.new.lanes ≡ length self.old.lanes }
    {
        let lane = self.lanes[place] + 1;
        let numbered = Record::new(self.id, self.last() + 1, owner, lane, tap);
        if self.waiting.push(numbered).is_err() {
            return Err(TapRefusal::BufferFull);
        }
        self.lanes[place] = lane;
        self.counts[place] += 1;
        Ok(numbered)
    }

    /// Numbers a tap, counts it for its owner and keeps it at the end of those that wait. `day` is the traffic
    /// day of `moment`, `route` that on which it was made, or 0 where none is known, and the scheme is the one that the
    /// device was made with. Answers the numbered record, or the first refusal that applies, in the order
    /// `UnknownProduct`, `DayClosed`, `DayAhead`, `NumbersSpent`, `BufferFull`; then the device is as before.
    pub fn tap(
        &mut self,
        scheme: &Scheme,
        product: ProductId,
        token: Token,
        moment: Moment,
        day: Day,
        route: u16,
    ) -> Result<Record, TapRefusal>
        requires made_with { length self.old.lanes ≡ length scheme.now.owners }
        ensures ok { IfOk result (λ r. IsTapped scheme.now self.old product token moment day route r self.new) }
        ensures err { OnErr result (self.new ≡ self.old) }
        ensures cause { IfErr result (TapRefused scheme.now self.old product day) }
        ensures lanes { length self.new.lanes ≡ length self.old.lanes }
    {
        let (owner, place) = self.owner_for(scheme, product, day)?;
        self.number(owner, place, Tap::new(product, token, moment, day, route))
    }

    /// Turns the open day: the counts of its taps are final, and its statements wait for their
    /// acknowledgement. Answers the new open day, the day after it, of which nothing is counted. The first
    /// refusal that applies, in the order `LastDay`, `StatementsFull`; then the device is as before.
    pub fn turn_day(&mut self) -> Result<Day, TurnRefusal>
        ensures judged { result ≡ turn_judged self.old }
        ensures ok { OnOk result (self.new ≡ turned self.old) }
        ensures err { OnErr result (self.new ≡ self.old) }
        ensures lanes { length self.new.lanes ≡ length self.old.lanes }
    {
        let Some(next) = self.day.next_day() else {
            return Err(TurnRefusal::LastDay);
        };
        if self.days.is_full() {
            return Err(TurnRefusal::StatementsFull);
        }
        self.days.push(self.day, self.counts);
        self.counts = [0; MOST_OWNERS];
        self.day = next;
        Ok(next)
    }

    /// The statement of a day that waits: how many taps of it the device numbered for an owner. `NotWaiting`
    /// where the day does not wait, or the owner is not one of the scheme that the device was made with.
    pub fn statement(&self, day: Day, owner: OwnerId) -> Result<Frame, NotWaiting>
        ensures ok { IsOk result ↔ (IsTrue (is_waiting self.now.days day) × IsSome (position (nat_eq owner) self.now.owners)) }
        ensures value { MatchResult result (λ frame. stated self.now day owner ≡ Some frame) (λ _. stated self.now day owner ≡ None) }
    {
        let Some(place) = place_of(&self.owners, owner) else {
            return Err(NotWaiting);
        };
        let Some(count) = self.days.count(day, place) else {
            return Err(NotWaiting);
        };
        Ok(Frame::Stated(Statement::new(self.id, day, owner, count)))
    }

    /// The frame of the first tap that was not sent, which counts as sent from now on; None where all were
    /// sent.
    pub fn next_frame(&mut self) -> Option<Frame>
        ensures value { result ≡ option_map Tapped (slice_get self.old.waiting (self.old.cursor - self.old.base)) }
        ensures moves { IsSome result → self.new ≡ record self.old { cursor = self.old.cursor + 1 } }
        ensures none { IfNone result (self.old.cursor ≡ last_link self.old) }
        ensures stays { IfNone result (self.new ≡ self.old) }
        ensures lanes { length self.new.lanes ≡ length self.old.lanes }
    {
        let last = self.last();
        let link = self.link.next_link(last)?;
        let place = (link - 1 - self.link.base()) as usize;
        let Some(record) = self.waiting.get(place) else {
            unreachable!()
        };
        Some(Frame::Tapped(record))
    }

    /// Goes back to the first tap that waits, to send all of them again.
    pub fn rewind(&mut self)
        ensures value { self.new ≡ record self.old { cursor = self.old.base } }
        ensures lanes { length self.new.lanes ≡ length self.old.lanes }
    {
        self.link.rewind();
    }

    /// Hears that the hub has all taps up to link `upto`: they wait no more. The answer is how many left the
    /// buffer, 0 where all of them had left before. `AckAhead` where the device has numbered no such tap; then
    /// nothing changes.
    pub fn hear_ack(&mut self, upto: u64) -> Result<u64, AckAhead>
        ensures ahead { IsErr result ↔ ((self.old.base < upto) × (last_link self.old < upto)) }
        ensures dropped { IfOk result (λ n. n ≡ upto - self.old.base) }
        ensures ok { OnOk result (self.new ≡ acknowledged self.old upto) }
        ensures err { OnErr result (self.new ≡ self.old) }
        ensures lanes { length self.new.lanes ≡ length self.old.lanes }
    {
        let last = self.last();
        let dropped = self.link.acked(upto, last)?;
        self.waiting.drop_front(dropped as usize);
        Ok(dropped)
    }

    /// Hears that the hub has all statements of a day: they wait no more. False where the day did not wait; then
    /// nothing changes.
    pub fn hear_day_ack(&mut self, day: Day) -> bool
        ensures value { result ≡ is_waiting self.old.days day }
        ensures heard { self.new ≡ day_acknowledged self.old day }
        ensures stays { IsFalse result → self.new ≡ self.old }
        ensures lanes { length self.new.lanes ≡ length self.old.lanes }
    {
        self.days.remove(day)
    }

    /// Starts again: buffer, numbers, counts and days are kept, and what waits is sent again.
    pub fn restart(&mut self)
        ensures value { self.new ≡ record self.old { cursor = self.old.base } }
        ensures lanes { length self.new.lanes ≡ length self.old.lanes }
    {
        self.rewind();
    }
}

// The place of an owner.
fn place_of(owners: &[OwnerId], owner: OwnerId) -> Option<usize>
    ensures is { result ≡ position (nat_eq owner) owners.now }
    ensures within { IfSome result (λ place. place < length owners.now) }
{
    owners.iter().position(|known| *known == owner)
}

/// Whether the counts have this sum.
fn add_up(counts: &[u64], total: u64) -> bool
    ensures { IsTrue result ↔ (sum counts.now ≡ total) }
{
    let mut left = total;
    for count in counts {
        let Some(rest) = left.checked_sub(*count) else {
            return false;
        };
        left = rest;
    }
    left == 0
}
