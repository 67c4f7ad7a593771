ghost use Rattle.std.specs.Prelude.{◌≡◌, ◌↔◌, ℕ, Err, None, IsSome, OnOk, OnErr, IfOk, IfErr, length, unwrap_or};
ghost use Rattle.fare_scheme.specs.Words.{position_of_owner};
ghost use Rattle.fare_store.specs.declared.fault.Refused.TheVariants.{Because};
ghost use Rattle.fare_store.specs.Standing.{Reads};
ghost use Rattle.fare_route.specs.Cursors.{moved, undone};
ghost use Rattle.fare_route.specs.Routing.{cursor_of, standing_at, started, start_refusal, Asks, IsNext, IsNextOf, changed, first_day};

use crate::cursor::Cursor;
use crate::{StartFault, UnknownDevice};
use fare_record::{Day, DeviceId, Item, OwnerId};
use fare_scheme::Scheme;
use fare_store::{Fault, Outbox, Refused};
use std::alloc::Global;
use std::collections::HashMap;

/// The forwarder of one owner: for each device of the scheme how far it has handed on that device's taps and
/// statements.
#[derive(Debug)]
pub struct Forwarder {
    owner: OwnerId,
    cursors: HashMap<DeviceId, Cursor>,
}

impl Drop for Forwarder {
    // Derived, the map's parts would stand in the proof of each function that may let a forwarder go.
    fn drop(self) {
        let Forwarder { owner: _, cursors } = self;
        drop(cursors);
    }
}

impl Forwarder {
    /// A forwarder that goes on where an owner's ledger stands: `counts` has, for each device in order of
    /// registration, how many of its taps are taken and its last closed day.
    ///
    /// Refused by the first case of `StartFault` that applies.
    pub fn start(
        alloc: Global,
        scheme: &Scheme,
        owner: OwnerId,
        counts: &[(u64, Option<Day>)],
    ) -> Result<Forwarder, StartFault>
        ensures known { OnOk result (IsSome (position_of_owner scheme.now owner)) }
        ensures owner { IfOk result (λ forwarder. forwarder.owner ≡ owner) }
        ensures cursors { IfOk result (λ forwarder. (device : ℕ) → cursor_of forwarder device ≡ started scheme.now counts.now device) }
        ensures refused { IfErr result (λ fault. fault ≡ unwrap_or (start_refusal scheme.now owner (length counts.now)) StartFault.Memory) }
    {
        if scheme.owner_position(owner).is_none() {
            return Err(StartFault::UnknownOwner);
        }
        if counts.len() != scheme.device_count() {
            return Err(StartFault::Range);
        }
        let mut cursors = HashMap::new(alloc);
        for (place, device) in scheme.devices().iter().enumerate() {
            let taken = counts[place];
            let cursor = Cursor {
                lane: taken.0,
                day: first_day(scheme, taken.1),
                before: None,
            };
            let Ok(_) = cursors.insert(*device, cursor) else {
                return Err(StartFault::Memory);
            };
        }
        Ok(Forwarder { owner, cursors })
    }

    /// What goes to the owner of a device next: the tap row after the last one, else the statement of the first
    /// day that wasn't handed on, else nothing. The next call goes on behind it.
    ///
    /// `UnknownDevice` where the device isn't in the scheme; else it fails where the outbox does. Then nothing
    /// changes.
    pub fn next<O: Outbox>(
        &mut self,
        outbox: &mut O,
        device: DeviceId,
    ) -> Result<Option<Item>, Refused<UnknownDevice>>
        ensures unknown { (result ≡ Err (Because (record {}))) ↔ (cursor_of self.old device ≡ None) }
        ensures read { Asks (O.standing outbox.old) (O.standing outbox.new) (IsNextOf (O.standing outbox.old).value self.old.owner device (cursor_of self.old device)) result }
        ensures unasked { result ≡ Err (Because (record {})) → outbox.new ≡ outbox.old }
        ensures moved { IfOk result (λ item. (other : ℕ) → cursor_of self.new other ≡ changed (moved item) (cursor_of self.old) device other) }
        ensures unmoved { OnErr result ((other : ℕ) → cursor_of self.new other ≡ cursor_of self.old other) }
        ensures owner { self.new.owner ≡ self.old.owner }
    {
        let Some(cursor) = self.cursors.get_mut(&device) else {
            return Err(Refused::Because(UnknownDevice));
        };
        let (item, moved) = item_behind(outbox, self.owner, device, *cursor)?;
        *cursor = moved;
        Ok(item)
    }

    /// Goes on with a device where the owner's ledger stands, by how many of its taps are taken and its last
    /// closed day, whatever was handed on before. Nothing changes for a device that isn't in the scheme.
    pub fn resume(&mut self, scheme: &Scheme, device: DeviceId, taken: u64, closed: Option<Day>)
        ensures cursors { (other : ℕ) → cursor_of self.new other ≡ changed (λ _. standing_at scheme.now.start (taken, closed)) (cursor_of self.old) device other }
        ensures owner { self.new.owner ≡ self.old.owner }
    {
        if let Some(cursor) = self.cursors.get_mut(&device) {
            *cursor = Cursor {
                lane: taken,
                day: first_day(scheme, closed),
                before: None,
            };
        }
    }

    /// Undoes the last `next` of a device: the following one hands on the same again. Nothing changes where that
    /// `next` handed on nothing or was undone, where there was none, or for a device that isn't in the scheme.
    pub fn put_back(&mut self, device: DeviceId)
        ensures cursors { (other : ℕ) → cursor_of self.new other ≡ changed undone (cursor_of self.old) device other }
        ensures owner { self.new.owner ≡ self.old.owner }
    {
        if let Some(cursor) = self.cursors.get_mut(&device) {
            *cursor = cursor.back();
        }
    }
}

// The number of the first day whose statement is handed on, by the last closed one.
fn first_day(scheme: &Scheme, closed: Option<Day>) -> u64
    ensures { result ≡ first_day scheme.now.start closed }
{
    match closed {
        Some(day) => u64::from(day.get()) + 1,
        None => u64::from(scheme.start().get()),
    }
}

// What follows a cursor in an outbox, and the cursor behind it.
fn item_behind<O: Outbox>(
    outbox: &mut O,
    owner: OwnerId,
    device: DeviceId,
    cursor: Cursor,
) -> Result<(Option<Item>, Cursor), Fault>
    ensures read { Reads (O.standing outbox.old) (O.standing outbox.new) (λ p. IsNext (O.standing outbox.old).value owner device cursor p.0) result }
    ensures moved { IfOk result (λ p. p.1 ≡ moved p.0 cursor) }
{
    if let Some(row) = outbox.next_row(owner, device, cursor.lane)? {
        let moved = cursor.passed(row.lane(), cursor.day);
        return Ok((Some(Item::Tap(row)), moved));
    }
    let Some(from) = cursor.from() else {
        return Ok((None, cursor.stayed()));
    };
    match outbox.next_statement(owner, device, from)? {
        Some(statement) => {
            let day = u64::from(statement.day().get()) + 1;
            let moved = cursor.passed(cursor.lane, day);
            Ok((Some(Item::Stated(statement)), moved))
        }
        None => Ok((None, cursor.stayed())),
    }
}
