ghost use Rattle.std.specs.Prelude.{◌≡◌, ◌↔◌, ℕ, ◌+◌, ◌≤◌, ◌==◌, nat_eq, OnOk, OnErr, IsSome, IfOk, IfErr, IsTrue, length, unwrap_or};
ghost use Rattle.std.specs.HashMap.{get};
ghost use Rattle.fare_record.specs.Lanes.{day_count};
ghost use Rattle.fare_scheme.specs.Words.{position_of_owner};
ghost use Rattle.fare_store.specs.LedgerWords.{IsOfScheme, IsEmptyLedger, gone_of, is_mine, is_closed, closed_through, with_statement, with_close, with_retired};
ghost use Rattle.fare_store.specs.Making.{new_refusal};
ghost use Rattle.fare_store.specs.TapPlaces.{gone_in, from_in};
ghost use Rattle.fare_store.specs.PlainLedgerWords.{plain_ledger};

use super::{Gone, PlainLedger};
use crate::LedgerFault;
use fare_record::{Day, DeviceId, OwnerId, Record, Statement};
use fare_scheme::Scheme;
use std::alloc::{AllocError, Global};
use std::collections::{HashMap, HashSet};

impl PlainLedger {
    /// The ledger of an owner of a scheme, with no tap, no statement, no closed day and no retired lane.
    ///
    /// Refused by the first case of `LedgerFault` that applies.
    pub fn new(alloc: Global, scheme: &Scheme, owner: OwnerId) -> Result<PlainLedger, LedgerFault>
        ensures known { OnOk result (IsSome (position_of_owner scheme.now owner)) }
        ensures owner { IfOk result (λ ledger. (plain_ledger ledger).owner ≡ owner) }
        ensures empty { IfOk result (λ ledger. IsEmptyLedger (plain_ledger ledger)) }
        ensures scheme { IfOk result (λ ledger. IsOfScheme scheme.now (plain_ledger ledger)) }
        ensures refused { IfErr result (λ fault. fault ≡ unwrap_or (new_refusal scheme.now owner) LedgerFault.Memory) }
    {
        if scheme.owner_position(owner).is_none() {
            return Err(LedgerFault::UnknownOwner);
        }
        let mut taken = HashMap::new(alloc);
        for device in scheme.devices() {
            let Ok(_) = taken.insert(*device, Vec::new(alloc)) else {
                return Err(LedgerFault::Memory);
            };
        }
        Ok(PlainLedger {
            alloc,
            owner,
            start: scheme.start(),
            begun: None,
            taken,
            gone: HashMap::new(alloc),
            days: HashMap::new(alloc),
            stated: HashMap::new(alloc),
            closed: HashMap::new(alloc),
            retired: HashSet::new(alloc),
        })
    }

    // Whether it has no tap, no statement, no closed day and no retired lane.
    pub(super) fn holds_nothing(&self) -> bool
        ensures { IsTrue result ↔ IsEmptyLedger (plain_ledger self.now) }
    {
        let unbegun = self.begun.is_none();
        let held = self.gone.is_empty();
        let unstated = self.stated.is_empty();
        let unclosed = self.closed.is_empty();
        let unretired = self.retired.is_empty();
        are_nothing(unbegun, held, unstated, unclosed, unretired)
    }

    // Whether something of an owner and a device is this owner's, and of a device of the scheme.
    pub(crate) fn is_mine(&self, owner: OwnerId, device: DeviceId) -> bool
        ensures { result ≡ is_mine (plain_ledger self.now) owner device }
    {
        owner == self.owner && self.knows(device)
    }

    // Whether a device is the scheme's.
    pub(crate) fn knows(&self, device: DeviceId) -> bool
        ensures { result ≡ (plain_ledger self.now).knows device }
    {
        self.taken.contains_key(&device)
    }

    // Whether the lane of a device is retired.
    pub(super) fn is_retired(&self, device: DeviceId) -> bool
        ensures { result ≡ (plain_ledger self.now).retired device }
    {
        !self.retired.is_empty() && self.retired.contains(&device)
    }

    // What was let go of a device.
    pub(super) fn gone_of(&self, device: DeviceId) -> Gone
        ensures count { result.count ≡ gone_in (get nat_eq self.now.gone device) }
        ensures from { result.from ≡ from_in (get nat_eq self.now.gone device) }
        ensures few { result.count ≤ 1099511627775 }
    {
        match self.gone.get(&device) {
            Some(gone) => *gone,
            None => Gone {
                count: 0,
                from: Day::FIRST,
            },
        }
    }

    // How many taps of a device were let go.
    pub(super) fn gone_count(&self, device: DeviceId) -> u64
        ensures { result ≡ gone_of ((plain_ledger self.now).taken device) }
    {
        self.gone_of(device).count
    }

    // How many taps of a device it has taken.
    pub(super) fn held(&self, device: DeviceId) -> u64
        ensures { result ≡ length ((plain_ledger self.now).taken device) }
    {
        let gone = self.gone_of(device).count;
        let Some(rows) = self.taken.get(&device) else {
            return gone;
        };
        match rows.last() {
            Some(row) => row.lane(),
            None => gone,
        }
    }

    // Whether a tap of an owner's device is the ledger's, and how many of the device it has taken: one look-up for both.
    pub(super) fn lane_of(&self, owner: OwnerId, device: DeviceId) -> (bool, u64)
        ensures mine { result.0 ≡ is_mine (plain_ledger self.now) owner device }
        ensures held { result.1 ≡ length ((plain_ledger self.now).taken device) }
    {
        (self.is_mine(owner, device), self.held(device))
    }

    // How many of these are of a day.
    pub(super) fn held_of(&self, device: DeviceId, day: Day) -> u64
        ensures { result ≡ day_count ((plain_ledger self.now).taken device) day }
    {
        let number = day.get();
        match self.taken.get(&device) {
            Some(rows) => count_of(rows, number),
            None => 0,
        }
    }

    // The stated count of a day.
    pub(super) fn stated_of(&self, device: DeviceId, day: Day) -> Option<u64>
        ensures { result ≡ (plain_ledger self.now).stated device day }
    {
        self.stated.get(&(device, day)).copied()
    }

    // The last closed day of a device.
    pub(super) fn last_closed(&self, device: DeviceId) -> Option<Day>
        ensures { result ≡ closed_through (plain_ledger self.now) device }
    {
        self.closed.get(&device).copied()
    }

    // Whether a day of a device is closed.
    pub(super) fn is_closed(&self, device: DeviceId, day: Day) -> bool
        ensures { result ≡ is_closed (plain_ledger self.now) device day }
    {
        match self.closed.get(&device) {
            Some(last) => self.start.get() <= day.get() && day.get() <= last.get(),
            None => false,
        }
    }

    // Whether it is a device's first day that isn't closed.
    pub(super) fn is_next(&self, device: DeviceId, day: Day) -> bool
        ensures { result ≡ (day == (plain_ledger self.now).start + (plain_ledger self.now).closed device) }
    {
        match self.closed.get(&device) {
            Some(last) => day.get() == last.get() + 1,
            None => day == self.start,
        }
    }

    // Writes a statement down. At an error nothing changes.
    pub(super) fn write_statement(&mut self, statement: &Statement) -> Result<(), AllocError>
        ensures ok { OnOk result (plain_ledger self.new ≡ with_statement statement.now (plain_ledger self.old)) }
        ensures err { OnErr result (plain_ledger self.new ≡ plain_ledger self.old) }
    {
        let key = (statement.device(), statement.day());
        self.stated.insert(key, statement.count())?;
        Ok(())
    }

    // Closes a device's first day that isn't closed. At an error nothing changes.
    pub(super) fn write_close(&mut self, device: DeviceId, day: Day) -> Result<(), AllocError>
        requires next { day ≡ (plain_ledger self.old).start + (plain_ledger self.old).closed device }
        ensures ok { OnOk result (plain_ledger self.new ≡ with_close device (plain_ledger self.old)) }
        ensures err { OnErr result (plain_ledger self.new ≡ plain_ledger self.old) }
    {
        self.closed.insert(device, day)?;
        Ok(())
    }

    // Retires the lane of a device. At an error nothing changes.
    pub(super) fn write_retired(&mut self, device: DeviceId) -> Result<(), AllocError>
        ensures ok { OnOk result (plain_ledger self.new ≡ with_retired device (plain_ledger self.old)) }
        ensures err { OnErr result (plain_ledger self.new ≡ plain_ledger self.old) }
    {
        self.retired.insert(device)?;
        Ok(())
    }
}

// Whether all five are nothing.
fn are_nothing(unbegun: bool, held: bool, unstated: bool, unclosed: bool, unretired: bool) -> bool
    ensures { IsTrue result ↔ (IsTrue unbegun × IsTrue held × IsTrue unstated × IsTrue unclosed × IsTrue unretired) }
{
    unbegun && held && unstated && unclosed && unretired
}

// How many of these taps are of a day.
fn count_of(rows: &[Record], day: u32) -> u64
    ensures { result ≡ day_count rows.now day }
{
    let mut count: u64 = 0;
    for row in rows {
        if row.tap().day().get() == day {
            count += 1;
        }
    }
    count
}
