ghost use Rattle.std.specs.Prelude.{◌≡◌, None, Some, MatchResult, IfOk};
ghost use Rattle.fare_record.specs.Limits.{IsCount};
ghost use Rattle.fare_record.specs.Lawful.{IsLawfulStatement};
ghost use Rattle.fare_record.specs.Bodies.{statement_bytes, statement_in, statement_fault};

use crate::fields::{u16_at, u32_at, u64_at};
use crate::{Day, DeviceId, LAST_NUMBER, OwnerId, RecordFault};
use byteorder::{BigEndian, ByteOrder};
use std::marker::Model;

/// A device's statement of how many taps of a day it numbered for an owner.
#[derive(Clone, Copy, PartialEq, Eq, Debug)]
pub struct Statement {
    device: DeviceId,
    day: Day,
    owner: OwnerId,
    count: u64,
}

impl Model for Statement {
    ghost use Rattle.fare_record.specs.Values.{StatementValue};
    ghost use Rattle.fare_record.specs.Limits.{IsCount};

    ghost Value = { StatementValue };

    ghost view = { λ a. record { device = a.device; day = a.day; owner = a.owner; count = a.count } };

    ghost invariant = { λ a. IsCount a.count };

    ghost inverse = { λ v. record { device = v.device; day = v.day; owner = v.owner; count = v.count } };
}

impl Statement {
    /// The statement with these parts. The count is 0 to `LAST_NUMBER`.
    pub fn new(device: DeviceId, day: Day, owner: OwnerId, count: u64) -> Statement
        requires count { IsCount count }
        ensures { result ≡ record { device = device; day = day; owner = owner; count = count } }
    {
        Statement {
            device,
            day,
            owner,
            count,
        }
    }

    /// The device that states.
    pub fn device(self) -> DeviceId
        ensures { result ≡ self.device }
    {
        self.device
    }

    /// The day whose taps are counted.
    pub fn day(self) -> Day
        ensures { result ≡ self.day }
    {
        self.day
    }

    /// The owner whose taps are counted.
    pub fn owner(self) -> OwnerId
        ensures { result ≡ self.owner }
    {
        self.owner
    }

    /// How many taps of that day the device numbered for that owner.
    pub fn count(self) -> u64
        ensures value { result ≡ self.count }
        ensures valid { IsCount result }
    {
        self.count
    }

    /// Its body of 18 bytes, the highest byte of each number first: device u32, day u32, owner u16, count u64.
    pub fn encode(&self) -> [u8; 18]
        ensures spelled { result ≡ statement_bytes self.now }
        ensures lawful { IsLawfulStatement self.now }
    {
        let mut bytes = [0; 18];
        BigEndian::write_u32(&mut bytes[0..4], self.device.get());
        BigEndian::write_u32(&mut bytes[4..8], self.day.get());
        BigEndian::write_u16(&mut bytes[8..10], self.owner.get());
        BigEndian::write_u64(&mut bytes[10..18], self.count);
        bytes
    }

    /// The statement of which these bytes are the body. `ZeroId` where its device or owner is 0, else
    /// `NumberRange` where its count is out of its limits, else `DayRange` where its day is.
    pub fn decode(bytes: &[u8; 18]) -> Result<Statement, RecordFault>
        ensures judged { MatchResult result (λ _. statement_fault (statement_in bytes.now) ≡ None) (λ fault. statement_fault (statement_in bytes.now) ≡ Some fault) }
        ensures value { IfOk result (λ s. s ≡ statement_in bytes.now) }
        ensures spelled { IfOk result (λ s. statement_bytes s ≡ bytes.now) }
    {
        let device = DeviceId::new(u32_at(bytes, 0).into());
        let owner = OwnerId::new(u16_at(bytes, 8).into());
        let (Some(device), Some(owner)) = (device, owner) else {
            return Err(RecordFault::ZeroId);
        };
        let count = u64_at(bytes, 10);
        if count > LAST_NUMBER {
            return Err(RecordFault::NumberRange);
        }
        let Some(day) = Day::new(u32_at(bytes, 4).into()) else {
            return Err(RecordFault::DayRange);
        };
        Ok(Statement::new(device, day, owner, count))
    }
}
