ghost use Rattle.std.specs.Prelude.{◌≡◌, None, Some, MatchResult, IfOk};
ghost use Rattle.fare_record.specs.Lawful.{IsLawfulDayAck};
ghost use Rattle.fare_record.specs.Bodies.{day_ack_bytes, day_ack_in, day_ack_fault};

use crate::fields::u32_at;
use crate::{Day, DeviceId, RecordFault};
use byteorder::{BigEndian, ByteOrder};
use std::marker::Model;

/// An acknowledgement of a day: the hub has all statements of a device for it.
#[derive(Clone, Copy, PartialEq, Eq, Debug)]
pub struct DayAck {
    device: DeviceId,
    day: Day,
}

impl Model for DayAck {
    ghost use Rattle.fare_record.specs.Values.{DayAckValue};

    ghost Value = { DayAckValue };

    ghost view = { λ a. record { device = a.device; day = a.day } };

    ghost inverse = { λ v. record { device = v.device; day = v.day } };
}

impl DayAck {
    /// The acknowledgement with these parts.
    pub fn new(device: DeviceId, day: Day) -> DayAck
        ensures { result ≡ record { device = device; day = day } }
    {
        DayAck { device, day }
    }

    /// The device.
    pub fn device(self) -> DeviceId
        ensures { result ≡ self.device }
    {
        self.device
    }

    /// The day whose statements are acknowledged.
    pub fn day(self) -> Day
        ensures { result ≡ self.day }
    {
        self.day
    }

    /// Its body of 8 bytes, the highest byte of each number first: device u32, day u32.
    pub fn encode(&self) -> [u8; 8]
        ensures spelled { result ≡ day_ack_bytes self.now }
        ensures lawful { IsLawfulDayAck self.now }
    {
        let mut bytes = [0; 8];
        BigEndian::write_u32(&mut bytes[0..4], self.device.get());
        BigEndian::write_u32(&mut bytes[4..8], self.day.get());
        bytes
    }

    /// The acknowledgement of which these bytes are the body. `ZeroId` where its device is 0, else
    /// `DayRange` where its day is out of its limits.
    pub fn decode(bytes: &[u8; 8]) -> Result<DayAck, RecordFault>
        ensures judged { MatchResult result (λ _. day_ack_fault (day_ack_in bytes.now) ≡ None) (λ fault. day_ack_fault (day_ack_in bytes.now) ≡ Some fault) }
        ensures value { IfOk result (λ a. a ≡ day_ack_in bytes.now) }
        ensures spelled { IfOk result (λ a. day_ack_bytes a ≡ bytes.now) }
    {
        let device = u32_at(bytes, 0);
        let day = u32_at(bytes, 4);
        let device = DeviceId::new(device.into()).ok_or(RecordFault::ZeroId)?;
        let day = Day::new(day.into()).ok_or(RecordFault::DayRange)?;
        Ok(DayAck { device, day })
    }
}
