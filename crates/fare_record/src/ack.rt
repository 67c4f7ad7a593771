ghost use Rattle.std.specs.Prelude.{◌≡◌, None, Some, MatchResult, IfOk};
ghost use Rattle.fare_record.specs.Limits.{IsCount};
ghost use Rattle.fare_record.specs.Lawful.{IsLawfulAck};
ghost use Rattle.fare_record.specs.Bodies.{ack_bytes, ack_in, ack_fault};

use crate::fields::{u32_at, u64_at};
use crate::{DeviceId, LAST_NUMBER, RecordFault};
use byteorder::{BigEndian, ByteOrder};
use std::marker::Model;

/// An acknowledgement: the hub has the taps of a device up to this link.
#[derive(Clone, Copy, PartialEq, Eq, Debug)]
pub struct Ack {
    device: DeviceId,
    upto: u64,
}

impl Model for Ack {
    ghost use Rattle.fare_record.specs.Values.{AckValue};
    ghost use Rattle.fare_record.specs.Limits.{IsCount};

    ghost Value = { AckValue };

    ghost view = { λ a. record { device = a.device; upto = a.upto } };

    ghost invariant = { λ a. IsCount a.upto };

    ghost inverse = { λ v. record { device = v.device; upto = v.upto } };
}

impl Ack {
    /// The acknowledgement with these parts. The link is 0 to `LAST_NUMBER`.
    pub fn new(device: DeviceId, upto: u64) -> Ack
        requires upto { IsCount upto }
        ensures { result ≡ record { device = device; upto = upto } }
    {
        Ack { device, upto }
    }

    /// The device.
    pub fn device(self) -> DeviceId
        ensures { result ≡ self.device }
    {
        self.device
    }

    /// The greatest link that is acknowledged, 0 where none is.
    pub fn upto(self) -> u64
        ensures value { result ≡ self.upto }
        ensures valid { IsCount result }
    {
        self.upto
    }

    /// Its body of 12 bytes, the highest byte of each number first: device u32, link u64.
    pub fn encode(&self) -> [u8; 12]
        ensures spelled { result ≡ ack_bytes self.now }
        ensures lawful { IsLawfulAck self.now }
    {
        let mut bytes = [0; 12];
        BigEndian::write_u32(&mut bytes[0..4], self.device.get());
        BigEndian::write_u64(&mut bytes[4..12], self.upto);
        bytes
    }

    /// The acknowledgement of which these bytes are the body. `ZeroId` where its device is 0, else
    /// `NumberRange` where its link is out of its limits.
    pub fn decode(bytes: &[u8; 12]) -> Result<Ack, RecordFault>
        ensures judged { MatchResult result (λ _. ack_fault (ack_in bytes.now) ≡ None) (λ fault. ack_fault (ack_in bytes.now) ≡ Some fault) }
        ensures value { IfOk result (λ a. a ≡ ack_in bytes.now) }
        ensures spelled { IfOk result (λ a. ack_bytes a ≡ bytes.now) }
    {
        let device = u32_at(bytes, 0);
        let upto = u64_at(bytes, 4);
        let device = DeviceId::new(device.into()).ok_or(RecordFault::ZeroId)?;
        if upto > LAST_NUMBER {
            return Err(RecordFault::NumberRange);
        }
        Ok(Ack { device, upto })
    }
}
