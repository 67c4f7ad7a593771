ghost use Rattle.std.specs.Prelude.{◌≡◌, None, Some, MatchResult, IfOk};
ghost use Rattle.fare_record.specs.Lawful.{IsLawfulHello};
ghost use Rattle.fare_record.specs.Bodies.{hello_bytes, hello_in, hello_fault};

use crate::fields::{u16_at, u32_at};
use crate::{DeviceId, RecordFault};
use byteorder::{BigEndian, ByteOrder};
use std::marker::Model;

/// A greeting, the first thing on a connection: the device that speaks, and the version of its frames.
#[derive(Clone, Copy, PartialEq, Eq, Debug)]
pub struct Hello {
    device: DeviceId,
    version: u16,
}

impl Model for Hello {
    ghost use Rattle.std.specs.Prelude.{◌<◌};
    ghost use Rattle.fare_record.specs.Values.{HelloValue};

    ghost Value = { HelloValue };

    ghost view = { λ h. record { device = h.device; version = h.version } };

    ghost invariant = { λ h. h.version < 65536 };

    ghost inverse = { λ v. record { device = v.device; version = v.version } };
}

impl Hello {
    /// The greeting with these parts.
    pub fn new(device: DeviceId, version: u16) -> Hello
        ensures { result ≡ record { device = device; version = version } }
    {
        Hello { device, version }
    }

    /// The device.
    pub fn device(self) -> DeviceId
        ensures { result ≡ self.device }
    {
        self.device
    }

    /// The version of its frames.
    pub fn version(self) -> u16
        ensures { result ≡ self.version }
    {
        self.version
    }

    /// Its body of 6 bytes, the highest byte of each number first: device u32, version u16.
    pub fn encode(&self) -> [u8; 6]
        ensures spelled { result ≡ hello_bytes self.now }
        ensures lawful { IsLawfulHello self.now }
    {
        let mut bytes = [0; 6];
        BigEndian::write_u32(&mut bytes[0..4], self.device.get());
        BigEndian::write_u16(&mut bytes[4..6], self.version);
        bytes
    }

    /// The greeting of which these bytes are the body. `ZeroId` where its device is 0.
    pub fn decode(bytes: &[u8; 6]) -> Result<Hello, RecordFault>
        ensures judged { MatchResult result (λ _. hello_fault (hello_in bytes.now) ≡ None) (λ fault. hello_fault (hello_in bytes.now) ≡ Some fault) }
        ensures value { IfOk result (λ h. h ≡ hello_in bytes.now) }
        ensures spelled { IfOk result (λ h. hello_bytes h ≡ bytes.now) }
    {
        let device = u32_at(bytes, 0);
        let version = u16_at(bytes, 4);
        let device = DeviceId::new(device.into()).ok_or(RecordFault::ZeroId)?;
        Ok(Hello { device, version })
    }
}
