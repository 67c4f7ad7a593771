ghost use Rattle.std.specs.Prelude.{◌≡◌, ◌≢◌, ◌≤◌, Some, None, MatchResult, IfOk, length, not};
ghost use Rattle.fare_record.specs.Limits.{IsNumber};
ghost use Rattle.fare_record.specs.Fields.{record_of};
ghost use Rattle.fare_record.specs.Lawful.{IsLawfulRecord, unrouted};
ghost use Rattle.fare_record.specs.Bodies.{no_number, record_bytes, record_in, record_fault, routed_bytes, routed_in, routed_fault};

use crate::fields::{u16_at, u32_at, u64_at};
use crate::{Day, DeviceId, Moment, OwnerId, ProductId, RecordFault, Tap, Token};
use byteorder::{BigEndian, ByteOrder};
use std::marker::Model;

/// The greatest number that a device gives a tap, in its link and in each lane.
pub const LAST_NUMBER: u64 = 1_099_511_627_775;

/// A numbered tap. The link number is its place in all taps of the device, the lane number its place in
/// the device's taps for the owner of the product; both count from 1 and leave no gap.
#[derive(Clone, Copy, PartialEq, Eq, Debug)]
pub struct Record {
    // The long numbers first, which leaves no room unused between the fields.
    link: u64,
    lane: u64,
    tap: Tap,
    device: DeviceId,
    owner: OwnerId,
}

impl Model for Record {
    ghost use Rattle.fare_record.specs.Values.{RecordValue, IsRecord};

    ghost Value = { RecordValue };

    ghost view = { λ a. record { device = a.device; link = a.link; owner = a.owner; lane = a.lane; tap = a.tap } };

    ghost invariant = { λ a. IsRecord (record { device = a.device; link = a.link; owner = a.owner; lane = a.lane; tap = a.tap }) };

    ghost inverse = { λ v. record { device = v.device; link = v.link; owner = v.owner; lane = v.lane; tap = v.tap } };
}

impl Record {
    /// The record with these parts. Link and lane numbers are 1 to `LAST_NUMBER`.
    pub fn new(device: DeviceId, link: u64, owner: OwnerId, lane: u64, tap: Tap) -> Record
        requires link { IsNumber link }
        requires lane { IsNumber lane }
        ensures { result ≡ record { device = device; link = link; owner = owner; lane = lane; tap = tap } }
    {
        Record {
            device,
            link,
            owner,
            lane,
            tap,
        }
    }

    /// The device that numbered the tap.
    pub fn device(self) -> DeviceId
        ensures { result ≡ self.device }
    {
        self.device
    }

    /// Its place in all taps of the device, from 1.
    pub fn link(self) -> u64
        ensures value { result ≡ self.link }
        ensures valid { IsNumber result }
    {
        self.link
    }

    /// The owner of the product that was used.
    pub fn owner(self) -> OwnerId
        ensures { result ≡ self.owner }
    {
        self.owner
    }

    /// Its place in the device's taps for that owner, from 1.
    pub fn lane(self) -> u64
        ensures value { result ≡ self.lane }
        ensures valid { IsNumber result }
    {
        self.lane
    }

    /// The tap itself.
    pub fn tap(self) -> Tap
        ensures { result ≡ self.tap }
    {
        self.tap
    }

    /// Its body of 46 bytes where no route is known, the highest byte of each number first: device u32, link u64,
    /// owner u16, lane u64, product u32, token u64, moment u64, day u32.
    pub fn encode(&self) -> [u8; 46]
        requires { self.now.tap.route ≡ 0 }
        ensures spelled { result ≡ record_bytes self.now }
        ensures lawful { IsLawfulRecord self.now }
    {
        let mut bytes = [0; 46];
        self.write(&mut bytes);
        bytes
    }

    /// Its body of 48 bytes where a route is known: the 46 as without one, and then route u16.
    pub fn encode_routed(&self) -> [u8; 48]
        requires { self.now.tap.route ≢ 0 }
        ensures spelled { result ≡ routed_bytes self.now }
        ensures lawful { IsLawfulRecord self.now }
    {
        let mut bytes = [0; 48];
        self.write(&mut bytes[0..46]);
        BigEndian::write_u16(&mut bytes[46..48], self.tap.route());
        bytes
    }

    // All but the route, into 46 bytes.
    fn write(&self, bytes: &mut [u8])
        requires { length bytes.old ≡ 46 }
        ensures written { bytes.new ≡ record_bytes self.now }
        ensures lawful { IsLawfulRecord (unrouted self.now) }
    {
        BigEndian::write_u32(&mut bytes[0..4], self.device.get());
        BigEndian::write_u64(&mut bytes[4..12], self.link);
        BigEndian::write_u16(&mut bytes[12..14], self.owner.get());
        BigEndian::write_u64(&mut bytes[14..22], self.lane);
        BigEndian::write_u32(&mut bytes[22..26], self.tap.product().get());
        BigEndian::write_u64(&mut bytes[26..34], self.tap.token().get());
        BigEndian::write_u64(&mut bytes[34..42], self.tap.moment().get());
        BigEndian::write_u32(&mut bytes[42..46], self.tap.day().get());
    }

    /// The record of which these bytes are the body, whose route is not known. `ZeroId` where its device, owner or
    /// product is 0, else `NumberRange` where its link, lane or token is out of its limits, else `DayRange` where its
    /// moment or day is.
    pub fn decode(bytes: &[u8; 46]) -> Result<Record, RecordFault>
        ensures judged { MatchResult result (λ _. record_fault (record_in bytes.now) ≡ None) (λ fault. record_fault (record_in bytes.now) ≡ Some fault) }
        ensures value { IfOk result (λ r. r ≡ record_in bytes.now) }
        ensures spelled { IfOk result (λ r. record_bytes r ≡ bytes.now) }
    {
        Numbers::read(bytes).record()
    }

    /// The record of which these bytes are the body with a route. Refused as by `decode`, or else `ZeroRoute` where the
    /// route is 0: a record without one has the shorter body alone.
    pub fn decode_routed(bytes: &[u8; 48]) -> Result<Record, RecordFault>
        ensures judged { MatchResult result (λ _. routed_fault (routed_in bytes.now) ≡ None) (λ fault. routed_fault (routed_in bytes.now) ≡ Some fault) }
        ensures value { IfOk result (λ r. r ≡ routed_in bytes.now) }
        ensures spelled { IfOk result (λ r. routed_bytes r ≡ bytes.now) }
        ensures routed { IfOk result (λ r. r.tap.route ≢ 0) }
    {
        let numbers = Numbers {
            route: u16_at(bytes, 46),
            ..Numbers::read(bytes)
        };
        let record = numbers.record()?;
        if numbers.route == 0 {
            return Err(RecordFault::ZeroRoute);
        }
        Ok(record)
    }
}

// The numbers of a record's fields, whatever they are.
#[derive(Clone, Copy)]
struct Numbers {
    device: u32,
    link: u64,
    owner: u16,
    lane: u64,
    product: u32,
    token: u64,
    moment: u64,
    day: u32,
    route: u16,
}

impl Numbers {
    // Those of the first 46 bytes, without a route.
    fn read(bytes: &[u8]) -> Numbers
        requires { 46 ≤ length bytes.now }
        ensures { record_of result ≡ record_in bytes.now }
    {
        Numbers {
            device: u32_at(bytes, 0),
            link: u64_at(bytes, 4),
            owner: u16_at(bytes, 12),
            lane: u64_at(bytes, 14),
            product: u32_at(bytes, 22),
            token: u64_at(bytes, 26),
            moment: u64_at(bytes, 34),
            day: u32_at(bytes, 42),
            route: 0,
        }
    }

    // The record with these numbers, or their first fault.
    fn record(self) -> Result<Record, RecordFault>
        ensures judged { MatchResult result (λ _. record_fault (record_of self) ≡ None) (λ fault. record_fault (record_of self) ≡ Some fault) }
        ensures value { IfOk result (λ r. r ≡ record_of self) }
    {
        let device = DeviceId::new(self.device.into());
        let owner = OwnerId::new(self.owner.into());
        let product = ProductId::new(self.product.into());
        let (Some(device), Some(owner), Some(product)) = (device, owner, product) else {
            return Err(RecordFault::ZeroId);
        };
        let (link, lane) = (self.link, self.lane);
        let (Some(token), true, true) = (Token::new(self.token), is_number(link), is_number(lane))
        else {
            return Err(RecordFault::NumberRange);
        };
        let (Some(moment), Some(day)) = (Moment::new(self.moment), Day::new(self.day.into())) else {
            return Err(RecordFault::DayRange);
        };
        let tap = Tap::new(product, token, moment, day, self.route);
        Ok(Record::new(device, link, owner, lane, tap))
    }
}

// Whether a tap may have this number.
fn is_number(number: u64) -> bool
    ensures { result ≡ not (no_number number) }
{
    (1..=LAST_NUMBER).contains(&number)
}
