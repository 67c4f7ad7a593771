//! Records and statements of small numbers, for the tests.
ghost use Rattle.std.specs.Prelude.{◌≡◌, IfSome};

use fare_record::{
    Day, DeviceId, LAST_NUMBER, Moment, OwnerId, ProductId, Record, Statement, Tap, Token,
};

/// The numbers of a record.
#[derive(Clone, Copy)]
pub struct Numbers {
    pub device: u64,
    pub link: u64,
    pub owner: u64,
    pub lane: u64,
    pub product: u64,
    pub token: u64,
    pub moment: u64,
    pub day: u64,
    pub route: u16,
}

/// Those of the first tap of device 1, on product 1 of owner 1.
pub const FIRST: Numbers = Numbers {
    device: 1,
    link: 1,
    owner: 1,
    lane: 1,
    product: 1,
    token: 77,
    moment: 1_704_100_000,
    day: 19_723,
    route: 0,
};

fn tap(of: Numbers) -> Option<Tap>
    ensures { IfSome result (λ t. t ≡ record { product = of.product; token = of.token; moment = of.moment; day = of.day; route = of.route }) }
{
    let (product, token) = (ProductId::new(of.product)?, Token::new(of.token)?);
    let (moment, day) = (Moment::new(of.moment)?, Day::new(of.day)?);
    Some(Tap::new(product, token, moment, day, of.route))
}

/// The record of these numbers.
pub fn record(of: Numbers) -> Option<Record>
    ensures { IfSome result (λ r. r ≡ record { device = of.device; link = of.link; owner = of.owner; lane = of.lane; tap = record { product = of.product; token = of.token; moment = of.moment; day = of.day; route = of.route } }) }
{
    if of.link == 0 || of.link > LAST_NUMBER || of.lane == 0 || of.lane > LAST_NUMBER {
        return None;
    }
    let (device, owner) = (DeviceId::new(of.device)?, OwnerId::new(of.owner)?);
    Some(Record::new(device, of.link, owner, of.lane, tap(of)?))
}

/// A statement of a device's day to an owner.
pub fn statement(device: u64, day: u64, owner: u64, count: u64) -> Option<Statement>
    ensures { IfSome result (λ s. s ≡ record { device = device; day = day; owner = owner; count = count }) }
{
    if count > LAST_NUMBER {
        return None;
    }
    let (device, owner) = (DeviceId::new(device)?, OwnerId::new(owner)?);
    Some(Statement::new(device, Day::new(day)?, owner, count))
}
