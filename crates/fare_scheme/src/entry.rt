use fare_record::{OwnerId, Pence, StationId};

/// What an account of a product pays: a flat fare for each paid ride, at most the daily cap on a traffic
/// day, and at most the weekly cap from Monday to Sunday.
#[derive(Clone, Copy, PartialEq, Eq, Debug)]
pub struct Tariff {
    pub fare: Pence,
    pub daily: Pence,
    pub weekly: Pence,
    /// For how many seconds after a paid ride further rides are free: 0 to 7,200, where at 0 each one is paid.
    pub hop: u32,
}

/// What is registered of a product.
#[derive(Clone, Copy, PartialEq, Eq, Debug)]
pub struct Product {
    pub owner: OwnerId,
    pub tariff: Tariff,
}

/// What is registered of a device: where it stands, and how many taps its buffer holds.
#[derive(Clone, Copy, PartialEq, Eq, Debug)]
pub struct Placement {
    pub station: StationId,
    pub buffer: u32,
}
