use fare_record::{DeviceId, OperatorId, OwnerId, ProductId, StationId};

/// The name of an entry of a scheme: its kind and its id.
#[derive(Clone, Copy, PartialEq, Eq, Debug)]
pub enum Entry {
    Owner(OwnerId),
    Operator(OperatorId),
    Station(StationId),
    Product(ProductId),
    Device(DeviceId),
}

/// What a later scheme contradicts of a kept one.
#[derive(Clone, Copy, PartialEq, Eq, Debug)]
pub enum Contradiction {
    /// Its first traffic day is another one.
    Start,
    /// Its clock goes by another rule.
    Zone,
    /// The entry isn't registered in it.
    Gone(Entry),
    /// The entry is registered in it at another position of its kind, with another parent or with another tariff.
    Changed(Entry),
}
