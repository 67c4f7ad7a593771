use crate::zone_text::ZoneText;
use fare_event::Event;
use fare_scheme::DemoSize;

/// A line that sets up the scheme. Its numbers may be any of their fields' widths, also ones that no scheme takes.
#[derive(PartialEq, Eq, Debug, Drop)]
pub enum SchemeLine {
    /// Registers an owner, with the capacity of its lane queue.
    Owner {
        owner: u16,
        lane: u32,
    },
    /// Registers an operator.
    Operator {
        operator: u16,
    },
    /// Registers a station of an operator.
    Station {
        station: u16,
        operator: u16,
    },
    /// Registers a product of an owner, with its fare in pence.
    Product {
        product: u32,
        owner: u16,
        fare: u32,
    },
    /// Sets the daily and the weekly cap of a product, in pence.
    Caps {
        product: u32,
        daily: u32,
        weekly: u32,
    },
    /// Sets for how many seconds after a paid ride further rides with a product are free.
    Hop {
        product: u32,
        seconds: u32,
    },
    /// Registers a device at a station, with the capacity of its buffer.
    Device {
        device: u32,
        station: u16,
        buffer: u32,
    },
    /// Sets the capacity of the inbox.
    Inbox {
        capacity: u32,
    },
    /// Sets the clock by which traffic days turn.
    Zone {
        rule: ZoneText,
    },
    /// Sets the first traffic day, in days since 1970-01-01.
    Start {
        day: u32,
    },
    /// Seals the scheme.
    Seal,
    /// Seals a demonstration scheme, with the capacity of a device's buffer, of an inbox and of a lane queue.
    Demo {
        size: DemoSize,
        buffer: u32,
        inbox: u32,
        lane: u32,
    },
}

/// A line of a trace.
#[derive(PartialEq, Eq, Debug, Drop)]
pub enum Line {
    /// It sets up the scheme.
    Setup(SchemeLine),
    /// It lets an event happen.
    Step(Event),
}
