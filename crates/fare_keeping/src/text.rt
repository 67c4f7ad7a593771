use crate::KeepFault;
use fare_growth::{Contradiction, Entry};
use std::fmt;

// The kind and the id of an entry.
fn named(entry: &Entry) -> (&'static str, u32) {
    match entry {
        Entry::Owner(owner) => ("owner", u32::from(owner.get())),
        Entry::Operator(operator) => ("operator", u32::from(operator.get())),
        Entry::Station(station) => ("station", u32::from(station.get())),
        Entry::Product(product) => ("product", product.get()),
        Entry::Device(device) => ("device", device.get()),
    }
}

// What a scheme contradicts.
fn write_contradiction<W: fmt::Write>(
    f: &mut fmt::Formatter<W>,
    why: &Contradiction,
) -> fmt::Result {
    match why {
        Contradiction::Start => f.write_str("refused SchemeChanged start"),
        Contradiction::Zone => f.write_str("refused SchemeChanged zone"),
        Contradiction::Gone(entry) => {
            let (kind, id) = named(entry);
            write!(f, "refused SchemeChanged {kind} {id} gone")
        }
        Contradiction::Changed(entry) => {
            let (kind, id) = named(entry);
            write!(f, "refused SchemeChanged {kind} {id}")
        }
    }
}

impl fmt::Display for KeepFault {
    fn fmt<W: fmt::Write>(&self, f: &mut fmt::Formatter<W>) -> fmt::Result {
        match self {
            KeepFault::Foreign => f.write_str("refused SchemeForeign"),
            KeepFault::Unreadable => f.write_str("refused SchemeUnreadable"),
            KeepFault::Changed(why) => write_contradiction(f, why),
            KeepFault::Memory => f.write_str("no memory"),
            KeepFault::Store => f.write_str("store failed"),
        }
    }
}
