ghost use Rattle.std.specs.Prelude.{◌≡◌, length, slice_get};
ghost use Rattle.fare_growth.specs.Entries.{names, registered_of};

use crate::Entry;
use fare_scheme::{Scheme, Tariff};

// What may not change of an entry: its position among its kind, what it belongs to and what it costs.
#[derive(Clone, Copy, PartialEq, Eq, Debug)]
pub(crate) struct Registered {
    position: usize,
    // the operator of a station, the owner of a product, the station of a device
    parent: Option<Entry>,
    tariff: Option<Tariff>,
}

impl Registered {
    // What is registered of the entry, if it is in the scheme.
    pub(crate) fn of(scheme: &Scheme, entry: &Entry) -> Option<Registered>
        ensures { result ≡ registered_of scheme.now entry.now }
    {
        let (position, parent, tariff) = match *entry {
            Entry::Owner(owner) => (scheme.owner_position(owner)?, None, None),
            Entry::Operator(operator) => (scheme.operator_position(operator)?, None, None),
            Entry::Station(station) => {
                let operator = scheme.operator_of_station(station)?;
                let parent = Some(Entry::Operator(operator));
                (scheme.station_position(station)?, parent, None)
            }
            Entry::Product(product) => {
                let parent = Some(Entry::Owner(scheme.owner_of(product)?));
                let tariff = Some(scheme.tariff_of(product)?);
                (scheme.product_position(product)?, parent, tariff)
            }
            Entry::Device(device) => {
                let parent = Some(Entry::Station(scheme.station_of(device)?));
                (scheme.device_position(device)?, parent, None)
            }
        };
        Some(Registered {
            position,
            parent,
            tariff,
        })
    }
}

// The number of entries of all kinds.
pub(crate) fn entry_count(scheme: &Scheme) -> usize
    ensures { result ≡ length (names scheme.now) }
{
    scheme.owner_count()
        + scheme.operator_count()
        + scheme.station_count()
        + scheme.product_count()
        + scheme.device_count()
}

// The entry at a place among those of all kinds: owners first, then operators, stations, products and devices.
pub(crate) fn entry_at(scheme: &Scheme, place: usize) -> Option<Entry>
    ensures { result ≡ slice_get (names scheme.now) place }
{
    let operators = scheme.owner_count();
    let stations = operators + scheme.operator_count();
    let products = stations + scheme.station_count();
    let devices = products + scheme.product_count();
    if place < operators {
        scheme.owner_at(place).map(Entry::Owner)
    } else if place < stations {
        scheme.operator_at(place - operators).map(Entry::Operator)
    } else if place < products {
        scheme.station_at(place - stations).map(Entry::Station)
    } else if place < devices {
        scheme.product_at(place - products).map(Entry::Product)
    } else {
        scheme.device_at(place - devices).map(Entry::Device)
    }
}
