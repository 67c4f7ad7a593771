ghost use Rattle.std.specs.Prelude.{◌≡◌, ◌↔◌, None, IsOk, OnOk, IfOk, OnErr, IfErr, IsTrue, IfSome, unwrap_or, nat_eq, Some, is_some};
ghost use Rattle.std.specs.List.{list_any};
ghost use Rattle.fare_record.specs.Limits.{IsDay};
ghost use Rattle.fare_scheme.specs.Ranges.{IsBuffer, IsCapacity};
ghost use Rattle.fare_scheme.specs.Registering.{empty_draft, is_registered, uncapped as uncapped_product, owner_refusal, operator_refusal, station_refusal, product_refusal, device_refusal, caps_refusal, hop_refusal, with_owner, with_operator, with_station, with_product, with_device, with_caps, with_hop};
ghost use Rattle.fare_scheme.specs.Sealing.{lacks_a_kind, seal_refusal, IsSealedFrom};

use crate::{
    AddFault, CapsFault, HopFault, OutOfRange, Placement, Product, Scheme, SealFault, Tariff,
};
use fare_day::Zone;
use fare_record::{Day, DeviceId, OperatorId, OwnerId, Pence, ProductId, StationId};
use indexmap::IndexMap;
use std::alloc::Global;
use std::marker::Model;

/// How many owners a scheme has at most.
pub const MOST_OWNERS: usize = 16;

const MOST_OPERATORS: usize = 16;

const MOST_STATIONS: usize = 16;

const MOST_PRODUCTS: usize = 256;

const MOST_DEVICES: usize = 256;

const MOST_FARE: u32 = 100_000;

const MOST_DAILY: u32 = 1_000_000;

const MOST_WEEKLY: u32 = 10_000_000;

const MOST_HOP: u32 = 7_200;

const MOST_BUFFER: u32 = 4_096;

const MOST_CAPACITY: u32 = 1_024;

/// The registrations of a scheme that isn't sealed yet, all of them accepted. What is refused leaves it as it was.
pub struct Draft {
    owners: IndexMap<OwnerId, u32>,
    operators: Vec<OperatorId>,
    stations: IndexMap<StationId, OperatorId>,
    products: IndexMap<ProductId, Product>,
    devices: IndexMap<DeviceId, Placement>,
    inbox_capacity: u32,
    start: Option<Day>,
    zone: Option<Zone>,
}

impl Model for Draft {
    ghost use Rattle.fare_scheme.specs.Values.{DraftValue};
    ghost use Rattle.fare_scheme.specs.Facts.{IsDraft};

    ghost Value = { DraftValue };

    ghost view = { λ d. record {
      owners = d.owners.entries;
      operators = d.operators.items;
      stations = d.stations.entries;
      products = d.products.entries;
      devices = d.devices.entries;
      inbox_capacity = d.inbox_capacity;
      start = d.start;
      zone = d.zone;
    } };

    ghost invariant = { λ d. IsDraft (record {
      owners = d.owners.entries;
      operators = d.operators.items;
      stations = d.stations.entries;
      products = d.products.entries;
      devices = d.devices.entries;
      inbox_capacity = d.inbox_capacity;
      start = d.start;
      zone = d.zone;
    }) };
}

impl Drop for Draft {
    // Derived, it would stand part by part in the proof of each function that may let a draft go.
    fn drop(self) {
        let Draft {
            owners,
            operators,
            stations,
            products,
            devices,
            inbox_capacity: _,
            start: _,
            zone: _,
        } = self;
        drop(owners);
        drop(operators);
        drop(stations);
        drop(products);
        drop(devices);
    }
}

// What a device's buffer may hold.
pub(crate) fn is_buffer(buffer: u32) -> bool
    ensures { IsTrue result ↔ IsBuffer buffer }
{
    (1..=MOST_BUFFER).contains(&buffer)
}

// What an inbox, an acknowledgement line or a lane queue may hold.
pub(crate) fn is_capacity(capacity: u32) -> bool
    ensures { IsTrue result ↔ IsCapacity capacity }
{
    (1..=MOST_CAPACITY).contains(&capacity)
}

// A product of this owner with this fare, the greatest caps and no window.
fn uncapped(owner: OwnerId, fare: u32) -> Product
    ensures { result ≡ uncapped_product owner fare }
{
    Product {
        owner,
        tariff: Tariff {
            fare: Pence::new(fare as u64),
            daily: Pence::new(MOST_DAILY as u64),
            weekly: Pence::new(MOST_WEEKLY as u64),
            hop: 0,
        },
    }
}

impl Draft {
    /// A draft with nothing registered, and an inbox of the greatest capacity, 1,024.
    pub fn new(alloc: Global) -> Draft
        ensures { result ≡ empty_draft }
    {
        Draft {
            owners: IndexMap::new(alloc),
            operators: Vec::new(alloc),
            stations: IndexMap::new(alloc),
            products: IndexMap::new(alloc),
            devices: IndexMap::new(alloc),
            inbox_capacity: MOST_CAPACITY,
            start: None,
            zone: None,
        }
    }

    /// Registers an owner, with the capacity of its lane queue: 1 to 1,024.
    ///
    /// Refused by the first case of `AddFault` that applies; nothing is its parent.
    pub fn add_owner(&mut self, owner: u16, lane_capacity: u32) -> Result<(), AddFault>
        ensures allowed { OnOk result (owner_refusal self.old owner lane_capacity ≡ None) }
        ensures added { OnOk result (self.new ≡ with_owner self.old owner lane_capacity) }
        ensures refused { IfErr result (λ fault. fault ≡ unwrap_or (owner_refusal self.old owner lane_capacity) AddFault.Memory) }
        ensures unchanged { OnErr result (self.new ≡ self.old) }
    {
        let Some(id) = OwnerId::new(owner as u64) else {
            return Err(AddFault::ZeroId);
        };
        if self.owners.contains_key(&id) {
            return Err(AddFault::Taken);
        }
        if !is_capacity(lane_capacity) {
            return Err(AddFault::Range);
        }
        if self.owners.len() >= MOST_OWNERS {
            return Err(AddFault::TooMany);
        }
        let Ok(_) = self.owners.insert(id, lane_capacity) else {
            return Err(AddFault::Memory);
        };
        Ok(())
    }

    /// Registers an operator.
    ///
    /// Refused by the first case of `AddFault` that applies; nothing is its parent, and nothing of it has a range.
    pub fn add_operator(&mut self, operator: u16) -> Result<(), AddFault>
        ensures allowed { OnOk result (operator_refusal self.old operator ≡ None) }
        ensures added { OnOk result (self.new ≡ with_operator self.old operator) }
        ensures refused { IfErr result (λ fault. fault ≡ unwrap_or (operator_refusal self.old operator) AddFault.Memory) }
        ensures unchanged { OnErr result (self.new ≡ self.old) }
    {
        let Some(id) = OperatorId::new(operator as u64) else {
            return Err(AddFault::ZeroId);
        };
        if self.operators.contains(&id) {
            return Err(AddFault::Taken);
        }
        if self.operators.len() >= MOST_OPERATORS {
            return Err(AddFault::TooMany);
        }
        let Ok(()) = self.operators.push(id) else {
            return Err(AddFault::Memory);
        };
        Ok(())
    }

    /// Registers a station of an operator.
    ///
    /// Refused by the first case of `AddFault` that applies; its parent is the operator, and nothing of it has a range.
    pub fn add_station(&mut self, station: u16, operator: u16) -> Result<(), AddFault>
        ensures allowed { OnOk result (station_refusal self.old station operator ≡ None) }
        ensures added { OnOk result (self.new ≡ with_station self.old station operator) }
        ensures refused { IfErr result (λ fault. fault ≡ unwrap_or (station_refusal self.old station operator) AddFault.Memory) }
        ensures unchanged { OnErr result (self.new ≡ self.old) }
    {
        let Some(id) = StationId::new(station as u64) else {
            return Err(AddFault::ZeroId);
        };
        if self.stations.contains_key(&id) {
            return Err(AddFault::Taken);
        }
        let Some(parent) = self.registered_operator(operator) else {
            return Err(AddFault::UnknownParent);
        };
        if self.stations.len() >= MOST_STATIONS {
            return Err(AddFault::TooMany);
        }
        let Ok(_) = self.stations.insert(id, parent) else {
            return Err(AddFault::Memory);
        };
        Ok(())
    }

    /// Registers a product of an owner, with its fare in pence: 0 to 100,000. Its caps are the greatest ones until
    /// `set_caps`, and each of its rides is paid until `set_hop`.
    ///
    /// Refused by the first case of `AddFault` that applies; its parent is the owner.
    pub fn add_product(&mut self, product: u32, owner: u16, fare: u32) -> Result<(), AddFault>
        ensures allowed { OnOk result (product_refusal self.old product owner fare ≡ None) }
        ensures added { OnOk result (self.new ≡ with_product self.old product owner fare) }
        ensures refused { IfErr result (λ fault. fault ≡ unwrap_or (product_refusal self.old product owner fare) AddFault.Memory) }
        ensures unchanged { OnErr result (self.new ≡ self.old) }
    {
        let Some(id) = ProductId::new(product as u64) else {
            return Err(AddFault::ZeroId);
        };
        if self.products.contains_key(&id) {
            return Err(AddFault::Taken);
        }
        let Some(parent) = self.registered_owner(owner) else {
            return Err(AddFault::UnknownParent);
        };
        if fare > MOST_FARE {
            return Err(AddFault::Range);
        }
        if self.products.len() >= MOST_PRODUCTS {
            return Err(AddFault::TooMany);
        }
        let Ok(_) = self.products.insert(id, uncapped(parent, fare)) else {
            return Err(AddFault::Memory);
        };
        Ok(())
    }

    /// Sets the caps of a product, in pence: 0 to 1,000,000 a traffic day, and 0 to 10,000,000 from Monday to Sunday.
    ///
    /// Refused by the first case of `CapsFault` that applies.
    pub fn set_caps(&mut self, product: u32, daily: u32, weekly: u32) -> Result<(), CapsFault>
        ensures ok { IsOk result ↔ (caps_refusal self.old product daily weekly ≡ None) }
        ensures set { OnOk result (self.new ≡ with_caps self.old product daily weekly) }
        ensures refused { IfErr result (λ fault. caps_refusal self.old product daily weekly ≡ Some fault) }
        ensures unchanged { OnErr result (self.new ≡ self.old) }
    {
        let Some(id) = self.registered_product(product) else {
            return Err(CapsFault::UnknownParent);
        };
        if daily > MOST_DAILY || weekly > MOST_WEEKLY {
            return Err(CapsFault::Range);
        }
        let Some(product) = self.products.get_mut(&id) else {
            return Err(CapsFault::UnknownParent);
        };
        let daily_cap = Pence::new(daily as u64);
        let weekly_cap = Pence::new(weekly as u64);
        product.tariff.daily = daily_cap;
        product.tariff.weekly = weekly_cap;
        Ok(())
    }

    /// Sets the window of a product: for how many seconds after a paid ride further rides of the same account are
    /// free, on the same traffic day. 0 to 7,200, where at 0 each one is paid.
    ///
    /// Refused by the first case of `HopFault` that applies.
    pub fn set_hop(&mut self, product: u32, seconds: u32) -> Result<(), HopFault>
        ensures ok { IsOk result ↔ (hop_refusal self.old product seconds ≡ None) }
        ensures set { OnOk result (self.new ≡ with_hop self.old product seconds) }
        ensures refused { IfErr result (λ fault. hop_refusal self.old product seconds ≡ Some fault) }
        ensures unchanged { OnErr result (self.new ≡ self.old) }
    {
        let Some(id) = self.registered_product(product) else {
            return Err(HopFault::UnknownParent);
        };
        if seconds > MOST_HOP {
            return Err(HopFault::Range);
        }
        let Some(product) = self.products.get_mut(&id) else {
            return Err(HopFault::UnknownParent);
        };
        product.tariff.hop = seconds;
        Ok(())
    }

    /// Registers a device at a station, with the capacity of its buffer: 1 to 4,096.
    ///
    /// Refused by the first case of `AddFault` that applies; its parent is the station.
    pub fn add_device(&mut self, device: u32, station: u16, buffer: u32) -> Result<(), AddFault>
        ensures allowed { OnOk result (device_refusal self.old device station buffer ≡ None) }
        ensures added { OnOk result (self.new ≡ with_device self.old device station buffer) }
        ensures refused { IfErr result (λ fault. fault ≡ unwrap_or (device_refusal self.old device station buffer) AddFault.Memory) }
        ensures unchanged { OnErr result (self.new ≡ self.old) }
    {
        let Some(id) = DeviceId::new(device as u64) else {
            return Err(AddFault::ZeroId);
        };
        if self.devices.contains_key(&id) {
            return Err(AddFault::Taken);
        }
        let Some(parent) = self.registered_station(station) else {
            return Err(AddFault::UnknownParent);
        };
        if !is_buffer(buffer) {
            return Err(AddFault::Range);
        }
        if self.devices.len() >= MOST_DEVICES {
            return Err(AddFault::TooMany);
        }
        let placement = Placement {
            station: parent,
            buffer,
        };
        let Ok(_) = self.devices.insert(id, placement) else {
            return Err(AddFault::Memory);
        };
        Ok(())
    }

    /// Sets how many items the inbox and each station's acknowledgement line hold: 1 to 1,024.
    ///
    /// `OutOfRange` for any other number.
    pub fn set_inbox(&mut self, capacity: u32) -> Result<(), OutOfRange>
        ensures ok { IsOk result ↔ IsCapacity capacity }
        ensures set { OnOk result (self.new ≡ record self.old { inbox_capacity = capacity }) }
        ensures unchanged { OnErr result (self.new ≡ self.old) }
    {
        if !is_capacity(capacity) {
            return Err(OutOfRange);
        }
        self.inbox_capacity = capacity;
        Ok(())
    }

    /// Sets the first traffic day, in days since 1970-01-01: 0 to 100,000.
    ///
    /// `OutOfRange` for any other number.
    pub fn set_start(&mut self, day: u32) -> Result<(), OutOfRange>
        ensures ok { IsOk result ↔ IsDay day }
        ensures set { OnOk result (self.new ≡ record self.old { start = Some day }) }
        ensures unchanged { OnErr result (self.new ≡ self.old) }
    {
        let Some(day) = Day::new(day as u64) else {
            return Err(OutOfRange);
        };
        self.start = Some(day);
        Ok(())
    }

    /// Sets the clock by which traffic days turn.
    pub fn set_zone(&mut self, zone: Zone)
        ensures { self.new ≡ record self.old { zone = Some zone } }
    {
        self.zone = Some(zone);
    }

    /// The scheme of these registrations. Otherwise the draft comes back as it was, with the first case of
    /// `SealFault` that applies.
    pub fn seal(self) -> Result<Scheme, (Draft, SealFault)>
        ensures ok { IsOk result ↔ (seal_refusal self ≡ None) }
        ensures sealed { IfOk result (λ scheme. IsSealedFrom self scheme) }
        ensures refused { IfErr result (λ given_back. seal_refusal self ≡ Some given_back.1) }
        ensures unchanged { IfErr result (λ given_back. given_back.0 ≡ self) }
    {
        if self.lacks_a_kind() {
            return Err((self, SealFault::NothingRegistered));
        }
        let Some(start) = self.start else {
            return Err((self, SealFault::NoStart));
        };
        let Some(zone) = self.zone else {
            return Err((self, SealFault::NoZone));
        };
        let Draft {
            owners,
            operators,
            stations,
            products,
            devices,
            inbox_capacity,
            start: _,
            zone: _,
        } = self;
        Ok(Scheme {
            owners,
            operators,
            stations,
            products,
            devices,
            inbox_capacity,
            start,
            zone,
        })
    }

    // Whether nothing is registered of some kind.
    fn lacks_a_kind(&self) -> bool
        ensures { result ≡ lacks_a_kind self.now }
    {
        self.owners.is_empty()
            || self.operators.is_empty()
            || self.stations.is_empty()
            || self.products.is_empty()
            || self.devices.is_empty()
    }

    // The owner of this number, if it is registered.
    fn registered_owner(&self, owner: u16) -> Option<OwnerId>
        ensures found { is_some result ≡ is_registered self.now.owners owner }
        ensures value { IfSome result (λ id. id ≡ owner) }
    {
        let owners = &self.owners;
        let id = OwnerId::new(owner as u64)?;
        if !owners.contains_key(&id) {
            return None;
        }
        Some(id)
    }

    // The operator of this number, if it is registered.
    fn registered_operator(&self, operator: u16) -> Option<OperatorId>
        ensures found { is_some result ≡ list_any (nat_eq operator) self.now.operators }
        ensures value { IfSome result (λ id. id ≡ operator) }
    {
        let operators = &self.operators;
        let id = OperatorId::new(operator as u64)?;
        if !operators.contains(&id) {
            return None;
        }
        Some(id)
    }

    // The station of this number, if it is registered.
    fn registered_station(&self, station: u16) -> Option<StationId>
        ensures found { is_some result ≡ is_registered self.now.stations station }
        ensures value { IfSome result (λ id. id ≡ station) }
    {
        let stations = &self.stations;
        let id = StationId::new(station as u64)?;
        if !stations.contains_key(&id) {
            return None;
        }
        Some(id)
    }

    // The product of this number, if it is registered.
    fn registered_product(&self, product: u32) -> Option<ProductId>
        ensures found { is_some result ≡ is_registered self.now.products product }
        ensures value { IfSome result (λ id. id ≡ product) }
    {
        let products = &self.products;
        let id = ProductId::new(product as u64)?;
        if !products.contains_key(&id) {
            return None;
        }
        Some(id)
    }
}
