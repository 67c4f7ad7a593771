ghost use Rattle.std.specs.Map.{keys_of};
ghost use Rattle.std.specs.Prelude.{ℕ, ◌≡◌, ◌↔◌, ◌<◌, Some, IsSome, IfSome, length, slice_get};
ghost use Rattle.fare_scheme.specs.Facts.{IsScheme, IsTariff};
ghost use Rattle.fare_scheme.specs.Ranges.{IsBuffer, IsCapacity};
ghost use Rattle.fare_scheme.specs.Words.{owner_of, tariff_of, station_of, operator_of_station, operator_of, buffer_of, lane_capacity_of, id_at, position_of_owner, position_of_operator, position_of_station, position_of_product, position_of_device};

use crate::{Placement, Product, Tariff};
use fare_day::Zone;
use fare_record::{Day, DeviceId, OperatorId, OwnerId, ProductId, StationId};
use indexmap::IndexMap;
use std::marker::Model;

/// A sealed scheme. Its parts stand in the order in which they were registered, and positions count from 0.
pub struct Scheme {
    pub(crate) owners: IndexMap<OwnerId, u32>,
    pub(crate) operators: Vec<OperatorId>,
    pub(crate) stations: IndexMap<StationId, OperatorId>,
    pub(crate) products: IndexMap<ProductId, Product>,
    pub(crate) devices: IndexMap<DeviceId, Placement>,
    pub(crate) inbox_capacity: u32,
    pub(crate) start: Day,
    pub(crate) zone: Zone,
}

impl Model for Scheme {
    ghost use Rattle.fare_scheme.specs.Values.{SchemeValue};
    ghost use Rattle.fare_scheme.specs.Facts.{IsScheme};

    ghost Value = { SchemeValue };

    ghost view = { λ s. record {
      owners = s.owners.entries;
      operators = s.operators.items;
      stations = s.stations.entries;
      products = s.products.entries;
      devices = s.devices.entries;
      inbox_capacity = s.inbox_capacity;
      start = s.start;
      zone = s.zone;
    } };

    ghost invariant = { λ s. IsScheme (record {
      owners = s.owners.entries;
      operators = s.operators.items;
      stations = s.stations.entries;
      products = s.products.entries;
      devices = s.devices.entries;
      inbox_capacity = s.inbox_capacity;
      start = s.start;
      zone = s.zone;
    }) };
}

impl Drop for Scheme {
    // Derived, it would stand part by part in the proof of each function that may let a scheme go.
    fn drop(self) {
        let Scheme {
            owners,
            operators,
            stations,
            products,
            devices,
            inbox_capacity: _,
            start: _,
            zone: _,
        } = self;
        drop(owners);
        drop(operators);
        drop(stations);
        drop(products);
        drop(devices);
    }
}

impl Scheme {
    /// The owner of a product.
    pub fn owner_of(&self, product: ProductId) -> Option<OwnerId>
        ensures value { result ≡ owner_of self.now product }
        ensures found { IsSome result ↔ IsSome (position_of_product self.now product) }
        ensures known { IfSome result (λ owner. IsSome (position_of_owner self.now owner)) }
    {
        self.products.get(&product).map(|product| product.owner)
    }

    /// The tariff of a product.
    pub fn tariff_of(&self, product: ProductId) -> Option<Tariff>
        ensures value { result ≡ tariff_of self.now product }
        ensures found { IsSome result ↔ IsSome (position_of_product self.now product) }
        ensures valid { IfSome result IsTariff }
    {
        self.products.get(&product).map(|product| product.tariff)
    }

    /// The station of a device.
    pub fn station_of(&self, device: DeviceId) -> Option<StationId>
        ensures value { result ≡ station_of self.now device }
        ensures found { IsSome result ↔ IsSome (position_of_device self.now device) }
        ensures known { IfSome result (λ station. IsSome (position_of_station self.now station)) }
    {
        self.devices.get(&device).map(|placement| placement.station)
    }

    /// The operator of a station.
    pub fn operator_of_station(&self, station: StationId) -> Option<OperatorId>
        ensures value { result ≡ operator_of_station self.now station }
        ensures found { IsSome result ↔ IsSome (position_of_station self.now station) }
        ensures known { IfSome result (λ operator. IsSome (position_of_operator self.now operator)) }
    {
        self.stations.get(&station).copied()
    }

    /// The operator of a device's station.
    pub fn operator_of(&self, device: DeviceId) -> Option<OperatorId>
        ensures value { result ≡ operator_of self.now device }
        ensures found { IsSome result ↔ IsSome (position_of_device self.now device) }
        ensures known { IfSome result (λ operator. IsSome (position_of_operator self.now operator)) }
    {
        let station = self.station_of(device)?;
        self.stations.get(&station).copied()
    }

    /// How many taps a device's buffer holds.
    pub fn buffer_of(&self, device: DeviceId) -> Option<u32>
        ensures value { result ≡ buffer_of self.now device }
        ensures found { IsSome result ↔ IsSome (position_of_device self.now device) }
        ensures valid { IfSome result IsBuffer }
    {
        self.devices.get(&device).map(|placement| placement.buffer)
    }

    /// How many items the lane queue of an owner holds.
    pub fn lane_capacity(&self, owner: OwnerId) -> Option<u32>
        ensures value { result ≡ lane_capacity_of self.now owner }
        ensures found { IsSome result ↔ IsSome (position_of_owner self.now owner) }
        ensures valid { IfSome result IsCapacity }
    {
        self.owners.get(&owner).copied()
    }

    /// How many items the inbox holds, and each station's acknowledgement line.
    pub fn inbox_capacity(&self) -> u32
        ensures value { result ≡ self.now.inbox_capacity }
        ensures valid { IsScheme self.now }
    {
        self.inbox_capacity
    }

    /// The first traffic day.
    pub fn start(&self) -> Day
        ensures value { result ≡ self.now.start }
        ensures valid { IsScheme self.now }
    {
        self.start
    }

    /// The clock by which traffic days turn.
    pub fn zone(&self) -> &Zone
        ensures value { result.now ≡ self.now.zone }
        ensures valid { IsScheme self.now }
    {
        &self.zone
    }

    /// The owners, in the order in which they were registered.
    pub fn owners(&self) -> &[OwnerId]
        ensures value { result.now ≡ keys_of self.now.owners }
        ensures placed { (place : ℕ) (owner : ℕ) → slice_get result.now place ≡ Some owner → position_of_owner self.now owner ≡ Some place }
        ensures valid { IsScheme self.now }
    {
        self.owners.keys().as_slice()
    }

    /// The number of owners.
    pub fn owner_count(&self) -> usize
        ensures value { result ≡ length self.now.owners }
        ensures valid { IsScheme self.now }
    {
        self.owners.len()
    }

    /// The owner at a position.
    pub fn owner_at(&self, position: usize) -> Option<OwnerId>
        ensures value { result ≡ id_at self.now.owners position }
        ensures placed { IfSome result (λ owner. position_of_owner self.now owner ≡ Some position) }
    {
        self.owners.get_index(position).map(|(id, _)| *id)
    }

    /// The position of an owner.
    pub fn owner_position(&self, owner: OwnerId) -> Option<usize>
        ensures value { result ≡ position_of_owner self.now owner }
        ensures at { IfSome result (λ position. id_at self.now.owners position ≡ Some owner) }
        ensures within { IfSome result (λ position. position < length self.now.owners) }
    {
        self.owners.get_index_of(&owner)
    }

    /// The operators, in the order in which they were registered.
    pub fn operators(&self) -> &[OperatorId]
        ensures value { result.now ≡ self.now.operators }
        ensures placed { (place : ℕ) (operator : ℕ) → slice_get result.now place ≡ Some operator → position_of_operator self.now operator ≡ Some place }
        ensures valid { IsScheme self.now }
    {
        &self.operators
    }

    /// The number of operators.
    pub fn operator_count(&self) -> usize
        ensures value { result ≡ length self.now.operators }
        ensures valid { IsScheme self.now }
    {
        self.operators.len()
    }

    /// The operator at a position.
    pub fn operator_at(&self, position: usize) -> Option<OperatorId>
        ensures value { result ≡ slice_get self.now.operators position }
        ensures placed { IfSome result (λ operator. position_of_operator self.now operator ≡ Some position) }
    {
        self.operators.get(position).copied()
    }

    /// The position of an operator.
    pub fn operator_position(&self, operator: OperatorId) -> Option<usize>
        ensures value { result ≡ position_of_operator self.now operator }
        ensures at { IfSome result (λ position. slice_get self.now.operators position ≡ Some operator) }
        ensures within { IfSome result (λ position. position < length self.now.operators) }
    {
        self.operators
            .iter()
            .position(|registered| *registered == operator)
    }

    /// The stations, in the order in which they were registered.
    pub fn stations(&self) -> &[StationId]
        ensures value { result.now ≡ keys_of self.now.stations }
        ensures placed { (place : ℕ) (station : ℕ) → slice_get result.now place ≡ Some station → position_of_station self.now station ≡ Some place }
        ensures valid { IsScheme self.now }
    {
        self.stations.keys().as_slice()
    }

    /// The number of stations.
    pub fn station_count(&self) -> usize
        ensures value { result ≡ length self.now.stations }
        ensures valid { IsScheme self.now }
    {
        self.stations.len()
    }

    /// The station at a position.
    pub fn station_at(&self, position: usize) -> Option<StationId>
        ensures value { result ≡ id_at self.now.stations position }
        ensures placed { IfSome result (λ station. position_of_station self.now station ≡ Some position) }
    {
        self.stations.get_index(position).map(|(id, _)| *id)
    }

    /// The position of a station.
    pub fn station_position(&self, station: StationId) -> Option<usize>
        ensures value { result ≡ position_of_station self.now station }
        ensures at { IfSome result (λ position. id_at self.now.stations position ≡ Some station) }
        ensures within { IfSome result (λ position. position < length self.now.stations) }
    {
        self.stations.get_index_of(&station)
    }

    /// The number of products.
    pub fn product_count(&self) -> usize
        ensures value { result ≡ length self.now.products }
        ensures valid { IsScheme self.now }
    {
        self.products.len()
    }

    /// The product at a position.
    pub fn product_at(&self, position: usize) -> Option<ProductId>
        ensures value { result ≡ id_at self.now.products position }
        ensures placed { IfSome result (λ product. position_of_product self.now product ≡ Some position) }
    {
        self.products.get_index(position).map(|(id, _)| *id)
    }

    /// The position of a product.
    pub fn product_position(&self, product: ProductId) -> Option<usize>
        ensures value { result ≡ position_of_product self.now product }
        ensures at { IfSome result (λ position. id_at self.now.products position ≡ Some product) }
        ensures within { IfSome result (λ position. position < length self.now.products) }
    {
        self.products.get_index_of(&product)
    }

    /// The devices, in the order in which they were registered.
    pub fn devices(&self) -> &[DeviceId]
        ensures value { result.now ≡ keys_of self.now.devices }
        ensures placed { (place : ℕ) (device : ℕ) → slice_get result.now place ≡ Some device → position_of_device self.now device ≡ Some place }
        ensures valid { IsScheme self.now }
    {
        self.devices.keys().as_slice()
    }

    /// The number of devices.
    pub fn device_count(&self) -> usize
        ensures value { result ≡ length self.now.devices }
        ensures valid { IsScheme self.now }
    {
        self.devices.len()
    }

    /// The device at a position.
    pub fn device_at(&self, position: usize) -> Option<DeviceId>
        ensures value { result ≡ id_at self.now.devices position }
        ensures placed { IfSome result (λ device. position_of_device self.now device ≡ Some position) }
    {
        self.devices.get_index(position).map(|(id, _)| *id)
    }

    /// The position of a device.
    pub fn device_position(&self, device: DeviceId) -> Option<usize>
        ensures value { result ≡ position_of_device self.now device }
        ensures at { IfSome result (λ position. id_at self.now.devices position ≡ Some device) }
        ensures within { IfSome result (λ position. position < length self.now.devices) }
    {
        self.devices.get_index_of(&device)
    }
}
