ghost use Rattle.std.specs.Prelude.{◌≡◌, ◌≤◌, [], IfOk, IsSome, length, vec_capacity};
ghost use Rattle.fare_scheme.specs.Words.{position_of_owner};
ghost use Rattle.fare_world.specs.Fresh.{AreFreshDevices, AreFreshStations, IsFreshSide, AreFreshSides, AreFresh, AreJoined};

use circular_buffer::HeapCircularBuffer;
use fare_collector::{Collector, CollectorFault};
use fare_device::{Device, DeviceFault};
use fare_record::{Day, Item, OwnerId};
use fare_route::{Forwarder, StartFault};
use fare_scheme::Scheme;
use fare_side::{Owner, Station};
use std::alloc::{AllocError, Global};

// An owner's side of a new world, but for its ledger.
#[derive(Drop)]
pub(super) struct Side {
    queue: HeapCircularBuffer<Item>,
    forwarder: Forwarder,
    standings: Vec<(u64, Option<Day>)>,
}

// All that a new world has beside its stores, with the room for its owners.
#[derive(Drop)]
pub(super) struct Fresh<L> {
    pub devices: Vec<Device>,
    pub stations: Vec<Station>,
    pub inbox: HeapCircularBuffer<Item>,
    pub uptos: Vec<u64>,
    pub sides: Vec<Side>,
    pub owners: Vec<Owner<L>>,
}

// The parts of a new world of a scheme.
pub(super) fn fresh_parts<L: Drop>(alloc: Global, scheme: &Scheme) -> Result<Fresh<L>, AllocError>
    ensures { IfOk result (AreFresh scheme.now) }
{
    let devices = fresh_devices(alloc, scheme)?;
    let stations = fresh_stations(alloc, scheme)?;
    let sides = fresh_sides(alloc, scheme)?;
    let inbox = HeapCircularBuffer::with_capacity(alloc, scheme.inbox_capacity() as usize)?;
    let uptos = vec![in alloc; 0; scheme.device_count()]?;
    let owners = Vec::with_capacity(alloc, scheme.owner_count())?;
    Ok(Fresh {
        devices,
        stations,
        inbox,
        uptos,
        sides,
        owners,
    })
}

// Each owner's side with its ledger, in the room that was made for them.
pub(super) fn joined<L: Drop>(
    mut owners: Vec<Owner<L>>,
    sides: Vec<Side>,
    ledgers: Vec<L>,
) -> Vec<Owner<L>>
    requires none { owners.items ≡ [] }
    requires room { length ledgers.items ≤ vec_capacity owners }
    requires count { length sides.items ≡ length ledgers.items }
    ensures { AreJoined sides.items ledgers.items result.items }
{
    for (side, ledger) in sides.into_iter().zip(ledgers) {
        let Side {
            queue,
            forwarder,
            standings,
        } = side;
        let owner = Owner {
            ledger,
            queue,
            hand: None,
            forwarder,
            standings,
        };
        if owners.push(owner).is_err() {
            unreachable!()
        }
    }
    owners
}

// The scheme's devices, none of which has numbered anything.
fn fresh_devices(alloc: Global, scheme: &Scheme) -> Result<Vec<Device>, AllocError>
    ensures { IfOk result (λ devices. AreFreshDevices scheme.now devices.items) }
{
    let mut devices = Vec::new(alloc);
    for id in scheme.devices() {
        match Device::new(alloc, *id, scheme) {
            Ok(device) => devices.push(device)?,
            Err(DeviceFault::Memory) => return Err(AllocError),
            Err(DeviceFault::UnknownDevice) => unreachable!(),
        }
    }
    Ok(devices)
}

// The scheme's stations, none of which has accepted anything.
fn fresh_stations(alloc: Global, scheme: &Scheme) -> Result<Vec<Station>, AllocError>
    ensures { IfOk result (λ stations. AreFreshStations scheme.now stations.items) }
{
    let room = scheme.inbox_capacity() as usize;
    let mut stations = Vec::new(alloc);
    for id in scheme.stations() {
        match Collector::new(alloc, scheme, *id) {
            Ok(collector) => {
                let line = HeapCircularBuffer::with_capacity(alloc, room)?;
                stations.push(Station { collector, line })?;
            }
            Err(CollectorFault::Memory) => return Err(AllocError),
            Err(CollectorFault::UnknownStation) => unreachable!(),
        }
    }
    Ok(stations)
}

// The sides of the scheme's owners, none of which has fetched or taken anything.
fn fresh_sides(alloc: Global, scheme: &Scheme) -> Result<Vec<Side>, AllocError>
    ensures { IfOk result (λ sides. AreFreshSides scheme.now sides.items) }
{
    let mut sides = Vec::new(alloc);
    for owner in scheme.owners() {
        sides.push(fresh_side(alloc, scheme, *owner)?)?;
    }
    Ok(sides)
}

// The side of an owner: its forwarder begins before the first tap of each device.
fn fresh_side(alloc: Global, scheme: &Scheme, owner: OwnerId) -> Result<Side, AllocError>
    requires { IsSome (position_of_owner scheme.now owner) }
    ensures owner { IfOk result (λ side. side.forwarder.owner ≡ owner) }
    ensures fresh { IfOk result (IsFreshSide scheme.now) }
{
    let Some(capacity) = scheme.lane_capacity(owner) else {
        unreachable!()
    };
    let queue = HeapCircularBuffer::with_capacity(alloc, capacity as usize)?;
    let standings = vec![in alloc; (0, None); scheme.device_count()]?;
    match Forwarder::start(alloc, scheme, owner, &standings) {
        Ok(forwarder) => Ok(Side {
            queue,
            forwarder,
            standings,
        }),
        Err(StartFault::Memory) => Err(AllocError),
        Err(StartFault::UnknownOwner | StartFault::Range) => unreachable!(),
    }
}
