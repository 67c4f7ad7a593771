ghost use Rattle.std.specs.Prelude.{◌≡◌, None, IfOk, OnOk, IfErr, unwrap_or};
ghost use Rattle.fare_day.specs.Clock.{HasRule};
ghost use Rattle.fare_scheme.specs.Registering.{owner_refusal, operator_refusal, station_refusal, product_refusal, device_refusal, caps_refusal, with_owner, with_operator, with_station, with_product, with_device, with_caps};
ghost use Rattle.fare_scheme.specs.Ranges.{IsCapacity, IsBuffer};
ghost use Rattle.fare_scheme.specs.Demo.{demo_refusal, demo_rule, demo_scheme, unregistered};
ghost use Rattle.fare_scheme.specs.Sealing.{IsSealedFrom};

use crate::draft::{is_buffer, is_capacity};
use crate::{AddFault, Draft, Scheme};
use fare_day::Zone;
use std::alloc::Global;
use thiserror::Error;

/// Which demonstration scheme.
#[derive(Clone, Copy, PartialEq, Eq, Debug)]
pub enum DemoSize {
    /// One device, at the station of one operator.
    OneDevice,
    /// Two devices, each at the station of an operator of its own.
    TwoDevices,
}

/// Why there is no demonstration scheme, in the order in which this is tested.
#[derive(Clone, Copy, PartialEq, Eq, Debug, Error)]
pub enum DemoFault {
    /// A number is out of range.
    #[error("a number is out of range")]
    Range,
    /// No memory is left for it.
    #[error("out of memory")]
    Memory,
}

// Monday, 1 January 2024.
const START: u32 = 19_723;

// London's clock.
fn london() -> Zone
    ensures { HasRule result demo_rule }
{
    Zone::read("GMT0BST,M3.5.0/1,M10.5.0").unwrap()
}

// The draft before anything is registered.
fn settings(alloc: Global, inbox_capacity: u32, zone: Zone) -> Draft
    requires { IsCapacity inbox_capacity }
    ensures { result ≡ unregistered inbox_capacity zone }
{
    let mut draft = Draft::new(alloc);
    draft.set_inbox(inbox_capacity).unwrap();
    draft.set_start(START).unwrap();
    draft.set_zone(zone);
    draft
}

// Registers the owner and its product.
fn register_product(draft: &mut Draft, lane_capacity: u32) -> Result<(), AddFault>
    requires owner { owner_refusal draft.old 1 lane_capacity ≡ None }
    requires product { product_refusal (with_owner draft.old 1 lane_capacity) 1 1 175 ≡ None }
    requires caps { caps_refusal (with_product (with_owner draft.old 1 lane_capacity) 1 1 175) 1 525 2470 ≡ None }
    ensures added { OnOk result (draft.new ≡ with_caps (with_product (with_owner draft.old 1 lane_capacity) 1 1 175) 1 525 2470) }
    ensures memory { IfErr result (λ fault. fault ≡ AddFault.Memory) }
{
    draft.add_owner(1, lane_capacity)?;
    draft.add_product(1, 1, 175)?;
    draft.set_caps(1, 525, 2_470).unwrap();
    Ok(())
}

// Registers an operator with a station and a device there, all of this number.
fn register_site(draft: &mut Draft, number: u16, buffer: u32) -> Result<(), AddFault>
    requires operator { operator_refusal draft.old number ≡ None }
    requires station { station_refusal (with_operator draft.old number) number number ≡ None }
    requires device { device_refusal (with_station (with_operator draft.old number) number number) number number buffer ≡ None }
    ensures added { OnOk result (draft.new ≡ with_device (with_station (with_operator draft.old number) number number) number number buffer) }
    ensures memory { IfErr result (λ fault. fault ≡ AddFault.Memory) }
{
    draft.add_operator(number)?;
    draft.add_station(number, number)?;
    draft.add_device(number as u32, number, buffer)
}

// The draft of a demonstration scheme, whose numbers are in range.
fn demo_draft(
    alloc: Global,
    size: DemoSize,
    buffer: u32,
    inbox_capacity: u32,
    lane_capacity: u32,
    zone: Zone,
) -> Result<Draft, AddFault>
    requires buffer { IsBuffer buffer }
    requires inbox { IsCapacity inbox_capacity }
    requires lane { IsCapacity lane_capacity }
    ensures draft { IfOk result (λ draft. IsSealedFrom draft (demo_scheme size buffer inbox_capacity lane_capacity zone)) }
    ensures memory { IfErr result (λ fault. fault ≡ AddFault.Memory) }
{
    let mut draft = settings(alloc, inbox_capacity, zone);
    register_product(&mut draft, lane_capacity)?;
    register_site(&mut draft, 1, buffer)?;
    match size {
        DemoSize::OneDevice => Ok(draft),
        DemoSize::TwoDevices => {
            register_site(&mut draft, 2, buffer)?;
            Ok(draft)
        }
    }
}

impl Scheme {
    /// A small scheme to try things on. Owner 1 has product 1: 175 pence a ride, at most 525 a day and 2,470 a
    /// week. Operator 1 has station 1 with device 1 and, where there are two, operator 2 station 2 with device 2.
    /// The clock is London's, and the first traffic day is Monday, 1 January 2024. The numbers are the capacity of
    /// each device's buffer (1 to 4,096), of the inbox and of the owner's lane queue (1 to 1,024 each).
    ///
    /// Refused by the first case of `DemoFault` that applies.
    pub fn demo(
        alloc: Global,
        size: DemoSize,
        buffer: u32,
        inbox_capacity: u32,
        lane_capacity: u32,
    ) -> Result<Scheme, DemoFault>
        ensures allowed { OnOk result (demo_refusal buffer inbox_capacity lane_capacity ≡ None) }
        ensures scheme { IfOk result (λ scheme. scheme ≡ demo_scheme size buffer inbox_capacity lane_capacity scheme.zone) }
        ensures zone { IfOk result (λ scheme. HasRule scheme.zone demo_rule) }
        ensures refused { IfErr result (λ fault. fault ≡ unwrap_or (demo_refusal buffer inbox_capacity lane_capacity) DemoFault.Memory) }
    {
        if !is_buffer(buffer) || !is_capacity(inbox_capacity) || !is_capacity(lane_capacity) {
            return Err(DemoFault::Range);
        }
        let zone = london();
        let Ok(draft) = demo_draft(alloc, size, buffer, inbox_capacity, lane_capacity, zone) else {
            return Err(DemoFault::Memory);
        };
        let Ok(scheme) = draft.seal() else {
            unreachable!()
        };
        Ok(scheme)
    }
}
