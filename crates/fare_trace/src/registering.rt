ghost use Rattle.std.specs.Prelude.{◌≡◌, Some, IfOk};
ghost use Rattle.fare_scheme.specs.Registering.{hop_refusal, with_hop};
ghost use Rattle.fare_scheme.specs.Sealing.{seal_refusal};
ghost use Rattle.fare_scheme.specs.Demo.{demo_refusal, demo_scheme};
ghost use Rattle.fare_trace.specs.Answers.{Demonstrates, Seals, SetsUp, SetsZone, accepted as accepted_draft, add_refusal, entered, refused as refused_draft, seal_name, window_refusal};
ghost use Rattle.fare_trace.specs.Registration.{AddsNothing, AfterAdding, answer_of};

use fare_day::Zone;
use fare_event::{Refusal, Reply};
use fare_lines::{SchemeLine, ZoneText};
use fare_scheme::{AddFault, CapsFault, DemoFault, DemoSize, Draft, HopFault, Scheme, SealFault};
use std::alloc::{AllocError, Global};

/// How far the registration of a trace's scheme is.
#[derive(Drop)]
pub enum Registration {
    /// The draft, and whether a scheme line was accepted.
    Open { draft: Draft, used: bool },
    /// The sealed scheme.
    Sealed { scheme: Scheme },
}

/// What a scheme line before the seal is answered. The error is want of memory.
pub type Answer = Result<(Registration, Reply), AllocError>;

/// The draft goes on, and the line was accepted.
fn accept(draft: Draft) -> (Registration, Reply)
    ensures { answer_of result ≡ accepted_draft draft }
{
    (Registration::Open { draft, used: true }, Reply::Done)
}

/// The draft goes on, and the line was refused.
pub fn refuse(draft: Draft, used: bool, refusal: Refusal) -> (Registration, Reply)
    ensures { answer_of result ≡ refused_draft draft used refusal }
{
    (Registration::Open { draft, used }, Reply::Refused(refusal))
}

/// What a fault of an addition is answered. The error is want of memory.
fn add_name(fault: AddFault) -> Result<Refusal, AllocError>
    ensures { IfOk result (λ refusal. add_refusal (Some fault) ≡ Some refusal) }
{
    match fault {
        AddFault::ZeroId => Ok(Refusal::ZeroId),
        AddFault::Taken => Ok(Refusal::Taken),
        AddFault::UnknownParent => Ok(Refusal::UnknownParent),
        AddFault::Range => Ok(Refusal::Range),
        AddFault::TooMany => Ok(Refusal::TooMany),
        AddFault::Memory => Err(AllocError),
    }
}

/// What keeps a draft from being sealed.
fn seal_refusal_of(fault: SealFault) -> Refusal
    ensures { result ≡ seal_name fault }
{
    match fault {
        SealFault::NothingRegistered => Refusal::NothingRegistered,
        SealFault::NoStart => Refusal::NoStart,
        SealFault::NoZone => Refusal::NoZone,
    }
}

/// The answer to an addition to the draft.
fn after_adding(draft: Draft, used: bool, added: Result<(), AddFault>) -> Answer
    ensures { IfOk result (λ answer. AfterAdding draft used added (answer_of answer)) }
{
    match added {
        Ok(()) => Ok(accept(draft)),
        Err(fault) => Ok(refuse(draft, used, add_name(fault)?)),
    }
}

/// The answer to the line of a product's window.
fn set_hop(mut draft: Draft, used: bool, product: u32, seconds: u32) -> (Registration, Reply)
    ensures { answer_of result ≡ entered draft used (window_refusal (hop_refusal draft product seconds)) (with_hop draft product seconds) }
{
    match draft.set_hop(product, seconds) {
        Ok(()) => accept(draft),
        Err(HopFault::UnknownParent) => refuse(draft, used, Refusal::UnknownParent),
        Err(HopFault::Range) => refuse(draft, used, Refusal::Range),
    }
}

/// The answer to a zone line.
fn set_zone(mut draft: Draft, used: bool, rule: &ZoneText) -> (Registration, Reply)
    ensures { SetsZone draft used rule.now (answer_of result) }
{
    match Zone::read(rule.as_str()) {
        Ok(zone) => {
            draft.set_zone(zone);
            accept(draft)
        }
        Err(_) => refuse(draft, used, Refusal::BadZone),
    }
}

/// The answer to the seal.
fn seal(draft: Draft, used: bool) -> (Registration, Reply)
    ensures { Seals draft used (seal_refusal draft) (answer_of result) }
{
    match draft.seal() {
        Ok(scheme) => (Registration::Sealed { scheme }, Reply::Done),
        Err((draft, fault)) => refuse(draft, used, seal_refusal_of(fault)),
    }
}

/// The answer to the line of a demonstration scheme.
fn demonstrate(
    alloc: Global,
    draft: Draft,
    used: bool,
    size: DemoSize,
    buffer: u32,
    inbox: u32,
    lane: u32,
) -> Answer
    ensures { IfOk result (λ answer. Demonstrates draft used (demo_refusal buffer inbox lane) (demo_scheme size buffer inbox lane) (answer_of answer)) }
{
    if used {
        return Ok(refuse(draft, used, Refusal::Taken));
    }
    match Scheme::demo(alloc, size, buffer, inbox, lane) {
        Ok(scheme) => Ok((Registration::Sealed { scheme }, Reply::Done)),
        Err(DemoFault::Range) => Ok(refuse(draft, used, Refusal::Range)),
        Err(DemoFault::Memory) => Err(AllocError),
    }
}

/// The answer to a scheme line that adds nothing to the lists of the draft.
fn set_or_seal(alloc: Global, mut draft: Draft, used: bool, line: &SchemeLine) -> Answer
    requires { AddsNothing line.now }
    ensures { IfOk result (λ answer. SetsUp draft used line.now (answer_of answer)) }
{
    match line {
        SchemeLine::Caps {
            product,
            daily,
            weekly,
        } => match draft.set_caps(*product, *daily, *weekly) {
            Ok(()) => Ok(accept(draft)),
            Err(CapsFault::UnknownParent) => Ok(refuse(draft, used, Refusal::UnknownParent)),
            Err(CapsFault::Range) => Ok(refuse(draft, used, Refusal::Range)),
        },
        SchemeLine::Hop { product, seconds } => Ok(set_hop(draft, used, *product, *seconds)),
        SchemeLine::Inbox { capacity } => match draft.set_inbox(*capacity) {
            Ok(()) => Ok(accept(draft)),
            Err(_) => Ok(refuse(draft, used, Refusal::Range)),
        },
        SchemeLine::Zone { rule } => Ok(set_zone(draft, used, rule)),
        SchemeLine::Start { day } => match draft.set_start(*day) {
            Ok(()) => Ok(accept(draft)),
            Err(_) => Ok(refuse(draft, used, Refusal::Range)),
        },
        SchemeLine::Seal => Ok(seal(draft, used)),
        SchemeLine::Demo {
            size,
            buffer,
            inbox,
            lane,
        } => demonstrate(alloc, draft, used, *size, *buffer, *inbox, *lane),
        _ => unreachable!(),
    }
}

/// The answer to a scheme line before the seal.
pub fn set_up(alloc: Global, mut draft: Draft, used: bool, line: &SchemeLine) -> Answer
    ensures { IfOk result (λ answer. SetsUp draft used line.now (answer_of answer)) }
{
    match line {
        SchemeLine::Owner { owner, lane } => {
            let added = draft.add_owner(*owner, *lane);
            after_adding(draft, used, added)
        }
        SchemeLine::Operator { operator } => {
            let added = draft.add_operator(*operator);
            after_adding(draft, used, added)
        }
        SchemeLine::Station { station, operator } => {
            let added = draft.add_station(*station, *operator);
            after_adding(draft, used, added)
        }
        SchemeLine::Product {
            product,
            owner,
            fare,
        } => {
            let added = draft.add_product(*product, *owner, *fare);
            after_adding(draft, used, added)
        }
        SchemeLine::Device {
            device,
            station,
            buffer,
        } => {
            let added = draft.add_device(*device, *station, *buffer);
            after_adding(draft, used, added)
        }
        _ => set_or_seal(alloc, draft, used, line),
    }
}
