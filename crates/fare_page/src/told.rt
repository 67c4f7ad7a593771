//! What is told of how a question ended.
ghost use Rattle.std.specs.Prelude.{◌≡◌, ◌⊎◌};
ghost use Rattle.fare_desk.specs.Causes.{store_fault, store_named};
ghost use Rattle.fare_page.specs.Answering.{IsFault, IsNamed, IsOutOfMemory, IsTold, IsToldFault, IsToldOf, refusal_in};

use fare_desk::DeskFault;
use fare_event::{Refusal, Reply};
use fare_lines::print_reply;
use http::StatusCode;

// The refusal that a fault is, as a trace names it, if it is one.
fn named(fault: &DeskFault) -> Option<Refusal>
    ensures { result ≡ refusal_in fault.now }
{
    match fault {
        DeskFault::UnknownOwner => Some(Refusal::UnknownOwner),
        DeskFault::UnknownDevice => Some(Refusal::UnknownDevice),
        DeskFault::BeforeStart => Some(Refusal::BeforeStart),
        DeskFault::Forgotten { device } => Some(Refusal::Forgotten { device: *device }),
        DeskFault::NotClosed { device } => Some(Refusal::NotClosed { device: *device }),
        DeskFault::Retired => Some(Refusal::Retired),
        DeskFault::Memory | DeskFault::Store | DeskFault::Write => None,
    }
}

// The status of a fault that is no refusal; that a store failed is told by a line, too, behind what is there.
pub(crate) fn tell_failure(fault: DeskFault, body: &mut Vec<u8>) -> StatusCode
    ensures fault { IsFault result }
    ensures stores { IsToldOf (store_named fault) body.old.items body.new.items result }
{
    match fault {
        DeskFault::Store => match body.extend_from_slice(b"store failed\n") {
            Ok(()) => StatusCode::INTERNAL_SERVER_ERROR,
            Err(_) => StatusCode::SERVICE_UNAVAILABLE,
        },
        _ => StatusCode::SERVICE_UNAVAILABLE,
    }
}

// The status of a refusal, and its line.
fn tell_refusal(why: Refusal, body: &mut Vec<u8>) -> StatusCode
    ensures { IsOutOfMemory result ⊎ IsNamed why body.old.items body.new.items result }
{
    match print_reply(&Reply::Refused(why), body) {
        Ok(()) => StatusCode::CONFLICT,
        Err(_) => StatusCode::SERVICE_UNAVAILABLE,
    }
}

// The same of any fault.
fn tell_fault(fault: DeskFault, body: &mut Vec<u8>) -> StatusCode
    ensures told { IsToldFault (refusal_in fault) body.old.items body.new.items result }
    ensures stores { IsToldOf (store_named fault) body.old.items body.new.items result }
{
    match named(&fault) {
        Some(refusal) => tell_refusal(refusal, body),
        None => tell_failure(fault, body),
    }
}

// The status of how a question or an order ended, of which this was written; and the line of its refusal, if it was refused
// by name, or that a store failed.
pub(crate) fn tell(ended: Result<(), DeskFault>, body: &mut Vec<u8>) -> StatusCode
    ensures told { IsTold ended body.old.items body.new.items result }
    ensures stores { IsToldOf (store_fault ended) body.old.items body.new.items result }
{
    match ended {
        Ok(()) => StatusCode::OK,
        Err(fault) => tell_fault(fault, body),
    }
}
