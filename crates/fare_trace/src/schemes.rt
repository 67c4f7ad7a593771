ghost use Rattle.std.specs.Prelude.{◌≡◌, Bool, IfOk, IfErr};
ghost use Rattle.fare_day.specs.Clock.{HasRule};
ghost use Rattle.fare_scheme.specs.Demo.{demo_rule};
ghost use Rattle.fare_scheme.specs.Values.{DraftValue};
ghost use Rattle.fare_event.specs.declared.reply.Reply.{Reply};
ghost use Rattle.fare_world.specs.System.{start};
ghost use Rattle.fare_trace.specs.Answers.{Running, SetsUp};
ghost use Rattle.fare_trace.specs.Schemes.{HasZone, Makes, MakesNone, zone_after};
ghost use Rattle.fare_trace.specs.declared.schemes.SchemeFault.TheVariants.{Memory};

use crate::registering::{Registration, set_up};
use fare_event::{Refusal, Reply};
use fare_lines::{Line, SchemeLine, ZoneText};
use fare_scheme::{Draft, Scheme};
use fare_setup::copy_zone;
use std::alloc::{AllocError, Global};

/// Why lines make no scheme, in the order in which this is tested at each line.
#[derive(Clone, Copy, PartialEq, Eq, Debug)]
pub enum SchemeFault {
    /// A scheme line was refused; this is the first refusal.
    Refused(Refusal),
    /// An event line or the end came before the seal.
    NoScheme,
    /// There was no memory.
    Memory,
}

impl From<AllocError> for SchemeFault {
    ghost from_gives = { λ _ e. e ≡ Memory };

    fn from(_error: AllocError) -> SchemeFault {
        SchemeFault::Memory
    }
}

/// A scheme that lines make, with the rule by which its clock goes.
#[derive(Drop)]
pub struct ZonedScheme {
    /// The scheme.
    pub scheme: Scheme,
    /// The rule: that of the zone line that was taken last, or London's for a demonstration scheme.
    pub zone: ZoneText,
}

// The rule of London's clock. The error is want of memory.
fn london(alloc: Global) -> Result<ZoneText, AllocError>
    ensures { IfOk result (λ zone. zone ≡ demo_rule) }
{
    match ZoneText::read(alloc, b"GMT0BST,M3.5.0/1,M10.5.0")? {
        Some(zone) => Ok(zone),
        None => unreachable!(),
    }
}

// The rule of a draft's clock after a line was taken, which is that of the line if it sets one. The error is want of memory.
fn rule_after(
    alloc: Global,
    line: &SchemeLine,
    before: Option<ZoneText>,
) -> Result<Option<ZoneText>, AllocError>
    ensures { IfOk result (λ rule. rule ≡ zone_after line.now before) }
{
    match line {
        SchemeLine::Zone { rule } => Ok(Some(copy_zone(alloc, rule)?)),
        _ => Ok(before),
    }
}

// A scheme that a line sealed, or set up as a demonstration, with the rule of its clock. The error is want of memory.
fn with_rule(
    alloc: Global,
    scheme: Scheme,
    line: &SchemeLine,
    before: Option<ZoneText>,
) -> Result<ZonedScheme, AllocError>
    requires { (draft : DraftValue) × (used : Bool) × (reply : Reply) × SetsUp draft used line.now (Running scheme (start scheme), reply) × HasZone draft.zone before }
    ensures scheme { IfOk result (λ made. made.scheme ≡ scheme) }
    ensures rule { IfOk result (λ made. HasRule scheme.zone made.zone) }
{
    if let SchemeLine::Demo { .. } = line {
        let zone = london(alloc)?;
        return Ok(ZonedScheme { scheme, zone });
    }
    match before {
        Some(zone) => Ok(ZonedScheme { scheme, zone }),
        None => unreachable!(),
    }
}

/// The scheme that lines make, judged one by one in their order, up to a `seal` or `demo` that is answered `ok`, with the
/// rule of its clock. Lines behind that are not looked at.
///
/// `Refused` where a line before it is refused, `NoScheme` where an event line or the end comes first; `Memory` where a
/// line or the rule gets no memory.
pub fn zoned_scheme_of(alloc: Global, lines: &[Line]) -> Result<ZonedScheme, SchemeFault>
    ensures made { IfOk result (λ made. Makes lines.now made.scheme) }
    ensures rule { IfOk result (λ made. HasRule made.scheme.zone made.zone) }
    ensures fails { IfErr result (MakesNone lines.now) }
{
    let mut draft = Draft::new(alloc);
    let mut used = false;
    let mut zone = None;
    for line in lines {
        let Line::Setup(line) = line else {
            return Err(SchemeFault::NoScheme);
        };
        let (registration, reply) = set_up(alloc, draft, used, line)?;
        if let Reply::Refused(refusal) = reply {
            return Err(SchemeFault::Refused(refusal));
        }
        match registration {
            Registration::Open {
                draft: next,
                used: now,
            } => {
                draft = next;
                used = now;
                zone = rule_after(alloc, line, zone)?;
            }
            Registration::Sealed { scheme } => return Ok(with_rule(alloc, scheme, line, zone)?),
        }
    }
    Err(SchemeFault::NoScheme)
}

/// The scheme that lines make, as `zoned_scheme_of` says.
pub fn scheme_of(alloc: Global, lines: &[Line]) -> Result<Scheme, SchemeFault>
    ensures made { IfOk result (Makes lines.now) }
    ensures fails { IfErr result (MakesNone lines.now) }
{
    Ok(zoned_scheme_of(alloc, lines)?.scheme)
}
