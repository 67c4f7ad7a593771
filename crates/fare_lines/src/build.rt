ghost use Rattle.std.specs.Prelude.{◌≡◌, ◌≤◌, [], ◌∷◌, ◌++◌, ℕ, List, codes, IfOk, IfSome, IfNone};
ghost use Rattle.std.specs.Option.{option_to_list};
ghost use Rattle.fare_record.specs.Limits.{IsDeviceId, IsOwnerId};
ghost use Rattle.fare_lines.specs.declared.keyword.Keyword.TheVariants.{OfScheme, OfEvent};
ghost use Rattle.fare_lines.specs.declared.keyword.SchemeKeyword.TheVariants.{Demo};
ghost use Rattle.fare_lines.specs.declared.line.Line.TheVariants.{Setup, Step};
ghost use Rattle.fare_lines.specs.Grammar.{ADevice, AnOwner, ARoute, AreOf, event_keyword_kinds, scheme_keyword_kinds, size_number};
ghost use Rattle.fare_lines.specs.Reading.{BeginsWithLine, Builds, IsBuilt, OfFirstLine, SpellsNoLine, SpellsNoNumbered};

use crate::cut::cut_at;
use crate::keyword::{EventKeyword, Keyword, SchemeKeyword};
use crate::line::{Line, SchemeLine};
use crate::number::read_numbers;
use crate::zone_text::ZoneText;
use fare_event::Event;
use fare_record::{Day, DeviceId, Moment, OwnerId, ProductId, StationId, Token};
use fare_scheme::DemoSize;
use std::alloc::{AllocError, Global};

/// The demonstration scheme of this many devices.
fn demo_size(devices: u64) -> Option<DemoSize>
    ensures some { IfSome result (λ size. size_number size ≡ devices) }
    ensures within { IfSome result (λ size. (1 ≤ devices) × (devices ≤ 2)) }
    ensures none { IfNone result (1 ≤ devices → devices ≤ 2 → ⊥) }
{
    match devices {
        1 => Some(DemoSize::OneDevice),
        2 => Some(DemoSize::TwoDevices),
        _ => None,
    }
}

/// The line of a demonstration scheme with these numbers, if there is one.
fn build_demo(devices: u64, buffer: u64, inbox: u64, lane: u64) -> Option<SchemeLine>
    ensures some { IfSome result (λ line. IsBuilt (OfScheme Demo) (devices ∷ buffer ∷ inbox ∷ lane ∷ []) (Setup line)) }
    ensures none { IfNone result (AreOf (scheme_keyword_kinds Demo) (devices ∷ buffer ∷ inbox ∷ lane ∷ []) → ⊥) }
{
    Some(SchemeLine::Demo {
        size: demo_size(devices)?,
        buffer: u32::try_from(buffer).ok()?,
        inbox: u32::try_from(inbox).ok()?,
        lane: u32::try_from(lane).ok()?,
    })
}

/// The scheme line of a keyword that no number follows, if it is one.
fn build_bare_setup(keyword: SchemeKeyword) -> Option<SchemeLine>
    ensures some { IfSome result (λ line. IsBuilt (OfScheme keyword) [] (Setup line)) }
    ensures none { IfNone result (AreOf (scheme_keyword_kinds keyword) [] → ⊥) }
{
    match keyword {
        SchemeKeyword::Seal => Some(SchemeLine::Seal),
        _ => None,
    }
}

/// The scheme line of a keyword that this number alone follows, if there is one.
fn build_single_setup(keyword: SchemeKeyword, number: u64) -> Option<SchemeLine>
    ensures some { IfSome result (λ line. IsBuilt (OfScheme keyword) (number ∷ []) (Setup line)) }
    ensures none { IfNone result (AreOf (scheme_keyword_kinds keyword) (number ∷ []) → ⊥) }
{
    match keyword {
        SchemeKeyword::Operator => Some(SchemeLine::Operator {
            operator: u16::try_from(number).ok()?,
        }),
        SchemeKeyword::Inbox => Some(SchemeLine::Inbox {
            capacity: u32::try_from(number).ok()?,
        }),
        SchemeKeyword::Start => Some(SchemeLine::Start {
            day: u32::try_from(number).ok()?,
        }),
        _ => None,
    }
}

/// The scheme line of a keyword that these two numbers follow, if there is one.
fn build_pair_setup(keyword: SchemeKeyword, first: u64, second: u64) -> Option<SchemeLine>
    ensures some { IfSome result (λ line. IsBuilt (OfScheme keyword) (first ∷ second ∷ []) (Setup line)) }
    ensures none { IfNone result (AreOf (scheme_keyword_kinds keyword) (first ∷ second ∷ []) → ⊥) }
{
    match keyword {
        SchemeKeyword::Owner => Some(SchemeLine::Owner {
            owner: u16::try_from(first).ok()?,
            lane: u32::try_from(second).ok()?,
        }),
        SchemeKeyword::Station => Some(SchemeLine::Station {
            station: u16::try_from(first).ok()?,
            operator: u16::try_from(second).ok()?,
        }),
        SchemeKeyword::Hop => Some(SchemeLine::Hop {
            product: u32::try_from(first).ok()?,
            seconds: u32::try_from(second).ok()?,
        }),
        _ => None,
    }
}

/// The scheme line of a keyword that these three numbers follow, if there is one.
fn build_triple_setup(
    keyword: SchemeKeyword,
    first: u64,
    second: u64,
    third: u64,
) -> Option<SchemeLine>
    ensures some { IfSome result (λ line. IsBuilt (OfScheme keyword) (first ∷ second ∷ third ∷ []) (Setup line)) }
    ensures none { IfNone result (AreOf (scheme_keyword_kinds keyword) (first ∷ second ∷ third ∷ []) → ⊥) }
{
    let first = u32::try_from(first).ok()?;
    let third = u32::try_from(third).ok()?;
    match keyword {
        SchemeKeyword::Product => Some(SchemeLine::Product {
            product: first,
            owner: u16::try_from(second).ok()?,
            fare: third,
        }),
        SchemeKeyword::Caps => Some(SchemeLine::Caps {
            product: first,
            daily: u32::try_from(second).ok()?,
            weekly: third,
        }),
        SchemeKeyword::Device => Some(SchemeLine::Device {
            device: first,
            station: u16::try_from(second).ok()?,
            buffer: third,
        }),
        _ => None,
    }
}

/// The scheme line of a keyword that these four numbers follow, if there is one.
fn build_quadruple_setup(
    keyword: SchemeKeyword,
    first: u64,
    second: u64,
    third: u64,
    fourth: u64,
) -> Option<SchemeLine>
    ensures some { IfSome result (λ line. IsBuilt (OfScheme keyword) (first ∷ second ∷ third ∷ fourth ∷ []) (Setup line)) }
    ensures none { IfNone result (AreOf (scheme_keyword_kinds keyword) (first ∷ second ∷ third ∷ fourth ∷ []) → ⊥) }
{
    match keyword {
        SchemeKeyword::Demo => build_demo(first, second, third, fourth),
        _ => None,
    }
}

/// The scheme line of a keyword and its numbers, if there is one.
fn build_setup(keyword: SchemeKeyword, numbers: &[u64]) -> Option<SchemeLine>
    ensures some { IfSome result (λ line. IsBuilt (OfScheme keyword) numbers.now (Setup line)) }
    ensures none { IfNone result (AreOf (scheme_keyword_kinds keyword) numbers.now → ⊥) }
{
    match numbers {
        [] => build_bare_setup(keyword),
        [number] => build_single_setup(keyword, *number),
        [first, second] => build_pair_setup(keyword, *first, *second),
        [first, second, third] => build_triple_setup(keyword, *first, *second, *third),
        [first, second, third, fourth] => {
            build_quadruple_setup(keyword, *first, *second, *third, *fourth)
        }
        _ => None,
    }
}

/// The event of a keyword that no number follows, if it is one.
fn build_bare_event(keyword: EventKeyword) -> Option<Event>
    ensures some { IfSome result (λ event. IsBuilt (OfEvent keyword) [] (Step event)) }
    ensures none { IfNone result (AreOf (event_keyword_kinds keyword) [] → ⊥) }
{
    match keyword {
        EventKeyword::Draw => Some(Event::Draw),
        EventKeyword::Store => Some(Event::Store),
        EventKeyword::RestartWriter => Some(Event::RestartWriter),
        EventKeyword::RestartHub => Some(Event::RestartHub),
        _ => None,
    }
}

/// The event of a keyword that the number of a device alone follows, if it is one.
fn build_device_event(keyword: EventKeyword, number: u64) -> Option<Event>
    ensures some { IfSome result (λ event. IsBuilt (OfEvent keyword) (number ∷ []) (Step event)) }
    ensures none { IfNone result (event_keyword_kinds keyword ≡ ADevice ∷ [] → IsDeviceId number → ⊥) }
{
    let device = DeviceId::new(number)?;
    match keyword {
        EventKeyword::Turn => Some(Event::Turn { device }),
        EventKeyword::Send => Some(Event::Send { device }),
        EventKeyword::Rewind => Some(Event::Rewind { device }),
        EventKeyword::Ack => Some(Event::Ack { device }),
        EventKeyword::Resume => Some(Event::Resume { device }),
        EventKeyword::RestartDevice => Some(Event::RestartDevice { device }),
        EventKeyword::Upto => Some(Event::Upto { device }),
        _ => None,
    }
}

/// The event of a keyword that this number alone follows, if there is one.
fn build_single_event(keyword: EventKeyword, number: u64) -> Option<Event>
    ensures some { IfSome result (λ event. IsBuilt (OfEvent keyword) (number ∷ []) (Step event)) }
    ensures none { IfNone result (AreOf (event_keyword_kinds keyword) (number ∷ []) → ⊥) }
{
    match keyword {
        EventKeyword::Arrive => Some(Event::Arrive { packet: number }),
        EventKeyword::Answer => Some(Event::Answer {
            station: StationId::new(number)?,
        }),
        EventKeyword::RestartStation => Some(Event::RestartStation {
            station: StationId::new(number)?,
        }),
        EventKeyword::RestartOwner => Some(Event::RestartOwner {
            owner: OwnerId::new(number)?,
        }),
        EventKeyword::Fetch => Some(Event::Fetch {
            owner: OwnerId::new(number)?,
        }),
        EventKeyword::Take => Some(Event::Take {
            owner: OwnerId::new(number)?,
        }),
        _ => build_device_event(keyword, number),
    }
}

/// The event of a keyword that the numbers of an owner and a device follow, if it is one.
fn build_lane_event(keyword: EventKeyword, first: u64, second: u64) -> Option<Event>
    ensures some { IfSome result (λ event. IsBuilt (OfEvent keyword) (first ∷ second ∷ []) (Step event)) }
    ensures none { IfNone result (event_keyword_kinds keyword ≡ AnOwner ∷ ADevice ∷ [] → IsOwnerId first → IsDeviceId second → ⊥) }
{
    let owner = OwnerId::new(first)?;
    let device = DeviceId::new(second)?;
    match keyword {
        EventKeyword::Forward => Some(Event::Forward { owner, device }),
        EventKeyword::Retire => Some(Event::Retire { owner, device }),
        EventKeyword::Prune => Some(Event::Prune { owner, device }),
        EventKeyword::Count => Some(Event::Count { owner, device }),
        _ => None,
    }
}

/// The event of a keyword that these two numbers follow, if there is one.
fn build_pair_event(keyword: EventKeyword, first: u64, second: u64) -> Option<Event>
    ensures some { IfSome result (λ event. IsBuilt (OfEvent keyword) (first ∷ second ∷ []) (Step event)) }
    ensures none { IfNone result (AreOf (event_keyword_kinds keyword) (first ∷ second ∷ []) → ⊥) }
{
    match keyword {
        EventKeyword::Bill => Some(Event::Bill {
            owner: OwnerId::new(first)?,
            day: Day::new(second)?,
        }),
        EventKeyword::Settle => Some(Event::Settle {
            owner: OwnerId::new(first)?,
            day: Day::new(second)?,
        }),
        EventKeyword::DayAck => Some(Event::DayAck {
            device: DeviceId::new(first)?,
            day: Day::new(second)?,
        }),
        _ => build_lane_event(keyword, first, second),
    }
}

/// The event of a keyword that these three numbers follow, if there is one.
fn build_triple_event(keyword: EventKeyword, first: u64, second: u64, third: u64) -> Option<Event>
    ensures some { IfSome result (λ event. IsBuilt (OfEvent keyword) (first ∷ second ∷ third ∷ []) (Step event)) }
    ensures none { IfNone result (AreOf (event_keyword_kinds keyword) (first ∷ second ∷ third ∷ []) → ⊥) }
{
    match keyword {
        EventKeyword::State => Some(Event::State {
            device: DeviceId::new(first)?,
            day: Day::new(second)?,
            owner: OwnerId::new(third)?,
        }),
        EventKeyword::Close => Some(Event::Close {
            owner: OwnerId::new(first)?,
            device: DeviceId::new(second)?,
            day: Day::new(third)?,
        }),
        _ => None,
    }
}

/// The number of a route, which may be left out; None where it is too great.
fn read_route(route: Option<u64>) -> Option<Option<u16>>
    ensures some { IfSome result (λ read. (option_to_list read ≡ option_to_list route) × AreOf (ARoute ∷ []) (option_to_list read)) }
    ensures none { IfNone result (AreOf (ARoute ∷ []) (option_to_list route) → ⊥) }
{
    match route {
        Some(route) => Some(Some(u16::try_from(route).ok()?)),
        None => Some(None),
    }
}

/// The tap of a keyword that these numbers follow, and perhaps that of a route, if there is one.
fn build_tap(
    keyword: EventKeyword,
    device: u64,
    product: u64,
    token: u64,
    moment: u64,
    route: Option<u64>,
) -> Option<Event>
    ensures some { IfSome result (λ event. IsBuilt (OfEvent keyword) (device ∷ product ∷ token ∷ moment ∷ option_to_list route) (Step event)) }
    ensures none { IfNone result (AreOf (event_keyword_kinds keyword) (device ∷ product ∷ token ∷ moment ∷ option_to_list route) → ⊥) }
{
    match keyword {
        EventKeyword::Tap => Some(Event::Tap {
            device: DeviceId::new(device)?,
            product: ProductId::new(product)?,
            token: Token::new(token)?,
            moment: Moment::new(moment)?,
            route: read_route(route)?,
        }),
        _ => None,
    }
}

/// The event line of a keyword and its numbers, if there is one.
fn build_event(keyword: EventKeyword, numbers: &[u64]) -> Option<Event>
    ensures some { IfSome result (λ event. IsBuilt (OfEvent keyword) numbers.now (Step event)) }
    ensures none { IfNone result (AreOf (event_keyword_kinds keyword) numbers.now → ⊥) }
{
    match numbers {
        [] => build_bare_event(keyword),
        [number] => build_single_event(keyword, *number),
        [first, second] => build_pair_event(keyword, *first, *second),
        [first, second, third] => build_triple_event(keyword, *first, *second, *third),
        [device, product, token, moment] => {
            build_tap(keyword, *device, *product, *token, *moment, None)
        }
        [device, product, token, moment, route] => {
            build_tap(keyword, *device, *product, *token, *moment, Some(*route))
        }
        _ => None,
    }
}

/// The line of a keyword and its numbers, if they are as many as it has and each is of its kind.
fn build(keyword: Keyword, numbers: &[u64]) -> Option<Line>
    ensures { Builds keyword numbers.now result }
{
    match keyword {
        Keyword::OfScheme(keyword) => Some(Line::Setup(build_setup(keyword, numbers)?)),
        Keyword::OfEvent(keyword) => Some(Line::Step(build_event(keyword, numbers)?)),
    }
}

/// The line that the first line of a text spells by a keyword and numbers, and what stands from its line feed on.
fn read_numbered<'a>(
    text: &'a [u8],
    numbers: &mut Vec<u64>,
) -> Result<Option<(Line, &'a [u8])>, AllocError>
    ensures found { IfOk result (λ found. IfSome found (λ read. BeginsWithLine text.now read.0 read.1.now)) }
    ensures none { IfOk result (λ found. IfNone found (OfFirstLine SpellsNoNumbered text.now)) }
{
    let Some((keyword, behind)) = Keyword::cut(text) else {
        return Ok(None);
    };
    let Some(rest) = read_numbers(behind, numbers)? else {
        return Ok(None);
    };
    match build(keyword, numbers) {
        Some(line) => Ok(Some((line, rest))),
        None => Ok(None),
    }
}

/// What stands behind `zone` and a space.
fn after_zone(text: &[u8]) -> Option<&[u8]>
    ensures some { IfSome result (λ rest. text.now ≡ codes "zone " ++ rest.now) }
    ensures none { IfNone result ((rest : List ℕ) → text.now ≡ codes "zone " ++ rest → ⊥) }
{
    match text {
        [b'z', b'o', b'n', b'e', b' ', rest @ ..] => Some(rest),
        _ => None,
    }
}

/// The line of a zone that the first line of a text spells, where this stands behind `zone` and a space, and what stands
/// from its line feed on.
fn read_zone<'a>(alloc: Global, text: &'a [u8]) -> Result<Option<(Line, &'a [u8])>, AllocError>
    ensures found { IfOk result (λ found. IfSome found (λ read. BeginsWithLine (codes "zone " ++ text.now) read.0 read.1.now)) }
    ensures none { IfOk result (λ found. IfNone found (OfFirstLine SpellsNoLine (codes "zone " ++ text.now))) }
{
    let (word, rest) = cut_at(text, b'\n');
    let Some(rule) = ZoneText::read(alloc, word)? else {
        return Ok(None);
    };
    Ok(Some((Line::Setup(SchemeLine::Zone { rule }), rest)))
}

/// The line that the first line of a text spells, and what stands from its line feed on; None where it spells no line.
/// What `numbers` holds is lost.
pub fn read_line<'a>(
    alloc: Global,
    text: &'a [u8],
    numbers: &mut Vec<u64>,
) -> Result<Option<(Line, &'a [u8])>, AllocError>
    ensures found { IfOk result (λ found. IfSome found (λ read. BeginsWithLine text.now read.0 read.1.now)) }
    ensures none { IfOk result (λ found. IfNone found (OfFirstLine SpellsNoLine text.now)) }
{
    match after_zone(text) {
        Some(behind) => read_zone(alloc, behind),
        None => read_numbered(text, numbers),
    }
}
