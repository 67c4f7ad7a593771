use crate::checking::same;
use crate::keeping::{keep, kept_text};
use crate::texts::{printed, scheme_in, text_of_scheme};
use fare_lines::{Line, SchemeLine, ZoneText};
use fare_trace::{ZonedScheme, zoned_scheme_of};
use sqlite::{Alter, Connection};
use std::alloc::Global;

// The next number of chance below another one.
fn roll(seed: &mut u64, below: u32) -> u32 {
    *seed = seed
        .wrapping_mul(6_364_136_223_846_793_005)
        .wrapping_add(1_442_695_040_888_963_407);
    let high = (*seed >> 33) as u32;
    high.checked_rem(below).unwrap_or(0)
}

// Up to four different ids from 1 on, each from a span of its own, in ascending or in descending order.
fn ids(alloc: Global, seed: &mut u64, span: u32) -> Option<Vec<u32>> {
    let count = roll(seed, 4).wrapping_add(1);
    let is_descending = roll(seed, 2) == 1;
    let mut ids = Vec::new(alloc);
    for index in 0..count {
        let place = if is_descending {
            count.wrapping_sub(index).wrapping_sub(1)
        } else {
            index
        };
        let start = place.wrapping_mul(span).wrapping_add(1);
        ids.push(start.wrapping_add(roll(seed, span))).ok()?;
    }
    Some(ids)
}

// One of some ids.
fn one_of(seed: &mut u64, ids: &[u32]) -> Option<u32> {
    let place = roll(seed, u32::try_from(ids.len()).ok()?);
    ids.get(place as usize).copied()
}

// A number of chance from 1 to 1,024.
fn capacity(seed: &mut u64) -> u32 {
    roll(seed, 1_024).wrapping_add(1)
}

// Appends the lines of the owners.
fn push_owners(seed: &mut u64, owners: &[u32], lines: &mut Vec<Line>) -> Option<()> {
    for &owner in owners {
        let lane = capacity(seed);
        let owner = u16::try_from(owner).ok()?;
        lines
            .push(Line::Setup(SchemeLine::Owner { owner, lane }))
            .ok()?;
    }
    Some(())
}

// Appends the lines of the operators.
fn push_operators(operators: &[u32], lines: &mut Vec<Line>) -> Option<()> {
    for &operator in operators {
        let operator = u16::try_from(operator).ok()?;
        lines
            .push(Line::Setup(SchemeLine::Operator { operator }))
            .ok()?;
    }
    Some(())
}

// Appends the lines of the stations, each of one of these operators.
fn push_stations(
    seed: &mut u64,
    stations: &[u32],
    operators: &[u32],
    lines: &mut Vec<Line>,
) -> Option<()> {
    for &station in stations {
        let station = u16::try_from(station).ok()?;
        let operator = u16::try_from(one_of(seed, operators)?).ok()?;
        lines
            .push(Line::Setup(SchemeLine::Station { station, operator }))
            .ok()?;
    }
    Some(())
}

// Appends the lines of a product.
fn push_product(seed: &mut u64, product: u32, owner: u32, lines: &mut Vec<Line>) -> Option<()> {
    let first = SchemeLine::Product {
        product,
        owner: u16::try_from(owner).ok()?,
        fare: roll(seed, 100_001),
    };
    let caps = SchemeLine::Caps {
        product,
        daily: roll(seed, 1_000_001),
        weekly: roll(seed, 10_000_001),
    };
    let seconds = roll(seed, 7_201);
    lines.push(Line::Setup(first)).ok()?;
    lines.push(Line::Setup(caps)).ok()?;
    lines
        .push(Line::Setup(SchemeLine::Hop { product, seconds }))
        .ok()
}

// Appends the lines of the products, each of one of these owners.
fn push_products(
    seed: &mut u64,
    products: &[u32],
    owners: &[u32],
    lines: &mut Vec<Line>,
) -> Option<()> {
    for &product in products {
        let owner = one_of(seed, owners)?;
        push_product(seed, product, owner, lines)?;
    }
    Some(())
}

// Appends the lines of the devices, each at one of these stations.
fn push_devices(
    seed: &mut u64,
    devices: &[u32],
    stations: &[u32],
    lines: &mut Vec<Line>,
) -> Option<()> {
    for &device in devices {
        let line = SchemeLine::Device {
            device,
            station: u16::try_from(one_of(seed, stations)?).ok()?,
            buffer: roll(seed, 4_096).wrapping_add(1),
        };
        lines.push(Line::Setup(line)).ok()?;
    }
    Some(())
}

// Appends the lines of the settings, and the seal.
fn push_closing(alloc: Global, seed: &mut u64, lines: &mut Vec<Line>) -> Option<()> {
    let rule: &[u8] = if roll(seed, 2) == 0 {
        b"GMT0BST,M3.5.0/1,M10.5.0"
    } else {
        b"UTC0"
    };
    let rule = ZoneText::read(alloc, rule).ok()??;
    let inbox = SchemeLine::Inbox {
        capacity: capacity(seed),
    };
    let start = SchemeLine::Start {
        day: roll(seed, 100_001),
    };
    lines.push(Line::Setup(inbox)).ok()?;
    lines.push(Line::Setup(SchemeLine::Zone { rule })).ok()?;
    lines.push(Line::Setup(start)).ok()?;
    lines.push(Line::Setup(SchemeLine::Seal)).ok()
}

// The lines of a scheme of chance, in the order in which they are printed.
fn lines_of_chance(alloc: Global, seed: &mut u64) -> Option<Vec<Line>> {
    const SMALL: u32 = 16_383;
    const WIDE: u32 = 1_073_741_823;
    let owners = ids(alloc, seed, SMALL)?;
    let operators = ids(alloc, seed, SMALL)?;
    let stations = ids(alloc, seed, SMALL)?;
    let products = ids(alloc, seed, WIDE)?;
    let devices = ids(alloc, seed, WIDE)?;
    let mut lines = Vec::new(alloc);
    push_owners(seed, &owners, &mut lines)?;
    push_operators(&operators, &mut lines)?;
    push_stations(seed, &stations, &operators, &mut lines)?;
    push_products(seed, &products, &owners, &mut lines)?;
    push_devices(seed, &devices, &stations, &mut lines)?;
    push_closing(alloc, seed, &mut lines)?;
    Some(lines)
}

// Whether a scheme can be kept, and what is then kept is its text, and stays so when the scheme that this text makes is
// kept again.
fn is_kept_whole<S: Alter>(
    alloc: Global,
    conn: &mut Connection<S>,
    made: &ZonedScheme,
) -> Option<bool> {
    keep(alloc, conn, made).ok()?;
    let text = kept_text(alloc, conn)?.ok()??;
    let again = scheme_in(alloc, &text)?;
    keep(alloc, conn, &again).ok()?;
    let twice = kept_text(alloc, conn)?.ok()??;
    Some(text == text_of_scheme(alloc, made)? && text == twice)
}

// The text of the lines of chance of a seed, and whether their scheme, whose text it is, is kept whole.
fn kept_by_chance(alloc: Global, seed: u64) -> Option<bool> {
    let mut seed = seed;
    let lines = lines_of_chance(alloc, &mut seed)?;
    let made = zoned_scheme_of(alloc, &lines).ok()?;
    let mut conn = Connection::open_in_memory(alloc).ok()?;
    let is_whole = is_kept_whole(alloc, &mut conn, &made)?;
    Some(is_whole && printed(alloc, &lines)? == text_of_scheme(alloc, &made)?)
}

#[test]
fn schemes_of_chance_are_kept_whole(rt: HostRuntime) {
    for seed in 0..200_u64 {
        let kept = kept_by_chance(rt.alloc(), seed);
        same(&rt, &(seed, kept), &(seed, Some(true)));
    }
}
