use crate::checking::same;
use fare_day::Zone;
use fare_lines::{Line, SchemeLine, ZoneText, parse};
use fare_scheme::{DemoSize, Draft, Scheme};
use fare_setup::{append_setup, print_setup, setup_lines};
use std::alloc::Global;

// Takes a line of a product.
fn take_product(draft: &mut Draft, line: &SchemeLine) -> Option<()> {
    match *line {
        SchemeLine::Product {
            product,
            owner,
            fare,
        } => draft.add_product(product, owner, fare).ok(),
        SchemeLine::Caps {
            product,
            daily,
            weekly,
        } => draft.set_caps(product, daily, weekly).ok(),
        SchemeLine::Hop { product, seconds } => draft.set_hop(product, seconds).ok(),
        _ => None,
    }
}

// Takes a line, if it is not refused. A seal is taken and does nothing.
fn take(draft: &mut Draft, line: &SchemeLine) -> Option<()> {
    match line {
        SchemeLine::Owner { owner, lane } => draft.add_owner(*owner, *lane).ok(),
        SchemeLine::Operator { operator } => draft.add_operator(*operator).ok(),
        SchemeLine::Station { station, operator } => draft.add_station(*station, *operator).ok(),
        SchemeLine::Device {
            device,
            station,
            buffer,
        } => draft.add_device(*device, *station, *buffer).ok(),
        SchemeLine::Inbox { capacity } => draft.set_inbox(*capacity).ok(),
        SchemeLine::Zone { rule } => {
            draft.set_zone(Zone::read(rule.as_str()).ok()?);
            Some(())
        }
        SchemeLine::Start { day } => draft.set_start(*day).ok(),
        SchemeLine::Seal => Some(()),
        SchemeLine::Demo { .. } => None,
        product => take_product(draft, product),
    }
}

fn take_all(draft: &mut Draft, lines: &[Line]) -> Option<()> {
    for line in lines {
        let Line::Setup(line) = line else {
            return None;
        };
        take(draft, line)?;
    }
    Some(())
}

/// The scheme that the lines of a text make.
pub(crate) fn scheme_of(alloc: Global, text: &[u8]) -> Option<Scheme> {
    let mut draft = Draft::new(alloc);
    let lines = parse(alloc, text).ok()?;
    take_all(&mut draft, &lines)?;
    draft.seal().ok()
}

// The text of a scheme whose clock goes by this rule.
fn text_of(alloc: Global, scheme: &Scheme, rule: &[u8]) -> Option<Vec<u8>> {
    let rule = ZoneText::read(alloc, rule).ok()??;
    let lines = setup_lines(alloc, scheme, &rule).ok()?;
    let mut text = Vec::new(alloc);
    print_setup(&lines, &mut text).ok()?;
    Some(text)
}

/// The rule of London's clock.
pub(crate) const LONDON: &[u8] = b"GMT0BST,M3.5.0/1,M10.5.0";

/// Lines that set up a scheme, with no two kinds in the order in which they are printed, and products with and without
/// caps and a window.
pub(crate) const MIXED: &[u8] = b"start 19723
inbox 8
operator 7
station 9 7
operator 2
owner 300 4
product 5 300 175
hop 5 3600
owner 4 64
device 1 9 4
product 3 4 0
station 8 2
device 4294967295 8 4096
caps 5 525 2470
zone GMT0BST,M3.5.0/1,M10.5.0
seal
";

/// What is printed of that scheme.
pub(crate) const PRINTED: &[u8] = b"owner 300 4
owner 4 64
operator 7
operator 2
station 9 7
station 8 2
product 5 300 175
caps 5 525 2470
hop 5 3600
product 3 4 0
caps 3 1000000 10000000
hop 3 0
device 1 9 4
device 4294967295 8 4096
inbox 8
zone GMT0BST,M3.5.0/1,M10.5.0
start 19723
seal
";

/// What is printed of the demonstration scheme of two devices.
const DEMO: &[u8] = b"owner 1 3
operator 1
operator 2
station 1 1
station 2 2
product 1 1 175
caps 1 525 2470
hop 1 0
device 1 1 5
device 2 2 5
inbox 4
zone GMT0BST,M3.5.0/1,M10.5.0
start 19723
seal
";

#[test]
fn a_scheme_is_printed_as_its_lines(rt: HostRuntime) {
    let alloc = rt.alloc();
    let mixed = scheme_of(alloc, MIXED).expect(&rt, "a scheme");
    let printed = text_of(alloc, &mixed, LONDON).expect(&rt, "its lines");
    same(&rt, &printed.as_slice(), &PRINTED);
    let demo = Scheme::demo(alloc, DemoSize::TwoDevices, 5, 4, 3).ok();
    let demo = demo.expect(&rt, "the demonstration scheme");
    let printed = text_of(alloc, &demo, LONDON).expect(&rt, "its lines");
    same(&rt, &printed.as_slice(), &DEMO);
}

// The lines of a text, printed one by one.
fn printed_again(alloc: Global, text: &[u8]) -> Option<Vec<u8>> {
    let mut printed = Vec::new(alloc);
    for line in &parse(alloc, text).ok()? {
        let Line::Setup(line) = line else {
            return None;
        };
        append_setup(line, &mut printed).ok()?;
    }
    Some(printed)
}

#[test]
fn each_line_is_printed_as_it_is_spelled(rt: HostRuntime) {
    const LAST: &[u8] = b"demo 2 1 2 3\ndemo 1 4096 1024 1024\nzone <-05>5\nseal\n";
    for &text in &[MIXED, PRINTED, DEMO, LAST] {
        let printed = printed_again(rt.alloc(), text).expect(&rt, "the lines");
        same(&rt, &printed.as_slice(), &text);
    }
}

// Registers as many of each kind as a scheme can have.
fn fill(draft: &mut Draft) -> Option<()> {
    for number in 1..=16_u16 {
        draft.add_owner(number, 1_024).ok()?;
        draft.add_operator(number).ok()?;
        draft.add_station(number, number).ok()?;
    }
    for number in 1..=256_u32 {
        let parent = (number % 16) as u16 + 1;
        draft.add_product(number, parent, number).ok()?;
        draft.set_hop(number, number).ok()?;
        draft.add_device(number, parent, 4_096).ok()?;
    }
    draft.set_start(19_723).ok()
}

/// The largest scheme, and the text of what is printed of it.
pub(crate) fn largest(alloc: Global) -> Option<(Scheme, Vec<u8>)> {
    let mut draft = Draft::new(alloc);
    draft.set_zone(Zone::read("GMT0BST,M3.5.0/1,M10.5.0").ok()?);
    fill(&mut draft)?;
    let scheme = draft.seal().ok()?;
    let text = text_of(alloc, &scheme, LONDON)?;
    Some((scheme, text))
}

#[test]
fn what_is_printed_of_the_largest_scheme_makes_it_again(rt: HostRuntime) {
    let alloc = rt.alloc();
    let (scheme, text) = largest(alloc).expect(&rt, "the largest scheme");
    let again = scheme_of(alloc, &text).expect(&rt, "a scheme");
    let counts = (again.product_count(), again.device_count());
    same(&rt, &counts, &(256, 256));
    same(&rt, &again.owner_count(), &scheme.owner_count());
    let printed = text_of(alloc, &again, LONDON).expect(&rt, "its lines");
    same(&rt, &printed, &text);
}
