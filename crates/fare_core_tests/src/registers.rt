use crate::checking::same;
use crate::setting_up::{LONDON, MIXED, PRINTED, largest, scheme_of};
use fare_lines::ZoneText;
use fare_register::{lines_of, register_of};
use fare_scheme::{DemoSize, Scheme};
use fare_setup::print_setup;
use std::alloc::Global;

// Lists of numbers.
type Lists = Vec<Vec<Vec<u32>>>;

// The lists of a scheme with London's clock.
fn lists_of(alloc: Global, scheme: &Scheme) -> Option<Lists> {
    let rule = ZoneText::read(alloc, LONDON).ok()??;
    register_of(alloc, scheme, &rule).ok()
}

// The text of the lines that lists tell, if they tell any.
fn text_of(alloc: Global, lists: &[Vec<Vec<u32>>]) -> Option<Option<Vec<u8>>> {
    let Some(lines) = lines_of(alloc, lists).ok()? else {
        return Some(None);
    };
    let mut text = Vec::new(alloc);
    print_setup(&lines, &mut text).ok()?;
    Some(Some(text))
}

// Lists written down, of which all but the second are small.
fn lists_from(alloc: Global, rows: &[&[&[u32]]]) -> Option<Lists> {
    let mut lists = Vec::new(alloc);
    for list in rows {
        lists.push(list_from(alloc, list)?).ok()?;
    }
    Some(lists)
}

fn list_from(alloc: Global, rows: &[&[u32]]) -> Option<Vec<Vec<u32>>> {
    let mut list = Vec::new(alloc);
    for row in rows {
        let mut numbers = Vec::new(alloc);
        numbers.extend_from_slice(row).ok()?;
        list.push(numbers).ok()?;
    }
    Some(list)
}

/// The lists of the demonstration scheme of two devices, in the order of their tables.
const DEMO: [&[&[u32]]; 7] = [
    &[&[19_723, 4]],
    &[
        &[71],
        &[77],
        &[84],
        &[48],
        &[66],
        &[83],
        &[84],
        &[44],
        &[77],
        &[51],
        &[46],
        &[53],
        &[46],
        &[48],
        &[47],
        &[49],
        &[44],
        &[77],
        &[49],
        &[48],
        &[46],
        &[53],
        &[46],
        &[48],
    ],
    &[&[1, 3]],
    &[&[1], &[2]],
    &[&[1, 1], &[2, 2]],
    &[&[1, 1, 175, 525, 2_470, 0]],
    &[&[1, 1, 5], &[2, 2, 5]],
];

#[test]
fn a_scheme_is_lists_of_numbers(rt: HostRuntime) {
    let alloc = rt.alloc();
    let demo = Scheme::demo(alloc, DemoSize::TwoDevices, 5, 4, 3).ok();
    let demo = demo.expect(&rt, "the demonstration scheme");
    let lists = lists_of(alloc, &demo).expect(&rt, "its lists");
    same(&rt, &Some(lists), &lists_from(alloc, &DEMO));
}

#[test]
fn lists_of_a_scheme_tell_its_lines(rt: HostRuntime) {
    let alloc = rt.alloc();
    let mixed = scheme_of(alloc, MIXED).expect(&rt, "a scheme");
    let lists = lists_of(alloc, &mixed).expect(&rt, "its lists");
    let told = text_of(alloc, &lists)
        .expect(&rt, "a reading")
        .expect(&rt, "lines");
    same(&rt, &told.as_slice(), &PRINTED);
    let (scheme, text) = largest(alloc).expect(&rt, "the largest scheme");
    let lists = lists_of(alloc, &scheme).expect(&rt, "its lists");
    let told = text_of(alloc, &lists).expect(&rt, "a reading");
    same(&rt, &told, &Some(text));
}

// One of the lists of the demonstration scheme, or the other one in its place.
fn list_at(alloc: Global, index: usize, place: usize, list: &[&[u32]]) -> Option<Vec<Vec<u32>>> {
    if index == place {
        return list_from(alloc, list);
    }
    list_from(alloc, DEMO.get(index)?)
}

// The lists of the demonstration scheme, one of them another.
fn lists_with(alloc: Global, place: usize, list: &[&[u32]]) -> Option<Lists> {
    let mut lists = Vec::new(alloc);
    for index in 0..7 {
        lists.push(list_at(alloc, index, place, list)?).ok()?;
    }
    Some(lists)
}

// Whether these tell lines.
fn tells(alloc: Global, place: usize, list: &[&[u32]]) -> Option<bool> {
    let lists = lists_with(alloc, place, list)?;
    Some(text_of(alloc, &lists)?.is_some())
}

#[test]
fn other_lists_tell_no_lines(rt: HostRuntime) {
    const CASES: [(usize, &[&[u32]], bool); 16] = [
        (0, &[&[19_723, 4]], true),
        (0, &[], false),
        (0, &[&[19_723, 4], &[19_723, 4]], false),
        (0, &[&[19_723]], false),
        (1, &[], false),
        (1, &[&[32]], false),
        (1, &[&[127]], false),
        (1, &[&[327]], false),
        (1, &[&[33, 33]], false),
        (2, &[&[65_535, 4_294_967_295]], true),
        (2, &[&[65_536, 3]], false),
        (3, &[&[1], &[65_536]], false),
        (4, &[&[1, 65_536]], false),
        (5, &[&[4_294_967_295, 65_536, 0, 0, 0, 0]], false),
        (5, &[&[1, 1, 175, 525, 2_470]], false),
        (6, &[&[1, 1, 5, 0]], false),
    ];
    let alloc = rt.alloc();
    for &(place, list, want) in &CASES {
        same(
            &rt,
            &(place, tells(alloc, place, list)),
            &(place, Some(want)),
        );
    }
    let six = DEMO.get(1..).and_then(|rows| lists_from(alloc, rows));
    let six = six.expect(&rt, "six lists");
    same(&rt, &text_of(alloc, &six), &Some(None));
}
