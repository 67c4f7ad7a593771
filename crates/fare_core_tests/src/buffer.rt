use crate::checking::same;
use fare_buffer::{Full, Waiting, WaitingFault};
use fare_samples::{FIRST, Numbers, record};
use std::alloc::Global;

// Why there is no room for so many, if there is none.
fn fault(alloc: Global, capacity: u32) -> Option<WaitingFault> {
    Waiting::new(alloc, capacity).err()
}

#[test]
fn takes_the_room_that_was_asked_for(rt: HostRuntime) {
    let range = Some(WaitingFault::Range);
    for (capacity, want) in [(0, range), (4097, range), (4096, None)] {
        same(&rt, &fault(rt.alloc(), capacity), &want);
    }
    let waiting = Waiting::new(rt.alloc(), 4096).expect(&rt, "waiting");
    same(
        &rt,
        &(waiting.capacity(), waiting.is_empty()),
        &(4096, true),
    );
}

#[test]
fn hands_back_what_finds_no_room(rt: HostRuntime) {
    let first = record(FIRST).expect(&rt, "first");
    let second = record(Numbers {
        link: 2,
        lane: 2,
        ..FIRST
    })
    .expect(&rt, "second");
    let mut waiting = Waiting::new(rt.alloc(), 2).expect(&rt, "waiting");
    let one = (waiting.push(first), waiting.is_full());
    let two = (waiting.push(second), waiting.is_full());
    same(&rt, &[one, two], &[(Ok(()), false), (Ok(()), true)]);
    let full = (waiting.push(first), waiting.len());
    same(&rt, &full, &(Err(Full(first)), 2));
    waiting.drop_front(1);
    let front = (waiting.get(0), waiting.push(first));
    same(&rt, &front, &(Some(second), Ok(())));
    let all = [waiting.get(0), waiting.get(1), waiting.get(2)];
    same(&rt, &all, &[Some(second), Some(first), None]);
}
