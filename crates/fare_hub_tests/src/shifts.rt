//! Sources that are read in shifts.
use crate::checking::same;
use fare_frame::Frame;
use fare_samples::{acked, tapped};
use fare_scripts::Script;
use fare_source::{Shift, Source, SourceFault};
use std::alloc::Global;

// A source of so many frames, which is ready at each so many asks.
fn script(alloc: Global, count: u64, every: u64) -> Option<Script> {
    let mut frames = Vec::new(alloc);
    for _ in 0..count {
        frames.push(tapped()?).ok()?;
    }
    Some(Script {
        frames,
        given: Vec::new(alloc),
        answered: Vec::new(alloc),
        failures: 0,
        left: 0,
        every,
        asked: 0,
    })
}

// How many frames a shift gives up to its end.
fn given<S: Source>(shift: &mut Shift<S>) -> u64 {
    for count in 0..100 {
        match shift.next() {
            Ok(Some(_)) => {}
            Ok(None) => return count,
            Err(_) => return 100,
        }
    }
    100
}

#[test]
fn a_shift_is_over_after_so_many_frames_and_the_next_goes_on(rt: HostRuntime) {
    let source = script(rt.alloc(), 5, 0).expect(&rt, "script");
    let mut first = Shift::new(source, 1, 2);
    same(&rt, &(given(&mut first), first.is_over()), &(2, true));
    same(&rt, &(given(&mut first), first.is_ready()), &(0, true));
    let mut second = Shift::new(first.into_source(), 1, 2);
    same(&rt, &(given(&mut second), second.is_over()), &(2, true));
    let mut third = Shift::new(second.into_source(), 1, 2);
    same(&rt, &(given(&mut third), third.is_over()), &(1, true));
    let source = third.into_source();
    same(&rt, &(source.given.len(), source.frames.len()), &(5, 0));
}

#[test]
fn a_shift_is_over_after_so_many_quiet_turns_in_a_row(rt: HostRuntime) {
    // It is ready at every third ask, and is asked once more for each frame.
    let source = script(rt.alloc(), 5, 3).expect(&rt, "script");
    let mut impatient = Shift::new(source, 2, 10);
    same(
        &rt,
        &(given(&mut impatient), impatient.is_over()),
        &(0, true),
    );
    let mut patient = Shift::new(impatient.into_source(), 3, 10);
    same(&rt, &(given(&mut patient), patient.is_over()), &(5, true));
}

#[test]
fn a_quiet_shift_says_that_it_would_answer_now(rt: HostRuntime) {
    let source = script(rt.alloc(), 5, 3).expect(&rt, "script");
    let mut shift = Shift::new(source, 2, 10);
    let asked = [shift.is_ready(), shift.is_ready(), shift.is_ready()];
    same(&rt, &asked, &[false, false, true]);
    same(&rt, &(given(&mut shift), shift.is_over()), &(0, true));
}

#[test]
fn a_whole_shift_ends_with_its_source(rt: HostRuntime) {
    let source = script(rt.alloc(), 5, 3).expect(&rt, "script");
    let mut whole = Shift::whole(source);
    same(&rt, &(whole.is_ready(), whole.is_over()), &(false, false));
    same(&rt, &(given(&mut whole), whole.is_over()), &(5, true));
}

#[test]
fn a_finished_shift_gives_no_more_and_the_next_goes_on(rt: HostRuntime) {
    let source = script(rt.alloc(), 5, 3).expect(&rt, "script");
    let mut first = Shift::new(source, 4, 10);
    same(&rt, &first.next().is_ok(), &true);
    first.finish();
    same(&rt, &(first.is_over(), first.is_ready()), &(true, true));
    same(&rt, &(first.has_next(), given(&mut first)), &(true, 0));
    let mut second = Shift::new(first.into_source(), 4, 10);
    same(&rt, &(given(&mut second), second.is_over()), &(4, true));
    let source = script(rt.alloc(), 5, 3).expect(&rt, "script");
    let mut whole = Shift::whole(source);
    whole.finish();
    same(&rt, &(given(&mut whole), whole.is_over()), &(5, true));
}

#[test]
fn a_shift_hands_on_answers_and_failures(rt: HostRuntime) {
    let mut source = script(rt.alloc(), 5, 0).expect(&rt, "script");
    source.left = 3;
    let mut shift = Shift::new(source, 1, 10);
    let answer: Frame = acked().expect(&rt, "frame");
    same(&rt, &shift.answer(&answer), &Ok(()));
    same(&rt, &shift.next(), &Ok(tapped()));
    same(
        &rt,
        &(shift.next(), shift.is_over()),
        &(Err(SourceFault::Failed), false),
    );
    let source = shift.into_source();
    same(
        &rt,
        &(source.answered.len(), source.given.len(), source.failures),
        &(1, 1, 1),
    );
}
