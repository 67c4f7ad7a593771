use crate::checking::same;
use fare_owner::{
    CloseFault, RetireFault, StatementFault, TapFault, judge_close, judge_retire, judge_statement,
    judge_tap,
};

#[test]
fn judges_taps(rt: HostRuntime) {
    const CASES: [((bool, u64, bool, u64, bool), Result<(), TapFault>); 8] = [
        ((true, 0, false, 1, false), Ok(())),
        ((false, 3, true, 3, true), Err(TapFault::NotMine)),
        ((true, 3, true, 3, true), Err(TapFault::Retired)),
        ((true, 0, false, 1, true), Err(TapFault::Retired)),
        ((true, 3, true, 3, false), Err(TapFault::Duplicate)),
        ((true, 3, true, 5, false), Err(TapFault::Gap)),
        ((true, 3, true, 4, false), Err(TapFault::AfterClose)),
        (
            (true, u64::MAX, false, u64::MAX, false),
            Err(TapFault::Duplicate),
        ),
    ];
    for &((mine, count, closed, lane, retired), answer) in &CASES {
        same(&rt, &judge_tap(mine, count, closed, lane, retired), &answer);
    }
}

#[test]
fn judges_statements(rt: HostRuntime) {
    const CASES: [((bool, Option<u64>, u64, bool), Result<(), StatementFault>); 6] = [
        ((true, None, 3, false), Ok(())),
        ((false, Some(3), 3, true), Err(StatementFault::NotMine)),
        ((true, Some(3), 3, true), Err(StatementFault::Retired)),
        ((true, None, 3, true), Err(StatementFault::Retired)),
        ((true, Some(3), 3, false), Err(StatementFault::Repeated)),
        ((true, Some(3), 4, false), Err(StatementFault::Conflict)),
    ];
    for &((mine, held, count, retired), answer) in &CASES {
        same(&rt, &judge_statement(mine, held, count, retired), &answer);
    }
}

const SHORT: CloseFault = CloseFault::CountsShort {
    stated: 3,
    taken: 2,
};

const OVER: CloseFault = CloseFault::CountsOver {
    stated: 3,
    taken: 4,
};

#[test]
fn judges_closes(rt: HostRuntime) {
    const CASES: [((Option<u64>, bool, bool, u64, bool), Result<(), CloseFault>); 9] = [
        ((Some(3), false, true, 3, false), Ok(())),
        ((Some(3), false, true, 3, true), Err(CloseFault::Retired)),
        ((None, true, false, 0, true), Err(CloseFault::Retired)),
        ((None, true, false, 0, false), Err(CloseFault::Unstated)),
        (
            (Some(3), true, false, 2, false),
            Err(CloseFault::AlreadyClosed),
        ),
        (
            (Some(3), false, false, 2, false),
            Err(CloseFault::OutOfOrder),
        ),
        (
            (Some(3), false, false, 3, false),
            Err(CloseFault::OutOfOrder),
        ),
        ((Some(3), false, true, 2, false), Err(SHORT)),
        ((Some(3), false, true, 4, false), Err(OVER)),
    ];
    for &((stated, closed, next, taken, retired), answer) in &CASES {
        same(
            &rt,
            &judge_close(stated, closed, next, taken, retired),
            &answer,
        );
    }
}

#[test]
fn judges_retires(rt: HostRuntime) {
    const CASES: [((bool, bool), Result<(), RetireFault>); 4] = [
        ((true, false), Ok(())),
        ((true, true), Err(RetireFault::Retired)),
        ((false, false), Err(RetireFault::NotMine)),
        ((false, true), Err(RetireFault::NotMine)),
    ];
    for &((mine, retired), answer) in &CASES {
        same(&rt, &judge_retire(mine, retired), &answer);
    }
}
