//! Laws of schemes that add to each other. Each is a function that does nothing, and its contract is the law.
ghost use Rattle.fare_scheme.specs.Values.{SchemeValue};
ghost use Rattle.fare_growth.specs.Growth.{AddsTo};
ghost use Rattle.fare_growth.specs.LookUps.{KeepsLookUps};
ghost use Rattle.fare_growth.specs.Days.{KeepsDays};

/// A scheme adds to itself, and one that adds to another adds to all that the other adds to.
pub fn adding_goes_on()
    ensures itself { (scheme : SchemeValue) → AddsTo scheme scheme }
    ensures on { (first second third : SchemeValue) → AddsTo first second → AddsTo second third → AddsTo first third }
{}

/// What a scheme answers to a look-up by id is answered alike by one that adds to it.
pub fn added_schemes_keep_look_ups()
    ensures { (kept later : SchemeValue) → AddsTo kept later → KeepsLookUps kept later }
{}

/// A scheme and one that adds to it begin with the same traffic day, and each moment is of the same traffic day by both,
/// where the clock of the former goes by the rule of a text.
pub fn added_schemes_keep_days()
    ensures { (kept later : SchemeValue) → AddsTo kept later → KeepsDays kept later }
{}
