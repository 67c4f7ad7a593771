//! The rule of an acknowledgement line, what a pass shows, and what each step does to it. But for `Told` these
//! types are for the proofs alone: no value of them is made.
ghost use Rattle.std.specs.Prelude.{◌≡◌};
ghost use Rattle.fare_inbox_queue.specs.Line.{whole, sender, hearer, both, spent, with_sent, with_taken, IsLine, Stands, IsFirstLeft, IsLeft};

use crossbeam_queue::protocol::{Join, Lesson, Outcome, Protocol, Split};
use fare_record::AckItem;
use std::collections::LinkedList;

/// An acknowledgement in its line, and how many taps of its device were stored when it was put.
#[derive(Clone, Copy, PartialEq, Eq, Debug)]
pub struct Told {
    pub item: AckItem,
    pub stored: u64,
}

/// What a pass may do, what was put with it and what was taken with it.
pub struct View {
    pub puts: bool,
    pub takes: bool,
    pub sent: LinkedList<Told>,
    pub taken: LinkedList<Told>,
}

/// The rule of an acknowledgement line.
pub struct LineRule;

impl Protocol<Told, View> for LineRule {
    ghost holds = { IsLine };

    ghost first = { whole };
}

/// A new line's one pass is cut into the writer's and the station's.
pub struct Parted;

impl Split<View> for Parted {
    ghost left = { λ v. sender };

    ghost right = { λ v. hearer };
}

/// The writer's pass takes in the station's.
pub struct Together;

impl Join<View> for Together {
    ghost both = { both };

    ghost spent = { spent };
}

/// An item is put.
pub struct Puts;

impl Outcome<Told, View> for Puts {
    ghost then = { λ v told w. w ≡ with_sent v told };
}

impl Lesson<Told, View> for Puts {
    ghost fact = { Stands };
}

/// An item is taken.
pub struct Takes;

impl Outcome<Told, View> for Takes {
    ghost then = { λ v told w. w ≡ with_taken v told };
}

impl Lesson<Told, View> for Takes {
    ghost fact = { Stands };
}

/// An item is taken by the one pass that is left.
pub struct Drains;

impl Outcome<Told, View> for Drains {
    ghost then = { λ v told w. (w ≡ with_taken v told) × IsFirstLeft v.sent v.taken told };
}

impl Lesson<Told, View> for Drains {
    ghost fact = { IsLeft };
}
