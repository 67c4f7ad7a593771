//! The rule of the queue, what a pass shows, and what each step does to it. These types are for the proofs
//! alone: no value of them is made.
ghost use Rattle.std.specs.Prelude.{◌≡◌, ◌++◌, ◌∷◌, [], true, false, List, ℕ};
ghost use Rattle.fare_lane_queue.specs.Lane.{whole, IsLane, sender, taker, both, spent, with_sent, with_taken, IsNext, AreNumbered, Stands, IsFirstLeft};

use crossbeam_queue::protocol::{Join, Lesson, Outcome, Protocol, Split};
use fare_record::{DeviceId, Item};
use std::collections::LinkedList;
use std::marker::{Brand, PhantomData};

/// What a pass may do, the bases of the lanes, what was put with it and what was taken with it.
pub struct View {
    pub puts: bool,
    pub takes: bool,
    pub bases: LinkedList<(DeviceId, u64)>,
    pub sent: LinkedList<Item>,
    pub taken: LinkedList<Item>,
}

/// The rule of a lane queue.
pub struct LaneRule;

impl Protocol<Item, View> for LaneRule {
    ghost holds = { IsLane };

    ghost first = { whole };
}

/// The bases of the lanes, which the call that makes a queue picks.
pub trait Bases {
    ghost bases: { List (ℕ × ℕ) };
}

impl Bases for Brand {
    ghost bases = { [] };
}

/// A new queue's one pass is cut into the forwarder's and the owner's.
pub struct Parted<B>(PhantomData<B>);

impl<B: Bases> Split<View> for Parted<B> {
    ghost left = { λ v. sender B.bases };

    ghost right = { λ v. taker B.bases };
}

/// The forwarder's pass takes in the owner's.
pub struct Together;

impl Join<View> for Together {
    ghost both = { both };

    ghost spent = { spent };
}

/// An item is put.
pub struct Puts;

impl Outcome<Item, View> for Puts {
    ghost then = { λ v item w. w ≡ with_sent v item };
}

impl Lesson<Item, View> for Puts {
    ghost fact = { Stands };
}

/// An item is taken.
pub struct Takes;

impl Outcome<Item, View> for Takes {
    ghost then = { λ v item w. (w ≡ with_taken v item) × IsNext v.bases v.taken item };
}

impl Lesson<Item, View> for Takes {
    ghost fact = { Stands };
}

/// An item is taken by the one pass that is left.
pub struct Drains;

impl Outcome<Item, View> for Drains {
    ghost then = { λ v item w. (w ≡ with_taken v item) × IsFirstLeft v.sent v.taken item };
}

impl Lesson<Item, View> for Drains {
    ghost fact = { λ v items. v.sent ≡ v.taken ++ items };
}

/// What both passes together tell of a queue.
pub struct Ends;

impl Lesson<Item, View> for Ends {
    ghost fact = { λ v items. (v.sent ≡ v.taken ++ items) × AreNumbered v.bases v.sent };
}
