//! The rule of the inbox, what a pass shows, and what each step does to it. These types are for the proofs
//! alone: no value of them is made.
ghost use Rattle.std.specs.Prelude.{◌≡◌, ℕ};
ghost use Rattle.fare_inbox_queue.specs.Inbox.{whole, seating, sender, gathered, spent, with_sent, with_taken, IsInbox, Stands, IsLeft, HasLeft};

use crate::Arrived;
use crossbeam_queue::protocol::{Join, Lesson, Outcome, Protocol, Split};
use fare_record::StationId;
use std::collections::LinkedList;
use std::marker::{Brand, PhantomData};

/// What a pass may do. A station's pass has its station and what was put with it; the writer's has what was
/// taken with it, the stations that have passes, and, of each that has ended, what it put in all.
pub struct View {
    pub puts: bool,
    pub takes: bool,
    pub station: StationId,
    pub sent: LinkedList<Arrived>,
    pub taken: LinkedList<Arrived>,
    pub seated: LinkedList<StationId>,
    pub ended: LinkedList<(StationId, LinkedList<Arrived>)>,
}

/// The rule of an inbox.
pub struct InboxRule;

impl Protocol<Arrived, View> for InboxRule {
    ghost holds = { IsInbox };

    ghost first = { whole };
}

/// The station that gets a pass, which the call that makes an inbox picks.
pub trait Named {
    ghost station: { ℕ };
}

impl Named for Brand {
    ghost station = { 1 };
}

/// A station's pass is cut off the writer's.
pub struct Seats<N>(PhantomData<N>);

impl<N: Named> Split<View> for Seats<N> {
    ghost left = { λ v. seating v N.station };

    ghost right = { λ v. sender N.station };
}

/// The writer's pass takes in a station's.
pub struct Gathers;

impl Join<View> for Gathers {
    ghost both = { gathered };

    ghost spent = { spent };
}

/// An item is put.
pub struct Puts;

impl Outcome<Arrived, View> for Puts {
    ghost then = { λ v item w. w ≡ with_sent v item };
}

impl Lesson<Arrived, View> for Puts {
    ghost fact = { Stands };
}

/// An item is taken.
pub struct Takes;

impl Outcome<Arrived, View> for Takes {
    ghost then = { λ v item w. w ≡ with_taken v item };
}

impl Lesson<Arrived, View> for Takes {
    ghost fact = { Stands };
}

/// An item is taken by the one pass that is left.
pub struct Drains;

impl Outcome<Arrived, View> for Drains {
    ghost then = { λ v item w. (w ≡ with_taken v item) × HasLeft v item };
}

impl Lesson<Arrived, View> for Drains {
    ghost fact = { IsLeft };
}
