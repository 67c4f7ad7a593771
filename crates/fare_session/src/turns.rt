//! Turns: how often in a row a thread may find nothing to do.
ghost use Rattle.std.specs.Prelude.{◌≡◌, ◌+◌, min, nat_le};

use crate::gate::Gate;
use std::thread;
use std::time::{Clock, Duration};

// After so many turns in a row a thread that may nap does so.
const PATIENCE: u64 = 64;

/// How many turns a thread has, and how many it used up in a row. A turn is an attempt that found its queue full or
/// empty, with a yield after it, or a nap; an attempt that finds something gives all of them back. What a session promises holds
/// however many it has.
#[derive(Drop)]
pub struct Turns {
    turns: u64,
    in_a_row: u64,
}

impl Turns {
    /// So many turns, none of them used up.
    pub fn new(turns: u64) -> Turns
        ensures turns { result.turns ≡ turns }
        ensures none { result.in_a_row ≡ 0 }
    {
        Turns { turns, in_a_row: 0 }
    }

    /// An attempt found something: all turns are there again.
    pub fn found(&mut self)
        ensures turns { self.new.turns ≡ self.old.turns }
        ensures none { self.new.in_a_row ≡ 0 }
    {
        self.in_a_row = 0;
    }

    /// An attempt found nothing: the thread lets others go first, and one turn more in a row is used up. Their number
    /// stays at 2^64 - 1.
    pub fn spend<G: Gate, R: Clock>(&mut self, rt: &R, gate: &G)
        ensures turns { self.new.turns ≡ self.old.turns }
        ensures spent { self.new.in_a_row ≡ min (self.old.in_a_row + 1) 18446744073709551615 }
    {
        self.in_a_row = self.in_a_row.saturating_add(1);
        if self.in_a_row > PATIENCE && gate.naps() {
            thread::sleep(rt, Duration::from_millis(1));
        } else {
            thread::yield_now();
        }
    }

    /// Whether all were used up in a row.
    pub fn are_used_up(&self) -> bool
        ensures { result ≡ nat_le self.now.turns self.now.in_a_row }
    {
        self.in_a_row >= self.turns
    }
}
