ghost use Rattle.std.specs.Prelude.{◌≡◌, ◌∷◌, [], IfSome, IfNone};
ghost use Rattle.fare_lane_queue.specs.Passes.{left_list, IsEnded};

use crate::LaneQueue;
use crate::rule::{Drains, View};
use crossbeam_queue::Pass;
use fare_record::Item;
use std::sync::Wait;

/// A lane queue at its end, with what is left in it.
pub struct Ended {
    pub(crate) queue: LaneQueue,
    pub(crate) pass: Pass<Item, View>,
    /// How many items the owner took; it stays at 2^64 - 1.
    pub taken: u64,
    /// How many items are left, fewer by one after each that `next` gives.
    pub left: u64,
}

impl Drop for Ended {
    fn drop(self) {
        let Ended {
            queue,
            pass,
            taken: _,
            left: _,
        } = self;
        drop(queue);
        drop(pass);
    }
}

impl Ended {
    /// The next of the items that are left, from the front; `None` where none is.
    pub fn next<R: Wait>(&mut self, rt: &R) -> Option<Item>
        requires { IsEnded self.old }
        ensures ended { IsEnded self.new × (self.new.taken ≡ self.old.taken) }
        ensures some { IfSome result (λ item. left_list self.old ≡ item ∷ left_list self.new) }
        ensures none { IfNone result ((left_list self.old ≡ []) × (left_list self.new ≡ [])) }
    {
        let item = self.queue.queue.pop_as::<Drains, R>(rt, &mut self.pass)?;
        self.left -= 1;
        Some(item)
    }
}
