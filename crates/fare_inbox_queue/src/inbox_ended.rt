ghost use Rattle.std.specs.Prelude.{◌≡◌, ◌+◌, ◌++◌, ◌∷◌, [], ℕ, OnSome, IfSome, IfNone};
ghost use Rattle.fare_inbox_queue.specs.Inbox.{of_station};
ghost use Rattle.fare_inbox_queue.specs.InboxPasses.{left_of, IsInboxEnded};

use crate::inbox_rule::{Drains, View};
use crate::{Arrived, Inbox};
use crossbeam_queue::Pass;
use std::sync::Wait;

/// An inbox at its end, with what is left in it.
pub struct InboxEnded {
    pub(crate) queue: Inbox,
    pub(crate) pass: Pass<Arrived, View>,
    /// How many items the writer took; it stays at 2^64 - 1.
    pub taken: u64,
    /// How many items are left, fewer by one after each that `next` gives.
    pub left: u64,
}

impl Drop for InboxEnded {
    fn drop(self) {
        let InboxEnded {
            queue,
            pass,
            taken: _,
            left: _,
        } = self;
        drop(queue);
        drop(pass);
    }
}

impl InboxEnded {
    /// The next of the items that are left, from the front: of its station the first that is left. `None` where
    /// none is.
    pub fn next<R: Wait>(&mut self, rt: &R) -> Option<Arrived>
        requires { IsInboxEnded self.old }
        ensures ended { IsInboxEnded self.new × (self.new.taken ≡ self.old.taken) }
        ensures some { IfSome result (λ item. (station : ℕ) → left_of self.old station ≡ of_station station (item ∷ []) ++ left_of self.new station) }
        ensures fewer { OnSome result (self.old.left ≡ self.new.left + 1) }
        ensures none { IfNone result ((station : ℕ) → (left_of self.old station ≡ []) × (left_of self.new station ≡ [])) }
        ensures zero { IfNone result ((self.old.left ≡ 0) × (self.new.left ≡ 0)) }
    {
        let item = self.queue.queue.pop_as::<Drains, R>(rt, &mut self.pass)?;
        self.left -= 1;
        Some(item)
    }
}
