ghost use Rattle.std.specs.Prelude.{◌≡◌, ◌∷◌, [], IfSome, IfNone};
ghost use Rattle.fare_inbox_queue.specs.LinePasses.{unheard_list, IsLineEnded};

use crate::AckLine;
use crate::ack_rule::{Drains, Told, View};
use crossbeam_queue::Pass;
use fare_record::AckItem;
use std::sync::Wait;

/// An acknowledgement line at its end, with what is left in it.
pub struct AckLineEnded {
    pub(crate) queue: AckLine,
    pub(crate) pass: Pass<Told, View>,
    /// How many items the station took; it stays at 2^64 - 1.
    pub taken: u64,
    /// How many items are left, fewer by one after each that `next` gives.
    pub left: u64,
}

impl Drop for AckLineEnded {
    fn drop(self) {
        let AckLineEnded {
            queue,
            pass,
            taken: _,
            left: _,
        } = self;
        drop(queue);
        drop(pass);
    }
}

impl AckLineEnded {
    /// The next of the items that are left, from the front; `None` where none is.
    pub fn next<R: Wait>(&mut self, rt: &R) -> Option<AckItem>
        requires { IsLineEnded self.old }
        ensures ended { IsLineEnded self.new × (self.new.taken ≡ self.old.taken) }
        ensures some { IfSome result (λ item. unheard_list self.old ≡ item ∷ unheard_list self.new) }
        ensures none { IfNone result ((unheard_list self.old ≡ []) × (unheard_list self.new ≡ [])) }
    {
        let told = self.queue.queue.pop_as::<Drains, R>(rt, &mut self.pass)?;
        self.left -= 1;
        Some(told.item)
    }
}
