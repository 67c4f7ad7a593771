ghost use Rattle.std.specs.Prelude.{◌≡◌};

use crate::rule::View;
use crossbeam_queue::Pass;
use fare_record::Item;

/// The right to put into one lane queue, which the forwarder's thread has. Contracts see the list of what was
/// put with it.
pub struct ForwardPass {
    pub(crate) pass: Pass<Item, View>,
}

impl Drop for ForwardPass {
    fn drop(self) {
        let ForwardPass { pass } = self;
        drop(pass);
    }
}

impl ForwardPass {
    // The queue's pass in it.
    pub(crate) fn into_pass(self) -> Pass<Item, View>
        ensures { result ≡ self.pass }
    {
        let ForwardPass { pass } = self;
        pass
    }
}

/// The right to take from one lane queue, which the owner's thread has. Contracts see the list of what was
/// taken with it.
pub struct OwnerPass {
    pub(crate) pass: Pass<Item, View>,
    pub(crate) count: u64,
}

impl Drop for OwnerPass {
    fn drop(self) {
        let OwnerPass { pass, count: _ } = self;
        drop(pass);
    }
}

impl OwnerPass {
    // The queue's pass in it, and how many items were taken with it.
    pub(crate) fn into_parts(self) -> (Pass<Item, View>, u64)
        ensures { result ≡ (self.pass, self.count) }
    {
        let OwnerPass { pass, count } = self;
        (pass, count)
    }
}
