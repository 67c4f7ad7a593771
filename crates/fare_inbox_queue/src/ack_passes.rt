ghost use Rattle.std.specs.Prelude.{◌≡◌};

use crate::ack_rule::{Told, View};
use crossbeam_queue::Pass;

/// The right to put into one acknowledgement line, which the writer's thread has. Contracts see the list of
/// what was put with it, and how many taps of each device were stored by then.
pub struct AckPass {
    pub(crate) pass: Pass<Told, View>,
}

impl Drop for AckPass {
    fn drop(self) {
        let AckPass { pass } = self;
        drop(pass);
    }
}

impl AckPass {
    // The line's pass in it.
    pub(crate) fn into_pass(self) -> Pass<Told, View>
        ensures { result ≡ self.pass }
    {
        let AckPass { pass } = self;
        pass
    }
}

/// The right to take from one acknowledgement line, which the station's thread has. Contracts see the list of
/// what was taken with it.
pub struct HearPass {
    pub(crate) pass: Pass<Told, View>,
    pub(crate) count: u64,
}

impl Drop for HearPass {
    fn drop(self) {
        let HearPass { pass, count: _ } = self;
        drop(pass);
    }
}

impl HearPass {
    // The line's pass in it, and how many items were taken with it.
    pub(crate) fn into_parts(self) -> (Pass<Told, View>, u64)
        ensures { result ≡ (self.pass, self.count) }
    {
        let HearPass { pass, count } = self;
        (pass, count)
    }
}
