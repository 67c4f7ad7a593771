//! What is done between two rounds: those who have come are answered.
ghost use Rattle.fare_page.specs.Pausing.{callers_do};

use crate::callers::Callers;
use fare_serve::{Pause, Progress};
use fare_sessions::Hub;
use fare_store::{Ledger, Outbox};

impl<O: Outbox, L: Ledger> Pause<O, L> for Callers {
    ghost does = { callers_do O.standing L.standing };

    fn pause(&mut self, rt: &HostRuntime, hub: &mut Hub<O, L>, progress: &Progress) {
        self.answer(rt, hub, progress);
    }
}
