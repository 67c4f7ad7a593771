//! What is done between two rounds.
ghost use Rattle.std.specs.Prelude.{◌≡◌};
ghost use Rattle.fare_desk.specs.Closing.{GoesOn};
ghost use Rattle.fare_sessions.specs.Stores.{HasLedgers};
ghost use Rattle.fare_sessions.specs.declared.hub.Hub.{Hub};
ghost use Rattle.fare_serve.specs.Pausing.{does_nothing};
ghost use Rattle.fare_serve.specs.declared.progress.Progress.{Progress};

use crate::progress::Progress;
use fare_sessions::Hub;
use fare_store::{Ledger, Outbox};

/// What is done with a hub while it is at rest: before each round, and while one waits for lines.
pub trait Pause<O: Outbox, L: Ledger> {
    /// What a pause does, when serving has come so far, from a hub to a hub.
    ghost does: { Progress → Hub O L → Hub O L → Type 0 };

    /// Is called when serving has come so far. No session runs.
    ///
    /// The stores go on: what fits together stays so, and rows that agree with what the devices numbered stay so and lose
    /// nothing.
    fn pause(&mut self, rt: &HostRuntime, hub: &mut Hub<O, L>, progress: &Progress)
        requires ledgers { HasLedgers hub.old }
        ensures does { does progress.now hub.old hub.new }
        ensures goes { GoesOn O.standing L.standing hub.old hub.new };
}

/// Nothing is done.
#[derive(Drop)]
pub struct Rest;

impl<O: Outbox, L: Ledger> Pause<O, L> for Rest {
    ghost does = { does_nothing };

    fn pause(&mut self, _rt: &HostRuntime, _hub: &mut Hub<O, L>, _progress: &Progress) {}
}
