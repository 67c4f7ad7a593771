ghost use Rattle.std.specs.Prelude.{◌≡◌, ◌↔◌, ◌-◌, ◌<◌};
ghost use Rattle.fare_supervisor.specs.Restarts.{restart_of};

use crate::{Action, Fault};
use std::marker::Model;

/// A supervisor, by the number of faults that it still answers with a restart.
#[derive(PartialEq, Eq, Debug, Drop)]
pub struct Supervisor {
    restarts_left: u32,
}

impl Model for Supervisor {
    ghost use Rattle.std.specs.Prelude.{ℕ};

    ghost Value = { ℕ };

    ghost view = { λ s. s.restarts_left };

    ghost inverse = { λ n. record { restarts_left = n } };
}

impl Supervisor {
    /// A supervisor that answers `limit` faults with a restart.
    pub fn new(limit: u32) -> Supervisor
        ensures { result ≡ limit }
    {
        Supervisor {
            restarts_left: limit,
        }
    }

    /// What follows this fault: a restart of the part, or `GiveUp` once the limit is reached.
    pub fn on(&mut self, fault: Fault) -> Action
        ensures gives_up { (result ≡ Action.GiveUp) ↔ (self.old ≡ 0) }
        ensures restarts { 0 < self.old → result ≡ restart_of fault }
        ensures left { self.new ≡ self.old - 1 }
    {
        if self.restarts_left == 0 {
            return Action::GiveUp;
        }
        self.restarts_left -= 1;
        match fault {
            Fault::Station(station) => Action::RestartStation(station),
            Fault::Writer | Fault::Outbox => Action::RestartHub,
            Fault::Owner(owner) => Action::RestartOwner(owner),
        }
    }
}
