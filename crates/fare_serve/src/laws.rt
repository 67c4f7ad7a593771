//! What serving without pauses comes to. It is a function that does nothing, and its contract is the law.
ghost use Rattle.std.specs.Prelude.{List};
ghost use Rattle.std.specs.List.{flat_map};
ghost use Rattle.fare_source.specs.declared.shift.Shift.{Shift};
ghost use Rattle.fare_net.specs.NetValue.{NetValue};
ghost use Rattle.fare_sessions.specs.declared.hub.Hub.{Hub};
ghost use Rattle.fare_serve.specs.Calls.{AreHeld};
ghost use Rattle.fare_serve.specs.Pausing.{KeepOwners, does_nothing};
ghost use Rattle.fare_serve.specs.Rounds.{AreServed, Round, calls_of};
ghost use Rattle.fare_serve.specs.Serving.{shift_talk};
ghost use Rattle.fare_serve.specs.Spacing.{HaveStopped};
ghost use Rattle.fare_serve.specs.declared.fault.ServeFault.{ServeFault};

use fare_store::{Ledger, Outbox};

/// Where pauses do nothing, as `Rest`, the calls of sessions follow one another with nothing between them: those of rounds,
/// and those up to a fault. And each ledger that was its owner's is so behind each pause.
pub fn rest_does_nothing<O: Outbox, L: Ledger>()
    ensures rounds { (old new : Hub O L) (rounds : List (Round (Shift NetValue))) → AreServed shift_talk does_nothing O.standing L.standing old new rounds → AreHeld shift_talk O.standing L.standing old new (flat_map calls_of rounds) }
    ensures stopped { (old new : Hub O L) (fault : ServeFault) (s : HaveStopped shift_talk does_nothing O.standing L.standing old new fault) → AreHeld shift_talk O.standing L.standing old new s.calls }
    ensures owners { KeepOwners does_nothing O.standing L.standing }
{}
