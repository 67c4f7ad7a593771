//! What a stop leaves of a hub's stores, and what stands in them once they are opened again.
ghost use Rattle.std.specs.Prelude.{◌≡◌, ℕ};
ghost use Rattle.fare_store.specs.LedgerWords.{LedgerValue};
ghost use Rattle.fare_store.specs.OutboxWords.{OutboxValue};
ghost use Rattle.fare_history.specs.Holding.{MayHold};
ghost use Rattle.fare_history.specs.Stores.{StoresValue};
ghost use Rattle.fare_sessions.specs.declared.hub.Hub.{Hub};
ghost use Rattle.fare_sessions.specs.Stores.{AreClean, AreLive, AreSound, IsLedgerOf, MayStandAs};
ghost use Rattle.fare_sessions.specs.Reopening.{AreLasting, AreOwned, HasReopened};

use fare_store::{Ledger, Outbox};

/// Stores that were opened again after a stop hold together what they might have held at the stop. So what holds of
/// all that stores may hold, as that it agrees with the lists of taps, or has all that sessions were answered, holds
/// of the stores that are opened again, which are live and lawful. And whatever a stop would leave of live and lawful
/// stores fits together.
pub fn stores_stand_again<O: Outbox, L: Ledger>()
    ensures stand { (old new : Hub O L) → HasReopened O.standing L.standing old new → (k : StoresValue) → MayStandAs O.standing L.standing new k → MayStandAs O.standing L.standing old k }
    ensures live { (old new : Hub O L) → HasReopened O.standing L.standing old new → AreLive O.standing L.standing new }
    ensures sound { (old new : Hub O L) → HasReopened O.standing L.standing old new → AreOwned O.standing L.standing old → AreSound O.standing L.standing new }
    ensures begins { (hub : Hub O L) → AreLive O.standing L.standing hub → AreSound O.standing L.standing hub → AreLasting O.standing L.standing hub × AreOwned O.standing L.standing hub }
{}

/// Stores that have kept what was committed may hold something together, also once failures have shut them: so what is
/// said of all that they may hold says something. Whatever one of them may hold is part of it.
pub fn clean_stores_may_hold_something<O: Outbox, L: Ledger>()
    ensures some { (hub : Hub O L) → AreClean O.standing L.standing hub → ∥ ((h : StoresValue) × MayStandAs O.standing L.standing hub h) ∥₁ }
    ensures outbox { (hub : Hub O L) → AreClean O.standing L.standing hub → (x : OutboxValue) → MayHold (O.standing hub.outbox) x → ∥ ((h : StoresValue) × MayStandAs O.standing L.standing hub h × (h.outbox ≡ x)) ∥₁ }
    ensures ledger { (hub : Hub O L) → AreClean O.standing L.standing hub → (owner : ℕ) (y : L) → IsLedgerOf hub owner y → (l : LedgerValue) → MayHold (L.standing y) l → ∥ ((h : StoresValue) × MayStandAs O.standing L.standing hub h × (h.ledgers owner ≡ l)) ∥₁ }
{}
