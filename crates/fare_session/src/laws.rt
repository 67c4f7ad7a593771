//! What a session's contract means, in plain sentences.
ghost use Rattle.std.specs.Prelude.{ℕ};
ghost use Rattle.fare_history.specs.Holding.{MayHold};
ghost use Rattle.fare_scheme.specs.Values.{SchemeValue};
ghost use Rattle.fare_session.specs.Served.{AreFit, IsServed, WasServed};
ghost use Rattle.fare_session.specs.declared.report.OwnerReport.{OwnerReport};
ghost use Rattle.fare_store.specs.LedgerWords.{LedgerValue};
ghost use Rattle.fare_store.specs.OutboxWords.{OutboxValue};

use fare_store::{Ledger, Outbox};

/// Whatever an outbox and an owner's ledger may hold after a session, while they are live or where a stop comes, it is
/// what a session makes of something that they might have held before: per device the ledger's list is the old one
/// and then the outbox's rows beyond it, up to some place; old statements and closed days stay, and each new statement
/// is one that the outbox held; only rows that the ledger has went, and nothing else of the outbox changed. Where no
/// fault is reported, all rows and all statements of open days are in the ledger, and no row that it has is left.
pub fn a_session_says_plainly<O: Outbox, L: Ledger>()
    ensures { (sc : SchemeValue) (owner : ℕ) (report : OwnerReport) (x y : O) (l m : L) → IsServed sc owner (O.standing x) (O.standing y) (L.standing l) (L.standing m) report → AreFit sc owner (O.standing x) (O.standing y) (L.standing l) (L.standing m)
        → (b : OutboxValue) (n : LedgerValue) → MayHold (O.standing y) b → MayHold (L.standing m) n → WasServed sc owner (O.standing x) (L.standing l) report b n }
{}
