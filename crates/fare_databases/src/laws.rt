//! What holds of the databases of stores, whatever runs over them. It is a function that does nothing, and its contract is
//! the law.
ghost use Rattle.std.specs.Prelude.{ℕ, List};
ghost use Rattle.sqlite_trees.specs.Tree.{Trees};
ghost use Rattle.fare_record.specs.Values.{RecordValue};
ghost use Rattle.fare_scheme.specs.Facts.{IsScheme};
ghost use Rattle.fare_scheme.specs.Values.{SchemeValue};
ghost use Rattle.fare_growth.specs.Growth.{AddsTo};
ghost use Rattle.fare_databases.specs.Holding.{AreVacantFor, HoldAgreed};

/// Databases that hold stores of a scheme, which agree with lists of taps, hold stores of a later one that adds to it, and
/// these agree with the same lists, where the databases of the ledgers of the owners that it adds are vacant.
pub fn added_schemes_keep_stores()
    ensures { (kept later : SchemeValue) (lists : ℕ → List RecordValue) (outbox : Trees) (ledgers : ℕ → Trees) → IsScheme kept → IsScheme later → AddsTo kept later → AreVacantFor kept later ledgers → HoldAgreed kept lists outbox ledgers → HoldAgreed later lists outbox ledgers }
{}
