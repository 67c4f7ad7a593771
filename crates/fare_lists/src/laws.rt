//! Laws of lists in tables. Each is a function that does nothing, and its contract is the law.
ghost use Rattle.std.specs.Prelude.{◌≡◌, ℕ, List};
ghost use Rattle.sqlite.specs.Effect.{Database};
ghost use Rattle.sqlite.specs.Tree.{Trees};
ghost use Rattle.fare_opening.specs.declared.site.Site.{Site};
ghost use Rattle.fare_lists.specs.declared.table.ListTable.{ListTable};
ghost use Rattle.fare_lists.specs.Lists.{HoldAll, AreAllWide, AreLawful, AreReplaced};

/// What tables with lawful rows were replaced by is what they hold, in lawful rows again, and tables hold one list each: so
/// what is read is what was written.
pub fn what_is_written_is_read()
    ensures held { (w : Site) (tables : List ListTable) (lists : List (List (List ℕ))) (old new : Database) → AreLawful w old.trees tables → AreReplaced w tables lists old new → HoldAll w new.trees tables lists }
    ensures lawful { (w : Site) (tables : List ListTable) (lists : List (List (List ℕ))) (old new : Database) → AreLawful w old.trees tables → AreAllWide tables lists → AreReplaced w tables lists old new → AreLawful w new.trees tables }
    ensures one { (w : Site) (trees : Trees) (tables : List ListTable) (one other : List (List (List ℕ))) → HoldAll w trees tables one → HoldAll w trees tables other → one ≡ other }
{}
