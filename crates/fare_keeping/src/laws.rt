//! Laws of what is kept. Each is a function that does nothing, and its contract is the law.
ghost use Rattle.std.specs.Prelude.{◌≡◌, ℕ, List, map};
ghost use Rattle.sqlite.specs.Effect.{Database};
ghost use Rattle.fare_day.specs.Clock.{HasRule};
ghost use Rattle.fare_scheme.specs.Facts.{IsScheme};
ghost use Rattle.fare_scheme.specs.Values.{SchemeValue};
ghost use Rattle.fare_lines.specs.declared.line.Line.{Line};
ghost use Rattle.fare_lines.specs.declared.line.Line.TheVariants.{Setup};
ghost use Rattle.fare_lines.specs.ZoneWord.{IsZoneText};
ghost use Rattle.fare_setup.specs.SchemeLines.{setup_lines_of};
ghost use Rattle.fare_keeping.specs.Keeping.{Keeps, KeepsJust, KeepsLines, KeepsNone, SaysNothing, SaysOf};
ghost use Rattle.fare_keeping.specs.declared.fault.KeepFault.TheVariants.{Unreadable};

/// Where just a scheme with the rule of its clock is kept, its lines are kept and no others, the scheme is kept and no other one,
/// but for the clock; something is kept; and it can be read.
pub fn what_is_kept_tells_its_scheme()
    ensures lines { (db : Database) (scheme : SchemeValue) (zone : List ℕ) (lines : List Line) → IsScheme scheme → IsZoneText zone → KeepsJust db scheme zone → KeepsLines db lines → lines ≡ map {B = Line} Setup (setup_lines_of scheme zone) }
    ensures scheme { (db : Database) (scheme : SchemeValue) (zone : List ℕ) → IsScheme scheme → IsZoneText zone → HasRule scheme.zone zone → KeepsJust db scheme zone → Keeps db scheme }
    ensures one { (db : Database) (one other : SchemeValue) → Keeps db one → Keeps db other → one ≡ record other { zone = one.zone } }
    ensures something { (db : Database) (scheme : SchemeValue) → Keeps db scheme → ¬ KeepsNone db }
    ensures readable { (db : Database) (scheme other : SchemeValue) (zone : List ℕ) → IsScheme scheme → IsZoneText zone → HasRule scheme.zone zone → KeepsJust db scheme zone → (¬ SaysNothing db Unreadable) × (¬ SaysOf db other Unreadable) }
{}
