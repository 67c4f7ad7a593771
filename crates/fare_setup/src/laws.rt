//! Laws of a scheme as lines. Each is a function that does nothing, and its contract is the law.
ghost use Rattle.std.specs.Prelude.{◌≡◌, ℕ, List, map};
ghost use Rattle.std.specs.List.{AllByRecursion};
ghost use Rattle.fare_day.specs.Clock.{HasRule};
ghost use Rattle.fare_scheme.specs.Values.{SchemeValue};
ghost use Rattle.fare_scheme.specs.Facts.{IsScheme};
ghost use Rattle.fare_lines.specs.declared.line.SchemeLine.{SchemeLine};
ghost use Rattle.fare_lines.specs.declared.line.Line.TheVariants.{Setup};
ghost use Rattle.fare_lines.specs.ZoneWord.{IsZoneText};
ghost use Rattle.fare_lines.specs.Grammar.{Fits};
ghost use Rattle.fare_setup.specs.SchemeLines.{setup_lines_of};
ghost use Rattle.fare_setup.specs.Making.{Make};
ghost use Rattle.fare_setup.specs.ReadAgain.{ReadsAs, setup_text_of};

/// Each line of a scheme can be spelled.
#[tactic(auto, using(crate::proofs::Fitting::setup_fits))]
pub fn setup_lines_fit()
    ensures { (scheme : SchemeValue) (zone : List ℕ) → IsScheme scheme → IsZoneText zone → AllByRecursion Fits (map Setup (setup_lines_of scheme zone)) }
{}

/// What is printed of a scheme is read again as its lines, and as nothing else.
#[tactic(auto, using(crate::proofs::Rereading::setup_reads_as))]
pub fn printed_setup_reads_back()
    ensures { (scheme : SchemeValue) (zone : List ℕ) → IsScheme scheme → IsZoneText zone → ReadsAs (setup_text_of scheme zone) (map Setup (setup_lines_of scheme zone)) }
{}

/// The lines of a scheme make it: an empty draft refuses none of them, and its seal gives a scheme with the same lists
/// and settings.
#[tactic(auto, using(crate::proofs::Taking::setup_makes))]
pub fn setup_lines_make_the_scheme()
    ensures { (scheme : SchemeValue) (zone : List ℕ) → IsScheme scheme → HasRule scheme.zone zone → Make (setup_lines_of scheme zone) scheme }
{}

/// Lines make one scheme, but for the clock, of which they give the rule.
pub fn lines_make_one_scheme()
    ensures { (lines : List SchemeLine) (one other : SchemeValue) → Make lines one → Make lines other → one ≡ record other { zone = one.zone } }
{}

/// Schemes of one printed text are the same, but for the clock.
pub fn printed_text_tells_the_scheme()
    ensures { (one other : SchemeValue) (zone rule : List ℕ) → IsScheme one → IsScheme other → IsZoneText zone → IsZoneText rule → HasRule one.zone zone → HasRule other.zone rule → setup_text_of one zone ≡ setup_text_of other rule → one ≡ record other { zone = one.zone } }
{}
