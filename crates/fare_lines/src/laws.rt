//! Laws of the text of lines. Each is a function that does nothing, and its contract is the law.
ghost use Rattle.std.specs.Prelude.{◌≡◌, ◌⊎◌, ◌++◌, ◌∷◌, [], ℕ, List};
ghost use Rattle.std.specs.List.{AllByRecursion};
ghost use Rattle.fare_lines.specs.declared.line.Line.{Line};
ghost use Rattle.fare_lines.specs.Grammar.{Fits, line_text};
ghost use Rattle.fare_lines.specs.Lines.{FirstBadLine, Spells, printed};

/// Two readings of one text are one.
#[tactic(auto, using(crate::proofs::Printing::one_reading))]
pub fn one_reading()
    ensures { (ls ms : List Line) (text : List ℕ) → Spells ls text → Spells ms text → ls ≡ ms }
{}

/// No text is spelled by lines and has a bad line.
#[tactic(auto, using(crate::proofs::Printing::never_both))]
pub fn read_or_bad()
    ensures { (ls : List Line) (text : List ℕ) (number : ℕ) → Spells ls text → FirstBadLine text number → ⊥ }
{}

/// Printed lines, each ended by a line feed, are read back.
#[tactic(auto, using(crate::proofs::Printing::printed_spells))]
pub fn printed_reads_back()
    ensures { (ls : List Line) → AllByRecursion Fits ls → Spells ls (printed ls) }
{}

/// The last line feed may be left out.
#[tactic(auto, using(crate::proofs::Printing::open_spells))]
pub fn last_feed_is_optional()
    ensures { (ls : List Line) (l : Line) → AllByRecursion Fits ls → Fits l → Spells (ls ++ l ∷ []) (printed ls ++ line_text l) }
{}

/// And nothing else is read.
#[tactic(auto, using(crate::proofs::Printing::only_printed))]
pub fn only_printed_is_read()
    ensures { (ls : List Line) (text : List ℕ) → Spells ls text → (text ≡ printed ls) ⊎ (text ++ 10 ∷ [] ≡ printed ls) }
{}
