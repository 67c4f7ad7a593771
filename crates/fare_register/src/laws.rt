//! Laws of what is registered. Each is a function that does nothing, and its contract is the law.
ghost use Rattle.std.specs.Prelude.{◌≡◌, ℕ, List};
ghost use Rattle.fare_scheme.specs.Values.{SchemeValue};
ghost use Rattle.fare_scheme.specs.Facts.{IsScheme};
ghost use Rattle.fare_lines.specs.declared.line.SchemeLine.{SchemeLine};
ghost use Rattle.fare_lines.specs.ZoneWord.{IsZoneText};
ghost use Rattle.fare_setup.specs.SchemeLines.{setup_lines_of};
ghost use Rattle.fare_register.specs.Registers.{RegisterValue, HaveRoom, AreOf, registered, register_lists, register_lines};

/// The lists of a scheme are of its lines, and of no others; so what `register_of` gives, `lines_of` reads as the lines
/// that make the scheme.
pub fn a_register_tells_its_scheme()
    ensures room { (scheme : SchemeValue) (zone : List ℕ) → IsScheme scheme → IsZoneText zone → HaveRoom (registered scheme zone) }
    ensures lines { (scheme : SchemeValue) (zone : List ℕ) → register_lines (registered scheme zone) ≡ setup_lines_of scheme zone }
    ensures one { (one other : RegisterValue) → register_lists one ≡ register_lists other → one ≡ other }
    ensures read { (scheme : SchemeValue) (zone : List ℕ) (lines : List SchemeLine) → AreOf (register_lists (registered scheme zone)) lines → lines ≡ setup_lines_of scheme zone }
{}
