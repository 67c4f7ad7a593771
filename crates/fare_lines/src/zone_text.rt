ghost use Rattle.std.specs.Prelude.{◌≡◌, ◌↔◌, nat_eq, IsTrue, IfOk, IfSome, IfNone};
ghost use Rattle.std.specs.Cmp.{partial_equiv_from_equiv};
ghost use Rattle.std.specs.Cmp.Lexicographic.{nat_list_eq_equiv, pointwise};
ghost use Rattle.fare_lines.specs.ZoneWord.{IsZoneText};

use std::alloc::{AllocError, Global};
use std::marker::Model;

/// The text of a zone's rule in a line: one word of one or more bytes from 33 to 126. Whether it reads as a
/// rule is not said.
#[derive(Debug, Drop)]
pub struct ZoneText {
    text: String,
}

impl Model for ZoneText {
    ghost use Rattle.std.specs.Prelude.{ℕ, List, string_bytes};
    ghost use Rattle.fare_lines.specs.ZoneWord.{IsZoneText};

    ghost Value = { List ℕ };

    ghost view = { λ t. string_bytes t.text };

    ghost invariant = { λ t. IsZoneText (string_bytes t.text) };
}

impl PartialEq for ZoneText {
    ghost eq = { pointwise nat_eq };

    ghost laws = { partial_equiv_from_equiv nat_list_eq_equiv };

    fn eq(&self, other: &ZoneText) -> bool {
        self.text == other.text
    }
}

impl Eq for ZoneText {
    ghost laws = { nat_list_eq_equiv };
}

/// Whether bytes are one word of a line.
fn is_word(bytes: &[u8]) -> bool
    ensures { IsTrue result ↔ IsZoneText bytes.now }
{
    !bytes.is_empty() && bytes.iter().all(|byte| 33 <= *byte && *byte <= 126)
}

impl ZoneText {
    /// The text of these bytes, if they are one or more from 33 to 126. The error is want of memory.
    pub fn read(alloc: Global, bytes: &[u8]) -> Result<Option<ZoneText>, AllocError>
        ensures found { IfOk result (λ found. IfSome found (λ text. text ≡ bytes.now)) }
        ensures fits { IfOk result (λ found. IfSome found IsZoneText) }
        ensures none { IfOk result (λ found. IfNone found (IsZoneText bytes.now → ⊥)) }
    {
        if !is_word(bytes) {
            return Ok(None);
        }
        match str::from_utf8(bytes) {
            Ok(text) => Ok(Some(ZoneText {
                text: String::from_str(alloc, text)?,
            })),
            Err(_) => Ok(None),
        }
    }

    /// The text.
    pub fn as_str(&self) -> &str
        ensures is { result.now ≡ self.now }
        ensures fits { IsZoneText self.now }
    {
        self.text.as_str()
    }
}
