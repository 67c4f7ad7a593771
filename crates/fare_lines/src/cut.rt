ghost use Rattle.std.specs.Prelude.{◌≡◌, ◌==◌, ◌<◌, ◌↔◌, ◌∷◌, ℕ, List, IfSome, IfNone, IsTrue, length};
ghost use Rattle.std.specs.List.{position};
ghost use Rattle.fare_lines.specs.Reading.{BeginsWith, CutsAt, behind_feed, is_feed, is_no_digit};

/// Where a byte first stands.
fn find_byte(text: &[u8], byte: u8) -> Option<usize>
    ensures is { result ≡ position (λ b. b == byte) text.now }
    ensures within { IfSome result (λ i. i < length text.now) }
{
    text.iter().position(|b| *b == byte)
}

/// Where the first byte stands that is no digit.
fn find_no_digit(text: &[u8]) -> Option<usize>
    ensures is { result ≡ position is_no_digit text.now }
    ensures within { IfSome result (λ i. i < length text.now) }
{
    text.iter().position(|b| !b.is_ascii_digit())
}

/// What stands before the first such byte, and the rest from it on.
#[tactic(auto, using(crate::proofs::Cuts::cuts_at_some, crate::proofs::Cuts::cuts_at_none))]
pub fn cut_at(text: &[u8], byte: u8) -> (&[u8], &[u8])
    ensures { CutsAt (λ b. b == byte) text.now result.0.now result.1.now }
{
    match find_byte(text, byte) {
        Some(i) => text.split_at(i),
        None => (text, &[]),
    }
}

/// What stands before the first byte that is no digit, and the rest from it on.
#[tactic(auto, using(crate::proofs::Cuts::cuts_at_some, crate::proofs::Cuts::cuts_at_none))]
pub fn cut_at_no_digit(text: &[u8]) -> (&[u8], &[u8])
    ensures { CutsAt is_no_digit text.now result.0.now result.1.now }
{
    match find_no_digit(text) {
        Some(i) => text.split_at(i),
        None => (text, &[]),
    }
}

/// Whether a line ends here: at a line feed, or the end of the text.
pub fn ends_line(text: &[u8]) -> bool
    ensures { IsTrue result ↔ BeginsWith is_feed text.now }
{
    match text.first() {
        Some(byte) => *byte == b'\n',
        None => true,
    }
}

/// What stands behind the line feed at the front of a text; nothing at the end of the text.
pub fn behind(text: &[u8]) -> &[u8]
    ensures { result.now ≡ behind_feed text.now }
{
    match text {
        [] => text,
        [_, next @ ..] => next,
    }
}

/// What stands behind the space at the front of a text, if one stands there.
pub fn behind_space(text: &[u8]) -> Option<&[u8]>
    ensures some { IfSome result (λ rest. text.now ≡ 32 ∷ rest.now) }
    ensures none { IfNone result ((rest : List ℕ) → text.now ≡ 32 ∷ rest → ⊥) }
{
    match text {
        [b' ', rest @ ..] => Some(rest),
        _ => None,
    }
}
