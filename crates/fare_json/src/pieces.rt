//! The pieces of a text.
ghost use Rattle.std.specs.Prelude.{◌≡◌, IfOk, map};
ghost use Rattle.fare_json.specs.Lines.{is_feed, is_gap, pieces};

use std::alloc::{AllocError, Global};

/// The lines of a text, but for empty ones.
pub(crate) fn lines_of(alloc: Global, text: &[u8]) -> Result<Vec<&[u8]>, AllocError>
    ensures { IfOk result (λ v. map (λ x. x.now) v.items ≡ pieces is_feed text.now) }
{
    text.split(|byte| *byte == b'\n')
        .filter(|piece| !piece.is_empty())
        .collect(alloc)
}

/// The words of a line, which stand between spaces and colons.
pub(crate) fn words_of(alloc: Global, line: &[u8]) -> Result<Vec<&[u8]>, AllocError>
    ensures { IfOk result (λ v. map (λ x. x.now) v.items ≡ pieces is_gap line.now) }
{
    line.split(|byte| *byte == b' ' || *byte == b':')
        .filter(|piece| !piece.is_empty())
        .collect(alloc)
}
