ghost use Rattle.std.specs.Prelude.{◌≡◌, MatchResult};
ghost use Rattle.fare_lines.specs.Lines.{Spells};
ghost use Rattle.fare_lines.specs.Faults.{Refuses};
ghost use Rattle.fare_lines.specs.declared.text.ParseFault.TheVariants.{Memory};

use crate::line::Line;
use crate::lines::Lines;
use fare_event::Event;
use std::alloc::{AllocError, AllocFailed, Global};
use thiserror::Error;

/// Why a text was not read.
#[derive(Clone, Copy, PartialEq, Eq, Debug, Error)]
pub enum ParseFault {
    /// The text is no trace: this is the number of its first bad line, counted from 1.
    #[error("bad line {line}")]
    BadLine { line: u64 },
    /// There was no memory for the lines.
    #[error("no memory")]
    Memory,
}

impl From<AllocError> for ParseFault {
    ghost from_gives = { λ _ e. e ≡ Memory };

    fn from(_error: AllocError) -> ParseFault {
        ParseFault::Memory
    }
}

impl<T: Drop> From<AllocFailed<T>> for ParseFault {
    ghost from_gives = { λ _ e. e ≡ Memory };

    fn from(_error: AllocFailed<T>) -> ParseFault {
        ParseFault::Memory
    }
}

/// The lines that a text spells. Each line ends with a line feed, which the last one may lack. `BadLine` with
/// the first line that is none, where there is one; `Memory` where there was none for the lines before it.
pub fn parse(alloc: Global, text: &[u8]) -> Result<Vec<Line>, ParseFault>
    ensures { MatchResult result (λ lines. Spells lines.items text.now) (Refuses text.now) }
{
    // The check finds the variants of `Event` below `Line` only where a local names them.
    let _event: Option<Event> = None;
    let mut read = Vec::new(alloc);
    let mut lines = Lines::new(alloc, text);
    while let Some(line) = lines.next(alloc)? {
        read.push(line)?;
    }
    Ok(read)
}
