ghost use Rattle.std.specs.Prelude.{◌≡◌, IfOk, IfErr};
ghost use Rattle.fare_lines.specs.Unread.{IsNext, StopsIn, whole};

use crate::build::read_line;
use crate::cut::behind;
use crate::line::Line;
use crate::text::ParseFault;
use std::alloc::Global;
use std::marker::Model;

/// The lines of a text, read one after the other.
#[derive(Drop)]
pub struct Lines<'a> {
    // What is still to be read.
    rest: &'a [u8],
    // The number of its first line, from 1.
    number: u64,
    // Room for the numbers of a line.
    numbers: Vec<u64>,
}

impl<'a> Model for Lines<'a> {
    ghost use Rattle.std.specs.Prelude.{◌+◌, ◌≤◌, ◌^◌, length};
    ghost use Rattle.fare_lines.specs.Unread.{Unread};

    ghost Value = { Unread };

    ghost view = { λ l. record { rest = l.rest.now; number = l.number } };

    ghost invariant = { λ l. l.number + length l.rest.now ≤ 2 ^ 63 };
}

impl<'a> Lines<'a> {
    /// All lines of a text.
    pub fn new(alloc: Global, text: &'a [u8]) -> Lines<'a>
        ensures { result ≡ whole text.now }
    {
        Lines {
            rest: text,
            number: 1,
            numbers: Vec::new(alloc),
        }
    }

    /// The next line, or nothing at the end of the text. `BadLine` where the next line is none; `Memory` where
    /// there was none for it.
    pub fn next(&mut self, alloc: Global) -> Result<Option<Line>, ParseFault>
        ensures line { IfOk result (λ found. IsNext self.old self.new found) }
        ensures fault { IfErr result (StopsIn self.old) }
    {
        if self.rest.is_empty() {
            return Ok(None);
        }
        let Some((line, rest)) = read_line(alloc, self.rest, &mut self.numbers)? else {
            return Err(ParseFault::BadLine { line: self.number });
        };
        self.rest = behind(rest);
        self.number += 1;
        Ok(Some(line))
    }
}
