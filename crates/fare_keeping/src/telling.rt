ghost use Rattle.std.specs.Prelude.{◌≡◌, ◌≢◌, List, map, IfOk, IfErr, MatchOption};
ghost use Rattle.fare_lines.specs.declared.line.Line.{Line};
ghost use Rattle.fare_lines.specs.declared.line.Line.TheVariants.{Setup};
ghost use Rattle.fare_lines.specs.declared.line.SchemeLine.{SchemeLine};
ghost use Rattle.fare_lists.specs.Lists.{told};
ghost use Rattle.fare_register.specs.Registers.{AreOf, IsOfNone};
ghost use Rattle.fare_keeping.specs.Keeping.{Tell, TellLines, TellsNone};

use crate::KeepFault;
use fare_lines::{Line, SchemeLine};
use fare_lists::List;
use fare_register::lines_of;
use fare_scheme::Scheme;
use fare_trace::scheme_of;
use std::alloc::{AllocError, Global};

// Lines of a scheme as lines of a trace. The error is want of memory.
fn as_lines(alloc: Global, lines: Vec<SchemeLine>) -> Result<Vec<Line>, AllocError>
    ensures { IfOk result (λ all. all.items ≡ map {B = Line} Setup lines.items) }
{
    let mut all = Vec::new(alloc);
    for line in lines {
        all.push(Line::Setup(line))?;
    }
    Ok(all)
}

// The lines that lists tell, if they are lists of what can be registered. The error is want of memory.
pub(crate) fn lines_in(alloc: Global, lists: &[List]) -> Result<Option<Vec<Line>>, AllocError>
    ensures { IfOk result (λ found. MatchOption found (IsOfNone (told lists.now)) (λ lines. TellLines (told lists.now) lines.items)) }
{
    match lines_of(alloc, lists)? {
        Some(lines) => Ok(Some(as_lines(alloc, lines)?)),
        None => Ok(None),
    }
}

// The scheme that lists tell. `Unreadable` where they tell none.
pub(crate) fn scheme_in(alloc: Global, lists: &[List]) -> Result<Scheme, KeepFault>
    ensures told { IfOk result (Tell (told lists.now)) }
    ensures none { IfErr result (TellsNone (told lists.now)) }
{
    let Some(lines) = lines_in(alloc, lists)? else {
        return Err(KeepFault::Unreadable);
    };
    Ok(scheme_of(alloc, &lines)?)
}
