ghost use Rattle.std.specs.Prelude.{◌≡◌, ◌≢◌, Err, OnOk, IfOk, IfErr};
ghost use Rattle.fare_world.specs.System.{start};
ghost use Rattle.fare_trace.specs.Answers.{Answers, Drafting, Running};
ghost use Rattle.fare_lines.specs.Unread.{StopsIn};
ghost use Rattle.fare_trace.specs.Progress.{AnswersText, Ends, GoesToEnd, Registers, WritesAnswer};
ghost use Rattle.fare_trace.specs.Registration.{stage_of};
ghost use Rattle.fare_trace.specs.Faults.{RefusesRun};

use crate::plain_run::run_plain;
use crate::registering::{Answer, Registration, refuse, set_up};
use crate::running::RunFault;
use crate::sql_run::run_sql;
use fare_event::Refusal;
use fare_lines::{Line, Lines, ParseFault, print_reply};
use fare_scheme::{Draft, Scheme};
use std::alloc::{AllocError, Global};

/// Where a run keeps what is stored.
#[derive(Clone, Copy, PartialEq, Eq, Debug)]
pub enum StoreKind {
    /// In lists in memory.
    Plain,
    /// In databases in memory.
    Sql,
}

/// What a line before the seal is answered, and how far the registration is then. The error is want of memory.
fn judge_line(alloc: Global, draft: Draft, used: bool, line: &Line) -> Answer
    ensures { IfOk result (λ answer. Answers (Drafting draft used) line.now (stage_of answer.0, answer.1)) }
{
    match line {
        Line::Setup(line) => set_up(alloc, draft, used, line),
        Line::Step(_) => Ok(refuse(draft, used, Refusal::Unsealed)),
    }
}

/// Answers a line before the seal, and how far the registration is then. The error is want of memory.
fn answer_line(
    alloc: Global,
    draft: Draft,
    used: bool,
    line: Line,
    out: &mut Vec<u8>,
) -> Result<Registration, AllocError>
    ensures { IfOk result (λ next. WritesAnswer (Drafting draft used) line (stage_of next) out.old.items out.new.items) }
{
    let (registration, reply) = judge_line(alloc, draft, used, &line)?;
    print_reply(&reply, out)?;
    Ok(registration)
}

/// Answers the lines up to the seal of a scheme, which is the result, or all where none comes.
fn register(
    alloc: Global,
    lines: &mut Lines,
    out: &mut Vec<u8>,
) -> Result<Option<Scheme>, ParseFault>
    ensures ok { IfOk result (Registers lines.old lines.new out.old.items out.new.items) }
    ensures fault { IfErr result (StopsIn lines.old) }
{
    let mut draft = Draft::new(alloc);
    let mut used = false;
    while let Some(line) = lines.next(alloc)? {
        match answer_line(alloc, draft, used, line, out)? {
            Registration::Open {
                draft: next,
                used: now,
            } => {
                draft = next;
                used = now;
            }
            Registration::Sealed { scheme } => return Ok(Some(scheme)),
        }
    }
    Ok(None)
}

/// Answers the lines that follow the seal of a scheme.
fn run_sealed(
    alloc: Global,
    stores: StoreKind,
    scheme: Scheme,
    lines: &mut Lines,
    out: &mut Vec<u8>,
) -> Result<(), RunFault>
    ensures ok { OnOk result (GoesToEnd (Running scheme (start scheme)) lines.old lines.new out.old.items out.new.items) }
    ensures fault { IfErr result (Ends lines.old) }
    ensures plain { stores ≡ StoreKind.Plain → result ≢ Err RunFault.Store }
{
    match stores {
        StoreKind::Plain => Ok(run_plain(alloc, scheme, lines, out)?),
        StoreKind::Sql => run_sql(alloc, scheme, lines, out),
    }
}

/// The bytes that answer the lines that a text spells. `BadLine` with the first line that is none; `Memory`
/// where there was none; `Store` where a store failed, which lists never do, and no line is bad.
pub fn answer_text(alloc: Global, stores: StoreKind, text: &[u8]) -> Result<Vec<u8>, RunFault>
    ensures answered { IfOk result (λ out. AnswersText text.now out.items) }
    ensures refused { IfErr result (RefusesRun text.now) }
    ensures plain { stores ≡ StoreKind.Plain → result ≢ Err RunFault.Store }
{
    // Replies take about as much room as their lines, some more, so the room is rarely made anew.
    let mut out = Vec::with_capacity(alloc, text.len())?;
    let mut lines = Lines::new(alloc, text);
    if let Some(scheme) = register(alloc, &mut lines, &mut out)? {
        run_sealed(alloc, stores, scheme, &mut lines, &mut out)?;
    }
    Ok(out)
}
