ghost use Rattle.std.specs.Prelude.{◌≡◌, OnOk, IfErr};
ghost use Rattle.fare_store.specs.declared.fault.Fault.TheVariants as fault;
ghost use Rattle.fare_world.specs.System.{start};
ghost use Rattle.fare_world.specs.Whole.{AreLive, CountsFailure};
ghost use Rattle.fare_trace.specs.Answers.{Running};
ghost use Rattle.fare_trace.specs.Faults.{run_fault};
ghost use Rattle.fare_lines.specs.Unread.{StopsIn};
ghost use Rattle.fare_trace.specs.Progress.{Breaks, GoesToEnd, IsRest};
ghost use Rattle.fare_trace.specs.Stores.{IsNew, StaysLive, WritesStep};
ghost use Rattle.fare_lines.specs.declared.text.ParseFault.TheVariants as parse;
ghost use Rattle.fare_trace.specs.declared.running.RunFault.TheVariants.{Store, Text};

use fare_event::{Refusal, Reply};
use fare_lines::{Line, Lines, ParseFault, print_reply};
use fare_store::{Fault, Ledger, Outbox};
use fare_world::World;
use std::alloc::{AllocError, Global};

/// Why the lines of a text were not answered to their end.
#[derive(Clone, Copy, PartialEq, Eq, Debug)]
pub enum RunFault {
    /// The text is no trace, or there was no memory.
    Text(ParseFault),
    /// A store failed.
    Store,
}

impl From<ParseFault> for RunFault {
    ghost from_gives = { λ fault e. e ≡ Text fault };

    fn from(fault: ParseFault) -> RunFault {
        RunFault::Text(fault)
    }
}

impl From<AllocError> for RunFault {
    ghost from_gives = { λ _ e. e ≡ Text parse.Memory };

    fn from(_error: AllocError) -> RunFault {
        RunFault::Text(ParseFault::Memory)
    }
}

impl From<Fault> for RunFault {
    ghost from_gives = { λ fault e. e ≡ run_fault fault };

    fn from(fault: Fault) -> RunFault {
        match fault {
            Fault::Memory => RunFault::Text(ParseFault::Memory),
            Fault::Store => RunFault::Store,
        }
    }
}

/// Answers a line that follows the seal. `Memory` where there was none, and `Store` where a store failed.
fn answer_sealed<O: Outbox + Drop, L: Ledger + Drop>(
    world: &mut World<O, L>,
    line: Line,
    out: &mut Vec<u8>,
) -> Result<(), Fault>
    ensures answered { OnOk result (WritesStep O.standing L.standing world.old world.new line out.old.items out.new.items) }
    ensures cause { IfErr result (λ f. f ≡ fault.Store → CountsFailure O.standing L.standing world.old world.new) }
{
    let reply = match &line {
        Line::Setup(_) => Reply::Refused(Refusal::Sealed),
        Line::Step(event) => world.apply(event)?,
    };
    print_reply(&reply, out)?;
    Ok(())
}

/// Answers the lines that follow the seal, in a new world over any stores. The first line that is none, or at
/// which there was no memory or a store failed, ends it.
pub fn run_lines<O: Outbox + Drop, L: Ledger + Drop>(
    alloc: Global,
    world: &mut World<O, L>,
    lines: &mut Lines,
    out: &mut Vec<u8>,
) -> Result<(), RunFault>
    requires { IsNew O.standing L.standing world.old }
    ensures ok { OnOk result (AreLive O.standing L.standing world.new → GoesToEnd (Running world.old.scheme (start world.old.scheme)) lines.old lines.new out.old.items out.new.items) }
    ensures stays { OnOk result (StaysLive O.standing L.standing world.old world.new) }
    ensures fault { IfErr result (Breaks lines.old lines.new) }
    ensures cause { IfErr result (λ f. f ≡ Store → CountsFailure O.standing L.standing world.old world.new) }
{
    while let Some(line) = lines.next(alloc)? {
        answer_sealed(world, line, out)?;
    }
    Ok(())
}

/// Reads the lines that are left.
pub fn read_rest(alloc: Global, lines: &mut Lines) -> Result<(), ParseFault>
    ensures ok { OnOk result (IsRest lines.old) }
    ensures fault { IfErr result (StopsIn lines.old) }
{
    while lines.next(alloc)?.is_some() {}
    Ok(())
}
