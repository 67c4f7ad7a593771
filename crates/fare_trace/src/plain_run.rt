ghost use Rattle.std.specs.Prelude.{◌≡◌, OnOk, IfOk, IfErr};
ghost use Rattle.fare_world.specs.System.{start};
ghost use Rattle.fare_trace.specs.Answers.{Running};
ghost use Rattle.fare_lines.specs.Unread.{StopsIn};
ghost use Rattle.fare_trace.specs.Progress.{GoesToEnd};
ghost use Rattle.fare_trace.specs.Stores.{AreNewLedgers, IsNew, ledger_is, outbox_is};

use crate::running::{RunFault, run_lines};
use fare_lines::{Lines, ParseFault};
use fare_scheme::Scheme;
use fare_store::{LedgerFault, PlainLedger, PlainOutbox};
use fare_world::{World, WorldFault};
use std::alloc::{AllocError, Global};

/// An empty ledger for each owner of a scheme, in order of registration.
fn plain_ledgers(alloc: Global, scheme: &Scheme) -> Result<Vec<PlainLedger>, AllocError>
    ensures { IfOk result (λ ledgers. AreNewLedgers ledger_is scheme.now ledgers.items) }
{
    let mut ledgers = Vec::new(alloc);
    for owner in scheme.owners() {
        match PlainLedger::new(alloc, scheme, *owner) {
            Ok(ledger) => ledgers.push(ledger)?,
            Err(LedgerFault::Memory) => return Err(AllocError),
            Err(LedgerFault::UnknownOwner) => unreachable!(),
        }
    }
    Ok(ledgers)
}

/// A new world over a scheme, with its stores in lists. The error is want of memory.
fn plain_world(alloc: Global, scheme: Scheme) -> Result<World<PlainOutbox, PlainLedger>, AllocError>
    ensures scheme { IfOk result (λ world. world.scheme ≡ scheme) }
    ensures new { IfOk result (IsNew outbox_is ledger_is) }
{
    let ledgers = plain_ledgers(alloc, &scheme)?;
    match World::new(alloc, scheme, PlainOutbox::new(alloc), ledgers) {
        Ok(world) => Ok(world),
        Err((_parts, fault)) => {
            if fault != WorldFault::Memory {
                unreachable!()
            }
            Err(AllocError)
        }
    }
}

/// Answers the lines that follow the seal of a scheme, with what is stored in lists.
pub fn run_plain(
    alloc: Global,
    scheme: Scheme,
    lines: &mut Lines,
    out: &mut Vec<u8>,
) -> Result<(), ParseFault>
    ensures ok { OnOk result (GoesToEnd (Running scheme (start scheme)) lines.old lines.new out.old.items out.new.items) }
    ensures fault { IfErr result (StopsIn lines.old) }
{
    let mut world = plain_world(alloc, scheme)?;
    match run_lines(alloc, &mut world, lines, out) {
        Ok(()) => Ok(()),
        Err(RunFault::Text(fault)) => Err(fault),
        Err(RunFault::Store) => unreachable!(),
    }
}
