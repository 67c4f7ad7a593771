ghost use Rattle.std.specs.Prelude.{◌≡◌, OnOk, IfOk, IfErr};
ghost use Rattle.fare_world.specs.System.{start};
ghost use Rattle.fare_trace.specs.Answers.{Running};
ghost use Rattle.fare_trace.specs.Progress.{Breaks, Ends, GoesToEnd};
ghost use Rattle.fare_trace.specs.Stores.{AreNewLedgers, IsNew, IsNewLedger, IsNewOutbox, sql_ledger_is, sql_outbox_is};

use crate::running::{RunFault, read_rest, run_lines};
use fare_ledger::{LedgerOpenFault, SqlLedger};
use fare_lines::Lines;
use fare_outbox::SqlOutbox;
use fare_record::OwnerId;
use fare_scheme::Scheme;
use fare_store::Fault;
use fare_tables::OpenFault;
use fare_world::{World, WorldFault};
use sqlite::{Connection, MemStore};
use std::alloc::Global;

/// An empty outbox in a database in memory.
fn sql_outbox(alloc: Global) -> Result<SqlOutbox<MemStore>, Fault>
    ensures { IfOk result (IsNewOutbox sql_outbox_is) }
{
    let database = Connection::open_in_memory(alloc)?;
    match SqlOutbox::open(alloc, database) {
        Ok(outbox) => Ok(outbox),
        Err((_database, fault)) => Err(match fault {
            OpenFault::Memory => Fault::Memory,
            OpenFault::Foreign | OpenFault::Store => Fault::Store,
        }),
    }
}

/// An empty ledger of an owner of a scheme, in a database in memory.
fn sql_ledger(alloc: Global, scheme: &Scheme, owner: OwnerId) -> Result<SqlLedger<MemStore>, Fault>
    ensures owner { IfOk result (λ ledger. (sql_ledger_is ledger).value.owner ≡ owner) }
    ensures new { IfOk result (IsNewLedger sql_ledger_is scheme.now) }
{
    let database = Connection::open_in_memory(alloc)?;
    match SqlLedger::open(alloc, scheme, owner, database) {
        Ok(ledger) => Ok(ledger),
        Err((_database, fault)) => Err(match fault {
            LedgerOpenFault::Memory => Fault::Memory,
            LedgerOpenFault::UnknownOwner | LedgerOpenFault::Foreign | LedgerOpenFault::Store => {
                Fault::Store
            }
        }),
    }
}

/// An empty ledger for each owner of a scheme, in order of registration, each in a database in memory.
fn sql_ledgers(alloc: Global, scheme: &Scheme) -> Result<Vec<SqlLedger<MemStore>>, Fault>
    ensures { IfOk result (λ ledgers. AreNewLedgers sql_ledger_is scheme.now ledgers.items) }
{
    let mut ledgers = Vec::new(alloc);
    for owner in scheme.owners() {
        ledgers.push(sql_ledger(alloc, scheme, *owner)?)?;
    }
    Ok(ledgers)
}

/// A new world over a scheme, with its stores in databases in memory. `Memory` where there was none, `Store`
/// where a store failed.
fn sql_world(
    alloc: Global,
    scheme: Scheme,
) -> Result<World<SqlOutbox<MemStore>, SqlLedger<MemStore>>, Fault>
    ensures scheme { IfOk result (λ world. world.scheme ≡ scheme) }
    ensures new { IfOk result (IsNew sql_outbox_is sql_ledger_is) }
{
    let ledgers = sql_ledgers(alloc, &scheme)?;
    let outbox = sql_outbox(alloc)?;
    match World::new(alloc, scheme, outbox, ledgers) {
        Ok(world) => Ok(world),
        Err((_parts, WorldFault::Memory)) => Err(Fault::Memory),
        Err(_) => Err(Fault::Store),
    }
}

/// Answers the lines that follow the seal of a scheme, up to a store's failure.
fn run_in_tables(
    alloc: Global,
    scheme: Scheme,
    lines: &mut Lines,
    out: &mut Vec<u8>,
) -> Result<(), RunFault>
    ensures ok { OnOk result (GoesToEnd (Running scheme (start scheme)) lines.old lines.new out.old.items out.new.items) }
    ensures fault { IfErr result (Breaks lines.old lines.new) }
{
    let mut world = sql_world(alloc, scheme)?;
    run_lines(alloc, &mut world, lines, out)
}

/// Answers the lines that follow the seal of a scheme, with what is stored in databases in memory. A store that
/// fails is answered only once the lines behind it are read, since a bad line goes before it.
pub fn run_sql(
    alloc: Global,
    scheme: Scheme,
    lines: &mut Lines,
    out: &mut Vec<u8>,
) -> Result<(), RunFault>
    ensures ok { OnOk result (GoesToEnd (Running scheme (start scheme)) lines.old lines.new out.old.items out.new.items) }
    ensures fault { IfErr result (Ends lines.old) }
{
    match run_in_tables(alloc, scheme, lines, out) {
        Err(RunFault::Store) => {
            read_rest(alloc, lines)?;
            Err(RunFault::Store)
        }
        ended => ended,
    }
}
