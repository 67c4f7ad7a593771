ghost use Rattle.std.specs.Prelude.{◌≡◌, ◌+◌, ◌++◌, ◌≤◌, [], length, IfOk, IfErr, OnOk, OnErr};
ghost use Rattle.std.specs.Vec.{vec_capacity};
ghost use Rattle.std.specs.Vec.Iter.{into_iter_items, into_iter_len};
ghost use Rattle.sqlite.specs.Held.{state};
ghost use Rattle.fare_scheme.specs.Facts.{IsScheme};
ghost use Rattle.fare_outbox.specs.Words as outbox_words;
ghost use Rattle.fare_ledger.specs.Words.{stands};
ghost use Rattle.fare_outbox.specs.declared.tables.SqlOutbox.{SqlOutbox};
ghost use Rattle.fare_ledger.specs.declared.tables.SqlLedger.{SqlLedger};
ghost use Rattle.fare_sessions.specs.declared.hub.Hub.{Hub};
ghost use Rattle.fare_sessions.specs.Stores.{AreClean, HasLedgers};
ghost use Rattle.fare_sessions.specs.Reopening.{HasReopened};
ghost use Rattle.fare_databases.specs.Holding.{StaysLedger, StaysOutbox, AreStaying};
ghost use Rattle.fare_databases.specs.Held.{Holds, StayStores};
ghost use Rattle.fare_databases.specs.Reopened.{AreLeftOf};
ghost use Rattle.fare_databases.specs.Opened.{AreOpened, IsOpenedLedger, IsOpenedOutbox};

use crate::closing::hand_back;
use crate::databases::Databases;
use fare_ledger::{LedgerOpenFault, SqlLedger};
use fare_outbox::SqlOutbox;
use fare_record::OwnerId;
use fare_scheme::Scheme;
use fare_sessions::Hub;
use fare_store::Fault;
use fare_tables::OpenFault;
use sqlite::{Alter, Connection};
use std::alloc::Global;
use std::vec::IntoIter;

/// A hub whose stores lie in databases.
#[derive(Drop)]
pub struct OpenHub<S: Alter> {
    /// The hub.
    pub hub: Hub<SqlOutbox<S>, SqlLedger<S>>,
    /// Room for the ledgers' databases, so that closing it needs no memory.
    pub room: Vec<Connection<S>>,
}

// The outbox in a database, which comes back where it can't be opened.
fn outbox_in<S: Alter + Drop>(
    alloc: Global,
    database: Connection<S>,
) -> Result<SqlOutbox<S>, (Connection<S>, Fault)>
    ensures opened { IfOk result (λ opened. IsOpenedOutbox (state S.Store database) (outbox_words.stands S.Store opened)) }
    ensures stays { IfErr result (λ e. StaysOutbox (state S.Store database) (state S.Store e.0)) }
{
    match SqlOutbox::open(alloc, database) {
        Ok(outbox) => Ok(outbox),
        Err((database, OpenFault::Memory)) => Err((database, Fault::Memory)),
        Err((database, OpenFault::Foreign | OpenFault::Store)) => Err((database, Fault::Store)),
    }
}

// The ledger of an owner of a scheme in a database, which comes back where it can't be opened.
fn ledger_in<S: Alter + Drop>(
    alloc: Global,
    scheme: &Scheme,
    owner: OwnerId,
    database: Connection<S>,
) -> Result<SqlLedger<S>, (Connection<S>, Fault)>
    ensures opened { IfOk result (λ opened. IsOpenedLedger scheme.now owner (state S.Store database) (stands S.Store opened)) }
    ensures stays { IfErr result (λ e. StaysLedger scheme.now owner (state S.Store database) (state S.Store e.0)) }
{
    match SqlLedger::open(alloc, scheme, owner, database) {
        Ok(ledger) => Ok(ledger),
        Err((database, LedgerOpenFault::Memory)) => Err((database, Fault::Memory)),
        Err(
            (
                database,
                LedgerOpenFault::UnknownOwner | LedgerOpenFault::Foreign | LedgerOpenFault::Store,
            ),
        ) => Err((database, Fault::Store)),
    }
}

// Hands databases on, behind those that were.
fn hand_on<S: Alter + Drop>(
    waiting: IntoIter<Connection<S>, Global>,
    databases: &mut Vec<Connection<S>>,
)
    requires room { length databases.old.items + into_iter_len waiting ≤ vec_capacity databases.old }
    ensures { databases.new.items ≡ databases.old.items ++ into_iter_items waiting }
{
    for database in waiting {
        databases.push_reserved(database);
    }
}

// The ledger of each owner of a scheme, in its order, in these databases, in a list with room for them; where one can't
// be opened, all databases go back to another such list.
fn ledgers_in<S: Alter + Drop>(
    alloc: Global,
    scheme: &Scheme,
    databases: Vec<Connection<S>>,
    opened: Vec<SqlLedger<S>>,
    room: &mut Vec<Connection<S>>,
) -> Result<Vec<SqlLedger<S>>, Fault>
    requires owners { length databases.items ≡ length scheme.now.owners }
    requires empty { (opened.items ≡ []) × (room.old.items ≡ []) }
    requires room { (length databases.items ≤ vec_capacity opened) × (length databases.items ≤ vec_capacity room.old) }
    ensures opened { IfOk result (λ ledgers. AreOpened (λ d. state S.Store d) (λ l. stands S.Store l) scheme.now databases.items ledgers.items) }
    ensures untouched { OnOk result ((room.new.items ≡ []) × (vec_capacity room.new ≡ vec_capacity room.old)) }
    ensures stay { OnErr result (AreStaying (λ d. state S.Store d) scheme.now databases.items room.new.items) }
{
    let mut waiting = databases.into_iter();
    let mut ledgers = opened;
    while let Some(database) = waiting.next() {
        let owner = scheme.owners()[ledgers.len()];
        match ledger_in(alloc, scheme, owner, database) {
            Ok(ledger) => ledgers.push_reserved(ledger),
            Err((database, fault)) => {
                hand_back(ledgers, room);
                room.push_reserved(database);
                hand_on(waiting, room);
                return Err(fault);
            }
        }
    }
    Ok(ledgers)
}

/// Opens the stores of a scheme in these databases. Tables that aren't there are made, and a store of an older format is
/// raised to the newest, in one transaction, and keeps its lists.
///
/// `Memory` where there was none for it, and `Store` where a database fails or holds something else, in the order in which
/// they are opened. The databases come back then, and hold what they held: what was made or raised before stays so. Over
/// databases that show what a stop left of a hub's stores, the hub has those stores again.
pub fn open_hub<S: Alter + Drop>(
    alloc: Global,
    scheme: Scheme,
    databases: Databases<S>,
) -> Result<OpenHub<S>, (Databases<S>, Fault)>
    requires owners { length databases.ledgers.items ≡ length scheme.owners }
    ensures valid { IsScheme scheme }
    ensures scheme { IfOk result (λ opened. opened.hub.scheme ≡ scheme) }
    ensures count { IfOk result (λ opened. HasLedgers opened.hub) }
    ensures room { IfOk result (λ opened. (opened.room.items ≡ []) × (length opened.hub.ledgers.items ≤ vec_capacity opened.room)) }
    ensures outbox { IfOk result (λ opened. IsOpenedOutbox (state S.Store databases.outbox) (outbox_words.stands S.Store opened.hub.outbox)) }
    ensures ledgers { IfOk result (λ opened. AreOpened (λ d. state S.Store d) (λ l. stands S.Store l) scheme databases.ledgers.items opened.hub.ledgers.items) }
    ensures holds { IfOk result (λ opened. AreClean (outbox_words.stands S.Store) (stands S.Store) opened.hub → Holds S.Store databases opened.hub) }
    ensures again { IfOk result (λ opened. AreClean (outbox_words.stands S.Store) (stands S.Store) opened.hub → (was : Hub (SqlOutbox S S.Store) (SqlLedger S S.Store)) → was.scheme ≡ scheme → AreLeftOf S.Store (λ d. state S.Store d) was (state S.Store databases.outbox) databases.ledgers.items → HasReopened (outbox_words.stands S.Store) (stands S.Store) was opened.hub) }
    ensures stay { IfErr result (λ e. StayStores S.Store scheme databases e.0) }
{
    let owners = scheme.owner_count();
    let Databases { outbox, ledgers } = databases;
    let Ok(mut room) = Vec::with_capacity(alloc, owners) else {
        return Err((Databases { outbox, ledgers }, Fault::Memory));
    };
    let Ok(opened) = Vec::with_capacity(alloc, owners) else {
        return Err((Databases { outbox, ledgers }, Fault::Memory));
    };
    let outbox = match outbox_in(alloc, outbox) {
        Ok(outbox) => outbox,
        Err((outbox, fault)) => return Err((Databases { outbox, ledgers }, fault)),
    };
    match ledgers_in(alloc, &scheme, ledgers, opened, &mut room) {
        Ok(ledgers) => Ok(OpenHub {
            hub: Hub {
                scheme,
                outbox,
                ledgers,
            },
            room,
        }),
        Err(fault) => Err((
            Databases {
                outbox: outbox.into_connection(),
                ledgers: room,
            },
            fault,
        )),
    }
}
