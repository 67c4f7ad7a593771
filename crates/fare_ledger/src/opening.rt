ghost use Rattle.std.specs.Prelude.{◌≡◌, ◌≢◌, ◌↔◌, ◌⊎◌, ℕ, Bool, false, true, None, Err, IsTrue, IsNone, IsSome, IfOk, IfErr, IfSome, OnOk, OnErr};
ghost use Rattle.sqlite.specs.Effect.{IsDatabase};
ghost use Rattle.sqlite.specs.State.{HasCleanDisk, Survives};
ghost use Rattle.sqlite.specs.Tree.{Trees};
ghost use Rattle.sqlite.specs.Held.{state};
ghost use Rattle.sqlite_rules.specs.Lists.{Has};
ghost use Rattle.fare_scheme.specs.Words.{position_of_owner};
ghost use Rattle.fare_store.specs.LedgerWords.{IsEmptyLedger, IsOfScheme};
ghost use Rattle.fare_tables.specs.Asking.{IsLive, SameRows};
ghost use Rattle.fare_tables.specs.Making.{no_schema};
ghost use Rattle.fare_tables.specs.Tabled.{IsFit, IsLeft};
ghost use Rattle.fare_opening.specs.declared.site.Site.{Site};
ghost use Rattle.fare_opening.specs.Parts.{OlderParts};
ghost use Rattle.fare_ledger.specs.declared.layout.Layout.{Layout};
ghost use Rattle.fare_ledger.specs.Layouts.{schema_in};
ghost use Rattle.fare_ledger.specs.Making.{Makes, MayGrow, KeepsOthers};
ghost use Rattle.fare_ledger.specs.Opening.{IsLedger, IsOlderLedger, IsVacant, IsBlankOrOurs, IsOpened, IsLeftEmpty, IsLeftRaised, KeepsAllButRaised, Rises, Settles, MayOpen};
ghost use Rattle.fare_ledger.specs.Older.{IsLawfulOlder, value_older};
ghost use Rattle.fare_ledger.specs.Statements.{ledger_parts};
ghost use Rattle.fare_ledger.specs.Words.{IsLawful, value_at, connected, stands};

use crate::design::LedgerDesign;
use crate::devices::devices_of;
use crate::{Layout, SqlLedger};
use fare_opening::open_tables;
use fare_record::OwnerId;
use fare_scheme::Scheme;
use fare_store::Fault;
use sqlite::{Alter, Connection};
use std::alloc::Global;
use thiserror::Error;

/// Why a database isn't opened as an owner's ledger, in the order in which this is tested.
#[derive(Clone, Copy, PartialEq, Eq, Debug, Error)]
pub enum LedgerOpenFault {
    /// The owner isn't registered.
    #[error("the owner isn't registered")]
    UnknownOwner,
    /// A name of the ledger's tables stands for something else in it: a table of another shape or format, the
    /// ledger of another owner, a table that other tables reach into, or a tap where older formats have them in a
    /// ledger of the newest. Or the ledger's tables, or those that a ledger of an older format lacks, can't be made
    /// beside those that are there.
    #[error("the database holds something else")]
    Foreign,
    /// No memory is left for it.
    #[error("out of memory")]
    Memory,
    /// The database failed or refused.
    #[error("the store failed")]
    Store,
}

// The fault of an open in which a call failed.
fn open_fault(fault: Fault) -> LedgerOpenFault
    ensures unknown { result ≢ LedgerOpenFault.UnknownOwner }
    ensures foreign { result ≢ LedgerOpenFault.Foreign }
{
    match fault {
        Fault::Memory => LedgerOpenFault::Memory,
        Fault::Store => LedgerOpenFault::Store,
    }
}

// Makes the tables where nothing has their names, and looks whose ledger it is where it is one, which it raises if it
// is of an older format; none if it isn't the owner's.
fn settle<S: Alter>(
    alloc: Global,
    conn: &mut Connection<S>,
    owner: OwnerId,
) -> Result<Option<Layout>, Fault>
    requires idle { conn.old.in_transaction ≡ false }
    ensures opens { IsLive (state S.Store conn.new) → IfOk result (λ found. IfSome found (Settles owner (state S.Store conn.old) (state S.Store conn.new))) }
    ensures ours { IsLive (state S.Store conn.new) → IfOk result (λ found. IfSome found (IsOpened owner (state S.Store conn.old))) }
    ensures refused { IsLive (state S.Store conn.new) → (state S.Store conn.old).now ≡ (state S.Store conn.old).committed → IfOk result (λ found. found ≡ None → SameRows (state S.Store conn.old) (state S.Store conn.new)) }
    ensures foreign { IfOk result (λ found. found ≡ None → (state S.Store conn.old).now.schema ≢ no_schema) }
    ensures lacks { IsLive (state S.Store conn.new) → IfOk result (λ found. found ≡ None → ¬ IsBlankOrOurs owner (state S.Store conn.old)) }
    ensures older { IsLive (state S.Store conn.new) → IfOk result (λ found. found ≡ None → ¬ IsOlderLedger owner (state S.Store conn.old)) }
    ensures vacant { IfOk result (λ found. found ≡ None → IsVacant (state S.Store conn.old) → ¬ MayGrow (state S.Store conn.old).now.schema) }
    ensures crash { Survives (state S.Store conn.old) (state S.Store conn.new) (MayOpen owner (state S.Store conn.old)) }
    ensures failed { IsLive (state S.Store conn.new) → (state S.Store conn.old).now ≡ (state S.Store conn.old).committed → OnErr result (SameRows (state S.Store conn.old) (state S.Store conn.new)) }
    ensures stays { HasCleanDisk (state S.Store conn.new) → IfOk result (λ found. IfSome found (λ _. IsTrue (state S.Store conn.new).is_open)) }
    ensures up { HasCleanDisk (state S.Store conn.new) → IsTrue (state S.Store conn.old).is_open → IfOk result (λ _. IsTrue (state S.Store conn.new).is_open) }
    ensures database { IsTrue (state S.Store conn.old).is_open → IsDatabase (state S.Store conn.old).now }
    ensures live { IsLive (state S.Store conn.new) → IsLive (state S.Store conn.old) }
    ensures idle { conn.new.in_transaction ≡ false }
{
    match open_tables::<LedgerDesign, S>(alloc, conn, owner.get())? {
        Some(opened) => Ok(Some(Layout::at(opened.into_site()))),
        None => Ok(None),
    }
}

impl<S: Alter> SqlLedger<S> {
    /// Takes a database for the ledger of an owner of a scheme, which may hold other tables too: one that holds
    /// this owner's ledger as it is, and one in which nothing has a name of the ledger's tables after it made them
    /// there, past the others, whose rows stay. A ledger of an older format gets the tables that it lacks, taps
    /// without a route go to the table that has them, each with route 0, and it gets the newest format, all in one
    /// transaction: it keeps its lists. Where it can't, the connection comes back, with its rows as before. A connection that is inside a
    /// transaction answers Store.
    ///
    /// Refused by the first case of `LedgerOpenFault` that applies.
    pub fn open(
        alloc: Global,
        scheme: &Scheme,
        owner: OwnerId,
        conn: Connection<S>,
    ) -> Result<SqlLedger<S>, (Connection<S>, LedgerOpenFault)>
        ensures known { OnOk result (IsSome (position_of_owner scheme.now owner)) }
        ensures unknown { IfErr result (λ e. (e.1 ≡ LedgerOpenFault.UnknownOwner) ↔ IsNone (position_of_owner scheme.now owner)) }
        ensures owner { IfOk result (λ l. (stands S.Store l).value.owner ≡ owner) }
        ensures scheme { IfOk result (λ l. IsOfScheme scheme.now (stands S.Store l).value) }
        ensures made { IfOk result (λ l. (stands S.Store l).live → IsVacant (state S.Store conn) → (stands S.Store l).lawful × IsEmptyLedger (stands S.Store l).value) }
        ensures placed { IfOk result (λ l. (stands S.Store l).live → IsVacant (state S.Store conn) → Makes (state S.Store conn).now.schema l.layout) }
        ensures others { IfOk result (λ l. (stands S.Store l).live → (state S.Store conn).now ≡ (state S.Store conn).committed → KeepsOthers (state S.Store conn).now (connected S.Store l).now ⊎ KeepsAllButRaised owner (state S.Store conn) (connected S.Store l)) }
        ensures kept { IfOk result (λ l. (stands S.Store l).live → (w : Layout) → IsFit (schema_in w) (IsLawful w owner scheme.now.start) (state S.Store conn) → (stands S.Store l).lawful × ((stands S.Store l).value ≡ value_at w owner scheme.now.start (stands S.Store l).value.knows (state S.Store conn).now.trees)) }
        ensures raised { IfOk result (λ l. (stands S.Store l).live → (o : OlderParts) → Has ledger_parts.older o → (v : Site) → IsFit v.schema (IsLawfulOlder o v owner scheme.now.start) (state S.Store conn) → (stands S.Store l).lawful × ((stands S.Store l).value ≡ value_older o v owner scheme.now.start (stands S.Store l).value.knows (state S.Store conn).now.trees)) }
        ensures ours { IfOk result (λ l. (stands S.Store l).live → IsVacant (state S.Store conn) ⊎ (IsLedger owner (state S.Store conn) ⊎ IsOlderLedger owner (state S.Store conn))) }
        ensures failures { IfOk result (λ l. (stands S.Store l).failures ≡ 0) }
        ensures alive { IfOk result (λ l. (stands S.Store l).clean → (stands S.Store l).live) }
        ensures again { IfOk result (λ l. (stands S.Store l).clean → (w : Layout) → IsLeft (schema_in w) (IsLawful w owner scheme.now.start) (state S.Store conn).now.trees → (stands S.Store l).lawful × ((stands S.Store l).value ≡ value_at w owner scheme.now.start (stands S.Store l).value.knows (state S.Store conn).now.trees)) }
        ensures raised_again { IfOk result (λ l. (stands S.Store l).clean → (o : OlderParts) → Has ledger_parts.older o → (v : Site) → IsLeft v.schema (IsLawfulOlder o v owner scheme.now.start) (state S.Store conn).now.trees → (stands S.Store l).lawful × ((stands S.Store l).value ≡ value_older o v owner scheme.now.start (stands S.Store l).value.knows (state S.Store conn).now.trees)) }
        ensures inside { conn.in_transaction ≡ true → IsSome (position_of_owner scheme.now owner) → result ≡ Err (conn, LedgerOpenFault.Store) }
        ensures foreign { IfErr result (λ e. e.1 ≡ LedgerOpenFault.Foreign → (state S.Store conn).now.schema ≢ no_schema) }
        ensures lacks { IfErr result (λ e. e.1 ≡ LedgerOpenFault.Foreign → IsLive (state S.Store e.0) → ¬ IsBlankOrOurs owner (state S.Store conn)) }
        ensures found { IfErr result (λ e. e.1 ≡ LedgerOpenFault.Foreign → IsLive (state S.Store e.0) → (w : Layout) → ¬ IsFit (schema_in w) (IsLawful w owner scheme.now.start) (state S.Store conn)) }
        ensures never { IfErr result (λ e. e.1 ≡ LedgerOpenFault.Foreign → HasCleanDisk (state S.Store e.0) → IsTrue (state S.Store conn).is_open → (w : Layout) → ¬ IsLeft (schema_in w) (IsLawful w owner scheme.now.start) (state S.Store conn).now.trees) }
        ensures lacks_older { IfErr result (λ e. e.1 ≡ LedgerOpenFault.Foreign → IsLive (state S.Store e.0) → ¬ IsOlderLedger owner (state S.Store conn)) }
        ensures found_older { IfErr result (λ e. e.1 ≡ LedgerOpenFault.Foreign → IsLive (state S.Store e.0) → (o : OlderParts) → Has ledger_parts.older o → (v w : Site) → Rises o (state S.Store conn).now.schema v w → ¬ IsFit v.schema (IsLawfulOlder o v owner scheme.now.start) (state S.Store conn)) }
        ensures never_older { IfErr result (λ e. e.1 ≡ LedgerOpenFault.Foreign → HasCleanDisk (state S.Store e.0) → IsTrue (state S.Store conn).is_open → (o : OlderParts) → Has ledger_parts.older o → (v w : Site) → Rises o (state S.Store conn).now.schema v w → ¬ IsLeft v.schema (IsLawfulOlder o v owner scheme.now.start) (state S.Store conn).now.trees) }
        ensures vacant { IfErr result (λ e. e.1 ≡ LedgerOpenFault.Foreign → IsVacant (state S.Store conn) → ¬ MayGrow (state S.Store conn).now.schema) }
        ensures crash { IfOk result (λ l. Survives (state S.Store conn) (connected S.Store l) (MayOpen owner (state S.Store conn))) }
        ensures crash_refused { IfErr result (λ e. Survives (state S.Store conn) (state S.Store e.0) (MayOpen owner (state S.Store conn))) }
        ensures leaves { IfErr result (λ e. HasCleanDisk (state S.Store e.0) → (trees : Trees) → (state S.Store e.0).may_leave trees → (state S.Store conn).may_leave trees ⊎ (((known : ℕ → Bool) → IsLeftEmpty owner scheme.now.start known trees) ⊎ ((known : ℕ → Bool) → IsLeftRaised owner scheme.now.start known (state S.Store conn) trees))) }
        ensures refused { IfErr result (λ e. IsLive (state S.Store e.0) → (state S.Store conn).now ≡ (state S.Store conn).committed → SameRows (state S.Store conn) (state S.Store e.0)) }
    {
        let mut conn = conn;
        if scheme.owner_position(owner).is_none() {
            return Err((conn, LedgerOpenFault::UnknownOwner));
        }
        if !conn.is_autocommit() {
            return Err((conn, LedgerOpenFault::Store));
        }
        let Ok(devices) = devices_of(alloc, scheme) else {
            return Err((conn, LedgerOpenFault::Memory));
        };
        match settle(alloc, &mut conn, owner) {
            Ok(Some(layout)) => Ok(SqlLedger {
                alloc,
                conn,
                layout,
                owner,
                start: scheme.start(),
                devices,
                failures: 0,
            }),
            Ok(None) => Err((conn, LedgerOpenFault::Foreign)),
            Err(fault) => Err((conn, open_fault(fault))),
        }
    }

    /// Gives the connection back, with the rows as they are.
    pub fn into_connection(self) -> Connection<S>
        ensures crash { Survives (connected S.Store self) (state S.Store result) (λ _. ⊥) }
        ensures idle { result.in_transaction ≡ false }
        ensures live { (stands S.Store self).live → IsLive (state S.Store result) }
        ensures kept { (stands S.Store self).lawful → IsFit (schema_in self.layout) (IsLawful self.layout (stands S.Store self).value.owner (stands S.Store self).value.start) (state S.Store result)
            × (value_at self.layout (stands S.Store self).value.owner (stands S.Store self).value.start (stands S.Store self).value.knows (state S.Store result).now.trees ≡ (stands S.Store self).value) }
    {
        self.into_parts()
    }
}
