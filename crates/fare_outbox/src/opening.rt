ghost use Rattle.std.specs.Prelude.{◌≡◌, ◌≢◌, ◌⊎◌, false, true, None, Err, IsTrue, IfOk, IfErr, IfSome, OnOk, OnErr};
ghost use Rattle.sqlite.specs.Effect.{IsDatabase};
ghost use Rattle.sqlite.specs.State.{HasCleanDisk, Survives};
ghost use Rattle.sqlite.specs.Tree.{Trees};
ghost use Rattle.sqlite.specs.Held.{state};
ghost use Rattle.fare_tables.specs.Asking.{IsLive, IsUp, IsAtRest, SameRows};
ghost use Rattle.fare_tables.specs.Making.{no_schema};
ghost use Rattle.fare_outbox_rows.specs.declared.layout.Layout.{Layout};
ghost use Rattle.fare_outbox_rows.specs.Layouts.{schema_in};
ghost use Rattle.fare_store.specs.OutboxWords.{IsEmptyOutbox};
ghost use Rattle.fare_tables.specs.Tabled.{IsFit, IsLeft};
ghost use Rattle.fare_outbox_rows.specs.Held.{IsReady};
ghost use Rattle.fare_outbox_rows.specs.Making.{Makes, MayGrow, KeepsOthers};
ghost use Rattle.fare_outbox.specs.Opening.{IsOutbox, IsFirstOutbox, IsVacant, IsBlankOrOurs, IsCounted, IsOpened, IsLeftEmpty, IsLeftRaised, IsRaisedFirst, KeepsAllButRaised, Rises, Settles, MayOpen};
ghost use Rattle.fare_opening.specs.declared.site.Site.{Site};
ghost use Rattle.fare_outbox.specs.First.{IsLawfulFirst, value_first};
ghost use Rattle.fare_outbox.specs.Words.{IsLawful, value_at, connected, stands};

use crate::SqlOutbox;
use crate::design::OutboxDesign;
use crate::reading::{count_rows, count_statements};
use fare_opening::open_tables;
use fare_outbox_rows::Layout;
use fare_store::Fault;
use fare_tables::{OpenFault, open_fault};
use sqlite::{Alter, Connection};
use std::alloc::Global;

// How many taps and how many statements the tables of an outbox hold.
fn counts<S: Alter>(conn: &mut Connection<S>, layout: &Layout) -> Result<(u64, u64), Fault>
    requires up { IsUp (state S.Store conn.old) }
    requires settled { IsLive (state S.Store conn.old) → (state S.Store conn.old).now ≡ (state S.Store conn.old).committed }
    ensures counted { IsLive (state S.Store conn.new) → IsReady layout.now (state S.Store conn.old) → IfOk result (λ n. IsCounted layout.now (state S.Store conn.old).now.trees n.0 n.1) }
    ensures same { IsLive (state S.Store conn.new) → IsAtRest (schema_in layout.now) (state S.Store conn.old) → SameRows (state S.Store conn.old) (state S.Store conn.new) }
    ensures crash { Survives (state S.Store conn.old) (state S.Store conn.new) (λ _. ¬ ((state S.Store conn.old).now.schema ≡ schema_in layout.now)) }
    ensures live { IsLive (state S.Store conn.new) → IsLive (state S.Store conn.old) }
    ensures stays { HasCleanDisk (state S.Store conn.new) → OnOk result (IsTrue (state S.Store conn.new).is_open) }
    ensures mode { conn.old.in_transaction ≡ false → conn.new.in_transaction ≡ false }
{
    let rows = count_rows(conn, layout)?;
    let statements = count_statements(conn, layout)?;
    Ok((rows, statements))
}

// Makes the tables where nothing has their names, raises an outbox of the first format, and counts the rows of an
// outbox; none if it is none of these.
fn settle<S: Alter>(
    alloc: Global,
    conn: &mut Connection<S>,
) -> Result<Option<(Layout, u64, u64)>, Fault>
    requires idle { conn.old.in_transaction ≡ false }
    requires settled { IsTrue (state S.Store conn.old).is_open → (state S.Store conn.old).now ≡ (state S.Store conn.old).committed }
    ensures opens { IsLive (state S.Store conn.new) → IfOk result (λ found. IfSome found (λ n. Settles (state S.Store conn.old) (state S.Store conn.new) n.0 n.1 n.2)) }
    ensures ours { IsLive (state S.Store conn.new) → IfOk result (λ found. IfSome found (λ n. IsOpened (state S.Store conn.old) n.0)) }
    ensures refused { IsLive (state S.Store conn.new) → (state S.Store conn.old).now ≡ (state S.Store conn.old).committed → IfOk result (λ found. found ≡ None → SameRows (state S.Store conn.old) (state S.Store conn.new)) }
    ensures foreign { IfOk result (λ found. found ≡ None → (state S.Store conn.old).now.schema ≢ no_schema) }
    ensures lacks { IsLive (state S.Store conn.new) → IfOk result (λ found. found ≡ None → ¬ IsBlankOrOurs (state S.Store conn.old)) }
    ensures first { IsLive (state S.Store conn.new) → IfOk result (λ found. found ≡ None → ¬ IsFirstOutbox (state S.Store conn.old)) }
    ensures vacant { IfOk result (λ found. found ≡ None → IsVacant (state S.Store conn.old) → ¬ MayGrow (state S.Store conn.old).now.schema) }
    ensures crash { Survives (state S.Store conn.old) (state S.Store conn.new) (MayOpen (state S.Store conn.old)) }
    ensures failed { IsLive (state S.Store conn.new) → (state S.Store conn.old).now ≡ (state S.Store conn.old).committed → OnErr result (SameRows (state S.Store conn.old) (state S.Store conn.new) ⊎ IsRaisedFirst (state S.Store conn.old) (state S.Store conn.new)) }
    ensures stays { HasCleanDisk (state S.Store conn.new) → IfOk result (λ found. IfSome found (λ _. IsTrue (state S.Store conn.new).is_open)) }
    ensures up { HasCleanDisk (state S.Store conn.new) → IsTrue (state S.Store conn.old).is_open → IfOk result (λ _. IsTrue (state S.Store conn.new).is_open) }
    ensures database { IsTrue (state S.Store conn.old).is_open → IsDatabase (state S.Store conn.old).now }
    ensures live { IsLive (state S.Store conn.new) → IsLive (state S.Store conn.old) }
    ensures idle { conn.new.in_transaction ≡ false }
{
    let Some(opened) = open_tables::<OutboxDesign, S>(alloc, conn, 0)? else {
        return Ok(None);
    };
    let is_made = opened.is_made();
    let layout = Layout::at(opened.into_site());
    if is_made {
        return Ok(Some((layout, 0, 0)));
    }
    let (rows, statements) = counts(conn, &layout)?;
    Ok(Some((layout, rows, statements)))
}

impl<S: Alter> SqlOutbox<S> {
    /// Takes a database for the outbox, which may hold other tables too: one that holds an outbox as it is, and
    /// one in which nothing has a name of the outbox's tables after it made them there, past the others, whose rows
    /// stay. An outbox of the first format, whose taps have no route, gets the table of those that have, with its taps,
    /// each of route 0, and the newest format, in one transaction. Where it can't, the connection comes back, with its
    /// rows as before, but for an outbox of the first format that was raised and whose rows couldn't be counted then:
    /// it stays raised. A connection that is inside a transaction answers Store.
    pub fn open(
        alloc: Global,
        conn: Connection<S>,
    ) -> Result<SqlOutbox<S>, (Connection<S>, OpenFault)>
        ensures made { IfOk result (λ o. (stands S.Store o).live → IsVacant (state S.Store conn) → (stands S.Store o).lawful × IsEmptyOutbox (stands S.Store o).value) }
        ensures placed { IfOk result (λ o. (stands S.Store o).live → IsVacant (state S.Store conn) → Makes (state S.Store conn).now.schema o.layout) }
        ensures others { IfOk result (λ o. (stands S.Store o).live → (state S.Store conn).now ≡ (state S.Store conn).committed → KeepsOthers (state S.Store conn).now (connected S.Store o).now ⊎ KeepsAllButRaised (state S.Store conn) (connected S.Store o)) }
        ensures kept { IfOk result (λ o. (stands S.Store o).live → (w : Layout) → IsFit (schema_in w) (IsLawful w) (state S.Store conn) → (stands S.Store o).lawful × ((stands S.Store o).value ≡ value_at w (state S.Store conn).now.trees)) }
        ensures raised { IfOk result (λ o. (stands S.Store o).live → (v : Site) → IsFit v.schema (IsLawfulFirst v) (state S.Store conn) → (stands S.Store o).lawful × ((stands S.Store o).value ≡ value_first v (state S.Store conn).now.trees)) }
        ensures ours { IfOk result (λ o. (stands S.Store o).live → IsVacant (state S.Store conn) ⊎ (IsOutbox (state S.Store conn) ⊎ IsFirstOutbox (state S.Store conn))) }
        ensures failures { IfOk result (λ o. (stands S.Store o).failures ≡ 0) }
        ensures alive { IfOk result (λ o. (stands S.Store o).clean → (stands S.Store o).live) }
        ensures again { IfOk result (λ o. (stands S.Store o).clean → (w : Layout) → IsLeft (schema_in w) (IsLawful w) (state S.Store conn).now.trees → (stands S.Store o).lawful × ((stands S.Store o).value ≡ value_at w (state S.Store conn).now.trees)) }
        ensures raised_again { IfOk result (λ o. (stands S.Store o).clean → (v : Site) → IsLeft v.schema (IsLawfulFirst v) (state S.Store conn).now.trees → (stands S.Store o).lawful × ((stands S.Store o).value ≡ value_first v (state S.Store conn).now.trees)) }
        ensures inside { conn.in_transaction ≡ true → result ≡ Err (conn, OpenFault.Store) }
        ensures foreign { IfErr result (λ e. e.1 ≡ OpenFault.Foreign → (state S.Store conn).now.schema ≢ no_schema) }
        ensures lacks { IfErr result (λ e. e.1 ≡ OpenFault.Foreign → IsLive (state S.Store e.0) → ¬ IsBlankOrOurs (state S.Store conn)) }
        ensures found { IfErr result (λ e. e.1 ≡ OpenFault.Foreign → IsLive (state S.Store e.0) → (w : Layout) → ¬ IsFit (schema_in w) (IsLawful w) (state S.Store conn)) }
        ensures never { IfErr result (λ e. e.1 ≡ OpenFault.Foreign → HasCleanDisk (state S.Store e.0) → IsTrue (state S.Store conn).is_open → (w : Layout) → ¬ IsLeft (schema_in w) (IsLawful w) (state S.Store conn).now.trees) }
        ensures lacks_first { IfErr result (λ e. e.1 ≡ OpenFault.Foreign → IsLive (state S.Store e.0) → ¬ IsFirstOutbox (state S.Store conn)) }
        ensures found_first { IfErr result (λ e. e.1 ≡ OpenFault.Foreign → IsLive (state S.Store e.0) → (v w : Site) → Rises (state S.Store conn).now.schema v w → ¬ IsFit v.schema (IsLawfulFirst v) (state S.Store conn)) }
        ensures never_first { IfErr result (λ e. e.1 ≡ OpenFault.Foreign → HasCleanDisk (state S.Store e.0) → IsTrue (state S.Store conn).is_open → (v w : Site) → Rises (state S.Store conn).now.schema v w → ¬ IsLeft v.schema (IsLawfulFirst v) (state S.Store conn).now.trees) }
        ensures vacant { IfErr result (λ e. e.1 ≡ OpenFault.Foreign → IsVacant (state S.Store conn) → ¬ MayGrow (state S.Store conn).now.schema) }
        ensures crash { IfOk result (λ o. Survives (state S.Store conn) (connected S.Store o) (MayOpen (state S.Store conn))) }
        ensures crash_refused { IfErr result (λ e. Survives (state S.Store conn) (state S.Store e.0) (MayOpen (state S.Store conn))) }
        ensures leaves { IfErr result (λ e. HasCleanDisk (state S.Store e.0) → (trees : Trees) → (state S.Store e.0).may_leave trees → (state S.Store conn).may_leave trees ⊎ (IsLeftEmpty trees ⊎ IsLeftRaised (state S.Store conn) trees)) }
        ensures refused { IfErr result (λ e. IsLive (state S.Store e.0) → (state S.Store conn).now ≡ (state S.Store conn).committed → SameRows (state S.Store conn) (state S.Store e.0) ⊎ IsRaisedFirst (state S.Store conn) (state S.Store e.0)) }
        ensures refused_foreign { IfErr result (λ e. e.1 ≡ OpenFault.Foreign → IsLive (state S.Store e.0) → (state S.Store conn).now ≡ (state S.Store conn).committed → SameRows (state S.Store conn) (state S.Store e.0)) }
    {
        let mut conn = conn;
        if !conn.is_autocommit() {
            return Err((conn, OpenFault::Store));
        }
        match settle(alloc, &mut conn) {
            Ok(Some((layout, rows, statements))) => Ok(SqlOutbox {
                conn,
                layout,
                rows,
                statements,
                failures: 0,
            }),
            Ok(None) => Err((conn, OpenFault::Foreign)),
            Err(fault) => Err((conn, open_fault(fault))),
        }
    }

    /// Gives the connection back, with the rows as they are.
    pub fn into_connection(self) -> Connection<S>
        ensures crash { Survives (connected S.Store self) (state S.Store result) (λ _. ⊥) }
        ensures idle { result.in_transaction ≡ false }
        ensures live { (stands S.Store self).live → IsLive (state S.Store result) }
        ensures kept { (stands S.Store self).lawful → IsFit (schema_in self.layout) (IsLawful self.layout) (state S.Store result) × (value_at self.layout (state S.Store result).now.trees ≡ (stands S.Store self).value) }
    {
        self.into_parts()
    }
}
