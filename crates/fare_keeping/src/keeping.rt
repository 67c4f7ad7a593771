ghost use Rattle.std.specs.Prelude.{◌≡◌, ◌≢◌, ◌↔◌, ℕ, List, Err, true, false, IsTrue, IfErr, OnOk, OnErr};
ghost use Rattle.std.specs.List.{AllZip};
ghost use Rattle.sqlite.specs.State.{HasCleanDisk, Survives};
ghost use Rattle.sqlite.specs.Held.{state};
ghost use Rattle.fare_day.specs.Clock.{HasRule};
ghost use Rattle.fare_tables.specs.Asking.{IsLive, IsAtRest, SameRows};
ghost use Rattle.fare_opening.specs.Sites.{IsSite};
ghost use Rattle.fare_lists.specs.Lists.{told};
ghost use Rattle.fare_kept.specs.Statements.{kept_parts};
ghost use Rattle.fare_keeping.specs.Keeping.{AreEmpty, AreLawfulRows, AreWideLists, HoldLists, HoldThoseThatMayFollow, IsLawful, IsRefusal, KeepsJust, ListsMayFollow, ListsSay, MayFollow, SaysAt, SaysOf};
ghost use Rattle.fare_keeping.specs.Leaving.{HasNoRoom, LeavesIn, LeavesOthers, LeavesOthersIn, LeavesStore};

use crate::KeepFault;
use crate::telling::scheme_in;
use fare_growth::first_contradiction;
use fare_kept::{kept_lists, open_kept};
use fare_lines::ZoneText;
use fare_lists::{List, read_lists, replace_lists};
use fare_opening::{Design, Site};
use fare_register::register_of;
use fare_scheme::Scheme;
use sqlite::{Alter, Connection};
use std::alloc::Global;

// Whether no list has an entry.
pub(crate) fn are_empty(lists: &[List]) -> bool
    ensures { IsTrue result ↔ AreEmpty (told lists.now) }
{
    match lists {
        [] => true,
        [first, rest @ ..] => first.is_empty() && are_empty(rest),
    }
}

// Refuses a scheme that contradicts the one that lists tell, and lists that aren't empty and tell none.
fn check_that_follows(alloc: Global, kept: &[List], scheme: &Scheme) -> Result<(), KeepFault>
    ensures follows { OnOk result (ListsMayFollow (told kept.now) scheme.now) }
    ensures refused { IfErr result (ListsSay (told kept.now) scheme.now) }
{
    if are_empty(kept) {
        return Ok(());
    }
    let kept = scheme_in(alloc, kept)?;
    match first_contradiction(&kept, scheme) {
        Some(why) => Err(KeepFault::Changed(why)),
        None => Ok(()),
    }
}

// Puts lists in the place of those that the tables hold, if they are others.
fn put_lists<S: Alter>(
    alloc: Global,
    conn: &mut Connection<S>,
    kept: &[List],
    given: &[List],
) -> Result<(), KeepFault>
    requires idle { conn.old.in_transaction ≡ false }
    requires wide { AreWideLists (told given.now) }
    ensures put { IsLive (state S.Store conn.new) → (w : Site) → IsSite kept_parts w → IsAtRest w.schema (state S.Store conn.old) → AreLawfulRows w (state S.Store conn.old).now.trees → HoldLists w (state S.Store conn.old).now.trees (told kept.now) → OnOk result (HoldLists w (state S.Store conn.new).now.trees (told given.now) × AreLawfulRows w (state S.Store conn.new).now.trees) }
    ensures leaves { IsLive (state S.Store conn.new) → (w : Site) → IsSite kept_parts w → IsAtRest w.schema (state S.Store conn.old) → OnOk result (LeavesOthers w (state S.Store conn.old).now (state S.Store conn.new).now × ((state S.Store conn.new).now ≡ (state S.Store conn.new).committed)) }
    ensures same { IsLive (state S.Store conn.new) → (w : Site) → IsSite kept_parts w → IsAtRest w.schema (state S.Store conn.old) → OnErr result (SameRows (state S.Store conn.old) (state S.Store conn.new)) }
    ensures crash { Survives (state S.Store conn.old) (state S.Store conn.new) (λ trees. (w : Site) → IsSite kept_parts w → (state S.Store conn.old).now.schema ≡ w.schema → LeavesOthersIn w (state S.Store conn.old).now trees) }
    ensures refused { IfErr result (λ fault. IsRefusal fault → ⊥) }
    ensures live { IsLive (state S.Store conn.new) → IsLive (state S.Store conn.old) }
    ensures up { HasCleanDisk (state S.Store conn.new) → IsTrue (state S.Store conn.old).is_open → OnOk result (IsTrue (state S.Store conn.new).is_open) }
    ensures idle { conn.new.in_transaction ≡ false }
{
    if kept == given {
        return Ok(());
    }
    replace_lists(alloc, conn, kept_lists(), given)?;
    Ok(())
}

// Keeps the lists of a scheme in the tables that stand here, if they hold none yet or those of a scheme to which it adds.
fn keep_at<S: Alter>(
    alloc: Global,
    conn: &mut Connection<S>,
    site: &Site,
    scheme: &Scheme,
    given: &[List],
) -> Result<(), KeepFault>
    requires idle { conn.old.in_transaction ≡ false }
    requires site { IsSite kept_parts site.now }
    requires wide { AreWideLists (told given.now) }
    ensures put { IsLive (state S.Store conn.new) → IsAtRest site.now.schema (state S.Store conn.old) → AreLawfulRows site.now (state S.Store conn.old).now.trees → OnOk result (HoldLists site.now (state S.Store conn.new).now.trees (told given.now) × AreLawfulRows site.now (state S.Store conn.new).now.trees) }
    ensures follows { IsLive (state S.Store conn.new) → IsAtRest site.now.schema (state S.Store conn.old) → AreLawfulRows site.now (state S.Store conn.old).now.trees → OnOk result (HoldThoseThatMayFollow site.now (state S.Store conn.old).now.trees scheme.now) }
    ensures says { IsLive (state S.Store conn.new) → IsAtRest site.now.schema (state S.Store conn.old) → AreLawfulRows site.now (state S.Store conn.old).now.trees → IfErr result (SaysAt site.now (state S.Store conn.old).now.trees scheme.now) }
    ensures ours { IfErr result (λ fault. fault ≢ KeepFault.Foreign) }
    ensures leaves { IsLive (state S.Store conn.new) → IsAtRest site.now.schema (state S.Store conn.old) → OnOk result (LeavesOthers site.now (state S.Store conn.old).now (state S.Store conn.new).now × ((state S.Store conn.new).now ≡ (state S.Store conn.new).committed)) }
    ensures same { IsLive (state S.Store conn.new) → IsAtRest site.now.schema (state S.Store conn.old) → OnErr result (SameRows (state S.Store conn.old) (state S.Store conn.new)) }
    ensures crash { Survives (state S.Store conn.old) (state S.Store conn.new) (λ trees. IsAtRest site.now.schema (state S.Store conn.old) → LeavesOthersIn site.now (state S.Store conn.old).now trees) }
    ensures live { IsLive (state S.Store conn.new) → IsLive (state S.Store conn.old) }
    ensures up { HasCleanDisk (state S.Store conn.new) → IsTrue (state S.Store conn.old).is_open → OnOk result (IsTrue (state S.Store conn.new).is_open) }
    ensures idle { conn.new.in_transaction ≡ false }
{
    let Some(kept) = read_lists(alloc, conn, site, kept_lists())? else {
        return Err(KeepFault::Unreadable);
    };
    check_that_follows(alloc, kept.as_slice(), scheme)?;
    put_lists(alloc, conn, kept.as_slice(), given)
}

// Keeps a scheme as `keep_scheme` does, over a connection in no transaction.
fn keep_settled<E: Design, S: Alter>(
    alloc: Global,
    conn: &mut Connection<S>,
    scheme: &Scheme,
    zone: &ZoneText,
) -> Result<(), KeepFault>
    requires idle { conn.old.in_transaction ≡ false }
    requires settled { IsTrue (state S.Store conn.old).is_open → (state S.Store conn.old).now ≡ (state S.Store conn.old).committed }
    ensures kept { IsLive (state S.Store conn.new) → IsLawful (state S.Store conn.old).now → OnOk result (KeepsJust (state S.Store conn.new).now scheme.now zone.now × IsLawful (state S.Store conn.new).now) }
    ensures follows { IsLive (state S.Store conn.new) → IsLawful (state S.Store conn.old).now → OnOk result (MayFollow (state S.Store conn.old).now scheme.now) }
    ensures says { IsLive (state S.Store conn.new) → IsLawful (state S.Store conn.old).now → IfErr result (SaysOf (state S.Store conn.old).now scheme.now) }
    ensures refused { IsLive (state S.Store conn.new) → IsLawful (state S.Store conn.old).now → IfErr result (λ fault. IsRefusal fault → SameRows (state S.Store conn.old) (state S.Store conn.new)) }
    ensures foreign { HasCleanDisk (state S.Store conn.new) → IfErr result (λ fault. fault ≡ KeepFault.Foreign → HasNoRoom E.parts (state S.Store conn.old)) }
    ensures leaves { IsLive (state S.Store conn.new) → LeavesStore E.parts (state S.Store conn.old).now (state S.Store conn.new).now }
    ensures settled { IsLive (state S.Store conn.new) → (state S.Store conn.new).now ≡ (state S.Store conn.new).committed }
    ensures crash { Survives (state S.Store conn.old) (state S.Store conn.new) (LeavesIn E.parts (state S.Store conn.old).now) }
    ensures live { IsLive (state S.Store conn.new) → IsLive (state S.Store conn.old) }
    ensures up { HasCleanDisk (state S.Store conn.new) → IsTrue (state S.Store conn.old).is_open → OnOk result (IsTrue (state S.Store conn.new).is_open) }
    ensures idle { conn.new.in_transaction ≡ false }
{
    let given = register_of(alloc, scheme, zone)?;
    let Some(opened) = open_kept::<E, S>(alloc, conn)? else {
        return Err(KeepFault::Foreign);
    };
    let site = opened.into_site();
    keep_at(alloc, conn, &site, scheme, given.as_slice())
}

/// Keeps a scheme with the rule by which its clock goes, beside the store of a design, where nothing is kept there or the scheme
/// adds to the kept one: then just its lists are kept, in place of the old ones, in one transaction. Where it is kept already
/// nothing is written. The tables are made where there are none, behind all that is there.
///
/// `Foreign`, `Unreadable` and `Changed` as `KeepFault` says, in this order; all rows are then as before. `Memory` where there
/// was none, and `Store` where the database failed, and then at most empty tables were made. `Store`, too, of a connection
/// inside a transaction, of which nothing is done then. The store of the design stays as it is, whatever came of it, and
/// whatever a stop leaves of it.
pub fn keep_scheme<E: Design, S: Alter>(
    alloc: Global,
    conn: &mut Connection<S>,
    scheme: &Scheme,
    zone: &ZoneText,
) -> Result<(), KeepFault>
    ensures kept { IsLive (state S.Store conn.new) → IsLawful (state S.Store conn.old).now → OnOk result (KeepsJust (state S.Store conn.new).now scheme.now zone.now × IsLawful (state S.Store conn.new).now) }
    ensures follows { IsLive (state S.Store conn.new) → IsLawful (state S.Store conn.old).now → OnOk result (MayFollow (state S.Store conn.old).now scheme.now) }
    ensures says { IsLive (state S.Store conn.new) → IsLawful (state S.Store conn.old).now → IfErr result (SaysOf (state S.Store conn.old).now scheme.now) }
    ensures refused { IsLive (state S.Store conn.new) → IsLawful (state S.Store conn.old).now → IfErr result (λ fault. IsRefusal fault → SameRows (state S.Store conn.old) (state S.Store conn.new)) }
    ensures foreign { HasCleanDisk (state S.Store conn.new) → IfErr result (λ fault. fault ≡ KeepFault.Foreign → HasNoRoom E.parts (state S.Store conn.old)) }
    ensures leaves { IsLive (state S.Store conn.new) → LeavesStore E.parts (state S.Store conn.old).now (state S.Store conn.new).now }
    ensures settled { IsLive (state S.Store conn.new) → conn.old.in_transaction ≡ false → (state S.Store conn.new).now ≡ (state S.Store conn.new).committed }
    ensures crash { Survives (state S.Store conn.old) (state S.Store conn.new) (LeavesIn E.parts (state S.Store conn.old).now) }
    ensures live { IsLive (state S.Store conn.new) → IsLive (state S.Store conn.old) }
    ensures up { HasCleanDisk (state S.Store conn.new) → IsTrue (state S.Store conn.old).is_open → OnOk result (IsTrue (state S.Store conn.new).is_open) }
    ensures inside { conn.old.in_transaction ≡ true → (result ≡ Err KeepFault.Store) × (conn.new ≡ conn.old) }
    ensures idle { conn.old.in_transaction ≡ false → conn.new.in_transaction ≡ false }
{
    if conn.is_autocommit() {
        keep_settled::<E, S>(alloc, conn, scheme, zone)
    } else {
        Err(KeepFault::Store)
    }
}
