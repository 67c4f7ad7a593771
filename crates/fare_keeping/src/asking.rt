ghost use Rattle.std.specs.Prelude.{◌≡◌, ◌≢◌, ℕ, List, Ok, Some, map, false, IsTrue, IfOk, IfErr, IfSome, OnOk, OnErr, MatchOption};
ghost use Rattle.sqlite.specs.State.{HasCleanDisk, Survives};
ghost use Rattle.sqlite.specs.Held.{state};
ghost use Rattle.fare_day.specs.Clock.{HasRule};
ghost use Rattle.fare_tables.specs.Asking.{IsLive, IsAtRest, SameRows};
ghost use Rattle.fare_opening.specs.Sites.{IsSite};
ghost use Rattle.fare_scheme.specs.Facts.{IsScheme};
ghost use Rattle.fare_scheme.specs.Values.{SchemeValue};
ghost use Rattle.fare_lines.specs.ZoneWord.{IsZoneText};
ghost use Rattle.fare_kept.specs.Statements.{kept_parts};
ghost use Rattle.fare_keeping.specs.Keeping.{AreLawfulRows, HoldLines, HoldLists, IsLawful, KeepsLines, KeepsNone, SaysNothing, SaysNothingAt, no_lists};

use crate::KeepFault;
use crate::keeping::are_empty;
use crate::telling::lines_in;
use fare_kept::{find_kept, kept_lists};
use fare_lines::Line;
use fare_lists::read_lists;
use fare_opening::Site;
use sqlite::{Alter, Connection};
use std::alloc::Global;

// The lines that are kept in the tables which stand here, if they have rows.
fn lines_at<S: Alter>(
    alloc: Global,
    conn: &mut Connection<S>,
    site: &Site,
) -> Result<Option<Vec<Line>>, KeepFault>
    requires idle { conn.old.in_transaction ≡ false }
    requires site { IsSite kept_parts site.now }
    ensures lines { HasCleanDisk (state S.Store conn.new) → (state S.Store conn.old).now.schema ≡ site.now.schema → AreLawfulRows site.now (state S.Store conn.old).now.trees → IfOk result (λ found. MatchOption found (HoldLists site.now (state S.Store conn.old).now.trees no_lists) (λ lines. HoldLines site.now (state S.Store conn.old).now.trees lines.items)) }
    ensures says { HasCleanDisk (state S.Store conn.new) → (state S.Store conn.old).now.schema ≡ site.now.schema → AreLawfulRows site.now (state S.Store conn.old).now.trees → IfErr result (SaysNothingAt site.now (state S.Store conn.old).now.trees) }
    ensures read { HasCleanDisk (state S.Store conn.new) → (state S.Store conn.old).now.schema ≡ site.now.schema → OnOk result (SameRows (state S.Store conn.old) (state S.Store conn.new)) }
    ensures same { IsLive (state S.Store conn.new) → IsAtRest site.now.schema (state S.Store conn.old) → SameRows (state S.Store conn.old) (state S.Store conn.new) }
    ensures crash { Survives (state S.Store conn.old) (state S.Store conn.new) (λ _. ¬ ((state S.Store conn.old).now.schema ≡ site.now.schema)) }
    ensures live { IsLive (state S.Store conn.new) → IsLive (state S.Store conn.old) }
    ensures up { HasCleanDisk (state S.Store conn.new) → IsTrue (state S.Store conn.old).is_open → OnOk result (IsTrue (state S.Store conn.new).is_open) }
    ensures idle { conn.new.in_transaction ≡ false }
{
    let Some(kept) = read_lists(alloc, conn, site, kept_lists())? else {
        return Err(KeepFault::Unreadable);
    };
    if are_empty(kept.as_slice()) {
        return Ok(None);
    }
    match lines_in(alloc, kept.as_slice())? {
        Some(lines) => Ok(Some(lines)),
        None => Err(KeepFault::Unreadable),
    }
}

/// The lines that are kept in a database, if something is. Where a scheme is kept they are those that `fare_setup::setup_lines`
/// gives of it; that the lines make a scheme isn't asked. Nothing is made.
///
/// `Unreadable` where what is kept is not of lines; `Memory` where there was none, and `Store` where the database failed.
pub fn kept_lines<S: Alter>(
    alloc: Global,
    conn: &mut Connection<S>,
) -> Result<Option<Vec<Line>>, KeepFault>
    requires idle { conn.old.in_transaction ≡ false }
    ensures lines { HasCleanDisk (state S.Store conn.new) → IsLawful (state S.Store conn.old).now → IfOk result (λ found. MatchOption found (KeepsNone (state S.Store conn.old).now) (λ lines. KeepsLines (state S.Store conn.old).now lines.items)) }
    ensures says { HasCleanDisk (state S.Store conn.new) → IsLawful (state S.Store conn.old).now → IfErr result (SaysNothing (state S.Store conn.old).now) }
    ensures read { HasCleanDisk (state S.Store conn.new) → OnOk result (SameRows (state S.Store conn.old) (state S.Store conn.new)) }
    ensures same { IsLive (state S.Store conn.new) → (state S.Store conn.old).now ≡ (state S.Store conn.old).committed → SameRows (state S.Store conn.old) (state S.Store conn.new) }
    ensures crash { Survives (state S.Store conn.old) (state S.Store conn.new) (λ _. ⊥) }
    ensures live { IsLive (state S.Store conn.new) → IsLive (state S.Store conn.old) }
    ensures up { HasCleanDisk (state S.Store conn.new) → IsTrue (state S.Store conn.old).is_open → OnOk result (IsTrue (state S.Store conn.new).is_open) }
    ensures idle { conn.new.in_transaction ≡ false }
{
    match find_kept(alloc, conn)? {
        Some(site) => lines_at(alloc, conn, &site),
        None => Ok(None),
    }
}
