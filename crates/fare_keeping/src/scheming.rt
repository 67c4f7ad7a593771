ghost use Rattle.std.specs.Prelude.{◌≡◌, false, IsTrue, IfOk, IfErr, IfSome, OnOk, MatchOption};
ghost use Rattle.sqlite.specs.State.{HasCleanDisk, Survives};
ghost use Rattle.sqlite.specs.Held.{state};
ghost use Rattle.fare_day.specs.Clock.{HasRule};
ghost use Rattle.fare_tables.specs.Asking.{IsLive, SameRows};
ghost use Rattle.fare_keeping.specs.Keeping.{IsLawful, Keeps, KeepsNone, SaysNoScheme};

use crate::KeepFault;
use crate::asking::kept_lines;
use fare_trace::{ZonedScheme, zoned_scheme_of};
use sqlite::{Alter, Connection};
use std::alloc::Global;

/// The scheme that is kept in a database, with the rule by which its clock goes, if something is kept. Nothing is made.
///
/// `Unreadable` where what is kept is not of lines, or these make no scheme; `Memory` where there was none, and `Store` where
/// the database failed.
pub fn kept_scheme<S: Alter>(
    alloc: Global,
    conn: &mut Connection<S>,
) -> Result<Option<ZonedScheme>, KeepFault>
    requires idle { conn.old.in_transaction ≡ false }
    ensures kept { HasCleanDisk (state S.Store conn.new) → IsLawful (state S.Store conn.old).now → IfOk result (λ found. MatchOption found (KeepsNone (state S.Store conn.old).now) (λ kept. Keeps (state S.Store conn.old).now kept.scheme)) }
    ensures rule { IfOk result (λ found. IfSome found (λ kept. HasRule kept.scheme.zone kept.zone)) }
    ensures says { HasCleanDisk (state S.Store conn.new) → IsLawful (state S.Store conn.old).now → IfErr result (SaysNoScheme (state S.Store conn.old).now) }
    ensures read { HasCleanDisk (state S.Store conn.new) → OnOk result (SameRows (state S.Store conn.old) (state S.Store conn.new)) }
    ensures same { IsLive (state S.Store conn.new) → (state S.Store conn.old).now ≡ (state S.Store conn.old).committed → SameRows (state S.Store conn.old) (state S.Store conn.new) }
    ensures crash { Survives (state S.Store conn.old) (state S.Store conn.new) (λ _. ⊥) }
    ensures live { IsLive (state S.Store conn.new) → IsLive (state S.Store conn.old) }
    ensures up { HasCleanDisk (state S.Store conn.new) → IsTrue (state S.Store conn.old).is_open → OnOk result (IsTrue (state S.Store conn.new).is_open) }
    ensures idle { conn.new.in_transaction ≡ false }
{
    match kept_lines(alloc, conn)? {
        Some(lines) => Ok(Some(zoned_scheme_of(alloc, &lines)?)),
        None => Ok(None),
    }
}
