ghost use Rattle.std.specs.Prelude.{◌≡◌, ◌≢◌, false, None, IsTrue, IfOk, IfSome, OnErr};
ghost use Rattle.sqlite.specs.Effect.{IsDatabase};
ghost use Rattle.sqlite.specs.State.{HasCleanDisk, Survives};
ghost use Rattle.sqlite.specs.Held.{state};
ghost use Rattle.fare_tables.specs.Asking.{IsLive, SameRows};
ghost use Rattle.fare_opening.specs.declared.site.Site.{Site};
ghost use Rattle.fare_opening.specs.Beside.{IsBeside, IsPlacedBeside, MayMakeBeside, OpensBeside};
ghost use Rattle.fare_opening.specs.Making.{Makes};
ghost use Rattle.fare_opening.specs.Opening.{IsVacant, StandsAt, place_in};
ghost use Rattle.fare_opening.specs.Sites.{IsSite};
ghost use Rattle.fare_kept.specs.Statements.{kept_parts};

use crate::KeptDesign;
use fare_opening::{Design, Opened, open_beside};
use fare_store::Fault;
use sqlite::{Alter, Connection};
use std::alloc::Global;

/// Opens the tables of a kept scheme in a database, beside a store of another design, as `open_beside` does: those that stand
/// there, or where nothing has their names new ones behind all that is there, with no row but that of `kept`. None if it is
/// neither, or if the store would not stay where it stands.
pub fn open_kept<E: Design, S: Alter>(
    alloc: Global,
    conn: &mut Connection<S>,
) -> Result<Option<Opened>, Fault>
    requires idle { conn.old.in_transaction ≡ false }
    ensures site { IfOk result (λ found. IfSome found (λ opened. IsSite kept_parts (place_in opened))) }
    ensures placed { IfOk result (λ found. IfSome found (IsPlacedBeside kept_parts E.parts (state S.Store conn.old).now.schema)) }
    ensures opens { IsLive (state S.Store conn.new) → IfOk result (λ found. IfSome found (OpensBeside kept_parts 0 (state S.Store conn.old) (state S.Store conn.new))) }
    ensures refused { IsLive (state S.Store conn.new) → (state S.Store conn.old).now ≡ (state S.Store conn.old).committed → IfOk result (λ found. found ≡ None → SameRows (state S.Store conn.old) (state S.Store conn.new)) }
    ensures failed { IsLive (state S.Store conn.new) → (state S.Store conn.old).now ≡ (state S.Store conn.old).committed → OnErr result (SameRows (state S.Store conn.old) (state S.Store conn.new)) }
    ensures lacks { HasCleanDisk (state S.Store conn.new) → IfOk result (λ found. found ≡ None → (w : Site) → StandsAt kept_parts 0 (state S.Store conn.old) w → ¬ IsBeside E.parts (state S.Store conn.old).now.schema w) }
    ensures crowded { IfOk result (λ found. found ≡ None → IsVacant kept_parts (state S.Store conn.old) → (w : Site) → Makes kept_parts (state S.Store conn.old).now.schema w → ¬ IsBeside E.parts (state S.Store conn.old).now.schema w) }
    ensures crash { Survives (state S.Store conn.old) (state S.Store conn.new) (MayMakeBeside kept_parts E.parts 0 (state S.Store conn.old)) }
    ensures live { IsLive (state S.Store conn.new) → IsLive (state S.Store conn.old) }
    ensures stays { HasCleanDisk (state S.Store conn.new) → IfOk result (λ found. IfSome found (λ _. IsTrue (state S.Store conn.new).is_open)) }
    ensures up { HasCleanDisk (state S.Store conn.new) → IsTrue (state S.Store conn.old).is_open → IfOk result (λ _. IsTrue (state S.Store conn.new).is_open) }
    ensures database { IsTrue (state S.Store conn.old).is_open → IsDatabase (state S.Store conn.old).now }
    ensures idle { conn.new.in_transaction ≡ false }
{
    open_beside::<KeptDesign, E, S>(alloc, conn, 0)
}
