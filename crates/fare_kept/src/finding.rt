ghost use Rattle.std.specs.Prelude.{◌≡◌, false, IsTrue, IfOk, IfSome, OnOk, MatchOption};
ghost use Rattle.sqlite.specs.State.{HasCleanDisk, Survives};
ghost use Rattle.sqlite.specs.Held.{state};
ghost use Rattle.fare_tables.specs.Asking.{IsLive, SameRows};
ghost use Rattle.fare_opening.specs.Opening.{IsStore, StandsAt};
ghost use Rattle.fare_opening.specs.Sites.{IsSite};
ghost use Rattle.fare_kept.specs.Statements.{kept_parts};

use crate::KeptDesign;
use fare_opening::{Site, find_tables};
use fare_store::Fault;
use sqlite::{Alter, Connection};
use std::alloc::Global;

/// Where the tables of a kept scheme stand in a database, if they do. Nothing is made.
pub fn find_kept<S: Alter>(alloc: Global, conn: &mut Connection<S>) -> Result<Option<Site>, Fault>
    requires idle { conn.old.in_transaction ≡ false }
    ensures site { IfOk result (λ found. IfSome found (λ site. IsSite kept_parts site × ((state S.Store conn.old).now.schema ≡ site.schema))) }
    ensures found { HasCleanDisk (state S.Store conn.new) → IfOk result (λ found. MatchOption found (¬ IsStore kept_parts 0 (state S.Store conn.old)) (StandsAt kept_parts 0 (state S.Store conn.old))) }
    ensures read { HasCleanDisk (state S.Store conn.new) → OnOk result (SameRows (state S.Store conn.old) (state S.Store conn.new)) }
    ensures same { IsLive (state S.Store conn.new) → (state S.Store conn.old).now ≡ (state S.Store conn.old).committed → SameRows (state S.Store conn.old) (state S.Store conn.new) }
    ensures crash { Survives (state S.Store conn.old) (state S.Store conn.new) (λ _. ⊥) }
    ensures live { IsLive (state S.Store conn.new) → IsLive (state S.Store conn.old) }
    ensures up { HasCleanDisk (state S.Store conn.new) → IsTrue (state S.Store conn.old).is_open → OnOk result (IsTrue (state S.Store conn.new).is_open) }
    ensures idle { conn.new.in_transaction ≡ false }
{
    find_tables::<KeptDesign, S>(alloc, conn, 0)
}
