ghost use Rattle.std.specs.Prelude.{◌≡◌, false, IsTrue, IfOk, IfSome, OnOk, MatchOption};
ghost use Rattle.sqlite.specs.State.{HasCleanDisk, Survives};
ghost use Rattle.sqlite.specs.Held.{state};
ghost use Rattle.fare_tables.specs.Asking.{IsLive, SameRows};
ghost use Rattle.fare_opening.specs.Opening.{IsStore, StandsAt};
ghost use Rattle.fare_opening.specs.Sites.{IsSite};

use crate::looking::site_in;
use crate::ours::has_store;
use crate::{Design, Site};
use fare_store::Fault;
use sqlite::{Alter, Connection};
use std::alloc::Global;

/// Where the store of an owner, or of none by 0, stands in a database, if one of the newest format does. Nothing is made or
/// raised.
pub fn find_tables<D: Design, S: Alter>(
    alloc: Global,
    conn: &mut Connection<S>,
    owner: u16,
) -> Result<Option<Site>, Fault>
    requires idle { conn.old.in_transaction ≡ false }
    ensures site { IfOk result (λ found. IfSome found (λ site. IsSite D.parts site × ((state S.Store conn.old).now.schema ≡ site.schema))) }
    ensures found { HasCleanDisk (state S.Store conn.new) → IfOk result (λ found. MatchOption found (¬ IsStore D.parts owner (state S.Store conn.old)) (StandsAt D.parts owner (state S.Store conn.old))) }
    ensures read { HasCleanDisk (state S.Store conn.new) → OnOk result (SameRows (state S.Store conn.old) (state S.Store conn.new)) }
    ensures same { IsLive (state S.Store conn.new) → (state S.Store conn.old).now ≡ (state S.Store conn.old).committed → SameRows (state S.Store conn.old) (state S.Store conn.new) }
    ensures crash { Survives (state S.Store conn.old) (state S.Store conn.new) (λ _. ⊥) }
    ensures live { IsLive (state S.Store conn.new) → IsLive (state S.Store conn.old) }
    ensures up { HasCleanDisk (state S.Store conn.new) → IsTrue (state S.Store conn.old).is_open → OnOk result (IsTrue (state S.Store conn.new).is_open) }
    ensures idle { conn.new.in_transaction ≡ false }
{
    D::sound();
    let Some(site) = site_in::<D>(alloc, conn.schema())? else {
        return Ok(None);
    };
    if has_store::<D, S>(conn, &site, owner)? {
        Ok(Some(site))
    } else {
        Ok(None)
    }
}
