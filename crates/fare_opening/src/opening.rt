ghost use Rattle.std.specs.Prelude.{◌≡◌, ◌≢◌, false, None, IsTrue, IfOk, IfSome, OnOk, OnErr};
ghost use Rattle.sqlite.specs.Effect.{IsDatabase};
ghost use Rattle.sqlite.specs.State.{HasCleanDisk, Survives};
ghost use Rattle.sqlite.specs.Held.{state};
ghost use Rattle.fare_tables.specs.Asking.{IsLive, SameRows};
ghost use Rattle.fare_tables.specs.Making.{no_schema};
ghost use Rattle.fare_opening.specs.Sites.{IsSite};
ghost use Rattle.fare_opening.specs.Making.{MayGrow};
ghost use Rattle.fare_opening.specs.Opening.{IsBlankOrStore, IsVacant, MayOpen, Sees, IsPlaced, Opens, place_in, was_made};
ghost use Rattle.fare_opening.specs.Raising.{IsOlderStore, MayRaise};

use crate::looking::{Seen, look_at};
use crate::making::make_store;
use crate::older::raise;
use crate::ours::has_store;
use crate::{Design, Site};
use fare_store::Fault;
use sqlite::{Alter, Connection};
use std::alloc::Global;

/// Where a store's tables stand in the database that was opened.
#[derive(Drop)]
pub enum Opened {
    /// They stood there, and stay as they are.
    Kept(Site),
    /// They were made there, with no row but that of `meta`.
    Made(Site),
    /// Those of an older format stood there, and the others were made, with no row but those that moved to one of
    /// them; `meta` has the newest format.
    Raised(Site),
}

impl Opened {
    /// Whether they were made, so that there is no row but that of `meta`.
    pub fn is_made(&self) -> bool
        ensures { result ≡ was_made self.now }
    {
        match self {
            Opened::Made(_) => true,
            Opened::Kept(_) | Opened::Raised(_) => false,
        }
    }

    /// Where they stand.
    pub fn into_site(self) -> Site
        ensures { result ≡ place_in self }
    {
        match self {
            Opened::Kept(site) => site,
            Opened::Made(site) => site,
            Opened::Raised(site) => site,
        }
    }
}

// The tables that stand here, if their meta is right and the unused one has no row, or else a store of an older format.
fn keep_or_raise<D: Design, S: Alter>(
    alloc: Global,
    conn: &mut Connection<S>,
    site: Site,
    owner: u16,
) -> Result<Option<Opened>, Fault>
    requires site { IsSite D.parts site }
    requires found { (state S.Store conn.old).now.schema ≡ site.schema }
    requires idle { conn.old.in_transaction ≡ false }
    ensures placed { IfOk result (λ found. IfSome found (IsPlaced D.parts (state S.Store conn.old).now.schema)) }
    ensures opens { IsLive (state S.Store conn.new) → IfOk result (λ found. IfSome found (Opens D.parts owner (state S.Store conn.old) (state S.Store conn.new))) }
    ensures refused { IsLive (state S.Store conn.new) → (state S.Store conn.old).now ≡ (state S.Store conn.old).committed → IfOk result (λ found. found ≡ None → SameRows (state S.Store conn.old) (state S.Store conn.new)) }
    ensures failed { IsLive (state S.Store conn.new) → (state S.Store conn.old).now ≡ (state S.Store conn.old).committed → OnErr result (SameRows (state S.Store conn.old) (state S.Store conn.new)) }
    ensures lacks { IsLive (state S.Store conn.new) → IfOk result (λ found. found ≡ None → ¬ IsBlankOrStore D.parts owner (state S.Store conn.old)) }
    ensures older { IsLive (state S.Store conn.new) → IfOk result (λ found. found ≡ None → ¬ IsOlderStore D.parts owner (state S.Store conn.old)) }
    ensures crash { Survives (state S.Store conn.old) (state S.Store conn.new) (MayRaise D.parts owner (state S.Store conn.old)) }
    ensures live { IsLive (state S.Store conn.new) → IsLive (state S.Store conn.old) }
    ensures stays { HasCleanDisk (state S.Store conn.new) → IfOk result (λ found. IfSome found (λ _. IsTrue (state S.Store conn.new).is_open)) }
    ensures up { HasCleanDisk (state S.Store conn.new) → IsTrue (state S.Store conn.old).is_open → IfOk result (λ _. IsTrue (state S.Store conn.new).is_open) }
    ensures idle { conn.new.in_transaction ≡ false }
{
    D::sound();
    if has_store::<D, S>(conn, &site, owner)? {
        return Ok(Some(Opened::Kept(site)));
    }
    match raise::<D, S>(alloc, conn, owner)? {
        Some(site) => Ok(Some(Opened::Raised(site))),
        None => Ok(None),
    }
}

// Makes the tables where nothing has their names, and looks whose they are where they stand; none where it is
// neither, and no store of an older format.
fn settle<D: Design, S: Alter>(
    alloc: Global,
    conn: &mut Connection<S>,
    seen: Seen,
    owner: u16,
) -> Result<Option<Opened>, Fault>
    requires idle { conn.old.in_transaction ≡ false }
    requires seen { Sees D.parts (state S.Store conn.old).now.schema seen }
    ensures placed { IfOk result (λ found. IfSome found (IsPlaced D.parts (state S.Store conn.old).now.schema)) }
    ensures opens { IsLive (state S.Store conn.new) → IfOk result (λ found. IfSome found (Opens D.parts owner (state S.Store conn.old) (state S.Store conn.new))) }
    ensures refused { IsLive (state S.Store conn.new) → (state S.Store conn.old).now ≡ (state S.Store conn.old).committed → IfOk result (λ found. found ≡ None → SameRows (state S.Store conn.old) (state S.Store conn.new)) }
    ensures failed { IsLive (state S.Store conn.new) → (state S.Store conn.old).now ≡ (state S.Store conn.old).committed → OnErr result (SameRows (state S.Store conn.old) (state S.Store conn.new)) }
    ensures foreign { IfOk result (λ found. found ≡ None → (state S.Store conn.old).now.schema ≢ no_schema) }
    ensures lacks { IsLive (state S.Store conn.new) → IfOk result (λ found. found ≡ None → ¬ IsBlankOrStore D.parts owner (state S.Store conn.old)) }
    ensures older { IsLive (state S.Store conn.new) → IfOk result (λ found. found ≡ None → ¬ IsOlderStore D.parts owner (state S.Store conn.old)) }
    ensures vacant { IfOk result (λ found. found ≡ None → IsVacant D.parts (state S.Store conn.old) → ¬ MayGrow D.parts (state S.Store conn.old).now.schema) }
    ensures crash { Survives (state S.Store conn.old) (state S.Store conn.new) (MayOpen D.parts owner (state S.Store conn.old)) }
    ensures live { IsLive (state S.Store conn.new) → IsLive (state S.Store conn.old) }
    ensures stays { HasCleanDisk (state S.Store conn.new) → IfOk result (λ found. IfSome found (λ _. IsTrue (state S.Store conn.new).is_open)) }
    ensures up { HasCleanDisk (state S.Store conn.new) → IsTrue (state S.Store conn.old).is_open → IfOk result (λ _. IsTrue (state S.Store conn.new).is_open) }
    ensures idle { conn.new.in_transaction ≡ false }
{
    D::sound();
    match seen {
        Seen::Ours(site) => keep_or_raise::<D, S>(alloc, conn, site, owner),
        Seen::Vacant(site) => {
            make_store::<D, S>(conn, owner)?;
            Ok(Some(Opened::Made(site)))
        }
        Seen::Other => match raise::<D, S>(alloc, conn, owner)? {
            Some(site) => Ok(Some(Opened::Raised(site))),
            None => Ok(None),
        },
    }
}

/// Finds the store of an owner, or of none by 0, in a database, which may hold other tables too, or makes it where
/// nothing has a name of its tables, past what is there; a store of an older format is raised to the newest, in one
/// transaction. None where the database holds something else. The connection is in no transaction.
pub fn open_tables<D: Design, S: Alter>(
    alloc: Global,
    conn: &mut Connection<S>,
    owner: u16,
) -> Result<Option<Opened>, Fault>
    requires idle { conn.old.in_transaction ≡ false }
    ensures placed { IfOk result (λ found. IfSome found (IsPlaced D.parts (state S.Store conn.old).now.schema)) }
    ensures opens { IsLive (state S.Store conn.new) → IfOk result (λ found. IfSome found (Opens D.parts owner (state S.Store conn.old) (state S.Store conn.new))) }
    ensures refused { IsLive (state S.Store conn.new) → (state S.Store conn.old).now ≡ (state S.Store conn.old).committed → IfOk result (λ found. found ≡ None → SameRows (state S.Store conn.old) (state S.Store conn.new)) }
    ensures failed { IsLive (state S.Store conn.new) → (state S.Store conn.old).now ≡ (state S.Store conn.old).committed → OnErr result (SameRows (state S.Store conn.old) (state S.Store conn.new)) }
    ensures foreign { IfOk result (λ found. found ≡ None → (state S.Store conn.old).now.schema ≢ no_schema) }
    ensures lacks { IsLive (state S.Store conn.new) → IfOk result (λ found. found ≡ None → ¬ IsBlankOrStore D.parts owner (state S.Store conn.old)) }
    ensures older { IsLive (state S.Store conn.new) → IfOk result (λ found. found ≡ None → ¬ IsOlderStore D.parts owner (state S.Store conn.old)) }
    ensures vacant { IfOk result (λ found. found ≡ None → IsVacant D.parts (state S.Store conn.old) → ¬ MayGrow D.parts (state S.Store conn.old).now.schema) }
    ensures crash { Survives (state S.Store conn.old) (state S.Store conn.new) (MayOpen D.parts owner (state S.Store conn.old)) }
    ensures live { IsLive (state S.Store conn.new) → IsLive (state S.Store conn.old) }
    ensures stays { HasCleanDisk (state S.Store conn.new) → IfOk result (λ found. IfSome found (λ _. IsTrue (state S.Store conn.new).is_open)) }
    ensures up { HasCleanDisk (state S.Store conn.new) → IsTrue (state S.Store conn.old).is_open → IfOk result (λ _. IsTrue (state S.Store conn.new).is_open) }
    ensures database { IsTrue (state S.Store conn.old).is_open → IsDatabase (state S.Store conn.old).now }
    ensures idle { conn.new.in_transaction ≡ false }
{
    let seen = look_at::<D>(conn.schema(), alloc)?;
    settle::<D, S>(alloc, conn, seen, owner)
}
