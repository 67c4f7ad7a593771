ghost use Rattle.std.specs.Prelude.{◌≡◌, ◌↔◌, ◌≢◌, ℕ, List, None, false, IsTrue, IfOk, IfSome, OnErr, map};
ghost use Rattle.std.specs.List.{AllByRecursion, AllZip};
ghost use Rattle.sqlite.specs.Effect.{IsDatabase};
ghost use Rattle.sqlite.specs.State.{HasCleanDisk, Survives};
ghost use Rattle.sqlite.specs.Held.{state};
ghost use Rattle.fare_tables.specs.Asking.{IsLive, SameRows};
ghost use Rattle.fare_layout.specs.Growing.{HasNone};
ghost use Rattle.fare_opening.specs.declared.site.Site.{Site};
ghost use Rattle.fare_opening.specs.Beside.{AreAllApart, AreAllBeside, AreBeside, HasGrownTo, IsBeside, IsPlacedBeside, MayMakeBeside, OpensBeside, StandApart};
ghost use Rattle.fare_opening.specs.Making.{Makes};
ghost use Rattle.fare_opening.specs.Opening.{IsVacant, StandsAt};
ghost use Rattle.fare_opening.specs.Parts.{Parts, OlderParts, IsDesign, IsTold, parts_of};
ghost use Rattle.fare_opening.specs.Sites.{IsSite};

use crate::looking::{Seen, find_site, look_at};
use crate::making::make_store;
use crate::ours::has_store;
use crate::{Design, Older, Opened, Site};
use fare_layout::{Place, TableNumber, has_none, is_apart};
use fare_store::Fault;
use sqlite::{Alter, Connection};
use sqlite_schema::schema::Schema;
use std::alloc::Global;

// Whether none of the places has a tree of the others.
fn are_apart(places: &[Place], others: &[Place]) -> bool
    ensures { IsTrue result ↔ AreAllApart places.now others.now }
{
    match places {
        [] => true,
        [first, rest @ ..] => is_apart(first.tree, others) && are_apart(rest, others),
    }
}

// Whether tables, those that these texts make, stand with these statements where they stood in a schema, if they did, once it
// is that of these tables, and apart from these.
fn stand_apart(
    alloc: Global,
    schema: &Schema,
    site: &Site,
    tables: &[(&str, &str)],
    texts: &[(TableNumber, &str)],
) -> Result<bool, Fault>
    requires { HasGrownTo schema.now site.now.schema }
    ensures { IfOk result (λ right. (p : Parts) → IsDesign p → map (λ t. (t.0.now, t.1.now)) tables.now ≡ p.tables → map (λ t. (t.0, t.1.now)) texts.now ≡ p.texts → IsTrue right ↔ StandApart p schema.now site.now) }
{
    match find_site(alloc, &site.schema, tables, texts)? {
        Some(other) => Ok(are_apart(other.places.all.as_slice(), site.places.all.as_slice())),
        None => Ok(find_site(alloc, schema, tables, texts)?.is_none()),
    }
}

// Whether tables, those that these texts make, are with these statements beside the tables that stand, or would be made,
// here in a schema.
fn are_beside(
    alloc: Global,
    schema: &Schema,
    site: &Site,
    tables: &[(&str, &str)],
    texts: &[(TableNumber, &str)],
) -> Result<bool, Fault>
    requires { HasGrownTo schema.now site.now.schema }
    ensures { IfOk result (λ right. (p : Parts) → IsDesign p → map (λ t. (t.0.now, t.1.now)) tables.now ≡ p.tables → map (λ t. (t.0, t.1.now)) texts.now ≡ p.texts → IsTrue right ↔ AreBeside p schema.now site.now) }
{
    if has_none(schema, tables) && !has_none(&site.schema, tables) {
        return Ok(false);
    }
    stand_apart(alloc, schema, site, tables, texts)
}

// Whether it is so of all these formats.
fn olders_are_beside(
    alloc: Global,
    schema: &Schema,
    site: &Site,
    olders: &[Older],
) -> Result<bool, Fault>
    requires { HasGrownTo schema.now site.now.schema }
    ensures { IfOk result (λ right. (os : List OlderParts) → AllByRecursion (λ (o : OlderParts). IsDesign (parts_of o)) os → AllZip IsTold olders.now os → IsTrue right ↔ AreAllBeside os schema.now site.now) }
{
    match olders {
        [] => Ok(true),
        [first, rest @ ..] => {
            if are_beside(alloc, schema, site, first.tables, first.texts)? {
                olders_are_beside(alloc, schema, site, rest)
            } else {
                Ok(false)
            }
        }
    }
}

// Whether a store, of its newest format or of an older one, is beside the tables that stand, or would be made, here in a
// schema.
fn is_beside<E: Design>(alloc: Global, schema: &Schema, site: &Site) -> Result<bool, Fault>
    requires { HasGrownTo schema.now site.now.schema }
    ensures { IfOk result (λ right. IsTrue right ↔ IsBeside E.parts schema.now site.now) }
{
    E::sound();
    if are_beside(alloc, schema, site, E::tables(), E::texts())? {
        olders_are_beside(alloc, schema, site, E::older())
    } else {
        Ok(false)
    }
}

// The store whose tables stand here, if it is the owner's, and the other is beside it.
fn keep_beside<D: Design, E: Design, S: Alter>(
    alloc: Global,
    conn: &mut Connection<S>,
    site: Site,
    owner: u16,
) -> Result<Option<Opened>, Fault>
    requires idle { conn.old.in_transaction ≡ false }
    requires site { IsSite D.parts site × ((state S.Store conn.old).now.schema ≡ site.schema) }
    ensures placed { IfOk result (λ found. IfSome found (IsPlacedBeside D.parts E.parts (state S.Store conn.old).now.schema)) }
    ensures opens { IsLive (state S.Store conn.new) → IfOk result (λ found. IfSome found (OpensBeside D.parts owner (state S.Store conn.old) (state S.Store conn.new))) }
    ensures refused { IsLive (state S.Store conn.new) → (state S.Store conn.old).now ≡ (state S.Store conn.old).committed → IfOk result (λ found. found ≡ None → SameRows (state S.Store conn.old) (state S.Store conn.new)) }
    ensures failed { IsLive (state S.Store conn.new) → (state S.Store conn.old).now ≡ (state S.Store conn.old).committed → OnErr result (SameRows (state S.Store conn.old) (state S.Store conn.new)) }
    ensures lacks { HasCleanDisk (state S.Store conn.new) → IfOk result (λ found. found ≡ None → (w : Site) → StandsAt D.parts owner (state S.Store conn.old) w → ¬ IsBeside E.parts (state S.Store conn.old).now.schema w) }
    ensures crowded { IfOk result (λ found. found ≡ None → IsVacant D.parts (state S.Store conn.old) → (w : Site) → Makes D.parts (state S.Store conn.old).now.schema w → ¬ IsBeside E.parts (state S.Store conn.old).now.schema w) }
    ensures crash { Survives (state S.Store conn.old) (state S.Store conn.new) (MayMakeBeside D.parts E.parts owner (state S.Store conn.old)) }
    ensures live { IsLive (state S.Store conn.new) → IsLive (state S.Store conn.old) }
    ensures stays { HasCleanDisk (state S.Store conn.new) → IfOk result (λ found. IfSome found (λ _. IsTrue (state S.Store conn.new).is_open)) }
    ensures up { HasCleanDisk (state S.Store conn.new) → IsTrue (state S.Store conn.old).is_open → IfOk result (λ _. IsTrue (state S.Store conn.new).is_open) }
    ensures idle { conn.new.in_transaction ≡ false }
{
    D::sound();
    if !is_beside::<E>(alloc, conn.schema(), &site)? {
        return Ok(None);
    }
    if has_store::<D, S>(conn, &site, owner)? {
        Ok(Some(Opened::Kept(site)))
    } else {
        Ok(None)
    }
}

// Makes the tables that would stand here, if the other store is beside them.
fn make_beside<D: Design, E: Design, S: Alter>(
    alloc: Global,
    conn: &mut Connection<S>,
    site: Site,
    owner: u16,
) -> Result<Option<Opened>, Fault>
    requires idle { conn.old.in_transaction ≡ false }
    requires vacant { HasNone D.parts.tables (state S.Store conn.old).now.schema × Makes D.parts (state S.Store conn.old).now.schema site }
    ensures placed { IfOk result (λ found. IfSome found (IsPlacedBeside D.parts E.parts (state S.Store conn.old).now.schema)) }
    ensures opens { IsLive (state S.Store conn.new) → IfOk result (λ found. IfSome found (OpensBeside D.parts owner (state S.Store conn.old) (state S.Store conn.new))) }
    ensures refused { IsLive (state S.Store conn.new) → (state S.Store conn.old).now ≡ (state S.Store conn.old).committed → IfOk result (λ found. found ≡ None → SameRows (state S.Store conn.old) (state S.Store conn.new)) }
    ensures failed { IsLive (state S.Store conn.new) → (state S.Store conn.old).now ≡ (state S.Store conn.old).committed → OnErr result (SameRows (state S.Store conn.old) (state S.Store conn.new)) }
    ensures lacks { HasCleanDisk (state S.Store conn.new) → IfOk result (λ found. found ≡ None → (w : Site) → StandsAt D.parts owner (state S.Store conn.old) w → ¬ IsBeside E.parts (state S.Store conn.old).now.schema w) }
    ensures crowded { IfOk result (λ found. found ≡ None → IsVacant D.parts (state S.Store conn.old) → (w : Site) → Makes D.parts (state S.Store conn.old).now.schema w → ¬ IsBeside E.parts (state S.Store conn.old).now.schema w) }
    ensures crash { Survives (state S.Store conn.old) (state S.Store conn.new) (MayMakeBeside D.parts E.parts owner (state S.Store conn.old)) }
    ensures live { IsLive (state S.Store conn.new) → IsLive (state S.Store conn.old) }
    ensures stays { HasCleanDisk (state S.Store conn.new) → IfOk result (λ found. IfSome found (λ _. IsTrue (state S.Store conn.new).is_open)) }
    ensures up { HasCleanDisk (state S.Store conn.new) → IsTrue (state S.Store conn.old).is_open → IfOk result (λ _. IsTrue (state S.Store conn.new).is_open) }
    ensures idle { conn.new.in_transaction ≡ false }
{
    D::sound();
    if is_beside::<E>(alloc, conn.schema(), &site)? {
        make_store::<D, S>(conn, owner)?;
        Ok(Some(Opened::Made(site)))
    } else {
        Ok(None)
    }
}

/// Finds the store of an owner, or of none by 0, in a database that may hold another store, or makes it where nothing has a
/// name of its tables, past what is there, in one transaction. The other store, of its newest format or of an older one, stays
/// where it stands, its statements mean there what they meant, and no table is one of both: where that would not be so, and
/// where the database holds something else, the answer is none. A store of an older format is none, too: it isn't raised.
/// The connection is in no transaction.
pub fn open_beside<D: Design, E: Design, S: Alter>(
    alloc: Global,
    conn: &mut Connection<S>,
    owner: u16,
) -> Result<Option<Opened>, Fault>
    requires idle { conn.old.in_transaction ≡ false }
    ensures placed { IfOk result (λ found. IfSome found (IsPlacedBeside D.parts E.parts (state S.Store conn.old).now.schema)) }
    ensures opens { IsLive (state S.Store conn.new) → IfOk result (λ found. IfSome found (OpensBeside D.parts owner (state S.Store conn.old) (state S.Store conn.new))) }
    ensures refused { IsLive (state S.Store conn.new) → (state S.Store conn.old).now ≡ (state S.Store conn.old).committed → IfOk result (λ found. found ≡ None → SameRows (state S.Store conn.old) (state S.Store conn.new)) }
    ensures failed { IsLive (state S.Store conn.new) → (state S.Store conn.old).now ≡ (state S.Store conn.old).committed → OnErr result (SameRows (state S.Store conn.old) (state S.Store conn.new)) }
    ensures lacks { HasCleanDisk (state S.Store conn.new) → IfOk result (λ found. found ≡ None → (w : Site) → StandsAt D.parts owner (state S.Store conn.old) w → ¬ IsBeside E.parts (state S.Store conn.old).now.schema w) }
    ensures crowded { IfOk result (λ found. found ≡ None → IsVacant D.parts (state S.Store conn.old) → (w : Site) → Makes D.parts (state S.Store conn.old).now.schema w → ¬ IsBeside E.parts (state S.Store conn.old).now.schema w) }
    ensures crash { Survives (state S.Store conn.old) (state S.Store conn.new) (MayMakeBeside D.parts E.parts owner (state S.Store conn.old)) }
    ensures live { IsLive (state S.Store conn.new) → IsLive (state S.Store conn.old) }
    ensures stays { HasCleanDisk (state S.Store conn.new) → IfOk result (λ found. IfSome found (λ _. IsTrue (state S.Store conn.new).is_open)) }
    ensures up { HasCleanDisk (state S.Store conn.new) → IsTrue (state S.Store conn.old).is_open → IfOk result (λ _. IsTrue (state S.Store conn.new).is_open) }
    ensures database { IsTrue (state S.Store conn.old).is_open → IsDatabase (state S.Store conn.old).now }
    ensures idle { conn.new.in_transaction ≡ false }
{
    D::sound();
    match look_at::<D>(conn.schema(), alloc)? {
        Seen::Ours(site) => keep_beside::<D, E, S>(alloc, conn, site, owner),
        Seen::Vacant(site) => make_beside::<D, E, S>(alloc, conn, site, owner),
        Seen::Other => Ok(None),
    }
}
