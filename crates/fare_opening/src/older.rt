ghost use Rattle.std.specs.Prelude.{◌≡◌, false, List, None, IsTrue, IfOk, IfSome, OnOk, OnErr, MatchOption};
ghost use Rattle.std.specs.List.{AllByRecursion, AllZip};
ghost use Rattle.sqlite.specs.State.{HasCleanDisk, Survives};
ghost use Rattle.sqlite.specs.Held.{state};
ghost use Rattle.sqlite_rules.specs.Lists.{Has};
ghost use Rattle.fare_tables.specs.Asking.{IsLive, IsAtRest, SameRows};
ghost use Rattle.fare_opening.specs.declared.site.Site.{Site};
ghost use Rattle.fare_opening.specs.Parts.{Parts, OlderParts, IsOlder, IsTold, parts_of};
ghost use Rattle.fare_opening.specs.Sites.{IsSite};
ghost use Rattle.fare_opening.specs.Raising.{IsAnOwners, AreRead, CanRise, Raises, RaisesTo, IsOlderStore, MayRaise, WasRaised};

use crate::ascent::ascent_in;
use crate::moving::rows_to_move;
use crate::ours::is_an_owners;
use crate::raising::raise_store;
use crate::{Design, Older, Site};
use fare_store::Fault;
use sqlite::{Alter, Connection, Row};
use std::alloc::Global;

// The rows that a raise is to move, if the row of meta is that of the format and the owner, and the unused table has none.
fn look_back<S: Alter>(
    alloc: Global,
    conn: &mut Connection<S>,
    from: &Site,
    older: &Older,
    owner: u16,
) -> Result<Option<Vec<Row>>, Fault>
    requires { (d : Parts) × (o : OlderParts) × IsOlder d o × IsTold older.now o × IsSite (parts_of o) from.now }
    ensures meta { HasCleanDisk (state S.Store conn.new) → (state S.Store conn.old).now.schema ≡ from.now.schema → IfOk result (λ found. MatchOption found
        (¬ IsAnOwners older.now owner from.now (state S.Store conn.old).now.trees)
        (λ rows. IsAnOwners older.now owner from.now (state S.Store conn.old).now.trees × ((d : Parts) (o : OlderParts) → IsOlder d o → IsTold older.now o → IsSite (parts_of o) from.now → AreRead o from.now (state S.Store conn.old).now rows.items))) }
    ensures read { HasCleanDisk (state S.Store conn.new) → (state S.Store conn.old).now.schema ≡ from.now.schema → OnOk result (SameRows (state S.Store conn.old) (state S.Store conn.new)) }
    ensures same { IsLive (state S.Store conn.new) → IsAtRest from.now.schema (state S.Store conn.old) → SameRows (state S.Store conn.old) (state S.Store conn.new) }
    ensures crash { Survives (state S.Store conn.old) (state S.Store conn.new) (λ _. ¬ ((state S.Store conn.old).now.schema ≡ from.now.schema)) }
    ensures live { IsLive (state S.Store conn.new) → IsLive (state S.Store conn.old) }
    ensures up { HasCleanDisk (state S.Store conn.new) → IsTrue (state S.Store conn.old).is_open → OnOk result (IsTrue (state S.Store conn.new).is_open) }
    ensures mode { conn.old.in_transaction ≡ false → conn.new.in_transaction ≡ false }
{
    if !is_an_owners(
        conn,
        from,
        older.meta.read,
        older.format,
        older.unused,
        owner,
    )? {
        return Ok(None);
    }
    Ok(Some(rows_to_move(alloc, conn, from, &older.moving)?))
}

// Raises the owner's store of an older format, if the database holds it; where the tables stand then.
fn raise_from<D: Design, S: Alter>(
    alloc: Global,
    conn: &mut Connection<S>,
    older: &Older,
    owner: u16,
) -> Result<Option<Site>, Fault>
    requires idle { conn.old.in_transaction ≡ false }
    requires told { (o : OlderParts) × IsOlder D.parts o × IsTold older.now o }
    ensures site { IfOk result (λ found. IfSome found (IsSite D.parts)) }
    ensures raised { IsLive (state S.Store conn.new) → IfOk result (λ found. IfSome found (λ w. (o : OlderParts) → IsOlder D.parts o → IsTold older.now o → Raises D.parts o owner (state S.Store conn.old).now (state S.Store conn.new).now w × ((state S.Store conn.new).now ≡ (state S.Store conn.new).committed))) }
    ensures refused { HasCleanDisk (state S.Store conn.new) → IfOk result (λ found. found ≡ None → SameRows (state S.Store conn.old) (state S.Store conn.new)) }
    ensures failed { IsLive (state S.Store conn.new) → (state S.Store conn.old).now ≡ (state S.Store conn.old).committed → (o : OlderParts) → IsOlder D.parts o → IsTold older.now o → OnErr result (SameRows (state S.Store conn.old) (state S.Store conn.new)) }
    ensures lacks { HasCleanDisk (state S.Store conn.new) → IfOk result (λ found. found ≡ None → (o : OlderParts) → IsOlder D.parts o → IsTold older.now o → (v w : Site) → ¬ CanRise D.parts o owner (state S.Store conn.old).now v w) }
    ensures crash { Survives (state S.Store conn.old) (state S.Store conn.new) (λ trees. (o : OlderParts) → IsOlder D.parts o → IsTold older.now o → RaisesTo D.parts o owner (state S.Store conn.old).now trees) }
    ensures live { IsLive (state S.Store conn.new) → IsLive (state S.Store conn.old) }
    ensures stays { HasCleanDisk (state S.Store conn.new) → IfOk result (λ found. IfSome found (λ _. IsTrue (state S.Store conn.new).is_open)) }
    ensures up { HasCleanDisk (state S.Store conn.new) → IsTrue (state S.Store conn.old).is_open → IfOk result (λ _. IsTrue (state S.Store conn.new).is_open) }
    ensures idle { conn.new.in_transaction ≡ false }
{
    D::sound();
    let Some(ascent) = ascent_in::<D>(alloc, conn.schema(), older)? else {
        return Ok(None);
    };
    let Some(rows) = look_back(alloc, conn, &ascent.from, older, owner)? else {
        return Ok(None);
    };
    raise_store::<D, S>(alloc, conn, older, rows.as_slice())?;
    Ok(Some(ascent.to))
}

// Raises the owner's store of one of these formats, if the database holds it; where the tables stand then.
fn raise_any<D: Design, S: Alter>(
    alloc: Global,
    conn: &mut Connection<S>,
    olders: &[Older],
    owner: u16,
) -> Result<Option<Site>, Fault>
    requires idle { conn.old.in_transaction ≡ false }
    requires told { (os : List OlderParts) × AllByRecursion (IsOlder D.parts) os × AllZip IsTold olders.now os }
    ensures site { IfOk result (λ found. IfSome found (IsSite D.parts)) }
    ensures raised { IsLive (state S.Store conn.new) → IfOk result (λ found. IfSome found (λ w. (os : List OlderParts) → AllByRecursion (IsOlder D.parts) os → AllZip IsTold olders.now os → (o : OlderParts) × Has os o × Raises D.parts o owner (state S.Store conn.old).now (state S.Store conn.new).now w × ((state S.Store conn.new).now ≡ (state S.Store conn.new).committed))) }
    ensures refused { HasCleanDisk (state S.Store conn.new) → IfOk result (λ found. found ≡ None → SameRows (state S.Store conn.old) (state S.Store conn.new)) }
    ensures failed { IsLive (state S.Store conn.new) → (state S.Store conn.old).now ≡ (state S.Store conn.old).committed → (os : List OlderParts) → AllByRecursion (IsOlder D.parts) os → AllZip IsTold olders.now os → OnErr result (SameRows (state S.Store conn.old) (state S.Store conn.new)) }
    ensures lacks { HasCleanDisk (state S.Store conn.new) → IfOk result (λ found. found ≡ None → (os : List OlderParts) → AllByRecursion (IsOlder D.parts) os → AllZip IsTold olders.now os → (o : OlderParts) → Has os o → (v w : Site) → ¬ CanRise D.parts o owner (state S.Store conn.old).now v w) }
    ensures crash { Survives (state S.Store conn.old) (state S.Store conn.new) (λ trees. (os : List OlderParts) → AllByRecursion (IsOlder D.parts) os → AllZip IsTold olders.now os → (o : OlderParts) × Has os o × RaisesTo D.parts o owner (state S.Store conn.old).now trees) }
    ensures live { IsLive (state S.Store conn.new) → IsLive (state S.Store conn.old) }
    ensures stays { HasCleanDisk (state S.Store conn.new) → IfOk result (λ found. IfSome found (λ _. IsTrue (state S.Store conn.new).is_open)) }
    ensures up { HasCleanDisk (state S.Store conn.new) → IsTrue (state S.Store conn.old).is_open → IfOk result (λ _. IsTrue (state S.Store conn.new).is_open) }
    ensures idle { conn.new.in_transaction ≡ false }
{
    match olders {
        [] => Ok(None),
        [first, rest @ ..] => match raise_from::<D, S>(alloc, conn, first, owner)? {
            Some(site) => Ok(Some(site)),
            None => raise_any::<D, S>(alloc, conn, rest, owner),
        },
    }
}

// Raises the owner's store of an older format, if the database holds one; where the tables stand then.
pub(crate) fn raise<D: Design, S: Alter>(
    alloc: Global,
    conn: &mut Connection<S>,
    owner: u16,
) -> Result<Option<Site>, Fault>
    requires { conn.old.in_transaction ≡ false }
    ensures site { IfOk result (λ found. IfSome found (IsSite D.parts)) }
    ensures raised { IsLive (state S.Store conn.new) → IfOk result (λ found. IfSome found (WasRaised D.parts owner (state S.Store conn.old) (state S.Store conn.new))) }
    ensures refused { HasCleanDisk (state S.Store conn.new) → IfOk result (λ found. found ≡ None → SameRows (state S.Store conn.old) (state S.Store conn.new)) }
    ensures failed { IsLive (state S.Store conn.new) → (state S.Store conn.old).now ≡ (state S.Store conn.old).committed → OnErr result (SameRows (state S.Store conn.old) (state S.Store conn.new)) }
    ensures older { HasCleanDisk (state S.Store conn.new) → IfOk result (λ found. found ≡ None → ¬ IsOlderStore D.parts owner (state S.Store conn.old)) }
    ensures crash { Survives (state S.Store conn.old) (state S.Store conn.new) (MayRaise D.parts owner (state S.Store conn.old)) }
    ensures live { IsLive (state S.Store conn.new) → IsLive (state S.Store conn.old) }
    ensures stays { HasCleanDisk (state S.Store conn.new) → IfOk result (λ found. IfSome found (λ _. IsTrue (state S.Store conn.new).is_open)) }
    ensures up { HasCleanDisk (state S.Store conn.new) → IsTrue (state S.Store conn.old).is_open → IfOk result (λ _. IsTrue (state S.Store conn.new).is_open) }
    ensures idle { conn.new.in_transaction ≡ false }
{
    D::sound();
    raise_any::<D, S>(alloc, conn, D::older(), owner)
}
