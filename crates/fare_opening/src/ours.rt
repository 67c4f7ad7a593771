ghost use Rattle.std.specs.Prelude.{◌≡◌, ◌↔◌, [], ◌∷◌, false, option_map, IsTrue, IfOk, OnOk};
ghost use Rattle.sqlite.specs.State.{HasCleanDisk, Survives};
ghost use Rattle.sqlite.specs.Held.{state};
ghost use Rattle.fare_tables.specs.Asking.{IsLive, IsAtRest, SameRows};
ghost use Rattle.fare_opening.specs.MetaRow.{IsMeta};
ghost use Rattle.fare_opening.specs.Moving.{CountsNone};
ghost use Rattle.fare_opening.specs.Numbers.{Meta};
ghost use Rattle.fare_opening.specs.Parts.{Parts, IsDesign};
ghost use Rattle.fare_opening.specs.Sites.{IsSite, HasNoRow, IsEmptied, rows_at};

use crate::meta::has_meta;
use crate::{Design, Site, ask_rows};
use fare_layout::TableNumber;
use fare_store::Fault;
use sqlite::types::ValueRef;
use sqlite::{Alter, Connection, Row};

// Whether a count is 0.
fn count_none(rows: &[Row]) -> bool
    ensures { IsTrue result ↔ CountsNone rows.now }
{
    match rows {
        [first, ..] => matches!(first.get_ref(0), Ok(ValueRef::Int(0))),
        [] => false,
    }
}

// Whether a table that a format doesn't use, if there is one, has no row.
fn is_emptied<S: Alter>(
    conn: &mut Connection<S>,
    site: &Site,
    unused: Option<(TableNumber, &str)>,
) -> Result<bool, Fault>
    requires { (p : Parts) × IsDesign p × IsSite p site.now × (option_map (λ u. (u.0, u.1.now)) unused ≡ p.unused) }
    ensures emptied { HasCleanDisk (state S.Store conn.new) → (state S.Store conn.old).now.schema ≡ site.now.schema → IfOk result (λ right. IsTrue right ↔ HasNoRow (option_map (λ u. (u.0, u.1.now)) unused.entry) site.now (state S.Store conn.old).now.trees) }
    ensures read { HasCleanDisk (state S.Store conn.new) → (state S.Store conn.old).now.schema ≡ site.now.schema → OnOk result (SameRows (state S.Store conn.old) (state S.Store conn.new)) }
    ensures same { IsLive (state S.Store conn.new) → IsAtRest site.now.schema (state S.Store conn.old) → SameRows (state S.Store conn.old) (state S.Store conn.new) }
    ensures crash { Survives (state S.Store conn.old) (state S.Store conn.new) (λ _. ¬ ((state S.Store conn.old).now.schema ≡ site.now.schema)) }
    ensures live { IsLive (state S.Store conn.new) → IsLive (state S.Store conn.old) }
    ensures up { HasCleanDisk (state S.Store conn.new) → IsTrue (state S.Store conn.old).is_open → OnOk result (IsTrue (state S.Store conn.new).is_open) }
    ensures mode { conn.old.in_transaction ≡ false → conn.new.in_transaction ≡ false }
{
    match unused {
        Some((_, text)) => {
            let rows = ask_rows(conn, &site.schema, text, &[])?;
            Ok(count_none(rows.as_slice()))
        }
        None => Ok(true),
    }
}

// Whether the tables that stand here are the owner's, of a format: `meta` holds its one row, and the unused table has
// none.
pub(crate) fn is_an_owners<S: Alter>(
    conn: &mut Connection<S>,
    site: &Site,
    read: &str,
    format: u8,
    unused: Option<(TableNumber, &str)>,
    owner: u16,
) -> Result<bool, Fault>
    requires { (p : Parts) × IsDesign p × IsSite p site.now × (option_map (λ u. (u.0, u.1.now)) unused ≡ p.unused) × (read.now ≡ p.meta.read) }
    ensures ours { HasCleanDisk (state S.Store conn.new) → (state S.Store conn.old).now.schema ≡ site.now.schema → IfOk result (λ right. IsTrue right ↔ (IsMeta format owner (rows_at site.now Meta (state S.Store conn.old).now.trees) × HasNoRow (option_map (λ u. (u.0, u.1.now)) unused.entry) site.now (state S.Store conn.old).now.trees)) }
    ensures read { HasCleanDisk (state S.Store conn.new) → (state S.Store conn.old).now.schema ≡ site.now.schema → OnOk result (SameRows (state S.Store conn.old) (state S.Store conn.new)) }
    ensures same { IsLive (state S.Store conn.new) → IsAtRest site.now.schema (state S.Store conn.old) → SameRows (state S.Store conn.old) (state S.Store conn.new) }
    ensures crash { Survives (state S.Store conn.old) (state S.Store conn.new) (λ _. ¬ ((state S.Store conn.old).now.schema ≡ site.now.schema)) }
    ensures live { IsLive (state S.Store conn.new) → IsLive (state S.Store conn.old) }
    ensures stays { HasCleanDisk (state S.Store conn.new) → OnOk result (IsTrue (state S.Store conn.new).is_open) }
    ensures mode { conn.old.in_transaction ≡ false → conn.new.in_transaction ≡ false }
{
    if !has_meta(conn, site, read, format, owner)? {
        return Ok(false);
    }
    is_emptied(conn, site, unused)
}

// Whether they are the owner's store, of the newest format.
pub(crate) fn has_store<D: Design, S: Alter>(
    conn: &mut Connection<S>,
    site: &Site,
    owner: u16,
) -> Result<bool, Fault>
    requires { IsSite D.parts site.now }
    ensures ours { HasCleanDisk (state S.Store conn.new) → (state S.Store conn.old).now.schema ≡ site.now.schema → IfOk result (λ right. IsTrue right ↔ (IsMeta D.parts.format owner (rows_at site.now Meta (state S.Store conn.old).now.trees) × IsEmptied D.parts site.now (state S.Store conn.old).now.trees)) }
    ensures read { HasCleanDisk (state S.Store conn.new) → (state S.Store conn.old).now.schema ≡ site.now.schema → OnOk result (SameRows (state S.Store conn.old) (state S.Store conn.new)) }
    ensures same { IsLive (state S.Store conn.new) → IsAtRest site.now.schema (state S.Store conn.old) → SameRows (state S.Store conn.old) (state S.Store conn.new) }
    ensures crash { Survives (state S.Store conn.old) (state S.Store conn.new) (λ _. ¬ ((state S.Store conn.old).now.schema ≡ site.now.schema)) }
    ensures live { IsLive (state S.Store conn.new) → IsLive (state S.Store conn.old) }
    ensures stays { HasCleanDisk (state S.Store conn.new) → OnOk result (IsTrue (state S.Store conn.new).is_open) }
    ensures mode { conn.old.in_transaction ≡ false → conn.new.in_transaction ≡ false }
{
    D::sound();
    is_an_owners(conn, site, D::meta().read, D::format(), D::unused(), owner)
}
