ghost use Rattle.std.specs.Prelude.{◌≡◌, ◌↔◌, false, IsTrue, IfOk, OnOk};
ghost use Rattle.sqlite.specs.State.{HasCleanDisk, Survives};
ghost use Rattle.sqlite.specs.Held.{state};
ghost use Rattle.fare_tables.specs.Asking.{IsLive, IsAtRest, SameRows};
ghost use Rattle.fare_opening.specs.Numbers.{Meta};
ghost use Rattle.fare_opening.specs.Parts.{Parts, IsDesign};
ghost use Rattle.fare_opening.specs.Sites.{IsSite, rows_at};
ghost use Rattle.fare_opening.specs.MetaRow.{IsMetaRow, AreMeta, IsMeta};

use crate::{Site, ask_rows};
use fare_store::Fault;
use sqlite::types::ValueRef;
use sqlite::{Alter, Connection, Row};

// Whether the row is that of a format and an owner.
fn is_meta(row: &Row, format: u8, owner: u16) -> bool
    ensures { IsTrue result ↔ IsMetaRow format owner row.now }
{
    match (row.get_ref(0), row.get_ref(1), row.get_ref(2)) {
        (Ok(ValueRef::Int(_)), Ok(ValueRef::Int(number)), Ok(ValueRef::Int(id))) => {
            number == i64::from(format) && id == i64::from(owner)
        }
        _ => false,
    }
}

// Whether the rows are that one.
fn are_meta(rows: &[Row], format: u8, owner: u16) -> bool
    ensures { IsTrue result ↔ AreMeta format owner rows.now }
{
    match rows {
        [first, rest @ ..] => rest.is_empty() && is_meta(first, format, owner),
        [] => false,
    }
}

// Whether `meta`, which this text reads, holds its one row, of this format.
pub(crate) fn has_meta<S: Alter>(
    conn: &mut Connection<S>,
    site: &Site,
    read: &str,
    format: u8,
    owner: u16,
) -> Result<bool, Fault>
    requires { (p : Parts) × IsDesign p × IsSite p site.now × (read.now ≡ p.meta.read) }
    ensures meta { HasCleanDisk (state S.Store conn.new) → (state S.Store conn.old).now.schema ≡ site.now.schema → IfOk result (λ right. IsTrue right ↔ IsMeta format owner (rows_at site.now Meta (state S.Store conn.old).now.trees)) }
    ensures read { HasCleanDisk (state S.Store conn.new) → (state S.Store conn.old).now.schema ≡ site.now.schema → OnOk result (SameRows (state S.Store conn.old) (state S.Store conn.new)) }
    ensures same { IsLive (state S.Store conn.new) → IsAtRest site.now.schema (state S.Store conn.old) → SameRows (state S.Store conn.old) (state S.Store conn.new) }
    ensures crash { Survives (state S.Store conn.old) (state S.Store conn.new) (λ _. ¬ ((state S.Store conn.old).now.schema ≡ site.now.schema)) }
    ensures live { IsLive (state S.Store conn.new) → IsLive (state S.Store conn.old) }
    ensures stays { HasCleanDisk (state S.Store conn.new) → OnOk result (IsTrue (state S.Store conn.new).is_open) }
    ensures mode { conn.old.in_transaction ≡ false → conn.new.in_transaction ≡ false }
{
    let rows = ask_rows(conn, &site.schema, read, &[])?;
    Ok(are_meta(rows.as_slice(), format, owner))
}
