ghost use Rattle.std.specs.Prelude.{◌≡◌, ◌≢◌, ◌<◌, ◌^◌, ℕ, false, drop, map, IsTrue, IfOk, OnOk, MatchOption};
ghost use Rattle.sqlite.specs.State.{HasCleanDisk, Survives};
ghost use Rattle.sqlite.specs.Held.{state};
ghost use Rattle.sqlite_value.specs.Order.{column};
ghost use Rattle.fare_tables.specs.Asking.{IsLive, IsAtRest, SameRows};
ghost use Rattle.fare_tables.specs.Cells.{int};
ghost use Rattle.fare_opening.specs.Parts.{Parts};
ghost use Rattle.fare_opening.specs.Sites.{IsSite};
ghost use Rattle.fare_lists.specs.Lists.{told, told_list, cells, behind_ids, HasNumbers, AreNumbers, AreListed, AreLawful, HoldAll, HasRead, CanTell};

use crate::{List, ListTable};
use fare_opening::{Site, read_rows};
use fare_store::Fault;
use sqlite::types::ValueRef;
use sqlite::{Alter, Connection, Row};
use std::alloc::Global;

// The number below 2^32 of a cell, if it holds one.
fn number_at(row: &Row, at: usize) -> Option<u32>
    ensures { MatchOption result ((n : ℕ) → n < 2 ^ 32 → column row.now at ≢ int n) (λ n. column row.now at ≡ int n) }
{
    match row.get_ref(at) {
        Ok(ValueRef::Int(number)) => u32::try_from(number).ok(),
        _ => None,
    }
}

// The numbers of a row behind its rowid, if they are numbers below 2^32.
fn numbers_of(alloc: Global, row: &Row) -> Result<Option<Vec<u32>>, Fault>
    ensures { IfOk result (λ found. MatchOption found (¬ HasNumbers row.now) (λ numbers. drop 1 row.now ≡ cells numbers.items)) }
{
    let mut numbers = Vec::new(alloc);
    for at in 1..row.column_count() {
        let Some(number) = number_at(row, at) else {
            return Ok(None);
        };
        numbers.push(number)?;
    }
    Ok(Some(numbers))
}

// The numbers of rows, if they are all numbers below 2^32.
fn list_of(alloc: Global, rows: &[Row]) -> Result<Option<List>, Fault>
    ensures { IfOk result (λ found. MatchOption found (¬ AreNumbers rows.now) (λ list. behind_ids rows.now ≡ map cells (told_list list.items))) }
{
    let mut list = Vec::new(alloc);
    for row in rows {
        let Some(numbers) = numbers_of(alloc, row)? else {
            return Ok(None);
        };
        list.push(numbers)?;
    }
    Ok(Some(list))
}

// The lists of tables, behind those of others, if all of them can be told as numbers below 2^32.
fn read_on<S: Alter>(
    alloc: Global,
    conn: &mut Connection<S>,
    site: &Site,
    tables: &[ListTable],
    lists: &mut Vec<List>,
) -> Result<bool, Fault>
    requires { (p : Parts) × AreListed p tables.now × IsSite p site.now }
    ensures lists { HasCleanDisk (state S.Store conn.new) → (state S.Store conn.old).now.schema ≡ site.now.schema → AreLawful site.now (state S.Store conn.old).now.trees tables.now → IfOk result (HasRead site.now (state S.Store conn.old).now.trees tables.now (told lists.old.items) (told lists.new.items)) }
    ensures read { HasCleanDisk (state S.Store conn.new) → (state S.Store conn.old).now.schema ≡ site.now.schema → OnOk result (SameRows (state S.Store conn.old) (state S.Store conn.new)) }
    ensures same { IsLive (state S.Store conn.new) → IsAtRest site.now.schema (state S.Store conn.old) → SameRows (state S.Store conn.old) (state S.Store conn.new) }
    ensures crash { Survives (state S.Store conn.old) (state S.Store conn.new) (λ _. ¬ ((state S.Store conn.old).now.schema ≡ site.now.schema)) }
    ensures live { IsLive (state S.Store conn.new) → IsLive (state S.Store conn.old) }
    ensures up { HasCleanDisk (state S.Store conn.new) → IsTrue (state S.Store conn.old).is_open → OnOk result (IsTrue (state S.Store conn.new).is_open) }
    ensures mode { conn.old.in_transaction ≡ false → conn.new.in_transaction ≡ false }
{
    match tables {
        [] => Ok(true),
        [table, rest @ ..] => {
            let rows = read_rows(conn, site, table.read)?;
            match list_of(alloc, rows.as_slice())? {
                Some(list) => {
                    lists.push(list)?;
                    read_on(alloc, conn, site, rest, lists)
                }
                None => Ok(false),
            }
        }
    }
}

/// The lists of these tables, as they stand, if all of them can be told as numbers below 2^32.
pub fn read_lists<S: Alter>(
    alloc: Global,
    conn: &mut Connection<S>,
    site: &Site,
    tables: &[ListTable],
) -> Result<Option<Vec<List>>, Fault>
    requires { (p : Parts) × AreListed p tables.now × IsSite p site.now }
    ensures lists { HasCleanDisk (state S.Store conn.new) → (state S.Store conn.old).now.schema ≡ site.now.schema → AreLawful site.now (state S.Store conn.old).now.trees tables.now → IfOk result (λ found. MatchOption found
        (¬ CanTell site.now (state S.Store conn.old).now.trees tables.now)
        (λ lists. HoldAll site.now (state S.Store conn.old).now.trees tables.now (told lists.items))) }
    ensures read { HasCleanDisk (state S.Store conn.new) → (state S.Store conn.old).now.schema ≡ site.now.schema → OnOk result (SameRows (state S.Store conn.old) (state S.Store conn.new)) }
    ensures same { IsLive (state S.Store conn.new) → IsAtRest site.now.schema (state S.Store conn.old) → SameRows (state S.Store conn.old) (state S.Store conn.new) }
    ensures crash { Survives (state S.Store conn.old) (state S.Store conn.new) (λ _. ¬ ((state S.Store conn.old).now.schema ≡ site.now.schema)) }
    ensures live { IsLive (state S.Store conn.new) → IsLive (state S.Store conn.old) }
    ensures up { HasCleanDisk (state S.Store conn.new) → IsTrue (state S.Store conn.old).is_open → OnOk result (IsTrue (state S.Store conn.new).is_open) }
    ensures mode { conn.old.in_transaction ≡ false → conn.new.in_transaction ≡ false }
{
    let mut lists = Vec::new(alloc);
    if read_on(alloc, conn, site, tables, &mut lists)? {
        Ok(Some(lists))
    } else {
        Ok(None)
    }
}
