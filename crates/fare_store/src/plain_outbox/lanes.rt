ghost use Rattle.std.specs.Prelude.{◌≡◌, ℕ, ◌+◌, Some, OnOk, OnErr};
ghost use Rattle.std.specs.HashMap.{get};
ghost use Rattle.std.specs.BTreeMap as tree;
ghost use Rattle.fare_store.specs.Tables.{put2, put3};
ghost use Rattle.fare_store.specs.Falling.{falling};
ghost use Rattle.fare_store.specs.Keys.{same_lane};
ghost use Rattle.fare_store.specs.PlacedRows.{rows_in};
ghost use Rattle.fare_store.specs.OutboxWords.{behind, rows_upto};

use super::Lane;
use super::reverse::Reverse;
use fare_record::Record;
use std::alloc::{AllocError, Global};
use std::collections::{BTreeMap, HashMap};

// Puts a row into its lane. At an error no row changes.
pub(super) fn put_row(
    lanes: &mut HashMap<Lane, BTreeMap<Reverse, Record>>,
    alloc: Global,
    row: &Record,
) -> Result<(), AllocError>
    ensures ok { OnOk result ((owner device lane : ℕ) → rows_in (get same_lane lanes.new) owner device lane ≡ put3 (rows_in (get same_lane lanes.old)) row.now.owner row.now.device row.now.lane (Some row.now) owner device lane) }
    ensures err { OnErr result ((owner device lane : ℕ) → rows_in (get same_lane lanes.new) owner device lane ≡ rows_in (get same_lane lanes.old) owner device lane) }
{
    let key = (row.owner(), row.device());
    if let Some(rows) = lanes.get_mut(&key) {
        rows.insert(Reverse(row.lane()), *row)?;
        return Ok(());
    }
    let mut rows = BTreeMap::new(alloc);
    rows.insert(Reverse(row.lane()), *row)?;
    lanes.insert(key, rows)?;
    Ok(())
}

// Lets the rows of an owner's lane of a device go up to a lane number, and answers how many.
pub(super) fn prune_lane(
    lanes: &mut HashMap<Lane, BTreeMap<Reverse, Record>>,
    lane: Lane,
    upto: u64,
) -> usize
    ensures count { result ≡ rows_upto upto (rows_in (get same_lane lanes.old) lane.0 lane.1) }
    ensures left { (owner device number : ℕ) → rows_in (get same_lane lanes.new) owner device number ≡ put2 (rows_in (get same_lane lanes.old)) lane.0 lane.1 (behind upto (rows_in (get same_lane lanes.old) lane.0 lane.1)) owner device number }
{
    let Some(rows) = lanes.get_mut(&lane) else {
        return 0;
    };
    let before = rows.len();
    drop_rows(rows, upto);
    before - rows.len()
}

// Lets the rows of a lane go up to a lane number, from the oldest on, which stands last.
fn drop_rows(rows: &mut BTreeMap<Reverse, Record>, upto: u64)
    ensures left { (lane : ℕ) → tree.get falling rows.new lane ≡ behind upto (tree.get falling rows.old) lane }
    ensures count { tree.btree_map_len rows.new + rows_upto upto (tree.get falling rows.old) ≡ tree.btree_map_len rows.old }
{
    while let Some((oldest, _)) = rows.last_key_value()
        && oldest.0 <= upto
    {
        rows.pop_last();
    }
}
