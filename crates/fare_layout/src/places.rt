ghost use Rattle.std.specs.Prelude.{◌≡◌, ◌≢◌, ◌↔◌, ◌++◌, [], ◌∷◌, List, find, IsTrue, IsSome, IfOk, IfErr, IfSome, Some};
ghost use Rattle.std.specs.List.{AllByRecursion, AllZip};
ghost use Rattle.sqlite_schema.specs.Names.{same_name};
ghost use Rattle.fare_layout.specs.Places.{all_of};
ghost use Rattle.fare_layout.specs.declared.place.Place.{Place};
ghost use Rattle.fare_layout.specs.declared.place.Places.{Places};
ghost use Rattle.fare_layout.specs.Schemas.{IsSimpleTable};
ghost use Rattle.fare_layout.specs.Layouts.{Stands, RefersElsewhere, IsFree, AreFree};

use crate::schemas::same_shape;
use crate::{Place, Places};
use fare_store::Fault;
use sqlite_items::Items;
use sqlite_schema::schema::{Index, Reference, Schema, Table};
use std::alloc::{AllocError, Global};

/// From here on a tree's number is that of a table that a statement computes.
const FIRST_COMPUTED: u32 = 0x8000_0000;

// Where a schema has a table, if its name finds it there.
fn stand(schema: &Schema, table: &Table) -> Option<Place>
    ensures found { IfSome result (Stands schema.now table.now) }
    ensures lacks { IsSimpleTable table.now → (p : _) → Stands schema.now table.now p → result ≡ Some p }
{
    let at = schema.table_named(table.name.as_slice())?;
    let found = schema.tables.get(at)?;
    if found.tree < FIRST_COMPUTED && same_shape(found, table) {
        Some(Place {
            at,
            tree: found.tree,
        })
    } else {
        None
    }
}

// Adds where a schema has the tables, as far as it has them; whether it has them all.
fn stand_more(
    schema: &Schema,
    tables: &[Table],
    found: &mut Items<Place>,
) -> Result<bool, AllocError>
    ensures found { IfOk result (λ all. IsTrue all → (more : List Place) × (found.new ≡ found.old ++ more) × AllZip (Stands schema.now) tables.now more) }
    ensures lacks { IfOk result (λ all. AllByRecursion IsSimpleTable tables.now → (more : List Place) → AllZip (Stands schema.now) tables.now more → IsTrue all × (found.new ≡ found.old ++ more)) }
{
    match tables {
        [] => Ok(true),
        [first, rest @ ..] => match stand(schema, first) {
            Some(place) => {
                found.push(place)?;
                stand_more(schema, rest, found)
            }
            None => Ok(false),
        },
    }
}

// Where a schema has the tables, if it has them all. The fault is Memory.
pub(crate) fn stand_all(
    alloc: Global,
    schema: &Schema,
    tables: &[Table],
) -> Result<Option<Places>, Fault>
    ensures found { IfOk result (λ found. IfSome found (λ p. AllZip (Stands schema.now) tables.now (all_of p))) }
    ensures lacks { IfOk result (λ found. AllByRecursion IsSimpleTable tables.now → (p : Places) → AllZip (Stands schema.now) tables.now (all_of p) → IfSome found (λ q. all_of q ≡ all_of p) × IsSome found) }
    ensures memory { IfErr result (λ e. e ≡ Fault.Memory) }
{
    let mut all = Items::new(alloc);
    if stand_more(schema, tables, &mut all)? {
        Ok(Some(Places { all }))
    } else {
        Ok(None)
    }
}

// Whether the first table of a name, if there is one, has another tree.
fn is_elsewhere(tables: &[Table], name: &[u8], tree: u32) -> bool
    ensures { IsTrue result ↔ IfSome (find (λ t. same_name t.name name.now) tables.now) (λ t. t.tree ≢ tree) }
{
    match tables {
        [] => true,
        [first, rest @ ..] => {
            if first.is_named(name) {
                first.tree != tree
            } else {
                is_elsewhere(rest, name, tree)
            }
        }
    }
}

fn refers_elsewhere(schema: &Schema, tree: u32, reference: &Reference) -> bool
    ensures { IsTrue result ↔ RefersElsewhere schema.now tree reference.now }
{
    is_elsewhere(schema.tables.as_slice(), reference.parent.as_slice(), tree)
}

fn refer_elsewhere(schema: &Schema, tree: u32, references: &[Reference]) -> bool
    ensures { IsTrue result ↔ AllByRecursion (RefersElsewhere schema.now tree) references.now }
{
    match references {
        [] => true,
        [first, rest @ ..] => {
            refers_elsewhere(schema, tree, first) && refer_elsewhere(schema, tree, rest)
        }
    }
}

fn are_free(schema: &Schema, tree: u32, tables: &[Table]) -> bool
    ensures { IsTrue result ↔ AllByRecursion (λ t. AllByRecursion (RefersElsewhere schema.now tree) t.references) tables.now }
{
    match tables {
        [] => true,
        [first, rest @ ..] => {
            refer_elsewhere(schema, tree, first.references.as_slice())
                && are_free(schema, tree, rest)
        }
    }
}

// Whether no foreign key refers to a table of this tree.
fn is_free(schema: &Schema, tree: u32) -> bool
    ensures { IsTrue result ↔ IsFree schema.now tree }
{
    are_free(schema, tree, schema.tables.as_slice())
}

// Whether no foreign key refers to one of the tables.
pub(crate) fn all_free(schema: &Schema, places: &[Place]) -> bool
    ensures { IsTrue result ↔ AreFree schema.now places.now }
{
    match places {
        [] => true,
        [first, rest @ ..] => is_free(schema, first.tree) && all_free(schema, rest),
    }
}

fn is_by_rowid(columns: &Items<usize>) -> bool
    ensures { IsTrue result ↔ (columns.now ≡ 0 ∷ []) }
{
    columns.as_slice() == [0].as_slice()
}

// Whether none of the indexes is one of a table of this tree by its rowid.
fn has_no_rowid_index(indexes: &[Index], tree: u32) -> bool
    ensures { IsTrue result ↔ AllByRecursion (λ i. i.table ≡ tree → i.columns ≢ 0 ∷ []) indexes.now }
{
    match indexes {
        [] => true,
        [first, rest @ ..] => {
            (first.table != tree || !is_by_rowid(&first.columns)) && has_no_rowid_index(rest, tree)
        }
    }
}

// Whether none of the indexes is one of these tables by its rowid.
pub(crate) fn have_no_rowid_index(indexes: &[Index], places: &[Place]) -> bool
    ensures { IsTrue result ↔ AllByRecursion (λ (q : Place). AllByRecursion (λ i. i.table ≡ q.tree → i.columns ≢ 0 ∷ []) indexes.now) places.now }
{
    match places {
        [] => true,
        [first, rest @ ..] => {
            has_no_rowid_index(indexes, first.tree) && have_no_rowid_index(indexes, rest)
        }
    }
}
