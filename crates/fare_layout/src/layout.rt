ghost use Rattle.std.specs.Prelude.{◌≡◌, ◌+◌, ◌<◌, ◌^◌, ◌↔◌, IsTrue, IsSome, IfOk, IfErr, IfSome, map, length};
ghost use Rattle.std.specs.List.{AllByRecursion};
ghost use Rattle.fare_layout.specs.Schemas.{IsSimpleTable};
ghost use Rattle.fare_layout.specs.Layouts.{Fits, AreUnderstood, IsUntouched, KeepsMeanings};
ghost use Rattle.fare_layout.specs.Growing.{AreFrom, AreLast, GoOn};
ghost use Rattle.fare_layout.specs.Places.{all_of};

use crate::meaning::keeps_meaning;
use crate::place::are_apart;
use crate::places::{all_free, have_no_rowid_index, stand_all};
use crate::{Place, Places, TableNumber};
use fare_store::Fault;
use sqlite_schema::schema::Schema;
use std::alloc::Global;

// Whether each text means what it means under the store's own schema.
fn keep_meaning(
    alloc: Global,
    own: &Schema,
    schema: &Schema,
    places: &Places,
    texts: &[(TableNumber, &str)],
) -> Result<bool, Fault>
    ensures keeps { IfOk result (λ right. IsTrue right → KeepsMeanings own.now schema.now places.now (map (λ t. (t.0, t.1.now)) texts.now)) }
    ensures found { IfOk result (λ right. AreUnderstood own.now (map (λ t. (t.0, t.1.now)) texts.now) → KeepsMeanings own.now schema.now places.now (map (λ t. (t.0, t.1.now)) texts.now) → IsTrue right) }
    ensures memory { IfErr result (λ e. e ≡ Fault.Memory) }
{
    match texts {
        [] => Ok(true),
        [(table, sql), rest @ ..] => {
            if !keeps_meaning(alloc, own, schema, places.of(*table), sql)? {
                return Ok(false);
            }
            keep_meaning(alloc, own, schema, places, rest)
        }
    }
}

// Whether nothing else reaches into the tables.
fn is_untouched(schema: &Schema, places: &[Place]) -> bool
    ensures { IsTrue result ↔ IsUntouched schema.now places.now }
{
    are_apart(places)
        && all_free(schema, places)
        && have_no_rowid_index(schema.indexes.as_slice(), places)
}

/// Where a schema has the tables of a store, if it fits: each table of the store's own schema is there, nothing
/// else reaches into them, and each text means what it means under the own schema. The fault is Memory.
pub fn find_places(
    alloc: Global,
    own: &Schema,
    schema: &Schema,
    texts: &[(TableNumber, &str)],
) -> Result<Option<Places>, Fault>
    ensures found { IfOk result (λ found. IfSome found (Fits own.now (map (λ t. (t.0, t.1.now)) texts.now) schema.now)) }
    ensures lacks { IfOk result (λ found. AllByRecursion IsSimpleTable own.now.tables → AreUnderstood own.now (map (λ t. (t.0, t.1.now)) texts.now) → (p : _) → Fits own.now (map (λ t. (t.0, t.1.now)) texts.now) schema.now p → IfSome found (λ q. all_of q ≡ all_of p) × IsSome found) }
    ensures memory { IfErr result (λ e. e ≡ Fault.Memory) }
{
    let Some(places) = stand_all(alloc, schema, own.tables.as_slice())? else {
        return Ok(None);
    };
    if !is_untouched(schema, places.all.as_slice()) {
        return Ok(None);
    }
    if keep_meaning(alloc, own, schema, &places, texts)? {
        Ok(Some(places))
    } else {
        Ok(None)
    }
}

fn is_past(at: usize, count: usize, by: usize) -> bool
    ensures { IsTrue result ↔ (at ≡ count + by) }
{
    at >= count && at - count == by
}

// Whether the places are those from a number on, one after the other, so many past it.
fn are_from(places: &[Place], count: usize, by: usize) -> bool
    requires { by + length places.now < 2 ^ 64 }
    ensures { IsTrue result ↔ AreFrom (count + by) places.now }
{
    match places {
        [] => true,
        [first, rest @ ..] => is_past(first.at, count, by) && are_from(rest, count, by + 1),
    }
}

/// Whether the tables are the last of the schema that this one grew to, in the order in which a store makes them.
pub fn are_last(schema: &Schema, places: &[Place]) -> bool
    ensures { IsTrue result ↔ AreLast schema.now places.now }
{
    are_from(places, schema.tables.len(), 0)
}

/// Whether places are these and behind them those of the last tables of the schema that this one grew to, in the
/// order in which a store makes them.
pub fn go_on(schema: &Schema, from: &[Place], to: &[Place]) -> bool
    ensures { IsTrue result ↔ GoOn schema.now from.now to.now }
{
    match from {
        [] => are_last(schema, to),
        [first, others @ ..] => match to {
            [] => false,
            [same, rest @ ..] => first == same && go_on(schema, others, rest),
        },
    }
}
