ghost use Rattle.std.specs.Prelude.{◌≡◌, ◌↔◌, List, map, option_map, length, IfSome, IsTrue};
ghost use Rattle.sqlite_schema.specs.declared.code.Op as code;
ghost use Rattle.sqlite_schema.specs.Code.{term_in};
ghost use Rattle.sqlite_schema.specs.Plan.{grouping_in, join_to};
ghost use Rattle.sqlite_sql.specs.Query.{inner, end};
ghost use Rattle.fare_layout.specs.Commands.{aggregate_in, sort_key_in, moved_query, AreSimpleAggregates, AreSimpleKeys, IsSimpleAggregate, IsSimpleKey, IsSimpleGrouping, IsSimpleQuery};
ghost use Rattle.fare_layout.specs.Schemas.{IsSimpleTerm};

use crate::schemas::{same_roots, same_term};
use sqlite_schema::code::Op;
use sqlite_schema::plan::{Groups, Plan, Stage};
use sqlite_sql::query::{Aggregate, SortKey};
use sqlite_value::keys::Collation;

// Whether a plan is the plan `b`, read over the table of this tree alone, whatever `b` itself reads. Where `b` has a
// literal other than NULL and integers it may say no: a store's statements have none. How a table is scanned doesn't
// count.
pub(crate) fn same_plan(a: &Plan, tree: u32, b: &Plan) -> bool
    ensures same { IsTrue result → a.now ≡ moved_query tree b.now }
    ensures found { IsSimpleQuery b.now → a.now ≡ moved_query tree b.now → IsTrue result }
{
    let (ops, nodes) = (a.nodes.as_slice(), b.nodes.as_slice());
    is_inner(a.steps.as_slice(), a.from, tree)
        && same_roots(ops, a.filter.as_slice(), nodes, b.filter.as_slice())
        && same_grouping(ops, &a.group, nodes, &b.group)
        && same_roots(ops, a.project.as_slice(), nodes, b.project.as_slice())
        && a.distinct == b.distinct
        && same_collations(a.collations.as_slice(), b.collations.as_slice())
        && same_sort_keys(ops, a.order.as_slice(), nodes, b.order.as_slice())
        && same_root(ops, a.limit, nodes, b.limit)
        && same_root(ops, a.offset, nodes, b.offset)
}

// Whether the steps end at a place, read to a depth.
fn is_end(steps: &[Stage], depth: usize, at: usize) -> bool
    ensures { (ops : List code.Op) → IsTrue result ↔ (join_to ops steps.now depth at ≡ end) }
{
    if depth == 0 {
        return true;
    }
    match steps.get(at) {
        Some(Stage::End) => true,
        Some(_) => false,
        None => true,
    }
}

// Whether the steps from a place go over the table of this tree alone.
fn is_inner(steps: &[Stage], from: usize, tree: u32) -> bool
    ensures { (ops : List code.Op) → IsTrue result ↔ (join_to ops steps.now (length steps.now) from ≡ inner tree end) }
{
    match steps.get(from) {
        Some(Stage::Inner(table, _, more)) => {
            *table == tree && is_end(steps, steps.len() - 1, *more)
        }
        _ => false,
    }
}

fn same_root(a: &[Op], root: usize, b: &[Op], place: usize) -> bool
    ensures same { IsTrue result → term_in a.now root ≡ term_in b.now place }
    ensures found { IsSimpleTerm (term_in b.now place) → term_in a.now root ≡ term_in b.now place → IsTrue result }
{
    same_term(a, a.len(), root, b, b.len(), place)
}

fn same_collations(a: &[Collation], b: &[Collation]) -> bool
    ensures { IsTrue result ↔ (a.now ≡ b.now) }
{
    match (a, b) {
        ([], []) => true,
        ([x, xs @ ..], [y, ys @ ..]) => *x == *y && same_collations(xs, ys),
        _ => false,
    }
}

fn same_aggregate(a: &[Op], x: &Aggregate, b: &[Op], y: &Aggregate) -> bool
    ensures same { IsTrue result → aggregate_in a.now x.now ≡ aggregate_in b.now y.now }
    ensures found { IsSimpleAggregate (aggregate_in b.now y.now) → aggregate_in a.now x.now ≡ aggregate_in b.now y.now → IsTrue result }
{
    x.op == y.op
        && x.distinct == y.distinct
        && x.collation == y.collation
        && same_root(a, x.argument, b, y.argument)
}

fn same_aggregates(a: &[Op], these: &[Aggregate], b: &[Op], those: &[Aggregate]) -> bool
    ensures same { IsTrue result → map (aggregate_in a.now) these.now ≡ map (aggregate_in b.now) those.now }
    ensures found { AreSimpleAggregates (map (aggregate_in b.now) those.now) → map (aggregate_in a.now) these.now ≡ map (aggregate_in b.now) those.now → IsTrue result }
{
    match (these, those) {
        ([], []) => true,
        ([x, xs @ ..], [y, ys @ ..]) => {
            same_aggregate(a, x, b, y) && same_aggregates(a, xs, b, ys)
        }
        _ => false,
    }
}

fn same_groups(a: &[Op], x: &Groups, b: &[Op], y: &Groups) -> bool
    ensures same { IsTrue result → grouping_in a.now x.now ≡ grouping_in b.now y.now }
    ensures found { IsSimpleGrouping (grouping_in b.now y.now) → grouping_in a.now x.now ≡ grouping_in b.now y.now → IsTrue result }
{
    same_roots(a, x.keys.as_slice(), b, y.keys.as_slice())
        && same_collations(x.collations.as_slice(), y.collations.as_slice())
        && same_aggregates(a, x.aggregates.as_slice(), b, y.aggregates.as_slice())
        && same_roots(a, x.having.as_slice(), b, y.having.as_slice())
}

fn same_grouping(a: &[Op], x: &Option<Groups>, b: &[Op], y: &Option<Groups>) -> bool
    ensures same { IsTrue result → option_map (grouping_in a.now) x.now ≡ option_map (grouping_in b.now) y.now }
    ensures found { IfSome (option_map (grouping_in b.now) y.now) IsSimpleGrouping → option_map (grouping_in a.now) x.now ≡ option_map (grouping_in b.now) y.now → IsTrue result }
{
    match (x, y) {
        (None, None) => true,
        (Some(these), Some(those)) => same_groups(a, these, b, those),
        _ => false,
    }
}

fn same_sort_key(a: &[Op], x: &SortKey, b: &[Op], y: &SortKey) -> bool
    ensures same { IsTrue result → sort_key_in a.now x.now ≡ sort_key_in b.now y.now }
    ensures found { IsSimpleKey (sort_key_in b.now y.now) → sort_key_in a.now x.now ≡ sort_key_in b.now y.now → IsTrue result }
{
    same_root(a, x.node, b, y.node) && x.key == y.key
}

fn same_sort_keys(a: &[Op], these: &[SortKey], b: &[Op], those: &[SortKey]) -> bool
    ensures same { IsTrue result → map (sort_key_in a.now) these.now ≡ map (sort_key_in b.now) those.now }
    ensures found { AreSimpleKeys (map (sort_key_in b.now) those.now) → map (sort_key_in a.now) these.now ≡ map (sort_key_in b.now) those.now → IsTrue result }
{
    match (these, those) {
        ([], []) => true,
        ([x, xs @ ..], [y, ys @ ..]) => {
            same_sort_key(a, x, b, y) && same_sort_keys(a, xs, b, ys)
        }
        _ => false,
    }
}
