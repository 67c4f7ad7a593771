ghost use Rattle.std.specs.Prelude.{◌≡◌, ◌↔◌, map, IsTrue};
ghost use Rattle.sqlite_schema.specs.Code.{term_to, term_in};
ghost use Rattle.sqlite_sql.specs.Term.{lit};
ghost use Rattle.sqlite_value.specs.declared.value.Value.TheVariants as value;
ghost use Rattle.fare_layout.specs.Schemas.{IsSimple, IsSimpleTerm, AreSimple, AreSimpleColumns, IsSimpleTable};

use sqlite_items::Items;
use sqlite_schema::code::{Op, Terms};
use sqlite_schema::schema::{Column, Table};
use sqlite_sql::ops::{BinaryOp, UnaryOp};
use sqlite_value::keys::Order;
use sqlite_value::value::{Bytes, Value};

pub(crate) fn same_bytes(a: &Bytes, b: &Bytes) -> bool
    ensures { IsTrue result ↔ (a.now ≡ b.now) }
{
    a.as_slice() == b.as_slice()
}

// No default of a store's tables is another value than NULL, and no literal another than an integer.
fn same_value(a: &Value, b: &Value) -> bool
    ensures same { IsTrue result → a.now ≡ b.now }
    ensures found { IsSimple b.now → a.now ≡ b.now → IsTrue result }
{
    match (a, b) {
        (Value::Null, Value::Null) => true,
        (Value::Int(n), Value::Int(m)) => *n == *m,
        _ => false,
    }
}

fn same_column(a: &Column, b: &Column) -> bool
    ensures same { IsTrue result → a.now ≡ b.now }
    ensures found { IsSimple b.now.default → a.now ≡ b.now → IsTrue result }
{
    same_bytes(&a.name, &b.name)
        && a.kind == b.kind
        && a.is_strict == b.is_strict
        && a.not_null == b.not_null
        && same_value(&a.default, &b.default)
        && a.collation == b.collation
}

fn same_columns(a: &[Column], b: &[Column]) -> bool
    ensures same { IsTrue result → a.now ≡ b.now }
    ensures found { AreSimpleColumns b.now → a.now ≡ b.now → IsTrue result }
{
    match (a, b) {
        ([], []) => true,
        ([x, xs @ ..], [y, ys @ ..]) => same_column(x, y) && same_columns(xs, ys),
        _ => false,
    }
}

pub(crate) fn same_places(a: &Items<usize>, b: &Items<usize>) -> bool
    ensures { IsTrue result ↔ (a.now ≡ b.now) }
{
    a.as_slice() == b.as_slice()
}

fn same_keys(a: &[Items<usize>], b: &[Items<usize>]) -> bool
    ensures { IsTrue result ↔ (a.now ≡ b.now) }
{
    match (a, b) {
        ([], []) => true,
        ([x, xs @ ..], [y, ys @ ..]) => same_places(x, y) && same_keys(xs, ys),
        _ => false,
    }
}

fn same_orders(a: &[Order], b: &[Order]) -> bool
    ensures { IsTrue result ↔ (a.now ≡ b.now) }
{
    match (a, b) {
        ([], []) => true,
        ([x, xs @ ..], [y, ys @ ..]) => x.digits == y.digits && same_orders(xs, ys),
        _ => false,
    }
}

// Whether the term at a place, read to a depth, is NULL.
fn is_null(ops: &[Op], depth: usize, at: usize) -> bool
    ensures { IsTrue result ↔ (term_to ops.now depth at ≡ lit value.Null) }
{
    if depth == 0 {
        return true;
    }
    match ops.get(at) {
        Some(Op::Literal(Value::Null)) => true,
        Some(_) => false,
        None => true,
    }
}

fn same_unary(a: UnaryOp, b: UnaryOp) -> bool
    ensures { IsTrue result ↔ (a ≡ b) }
{
    a == b
}

fn same_binary(a: BinaryOp, b: BinaryOp) -> bool
    ensures { IsTrue result ↔ (a ≡ b) }
{
    a == b
}

// Whether the terms at two places, each read to a depth, are the same. The work is bounded by the second one.
pub(crate) fn same_term(
    a: &[Op],
    depth: usize,
    at: usize,
    b: &[Op],
    limit: usize,
    place: usize,
) -> bool
    ensures same { IsTrue result → term_to a.now depth at ≡ term_to b.now limit place }
    ensures found { IsSimpleTerm (term_to b.now limit place) → term_to a.now depth at ≡ term_to b.now limit place → IsTrue result }
{
    if depth == 0 || limit == 0 {
        return is_null(a, depth, at) && is_null(b, limit, place);
    }
    let (down, low) = (depth - 1, limit - 1);
    match (a.get(at), b.get(place)) {
        (Some(Op::Literal(v)), Some(Op::Literal(w))) => same_value(v, w),
        (Some(Op::Column(s, x)), Some(Op::Column(t, y))) => *s == *t && *x == *y,
        (Some(Op::Unary(o, x)), Some(Op::Unary(p, y))) => {
            same_term(a, down, *x, b, low, *y) && same_unary(*o, *p)
        }
        (Some(Op::Binary(o, x, z)), Some(Op::Binary(p, y, w))) => {
            same_term(a, down, *x, b, low, *y)
                && same_term(a, down, *z, b, low, *w)
                && same_binary(*o, *p)
        }
        (Some(Op::Case(s, x, z)), Some(Op::Case(t, y, w))) => {
            same_term(a, down, *s, b, low, *t)
                && same_term(a, down, *x, b, low, *y)
                && same_term(a, down, *z, b, low, *w)
        }
        (Some(_), Some(_)) => false,
        _ => is_null(a, depth, at) && is_null(b, limit, place),
    }
}

// Whether the terms at these roots are the same.
pub(crate) fn same_roots(a: &[Op], roots: &[usize], b: &[Op], places: &[usize]) -> bool
    ensures same { IsTrue result → map (term_in a.now) roots.now ≡ map (term_in b.now) places.now }
    ensures found { AreSimple (map (term_in b.now) places.now) → map (term_in a.now) roots.now ≡ map (term_in b.now) places.now → IsTrue result }
{
    match (roots, places) {
        ([], []) => true,
        ([x, xs @ ..], [y, ys @ ..]) => {
            same_term(a, a.len(), *x, b, b.len(), *y) && same_roots(a, xs, b, ys)
        }
        _ => false,
    }
}

pub(crate) fn same_terms(a: &Terms, b: &Terms) -> bool
    ensures same { IsTrue result → a.now ≡ b.now }
    ensures found { AreSimple b.now → a.now ≡ b.now → IsTrue result }
{
    same_roots(
        a.nodes.as_slice(),
        a.roots.as_slice(),
        b.nodes.as_slice(),
        b.roots.as_slice(),
    )
}

/// Whether a table is another one, but for the tree of its rows. The other has no reference to a table, and no
/// default or literal but NULL and integers, as a store's own has none; of another one it may say no.
pub(crate) fn same_shape(a: &Table, b: &Table) -> bool
    ensures same { IsTrue result → a.now ≡ record b.now { tree = a.now.tree } }
    ensures found { IsSimpleTable b.now → a.now ≡ record b.now { tree = a.now.tree } → IsTrue result }
{
    same_bytes(&a.name, &b.name)
        && same_columns(a.columns.as_slice(), b.columns.as_slice())
        && a.key == b.key
        && a.primary.as_slice() == b.primary.as_slice()
        && same_keys(a.uniques.as_slice(), b.uniques.as_slice())
        && same_orders(a.orders.as_slice(), b.orders.as_slice())
        && same_terms(&a.checks, &b.checks)
        && same_rest(a, b)
}

// What no table of a store has.
fn same_rest(a: &Table, b: &Table) -> bool
    ensures references { IsTrue result → (a.now.references ≡ b.now.references) }
    ensures computed { IsTrue result → (a.now.computed ≡ b.now.computed) }
    ensures stamps { IsTrue result → (a.now.stamps ≡ b.now.stamps) }
    ensures counted { IsTrue result → (a.now.is_counted ≡ b.now.is_counted) }
    ensures found { IsSimpleTable b.now → a.now ≡ record b.now { tree = a.now.tree } → IsTrue result }
{
    a.references.is_empty()
        && b.references.is_empty()
        && a.computed.as_slice() == b.computed.as_slice()
        && a.stamps.places.as_slice() == b.stamps.places.as_slice()
        && same_terms(&a.stamps.terms, &b.stamps.terms)
        && a.stamps.formats.is_empty()
        && b.stamps.formats.is_empty()
        && a.is_counted == b.is_counted
}
