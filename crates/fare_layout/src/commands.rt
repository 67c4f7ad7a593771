ghost use Rattle.std.specs.Prelude.{◌≡◌, ◌↔◌, map, option_map, IfSome, IsTrue};
ghost use Rattle.fare_layout.specs.Commands.{moved, moved_program, moved_upsert, AreSimpleUpserts, IsSimpleCommand, IsSimpleProgram, IsSimpleSource, IsSimpleUpsert};

use crate::place::Place;
use crate::plans::same_plan;
use crate::schemas::{same_bytes, same_places, same_terms};
use sqlite_items::Items;
use sqlite_schema::command::{Command, Source, Upsert};
use sqlite_schema::program::Program;
use sqlite_value::value::Bytes;

// Whether a command is the command `b`, over the table at this place. It may say no where `b` has what no statement of
// a store has: a change of tables, a query that computes a table first, an INSERT from a query, or a
// literal other than NULL and integers.
pub(crate) fn same_command(a: &Command, place: Place, b: &Command) -> bool
    ensures same { IsTrue result → a.now ≡ moved place b.now }
    ensures found { IsSimpleCommand b.now → a.now ≡ moved place b.now → IsTrue result }
{
    match (a, b) {
        (Command::Select(query, names), Command::Select(other, others)) => {
            same_program(query, place.tree, other)
                && same_names(names.as_slice(), others.as_slice())
        }
        (Command::Insert(at, rows), Command::Insert(_, others)) => {
            *at == place.at && same_source(rows, others)
        }
        (Command::InsertOr(at, way, rows, upserts), Command::InsertOr(_, other, others, wanted)) =>
            {
                *at == place.at
                    && *way == *other
                    && same_source(rows, others)
                    && same_upserts(upserts.as_slice(), place.tree, wanted.as_slice())
            }
        (Command::Update(at, query), Command::Update(_, other)) => {
            *at == place.at && same_program(query, place.tree, other)
        }
        (Command::Delete(at, query), Command::Delete(_, other)) => {
            *at == place.at && same_program(query, place.tree, other)
        }
        _ => false,
    }
}

fn same_program(a: &Program, tree: u32, b: &Program) -> bool
    ensures same { IsTrue result → a.now ≡ moved_program tree b.now }
    ensures found { IsSimpleProgram b.now → a.now ≡ moved_program tree b.now → IsTrue result }
{
    a.lets.is_empty() && b.lets.is_empty() && same_plan(&a.body, tree, &b.body)
}

fn same_names(a: &[Bytes], b: &[Bytes]) -> bool
    ensures { IsTrue result ↔ (a.now ≡ b.now) }
{
    match (a, b) {
        ([], []) => true,
        ([x, xs @ ..], [y, ys @ ..]) => same_bytes(x, y) && same_names(xs, ys),
        _ => false,
    }
}

fn same_source(a: &Source, b: &Source) -> bool
    ensures same { IsTrue result → a.now ≡ b.now }
    ensures found { IsSimpleSource b.now → a.now ≡ b.now → IsTrue result }
{
    match (a, b) {
        (Source::Values(terms, width), Source::Values(others, wide)) => {
            *width == *wide && same_terms(terms, others)
        }
        _ => false,
    }
}

fn same_target(a: &Option<Items<usize>>, b: &Option<Items<usize>>) -> bool
    ensures { IsTrue result ↔ (a.now ≡ b.now) }
{
    match (a, b) {
        (None, None) => true,
        (Some(these), Some(those)) => same_places(these, those),
        _ => false,
    }
}

fn same_update(a: &Option<Program>, tree: u32, b: &Option<Program>) -> bool
    ensures same { IsTrue result → a.now ≡ option_map (moved_program tree) b.now }
    ensures found { IfSome b.now IsSimpleProgram → a.now ≡ option_map (moved_program tree) b.now → IsTrue result }
{
    match (a, b) {
        (None, None) => true,
        (Some(this), Some(that)) => same_program(this, tree, that),
        _ => false,
    }
}

fn same_upsert(a: &Upsert, tree: u32, b: &Upsert) -> bool
    ensures same { IsTrue result → a.now ≡ moved_upsert tree b.now }
    ensures found { IsSimpleUpsert b.now → a.now ≡ moved_upsert tree b.now → IsTrue result }
{
    same_target(&a.target, &b.target) && same_update(&a.update, tree, &b.update)
}

fn same_upserts(a: &[Upsert], tree: u32, b: &[Upsert]) -> bool
    ensures same { IsTrue result → a.now ≡ map (moved_upsert tree) b.now }
    ensures found { AreSimpleUpserts b.now → a.now ≡ map (moved_upsert tree) b.now → IsTrue result }
{
    match (a, b) {
        ([], []) => true,
        ([x, xs @ ..], [y, ys @ ..]) => same_upsert(x, tree, y) && same_upserts(xs, tree, ys),
        _ => false,
    }
}
