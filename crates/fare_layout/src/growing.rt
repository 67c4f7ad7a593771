ghost use Rattle.std.specs.Prelude.{◌≡◌, ◌↔◌, ◌^◌, ◌<◌, ◌+◌, ◌++◌, [], ◌∷◌, IsTrue, IfOk, IfErr, IfSome, OnOk, None, Ok, map, is_some, length};
ghost use Rattle.std.specs.List.{list_any};
ghost use Rattle.sqlite.specs.Does.{lacks_sequence};
ghost use Rattle.sqlite.specs.Rows.{sequence};
ghost use Rattle.sqlite.specs.Compile.{table_defined_by};
ghost use Rattle.sqlite_resolve.specs.Compile.{compiled};
ghost use Rattle.sqlite_catalog.specs.Listing.{automatic};
ghost use Rattle.sqlite_catalog.specs.Change.{next_tree, created, automatics};
ghost use Rattle.fare_layout.specs.Growing.{Creates, Grows, GrowsBy, CanMake, CanMakeAll, HasNone};

use crate::new_table::NewTable;
use crate::statement::Statement;
use fare_store::Fault;
use sqlite_catalog::layout::{automatic, automatic_name, is_used, next_tree};
use sqlite_items::Items;
use sqlite_schema::schema::{Index, Schema, Table};
use std::alloc::{AllocError, Global};

// Whether a text is one CREATE TABLE from end to end, under a schema.
fn creates(alloc: Global, schema: &Schema, sql: &str) -> Result<bool, Fault>
    ensures creates { IfOk result (λ right. IsTrue right ↔ Creates sql.now (compiled schema.now sql.now)) }
    ensures memory { IfErr result (λ e. e ≡ Fault.Memory) }
{
    match Statement::read(alloc, schema, sql)? {
        Some(statement) => Ok(statement.is_creation(sql.len())),
        None => Ok(false),
    }
}

fn are_counted(tables: &[Table]) -> bool
    ensures { result ≡ list_any (λ t. t.is_counted) tables.now }
{
    match tables {
        [] => false,
        [first, rest @ ..] => first.is_counted || are_counted(rest),
    }
}

fn has_sequence(schema: &Schema) -> bool
    ensures { result ≡ is_some (sequence schema.now) }
{
    match schema.table_named(b"sqlite_sequence") {
        Some(at) => schema.tables.get(at).is_some(),
        None => false,
    }
}

// Whether a schema has a table that counts its rows, and not the one that keeps the counts.
fn is_without_counts(schema: &Schema) -> bool
    ensures { result ≡ lacks_sequence schema.now }
{
    are_counted(schema.tables.as_slice()) && !has_sequence(schema)
}

// The index of one of a table's keys.
fn add_guard(
    alloc: Global,
    indexes: &mut Items<Index>,
    table: &Table,
    name: &str,
    at: usize,
    tree: u32,
    key: &Items<usize>,
) -> Result<(), AllocError>
    requires named { table.now.name ≡ name.now }
    requires place { at < 2 ^ 63 }
    ensures { OnOk result (indexes.new ≡ indexes.old ++ automatic table.now at key.now tree ∷ []) }
{
    let own = automatic_name(alloc, name, at)?;
    let key = key.as_slice();
    let index = automatic(alloc, table, own.as_str(), at, key, tree)?;
    indexes.push(index)
}

// The indexes of a table's keys, from one of them on.
fn add_guards(
    alloc: Global,
    indexes: &mut Items<Index>,
    table: &Table,
    name: &str,
    at: usize,
    tree: u32,
    keys: &[Items<usize>],
) -> Result<(), AllocError>
    requires named { table.now.name ≡ name.now }
    requires places { at + length keys.now < 2 ^ 63 }
    requires trees { tree + length keys.now < 2 ^ 32 }
    ensures { OnOk result (indexes.new ≡ indexes.old ++ automatics table.now at tree keys.now) }
{
    match keys {
        [] => Ok(()),
        [key, rest @ ..] => {
            add_guard(alloc, indexes, table, name, at, tree, key)?;
            add_guards(alloc, indexes, table, name, at + 1, tree + 1, rest)
        }
    }
}

// The schema after one table was added to another one.
struct NextSchema {
    schema: Schema,
}

// It is written out, so that a caller doesn't prove again how each part is let go.
impl Drop for NextSchema {
    fn drop(self) {
        let NextSchema { schema: _ } = self;
    }
}

impl NextSchema {
    // The schema with one more table, which has this name and for whose trees there are numbers left.
    fn with_table(
        alloc: Global,
        schema: &Schema,
        table: NewTable,
        name: &str,
    ) -> Result<NextSchema, Fault>
        requires named { table.table.name ≡ name.now }
        requires room { next_tree schema.now + length table.table.uniques + 1 < 2 ^ 32 }
        ensures grown { IfOk result (λ next. next.schema ≡ created schema.now table.table) }
        ensures memory { IfErr result (λ e. e ≡ Fault.Memory) }
    {
        let schema = schema.copy(alloc)?;
        let mut next = NextSchema { schema };
        next.add(alloc, table, name)?;
        Ok(next)
    }

    fn add(&mut self, alloc: Global, table: NewTable, name: &str) -> Result<(), AllocError>
        requires named { table.table.name ≡ name.now }
        requires room { next_tree self.old.schema + length table.table.uniques + 1 < 2 ^ 32 }
        ensures { OnOk result (self.new.schema ≡ created self.old.schema table.table) }
    {
        let tree = next_tree(&self.schema) as u32;
        let mut new = table;
        new.table.tree = tree;
        add_guards(
            alloc,
            &mut self.schema.indexes,
            &new.table,
            name,
            0,
            tree + 1,
            new.table.uniques.as_slice(),
        )?;
        self.schema.tables.push(new.into_table())
    }
}

// The schema with one more table, if that may stand there under this name.
fn try_with_table(
    alloc: Global,
    schema: &Schema,
    table: NewTable,
    name: &str,
) -> Result<Option<NextSchema>, Fault>
    ensures grows { IfOk result (λ found. IfSome found (λ next. (sql : _) → Creates sql (compiled schema.now sql) → table_defined_by sql ≡ Ok table.table → Grows schema.now sql next.schema)) }
    ensures lacks { IfOk result (λ found. found ≡ None → (sql : _) → ¬ CanMake schema.now name.now sql table.table) }
    ensures memory { IfErr result (λ e. e ≡ Fault.Memory) }
{
    if !table.is_named(name) || !table.has_room(schema) {
        return Ok(None);
    }
    let next = NextSchema::with_table(alloc, schema, table, name)?;
    if is_without_counts(&next.schema) {
        Ok(None)
    } else {
        Ok(Some(next))
    }
}

// The schema after one CREATE TABLE.
fn grow(alloc: Global, schema: &Schema, name: &str, sql: &str) -> Result<Option<NextSchema>, Fault>
    ensures grows { IfOk result (λ found. IfSome found (λ next. Grows schema.now sql.now next.schema)) }
    ensures lacks { IfOk result (λ found. found ≡ None → (table : _) → ¬ CanMake schema.now name.now sql.now table) }
    ensures memory { IfErr result (λ e. e ≡ Fault.Memory) }
{
    if !creates(alloc, schema, sql)? {
        return Ok(None);
    }
    match NewTable::of(alloc, sql)? {
        Some(table) => try_with_table(alloc, schema, table, name),
        None => Ok(None),
    }
}

/// The schema after several CREATE TABLE, each with the name of its table, or none where one of them can't be
/// made. The fault is Memory.
pub fn grow_by(
    alloc: Global,
    schema: &Schema,
    texts: &[(&str, &str)],
) -> Result<Option<Schema>, Fault>
    ensures grows { IfOk result (λ found. IfSome found (GrowsBy schema.now (map (λ t. (t.0.now, t.1.now)) texts.now))) }
    ensures lacks { IfOk result (λ found. found ≡ None → ¬ CanMakeAll schema.now (map (λ t. (t.0.now, t.1.now)) texts.now)) }
    ensures memory { IfErr result (λ e. e ≡ Fault.Memory) }
{
    match texts {
        [] => Ok(Some(schema.copy(alloc)?)),
        [(name, sql), rest @ ..] => match grow(alloc, schema, name, sql)? {
            Some(next) => grow_by(alloc, &next.schema, rest),
            None => Ok(None),
        },
    }
}

/// Whether a schema has nothing of these names: no table, index or view. With each name comes the text that would
/// make the table.
pub fn has_none(schema: &Schema, texts: &[(&str, &str)]) -> bool
    ensures { IsTrue result ↔ HasNone (map (λ t. (t.0.now, t.1.now)) texts.now) schema.now }
{
    match texts {
        [] => true,
        [(name, _), rest @ ..] => { !is_used(schema, name.as_bytes()) && has_none(schema, rest) }
    }
}
