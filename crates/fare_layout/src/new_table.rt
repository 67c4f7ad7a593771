ghost use Rattle.std.specs.Prelude.{◌≡◌, ◌≢◌, ◌↔◌, ◌+◌, ◌<◌, ◌^◌, IsTrue, IfOk, IfErr, IfSome, None, Ok, length};
ghost use Rattle.sqlite.specs.Compile.{table_defined_by};
ghost use Rattle.sqlite_catalog.specs.Change.{next_tree};

use fare_store::Fault;
use sqlite_catalog::layout::next_tree;
use sqlite_resolve::{CompileError, define_table};
use sqlite_schema::schema::{Schema, Table};
use std::alloc::Global;

/// No tree has this number or one above.
const PAST_ALL_TREES: u64 = 0x1_0000_0000;

// A table that a text defines.
pub(crate) struct NewTable {
    pub(crate) table: Table,
}

// It is written out, so that a caller doesn't prove again how each part is let go.
impl Drop for NewTable {
    fn drop(self) {
        let NewTable { table: _ } = self;
    }
}

impl NewTable {
    // The table that a text defines, if it defines one.
    pub(crate) fn of(alloc: Global, sql: &str) -> Result<Option<NewTable>, Fault>
        ensures found { IfOk result (λ found. IfSome found (λ new. table_defined_by sql.now ≡ Ok new.table)) }
        ensures lacks { IfOk result (λ found. found ≡ None → (table : _) → table_defined_by sql.now ≢ Ok table) }
        ensures memory { IfErr result (λ e. e ≡ Fault.Memory) }
    {
        match define_table(alloc, sql.as_bytes()) {
            Ok(table) => Ok(Some(NewTable { table })),
            Err(CompileError::OutOfMemory) => Err(Fault::Memory),
            Err(_) => Ok(None),
        }
    }

    pub(crate) fn is_named(&self, name: &str) -> bool
        ensures { IsTrue result ↔ (self.now.table.name ≡ name.now) }
    {
        self.table.name.as_slice() == name.as_bytes()
    }

    // Whether a schema has numbers left for its trees.
    pub(crate) fn has_room(&self, schema: &Schema) -> bool
        ensures { IsTrue result ↔ (next_tree schema.now + length self.now.table.uniques + 1 < 2 ^ 32) }
    {
        let keys = self.table.uniques.as_slice().len() as u64;
        next_tree(schema) + 1 + keys < PAST_ALL_TREES
    }

    pub(crate) fn into_table(self) -> Table
        ensures { result ≡ self.table }
    {
        let NewTable { table } = self;
        table
    }
}
