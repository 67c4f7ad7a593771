ghost use Rattle.std.specs.Prelude.{◌≡◌, ◌≢◌, ◌↔◌, [], None, Ok, IfOk, IfErr, IfSome, IsTrue};
ghost use Rattle.sqlite_resolve.specs.Compile.{compiled};
ghost use Rattle.fare_layout.specs.Growing.{IsCreation};

use fare_store::Fault;
use sqlite_resolve::{CompileError, Compiled, compile};
use sqlite_schema::command::Command;
use sqlite_schema::schema::Schema;
use std::alloc::Global;

// What a text is as a statement.
pub(crate) struct Statement {
    pub(crate) compiled: Compiled,
}

// It is written out, and part by part, so that neither a caller nor one proof takes in how all the parts of a
// command are let go.
impl Drop for Statement {
    fn drop(self) {
        let Statement { compiled } = self;
        let Compiled {
            command,
            returning,
            names,
            formats,
            start: _,
            end: _,
            tail: _,
        } = compiled;
        let_go(command);
        drop(returning);
        drop(names);
        drop(formats);
    }
}

fn let_go(command: Command) {
    match command {
        Command::Select(query, names) => {
            drop(query);
            drop(names);
        }
        Command::Insert(_, rows) => drop(rows),
        Command::InsertOr(_, _, rows, upserts) => {
            drop(rows);
            drop(upserts);
        }
        Command::Update(_, query) | Command::Delete(_, query) => drop(query),
        Command::Rows(rows, _, names) => {
            drop(rows);
            drop(names);
        }
        Command::Savepoint(name) | Command::Release(name) | Command::RollbackTo(name) => drop(name),
        Command::CreateTable
        | Command::CreateIndex(_)
        | Command::CreateView
        | Command::DropTable(_)
        | Command::DropIndex(_)
        | Command::DropView(_)
        | Command::Begin
        | Command::Commit
        | Command::Rollback
        | Command::Nothing => {}
    }
}

impl Statement {
    // What a text is under a schema, if it is a statement there.
    pub(crate) fn read(
        alloc: Global,
        schema: &Schema,
        sql: &str,
    ) -> Result<Option<Statement>, Fault>
        ensures found { IfOk result (λ found. IfSome found (λ statement. compiled schema.now sql.now ≡ Ok statement.compiled)) }
        ensures lacks { IfOk result (λ found. found ≡ None → (c : _) → compiled schema.now sql.now ≢ Ok c) }
        ensures memory { IfErr result (λ e. e ≡ Fault.Memory) }
    {
        match compile(alloc, schema, sql.as_bytes()) {
            Ok(compiled) => Ok(Some(Statement { compiled })),
            Err(CompileError::OutOfMemory) => Err(Fault::Memory),
            Err(_) => Ok(None),
        }
    }

    // Whether it has no RETURNING and reads no time.
    pub(crate) fn is_plain(&self) -> bool
        ensures { IsTrue result ↔ ((self.now.compiled.returning ≡ None) × (self.now.compiled.formats ≡ [])) }
    {
        self.compiled.returning.is_none() && self.compiled.formats.is_empty()
    }

    // Whether it is one CREATE TABLE, from the start of a text of this length to its end.
    pub(crate) fn is_creation(&self, length: usize) -> bool
        ensures { IsTrue result ↔ IsCreation length self.now.compiled }
    {
        matches!(self.compiled.command, Command::CreateTable)
            && self.is_plain()
            && self.compiled.start == 0
            && self.compiled.end == length
    }
}
