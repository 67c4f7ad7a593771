ghost use Rattle.std.specs.Prelude.{◌≡◌, ◌↔◌, [], option_map, Some, None, Ok, IfOk, IfErr, IsTrue};
ghost use Rattle.sqlite_schema.specs.declared.command.Command as statement;
ghost use Rattle.fare_store.specs.declared.fault.Fault.TheVariants.{Memory};
ghost use Rattle.fare_layout.specs.Commands.{essence, moved, IsMeant, IsSimpleCommand, KeepsMeaning};

use crate::commands::same_command;
use crate::place::Place;
use crate::statement::Statement;
use fare_store::Fault;
use sqlite_schema::command::Command;
use sqlite_schema::schema::Schema;
use std::alloc::Global;

// Whether a text means under a schema what it means under the store's own, over the table at this place. It may say
// no of a text that has what no statement of a store has: RETURNING, a time that it reads, or what `same_command` may
// say no to. It fails only where no memory is left.
pub(crate) fn keeps_meaning(
    alloc: Global,
    own: &Schema,
    schema: &Schema,
    place: Place,
    sql: &str,
) -> Result<bool, Fault>
    ensures keeps { IfOk result (λ right. IsTrue right → KeepsMeaning own.now schema.now place sql.now) }
    ensures found { IfOk result (λ right. (c : statement.Command) → IsMeant own.now sql.now c → IsSimpleCommand c → KeepsMeaning own.now schema.now place sql.now → IsTrue right) }
    ensures failed { IfErr result (λ fault. fault ≡ Memory) }
{
    match meant(alloc, own, sql)? {
        Some(wanted) => is_meant(alloc, schema, sql, place, &wanted.compiled.command),
        None => Ok(false),
    }
}

// Whether a text means this command under a schema, over the table at this place.
fn is_meant(
    alloc: Global,
    schema: &Schema,
    sql: &str,
    place: Place,
    wanted: &Command,
) -> Result<bool, Fault>
    ensures same { IfOk result (λ right. IsTrue right → IsMeant schema.now sql.now (moved place wanted.now)) }
    ensures found { IfOk result (λ right. IsSimpleCommand wanted.now → IsMeant schema.now sql.now (moved place wanted.now) → IsTrue right) }
    ensures failed { IfErr result (λ fault. fault ≡ Memory) }
{
    match meant(alloc, schema, sql)? {
        Some(given) => Ok(same_command(&given.compiled.command, place, wanted)),
        None => Ok(false),
    }
}

// What a text is under a schema, if it has no RETURNING and reads no time.
fn meant(alloc: Global, schema: &Schema, sql: &str) -> Result<Option<Statement>, Fault>
    ensures given { IfOk result (λ given. (c : statement.Command) → (option_map (λ s. s.compiled.command) given ≡ Some c) ↔ IsMeant schema.now sql.now c) }
    ensures failed { IfErr result (λ fault. fault ≡ Memory) }
{
    match Statement::read(alloc, schema, sql)? {
        Some(given) => Ok(plain(given)),
        None => Ok(None),
    }
}

// The statement, if there is nothing beside its command.
fn plain(given: Statement) -> Option<Statement>
    ensures { (c : statement.Command) → (option_map (λ s. s.compiled.command) result ≡ Some c) ↔ (essence (Ok given.compiled) ≡ Some (c, None, [])) }
{
    if given.is_plain() { Some(given) } else { None }
}
