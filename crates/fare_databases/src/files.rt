ghost use Rattle.std.specs.Prelude.{◌≡◌, false, length, IfOk};
ghost use Rattle.sqlite_store.specs.FileStore.{view};
ghost use Rattle.sqlite_wal.specs.Files.{image_at};
ghost use Rattle.sqlite.specs.Files.{IsBlankAs, file_state};
ghost use Rattle.sqlite.specs.Start.{FindsIn};
ghost use Rattle.sqlite.specs.State.{HasCleanDisk};
ghost use Rattle.fare_databases.specs.Connected.{IsConnected, AreConnected};

use crate::databases::{Databases, end, take_last};
use fare_files::make_file;
use fare_record::OwnerId;
use fare_scheme::Scheme;
use fare_store::Fault;
use fare_tables::fault_of;
use sqlite::Connection;
use sqlite_disk::{Start, Unknown};
use sqlite_std_file::{File, FileFrom};
use sqlite_store::FileStore;
use std::fs;
use std::io::ErrorKind;

/// A connection to a database in a file of this machine.
pub type FileDatabase = Connection<FileStore<File>>;

/// The databases of a scheme's stores in files of this machine.
pub type FileDatabases = Databases<FileStore<File>>;

/// What comes of a database that isn't there.
#[derive(Clone, Copy, PartialEq, Eq, Debug)]
pub enum Absent {
    /// It is made.
    Made,
    /// The store failed.
    Refused,
}

// Makes the file of a database, if there is none.
fn make(rt: &HostRuntime, path: &str) -> Result<(), Fault> {
    match make_file(rt, path) {
        Ok(_) => Ok(()),
        Err(error) if error.kind() == ErrorKind::OutOfMemory => Err(Fault::Memory),
        Err(_) => Err(Fault::Store),
    }
}

// Whether the file of a database is there, which opening it would make.
fn find(rt: &HostRuntime, path: &str) -> Result<(), Fault> {
    if fs::exists(rt, path).unwrap_or(false) {
        Ok(())
    } else {
        Err(Fault::Store)
    }
}

/// Connects to the database in the file at a path. A file that isn't there is made, or refused. `S` stands for what the file
/// and its log hold as they are opened, which no code can read: the database that is found is what they held, whatever that
/// is, and where they held nothing its pages get no sums. The program names `Unknown`, at which that says nothing of a file
/// that isn't empty.
///
/// `Memory` where there was none for it, and `Store` where the file can't be made or opened, among others since another
/// program has it open.
pub fn connect_file<S: Start>(
    rt: &HostRuntime,
    path: &str,
    absent: Absent,
    start: S,
) -> Result<Connection<FileStore<FileFrom<S>>>, Fault>
    ensures connected { IfOk result IsConnected }
    ensures found { IfOk result (λ c. HasCleanDisk (file_state c) → FindsIn (image_at S.Start) (file_state c)) }
    ensures sums { IfOk result (λ c. HasCleanDisk (file_state c) → IsBlankAs false (image_at S.Start) → (view c.store).has_sums ≡ false) }
{
    match absent {
        Absent::Made => make(rt, path)?,
        Absent::Refused => find(rt, path)?,
    }
    match Connection::open_from(rt, path, false, start) {
        Ok(connection) => Ok(connection),
        Err((error, _)) => Err(fault_of(error)),
    }
}

// A connection to the database of an owner's ledger.
fn connect_owner(
    rt: &HostRuntime,
    owner: OwnerId,
    path: &str,
    absent: Absent,
) -> Result<FileDatabase, Fault>
    ensures { IfOk result IsConnected }
{
    let number = owner.get();
    let path = format!(in rt.alloc(); "{path}.{number}")?;
    connect_file(rt, path.as_str(), absent, Unknown)
}

/// Closes a database in a file, so that all its rows are in the one file that its path names. Where that fails no row is lost:
/// they are also in the log beside the file, from which the next open takes them.
pub fn close_file(database: FileDatabase) {
    let _ = database.close();
}

/// Connects to the databases of a scheme's stores in files: that of the outbox at a path, and that of each owner's ledger,
/// in the scheme's order, at that path, a dot and the owner's number. A file that isn't there is made, or refused.
///
/// `Memory` where there was none for it, and `Store` where a file can't be made or opened, among others since another
/// program has it open, in the order in which they are opened; a file that was made before stays.
pub fn connect_files(
    rt: &HostRuntime,
    scheme: &Scheme,
    path: &str,
    absent: Absent,
) -> Result<FileDatabases, Fault>
    ensures owners { IfOk result (λ databases. length databases.ledgers.items ≡ length scheme.now.owners) }
    ensures connected { IfOk result AreConnected }
{
    let mut databases = Databases::first(rt.alloc(), connect_file(rt, path, absent, Unknown))?;
    for owner in scheme.owners() {
        databases = databases.and(connect_owner(rt, *owner, path, absent))?;
    }
    Ok(databases)
}

/// Closes databases in files, each as `close_file` does.
pub fn close_files(databases: FileDatabases) {
    let Databases {
        outbox,
        mut ledgers,
    } = databases;
    close_file(outbox);
    for _ in 0..ledgers.len() {
        if let Some(database) = take_last(&mut ledgers) {
            close_file(database);
        }
    }
    end(ledgers);
}
