//! Databases in disks in memory that fail, and a database whose machine stopped and came back.
use sqlite::{Alter, Connection, FileStore, Files, Options};
use sqlite_disk::Crash;
use sqlite_trees::store::Reopen;
use std::alloc::Global;

/// The database after the machine stopped and came back.
pub(crate) fn reopened<S: Alter + Reopen + Drop>(
    alloc: Global,
    conn: Connection<S>,
) -> Option<Connection<S>> {
    let mut store = conn.into_store();
    store.crash_and_reopen().ok()?;
    Connection::over(alloc, store).ok()
}

/// A database in two files, if it can be opened.
pub(crate) fn database<D: Crash + Drop>(
    alloc: Global,
    files: Files<D>,
) -> Option<Connection<FileStore<D>>> {
    if !files.may_be_used() {
        return None;
    }
    Connection::open_files(alloc, files, Options::new(1)).ok()
}
