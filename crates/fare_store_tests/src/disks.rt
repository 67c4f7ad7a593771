//! Databases in disks in memory that fail, what is done over one, and a database whose machine stopped and came back.
use sqlite::{Alter, Connection, FileStore, Files, Options};
use sqlite_disk::{Crash, Fuse, Memory};
use sqlite_trees::store::Reopen;
use std::alloc::Global;

/// The database after the machine stopped and came back.
pub(crate) fn reopened<S: Alter + Reopen + Drop>(
    alloc: Global,
    conn: Connection<S>,
) -> Option<Connection<S>> {
    let mut store = conn.into_store();
    store.crash_and_reopen().ok()?;
    Connection::over(alloc, store).ok()
}

// A database in two files, if it can be opened.
fn database<D: Crash + Drop>(alloc: Global, files: Files<D>) -> Option<Connection<FileStore<D>>> {
    if !files.may_be_used() {
        return None;
    }
    Connection::open_files(alloc, files, Options::new(1)).ok()
}

/// What is done over a database whose disks may fail.
pub(crate) trait Trial {
    /// What is seen of it.
    type Seen;

    /// Does it, and answers what is seen; nothing where the trial itself fails.
    fn run<S: Alter + Reopen + Drop>(
        &self,
        alloc: Global,
        conn: Connection<S>,
    ) -> Option<Self::Seen>;
}

// A trial over a database in two files, if it can be opened. It alone calls what is for any store at the kind of these
// files, which is slow to prove.
fn in_files<D: Crash + Drop, T: Trial>(
    alloc: Global,
    files: Files<D>,
    trial: &T,
) -> Option<Option<T::Seen>> {
    let Some(conn) = database(alloc, files) else {
        return Some(None);
    };
    Some(Some(trial.run(alloc, conn)?))
}

/// A trial over a database in two disks in memory that fail after so many calls, of which one holds this file: what is
/// seen of it, or nothing in it if they fail before the database is open.
pub(crate) fn tried_over<T: Trial>(
    alloc: Global,
    file: Memory,
    calls: u64,
    trial: &T,
) -> Option<Option<T::Seen>> {
    let files = Files {
        log: Fuse::new(Memory::new(alloc), calls),
        db: Fuse::new(file, calls),
    };
    in_files(alloc, files, trial)
}

/// The same with no file.
pub(crate) fn tried<T: Trial>(alloc: Global, calls: u64, trial: &T) -> Option<Option<T::Seen>> {
    tried_over(alloc, Memory::new(alloc), calls, trial)
}
