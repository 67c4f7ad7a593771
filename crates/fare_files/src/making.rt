use crate::write_empty;
use std::fs::{self, File};
use std::io::{self, ErrorKind};

// Removes a file, if it is there.
fn remove(rt: &HostRuntime, path: &str) -> io::Result<()> {
    match fs::remove_file(rt, path) {
        Err(error) if error.kind() == ErrorKind::NotFound => Ok(()),
        removed => removed,
    }
}

// An empty database in a new file, on the disk.
fn write_draft(rt: &HostRuntime, path: &str) -> io::Result<()> {
    let mut file = File::create_new(rt, path)?;
    write_empty(&mut file)?;
    file.sync_all()
}

/// Makes the file of a store, an empty database with pages of 1,024 bytes, unless there is one at the path, and says
/// whether it did. The file gets its name when it is whole: it is written as PATH-new, which a stop may leave behind
/// and the next call removes; till then the port opens no file that has this second name. An error is the system's,
/// among others where the folder can't be written or its file system has no second names for a file. After one there
/// is no new file at the path, unless it was PATH-new that could not be removed.
pub fn make_file(rt: &HostRuntime, path: &str) -> io::Result<bool> {
    let draft = format!(in rt.alloc(); "{path}-new")?;
    remove(rt, draft.as_str())?;
    if fs::exists(rt, path)? {
        return Ok(false);
    }
    write_draft(rt, draft.as_str())?;
    let named = fs::hard_link(rt, draft.as_str(), path);
    remove(rt, draft.as_str())?;
    match named {
        Ok(()) => Ok(true),
        Err(error) if error.kind() == ErrorKind::AlreadyExists => Ok(false),
        Err(error) => Err(error),
    }
}
