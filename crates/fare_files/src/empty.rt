ghost use Rattle.std.specs.Prelude.{OnOk};
ghost use Rattle.std.specs.Io.KnownBytes.{Appends};
ghost use Rattle.fare_files.specs.Empty.{empty_database};

use std::io::{self, Write};

// The database's name, its pages of 1,024 bytes, how they are used, its first change, one page, and the first schema.
const START: [u8; 48] = [
    b'S', b'Q', b'L', b'i', b't', b'e', b' ', b'f', b'o', b'r', b'm', b'a', b't', b' ', b'3', 0, //
    4, 0, 1, 1, 0, 64, 32, 32, 0, 0, 0, 1, 0, 0, 0, 1, //
    0, 0, 0, 0, 0, 0, 0, 0, 0, 0, 0, 1, 0, 0, 0, 0,
];

// What a new database has not set.
const UNSET: [u8; 44] = [0; 44];

// The change that the header is valid for, the version of SQLite, and the header of a page with no cell.
const END: [u8; 16] = [0, 0, 0, 1, 0, 46, 99, 1, 13, 0, 0, 0, 0, 4, 0, 0];

// The rest of the page.
const ROOM: [u8; 916] = [0; 916];

/// Writes an empty database of SQLite with one page of 1,024 bytes (<https://www.sqlite.org/fileformat.html>, 1.3
/// and 1.6). After an error a part of it may be written.
pub fn write_empty<W: Write>(file: &mut W) -> io::Result<()>
    ensures { OnOk result (Appends (W.contents file.old) (W.contents file.new) empty_database) }
{
    file.write_all(&START)?;
    file.write_all(&UNSET)?;
    file.write_all(&END)?;
    file.write_all(&ROOM)
}
