ghost use Rattle.fare_serve.specs.Lines.{held_by, left_on};

use fare_net::NetSource;
use std::io;
use std::io::{Read, Write};
use std::net::TcpStream;

/// One side of a station's line: a stream, of which it reads and to which it writes no other bytes than are asked of it;
/// or none, which is at its end and takes what is sent nowhere.
#[derive(Drop)]
pub enum Line<T> {
    Open(T),
    Absent,
}

/// A station's line as a source.
pub type LineSource = NetSource<Line<TcpStream>, Line<TcpStream>>;

impl<T: Read> Read for Line<T> {
    ghost remaining = { left_on T.remaining };

    fn read(&mut self, buf: &mut [u8]) -> io::Result<usize> {
        match self {
            Line::Open(stream) => stream.read(buf),
            Line::Absent => Ok(0),
        }
    }
}

impl<T: Write> Write for Line<T> {
    ghost contents = { held_by T.contents };

    fn write(&mut self, buf: &[u8]) -> io::Result<usize> {
        match self {
            Line::Open(stream) => stream.write(buf),
            Line::Absent => Ok(buf.len()),
        }
    }

    fn flush(&mut self) -> io::Result<()> {
        match self {
            Line::Open(stream) => stream.flush(),
            Line::Absent => Ok(()),
        }
    }
}
