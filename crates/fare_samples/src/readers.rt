//! Readers and writers for the tests.

use std::io;
use std::io::{Read, Write};

/// Gives one byte a read, after an interrupted one, and ends or fails where there is none left.
#[derive(Drop)]
pub struct Bytewise<'a> {
    pub bytes: &'a [u8],
    pub interrupts: bool,
    pub fails: bool,
}

impl Read for Bytewise<'_> {
    fn read(&mut self, buf: &mut [u8]) -> io::Result<usize> {
        if self.interrupts {
            self.interrupts = false;
            return Err(io::ErrorKind::Interrupted.into());
        }
        if self.bytes.is_empty() || buf.is_empty() {
            return if self.fails {
                Err(io::ErrorKind::Other.into())
            } else {
                Ok(0)
            };
        }
        buf[0] = self.bytes[0];
        self.bytes = &self.bytes[1..];
        Ok(1)
    }
}

/// Gives so many bytes 0, at most so many a read, after so many interrupted reads.
#[derive(Drop)]
pub struct Zeros {
    pub left: usize,
    pub most: usize,
    pub interrupts: usize,
}

impl Read for Zeros {
    fn read(&mut self, buf: &mut [u8]) -> io::Result<usize> {
        if self.interrupts > 0 {
            self.interrupts -= 1;
            return Err(io::ErrorKind::Interrupted.into());
        }
        let given = self.left.min(self.most).min(buf.len());
        for byte in &mut buf[..given] {
            *byte = 0;
        }
        self.left -= given;
        Ok(given)
    }
}

/// Takes no byte.
#[derive(Drop)]
pub struct Closed;

impl Write for Closed {
    fn write(&mut self, _buf: &[u8]) -> io::Result<usize> {
        Err(io::ErrorKind::BrokenPipe.into())
    }

    fn flush(&mut self) -> io::Result<()> {
        Ok(())
    }
}

/// Takes each byte, and then keeps none.
#[derive(Drop)]
pub struct Lossy;

impl Write for Lossy {
    fn write(&mut self, buf: &[u8]) -> io::Result<usize> {
        Ok(buf.len())
    }

    fn flush(&mut self) -> io::Result<()> {
        Err(io::ErrorKind::Other.into())
    }
}
