ghost use Rattle.std.specs.Prelude.{◌≡◌};
ghost use Rattle.fare_net.specs.Sources.{Listens};
ghost use Rattle.fare_serve.specs.Lines.{IsUnheard};

use crate::limits::Limits;
use crate::line::{Line, LineSource};
use fare_net::NetSource;
use fare_source::Source;
use std::alloc::Global;
use std::io;
use std::marker::Model;
use std::net::{TcpListener, TcpStream};
use std::time::Duration;

/// How many connections may wait for their greeting at once.
pub(crate) const MOST_GUESTS: usize = 16;

/// How often each of them is read for it.
const MOST_READS: u32 = 100;

/// A connection that has not greeted yet: no frame was taken off it, and it was answered nothing.
#[derive(Drop)]
pub(crate) struct Guest {
    source: LineSource,
    reads: u32,
}

impl Model for Guest {
    ghost use Rattle.fare_net.specs.NetValue.{NetValue};
    ghost use Rattle.fare_serve.specs.Lines.{IsUnheard};

    ghost Value = { NetValue };

    ghost view = { λ g. g.source };

    ghost invariant = { λ g. IsUnheard g.source };
}

impl Guest {
    // A connection that has not been read, whose reads and writes don't wait for long, and which is read at most so
    // often.
    fn open(alloc: Global, stream: TcpStream, limits: Limits, reads: u64) -> io::Result<Guest> {
        stream.set_nodelay(true)?;
        stream.set_nonblocking(false)?;
        stream.set_read_timeout(Some(Duration::from_millis(u64::from(limits.read_millis))))?;
        stream.set_write_timeout(Some(Duration::from_millis(u64::from(limits.write_millis))))?;
        let writer = Line::Open(stream.try_clone()?);
        let source = NetSource::new(alloc, Line::Open(stream), writer, reads)?;
        Ok(Guest { source, reads: 0 })
    }

    // Reads it once; whether its greeting, or that there is none, is known now.
    pub(crate) fn is_heard(&mut self) -> bool
        ensures { Listens self.old self.new }
    {
        self.reads = self.reads.saturating_add(1);
        self.source.is_ready()
    }

    // Whether it was read as often as a guest may be.
    pub(crate) fn is_overdue(&self) -> bool {
        self.reads >= MOST_READS
    }

    pub(crate) fn into_source(self) -> LineSource
        ensures is { result ≡ self }
        ensures unheard { IsUnheard result }
    {
        let Guest { source, reads: _ } = self;
        source
    }
}

// Takes the connections that wait, as far as there is room. One that can't be taken is let go.
pub(crate) fn welcome(
    alloc: Global,
    listener: &TcpListener,
    limits: Limits,
    reads: u64,
    guests: &mut Vec<Guest>,
) {
    for _ in 0..MOST_GUESTS {
        if guests.len() >= MOST_GUESTS {
            return;
        }
        let Ok((stream, _)) = listener.accept() else {
            return;
        };
        if let Ok(guest) = Guest::open(alloc, stream, limits, reads) {
            let _ = guests.push(guest);
        }
    }
}
