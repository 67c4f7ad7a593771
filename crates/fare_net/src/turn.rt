ghost use Rattle.std.specs.Prelude.{◌≡◌, ◌≤◌, OnOk, IfErr, IfOk, vec_capacity};
ghost use Rattle.std.specs.Io.KnownBytes.{Keeps};
ghost use Rattle.fare_net.specs.Turns.{Took, Fed, FeedFails, Turned, TurnFails, told_by};

use crate::NetFault;
use fare_frame::{Frame, ReadFault, Reader};
use std::io;
use std::io::{ErrorKind, Read};

/// The most bytes of one read.
pub const MOST_BYTES: usize = 4096;

/// What a turn of a station found.
#[derive(Clone, Copy, PartialEq, Eq, Debug)]
pub enum Turn {
    /// So many bytes, at least one.
    Read(usize),
    /// The reader is at its end.
    Ended,
    /// The read was interrupted, or its time ran out before a byte came.
    Waited,
}

// What a read tells.
fn told(read: io::Result<usize>) -> Result<Turn, NetFault>
    ensures { result ≡ told_by read }
{
    match read {
        Ok(0) => Ok(Turn::Ended),
        Ok(count) => Ok(Turn::Read(count)),
        Err(error) => match error.kind() {
            ErrorKind::Interrupted | ErrorKind::WouldBlock | ErrorKind::TimedOut => {
                Ok(Turn::Waited)
            }
            _ => Err(NetFault::Read),
        },
    }
}

// One read.
pub(crate) fn read_once<R: Read>(
    reader: &mut R,
    buffer: &mut [u8; MOST_BYTES],
) -> Result<Turn, NetFault>
    ensures ok { IfOk result (Took (R.remaining reader.old) (R.remaining reader.new) buffer.new) }
    ensures fails { IfErr result (λ fault. (fault ≡ NetFault.Read) × Keeps (R.remaining reader.old) (R.remaining reader.new)) }
{
    told(reader.read(buffer))
}

// Hands a piece of the stream to the decoder. Where there is no memory for its frames the piece is lost, so the
// decoder is failed.
pub(crate) fn feed_piece(
    decoder: &mut Reader,
    piece: &[u8],
    frames: &mut Vec<Frame>,
) -> Result<(), NetFault>
    ensures ok { OnOk result (Fed decoder.old decoder.new frames.old.items frames.new.items piece.now) }
    ensures fails { IfErr result (FeedFails decoder.old decoder.new frames.old.items frames.new.items (vec_capacity frames.old) piece.now) }
    ensures room { vec_capacity frames.old ≤ vec_capacity frames.new }
{
    match decoder.feed(piece, frames) {
        Ok(()) => Ok(()),
        Err(ReadFault::Memory) => {
            decoder.fail();
            Err(NetFault::Memory)
        }
        Err(fault) => Err(NetFault::Frame(fault)),
    }
}

/// One turn of a station: one read of at most 4,096 bytes, which the decoder is fed; the frames that are whole now are
/// added to the list.
///
/// `Read` where the reader failed; nothing changes then. `Frame` where a fault of the stream stands behind the frames
/// that were added, or where the decoder had failed before. `Memory` where the list had no room for the frames and got
/// none; the bytes read are lost, the decoder has failed, and the list is as it was.
pub fn station_turn<R: Read>(
    reader: &mut R,
    decoder: &mut Reader,
    frames: &mut Vec<Frame>,
) -> Result<Turn, NetFault>
    ensures ok { IfOk result (Turned (R.remaining reader.old) (R.remaining reader.new) decoder.old decoder.new frames.old.items frames.new.items) }
    ensures fails { IfErr result (TurnFails (R.remaining reader.old) (R.remaining reader.new) decoder.old decoder.new frames.old.items frames.new.items (vec_capacity frames.old)) }
{
    let mut buffer = [0; MOST_BYTES];
    match read_once(reader, &mut buffer) {
        Ok(Turn::Read(count)) => match feed_piece(decoder, &buffer[..count], frames) {
            Ok(()) => Ok(Turn::Read(count)),
            Err(fault) => Err(fault),
        },
        other => other,
    }
}
