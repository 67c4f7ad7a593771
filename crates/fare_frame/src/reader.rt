ghost use Rattle.std.specs.Prelude.{◌≡◌, ◌≢◌, ◌↔◌, ◌≤◌, ◌++◌, true, false, length, take, vec_capacity, IfOk, IfErr, OnOk, OnErr, IsErrOf};
ghost use Rattle.fare_frame.specs.Grammar.{IsRest};
ghost use Rattle.fare_frame.specs.Reading.{fresh_reader, failed_reader, Reads, Stops, Overfills, IsBad};

use crate::place::{next_frame, read_frames};
use crate::{Frame, LONGEST_FRAME, ReadFault};
use std::alloc::{AllocError, Global};
use std::marker::Model;

/// Reads frames from a stream that comes in pieces. It holds back what is less than a frame, never more.
#[derive(Debug, Drop)]
pub struct Reader {
    held: Vec<u8>,
    failed: bool,
}

impl Model for Reader {
    ghost use Rattle.std.specs.Prelude.{◌≤◌, vec_capacity};
    ghost use Rattle.fare_frame.specs.Grammar.{IsRest};
    ghost use Rattle.fare_frame.specs.Reading.{ReaderValue};

    ghost Value = { ReaderValue };

    ghost view = { λ r. record { held = r.held.items; failed = r.failed } };

    ghost invariant = { λ r. IsRest r.held.items × (51 ≤ vec_capacity r.held) };
}

impl Reader {
    /// A reader at the beginning of a stream, with room for the longest frame.
    pub fn new(alloc: Global) -> Result<Reader, AllocError>
        ensures { IfOk result (λ reader. reader ≡ fresh_reader) }
    {
        Ok(Reader {
            held: Vec::with_capacity(alloc, LONGEST_FRAME)?,
            failed: false,
        })
    }

    /// Takes the next piece of the stream, and adds each frame that is whole now to the list.
    ///
    /// `BadLength`, `BadType` or `BadBody` where that fault stands behind the frames that were added; the
    /// stream has then failed. `Memory` where there was none to make room for the frames; reader and list are
    /// then as before. `Failed`, which is tested first, where the stream had failed.
    pub fn feed(&mut self, piece: &[u8], frames: &mut Vec<Frame>) -> Result<(), ReadFault>
        ensures ok { OnOk result (Reads (self.old.held ++ piece.now) frames.old.items frames.new.items self.new.held) }
        ensures rest { OnOk result (IsRest self.new.held × (self.new.failed ≡ false)) }
        ensures stopped { IfErr result (λ fault. IsBad fault → Stops fault (self.old.held ++ piece.now) frames.old.items frames.new.items) }
        ensures ended { IfErr result (λ fault. IsBad fault → self.new ≡ failed_reader) }
        ensures memory { IsErrOf result ReadFault.Memory → (self.new ≡ self.old) × (frames.new.items ≡ frames.old.items) }

        // It comes only where the list had no room for all the frames.
        ensures full { IsErrOf result ReadFault.Memory → Overfills (vec_capacity frames.old) frames.old.items (self.old.held ++ piece.now) }
        ensures failed { IsErrOf result ReadFault.Failed ↔ (self.old.failed ≡ true) }
        ensures closed { IsErrOf result ReadFault.Failed → (self.new ≡ self.old) × (frames.new.items ≡ frames.old.items) }

        // The list keeps its room, whatever the answer.
        ensures room { vec_capacity frames.old ≤ vec_capacity frames.new }
    {
        if self.failed {
            return Err(ReadFault::Failed);
        }
        let (held, count) = (self.held.len(), frames.len());
        let read = read_piece(&mut self.held, piece, frames);
        match read {
            Ok(()) => {}
            Err(ReadFault::Memory) => {
                self.held.truncate(held);
                frames.truncate(count);
            }
            Err(_) => {
                self.held.clear();
                self.failed = true;
            }
        }
        read
    }

    /// Ends the stream: each later `feed` answers `Failed`.
    pub fn fail(&mut self)
        ensures { self.new ≡ failed_reader }
    {
        self.held.clear();
        self.failed = true;
    }
}

// Reads on after the bytes that are held, and then holds what is less than a frame. After an error the bytes
// held before are still the first ones.
fn read_piece(held: &mut Vec<u8>, piece: &[u8], frames: &mut Vec<Frame>) -> Result<(), ReadFault>
    requires rest { IsRest held.old.items }
    requires room { 51 ≤ vec_capacity held.old }
    ensures room { 51 ≤ vec_capacity held.new }
    ensures ok { OnOk result (Reads (held.old.items ++ piece.now) frames.old.items frames.new.items held.new.items × IsRest held.new.items) }
    ensures stopped { IfErr result (λ fault. IsBad fault → Stops fault (held.old.items ++ piece.now) frames.old.items frames.new.items) }
    ensures memory { IsErrOf result ReadFault.Memory → Overfills (vec_capacity frames.old) frames.old.items (held.old.items ++ piece.now) }
    ensures open { IfErr result (λ fault. fault ≢ ReadFault.Failed) }
    ensures held { OnErr result (take (length held.old.items) held.new.items ≡ held.old.items) }
    ensures kept { take (length frames.old.items) frames.new.items ≡ frames.old.items }
    ensures wide { vec_capacity frames.old ≤ vec_capacity frames.new }
{
    let before = held.len();
    let room = piece.len().min(LONGEST_FRAME - before);
    let Ok(()) = held.extend_from_slice(&piece[..room]) else {
        unreachable!()
    };
    let Some((frame, size)) = next_frame(held)? else {
        return Ok(());
    };
    if frames.push(frame).is_err() {
        return Err(ReadFault::Memory);
    }
    let rest = read_frames(&piece[size - before..], frames)?;
    held.clear();
    let Ok(()) = held.extend_from_slice(rest) else {
        unreachable!()
    };
    Ok(())
}
