ghost use Rattle.std.specs.Prelude.{◌≡◌, ◌≤◌, ◌+◌, ◌++◌, OnOk, IfErr, vec_capacity, vec_len, Err};
ghost use Rattle.std.specs.Io.KnownBytes.{Appends, Keeps};
ghost use Rattle.fare_frame.specs.Grammar.{frame_bytes};

use crate::AnswerFault;
use fare_frame::{Frame, LONGEST_FRAME};
use std::alloc::Global;
use std::io::Write;

// Spells a frame behind what was spelled before; there is room for any frame.
pub(crate) fn spell(frame: &Frame, spelled: &mut Vec<u8>)
    requires { vec_len spelled.old + 51 ≤ vec_capacity spelled.old }
    ensures bytes { spelled.new.items ≡ spelled.old.items ++ frame_bytes frame.now }
    ensures room { vec_capacity spelled.old ≤ vec_capacity spelled.new }
{
    if frame.put(spelled).is_err() {
        unreachable!()
    }
}

// Writes bytes whole, and flushes.
pub(crate) fn send<W: Write>(writer: &mut W, bytes: &[u8]) -> Result<(), AnswerFault>
    ensures ok { OnOk result (Appends (W.contents writer.old) (W.contents writer.new) bytes.now) }
    ensures fails { IfErr result (λ fault. fault ≡ AnswerFault.Write) }
{
    if writer.write_all(bytes).is_err() || writer.flush().is_err() {
        return Err(AnswerFault::Write);
    }
    Ok(())
}

/// Sends a frame.
///
/// `Memory` where there was none for its spelling; nothing was written then. `Write` where the writer failed; how much
/// of the frame went out is not said.
pub fn station_answer<W: Write>(
    alloc: Global,
    writer: &mut W,
    frame: &Frame,
) -> Result<(), AnswerFault>
    ensures ok { OnOk result (Appends (W.contents writer.old) (W.contents writer.new) (frame_bytes frame.now)) }
    ensures memory { result ≡ Err AnswerFault.Memory → Keeps (W.contents writer.old) (W.contents writer.new) }
{
    let Ok(mut spelled) = Vec::with_capacity(alloc, LONGEST_FRAME) else {
        return Err(AnswerFault::Memory);
    };
    spell(frame, &mut spelled);
    send(writer, &spelled)
}
