ghost use Rattle.std.specs.Prelude.{◌≡◌, ◌≢◌, ◌⊎◌, OnOk, IfErr};
ghost use Rattle.std.specs.Io.KnownBytes.{Appends, Keeps};
ghost use Rattle.fare_lines.specs.Replies.{reply_text};
ghost use Rattle.fare_desk.specs.declared.fault.DeskFault.TheVariants.{Memory, Write};

use crate::fault::DeskFault;
use fare_event::Reply;
use fare_lines::print_reply;
use std::alloc::Global;
use std::io::Write;

// Writes a text to its end.
pub(crate) fn write_text<W: Write>(output: &mut W, text: &[u8]) -> Result<(), DeskFault>
    ensures written { OnOk result (Appends (W.contents output.old) (W.contents output.new) text.now) }
    ensures failed { IfErr result (λ fault. fault ≡ Write) }
{
    if output.write_all(text).is_err() || output.flush().is_err() {
        return Err(DeskFault::Write);
    }
    Ok(())
}

// Writes a reply as a trace has it. Nothing is written where there is no memory for its text.
pub(crate) fn write_reply<W: Write>(
    alloc: Global,
    reply: &Reply,
    output: &mut W,
) -> Result<(), DeskFault>
    ensures written { OnOk result (Appends (W.contents output.old) (W.contents output.new) (reply_text reply.now)) }
    ensures failed { IfErr result (λ fault. (fault ≡ Memory) ⊎ (fault ≡ Write)) }
    ensures kept { IfErr result (λ fault. fault ≢ Write → Keeps (W.contents output.old) (W.contents output.new)) }
{
    let mut text = Vec::new(alloc);
    print_reply(reply, &mut text)?;
    write_text(output, &text)
}
