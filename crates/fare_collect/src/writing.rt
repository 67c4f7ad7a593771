ghost use Rattle.std.specs.Prelude.{◌≡◌, []};
ghost use Rattle.std.specs.Result.{result_err};
ghost use Rattle.fare_inbox_queue.specs.InboxPasses.{taken_list, stations_of, IsWriterOf};
ghost use Rattle.fare_writer.specs.Handling.{AreTellers, HasWritten};

use crate::ended::Ended;
use fare_inbox_queue::{AckLine, Inbox, WriterPass};
use fare_session::{Gate, Turns};
use fare_store::Outbox;
use fare_writer::{Floor, Halt, Tally, Teller, handle_batch};
use std::sync::Wait;
use std::time::Clock;

// The writer's thread: stores what the inbox has, and tells each station what it may acknowledge.
pub(crate) fn write_all<O: Outbox, G: Gate, R: Wait + Clock>(
    floor: &Floor<G, R>,
    inbox: &Inbox,
    lines: &[AckLine],
    ended: &Ended,
    tally: &mut Tally,
    outbox: &mut O,
    writer: &mut WriterPass,
    tellers: &mut [Teller],
) -> Result<(), Halt>
    requires queue { IsWriterOf inbox.now writer.old × (taken_list writer.old ≡ []) }
    requires ready { AreTellers lines.now tellers.old }
    ensures queue { IsWriterOf inbox.now writer.new × (stations_of writer.new ≡ stations_of writer.old) }
    ensures ready { AreTellers lines.now tellers.new }
    ensures written { HasWritten floor.now.scheme.now (O.standing outbox.old) (O.standing outbox.new) (taken_list writer.new) tellers.old tellers.new tally.old tally.new (result_err result) }
{
    let mut turns = Turns::new(floor.pace.turns);
    for _ in floor.pace.rt.forever() {
        let all_ended = ended.stations() >= lines.len() as u64;
        match inbox.take(floor.pace.rt, writer) {
            Some(item) => {
                turns.found();
                if let Err(halt) = handle_batch(
                    floor, inbox, lines, item, tally, outbox, writer, tellers,
                ) {
                    ended.writer_ends();
                    return Err(halt);
                }
            }
            None => {
                turns.spend(floor.pace.rt, floor.pace.gate);
                if all_ended || turns.are_used_up() {
                    break;
                }
            }
        }
    }
    ended.writer_ends();
    Ok(())
}
