ghost use Rattle.std.specs.Prelude.{◌≡◌, true, Err, OnOk, IfErr, IfSome};
ghost use Rattle.fare_replay.specs.Replay.{ReplayFails, Replays};

use fare_replay::{ReplayFault, replay, replay_sql};
use std::alloc::Global;
use std::io::{Read, Write};

/// Replays what a reader gives to a writer, over tables or over lists, where no store fails. Each fault comes
/// as `replay` and `replay_sql` say.
pub fn replay_over<I: Read, O: Write>(
    alloc: Global,
    sql: bool,
    input: &mut I,
    output: &mut O,
) -> Result<(), ReplayFault>
    ensures replays { OnOk result (IfSome (I.remaining input.old) (Replays (O.contents output.old) (O.contents output.new))) }
    ensures fails { IfErr result (ReplayFails (I.remaining input.old) (O.contents output.old) (O.contents output.new)) }
    ensures tables { result ≡ Err ReplayFault.Store → sql ≡ true }
{
    if sql {
        replay_sql(alloc, input, output)
    } else {
        replay(alloc, input, output)
    }
}
