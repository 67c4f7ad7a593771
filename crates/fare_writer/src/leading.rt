//! The taps at the head of several items, all at once.
ghost use Rattle.std.specs.Prelude.{◌≡◌, ◌≤◌, length, Some, Ok, IfOk, IfErr};
ghost use Rattle.fare_scheme.specs.Values.{SchemeValue};
ghost use Rattle.fare_writer.specs.Batches.{AreTaps, BeginWithTaps, StoresFirst, HaltsBefore};
ghost use Rattle.fare_writer.specs.Handling.{batch_of};
ghost use Rattle.fare_writer.specs.Keeping.{HasKept};
ghost use Rattle.fare_writer.specs.declared.tally.Tally.{Tally};

use crate::fault::WriterFault;
use crate::halt::Halt;
use fare_inbox_queue::Arrived;
use fare_record::Record;
use fare_store::Outbox;

// The rows of the taps before the first statement, and how many these are.
fn lead(items: &[Arrived], rows: &mut [Record]) -> usize
    requires { length items.now ≤ length rows.old }
    ensures taps { AreTaps items.now rows.new result }
    ensures few { result ≤ length items.now }
{
    for place in 0..items.len() {
        match items[place] {
            Arrived::Tap(_, row) => rows[place] = row,
            Arrived::Stated(_, _) => return place,
        }
    }
    items.len()
}

// Stores the taps before the first statement all at once, or the first of them, and answers how many these are. Where
// the outbox fails the first item is in the hand, and the others stand behind it.
pub(crate) fn store_lead<O: Outbox>(
    outbox: &mut O,
    items: &[Arrived],
    rows: &mut [Record],
) -> Result<usize, Halt>
    requires some { 1 ≤ length items.now }
    requires room { length items.now ≤ length rows.old }
    ensures stored { IfOk result (λ n. StoresFirst (O.standing outbox.old) (O.standing outbox.new) items.now (Ok n) × BeginWithTaps items.now n) }
    ensures halted { IfErr result (λ halt. (sc : SchemeValue) (tally : Tally) → length items.now ≤ batch_of sc → HasKept sc (O.standing outbox.old) (O.standing outbox.new) items.now tally tally (Some halt)) }
{
    let count = lead(items, rows);
    match outbox.store_all(&rows[..count]) {
        Ok(stored) => Ok(stored),
        Err(fault) => Err(Halt {
            hand: Some(items[0]),
            behind: (items.len() - 1) as u64,
            fault: WriterFault::from(fault),
        }),
    }
}

// What ended the writer at an item, with those of its batch that stand behind that one.
pub(crate) fn halted(halt: Halt, rest: &[Arrived]) -> Halt
    requires { halt.behind ≡ 0 }
    ensures { HaltsBefore halt rest.now result }
{
    let count = rest.len() as u64;
    if halt.hand.is_some() {
        return Halt {
            hand: halt.hand,
            behind: count,
            fault: halt.fault,
        };
    }
    match rest.first() {
        None => halt,
        Some(next) => Halt {
            hand: Some(*next),
            behind: count - 1,
            fault: halt.fault,
        },
    }
}
