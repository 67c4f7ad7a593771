ghost use Rattle.std.specs.Prelude.{◌≡◌, ◌∷◌, [], Ok, Some, IfOk, IfErr};
ghost use Rattle.fare_writer.specs.Counting.{Counts};
ghost use Rattle.fare_writer.specs.Keeping.{HasKept};
ghost use Rattle.fare_writer.specs.Writing.{Puts};
ghost use Rattle.fare_inbox_queue.specs.declared.arrived.Arrived.TheVariants.{Tap, Stated};

use crate::fault::WriterFault;
use crate::halt::Halt;
use crate::tally::Tally;
use fare_inbox_queue::Arrived;
use fare_record::{Record, Statement};
use fare_scheme::Scheme;
use fare_store::{Outbox, Refused, StatedFault, StoreFault};

// Notes a statement's day, stores an item, and counts it if it is new: whether it is. A fault has the item in its hand.
pub(crate) fn store<O: Outbox>(
    scheme: &Scheme,
    item: &Arrived,
    tally: &mut Tally,
    outbox: &mut O,
) -> Result<bool, Halt>
    ensures stored { IfOk result (λ new. Puts (O.standing outbox.old) (O.standing outbox.new) item.now (Ok new) × Counts scheme.now item.now tally.old tally.new new) }
    ensures halted { IfErr result (λ halt. HasKept scheme.now (O.standing outbox.old) (O.standing outbox.new) (item.now ∷ []) tally.old tally.new (Some halt)) }
    ensures alone { IfErr result (λ halt. halt.behind ≡ 0) }
{
    if tally.note(scheme, item).is_err() {
        return Err(Halt {
            hand: Some(*item),
            behind: 0,
            fault: WriterFault::Memory,
        });
    }
    match put_item(outbox, item) {
        Ok(new) => {
            if new {
                tally.count();
            }
            Ok(new)
        }
        Err(fault) => Err(Halt {
            hand: Some(*item),
            behind: 0,
            fault,
        }),
    }
}

// Stores an item: whether it was stored, and not before.
fn put_item<O: Outbox>(outbox: &mut O, item: &Arrived) -> Result<bool, WriterFault>
    ensures { Puts (O.standing outbox.old) (O.standing outbox.new) item.now result }
{
    match item {
        Arrived::Tap(_, row) => put_row(outbox, row),
        Arrived::Stated(_, statement) => put_statement(outbox, statement),
    }
}

// Stores a tap.
fn put_row<O: Outbox>(outbox: &mut O, row: &Record) -> Result<bool, WriterFault>
    ensures { Puts (O.standing outbox.old) (O.standing outbox.new) (Tap 0 row.now) result }
{
    match outbox.store(row) {
        Ok(()) => Ok(true),
        Err(Refused::Because(why)) => match why {
            StoreFault::Duplicate => Ok(false),
            StoreFault::Gap => Err(WriterFault::Refused),
            StoreFault::Conflict => Err(WriterFault::Refused),
            StoreFault::OutboxFull => Err(WriterFault::Refused),
        },
        Err(Refused::Failed(fault)) => Err(WriterFault::from(fault)),
    }
}

// Stores a statement.
fn put_statement<O: Outbox>(outbox: &mut O, statement: &Statement) -> Result<bool, WriterFault>
    ensures { Puts (O.standing outbox.old) (O.standing outbox.new) (Stated 0 statement.now) result }
{
    match outbox.store_statement(statement) {
        Ok(()) => Ok(true),
        Err(Refused::Because(why)) => match why {
            StatedFault::Duplicate => Ok(false),
            StatedFault::Conflict => Err(WriterFault::Refused),
            StatedFault::OutboxFull => Err(WriterFault::Refused),
        },
        Err(Refused::Failed(fault)) => Err(WriterFault::from(fault)),
    }
}
