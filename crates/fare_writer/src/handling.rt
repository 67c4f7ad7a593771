ghost use Rattle.std.specs.Prelude.{◌≡◌, ◌∷◌, [], IfErr};
ghost use Rattle.std.specs.Result.{result_err};
ghost use Rattle.fare_inbox_queue.specs.Line.{IsUpTo};
ghost use Rattle.fare_writer.specs.Handling.{AreTellers, HasTold, HasWritten};

use crate::floor::Floor;
use crate::halt::Halt;
use crate::storing::store;
use crate::tally::Tally;
use crate::teller::Teller;
use fare_inbox_queue::{AckLine, Arrived};
use fare_record::{Ack, AckItem, DayAck};
use fare_route::are_stated;
use fare_session::{Gate, Point};
use fare_store::Outbox;
use std::sync::Wait;
use std::time::Clock;

// Puts an answer into the line at a place, if there is one. A full line drops it.
pub(crate) fn tell<R: Wait + Clock>(
    rt: &R,
    lines: &[AckLine],
    place: Option<usize>,
    item: AckItem,
    stored: u64,
    tellers: &mut [Teller],
) -> bool
    requires ready { AreTellers lines.now tellers.old }
    requires stored { IsUpTo item stored }
    ensures ready { AreTellers lines.now tellers.new }
    ensures told { HasTold place item tellers.old tellers.new result }
{
    let Some(place) = place else {
        return false;
    };
    if place >= tellers.len() {
        return false;
    }
    let teller = &mut tellers[place];
    if lines[place]
        .put(rt, &mut teller.pass, item, stored)
        .is_err()
    {
        return false;
    }
    teller.told = teller.told.saturating_add(1);
    true
}

/// Stores an item, and only then tells its station's line what may be acknowledged: of a tap that is new its link, of a
/// statement its day, if the outbox then holds those of all owners. A full line drops that.
///
/// An error ends the writer. With the item in its hand: `Memory` where none is left to note a statement's day,
/// before the outbox is called, or for the outbox itself, `Refused` where the outbox refuses the item, and `Store` where
/// it fails. With an empty hand, once the item was stored or had been before: `Memory` or `Store` where the outbox can't
/// say which statements it holds.
pub fn handle<O: Outbox, G: Gate, R: Wait + Clock>(
    floor: &Floor<G, R>,
    lines: &[AckLine],
    item: Arrived,
    tally: &mut Tally,
    outbox: &mut O,
    tellers: &mut [Teller],
) -> Result<(), Halt>
    requires ready { AreTellers lines.now tellers.old }
    ensures ready { AreTellers lines.now tellers.new }
    ensures written { HasWritten floor.now.scheme.now (O.standing outbox.old) (O.standing outbox.new) (item ∷ []) tellers.old tellers.new tally.old tally.new (result_err result) }
    ensures alone { IfErr result (λ halt. halt.behind ≡ 0) }
{
    let new = store(floor.scheme, &item, tally, outbox)?;
    if new {
        floor.pace.gate.pass(Point::WriterCommitted);
        floor.pace.gate.pass(Point::WriterStored);
    }
    match item {
        Arrived::Tap(station, row) => {
            if new {
                let ack = AckItem::Upto(Ack::new(row.device(), row.link()));
                let place = floor.scheme.station_position(station);
                tell(floor.pace.rt, lines, place, ack, row.link(), tellers);
            }
            Ok(())
        }
        Arrived::Stated(station, statement) => {
            let device = statement.device();
            let day = statement.day();
            let held = are_stated(floor.scheme, outbox, device, day)?;
            if held {
                let ack = AckItem::Day(DayAck::new(device, day));
                let place = floor.scheme.station_position(station);
                tell(floor.pace.rt, lines, place, ack, 0, tellers);
            }
            Ok(())
        }
    }
}
