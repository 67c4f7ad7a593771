ghost use Rattle.fare_writer.specs.Judging.{HasJudged};

use fare_collector::Collector;
use fare_frame::Frame;
use fare_inbox_queue::Arrived;
use fare_record::StationId;
use fare_scheme::Scheme;

/// No device sends such a frame to a station that it has greeted.
#[derive(Clone, Copy)]
pub struct UnexpectedFrame;

/// What the collector of the station with this id accepts of a frame, as an item from there: none where it refuses, and
/// it is then as it was. Refused only where no device sends such a frame to a station that it has greeted.
pub fn judge(
    scheme: &Scheme,
    id: StationId,
    frame: &Frame,
    collector: &mut Collector,
) -> Result<Option<Arrived>, UnexpectedFrame>
    ensures { HasJudged scheme.now id frame.now collector.old collector.new result }
{
    if let Some(tapped) = frame.tapped() {
        if collector.accept(scheme, &tapped).is_err() {
            return Ok(None);
        }
        return Ok(Some(Arrived::Tap(id, tapped)));
    }
    let statement = frame.stated().ok_or(UnexpectedFrame)?;
    if collector.accept_statement(scheme, &statement).is_err() {
        return Ok(None);
    }
    Ok(Some(Arrived::Stated(id, statement)))
}
