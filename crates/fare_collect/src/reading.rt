ghost use Rattle.std.specs.Prelude.{◌≡◌, ◌++◌, ◌∷◌, [], true, false, Some, None};
ghost use Rattle.std.specs.Result.{result_err};
ghost use Rattle.fare_inbox_queue.specs.InboxPasses.{station_of, sent_list, IsStationOf};
ghost use Rattle.fare_inbox_queue.specs.LinePasses.{heard_list, IsHearOf};
ghost use Rattle.fare_collector.specs.Collecting.{next_in};
ghost use Rattle.fare_collect.specs.Stations.{HasAnswered, HasRead, IsFresh, frame_for};

use crate::ended::Ended;
use crate::fault::StationFault;
use crate::pacing::Pacing;
use crate::putting::pass_on;
use crate::station::Post;
use fare_collector::Collector;
use fare_frame::Frame;
use fare_inbox_queue::{AckLine, HearPass, Inbox};
use fare_record::AckItem;
use fare_session::Gate;
use fare_source::Source;
use fare_writer::{Floor, UnexpectedFrame};
use std::sync::Wait;
use std::time::Clock;

// The frame of an acknowledgement.
pub(crate) fn frame_of(item: &AckItem) -> Frame
    ensures { result ≡ frame_for item.now }
{
    match item {
        AckItem::Upto(ack) => Frame::Acked(*ack),
        AckItem::Day(ack) => Frame::DayAcked(*ack),
    }
}

// Hands the source what its line has.
fn answer_all<S: Source, R: Wait + Clock>(
    rt: &R,
    line: &AckLine,
    hear: &mut HearPass,
    source: &mut S,
    pacing: &mut Pacing,
) -> Result<(), StationFault>
    requires { IsHearOf line.now hear.old }
    ensures queue { IsHearOf line.now hear.new }
    ensures answered { HasAnswered (S.talk source.old) (S.talk source.new) (heard_list hear.old) (heard_list hear.new) (result_err result) }
{
    for _ in rt.forever() {
        let Some(item) = line.take(rt, hear) else {
            return Ok(());
        };
        pacing.answered();
        source.answer(&frame_of(&item))?;
    }
    unreachable!()
}

// Reads one more frame, and passes it on. Answers whether the station goes on; where it doesn't, its post says why.
fn read_next<S: Source, G: Gate, R: Wait + Clock>(
    floor: &Floor<G, R>,
    inbox: &Inbox,
    ended: &Ended,
    pacing: &mut Pacing,
    post: &mut Post,
    collector: &mut Collector,
    source: &mut S,
) -> bool
    requires queue { IsStationOf inbox.now post.old.pass }
    requires fresh { IsFresh post.old }
    ensures queue { IsStationOf inbox.now post.new.pass × (post.new.hear ≡ post.old.hear) }
    ensures station { (station_of post.new.pass ≡ station_of post.old.pass) × (collector.new.station ≡ collector.old.station) }
    ensures read { HasRead floor.now.scheme.now (station_of post.old.pass) (S.talk source.old) (S.talk source.new) (next_in collector.old) (next_in collector.new) (sent_list post.old.pass) (sent_list post.new.pass) (heard_list post.old.hear) (heard_list post.new.hear) post.new.held post.new.ended post.new.fault }
    ensures fresh { result ≡ true → IsFresh post.new }
{
    match source.next() {
        Err(fault) => post.fault = Some(StationFault::from(fault)),
        Ok(None) => post.ended = true,
        Ok(Some(frame)) => {
            match pass_on(
                floor,
                inbox,
                ended,
                &frame,
                pacing,
                &mut post.pass,
                collector,
            ) {
                Ok(true) => return !floor.pace.gate.is_over(),
                Ok(false) => post.held = Some(frame),
                Err(UnexpectedFrame) => post.fault = Some(StationFault::Unexpected),
            }
        }
    }
    false
}

// The station's thread: takes the frames of its source to its collector and into the inbox, and hands the source
// what its line has between them. It asks its source at least once, also where the session is over before it begins.
pub(crate) fn read_all<S: Source, G: Gate, R: Wait + Clock>(
    floor: &Floor<G, R>,
    inbox: &Inbox,
    line: &AckLine,
    ended: &Ended,
    post: &mut Post,
    collector: &mut Collector,
    source: &mut S,
)
    requires queue { IsStationOf inbox.now post.old.pass × IsHearOf line.now post.old.hear }
    requires fresh { IsFresh post.old }
    ensures queue { IsStationOf inbox.now post.new.pass × IsHearOf line.now post.new.hear }
    ensures station { (station_of post.new.pass ≡ station_of post.old.pass) × (collector.new.station ≡ collector.old.station) }
    ensures read { HasRead floor.now.scheme.now (station_of post.old.pass) (S.talk source.old) (S.talk source.new) (next_in collector.old) (next_in collector.new) (sent_list post.old.pass) (sent_list post.new.pass) (heard_list post.old.hear) (heard_list post.new.hear) post.new.held post.new.ended post.new.fault }
{
    let mut pacing = Pacing::new(floor.pace.turns);
    for _ in floor.pace.rt.forever() {
        if let Err(fault) = answer_all(floor.pace.rt, line, &mut post.hear, source, &mut pacing) {
            post.fault = Some(fault);
            break;
        }
        if ended.has_writer_ended() {
            break;
        }
        if pacing.holds(source.has_next()) {
            pacing.wait(floor.pace.rt, floor.pace.gate);
            continue;
        }
        if !source.is_ready() {
            pacing.spend(floor.pace.rt, floor.pace.gate);
            if pacing.is_over(floor.pace.gate) {
                break;
            }
            continue;
        }
        if !read_next(floor, inbox, ended, &mut pacing, post, collector, source) {
            break;
        }
    }
    ended.station_ends();
}
