ghost use Rattle.std.specs.Prelude.{◌≡◌, Some};
ghost use Rattle.fare_world.specs.System.{Acked, DayAcked};
ghost use Rattle.fare_world.specs.Arriving.{comes};
ghost use Rattle.fare_world.specs.Kept.{IsAck, IsDayAck};
ghost use Rattle.fare_world.specs.Acknowledging.{answered_by};
ghost use Rattle.fare_world.specs.Whole.{Applied, Does};
ghost use Rattle.fare_event.specs.declared.event.Event.TheVariants as event;

use crate::packet::Packet;
use crate::world::World;
use fare_event::{Refusal, Reply};
use fare_frame::Frame;
use fare_record::{Ack, AckItem, Day, DayAck, DeviceId, StationId};
use fare_route::are_stated;
use fare_store::{Fault, Ledger, Outbox};

impl<O: Outbox + Drop, L: Ledger + Drop> World<O, L> {
    // A device hears an acknowledgement.
    pub(super) fn hear(&mut self, ack: Ack) -> Reply
        ensures { Does O.standing L.standing self.old self.new (λ s. IsAck self.old.scheme s.devices ack.device ack.upto) (λ s. comes self.old.scheme s (Some (Acked ack.device ack.upto))) result }
    {
        let Some(place) = self.scheme.device_position(ack.device()) else {
            return Reply::Refused(Refusal::UnknownDevice);
        };
        match self.devices[place].hear_ack(ack.upto()) {
            Ok(dropped) => Reply::Dropped(dropped),
            Err(_) => Reply::Refused(Refusal::AckAhead),
        }
    }

    // A device hears that the hub has its statements of a day.
    pub(super) fn hear_day(&mut self, ack: DayAck) -> Reply
        ensures { Does O.standing L.standing self.old self.new (λ s. IsDayAck self.old.scheme s.held ack.device ack.day) (λ s. comes self.old.scheme s (Some (DayAcked ack.device ack.day))) result }
    {
        let Some(place) = self.scheme.device_position(ack.device()) else {
            return Reply::Idle;
        };
        if self.devices[place].hear_day_ack(ack.day()) {
            Reply::DroppedDay(ack.day())
        } else {
            Reply::Idle
        }
    }

    // The acknowledgement line of a device's station gains how many of its taps the outbox has had.
    pub(super) fn ack(&mut self, device: DeviceId) -> Result<Reply, Fault>
        ensures { Applied O.standing L.standing self.old self.new (event.Ack device) result }
    {
        let Some(place) = self.station_place(device) else {
            return Ok(Reply::Refused(Refusal::UnknownDevice));
        };
        match self.stations[place].ack(&mut self.outbox, device)? {
            Some(upto) => Ok(Reply::Acknowledged(upto)),
            None => Ok(Reply::Refused(Refusal::Busy)),
        }
    }

    // The acknowledgement line of a device's station gains a day of which the outbox holds all statements.
    pub(super) fn day_ack(&mut self, device: DeviceId, day: Day) -> Result<Reply, Fault>
        ensures { Applied O.standing L.standing self.old self.new (event.DayAck device day) result }
    {
        let Some(place) = self.station_place(device) else {
            return Ok(Reply::Refused(Refusal::UnknownDevice));
        };
        if !are_stated(&self.scheme, &mut self.outbox, device, day)? {
            return Ok(Reply::Refused(Refusal::Unstated));
        }
        let pushed = self.stations[place]
            .line
            .try_push_back(AckItem::Day(DayAck::new(device, day)));
        if pushed.is_err() {
            return Ok(Reply::Refused(Refusal::Busy));
        }
        Ok(Reply::AcknowledgedDay(day))
    }

    // The front of a station's acknowledgement line goes into the air.
    pub(super) fn answer(&mut self, station: StationId) -> Result<Reply, Fault>
        ensures { Applied O.standing L.standing self.old self.new (event.Answer station) result }
    {
        let Some(place) = self.scheme.station_position(station) else {
            return Ok(Reply::Refused(Refusal::UnknownStation));
        };
        let Some(answer) = self.stations[place].line.front().copied() else {
            return Ok(Reply::Empty);
        };
        self.air.push(Packet::of(&Frame::acknowledging(&answer)))?;
        self.stations[place].line.pop_front();
        Ok(answered(self.air.len() as u64, &answer))
    }
}

// The reply where the air gained this packet with an acknowledgement.
fn answered(packet: u64, answer: &AckItem) -> Reply
    ensures { result ≡ answered_by packet answer.now }
{
    match answer {
        AckItem::Upto(ack) => Reply::Answered {
            packet,
            device: ack.device(),
            upto: ack.upto(),
        },
        AckItem::Day(ack) => Reply::AnsweredDay {
            packet,
            device: ack.device(),
            day: ack.day(),
        },
    }
}
