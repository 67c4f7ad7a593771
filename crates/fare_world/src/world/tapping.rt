ghost use Rattle.fare_world.specs.Whole.{Applied, IsStepped};
ghost use Rattle.fare_event.specs.declared.event.Event.TheVariants as event;

use crate::packet::Packet;
use crate::world::World;
use fare_day::traffic_day;
use fare_device::{TapRefusal, TurnRefusal};
use fare_event::{Refusal, Reply};
use fare_record::{Day, DeviceId, Moment, OwnerId, ProductId, Token};
use fare_store::{Fault, Ledger, Outbox};

impl<O: Outbox + Drop, L: Ledger + Drop> World<O, L> {
    // A tap on a device.
    pub(super) fn tap(
        &mut self,
        device: DeviceId,
        product: ProductId,
        token: Token,
        moment: Moment,
        route: Option<u16>,
    ) -> Reply
        ensures { IsStepped O.standing L.standing self.old self.new (event.Tap device product route token moment) result }
    {
        let Some(place) = self.scheme.device_position(device) else {
            return Reply::Refused(Refusal::UnknownDevice);
        };
        let Ok(day) = traffic_day(self.scheme.zone(), moment) else {
            return Reply::Refused(Refusal::BadMoment);
        };
        let route = route.unwrap_or(0);
        match self.devices[place].tap(&self.scheme, product, token, moment, day, route) {
            Ok(row) => Reply::Recorded {
                link: row.link(),
                lane: row.lane(),
            },
            Err(TapRefusal::UnknownProduct) => Reply::Refused(Refusal::UnknownProduct),
            Err(TapRefusal::DayClosed) => Reply::Refused(Refusal::DayClosed),
            Err(TapRefusal::DayAhead) => Reply::Refused(Refusal::DayAhead),
            Err(TapRefusal::NumbersSpent) => Reply::Refused(Refusal::NumbersSpent),
            Err(TapRefusal::BufferFull) => Reply::Refused(Refusal::BufferFull),
        }
    }

    // The open day of a device is over, and its statements wait.
    pub(super) fn turn(&mut self, device: DeviceId) -> Reply
        ensures { IsStepped O.standing L.standing self.old self.new (event.Turn device) result }
    {
        let Some(place) = self.scheme.device_position(device) else {
            return Reply::Refused(Refusal::UnknownDevice);
        };
        match self.devices[place].turn_day() {
            Ok(day) => Reply::Opened(day),
            Err(TurnRefusal::LastDay) => Reply::Refused(Refusal::LastDay),
            Err(TurnRefusal::StatementsFull) => Reply::Refused(Refusal::StatementsFull),
        }
    }

    // A device's statement of a waiting day, for an owner, goes into the air.
    pub(super) fn state(
        &mut self,
        device: DeviceId,
        day: Day,
        owner: OwnerId,
    ) -> Result<Reply, Fault>
        ensures { Applied O.standing L.standing self.old self.new (event.State device day owner) result }
    {
        let Some(place) = self.scheme.device_position(device) else {
            return Ok(Reply::Refused(Refusal::UnknownDevice));
        };
        if self.scheme.owner_position(owner).is_none() {
            return Ok(Reply::Refused(Refusal::UnknownOwner));
        }
        let Ok(frame) = self.devices[place].statement(day, owner) else {
            return Ok(Reply::Refused(Refusal::NotWaiting));
        };
        self.air.push(Packet::of(&frame))?;
        Ok(Reply::SentDay {
            packet: self.air.len() as u64,
            day,
            owner,
        })
    }

    // A device goes back to its first tap that waits.
    pub(super) fn rewind(&mut self, device: DeviceId) -> Reply
        ensures { IsStepped O.standing L.standing self.old self.new (event.Rewind device) result }
    {
        let Some(place) = self.scheme.device_position(device) else {
            return Reply::Refused(Refusal::UnknownDevice);
        };
        self.devices[place].rewind();
        Reply::Rewound
    }

    // The next unsent tap of a device goes into the air.
    pub(super) fn send(&mut self, device: DeviceId) -> Result<Reply, Fault>
        ensures { Applied O.standing L.standing self.old self.new (event.Send device) result }
    {
        let Some(place) = self.scheme.device_position(device) else {
            return Ok(Reply::Refused(Refusal::UnknownDevice));
        };
        if self.devices[place].sent() == self.devices[place].last() {
            return Ok(Reply::Idle);
        }
        // The room comes first, since the device moves on with its answer.
        self.air.reserve(1)?;
        let device = &mut self.devices[place];
        let Some(frame) = device.next_frame() else {
            unreachable!()
        };
        let link = device.sent();
        if self.air.push(Packet::of(&frame)).is_err() {
            unreachable!()
        }
        Ok(Reply::Sent {
            packet: self.air.len() as u64,
            link,
        })
    }
}
