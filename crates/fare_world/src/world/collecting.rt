ghost use Rattle.std.specs.Prelude.{◌≡◌, ◌<◌, None, Some, IfNone, IfSome, IfOk, IfErr, IsSome, length, option_copied};
ghost use Rattle.fare_scheme.specs.Words.{station_of};
ghost use Rattle.fare_record.specs.declared.item.Item.TheVariants as item;
ghost use Rattle.fare_world.specs.System.{Tapped, Stated};
ghost use Rattle.fare_world.specs.Arriving.{comes, refusal_of, statement_refusal_of};
ghost use Rattle.fare_world.specs.Packets.{bytes_at, IsPacketRead};
ghost use Rattle.fare_world.specs.Kept.{IsPacket};
ghost use Rattle.fare_world.specs.Shown.{IsAt, IsStatementOf};
ghost use Rattle.fare_world.specs.Rooms.{HasStation};
ghost use Rattle.fare_world.specs.Whole.{Applied, Does, IsStepped};
ghost use Rattle.fare_event.specs.declared.event.Event.TheVariants as event;

use crate::item_reply::drawn;
use crate::packet::Packet;
use crate::world::World;
use fare_collector::{CollectRefusal, StatementRefusal};
use fare_event::{Refusal, Reply};
use fare_frame::Frame;
use fare_record::{DeviceId, Item, Record, Statement};
use fare_store::{Fault, Ledger, Outbox, Refused, StatedFault, StoreFault};

impl<O: Outbox + Drop, L: Ledger + Drop> World<O, L> {
    // A packet, numbered from 1, comes to where it was sent.
    pub(super) fn arrive(&mut self, packet: u64) -> Reply
        ensures { IsStepped O.standing L.standing self.old self.new (event.Arrive packet) result }
    {
        let Some(frame) = self.frame_in(packet) else {
            return Reply::Refused(Refusal::NoPacket);
        };
        if let Some(tapped) = frame.tapped() {
            return self.collect(tapped);
        }
        if let Some(statement) = frame.stated() {
            return self.collect_statement(statement);
        }
        if let Some(ack) = frame.acked() {
            return self.hear(ack);
        }
        if let Some(ack) = frame.day_acked() {
            return self.hear_day(ack);
        }
        Reply::Refused(Refusal::NoPacket)
    }

    // A tap comes to the station of its device.
    fn collect(&mut self, tapped: Record) -> Reply
        ensures { Does O.standing L.standing self.old self.new (λ s. IsAt (s.devices tapped.device).taps tapped.link tapped) (λ s. comes self.old.scheme s (Some (Tapped tapped.device tapped.link))) result }
    {
        let Some(place) = self.station_place(tapped.device()) else {
            return Reply::Refused(Refusal::Stranger);
        };
        let collector = &mut self.stations[place].collector;
        if let Err(refusal) = collector.accept(&self.scheme, &tapped) {
            return Reply::Refused(named(refusal));
        }
        if self.inbox.try_push_back(Item::Tap(tapped)).is_err() {
            collector.unaccept(tapped.device());
            return Reply::Refused(Refusal::Busy);
        }
        Reply::Accepted
    }

    // A statement comes to the station of its device.
    fn collect_statement(&mut self, statement: Statement) -> Reply
        ensures { Does O.standing L.standing self.old self.new (λ s. IsPacket self.old.scheme s.devices s.held (Stated statement.device statement.day statement.owner) × IsStatementOf s.devices statement.device statement.day statement.owner statement) (λ s. comes self.old.scheme s (Some (Stated statement.device statement.day statement.owner))) result }
    {
        let Some(place) = self.station_place(statement.device()) else {
            return Reply::Refused(Refusal::Stranger);
        };
        let collector = &self.stations[place].collector;
        if let Err(refusal) = collector.accept_statement(&self.scheme, &statement) {
            return Reply::Refused(statement_named(refusal));
        }
        if self.inbox.try_push_back(Item::Stated(statement)).is_err() {
            return Reply::Refused(Refusal::Busy);
        }
        Reply::Accepted
    }

    // The position of a device's station; None where the device is not registered.
    pub(super) fn station_place(&self, device: DeviceId) -> Option<usize>
        ensures some { IfSome result (λ place. HasStation self.now.scheme device place) }
        ensures within { IfSome result (λ place. place < length self.now.stations.items) }
        ensures none { IfNone result (station_of self.now.scheme device ≡ None) }
    {
        let station = self.scheme.station_of(device)?;
        let Some(place) = self.scheme.station_position(station) else {
            unreachable!()
        };
        Some(place)
    }

    // The frame in the packet of a number, from 1; None where the air has no such packet.
    fn frame_in(&self, packet: u64) -> Option<Frame>
        ensures { IsPacketRead (bytes_at self.now.air.items packet) result }
    {
        self.packet(packet).map(|packet| packet.frame())
    }

    // The packet of a number, from 1.
    fn packet(&self, packet: u64) -> Option<&Packet>
        ensures { option_copied result ≡ bytes_at self.now.air.items packet }
    {
        let place = packet.checked_sub(1)?;
        self.air.get(place as usize)
    }

    // The front of the inbox goes to the writer's hand.
    pub(super) fn draw(&mut self) -> Reply
        ensures { IsStepped O.standing L.standing self.old self.new event.Draw result }
    {
        if self.hand.is_some() {
            return Reply::Refused(Refusal::HandFull);
        }
        let Some(item) = self.inbox.pop_front() else {
            return Reply::Empty;
        };
        self.hand = Some(item);
        drawn(&item)
    }

    // The writer's hand goes to the outbox.
    pub(super) fn store(&mut self) -> Result<Reply, Fault>
        ensures { Applied O.standing L.standing self.old self.new event.Store result }
    {
        let Some(item) = self.hand else {
            return Ok(Reply::Idle);
        };
        match item {
            Item::Tap(row) => self.store_tap(row),
            Item::Stated(statement) => self.store_statement(statement),
        }
    }

    // The tap in the writer's hand goes to the outbox.
    fn store_tap(&mut self, row: Record) -> Result<Reply, Fault>
        requires { self.old.hand ≡ Some (item.Tap row) }
        ensures { Applied O.standing L.standing self.old self.new event.Store result }
    {
        let why = match self.outbox.store(&row) {
            Ok(()) => {
                self.hand = None;
                return Ok(Reply::Stored {
                    device: row.device(),
                    link: row.link(),
                });
            }
            Err(Refused::Failed(fault)) => return Err(fault),
            Err(Refused::Because(why)) => why,
        };
        let refusal = match why {
            StoreFault::OutboxFull => return Ok(Reply::Refused(Refusal::OutboxFull)),
            StoreFault::Duplicate => Refusal::Duplicate,
            StoreFault::Gap => Refusal::Gap,
            StoreFault::Conflict => Refusal::Conflict,
        };
        self.hand = None;
        Ok(Reply::Refused(refusal))
    }

    // The statement in the writer's hand goes to the outbox.
    fn store_statement(&mut self, statement: Statement) -> Result<Reply, Fault>
        requires { self.old.hand ≡ Some (item.Stated statement) }
        ensures { Applied O.standing L.standing self.old self.new event.Store result }
    {
        let why = match self.outbox.store_statement(&statement) {
            Ok(()) => {
                self.hand = None;
                return Ok(Reply::StoredDay {
                    device: statement.device(),
                    day: statement.day(),
                    owner: statement.owner(),
                });
            }
            Err(Refused::Failed(fault)) => return Err(fault),
            Err(Refused::Because(why)) => why,
        };
        let refusal = match why {
            StatedFault::OutboxFull => return Ok(Reply::Refused(Refusal::OutboxFull)),
            StatedFault::Duplicate => Refusal::Duplicate,
            StatedFault::Conflict => Refusal::Conflict,
        };
        self.hand = None;
        Ok(Reply::Refused(refusal))
    }
}

// The name of a collector's refusal.
fn named(refusal: CollectRefusal) -> Refusal
    ensures { result ≡ refusal_of refusal }
{
    match refusal {
        CollectRefusal::Stranger => Refusal::Stranger,
        CollectRefusal::Misrouted => Refusal::Misrouted,
        CollectRefusal::Old => Refusal::Old,
        CollectRefusal::Ahead => Refusal::Ahead,
    }
}

// The name of a collector's refusal of a statement.
fn statement_named(refusal: StatementRefusal) -> Refusal
    ensures { result ≡ statement_refusal_of refusal }
{
    match refusal {
        StatementRefusal::Stranger => Refusal::Stranger,
        StatementRefusal::Misrouted => Refusal::Misrouted,
    }
}
