ghost use Rattle.std.specs.Prelude.{◌≡◌, Some};
ghost use Rattle.fare_record.specs.declared.item.Item.TheVariants as item;
ghost use Rattle.fare_scheme.specs.Words.{position_of_owner};
ghost use Rattle.fare_world.specs.Owning.{tap_refusal, statement_refusal, close_refusal, retire_refusal};
ghost use Rattle.fare_world.specs.Whole.{Applied, Holds, IsStepped};
ghost use Rattle.fare_event.specs.declared.event.Event.TheVariants as event;

use crate::item_reply::{fetched, forwarded};
use crate::world::World;
use fare_event::{Refusal, Reply};
use fare_owner::{CloseFault, RetireFault, StatementFault, TapFault};
use fare_record::{Day, DeviceId, Item, OwnerId, Record, Statement};
use fare_store::{Fault, Ledger, Outbox, Refused};

impl<O: Outbox + Drop, L: Ledger + Drop> World<O, L> {
    // The next row of a device, or its next statement, goes to the owner's lane queue.
    pub(super) fn forward(&mut self, owner: OwnerId, device: DeviceId) -> Result<Reply, Fault>
        ensures { Applied O.standing L.standing self.old self.new (event.Forward owner device) result }
    {
        let Some(at) = self.scheme.owner_position(owner) else {
            return Ok(Reply::Refused(Refusal::UnknownOwner));
        };
        if self.scheme.device_position(device).is_none() {
            return Ok(Reply::Refused(Refusal::UnknownDevice));
        }
        let side = &mut self.owners[at];
        if side.ledger.retired(device)? {
            return Ok(Reply::Refused(Refusal::Retired));
        }
        let item = match side.forwarder.next(&mut self.outbox, device) {
            Ok(item) => item,
            Err(Refused::Failed(fault)) => return Err(fault),
            Err(Refused::Because(_)) => unreachable!(),
        };
        let Some(item) = item else {
            return Ok(Reply::Idle);
        };
        if side.queue.try_push_back(item).is_err() {
            side.forwarder.put_back(device);
            return Ok(Reply::Refused(Refusal::Busy));
        }
        Ok(forwarded(&item))
    }

    // The front of the lane queue goes to the owner's hand.
    pub(super) fn fetch(&mut self, owner: OwnerId) -> Reply
        ensures { IsStepped O.standing L.standing self.old self.new (event.Fetch owner) result }
    {
        let Some(at) = self.scheme.owner_position(owner) else {
            return Reply::Refused(Refusal::UnknownOwner);
        };
        if self.owners[at].hand.is_some() {
            return Reply::Refused(Refusal::HandFull);
        }
        let side = &mut self.owners[at];
        let Some(item) = side.queue.pop_front() else {
            return Reply::Empty;
        };
        side.hand = Some(item);
        fetched(&item)
    }

    // The owner's hand goes to its ledger.
    pub(super) fn take(&mut self, owner: OwnerId) -> Result<Reply, Fault>
        ensures { Applied O.standing L.standing self.old self.new (event.Take owner) result }
    {
        let Some(at) = self.scheme.owner_position(owner) else {
            return Ok(Reply::Refused(Refusal::UnknownOwner));
        };
        let Some(item) = self.owners[at].hand else {
            return Ok(Reply::Idle);
        };
        match item {
            Item::Tap(row) => self.take_tap(owner, at, row),
            Item::Stated(statement) => self.take_statement(owner, at, statement),
        }
    }

    // The tap in the hand of the owner at a place goes to its ledger.
    fn take_tap(&mut self, owner: OwnerId, at: usize, row: Record) -> Result<Reply, Fault>
        requires at { position_of_owner self.old.scheme owner ≡ Some at }
        requires hand { Holds self.old at (item.Tap row) }
        ensures { Applied O.standing L.standing self.old self.new (event.Take owner) result }
    {
        let side = &mut self.owners[at];
        let why = match side.ledger.take(&row) {
            Ok(()) => {
                side.hand = None;
                return Ok(Reply::Taken {
                    device: row.device(),
                    lane: row.lane(),
                });
            }
            Err(Refused::Failed(fault)) => return Err(fault),
            Err(Refused::Because(why)) => why,
        };
        side.hand = None;
        Ok(Reply::Refused(tap_named(why)))
    }

    // The statement in the hand of the owner at a place goes to its ledger.
    fn take_statement(
        &mut self,
        owner: OwnerId,
        at: usize,
        statement: Statement,
    ) -> Result<Reply, Fault>
        requires at { position_of_owner self.old.scheme owner ≡ Some at }
        requires hand { Holds self.old at (item.Stated statement) }
        ensures { Applied O.standing L.standing self.old self.new (event.Take owner) result }
    {
        let side = &mut self.owners[at];
        let why = match side.ledger.state(&statement) {
            Ok(()) => {
                side.hand = None;
                return Ok(Reply::Stated {
                    device: statement.device(),
                    day: statement.day(),
                    count: statement.count(),
                });
            }
            Err(Refused::Failed(fault)) => return Err(fault),
            Err(Refused::Because(why)) => why,
        };
        side.hand = None;
        Ok(Reply::Refused(statement_named(why)))
    }

    // The owner closes a device's day.
    pub(super) fn close(
        &mut self,
        owner: OwnerId,
        device: DeviceId,
        day: Day,
    ) -> Result<Reply, Fault>
        ensures { Applied O.standing L.standing self.old self.new (event.Close owner device day) result }
    {
        let Some(at) = self.scheme.owner_position(owner) else {
            return Ok(Reply::Refused(Refusal::UnknownOwner));
        };
        if self.scheme.device_position(device).is_none() {
            return Ok(Reply::Refused(Refusal::UnknownDevice));
        }
        match self.owners[at].ledger.close(device, day) {
            Ok(()) => Ok(Reply::Closed { device, day }),
            Err(Refused::Failed(fault)) => Err(fault),
            Err(Refused::Because(why)) => Ok(Reply::Refused(close_named(why))),
        }
    }

    // The owner retires its lane of a device.
    pub(super) fn retire(&mut self, owner: OwnerId, device: DeviceId) -> Result<Reply, Fault>
        ensures { Applied O.standing L.standing self.old self.new (event.Retire owner device) result }
    {
        let Some(at) = self.scheme.owner_position(owner) else {
            return Ok(Reply::Refused(Refusal::UnknownOwner));
        };
        if self.scheme.device_position(device).is_none() {
            return Ok(Reply::Refused(Refusal::UnknownDevice));
        }
        match self.owners[at].ledger.retire(device) {
            Ok(()) => Ok(Reply::Retired(device)),
            Err(Refused::Because(why)) => Ok(Reply::Refused(retire_named(why))),
            Err(Refused::Failed(fault)) => Err(fault),
        }
    }

    // The outbox loses the rows of a device that the owner's ledger has taken.
    pub(super) fn prune(&mut self, owner: OwnerId, device: DeviceId) -> Result<Reply, Fault>
        ensures { Applied O.standing L.standing self.old self.new (event.Prune owner device) result }
    {
        let Some(at) = self.scheme.owner_position(owner) else {
            return Ok(Reply::Refused(Refusal::UnknownOwner));
        };
        if self.scheme.device_position(device).is_none() {
            return Ok(Reply::Refused(Refusal::UnknownDevice));
        }
        let rows = self.owners[at].prune(&mut self.outbox, owner, device)?;
        Ok(Reply::Pruned(rows))
    }
}

// The name of a ledger's refusal of a tap.
fn tap_named(refusal: TapFault) -> Refusal
    ensures { result ≡ tap_refusal refusal }
{
    match refusal {
        TapFault::NotMine => Refusal::NotMine,
        TapFault::Retired => Refusal::Retired,
        TapFault::Duplicate => Refusal::Duplicate,
        TapFault::Gap => Refusal::Gap,
        TapFault::AfterClose => Refusal::AfterClose,
    }
}

// The name of a ledger's refusal of a statement.
fn statement_named(refusal: StatementFault) -> Refusal
    ensures { result ≡ statement_refusal refusal }
{
    match refusal {
        StatementFault::NotMine => Refusal::NotMine,
        StatementFault::Retired => Refusal::Retired,
        StatementFault::Repeated => Refusal::Repeated,
        StatementFault::Conflict => Refusal::Conflict,
    }
}

// The name of a ledger's refusal of a close.
fn close_named(refusal: CloseFault) -> Refusal
    ensures { result ≡ close_refusal refusal }
{
    match refusal {
        CloseFault::Retired => Refusal::Retired,
        CloseFault::Unstated => Refusal::Unstated,
        CloseFault::AlreadyClosed => Refusal::AlreadyClosed,
        CloseFault::OutOfOrder => Refusal::OutOfOrder,
        CloseFault::CountsShort { stated, taken } => Refusal::CountsShort { stated, taken },
        CloseFault::CountsOver { stated, taken } => Refusal::CountsOver { stated, taken },
    }
}

// The refusal of an event.
fn retire_named(refusal: RetireFault) -> Refusal
    ensures { result ≡ retire_refusal refusal }
{
    match refusal {
        RetireFault::NotMine => Refusal::NotMine,
        RetireFault::Retired => Refusal::Retired,
    }
}
