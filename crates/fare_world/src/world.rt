ghost use Rattle.std.specs.Prelude.{◌≡◌, IfOk, IfErr, length};
ghost use Rattle.fare_world.specs.System.{start};
ghost use Rattle.fare_world.specs.Rooms.{HasRooms};
ghost use Rattle.fare_store.specs.LedgerWords.{LedgerValue};

use crate::packet::Packet;
use circular_buffer::HeapCircularBuffer;
use fare_device::Device;
use fare_event::{Event, Reply};
use fare_record::Item;
use fare_scheme::Scheme;
use fare_side::{Owner, Station};
use fare_store::{Fault, Ledger, Outbox};
use std::alloc::Global;
use thiserror::Error;

mod acknowledging;
mod asking;
mod billing;
mod collecting;
mod forwarding;
mod fresh;
mod judging;
mod making;
mod restarting;
mod tapping;

/// Why no world was made, in the order in which this is tested.
#[derive(Clone, Copy, PartialEq, Eq, Debug, Error)]
pub enum WorldFault {
    /// There is not one ledger for each owner of the scheme, in order.
    #[error("not one ledger for each owner")]
    WrongLedgers,
    /// A store is not empty.
    #[error("a store is not empty")]
    NotEmpty,
    /// There was no memory.
    #[error("no memory")]
    Memory,
    /// A store failed.
    #[error("store failed")]
    Store,
}

/// What no world was made of.
#[derive(Drop)]
pub struct Parts<O, L> {
    pub scheme: Scheme,
    pub outbox: O,
    pub ledgers: Vec<L>,
}

/// The parts of a scheme at work: its devices, the air between them and their stations, each station with
/// its collector and acknowledgement line, the inbox, the writer, the outbox, and each owner with its lane
/// queue and ledger.
pub struct World<O, L> {
    alloc: Global,
    scheme: Scheme,
    devices: Vec<Device>,
    stations: Vec<Station>,
    air: Vec<Packet>,
    inbox: HeapCircularBuffer<Item>,
    hand: Option<Item>,
    outbox: O,
    owners: Vec<Owner<L>>,
    // How far the outbox had each device, in order of registration, when it was last asked for all: a restart
    // asks before it changes anything.
    uptos: Vec<u64>,
    ghost rooms: { HasRooms scheme devices.items stations.items inbox.capacity owners.items (length uptos.items) },
}

impl<O: Drop, L: Drop> Drop for World<O, L> {
    // Derived, its parts would stand in the proof of each function that may let a world go.
    fn drop(self) {
        let World {
            alloc: _,
            scheme,
            devices,
            stations,
            air,
            inbox,
            hand: _,
            outbox,
            owners,
            uptos,
        } = self;
        drop(scheme);
        drop(devices);
        drop(stations);
        drop(air);
        drop(inbox);
        drop(outbox);
        drop(owners);
        drop(uptos);
    }
}

/// A run that a fault stopped: the world before the event that failed, and the replies so far.
#[derive(Drop)]
pub struct Stopped<O, L> {
    /// The world as it was before that event.
    pub world: World<O, L>,
    /// The replies to the events before it.
    pub replies: Vec<Reply>,
    /// Why it failed.
    pub fault: Fault,
}

impl<O: Outbox + Drop, L: Ledger + Drop> World<O, L> {
    ghost use Rattle.fare_world.specs.Headline.{IsOrderly, EachAnswer, TakesNoneAfterClose};
    ghost use Rattle.fare_world.specs.Billing.{BillsExactly};
    ghost use Rattle.fare_world.specs.Whole.{AreLive, StandsAt, Applied, HasRun, WasStopped, TakenInOrder, KeepsEachTap};

    /// One event: what it changes, and its reply. `Memory` where there was none, which only an event can want
    /// that makes something grow or asks a store, and `Store` where a store failed; then the world is as it
    /// was.
    pub fn apply(&mut self, event: &Event) -> Result<Reply, Fault>
        ensures { Applied O.standing L.standing self.old self.new event.now result }
    {
        match *event {
            Event::Tap {
                device,
                product,
                token,
                moment,
                route,
            } => Ok(self.tap(device, product, token, moment, route)),
            Event::Turn { device } => Ok(self.turn(device)),
            Event::Send { device } => self.send(device),
            Event::Rewind { device } => Ok(self.rewind(device)),
            Event::State { device, day, owner } => self.state(device, day, owner),
            Event::Arrive { packet } => Ok(self.arrive(packet)),
            Event::Draw => Ok(self.draw()),
            Event::Store => self.store(),
            Event::Ack { device } => self.ack(device),
            Event::DayAck { device, day } => self.day_ack(device, day),
            Event::Answer { station } => self.answer(station),
            Event::Forward { owner, device } => self.forward(owner, device),
            Event::Fetch { owner } => Ok(self.fetch(owner)),
            Event::Take { owner } => self.take(owner),
            Event::Close { owner, device, day } => self.close(owner, device, day),
            Event::Retire { owner, device } => self.retire(owner, device),
            Event::Prune { owner, device } => self.prune(owner, device),
            Event::Resume { device } => self.resume(device),
            Event::RestartDevice { device } => Ok(self.restart_device(device)),
            Event::RestartStation { station } => self.restart_station(station),
            Event::RestartWriter => Ok(self.restart_writer()),
            Event::RestartOwner { owner } => self.restart_owner(owner),
            Event::RestartHub => self.restart_hub(),
            Event::Upto { device } => self.upto(device),
            Event::Count { owner, device } => self.count(owner, device),
            Event::Bill { owner, day } => self.tell_bill(owner, day),
            Event::Settle { owner, day } => self.tell_settlement(owner, day),
        }
    }

    /// Runs events in order, and answers the world after them with their replies. At a fault the world and
    /// the replies of the events before it are handed back. Of a new world, what each owner has then taken
    /// from each device is a prefix of what the device numbered for that owner, as the events and their
    /// replies tell; each tap so numbered is in the ledger, in the outbox behind what the ledger has, or in
    /// the device behind what the outbox has had, so none is lost; after an owner's reply that a device's day is
    /// closed, no reply says that a tap of that day was taken; each bill and settlement that a reply tells is of
    /// exactly the taps of its week that the devices numbered for the owner; and no reply tells of a stranger, of
    /// another owner's item, of a conflict, of more taps than stated, or of a tap that is not the next to be taken.
    pub fn run(mut self, events: &[Event]) -> Result<(World<O, L>, Vec<Reply>), Stopped<O, L>>
        ensures ran { IfOk result (λ r. HasRun O.standing L.standing self r.0 events.now r.1.items) }
        ensures whole { IfOk result (λ r. length r.1.items ≡ length events.now) }
        ensures stopped { IfErr result (λ stop. WasStopped O.standing L.standing self stop.world events.now stop.replies.items stop.fault) }
        ensures taken { IfOk result (λ r. StandsAt O.standing L.standing self (start self.scheme) → AreLive O.standing L.standing r.0 → TakenInOrder L.standing r.0 events.now r.1.items) }
        ensures taken_before { IfErr result (λ stop. StandsAt O.standing L.standing self (start self.scheme) → AreLive O.standing L.standing stop.world → TakenInOrder L.standing stop.world events.now stop.replies.items) }
        ensures kept { IfOk result (λ r. StandsAt O.standing L.standing self (start self.scheme) → AreLive O.standing L.standing r.0 → KeepsEachTap O.standing L.standing r.0 events.now r.1.items) }
        ensures kept_before { IfErr result (λ stop. StandsAt O.standing L.standing self (start self.scheme) → AreLive O.standing L.standing stop.world → KeepsEachTap O.standing L.standing stop.world events.now stop.replies.items) }
        ensures orderly { IfOk result (λ r. StandsAt O.standing L.standing self (start self.scheme) → AreLive O.standing L.standing r.0 → EachAnswer IsOrderly events.now r.1.items) }
        ensures orderly_before { IfErr result (λ stop. StandsAt O.standing L.standing self (start self.scheme) → AreLive O.standing L.standing stop.world → EachAnswer IsOrderly events.now stop.replies.items) }
        ensures unclosed { IfOk result (λ r. StandsAt O.standing L.standing self (start self.scheme) → AreLive O.standing L.standing r.0 → TakesNoneAfterClose self.scheme events.now r.1.items) }
        ensures unclosed_before { IfErr result (λ stop. StandsAt O.standing L.standing self (start self.scheme) → AreLive O.standing L.standing stop.world → TakesNoneAfterClose self.scheme events.now stop.replies.items) }
        ensures billed { IfOk result (λ r. StandsAt O.standing L.standing self (start self.scheme) → AreLive O.standing L.standing r.0 → BillsExactly self.scheme events.now r.1.items) }
        ensures billed_before { IfErr result (λ stop. StandsAt O.standing L.standing self (start self.scheme) → AreLive O.standing L.standing stop.world → BillsExactly self.scheme events.now stop.replies.items) }
    {
        let Ok(mut replies) = Vec::with_capacity(self.alloc, events.len()) else {
            return Err(Stopped {
                replies: Vec::new(self.alloc),
                world: self,
                fault: Fault::Memory,
            });
        };
        for event in events {
            match self.apply(event) {
                Ok(reply) => {
                    if replies.push(reply).is_err() {
                        unreachable!()
                    }
                }
                Err(fault) => {
                    return Err(Stopped {
                        world: self,
                        replies,
                        fault,
                    });
                }
            }
        }
        Ok((self, replies))
    }
}
