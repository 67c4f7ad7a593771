ghost use Rattle.std.specs.Prelude.{◌≡◌, ℕ, [], None, IsSome, length, option_map};
ghost use Rattle.circular_buffer.specs.Buffer.{buffer};
ghost use Rattle.fare_route.specs.Routing.{cursor_of};
ghost use Rattle.fare_scheme.specs.Words.{position_of_device};
ghost use Rattle.fare_store.specs.Standing.{Reads};
ghost use Rattle.fare_side.specs.Pruning.{PrunesTaken};
ghost use Rattle.fare_side.specs.Resuming.{AreStandings, place_of_cursor, place_at};

use circular_buffer::HeapCircularBuffer;
use fare_record::{Day, DeviceId, Item, OwnerId};
use fare_route::Forwarder;
use fare_scheme::Scheme;
use fare_store::{Fault, Ledger, Outbox};

/// An owner's side of the hub: its ledger, its lane queue, the item in its hand, and the forwarder that feeds
/// the queue.
#[derive(Drop)]
pub struct Owner<L> {
    /// What the owner has taken, was stated and has closed.
    pub ledger: L,
    /// What was forwarded and not fetched.
    pub queue: HeapCircularBuffer<Item>,
    /// What was fetched and not taken.
    pub hand: Option<Item>,
    /// What feeds the queue from the outbox.
    pub forwarder: Forwarder,
    /// Where the ledger stood when it was last asked: for each device, in order of registration, how many of
    /// its taps are taken and its last closed day. A restart asks before it changes anything.
    pub standings: Vec<(u64, Option<Day>)>,
}

impl<L: Ledger + Drop> Owner<L> {
    /// Asks the ledger where it stands with each device, and keeps that.
    ///
    /// `Memory` where there was none, and `Store` where the ledger failed; then some of it may be kept already. Queue,
    /// hand and forwarder stay.
    pub fn ask(&mut self, scheme: &Scheme) -> Result<(), Fault>
        requires { length self.old.standings.items ≡ length scheme.now.devices }
        ensures read { Reads (L.standing self.old.ledger) (L.standing self.new.ledger) (λ _. AreStandings scheme.now (L.standing self.old.ledger).value self.new.standings.items) result }
        ensures count { length self.new.standings.items ≡ length self.old.standings.items }
        ensures queue { self.new.queue ≡ self.old.queue }
        ensures hand { self.new.hand ≡ self.old.hand }
        ensures forwarder { self.new.forwarder ≡ self.old.forwarder }
    {
        for (place, device) in scheme.devices().iter().enumerate() {
            let taken = self.ledger.count(*device)?;
            let closed = self.ledger.closed_through(*device)?;
            self.standings[place] = (taken, closed);
        }
        Ok(())
    }

    /// Starts again behind what the ledger had when it was last asked, with nothing in the queue and the hand.
    pub fn restart(&mut self, scheme: &Scheme)
        requires { length self.old.standings.items ≡ length scheme.now.devices }
        ensures ledger { self.new.ledger ≡ self.old.ledger }
        ensures standings { self.new.standings ≡ self.old.standings }
        ensures queue { self.new.queue ≡ buffer [] self.old.queue.capacity }
        ensures hand { self.new.hand ≡ None }
        ensures owner { self.new.forwarder.owner ≡ self.old.forwarder.owner }
        ensures resumed { (device : ℕ) → IsSome (position_of_device scheme.now device) → place_of_cursor self.new.forwarder device ≡ option_map (λ _. place_at scheme.now self.old.standings.items device) (place_of_cursor self.old.forwarder device) }
        ensures others { (device : ℕ) → position_of_device scheme.now device ≡ None → place_of_cursor self.new.forwarder device ≡ place_of_cursor self.old.forwarder device }
    {
        self.queue.clear();
        self.hand = None;
        for (place, device) in scheme.devices().iter().enumerate() {
            let standing = self.standings[place];
            self.forwarder
                .resume(scheme, *device, standing.0, standing.1);
        }
    }

    /// The outbox loses the rows of an owner's lane of a device that the ledger has taken, and the answer is how many.
    ///
    /// `Memory` where there was none, and `Store` where the ledger or the outbox failed; then the outbox has lost
    /// nothing. It is asked only where the ledger told how many taps it has taken. All else of the side stays.
    pub fn prune<O: Outbox>(
        &mut self,
        outbox: &mut O,
        owner: OwnerId,
        device: DeviceId,
    ) -> Result<u64, Fault>
        ensures pruned { PrunesTaken O.standing L.standing owner device self.old.ledger self.new.ledger outbox.old outbox.new result }
        ensures queue { self.new.queue ≡ self.old.queue }
        ensures hand { self.new.hand ≡ self.old.hand }
        ensures forwarder { self.new.forwarder ≡ self.old.forwarder }
        ensures standings { self.new.standings ≡ self.old.standings }
    {
        let taken = self.ledger.count(device)?;
        outbox.prune(owner, device, taken)
    }
}
