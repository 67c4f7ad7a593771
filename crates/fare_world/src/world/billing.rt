ghost use Rattle.std.specs.Prelude.{◌≡◌, Ok, Err, MatchResult};
ghost use Rattle.fare_cap.specs.Order.{in_order};
ghost use Rattle.fare_world.specs.Billing.{bill_judged, bill_refusal, basis as basis_of, short_of, billed, settled};
ghost use Rattle.fare_world.specs.Steps.{may_bill};
ghost use Rattle.fare_world.specs.Whole.{Asks, Applied};
ghost use Rattle.fare_event.specs.declared.event.Event.TheVariants as event;

use crate::world::World;
use fare_cap::{Bill, day_bill};
use fare_event::{Refusal, Reply, Short};
use fare_record::{Day, DeviceId, OwnerId};
use fare_scheme::Scheme;
use fare_settle::{Settlement, settle};
use fare_side::{BillFault, WeekTaps, taps_of_week};
use fare_store::{Fault, Ledger, Outbox, Refused};

impl<O: Outbox + Drop, L: Ledger + Drop> World<O, L> {
    /// An owner's bill of a day: the capped fare, account by account, of exactly the taps that the devices
    /// numbered for it. There is one only once the owner has closed the day of each device, or retired its lane: of
    /// such a device the bill has what the owner has taken. With it the devices of which it is short, in order of
    /// registration: their lanes are retired, and the day was not closed.
    ///
    /// Refused by the first case of `BillFault` that applies; then `Memory` where there was none for it, and
    /// `Store` where the owner's ledger failed. The world is as it was, whatever the answer.
    pub fn bill(
        &mut self,
        owner: OwnerId,
        day: Day,
    ) -> Result<(Bill, Vec<DeviceId>), Refused<BillFault>>
        ensures { Asks O.standing L.standing self.old self.new (λ s r. MatchResult r (λ b. Ok (b.0, b.1.items) ≡ billed self.old.scheme s owner day) (λ why. Err why ≡ billed self.old.scheme s owner day)) (may_bill self.old.scheme owner day) result }
    {
        let (taps, short) = self.basis(owner, day)?.into_parts();
        match day_bill(self.alloc, &self.scheme, &taps, day) {
            Ok(bill) => Ok((bill, short)),
            Err(_) => Err(Refused::Failed(Fault::Memory)),
        }
    }

    /// What each operator gets of an owner's bill of a day, in order of registration, and the devices of which it is
    /// short.
    ///
    /// Refused and failed as `bill`. The world is as it was, whatever the answer.
    pub fn settlement(
        &mut self,
        owner: OwnerId,
        day: Day,
    ) -> Result<(Settlement, Vec<DeviceId>), Refused<BillFault>>
        ensures { Asks O.standing L.standing self.old self.new (λ s r. MatchResult r (λ b. Ok (b.0, b.1.items) ≡ settled self.old.scheme s owner day) (λ why. Err why ≡ settled self.old.scheme s owner day)) (may_bill self.old.scheme owner day) result }
    {
        let (taps, short) = self.basis(owner, day)?.into_parts();
        match settle(self.alloc, &self.scheme, &taps, day) {
            Ok(settlement) => Ok((settlement, short)),
            Err(_) => Err(Refused::Failed(Fault::Memory)),
        }
    }

    // The taps that an owner has taken from where the week of a day begins to the day, once it has closed the
    // day of each device or retired its lane.
    fn basis(&mut self, owner: OwnerId, day: Day) -> Result<WeekTaps, Refused<BillFault>>
        ensures { Asks O.standing L.standing self.old self.new (λ s r. MatchResult r (λ week. (bill_judged self.old.scheme s owner day ≡ Ok tt) × (in_order week.taps.items ≡ in_order (basis_of self.old.scheme s owner day)) × (week.short.items ≡ short_of self.old.scheme s owner day)) (λ why. bill_judged self.old.scheme s owner day ≡ Err why)) (may_bill self.old.scheme owner day) result }
    {
        let Some(at) = self.scheme.owner_position(owner) else {
            return Err(Refused::Because(BillFault::UnknownOwner));
        };
        if day < self.scheme.start() {
            return Err(Refused::Because(BillFault::BeforeStart));
        }
        taps_of_week(self.alloc, &self.scheme, &mut self.owners[at].ledger, day)
    }

    // The event of a bill.
    pub(super) fn tell_bill(&mut self, owner: OwnerId, day: Day) -> Result<Reply, Fault>
        ensures { Applied O.standing L.standing self.old self.new (event.Bill owner day) result }
    {
        match self.bill(owner, day) {
            Ok((bill, short)) => Ok(Reply::Bill {
                owner,
                day,
                bill,
                short: Short::new(short),
            }),
            Err(Refused::Because(why)) => Ok(Reply::Refused(bill_named(why))),
            Err(Refused::Failed(fault)) => Err(fault),
        }
    }

    // The event of a settlement.
    pub(super) fn tell_settlement(&mut self, owner: OwnerId, day: Day) -> Result<Reply, Fault>
        ensures { Applied O.standing L.standing self.old self.new (event.Settle owner day) result }
    {
        match self.settlement(owner, day) {
            Ok((settlement, short)) => Ok(Reply::Settlement {
                owner,
                day,
                settlement,
                short: Short::new(short),
            }),
            Err(Refused::Because(why)) => Ok(Reply::Refused(bill_named(why))),
            Err(Refused::Failed(fault)) => Err(fault),
        }
    }
}

// The refusal of an event.
fn bill_named(why: BillFault) -> Refusal
    ensures { result ≡ bill_refusal why }
{
    match why {
        BillFault::UnknownOwner => Refusal::UnknownOwner,
        BillFault::BeforeStart => Refusal::BeforeStart,
        BillFault::NotClosed { device } => Refusal::NotClosed { device },
    }
}
