ghost use Rattle.std.specs.Prelude.{◌≡◌, ◌-◌, ◌≤◌, ◌==◌, IsTrue, ◌↔◌};
ghost use Rattle.fare_store.specs.Failing.{failing};

use crate::{Fault, Outbox, Refused, StatedFault, StoreFault};
use fare_record::{Day, DeviceId, OwnerId, Record, Statement};

/// An outbox that fails at one of its calls, for tests: that call answers `Store` and does nothing, and all
/// others are passed on to the outbox inside. Every call of `Outbox` counts.
///
/// Its count of failures is that of the outbox inside, and one more once that call was made.
#[derive(Drop)]
pub struct FailingOutbox<O> {
    outbox: O,
    // How many calls there are up to the one that fails, itself included.
    left: u64,
}

impl<O> FailingOutbox<O> {
    /// One that fails at this call, counted from 1.
    pub fn new(outbox: O, call: u64) -> FailingOutbox<O>
        requires { 1 ≤ call }
        ensures outbox { result.outbox ≡ outbox }
        ensures call { result.left ≡ call }
    {
        FailingOutbox { outbox, left: call }
    }
}

// Counts a call, and answers whether it is the one that fails.
pub(crate) fn fails_now(left: &mut u64) -> bool
    ensures left { left.new ≡ left.old - 1 }
    ensures now { result ≡ (left.old == 1) }
{
    let now = *left == 1;
    *left = left.saturating_sub(1);
    now
}

impl<O: Outbox> Outbox for FailingOutbox<O> {
    ghost standing = { λ s. failing s.left (O.standing s.outbox) };

    ghost sound = { λ s. record { clean = (O.sound s.outbox).clean; settled = (O.sound s.outbox).settled; lasting = (O.sound s.outbox).lasting; some = (O.sound s.outbox).some } };

    fn is_empty(&mut self) -> Result<bool, Fault> {
        if fails_now(&mut self.left) {
            return Err(Fault::Store);
        }
        self.outbox.is_empty()
    }

    fn upto(&mut self, device: DeviceId) -> Result<u64, Fault> {
        if fails_now(&mut self.left) {
            return Err(Fault::Store);
        }
        self.outbox.upto(device)
    }

    fn store(&mut self, row: &Record) -> Result<(), Refused<StoreFault>> {
        if fails_now(&mut self.left) {
            return Err(Refused::Failed(Fault::Store));
        }
        self.outbox.store(row)
    }

    fn store_all(&mut self, rows: &[Record]) -> Result<usize, Fault> {
        if fails_now(&mut self.left) {
            return Err(Fault::Store);
        }
        self.outbox.store_all(rows)
    }

    fn store_statement(&mut self, statement: &Statement) -> Result<(), Refused<StatedFault>> {
        if fails_now(&mut self.left) {
            return Err(Refused::Failed(Fault::Store));
        }
        self.outbox.store_statement(statement)
    }

    fn next_row(
        &mut self,
        owner: OwnerId,
        device: DeviceId,
        after: u64,
    ) -> Result<Option<Record>, Fault> {
        if fails_now(&mut self.left) {
            return Err(Fault::Store);
        }
        self.outbox.next_row(owner, device, after)
    }

    fn next_statement(
        &mut self,
        owner: OwnerId,
        device: DeviceId,
        from: Day,
    ) -> Result<Option<Statement>, Fault> {
        if fails_now(&mut self.left) {
            return Err(Fault::Store);
        }
        self.outbox.next_statement(owner, device, from)
    }

    fn prune(&mut self, owner: OwnerId, device: DeviceId, upto: u64) -> Result<u64, Fault> {
        if fails_now(&mut self.left) {
            return Err(Fault::Store);
        }
        self.outbox.prune(owner, device, upto)
    }

    fn prune_all(&mut self, owner: OwnerId, lanes: &[(DeviceId, u64)]) -> Result<(), Fault> {
        if fails_now(&mut self.left) {
            return Err(Fault::Store);
        }
        self.outbox.prune_all(owner, lanes)
    }

    fn forget_statements(
        &mut self,
        owner: OwnerId,
        device: DeviceId,
        day: Day,
    ) -> Result<u64, Fault> {
        if fails_now(&mut self.left) {
            return Err(Fault::Store);
        }
        self.outbox.forget_statements(owner, device, day)
    }
}
