ghost use Rattle.std.proofs.Common.{refl};
ghost use Rattle.fare_store.specs.Standing.{plain};
ghost use Rattle.fare_store.specs.PlainOutboxWords.{plain_outbox};

use super::PlainOutbox;
use crate::{Fault, Outbox, Refused, StatedFault, StoreFault};
use fare_record::{Day, DeviceId, OwnerId, Record, Statement};

impl Outbox for PlainOutbox {
    ghost standing = { λ o. plain (plain_outbox o) };

    ghost sound = { λ o. record { clean = λ h. h; settled = λ live lawful v e. e; lasting = λ live lawful. tt; some = λ clean. ∣ (plain_outbox o, refl) ∣₁ } };

    fn is_empty(&mut self) -> Result<bool, Fault> {
        Ok(self.holds_nothing())
    }

    fn upto(&mut self, device: DeviceId) -> Result<u64, Fault> {
        Ok(self.seen(device))
    }

    fn store(&mut self, row: &Record) -> Result<(), Refused<StoreFault>> {
        match self.judge(row) {
            Err(why) => Err(Refused::Because(why)),
            Ok(()) => Ok(self.push(row)?),
        }
    }

    fn store_all(&mut self, rows: &[Record]) -> Result<usize, Fault> {
        Ok(self.push_all(rows)?)
    }

    fn store_statement(&mut self, statement: &Statement) -> Result<(), Refused<StatedFault>> {
        match self.judge_statement(statement) {
            Err(why) => Err(Refused::Because(why)),
            Ok(()) => Ok(self.push_statement(statement)?),
        }
    }

    fn next_row(
        &mut self,
        owner: OwnerId,
        device: DeviceId,
        after: u64,
    ) -> Result<Option<Record>, Fault> {
        Ok(self.row_after(owner, device, after))
    }

    fn next_statement(
        &mut self,
        owner: OwnerId,
        device: DeviceId,
        from: Day,
    ) -> Result<Option<Statement>, Fault> {
        Ok(self.statement_from(owner, device, from))
    }

    fn prune(&mut self, owner: OwnerId, device: DeviceId, upto: u64) -> Result<u64, Fault> {
        Ok(self.drop_upto(owner, device, upto))
    }

    fn prune_all(&mut self, owner: OwnerId, lanes: &[(DeviceId, u64)]) -> Result<(), Fault> {
        self.drop_all(owner, lanes);
        Ok(())
    }

    fn forget_statements(
        &mut self,
        owner: OwnerId,
        device: DeviceId,
        day: Day,
    ) -> Result<u64, Fault> {
        Ok(self.drop_statements(owner, device, day))
    }
}
