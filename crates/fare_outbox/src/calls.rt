ghost use Rattle.std.proofs.Common.{refl, sym, ap, ◌∙◌};
ghost use Rattle.std.proofs.Math.Logic.{∥∥₁_map};
ghost use Rattle.sqlite.specs.Effect.{Database};
ghost use Rattle.fare_tables.specs.Tabled.{left_now};
ghost use Rattle.fare_outbox_rows.specs.Layouts.{schema_in};
ghost use Rattle.fare_outbox.specs.Words.{IsLawful, IsWell, value_at, stands};

use crate::SqlOutbox;
use crate::storing::is_nothing;
use fare_record::{Day, DeviceId, OwnerId, Record, Statement};
use fare_store::{Fault, Outbox, Refused, StatedFault, StoreFault};
use sqlite::Alter;

impl<S: Alter> Outbox for SqlOutbox<S> {
    ghost standing = { λ o. stands S.Store o };

    ghost sound = { λ o. record { clean = λ live. live.0; settled = λ live lawful v leaves. sym leaves.2 ∙ ap (value_at o.layout) (S.Store.settled o.conn.store leaves.0 live.1 leaves.1 ∙ sym (ap (λ (d : Database). d.trees) lawful.fit.rest.settled)); lasting = λ live lawful. record { each = λ trees leaves. left_now (schema_in o.layout) (IsWell o.layout o.rows o.statements) (IsLawful o.layout) _ (λ well. well.lawful) lawful trees (S.Store.settled o.conn.store trees live.1 leaves) }; some = λ clean. ∥∥₁_map (S.Store.survives o.conn.store clean) (λ left. (value_at o.layout left.0, (left.0, left.1, refl))) } };

    fn is_empty(&mut self) -> Result<bool, Fault> {
        self.begin()?;
        let none = self.saw_none()?;
        Ok(is_nothing(none, self.rows, self.statements))
    }

    fn upto(&mut self, device: DeviceId) -> Result<u64, Fault> {
        self.begin()?;
        self.greatest_link(device)
    }

    fn store(&mut self, row: &Record) -> Result<(), Refused<StoreFault>> {
        match self.judge(row)? {
            Err(why) => Err(Refused::Because(why)),
            Ok(()) => Ok(self.put(row)?),
        }
    }

    fn store_all(&mut self, rows: &[Record]) -> Result<usize, Fault> {
        let count = self.judge_all(rows)?;
        if count == 0 {
            return Ok(0);
        }
        self.put_all(&rows[..count])?;
        Ok(count)
    }

    fn store_statement(&mut self, statement: &Statement) -> Result<(), Refused<StatedFault>> {
        match self.judge_statement(statement)? {
            Err(why) => Err(Refused::Because(why)),
            Ok(()) => Ok(self.put_statement(statement)?),
        }
    }

    fn next_row(
        &mut self,
        owner: OwnerId,
        device: DeviceId,
        after: u64,
    ) -> Result<Option<Record>, Fault> {
        self.begin()?;
        self.row_after(owner, device, after)
    }

    fn next_statement(
        &mut self,
        owner: OwnerId,
        device: DeviceId,
        from: Day,
    ) -> Result<Option<Statement>, Fault> {
        self.begin()?;
        self.statement_from(owner, device, from)
    }

    fn prune(&mut self, owner: OwnerId, device: DeviceId, upto: u64) -> Result<u64, Fault> {
        self.begin()?;
        self.cut(owner, device, upto)
    }

    fn prune_all(&mut self, owner: OwnerId, lanes: &[(DeviceId, u64)]) -> Result<(), Fault> {
        self.begin()?;
        if lanes.is_empty() {
            return Ok(());
        }
        self.cut_all(owner, lanes)
    }

    // They go all at once: their days stand before this one, and what is answered is how many rows the statement took.
    fn forget_statements(
        &mut self,
        owner: OwnerId,
        device: DeviceId,
        day: Day,
    ) -> Result<u64, Fault> {
        self.begin()?;
        self.cut_statements(owner, device, day)
    }
}
