ghost use Rattle.std.specs.Prelude.{◌≡◌, ◌<◌, ◌↔◌, None, OnOk, OnErr, IfOk, IsTrue, is_some};
ghost use Rattle.fare_record.specs.Limits.{IsCount};
ghost use Rattle.fare_store.specs.Batches.{DoesFirst};
ghost use Rattle.fare_store.specs.OutboxWords.{IsEmptyOutbox, store_judged, stored, stated_judged, stored_statement, IsNextRow, IsNextStatement, pruned, rows_upto, pruned_all};
ghost use Rattle.fare_store.specs.PlainOutboxWords.{plain_outbox};

use super::PlainOutbox;
use super::lanes::{prune_lane, put_row};
use super::reverse::Reverse;
use crate::{StatedFault, StoreFault};
use fare_record::{Day, DeviceId, OwnerId, Record, Statement};
use std::alloc::{AllocError, Global};
use std::collections::{BTreeMap, HashMap};

// How many tap rows, and how many statements, an outbox holds at most.
const ROWS: usize = 1_000_000;

impl PlainOutbox {
    /// An outbox that holds nothing. No memory is taken.
    pub fn new(alloc: Global) -> PlainOutbox
        ensures { IsEmptyOutbox (plain_outbox result) }
    {
        PlainOutbox {
            alloc,
            upto: HashMap::new(alloc),
            lanes: HashMap::new(alloc),
            row_count: 0,
            statements: BTreeMap::new(alloc),
        }
    }

    // Whether it holds nothing and never saw a tap.
    pub(super) fn holds_nothing(&self) -> bool
        ensures { IsTrue result ↔ IsEmptyOutbox (plain_outbox self.now) }
    {
        self.upto.is_empty() && self.row_count == 0 && self.statements.is_empty()
    }

    // The greatest link that it has had of a device.
    pub(super) fn seen(&self, device: DeviceId) -> u64
        ensures value { result ≡ (plain_outbox self.now).upto device }
        ensures valid { IsCount result }
    {
        match self.upto.get(&device) {
            Some(upto) => *upto,
            None => 0,
        }
    }

    // Whether there is a row at a place. Behind a lane's newest row there is none, and most rows come there.
    fn has_row(&self, owner: OwnerId, device: DeviceId, lane: u64) -> bool
        ensures { result ≡ is_some ((plain_outbox self.now).rows owner device lane) }
    {
        let Some(rows) = self.lanes.get(&(owner, device)) else {
            return false;
        };
        match rows.first_key_value() {
            Some((newest, _)) if newest.0 < lane => false,
            _ => rows.contains_key(&Reverse(lane)),
        }
    }

    // Why a tap isn't stored, if it isn't.
    pub(super) fn judge(&self, row: &Record) -> Result<(), StoreFault>
        ensures { result ≡ store_judged (plain_outbox self.now) row.now }
    {
        let upto = self.seen(row.device());
        if row.link() <= upto {
            return Err(StoreFault::Duplicate);
        }
        if row.link() > upto + 1 {
            return Err(StoreFault::Gap);
        }
        if self.has_row(row.owner(), row.device(), row.lane()) {
            return Err(StoreFault::Conflict);
        }
        if self.row_count >= ROWS {
            return Err(StoreFault::OutboxFull);
        }
        Ok(())
    }

    // Holds one row more, at a place where there is none. At an error nothing changes.
    pub(super) fn push(&mut self, row: &Record) -> Result<(), AllocError>
        requires free { (plain_outbox self.old).rows row.now.owner row.now.device row.now.lane ≡ None }
        requires room { (plain_outbox self.old).row_count < 1000000 }
        ensures ok { OnOk result (plain_outbox self.new ≡ stored row.now (plain_outbox self.old)) }
        ensures err { OnErr result (plain_outbox self.new ≡ plain_outbox self.old) }
    {
        self.upto.reserve(1)?;
        put_row(&mut self.lanes, self.alloc, row)?;
        let Ok(_) = self.upto.insert(row.device(), row.link()) else {
            unreachable!()
        };
        self.row_count += 1;
        Ok(())
    }

    // Holds the first of these rows, and answers how many. Want of memory ends them, and is answered where there are
    // none; then nothing changes.
    pub(super) fn push_all(&mut self, rows: &[Record]) -> Result<usize, AllocError>
        ensures ok { IfOk result (DoesFirst store_judged stored (plain_outbox self.old) (plain_outbox self.new) rows.now) }
        ensures err { OnErr result (plain_outbox self.new ≡ plain_outbox self.old) }
    {
        for place in 0..rows.len() {
            let row = &rows[place];
            if self.judge(row).is_err() {
                return Ok(place);
            }
            if let Err(error) = self.push(row) {
                if place == 0 {
                    return Err(error);
                }
                return Ok(place);
            }
        }
        Ok(rows.len())
    }

    // Why a statement isn't stored, if it isn't.
    pub(super) fn judge_statement(&self, statement: &Statement) -> Result<(), StatedFault>
        ensures { result ≡ stated_judged (plain_outbox self.now) statement.now }
    {
        let key = (statement.owner(), statement.device(), statement.day());
        match self.statements.get(&key) {
            Some(held) if *held == statement.count() => Err(StatedFault::Duplicate),
            Some(_) => Err(StatedFault::Conflict),
            None if self.statements.len() >= ROWS => Err(StatedFault::OutboxFull),
            None => Ok(()),
        }
    }

    // Holds one statement more, at a place where there is none. At an error nothing changes.
    pub(super) fn push_statement(&mut self, statement: &Statement) -> Result<(), AllocError>
        requires { (plain_outbox self.old).stated statement.now.owner statement.now.device statement.now.day ≡ None }
        ensures ok { OnOk result (plain_outbox self.new ≡ stored_statement statement.now (plain_outbox self.old)) }
        ensures err { OnErr result (plain_outbox self.new ≡ plain_outbox self.old) }
    {
        let key = (statement.owner(), statement.device(), statement.day());
        self.statements.insert(key, statement.count())?;
        Ok(())
    }

    // The row of least lane number after this one.
    pub(super) fn row_after(&self, owner: OwnerId, device: DeviceId, after: u64) -> Option<Record>
        ensures { IsNextRow (plain_outbox self.now).rows owner device after result }
    {
        let rows = self.lanes.get(&(owner, device))?;
        let (_, row) = rows.range(..Reverse(after)).next_back()?;
        Some(*row)
    }

    // The statement of least day from this one on.
    pub(super) fn statement_from(
        &self,
        owner: OwnerId,
        device: DeviceId,
        from: Day,
    ) -> Option<Statement>
        ensures { IsNextStatement (plain_outbox self.now).stated owner device from result }
    {
        let (key, count) = self.statements.range((owner, device, from)..).next()?;
        if key.0 != owner || key.1 != device {
            return None;
        }
        Some(Statement::new(device, key.2, owner, *count))
    }

    // Lets the rows of a lane go up to a lane number, and answers how many.
    pub(super) fn drop_upto(&mut self, owner: OwnerId, device: DeviceId, upto: u64) -> u64
        ensures count { result ≡ rows_upto upto ((plain_outbox self.old).rows owner device) }
        ensures left { plain_outbox self.new ≡ pruned owner device upto (plain_outbox self.old) }
    {
        let removed = prune_lane(&mut self.lanes, (owner, device), upto);
        self.row_count = self.row_count.saturating_sub(removed);
        removed as u64
    }
    // The same for several lanes of an owner.
    pub(super) fn drop_all(&mut self, owner: OwnerId, lanes: &[(DeviceId, u64)])
        ensures { plain_outbox self.new ≡ pruned_all owner lanes.now (plain_outbox self.old) }
    {
        for place in 0..lanes.len() {
            let lane = lanes[place];
            self.drop_upto(owner, lane.0, lane.1);
        }
    }
}
