ghost use Rattle.std.specs.Prelude.{◌≡◌, ◌+◌, ℕ};
ghost use Rattle.std.specs.BTreeMap as tree;
ghost use Rattle.fare_store.specs.Tables.{put2};
ghost use Rattle.fare_store.specs.Keys.{key_order};
ghost use Rattle.fare_store.specs.LedgerWords.{stated_from};
ghost use Rattle.fare_store.specs.OutboxWords.{stated_before, without_statements};
ghost use Rattle.fare_store.specs.PlainOutboxWords.{stated_in, plain_outbox};

use super::PlainOutbox;
use fare_record::{Day, Days, DeviceId, OwnerId};
use std::collections::BTreeMap;

impl PlainOutbox {
    // Lets the statements of an owner and a device go of the days before this one, and answers how many.
    pub(super) fn drop_statements(&mut self, owner: OwnerId, device: DeviceId, day: Day) -> u64
        ensures count { result ≡ stated_before day ((plain_outbox self.old).stated owner device) }
        ensures left { plain_outbox self.new ≡ without_statements owner device day (plain_outbox self.old) }
    {
        let held = self.statements.len();
        remove_before(&mut self.statements, owner, device, day);
        (held - self.statements.len()) as u64
    }
}

// The statements of an owner and a device of the days before this one go.
fn remove_before(
    statements: &mut BTreeMap<(OwnerId, DeviceId, Day), u64>,
    owner: OwnerId,
    device: DeviceId,
    day: Day,
)
    ensures left { (o d e : ℕ) → stated_in statements.new o d e ≡ put2 (stated_in statements.old) owner device (stated_from day (stated_in statements.old owner device)) o d e }
    ensures count { tree.btree_map_len statements.new + stated_before day (stated_in statements.old owner device) ≡ tree.btree_map_len statements.old }
{
    for earlier in Days::until(Day::FIRST, day) {
        statements.remove(&(owner, device, earlier));
    }
}
