ghost use Rattle.std.specs.Prelude.{◌≡◌, ◌+◌, ◌≤◌, [], length};
ghost use Rattle.std.specs.Vec.{vec_capacity};
ghost use Rattle.fare_databases.specs.Closed.{AreHandedBack, IsHandedBack};

use crate::databases::Databases;
use crate::opening::OpenHub;
use fare_ledger::SqlLedger;
use sqlite::{Alter, Connection};

// Hands the databases of ledgers back, behind those that were.
pub(crate) fn hand_back<S: Alter + Drop>(
    ledgers: Vec<SqlLedger<S>>,
    databases: &mut Vec<Connection<S>>,
)
    requires room { length databases.old.items + length ledgers.items ≤ vec_capacity databases.old }
    ensures back { AreHandedBack S.Store ledgers.items databases.old.items databases.new.items }
    ensures room { vec_capacity databases.new ≡ vec_capacity databases.old }
{
    for ledger in ledgers {
        databases.push_reserved(ledger.into_connection());
    }
}

/// Takes a hub apart into the databases in which its stores lie, which needs no memory. A stop leaves of each what it
/// would have left of the store.
pub fn close_hub<S: Alter + Drop>(opened: OpenHub<S>) -> Databases<S>
    requires room { length opened.hub.ledgers.items ≤ vec_capacity opened.room }
    requires empty { opened.room.items ≡ [] }
    ensures back { IsHandedBack S.Store opened.hub result }
{
    let OpenHub { hub, mut room } = opened;
    hand_back(hub.ledgers, &mut room);
    Databases {
        outbox: hub.outbox.into_connection(),
        ledgers: room,
    }
}
