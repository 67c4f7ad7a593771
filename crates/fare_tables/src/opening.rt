ghost use Rattle.std.specs.Prelude.{◌≡◌, IsTrue, OnOk};
ghost use Rattle.sqlite.specs.State.{HasCleanDisk, Survives};
ghost use Rattle.sqlite.specs.Held.{state};
ghost use Rattle.sqlite.specs.Table.{Table};
ghost use Rattle.fare_tables.specs.Asking.{Inside};
ghost use Rattle.fare_tables.specs.Making.{Defines, Made};
ghost use Rattle.fare_tables.specs.Opened.{opening_fault};

use crate::change;
use fare_store::Fault;
use sqlite::{Alter, Transaction};
use thiserror::Error;

/// Why a database isn't opened as a store, in the order in which this is tested.
#[derive(Clone, Copy, PartialEq, Eq, Debug, Error)]
pub enum OpenFault {
    /// It holds something else: other tables, or a table of the store's with another shape or format.
    #[error("the database holds something else")]
    Foreign,
    /// No memory is left for it.
    #[error("out of memory")]
    Memory,
    /// The database failed or refused.
    #[error("the store failed")]
    Store,
}

/// The fault of an open in which a call failed.
pub fn open_fault(fault: Fault) -> OpenFault
    ensures { result ≡ opening_fault fault }
{
    match fault {
        Fault::Memory => OpenFault::Memory,
        Fault::Store => OpenFault::Store,
    }
}

/// Makes a table in a transaction, by a text that is one CREATE TABLE.
pub fn make_table<S: Alter>(tx: &mut Transaction<'_, S>, sql: &str) -> Result<(), Fault>
    ensures same_reference { tx.new.conn.ghost_name ≡ tx.old.conn.ghost_name }
    ensures made { HasCleanDisk (state S.Store tx.new.conn.now) → IsTrue (state S.Store tx.old.conn.now).in_transaction → (table : Table) → Defines (state S.Store tx.old.conn.now).now.schema sql.now table
        → OnOk result (Made (state S.Store tx.old.conn.now).now (state S.Store tx.new.conn.now).now table × IsTrue (state S.Store tx.new.conn.now).in_transaction) }
    ensures inside { HasCleanDisk (state S.Store tx.new.conn.now) → Inside (state S.Store tx.old.conn.now) (state S.Store tx.new.conn.now) }
    ensures survives { Survives (state S.Store tx.old.conn.now) (state S.Store tx.new.conn.now) (λ _. ⊥) }
{
    change(tx, sql, &[])?;
    Ok(())
}
