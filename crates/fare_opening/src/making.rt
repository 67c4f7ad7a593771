ghost use Rattle.std.specs.Prelude.{◌≡◌, false, IsTrue, OnOk, OnErr, map};
ghost use Rattle.sqlite.specs.State.{HasCleanDisk, Survives};
ghost use Rattle.sqlite.specs.Schema.{Schema};
ghost use Rattle.sqlite.specs.Held.{state};
ghost use Rattle.fare_tables.specs.Asking.{IsLive, SameRows, Inside};
ghost use Rattle.fare_layout.specs.Growing.{GrowsBy};
ghost use Rattle.fare_opening.specs.declared.site.Site.{Site};
ghost use Rattle.fare_opening.specs.Sites.{IsSite};
ghost use Rattle.fare_opening.specs.Making.{MayGrow, KeepsAllButMeta, HasGrown, IsBlank, IsNew, MakesNew, MadeFrom};

use crate::Design;
use fare_store::Fault;
use fare_tables::{change, commit, make_table, parameter};
use sqlite::{Alter, Connection, Transaction};

// Tables, one after the other, after those that are there.
pub(crate) fn make_tables<S: Alter>(
    tx: &mut Transaction<'_, S>,
    tables: &[(&str, &str)],
) -> Result<(), Fault>
    ensures same_reference { tx.new.conn.ghost_name ≡ tx.old.conn.ghost_name }
    ensures made { HasCleanDisk (state S.Store tx.new.conn.now) → IsTrue (state S.Store tx.old.conn.now).in_transaction → (grown : Schema) → GrowsBy (state S.Store tx.old.conn.now).now.schema (map (λ t. (t.0.now, t.1.now)) tables.now) grown
        → OnOk result (HasGrown grown (state S.Store tx.old.conn.now).now (state S.Store tx.new.conn.now).now × IsTrue (state S.Store tx.new.conn.now).in_transaction) }
    ensures inside { HasCleanDisk (state S.Store tx.new.conn.now) → Inside (state S.Store tx.old.conn.now) (state S.Store tx.new.conn.now) }
    ensures survives { Survives (state S.Store tx.old.conn.now) (state S.Store tx.new.conn.now) (λ _. ⊥) }
{
    match tables {
        [] => Ok(()),
        [(_, text), rest @ ..] => {
            make_table(tx, text)?;
            make_tables(tx, rest)
        }
    }
}

// The one row of meta.
fn put_meta<D: Design, S: Alter>(tx: &mut Transaction<'_, S>, owner: u16) -> Result<(), Fault>
    ensures same_reference { tx.new.conn.ghost_name ≡ tx.old.conn.ghost_name }
    ensures made { HasCleanDisk (state S.Store tx.new.conn.now) → IsTrue (state S.Store tx.old.conn.now).in_transaction → (w : Site) → IsSite D.parts w → IsBlank w (state S.Store tx.old.conn.now).now
        → OnOk result (IsNew D.parts owner w (state S.Store tx.new.conn.now).now × KeepsAllButMeta w (state S.Store tx.old.conn.now).now (state S.Store tx.new.conn.now).now × IsTrue (state S.Store tx.new.conn.now).in_transaction) }
    ensures inside { HasCleanDisk (state S.Store tx.new.conn.now) → Inside (state S.Store tx.old.conn.now) (state S.Store tx.new.conn.now) }
    ensures survives { Survives (state S.Store tx.old.conn.now) (state S.Store tx.new.conn.now) (λ _. ⊥) }
{
    D::sound();
    let cells = [
        parameter(u64::from(D::format())),
        parameter(u64::from(owner)),
    ];
    change(tx, D::meta().put, &cells)?;
    Ok(())
}

// The tables and the row of meta.
fn make_all<D: Design, S: Alter>(tx: &mut Transaction<'_, S>, owner: u16) -> Result<(), Fault>
    ensures same_reference { tx.new.conn.ghost_name ≡ tx.old.conn.ghost_name }
    ensures made { HasCleanDisk (state S.Store tx.new.conn.now) → IsTrue (state S.Store tx.old.conn.now).in_transaction → MayGrow D.parts (state S.Store tx.old.conn.now).now.schema
        → OnOk result (MakesNew D.parts owner (state S.Store tx.old.conn.now).now (state S.Store tx.new.conn.now).now × IsTrue (state S.Store tx.new.conn.now).in_transaction) }
    ensures inside { HasCleanDisk (state S.Store tx.new.conn.now) → Inside (state S.Store tx.old.conn.now) (state S.Store tx.new.conn.now) }
    ensures survives { Survives (state S.Store tx.old.conn.now) (state S.Store tx.new.conn.now) (λ _. ⊥) }
{
    D::sound();
    make_tables(tx, D::tables())?;
    put_meta::<D, S>(tx, owner)
}

// A store in a database where nothing has a name of its tables, in one transaction.
pub(crate) fn make_store<D: Design, S: Alter>(
    conn: &mut Connection<S>,
    owner: u16,
) -> Result<(), Fault>
    requires { conn.old.in_transaction ≡ false }
    ensures made { IsLive (state S.Store conn.new) → MayGrow D.parts (state S.Store conn.old).now.schema → OnOk result (MakesNew D.parts owner (state S.Store conn.old).now (state S.Store conn.new).now × ((state S.Store conn.new).now ≡ (state S.Store conn.new).committed)) }
    ensures same { IsLive (state S.Store conn.new) → MayGrow D.parts (state S.Store conn.old).now.schema → (state S.Store conn.old).now ≡ (state S.Store conn.old).committed → OnErr result (SameRows (state S.Store conn.old) (state S.Store conn.new)) }
    ensures crash { Survives (state S.Store conn.old) (state S.Store conn.new) (λ trees. MayGrow D.parts (state S.Store conn.old).now.schema → MadeFrom D.parts owner (state S.Store conn.old).now trees) }
    ensures live { IsLive (state S.Store conn.new) → IsLive (state S.Store conn.old) }
    ensures stays { HasCleanDisk (state S.Store conn.new) → OnOk result (IsTrue (state S.Store conn.new).is_open) }
    ensures idle { conn.new.in_transaction ≡ false }
{
    let mut tx = conn.transaction();
    make_all::<D, S>(&mut tx, owner)?;
    commit(tx)
}
