ghost use Rattle.std.specs.Prelude.{◌≡◌, IfOk, IfErr};
ghost use Rattle.fare_world.specs.Making.{IsReady, IsMadeOf, IsRefused};
ghost use Rattle.fare_world.specs.System.{start};
ghost use Rattle.fare_world.specs.Whole.{StandsAt};

use crate::world::fresh::{Fresh, fresh_parts, joined};
use crate::world::judging::judge;
use crate::world::{Parts, World, WorldFault};
use fare_scheme::Scheme;
use fare_store::{Ledger, Outbox};
use std::alloc::Global;

impl<O: Outbox + Drop, L: Ledger + Drop> World<O, L> {
    /// A new world: nothing was numbered, sent, stored or taken, and each device's open day is the scheme's
    /// first. The outbox and the ledgers are to be empty, and each ledger made with this scheme, which is the
    /// caller's to see to.
    ///
    /// Refused with all that was handed in: `WrongLedgers` where there is not one ledger for each owner of the
    /// scheme, in order of registration, before any store is asked. Then the outbox and the ledgers are asked in
    /// turn: `NotEmpty` at the first that is not empty, `Memory` or `Store` at the first that fails. At last
    /// `Memory` where there was none for the world's own parts.
    pub fn new(
        alloc: Global,
        scheme: Scheme,
        mut outbox: O,
        mut ledgers: Vec<L>,
    ) -> Result<World<O, L>, (Parts<O, L>, WorldFault)>
        ensures scheme { IfOk result (λ world. world.scheme ≡ scheme) }
        ensures start { IsReady O.standing L.standing scheme outbox ledgers.items → IfOk result (λ world. StandsAt O.standing L.standing world (start scheme)) }
        ensures made { IfOk result (λ world. IsMadeOf O.standing L.standing scheme outbox ledgers.items world) }
        ensures refused { IfErr result (λ e. IsRefused O.standing L.standing scheme outbox ledgers.items e.0 e.1) }
    {
        if let Err(fault) = judge(&scheme, &mut outbox, &mut ledgers) {
            let parts = Parts {
                scheme,
                outbox,
                ledgers,
            };
            return Err((parts, fault));
        }
        let Ok(fresh) = fresh_parts(alloc, &scheme) else {
            let parts = Parts {
                scheme,
                outbox,
                ledgers,
            };
            return Err((parts, WorldFault::Memory));
        };
        let Fresh {
            devices,
            stations,
            inbox,
            uptos,
            sides,
            owners,
        } = fresh;
        Ok(World {
            alloc,
            scheme,
            devices,
            stations,
            air: Vec::new(alloc),
            inbox,
            hand: None,
            outbox,
            owners: joined(owners, sides, ledgers),
            uptos,
        })
    }
}
