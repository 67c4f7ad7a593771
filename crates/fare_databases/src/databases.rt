//! The databases of a scheme's stores, of any kind. The functions that name what a database in a file is made of only hand
//! such values on: one that may let them go, as each early exit does, carries all of its declarations in its proof.
ghost use Rattle.std.specs.Prelude.{◌≡◌, ◌++◌, ◌∷◌, [], Ok, IfOk};

use fare_store::Fault;
use sqlite::{Alter, Connection};
use std::alloc::Global;

/// The databases in which the stores of a scheme lie.
#[derive(Drop)]
pub struct Databases<S: Alter> {
    /// That of the outbox.
    pub outbox: Connection<S>,
    /// That of each owner's ledger, in the scheme's order.
    pub ledgers: Vec<Connection<S>>,
}

impl<S: Alter + Drop> Databases<S> {
    // That of the outbox, if it was connected.
    pub(crate) fn first(
        alloc: Global,
        outbox: Result<Connection<S>, Fault>,
    ) -> Result<Databases<S>, Fault>
        ensures { IfOk result (λ made. (outbox ≡ Ok made.outbox) × (made.ledgers.items ≡ [])) }
    {
        Ok(Databases {
            outbox: outbox?,
            ledgers: Vec::new(alloc),
        })
    }

    // And that of one more ledger, if it was connected.
    pub(crate) fn and(mut self, ledger: Result<Connection<S>, Fault>) -> Result<Databases<S>, Fault>
        ensures { IfOk result (λ made. (made.outbox ≡ self.outbox) × ((c : _) × (ledger ≡ Ok c) × (made.ledgers.items ≡ self.ledgers.items ++ c ∷ []))) }
    {
        self.ledgers.push(ledger?)?;
        Ok(self)
    }
}

// The database of the last ledger, which is taken away.
pub(crate) fn take_last<S: Alter + Drop>(
    ledgers: &mut Vec<Connection<S>>,
) -> Option<Connection<S>> {
    ledgers.pop()
}

// Lets databases go.
pub(crate) fn end<S: Alter + Drop>(ledgers: Vec<Connection<S>>) {
    drop(ledgers);
}
