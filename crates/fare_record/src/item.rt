ghost use Rattle.std.specs.Prelude.{◌≡◌};
ghost use Rattle.fare_record.specs.Items.{tap_of, statement_of};

use crate::{Record, Statement};

/// What the hub hands on to the owner of a lane.
#[derive(Clone, Copy, PartialEq, Eq, Debug)]
pub enum Item {
    /// A tap that its device numbered.
    Tap(Record),
    /// A device's count of the taps of one of its days.
    Stated(Statement),
}

impl Item {
    /// The record of a numbered tap; None for a statement.
    pub fn tap(&self) -> Option<Record>
        ensures { result ≡ tap_of self.now }
    {
        match self {
            Item::Tap(record) => Some(*record),
            Item::Stated(_) => None,
        }
    }

    /// A device's statement; None for a tap.
    pub fn stated(&self) -> Option<Statement>
        ensures { result ≡ statement_of self.now }
    {
        match self {
            Item::Tap(_) => None,
            Item::Stated(statement) => Some(*statement),
        }
    }
}
