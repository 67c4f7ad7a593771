use crate::fault::WriterFault;
use fare_inbox_queue::Arrived;
use fare_store::Fault;

/// How the writer ended.
#[derive(Clone, Copy)]
pub struct Halt {
    /// The item that it had in its hand.
    pub hand: Option<Arrived>,
    /// How many items of its batch stand behind that one.
    pub behind: u64,
    /// What ended it.
    pub fault: WriterFault,
}

// A call of the outbox fails when the writer has no item in its hand.
impl From<Fault> for Halt {
    ghost use Rattle.std.specs.Prelude.{◌≡◌, None};
    ghost use Rattle.fare_writer.specs.Writing.{as_writer};

    ghost from_gives = { λ fault halt. halt ≡ record { hand = None; behind = 0; fault = as_writer fault } };

    fn from(fault: Fault) -> Halt {
        Halt {
            hand: None,
            behind: 0,
            fault: WriterFault::from(fault),
        }
    }
}
