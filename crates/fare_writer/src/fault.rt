use fare_store::Fault;

/// What ended the writer.
#[derive(Clone, Copy)]
pub enum WriterFault {
    /// The outbox refused an item.
    Refused,
    /// No memory is left to note a statement's day, or for the outbox.
    Memory,
    /// The outbox failed.
    Store,
}

// The writer's fault of a store's.
impl From<Fault> for WriterFault {
    ghost use Rattle.std.specs.Prelude.{◌≡◌};
    ghost use Rattle.fare_writer.specs.Writing.{as_writer};

    ghost from_gives = { λ fault e. e ≡ as_writer fault };

    fn from(fault: Fault) -> WriterFault {
        match fault {
            Fault::Memory => WriterFault::Memory,
            Fault::Store => WriterFault::Store,
        }
    }
}
