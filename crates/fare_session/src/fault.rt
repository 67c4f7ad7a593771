use fare_record::StationId;
use fare_store::Fault;
use thiserror::Error;

/// Why a session ended before its work was done.
#[derive(Clone, Copy, PartialEq, Eq, Debug, Error)]
pub enum SessionFault {
    /// The source of this station failed.
    #[error("the source of a station failed")]
    Source(StationId),
    /// The source of this station gave a frame that no validator sends: an acknowledgement or a greeting.
    #[error("a station's source gave a frame that no validator sends")]
    Unexpected(StationId),
    /// A store refused an item, and not since it holds it already; or the next row of a lane leaves out a lane number.
    #[error("an item was refused")]
    Refused,
    /// There was no memory for it.
    #[error("out of memory")]
    Memory,
    /// A store failed.
    #[error("a store failed")]
    Store,
}

// The fault of a session in which a call of a store answers this one.
impl From<Fault> for SessionFault {
    ghost use Rattle.std.specs.Prelude.{◌≡◌};
    ghost use Rattle.fare_session.specs.Stores.{session_fault};

    ghost from_gives = { λ fault e. e ≡ session_fault fault };

    fn from(fault: Fault) -> SessionFault {
        match fault {
            Fault::Memory => SessionFault::Memory,
            Fault::Store => SessionFault::Store,
        }
    }
}
