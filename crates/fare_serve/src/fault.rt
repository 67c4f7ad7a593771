ghost use Rattle.std.specs.Prelude.{◌≡◌};
ghost use Rattle.fare_serve.specs.declared.fault.ServeFault.TheVariants.{Memory};

use std::alloc::AllocError;
use thiserror::Error;

/// Why a hub that serves wrote no counts, in the order in which this is found.
#[derive(Clone, Copy, PartialEq, Eq, Debug, Error)]
pub enum ServeFault {
    /// There was no memory: for the lines, for a session, or for the text of the counts.
    #[error("no memory")]
    Memory,
    /// A store failed.
    #[error("store failed")]
    Store,
    /// The writer failed. How much it took is not said.
    #[error("write failed")]
    Write,
}

impl From<AllocError> for ServeFault {
    ghost from_gives = { λ _ e. e ≡ Memory };

    fn from(_error: AllocError) -> ServeFault {
        ServeFault::Memory
    }
}
