ghost use Rattle.std.specs.Prelude.{◌≡◌};
ghost use Rattle.fare_run.specs.declared.ask_failure.AskFailure.TheVariants.{Stores};

use crate::serve_failure::ServeFailure;
use fare_desk::DeskFault;
use thiserror::Error;

/// Why a question of the stores, or an order, came to nothing, in the order in which this is found.
#[derive(Clone, Copy, PartialEq, Eq, Debug, Error)]
pub enum AskFailure {
    /// There is no scheme, or it isn't kept, or a store could not be opened.
    #[error("{0}")]
    Stores(ServeFailure),
    /// It was refused, or there was no memory, or a store or the writer failed.
    #[error("{0}")]
    Desk(DeskFault),
}

impl From<ServeFailure> for AskFailure {
    ghost from_gives = { λ failure e. e ≡ Stores failure };

    fn from(failure: ServeFailure) -> AskFailure {
        AskFailure::Stores(failure)
    }
}
