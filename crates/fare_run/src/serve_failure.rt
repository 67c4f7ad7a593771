ghost use Rattle.std.specs.Prelude.{◌≡◌};
ghost use Rattle.fare_run.specs.Scheming.{keep_failure, scheme_failure};
ghost use Rattle.fare_run.specs.Serving.{serving_failure};
ghost use Rattle.fare_run.specs.Stores.{opening_failure};
ghost use Rattle.fare_run.specs.declared.serve_failure.ServeFailure.TheVariants.{Lines, Memory};

use fare_event::Refusal;
use fare_keeping::KeepFault;
use fare_replay::ReplayFault;
use fare_serve::ServeFault;
use fare_store::Fault;
use fare_trace::SchemeFault;
use std::alloc::AllocError;
use thiserror::Error;

/// Why the program did not serve to its end, in the order in which this is found.
#[derive(Clone, Copy, PartialEq, Eq, Debug, Error)]
pub enum ServeFailure {
    /// The input, or the scheme's file, could not be opened or read, is no trace, or there was no memory for it.
    #[error("{0}")]
    Lines(ReplayFault),
    /// A scheme line was refused before the scheme was sealed.
    #[error("scheme refused {0:?}")]
    Refused(Refusal),
    /// The lines make no scheme: an event or their end came before the seal. Or there are none, and nothing is kept.
    #[error("no scheme")]
    NoScheme,
    /// The scheme contradicts the one that is kept beside the outbox, or none can be kept or read there.
    #[error("{0}")]
    Kept(KeepFault),
    /// There was no memory.
    #[error("no memory")]
    Memory,
    /// A store could not be opened, holds something else, or failed.
    #[error("store failed")]
    Store,
    /// The port could not be listened on.
    #[error("network failed")]
    Network,
    /// The writer failed. How much it took is not said.
    #[error("write failed")]
    Write,
}

impl From<AllocError> for ServeFailure {
    ghost from_gives = { λ _ e. e ≡ Memory };

    fn from(_error: AllocError) -> ServeFailure {
        ServeFailure::Memory
    }
}

impl From<ReplayFault> for ServeFailure {
    ghost from_gives = { λ fault e. e ≡ Lines fault };

    fn from(fault: ReplayFault) -> ServeFailure {
        ServeFailure::Lines(fault)
    }
}

impl From<SchemeFault> for ServeFailure {
    ghost from_gives = { λ fault e. e ≡ scheme_failure fault };

    fn from(fault: SchemeFault) -> ServeFailure {
        match fault {
            SchemeFault::Refused(refusal) => ServeFailure::Refused(refusal),
            SchemeFault::NoScheme => ServeFailure::NoScheme,
            SchemeFault::Memory => ServeFailure::Memory,
        }
    }
}

impl From<KeepFault> for ServeFailure {
    ghost from_gives = { λ fault e. e ≡ keep_failure fault };

    fn from(fault: KeepFault) -> ServeFailure {
        match fault {
            KeepFault::Memory => ServeFailure::Memory,
            KeepFault::Store => ServeFailure::Store,
            KeepFault::Foreign | KeepFault::Unreadable | KeepFault::Changed(_) => {
                ServeFailure::Kept(fault)
            }
        }
    }
}

// Why stores weren't opened.
impl From<Fault> for ServeFailure {
    ghost from_gives = { λ fault e. e ≡ opening_failure fault };

    fn from(fault: Fault) -> ServeFailure {
        match fault {
            Fault::Memory => ServeFailure::Memory,
            Fault::Store => ServeFailure::Store,
        }
    }
}

// Why no counts were written.
impl From<ServeFault> for ServeFailure {
    ghost from_gives = { λ fault e. e ≡ serving_failure fault };

    fn from(fault: ServeFault) -> ServeFailure {
        match fault {
            ServeFault::Memory => ServeFailure::Memory,
            ServeFault::Store => ServeFailure::Store,
            ServeFault::Write => ServeFailure::Write,
        }
    }
}
