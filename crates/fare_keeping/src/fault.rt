ghost use Rattle.std.specs.Prelude.{◌≡◌};
ghost use Rattle.fare_keeping.specs.declared.fault.KeepFault.TheVariants.{Memory};
ghost use Rattle.fare_keeping.specs.Keeping.{of_scheme, of_store};

use fare_growth::Contradiction;
use fare_store::Fault;
use fare_trace::SchemeFault;
use std::alloc::AllocError;

/// Why a scheme isn't kept, or what is kept isn't told, in the order in which this is found. Its text names the first
/// contradiction, as `refused SchemeChanged product 3`, with ` gone` behind it where the entry is not registered any more.
#[derive(Clone, Copy, PartialEq, Eq, Debug)]
pub enum KeepFault {
    /// The database holds something else by the names of the kept tables, or these could not stand beside its store.
    Foreign,
    /// What is kept tells no scheme.
    Unreadable,
    /// The scheme contradicts the kept one; this is the first contradiction.
    Changed(Contradiction),
    /// There was no memory.
    Memory,
    /// The database failed.
    Store,
}

impl From<AllocError> for KeepFault {
    ghost from_gives = { λ _ e. e ≡ Memory };

    fn from(_error: AllocError) -> KeepFault {
        KeepFault::Memory
    }
}

impl From<Fault> for KeepFault {
    ghost from_gives = { λ fault e. e ≡ of_store fault };

    fn from(fault: Fault) -> KeepFault {
        match fault {
            Fault::Memory => KeepFault::Memory,
            Fault::Store => KeepFault::Store,
        }
    }
}

impl From<SchemeFault> for KeepFault {
    ghost from_gives = { λ fault e. e ≡ of_scheme fault };

    fn from(fault: SchemeFault) -> KeepFault {
        match fault {
            SchemeFault::Memory => KeepFault::Memory,
            SchemeFault::Refused(_) | SchemeFault::NoScheme => KeepFault::Unreadable,
        }
    }
}
