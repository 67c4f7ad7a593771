ghost use Rattle.std.specs.Prelude.{◌≡◌, Some};
ghost use Rattle.fare_store.specs.Standing.{Counted, fault_of};
ghost use Rattle.fare_tables.specs.Asking.{fault_named};

use fare_store::Fault;
use sqlite::{Error, ErrorCode};

/// The fault of a call that the port answered with this error.
pub fn fault_of(error: Error) -> Fault
    ensures { result ≡ fault_named error }
{
    match error {
        Error::SqliteFailure(ErrorCode::OutOfMemory) => Fault::Memory,
        _ => Fault::Store,
    }
}

/// The fault, which is counted where it is `Store`. The count stays at the greatest number.
pub fn note(failures: &mut u64, fault: Fault) -> Fault
    ensures same { result ≡ fault }
    ensures counted { Counted failures.old failures.new (Some result) }
{
    match fault {
        Fault::Memory => Fault::Memory,
        Fault::Store => {
            if *failures < u64::MAX {
                *failures += 1;
            }
            Fault::Store
        }
    }
}

/// What was answered, with its fault counted where it is `Store`.
pub fn noted<T>(failures: &mut u64, answer: Result<T, Fault>) -> Result<T, Fault>
    ensures same { result ≡ answer }
    ensures counted { Counted failures.old failures.new (fault_of result) }
{
    match answer {
        Ok(value) => Ok(value),
        Err(fault) => Err(note(failures, fault)),
    }
}
