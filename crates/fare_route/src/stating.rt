ghost use Rattle.std.specs.Prelude.{◌≡◌};
ghost use Rattle.fare_store.specs.Standing.{Reads};
ghost use Rattle.fare_route.specs.Stating.{are_all_stated};

use fare_record::{Day, DeviceId};
use fare_scheme::Scheme;
use fare_store::{Fault, Outbox};

/// Whether an outbox holds a device's statements of a day for all owners of the scheme. Want of memory and a failure
/// are the outbox's.
pub fn are_stated<O: Outbox>(
    scheme: &Scheme,
    outbox: &mut O,
    device: DeviceId,
    day: Day,
) -> Result<bool, Fault>
    ensures { Reads (O.standing outbox.old) (O.standing outbox.new) (λ all. all ≡ are_all_stated scheme.now (O.standing outbox.old).value device day) result }
{
    for owner in scheme.owners() {
        let Some(statement) = outbox.next_statement(*owner, device, day)? else {
            return Ok(false);
        };
        if statement.day() != day {
            return Ok(false);
        }
    }
    Ok(true)
}
