ghost use Rattle.std.specs.Prelude.{◌≡◌, ℕ, IfOk, is_some};
ghost use Rattle.fare_scheme.specs.Words.{position_of_device};
ghost use Rattle.fare_ledger.specs.Known.{knows};

use fare_record::DeviceId;
use fare_scheme::Scheme;
use std::alloc::{AllocError, Global};
use std::collections::HashSet;

// The devices of a scheme.
pub(crate) fn devices_of(alloc: Global, scheme: &Scheme) -> Result<HashSet<DeviceId>, AllocError>
    ensures { IfOk result (λ devices. (device : ℕ) → knows devices device ≡ is_some (position_of_device scheme.now device)) }
{
    let mut devices = HashSet::new(alloc);
    for device in scheme.devices() {
        devices.insert(*device)?;
    }
    Ok(devices)
}
