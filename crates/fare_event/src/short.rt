ghost use Rattle.std.specs.Prelude.{◌≡◌};
ghost use Rattle.std.specs.Cmp.{partial_equiv_from_equiv};
ghost use Rattle.fare_event.specs.Same.{same_devices, same_devices_equiv};

use fare_record::DeviceId;
use std::marker::Model;

/// The devices of which a bill or a settlement is short, in order of registration: the owner has retired their lanes,
/// and had not closed the day.
#[derive(Debug, Drop)]
pub struct Short {
    devices: Vec<DeviceId>,
}

impl Model for Short {
    ghost use Rattle.std.specs.Prelude.{ℕ, List};

    ghost Value = { List ℕ };

    ghost view = { λ s. s.devices.items };
}

impl PartialEq for Short {
    ghost eq = { same_devices };

    ghost laws = { partial_equiv_from_equiv same_devices_equiv };

    fn eq(&self, other: &Short) -> bool {
        self.devices == other.devices
    }
}

impl Eq for Short {
    ghost laws = { same_devices_equiv };
}

impl Short {
    /// These devices.
    pub fn new(devices: Vec<DeviceId>) -> Short
        ensures { result ≡ devices.items }
    {
        Short { devices }
    }

    /// The devices.
    pub fn devices(&self) -> &[DeviceId]
        ensures { result.now ≡ self.now }
    {
        &self.devices
    }
}
