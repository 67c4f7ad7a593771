//! Where a device's station stands.
ghost use Rattle.std.specs.Prelude.{◌≡◌, ℕ, IsSome, Some};
ghost use Rattle.fare_scheme.specs.Words.{position_of_device, position_of_station, station_of};

use fare_record::DeviceId;
use fare_scheme::Scheme;

// Where the station of a registered device stands among the scheme's.
pub(crate) fn place_of_station(scheme: &Scheme, device: DeviceId) -> usize
    requires { IsSome (position_of_device scheme.now device) }
    ensures { (station : ℕ) × (station_of scheme.now device ≡ Some station) × (position_of_station scheme.now station ≡ Some result) }
{
    let Some(station) = scheme.station_of(device) else {
        unreachable!()
    };
    let Some(place) = scheme.station_position(station) else {
        unreachable!()
    };
    place
}
