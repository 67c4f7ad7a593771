ghost use Rattle.std.specs.Prelude.{◌≡◌, ◌↔◌, IsTrue, nat_eq};
ghost use Rattle.std.specs.List.{IsDistinct, list_any};

use fare_record::StationId;

/// Whether no station is named twice.
pub(crate) fn are_distinct(stations: &[StationId]) -> bool
    ensures { IsTrue result ↔ IsDistinct nat_eq stations.now }
{
    for index in 0..stations.len() {
        if is_named(&stations[..index], stations[index]) {
            return false;
        }
    }
    true
}

// Whether the station is among these.
fn is_named(stations: &[StationId], station: StationId) -> bool
    ensures { result ≡ list_any (nat_eq station) stations.now }
{
    stations.iter().any(|other| *other == station)
}
