ghost use Rattle.std.specs.Prelude.{◌≡◌, ◌<◌, ◌≤◌, ◌↔◌, IsErrOf, IfOk, length, map};
ghost use Rattle.fare_collect.specs.Resuming.{AreStations};
ghost use Rattle.fare_collect.specs.Collected.{HaveDevices, source_of};

use crate::station::Station;
use fare_collector::Collector;
use fare_scheme::Scheme;
use std::alloc::Global;
use thiserror::Error;

/// Why there are no stations for sources, in the order in which this is tested.
#[derive(Clone, Copy, PartialEq, Eq, Debug, Error)]
pub enum StationsFault {
    /// There are more sources than the scheme has stations.
    #[error("more sources than stations")]
    Range,
    /// No memory is left for them.
    #[error("out of memory")]
    Memory,
}

/// The first stations of the scheme, in its order, one for each of these sources: what `collect` takes.
///
/// Refused by the first case of `StationsFault` that applies; the sources are let go then.
pub fn stations_of<S: Drop>(
    alloc: Global,
    scheme: &Scheme,
    sources: Vec<S>,
) -> Result<Vec<Station<S>>, StationsFault>
    ensures range { IsErrOf result StationsFault.Range ↔ length scheme.now.stations < length sources.items }
    ensures stations { IfOk result (λ stations. AreStations scheme.now stations.items) }
    ensures devices { IfOk result (λ stations. HaveDevices scheme.now stations.items) }
    ensures sources { IfOk result (λ stations. map source_of stations.items ≡ sources.items) }
{
    if sources.len() > scheme.station_count() {
        return Err(StationsFault::Range);
    }
    let mut sources = sources;
    let mut stations = Vec::new(alloc);
    while let Some(source) = sources.pop() {
        let Some(id) = scheme.station_at(sources.len()) else {
            unreachable!()
        };
        let Ok(collector) = Collector::new(alloc, scheme, id) else {
            return Err(StationsFault::Memory);
        };
        if stations.insert(0, Station::new(collector, source)).is_err() {
            return Err(StationsFault::Memory);
        }
    }
    Ok(stations)
}
