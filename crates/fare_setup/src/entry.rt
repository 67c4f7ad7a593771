ghost use Rattle.std.specs.Prelude.{◌≡◌, IfSome, option_map, slice_get};
ghost use Rattle.fare_scheme.specs.Facts.{IsTariff};
ghost use Rattle.fare_setup.specs.SchemeLines.{device_line, owner_line, station_line};

use fare_lines::SchemeLine;
use fare_record::ProductId;
use fare_scheme::{Product, Scheme};

/// The line of the owner at a position.
pub fn line_of_owner(scheme: &Scheme, position: usize) -> Option<SchemeLine>
    ensures { result ≡ option_map owner_line (slice_get scheme.now.owners position) }
{
    let owner = scheme.owner_at(position)?;
    let lane = scheme.lane_capacity(owner)?;
    Some(SchemeLine::Owner {
        owner: owner.get(),
        lane,
    })
}

/// The line of the station at a position.
pub fn line_of_station(scheme: &Scheme, position: usize) -> Option<SchemeLine>
    ensures { result ≡ option_map station_line (slice_get scheme.now.stations position) }
{
    let station = scheme.station_at(position)?;
    let operator = scheme.operator_of_station(station)?;
    Some(SchemeLine::Station {
        station: station.get(),
        operator: operator.get(),
    })
}

/// The product at a position, with its owner and its tariff.
pub fn product_entry(scheme: &Scheme, position: usize) -> Option<(ProductId, Product)>
    ensures is { result ≡ slice_get scheme.now.products position }
    ensures valid { IfSome result (λ entry. IsTariff entry.1.tariff) }
{
    let id = scheme.product_at(position)?;
    let owner = scheme.owner_of(id)?;
    let tariff = scheme.tariff_of(id)?;
    Some((id, Product { owner, tariff }))
}

/// The line of the device at a position.
pub fn line_of_device(scheme: &Scheme, position: usize) -> Option<SchemeLine>
    ensures { result ≡ option_map device_line (slice_get scheme.now.devices position) }
{
    let device = scheme.device_at(position)?;
    let station = scheme.station_of(device)?;
    let buffer = scheme.buffer_of(device)?;
    Some(SchemeLine::Device {
        device: device.get(),
        station: station.get(),
        buffer,
    })
}
