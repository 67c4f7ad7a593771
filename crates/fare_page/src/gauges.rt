//! What waits for owners and where devices stand, in the text format of Prometheus.
ghost use Rattle.std.specs.Prelude.{◌≡◌, ◌++◌, OnOk, string_bytes};
ghost use Rattle.std.specs.List.{flat_map};
ghost use Rattle.fare_page.specs.Gauges.{device_line, devices_head, devices_text, gauge_line, gauges_text, moment_line, oldest_head, oldest_line, placed, placed_line, rows_head, rows_line, statements_head, statements_line, waiting_text};

use fare_desk::OwnerWaits;
use fare_record::{DeviceId, Moment, OwnerId, StationId};
use fare_scheme::Scheme;
use std::alloc::{AllocError, Global};

// Adds the line of an owner's number.
#[tactic(auto, unfolding(crate::specs::Gauges::gauge_line))]
fn add_line(
    alloc: Global,
    name: &str,
    owner: OwnerId,
    number: u64,
    text: &mut String,
) -> Result<(), AllocError>
    ensures { OnOk result (string_bytes text.new ≡ string_bytes text.old ++ gauge_line name.now owner number) }
{
    let owner = owner.get();
    text.push_str(&format!(in alloc; "{name}{{owner=\"{owner}\"}} {number}\n")?)?;
    Ok(())
}

// Adds the lines of how many rows wait.
fn add_rows(alloc: Global, waits: &[OwnerWaits], text: &mut String) -> Result<(), AllocError>
    ensures { OnOk result (string_bytes text.new ≡ string_bytes text.old ++ flat_map rows_line waits.now) }
{
    for one in waits {
        add_line(
            alloc,
            "fare_hub_waiting_rows",
            one.owner,
            one.waiting.rows,
            text,
        )?;
    }
    Ok(())
}

// Adds the lines of how many statements wait.
fn add_statements(alloc: Global, waits: &[OwnerWaits], text: &mut String) -> Result<(), AllocError>
    ensures { OnOk result (string_bytes text.new ≡ string_bytes text.old ++ flat_map statements_line waits.now) }
{
    for one in waits {
        add_line(
            alloc,
            "fare_hub_waiting_statements",
            one.owner,
            one.waiting.statements,
            text,
        )?;
    }
    Ok(())
}

// Adds the line of when the earliest of the taps was made that wait for an owner, if one does.
fn add_moment(
    alloc: Global,
    owner: OwnerId,
    oldest: Option<Moment>,
    text: &mut String,
) -> Result<(), AllocError>
    ensures { OnOk result (string_bytes text.new ≡ string_bytes text.old ++ moment_line owner oldest) }
{
    match oldest {
        Some(moment) => add_line(
            alloc,
            "fare_hub_oldest_waiting_tap_timestamp_seconds",
            owner,
            moment.get(),
            text,
        ),
        None => Ok(()),
    }
}

// Adds those of owners.
fn add_oldest(alloc: Global, waits: &[OwnerWaits], text: &mut String) -> Result<(), AllocError>
    ensures { OnOk result (string_bytes text.new ≡ string_bytes text.old ++ flat_map oldest_line waits.now) }
{
    for one in waits {
        add_moment(alloc, one.owner, one.waiting.oldest, text)?;
    }
    Ok(())
}

// Adds the head of the lines of rows.
#[tactic(auto, unfolding(crate::specs::Gauges::rows_head))]
fn add_rows_head(text: &mut String) -> Result<(), AllocError>
    ensures { OnOk result (string_bytes text.new ≡ string_bytes text.old ++ rows_head) }
{
    text.push_str(
        "# HELP fare_hub_waiting_rows Taps in the outbox that an owner has not taken, of lanes that are not retired.\n# TYPE fare_hub_waiting_rows gauge\n",
    )
}

// Adds the head of the lines of statements.
#[tactic(auto, unfolding(crate::specs::Gauges::statements_head))]
fn add_statements_head(text: &mut String) -> Result<(), AllocError>
    ensures { OnOk result (string_bytes text.new ≡ string_bytes text.old ++ statements_head) }
{
    text.push_str(
        "# HELP fare_hub_waiting_statements Statements in the outbox of days that an owner has not closed, of lanes that are not retired.\n# TYPE fare_hub_waiting_statements gauge\n",
    )
}

// Adds the head of the lines of moments.
#[tactic(auto, unfolding(crate::specs::Gauges::oldest_head))]
fn add_oldest_head(text: &mut String) -> Result<(), AllocError>
    ensures { OnOk result (string_bytes text.new ≡ string_bytes text.old ++ oldest_head) }
{
    text.push_str(
        "# HELP fare_hub_oldest_waiting_tap_timestamp_seconds When the earliest of the taps was made that wait for an owner, in seconds since 1970; no line where none waits.\n# TYPE fare_hub_oldest_waiting_tap_timestamp_seconds gauge\n",
    )
}

// Adds what waits for owners.
fn add_waiting(alloc: Global, waits: &[OwnerWaits], text: &mut String) -> Result<(), AllocError>
    ensures { OnOk result (string_bytes text.new ≡ string_bytes text.old ++ waiting_text waits.now) }
{
    add_rows_head(text)?;
    add_rows(alloc, waits, text)?;
    add_statements_head(text)?;
    add_statements(alloc, waits, text)?;
    add_oldest_head(text)?;
    add_oldest(alloc, waits, text)
}

// Adds the line of a device at a station.
#[tactic(auto, unfolding(crate::specs::Gauges::placed_line))]
fn add_placed(
    alloc: Global,
    device: DeviceId,
    station: StationId,
    text: &mut String,
) -> Result<(), AllocError>
    ensures { OnOk result (string_bytes text.new ≡ string_bytes text.old ++ placed_line device station) }
{
    let device = device.get();
    let station = station.get();
    text.push_str(&format!(in alloc;
        "fare_hub_device_info{{device=\"{device}\",station=\"{station}\"}} 1\n"
    )?)?;
    Ok(())
}

// Adds the line of a device, where it stands.
fn add_device(
    alloc: Global,
    scheme: &Scheme,
    device: DeviceId,
    text: &mut String,
) -> Result<(), AllocError>
    ensures { OnOk result (string_bytes text.new ≡ string_bytes text.old ++ device_line scheme.now device) }
{
    match scheme.station_of(device) {
        Some(station) => add_placed(alloc, device, station, text),
        None => Ok(()),
    }
}

// Adds the head of the lines of devices.
#[tactic(auto, unfolding(crate::specs::Gauges::devices_head))]
fn add_devices_head(text: &mut String) -> Result<(), AllocError>
    ensures { OnOk result (string_bytes text.new ≡ string_bytes text.old ++ devices_head) }
{
    text.push_str(
        "# HELP fare_hub_device_info At which station a device stands.\n# TYPE fare_hub_device_info gauge\n",
    )
}

// Adds where each device of a scheme stands.
fn add_devices(alloc: Global, scheme: &Scheme, text: &mut String) -> Result<(), AllocError>
    ensures { OnOk result (string_bytes text.new ≡ string_bytes text.old ++ devices_text scheme.now) }
{
    add_devices_head(text)?;
    for device in scheme.devices() {
        add_device(alloc, scheme, *device, text)?;
    }
    Ok(())
}

// Adds what waits for owners, and where each device stands.
pub(crate) fn add_gauges(
    alloc: Global,
    scheme: &Scheme,
    waits: &[OwnerWaits],
    text: &mut String,
) -> Result<(), AllocError>
    ensures { OnOk result (string_bytes text.new ≡ string_bytes text.old ++ gauges_text scheme.now waits.now) }
{
    add_waiting(alloc, waits, text)?;
    add_devices(alloc, scheme, text)
}
