ghost use Rattle.std.specs.Prelude.{◌≡◌, ◌++◌, OnOk, IfOk, map, flat_map};
ghost use Rattle.fare_scheme.specs.Facts.{IsTariff};
ghost use Rattle.fare_lines.specs.declared.line.SchemeLine.TheVariants as line;
ghost use Rattle.fare_setup.specs.SchemeLines.{closing_lines, device_line, owner_line, product_lines, setup_lines_of, station_line};

use crate::entry::{line_of_device, line_of_owner, line_of_station, product_entry};
use fare_lines::{SchemeLine, ZoneText};
use fare_record::ProductId;
use fare_scheme::{Product, Scheme};
use std::alloc::{AllocError, Global};

/// Appends the lines of the owners. After an error some of them may stand there.
fn push_owners(scheme: &Scheme, lines: &mut Vec<SchemeLine>) -> Result<(), AllocError>
    ensures { OnOk result (lines.new.items ≡ lines.old.items ++ map owner_line scheme.now.owners) }
{
    for position in 0..scheme.owner_count() {
        if let Some(line) = line_of_owner(scheme, position) {
            lines.push(line)?;
        }
    }
    Ok(())
}

/// Appends the lines of the operators. After an error some of them may stand there.
fn push_operators(scheme: &Scheme, lines: &mut Vec<SchemeLine>) -> Result<(), AllocError>
    ensures { OnOk result (lines.new.items ≡ lines.old.items ++ map line.Operator scheme.now.operators) }
{
    for operator in scheme.operators() {
        lines.push(SchemeLine::Operator {
            operator: operator.get(),
        })?;
    }
    Ok(())
}

/// Appends the lines of the stations. After an error some of them may stand there.
fn push_stations(scheme: &Scheme, lines: &mut Vec<SchemeLine>) -> Result<(), AllocError>
    ensures { OnOk result (lines.new.items ≡ lines.old.items ++ map station_line scheme.now.stations) }
{
    for position in 0..scheme.station_count() {
        if let Some(line) = line_of_station(scheme, position) {
            lines.push(line)?;
        }
    }
    Ok(())
}

/// Appends the lines of a product: itself, its caps and its window. After an error some of them may stand there.
fn push_product(entry: (ProductId, Product), lines: &mut Vec<SchemeLine>) -> Result<(), AllocError>
    requires { IsTariff entry.1.tariff }
    ensures { OnOk result (lines.new.items ≡ lines.old.items ++ product_lines entry) }
{
    let (id, Product { owner, tariff }) = entry;
    let product = id.get();
    lines.push(SchemeLine::Product {
        product,
        owner: owner.get(),
        fare: tariff.fare.get() as u32,
    })?;
    lines.push(SchemeLine::Caps {
        product,
        daily: tariff.daily.get() as u32,
        weekly: tariff.weekly.get() as u32,
    })?;
    lines.push(SchemeLine::Hop {
        product,
        seconds: tariff.hop,
    })?;
    Ok(())
}

/// Appends the lines of the products. After an error some of them may stand there.
fn push_products(scheme: &Scheme, lines: &mut Vec<SchemeLine>) -> Result<(), AllocError>
    ensures { OnOk result (lines.new.items ≡ lines.old.items ++ flat_map product_lines scheme.now.products) }
{
    for position in 0..scheme.product_count() {
        if let Some(entry) = product_entry(scheme, position) {
            push_product(entry, lines)?;
        }
    }
    Ok(())
}

/// Appends the lines of the devices. After an error some of them may stand there.
fn push_devices(scheme: &Scheme, lines: &mut Vec<SchemeLine>) -> Result<(), AllocError>
    ensures { OnOk result (lines.new.items ≡ lines.old.items ++ map device_line scheme.now.devices) }
{
    for position in 0..scheme.device_count() {
        if let Some(line) = line_of_device(scheme, position) {
            lines.push(line)?;
        }
    }
    Ok(())
}

/// A text of its own of the same rule. The error is want of memory.
pub fn copy_zone(alloc: Global, zone: &ZoneText) -> Result<ZoneText, AllocError>
    ensures { IfOk result (λ copy. copy ≡ zone.now) }
{
    match ZoneText::read(alloc, zone.as_str().as_bytes())? {
        Some(copy) => Ok(copy),
        None => unreachable!(),
    }
}

/// Appends the lines of the settings, and the seal. After an error some of them may stand there.
fn push_closing(
    alloc: Global,
    scheme: &Scheme,
    zone: &ZoneText,
    lines: &mut Vec<SchemeLine>,
) -> Result<(), AllocError>
    ensures { OnOk result (lines.new.items ≡ lines.old.items ++ closing_lines scheme.now zone.now) }
{
    lines.push(SchemeLine::Inbox {
        capacity: scheme.inbox_capacity(),
    })?;
    lines.push(SchemeLine::Zone {
        rule: copy_zone(alloc, zone)?,
    })?;
    lines.push(SchemeLine::Start {
        day: scheme.start().get(),
    })?;
    lines.push(SchemeLine::Seal)?;
    Ok(())
}

/// The lines that make a scheme whose clock goes by the rule of this text: its owners, operators, stations, products
/// and devices, each in their order, its settings, and the seal. The error is want of memory.
pub fn setup_lines(
    alloc: Global,
    scheme: &Scheme,
    zone: &ZoneText,
) -> Result<Vec<SchemeLine>, AllocError>
    ensures { IfOk result (λ lines. lines.items ≡ setup_lines_of scheme.now zone.now) }
{
    let mut lines = Vec::new(alloc);
    push_owners(scheme, &mut lines)?;
    push_operators(scheme, &mut lines)?;
    push_stations(scheme, &mut lines)?;
    push_products(scheme, &mut lines)?;
    push_devices(scheme, &mut lines)?;
    push_closing(alloc, scheme, zone, &mut lines)?;
    Ok(lines)
}
