ghost use Rattle.std.specs.Prelude.{◌≡◌, ℕ, List, [], ◌∷◌, ◌++◌, IfOk, map};
ghost use Rattle.fare_scheme.specs.Facts.{IsTariff};
ghost use Rattle.fare_register.specs.Registers.{told, told_list, registered, register_lists, pair_numbers, one_number, product_numbers, device_numbers};

use fare_lines::{SchemeLine, ZoneText};
use fare_record::ProductId;
use fare_scheme::{Product, Scheme};
use fare_setup::{line_of_device, line_of_owner, line_of_station, product_entry};
use std::alloc::{AllocError, Global};

// A row of these numbers.
fn row<const N: usize>(alloc: Global, numbers: &[u32; N]) -> Result<Vec<u32>, AllocError>
    ensures { IfOk result (λ row. row.items ≡ numbers.now) }
{
    let mut row = Vec::new(alloc);
    row.extend_from_slice(numbers)?;
    Ok(row)
}

fn setting_rows(alloc: Global, scheme: &Scheme) -> Result<Vec<Vec<u32>>, AllocError>
    ensures { IfOk result (λ rows. told_list rows.items ≡ (scheme.now.start ∷ scheme.now.inbox_capacity ∷ []) ∷ []) }
{
    let mut rows = Vec::new(alloc);
    rows.push(row(alloc, &[scheme.start().get(), scheme.inbox_capacity()])?)?;
    Ok(rows)
}

fn rule_rows(alloc: Global, zone: &ZoneText) -> Result<Vec<Vec<u32>>, AllocError>
    ensures { IfOk result (λ rows. told_list rows.items ≡ map one_number zone.now) }
{
    let mut rows = Vec::new(alloc);
    for byte in zone.as_str().as_bytes() {
        rows.push(row(alloc, &[u32::from(*byte)])?)?;
    }
    Ok(rows)
}

fn owner_rows(alloc: Global, scheme: &Scheme) -> Result<Vec<Vec<u32>>, AllocError>
    ensures { IfOk result (λ rows. told_list rows.items ≡ map pair_numbers scheme.now.owners) }
{
    let mut rows = Vec::new(alloc);
    for position in 0..scheme.owner_count() {
        let Some(SchemeLine::Owner { owner, lane }) = line_of_owner(scheme, position) else {
            unreachable!()
        };
        rows.push(row(alloc, &[u32::from(owner), lane])?)?;
    }
    Ok(rows)
}

fn operator_rows(alloc: Global, scheme: &Scheme) -> Result<Vec<Vec<u32>>, AllocError>
    ensures { IfOk result (λ rows. told_list rows.items ≡ map one_number scheme.now.operators) }
{
    let mut rows = Vec::new(alloc);
    for operator in scheme.operators() {
        rows.push(row(alloc, &[u32::from(operator.get())])?)?;
    }
    Ok(rows)
}

fn station_rows(alloc: Global, scheme: &Scheme) -> Result<Vec<Vec<u32>>, AllocError>
    ensures { IfOk result (λ rows. told_list rows.items ≡ map pair_numbers scheme.now.stations) }
{
    let mut rows = Vec::new(alloc);
    for position in 0..scheme.station_count() {
        let Some(SchemeLine::Station { station, operator }) = line_of_station(scheme, position)
        else {
            unreachable!()
        };
        rows.push(row(alloc, &[u32::from(station), u32::from(operator)])?)?;
    }
    Ok(rows)
}

// The numbers of a product with its owner and its tariff.
fn sold_numbers(entry: (ProductId, Product)) -> [u32; 6]
    requires { IsTariff entry.1.tariff }
    ensures { result ≡ product_numbers entry }
{
    let (product, Product { owner, tariff }) = entry;
    [
        product.get(),
        u32::from(owner.get()),
        tariff.fare.get() as u32,
        tariff.daily.get() as u32,
        tariff.weekly.get() as u32,
        tariff.hop,
    ]
}

fn product_rows(alloc: Global, scheme: &Scheme) -> Result<Vec<Vec<u32>>, AllocError>
    ensures { IfOk result (λ rows. told_list rows.items ≡ map product_numbers scheme.now.products) }
{
    let mut rows = Vec::new(alloc);
    for position in 0..scheme.product_count() {
        let Some(entry) = product_entry(scheme, position) else {
            unreachable!()
        };
        rows.push(row(alloc, &sold_numbers(entry))?)?;
    }
    Ok(rows)
}

fn device_rows(alloc: Global, scheme: &Scheme) -> Result<Vec<Vec<u32>>, AllocError>
    ensures { IfOk result (λ rows. told_list rows.items ≡ map device_numbers scheme.now.devices) }
{
    let mut rows = Vec::new(alloc);
    for position in 0..scheme.device_count() {
        let Some(
            SchemeLine::Device {
                device,
                station,
                buffer,
            },
        ) = line_of_device(scheme, position)
        else {
            unreachable!()
        };
        rows.push(row(alloc, &[device, u32::from(station), buffer])?)?;
    }
    Ok(rows)
}

// Lists with one more behind them, where there was memory for both.
fn with_list(
    lists: Result<Vec<Vec<Vec<u32>>>, AllocError>,
    rows: Result<Vec<Vec<u32>>, AllocError>,
) -> Result<Vec<Vec<Vec<u32>>>, AllocError>
    ensures { (before : List (List (List ℕ))) (last : List (List ℕ)) → IfOk lists (λ l. told l.items ≡ before) → IfOk rows (λ r. told_list r.items ≡ last) → IfOk result (λ l. told l.items ≡ before ++ last ∷ []) }
{
    let mut lists = lists?;
    lists.push(rows?)?;
    Ok(lists)
}

/// What is registered of a scheme whose clock goes by the rule of this text, as lists of numbers: the first traffic day
/// with the capacity of the inbox, the bytes of the rule, the owners, the operators, the stations, the products and the
/// devices, each kind in the order of registration. The error is want of memory.
pub fn register_of(
    alloc: Global,
    scheme: &Scheme,
    zone: &ZoneText,
) -> Result<Vec<Vec<Vec<u32>>>, AllocError>
    ensures { IfOk result (λ lists. told lists.items ≡ register_lists (registered scheme.now zone.now)) }
{
    let lists = with_list(Ok(Vec::new(alloc)), setting_rows(alloc, scheme));
    let lists = with_list(lists, rule_rows(alloc, zone));
    let lists = with_list(lists, owner_rows(alloc, scheme));
    let lists = with_list(lists, operator_rows(alloc, scheme));
    let lists = with_list(lists, station_rows(alloc, scheme));
    let lists = with_list(lists, product_rows(alloc, scheme));
    with_list(lists, device_rows(alloc, scheme))
}
