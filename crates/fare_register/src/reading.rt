ghost use Rattle.std.specs.Prelude.{◌≡◌, ◌++◌, ◌∷◌, [], ℕ, List, map, IfOk, OnOk, MatchOption};
ghost use Rattle.fare_lines.specs.ZoneWord.{IsZoneText};
ghost use Rattle.fare_scheme.specs.declared.entry.Placement.{Placement};
ghost use Rattle.fare_scheme.specs.declared.entry.Product.{Product};
ghost use Rattle.fare_setup.specs.SchemeLines.{product_lines};
ghost use Rattle.fare_register.specs.Sold.{entry_of};
ghost use Rattle.fare_register.specs.Registers.{told, told_list, pair_numbers, one_number, product_numbers, device_numbers, owner_lines, operator_lines, station_lines, device_lines, FirstFits, IdFits, BothFit, OwnerFits, StationFits, IsByte, AreNone, HasPushed, HasSettled, HasRead, AreOf, IsOfNone};

use crate::rows::{Sold, byte_of, id_of, ids_of, pair_of, placed_of, sold_of};
use fare_lines::{SchemeLine, ZoneText};
use std::alloc::{AllocError, Global};

// Appends the lines of owners, if these rows are such. Otherwise, and after an error, some of them may stand there; so it
// is with the other kinds.
fn push_owners(rows: &[Vec<u32>], lines: &mut Vec<SchemeLine>) -> Result<bool, AllocError>
    ensures { IfOk result (HasPushed (ℕ × ℕ) FirstFits pair_numbers owner_lines (told_list rows.now) lines.old.items lines.new.items) }
{
    for row in rows {
        let Some((owner, lane)) = pair_of(row.as_slice()) else {
            return Ok(false);
        };
        lines.push(SchemeLine::Owner { owner, lane })?;
    }
    Ok(true)
}

// Those of operators.
fn push_operators(rows: &[Vec<u32>], lines: &mut Vec<SchemeLine>) -> Result<bool, AllocError>
    ensures { IfOk result (HasPushed ℕ IdFits one_number operator_lines (told_list rows.now) lines.old.items lines.new.items) }
{
    for row in rows {
        let Some(operator) = id_of(row.as_slice()) else {
            return Ok(false);
        };
        lines.push(SchemeLine::Operator { operator })?;
    }
    Ok(true)
}

// Those of stations.
fn push_stations(rows: &[Vec<u32>], lines: &mut Vec<SchemeLine>) -> Result<bool, AllocError>
    ensures { IfOk result (HasPushed (ℕ × ℕ) BothFit pair_numbers station_lines (told_list rows.now) lines.old.items lines.new.items) }
{
    for row in rows {
        let Some((station, operator)) = ids_of(row.as_slice()) else {
            return Ok(false);
        };
        lines.push(SchemeLine::Station { station, operator })?;
    }
    Ok(true)
}

// Those of devices.
fn push_devices(rows: &[Vec<u32>], lines: &mut Vec<SchemeLine>) -> Result<bool, AllocError>
    ensures { IfOk result (HasPushed (ℕ × Placement) StationFits device_numbers device_lines (told_list rows.now) lines.old.items lines.new.items) }
{
    for row in rows {
        let Some((device, station, buffer)) = placed_of(row.as_slice()) else {
            return Ok(false);
        };
        lines.push(SchemeLine::Device {
            device,
            station,
            buffer,
        })?;
    }
    Ok(true)
}

// Appends the lines of a product. After an error some of them may stand there.
fn push_product(sold: Sold, lines: &mut Vec<SchemeLine>) -> Result<(), AllocError>
    ensures { OnOk result (lines.new.items ≡ lines.old.items ++ product_lines (entry_of sold)) }
{
    let product = sold.product;
    lines.push(SchemeLine::Product {
        product,
        owner: sold.owner,
        fare: sold.fare,
    })?;
    lines.push(SchemeLine::Caps {
        product,
        daily: sold.daily,
        weekly: sold.weekly,
    })?;
    lines.push(SchemeLine::Hop {
        product,
        seconds: sold.window,
    })?;
    Ok(())
}

// The lines of products.
fn push_products(rows: &[Vec<u32>], lines: &mut Vec<SchemeLine>) -> Result<bool, AllocError>
    ensures { IfOk result (HasPushed (ℕ × Product) OwnerFits product_numbers product_lines (told_list rows.now) lines.old.items lines.new.items) }
{
    for row in rows {
        let Some(sold) = sold_of(row.as_slice()) else {
            return Ok(false);
        };
        push_product(sold, lines)?;
    }
    Ok(true)
}

// The bytes that rows are, if each of them is one.
fn bytes_of(alloc: Global, rows: &[Vec<u32>]) -> Result<Option<Vec<u8>>, AllocError>
    ensures { IfOk result (λ found. MatchOption found (AreNone ℕ IsByte one_number (told_list rows.now)) (λ bytes. told_list rows.now ≡ map one_number bytes.items)) }
{
    let mut bytes = Vec::new(alloc);
    for row in rows {
        let Some(byte) = byte_of(row.as_slice()) else {
            return Ok(None);
        };
        bytes.push(byte)?;
    }
    Ok(Some(bytes))
}

// The text of the rule that rows are the bytes of.
fn rule_of(alloc: Global, rows: &[Vec<u32>]) -> Result<Option<ZoneText>, AllocError>
    ensures { IfOk result (λ found. MatchOption found ((zone : List ℕ) → IsZoneText zone → told_list rows.now ≡ map one_number zone → ⊥) (λ rule. IsZoneText rule × (told_list rows.now ≡ map one_number rule))) }
{
    match bytes_of(alloc, rows)? {
        Some(bytes) => ZoneText::read(alloc, bytes.as_slice()),
        None => Ok(None),
    }
}

// The first traffic day and the capacity of the inbox.
fn settings_of(rows: &[Vec<u32>]) -> Option<(u32, u32)>
    ensures { MatchOption result ((start inbox : ℕ) → told_list rows.now ≡ (start ∷ inbox ∷ []) ∷ [] → ⊥) (λ pair. told_list rows.now ≡ (pair.0 ∷ pair.1 ∷ []) ∷ []) }
{
    let [row] = rows else {
        return None;
    };
    let [start, inbox] = row.as_slice() else {
        return None;
    };
    Some((*start, *inbox))
}

// Appends the lines of the settings, and the seal.
fn push_settings(
    alloc: Global,
    settings: &[Vec<u32>],
    rule: &[Vec<u32>],
    lines: &mut Vec<SchemeLine>,
) -> Result<bool, AllocError>
    ensures { IfOk result (HasSettled (told_list settings.now) (told_list rule.now) lines.old.items lines.new.items) }
{
    let Some((start, capacity)) = settings_of(settings) else {
        return Ok(false);
    };
    let Some(rule) = rule_of(alloc, rule)? else {
        return Ok(false);
    };
    lines.push(SchemeLine::Inbox { capacity })?;
    lines.push(SchemeLine::Zone { rule })?;
    lines.push(SchemeLine::Start { day: start })?;
    lines.push(SchemeLine::Seal)?;
    Ok(true)
}

// Appends the lines of seven lists. After an answer of false, or an error, some of them may stand there.
fn push_all(
    alloc: Global,
    lists: &[Vec<Vec<u32>>],
    lines: &mut Vec<SchemeLine>,
) -> Result<bool, AllocError>
    ensures { IfOk result (HasRead (told lists.now) lines.old.items lines.new.items) }
{
    let [
        settings,
        rule,
        owners,
        operators,
        stations,
        products,
        devices,
    ] = lists
    else {
        return Ok(false);
    };
    if !push_owners(owners.as_slice(), lines)? {
        return Ok(false);
    }
    if !push_operators(operators.as_slice(), lines)? {
        return Ok(false);
    }
    if !push_stations(stations.as_slice(), lines)? {
        return Ok(false);
    }
    if !push_products(products.as_slice(), lines)? {
        return Ok(false);
    }
    if !push_devices(devices.as_slice(), lines)? {
        return Ok(false);
    }
    push_settings(alloc, settings.as_slice(), rule.as_slice(), lines)
}

/// The lines that make the scheme of which these lists are, as `register_of` gives them, if there is one: if they are
/// seven, each row has as many numbers as it should, ids of owners, operators and stations are below 65,536, and the rule
/// is of bytes from 33 to 126. Whether a scheme takes the lines is not said. The error is want of memory.
pub fn lines_of(
    alloc: Global,
    lists: &[Vec<Vec<u32>>],
) -> Result<Option<Vec<SchemeLine>>, AllocError>
    ensures { IfOk result (λ found. MatchOption found (IsOfNone (told lists.now)) (λ lines. AreOf (told lists.now) lines.items)) }
{
    let mut lines = Vec::new(alloc);
    if push_all(alloc, lists, &mut lines)? {
        Ok(Some(lines))
    } else {
        Ok(None)
    }
}
