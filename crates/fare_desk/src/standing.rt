//! Where each device's lanes stand.
ghost use Rattle.std.specs.Prelude.{◌≡◌, ◌≢◌, ◌+◌, ◌++◌, ◌∷◌, [], None, false, length, codes, string_bytes, IfOk, IfErr, OnOk};
ghost use Rattle.std.specs.Io.KnownBytes.{Keeps};
ghost use Rattle.std.specs.Map.{keys_of};
ghost use Rattle.fare_history.specs.Stores.{StoresValue};
ghost use Rattle.fare_scheme.specs.Words.{position_of_owner};
ghost use Rattle.fare_store.specs.LedgerWords.{closed_through};
ghost use Rattle.fare_store.specs.Standing.{Reads, fault_of};
ghost use Rattle.fare_sessions.specs.Billing.{day_behind};
ghost use Rattle.fare_sessions.specs.Stores.{AreClean, AreSound, HasLedgers, MayStandAs};
ghost use Rattle.fare_desk.specs.Causes.{IsAtWork, IsCaused, store_fault};
ghost use Rattle.fare_desk.specs.Closing.{lanes_of, lanes_with};
ghost use Rattle.fare_desk.specs.Showing.{AddsLanes, AddsUptos, HasFrom, IsLane, OnlyAsks, WritesStanding, closed_word, held_word, lane_line, retired_word, stated_days, upto_line};
ghost use Rattle.fare_desk.specs.Faults.{is_refusal};
ghost use Rattle.fare_desk.specs.declared.fault.DeskFault.TheVariants.{Write};

use crate::fault::DeskFault;
use crate::writing::write_text;
use fare_record::{Day, DeviceId, OwnerId};
use fare_sessions::{Hub, day_after};
use fare_store::{Fault, Ledger, Outbox};
use std::alloc::{AllocError, Global};
use std::io::Write;

/// Where an owner's lane of a device stands: how many taps are taken, the last day that is closed, how many rows and
/// statements wait, from which day on all is held, and whether it is retired.
#[derive(Clone, Copy)]
pub(crate) struct Lane {
    taken: u64,
    closed: Option<Day>,
    rows: u64,
    statements: u64,
    from: Day,
    retired: bool,
}

// How many taps of a device a ledger has taken, and the last day that it has closed.
fn taken_by<L: Ledger>(ledger: &mut L, device: DeviceId) -> Result<(u64, Option<Day>), Fault>
    ensures { Reads (L.standing ledger.old) (L.standing ledger.new) (λ told. (told.0 ≡ length ((L.standing ledger.old).value.taken device)) × (told.1 ≡ closed_through (L.standing ledger.old).value device)) result }
{
    let taken = ledger.count(device)?;
    let closed = ledger.closed_through(device)?;
    Ok((taken, closed))
}

// How many rows of a lane an outbox holds behind a lane number.
fn rows_behind<O: Outbox>(
    outbox: &mut O,
    owner: OwnerId,
    device: DeviceId,
    after: u64,
) -> Result<u64, Fault>
    ensures { Reads (O.standing outbox.old) (O.standing outbox.new) (HasFrom ((O.standing outbox.old).value.rows owner device) (after + 1)) result }
{
    let mut last = after;
    let mut rows: u64 = 0;
    loop {
        let Some(row) = outbox.next_row(owner, device, last)? else {
            return Ok(rows);
        };
        let lane = row.lane();
        if lane <= last {
            return Ok(rows);
        }
        last = lane;
        rows += 1;
    }
}

// How many statements of a device an outbox holds for an owner, of the days behind one, or of all.
fn statements_from<O: Outbox>(
    outbox: &mut O,
    owner: OwnerId,
    device: DeviceId,
    first: Day,
) -> Result<u64, Fault>
    ensures { Reads (O.standing outbox.old) (O.standing outbox.new) (HasFrom (stated_days (O.standing outbox.old).value owner device) first) result }
{
    let mut from = first;
    let mut statements: u64 = 0;
    loop {
        let Some(statement) = outbox.next_statement(owner, device, from)? else {
            return Ok(statements);
        };
        let day = statement.day();
        if day < from {
            return Ok(statements);
        }
        statements += 1;
        let Some(next) = day.next_day() else {
            return Ok(statements);
        };
        from = next;
    }
}

// How many taps of a device an owner has taken, and the last day that it has closed.
pub(crate) fn ask_ledger<O: Outbox, L: Ledger>(
    hub: &mut Hub<O, L>,
    owner: OwnerId,
    device: DeviceId,
) -> Result<(u64, Option<Day>), Fault>
    requires ledgers { HasLedgers hub.old }
    requires known { position_of_owner hub.old.scheme owner ≢ None }
    ensures asks { OnlyAsks O.standing L.standing hub.old hub.new }
    ensures cause { IsCaused O.standing L.standing hub.old hub.new (fault_of result) }
    ensures works { IfOk result (λ _. IsAtWork O.standing L.standing hub.new owner) }
    ensures tells { AreClean O.standing L.standing hub.new → AreSound O.standing L.standing hub.old → IfOk result (λ told. (h : StoresValue) → MayStandAs O.standing L.standing hub.old h → ((h.ledgers owner).start ≡ hub.old.scheme.start) × ((told.0 ≡ length ((h.ledgers owner).taken device)) × (told.1 ≡ closed_through (h.ledgers owner) device))) }
{
    let Some(at) = hub.scheme.owner_position(owner) else {
        unreachable!()
    };
    taken_by(&mut hub.ledgers[at], device)
}

// How many rows of a lane wait behind a lane number.
fn ask_rows<O: Outbox, L: Ledger>(
    hub: &mut Hub<O, L>,
    owner: OwnerId,
    device: DeviceId,
    after: u64,
) -> Result<u64, Fault>
    ensures asks { OnlyAsks O.standing L.standing hub.old hub.new }
    ensures cause { IsCaused O.standing L.standing hub.old hub.new (fault_of result) }
    ensures tells { AreClean O.standing L.standing hub.new → AreSound O.standing L.standing hub.old → IfOk result (λ rows. (h : StoresValue) → MayStandAs O.standing L.standing hub.old h → HasFrom (h.outbox.rows owner device) (after + 1) rows) }
{
    rows_behind(&mut hub.outbox, owner, device, after)
}

// How many statements of a device wait for an owner that has closed its days up to one, or none.
pub(crate) fn ask_statements<O: Outbox, L: Ledger>(
    hub: &mut Hub<O, L>,
    owner: OwnerId,
    device: DeviceId,
    closed: Option<Day>,
) -> Result<u64, Fault>
    ensures asks { OnlyAsks O.standing L.standing hub.old hub.new }
    ensures cause { IsCaused O.standing L.standing hub.old hub.new (fault_of result) }
    ensures tells { AreClean O.standing L.standing hub.new → AreSound O.standing L.standing hub.old → IfOk result (λ statements. (h : StoresValue) → MayStandAs O.standing L.standing hub.old h → HasFrom (stated_days h.outbox owner device) (day_behind closed hub.old.scheme.start) statements) }
{
    match day_after(closed, hub.scheme.start()) {
        Some(first) => statements_from(&mut hub.outbox, owner, device, first),
        None => Ok(0),
    }
}

// Whether an owner's lane of a device is retired.
pub(crate) fn ask_retired<O: Outbox, L: Ledger>(
    hub: &mut Hub<O, L>,
    owner: OwnerId,
    device: DeviceId,
) -> Result<bool, Fault>
    requires ledgers { HasLedgers hub.old }
    requires known { position_of_owner hub.old.scheme owner ≢ None }
    ensures asks { OnlyAsks O.standing L.standing hub.old hub.new }
    ensures cause { IsCaused O.standing L.standing hub.old hub.new (fault_of result) }
    ensures works { IfOk result (λ _. IsAtWork O.standing L.standing hub.new owner) }
    ensures tells { AreClean O.standing L.standing hub.new → AreSound O.standing L.standing hub.old → IfOk result (λ retired. (h : StoresValue) → MayStandAs O.standing L.standing hub.old h → (h.ledgers owner).retired device ≡ retired) }
{
    let Some(at) = hub.scheme.owner_position(owner) else {
        unreachable!()
    };
    hub.ledgers[at].retired(device)
}

// From which day on a ledger holds all of an owner's lane of a device.
pub(crate) fn ask_held_from<O: Outbox, L: Ledger>(
    hub: &mut Hub<O, L>,
    owner: OwnerId,
    device: DeviceId,
) -> Result<Day, Fault>
    requires ledgers { HasLedgers hub.old }
    requires known { position_of_owner hub.old.scheme owner ≢ None }
    ensures asks { OnlyAsks O.standing L.standing hub.old hub.new }
    ensures cause { IsCaused O.standing L.standing hub.old hub.new (fault_of result) }
    ensures works { IfOk result (λ _. IsAtWork O.standing L.standing hub.new owner) }
    ensures tells { AreClean O.standing L.standing hub.new → AreSound O.standing L.standing hub.old → IfOk result (λ from. (h : StoresValue) → MayStandAs O.standing L.standing hub.old h → from ≡ (h.ledgers owner).from device) }
{
    let Some(at) = hub.scheme.owner_position(owner) else {
        unreachable!()
    };
    hub.ledgers[at].held_from(device)
}

// Where an owner's lane of a device stands.
fn lane_of<O: Outbox, L: Ledger>(
    hub: &mut Hub<O, L>,
    owner: OwnerId,
    device: DeviceId,
) -> Result<Lane, Fault>
    requires ledgers { HasLedgers hub.old }
    requires known { position_of_owner hub.old.scheme owner ≢ None }
    ensures asks { OnlyAsks O.standing L.standing hub.old hub.new }
    ensures cause { IsCaused O.standing L.standing hub.old hub.new (fault_of result) }
    ensures tells { AreClean O.standing L.standing hub.new → AreSound O.standing L.standing hub.old → IfOk result (λ lane. (h : StoresValue) → MayStandAs O.standing L.standing hub.new h → IsLane h owner device lane) }
{
    let told = ask_ledger(hub, owner, device)?;
    let rows = ask_rows(hub, owner, device, told.0)?;
    let statements = ask_statements(hub, owner, device, told.1)?;
    let from = ask_held_from(hub, owner, device)?;
    let retired = ask_retired(hub, owner, device)?;
    Ok(Lane {
        taken: told.0,
        closed: told.1,
        rows,
        statements,
        from,
        retired,
    })
}

// The word of the last closed day.
fn closed_text(alloc: Global, closed: Option<Day>) -> Result<String, AllocError>
    ensures { IfOk result (λ text. string_bytes text ≡ closed_word closed) }
{
    match closed {
        Some(day) => {
            let day = day.get();
            format!(in alloc; "{day}")
        }
        None => String::from_str(alloc, "none"),
    }
}

// From which day on a lane is held, where something of it was let go.
fn held_text(alloc: Global, from: Day) -> Result<String, AllocError>
    ensures { IfOk result (λ text. string_bytes text ≡ held_word from) }
{
    let day = from.get();
    if day == 0 {
        return Ok(String::new(alloc));
    }
    format!(in alloc; " from {day}")
}

// What the line of a retired lane ends with.
fn retired_text(retired: bool) -> &'static str
    ensures { result.now ≡ retired_word retired }
{
    if retired { " retired" } else { "" }
}

// The end of a lane's line.
fn add_end(alloc: Global, lane: Lane, text: &mut String) -> Result<(), AllocError>
    ensures { OnOk result (string_bytes text.new ≡ string_bytes text.old ++ (held_word lane.from ++ (retired_word lane.retired ++ codes "\n"))) }
{
    text.push_str(&held_text(alloc, lane.from)?)?;
    text.push_str(retired_text(lane.retired))?;
    text.push_str("\n")?;
    Ok(())
}

// The line of a lane.
fn add_lane(
    alloc: Global,
    owner: OwnerId,
    device: DeviceId,
    lane: Lane,
    text: &mut String,
) -> Result<(), AllocError>
    ensures { OnOk result (string_bytes text.new ≡ string_bytes text.old ++ lane_line owner device lane) }
{
    let owner = owner.get();
    let device = device.get();
    let taken = lane.taken;
    let rows = lane.rows;
    let statements = lane.statements;
    text.push_str(&format!(in alloc; "lane {owner} {device} taken {taken} closed ")?)?;
    text.push_str(&closed_text(alloc, lane.closed)?)?;
    text.push_str(&format!(in alloc; " rows {rows} statements {statements}")?)?;
    add_end(alloc, lane, text)
}

// Adds the lines of an owner's lanes.
fn add_owner<O: Outbox, L: Ledger>(
    alloc: Global,
    hub: &mut Hub<O, L>,
    owner: OwnerId,
    text: &mut String,
) -> Result<(), Fault>
    requires ledgers { HasLedgers hub.old }
    requires known { position_of_owner hub.old.scheme owner ≢ None }
    ensures asks { OnlyAsks O.standing L.standing hub.old hub.new }
    ensures cause { IsCaused O.standing L.standing hub.old hub.new (fault_of result) }
    ensures adds { OnOk result (AddsLanes O.standing L.standing (lanes_with owner (keys_of hub.old.scheme.devices)) hub.old hub.new (string_bytes text.old) (string_bytes text.new)) }
{
    for place in 0..hub.scheme.devices().len() {
        let device = hub.scheme.devices()[place];
        let lane = lane_of(hub, owner, device)?;
        add_lane(alloc, owner, device, lane, text)?;
    }
    Ok(())
}

// Adds the lines of all lanes.
fn add_lanes<O: Outbox, L: Ledger>(
    alloc: Global,
    hub: &mut Hub<O, L>,
    text: &mut String,
) -> Result<(), Fault>
    requires ledgers { HasLedgers hub.old }
    ensures asks { OnlyAsks O.standing L.standing hub.old hub.new }
    ensures cause { IsCaused O.standing L.standing hub.old hub.new (fault_of result) }
    ensures adds { OnOk result (AddsLanes O.standing L.standing (lanes_of hub.old.scheme) hub.old hub.new (string_bytes text.old) (string_bytes text.new)) }
{
    for place in 0..hub.scheme.owners().len() {
        let owner = hub.scheme.owners()[place];
        add_owner(alloc, hub, owner, text)?;
    }
    Ok(())
}

// How far the outbox has had a device's taps.
fn ask_upto<O: Outbox, L: Ledger>(hub: &mut Hub<O, L>, device: DeviceId) -> Result<u64, Fault>
    ensures asks { OnlyAsks O.standing L.standing hub.old hub.new }
    ensures cause { IsCaused O.standing L.standing hub.old hub.new (fault_of result) }
    ensures tells { AreClean O.standing L.standing hub.new → AreSound O.standing L.standing hub.old → IfOk result (λ upto. (h : StoresValue) → MayStandAs O.standing L.standing hub.old h → upto ≡ h.outbox.upto device) }
{
    hub.outbox.upto(device)
}

// The line of a device.
fn add_upto(alloc: Global, device: DeviceId, upto: u64, text: &mut String) -> Result<(), AllocError>
    ensures { OnOk result (string_bytes text.new ≡ string_bytes text.old ++ upto_line device upto) }
{
    let device = device.get();
    text.push_str(&format!(in alloc; "upto {device} {upto}\n")?)?;
    Ok(())
}

// Adds the lines of the devices.
fn add_uptos<O: Outbox, L: Ledger>(
    alloc: Global,
    hub: &mut Hub<O, L>,
    text: &mut String,
) -> Result<(), Fault>
    ensures asks { OnlyAsks O.standing L.standing hub.old hub.new }
    ensures cause { IsCaused O.standing L.standing hub.old hub.new (fault_of result) }
    ensures adds { OnOk result (AddsUptos O.standing L.standing (keys_of hub.old.scheme.devices) hub.old hub.new (string_bytes text.old) (string_bytes text.new)) }
{
    for place in 0..hub.scheme.devices().len() {
        let device = hub.scheme.devices()[place];
        let upto = ask_upto(hub, device)?;
        add_upto(alloc, device, upto, text)?;
    }
    Ok(())
}

/// Writes where each device's lanes stand: for each device the line `upto DEVICE N` with the greatest link that the
/// outbox has had of it; and for each owner and device `lane OWNER DEVICE taken N closed DAY rows N statements N`: how many
/// taps the owner has taken, the last day that it has closed, or `none`, and how many rows and statements the outbox holds
/// that it hasn't taken and of days that it hasn't closed. Where something of a lane was let go, ` from DAY` follows, the
/// first day of which all is held; and the line of a lane that the owner has retired ends with one word more, ` retired`.
/// The stores hold what they held.
///
/// `Memory` where there was none for it, and `Store` where a store failed; nothing is written then. `Write` where the
/// writer failed.
pub fn write_standing<O: Outbox, L: Ledger, W: Write>(
    alloc: Global,
    hub: &mut Hub<O, L>,
    output: &mut W,
) -> Result<(), DeskFault>
    requires ledgers { HasLedgers hub.old }
    ensures asks { OnlyAsks O.standing L.standing hub.old hub.new }
    ensures cause { IsCaused O.standing L.standing hub.old hub.new (store_fault result) }
    ensures written { OnOk result (WritesStanding O.standing L.standing hub.old hub.new (W.contents output.old) (W.contents output.new)) }
    ensures unnamed { IfErr result (λ fault. is_refusal fault ≡ false) }
    ensures kept { IfErr result (λ fault. fault ≢ Write → Keeps (W.contents output.old) (W.contents output.new)) }
{
    let mut text = String::new(alloc);
    add_uptos(alloc, hub, &mut text)?;
    add_lanes(alloc, hub, &mut text)?;
    write_text(output, text.as_bytes())
}
