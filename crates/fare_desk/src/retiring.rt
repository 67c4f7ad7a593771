//! The end of an owner's lane of a device.
ghost use Rattle.std.specs.Prelude.{◌≡◌, ◌≢◌, ◌↔◌, None, Err, IfErr, OnOk};
ghost use Rattle.std.specs.Io.KnownBytes.{Keeps};
ghost use Rattle.fare_scheme.specs.Words.{position_of_device, position_of_owner};
ghost use Rattle.fare_sessions.specs.Stores.{AreClean, AreSound, ComesOf, HasLedgers};
ghost use Rattle.fare_desk.specs.Causes.{IsCaused, store_fault};
ghost use Rattle.fare_desk.specs.Closing.{GoesOn};
ghost use Rattle.fare_desk.specs.Faults.{is_of_retire, is_refusal};
ghost use Rattle.fare_desk.specs.Retiring.{LeavesLane, RetiresLane};

use crate::fault::DeskFault;
use crate::standing::ask_retired;
use crate::writing::write_text;
use fare_event::Reply;
use fare_lines::print_reply;
use fare_record::{DeviceId, OwnerId};
use fare_sessions::Hub;
use fare_store::{Ledger, Outbox};
use std::alloc::Global;
use std::io::Write;

/// Retires an owner's lane of a device that will never be read out, for good: nothing more of the device is taken, and no
/// day of it closed. Writes the line `retired DEVICE`.
///
/// Refused by the first of `UnknownOwner`, `UnknownDevice` and `Retired` that applies: nothing has changed, and nothing is
/// written. Then `Memory` where there was none for it, and `Store` where the owner's ledger failed, or knows no such device:
/// nothing is written, and the lane may be retired all the same. The line is made before, so that want of memory for it
/// changes nothing. `Write` where the writer failed: then the lane is retired.
pub fn retire_lane<O: Outbox, L: Ledger, W: Write>(
    alloc: Global,
    hub: &mut Hub<O, L>,
    owner: OwnerId,
    device: DeviceId,
    output: &mut W,
) -> Result<(), DeskFault>
    requires ledgers { HasLedgers hub.old }
    ensures unknown_owner { (result ≡ Err DeskFault.UnknownOwner) ↔ (position_of_owner hub.old.scheme owner ≡ None) }
    ensures unknown_device { (result ≡ Err DeskFault.UnknownDevice) ↔ ((position_of_owner hub.old.scheme owner ≢ None) × (position_of_device hub.old.scheme device ≡ None)) }
    ensures unasked { (position_of_owner hub.old.scheme owner ≡ None → hub.new ≡ hub.old) × (position_of_device hub.old.scheme device ≡ None → hub.new ≡ hub.old) }
    ensures goes { GoesOn O.standing L.standing hub.old hub.new }
    ensures cause { AreClean O.standing L.standing hub.new → AreSound O.standing L.standing hub.old → IsCaused O.standing L.standing hub.old hub.new (store_fault result) }
    ensures retired { OnOk result (RetiresLane O.standing L.standing owner device hub.old hub.new (W.contents output.old) (W.contents output.new)) }
    ensures failed { IfErr result (λ fault. ComesOf O.standing L.standing hub.old hub.new (LeavesLane owner device fault)) }
    ensures named { IfErr result (λ fault. is_refusal fault ≡ is_of_retire fault) }
    ensures kept { IfErr result (λ fault. fault ≢ DeskFault.Write → Keeps (W.contents output.old) (W.contents output.new)) }
{
    if hub.scheme.owner_position(owner).is_none() {
        return Err(DeskFault::UnknownOwner);
    }
    if hub.scheme.device_position(device).is_none() {
        return Err(DeskFault::UnknownDevice);
    }
    let retired = ask_retired(hub, owner, device)?;
    if retired {
        return Err(DeskFault::Retired);
    }
    let mut text = Vec::new(alloc);
    print_reply(&Reply::Retired(device), &mut text)?;
    match hub.retire(owner, device) {
        Ok(()) => write_text(output, &text),
        Err(refused) => Err(DeskFault::from(refused)),
    }
}
