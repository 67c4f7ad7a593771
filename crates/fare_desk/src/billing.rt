//! Bills and settlements of a day, written as the replies to the same questions of a trace.
ghost use Rattle.std.specs.Prelude.{◌≡◌, ◌≢◌, ◌<◌, None, Err, IfErr, OnOk, is_some};
ghost use Rattle.std.specs.Io.KnownBytes.{Keeps};
ghost use Rattle.fare_scheme.specs.Words.{position_of_owner};
ghost use Rattle.fare_sessions.specs.Billing.{IsBillRefusal, OnlyReads};
ghost use Rattle.fare_sessions.specs.Stores.{AreClean, AreSound, HasLedgers};
ghost use Rattle.fare_desk.specs.Billing.{WritesBill, WritesSettlement};
ghost use Rattle.fare_desk.specs.Causes.{IsCaused, store_fault};
ghost use Rattle.fare_desk.specs.Faults.{is_refusal, name_of, refused_of};
ghost use Rattle.fare_desk.specs.declared.fault.DeskFault.TheVariants.{BeforeStart, UnknownOwner, Write};

use crate::fault::DeskFault;
use crate::writing::write_reply;
use fare_event::{Reply, Short};
use fare_record::{Day, OwnerId};
use fare_sessions::Hub;
use fare_store::{Ledger, Outbox};
use std::alloc::Global;
use std::io::Write;

/// Writes an owner's bill of a day: the line `bill OWNER DAY ACCOUNTS TOTAL`, a line for each account, and a line `short
/// DEVICE` for each device whose lane is retired and whose day was not closed. The stores hold what they held.
///
/// Refused by the first of `UnknownOwner`, `BeforeStart`, `Forgotten` and `NotClosed` that applies; then `Memory` where
/// there was none for it, and `Store` where the owner's ledger failed; nothing is written then. `Write` where the writer
/// failed.
pub fn write_bill<O: Outbox, L: Ledger, W: Write>(
    alloc: Global,
    hub: &mut Hub<O, L>,
    owner: OwnerId,
    day: Day,
    output: &mut W,
) -> Result<(), DeskFault>
    requires ledgers { HasLedgers hub.old }
    ensures reads { OnlyReads O.standing L.standing hub.old hub.new }
    ensures unknown { position_of_owner hub.old.scheme owner ≡ None → (hub.new ≡ hub.old) × (result ≡ Err UnknownOwner) }
    ensures early { position_of_owner hub.old.scheme owner ≢ None → day < hub.old.scheme.start → (hub.new ≡ hub.old) × (result ≡ Err BeforeStart) }
    ensures cause { IsCaused O.standing L.standing hub.old hub.new (store_fault result) }
    ensures written { OnOk result (WritesBill O.standing L.standing hub.old hub.new owner day (W.contents output.old) (W.contents output.new)) }
    ensures refused { AreClean O.standing L.standing hub.new → AreSound O.standing L.standing hub.old → IsBillRefusal O.standing L.standing hub.old owner day (refused_of result) }
    ensures named { IfErr result (λ fault. is_refusal fault ≡ is_some (name_of fault)) }
    ensures kept { IfErr result (λ fault. fault ≢ Write → Keeps (W.contents output.old) (W.contents output.new)) }
{
    let (bill, short) = hub.bill(alloc, owner, day)?;
    let reply = Reply::Bill {
        owner,
        day,
        bill,
        short: Short::new(short),
    };
    write_reply(alloc, &reply, output)
}

/// Writes what each operator gets of an owner's bill of a day: the line `settlement OWNER DAY OPERATORS`, a line for
/// each operator, and the `short` lines of the bill. The stores hold what they held.
///
/// Refused and failed as `write_bill`.
pub fn write_settlement<O: Outbox, L: Ledger, W: Write>(
    alloc: Global,
    hub: &mut Hub<O, L>,
    owner: OwnerId,
    day: Day,
    output: &mut W,
) -> Result<(), DeskFault>
    requires ledgers { HasLedgers hub.old }
    ensures reads { OnlyReads O.standing L.standing hub.old hub.new }
    ensures unknown { position_of_owner hub.old.scheme owner ≡ None → (hub.new ≡ hub.old) × (result ≡ Err UnknownOwner) }
    ensures early { position_of_owner hub.old.scheme owner ≢ None → day < hub.old.scheme.start → (hub.new ≡ hub.old) × (result ≡ Err BeforeStart) }
    ensures cause { IsCaused O.standing L.standing hub.old hub.new (store_fault result) }
    ensures written { OnOk result (WritesSettlement O.standing L.standing hub.old hub.new owner day (W.contents output.old) (W.contents output.new)) }
    ensures refused { AreClean O.standing L.standing hub.new → AreSound O.standing L.standing hub.old → IsBillRefusal O.standing L.standing hub.old owner day (refused_of result) }
    ensures named { IfErr result (λ fault. is_refusal fault ≡ is_some (name_of fault)) }
    ensures kept { IfErr result (λ fault. fault ≢ Write → Keeps (W.contents output.old) (W.contents output.new)) }
{
    let (settlement, short) = hub.settlement(alloc, owner, day)?;
    let reply = Reply::Settlement {
        owner,
        day,
        settlement,
        short: Short::new(short),
    };
    write_reply(alloc, &reply, output)
}
