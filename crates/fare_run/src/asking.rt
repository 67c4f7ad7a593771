ghost use Rattle.std.specs.Prelude.{◌≡◌, ◌≢◌, Some, Err, OnOk, IfErr};
ghost use Rattle.std.specs.Io.KnownBytes.{Keeps};
ghost use Rattle.fare_sessions.specs.Stores.{HasLedgers};
ghost use Rattle.fare_run.specs.Asking.{Answers, AreTrusted, FailsOf, GoesOnAsked, IsAnsweredAtOnce, refused_unasked};
ghost use Rattle.fare_desk.specs.Causes.{IsCaused, store_fault};
ghost use Rattle.fare_desk.specs.declared.fault.DeskFault.TheVariants.{Write};

use fare_command::Question;
use fare_desk::{
    DeskFault, close_days, forget_days, retire_lane, write_bill, write_settlement, write_standing,
};
use fare_sessions::Hub;
use fare_store::{Ledger, Outbox};
use std::alloc::Global;
use std::io::Write;

/// Answers a question of these stores, closes their days, retires a lane or lets days go, and writes what comes of it, as
/// `fare_desk` says. Each failure comes as its call says; what the scheme alone refuses asks no store.
pub fn answer_over<Ob: Outbox, L: Ledger, O: Write>(
    alloc: Global,
    hub: &mut Hub<Ob, L>,
    question: Question,
    output: &mut O,
) -> Result<(), DeskFault>
    requires ledgers { HasLedgers hub.old }
    ensures goes { GoesOnAsked Ob.standing L.standing question hub.old hub.new }
    ensures answers { OnOk result (Answers Ob.standing L.standing question hub.old hub.new (O.contents output.old) (O.contents output.new)) }
    ensures unasked { (why : DeskFault) → refused_unasked hub.old.scheme question ≡ Some why → (hub.new ≡ hub.old) × (result ≡ Err why) }
    ensures fails { IfErr result (FailsOf Ob.standing L.standing question hub.old hub.new) }
    ensures cause { AreTrusted Ob.standing L.standing question hub.old hub.new → IsCaused Ob.standing L.standing hub.old hub.new (store_fault result) }
    ensures kept { IsAnsweredAtOnce question → IfErr result (λ fault. fault ≢ Write → Keeps (O.contents output.old) (O.contents output.new)) }
{
    match question {
        Question::Close => close_days(alloc, hub, output),
        Question::Bill { owner, day } => write_bill(alloc, hub, owner, day, output),
        Question::Settle { owner, day } => write_settlement(alloc, hub, owner, day, output),
        Question::Stand => write_standing(alloc, hub, output),
        Question::Retire { owner, device } => retire_lane(alloc, hub, owner, device, output),
        Question::Forget { before } => forget_days(alloc, hub, before, output),
    }
}
