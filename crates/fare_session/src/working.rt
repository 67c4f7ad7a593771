//! Which lanes a session goes on with.
ghost use Rattle.std.specs.Prelude.{◌≡◌, []};
ghost use Rattle.fare_session.specs.Asking.{AreSifted};
ghost use Rattle.fare_session.specs.Forwarding.{AreApart};

use fare_record::DeviceId;
use fare_store::{Fault, Ledger};

/// Of these lanes, those that the ledger hasn't retired.
pub(crate) fn sift<L: Ledger>(
    ledger: &mut L,
    lanes: &[(DeviceId, u64)],
    working: &mut Vec<(DeviceId, u64)>,
) -> Result<(), Fault>
    requires apart { AreApart lanes.now }
    requires fresh { working.old.items ≡ [] }
    ensures { AreSifted (L.standing ledger.old) (L.standing ledger.new) lanes.now working.new.items result }
{
    for lane in lanes {
        let retired = ledger.retired(lane.0)?;
        if !retired && working.push(*lane).is_err() {
            return Err(Fault::Memory);
        }
    }
    Ok(())
}
