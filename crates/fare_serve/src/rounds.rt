ghost use Rattle.std.specs.Prelude.{◌≡◌, ◌≢◌, ◌≤◌, length, IfErr, IfOk, OnOk};
ghost use Rattle.fare_collect.specs.Collected.{HaveDevices};
ghost use Rattle.fare_collect.specs.Resuming.{AreStations};
ghost use Rattle.fare_sessions.specs.Stores.{HasLedgers};
ghost use Rattle.fare_serve.specs.Rounds.{HasFailedRound, HasServedRound, HaveFailedOwners, HaveServedOwners};

use crate::counts::Counts;
use crate::fault::ServeFault;
use crate::sessions::{collect_once, serve_once};
use fare_collect::Station;
use fare_session::{Gate, Pace};
use fare_sessions::{Hub, SessionsReport};
use fare_source::Source;
use fare_store::{Ledger, Outbox};
use std::alloc::Global;
use std::sync::Wait;
use std::thread::Threads;
use std::time::Clock;

// A session of each owner, in their order, whose reports are counted.
fn serve_owners<
    S: Source + Drop + Send,
    O: Outbox + Send,
    L: Ledger + Send,
    G: Gate + Sync,
    R: Threads + Wait + Clock + Sync,
>(
    pace: &Pace<G, R>,
    alloc: Global,
    hub: &mut Hub<O, L>,
    counts: &mut Counts,
) -> Result<(), ServeFault>
    requires ledgers { HasLedgers hub.old }
    requires owners { length counts.old.taken.items ≡ length hub.old.scheme.owners }
    ensures served { OnOk result (HaveServedOwners S.talk O.standing L.standing hub.old hub.new (length hub.old.scheme.owners) counts.old counts.new) }
    ensures failed { IfErr result (HaveFailedOwners S.talk O.standing L.standing hub.old hub.new) }
    ensures fault { IfErr result (λ fault. fault ≢ ServeFault.Write) }
{
    for place in 0..hub.scheme.owners().len() {
        let owner = hub.scheme.owners()[place];
        let report = serve_once::<S, O, L, G, R>(pace, alloc, hub, place, owner)?;
        counts.add_owner(place, &report);
    }
    Ok(())
}

/// One round: a session of the stations, all of the scheme's, in its order, and then one of each owner, in the order of
/// registration; their reports are counted. Gives back the report of the stations' session, and the stations, each with
/// its source.
///
/// `Memory` or `Store` where that is the first such fault of a session, in their order, and none follows it then; `Memory`
/// also where there is none for a session's list of faults, before that session reads anything. The stores then hold what
/// the sessions up to the fault made of them; what was counted is not said.
pub fn serve_round<
    S: Source + Drop + Send,
    O: Outbox + Send,
    L: Ledger + Send,
    G: Gate + Sync,
    R: Threads + Wait + Clock + Sync,
>(
    pace: &Pace<G, R>,
    alloc: Global,
    hub: &mut Hub<O, L>,
    stations: Vec<Station<S>>,
    counts: &mut Counts,
) -> Result<(SessionsReport, Vec<Station<S>>), ServeFault>
    requires ledgers { HasLedgers hub.old }
    requires few { length stations.items ≤ 16 }
    requires order { AreStations hub.old.scheme stations.items }
    requires all { length stations.items ≡ length hub.old.scheme.stations }
    requires devices { HaveDevices hub.old.scheme stations.items }
    requires owners { length counts.old.taken.items ≡ length hub.old.scheme.owners }
    ensures served { IfOk result (λ done. HasServedRound S.talk O.standing L.standing hub.old hub.new stations.items done.0 done.1.items counts.old counts.new) }
    ensures failed { IfErr result (HasFailedRound S.talk O.standing L.standing hub.old hub.new stations.items) }
    ensures fault { IfErr result (λ fault. fault ≢ ServeFault.Write) }
{
    let (report, stations) = collect_once(pace, alloc, hub, stations)?;
    counts.add_stations(&report);
    serve_owners::<S, O, L, G, R>(pace, alloc, hub, counts)?;
    Ok((report, stations))
}
