ghost use Rattle.std.specs.Prelude.{◌≡◌, ℕ, Some, IfOk, length, slice_get};
ghost use Rattle.fare_record.specs.Limits.{IsCount};
ghost use Rattle.fare_store.specs.Standing.{Reads, fault_of};
ghost use Rattle.fare_side.specs.Resuming.{AreUptos};
ghost use Rattle.fare_world.specs.Restarts.{Paired, AreAsked, IsOwnerAgain, IsStationAgain};
ghost use Rattle.fare_world.specs.Whole.{Applied, IsStepped};
ghost use Rattle.fare_event.specs.declared.event.Event.TheVariants as event;

use crate::world::World;
use fare_event::{Refusal, Reply};
use fare_record::{DeviceId, OwnerId, StationId};
use fare_scheme::Scheme;
use fare_side::{Owner, Station};
use fare_store::{Fault, Ledger, Outbox};

impl<O: Outbox + Drop, L: Ledger + Drop> World<O, L> {
    // The station of a device goes on behind what the outbox has had of it.
    pub(super) fn resume(&mut self, device: DeviceId) -> Result<Reply, Fault>
        ensures { Applied O.standing L.standing self.old self.new (event.Resume device) result }
    {
        let Some(place) = self.station_place(device) else {
            return Ok(Reply::Refused(Refusal::UnknownDevice));
        };
        let upto = self.outbox.upto(device)?;
        self.stations[place].collector.resume(device, upto);
        Ok(Reply::Resumed(upto))
    }

    // A device starts again.
    pub(super) fn restart_device(&mut self, device: DeviceId) -> Reply
        ensures { IsStepped O.standing L.standing self.old self.new (event.RestartDevice device) result }
    {
        let Some(place) = self.scheme.device_position(device) else {
            return Reply::Refused(Refusal::UnknownDevice);
        };
        self.devices[place].restart();
        Reply::Restarted
    }

    // A station starts again: each of its devices is resumed.
    pub(super) fn restart_station(&mut self, station: StationId) -> Result<Reply, Fault>
        ensures { Applied O.standing L.standing self.old self.new (event.RestartStation station) result }
    {
        let Some(place) = self.scheme.station_position(station) else {
            return Ok(Reply::Refused(Refusal::UnknownStation));
        };
        ask_uptos(&self.scheme, &mut self.outbox, &mut self.uptos)?;
        self.stations[place].resume_all(&self.scheme, &self.uptos);
        Ok(Reply::Restarted)
    }

    // The writer starts again, with nothing in its hand.
    pub(super) fn restart_writer(&mut self) -> Reply
        ensures { IsStepped O.standing L.standing self.old self.new event.RestartWriter result }
    {
        self.hand = None;
        Reply::Restarted
    }

    // An owner starts again, behind what its ledger has.
    pub(super) fn restart_owner(&mut self, owner: OwnerId) -> Result<Reply, Fault>
        ensures { Applied O.standing L.standing self.old self.new (event.RestartOwner owner) result }
    {
        let Some(at) = self.scheme.owner_position(owner) else {
            return Ok(Reply::Refused(Refusal::UnknownOwner));
        };
        let side = &mut self.owners[at];
        side.ask(&self.scheme)?;
        side.restart(&self.scheme);
        Ok(Reply::Restarted)
    }

    // The hub starts again: all stores are asked first, and then nothing can fail.
    pub(super) fn restart_hub(&mut self) -> Result<Reply, Fault>
        ensures { Applied O.standing L.standing self.old self.new event.RestartHub result }
    {
        ask_uptos(&self.scheme, &mut self.outbox, &mut self.uptos)?;
        ask_owners(&self.scheme, &mut self.owners)?;
        self.inbox.clear();
        self.hand = None;
        restart_stations(&self.scheme, &mut self.stations, &self.uptos);
        restart_owners(&self.scheme, &mut self.owners);
        Ok(Reply::Restarted)
    }
}

// How far the outbox has had each device's taps, in order of registration.
fn ask_uptos<O: Outbox>(scheme: &Scheme, outbox: &mut O, uptos: &mut [u64]) -> Result<(), Fault>
    requires { length uptos.old ≡ length scheme.now.devices }
    ensures read { Reads (O.standing outbox.old) (O.standing outbox.new) (λ _. AreUptos scheme.now (O.standing outbox.old).value.upto uptos.new) result }
    ensures valid { IfOk result (λ _. (k : ℕ) (n : ℕ) → slice_get uptos.new k ≡ Some n → IsCount n) }
{
    for (place, device) in scheme.devices().iter().enumerate() {
        uptos[place] = outbox.upto(*device)?;
    }
    Ok(())
}

// Asks each owner's ledger where it stands.
fn ask_owners<L: Ledger + Drop>(scheme: &Scheme, owners: &mut [Owner<L>]) -> Result<(), Fault>
    requires { (k : ℕ) (x : Owner L) → slice_get owners.old k ≡ Some x → length x.standings.items ≡ length scheme.now.devices }
    ensures { AreAsked L.standing scheme.now owners.old owners.new (fault_of result) }
{
    for owner in owners.iter_mut() {
        owner.ask(scheme)?;
    }
    Ok(())
}

// Starts each owner again.
fn restart_owners<L: Ledger + Drop>(scheme: &Scheme, owners: &mut [Owner<L>])
    requires { (k : ℕ) (x : Owner L) → slice_get owners.old k ≡ Some x → length x.standings.items ≡ length scheme.now.devices }
    ensures { Paired (IsOwnerAgain scheme.now) owners.old owners.new }
{
    for owner in owners.iter_mut() {
        owner.restart(scheme);
    }
}

// Starts each station again, with nothing to answer.
fn restart_stations(scheme: &Scheme, stations: &mut [Station], uptos: &[u64])
    requires count { length uptos.now ≡ length scheme.now.devices }
    requires valid { (k : ℕ) (n : ℕ) → slice_get uptos.now k ≡ Some n → IsCount n }
    ensures { Paired (IsStationAgain scheme.now uptos.now) stations.old stations.new }
{
    for station in stations.iter_mut() {
        station.line.clear();
        station.resume_all(scheme, uptos);
    }
}
