ghost use Rattle.std.specs.Prelude.{◌≡◌, ◌↔◌, ◌+◌, ◌≤◌, ℕ, IsSome, IfSome, IsOk, OnOk, IfOk, OnErr, IfErr, unwrap_or};
ghost use Rattle.fare_link.specs.Values.{IsReceiver};
ghost use Rattle.fare_scheme.specs.Words.{position_of_owner, position_of_station};
ghost use Rattle.fare_collector.specs.Collecting.{next_in, first_link, new_refusal, is_owned, collect_judged, statement_judged, IsDue, changed, one_back};

use crate::{CollectRefusal, CollectorFault, StatementRefusal};
use fare_link::{Receiver, Verdict};
use fare_record::{DeviceId, LAST_NUMBER, Record, Statement, StationId};
use fare_scheme::Scheme;
use std::alloc::Global;
use std::collections::HashMap;

/// The collector of one station: for each of the station's devices the link that it accepts next. Links count
/// from 1.
#[derive(Debug, Drop)]
pub struct Collector {
    station: StationId,
    receivers: HashMap<DeviceId, Receiver>,
}

impl Collector {
    /// The collector of a station, which accepts link 1 next from each of its devices.
    ///
    /// Refused by the first case of `CollectorFault` that applies.
    pub fn new(
        alloc: Global,
        scheme: &Scheme,
        station: StationId,
    ) -> Result<Collector, CollectorFault>
        ensures known { OnOk result (IsSome (position_of_station scheme.now station)) }
        ensures station { IfOk result (λ collector. collector.station ≡ station) }
        ensures next { IfOk result (λ collector. (device : ℕ) → next_in collector device ≡ first_link scheme.now station device) }
        ensures refused { IfErr result (λ fault. fault ≡ unwrap_or (new_refusal scheme.now station) CollectorFault.Memory) }
    {
        if scheme.station_position(station).is_none() {
            return Err(CollectorFault::UnknownStation);
        }
        let mut receivers = HashMap::new(alloc);
        for device in scheme.devices() {
            if scheme.station_of(*device) != Some(station) {
                continue;
            }
            let Ok(_) = receivers.insert(*device, Receiver::new()) else {
                return Err(CollectorFault::Memory);
            };
        }
        Ok(Collector { station, receivers })
    }

    /// Its station.
    pub fn station(&self) -> StationId
        ensures { result ≡ self.now.station }
    {
        self.station
    }

    /// The link that it accepts next from a device, 1 to 2^40; `None` for a device of another station.
    pub fn next(&self, device: DeviceId) -> Option<u64>
        ensures value { result ≡ next_in self.now device }
        ensures valid { IfSome result (λ next. IsReceiver (record { next = next })) }
    {
        self.receivers.get(&device).map(|receiver| receiver.next())
    }

    /// Accepts a tap of one of its devices: the one with the device's next link, where the owner is the one
    /// that the scheme gives the product. From then on it accepts the link after it.
    ///
    /// Refused by the first case of `CollectRefusal` that applies; then nothing changes.
    pub fn accept(&mut self, scheme: &Scheme, tapped: &Record) -> Result<(), CollectRefusal>
        ensures ok { IsOk result ↔ IsDue (next_in self.old) scheme.now tapped.now }
        ensures judged { result ≡ collect_judged (next_in self.old tapped.now.device) (is_owned scheme.now tapped.now) tapped.now.link }
        ensures advanced { OnOk result ((device : ℕ) → next_in self.new device ≡ changed (λ next. next + 1) (next_in self.old) tapped.now.device device) }
        ensures unchanged { OnErr result ((device : ℕ) → next_in self.new device ≡ next_in self.old device) }
        ensures station { self.new.station ≡ self.old.station }
    {
        let Some(receiver) = self.receivers.get_mut(&tapped.device()) else {
            return Err(CollectRefusal::Stranger);
        };
        if scheme.owner_of(tapped.tap().product()) != Some(tapped.owner()) {
            return Err(CollectRefusal::Misrouted);
        }
        match receiver.judge(tapped.link()) {
            Verdict::Old => Err(CollectRefusal::Old),
            Verdict::Ahead => Err(CollectRefusal::Ahead),
            Verdict::Next => {
                receiver.advance();
                Ok(())
            }
        }
    }

    /// Accepts a statement of one of its devices, for an owner that is registered. Nothing changes: statements
    /// have no link, and may come in any order and again.
    ///
    /// Refused by the first case of `StatementRefusal` that applies.
    pub fn accept_statement(
        &self,
        scheme: &Scheme,
        statement: &Statement,
    ) -> Result<(), StatementRefusal>
        ensures ok { IsOk result ↔ (IsSome (next_in self.now statement.now.device) × IsSome (position_of_owner scheme.now statement.now.owner)) }
        ensures judged { result ≡ statement_judged (next_in self.now statement.now.device) (position_of_owner scheme.now statement.now.owner) }
    {
        if self.next(statement.device()).is_none() {
            return Err(StatementRefusal::Stranger);
        }
        if scheme.owner_position(statement.owner()).is_none() {
            return Err(StatementRefusal::Misrouted);
        }
        Ok(())
    }

    /// Undoes the last accept of a device: the link that it accepts next is one less, where it is above 1.
    /// Nothing changes for a device of another station.
    pub fn unaccept(&mut self, device: DeviceId)
        ensures next { (other : ℕ) → next_in self.new other ≡ changed one_back (next_in self.old) device other }
        ensures station { self.new.station ≡ self.old.station }
    {
        if let Some(receiver) = self.receivers.get_mut(&device) {
            let next = receiver.next();
            if next > 1 {
                receiver.resume(next - 2);
            }
        }
    }

    /// Goes on after link `upto` of a device, whatever was accepted before. Nothing changes for a device of
    /// another station.
    pub fn resume(&mut self, device: DeviceId, upto: u64)
        requires { upto ≤ LAST_NUMBER }
        ensures next { (other : ℕ) → next_in self.new other ≡ changed (λ _. upto + 1) (next_in self.old) device other }
        ensures station { self.new.station ≡ self.old.station }
    {
        if let Some(receiver) = self.receivers.get_mut(&device) {
            receiver.resume(upto);
        }
    }
}
