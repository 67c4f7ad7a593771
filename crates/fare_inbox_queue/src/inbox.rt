ghost use Rattle.std.specs.Prelude.{◌≡◌, ◌↔◌, ◌≤◌, ◌++◌, ◌∷◌, [], ℕ, true, false, List, All, length, map, nat_eq, IsErrOf, IfOk, IfErr, OnOk, OnErr, IfSome, IfNone};
ghost use Rattle.std.specs.List.{IsDistinct, list_any};
ghost use Rattle.crossbeam_queue.specs.Passes.{view, IsPassOf};
ghost use Rattle.fare_inbox_queue.specs.Rooms.{IsRoom};
ghost use Rattle.fare_inbox_queue.specs.Inbox.{station_in, of_station};
ghost use Rattle.fare_inbox_queue.specs.InboxPasses.{capacity_of, station_of, sent_list, taken_list, stations_of, counted, sent_with, IsStationOf, IsWriterOf, WasFull, WasEmpty, left_of, HaveLeft, IsInboxEnded};

use crate::fault::MOST_CAPACITY;
use crate::inbox_rule::{Drains, Gathers, InboxRule, Named, Puts, Seats, Takes, View};
use crate::stations::are_distinct;
use crate::{Arrived, Full, InboxEnded, QueueFault, StationPass, WriterPass};
use crossbeam_queue::{Pass, RuledArrayQueue};
use fare_record::StationId;
use std::alloc::Global;
use std::marker::Brand;
use std::sync::Wait;

const MOST_STATIONS: usize = 16;

/// What the stations have accepted and the writer has not yet taken, at most `capacity` items.
pub struct Inbox {
    pub(crate) queue: RuledArrayQueue<Arrived, View, InboxRule>,
}

impl Drop for Inbox {
    // Derived, the parts of the queue would stand in the proof of each function that may let an inbox go.
    fn drop(self) {
        let Inbox { queue } = self;
        drop(queue);
    }
}

// A pass for a station that has none, cut off the writer's.
fn seated<N: Named>(inbox: &Inbox, writer: &mut WriterPass, station: StationId) -> StationPass
    requires picked { station ≡ N.station }
    requires writer { IsWriterOf inbox.now writer.old }
    requires fresh { list_any (nat_eq station) (stations_of writer.old) ≡ false }
    ensures writer { IsWriterOf inbox.now writer.new }
    ensures taken { taken_list writer.new ≡ taken_list writer.old }
    ensures stations { stations_of writer.new ≡ stations_of writer.old ++ station ∷ [] }
    ensures pass { IsStationOf inbox.now result }
    ensures made { (station_of result ≡ station) × (sent_list result ≡ []) }
{
    StationPass {
        pass: inbox.queue.another::<Seats<N>>(&mut writer.pass),
        station,
    }
}

// A pass for each station.
fn seat_all(
    alloc: Global,
    inbox: &Inbox,
    writer: &mut WriterPass,
    stations: &[StationId],
) -> Result<Vec<StationPass>, QueueFault>
    requires writer { IsWriterOf inbox.now writer.old }
    requires none { stations_of writer.old ≡ [] }
    requires distinct { IsDistinct nat_eq stations.now }
    ensures memory { IfErr result (λ fault. fault ≡ QueueFault.Memory) }
    ensures writer { OnOk result (IsWriterOf inbox.now writer.new) }
    ensures taken { OnOk result (taken_list writer.new ≡ taken_list writer.old) }
    ensures stations { OnOk result (stations_of writer.new ≡ stations.now) }
    ensures passes { IfOk result (λ passes. All (IsStationOf inbox.now) passes.items) }
    ensures named { IfOk result (λ passes. map station_of passes.items ≡ stations.now) }
    ensures sent { IfOk result (λ passes. All (λ pass. sent_list pass ≡ []) passes.items) }
{
    let mut passes = Vec::new(alloc);
    for index in 0..stations.len() {
        let pass = seated::<Brand>(inbox, writer, stations[index]);
        if passes.push(pass).is_err() {
            return Err(QueueFault::Memory);
        }
    }
    Ok(passes)
}

// Takes all stations' passes into the writer's.
fn gather(inbox: &Inbox, pass: &mut Pass<Arrived, View>, mut passes: Vec<StationPass>)
    requires queue { IsPassOf inbox.now.queue pass.old }
    requires takes { (view pass.old).takes ≡ true }
    requires going { (view pass.old).ended ≡ [] }
    requires passes { All (IsStationOf inbox.now) passes.items }
    ensures queue { IsPassOf inbox.now.queue pass.new }
    ensures takes { (view pass.new).takes ≡ true }
    ensures taken { (view pass.new).taken ≡ (view pass.old).taken }
    ensures seated { (view pass.new).seated ≡ (view pass.old).seated }
    ensures ended { (view pass.new).ended ≡ map sent_with passes.items }
{
    while let Some(station) = passes.pop() {
        inbox.queue.absorb::<Gathers>(pass, station.into_pass());
    }
}

impl Inbox {
    /// An empty inbox for at most `capacity` items, with a pass for each station, in their order, and the
    /// writer's.
    ///
    /// `Range` where the capacity is not 1 to 1,024, there is no station or more than 16, or one is named
    /// twice; then `Memory` where there was none.
    pub fn new(
        alloc: Global,
        capacity: u32,
        stations: &[StationId],
    ) -> Result<(Inbox, Vec<StationPass>, WriterPass), QueueFault>
        ensures range { IsErrOf result QueueFault.Range ↔ (IsRoom capacity stations.now → ⊥) }
        ensures memory { IsErrOf result QueueFault.Memory → IsRoom capacity stations.now }
        ensures room { IfOk result (λ made. (capacity_of made.0 ≡ capacity) × IsRoom capacity stations.now) }
        ensures passes { IfOk result (λ made. All (IsStationOf made.0) made.1.items) }
        ensures stations { IfOk result (λ made. map station_of made.1.items ≡ stations.now) }
        ensures sent { IfOk result (λ made. All (λ pass. sent_list pass ≡ []) made.1.items) }
        ensures writer { IfOk result (λ made. IsWriterOf made.0 made.2 × (taken_list made.2 ≡ []) × (stations_of made.2 ≡ stations.now)) }
    {
        if capacity < 1 || capacity > MOST_CAPACITY {
            return Err(QueueFault::Range);
        }
        if stations.is_empty() || stations.len() > MOST_STATIONS || !are_distinct(stations) {
            return Err(QueueFault::Range);
        }
        let Ok((queue, pass)) = RuledArrayQueue::ruled(alloc, capacity as usize) else {
            return Err(QueueFault::Memory);
        };
        let inbox = Inbox { queue };
        let mut writer = WriterPass { pass, count: 0 };
        let passes = seat_all(alloc, &inbox, &mut writer, stations)?;
        Ok((inbox, passes, writer))
    }

    /// Puts an item behind all others, or hands it back where the inbox was full at some moment of the call,
    /// and then puts nothing. The item names the pass's station, and the pass came with the inbox. It may spin
    /// while another thread is in the middle of its step.
    pub fn put<R: Wait>(
        &self,
        rt: &R,
        pass: &mut StationPass,
        item: Arrived,
    ) -> Result<(), Full<Arrived>>
        requires queue { IsStationOf self.now pass.old }
        requires station { station_in item ≡ station_of pass.old }
        ensures queue { IsStationOf self.now pass.new }
        ensures station { station_of pass.new ≡ station_of pass.old }
        ensures ok { OnOk result (sent_list pass.new ≡ sent_list pass.old ++ item ∷ []) }
        ensures full { IfErr result (λ full. (full.0 ≡ item) × (sent_list pass.new ≡ sent_list pass.old)) }
        ensures was_full { OnErr result (WasFull self.now pass.new) }
    {
        match self.queue.push_as::<Puts, R>(rt, &mut pass.pass, item) {
            Ok(()) => Ok(()),
            Err(item) => Err(Full(item)),
        }
    }

    /// Takes the item at the front. `None` where the inbox was empty at some moment of the call; then nothing
    /// was taken. The pass came with the inbox. It may spin while another thread is in the middle of its step.
    pub fn take<R: Wait>(&self, rt: &R, pass: &mut WriterPass) -> Option<Arrived>
        requires { IsWriterOf self.now pass.old }
        ensures queue { IsWriterOf self.now pass.new }
        ensures stations { stations_of pass.new ≡ stations_of pass.old }
        ensures some { IfSome result (λ item. taken_list pass.new ≡ taken_list pass.old ++ item ∷ []) }
        ensures none { IfNone result (taken_list pass.new ≡ taken_list pass.old) }
        ensures was_empty { IfNone result (WasEmpty pass.new) }
    {
        let item = self.queue.pop_as::<Takes, R>(rt, &mut pass.pass)?;
        pass.count = pass.count.saturating_add(1);
        Some(item)
    }

    /// Ends the inbox, with all passes that came with it, the stations' in their order. Of each station what
    /// was taken and then what is left is what its pass put, and no more is left than the inbox may hold.
    pub fn finish<R: Wait>(self, rt: &R, passes: Vec<StationPass>, writer: WriterPass) -> InboxEnded
        requires passes { All (IsStationOf self) passes.items }
        requires all { map station_of passes.items ≡ stations_of writer }
        requires writer { IsWriterOf self writer }
        ensures ended { IsInboxEnded result }
        ensures each { All (λ pass. of_station (station_of pass) (taken_list writer) ++ left_of result (station_of pass) ≡ sent_list pass) passes.items }
        ensures others { (station : ℕ) → list_any (nat_eq station) (stations_of writer) ≡ false → (of_station station (taken_list writer) ≡ []) × (left_of result station ≡ []) }
        ensures taken { result.taken ≡ counted (taken_list writer) }
        ensures left { HaveLeft result result.left }
        ensures few { result.left ≤ capacity_of self }
    {
        let (mut pass, count) = writer.into_parts();
        gather(&self, &mut pass, passes);
        let left = self.queue.len_as::<Drains, R>(rt, &mut pass);
        InboxEnded {
            queue: self,
            pass,
            taken: count,
            left: left as u64,
        }
    }
}
