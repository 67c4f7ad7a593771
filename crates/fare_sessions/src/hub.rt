//! The hub.
ghost use Rattle.std.specs.Prelude.{◌≡◌, ◌+◌, ◌*◌, ◌<◌, ◌≤◌, ◌↔◌, ℕ, [], List, length, IfOk, IsErr, IsTrue, vec_len, vec_capacity};
ghost use Rattle.fare_record.specs.Values.{RecordValue};
ghost use Rattle.fare_agreement.specs.Totals.{had_by};
ghost use Rattle.fare_history.specs.Stores.{StoresValue};
ghost use Rattle.fare_store.specs.Standing.{IsSound};
ghost use Rattle.fare_sessions.specs.Course.{Shows, no_tally};
ghost use Rattle.fare_sessions.specs.Stores.{HasLedgers, AreClean, AreLive, AreSound, StoresFollow, MayStandAs, IsAgreed, HasGrown, held_by_all};
ghost use Rattle.fare_sessions.specs.Reopening.{AreLasting, AreOwned};
ghost use Rattle.fare_sessions.specs.Running.{AreRunnable, AreStill, HaveAllRun};
ghost use Rattle.fare_sessions.specs.Promises.{AreCovered, Trusted, ran, AreInOrder, AreUntouched, IsAdded, CameOf};

use crate::course::Course;
use crate::report::SessionsReport;
use crate::session::Session;
use fare_scheme::Scheme;
use fare_session::{Gate, Pace};
use fare_source::Source;
use fare_store::{Ledger, Outbox};
use fare_supervisor::Supervisor;
use std::alloc::{AllocError, Global};
use std::sync::Wait;
use std::thread::Threads;
use std::time::Clock;

/// The stores of a scheme: its outbox, and a ledger for each owner in order of registration.
#[derive(Drop)]
pub struct Hub<O, L> {
    pub scheme: Scheme,
    pub outbox: O,
    pub ledgers: Vec<L>,
}

// The most faults that one session may report: those of sixteen stations, and the writer's.
const MOST_FAULTS: usize = 17;

// The stores keep the laws of their kinds. A function that starts threads can't cite a trait's law itself.
fn have_laws<O: Outbox, L: Ledger>(_outbox: &O, _ledgers: &[L])
    ensures outbox { (x : O) → IsSound (O.standing x) }
    ensures ledger { (x : L) → IsSound (L.standing x) }
{}

impl<O: Outbox + Send, L: Ledger + Send> Hub<O, L> {
    /// Runs the sessions, one after the other, until the last one or until the supervisor gives up. Each starts from
    /// what the stores hold, with stations that go on behind the greatest links and an owner that goes on behind its
    /// ledger. Each fault of a session is given to the supervisor in order; any answer but `GiveUp` lets the list go
    /// on. The sessions can then run again.
    ///
    /// The stations of a session, at most 16, are the first of the scheme's in its order; an owner is registered; and
    /// the ledgers are one for each owner. `AllocError` where the list of faults gets no room, before anything is
    /// read; want of memory later is a fault of the report.
    pub fn sessions<S: Source + Send, G: Gate + Sync, R: Threads + Wait + Clock + Sync>(
        &mut self,
        pace: &Pace<G, R>,
        alloc: Global,
        sessions: &mut [Session<S>],
        supervisor: Supervisor,
    ) -> Result<SessionsReport, AllocError>
        requires ledgers { HasLedgers self.old }
        requires can { AreRunnable self.old.scheme sessions.old }
        ensures scheme { self.new.scheme ≡ self.old.scheme }
        ensures again { AreRunnable self.new.scheme sessions.new }
        ensures still { AreStill sessions.old sessions.new }
        ensures follow { StoresFollow O.standing L.standing self.old self.new }
        ensures sound { AreClean O.standing L.standing self.new → AreSound O.standing L.standing self.old → AreSound O.standing L.standing self.new }
        ensures lasting { AreClean O.standing L.standing self.new → AreSound O.standing L.standing self.old → AreLasting O.standing L.standing self.old → AreLasting O.standing L.standing self.new }
        ensures owned { AreClean O.standing L.standing self.new → AreSound O.standing L.standing self.old → AreOwned O.standing L.standing self.old → AreOwned O.standing L.standing self.new }
        ensures agrees { (lists : ℕ → List RecordValue) → Trusted S.talk O.standing L.standing self.old self.new sessions.old sessions.new lists → IsAgreed O.standing L.standing lists self.new }
        ensures grows { (lists : ℕ → List RecordValue) → Trusted S.talk O.standing L.standing self.old self.new sessions.old sessions.new lists → HasGrown O.standing L.standing self.old self.new }
        ensures covered { (lists : ℕ → List RecordValue) → Trusted S.talk O.standing L.standing self.old self.new sessions.old sessions.new lists → (k : StoresValue) → MayStandAs O.standing L.standing self.new k → AreCovered S.talk self.old.scheme k.outbox sessions.old sessions.new }
        ensures boundaries { AreClean O.standing L.standing self.new → AreSound O.standing L.standing self.old → IfOk result (λ report. (k : StoresValue) → MayStandAs O.standing L.standing self.new k → CameOf S.talk O.standing L.standing self.old sessions.old sessions.new report k) }
        ensures stored { AreLive O.standing L.standing self.new → AreSound O.standing L.standing self.old → IfOk result (λ report. IsAdded (had_by self.old.scheme (O.standing self.old.outbox).value) (had_by self.old.scheme (O.standing self.new.outbox).value) report.stored) }
        ensures taken { AreLive O.standing L.standing self.new → AreSound O.standing L.standing self.old → IfOk result (λ report. IsAdded (held_by_all L.standing self.old.scheme self.old.ledgers.items) (held_by_all L.standing self.old.scheme self.new.ledgers.items) report.taken) }
        ensures left { AreClean O.standing L.standing self.new → AreSound O.standing L.standing self.old → IfOk result (λ report. report.faults.items ≡ [] → report.left ≡ 0) }
        ensures gave_up { IfOk result (λ report. IsTrue report.gave_up ↔ (supervisor < length report.faults.items)) }
        ensures in_order { IfOk result (λ report. AreInOrder 0 report.faults.items (ran report (length sessions.old))) }
        ensures untouched { IfOk result (λ report. AreUntouched (ran report (length sessions.old)) sessions.old sessions.new) }
        ensures memory { IsErr result → (self.new ≡ self.old) × (sessions.new ≡ sessions.old) }
    {
        have_laws(&self.outbox, &self.ledgers);
        let owners = self.scheme.owner_count();
        prove!(self.ledgers.len() == owners);
        let Some(room) = sessions.len().checked_mul(MOST_FAULTS) else {
            return Err(AllocError);
        };
        let faults = Vec::with_capacity(alloc, room)?;
        let mut course = Course::new(faults, supervisor);
        self.run_all(pace, alloc, sessions, &mut course);
        Ok(course.into_report())
    }

    // Runs the sessions, until the last one or until the supervisor gives up.
    fn run_all<S: Source + Send, G: Gate + Sync, R: Threads + Wait + Clock + Sync>(
        &mut self,
        pace: &Pace<G, R>,
        alloc: Global,
        sessions: &mut [Session<S>],
        course: &mut Course,
    )
        requires ledgers { HasLedgers self.old }
        requires can { AreRunnable self.old.scheme sessions.old }
        requires room { vec_len course.old.report.faults + length sessions.old * 17 ≤ vec_capacity course.old.report.faults }
        ensures { (limit : ℕ) → Shows limit no_tally course.old → HaveAllRun S.talk O.standing L.standing limit self.old self.new sessions.old sessions.new course.new.report }
    {
        for place in 0..sessions.len() {
            self.run(pace, alloc, place, &mut sessions[place], course);
            if course.report.gave_up {
                return;
            }
        }
    }
}
