//! One session of the list.
ghost use Rattle.std.specs.Prelude.{◌≡◌, ◌+◌, ◌≤◌, ℕ, Some, vec_len, vec_capacity};
ghost use Rattle.fare_scheme.specs.Words.{position_of_owner};
ghost use Rattle.fare_sessions.specs.Course.{Counts, Tally, Shows, with_session};
ghost use Rattle.fare_sessions.specs.Stores.{HasLedgers};
ghost use Rattle.fare_sessions.specs.Running.{IsRunnable, HasServed, HasRun};
ghost use Rattle.fare_sessions.specs.declared.session.Session.TheVariants.{Collect, Serve};

use crate::course::Course;
use crate::hub::Hub;
use crate::session::Session;
use fare_collect::{Station, collect};
use fare_record::OwnerId;
use fare_session::{Gate, Pace, SessionFault, serve_owner};
use fare_source::Source;
use fare_store::{Ledger, Outbox};
use fare_supervisor::Fault;
use std::alloc::Global;
use std::sync::Wait;
use std::thread::Threads;
use std::time::Clock;

impl<O: Outbox + Send, L: Ledger + Send> Hub<O, L> {
    // A session of the stations and the writer. Where there is no memory for its list of faults, that is its fault.
    fn collect_from<S: Source + Send, G: Gate + Sync, R: Threads + Wait + Clock + Sync>(
        &mut self,
        pace: &Pace<G, R>,
        alloc: Global,
        place: usize,
        stations: &mut Vec<Station<S>>,
        course: &mut Course,
    )
        requires can { IsRunnable self.old.scheme (Collect stations.old) }
        requires room { vec_len course.old.report.faults + 17 ≤ vec_capacity course.old.report.faults }
        ensures ran { (c : Counts) × HasRun S.talk O.standing L.standing self.old self.new (Collect stations.old) (Collect stations.new) c × ((limit : ℕ) (t : Tally) → Shows limit t course.old → Shows limit (with_session t place c) course.new) }
        ensures few { vec_len course.new.report.faults ≤ vec_len course.old.report.faults + 17 }
        ensures capacity { vec_capacity course.new.report.faults ≡ vec_capacity course.old.report.faults }
    {
        match collect(pace, alloc, &self.scheme, stations, &mut self.outbox) {
            Ok(report) => {
                course.count(report.stored, 0, report.left);
                course.note_all(place, &report.faults);
            }
            Err(_) => course.note(place, SessionFault::Memory, Fault::Writer),
        }
    }

    // A session of an owner.
    fn serve<G: Gate + Sync, R: Threads + Wait + Clock + Sync>(
        &mut self,
        pace: &Pace<G, R>,
        alloc: Global,
        place: usize,
        owner: OwnerId,
        course: &mut Course,
    )
        requires can { (at : ℕ) × (position_of_owner self.old.scheme owner ≡ Some at) }
        requires ledgers { HasLedgers self.old }
        requires room { vec_len course.old.report.faults + 17 ≤ vec_capacity course.old.report.faults }
        ensures ran { (c : Counts) × HasServed O.standing L.standing self.old self.new owner c × ((limit : ℕ) (t : Tally) → Shows limit t course.old → Shows limit (with_session t place c) course.new) }
        ensures few { vec_len course.new.report.faults ≤ vec_len course.old.report.faults + 17 }
        ensures capacity { vec_capacity course.new.report.faults ≡ vec_capacity course.old.report.faults }
    {
        let Some(at) = self.scheme.owner_position(owner) else {
            unreachable!()
        };
        let report = serve_owner(
            pace,
            alloc,
            &self.scheme,
            &mut self.outbox,
            &mut self.ledgers[at],
            owner,
        );
        course.count(0, report.taken, report.left);
        course.note_owner(place, owner, report.fault);
    }

    // Runs the session at a place.
    pub(crate) fn run<S: Source + Send, G: Gate + Sync, R: Threads + Wait + Clock + Sync>(
        &mut self,
        pace: &Pace<G, R>,
        alloc: Global,
        place: usize,
        session: &mut Session<S>,
        course: &mut Course,
    )
        requires can { IsRunnable self.old.scheme session.old }
        requires ledgers { HasLedgers self.old }
        requires room { vec_len course.old.report.faults + 17 ≤ vec_capacity course.old.report.faults }
        ensures ran { (c : Counts) × HasRun S.talk O.standing L.standing self.old self.new session.old session.new c × ((limit : ℕ) (t : Tally) → Shows limit t course.old → Shows limit (with_session t place c) course.new) }
        ensures few { vec_len course.new.report.faults ≤ vec_len course.old.report.faults + 17 }
        ensures capacity { vec_capacity course.new.report.faults ≡ vec_capacity course.old.report.faults }
    {
        match session {
            Session::Collect(stations) => self.collect_from(pace, alloc, place, stations, course),
            Session::Serve(owner) => self.serve(pace, alloc, place, *owner, course),
        }
    }
}
