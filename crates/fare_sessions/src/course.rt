//! The course of a list of sessions: its report so far, and the supervisor that decides whether to go on.
ghost use Rattle.std.specs.Prelude.{◌≡◌, ◌+◌, ◌<◌, ◌≤◌, ℕ, [], ◌∷◌, length, vec_len, vec_capacity};
ghost use Rattle.fare_sessions.specs.Course.{Tally, Shows, no_tally, with_faults, with_numbers, owner_faults, part_of_stations};

use crate::report::SessionsReport;
use fare_record::OwnerId;
use fare_session::SessionFault;
use fare_supervisor::{Action, Fault, Supervisor};

// The report so far, and who decides whether to go on.
pub(crate) struct Course {
    pub(crate) report: SessionsReport,
    pub(crate) supervisor: Supervisor,
}

impl Drop for Course {
    fn drop(self) {
        let Course { report, supervisor } = self;
        drop(report);
        drop(supervisor);
    }
}

// The part of the hub that met a fault of a session of the stations.
pub(crate) fn part_of_stations(fault: &SessionFault) -> Fault
    ensures { result ≡ part_of_stations fault.now }
{
    match fault {
        SessionFault::Source(station) => Fault::Station(*station),
        SessionFault::Unexpected(station) => Fault::Station(*station),
        SessionFault::Store => Fault::Outbox,
        SessionFault::Refused => Fault::Writer,
        SessionFault::Memory => Fault::Writer,
    }
}

impl Course {
    // Nothing has run yet.
    pub(crate) fn new(faults: Vec<(usize, SessionFault)>, supervisor: Supervisor) -> Course
        requires none { faults.items ≡ [] }
        ensures shows { Shows supervisor no_tally result }
        ensures len { vec_len result.report.faults ≡ vec_len faults }
        ensures capacity { vec_capacity result.report.faults ≡ vec_capacity faults }
    {
        Course {
            report: SessionsReport {
                stored: 0,
                taken: 0,
                left: 0,
                faults,
                gave_up: false,
            },
            supervisor,
        }
    }

    // The report, once all have run.
    pub(crate) fn into_report(self) -> SessionsReport
        ensures { result ≡ self.report }
    {
        let Course { report, supervisor } = self;
        drop(supervisor);
        report
    }

    // Adds what a session stored, took and left.
    pub(crate) fn count(&mut self, stored: u64, taken: u64, left: u64)
        ensures shows { (limit : ℕ) (t : Tally) → Shows limit t self.old → Shows limit (with_numbers t stored taken left) self.new }
        ensures faults { self.new.report.faults ≡ self.old.report.faults }
    {
        self.report.stored = self.report.stored.saturating_add(stored);
        self.report.taken = self.report.taken.saturating_add(taken);
        self.report.left = self.report.left.saturating_add(left);
    }

    // Adds a fault of the session at a place, which this part of the hub met, and asks whether to go on.
    pub(crate) fn note(&mut self, place: usize, fault: SessionFault, part: Fault)
        requires room { vec_len self.old.report.faults < vec_capacity self.old.report.faults }
        ensures shows { (limit : ℕ) (t : Tally) → Shows limit t self.old → Shows limit (with_faults t place (fault ∷ [])) self.new }
        ensures len { vec_len self.new.report.faults ≡ vec_len self.old.report.faults + 1 }
        ensures capacity { vec_capacity self.new.report.faults ≡ vec_capacity self.old.report.faults }
    {
        self.report.faults.push_reserved((place, fault));
        if let Action::GiveUp = self.supervisor.on(part) {
            self.report.gave_up = true;
        }
    }

    // Adds the fault of a session of an owner, if it met one.
    pub(crate) fn note_owner(&mut self, place: usize, owner: OwnerId, fault: Option<SessionFault>)
        requires room { vec_len self.old.report.faults < vec_capacity self.old.report.faults }
        ensures shows { (limit : ℕ) (t : Tally) → Shows limit t self.old → Shows limit (with_faults t place (owner_faults fault)) self.new }
        ensures len { vec_len self.new.report.faults ≤ vec_len self.old.report.faults + 1 }
        ensures capacity { vec_capacity self.new.report.faults ≡ vec_capacity self.old.report.faults }
    {
        if let Some(fault) = fault {
            self.note(place, fault, Fault::Owner(owner));
        }
    }

    // Adds the faults of a session of the stations, one after the other.
    pub(crate) fn note_all(&mut self, place: usize, faults: &[SessionFault])
        requires room { vec_len self.old.report.faults + length faults.now ≤ vec_capacity self.old.report.faults }
        ensures shows { (limit : ℕ) (t : Tally) → Shows limit t self.old → Shows limit (with_faults t place faults.now) self.new }
        ensures len { vec_len self.new.report.faults ≡ vec_len self.old.report.faults + length faults.now }
        ensures capacity { vec_capacity self.new.report.faults ≡ vec_capacity self.old.report.faults }
    {
        for fault in faults {
            self.note(place, *fault, part_of_stations(fault));
        }
    }
}
