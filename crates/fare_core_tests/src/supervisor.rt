use crate::checking::same;
use fare_record::{OwnerId, StationId};
use fare_supervisor::{Action, Fault, Supervisor};

#[test]
fn restarts_until_the_limit(rt: HostRuntime) {
    let (station, owner) = (StationId::new(1).unwrap(), OwnerId::new(1).unwrap());
    let mut supervisor = Supervisor::new(2);
    let cases = [
        (Fault::Station(station), Action::RestartStation(station)),
        (Fault::Owner(owner), Action::RestartOwner(owner)),
        (Fault::Writer, Action::GiveUp),
        (Fault::Writer, Action::GiveUp),
    ];
    for (fault, action) in cases {
        same(&rt, &supervisor.on(fault), &action);
    }
}

#[test]
fn restarts_the_hub_for_its_writer_and_outbox(rt: HostRuntime) {
    let mut supervisor = Supervisor::new(2);
    const CASES: [(Fault, Action); 3] = [
        (Fault::Writer, Action::RestartHub),
        (Fault::Outbox, Action::RestartHub),
        (Fault::Outbox, Action::GiveUp),
    ];
    for &(fault, action) in &CASES {
        same(&rt, &supervisor.on(fault), &action);
    }
}

#[test]
fn gives_up_at_once_where_the_limit_is_zero(rt: HostRuntime) {
    same(&rt, &Supervisor::new(0).on(Fault::Writer), &Action::GiveUp);
}
