//! What standard error gets of lines; what is refused, replaced or broken is counted with it. No contract speaks of either.
use crate::seen::Seen;
use fare_net::HelloFault;
use fare_record::StationId;
use fare_session::SessionFault;

// A guest is no station's.
pub(crate) fn tell_refused<R: Eprint>(rt: &R, fault: HelloFault, seen: &mut Seen) {
    seen.refused.add(fault);
    let _ = eprintln!(rt; "line refused: {fault}");
}

// A guest did not greet in time, or all stations had a line before it did.
pub(crate) fn tell_unheard<R: Eprint>(rt: &R, seen: &mut Seen) {
    seen.refused.add_no_greeting();
    let _ = eprintln!(rt; "line refused: no greeting in time");
}

// A line came for a station that has one.
pub(crate) fn tell_second<R: Eprint>(rt: &R, station: StationId, seen: &mut Seen) {
    seen.refused.add_second();
    let number = station.get();
    let _ = eprintln!(rt; "station {number}: line refused: it has one");
}

// A line came in place of one that was over.
pub(crate) fn tell_replaced<R: Eprint>(rt: &R, station: StationId, seen: &mut Seen) {
    seen.note_replaced();
    let number = station.get();
    let _ = eprintln!(rt; "station {number}: line replaced: it was over");
}

// A line came in place of an older one.
pub(crate) fn tell_newer<R: Eprint>(rt: &R, station: StationId, seen: &mut Seen) {
    seen.note_replaced();
    let number = station.get();
    let _ = eprintln!(rt; "station {number}: line replaced: a newer one came");
}

// A line came for a station that had none in the round before.
pub(crate) fn tell_came<R: Eprint>(rt: &R, station: StationId) {
    let number = station.get();
    let _ = eprintln!(rt; "station {number}: a line came");
}

// No line came for a station.
pub(crate) fn tell_absent<R: Eprint>(rt: &R, station: StationId) {
    let number = station.get();
    let _ = eprintln!(rt; "station {number}: no line came");
}

// A station's line is at its end.
pub(crate) fn tell_ended<R: Eprint>(rt: &R, station: StationId) {
    let number = station.get();
    let _ = eprintln!(rt; "station {number}: line ended");
}

// A station's line broke.
pub(crate) fn tell_broken<R: Eprint>(
    rt: &R,
    station: StationId,
    fault: &SessionFault,
    seen: &mut Seen,
) {
    seen.broken.add(fault);
    let number = station.get();
    let _ = eprintln!(rt; "station {number}: line broken: {fault}");
}
