//! The registry in the file of an outbox, over a connection of its own that is closed again: what is opened afterwards is a
//! database that shows what was committed.
ghost use Rattle.std.specs.Prelude.{◌≡◌, Some, None, IfOk, IfSome};
ghost use Rattle.fare_day.specs.Clock.{HasRule};

use crate::running::scheme_of_run;
use fare_databases::{Absent, close_file, connect_file};
use fare_keeping::KeepFault;
use fare_trace::ZonedScheme;
use sqlite_disk::Unknown;
use std::fs;

/// The scheme that a run over the stores at a path is over, with the rule by which its clock goes, as `scheme_of_run` says of the
/// outbox's file. A file that isn't there is made, or refused; where no scheme is given nothing is kept there, and none is made.
///
/// `Memory` and `Store` also where there is no connection, as `fare_databases::connect_file` says; else the faults of
/// `scheme_of_run`.
pub fn scheme_in_file(
    rt: &HostRuntime,
    path: &str,
    absent: Absent,
    given: Option<ZonedScheme>,
) -> Result<Option<ZonedScheme>, KeepFault>
    ensures given { IfOk result (λ found. IfSome given (λ zoned. found ≡ Some zoned)) }
    ensures rule { given ≡ None → IfOk result (λ found. IfSome found (λ kept. HasRule kept.scheme.zone kept.zone)) }
{
    if given.is_none() && !fs::exists(rt, path).unwrap_or(true) {
        return Ok(None);
    }
    let mut database = connect_file(rt, path, absent, Unknown)?;
    let taken = scheme_of_run(rt.alloc(), &mut database, given);
    close_file(database);
    taken
}
