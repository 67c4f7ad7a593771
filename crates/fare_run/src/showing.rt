ghost use Rattle.std.specs.Prelude.{OnOk, IfErr};
ghost use Rattle.std.specs.Io.KnownBytes.{Appends};
ghost use Rattle.fare_setup.specs.ReadAgain.{setup_text_of};
ghost use Rattle.fare_run.specs.Showing.{IsUnwritten, ShowsNone, ShowsScheme};

use crate::serve_failure::ServeFailure;
use fare_databases::Absent;
use fare_lines::ZoneText;
use fare_registry::scheme_in_file;
use fare_scheme::Scheme;
use fare_setup::{print_setup, setup_lines};
use std::alloc::Global;
use std::io::Write;

/// Writes a scheme whose clock goes by a rule, as the lines that make it. `Memory` where there was none, and then nothing was
/// written; `Write` where the writer failed, and how much it took is not said.
pub fn write_scheme<O: Write>(
    alloc: Global,
    scheme: &Scheme,
    zone: &ZoneText,
    output: &mut O,
) -> Result<(), ServeFailure>
    ensures written { OnOk result (Appends (O.contents output.old) (O.contents output.new) (setup_text_of scheme.now zone.now)) }
    ensures fails { IfErr result (IsUnwritten (O.contents output.old) (O.contents output.new)) }
{
    let lines = setup_lines(alloc, scheme, zone)?;
    let mut text = Vec::new(alloc);
    print_setup(&lines, &mut text)?;
    if output.write_all(&text).is_err() || output.flush().is_err() {
        return Err(ServeFailure::Write);
    }
    Ok(())
}

/// Writes the scheme that is kept beside the outbox in a file at a path, as the lines that make it. Nothing is made.
///
/// `NoScheme` where nothing is kept or there is no file; `Kept` where what is kept tells no scheme; `Memory` where there was
/// none, and `Store` where the database could not be opened or failed: nothing is written then. `Write` where the writer failed.
pub fn show_scheme<O: Write>(
    rt: &HostRuntime,
    path: &str,
    output: &mut O,
) -> Result<(), ServeFailure>
    ensures done { OnOk result (ShowsScheme (O.contents output.old) (O.contents output.new)) }
    ensures fails { IfErr result (ShowsNone (O.contents output.old) (O.contents output.new)) }
{
    let Some(kept) = scheme_in_file(rt, path, Absent::Refused, None)? else {
        return Err(ServeFailure::NoScheme);
    };
    write_scheme(rt.alloc(), &kept.scheme, &kept.zone, output)
}
