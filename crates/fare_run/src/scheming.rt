ghost use Rattle.std.specs.Prelude.{◌≡◌, ◌≢◌, ℕ, List, [], IfOk, IfErr, IfSome};
ghost use Rattle.fare_run.specs.Scheming.{GivesNone, IsFile, IsGiven, IsGivenOf, IsSchemeOf, IsTakenOf, MakesNoScheme, SpellsScheme, given_by};

use crate::serve_failure::ServeFailure;
use fare_command::SchemeSource;
use fare_databases::Absent;
use fare_registry::scheme_in_file;
use fare_replay::{ReplayFault, read_lines};
use fare_scheme::Scheme;
use fare_trace::{ZonedScheme, zoned_scheme_of};
use std::alloc::Global;
use std::fs::File;
use std::io::Read;

/// The scheme that the lines of an input make, all of which is read, with the rule by which its clock goes. `Lines` where it
/// can't be read or is no trace; `Refused` where a line is refused before the scheme is sealed; `NoScheme` where an event or
/// the end comes first; `Memory` where a line got none. Where nothing is known of the input's bytes, there are some of which
/// this is so.
pub fn read_scheme<I: Read>(alloc: Global, input: &mut I) -> Result<ZonedScheme, ServeFailure>
    ensures made { IfOk result (λ made. IfSome (I.remaining input.old) (SpellsScheme made.scheme)) }
    ensures fails { IfErr result (MakesNoScheme (I.remaining input.old)) }
    ensures some { (bytes : List ℕ) × IsSchemeOf bytes result }
{
    let lines = read_lines(alloc, input)?;
    Ok(zoned_scheme_of(alloc, &lines)?)
}

// The scheme that the lines of an input make, if it isn't empty; all of it is read. The failures are those of `read_scheme`.
fn read_if_given<I: Read>(alloc: Global, input: &mut I) -> Result<Option<ZonedScheme>, ServeFailure>
    ensures made { IfOk result (λ given. IfSome (I.remaining input.old) (λ bytes. bytes ≢ [] → IsGiven given bytes)) }
    ensures fails { IfErr result (MakesNoScheme (I.remaining input.old)) }
    ensures some { (bytes : List ℕ) × IsGivenOf SchemeSource.Unsaid bytes result }
{
    let lines = read_lines(alloc, input)?;
    if lines.is_empty() {
        return Ok(None);
    }
    Ok(Some(zoned_scheme_of(alloc, &lines)?))
}

// The scheme that the lines of a file make, of which the bytes aren't known. `Lines` also where it can't be opened; else the
// failures of `read_scheme`.
fn read_file(rt: &HostRuntime, path: &str) -> Result<ZonedScheme, ServeFailure>
    ensures some { (bytes : List ℕ) × IsSchemeOf bytes result }
{
    match File::open(rt, path) {
        Ok(mut file) => read_scheme(rt.alloc(), &mut file),
        Err(_) => Err(ServeFailure::Lines(ReplayFault::Read)),
    }
}

// The scheme for which lines are given: those of the file or of the input from which it is to come; none where the input is
// empty, if it needn't come from there. The input is left as it is where a file is named. The failures are those of
// `read_scheme`, `Lines` also where the file can't be opened.
fn given_scheme<I: Read>(
    rt: &HostRuntime,
    source: SchemeSource<'_>,
    input: &mut I,
) -> Result<Option<ZonedScheme>, ServeFailure>
    ensures made { IfOk result (λ given. IfSome (given_by source.entry (I.remaining input.old)) (IsGiven given)) }
    ensures fails { IfErr result (MakesNoScheme (given_by source.entry (I.remaining input.old))) }
    ensures some { (bytes : List ℕ) × IsGivenOf source.entry bytes result }
    ensures untouched { IsFile source.entry → input.new ≡ input.old }
{
    match source {
        SchemeSource::File(path) => Ok(Some(read_file(rt, path)?)),
        SchemeSource::Input => Ok(Some(read_scheme(rt.alloc(), input)?)),
        SchemeSource::Unsaid => read_if_given(rt.alloc(), input),
    }
}

// The scheme that a run over the stores at a path is over: the one for which lines are given, which is kept beside the outbox
// from then on; where none are given, the one that is kept there. The failures of the lines come first, as `read_scheme` says,
// `Lines` also where a file can't be opened; then `Kept`, `Memory` and `Store`, as `fare_registry::scheme_in_file` says;
// `NoScheme` also where nothing is given and nothing kept.
pub(crate) fn take_scheme<I: Read>(
    rt: &HostRuntime,
    source: SchemeSource<'_>,
    path: &str,
    absent: Absent,
    input: &mut I,
) -> Result<Scheme, ServeFailure>
    ensures made { IfOk result (λ scheme. IfSome (given_by source.entry (I.remaining input.old)) (SpellsScheme scheme)) }
    ensures fails { IfErr result (GivesNone (given_by source.entry (I.remaining input.old))) }
    ensures some { (bytes : List ℕ) × IsTakenOf source.entry bytes result }
    ensures untouched { IsFile source.entry → input.new ≡ input.old }
{
    let given = given_scheme(rt, source, input)?;
    match scheme_in_file(rt, path, absent, given)? {
        Some(taken) => Ok(taken.scheme),
        None => Err(ServeFailure::NoScheme),
    }
}
