ghost use Rattle.std.specs.Prelude.{◌≡◌, ℕ, List, Some, length, IfErr, IfSome, IsErrAnd, OnOk};
ghost use Rattle.fare_desk.specs.declared.fault.DeskFault.{DeskFault};
ghost use Rattle.fare_run.specs.Asking.{AskEnds, AskFails, FailsIn, IsAnswered, IsAskedOf, IsRefusedAs, refused_unasked};
ghost use Rattle.fare_run.specs.Databases.{AnswersIn, KeepsIn, Refuses};
ghost use Rattle.fare_run.specs.Scheming.{IsFile, given_by};

use crate::ask_failure::AskFailure;
use crate::asking::answer_over;
use crate::left::AskOptions;
use crate::scheming::take_scheme;
use crate::serve_failure::ServeFailure;
use crate::serve_job::databases_at;
use fare_command::Question;
use fare_databases::{Absent, Databases, close_files, close_hub, open_hub};
use fare_scheme::Scheme;
use sqlite::Alter;
use std::alloc::Global;
use std::io::{Read, Write};

/// Opens the stores of a scheme in these databases, answers a question of them, closes their days, retires a lane or lets
/// days go, as `answer_over` says, and hands the databases back. What the stores held they hold afterwards, whatever came of it.
///
/// `Stores` where the stores can't be opened, and nothing was written then; `Desk` as `answer_over` says, of what the
/// databases showed.
pub fn ask_databases<S: Alter + Drop, O: Write>(
    alloc: Global,
    scheme: Scheme,
    databases: Databases<S>,
    question: Question,
    output: &mut O,
) -> (Databases<S>, Result<(), AskFailure>)
    requires owners { length databases.ledgers.items ≡ length scheme.owners }
    ensures done { OnOk result.1 (IsAnswered scheme question (O.contents output.old) (O.contents output.new)) }
    ensures fails { IfErr result.1 (FailsIn question (O.contents output.old) (O.contents output.new)) }
    ensures answers { OnOk result.1 (AnswersIn S.Store scheme question databases result.0 (O.contents output.old) (O.contents output.new)) }
    ensures unasked { (why : DeskFault) → refused_unasked scheme question ≡ Some why → IsErrAnd result.1 (IsRefusedAs why) }
    ensures refuses { IfErr result.1 (Refuses S.Store scheme question databases result.0) }
    ensures keeps { KeepsIn S.Store scheme question databases result.0 }
{
    match open_hub(alloc, scheme, databases) {
        Ok(mut opened) => {
            let answered = answer_over(alloc, &mut opened.hub, question, output);
            let databases = close_hub(opened);
            match answered {
                Ok(()) => (databases, Ok(())),
                Err(fault) => (databases, Err(AskFailure::Desk(fault))),
            }
        }
        Err((databases, fault)) => (
            databases,
            Err(AskFailure::Stores(ServeFailure::from(fault))),
        ),
    }
}

/// Answers a question of the stores in files at a path, closes their days, retires a lane or lets days go. The scheme is the one
/// for which lines are given, in a file or on the input, as the options say; it is kept beside the outbox from then on, where it
/// adds to the kept one. Where none are given it is the kept one. A store's file that isn't there is not made.
///
/// `Stores` where the lines can't be read or make no scheme, where the scheme can't be kept, or where the stores can't be
/// opened: nothing is written then. `Desk` as `answer_over` says. Where a file is named the input is left as it is, and what is
/// said of the input's bytes holds of some bytes: a file's aren't known, nor are those of what is kept.
pub fn ask<I: Read, O: Write>(
    rt: &HostRuntime,
    options: &AskOptions<'_>,
    input: &mut I,
    output: &mut O,
) -> Result<(), AskFailure>
    ensures done { OnOk result (IfSome (given_by options.now.scheme (I.remaining input.old)) (AskEnds options.now.question (O.contents output.old) (O.contents output.new))) }
    ensures fails { IfErr result (AskFails options.now.question (given_by options.now.scheme (I.remaining input.old)) (O.contents output.old) (O.contents output.new)) }
    ensures some { (bytes : List ℕ) × IsAskedOf options.now.question (O.contents output.old) (O.contents output.new) options.now.scheme bytes result }
    ensures untouched { IsFile options.now.scheme → input.new ≡ input.old }
{
    let scheme = take_scheme(rt, options.scheme, options.path, Absent::Refused, input)?;
    let databases = databases_at(rt, &scheme, options.path, Absent::Refused)?;
    let (databases, answered) = ask_databases(
        rt.alloc(),
        scheme,
        databases,
        options.question,
        output,
    );
    close_files(databases);
    answered
}
