ghost use Rattle.std.specs.Prelude.{◌≡◌, ◌≢◌, None, map, OnOk, IfOk, IfErr, IfSome};
ghost use Rattle.std.specs.Io.KnownBytes.{Appends};
ghost use Rattle.fare_command.specs.Jobs.{FailsOn};
ghost use Rattle.fare_run.specs.Runs.{AsksFor, AsksForFiles, IsBefore, LeavesJob, LeavesIt, RunEnds, RunFails, job_of};

use crate::failure::Failure;
use crate::left::{AskOptions, Left, ServeOptions};
use crate::replaying::replay_over;
use fare_command::{Job, WordsFault, read_words};
use fare_serve::Limits;
use std::alloc::Global;
use std::io;
use std::io::{Read, Write};

/// Writes a text to its end.
fn write_text<O: Write>(output: &mut O, text: &str) -> io::Result<()>
    ensures { OnOk result (Appends (O.contents output.old) (O.contents output.new) text.now) }
{
    output.write_all(text.as_bytes())?;
    output.flush()
}

// A job, by what is done of it here.
enum Work<'a> {
    // A replay, over tables or over lists.
    Replay { sql: bool },
    // Of stores in files: it is left to do.
    Left(Left<'a>),
}

// The work that the words ask for. Each fault comes as `read_words` says.
fn read_work<'a>(alloc: Global, words: &'a [&'a str]) -> Result<Work<'a>, WordsFault>
    ensures work { IfOk result (λ work. AsksFor (map (λ word. word.now) words.now) (job_of work)) }
    ensures fault { IfErr result (FailsOn (map (λ word. word.now) words.now)) }
{
    match read_words(alloc, words)? {
        Job::Replay { sql } => Ok(Work::Replay { sql }),
        Job::Serve {
            port,
            turns,
            path,
            scheme,
            read_millis,
            write_millis,
            rounds,
            until,
            patience,
            round_millis,
            ask,
        } => Ok(Work::Left(Left::Serve(ServeOptions {
            port,
            path,
            scheme,
            limits: Limits {
                turns,
                read_millis,
                write_millis,
                rounds,
                patience,
                round_millis,
            },
            until,
            ask,
        }))),
        Job::Ask {
            path,
            scheme,
            question,
        } => Ok(Work::Left(Left::Ask(AskOptions {
            path,
            scheme,
            question,
        }))),
        Job::Scheme { path } => Ok(Work::Left(Left::Scheme { path })),
    }
}

/// Does what the words after the program's name ask for: replays what the reader gives to the writer, or shows
/// the help or the version on the writer. Where they ask for stores in files, answers what is left to do, with `serve`, `ask`
/// or `show_scheme`.
///
/// `Refused` where the words are no job, and `Memory` where there is none for the words; nothing was read or written
/// then, nor where something is left to do. `Replay` where a replay was asked for and stopped, and `Write` where a text
/// could not be shown.
pub fn run<'a, I: Read, O: Write>(
    alloc: Global,
    words: &'a [&'a str],
    input: &mut I,
    output: &mut O,
) -> Result<Option<Left<'a>>, Failure>
    ensures done { IfOk result (λ left. left ≡ None → RunEnds (map (λ word. word.now) words.now) (I.remaining input.old) (O.contents output.old) (O.contents output.new)) }
    ensures left { IfOk result (λ left. IfSome left (LeavesJob (map (λ word. word.now) words.now))) }
    ensures failure { IfErr result (RunFails (map (λ word. word.now) words.now) (I.remaining input.old) (O.contents output.old) (O.contents output.new)) }
    ensures untouched { IfErr result (λ failure. IsBefore failure → (input.new ≡ input.old) × (output.new ≡ output.old)) }
    ensures waits { IfOk result (λ left. left ≢ None → (input.new ≡ input.old) × (output.new ≡ output.old)) }
    ensures files { AsksForFiles (map (λ word. word.now) words.now) → LeavesIt result }
{
    match read_work(alloc, words) {
        Ok(Work::Replay { sql }) => match replay_over(alloc, sql, input, output) {
            Ok(()) => Ok(None),
            Err(fault) => Err(Failure::Replay(fault)),
        },
        Ok(Work::Left(left)) => Ok(Some(left)),
        Err(WordsFault::Asked(text)) => match write_text(output, &text) {
            Ok(()) => Ok(None),
            Err(_) => Err(Failure::Write),
        },
        Err(WordsFault::Refused(text)) => Err(Failure::Refused(text)),
        Err(WordsFault::Memory) => Err(Failure::Memory),
    }
}
