ghost use Rattle.std.specs.Prelude.{◌≡◌, ◌⊎◌, map, Err, IfErr};
ghost use Rattle.fare_run.specs.Carrying.{CarriesOut, DoesLeft, DoesOnFiles};
ghost use Rattle.fare_run.specs.Runs.{AsksForFiles, IsBefore};
ghost use Rattle.fare_run.specs.declared.failure.Failure.TheVariants.{Memory};

use crate::ask_job::ask;
use crate::failure::Failure;
use crate::left::Left;
use crate::running::run;
use crate::serve_job::serve;
use crate::showing::show_scheme;
use std::io::{Read, Write};
use std::net::{Net, TcpListener, TcpStream};
use std::sync::Wait;
use std::thread::Threads;
use std::time::Clock;

// Does what `run` left to do, on stores in files.
fn do_left<
    I: Read,
    O: Write,
    R: Net<Listener = TcpListener, Stream = TcpStream> + Threads + Wait + Clock + Eprint + Sync,
>(
    rt: &HostRuntime,
    handles: &R,
    left: &Left<'_>,
    input: &mut I,
    output: &mut O,
) -> Result<(), Failure>
    ensures { DoesLeft left.now (I.remaining input.old) (O.contents output.old) (O.contents output.new) result }
{
    match left {
        Left::Serve(options) => serve(rt, handles, options, input, output).map_err(Failure::Serve),
        Left::Ask(options) => ask(rt, options, input, output).map_err(Failure::Ask),
        Left::Scheme { path } => show_scheme(rt, path, output).map_err(Failure::Scheme),
    }
}

/// Does what the words after the program's name ask for, to its end: a replay, a text that is shown, serving, a question
/// or an order, or the kept scheme.
///
/// `Refused`, `Memory`, `Replay` and `Write` as `run` says, and nothing was read or written at the first two; `Serve`,
/// `Ask` and `Scheme` where the words ask for such a job, as `serve`, `ask` and `show_scheme` say.
pub fn carry_out<
    I: Read,
    O: Write,
    R: Net<Listener = TcpListener, Stream = TcpStream> + Threads + Wait + Clock + Eprint + Sync,
>(
    rt: &HostRuntime,
    handles: &R,
    words: &[&str],
    input: &mut I,
    output: &mut O,
) -> Result<(), Failure>
    ensures carries { CarriesOut (map (λ word. word.now) words.now) (I.remaining input.old) (O.contents output.old) (O.contents output.new) result }
    ensures untouched { IfErr result (λ failure. IsBefore failure → (input.new ≡ input.old) × (output.new ≡ output.old)) }
    ensures files { AsksForFiles (map (λ word. word.now) words.now) → (result ≡ Err Memory) ⊎ DoesOnFiles (map (λ word. word.now) words.now) (I.remaining input.old) (O.contents output.old) (O.contents output.new) result }
{
    match run(rt.alloc(), words, input, output)? {
        None => Ok(()),
        Some(left) => do_left(rt, handles, &left, input, output),
    }
}
