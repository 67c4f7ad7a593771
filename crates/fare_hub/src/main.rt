//! The program of the fare hub. `replay` reads a trace from standard input and writes the replies to its lines
//! to standard output; `serve` takes a scheme from there or from a file, or the one that is kept, collects what its stations
//! send over sockets into stores in files, and serves the owners; `close`, `bill`, `settle`, `stand`, `retire` and `forget`
//! work on these, and `scheme` prints the kept one. What it promises is the contract of `fare_run::carry_out`, for the words
//! after its name, standard input and standard output.
//!
//! Its status is 0 where the job was done or help was asked for, 1 with one line on standard error where the
//! job failed, and 2 with a text on standard error where the words were refused.
#![tactic(auto)]

ghost use Rattle.std.specs.Prelude.{◌≡◌, IfErr, OnOk};
ghost use Rattle.std.specs.Process.{exit_status};
ghost use Rattle.fare_run.specs.Failures.{status_of};
ghost use Rattle.fare_run.specs.Runs.{IsBefore};

use fare_run::{Failure, carry_out, tell};
use std::alloc::Global;
use std::net::{Net, TcpListener, TcpStream};
use std::process::ExitCode;
use std::sync::Wait;
use std::thread::Threads;
use std::time::Clock;
use std::{env, io};

/// Why the system did not give the words.
fn without_words(alloc: Global, error: &io::Error) -> Failure
    ensures { IsBefore result }
{
    if error.kind() != io::ErrorKind::InvalidData {
        return Failure::Memory;
    }
    match String::from_str(alloc, "error: a word is not UTF-8\n") {
        Ok(text) => Failure::Refused(text),
        Err(_) => Failure::Memory,
    }
}

/// Does what the program was started for.
fn start<
    R: Net<Listener = TcpListener, Stream = TcpStream> + Threads + Wait + Clock + Eprint + Sync,
>(rt: &HostRuntime, handles: &R) -> Result<(), Failure> {
    let alloc = rt.alloc();
    let args = env::args(rt).map_err(|error| without_words(alloc, &error))?;
    let args = args
        .collect::<Vec<String>>(alloc)
        .map_err(|_| Failure::Memory)?;
    let mut words: Vec<&str> = Vec::new(alloc);
    for arg in args.iter().skip(1) {
        words.push(arg.as_str()).map_err(|_| Failure::Memory)?;
    }
    carry_out(rt, handles, &words, &mut rt.reader(), &mut io::writer(rt))
}

/// How the program ends: with status 0 where it did what it was started for, else with a line on standard error and the
/// status that the failure has.
fn end(rt: &HostRuntime, ended: Result<(), Failure>) -> ExitCode
    ensures done { OnOk ended (exit_status result ≡ 0) }
    ensures failed { IfErr ended (λ failure. exit_status result ≡ status_of failure) }
{
    match ended {
        Ok(()) => ExitCode::SUCCESS,
        Err(failure) => {
            tell(rt, &failure);
            ExitCode::from(failure.status())
        }
    }
}

fn main(rt: HostRuntime) -> ExitCode {
    end(&rt, start(&rt, &rt))
}
