ghost use Rattle.std.specs.Prelude.{◌≡◌, ℕ, List, is_none, is_some, length, OnOk, IfOk, IfErr, IfSome};
ghost use Rattle.fare_run.specs.Databases.{ServesIn};
ghost use Rattle.fare_run.specs.Scheming.{IsFile, given_by};
ghost use Rattle.fare_run.specs.Serving.{FailsOver, IsServedOf, ServeEnds, ServeFails, WritesCounts};
ghost use Rattle.fare_run.specs.Stores.{IsOfStores};

use crate::left::ServeOptions;
use crate::scheming::take_scheme;
use crate::serve_failure::ServeFailure;
use crate::serving::serve_over;
use fare_databases::{
    Absent, Databases, FileDatabases, close_files, close_hub, connect_files, open_hub,
};
use fare_scheme::Scheme;
use sqlite::Alter;
use std::io::{Read, Write};
use std::net::{Net, TcpListener, TcpStream};
use std::sync::Wait;
use std::thread::Threads;
use std::time::Clock;

// The databases of a scheme's stores in files at a path.
pub(crate) fn databases_at(
    rt: &HostRuntime,
    scheme: &Scheme,
    path: &str,
    absent: Absent,
) -> Result<FileDatabases, ServeFailure>
    ensures owners { IfOk result (λ databases. length databases.ledgers.items ≡ length scheme.now.owners) }
    ensures fails { IfErr result IsOfStores }
{
    Ok(connect_files(rt, scheme, path, absent)?)
}

/// Opens the stores of a scheme in these databases, serves the scheme's stations over them, as `serve_over` says, and hands
/// the databases back. Where the stores agree with lists of taps of which all frames are that came, they agree with them
/// afterwards, however it ended: so after any number of runs, each over what the one before it left.
///
/// `Memory` or `Store` where the stores can't be opened, and nothing was written then; else the failures of `serve_over`.
pub fn serve_databases<
    S: Alter + Drop + Send,
    O: Write,
    R: Net<Listener = TcpListener, Stream = TcpStream> + Threads + Wait + Clock + Eprint + Sync,
>(
    rt: &HostRuntime,
    handles: &R,
    scheme: Scheme,
    databases: Databases<S>,
    options: &ServeOptions<'_>,
    output: &mut O,
) -> (Databases<S>, Result<(), ServeFailure>)
    requires owners { length databases.ledgers.items ≡ length scheme.owners }
    ensures served { OnOk result.1 (WritesCounts scheme (is_some options.now.ask) (O.contents output.old) (O.contents output.new)) }
    ensures fails { IfErr result.1 (FailsOver (is_some options.now.ask) (O.contents output.old) (O.contents output.new)) }
    ensures runs { ServesIn S.Store scheme options.now.limits.rounds (is_none options.now.until) (is_some options.now.ask) databases result.0 (O.contents output.old) (O.contents output.new) result.1 }
{
    match open_hub(rt.alloc(), scheme, databases) {
        Ok(mut opened) => {
            let served = serve_over(
                rt,
                handles,
                options.port,
                options.ask,
                &mut opened.hub,
                options.limits,
                options.until,
                output,
            );
            (close_hub(opened), served)
        }
        Err((databases, fault)) => (databases, Err(ServeFailure::from(fault))),
    }
}

/// Serves the stations of a scheme over the stores in files at a path, in rounds of one session of the stations and one of each
/// owner. The scheme is the one for which lines are given, in a file or on the input, as the options say; it is kept beside the
/// outbox from then on, where it adds to the kept one. Where none are given it is the kept one. Writes `listening PORT` before it
/// waits for the first line, and behind it `answering PORT` where the options name a port at which an operator is answered; and
/// the counts of all rounds at the end.
///
/// Each failure of `ServeFailure` in its order; none but one of the writer comes where a count was written. Where a file is
/// named the input is left as it is, and what is said of the input's bytes holds of some bytes: a file's aren't known, nor are
/// those of what is kept.
pub fn serve<
    I: Read,
    O: Write,
    R: Net<Listener = TcpListener, Stream = TcpStream> + Threads + Wait + Clock + Eprint + Sync,
>(
    rt: &HostRuntime,
    handles: &R,
    options: &ServeOptions<'_>,
    input: &mut I,
    output: &mut O,
) -> Result<(), ServeFailure>
    ensures done { OnOk result (IfSome (given_by options.now.scheme (I.remaining input.old)) (ServeEnds (is_some options.now.ask) (O.contents output.old) (O.contents output.new))) }
    ensures fails { IfErr result (ServeFails (is_some options.now.ask) (given_by options.now.scheme (I.remaining input.old)) (O.contents output.old) (O.contents output.new)) }
    ensures some { (bytes : List ℕ) × IsServedOf (is_some options.now.ask) (O.contents output.old) (O.contents output.new) options.now.scheme bytes result }
    ensures untouched { IsFile options.now.scheme → input.new ≡ input.old }
{
    let scheme = take_scheme(rt, options.scheme, options.path, Absent::Made, input)?;
    let databases = databases_at(rt, &scheme, options.path, Absent::Made)?;
    let (databases, served) = serve_databases(rt, handles, scheme, databases, options, output);
    close_files(databases);
    served
}
