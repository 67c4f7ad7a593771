ghost use Rattle.std.specs.Prelude.{◌≡◌, ◌++◌, is_none, is_some, string_bytes, List, ℕ, IfOk, OnOk, IfErr};
ghost use Rattle.std.specs.Io.KnownBytes.{Appends};
ghost use Rattle.fare_sessions.specs.Stores.{HasLedgers};
ghost use Rattle.fare_run.specs.Serving.{ArePorts, FailsOver, IsUnheard, IsUntold, LeavesStores, ServesOver, answering_line, listening_line, pauses_of};
ghost use Rattle.fare_run.specs.declared.serve_failure.ServeFailure.TheVariants.{Network};

use crate::serve_failure::ServeFailure;
use fare_page::Callers;
use fare_serve::{Limits, Pause, Rest, serve_rounds};
use fare_sessions::Hub;
use fare_store::{Ledger, Outbox};
use std::alloc::{AllocError, Global};
use std::io::Write;
use std::net::{Ipv4Addr, Net, TcpListener, TcpStream};
use std::sync::Wait;
use std::thread::Threads;
use std::time::Clock;

// A listener on a port of this machine alone, which doesn't block, and its port.
fn listen<R: Net<Listener = TcpListener, Stream = TcpStream>>(
    handles: &R,
    port: u16,
) -> Result<(TcpListener, u16), ServeFailure>
    ensures { IfErr result (λ failure. failure ≡ Network) }
{
    let Ok(listener) = TcpListener::bind(handles, (Ipv4Addr::LOCALHOST, port)) else {
        return Err(ServeFailure::Network);
    };
    let Ok(address) = listener.local_addr() else {
        return Err(ServeFailure::Network);
    };
    if listener.set_nonblocking(true).is_err() {
        return Err(ServeFailure::Network);
    }
    Ok((listener, address.port()))
}

// The text that says which port is listened on, and that an operator is answered at another one.
fn both_text(alloc: Global, port: u16, answering: u16) -> Result<String, AllocError>
    ensures { IfOk result (λ text. string_bytes text ≡ listening_line port ++ answering_line answering) }
{
    let mut text = format!(in alloc; "listening {port}\n")?;
    let more = format!(in alloc; "answering {answering}\n")?;
    text.push_str(&more)?;
    Ok(text)
}

// The text that says which port is listened on, and at which one an operator is answered.
fn ports_text(alloc: Global, port: u16, answering: Option<u16>) -> Result<String, AllocError>
    ensures { IfOk result (λ text. ArePorts (is_some answering) (string_bytes text)) }
{
    match answering {
        Some(answering) => both_text(alloc, port, answering),
        None => format!(in alloc; "listening {port}\n"),
    }
}

// Says which port is listened on, and at which one an operator is answered.
fn announce<O: Write>(
    rt: &HostRuntime,
    port: u16,
    answering: Option<u16>,
    output: &mut O,
) -> Result<(), ServeFailure>
    ensures told { OnOk result ((ports : List ℕ) × ArePorts (is_some answering) ports × Appends (O.contents output.old) (O.contents output.new) ports) }
    ensures fails { IfErr result (IsUntold (O.contents output.old) (O.contents output.new)) }
{
    let text = ports_text(rt.alloc(), port, answering)?;
    if output.write_all(text.as_bytes()).is_err() || output.flush().is_err() {
        return Err(ServeFailure::Write);
    }
    Ok(())
}

// Listens on a port of 127.0.0.1, says so and at which port an operator is answered, and serves, with these pauses.
fn serve_with<
    Ob: Outbox + Send,
    L: Ledger + Send,
    P: Pause<Ob, L>,
    O: Write,
    R: Net<Listener = TcpListener, Stream = TcpStream> + Threads + Wait + Clock + Eprint + Sync,
>(
    rt: &HostRuntime,
    handles: &R,
    port: u16,
    answering: Option<u16>,
    hub: &mut Hub<Ob, L>,
    limits: Limits,
    until: Option<&str>,
    pauses: &mut P,
    output: &mut O,
) -> Result<(), ServeFailure>
    requires owners { HasLedgers hub.old }
    ensures served { OnOk result (ServesOver P.does Ob.standing L.standing hub.old hub.new limits.rounds (is_none until.entry) (is_some answering) (O.contents output.old) (O.contents output.new)) }
    ensures fails { IfErr result (FailsOver (is_some answering) (O.contents output.old) (O.contents output.new)) }
    ensures stores { IfErr result (LeavesStores P.does Ob.standing L.standing hub.old hub.new) }
{
    let (listener, port) = listen(handles, port)?;
    announce(rt, port, answering, output)?;
    serve_rounds(rt, handles, &listener, hub, limits, until, pauses, output)?;
    Ok(())
}

// Those who ask at a port of 127.0.0.1, and which it is.
fn callers_at<R: Net<Listener = TcpListener, Stream = TcpStream>>(
    rt: &HostRuntime,
    handles: &R,
    port: u16,
) -> Result<(Callers, u16), ServeFailure>
    ensures { IfErr result IsUnheard }
{
    let (listener, port) = listen(handles, port)?;
    Ok((Callers::new(rt.alloc(), listener)?, port))
}

/// Listens on a port of 127.0.0.1, writes `listening PORT`, serves the stations of a hub's scheme over its stores in
/// rounds, as `fare_serve::serve_rounds` says, and writes the counts. Where another port is named, an operator is answered
/// there over HTTP between two rounds, as `fare_page::Callers` says, and `answering PORT` is written behind the first line.
///
/// `Network` where a port can't be listened on, that of the operator first, and nothing was written then; `Memory` where
/// there is none for those who ask, and nothing was written; else the failures of `fare_serve::serve_rounds`, of which only
/// `Write` may come where a count was written. The stores then hold what the sessions, and the answers between two rounds,
/// up to the failure made of them.
pub fn serve_over<
    Ob: Outbox + Send,
    L: Ledger + Send,
    O: Write,
    R: Net<Listener = TcpListener, Stream = TcpStream> + Threads + Wait + Clock + Eprint + Sync,
>(
    rt: &HostRuntime,
    handles: &R,
    port: u16,
    ask: Option<u16>,
    hub: &mut Hub<Ob, L>,
    limits: Limits,
    until: Option<&str>,
    output: &mut O,
) -> Result<(), ServeFailure>
    requires owners { HasLedgers hub.old }
    ensures served { OnOk result (ServesOver (pauses_of Ob.standing L.standing (is_some ask)) Ob.standing L.standing hub.old hub.new limits.rounds (is_none until.entry) (is_some ask) (O.contents output.old) (O.contents output.new)) }
    ensures fails { IfErr result (FailsOver (is_some ask) (O.contents output.old) (O.contents output.new)) }
    ensures stores { IfErr result (LeavesStores (pauses_of Ob.standing L.standing (is_some ask)) Ob.standing L.standing hub.old hub.new) }
{
    let Some(ask) = ask else {
        return serve_with(
            rt, handles, port, None, hub, limits, until, &mut Rest, output,
        );
    };
    let (mut callers, answering) = callers_at(rt, handles, ask)?;
    let answering = Some(answering);
    serve_with(
        rt,
        handles,
        port,
        answering,
        hub,
        limits,
        until,
        &mut callers,
        output,
    )
}
