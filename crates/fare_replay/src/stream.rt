ghost use Rattle.std.specs.Prelude.{◌≡◌, ◌≢◌, ℕ, List, Err, OnOk, IfOk, IfErr, IfSome};
ghost use Rattle.fare_replay.specs.Replay.{IsReadOf, ReadsAll, ReadsLines, ReplayFails, Replays, FailsToRead, fault_of_parse, fault_of_run};

use fare_lines::{Line, ParseFault, parse};
use fare_trace::{RunFault, StoreKind, answer_text};
use std::alloc::Global;
use std::io::{ErrorKind, Read, Write};
use thiserror::Error;

/// The most bytes of a trace.
const MOST_BYTES: usize = 16_777_216;

/// The most reads: one for each byte, and one that finds the end.
const MOST_READS: u32 = 16_777_217;

/// Why a replay stopped.
#[derive(Clone, Copy, PartialEq, Eq, Debug, Error)]
pub enum ReplayFault {
    /// The reader failed, or gave more than 16,777,216 bytes, or had no end after 16,777,217 reads.
    #[error("read failed")]
    Read,
    /// The input is no trace: this is the number of its first bad line, counted from 1.
    #[error("bad line {line}")]
    BadLine { line: u64 },
    /// There was no memory.
    #[error("no memory")]
    Memory,
    /// A store failed.
    #[error("store failed")]
    Store,
    /// The writer failed. How much it took is not said.
    #[error("write failed")]
    Write,
}

/// The fault of an input that is no trace.
fn input_fault(fault: ParseFault) -> ReplayFault
    ensures { result ≡ fault_of_parse fault }
{
    match fault {
        ParseFault::BadLine { line } => ReplayFault::BadLine { line },
        ParseFault::Memory => ReplayFault::Memory,
    }
}

/// The fault of a replay whose run was not answered.
fn replay_fault(fault: RunFault) -> ReplayFault
    ensures { result ≡ fault_of_run fault }
{
    match fault {
        RunFault::Text(fault) => input_fault(fault),
        RunFault::Store => ReplayFault::Store,
    }
}

/// All bytes of a reader. An interrupted read is tried again.
fn read_all<R: Read>(alloc: Global, reader: &mut R) -> Result<Vec<u8>, ReplayFault>
    ensures { ReadsAll result (R.remaining reader.old) }
{
    let mut bytes = Vec::new(alloc);
    let mut buffer = [0; 4096];
    for _ in 0..MOST_READS {
        match reader.read(&mut buffer) {
            Ok(0) => return Ok(bytes),
            Ok(n) => {
                if n > MOST_BYTES - bytes.len() {
                    return Err(ReplayFault::Read);
                }
                if bytes.extend_from_slice(&buffer[..n]).is_err() {
                    return Err(ReplayFault::Memory);
                }
            }
            Err(error) => {
                if error.kind() != ErrorKind::Interrupted {
                    return Err(ReplayFault::Read);
                }
            }
        }
    }
    Err(ReplayFault::Read)
}

/// Reads the lines of a trace to its end. `Read` where the reader fails or has no end within 16,777,216 bytes and
/// 16,777,217 reads; `BadLine` with the first line that is none; `Memory` where there was none; never `Store` or
/// `Write`. Also of a reader whose bytes aren't known there are some of which this holds.
pub fn read_lines<R: Read>(alloc: Global, reader: &mut R) -> Result<Vec<Line>, ReplayFault>
    ensures lines { IfOk result (λ lines. IfSome (R.remaining reader.old) (ReadsLines lines.items)) }
    ensures fails { IfErr result (FailsToRead (R.remaining reader.old)) }
    ensures some { (input : List ℕ) × IsReadOf input result }
{
    let bytes = read_all(alloc, reader)?;
    parse(alloc, &bytes).map_err(input_fault)
}

/// Reads a trace to its end, runs it over stores of a kind, and then writes the replies to its lines.
fn replay_over<R: Read, W: Write>(
    alloc: Global,
    stores: StoreKind,
    reader: &mut R,
    writer: &mut W,
) -> Result<(), ReplayFault>
    ensures replays { OnOk result (IfSome (R.remaining reader.old) (Replays (W.contents writer.old) (W.contents writer.new))) }
    ensures fails { IfErr result (ReplayFails (R.remaining reader.old) (W.contents writer.old) (W.contents writer.new)) }
    ensures plain { stores ≡ StoreKind.Plain → result ≢ Err ReplayFault.Store }
{
    let bytes = read_all(alloc, reader)?;
    let text = match answer_text(alloc, stores, &bytes) {
        Ok(text) => text,
        Err(fault) => return Err(replay_fault(fault)),
    };
    if writer.write_all(&text).is_err() {
        return Err(ReplayFault::Write);
    }
    match writer.flush() {
        Ok(()) => Ok(()),
        Err(_) => Err(ReplayFault::Write),
    }
}

/// Reads a trace to its end, runs it over stores in lists, and then writes the replies to its lines. `Read` where
/// the reader fails or has no end within 16,777,216 bytes and 16,777,217 reads; `BadLine` with the first line that
/// is none; `Memory` where there was none; `Write` where the writer fails; never `Store`. But for `Write`, a fault
/// leaves the writer as it was.
pub fn replay<R: Read, W: Write>(
    alloc: Global,
    reader: &mut R,
    writer: &mut W,
) -> Result<(), ReplayFault>
    ensures replays { OnOk result (IfSome (R.remaining reader.old) (Replays (W.contents writer.old) (W.contents writer.new))) }
    ensures fails { IfErr result (ReplayFails (R.remaining reader.old) (W.contents writer.old) (W.contents writer.new)) }
    ensures stores { result ≢ Err ReplayFault.Store }
{
    replay_over(alloc, StoreKind::Plain, reader, writer)
}

/// The same over an outbox and a ledger for each owner in databases in memory. `Read` where the reader fails or
/// has no end within 16,777,216 bytes and 16,777,217 reads; `BadLine` with the first line that is none; `Memory`
/// where there was none; `Store` where a database failed, and no line is bad; `Write` where the writer fails. But
/// for `Write`, a fault leaves the writer as it was.
pub fn replay_sql<R: Read, W: Write>(
    alloc: Global,
    reader: &mut R,
    writer: &mut W,
) -> Result<(), ReplayFault>
    ensures replays { OnOk result (IfSome (R.remaining reader.old) (Replays (W.contents writer.old) (W.contents writer.new))) }
    ensures fails { IfErr result (ReplayFails (R.remaining reader.old) (W.contents writer.old) (W.contents writer.new)) }
{
    replay_over(alloc, StoreKind::Sql, reader, writer)
}
