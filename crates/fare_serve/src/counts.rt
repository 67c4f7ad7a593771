ghost use Rattle.std.specs.Prelude.{◌≡◌, ◌≢◌, ◌<◌, ◌++◌, length, IfOk, IfErr, OnOk, string_bytes};
ghost use Rattle.std.specs.Io.KnownBytes.{Appends, Keeps};
ghost use Rattle.fare_serve.specs.Calls.{IsOutside};
ghost use Rattle.fare_serve.specs.Counting.{AddsOwner, AddsStations, AreNoCounts, counts_text, taken_line, taken_lines};

use crate::fault::ServeFault;
use fare_record::OwnerId;
use fare_scheme::Scheme;
use fare_sessions::SessionsReport;
use std::alloc::{AllocError, Global};
use std::io::Write;

/// How many items an owner's ledger took that it didn't hold yet.
#[derive(Clone, Copy, PartialEq, Eq, Debug)]
pub struct Taken {
    pub owner: OwnerId,
    pub count: u64,
}

/// What came of rounds of serving all stations and owners.
#[derive(Drop)]
pub struct Counts {
    /// How many items the outbox stored; it stays at 2^64 - 1.
    pub stored: u64,
    /// What each owner took, in the order of registration.
    pub taken: Vec<Taken>,
    /// How many items were left in hands and queues at the ends of sessions; it stays at 2^64 - 1. One that was left in a
    /// round and in the next one again is counted twice.
    pub left: u64,
}

impl Counts {
    // Those of no round.
    pub(crate) fn none(alloc: Global, scheme: &Scheme) -> Result<Counts, AllocError>
        ensures { IfOk result (AreNoCounts scheme.now) }
    {
        let mut taken = Vec::with_capacity(alloc, scheme.owner_count())?;
        for owner in scheme.owners() {
            taken.push(Taken {
                owner: *owner,
                count: 0,
            })?;
        }
        Ok(Counts {
            stored: 0,
            taken,
            left: 0,
        })
    }

    // Adds what a session of the stations stored, and what it left.
    pub(crate) fn add_stations(&mut self, report: &SessionsReport)
        ensures { AddsStations self.old self.new report.now }
    {
        self.stored = self.stored.saturating_add(report.stored);
        self.left = self.left.saturating_add(report.left);
    }

    // Adds what a session of the owner at a place took, and what it left.
    pub(crate) fn add_owner(&mut self, place: usize, report: &SessionsReport)
        requires { place < length self.old.taken.items }
        ensures { AddsOwner self.old self.new place report.now }
    {
        let count = self.taken[place].count;
        self.taken[place].count = count.saturating_add(report.taken);
        self.left = self.left.saturating_add(report.left);
    }
}

// Adds the line of an owner.
fn add_taken(alloc: Global, taken: Taken, text: &mut String) -> Result<(), AllocError>
    ensures { OnOk result (string_bytes text.new ≡ string_bytes text.old ++ taken_line taken) }
{
    let owner = taken.owner.get();
    let count = taken.count;
    text.push_str(&format!(in alloc; "taken {owner} {count}\n")?)?;
    Ok(())
}

// Adds the lines of owners.
fn add_all_taken(alloc: Global, taken: &[Taken], text: &mut String) -> Result<(), AllocError>
    ensures { OnOk result (string_bytes text.new ≡ string_bytes text.old ++ taken_lines taken.now) }
{
    for one in taken {
        add_taken(alloc, *one, text)?;
    }
    Ok(())
}

// The lines of counts.
fn text_of(alloc: Global, counts: &Counts) -> Result<String, AllocError>
    ensures { IfOk result (λ text. string_bytes text ≡ counts_text counts.now) }
{
    let stored = counts.stored;
    let mut text = format!(in alloc; "stored {stored}\n")?;
    add_all_taken(alloc, &counts.taken, &mut text)?;
    let left = counts.left;
    text.push_str(&format!(in alloc; "left {left}\n")?)?;
    Ok(text)
}

/// Writes the lines of counts. `Memory` where there was none for their text, and nothing is written then; `Write` where
/// the writer failed.
pub fn write_counts<W: Write>(
    alloc: Global,
    counts: &Counts,
    output: &mut W,
) -> Result<(), ServeFault>
    ensures written { OnOk result (Appends (W.contents output.old) (W.contents output.new) (counts_text counts.now)) }
    ensures kept { IfErr result (λ fault. fault ≢ ServeFault.Write → Keeps (W.contents output.old) (W.contents output.new)) }
    ensures outside { IfErr result IsOutside }
{
    let text = text_of(alloc, counts)?;
    if output.write_all(text.as_bytes()).is_err() || output.flush().is_err() {
        return Err(ServeFault::Write);
    }
    Ok(())
}
