//! How far serving has come, in the text format of Prometheus: a family of samples behind the other.
ghost use Rattle.std.specs.Prelude.{◌≡◌, ◌++◌, OnOk, IfOk, string_bytes};
ghost use Rattle.fare_page.specs.Metrics.{metrics_text, owner_line, owner_lines, totals_text};

use crate::seen::add_seen;
use fare_serve::{Progress, Taken};
use std::alloc::{AllocError, Global};

// Adds the line of an owner.
#[tactic(auto, unfolding(crate::specs::Metrics::owner_line))]
fn add_taken(alloc: Global, taken: Taken, text: &mut String) -> Result<(), AllocError>
    ensures { OnOk result (string_bytes text.new ≡ string_bytes text.old ++ owner_line taken) }
{
    let owner = taken.owner.get();
    let count = taken.count;
    text.push_str(&format!(in alloc; "fare_hub_taken_total{{owner=\"{owner}\"}} {count}\n")?)?;
    Ok(())
}

// Adds the lines of owners.
fn add_all_taken(alloc: Global, taken: &[Taken], text: &mut String) -> Result<(), AllocError>
    ensures { OnOk result (string_bytes text.new ≡ string_bytes text.old ++ owner_lines taken.now) }
{
    for one in taken {
        add_taken(alloc, *one, text)?;
    }
    Ok(())
}

// The lines of all.
#[tactic(auto, unfolding(crate::specs::Metrics::totals_text))]
fn totals_of(alloc: Global, rounds: u64, stored: u64, left: u64) -> Result<String, AllocError>
    ensures { IfOk result (λ text. string_bytes text ≡ totals_text rounds stored left) }
{
    format!(in alloc;
        "# HELP fare_hub_rounds_total Rounds that were held since serving began.\n# TYPE fare_hub_rounds_total counter\nfare_hub_rounds_total {rounds}\n# HELP fare_hub_stored_total Taps and statements that were stored since serving began.\n# TYPE fare_hub_stored_total counter\nfare_hub_stored_total {stored}\n# HELP fare_hub_left_total Items that were in a queue or a hand at the ends of sessions.\n# TYPE fare_hub_left_total counter\nfare_hub_left_total {left}\n# HELP fare_hub_taken_total Taps and statements that an owner took since serving began.\n# TYPE fare_hub_taken_total counter\n"
    )
}

// The text of how far serving has come: the counts, and what is seen of lines and rounds.
pub(crate) fn metrics_of(alloc: Global, progress: &Progress) -> Result<String, AllocError>
    ensures { IfOk result (λ text. string_bytes text ≡ metrics_text progress.now) }
{
    let counts = &progress.counts;
    let mut text = totals_of(alloc, progress.rounds, counts.stored, counts.left)?;
    add_all_taken(alloc, &counts.taken, &mut text)?;
    add_seen(alloc, &progress.seen, &mut text)?;
    Ok(text)
}
