//! What is seen of lines and rounds, in the text format of Prometheus.
ghost use Rattle.std.specs.Prelude.{◌≡◌, ◌++◌, OnOk, IfOk, if◌then◌else◌, string_bytes};
ghost use Rattle.fare_page.specs.Seen.{broken_text, commits_text, frame_line, frame_lines, frame_text, frames_head, greeted_text, lines_text, lost_text, refused_text, replaced_text, round_head, round_line, round_text, rounds_text, seen_text, ungreeted_text, up_head, up_line, up_lines, up_sample};

use fare_serve::{BrokenLines, LineSeen, RefusedLines, Seen};
use std::alloc::{AllocError, Global};

// The lines that were refused for what they greeted with.
#[tactic(auto, unfolding(crate::specs::Seen::greeted_text))]
fn greeted_of(
    alloc: Global,
    no_hello: u64,
    bad_version: u64,
    unknown_device: u64,
) -> Result<String, AllocError>
    ensures { IfOk result (λ text. string_bytes text ≡ greeted_text no_hello bad_version unknown_device) }
{
    format!(in alloc;
        "# HELP fare_hub_lines_refused_total Lines that were refused since serving began, by the reason.\n# TYPE fare_hub_lines_refused_total counter\nfare_hub_lines_refused_total{{reason=\"no_hello\"}} {no_hello}\nfare_hub_lines_refused_total{{reason=\"bad_version\"}} {bad_version}\nfare_hub_lines_refused_total{{reason=\"unknown_device\"}} {unknown_device}\n"
    )
}

// Those that were refused for another reason.
#[tactic(auto, unfolding(crate::specs::Seen::ungreeted_text))]
fn ungreeted_of(
    alloc: Global,
    failed: u64,
    no_greeting: u64,
    second: u64,
) -> Result<String, AllocError>
    ensures { IfOk result (λ text. string_bytes text ≡ ungreeted_text failed no_greeting second) }
{
    format!(in alloc;
        "fare_hub_lines_refused_total{{reason=\"failed\"}} {failed}\nfare_hub_lines_refused_total{{reason=\"no_greeting\"}} {no_greeting}\nfare_hub_lines_refused_total{{reason=\"second\"}} {second}\n"
    )
}

// Adds the lines that were refused for what they greeted with.
fn add_greeted(alloc: Global, refused: RefusedLines, text: &mut String) -> Result<(), AllocError>
    ensures { OnOk result (string_bytes text.new ≡ string_bytes text.old ++ greeted_text refused.no_hello refused.bad_version refused.unknown_device) }
{
    text.push_str(&greeted_of(
        alloc,
        refused.no_hello,
        refused.bad_version,
        refused.unknown_device,
    )?)
}

// Adds those that were refused for another reason.
fn add_ungreeted(alloc: Global, refused: RefusedLines, text: &mut String) -> Result<(), AllocError>
    ensures { OnOk result (string_bytes text.new ≡ string_bytes text.old ++ ungreeted_text refused.failed refused.no_greeting refused.second) }
{
    text.push_str(&ungreeted_of(alloc, refused.failed, refused.no_greeting, refused.second)?)
}

// Adds the lines that were refused.
fn add_refused(alloc: Global, refused: RefusedLines, text: &mut String) -> Result<(), AllocError>
    ensures { OnOk result (string_bytes text.new ≡ string_bytes text.old ++ refused_text refused) }
{
    add_greeted(alloc, refused, text)?;
    add_ungreeted(alloc, refused, text)
}

// The lines that broke.
#[tactic(auto, unfolding(crate::specs::Seen::broken_text))]
fn broken_of(alloc: Global, broken: BrokenLines) -> Result<String, AllocError>
    ensures { IfOk result (λ text. string_bytes text ≡ broken_text broken) }
{
    let failed = broken.failed;
    let unexpected = broken.unexpected;
    format!(in alloc;
        "# HELP fare_hub_lines_broken_total Lines that broke since serving began, by the reason.\n# TYPE fare_hub_lines_broken_total counter\nfare_hub_lines_broken_total{{reason=\"failed\"}} {failed}\nfare_hub_lines_broken_total{{reason=\"unexpected\"}} {unexpected}\n"
    )
}

// The lines that were replaced.
#[tactic(auto, unfolding(crate::specs::Seen::replaced_text))]
fn replaced_of(alloc: Global, replaced: u64) -> Result<String, AllocError>
    ensures { IfOk result (λ text. string_bytes text ≡ replaced_text replaced) }
{
    format!(in alloc;
        "# HELP fare_hub_lines_replaced_total Lines that another one of their station replaced since serving began.\n# TYPE fare_hub_lines_replaced_total counter\nfare_hub_lines_replaced_total {replaced}\n"
    )
}

// The commits.
#[tactic(auto, unfolding(crate::specs::Seen::commits_text))]
fn commits_of(alloc: Global, outbox: u64, ledgers: u64) -> Result<String, AllocError>
    ensures { IfOk result (λ text. string_bytes text ≡ commits_text outbox ledgers) }
{
    format!(in alloc;
        "# HELP fare_hub_commits_total Commits of what stations sent and of what owners took since serving began, by the store.\n# TYPE fare_hub_commits_total counter\nfare_hub_commits_total{{store=\"outbox\"}} {outbox}\nfare_hub_commits_total{{store=\"ledgers\"}} {ledgers}\n"
    )
}

// 1 for a station that has a line, 0 for one that has none.
fn bit(is_up: bool) -> u8
    ensures { result ≡ if is_up then 1 else 0 }
{
    if is_up { 1 } else { 0 }
}

// Whether a station has a line.
#[tactic(auto, unfolding(crate::specs::Seen::up_sample))]
fn up_of(alloc: Global, station: u16, up: u8) -> Result<String, AllocError>
    ensures { IfOk result (λ text. string_bytes text ≡ up_sample station up) }
{
    format!(in alloc; "fare_hub_line_up{{station=\"{station}\"}} {up}\n")
}

// Adds it.
fn add_up(alloc: Global, line: LineSeen, text: &mut String) -> Result<(), AllocError>
    ensures { OnOk result (string_bytes text.new ≡ string_bytes text.old ++ up_line line) }
{
    text.push_str(&up_of(alloc, line.station.get(), bit(line.is_up))?)
}

// Adds whether each of the stations has a line.
fn add_all_up(alloc: Global, lines: &[LineSeen], text: &mut String) -> Result<(), AllocError>
    ensures { OnOk result (string_bytes text.new ≡ string_bytes text.old ++ up_lines lines.now) }
{
    for line in lines {
        add_up(alloc, *line, text)?;
    }
    Ok(())
}

// When a frame came last off a station's line.
#[tactic(auto, unfolding(crate::specs::Seen::frame_line))]
fn frame_of(alloc: Global, station: u16, seconds: u64) -> Result<String, AllocError>
    ensures { IfOk result (λ text. string_bytes text ≡ frame_line station seconds) }
{
    format!(in alloc;
        "fare_hub_line_last_frame_timestamp_seconds{{station=\"{station}\"}} {seconds}\n"
    )
}

// Adds it, if one came.
fn add_frame(alloc: Global, line: LineSeen, text: &mut String) -> Result<(), AllocError>
    ensures { OnOk result (string_bytes text.new ≡ string_bytes text.old ++ frame_text line) }
{
    match line.last_frame {
        Some(seconds) => text.push_str(&frame_of(alloc, line.station.get(), seconds)?),
        None => Ok(()),
    }
}

// Adds it for each of the stations.
fn add_all_frames(alloc: Global, lines: &[LineSeen], text: &mut String) -> Result<(), AllocError>
    ensures { OnOk result (string_bytes text.new ≡ string_bytes text.old ++ frame_lines lines.now) }
{
    for line in lines {
        add_frame(alloc, *line, text)?;
    }
    Ok(())
}

// How long a round took.
#[tactic(auto, unfolding(crate::specs::Seen::round_line))]
fn round_of(alloc: Global, millis: u64) -> Result<String, AllocError>
    ensures { IfOk result (λ text. string_bytes text ≡ round_line millis) }
{
    let seconds = millis / 1_000;
    let tenths = millis / 100 % 10;
    let hundredths = millis / 10 % 10;
    let thousandths = millis % 10;
    format!(in alloc; "fare_hub_last_round_seconds {seconds}.{tenths}{hundredths}{thousandths}\n")
}

// Adds how long the last round took, if there was one.
fn add_round(alloc: Global, millis: Option<u64>, text: &mut String) -> Result<(), AllocError>
    ensures { OnOk result (string_bytes text.new ≡ string_bytes text.old ++ round_text millis) }
{
    match millis {
        Some(millis) => text.push_str(&round_of(alloc, millis)?),
        None => Ok(()),
    }
}

// Adds what a family of lines has before its samples.
#[tactic(auto, unfolding(crate::specs::Seen::up_head))]
fn add_up_head(text: &mut String) -> Result<(), AllocError>
    ensures { OnOk result (string_bytes text.new ≡ string_bytes text.old ++ up_head) }
{
    text.push_str(
        "# HELP fare_hub_line_up Whether the station has a line now.\n# TYPE fare_hub_line_up gauge\n",
    )
}

#[tactic(auto, unfolding(crate::specs::Seen::frames_head))]
fn add_frames_head(text: &mut String) -> Result<(), AllocError>
    ensures { OnOk result (string_bytes text.new ≡ string_bytes text.old ++ frames_head) }
{
    text.push_str(
        "# HELP fare_hub_line_last_frame_timestamp_seconds When the last round ended in which a frame came off the station's line.\n# TYPE fare_hub_line_last_frame_timestamp_seconds gauge\n",
    )
}

#[tactic(auto, unfolding(crate::specs::Seen::round_head))]
fn add_round_head(text: &mut String) -> Result<(), AllocError>
    ensures { OnOk result (string_bytes text.new ≡ string_bytes text.old ++ round_head) }
{
    text.push_str(
        "# HELP fare_hub_last_round_seconds How long the last round took.\n# TYPE fare_hub_last_round_seconds gauge\n",
    )
}

// Adds what is seen of the stations' lines.
fn add_lines(alloc: Global, lines: &[LineSeen], text: &mut String) -> Result<(), AllocError>
    ensures { OnOk result (string_bytes text.new ≡ string_bytes text.old ++ lines_text lines.now) }
{
    add_up_head(text)?;
    add_all_up(alloc, lines, text)?;
    add_frames_head(text)?;
    add_all_frames(alloc, lines, text)
}

// Adds the lines that broke.
fn add_broken(alloc: Global, broken: BrokenLines, text: &mut String) -> Result<(), AllocError>
    ensures { OnOk result (string_bytes text.new ≡ string_bytes text.old ++ broken_text broken) }
{
    text.push_str(&broken_of(alloc, broken)?)
}

// Adds the lines that were replaced.
fn add_replaced(alloc: Global, replaced: u64, text: &mut String) -> Result<(), AllocError>
    ensures { OnOk result (string_bytes text.new ≡ string_bytes text.old ++ replaced_text replaced) }
{
    text.push_str(&replaced_of(alloc, replaced)?)
}

// Adds the commits.
fn add_commits(
    alloc: Global,
    outbox: u64,
    ledgers: u64,
    text: &mut String,
) -> Result<(), AllocError>
    ensures { OnOk result (string_bytes text.new ≡ string_bytes text.old ++ commits_text outbox ledgers) }
{
    text.push_str(&commits_of(alloc, outbox, ledgers)?)
}

// Adds the lines that were lost.
fn add_lost(alloc: Global, seen: &Seen, text: &mut String) -> Result<(), AllocError>
    ensures { OnOk result (string_bytes text.new ≡ string_bytes text.old ++ lost_text seen.now) }
{
    add_refused(alloc, seen.refused, text)?;
    add_broken(alloc, seen.broken, text)?;
    add_replaced(alloc, seen.replaced, text)
}

// Adds what is seen of rounds.
fn add_rounds(alloc: Global, seen: &Seen, text: &mut String) -> Result<(), AllocError>
    ensures { OnOk result (string_bytes text.new ≡ string_bytes text.old ++ rounds_text seen.now) }
{
    add_round_head(text)?;
    add_round(alloc, seen.round_millis, text)?;
    add_commits(alloc, seen.outbox_commits, seen.ledger_commits, text)
}

// Adds all of it.
pub(crate) fn add_seen(alloc: Global, seen: &Seen, text: &mut String) -> Result<(), AllocError>
    ensures { OnOk result (string_bytes text.new ≡ string_bytes text.old ++ seen_text seen.now) }
{
    add_lost(alloc, seen, text)?;
    add_lines(alloc, &seen.lines, text)?;
    add_rounds(alloc, seen, text)
}
