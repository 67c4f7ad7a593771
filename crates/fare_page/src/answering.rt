//! What a hub at rest answers.
ghost use Rattle.std.specs.Prelude.{◌≡◌, ◌++◌, [], List, ℕ, IfOk, string_bytes};
ghost use Rattle.fare_desk.specs.Closing.{GoesOn};
ghost use Rattle.fare_desk.specs.Showing.{OnlyAsks};
ghost use Rattle.fare_sessions.specs.Stores.{HasLedgers};
ghost use Rattle.fare_page.specs.Answering.{AreTrusted, IsQuestion, IsStoreFailure, Tells, TellsFailure, TellsMetrics, TellsMistake, TellsPage, TellsStores, failed_line};
ghost use Rattle.fare_page.specs.Gauges.{gauges_text};
ghost use Rattle.fare_page.specs.Metrics.{metrics_text};

use crate::gauges::add_gauges;
use crate::metrics::metrics_of;
use crate::mistakes::{line_of, status_of};
use crate::page::page;
use crate::told::{tell, tell_failure};
use fare_desk::{
    OwnerWaits, close_days, retire_lane, what_waits, write_bill, write_settlement, write_standing,
};
use fare_request::{Ask, Mistake};
use fare_scheme::Scheme;
use fare_serve::Progress;
use fare_sessions::Hub;
use fare_store::{Ledger, Outbox};
use http::StatusCode;
use std::alloc::{AllocError, Global};

// The page.
fn tell_page(body: &mut Vec<u8>) -> StatusCode
    ensures { TellsPage result }
{
    match body.extend_from_slice(page().as_bytes()) {
        Ok(()) => StatusCode::OK,
        Err(_) => StatusCode::SERVICE_UNAVAILABLE,
    }
}

// The text of how far serving has come, of what waits for owners, and of where devices stand.
fn gauged(
    alloc: Global,
    scheme: &Scheme,
    waits: &[OwnerWaits],
    progress: &Progress,
) -> Result<String, AllocError>
    ensures { IfOk result (λ text. string_bytes text ≡ metrics_text progress.now ++ gauges_text scheme.now waits.now) }
{
    let mut text = metrics_of(alloc, progress)?;
    add_gauges(alloc, scheme, waits, &mut text)?;
    Ok(text)
}

// How far serving has come, what waits for owners, and where devices stand.
fn tell_metrics<O: Outbox, L: Ledger>(
    alloc: Global,
    hub: &mut Hub<O, L>,
    progress: &Progress,
    body: &mut Vec<u8>,
) -> StatusCode
    requires ledgers { HasLedgers hub.old }
    requires empty { body.old.items ≡ [] }
    ensures asks { OnlyAsks O.standing L.standing hub.old hub.new }
    ensures tells { TellsMetrics O.standing L.standing progress.now hub.old hub.new result body.new.items }
    ensures stores { TellsStores O.standing L.standing hub.old hub.new result }
    ensures line { IsStoreFailure result → body.new.items ≡ failed_line }
{
    let waits = match what_waits(alloc, hub) {
        Ok(waits) => waits,
        Err(fault) => return tell_failure(fault, body),
    };
    let Ok(text) = gauged(alloc, &hub.scheme, &waits, progress) else {
        return StatusCode::SERVICE_UNAVAILABLE;
    };
    match body.extend_from_slice(text.as_bytes()) {
        Ok(()) => StatusCode::OK,
        Err(_) => StatusCode::SERVICE_UNAVAILABLE,
    }
}

// Why a request asks for nothing.
fn tell_mistake(why: Mistake, body: &mut Vec<u8>) -> StatusCode
    requires { body.old.items ≡ [] }
    ensures { TellsMistake why result body.new.items }
{
    match body.extend_from_slice(line_of(why)) {
        Ok(()) => status_of(why),
        Err(_) => StatusCode::SERVICE_UNAVAILABLE,
    }
}

// Answers what is asked of a hub, when serving has come so far: the status, and the body.
pub(crate) fn answer<O: Outbox, L: Ledger>(
    alloc: Global,
    hub: &mut Hub<O, L>,
    progress: &Progress,
    ask: Ask,
    body: &mut Vec<u8>,
) -> StatusCode
    requires ledgers { HasLedgers hub.old }
    requires empty { body.old.items ≡ [] }
    ensures goes { GoesOn O.standing L.standing hub.old hub.new }
    ensures reads { IsQuestion ask → OnlyAsks O.standing L.standing hub.old hub.new }
    ensures tells { Tells O.standing L.standing progress.now ask hub.old hub.new result body.new.items }
    ensures stores { AreTrusted O.standing L.standing ask hub.old hub.new → TellsStores O.standing L.standing hub.old hub.new result }
    ensures line { IsStoreFailure result → TellsFailure ask body.new.items }
{
    match ask {
        Ask::Page => tell_page(body),
        Ask::Metrics => tell_metrics(alloc, hub, progress, body),
        Ask::Stand => {
            let ended = write_standing(alloc, hub, body);
            tell(ended, body)
        }
        Ask::Bill { owner, day } => {
            let ended = write_bill(alloc, hub, owner, day, body);
            tell(ended, body)
        }
        Ask::Settle { owner, day } => {
            let ended = write_settlement(alloc, hub, owner, day, body);
            tell(ended, body)
        }
        Ask::Close => {
            let ended = close_days(alloc, hub, body);
            tell(ended, body)
        }
        Ask::Retire { owner, device } => {
            let ended = retire_lane(alloc, hub, owner, device, body);
            tell(ended, body)
        }
        Ask::Nothing(why) => tell_mistake(why, body),
    }
}
