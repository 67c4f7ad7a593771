//! What a request asks.
ghost use Rattle.std.specs.Prelude.{◌≡◌, ◌≢◌, ℕ, MatchOption, codes};
ghost use Rattle.http.specs.Request.{head_of};
ghost use Rattle.http_uri.specs.Uri.{uri_query};
ghost use Rattle.fare_request.specs.Asking.{AsksAt, Asks, IsReadyAt, MistakesAt, Names, NamesDay, NamesLane, is_order, path_of};
ghost use Rattle.fare_request.specs.declared.ask.Place.{Place};

use crate::ask::{Ask, Mistake, Place};
use crate::host::{is_meant, is_ours};
use crate::query::owner_with;
use bytes::Bytes;
use fare_record::{Day, DeviceId, OwnerId};
use http::Request;

// What is at a path.
fn place_at(path: &str) -> Option<Place>
    ensures { MatchOption result ((at : Place) → path.now ≢ path_of at) (λ place. path.now ≡ path_of place) }
{
    match path {
        "/" => Some(Place::Page),
        "/metrics" => Some(Place::Metrics),
        "/stand" => Some(Place::Stand),
        "/bill" => Some(Place::Bill),
        "/settle" => Some(Place::Settle),
        "/close" => Some(Place::Close),
        "/retire" => Some(Place::Retire),
        _ => None,
    }
}

// The owner that it names, and the number behind this key.
fn named_in(request: &Request<Bytes>, key: &str) -> Option<(OwnerId, u64)>
    ensures { MatchOption result ((owner number : ℕ) → ¬ (Names key.now (head_of request.now) owner number)) (λ said. Names key.now (head_of request.now) said.0 said.1) }
{
    owner_with(request.uri().query()?, key)
}

// The owner and the day that it names.
fn day_in(request: &Request<Bytes>) -> Option<(OwnerId, Day)>
    ensures { MatchOption result ((owner day : ℕ) → ¬ (NamesDay (head_of request.now) owner day)) (λ said. NamesDay (head_of request.now) said.0 said.1) }
{
    let (owner, number) = named_in(request, "day=")?;
    let day = Day::new(number)?;
    Some((owner, day))
}

// The owner and the device that it names.
fn lane_in(request: &Request<Bytes>) -> Option<(OwnerId, DeviceId)>
    ensures { MatchOption result ((owner device : ℕ) → ¬ (NamesLane (head_of request.now) owner device)) (λ said. NamesLane (head_of request.now) said.0 said.1) }
{
    let (owner, number) = named_in(request, "device=")?;
    let device = DeviceId::new(number)?;
    Some((owner, device))
}

// Whether what is at a place is ordered, and not only asked for.
fn is_ordered(place: Place) -> bool
    ensures { result ≡ is_order place }
{
    match place {
        Place::Close | Place::Retire => true,
        Place::Page | Place::Metrics | Place::Stand | Place::Bill | Place::Settle => false,
    }
}

// Why it asks for nothing that is sent to this place, whatever its words are.
fn mistake_at(request: &Request<Bytes>, place: Place) -> Option<Mistake>
    ensures { MatchOption result (IsReadyAt (head_of request.now) place) (MistakesAt (head_of request.now) place) }
{
    let method = request.method().as_str();
    if !is_ordered(place) {
        if method == "GET" {
            None
        } else {
            Some(Mistake::WantsGet)
        }
    } else if method != "POST" {
        Some(Mistake::WantsPost)
    } else if !is_meant(request) {
        Some(Mistake::Foreign)
    } else {
        None
    }
}

// What a request asks that is sent to this place.
fn asked_at(request: &Request<Bytes>, place: Place) -> Ask
    ensures { AsksAt (head_of request.now) place result }
{
    if let Some(why) = mistake_at(request, place) {
        return Ask::Nothing(why);
    }
    match place {
        Place::Page => Ask::Page,
        Place::Metrics => Ask::Metrics,
        Place::Stand => Ask::Stand,
        Place::Bill => match day_in(request) {
            Some((owner, day)) => Ask::Bill { owner, day },
            None => Ask::Nothing(Mistake::Words),
        },
        Place::Settle => match day_in(request) {
            Some((owner, day)) => Ask::Settle { owner, day },
            None => Ask::Nothing(Mistake::Words),
        },
        Place::Close => Ask::Close,
        Place::Retire => match lane_in(request) {
            Some((owner, device)) => Ask::Retire { owner, device },
            None => Ask::Nothing(Mistake::Words),
        },
    }
}

/// What a request asks of a hub, or why it asks for nothing: the first that applies of `Foreign`, for one that is not this
/// machine's own; `Nowhere`; `WantsGet` or `WantsPost`; `Foreign`, for an order without its header field; and `Words`. So a
/// right request is never refused.
pub fn asked(request: &Request<Bytes>) -> Ask
    ensures { Asks (head_of request.now) result }
{
    if !is_ours(request) {
        return Ask::Nothing(Mistake::Foreign);
    }
    match place_at(request.uri().path()) {
        Some(place) => asked_at(request, place),
        None => Ask::Nothing(Mistake::Nowhere),
    }
}
