ghost use Rattle.std.specs.Prelude.{◌≡◌, ◌↔◌, not};
ghost use Rattle.std.specs.Option.{option_eq};
ghost use Rattle.fare_scheme.specs.Facts.{IsScheme};
ghost use Rattle.fare_growth.specs.Entries.{names, same_registered, registered_of};
ghost use Rattle.fare_growth.specs.Growth.{has_name, gone, changed, first_contradiction_of, AddsTo};

use crate::registered::{Registered, entry_at, entry_count};
use crate::{Contradiction, Entry};
use fare_scheme::Scheme;

// Whether the entry isn't registered in the later scheme.
fn is_gone(later: &Scheme, entry: &Entry) -> bool
    ensures { result ≡ not (has_name (names later.now) entry.now) }
{
    Registered::of(later, entry).is_none()
}

// Whether what is registered of the entry isn't the same in both.
fn is_changed(kept: &Scheme, later: &Scheme, entry: &Entry) -> bool
    ensures { result ≡ not (option_eq same_registered (registered_of kept.now entry.now) (registered_of later.now entry.now)) }
{
    Registered::of(kept, entry) != Registered::of(later, entry)
}

// The first entry of the kept scheme that isn't registered in the later one.
fn first_gone(kept: &Scheme, later: &Scheme) -> Option<Entry>
    ensures { result ≡ gone kept.now later.now }
{
    for place in 0..entry_count(kept) {
        let Some(entry) = entry_at(kept, place) else {
            unreachable!()
        };
        if is_gone(later, &entry) {
            return Some(entry);
        }
    }
    None
}

// The first entry of the kept scheme that isn't registered in the later one as it was.
fn first_changed(kept: &Scheme, later: &Scheme) -> Option<Entry>
    requires kept { IsScheme kept.now }
    requires later { IsScheme later.now }
    ensures { result ≡ changed kept.now later.now }
{
    for place in 0..entry_count(kept) {
        let Some(entry) = entry_at(kept, place) else {
            unreachable!()
        };
        if is_changed(kept, later, &entry) {
            return Some(entry);
        }
    }
    None
}

/// What a later scheme contradicts first of a kept one, in this order: its start, its zone, an entry that is gone, an
/// entry that is another. Of entries that are gone, and of those that are others, owners come first, then operators,
/// stations, products and devices, each kind as it was registered. None where the later scheme only adds to the kept
/// one: further entries behind those of their kinds, and other capacities.
pub fn first_contradiction(kept: &Scheme, later: &Scheme) -> Option<Contradiction>
    ensures first { result ≡ first_contradiction_of kept.now later.now }
    ensures none { (result ≡ None) ↔ AddsTo kept.now later.now }
{
    if kept.start() != later.start() {
        return Some(Contradiction::Start);
    }
    if kept.zone() != later.zone() {
        return Some(Contradiction::Zone);
    }
    match first_gone(kept, later) {
        Some(entry) => Some(Contradiction::Gone(entry)),
        None => first_changed(kept, later).map(Contradiction::Changed),
    }
}
