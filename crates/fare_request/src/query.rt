//! The words of a query.
ghost use Rattle.std.specs.Prelude.{◌≡◌, ◌≢◌, ◌<◌, ℕ, List, MatchOption, length, slice_index};
ghost use Rattle.fare_record.specs.Limits.{IsOwnerId};
ghost use Rattle.fare_request.specs.Asking.{HasNoAnd, IsNumber, IsOwnerWith, SaysBoth};

use fare_record::OwnerId;

// The number that a text says.
fn number(text: &str) -> Option<u64>
    ensures { MatchOption result ((n : ℕ) → ¬ (IsNumber text.now n)) (IsNumber text.now) }
{
    match text.parse::<u32>() {
        Ok(number) => Some(u64::from(number)),
        Err(_) => None,
    }
}

// The two texts of a query `owner=O&KEYN`, of which the first ends where the first `&` stands.
fn texts<'a>(query: &'a str, key: &str) -> Option<(&'a str, &'a str)>
    ensures { MatchOption result ((first second : List ℕ) → HasNoAnd first → ¬ (SaysBoth key.now query.now first second)) (λ said. HasNoAnd said.0.now × SaysBoth key.now query.now said.0.now said.1.now) }
{
    let rest = query.strip_prefix("owner=")?;
    let (first, behind) = rest.split_once('&')?;
    let second = behind.strip_prefix(key)?;
    Some((first, second))
}

// The owner that a text says.
fn owner_of(text: &str) -> Option<OwnerId>
    ensures { MatchOption result ((n : ℕ) → ¬ (IsNumber text.now n × IsOwnerId n)) (λ owner. IsNumber text.now owner × IsOwnerId owner) }
{
    OwnerId::new(number(text)?)
}

// The owner of a query `owner=O&KEYN`, and the number behind this key.
pub(crate) fn owner_with(query: &str, key: &str) -> Option<(OwnerId, u64)>
    ensures { MatchOption result ((owner n : ℕ) → ¬ (IsOwnerWith key.now query.now owner n)) (λ said. IsOwnerWith key.now query.now said.0 said.1) }
{
    let (first, second) = texts(query, key)?;
    let owner = owner_of(first)?;
    let number = number(second)?;
    Some((owner, number))
}
