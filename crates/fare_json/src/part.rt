//! What the words of a line are.
ghost use Rattle.std.specs.Prelude.{◌≡◌, map};
ghost use Rattle.std.specs.Str.{bytes_eq};
ghost use Rattle.fare_json.specs.Parts.{is_cut, is_refused, parts_behind, parts_of};

use crate::name::Name;

/// What a word of a line is, by its place.
#[derive(Clone, Copy)]
pub(crate) enum Part {
    /// The value of this member; where it is missing, so is the member.
    Value(Name),
    /// It says only what the next word is.
    Label,
    /// It says by standing there that this member is true.
    Flag(Name),
    /// It says that this member is null.
    Nothing(Name),
}

// Where a device's link stands.
const UPTO: [Part; 2] = [Part::Value(Name::Device), Part::Value(Name::Link)];

// Where a lane stands.
const LANE: [Part; 12] = [
    Part::Value(Name::Owner),
    Part::Value(Name::Device),
    Part::Label,
    Part::Value(Name::Taken),
    Part::Label,
    Part::Value(Name::Closed),
    Part::Label,
    Part::Value(Name::Rows),
    Part::Label,
    Part::Value(Name::Statements),
    Part::Flag(Name::Retired),
    Part::Nothing(Name::From),
];

// Where a lane stands of which something was let go.
const CUT_LANE: [Part; 13] = [
    Part::Value(Name::Owner),
    Part::Value(Name::Device),
    Part::Label,
    Part::Value(Name::Taken),
    Part::Label,
    Part::Value(Name::Closed),
    Part::Label,
    Part::Value(Name::Rows),
    Part::Label,
    Part::Value(Name::Statements),
    Part::Label,
    Part::Value(Name::From),
    Part::Flag(Name::Retired),
];

// A bill.
const BILL: [Part; 4] = [
    Part::Value(Name::Owner),
    Part::Value(Name::Day),
    Part::Value(Name::Accounts),
    Part::Value(Name::Total),
];

// An account's row of it.
const ACCOUNT: [Part; 4] = [
    Part::Value(Name::Product),
    Part::Value(Name::Token),
    Part::Value(Name::Rides),
    Part::Value(Name::Amount),
];

// A settlement.
const SETTLEMENT: [Part; 3] = [
    Part::Value(Name::Owner),
    Part::Value(Name::Day),
    Part::Value(Name::Operators),
];

// An operator's row of it.
const OPERATOR: [Part; 3] = [
    Part::Value(Name::Operator),
    Part::Value(Name::Taps),
    Part::Value(Name::Amount),
];

// A route's.
const ROUTE: [Part; 3] = [
    Part::Value(Name::Route),
    Part::Value(Name::Taps),
    Part::Value(Name::Amount),
];

// A day that was closed.
const CLOSE: [Part; 4] = [
    Part::Value(Name::Owner),
    Part::Value(Name::Device),
    Part::Value(Name::Day),
    Part::Nothing(Name::Refused),
];

// A day that was not.
const REFUSED_CLOSE: [Part; 7] = [
    Part::Value(Name::Owner),
    Part::Value(Name::Device),
    Part::Value(Name::Day),
    Part::Label,
    Part::Value(Name::Refused),
    Part::Value(Name::Stated),
    Part::Value(Name::Taken),
];

// A device of which a bill is short, or whose lane was retired.
const DEVICE: [Part; 1] = [Part::Value(Name::Device)];

// A refusal.
const REFUSAL: [Part; 2] = [Part::Value(Name::Why), Part::Value(Name::Device)];

// Whether a word is this one.
fn is(word: &[u8], text: &str) -> bool
    ensures { result ≡ bytes_eq word.now text.now }
{
    word == text.as_bytes()
}

// What stands behind this keyword.
fn parts_behind(keyword: &[u8]) -> &'static [Part]
    ensures { result.now ≡ parts_behind keyword.now }
{
    if is(keyword, "upto") {
        &UPTO
    } else if is(keyword, "lane") {
        &LANE
    } else if is(keyword, "bill") {
        &BILL
    } else if is(keyword, "account") {
        &ACCOUNT
    } else if is(keyword, "short") {
        &DEVICE
    } else if is(keyword, "settlement") {
        &SETTLEMENT
    } else if is(keyword, "operator") {
        &OPERATOR
    } else if is(keyword, "route") {
        &ROUTE
    } else if is(keyword, "close") {
        &CLOSE
    } else if is(keyword, "retired") {
        &DEVICE
    } else if is(keyword, "refused") {
        &REFUSAL
    } else {
        &[]
    }
}

// Whether it was refused that these words tell of a close behind its keyword.
fn is_refused(words: &[&[u8]]) -> bool
    ensures { result ≡ is_refused (map (λ w. w.now) words.now) }
{
    match words.get(3) {
        Some(word) => is(word, "refused"),
        None => false,
    }
}

// Whether these words tell of a lane, behind its keyword, that something of it was let go.
fn is_cut(words: &[&[u8]]) -> bool
    ensures { result ≡ is_cut (map (λ w. w.now) words.now) }
{
    match words.get(10) {
        Some(word) => is(word, "from"),
        None => false,
    }
}

/// What the words are that stand behind a keyword.
pub(crate) fn parts_of(keyword: &[u8], words: &[&[u8]]) -> &'static [Part]
    ensures { result.now ≡ parts_of keyword.now (map (λ w. w.now) words.now) }
{
    if is(keyword, "close") && is_refused(words) {
        &REFUSED_CLOSE
    } else if is(keyword, "lane") && is_cut(words) {
        &CUT_LANE
    } else {
        parts_behind(keyword)
    }
}
