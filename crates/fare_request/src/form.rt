//! The form in which a request wants its answer.
ghost use Rattle.std.specs.Prelude.{◌≡◌, ◌==◌, ◌<◌, IfSome, length};
ghost use Rattle.std.specs.List.{position};
ghost use Rattle.http.specs.Request.{head_of};
ghost use Rattle.fare_request.specs.Forms.{before_semicolon, form_of, has_json, names_json, trimmed};

use crate::host::field;
use bytes::Bytes;
use http::Request;

/// The form of an answer.
#[derive(Clone, Copy, PartialEq, Eq, Debug)]
pub enum Form {
    /// Lines of text.
    Text,
    /// The same lines in JSON.
    Json,
}

// Where the first semicolon stands.
fn find_semicolon(range: &[u8]) -> Option<usize>
    ensures is { result ≡ position (λ b. b == 59) range.now }
    ensures within { IfSome result (λ i. i < length range.now) }
{
    range.iter().position(|byte| *byte == b';')
}

// What stands before it, or all.
fn before_semicolon(range: &[u8]) -> &[u8]
    ensures { result.now ≡ before_semicolon range.now }
{
    match find_semicolon(range) {
        Some(place) => &range[..place],
        None => range,
    }
}

// Without the blanks around it.
fn trimmed(text: &[u8]) -> &[u8]
    ensures { result.now ≡ trimmed text.now }
{
    text.trim_ascii()
}

// Whether a media range is JSON, by its name before its parameters.
fn names_json(range: &[u8]) -> bool
    ensures { result ≡ names_json range.now }
{
    trimmed(before_semicolon(range)).eq_ignore_ascii_case(b"application/json")
}

// Whether JSON is among these media ranges.
fn has_json(ranges: &[u8]) -> bool
    ensures { result ≡ has_json ranges.now }
{
    ranges
        .split(|byte| *byte == b',')
        .any(|range| names_json(range))
}

/// The form in which a request wants its answer: JSON where its first field `accept` has the media type `application/json`
/// among those that it names, with commas between them, blanks around each, and parameters behind it which are not
/// weighed; in capitals or small letters. It is text where there is no such field, and of `*/*`. So it is no reason to
/// refuse a request.
pub fn form_of(request: &Request<Bytes>) -> Form
    ensures { result ≡ form_of (head_of request.now) }
{
    match field(request, "accept") {
        Some(ranges) if has_json(ranges) => Form::Json,
        _ => Form::Text,
    }
}
