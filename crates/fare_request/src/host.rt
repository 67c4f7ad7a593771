//! Whose request it is.
ghost use Rattle.std.specs.Prelude.{◌≡◌, ◌↔◌, IsTrue, option_map, option_copied};
ghost use Rattle.http.specs.declared.request.Parts.{Parts};
ghost use Rattle.http.specs.Request.{head_of};
ghost use Rattle.http_header.specs.Token.{lowercase};
ghost use Rattle.fare_request.specs.Asking.{IsAt, IsHere, IsMeant, IsOurs, IsOwnSite, IsPortOrNone, field_at};

use bytes::Bytes;
use http::Request;

// Whether what stands behind a host's name is a port behind a colon, or nothing.
fn is_port_or_none(rest: &[u8]) -> bool
    ensures { IsTrue result ↔ IsPortOrNone rest.now }
{
    rest.is_empty() || rest[0] == b':'
}

// Whether a host has this name, with a port or without.
fn is_at(host: &[u8], name: &[u8]) -> bool
    ensures { IsTrue result ↔ IsAt name.now host.now }
{
    match host.strip_prefix(name) {
        Some(rest) => is_port_or_none(rest),
        None => false,
    }
}

// Whether a host is this machine, by its own name.
fn is_here(host: &[u8]) -> bool
    ensures { IsTrue result ↔ IsHere host.now }
{
    is_at(host, b"127.0.0.1") || is_at(host, b"localhost")
}

// The value of a header field, the first where there are several.
pub(crate) fn field<'a>(request: &'a Request<Bytes>, name: &str) -> Option<&'a [u8]>
    ensures { option_copied result ≡ field_at (head_of request.now) (lowercase name.now) }
{
    let value = request.headers().get(name)?;
    Some(value.as_bytes())
}

// Whether the browser, if it is one and says so, sent it for a page of this very hub, or for its user.
fn is_own_site(request: &Request<Bytes>) -> bool
    ensures { IsTrue result ↔ IsOwnSite (head_of request.now) }
{
    match field(request, "sec-fetch-site") {
        Some(site) => site == b"same-origin".as_slice() || site == b"none".as_slice(),
        None => true,
    }
}

// Whether it was sent to this machine by its own name, and not by a foreign page.
pub(crate) fn is_ours(request: &Request<Bytes>) -> bool
    ensures { IsTrue result ↔ IsOurs (head_of request.now) }
{
    if request.uri().authority().is_some() {
        return false;
    }
    let Some(host) = field(request, "host") else {
        return false;
    };
    is_here(host) && is_own_site(request)
}

// Whether it bears the header field that makes it an order.
pub(crate) fn is_meant(request: &Request<Bytes>) -> bool
    ensures { IsTrue result ↔ IsMeant (head_of request.now) }
{
    match field(request, "x-fare-hub") {
        Some(value) => value == b"1".as_slice(),
        None => false,
    }
}
