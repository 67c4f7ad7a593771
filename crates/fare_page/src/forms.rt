//! The form of an answer.
ghost use Rattle.std.specs.Prelude.{◌≡◌, ◌⊎◌};
ghost use Rattle.http_server.specs.Response.{IsBlank};
ghost use Rattle.fare_request.specs.declared.form.Form.TheVariants as form;
ghost use Rattle.fare_page.specs.Answering.{IsStoreFailure, IsFault, IsFilled, form_for, in_form};

use crate::filling::fill;
use fare_json::json_of;
use fare_request::{Ask, Form};
use http::StatusCode;
use http_server::Response;
use std::alloc::Global;

// The form of an answer to this, where this one is wanted.
fn form_for(wanted: Form, ask: Ask) -> Form
    ensures { result ≡ form_for wanted ask }
{
    match ask {
        Ask::Page | Ask::Metrics => Form::Text,
        Ask::Stand
        | Ask::Bill { owner: _, day: _ }
        | Ask::Settle { owner: _, day: _ }
        | Ask::Close
        | Ask::Retire {
            owner: _,
            device: _,
        }
        | Ask::Nothing(_) => wanted,
    }
}

// The same of an answer of this status. That there was no memory, or that a store failed, is no JSON.
pub(crate) fn form_told(wanted: Form, ask: Ask, status: StatusCode) -> Form
    ensures told { IsFault status ⊎ (result ≡ form_for wanted ask) }
    ensures plain { IsStoreFailure status → result ≡ form.Text }
{
    match status.as_u16() {
        500 | 503 => Form::Text,
        _ => form_for(wanted, ask),
    }
}

// Fills a blank response with lines in a form. Where there is no memory for it, it says that alone.
pub(crate) fn fill_in(
    alloc: Global,
    response: &mut Response,
    ask: &Ask,
    form: Form,
    status: StatusCode,
    text: &[u8],
)
    requires { IsBlank response.old }
    ensures { IsFilled status (in_form form text.now) response.new.status response.new.body.items }
{
    match form {
        Form::Text => fill(response, ask, form, status, text),
        Form::Json => match json_of(alloc, text) {
            Ok(json) => fill(response, ask, form, status, &json),
            Err(_) => response.status = StatusCode::SERVICE_UNAVAILABLE,
        },
    }
}
