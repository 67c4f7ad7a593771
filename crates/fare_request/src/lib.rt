//! What a request over HTTP asks of a hub: which page or answer, or an order, that its days be closed or a lane be retired;
//! or why it asks for nothing; and in which form. It promises that a request asks for an answer only where it was sent to this machine by its
//! own name, and not by a page of another site, with the method, the path and the words of that answer; that it orders
//! something only where it also bears the header field that a foreign page can't send; and that each request asks for one
//! thing, so that a right one is never refused, and one that is refused has one reason.
#![tactic(auto)]

mod ask;
mod asking;
mod form;
mod host;
mod laws;
mod query;

pub use ask::{Ask, Mistake};
pub use asking::asked;
pub use form::{Form, form_of};
pub use laws::a_request_asks_for_one_thing;
