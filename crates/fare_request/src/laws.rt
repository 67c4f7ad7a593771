//! What follows of what requests ask.
ghost use Rattle.std.specs.Prelude.{◌≡◌};
ghost use Rattle.http.specs.declared.request.Parts.{Parts};
ghost use Rattle.fare_request.specs.Asking.{Asks};
ghost use Rattle.fare_request.specs.declared.ask.Ask.{Ask};

/// A request asks for one thing. So a right one is never refused, and one that is refused has one reason.
pub fn a_request_asks_for_one_thing()
    ensures { (p : Parts) (one other : Ask) → Asks p one → Asks p other → one ≡ other }
{}
