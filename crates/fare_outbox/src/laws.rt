//! Laws of where the tables stand. Each is a function that does nothing, and its contract is the law.
ghost use Rattle.fare_outbox.specs.Orders.{FitInAnyOrder, RiseInAnyOrder};

/// The tables of an outbox, alone in a database, are such as `open` takes, in whichever of the 120 orders they were
/// made.
pub fn tables_fit_in_any_order()
    ensures { FitInAnyOrder }
{}

/// The tables of an outbox of the first format, alone in a database, are such as `open` raises, in whichever of the 24
/// orders they were made.
pub fn first_tables_rise_in_any_order()
    ensures { RiseInAnyOrder }
{}
