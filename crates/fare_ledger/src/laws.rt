//! Laws of where the tables stand. Each is a function that does nothing, and its contract is the law.
ghost use Rattle.fare_ledger.specs.Orders.{FitInAnyOrder, FirstsRise, SecondsRise, ThirdsRise};

/// The tables of a ledger, alone in a database, are such as `open` takes, in whichever order they were made.
pub fn tables_fit_in_any_order()
    ensures { FitInAnyOrder }
{}

/// The tables of a ledger of the first format, alone in a database, are such as `open` raises, in whichever of the 24
/// orders they were made.
pub fn first_tables_rise_in_any_order()
    ensures { FirstsRise }
{}

/// The tables of a ledger of the second format, alone in a database, are such as `open` raises, in whichever of the 120
/// orders they were made.
pub fn second_tables_rise_in_any_order()
    ensures { SecondsRise }
{}

/// The tables of a ledger of the third format, alone in a database, are such as `open` raises, in whichever of the 720
/// orders they were made.
pub fn third_tables_rise_in_any_order()
    ensures { ThirdsRise }
{}
