ghost use Rattle.std.specs.Prelude.{◌≡◌, ◌↔◌, ◌+◌, ◌%◌, ◌<◌, IsSome, IfSome, IsTrue};
ghost use Rattle.fare_day.specs.Week.{IsMonday, IsMondayOf, monday_on_or_before};

use fare_record::Day;

// Day 0, 1970-01-01, was a Thursday: three days after a Monday.
fn days_since_monday(day: Day) -> u32
    ensures { result ≡ (day + 3) % 7 }
{
    (day.get() + 3) % 7
}

/// The Monday on or before a day. None for days 0 to 3, whose Monday is before 1970-01-01.
pub fn monday_of(day: Day) -> Option<Day>
    ensures some { IsSome result ↔ (3 < day) }
    ensures monday { IfSome result (IsMondayOf day) }
    ensures value { IfSome result (λ monday. monday ≡ monday_on_or_before day) }
{
    let monday = day.get().checked_sub(days_since_monday(day))?;
    Day::new(monday as u64)
}

/// Whether a day is a Monday.
pub fn is_monday(day: Day) -> bool
    ensures { IsTrue result ↔ IsMonday day }
{
    days_since_monday(day) == 0
}
