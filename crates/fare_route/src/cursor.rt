ghost use Rattle.std.specs.Prelude.{◌≡◌, ◌↔◌, IsSome, IfSome, Some, None};
ghost use Rattle.fare_record.specs.Limits.{IsDay};
ghost use Rattle.fare_route.specs.Cursors.{passed, stayed, undone};

use fare_record::Day;

// How far a lane has been handed on, and how far it was before the last step.
#[derive(Clone, Copy, Debug)]
pub(crate) struct Cursor {
    // The lane number of the last tap.
    pub(crate) lane: u64,
    // The first day whose statement wasn't handed on.
    pub(crate) day: u64,
    // Both before the last step, if it handed something on and wasn't undone.
    pub(crate) before: Option<(u64, u64)>,
}

impl Cursor {
    // The cursor behind what is handed on, at this lane number and day.
    pub(crate) fn passed(self, lane: u64, day: u64) -> Cursor
        ensures { result ≡ passed lane day self }
    {
        Cursor {
            lane,
            day,
            before: Some((self.lane, self.day)),
        }
    }

    // The cursor where nothing is handed on, and so there is nothing to undo.
    pub(crate) fn stayed(self) -> Cursor
        ensures { result ≡ stayed self }
    {
        Cursor {
            lane: self.lane,
            day: self.day,
            before: None,
        }
    }

    // The cursor before the last step, if there is something to undo.
    pub(crate) fn back(self) -> Cursor
        ensures { result ≡ undone self }
    {
        match self.before {
            Some((lane, day)) => Cursor {
                lane,
                day,
                before: None,
            },
            None => self,
        }
    }

    // The day from which on statements are handed on, if there is such a day.
    pub(crate) fn from(self) -> Option<Day>
        ensures valid { IsSome result ↔ IsDay self.day }
        ensures value { IfSome result (λ day. day ≡ self.day) }
    {
        Day::new(self.day)
    }
}
