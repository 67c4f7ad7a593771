ghost use Rattle.std.specs.Prelude.{◌≡◌, ◌+◌, ◌<◌, ◌^◌};
ghost use Rattle.fare_cap.specs.Windows.{is_free as is_free_at};

use fare_record::Moment;

/// The taps of an account on a traffic day, in their order, as far as its fare asks for them.
#[derive(Clone, Copy, PartialEq, Eq, Debug)]
pub struct DayRides {
    /// How many taps they are.
    pub taps: u64,
    /// How many of them are paid. The others are free: they stand in a window that a paid one opened.
    pub paid: u64,
    /// When the last paid one opened a window.
    pub opened: Option<Moment>,
}

impl DayRides {
    ghost use Rattle.fare_cap.specs.Windows.{no_rides, one_more};

    /// No tap.
    pub fn none() -> DayRides
        ensures { result ≡ no_rides }
    {
        DayRides {
            taps: 0,
            paid: 0,
            opened: None,
        }
    }

    // Whether one more tap, at this moment, is free: at most `hop` seconds before it a window was opened. With a hop of
    // 0 no tap is free.
    fn is_free(&self, hop: u32, moment: Moment) -> bool
        ensures { result ≡ is_free_at hop self.now.opened moment }
    {
        match self.opened {
            Some(opened) => hop > 0 && moment.get() <= opened.get() + hop as u64,
            None => false,
        }
    }

    /// With one more tap behind them, at this moment, where a paid tap makes further taps free for `hop` seconds: a tap
    /// that isn't free is paid, and opens a window.
    pub fn with_tap(&self, hop: u32, moment: Moment) -> DayRides
        requires taps { self.now.taps + 1 < 2 ^ 64 }
        requires paid { self.now.paid + 1 < 2 ^ 64 }
        ensures { result ≡ one_more hop self.now moment }
    {
        let taps = self.taps + 1;
        if self.is_free(hop, moment) {
            DayRides {
                taps,
                paid: self.paid,
                opened: self.opened,
            }
        } else {
            DayRides {
                taps,
                paid: self.paid + 1,
                opened: Some(moment),
            }
        }
    }
}
