//! Laws of bills. Each is a function that does nothing, whose contract is the law.
ghost use Rattle.fare_cap.specs.Spans.{OtherDaysCountNowhere, OrderCountsNowhere};
ghost use Rattle.fare_cap.specs.WindowLaws.{TapsFallIntoWindows, AllArePaidWithoutWindows};

/// A bill is the same by all records as by those of the days from where the week begins to the day, and in
/// whatever order they stand, where no two have the same moment, device and lane number.
pub fn bills_are_of_a_week()
    ensures days { OtherDaysCountNowhere }
    ensures order { OrderCountsNowhere }
{}

/// An account's taps of a day fall into windows: a paid tap, and free ones that are each at most `hop` seconds behind
/// it, and then the next paid tap, which is more than `hop` seconds behind the one before. With a `hop` of 0 each tap is
/// paid.
pub fn taps_fall_into_windows()
    ensures windows { TapsFallIntoWindows }
    ensures none { AllArePaidWithoutWindows }
{}
