//! Laws of the clock. Each is a function that does nothing, and its contract is the law.
ghost use Rattle.std.specs.Prelude.{◌≡◌, ℕ, List};
ghost use Rattle.fare_day.specs.declared.zone.Zone.{Zone};
ghost use Rattle.fare_day.specs.Clock.{HasRule, offset_at};
ghost use Rattle.fare_day.specs.TrafficDay.{traffic_day, traffic_day_in_range};

/// Two zones that go by the rule of one text are equally far ahead of UTC at each moment, and tell the same
/// traffic days.
pub fn one_rule_tells_one_time()
    ensures offset { (a b : Zone) (text : List ℕ) (moment : ℕ) → HasRule a text → HasRule b text → offset_at a moment ≡ offset_at b moment }
    ensures day { (a b : Zone) (text : List ℕ) (moment : ℕ) → HasRule a text → HasRule b text → traffic_day a moment ≡ traffic_day b moment }
    ensures in_range { (a b : Zone) (text : List ℕ) (moment : ℕ) → HasRule a text → HasRule b text → traffic_day_in_range a moment ≡ traffic_day_in_range b moment }
{}
