ghost use Rattle.std.specs.Prelude.{ℕ, Some, refl};
ghost use Rattle.std.specs.Cmp.{partial_order_from_agreeing_total};
ghost use Rattle.fare_store.specs.Falling.{falling, falling_total, falling_ties};

use std::cmp::Ordering;
use std::marker::Model;

// A lane number in falling order, as the `Reverse` of Rust's `std::cmp`, which the library lacks.
#[derive(Clone, Copy, PartialEq, Eq)]
pub(super) struct Reverse(pub(super) u64);

impl Model for Reverse {
    ghost Value = { ℕ };

    ghost view = { λ a. a.0 };

    ghost inverse = { λ n. record { 0 = n } };
}

impl PartialOrd for Reverse {
    ghost partial_cmp = { λ x y. Some (falling x y) };

    ghost laws = { partial_order_from_agreeing_total falling falling_total (λ x y. refl) falling_ties };

    fn partial_cmp(&self, other: &Reverse) -> Option<Ordering> {
        Some(self.cmp(other))
    }
}

impl Ord for Reverse {
    ghost cmp = { falling };

    ghost total = { falling_total };

    ghost matches_partial_cmp = { λ x y. refl };

    ghost matches_eq = { falling_ties };

    fn cmp(&self, other: &Reverse) -> Ordering {
        other.0.cmp(&self.0)
    }
}
