ghost use Rattle.std.specs.Prelude.{◌≡◌, ◌+◌, ◌≤◌, ℕ, Option, IfSome};
ghost use Rattle.fare_collector.specs.Collecting.{changed, one_back};

/// To accept a tap of a device and then undo it leaves the next link of each device as it was.
pub fn unaccept_undoes_accept()
    ensures { (table : ℕ → Option ℕ) (device : ℕ) → IfSome (table device) (λ next. 1 ≤ next) → (other : ℕ) → changed one_back (changed (λ next. next + 1) table device) device other ≡ table other }
{}
