ghost use Rattle.std.specs.Prelude.{◌≡◌, ℕ, true, List, [], ◌∷◌};
ghost use Rattle.crossbeam_queue.specs.Fifo.{Pushes, Pops, Forks, Merges, Learns};
ghost use Rattle.fare_record.specs.declared.item.Item.{Item};
ghost use Rattle.fare_lane_queue.specs.declared.rule.View.{View};
ghost use Rattle.fare_lane_queue.specs.Lane.{whole, sender, taker, both, spent, with_sent, with_taken, IsNext, IsLane, Stands};

/// Each kind of step keeps the rule of the queue, whatever the queue holds and whatever the other passes show.
/// A put changes what the forwarder's pass shows and nothing else, a take what the owner's shows; a put that
/// finds the queue full and a take that finds it empty change nothing, and learn that the rule stands. A new
/// queue's pass is cut in two, and at the end the two come together.
pub fn each_step_keeps_the_rule()
    ensures opens { IsLane [] (whole ∷ []) }
    ensures put { (capacity port : ℕ) (v : View) (item : Item) → v.puts ≡ true → IsNext v.bases v.sent item → Pushes IsLane capacity port v item (λ w. w ≡ with_sent v item) }
    ensures take { (port : ℕ) (v : View) → v.takes ≡ true → Pops IsLane port v (λ item w. (w ≡ with_taken v item) × IsNext v.bases v.taken item) }
    ensures full_or_empty { (port : ℕ) (v : View) → Learns IsLane port v (Stands v) }
    ensures split { (port : ℕ) (bases : List (ℕ × ℕ)) → Forks IsLane port whole (sender bases) (taker bases) }
    ensures join { (port other : ℕ) (v w : View) → v.puts ≡ true → w.takes ≡ true → Merges IsLane port v other w (both v w) spent }
{}
