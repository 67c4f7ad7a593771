ghost use Rattle.std.specs.Prelude.{◌≡◌, ℕ, true, false, List, [], ◌∷◌, nat_eq};
ghost use Rattle.std.specs.List.{list_any};
ghost use Rattle.crossbeam_queue.specs.Fifo.{Pushes, Pops, Forks, Merges, Learns};
ghost use Rattle.fare_inbox_queue.specs.declared.arrived.Arrived.{Arrived};
ghost use Rattle.fare_inbox_queue.specs.declared.inbox_rule.View.{View};
ghost use Rattle.fare_inbox_queue.specs.Inbox.{whole, seating, sender, gathered, spent, with_sent, with_taken, station_in, IsInbox, Stands};
ghost use Rattle.fare_inbox_queue.specs.declared.ack_rule.Told.{Told};
ghost use Rattle.fare_inbox_queue.specs.declared.ack_rule.View.{View as LineView};
ghost use Rattle.fare_inbox_queue.specs.Line.{whole as line_whole, sender as line_sender, hearer, both, spent as line_spent, with_sent as put_more, with_taken as take_more, IsUpTo, IsLine, Stands as LineStands};

/// Each kind of step keeps the rule of the inbox, whatever the inbox holds and whatever the other passes show.
/// A put of an item that names the pass's station changes what that pass shows and nothing else, a take what
/// the writer's shows; a put that finds the inbox full and a take that finds it empty change nothing, and learn
/// that the rule stands. A station that has no pass gets one, cut off the writer's, and at the end the writer's
/// takes it in.
pub fn each_inbox_step_keeps_the_rule()
    ensures opens { IsInbox [] (whole ∷ []) }
    ensures put { (capacity port : ℕ) (v : View) (item : Arrived) → v.puts ≡ true → station_in item ≡ v.station → Pushes IsInbox capacity port v item (λ w. w ≡ with_sent v item) }
    ensures take { (port : ℕ) (v : View) → v.takes ≡ true → Pops IsInbox port v (λ item w. w ≡ with_taken v item) }
    ensures full_or_empty { (port : ℕ) (v : View) → Learns IsInbox port v (Stands v) }
    ensures split { (port : ℕ) (v : View) (station : ℕ) → v.takes ≡ true → list_any (nat_eq station) v.seated ≡ false → Forks IsInbox port v (seating v station) (sender station) }
    ensures join { (port other : ℕ) (v w : View) → v.takes ≡ true → w.puts ≡ true → Merges IsInbox port v other w (gathered v w) spent }
{}

/// Each kind of step keeps the rule of an acknowledgement line, whatever it holds and whatever the other pass
/// shows. A put of a number that is at most what is stored changes what the writer's pass shows and nothing
/// else, a take what the station's shows; a put that finds the line full and a take that finds it empty change
/// nothing, and learn that the rule stands. A new line's pass is cut in two, and at the end the two come
/// together.
pub fn each_line_step_keeps_the_rule()
    ensures opens { IsLine [] (line_whole ∷ []) }
    ensures put { (capacity port : ℕ) (v : LineView) (told : Told) → v.puts ≡ true → IsUpTo told.item told.stored → Pushes IsLine capacity port v told (λ w. w ≡ put_more v told) }
    ensures take { (port : ℕ) (v : LineView) → v.takes ≡ true → Pops IsLine port v (λ told w. w ≡ take_more v told) }
    ensures full_or_empty { (port : ℕ) (v : LineView) → Learns IsLine port v (LineStands v) }
    ensures split { (port : ℕ) → Forks IsLine port line_whole line_sender hearer }
    ensures join { (port other : ℕ) (v w : LineView) → v.puts ≡ true → w.takes ≡ true → Merges IsLine port v other w (both v w) line_spent }
{}
