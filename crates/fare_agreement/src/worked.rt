//! A worked stop: the owner has taken two taps, and a stop comes before their rows are pruned.
ghost use Rattle.std.specs.Prelude.{◌≡◌, ◌∷◌, [], true, None, Some};
ghost use Rattle.fare_scheme.specs.Values.{SchemeValue};
ghost use Rattle.fare_store.specs.OutboxWords.{pruned};
ghost use Rattle.fare_world.specs.Knowing.{knows_owner};
ghost use Rattle.fare_history.specs.Serving.{IsOfDevice};
ghost use Rattle.fare_history.specs.Stores.{Serves_owner, stores_after};
ghost use Rattle.fare_agreement.specs.Agreeing.{AreNumberedLists, Agrees};
ghost use Rattle.fare_agreement.specs.Stopping.{IsBegunOf, IsLeftBy, AreLeft};
ghost use Rattle.fare_agreement.specs.WorkedStop.{first_tap, second_tap, two_taps, both_stored, takes_both, prunes_alone};

/// The outbox has stored both taps of the device's list, and the owner takes them. What a stop then leaves has
/// both taken and both rows still there; it agrees with the lists, and the owner's next session prunes the rows.
/// Had its first row been pruned before the take was committed, the rows would agree no more.
pub fn a_stop_between_take_and_prune()
    ensures numbered { AreNumberedLists two_taps }
    ensures opening { (sc : SchemeValue) → Agrees sc two_taps both_stored }
    ensures begun { (sc : SchemeValue) → knows_owner sc 4 ≡ true → IsOfDevice sc 7 → IsBegunOf sc two_taps both_stored (Serves_owner 4 takes_both) }
    ensures left { IsLeftBy both_stored (Serves_owner 4 takes_both) (stores_after both_stored (Serves_owner 4 takes_both)) }
    ensures taken { ((stores_after both_stored (Serves_owner 4 takes_both)).ledgers 4).taken 7 ≡ first_tap ∷ second_tap ∷ [] }
    ensures rows { ((stores_after both_stored (Serves_owner 4 takes_both)).outbox.rows 4 7 1 ≡ Some first_tap) × ((stores_after both_stored (Serves_owner 4 takes_both)).outbox.rows 4 7 2 ≡ Some second_tap) }
    ensures agrees { (sc : SchemeValue) → knows_owner sc 4 ≡ true → IsOfDevice sc 7 → Agrees sc two_taps (stores_after both_stored (Serves_owner 4 takes_both)) }
    ensures goes_on { (sc : SchemeValue) → knows_owner sc 4 ≡ true → IsOfDevice sc 7 → AreLeft sc two_taps both_stored (Serves_owner 4 takes_both ∷ Serves_owner 4 prunes_alone ∷ []) (stores_after (stores_after both_stored (Serves_owner 4 takes_both)) (Serves_owner 4 prunes_alone)) }
    ensures gone { ((stores_after (stores_after both_stored (Serves_owner 4 takes_both)) (Serves_owner 4 prunes_alone)).outbox.rows 4 7 1 ≡ None) × ((stores_after (stores_after both_stored (Serves_owner 4 takes_both)) (Serves_owner 4 prunes_alone)).outbox.rows 4 7 2 ≡ None) }
    ensures too_soon { (sc : SchemeValue) → knows_owner sc 4 ≡ true → Agrees sc two_taps (record both_stored { outbox = pruned 4 7 1 both_stored.outbox }) → ⊥ }
{}
