//! Worked cases: what the definitions say of sessions and of frames that are written out.
ghost use Rattle.std.specs.Prelude.{◌≡◌, ℕ, List, [], ◌∷◌, Some, None};
ghost use Rattle.fare_day.specs.declared.zone.Zone.{Zone};
ghost use Rattle.fare_record.specs.declared.item.Item.TheVariants as item;
ghost use Rattle.fare_frame.specs.declared.frame.Frame.TheVariants.{Tapped};
ghost use Rattle.fare_collector.specs.Collecting.{first_link};
ghost use Rattle.fare_history.specs.Serving.{given_all, pruned_to_all, IsService};
ghost use Rattle.fare_history.specs.Gathering.{storing_all, IsGathering};
ghost use Rattle.fare_history.specs.Plainly.{IsFinished};
ghost use Rattle.fare_history.specs.AcceptedLinks.{AreAcceptedLinks, arrivals};
ghost use Rattle.fare_history.specs.Examples.{one_device, two_devices, tap_number, day_statement, new_outbox, full_outbox, new_ledger, closed_ledger, retired_ledger, whole_service, cut_service, crowded_service, taking, had_upto, had_day, tap_entry, statement_entry, whole_gathering, holding_back, storing_only};

/// An outbox holds three taps of a device and their statement, and the owner's ledger nothing. To take the taps one
/// by one, then the statement, and to prune the lane is a finished session: the ledger has all of them, and the
/// outbox no row. To end with the third tap in hand and the statement in the queue is a session too, which leaves that
/// tap's row. No session passes a tap over or takes the statement before the last tap, none takes the statement of a
/// day that is closed, and none leaves two items in a queue of one. Of a retired lane none takes a tap, and to prune
/// it is a finished session.
pub fn an_owner_takes_three_taps_and_their_statement()
    ensures whole { (clock : Zone) → IsService (one_device clock) 1 full_outbox new_ledger whole_service × IsFinished (one_device clock) 1 full_outbox new_ledger whole_service }
    ensures given { let m = given_all new_ledger whole_service.taken in (m.taken 1 ≡ tap_number 1 1 ∷ tap_number 1 2 ∷ tap_number 1 3 ∷ []) × (m.taken 2 ≡ []) × (m.stated 1 19723 ≡ Some 3) × (m.stated 1 19724 ≡ None) × (m.closed 1 ≡ 0) }
    ensures pruned { let y = pruned_to_all full_outbox 1 (given_all new_ledger whole_service.taken) whole_service.pruned in ((lane : ℕ) → y.rows 1 1 lane ≡ None) × (y.row_count ≡ 0) × (y.upto 1 ≡ 3) × (y.stated 1 1 19723 ≡ Some 3) }
    ensures cut { (clock : Zone) → IsService (one_device clock) 1 full_outbox new_ledger cut_service }
    ensures kept { let y = pruned_to_all full_outbox 1 (given_all new_ledger cut_service.taken) cut_service.pruned in (y.rows 1 1 2 ≡ None) × (y.rows 1 1 3 ≡ Some (tap_number 1 3)) × (y.row_count ≡ 1) }
    ensures passed_over { (clock : Zone) → IsService (one_device clock) 1 full_outbox new_ledger (taking (item.Tap (tap_number 1 1) ∷ item.Tap (tap_number 1 3) ∷ [])) → ⊥ }
    ensures before_the_last { (clock : Zone) → IsService (one_device clock) 1 full_outbox new_ledger (taking (item.Tap (tap_number 1 1) ∷ item.Tap (tap_number 1 2) ∷ item.Stated (day_statement 1 3) ∷ [])) → ⊥ }
    ensures closed { (clock : Zone) → IsService (one_device clock) 1 full_outbox closed_ledger (taking (item.Stated (day_statement 1 3) ∷ [])) → ⊥ }
    ensures crowded { (clock : Zone) → IsService (one_device clock) 1 full_outbox new_ledger crowded_service → ⊥ }
    ensures retired { (clock : Zone) → IsService (one_device clock) 1 full_outbox retired_ledger (taking (item.Tap (tap_number 1 1) ∷ [])) → ⊥ }
    ensures ended { (clock : Zone) → IsFinished (one_device clock) 1 full_outbox retired_ledger (record (taking []) { pruned = 1 ∷ [] }) }
{}

/// Two stations hand in the first taps of their devices, and one of them a statement twice: the outbox has two rows
/// and one statement, and tells each device so. No session stores the same tap twice, since a station accepts each
/// link once; none acknowledges a link that is not stored, nor a day without its statement; and one may leave a tap
/// in the writer's hand and one item, but not two, in an inbox of one.
pub fn two_stations_hand_in_a_tap_each()
    ensures whole { (clock : Zone) → IsGathering (two_devices clock) new_outbox whole_gathering }
    ensures rows { let y = storing_all new_outbox whole_gathering.entries in (y.rows 1 1 1 ≡ Some (tap_number 1 1)) × (y.rows 1 2 1 ≡ Some (tap_number 2 1)) × (y.row_count ≡ 2) }
    ensures rest { let y = storing_all new_outbox whole_gathering.entries in (y.upto 1 ≡ 1) × (y.upto 2 ≡ 1) × (y.stated 1 1 19723 ≡ Some 1) × (y.stated_count ≡ 1) }
    ensures twice { (clock : Zone) → IsGathering (two_devices clock) new_outbox (storing_only (tap_entry 1 1 [] ∷ tap_entry 1 1 [] ∷ [])) → ⊥ }
    ensures ahead { (clock : Zone) → IsGathering (two_devices clock) new_outbox (storing_only (tap_entry 1 1 (had_upto 1 2 ∷ []) ∷ [])) → ⊥ }
    ensures unstated { (clock : Zone) → IsGathering (two_devices clock) new_outbox (storing_only (tap_entry 1 1 (had_day 1 ∷ []) ∷ [])) → ⊥ }
    ensures left { (clock : Zone) → IsGathering (two_devices clock) new_outbox (holding_back (item.Tap (tap_number 2 1) ∷ [])) }
    ensures crowded { (clock : Zone) → IsGathering (two_devices clock) new_outbox (holding_back (item.Tap (tap_number 2 1) ∷ item.Tap (tap_number 2 2) ∷ [])) → ⊥ }
{}

/// Of taps with links 2, 1, 1, 2 the second and the last are accepted, and of 2, 1, 1 the second alone, by the
/// definition and by a collector frame by frame; a tap that does not name its product's owner is passed over.
pub fn links_are_accepted_one_after_the_other()
    ensures both { (clock : Zone) → AreAcceptedLinks (one_device clock) 1 0 (Tapped (tap_number 1 2) ∷ Tapped (tap_number 1 1) ∷ Tapped (tap_number 1 1) ∷ Tapped (tap_number 1 2) ∷ []) (tap_number 1 1 ∷ tap_number 1 2 ∷ []) }
    ensures one { (clock : Zone) → AreAcceptedLinks (one_device clock) 1 0 (Tapped (tap_number 1 2) ∷ Tapped (tap_number 1 1) ∷ Tapped (tap_number 1 1) ∷ []) (tap_number 1 1 ∷ []) }
    ensures owned { (clock : Zone) → AreAcceptedLinks (one_device clock) 1 0 (Tapped (record (tap_number 1 1) { owner = 2 }) ∷ Tapped (tap_number 1 1) ∷ []) (tap_number 1 1 ∷ []) }
    ensures collected { (clock : Zone) → arrivals (one_device clock) (first_link (one_device clock) 1) (Tapped (tap_number 1 2) ∷ Tapped (tap_number 1 1) ∷ Tapped (tap_number 1 1) ∷ Tapped (tap_number 1 2) ∷ []) ≡ item.Tap (tap_number 1 1) ∷ item.Tap (tap_number 1 2) ∷ [] }
{}
