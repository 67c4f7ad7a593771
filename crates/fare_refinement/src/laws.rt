//! The laws that tie sessions to events.
ghost use Rattle.std.specs.Prelude.{◌≡◌, ◌+◌, ◌≤◌, ℕ, List, [], ◌∷◌, ◌++◌, true, Some};
ghost use Rattle.std.specs.List.{AllByRecursion};
ghost use Rattle.fare_record.specs.declared.item.Item.{Item};
ghost use Rattle.fare_scheme.specs.Values.{SchemeValue};
ghost use Rattle.fare_scheme.specs.Facts.{IsScheme};
ghost use Rattle.fare_store.specs.OutboxWords.{OutboxValue};
ghost use Rattle.fare_store.specs.LedgerWords.{LedgerValue};
ghost use Rattle.fare_world.specs.System.{Routed, System};
ghost use Rattle.fare_world.specs.Knowing.{knows_owner};
ghost use Rattle.fare_world.specs.Owning.{lane_room, next_routed};
ghost use Rattle.fare_world.specs.Steps.{after};
ghost use Rattle.fare_world.specs.Kept.{IsSystem};
ghost use Rattle.fare_world.specs.Shown.{OwnerShape, Shape, Shows};
ghost use Rattle.fare_history.specs.Serving.{Cursors, behind_ledger, AreNextItems, AreUnrefused, device_of, IsWorking, Service, IsService};
ghost use Rattle.fare_history.specs.Gathering.{AreStored, storing_all, IsFree, AreFree, links_of, CountsFrom, Gathering, accepted_by, IsGathering};
ghost use Rattle.fare_history.specs.Stores.{StoresValue};
ghost use Rattle.fare_refinement.specs.ShownStores.{ShowsOutbox, ShowsLedger};
ghost use Rattle.fare_refinement.specs.Served.{ComesNext, IsAsFar, service_events, IsServed};
ghost use Rattle.fare_refinement.specs.Gathered.{Given, items, SentEntry, SentGathering, givens_of, sent_by, told_entries, told_by, IsGiven, WasSent, HasStations, gathering_events, IsGathered};
ghost use Rattle.fare_refinement.specs.Sessions.{ShowsStores, Session, stores_after_all, AreSessions, sessions_events, HasLaneRoom};

/// What an owner's session does to the stores, and what it leaves in the hand and the queue, is what its events do to
/// a system that shows the stores: the owner's restart; the forward, the fetch and the take of each taken item; the
/// forward and the fetch of the item in the hand; the forwards of those in the queue; and the prunes.
pub fn a_service_is_a_run()
    ensures { (sc : SchemeValue) (s : System) (owner : ℕ) (x : OutboxValue) (l : LedgerValue) (v : Service)
        → IsSystem sc s → knows_owner sc owner ≡ true → 1 ≤ lane_room sc owner → ShowsOutbox s x → ShowsLedger sc s owner l → IsService sc owner x l v
        → IsServed sc owner x l v s (after sc s (service_events owner v)) }
{}

/// What a session of the stations and the writer does to the outbox, what it answers and what it leaves is what its
/// events do to a system that shows the outbox and has sent the frames: the hub's restart; the arrival, the draw and
/// the store of each handled item, and each of its acknowledgements with its answer; the arrival and the draw of the
/// item in the hand; the arrivals of those in the inbox; and the last acknowledgements with their answers.
pub fn a_gathering_is_a_run()
    ensures { (sc : SchemeValue) (s : System) (x : OutboxValue) (g : SentGathering)
        → IsSystem sc s → HasStations sc → 1 ≤ sc.inbox_capacity → ShowsOutbox s x → AllByRecursion (IsGiven s) (sent_by g) → IsGathering sc x (told_by g)
        → IsGathered sc x g s (after sc s (gathering_events sc g)) }
{}

/// An owner's ledger refuses no item of its session, all of lanes that are not retired: each tap is its own, the next
/// and of no closed day, and no statement is held with another count.
pub fn no_item_of_a_service_is_refused()
    ensures { (sc : SchemeValue) (s : System) (owner : ℕ) (x : OutboxValue) (l : LedgerValue) (items : List Item)
        → IsSystem sc s → knows_owner sc owner ≡ true → 1 ≤ lane_room sc owner → ShowsOutbox s x → ShowsLedger sc s owner l → AreNextItems owner x (behind_ledger sc l) items → AllByRecursion (λ i. IsWorking l (device_of i)) items
        → AreUnrefused l items }
{}

/// Sessions one after the other, and the closes of days and the ends of lanes between them, do to the stores what their events do to a
/// system that shows the stores and has sent all frames; the system that these lead to is again one that events lead
/// to.
pub fn sessions_are_a_run()
    ensures { (sc : SchemeValue) (s : System) (h : StoresValue) (qs : List Session)
        → IsSystem sc s → HasStations sc → HasLaneRoom sc → 1 ≤ sc.inbox_capacity → ShowsStores sc s h → AreSessions sc s h qs
        → IsSystem sc (after sc s (sessions_events sc qs)) × ShowsStores sc (after sc s (sessions_events sc qs)) (stores_after_all h qs) }
{}

/// What a forward gives, in a system that shows the outbox, is an item that comes next in the words of a session. So
/// what is asked of a session's items is no more than the event does.
pub fn each_forwarded_item_comes_next()
    ensures { (sc : SchemeValue) (s : System) (owner device : ℕ) (x : OutboxValue) (c : Cursors) (y : Routed)
        → IsSystem sc s → ShowsOutbox s x → IsAsFar s owner c → next_routed s owner device ≡ Some y
        → ComesNext owner x c y }
{}

/// The outbox refuses no item of a session but for want of room: once those before it are stored, a tap has its
/// device's next link and no row in its place, and no other count is held for a statement.
pub fn no_item_of_a_gathering_is_refused()
    ensures { (sc : SchemeValue) (s : System) (x : OutboxValue) (es : List SentEntry) (g : Given)
        → IsSystem sc s → HasStations sc → 1 ≤ sc.inbox_capacity → ShowsOutbox s x → AllByRecursion (IsGiven s) (givens_of es ++ g ∷ [])
        → ((device : ℕ) → CountsFrom (x.upto device + 1) (links_of device (items (givens_of es ++ g ∷ [])))) → AreStored sc x (told_entries es)
        → AreFree x (told_entries es) × IsFree (storing_all x (told_entries es)) g.item }
{}

/// In a lawful scheme, as each sealed one is, each device's station is registered (`stations`), and the lane queue of
/// each registered owner (`lanes`) and the inbox (`inbox`) may hold an item: what the laws above ask of a scheme.
pub fn a_scheme_has_room_for_sessions()
    ensures stations { (sc : SchemeValue) → IsScheme sc → HasStations sc }
    ensures lanes { (sc : SchemeValue) → IsScheme sc → HasLaneRoom sc }
    ensures inbox { (sc : SchemeValue) → IsScheme sc → 1 ≤ sc.inbox_capacity }
{}

/// The stores of a world that stands at a system are shown by the system: the outbox and each owner's ledger. So the
/// laws above begin where the core's own contracts end.
pub fn a_world_shows_its_stores()
    ensures outbox { (sc : SchemeValue) (h : Shape) (s : System) → Shows sc h s → ShowsOutbox s h.outbox }
    ensures ledger { (sc : SchemeValue) (h : Shape) (s : System) (owner : ℕ) (y : OwnerShape) → Shows sc h s → h.owners owner ≡ Some y → ShowsLedger sc s owner y.ledger }
{}

/// Where each item that a session accepted was sent as some packet, the session can be told with the packets' numbers,
/// as the law of a session of the stations and the writer asks.
pub fn a_gathering_has_packets()
    ensures { (s : System) (v : Gathering) → AllByRecursion (WasSent s) (accepted_by v) → (g : SentGathering) × (told_by g ≡ v) × AllByRecursion (IsGiven s) (sent_by g) }
{}
