//! Laws of agreement. Each is a function that does nothing, whose contract is the law.
ghost use Rattle.std.specs.Prelude.{◌≡◌, ℕ, ◌+◌, ◌≤◌, ◌==◌, Option, List, ◌∷◌, ◌++◌, length, slice_get, true, false, IfSome, None, Some, Err};
ghost use Rattle.std.specs.List.{AllByRecursion};
ghost use Rattle.fare_record.specs.Limits.{IsDay};
ghost use Rattle.fare_record.specs.Values.{RecordValue, StatementValue};
ghost use Rattle.fare_record.specs.declared.item.Item.{Item};
ghost use Rattle.fare_record.specs.declared.item.Item.TheVariants.{Tap};
ghost use Rattle.fare_scheme.specs.Values.{SchemeValue};
ghost use Rattle.fare_scheme.specs.Facts.{IsScheme};
ghost use Rattle.fare_growth.specs.Growth.{AddsTo};
ghost use Rattle.fare_cap.specs.Fares.{week_start};
ghost use Rattle.fare_cap.specs.Bills.{bill_of};
ghost use Rattle.fare_owner.specs.declared.closing.CloseFault.TheVariants.{CountsShort};
ghost use Rattle.fare_store.specs.Tables.{put};
ghost use Rattle.fare_store.specs.OutboxWords.{OutboxValue, IsEmptyOutbox, IsNextStatement, pruned, without_statements};
ghost use Rattle.fare_store.specs.LedgerWords.{LedgerValue, IsOfScheme, IsEmptyLedger, close_of, with_close, AreTapsBetween};
ghost use Rattle.fare_side.specs.Weeks.{open_of};
ghost use Rattle.fare_world.specs.Kept.{IsSystem};
ghost use Rattle.fare_world.specs.Knowing.{knows_owner};
ghost use Rattle.fare_world.specs.Shown.{IsArrivedOf};
ghost use Rattle.fare_world.specs.System.{Arrived, System};
ghost use Rattle.fare_history.specs.Serving.{device_of, IsOfDevice, IsDated, put_by, given_all, AreUnrefused, Service, IsService};
ghost use Rattle.fare_history.specs.Gathering.{Entry, Gathering, items_of, accepted_by, storing_all, IsFree, AreFree, IsGathering};
ghost use Rattle.fare_history.specs.Plainly.{ServesPlainly, IsFinished, IsWholeService, GathersPlainly};
ghost use Rattle.fare_history.specs.Stores.{StoresValue, Session, Collects, Serves_owner, stores_after_all};
ghost use Rattle.fare_refinement.specs.Sessions as sent;
ghost use Rattle.fare_refinement.specs.Sessions.{ShowsStores, AreSessions};
ghost use Rattle.fare_agreement.specs.Parts.{parts_of, first_forgotten};
ghost use Rattle.fare_agreement.specs.Totals.{had_by, held_by, stored_new, taken_new};
ghost use Rattle.fare_agreement.specs.Agreeing.{AreNumberedLists, IsOf, had, Agrees, numbered_by_devices};
ghost use Rattle.fare_agreement.specs.Growing.{StoresGrew, StoresLast};
ghost use Rattle.fare_agreement.specs.Stopping.{is_known, with_link_alone, with_row_alone, IsSessionOf, AreSessionsOf, IsBegunOf, AreKept, IsLeftBy, AreAnswered, AreLeft, lets_go, LetNothingGo, AreKeptStill, AreAnsweredStill};
ghost use Rattle.fare_agreement.specs.Told.{told_sessions};

/// Sessions whose items are those of the lists, one after the other, lead from stores that agree with the lists
/// to stores that do. Where none of them lets anything go, no number falls, and no tap, statement, closed day or retired
/// lane goes, and what was acknowledged, stored, taken, closed or retired in any of them is in the stores in the end. Where
/// some do, all of that lasts but the taps and statements that were let go, and these are of days before the one from which
/// on the owner's ledger holds all.
pub fn sessions_keep_agreement()
    ensures agrees { (sc : SchemeValue) (lists : ℕ → List RecordValue) (h : StoresValue) (qs : List Session) → AreNumberedLists lists → Agrees sc lists h → AreSessionsOf sc lists h qs → Agrees sc lists (stores_after_all h qs) }
    ensures grew { (sc : SchemeValue) (lists : ℕ → List RecordValue) (h : StoresValue) (qs : List Session) → AreNumberedLists lists → Agrees sc lists h → AreSessionsOf sc lists h qs → LetNothingGo qs → StoresGrew h (stores_after_all h qs) }
    ensures kept { (sc : SchemeValue) (lists : ℕ → List RecordValue) (h : StoresValue) (qs : List Session) → AreNumberedLists lists → Agrees sc lists h → AreSessionsOf sc lists h qs → LetNothingGo qs → AllByRecursion (AreKept sc (stores_after_all h qs)) qs }
    ensures lasts { (sc : SchemeValue) (lists : ℕ → List RecordValue) (h : StoresValue) (qs : List Session) → AreNumberedLists lists → Agrees sc lists h → AreSessionsOf sc lists h qs → StoresLast h (stores_after_all h qs) }
    ensures still { (sc : SchemeValue) (lists : ℕ → List RecordValue) (h : StoresValue) (qs : List Session) → AreNumberedLists lists → Agrees sc lists h → AreSessionsOf sc lists h qs → AllByRecursion (AreKeptStill sc (stores_after_all h qs)) qs }
{}

/// The same of what a stop in a session leaves: what the session had made of the stores until then, or also
/// what the store call that failed commits. What the session was answered is in it.
pub fn a_stop_keeps_agreement()
    ensures agrees { (sc : SchemeValue) (lists : ℕ → List RecordValue) (h k : StoresValue) (q : Session) → AreNumberedLists lists → Agrees sc lists h → IsBegunOf sc lists h q → IsLeftBy h q k → Agrees sc lists k }
    ensures grew { (sc : SchemeValue) (lists : ℕ → List RecordValue) (h k : StoresValue) (q : Session) → AreNumberedLists lists → Agrees sc lists h → IsBegunOf sc lists h q → IsLeftBy h q k → lets_go q ≡ false → StoresGrew h k }
    ensures lasts { (sc : SchemeValue) (lists : ℕ → List RecordValue) (h k : StoresValue) (q : Session) → AreNumberedLists lists → Agrees sc lists h → IsBegunOf sc lists h q → IsLeftBy h q k → StoresLast h k }
    ensures kept { (sc : SchemeValue) (lists : ℕ → List RecordValue) (h k : StoresValue) (q : Session) → AreNumberedLists lists → Agrees sc lists h → IsBegunOf sc lists h q → IsLeftBy h q k → AreAnswered sc k q }
    ensures begun { (sc : SchemeValue) (lists : ℕ → List RecordValue) (h : StoresValue) (q : Session) → IsSessionOf sc lists h q → IsBegunOf sc lists h q }
{}

/// The same of sessions one after the other, each whole or stopped.
pub fn stops_keep_agreement()
    ensures agrees { (sc : SchemeValue) (lists : ℕ → List RecordValue) (h k : StoresValue) (qs : List Session) → AreNumberedLists lists → Agrees sc lists h → AreLeft sc lists h qs k → Agrees sc lists k }
    ensures grew { (sc : SchemeValue) (lists : ℕ → List RecordValue) (h k : StoresValue) (qs : List Session) → AreNumberedLists lists → Agrees sc lists h → AreLeft sc lists h qs k → LetNothingGo qs → StoresGrew h k }
    ensures kept { (sc : SchemeValue) (lists : ℕ → List RecordValue) (h k : StoresValue) (qs : List Session) → AreNumberedLists lists → Agrees sc lists h → AreLeft sc lists h qs k → LetNothingGo qs → AllByRecursion (AreAnswered sc k) qs }
    ensures lasts { (sc : SchemeValue) (lists : ℕ → List RecordValue) (h k : StoresValue) (qs : List Session) → AreNumberedLists lists → Agrees sc lists h → AreLeft sc lists h qs k → StoresLast h k }
    ensures still { (sc : SchemeValue) (lists : ℕ → List RecordValue) (h k : StoresValue) (qs : List Session) → AreNumberedLists lists → Agrees sc lists h → AreLeft sc lists h qs k → AllByRecursion (AreAnsweredStill sc k) qs }
{}

/// What a session says in plain sentences it says also of what a stop in it leaves: what an owner's session did, and
/// where nothing is left and the forwarder came to the end, that all is taken and pruned; and what the writer did,
/// where its hand is empty. So at each boundary between sessions one without a fault did what it says.
pub fn what_a_stop_leaves_says_plainly()
    ensures served { (sc : SchemeValue) (h k : StoresValue) (owner : ℕ) (v : Service) → IsService sc owner h.outbox (h.ledgers owner) v → IsLeftBy h (Serves_owner owner v) k → ServesPlainly owner h.outbox k.outbox (h.ledgers owner) (k.ledgers owner) }
    ensures whole { (sc : SchemeValue) (h k : StoresValue) (owner : ℕ) (v : Service) → IsService sc owner h.outbox (h.ledgers owner) v → IsFinished sc owner h.outbox (h.ledgers owner) v → IsLeftBy h (Serves_owner owner v) k → IsWholeService sc owner h.outbox k.outbox (h.ledgers owner) (k.ledgers owner) }
    ensures beside { (h k : StoresValue) (owner other : ℕ) (v : Service) → (other == owner) ≡ false → IsLeftBy h (Serves_owner owner v) k → k.ledgers other ≡ h.ledgers other }
    ensures gathered { (sc : SchemeValue) (h k : StoresValue) (g : Gathering) → IsGathering sc h.outbox g → g.hand ≡ None → IsLeftBy h (Collects g) k → GathersPlainly sc h.outbox k.outbox g × (k.ledgers ≡ h.ledgers) }
{}

/// Empty stores agree with any lists.
pub fn empty_stores_agree()
    ensures { (sc : SchemeValue) (lists : ℕ → List RecordValue) (h : StoresValue) → IsEmptyOutbox h.outbox → ((owner : ℕ) → knows_owner sc owner ≡ true → IsEmptyLedger (h.ledgers owner)) → Agrees sc lists h }
{}

/// Stores that agree under a scheme agree with the same lists under a later one that adds to it, where the ledgers of the owners
/// that it adds are empty: what the outbox has had for such an owner, if anything, waits there.
pub fn added_schemes_keep_agreement()
    ensures { (kept later : SchemeValue) (lists : ℕ → List RecordValue) (h : StoresValue) → IsScheme kept → AddsTo kept later → ((owner : ℕ) → knows_owner kept owner ≡ false → knows_owner later owner ≡ true → IsEmptyLedger (h.ledgers owner)) → Agrees kept lists h → Agrees later lists h }
{}

/// The stores that a system shows, as those of a world that stands there, agree with what its devices numbered,
/// whatever events led to it. What has arrived there is of these lists, and so is the item of each packet; and
/// sessions whose frames are packets of the system are sessions of items of these lists.
pub fn stores_of_a_system_agree()
    ensures numbered { (sc : SchemeValue) (s : System) → IsSystem sc s → AreNumberedLists (numbered_by_devices s) }
    ensures agrees { (sc : SchemeValue) (s : System) (h : StoresValue) → IsSystem sc s → ShowsStores sc s h → Agrees sc (numbered_by_devices s) h }
    ensures arrived { (sc : SchemeValue) (s : System) (x : Arrived) (i : Item) → IsSystem sc s → IsArrivedOf s.devices x i → IsOf (numbered_by_devices s) i }
    ensures sessions { (sc : SchemeValue) (s : System) (h : StoresValue) (qs : List sent.Session) → IsSystem sc s → AreSessions sc s h qs → AreSessionsOf sc (numbered_by_devices s) h (told_sessions qs) }
    ensures same { (h : StoresValue) (qs : List sent.Session) → stores_after_all h (told_sessions qs) ≡ sent.stores_after_all h qs }
{}

/// Where the rows agree, each tap that the outbox has had and the owner has not taken is a row.
pub fn no_tap_is_lost()
    ensures { (sc : SchemeValue) (lists : ℕ → List RecordValue) (h : StoresValue) (owner device k : ℕ) (r : RecordValue) → Agrees sc lists h → knows_owner sc owner ≡ true → length ((h.ledgers owner).taken device) ≤ k → slice_get (had lists h.outbox owner device) k ≡ Some r → h.outbox.rows owner device (k + 1) ≡ Some r }
{}

/// Where the rows agree, an owner's ledger refuses no item of its session: each tap is its own, the next and of
/// no closed day, and no statement is held with another count. Nor does the outbox refuse what the writer took or
/// has in its hand, but for want of room: each tap has the next link and a free place, and no statement is held with
/// another count.
pub fn no_item_of_the_lists_is_refused()
    ensures served { (sc : SchemeValue) (lists : ℕ → List RecordValue) (h : StoresValue) (owner : ℕ) (v : Service) → Agrees sc lists h → knows_owner sc owner ≡ true → (h.ledgers owner).owner ≡ owner → IsOfScheme sc (h.ledgers owner) → IsService sc owner h.outbox (h.ledgers owner) v
        → AreUnrefused (h.ledgers owner) (put_by v) }
    ensures gathered { (sc : SchemeValue) (lists : ℕ → List RecordValue) (h : StoresValue) (g : Gathering) → AreNumberedLists lists → Agrees sc lists h → AllByRecursion (λ i. is_known sc i ≡ true) (accepted_by g) → AllByRecursion (IsOf lists) (accepted_by g) → IsGathering sc h.outbox g
        → AreFree h.outbox g.entries × IfSome g.hand (IsFree (storing_all h.outbox g.entries)) }
{}

/// What sessions add: the sum of the greatest links and the number of statements of an outbox grow by how many
/// items it stored that it had not stored before, and the taps and statements of a ledger by how many it took.
pub fn sessions_add_what_was_new()
    ensures stored { (sc : SchemeValue) (x : OutboxValue) (es : List Entry) → IsScheme sc → AllByRecursion (λ i. IsOfDevice sc (device_of i)) (items_of es) → had_by sc (storing_all x es) ≡ had_by sc x + stored_new x es }
    ensures taken { (sc : SchemeValue) (l : LedgerValue) (items : List Item) → IsScheme sc → AllByRecursion (λ i. IsOfDevice sc (device_of i)) items → AllByRecursion IsDated items → held_by sc (given_all l items) ≡ held_by sc l + taken_new l items }
{}

/// Where the rows agree with the lists and an owner has closed a day of each device or retired its lane, the bill of
/// the taps that its ledger holds of the week is the bill of the owner's parts of the lists, but that of a retired lane
/// it has what was taken; if nothing of the week was let go.
pub fn bills_are_of_the_lists()
    ensures { (sc : SchemeValue) (lists : ℕ → List RecordValue) (h : StoresValue) (owner day : ℕ) (rows : List RecordValue) → IsDay day → IsScheme sc → AreNumberedLists lists → Agrees sc lists h → knows_owner sc owner ≡ true → (h.ledgers owner).start ≡ sc.start → open_of (h.ledgers owner) day sc ≡ None → first_forgotten (h.ledgers owner).from (week_start sc day) sc.devices ≡ None → AreTapsBetween (h.ledgers owner) (week_start sc day) day rows
        → bill_of sc rows day ≡ bill_of sc (parts_of sc lists (h.ledgers owner) owner) day }
{}

/// Where a row is pruned before its take is committed, or a day is closed of which fewer taps are taken than
/// stated, the rows do not agree, whatever the lists are. Nor do they where a tap is stored in two parts and a stop
/// comes between them: its link without its row, or its row without its link.
pub fn the_order_of_commits_matters()
    ensures pruned { (sc : SchemeValue) (lists : ℕ → List RecordValue) (h : StoresValue) (owner device : ℕ) (r : RecordValue) → knows_owner sc owner ≡ true → slice_get (had lists h.outbox owner device) (length ((h.ledgers owner).taken device)) ≡ Some r → Agrees sc lists (record h { outbox = pruned owner device (length ((h.ledgers owner).taken device) + 1) h.outbox }) → ⊥ }
    ensures closed { (sc : SchemeValue) (lists : ℕ → List RecordValue) (h : StoresValue) (owner device day stated taken : ℕ) → knows_owner sc owner ≡ true → close_of (h.ledgers owner) device day ≡ Err (CountsShort stated taken) → (h.ledgers owner).from device ≤ day → Agrees sc lists (record h { ledgers = put h.ledgers owner (with_close device (h.ledgers owner)) }) → ⊥ }
    ensures link_alone { (sc : SchemeValue) (lists : ℕ → List RecordValue) (h : StoresValue) (r : RecordValue) → AreNumberedLists lists → Agrees sc lists h → knows_owner sc r.owner ≡ true → IsOf lists (Tap r) → r.link ≡ h.outbox.upto r.device + 1 → Agrees sc lists (record h { outbox = with_link_alone r h.outbox }) → ⊥ }
    ensures row_alone { (sc : SchemeValue) (lists : ℕ → List RecordValue) (h : StoresValue) (r : RecordValue) → AreNumberedLists lists → Agrees sc lists h → knows_owner sc r.owner ≡ true → IsOf lists (Tap r) → r.link ≡ h.outbox.upto r.device + 1 → Agrees sc lists (record h { outbox = with_row_alone r h.outbox }) → ⊥ }
{}

/// An owner's statements of a device's days before one may go from an outbox: stores that agreed agree, and what is
/// asked of the lane's statements from that day on, or a later one, is answered as it was.
pub fn statements_may_go()
    ensures agrees { (sc : SchemeValue) (lists : ℕ → List RecordValue) (h : StoresValue) (owner device day : ℕ) → Agrees sc lists h → Agrees sc lists (record h { outbox = without_statements owner device day h.outbox }) }
    ensures asked { (x : OutboxValue) (owner device day from : ℕ) (next : Option StatementValue) → day ≤ from → IsNextStatement x.stated owner device from next → IsNextStatement (without_statements owner device day x).stated owner device from next }
{}
