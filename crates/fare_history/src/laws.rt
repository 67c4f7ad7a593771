//! Laws of sessions: how the value that tells of one grows, and what it means for the stores.
ghost use Rattle.std.specs.Prelude.{◌≡◌, ◌==◌, filter, map, take, ◌+◌, ℕ, List, [], ◌∷◌, ◌++◌, length, true, Some, None, IfSome, Err, is_some};
ghost use Rattle.std.specs.List.{AllByRecursion};
ghost use Rattle.fare_record.specs.Values.{StatementValue};
ghost use Rattle.fare_record.specs.declared.item.Item.{Item};
ghost use Rattle.fare_record.specs.declared.item.Item.TheVariants as item;
ghost use Rattle.fare_scheme.specs.Values.{SchemeValue};
ghost use Rattle.fare_scheme.specs.Words.{station_of};
ghost use Rattle.fare_owner.specs.declared.statement.StatementFault.TheVariants.{Repeated};
ghost use Rattle.fare_store.specs.OutboxWords.{OutboxValue};
ghost use Rattle.fare_store.specs.LedgerWords.{LedgerValue, IsOfScheme, state_judged};
ghost use Rattle.fare_history.specs.Serving.{Cursors, device_of, AreNextItems, AreUnrefused, IsNextItem, moved_by_all, given, given_all, pruned_to_all, committed, first_taken, Service, IsService};
ghost use Rattle.fare_history.specs.Gathering.{Entry, AreStored, storing, storing_all, IsHandled, IsAnswerFrom, links_of, CountsFrom, of_station, Gathering, items_of, accepted_by, hand_stored, tried_by, AreNew, first_stored, IsGathering};
ghost use Rattle.fare_history.specs.Plainly.{ServesPlainly, IsFinished, IsWholeService, IsRefused, ShowsWhy, GathersPlainly, IsRefusedByOutbox, ShowsWhyNot};

/// Where the links of each device count up in each station's part of a list, they count up in the whole list, in
/// whatever order it has the stations (`order`); and so they do where each item comes with the name of its device's
/// station (`named`). So what each station knows of its own items is known of all that the writer took.
pub fn each_order_of_stations_counts()
    ensures order { (sc : SchemeValue) (first : ℕ → ℕ) (items : List Item) → AllByRecursion (λ i. is_some (station_of sc (device_of i)) ≡ true) items
        → ((device station : ℕ) → station_of sc device ≡ Some station → CountsFrom (first device) (links_of device (of_station sc station items)))
        → (device : ℕ) → CountsFrom (first device) (links_of device items) }
    ensures named { (sc : SchemeValue) (first : ℕ → ℕ) (named : List (ℕ × Item)) → AllByRecursion (λ (p : ℕ × Item). station_of sc (device_of p.1) ≡ Some p.0) named
        → ((device station : ℕ) → station_of sc device ≡ Some station → CountsFrom (first device) (links_of device (map (λ (p : ℕ × Item). p.1) (filter (λ (p : ℕ × Item). p.0 == station) named))))
        → (device : ℕ) → CountsFrom (first device) (links_of device (map (λ (p : ℕ × Item). p.1) named)) }
{}

/// Where a take failed and yet committed, the stores hold what they would after a session that took the item in its
/// hand, which is a session too (`committed`), also where it took several at once: that item and the first of the
/// queue (`taken`); and so it is where a store failed and yet committed, as long as
/// nothing was acknowledged after it (`stored`), also where it committed several at once: the item in the hand
/// and the first of the inbox (`first`). A statement that the ledger refuses as repeated is one that it
/// holds: to take it would change nothing (`repeated`).
pub fn a_committed_hand_is_a_session()
    ensures committed { (sc : SchemeValue) (owner : ℕ) (x : OutboxValue) (l : LedgerValue) (v : Service) → IsService sc owner x l v → IsService sc owner x l (committed v) }
    ensures taken { (sc : SchemeValue) (owner : ℕ) (x : OutboxValue) (l : LedgerValue) (v : Service) (n : ℕ) → IsService sc owner x l v → IsService sc owner x l (first_taken n v) }
    ensures stored { (sc : SchemeValue) (x : OutboxValue) (g : Gathering) → IsGathering sc x g → g.last ≡ [] → IfSome g.hand (IsHandled (storing_all x g.entries)) → IsGathering sc x (hand_stored g) }
    ensures first { (sc : SchemeValue) (x : OutboxValue) (g : Gathering) (n : ℕ) → IsGathering sc x g → g.last ≡ [] → AreNew (storing_all x g.entries) (take n (tried_by g)) → IsGathering sc x (first_stored n g) }
    ensures repeated { (l : LedgerValue) (v : StatementValue) → state_judged l v ≡ Err Repeated → given l (item.Stated v) ≡ l }
{}

/// A session grows by one item at its end: what the forwarder puts (`next`), what the owner takes (`given`), what
/// the writer handles and acknowledges (`stored`, `storing`), and the links that a station accepts (`counted`). So
/// each thread's loop keeps what is said of it.
pub fn a_session_grows_by_items()
    ensures next { (owner : ℕ) (x : OutboxValue) (c : Cursors) (items : List Item) (i : Item) → AreNextItems owner x c items → IsNextItem owner x (moved_by_all c items) i → AreNextItems owner x c (items ++ i ∷ []) }
    ensures given { (l : LedgerValue) (items : List Item) (i : Item) → given_all l (items ++ i ∷ []) ≡ given (given_all l items) i }
    ensures stored { (sc : SchemeValue) (x : OutboxValue) (es : List Entry) (e : Entry) → AreStored sc x es → IsHandled (storing_all x es) e.item → AllByRecursion (IsAnswerFrom sc (storing (storing_all x es) e.item)) e.answers → AreStored sc x (es ++ e ∷ []) }
    ensures storing { (x : OutboxValue) (es : List Entry) (e : Entry) → storing_all x (es ++ e ∷ []) ≡ storing (storing_all x es) e.item }
    ensures counted { (first n : ℕ) (ns : List ℕ) → CountsFrom first ns → n ≡ first + length ns → CountsFrom first (ns ++ n ∷ []) }
{}

/// What an owner's session means for the stores (`plain`): each device's taps in the ledger are the old ones and
/// then rows of the outbox, one by one from the lane number behind them on; closed days stay, and each new statement
/// is one that the outbox held; a row that is gone is one that the ledger has, and nothing else of the outbox
/// changed. The ledger's old statements stay where it refused none of the taken items (`stay`). A session that came
/// to its end left no row and no statement behind (`whole`). Where the ledger refuses the item in the hand, that is
/// the next row of its lane and of a closed day, or a statement of which the ledger holds another count (`refused`).
pub fn a_service_says_plainly()
    ensures plain { (sc : SchemeValue) (owner : ℕ) (x : OutboxValue) (l : LedgerValue) (v : Service) → IsService sc owner x l v
        → ServesPlainly owner x (pruned_to_all x owner (given_all l v.taken) v.pruned) l (given_all l v.taken) }
    ensures stay { (l : LedgerValue) (items : List Item) → AreUnrefused l items → (device day count : ℕ) → l.stated device day ≡ Some count → (given_all l items).stated device day ≡ Some count }
    ensures whole { (sc : SchemeValue) (owner : ℕ) (x : OutboxValue) (l : LedgerValue) (v : Service) → IsService sc owner x l v → IsFinished sc owner x l v
        → IsWholeService sc owner x (pruned_to_all x owner (given_all l v.taken) v.pruned) l (given_all l v.taken) }
    ensures refused { (sc : SchemeValue) (owner : ℕ) (x : OutboxValue) (l : LedgerValue) (v : Service) (i : Item) → l.owner ≡ owner → IsOfScheme sc l → IsService sc owner x l v → v.hand ≡ Some i → IsRefused (given_all l v.taken) i → ShowsWhy owner x (given_all l v.taken) i }
{}

/// What a session of the stations and the writer means for the outbox (`plain`): the new rows of each device are
/// the first of its accepted taps, whose links follow the outbox's one by one; old rows and statements stay, each
/// new statement was accepted, and the outbox has had all that was acknowledged. Where nothing is left, all that was
/// accepted was handled (`whole`). Where the outbox refuses the item in the hand, a row stands in the tap's place,
/// or the outbox holds another count for the statement, or it has no room (`refused`).
pub fn a_gathering_says_plainly()
    ensures plain { (sc : SchemeValue) (x : OutboxValue) (g : Gathering) → IsGathering sc x g → GathersPlainly sc x (storing_all x g.entries) g }
    ensures whole { (g : Gathering) → g.hand ≡ None → g.inbox ≡ [] → items_of g.entries ≡ accepted_by g }
    ensures refused { (sc : SchemeValue) (x : OutboxValue) (g : Gathering) (h : Item) → IsGathering sc x g → g.hand ≡ Some h → IsRefusedByOutbox (storing_all x g.entries) h → ShowsWhyNot (storing_all x g.entries) h }
{}
