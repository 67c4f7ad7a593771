ghost use Rattle.std.specs.Prelude.{◌≡◌, ◌<◌, ℕ, List, length};
ghost use Rattle.fare_record.specs.Lanes.{lane_of};
ghost use Rattle.fare_scheme.specs.Values.{SchemeValue};
ghost use Rattle.fare_event.specs.declared.event.Event.{Event};
ghost use Rattle.fare_world.specs.System.{System, start, taken_by, stated_count};
ghost use Rattle.fare_world.specs.Steps.{step, after, replies};
ghost use Rattle.fare_world.specs.Headline.{Lane, IsLaneStep, IsLaneRun, lane_at, numbered, NumbersByReply, IsPrefixOf, IsOrderly, EachAnswer, IsWholeWhereClosed, IsWholeAfterClose, BillsNumberedTaps, TakesNoneAfterClose};
ghost use Rattle.fare_world.specs.Billing.{basis, basis_told, BillsExactly};
ghost use Rattle.fare_world.specs.Kept.{IsSystem, KeepsEachDay};

/// Each event, at a system that events lead to, is a lane step or a rest on every lane, and leads to such a
/// system again. The taps that a device has numbered grow by the record of an answered tap, and by nothing
/// else.
pub fn each_event_is_a_lane_step()
    ensures system { (sc : SchemeValue) (s : System) (e : Event) → IsSystem sc s → IsSystem sc (step sc s e).0 }
    ensures lane { (sc : SchemeValue) (s : System) (e : Event) → IsSystem sc s → (owner device : ℕ) → IsLaneStep sc.start (lane_at sc s owner device) (lane_at sc (step sc s e).0 owner device) }
    ensures numbered { (sc : SchemeValue) (s : System) (e : Event) → IsSystem sc s → NumbersByReply sc s (step sc s e).0 e (step sc s e).1 }
{}

/// After any list of events from the start, each lane has been reached by a lane run, and what was taken of
/// it is a prefix of what was numbered, as the events and their replies tell.
pub fn taken_is_a_prefix()
    ensures run { (sc : SchemeValue) (es : List Event) (owner device : ℕ) → (lanes : List Lane) × IsLaneRun sc.start (lane_at sc (start sc) owner device) lanes (lane_at sc (after sc (start sc) es) owner device) }
    ensures prefix { (sc : SchemeValue) (es : List Event) (owner device : ℕ) → IsPrefixOf (taken_by (after sc (start sc) es) owner device) (lane_of owner device (numbered sc es (replies sc (start sc) es))) }
{}

/// After any list of events from the start: where an owner has closed a day of a device, the taps of that day
/// and of the days before it that were taken are those that were numbered.
pub fn closed_days_are_whole()
    ensures whole { (sc : SchemeValue) (es : List Event) (owner device : ℕ) → IsWholeWhereClosed sc.start (lane_at sc (after sc (start sc) es) owner device) }
    ensures bills { (sc : SchemeValue) (es : List Event) → BillsNumberedTaps sc (after sc (start sc) es) es (replies sc (start sc) es) }
    ensures answered { (sc : SchemeValue) (es : List Event) → IsWholeAfterClose sc (after sc (start sc) es) es (replies sc (start sc) es) }
{}

/// After any list of events from the start: each bill that a reply tells, and each settlement, is of exactly the
/// taps of its week that the devices numbered for the owner, as the events and their replies tell, also after it, but
/// that of a lane that was retired before it has what was taken; and so would be one asked for then.
pub fn bills_are_of_what_was_numbered()
    ensures told { (sc : SchemeValue) (es : List Event) → BillsExactly sc es (replies sc (start sc) es) }
    ensures asked { (sc : SchemeValue) (es : List Event) (owner day : ℕ) → basis sc (after sc (start sc) es) owner day ≡ basis_told sc es (replies sc (start sc) es) (length es) owner day }
{}

/// A statement keeps its count: what a device numbered for an owner of a day that it has turned stays.
pub fn a_turned_day_keeps_its_count()
    ensures { (sc : SchemeValue) (s : System) (e : Event) → IsSystem sc s → (owner device day : ℕ) → day < (s.devices device).day → stated_count (step sc s e).0 owner device day ≡ stated_count s owner device day }
{}

/// No tap of a day is taken after that day's close, as the events and their replies tell.
pub fn none_is_taken_after_its_close()
    ensures { (sc : SchemeValue) (es : List Event) → TakesNoneAfterClose sc es (replies sc (start sc) es) }
{}

/// No run of events from the start has a reply that tells of a stranger, another owner's item, a conflict, a
/// count that is exceeded, a tap after its day's close, an acknowledgement of what was not numbered, or a tap
/// that is not the next to be taken.
pub fn every_reply_is_orderly()
    ensures { (sc : SchemeValue) (es : List Event) → EachAnswer IsOrderly es (replies sc (start sc) es) }
{}

/// After any list of events from the start, each day that a registered device has turned waits, or the outbox
/// holds its statements for all owners.
pub fn each_turned_day_is_kept()
    ensures { (sc : SchemeValue) (es : List Event) → KeepsEachDay sc (after sc (start sc) es) }
{}
