//! Laws of accepted links: which taps a station accepts of the frames that it is given.
ghost use Rattle.std.specs.Prelude.{◌≡◌, ◌+◌, ℕ, List, map, Option, Some};
ghost use Rattle.fare_record.specs.Values.{RecordValue};
ghost use Rattle.fare_record.specs.Lanes.{of_device};
ghost use Rattle.fare_frame.specs.declared.frame.Frame.{Frame};
ghost use Rattle.fare_scheme.specs.Values.{SchemeValue};
ghost use Rattle.fare_history.specs.Gathering.{links_of, CountsFrom};
ghost use Rattle.fare_history.specs.Plainly.{taps_in};
ghost use Rattle.fare_history.specs.AcceptedLinks.{AreAcceptedLinks, arrivals};

/// Frames have one list of accepted links of a device behind a number; the links in it are that number plus 1,
/// plus 2, and so on.
pub fn accepted_links_are_one_list()
    ensures one { (sc : SchemeValue) (device upto : ℕ) (frames : List Frame) (rs qs : List RecordValue) → AreAcceptedLinks sc device upto frames rs → AreAcceptedLinks sc device upto frames qs → rs ≡ qs }
    ensures counted { (sc : SchemeValue) (device upto : ℕ) (frames : List Frame) (rs : List RecordValue) → AreAcceptedLinks sc device upto frames rs → CountsFrom (upto + 1) (map (λ (r : RecordValue). r.link) rs) }
{}

/// A collector that keeps one number for each device, the link that it accepts next, accepts exactly the accepted
/// links: of a device whose next link is the one after a number, the taps among what it accepts are the accepted
/// links behind that number.
pub fn a_collector_accepts_link_by_link()
    ensures links { (sc : SchemeValue) (next : ℕ → Option ℕ) (device upto : ℕ) (frames : List Frame) → next device ≡ Some (upto + 1) → AreAcceptedLinks sc device upto frames (of_device device (taps_in (arrivals sc next frames))) }
    ensures counted { (sc : SchemeValue) (next : ℕ → Option ℕ) (device upto : ℕ) (frames : List Frame) → next device ≡ Some (upto + 1) → CountsFrom (upto + 1) (links_of device (arrivals sc next frames)) }
{}
