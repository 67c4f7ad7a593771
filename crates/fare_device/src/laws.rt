ghost use Rattle.std.specs.Prelude.{◌≡◌, ◌≤◌, ◌∷◌, ◌++◌, [], ℕ, List, Some};
ghost use Rattle.std.specs.Map.{keys_of};
ghost use Rattle.fare_record.specs.Values.{RecordValue};
ghost use Rattle.fare_record.specs.Lanes.{part, day_count};
ghost use Rattle.fare_scheme.specs.Values.{SchemeValue};
ghost use Rattle.fare_device.specs.DeviceWords.{DeviceValue, fresh_device, acknowledged, last_link};
ghost use Rattle.fare_device.specs.Numbered.{HasNumbered};
ghost use Rattle.fare_device.specs.Tapping.{IsTapped};
ghost use Rattle.fare_device.specs.Turning.{turned, day_acknowledged, kept_count};

/// A device keeps what it numbered: a new one has numbered nothing, a tap adds its record, and whatever else
/// happens, what waits is the tail of the numbered taps, lanes are as long as the owners' parts, and the counts of the
/// open day and of each turned day are those of its taps. So a statement says how many taps of its day the device
/// numbered for its owner.
pub fn a_device_counts_what_it_numbered()
    ensures fresh { (id day room : ℕ) (owners : List ℕ) → HasNumbered [] (fresh_device id day room owners) }
    ensures tapped { (scheme : SchemeValue) (taps : List RecordValue) (old new : DeviceValue) (product token moment day route : ℕ) (r : RecordValue) → old.owners ≡ keys_of scheme.owners → HasNumbered taps old → IsTapped scheme old product token moment day route r new → HasNumbered (taps ++ r ∷ []) new }
    ensures turned { (taps : List RecordValue) (x : DeviceValue) → HasNumbered taps x → HasNumbered taps (turned x) }
    ensures acknowledged { (taps : List RecordValue) (x : DeviceValue) (upto : ℕ) → upto ≤ last_link x → HasNumbered taps x → HasNumbered taps (acknowledged x upto) }
    ensures day_acknowledged { (taps : List RecordValue) (x : DeviceValue) (day : ℕ) → HasNumbered taps x → HasNumbered taps (day_acknowledged x day) }
    ensures sent { (taps : List RecordValue) (x : DeviceValue) (cursor : ℕ) → HasNumbered taps x → HasNumbered taps (record x { cursor = cursor }) }
    ensures stated { (taps : List RecordValue) (x : DeviceValue) (day owner count : ℕ) → HasNumbered taps x → kept_count x day owner ≡ Some count → count ≡ day_count (part owner taps) day }
{}
