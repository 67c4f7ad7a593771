ghost use Rattle.std.specs.Prelude.{◌≡◌, ◌↔◌, ◌+◌, ◌<◌, ◌≤◌, IsOk, IsTrue, IsFalse};
ghost use Rattle.fare_owner.specs.TapJudged.{tap_judged};

use thiserror::Error;

/// Why an owner doesn't take a tap, in the order in which this is tested.
#[derive(Clone, Copy, PartialEq, Eq, Debug, Error)]
pub enum TapFault {
    /// Of another owner, or of a device that isn't in the scheme.
    #[error("not this owner's tap")]
    NotMine,
    /// Of a device whose lane is retired.
    #[error("the lane is retired")]
    Retired,
    /// Taken before.
    #[error("taken before")]
    Duplicate,
    /// Past the next lane number.
    #[error("past the next lane number")]
    Gap,
    /// Of a day that the owner has closed.
    #[error("after the day's close")]
    AfterClose,
}

/// Whether an owner takes the tap with this lane number, where `count` taps of the lane are taken, `closed` says
/// that its day is closed, and `retired` that the lane is retired.
pub fn judge_tap(
    mine: bool,
    count: u64,
    closed: bool,
    lane: u64,
    retired: bool,
) -> Result<(), TapFault>
    ensures judged { result ≡ tap_judged mine count closed lane retired }
    ensures ok { IsOk result ↔ (IsTrue mine × IsFalse retired × (lane ≡ count + 1) × IsFalse closed) }

    ensures not_mine { (result ≡ Err TapFault.NotMine) ↔ IsFalse mine }
    ensures retired { (result ≡ Err TapFault.Retired) ↔ (IsTrue mine × IsTrue retired) }
    ensures duplicate { (result ≡ Err TapFault.Duplicate) ↔ (IsTrue mine × IsFalse retired × (lane ≤ count)) }
    ensures gap { (result ≡ Err TapFault.Gap) ↔ (IsTrue mine × IsFalse retired × (count + 1 < lane)) }
    ensures after_close { (result ≡ Err TapFault.AfterClose) ↔ (IsTrue mine × IsFalse retired × (lane ≡ count + 1) × IsTrue closed) }
{
    if !mine {
        return Err(TapFault::NotMine);
    }
    if retired {
        return Err(TapFault::Retired);
    }
    if lane <= count {
        return Err(TapFault::Duplicate);
    }
    if lane - count > 1 {
        return Err(TapFault::Gap);
    }
    if closed {
        return Err(TapFault::AfterClose);
    }
    Ok(())
}
