ghost use Rattle.std.specs.Prelude.{◌≡◌, ◌↔◌, IsOk, IsTrue, IsFalse};
ghost use Rattle.fare_owner.specs.RetireJudged.{retire_judged};

use thiserror::Error;

/// Why an owner doesn't retire its lane of a device, in the order in which this is tested.
#[derive(Clone, Copy, PartialEq, Eq, Debug, Error)]
pub enum RetireFault {
    /// Of a device that isn't in the scheme.
    #[error("not this owner's lane")]
    NotMine,
    /// Retired before.
    #[error("the lane is retired")]
    Retired,
}

/// Whether an owner retires its lane of a device, where `retired` says that it is retired.
pub fn judge_retire(mine: bool, retired: bool) -> Result<(), RetireFault>
    ensures judged { result ≡ retire_judged mine retired }
    ensures ok { IsOk result ↔ (IsTrue mine × IsFalse retired) }

    ensures not_mine { (result ≡ Err RetireFault.NotMine) ↔ IsFalse mine }
    ensures retired { (result ≡ Err RetireFault.Retired) ↔ (IsTrue mine × IsTrue retired) }
{
    if !mine {
        return Err(RetireFault::NotMine);
    }
    if retired {
        return Err(RetireFault::Retired);
    }
    Ok(())
}
