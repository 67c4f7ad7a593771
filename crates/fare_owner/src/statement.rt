ghost use Rattle.std.specs.Prelude.{◌≡◌, ◌≢◌, ◌↔◌, ℕ, IsOk, IsTrue, IsFalse, None, Some, IsSomeAnd};
ghost use Rattle.fare_owner.specs.StatementJudged.{statement_judged};

use thiserror::Error;

/// Why an owner doesn't take a device's statement of a day's count, in the order in which this is tested.
#[derive(Clone, Copy, PartialEq, Eq, Debug, Error)]
pub enum StatementFault {
    /// Of another owner, or of a device that isn't in the scheme.
    #[error("not this owner's statement")]
    NotMine,
    /// Of a device whose lane is retired.
    #[error("the lane is retired")]
    Retired,
    /// Taken before, with the same count.
    #[error("taken before")]
    Repeated,
    /// Taken before, with another count.
    #[error("stated before with another count")]
    Conflict,
}

/// Whether an owner takes a statement of `count` taps, where `held` is the count that it holds for the same
/// device and day, and `retired` says that the device's lane is retired.
pub fn judge_statement(
    mine: bool,
    held: Option<u64>,
    count: u64,
    retired: bool,
) -> Result<(), StatementFault>
    ensures judged { result ≡ statement_judged mine held count retired }
    ensures ok { IsOk result ↔ (IsTrue mine × IsFalse retired × (held ≡ None)) }

    ensures not_mine { (result ≡ Err StatementFault.NotMine) ↔ IsFalse mine }
    ensures retired { (result ≡ Err StatementFault.Retired) ↔ (IsTrue mine × IsTrue retired) }
    ensures repeated { (result ≡ Err StatementFault.Repeated) ↔ (IsTrue mine × IsFalse retired × (held ≡ Some count)) }
    ensures conflict { (result ≡ Err StatementFault.Conflict) ↔ (IsTrue mine × IsFalse retired × IsSomeAnd held (λ stated. stated ≢ count)) }
{
    if !mine {
        return Err(StatementFault::NotMine);
    }
    if retired {
        return Err(StatementFault::Retired);
    }
    match held {
        None => Ok(()),
        Some(stated) if stated == count => Err(StatementFault::Repeated),
        Some(_) => Err(StatementFault::Conflict),
    }
}
