ghost use Rattle.std.specs.Prelude.{◌≡◌, ◌↔◌, ℕ, ◌<◌, IsOk, IsSome, IsTrue, IsFalse, None, Some};
ghost use Rattle.fare_owner.specs.CloseJudged.{close_judged};

use thiserror::Error;

/// Why an owner doesn't close a day of a device, in the order in which this is tested.
#[derive(Clone, Copy, PartialEq, Eq, Debug, Error)]
pub enum CloseFault {
    /// The lane of that device is retired.
    #[error("the lane is retired")]
    Retired,
    /// No statement of that day is held.
    #[error("not stated")]
    Unstated,
    /// Closed before.
    #[error("already closed")]
    AlreadyClosed,
    /// An earlier day isn't closed yet.
    #[error("out of order")]
    OutOfOrder,
    /// Fewer taps are taken than stated.
    #[error("{taken} of {stated} taps taken")]
    CountsShort { stated: u64, taken: u64 },
    /// More taps are taken than stated.
    #[error("{taken} taps taken, {stated} stated")]
    CountsOver { stated: u64, taken: u64 },
}

/// Whether an owner closes a day of a device: `stated` is the count of that day's statement, if one is held,
/// `closed` says that the day is closed, `next` that it is the first day that isn't, `taken` is the number of the
/// day's taps that are taken, and `retired` says that the lane is retired.
pub fn judge_close(
    stated: Option<u64>,
    closed: bool,
    next: bool,
    taken: u64,
    retired: bool,
) -> Result<(), CloseFault>
    ensures judged { result ≡ close_judged stated closed next taken retired }
    ensures ok { IsOk result ↔ (IsFalse retired × (stated ≡ Some taken) × IsFalse closed × IsTrue next) }

    ensures retired { (result ≡ Err CloseFault.Retired) ↔ IsTrue retired }
    ensures unstated { (result ≡ Err CloseFault.Unstated) ↔ (IsFalse retired × (stated ≡ None)) }
    ensures already_closed { (result ≡ Err CloseFault.AlreadyClosed) ↔ (IsFalse retired × IsSome stated × IsTrue closed) }
    ensures out_of_order { (result ≡ Err CloseFault.OutOfOrder) ↔ (IsFalse retired × IsSome stated × IsFalse closed × IsFalse next) }
    ensures short { (count : ℕ) → (result ≡ Err (CloseFault.CountsShort count taken))
        ↔ (IsFalse retired × (stated ≡ Some count) × IsFalse closed × IsTrue next × (taken < count)) }
    ensures over { (count : ℕ) → (result ≡ Err (CloseFault.CountsOver count taken))
        ↔ (IsFalse retired × (stated ≡ Some count) × IsFalse closed × IsTrue next × (count < taken)) }
{
    if retired {
        return Err(CloseFault::Retired);
    }
    let Some(stated) = stated else {
        return Err(CloseFault::Unstated);
    };
    if closed {
        return Err(CloseFault::AlreadyClosed);
    }
    if !next {
        return Err(CloseFault::OutOfOrder);
    }
    if taken < stated {
        return Err(CloseFault::CountsShort { stated, taken });
    }
    if taken > stated {
        return Err(CloseFault::CountsOver { stated, taken });
    }
    Ok(())
}
