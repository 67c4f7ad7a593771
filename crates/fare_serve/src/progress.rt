//! How far serving has come.
ghost use Rattle.std.specs.Prelude.{◌≡◌, IfOk};
ghost use Rattle.fare_serve.specs.Counting.{AreNoCounts};

use crate::counts::Counts;
use crate::seen::Seen;
use fare_scheme::Scheme;
use std::alloc::{AllocError, Global};

/// How far serving has come since it began. A pause is lent it.
#[derive(Drop)]
pub struct Progress {
    /// What came of the sessions.
    pub counts: Counts,
    /// How many rounds were held; it stays at 2^64 - 1.
    pub rounds: u64,
    /// What was seen of lines and rounds. No contract speaks of it.
    pub seen: Seen,
}

impl Progress {
    // That of no round.
    pub(crate) fn none(alloc: Global, scheme: &Scheme) -> Result<Progress, AllocError>
        ensures counts { IfOk result (λ progress. AreNoCounts scheme.now progress.counts) }
        ensures rounds { IfOk result (λ progress. progress.rounds ≡ 0) }
    {
        Ok(Progress {
            counts: Counts::none(alloc, scheme)?,
            rounds: 0,
            seen: Seen::none(alloc, scheme)?,
        })
    }
}
