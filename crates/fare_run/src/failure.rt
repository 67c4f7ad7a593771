ghost use Rattle.std.specs.Prelude.{◌≡◌};
ghost use Rattle.fare_run.specs.Failures.{status_of};
ghost use Rattle.fare_run.specs.declared.failure.Failure.TheVariants.{Memory};

use crate::ask_failure::AskFailure;
use crate::serve_failure::ServeFailure;
use fare_replay::ReplayFault;
use std::alloc::AllocError;
use thiserror::Error;

/// Why the program did not do what it was started for. Its text is what standard error gets.
#[derive(Debug, Drop, Error)]
pub enum Failure {
    /// The replay stopped.
    #[error("{0}")]
    Replay(ReplayFault),
    /// The help or the version was asked for, and the writer failed.
    #[error("write failed")]
    Write,
    /// There was no memory for the words.
    #[error("no memory")]
    Memory,
    /// Serving did not come to its end.
    #[error("{0}")]
    Serve(ServeFailure),
    /// A question of the stores, or an order, came to nothing.
    #[error("{0}")]
    Ask(AskFailure),
    /// The kept scheme was not written.
    #[error("{0}")]
    Scheme(ServeFailure),
    /// The words are no job: this text, which ends its own last line, says why.
    #[error("{0}")]
    Refused(String),
}

impl From<AllocError> for Failure {
    ghost from_gives = { λ _ e. e ≡ Memory };

    fn from(_error: AllocError) -> Failure {
        Failure::Memory
    }
}

impl Failure {
    /// The program's status: 2 where the words were refused, else 1.
    pub fn status(&self) -> u8
        ensures { result ≡ status_of self.now }
    {
        match self {
            Failure::Refused(_) => 2,
            Failure::Replay(_)
            | Failure::Write
            | Failure::Memory
            | Failure::Serve(_)
            | Failure::Ask(_)
            | Failure::Scheme(_) => 1,
        }
    }
}
