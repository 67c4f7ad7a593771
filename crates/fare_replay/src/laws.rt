//! A law of a replay: a function that does nothing, and its contract is the law.
ghost use Rattle.std.specs.Prelude.{◌≡◌, ℕ, List, Option, Some};
ghost use Rattle.fare_replay.specs.Replay.{Replays};

/// The bytes that a replay writes are determined by those that it reads.
pub fn a_replay_writes_one_answer()
    ensures { (old : List ℕ) (first second : Option (List ℕ)) (input : List ℕ) → Replays (Some old) first input → Replays (Some old) second input → first ≡ second }
{}
