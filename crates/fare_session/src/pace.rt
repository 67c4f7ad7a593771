/// What the threads of a session run on, and how long one waits for another.
#[derive(Drop)]
pub struct Pace<'a, G, R> {
    /// The threads, and their clock.
    pub rt: &'a R,
    /// What they pass.
    pub gate: &'a G,
    /// How often in a row each may find nothing to do.
    pub turns: u64,
}
