use fare_scheme::Scheme;
use fare_session::Pace;

/// What goes with every call in the threads of a session of the stations.
#[derive(Drop)]
pub struct Floor<'a, G, R> {
    /// What the threads run on.
    pub pace: &'a Pace<'a, G, R>,
    /// The scheme.
    pub scheme: &'a Scheme,
}
