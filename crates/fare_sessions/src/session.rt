use fare_collect::Station;
use fare_record::OwnerId;

/// What a hub does next.
#[derive(Drop)]
pub enum Session<S> {
    /// The stations, the first of the scheme's in its order, collect what their sources give.
    Collect(Vec<Station<S>>),
    /// This owner is served.
    Serve(OwnerId),
}
