use fare_record::StationId;

/// A place in a session that its gate learns of, right after the thread there was answered.
#[derive(Clone, Copy, PartialEq, Eq, Debug)]
pub enum Point {
    /// The forwarder put an item into the lane queue.
    ForwardPut,
    /// The owner took an item from the lane queue.
    OwnerTook,
    /// The owner's ledger has committed what stood together in the queue, an item or several.
    OwnerCommitted,
    /// A station read a frame off its line.
    StationRead(StationId),
    /// A station put an item into the inbox.
    StationPut,
    /// The outbox has committed items of the writer, one or several at once.
    WriterCommitted,
    /// The writer stored an item.
    WriterStored,
}

/// What the threads of a session pass: a test can hold them there, an operator can count. No contract of a session
/// depends on what a gate does.
pub trait Gate {
    /// A thread passes the point.
    fn pass(&self, point: Point);

    /// Whether a thread that found nothing to do for some turns in a row naps for a millisecond after each further
    /// one. Where it doesn't, a thread that waits keeps a processor busy until its turns are used up.
    fn naps(&self) -> bool {
        false
    }

    /// Whether the stations of a session are to read no more, since it has lasted long enough. What was read is stored
    /// and answered; the next session goes on from there.
    fn is_over(&self) -> bool {
        false
    }
}
