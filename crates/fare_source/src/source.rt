ghost use Rattle.fare_source.specs.Talking.{Talk, Waits, Gives, Hears};

use crate::SourceFault;
use fare_frame::Frame;

/// Where the frames of a station's devices come from, and where its answers go. It keeps count of its calls that
/// failed.
pub trait Source {
    /// What it gave and was handed, and how it stands.
    ghost talk: { Self → Talk };

    /// Whether `next` would answer now. One that has to wait for the other side says false, so that its station can
    /// answer in the meantime: a validator may wait for its acknowledgement before it sends more.
    fn is_ready(&mut self) -> bool
        ensures { Waits (talk self.old) (talk self.new) }
    {
        true
    }

    /// Whether `next` would answer now, as far as that is known without a wait; one that doesn't know says true. Where it
    /// says false, its station can wait for an answer that is due before it asks whether more has come.
    fn has_next(&self) -> bool {
        true
    }

    /// The next frame; `None` where there is none any more.
    fn next(&mut self) -> Result<Option<Frame>, SourceFault>
        ensures { Gives (talk self.old) (talk self.new) result };

    /// No frame more is wanted of it for now. A source of which a part is read answers `None` from then on, until the next
    /// part; for one that is read to its end nothing changes.
    fn finish(&mut self)
        ensures { Waits (talk self.old) (talk self.new) }
    {}

    /// Hands it an answer.
    fn answer(&mut self, frame: &Frame) -> Result<(), SourceFault>
        ensures { Hears (talk self.old) (talk self.new) frame.now result };
}
