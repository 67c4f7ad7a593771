ghost use Rattle.std.specs.Prelude.{◌≡◌};
ghost use Rattle.fare_record.specs.Items.{ack_of, day_ack_of};

use crate::{Ack, DayAck};

/// What the writer of the outbox tells a device, by way of its station.
#[derive(Clone, Copy, PartialEq, Eq, Debug)]
pub enum AckItem {
    /// The outbox has had all taps of a device up to a link.
    Upto(Ack),
    /// The outbox holds the device's statements of a day, for all owners.
    Day(DayAck),
}

impl AckItem {
    /// The acknowledgement of taps; None for that of a day.
    pub fn upto(&self) -> Option<Ack>
        ensures { result ≡ ack_of self.now }
    {
        match self {
            AckItem::Upto(ack) => Some(*ack),
            AckItem::Day(_) => None,
        }
    }

    /// The acknowledgement of a day's statements; None for that of taps.
    pub fn day(&self) -> Option<DayAck>
        ensures { result ≡ day_ack_of self.now }
    {
        match self {
            AckItem::Upto(_) => None,
            AckItem::Day(ack) => Some(*ack),
        }
    }
}
