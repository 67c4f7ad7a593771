//! One frame of each type, and its bytes.
ghost use Rattle.std.specs.Prelude.{◌≡◌, IfSome};
ghost use Rattle.fare_frame.specs.Grammar.{frame_bytes};

use crate::samples::{FIRST, Numbers, record, statement};
use fare_frame::Frame;
use fare_record::{Ack, Day, DayAck, DeviceId, Hello};

/// The bytes of a first tap.
pub const TAPPED: [u8; 49] = [
    0x00, 0x2f, 0x01, 0, 0, 0, 1, 0, 0, 0, 0, 0, 0, 0, 1, 0, 1, 0, 0, 0, 0, 0, 0, 0, 1, 0, 0, 0, 1,
    0, 0, 0, 0, 0, 0, 0, 0x4d, 0, 0, 0, 0, 0x65, 0x92, 0x80, 0xa0, 0, 0, 0x4d, 0x0b,
];

/// The bytes of the same tap on route 7.
pub const ROUTED: [u8; 51] = [
    0x00, 0x31, 0x06, 0, 0, 0, 1, 0, 0, 0, 0, 0, 0, 0, 1, 0, 1, 0, 0, 0, 0, 0, 0, 0, 1, 0, 0, 0, 1,
    0, 0, 0, 0, 0, 0, 0, 0x4d, 0, 0, 0, 0, 0x65, 0x92, 0x80, 0xa0, 0, 0, 0x4d, 0x0b, 0x00, 0x07,
];

/// The bytes of a statement of three taps.
pub const STATED: [u8; 21] = [
    0x00, 0x13, 0x02, 0, 0, 0, 1, 0, 0, 0x4d, 0x0b, 0, 1, 0, 0, 0, 0, 0, 0, 0, 3,
];

/// The bytes of an acknowledgement of one tap.
pub const ACKED: [u8; 15] = [0x00, 0x0d, 0x03, 0, 0, 0, 1, 0, 0, 0, 0, 0, 0, 0, 1];

/// The bytes of an acknowledgement of a day.
pub const DAY_ACKED: [u8; 11] = [0x00, 0x09, 0x04, 0, 0, 0, 1, 0, 0, 0x4d, 0x0b];

/// The bytes of a greeting.
pub const GREETED: [u8; 9] = [0x00, 0x07, 0x05, 0, 0, 0, 1, 0, 1];

/// The frame of the first tap.
pub fn tapped() -> Option<Frame>
    ensures { IfSome result (λ frame. frame_bytes frame ≡ TAPPED) }
{
    Some(Frame::Tapped(record(FIRST)?))
}

/// The frame of that tap on route 7.
pub fn routed() -> Option<Frame>
    ensures { IfSome result (λ frame. frame_bytes frame ≡ ROUTED) }
{
    Some(Frame::Tapped(record(Numbers { route: 7, ..FIRST })?))
}

/// The frame of a statement of three taps.
pub fn stated() -> Option<Frame>
    ensures { IfSome result (λ frame. frame_bytes frame ≡ STATED) }
{
    Some(Frame::Stated(statement(1, 19_723, 1, 3)?))
}

/// The frame of an acknowledgement of one tap.
pub fn acked() -> Option<Frame>
    ensures { IfSome result (λ frame. frame_bytes frame ≡ ACKED) }
{
    Some(Frame::Acked(Ack::new(DeviceId::new(1)?, 1)))
}

/// The frame of an acknowledgement of a day.
pub fn day_acked() -> Option<Frame>
    ensures { IfSome result (λ frame. frame_bytes frame ≡ DAY_ACKED) }
{
    Some(Frame::DayAcked(DayAck::new(DeviceId::new(1)?, Day::new(19_723)?)))
}

/// The frame of a greeting.
pub fn greeted() -> Option<Frame>
    ensures { IfSome result (λ frame. frame_bytes frame ≡ GREETED) }
{
    Some(Frame::Greeted(Hello::new(DeviceId::new(1)?, 1)))
}
