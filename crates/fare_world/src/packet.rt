ghost use Rattle.std.specs.Prelude.{◌≡◌, Some};
ghost use Rattle.fare_frame.specs.Grammar.{frame_bytes, IsFrame};
ghost use Rattle.fare_world.specs.Packets.{IsRead};

use fare_frame::Frame;
use std::marker::Model;

/// A packet of the air: the bytes of one frame. It keeps the frame, of which they are the only spelling.
#[derive(Drop)]
pub struct Packet {
    frame: Frame,
}

impl Model for Packet {
    ghost use Rattle.std.specs.Prelude.{ℕ, List};
    ghost use Rattle.fare_frame.specs.Grammar.{frame_bytes, IsFrame};

    ghost Value = { List ℕ };

    ghost view = { λ a. frame_bytes a.frame };

    ghost invariant = { λ a. IsFrame a.frame };
}

impl Packet {
    /// The packet of a frame.
    pub fn of(frame: &Frame) -> Packet
        ensures bytes { result ≡ frame_bytes frame.now }
        ensures lawful { IsFrame frame.now }
    {
        see_limits(frame);
        Packet { frame: *frame }
    }

    /// The frame of which the bytes are the spelling.
    pub fn frame(&self) -> Frame
        ensures { IsRead self.now (Some result) }
    {
        self.frame
    }
}

// Each number of a frame is within its limits. The types say so already; here it stands as a fact.
fn see_limits(frame: &Frame)
    ensures { IsFrame frame.now }
{
    match frame {
        Frame::Tapped(record) if record.tap().route() == 0 => {
            record.encode();
        }
        Frame::Tapped(record) => {
            record.encode_routed();
        }
        Frame::Stated(statement) => {
            statement.encode();
        }
        Frame::Acked(ack) => {
            ack.encode();
        }
        Frame::DayAcked(ack) => {
            ack.encode();
        }
        Frame::Greeted(hello) => {
            hello.encode();
        }
    }
}
