ghost use Rattle.std.specs.Prelude.{◌≡◌, ◌<◌, ◌≤◌, ◌+◌, ◌++◌, length, vec_len, vec_capacity, OnOk, OnErr};
ghost use Rattle.fare_frame.specs.Table.{head_of};
ghost use Rattle.fare_frame.specs.Grammar.{frame_bytes, frame_of, tap_of, statement_of, ack_of, day_ack_of, hello_of, IsFrame};

use crate::kind::Kind;
use fare_record::{Ack, AckItem, DayAck, Hello, Record, Statement};
use std::alloc::AllocError;

/// How many bytes the longest frame has.
pub const LONGEST_FRAME: usize = 51;

/// A frame of the stream between a device and its station.
#[derive(Clone, Copy, PartialEq, Eq, Debug)]
pub enum Frame {
    /// A numbered tap. Where its route is known it has a type and a length of its own, and its route comes last.
    Tapped(Record),
    /// A device's statement of a day's taps for an owner.
    Stated(Statement),
    /// An acknowledgement of taps.
    Acked(Ack),
    /// An acknowledgement of a day's statements.
    DayAcked(DayAck),
    /// A greeting, the first frame of a connection.
    Greeted(Hello),
}

impl Frame {
    /// The frame that tells a device what the hub has had of it.
    pub fn acknowledging(item: &AckItem) -> Frame
        ensures { result ≡ frame_of item.now }
    {
        match item {
            AckItem::Upto(ack) => Frame::Acked(*ack),
            AckItem::Day(ack) => Frame::DayAcked(*ack),
        }
    }

    /// Appends the frame's bytes: its length as u16, the highest byte first, its type and its body. An error
    /// leaves the bytes as they were.
    pub fn put(&self, out: &mut Vec<u8>) -> Result<(), AllocError>
        ensures ok { OnOk result (out.new.items ≡ out.old.items ++ frame_bytes self.now) }
        ensures err { OnErr result (out.new.items ≡ out.old.items) }

        // It fails only where there was no room for those bytes.
        ensures full { OnErr result (vec_capacity out.old < vec_len out.old + length (frame_bytes self.now)) }
        ensures room { vec_capacity out.old ≤ vec_capacity out.new }
        ensures lawful { IsFrame self.now }
    {
        match self {
            Frame::Tapped(record) if record.tap().route() == 0 => {
                append(out, Kind::Tapped, &record.encode())
            }
            Frame::Tapped(record) => append(out, Kind::Routed, &record.encode_routed()),
            Frame::Stated(statement) => append(out, Kind::Stated, &statement.encode()),
            Frame::Acked(ack) => append(out, Kind::Acked, &ack.encode()),
            Frame::DayAcked(ack) => append(out, Kind::DayAcked, &ack.encode()),
            Frame::Greeted(hello) => append(out, Kind::Greeted, &hello.encode()),
        }
    }

    /// The record of a numbered tap; None for any other frame.
    pub fn tapped(&self) -> Option<Record>
        ensures { result ≡ tap_of self.now }
    {
        match self {
            Frame::Tapped(record) => Some(*record),
            _ => None,
        }
    }

    /// A device's statement; None for any other frame.
    pub fn stated(&self) -> Option<Statement>
        ensures { result ≡ statement_of self.now }
    {
        match self {
            Frame::Stated(statement) => Some(*statement),
            _ => None,
        }
    }

    /// The acknowledgement of taps; None for any other frame.
    pub fn acked(&self) -> Option<Ack>
        ensures { result ≡ ack_of self.now }
    {
        match self {
            Frame::Acked(ack) => Some(*ack),
            _ => None,
        }
    }

    /// The acknowledgement of a day's statements; None for any other frame.
    pub fn day_acked(&self) -> Option<DayAck>
        ensures { result ≡ day_ack_of self.now }
    {
        match self {
            Frame::DayAcked(ack) => Some(*ack),
            _ => None,
        }
    }

    /// A greeting; None for any other frame.
    pub fn greeted(&self) -> Option<Hello>
        ensures { result ≡ hello_of self.now }
    {
        match self {
            Frame::Greeted(hello) => Some(*hello),
            _ => None,
        }
    }
}

// Appends a frame of this kind and body.
fn append(out: &mut Vec<u8>, kind: Kind, body: &[u8]) -> Result<(), AllocError>
    ensures ok { OnOk result (out.new.items ≡ out.old.items ++ (head_of kind ++ body.now)) }
    ensures err { OnErr result (out.new.items ≡ out.old.items) }
    ensures full { OnErr result (vec_capacity out.old < vec_len out.old + length (head_of kind ++ body.now)) }
    ensures room { vec_capacity out.old ≤ vec_capacity out.new }
{
    let head = kind.head();
    out.reserve(head.len() + body.len())?;
    out.extend_from_slice(&head)?;
    out.extend_from_slice(body)
}
