ghost use Rattle.std.specs.Prelude.{◌≡◌, ◌≢◌, ◌↔◌, ◌<◌, MatchOption, IsTrue};
ghost use Rattle.fare_frame.specs.declared.kind.Kind.{Kind};
ghost use Rattle.fare_frame.specs.Table.{code_of, length_of, head_of};

use byteorder::{BigEndian, ByteOrder};

/// What a frame says, by its type.
#[derive(Clone, Copy, PartialEq, Eq, Debug)]
pub enum Kind {
    Tapped,
    Stated,
    Acked,
    DayAcked,
    Greeted,
    Routed,
}

impl Kind {
    /// The kind of this type byte, if there is one.
    pub fn of(code: u8) -> Option<Kind>
        ensures { MatchOption result ((k : Kind) → code_of k ≢ code) (λ k. code_of k ≡ code) }
    {
        match code {
            0x01 => Some(Kind::Tapped),
            0x02 => Some(Kind::Stated),
            0x03 => Some(Kind::Acked),
            0x04 => Some(Kind::DayAcked),
            0x05 => Some(Kind::Greeted),
            0x06 => Some(Kind::Routed),
            _ => None,
        }
    }

    /// Its type byte.
    pub fn code(self) -> u8
        ensures { result ≡ code_of self }
    {
        match self {
            Kind::Tapped => 0x01,
            Kind::Stated => 0x02,
            Kind::Acked => 0x03,
            Kind::DayAcked => 0x04,
            Kind::Greeted => 0x05,
            Kind::Routed => 0x06,
        }
    }

    /// Its length field: the number of the bytes after that field, which are the type and the body.
    pub fn length(self) -> u16
        ensures value { result ≡ length_of self }
        ensures few { result < 50 }
    {
        match self {
            Kind::Tapped => 47,
            Kind::Stated => 19,
            Kind::Acked => 13,
            Kind::DayAcked => 9,
            Kind::Greeted => 7,
            Kind::Routed => 49,
        }
    }

    /// The bytes of its length and its type.
    pub fn head(self) -> [u8; 3]
        ensures { result ≡ head_of self }
    {
        let mut head = [0, 0, self.code()];
        BigEndian::write_u16(&mut head, self.length());
        head
    }
}

/// Whether some frame has this length field.
pub fn is_length(length: u16) -> bool
    ensures { IsTrue result ↔ ((k : Kind) × (length_of k ≡ length)) }
{
    matches!(length, 7 | 9 | 13 | 19 | 47 | 49)
}
