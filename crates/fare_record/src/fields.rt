ghost use Rattle.std.specs.Prelude.{◌≡◌, ◌≤◌, ◌+◌, length};
ghost use Rattle.fare_record.specs.Bodies.{number_at};

use byteorder::{BigEndian, ByteOrder};

/// The number in the two bytes from a place on, the highest byte first.
pub fn u16_at(bytes: &[u8], place: usize) -> u16
    requires { place + 2 ≤ length bytes.now }
    ensures { result ≡ number_at place 2 bytes.now }
{
    BigEndian::read_u16(&bytes[place..])
}

/// The number in the four bytes from a place on.
pub fn u32_at(bytes: &[u8], place: usize) -> u32
    requires { place + 4 ≤ length bytes.now }
    ensures { result ≡ number_at place 4 bytes.now }
{
    BigEndian::read_u32(&bytes[place..])
}

/// The number in the eight bytes from a place on.
pub fn u64_at(bytes: &[u8], place: usize) -> u64
    requires { place + 8 ≤ length bytes.now }
    ensures { result ≡ number_at place 8 bytes.now }
{
    BigEndian::read_u64(&bytes[place..])
}
