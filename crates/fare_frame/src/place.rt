//! What stands at a frame's place.
ghost use Rattle.std.specs.Prelude.{◌≡◌, ◌≢◌, ◌+◌, ◌-◌, ◌*◌, ◌<◌, ◌≤◌, ◌++◌, ℕ, length, take, drop, slice_index, Some, None, MatchOption, IfSome, IfErr, IfOk, IsErrOf, vec_capacity};
ghost use Rattle.fare_frame.specs.Table.{length_of};
ghost use Rattle.fare_frame.specs.Grammar.{kind_of, body_of, frame_bytes, frame_in, IsFrame, IsHead, IsHeadFault, IsRest, IsFault};
ghost use Rattle.fare_frame.specs.Decoding.{fault_in};
ghost use Rattle.fare_frame.specs.Reading.{Reads, Stops, Overfills, IsBad};

use crate::kind::{Kind, is_length};
use crate::{Frame, ReadFault};
use byteorder::{BigEndian, ByteOrder};
use fare_record::{Ack, DayAck, Hello, Record, RecordFault, Statement};

// The kind of the frames that begin with these bytes.
fn judge_head(head: &[u8; 3]) -> Result<Kind, ReadFault>
    ensures kind { IfOk result (λ k. IsHead k (slice_index head.now 0) (slice_index head.now 1) (slice_index head.now 2)) }
    ensures fault { IfErr result (λ fault. IsHeadFault (256 * slice_index head.now 0 + slice_index head.now 1) (slice_index head.now 2) fault) }
{
    let length = BigEndian::read_u16(head);
    match Kind::of(head[2]) {
        Some(kind) if kind.length() == length => Ok(kind),
        None if is_length(length) => Err(ReadFault::BadType),
        _ => Err(ReadFault::BadLength),
    }
}

// The frame of this kind whose body the bytes begin with; None where they are too few.
fn read_body(kind: Kind, bytes: &[u8]) -> Result<Option<Frame>, RecordFault>
    ensures whole { IfOk result (λ read. MatchOption read (length bytes.now + 1 < length_of kind)
        (λ f. (length_of kind ≤ length bytes.now + 1) × (f ≡ frame_in kind (take (length_of kind - 1) bytes.now)) × (fault_in kind f ≡ None))) }
    ensures spelled { IfOk result (λ read. IfSome read (λ f. (kind_of f ≡ kind) × (body_of f ≡ take (length_of kind - 1) bytes.now))) }
    ensures fault { IfErr result (λ fault. (length_of kind ≤ length bytes.now + 1) × (fault_in kind (frame_in kind (take (length_of kind - 1) bytes.now)) ≡ Some fault)) }
{
    match kind {
        Kind::Tapped => match bytes.first_chunk::<46>() {
            Some(body) => Ok(Some(Frame::Tapped(Record::decode(body)?))),
            None => Ok(None),
        },
        Kind::Stated => match bytes.first_chunk::<18>() {
            Some(body) => Ok(Some(Frame::Stated(Statement::decode(body)?))),
            None => Ok(None),
        },
        Kind::Acked => match bytes.first_chunk::<12>() {
            Some(body) => Ok(Some(Frame::Acked(Ack::decode(body)?))),
            None => Ok(None),
        },
        Kind::DayAcked => match bytes.first_chunk::<8>() {
            Some(body) => Ok(Some(Frame::DayAcked(DayAck::decode(body)?))),
            None => Ok(None),
        },
        Kind::Greeted => match bytes.first_chunk::<6>() {
            Some(body) => Ok(Some(Frame::Greeted(Hello::decode(body)?))),
            None => Ok(None),
        },
        Kind::Routed => match bytes.first_chunk::<48>() {
            Some(body) => Ok(Some(Frame::Tapped(Record::decode_routed(body)?))),
            None => Ok(None),
        },
    }
}

// The frame that the bytes begin with and how many bytes it takes, or None where they are less than a frame.
pub fn next_frame(bytes: &[u8]) -> Result<Option<(Frame, usize)>, ReadFault>
    ensures whole { IfOk result (λ read. MatchOption read (IsRest bytes.now) (λ p. (bytes.now ≡ frame_bytes p.0 ++ drop p.1 bytes.now) × IsFrame p.0 × (p.1 ≤ length bytes.now))) }
    ensures fault { IfErr result (λ fault. IsFault bytes.now fault) }
{
    let Some((head, rest)) = bytes.split_first_chunk::<3>() else {
        return Ok(None);
    };
    let kind = judge_head(head)?;
    match read_body(kind, rest) {
        Ok(Some(frame)) => Ok(Some((frame, kind.length() as usize + 2))),
        Ok(None) => Ok(None),
        Err(_) => Err(ReadFault::BadBody),
    }
}

// Adds the frames that the bytes begin with, and answers the bytes behind them, which are less than a frame.
pub fn read_frames<'a>(bytes: &'a [u8], frames: &mut Vec<Frame>) -> Result<&'a [u8], ReadFault>
    ensures ok { IfOk result (λ rest. Reads bytes.now frames.old.items frames.new.items rest.now × IsRest rest.now) }
    ensures stopped { IfErr result (λ fault. IsBad fault → Stops fault bytes.now frames.old.items frames.new.items) }
    ensures memory { IsErrOf result ReadFault.Memory → Overfills (vec_capacity frames.old) frames.old.items bytes.now }
    ensures open { IfErr result (λ fault. fault ≢ ReadFault.Failed) }
    ensures kept { take (length frames.old.items) frames.new.items ≡ frames.old.items }
    ensures capacity { vec_capacity frames.old ≤ vec_capacity frames.new }
{
    let mut rest = bytes;
    while let Some((frame, size)) = next_frame(rest)? {
        if frames.push(frame).is_err() {
            return Err(ReadFault::Memory);
        }
        rest = &rest[size..];
    }
    Ok(rest)
}
