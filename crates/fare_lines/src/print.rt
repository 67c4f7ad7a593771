ghost use Rattle.std.specs.Prelude.{◌≡◌, [], ◌∷◌, ◌++◌, OnOk, OnErr, codes, length, map, take};
ghost use Rattle.std.specs.Fmt.{decimal};
ghost use Rattle.fare_lines.specs.Replies.{IsMoved, IsMovedDay, refusal_name, reply_text, words_line};

use crate::print_rows::{append_bill, append_settlement};
use fare_event::{Refusal, Reply};
use fare_record::{Day, DeviceId, OwnerId};
use itoa::Buffer;
use std::alloc::AllocError;

/// The name of a refusal.
fn name_of(refusal: Refusal) -> &'static [u8]
    ensures { result.now ≡ refusal_name refusal }
{
    match refusal {
        Refusal::Unsealed => b"Unsealed",
        Refusal::Sealed => b"Sealed",
        Refusal::Range => b"Range",
        Refusal::ZeroId => b"ZeroId",
        Refusal::Taken => b"Taken",
        Refusal::UnknownParent => b"UnknownParent",
        Refusal::TooMany => b"TooMany",
        Refusal::NothingRegistered => b"NothingRegistered",
        Refusal::NoStart => b"NoStart",
        Refusal::NoZone => b"NoZone",
        Refusal::BadZone => b"BadZone",
        Refusal::UnknownDevice => b"UnknownDevice",
        Refusal::UnknownOwner => b"UnknownOwner",
        Refusal::UnknownStation => b"UnknownStation",
        Refusal::BadMoment => b"BadMoment",
        Refusal::UnknownProduct => b"UnknownProduct",
        Refusal::DayClosed => b"DayClosed",
        Refusal::DayAhead => b"DayAhead",
        Refusal::NumbersSpent => b"NumbersSpent",
        Refusal::BufferFull => b"BufferFull",
        Refusal::NoPacket => b"NoPacket",
        Refusal::Stranger => b"Stranger",
        Refusal::Misrouted => b"Misrouted",
        Refusal::Old => b"Old",
        Refusal::Ahead => b"Ahead",
        Refusal::AckAhead => b"AckAhead",
        Refusal::LastDay => b"LastDay",
        Refusal::StatementsFull => b"StatementsFull",
        Refusal::NotWaiting => b"NotWaiting",
        Refusal::Busy => b"Busy",
        Refusal::HandFull => b"HandFull",
        Refusal::Duplicate => b"Duplicate",
        Refusal::Gap => b"Gap",
        Refusal::Conflict => b"Conflict",
        Refusal::OutboxFull => b"OutboxFull",
        Refusal::NotMine => b"NotMine",
        Refusal::Retired => b"Retired",
        Refusal::AfterClose => b"AfterClose",
        Refusal::Unstated => b"Unstated",
        Refusal::Repeated => b"Repeated",
        Refusal::AlreadyClosed => b"AlreadyClosed",
        Refusal::OutOfOrder => b"OutOfOrder",
        Refusal::CountsShort { .. } => b"CountsShort",
        Refusal::CountsOver { .. } => b"CountsOver",
        Refusal::BeforeStart => b"BeforeStart",
        Refusal::Forgotten { .. } => b"Forgotten",
        Refusal::NotClosed { .. } => b"NotClosed",
    }
}

/// Appends words with one space between each two, and a line feed. After an error some of it may stand there.
fn append_words(first: &[u8], rest: &[&[u8]], out: &mut Vec<u8>) -> Result<(), AllocError>
    ensures appended { OnOk result (out.new.items ≡ out.old.items ++ words_line (first.now ∷ map (λ word. word.now) rest.now)) }
    ensures front { take (length out.old.items) out.new.items ≡ out.old.items }
{
    out.extend_from_slice(first)?;
    for word in rest {
        out.push(b' ')?;
        out.extend_from_slice(word)?;
    }
    out.push(b'\n')?;
    Ok(())
}

/// Appends words with one space between each two, and a line feed. After an error `out` is as before.
pub(crate) fn append_line(first: &[u8], rest: &[&[u8]], out: &mut Vec<u8>) -> Result<(), AllocError>
    ensures appended { OnOk result (out.new.items ≡ out.old.items ++ words_line (first.now ∷ map (λ word. word.now) rest.now)) }
    ensures kept { OnErr result (out.new.items ≡ out.old.items) }
{
    let length = out.len();
    let appended = append_words(first, rest, out);
    if appended.is_err() {
        out.truncate(length);
    }
    appended
}

/// Appends a word. Its length is one of its type's, so no copying is called for a few bytes. After an error some of it
/// may stand there.
fn put_word<const N: usize>(word: &[u8; N], out: &mut Vec<u8>) -> Result<(), AllocError>
    ensures appended { OnOk result (out.new.items ≡ out.old.items ++ word.now) }
    ensures front { take (length out.old.items) out.new.items ≡ out.old.items }
{
    out.extend_from_slice(word)
}

/// Appends a space and a sum. After an error some of it may stand there.
fn put_sum(sum: u128, out: &mut Vec<u8>) -> Result<(), AllocError>
    ensures appended { OnOk result (out.new.items ≡ out.old.items ++ 32 ∷ decimal sum) }
    ensures front { take (length out.old.items) out.new.items ≡ out.old.items }
{
    let mut buffer = Buffer::new();
    out.push(b' ')?;
    out.extend_from_slice(buffer.format(sum).as_bytes())
}

/// Appends a line of a number, how many taps it has, and the sum of what they are charged. After an error some of it
/// may stand there.
pub(crate) fn put_share_line<const N: usize>(
    name: &[u8; N],
    number: u16,
    taps: u64,
    amount: u128,
    out: &mut Vec<u8>,
) -> Result<(), AllocError>
    ensures appended { OnOk result (out.new.items ≡ out.old.items ++ words_line (name.now ∷ decimal number ∷ decimal taps ∷ decimal amount ∷ [])) }
    ensures front { take (length out.old.items) out.new.items ≡ out.old.items }
{
    put_named(name, u64::from(number), out)?;
    put_number(taps, out)?;
    put_sum(amount, out)?;
    out.push(b'\n')?;
    Ok(())
}

/// Appends a space and a number, of which many have one digit. After an error some of it may stand there.
pub(crate) fn put_number(number: u64, out: &mut Vec<u8>) -> Result<(), AllocError>
    ensures appended { OnOk result (out.new.items ≡ out.old.items ++ 32 ∷ decimal number) }
    ensures front { take (length out.old.items) out.new.items ≡ out.old.items }
{
    out.push(b' ')?;
    if number < 10 {
        out.push(b'0' + number as u8)?;
        return Ok(());
    }
    out.extend_from_slice(Buffer::new().format(number).as_bytes())
}

/// Appends a name and a number. After an error some of it may stand there.
pub(crate) fn put_named<const N: usize>(
    name: &[u8; N],
    number: u64,
    out: &mut Vec<u8>,
) -> Result<(), AllocError>
    ensures appended { OnOk result (out.new.items ≡ out.old.items ++ name.now ++ 32 ∷ decimal number) }
    ensures front { take (length out.old.items) out.new.items ≡ out.old.items }
{
    put_word(name, out)?;
    put_number(number, out)
}

/// Appends a name and a number, and a line feed. After an error some of it may stand there.
pub(crate) fn put_number_line<const N: usize>(
    name: &[u8; N],
    number: u64,
    out: &mut Vec<u8>,
) -> Result<(), AllocError>
    ensures appended { OnOk result (out.new.items ≡ out.old.items ++ words_line (name.now ∷ decimal number ∷ [])) }
    ensures front { take (length out.old.items) out.new.items ≡ out.old.items }
{
    put_named(name, number, out)?;
    out.push(b'\n')?;
    Ok(())
}

/// Appends a name, a number, a word and a number, and a line feed. After an error some of it may stand there.
fn put_numbers_line<const N: usize, const M: usize>(
    name: &[u8; N],
    first: u64,
    word: &[u8; M],
    second: u64,
    out: &mut Vec<u8>,
) -> Result<(), AllocError>
    ensures appended { OnOk result (out.new.items ≡ out.old.items ++ words_line (name.now ∷ decimal first ∷ word.now ∷ decimal second ∷ [])) }
    ensures front { take (length out.old.items) out.new.items ≡ out.old.items }
{
    put_named(name, first, out)?;
    out.push(b' ')?;
    put_named(word, second, out)?;
    out.push(b'\n')?;
    Ok(())
}

/// Appends a name and a number.
fn append_number<const N: usize>(
    name: &[u8; N],
    number: u64,
    out: &mut Vec<u8>,
) -> Result<(), AllocError>
    ensures appended { OnOk result (out.new.items ≡ out.old.items ++ words_line (name.now ∷ decimal number ∷ [])) }
    ensures kept { OnErr result (out.new.items ≡ out.old.items) }
{
    let length = out.len();
    let appended = put_number_line(name, number, out);
    if appended.is_err() {
        out.truncate(length);
    }
    appended
}

/// Appends a name, a number, a word and a number.
fn append_numbers<const N: usize, const M: usize>(
    name: &[u8; N],
    first: u64,
    word: &[u8; M],
    second: u64,
    out: &mut Vec<u8>,
) -> Result<(), AllocError>
    ensures appended { OnOk result (out.new.items ≡ out.old.items ++ words_line (name.now ∷ decimal first ∷ word.now ∷ decimal second ∷ [])) }
    ensures kept { OnErr result (out.new.items ≡ out.old.items) }
{
    let length = out.len();
    let appended = put_numbers_line(name, first, word, second, out);
    if appended.is_err() {
        out.truncate(length);
    }
    appended
}

/// Appends a name and a day.
fn append_day<const N: usize>(name: &[u8; N], day: Day, out: &mut Vec<u8>) -> Result<(), AllocError>
    ensures appended { OnOk result (out.new.items ≡ out.old.items ++ words_line (name.now ∷ decimal day ∷ [])) }
    ensures kept { OnErr result (out.new.items ≡ out.old.items) }
{
    append_number(name, u64::from(day.get()), out)
}

/// Appends a name, a device, a word and a number.
fn append_of_device<const N: usize, const M: usize>(
    name: &[u8; N],
    device: DeviceId,
    word: &[u8; M],
    number: u64,
    out: &mut Vec<u8>,
) -> Result<(), AllocError>
    ensures appended { OnOk result (out.new.items ≡ out.old.items ++ words_line (name.now ∷ decimal device ∷ word.now ∷ decimal number ∷ [])) }
    ensures kept { OnErr result (out.new.items ≡ out.old.items) }
{
    append_numbers(name, u64::from(device.get()), word, number, out)
}

/// Appends the two numbers of a record. After an error some of it may stand there.
fn put_record(link: u64, lane: u64, out: &mut Vec<u8>) -> Result<(), AllocError>
    ensures appended { OnOk result (out.new.items ≡ out.old.items ++ reply_text (Reply.Recorded link lane)) }
    ensures front { take (length out.old.items) out.new.items ≡ out.old.items }
{
    put_named(b"record", link, out)?;
    put_number(lane, out)?;
    out.push(b'\n')?;
    Ok(())
}

/// Appends the two numbers of a record.
fn append_record(link: u64, lane: u64, out: &mut Vec<u8>) -> Result<(), AllocError>
    ensures appended { OnOk result (out.new.items ≡ out.old.items ++ reply_text (Reply.Recorded link lane)) }
    ensures kept { OnErr result (out.new.items ≡ out.old.items) }
{
    let length = out.len();
    let appended = put_record(link, lane, out);
    if appended.is_err() {
        out.truncate(length);
    }
    appended
}

/// Appends the packet of an acknowledgement, with its device and its last link. After an error some of it may stand
/// there.
fn put_answer(packet: u64, device: u64, upto: u64, out: &mut Vec<u8>) -> Result<(), AllocError>
    ensures appended { OnOk result (out.new.items ≡ out.old.items ++ reply_text (Reply.Answered packet device upto)) }
    ensures front { take (length out.old.items) out.new.items ≡ out.old.items }
{
    put_named(b"packet", packet, out)?;
    out.push(b' ')?;
    put_named(b"ack", device, out)?;
    put_number(upto, out)?;
    out.push(b'\n')?;
    Ok(())
}

/// Appends the packet of an acknowledgement, with its device and its last link.
fn append_answer(
    packet: u64,
    device: DeviceId,
    upto: u64,
    out: &mut Vec<u8>,
) -> Result<(), AllocError>
    ensures appended { OnOk result (out.new.items ≡ out.old.items ++ reply_text (Reply.Answered packet device upto)) }
    ensures kept { OnErr result (out.new.items ≡ out.old.items) }
{
    let length = out.len();
    let appended = put_answer(packet, u64::from(device.get()), upto, out);
    if appended.is_err() {
        out.truncate(length);
    }
    appended
}

/// Appends a refusal that two counts are shown with.
fn append_counts(name: &[u8], stated: u64, taken: u64, out: &mut Vec<u8>) -> Result<(), AllocError>
    ensures appended { OnOk result (out.new.items ≡ out.old.items ++ words_line (codes "refused" ∷ name.now ∷ decimal stated ∷ decimal taken ∷ [])) }
    ensures kept { OnErr result (out.new.items ≡ out.old.items) }
{
    let mut one = Buffer::new();
    let mut two = Buffer::new();
    let stated = one.format(stated).as_bytes();
    let taken = two.format(taken).as_bytes();
    append_line(b"refused", &[name, stated, taken], out)
}

/// Appends a refusal that a device is shown with.
fn append_open(name: &[u8], device: DeviceId, out: &mut Vec<u8>) -> Result<(), AllocError>
    ensures appended { OnOk result (out.new.items ≡ out.old.items ++ words_line (codes "refused" ∷ name.now ∷ decimal device ∷ [])) }
    ensures kept { OnErr result (out.new.items ≡ out.old.items) }
{
    append_line(
        b"refused",
        &[name, Buffer::new().format(device.get()).as_bytes()],
        out,
    )
}

/// Appends a refusal, with the numbers that are shown with it.
fn append_refusal(refusal: &Refusal, out: &mut Vec<u8>) -> Result<(), AllocError>
    ensures appended { OnOk result (out.new.items ≡ out.old.items ++ reply_text (Reply.Refused refusal.now)) }
    ensures kept { OnErr result (out.new.items ≡ out.old.items) }
{
    let name = name_of(*refusal);
    match refusal {
        Refusal::CountsShort { stated, taken } | Refusal::CountsOver { stated, taken } => {
            append_counts(name, *stated, *taken, out)
        }
        Refusal::Forgotten { device } | Refusal::NotClosed { device } => {
            append_open(name, *device, out)
        }
        _ => append_line(b"refused", &[name], out),
    }
}

/// Appends a name, a number and a word, a day and an owner.
fn append_statement(
    name: &[u8],
    first: u64,
    day: Day,
    owner: OwnerId,
    out: &mut Vec<u8>,
) -> Result<(), AllocError>
    ensures appended { OnOk result (out.new.items ≡ out.old.items ++ words_line (name.now ∷ decimal first ∷ codes "day" ∷ decimal day ∷ codes "owner" ∷ decimal owner ∷ [])) }
    ensures kept { OnErr result (out.new.items ≡ out.old.items) }
{
    let mut one = Buffer::new();
    let mut two = Buffer::new();
    let mut three = Buffer::new();
    let first = one.format(first).as_bytes();
    let day = two.format(day.get()).as_bytes();
    let owner = three.format(owner.get()).as_bytes();
    append_line(name, &[first, b"day", day, b"owner", owner], out)
}

/// Appends a name, a device, a day and an owner.
fn append_statement_of(
    name: &[u8],
    device: DeviceId,
    day: Day,
    owner: OwnerId,
    out: &mut Vec<u8>,
) -> Result<(), AllocError>
    ensures appended { OnOk result (out.new.items ≡ out.old.items ++ words_line (name.now ∷ decimal device ∷ codes "day" ∷ decimal day ∷ codes "owner" ∷ decimal owner ∷ [])) }
    ensures kept { OnErr result (out.new.items ≡ out.old.items) }
{
    append_statement(name, u64::from(device.get()), day, owner, out)
}

/// Appends the packet of a day's acknowledgement, with its device.
fn append_day_answer(
    packet: u64,
    device: DeviceId,
    day: Day,
    out: &mut Vec<u8>,
) -> Result<(), AllocError>
    ensures appended { OnOk result (out.new.items ≡ out.old.items ++ reply_text (Reply.AnsweredDay packet device day)) }
    ensures kept { OnErr result (out.new.items ≡ out.old.items) }
{
    let mut one = Buffer::new();
    let mut two = Buffer::new();
    let mut three = Buffer::new();
    let packet = one.format(packet).as_bytes();
    let device = two.format(device.get()).as_bytes();
    let day = three.format(day.get()).as_bytes();
    append_line(b"packet", &[packet, b"dayack", device, day], out)
}

/// Appends a taken statement, with its count.
fn append_stated(
    device: DeviceId,
    day: Day,
    count: u64,
    out: &mut Vec<u8>,
) -> Result<(), AllocError>
    ensures appended { OnOk result (out.new.items ≡ out.old.items ++ reply_text (Reply.Stated device day count)) }
    ensures kept { OnErr result (out.new.items ≡ out.old.items) }
{
    let mut one = Buffer::new();
    let mut two = Buffer::new();
    let mut three = Buffer::new();
    let device = one.format(device.get()).as_bytes();
    let day = two.format(day.get()).as_bytes();
    let count = three.format(count).as_bytes();
    append_line(b"stated", &[device, b"day", day, b"count", count], out)
}

/// Appends a closed day.
fn append_closed(device: DeviceId, day: Day, out: &mut Vec<u8>) -> Result<(), AllocError>
    ensures appended { OnOk result (out.new.items ≡ out.old.items ++ reply_text (Reply.Closed device day)) }
    ensures kept { OnErr result (out.new.items ≡ out.old.items) }
{
    let mut one = Buffer::new();
    let mut two = Buffer::new();
    let device = one.format(device.get()).as_bytes();
    let day = two.format(day.get()).as_bytes();
    append_line(b"closed", &[device, day], out)
}

/// Appends the line of a reply of how a statement moved.
fn print_moved_day(reply: &Reply, out: &mut Vec<u8>) -> Result<(), AllocError>
    requires { IsMovedDay reply.now }
    ensures appended { OnOk result (out.new.items ≡ out.old.items ++ reply_text reply.now) }
    ensures kept { OnErr result (out.new.items ≡ out.old.items) }
{
    match reply {
        Reply::SentDay { packet, day, owner } => {
            append_statement(b"packet", *packet, *day, *owner, out)
        }
        Reply::DroppedDay(day) => append_day(b"acked day", *day, out),
        Reply::DrawnDay { device, day, owner } => {
            append_statement_of(b"drawn", *device, *day, *owner, out)
        }
        Reply::StoredDay { device, day, owner } => {
            append_statement_of(b"stored", *device, *day, *owner, out)
        }
        Reply::AcknowledgedDay(day) => append_day(b"dayack", *day, out),
        Reply::AnsweredDay {
            packet,
            device,
            day,
        } => append_day_answer(*packet, *device, *day, out),
        Reply::ForwardedDay { day } => append_day(b"forwarded day", *day, out),
        Reply::FetchedDay { device, day } => {
            append_of_device(b"fetched", *device, b"day", u64::from(day.get()), out)
        }
        Reply::Stated { device, day, count } => append_stated(*device, *day, *count, out),
        _ => unreachable!(),
    }
}

/// Appends the line of a reply of how a tap or a statement moved.
fn print_moved(reply: &Reply, out: &mut Vec<u8>) -> Result<(), AllocError>
    requires { IsMoved reply.now }
    ensures appended { OnOk result (out.new.items ≡ out.old.items ++ reply_text reply.now) }
    ensures kept { OnErr result (out.new.items ≡ out.old.items) }
{
    match reply {
        Reply::Recorded { link, lane } => append_record(*link, *lane, out),
        Reply::Sent { packet, link } => append_numbers(b"packet", *packet, b"link", *link, out),
        Reply::Dropped(count) => append_number(b"acked", *count, out),
        Reply::Drawn { device, link } => append_of_device(b"drawn", *device, b"link", *link, out),
        Reply::Stored { device, link } => append_of_device(b"stored", *device, b"link", *link, out),
        Reply::Acknowledged(upto) => append_number(b"ack", *upto, out),
        Reply::Answered {
            packet,
            device,
            upto,
        } => append_answer(*packet, *device, *upto, out),
        Reply::Forwarded { lane } => append_number(b"forwarded lane", *lane, out),
        Reply::Fetched { device, lane } => {
            append_of_device(b"fetched", *device, b"lane", *lane, out)
        }
        Reply::Taken { device, lane } => append_of_device(b"taken", *device, b"lane", *lane, out),
        _ => print_moved_day(reply, out),
    }
}

/// Appends a reply's line, ended by a line feed. The error is want of memory, and after it `out` is as before.
pub fn print_reply(reply: &Reply, out: &mut Vec<u8>) -> Result<(), AllocError>
    ensures appended { OnOk result (out.new.items ≡ out.old.items ++ reply_text reply.now) }
    ensures kept { OnErr result (out.new.items ≡ out.old.items) }
{
    match reply {
        Reply::Done => append_line(b"ok", &[], out),
        Reply::Idle => append_line(b"idle", &[], out),
        Reply::Empty => append_line(b"empty", &[], out),
        Reply::Rewound => append_line(b"rewound", &[], out),
        Reply::Accepted => append_line(b"accepted", &[], out),
        Reply::Restarted => append_line(b"restarted", &[], out),
        Reply::Refused(refusal) => append_refusal(refusal, out),
        Reply::Opened(day) => append_day(b"open", *day, out),
        Reply::Closed { device, day } => append_closed(*device, *day, out),
        Reply::Retired(device) => append_number(b"retired", u64::from(device.get()), out),
        Reply::Resumed(upto) => append_number(b"resumed", *upto, out),
        Reply::Upto(number) => append_number(b"upto", *number, out),
        Reply::Count(number) => append_number(b"count", *number, out),
        Reply::Pruned(rows) => append_number(b"pruned", *rows, out),
        Reply::Bill {
            owner,
            day,
            bill,
            short,
        } => append_bill(*owner, *day, bill, short, out),
        Reply::Settlement {
            owner,
            day,
            settlement,
            short,
        } => append_settlement(*owner, *day, settlement, short, out),
        _ => print_moved(reply, out),
    }
}
