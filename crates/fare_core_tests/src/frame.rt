ghost use Rattle.std.specs.Prelude.{◌<◌};

use crate::checking::same;
use fare_frame::{Frame, ReadFault, Reader};
use fare_record::{Ack, AckItem, Day, DayAck, DeviceId, Hello, Item};
use fare_samples::{
    ACKED, DAY_ACKED, FIRST, GREETED, ROUTED, STATED, TAPPED, acked, day_acked, greeted, record,
    routed, stated, statement, tapped,
};
use std::alloc::Global;
use std::process::Abort;

// The bytes of a frame, and the frames that a new reader reads from them.
fn there_and_back(alloc: Global, frame: Frame) -> Option<(Vec<u8>, Vec<Frame>)> {
    let mut bytes = Vec::new(alloc);
    frame.put(&mut bytes).ok()?;
    let mut frames = Vec::new(alloc);
    Reader::new(alloc).ok()?.feed(&bytes, &mut frames).ok()?;
    Some((bytes, frames))
}

#[test]
fn each_frame_has_its_bytes(rt: HostRuntime) {
    let cases: [(Option<Frame>, &[u8]); 6] = [
        (tapped(), &TAPPED),
        (routed(), &ROUTED),
        (stated(), &STATED),
        (acked(), &ACKED),
        (day_acked(), &DAY_ACKED),
        (greeted(), &GREETED),
    ];
    for (frame, want) in cases {
        let frame = frame.expect(&rt, "frame");
        let (bytes, frames) = there_and_back(rt.alloc(), frame).expect(&rt, "memory");
        same(&rt, &bytes.as_slice(), &want);
        same(&rt, &frames.len(), &1);
        same(&rt, frames.first().expect(&rt, "frame"), &frame);
    }
}

// What a new reader answers to the last of these pieces, and how many frames it has given, of which the last.
fn answer(alloc: Global, pieces: &[&[u8]]) -> Option<(Option<ReadFault>, usize, Option<Frame>)> {
    let mut reader = Reader::new(alloc).ok()?;
    let mut frames = Vec::new(alloc);
    let mut fault = None;
    for piece in pieces {
        fault = reader.feed(piece, &mut frames).err();
    }
    Some((fault, frames.len(), frames.last().copied()))
}

#[test]
fn frames_follow_one_another(rt: HostRuntime) {
    let cases: [(&[&[u8]], Option<Frame>); 4] = [
        (&[&GREETED, &TAPPED], tapped()),
        (&[&GREETED, &TAPPED, &STATED], stated()),
        (&[&GREETED, &TAPPED, &STATED, &ACKED], acked()),
        (
            &[&GREETED, &TAPPED, &STATED, &ACKED, &DAY_ACKED],
            day_acked(),
        ),
    ];
    for (pieces, last) in cases {
        same(
            &rt,
            &answer(rt.alloc(), pieces),
            &Some((None, pieces.len(), last)),
        );
    }
}

#[test]
fn a_frame_comes_in_two_pieces(rt: HostRuntime) {
    for cut in 1..49usize {
        let (front, back) = TAPPED.split_at(cut);
        same(
            &rt,
            &(cut, answer(rt.alloc(), &[front])),
            &(cut, Some((None, 0, None))),
        );
        same(
            &rt,
            &(cut, answer(rt.alloc(), &[front, back])),
            &(cut, Some((None, 1, tapped()))),
        );
    }
}

// Whether bytes are refused whole, or read as another frame than the one on route 7, of which they are the spelling.
fn is_another_or_refused(alloc: Global, bytes: &[u8]) -> Option<bool> {
    match answer(alloc, &[bytes])? {
        (Some(_fault), count, _) => Some(count == 0),
        (None, 1, Some(frame)) => {
            let (spelled, _frames) = there_and_back(alloc, frame)?;
            Some(Some(frame) != routed() && spelled.as_slice() == bytes)
        }
        _ => Some(false),
    }
}

#[test]
fn a_frame_with_one_bit_turned_is_another_or_none(rt: HostRuntime) {
    const BITS: [u8; 8] = [1, 2, 4, 8, 16, 32, 64, 128];
    for place in 0..51usize {
        for bit in &BITS {
            let mut bytes = ROUTED;
            bytes[place] ^= *bit;
            let judged = is_another_or_refused(rt.alloc(), &bytes);
            same(&rt, &(place, *bit, judged), &(place, *bit, Some(true)));
        }
    }
}

// A tap on route 0 spelled as if its route were known, and one with a known route spelled without it.
#[test]
fn a_tap_has_one_spelling(rt: HostRuntime) {
    let mut unknown = ROUTED;
    unknown[50] = 0;
    stops(&rt, rt.alloc(), &unknown[..50], None);
    stops(&rt, rt.alloc(), &unknown, Some(ReadFault::BadBody));
    let frame = routed().expect(&rt, "frame");
    let record = frame.tapped().expect(&rt, "record");
    same(&rt, &record.tap().route(), &7);
    let plain = tapped().expect(&rt, "frame").tapped().expect(&rt, "record");
    same(&rt, &plain.tap().route(), &0);
}

// The bytes of taps of both kinds, and of an acknowledgement between them.
fn mixed_stream(alloc: Global) -> Option<Vec<u8>> {
    let mut stream = Vec::new(alloc);
    let frames: [&[u8]; 6] = [&TAPPED, &ROUTED, &ROUTED, &ACKED, &TAPPED, &ROUTED];
    for frame in frames {
        stream.extend_from_slice(frame).ok()?;
    }
    Some(stream)
}

#[test]
fn both_kinds_of_taps_come_in_pieces_of_every_size(rt: HostRuntime) {
    let stream = mixed_stream(rt.alloc()).expect(&rt, "stream");
    same(&rt, &stream.len(), &266);
    let frames = [routed(), acked(), tapped(), routed()];
    for size in 1..267usize {
        let read = read_in(rt.alloc(), &stream, size).expect(&rt, "frames");
        same(&rt, &(size, read.len()), &(size, 6));
        for (place, frame) in frames.iter().enumerate() {
            let read = read.get(place.saturating_add(2)).copied();
            same(&rt, &(size, place, read), &(size, place, *frame));
        }
    }
}

#[test]
fn a_stream_that_failed_is_read_no_further(rt: HostRuntime) {
    let bad: &[u8] = &[0x00, 0x30, 0x01];
    let cases: [(&[&[u8]], ReadFault); 3] = [
        (&[bad], ReadFault::BadLength),
        (&[bad, &[]], ReadFault::Failed),
        (&[bad, &TAPPED], ReadFault::Failed),
    ];
    for (pieces, fault) in cases {
        same(
            &rt,
            &answer(rt.alloc(), pieces),
            &Some((Some(fault), 0, None)),
        );
    }
}

// What a reader answers to the rest of a frame after it was made to fail.
fn answer_after_failing(alloc: Global) -> Option<(Option<ReadFault>, usize)> {
    let (front, back) = TAPPED.split_at(20);
    let mut reader = Reader::new(alloc).ok()?;
    let mut frames = Vec::new(alloc);
    reader.feed(front, &mut frames).ok()?;
    reader.fail();
    Some((reader.feed(back, &mut frames).err(), frames.len()))
}

#[test]
fn a_reader_fails_when_it_is_told_to(rt: HostRuntime) {
    same(
        &rt,
        &answer_after_failing(rt.alloc()),
        &Some((Some(ReadFault::Failed), 0)),
    );
}

// These bytes behind a whole frame are answered so, and nothing more is read.
fn stops(rt: &impl Abort, alloc: Global, bytes: &[u8], fault: Option<ReadFault>) {
    let behind = answer(alloc, &[&GREETED, bytes]);
    same(rt, &behind, &Some((fault, 1, greeted())));
}

#[test]
fn a_place_is_judged_by_its_first_bytes(rt: HostRuntime) {
    const CASES: [([u8; 3], ReadFault); 8] = [
        ([0x00, 0x30, 0x09], ReadFault::BadLength),
        ([0x00, 0x2f, 0x06], ReadFault::BadLength),
        ([0x00, 0x31, 0x01], ReadFault::BadLength),
        ([0x00, 0x31, 0x07], ReadFault::BadType),
        ([0x01, 0x2f, 0x01], ReadFault::BadLength),
        ([0x00, 0x2f, 0x02], ReadFault::BadLength),
        ([0x00, 0x0d, 0x09], ReadFault::BadType),
        ([0x00, 0x0d, 0x00], ReadFault::BadType),
    ];
    for &(bytes, fault) in &CASES {
        stops(&rt, rt.alloc(), &bytes[..2], None);
        stops(&rt, rt.alloc(), &bytes, Some(fault));
    }
}

#[test]
fn a_body_is_judged_once_it_is_there(rt: HostRuntime) {
    // Device 0.
    let mut greeted = GREETED;
    greeted[6] = 0;
    stops(&rt, rt.alloc(), &greeted[..8], None);
    stops(&rt, rt.alloc(), &greeted, Some(ReadFault::BadBody));
    // Link 0.
    let mut tapped = TAPPED;
    tapped[14] = 0;
    stops(&rt, rt.alloc(), &tapped[..48], None);
    stops(&rt, rt.alloc(), &tapped, Some(ReadFault::BadBody));
}

// The bytes of 10,000 frames.
fn long_stream(alloc: Global) -> Option<Vec<u8>> {
    let mut stream = Vec::new(alloc);
    for _ in 0..5_000 {
        stream.extend_from_slice(&TAPPED).ok()?;
        stream.extend_from_slice(&ACKED).ok()?;
    }
    Some(stream)
}

// The frames of a stream that comes in pieces of this size.
fn read_in(alloc: Global, stream: &[u8], size: usize) -> Option<Vec<Frame>>
    requires { 0 < size }
{
    let mut reader = Reader::new(alloc).ok()?;
    let mut frames = Vec::new(alloc);
    for piece in stream.chunks(size) {
        reader.feed(piece, &mut frames).ok()?;
    }
    Some(frames)
}

#[test]
fn a_long_stream_reads_the_same_in_any_pieces(rt: HostRuntime) {
    let stream = long_stream(rt.alloc()).expect(&rt, "stream");
    let whole = read_in(rt.alloc(), &stream, 1_000_000).expect(&rt, "whole");
    let single = read_in(rt.alloc(), &stream, 1).expect(&rt, "single");
    same(&rt, &whole.len(), &10_000);
    assert!(rt; whole.as_slice() == single.as_slice());
}

// Whether a frame has a tap, a statement, an acknowledgement of taps and one of a day.
fn holds(frame: Frame) -> [bool; 4] {
    [
        frame.tapped().is_some(),
        frame.stated().is_some(),
        frame.acked().is_some(),
        frame.day_acked().is_some(),
    ]
}

#[test]
fn a_frame_tells_what_it_holds(rt: HostRuntime) {
    let cases = [
        (tapped(), [true, false, false, false]),
        (routed(), [true, false, false, false]),
        (stated(), [false, true, false, false]),
        (acked(), [false, false, true, false]),
        (day_acked(), [false, false, false, true]),
        (greeted(), [false, false, false, false]),
    ];
    for (frame, held) in cases {
        same(&rt, &frame.map(holds), &Some(held));
    }
}

#[test]
fn an_item_tells_what_it_holds(rt: HostRuntime) {
    let (tapped, stated) = (
        tapped().expect(&rt, "tap"),
        stated().expect(&rt, "statement"),
    );
    let record = tapped.tapped().expect(&rt, "record");
    let statement = stated.stated().expect(&rt, "statement");
    let (tap, stated) = (Item::Tap(record), Item::Stated(statement));
    same(&rt, &(tap.tap(), tap.stated()), &(Some(record), None));
    same(
        &rt,
        &(stated.tap(), stated.stated()),
        &(None, Some(statement)),
    );
}

#[test]
fn an_acknowledgement_tells_what_it_holds(rt: HostRuntime) {
    let (acked, day_acked) = (acked().expect(&rt, "ack"), day_acked().expect(&rt, "day"));
    let ack = acked.acked().expect(&rt, "ack");
    let day_ack = day_acked.day_acked().expect(&rt, "day");
    let (upto, day) = (AckItem::Upto(ack), AckItem::Day(day_ack));
    same(&rt, &(upto.upto(), upto.day()), &(Some(ack), None));
    same(&rt, &(day.upto(), day.day()), &(None, Some(day_ack)));
    same(&rt, &Frame::acknowledging(&upto), &acked);
    same(&rt, &Frame::acknowledging(&day), &day_acked);
}
