use crate::checking::same;
use fare_frame::{Frame, Reader};
use fare_net::{
    AnswerFault, Heard, HelloFault, ListenFault, NetFault, NetSource, Turn, listen, station_answer,
    station_turn,
};
use fare_samples::{
    ACKED, Closed, FIRST, GREETED, Lossy, Numbers, ROUTED, TAPPED, acked, greeted, record, routed,
    tapped,
};
use fare_scheme::{DemoSize, Scheme};
use fare_source::{Source, SourceFault};
use std::alloc::Global;
use std::io;
use std::io::{ErrorKind, Read, Write};

/// How a stream of so many bytes comes, and what comes once they are read.
#[derive(Drop)]
struct Line<'a> {
    bytes: &'a [u8],
    // the most bytes of a read
    most: usize,
    // a read waits in vain before each that brings something
    waits: bool,
    waited: bool,
    end: End,
}

#[derive(Clone, Copy, PartialEq, Eq)]
enum End {
    Ends,
    // each read waits in vain
    Silent,
    Fails,
}

impl Read for Line<'_> {
    fn read(&mut self, buf: &mut [u8]) -> io::Result<usize> {
        if self.bytes.is_empty() {
            return match self.end {
                End::Ends => Ok(0),
                End::Silent => Err(ErrorKind::WouldBlock.into()),
                End::Fails => Err(ErrorKind::ConnectionReset.into()),
            };
        }
        self.waited = !self.waited;
        if self.waits && self.waited {
            return Err(ErrorKind::TimedOut.into());
        }
        let count = self.most.min(self.bytes.len()).min(buf.len());
        for place in 0..count {
            buf[place] = self.bytes[place];
        }
        self.bytes = &self.bytes[count..];
        Ok(count)
    }
}

fn over(bytes: &[u8], most: usize, end: End) -> Line<'_> {
    Line {
        bytes,
        most,
        waits: false,
        waited: false,
        end,
    }
}

// A greeting and a tap.
fn two() -> [u8; 58] {
    let mut bytes = [0; 58];
    for place in 0..9 {
        bytes[place] = GREETED[place];
    }
    for place in 0..49 {
        bytes[9 + place] = TAPPED[place];
    }
    bytes
}

fn scheme(alloc: Global) -> Option<Scheme> {
    Scheme::demo(alloc, DemoSize::OneDevice, 4, 4, 4).ok()
}

/// What at most 200 turns come to: the first frames, the number of bytes, and what the last turn found.
type Turned = ([Option<Frame>; 3], u64, Result<Turn, NetFault>);

fn turns_of<R: Read>(alloc: Global, reader: &mut R) -> Option<Turned> {
    let mut decoder = Reader::new(alloc).ok()?;
    let mut frames = Vec::new(alloc);
    let mut bytes: u64 = 0;
    let mut last = Ok(Turn::Waited);
    for _ in 0..200 {
        last = station_turn(reader, &mut decoder, &mut frames);
        match last {
            Ok(Turn::Read(count)) => bytes = bytes.saturating_add(count as u64),
            Ok(Turn::Waited) => {}
            Ok(Turn::Ended) | Err(_) => break,
        }
    }
    let first = [
        frames.get(0).copied(),
        frames.get(1).copied(),
        frames.get(2).copied(),
    ];
    Some((first, bytes, last))
}

#[test]
fn turns_read_the_frames_in_any_pieces(rt: HostRuntime) {
    let bytes = two();
    for most in 1..59usize {
        let mut reader = over(&bytes, most, End::Ends);
        reader.waits = most % 2 == 0;
        same(
            &rt,
            &(most, turns_of(rt.alloc(), &mut reader)),
            &(
                most,
                Some(([greeted(), tapped(), None], 58, Ok(Turn::Ended))),
            ),
        );
    }
}

#[test]
fn a_turn_has_its_faults(rt: HostRuntime) {
    let bytes = two();
    const CASES: [(End, Result<Turn, NetFault>); 3] = [
        (End::Ends, Ok(Turn::Ended)),
        (End::Silent, Ok(Turn::Waited)),
        (End::Fails, Err(NetFault::Read)),
    ];
    for &(end, last) in &CASES {
        same(
            &rt,
            &turns_of(rt.alloc(), &mut over(&bytes, 58, end)),
            &Some(([greeted(), tapped(), None], 58, last)),
        );
    }
}

#[test]
fn an_answer_is_its_vector(rt: HostRuntime) {
    let alloc = rt.alloc();
    let frame = acked().expect(&rt, "ack");
    let mut written = Vec::new(alloc);
    let answers = [
        station_answer(alloc, &mut written, &frame),
        station_answer(alloc, &mut Closed, &frame),
        station_answer(alloc, &mut Lossy, &frame),
    ];
    same(
        &rt,
        &answers,
        &[Ok(()), Err(AnswerFault::Write), Err(AnswerFault::Write)],
    );
    same(&rt, &written.as_slice(), &ACKED.as_slice());
}

// The station of the greeting of a stream, and what the source then answers.
fn hello_of(
    alloc: Global,
    bytes: &[u8],
    turns: u64,
) -> Option<(Result<u16, HelloFault>, Result<Option<Frame>, SourceFault>)> {
    let scheme = scheme(alloc)?;
    let mut source = NetSource::new(alloc, bytes, io::sink(), turns).ok()?;
    let station = source.hello(&scheme).map(|station| station.get());
    Some((station, source.next()))
}

#[test]
fn a_line_greets_first(rt: HostRuntime) {
    let bytes = two();
    let (mut version, mut device) = (bytes, bytes);
    version[8] = 9;
    let (mut none, mut third) = (bytes, bytes);
    none[8] = 0;
    third[8] = 3;
    device[6] = 9;
    let cases: [(&[u8], u64, HelloFault); 10] = [
        (&version, 10, HelloFault::BadVersion),
        (&none, 10, HelloFault::BadVersion),
        (&third, 10, HelloFault::BadVersion),
        (&device, 10, HelloFault::UnknownDevice),
        (&TAPPED, 10, HelloFault::NoHello),
        (&ACKED, 10, HelloFault::NoHello),
        (&[], 10, HelloFault::NoHello),
        (&GREETED[..5], 10, HelloFault::NoHello),
        (&[0x00, 0x30, 0x01], 10, HelloFault::Failed),
        (&bytes, 0, HelloFault::Failed),
    ];
    same(
        &rt,
        &hello_of(rt.alloc(), &bytes, 10),
        &Some((Ok(1), Ok(tapped()))),
    );
    for (bytes, turns, fault) in cases {
        same(
            &rt,
            &hello_of(rt.alloc(), bytes, turns),
            &Some((Err(fault), Err(SourceFault::Failed))),
        );
    }
}

// A greeting of a version, and a tap of each kind.
fn both_kinds(alloc: Global, version: u8) -> Option<Vec<u8>> {
    let mut greeted = GREETED;
    greeted[8] = version;
    let mut bytes = Vec::new(alloc);
    for frame in [&greeted as &[u8], &TAPPED, &ROUTED] {
        bytes.extend_from_slice(frame).ok()?;
    }
    Some(bytes)
}

#[test]
fn a_line_of_either_version_says_both_kinds_of_taps(rt: HostRuntime) {
    for version in [1, 2] {
        let bytes = both_kinds(rt.alloc(), version).expect(&rt, "bytes");
        same(
            &rt,
            &(version, heard(rt.alloc(), bytes.as_slice(), 10)),
            &(version, Some(Ok((1, 2, routed(), true)))),
        );
    }
}

// Who was heard of a line, how many frames it said after its greeting, of which the last, and whether it came to its
// end; the error is why it wasn't heard.
fn heard<R: Read + Drop>(
    alloc: Global,
    reader: R,
    turns: u64,
) -> Option<Result<(u16, usize, Option<Frame>, bool), ListenFault>> {
    let scheme = scheme(alloc)?;
    Some(match listen(alloc, reader, &scheme, turns) {
        Ok(
            Heard {
                station,
                frames,
                ended,
            },
        ) => Ok((station.get(), frames.len(), frames.last().copied(), ended)),
        Err(fault) => Err(fault),
    })
}

#[test]
fn a_frame_that_is_cut_off_is_dropped(rt: HostRuntime) {
    let bytes = two();
    for count in 9..58usize {
        same(
            &rt,
            &(count, heard(rt.alloc(), &bytes[..count], 10)),
            &(count, Some(Ok((1, 0, None, true)))),
        );
    }
}

#[test]
fn a_line_is_heard_to_its_end_or_its_fault(rt: HostRuntime) {
    let mut last = two();
    for place in 0..8 {
        last[16 + place] = [0, 0, 0, 0xff, 0xff, 0xff, 0xff, 0xff][place];
    }
    let greatest = record(Numbers {
        link: 1_099_511_627_775,
        ..FIRST
    });
    let mut bad = [0; 61];
    for place in 0..58 {
        bad[place] = two()[place];
    }
    bad[59] = 0x30;
    let cases: [(&[u8], Option<Frame>, bool); 3] = [
        (&two(), tapped(), true),
        (&last, greatest.map(Frame::Tapped), true),
        (&bad, tapped(), false),
    ];
    for (bytes, frame, ended) in cases {
        same(
            &rt,
            &heard(rt.alloc(), bytes, 10),
            &Some(Ok((1, 1, frame, ended))),
        );
    }
}

#[test]
fn a_line_fails_where_a_read_does(rt: HostRuntime) {
    let bytes = two();
    for count in 0..59usize {
        let want = match count {
            0..9 => Err(ListenFault::Hello(HelloFault::Failed)),
            9..58 => Ok((1, 0, None, false)),
            _ => Ok((1, 1, tapped(), false)),
        };
        same(
            &rt,
            &(
                count,
                heard(rt.alloc(), over(&bytes[..count], 1, End::Fails), 100),
            ),
            &(count, Some(want)),
        );
    }
}

#[test]
fn a_silent_line_uses_up_its_turns(rt: HostRuntime) {
    let bytes = two();
    let silent = heard(rt.alloc(), over(&bytes, 20, End::Silent), 50);
    let mute = heard(rt.alloc(), over(&[], 20, End::Silent), 50);
    same(&rt, &silent, &Some(Ok((1, 1, tapped(), false))));
    same(
        &rt,
        &mute,
        &Some(Err(ListenFault::Hello(HelloFault::Failed))),
    );
}

/// Says the same frame again and again, after a greeting.
#[derive(Drop)]
struct Endless {
    place: usize,
}

impl Read for Endless {
    fn read(&mut self, buf: &mut [u8]) -> io::Result<usize> {
        let bytes = two();
        for byte in &mut buf[..] {
            *byte = if self.place < 58 {
                bytes[self.place]
            } else {
                0
            };
            self.place = if self.place < 57 { self.place + 1 } else { 9 };
        }
        Ok(buf.len())
    }
}

#[test]
fn a_line_that_never_ends_is_read_so_often(rt: HostRuntime) {
    // 4,096 bytes a read: 83 taps of the first, and 8,183 bytes of taps of two.
    let one = heard(rt.alloc(), Endless { place: 0 }, 1);
    let two = heard(rt.alloc(), Endless { place: 0 }, 2);
    same(&rt, &one, &Some(Ok((1, 83, tapped(), false))));
    same(&rt, &two, &Some(Ok((1, 167, tapped(), false))));
}

// Whether a source is ready, asked three times, over a line that waits before each read, and then its next frame.
fn readiness(alloc: Global, most: usize) -> Option<([bool; 3], Option<Frame>)> {
    let scheme = scheme(alloc)?;
    let bytes = two();
    let mut reader = over(&bytes, most, End::Ends);
    reader.waits = true;
    let mut source = NetSource::new(alloc, reader, io::sink(), 20).ok()?;
    source.hello(&scheme).ok()?;
    let ready = [source.is_ready(), source.is_ready(), source.is_ready()];
    Some((ready, source.next().ok()?))
}

#[test]
fn a_source_is_ready_where_a_frame_is_there(rt: HostRuntime) {
    const CASES: [(usize, [bool; 3]); 3] = [
        (58, [true, true, true]),
        (50, [false, true, true]),
        (9, [false, false, false]),
    ];
    for &(most, ready) in &CASES {
        same(&rt, &readiness(rt.alloc(), most), &Some((ready, tapped())));
    }
}

/// Takes so many bytes in all, and then none.
#[derive(Drop)]
struct Room<'a> {
    left: usize,
    written: &'a mut Vec<u8>,
}

impl Write for Room<'_> {
    fn write(&mut self, buf: &[u8]) -> io::Result<usize> {
        let count = self.left.min(buf.len());
        if count == 0 && !buf.is_empty() {
            return Err(ErrorKind::BrokenPipe.into());
        }
        self.left -= count;
        match self.written.extend_from_slice(&buf[..count]) {
            Ok(()) => Ok(count),
            Err(_) => Err(ErrorKind::OutOfMemory.into()),
        }
    }

    fn flush(&mut self) -> io::Result<()> {
        Ok(())
    }
}

// What three answers of a source came to, each sent behind it, whose writer takes so many bytes; and how many it took.
fn answers_with(alloc: Global, room: usize) -> Option<([Result<(), SourceFault>; 3], usize)> {
    let frame = acked()?;
    let mut written = Vec::new(alloc);
    let writer = Room {
        left: room,
        written: &mut written,
    };
    let mut source = NetSource::new(alloc, io::empty(), writer, 1).ok()?;
    let mut answers = [Ok(()); 3];
    for answer in &mut answers {
        *answer = source.answer(&frame);
        source.flush();
    }
    drop(source);
    Some((answers, written.len()))
}

#[test]
fn no_answer_follows_one_that_failed(rt: HostRuntime) {
    let failed = Err(SourceFault::Failed);
    for room in 0..46usize {
        let want = match room {
            0..15 => [Ok(()), failed, failed],
            15..30 => [Ok(()), Ok(()), failed],
            _ => [Ok(()), Ok(()), Ok(())],
        };
        same(
            &rt,
            &answers_with(rt.alloc(), room),
            &Some((want, room.min(45))),
        );
    }
}

/// Notes how many bytes each write brings.
#[derive(Drop)]
struct Noted<'a> {
    sizes: &'a mut Vec<usize>,
}

impl Write for Noted<'_> {
    fn write(&mut self, buf: &[u8]) -> io::Result<usize> {
        match self.sizes.push(buf.len()) {
            Ok(()) => Ok(buf.len()),
            Err(_) => Err(ErrorKind::OutOfMemory.into()),
        }
    }

    fn flush(&mut self) -> io::Result<()> {
        Ok(())
    }
}

/// What a source is asked between its answers.
#[derive(Clone, Copy, PartialEq, Eq, Debug)]
enum Asked {
    Nothing,
    Flush,
    /// Whether it is ready, where it has to read for it.
    Ready,
    /// Whether it is ready, where a frame is there.
    ReadyBefore,
    /// The next frame, for which it has to read.
    Next,
}

// How many bytes each write brought of a source that gave one of two frames, or none, and was handed so many answers
// before it was asked and one afterwards; then it is dropped.
fn writes_with(alloc: Global, asked: Asked, count: usize) -> Option<Vec<usize>> {
    let frame = acked()?;
    let mut sizes = Vec::new(alloc);
    let bytes = two();
    let read: &[u8] = if asked == Asked::ReadyBefore {
        &bytes
    } else {
        &[]
    };
    let mut source = NetSource::new(alloc, read, Noted { sizes: &mut sizes }, 2).ok()?;
    if asked == Asked::ReadyBefore {
        source.next().ok()?;
    }
    for _ in 0..count {
        source.answer(&frame).ok()?;
    }
    match asked {
        Asked::Nothing => {}
        Asked::Flush => source.flush(),
        Asked::Ready | Asked::ReadyBefore => {
            source.is_ready();
        }
        Asked::Next => {
            source.next().ok()?;
        }
    }
    source.answer(&frame).ok()?;
    drop(source);
    Some(sizes)
}

// An acknowledgement has 15 bytes, and 4,096 wait at most.
#[test]
fn answers_go_out_together(rt: HostRuntime) {
    const CASES: [(Asked, usize, &[usize]); 7] = [
        (Asked::Nothing, 3, &[60]),
        (Asked::Flush, 3, &[45, 15]),
        (Asked::Ready, 3, &[45, 15]),
        (Asked::ReadyBefore, 3, &[60]),
        (Asked::Next, 3, &[45, 15]),
        (Asked::Nothing, 270, &[4_050, 15]),
        (Asked::Next, 600, &[4_050, 4_050, 900, 15]),
    ];
    for &(asked, count, sizes) in &CASES {
        let seen = writes_with(rt.alloc(), asked, count).expect(&rt, "memory");
        same(&rt, &(asked, seen.as_slice()), &(asked, sizes));
    }
}
