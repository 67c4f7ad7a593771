ghost use Rattle.std.specs.Prelude.{◌≡◌, ◌≤◌, take, length, IfOk, IsTrue, ◌↔◌};
ghost use Rattle.fare_net.specs.Intakes.{fresh_intake, HasFew, HasTaken, HasTakenIn, IsOver, IsWaiting, Holds, Takes, stopped};

use crate::turn::feed_piece;
use crate::{MOST_BYTES, NetFault, Turn};
use fare_frame::{Frame, Reader};
use http_server::Log;
use std::alloc::{AllocError, Global};
use std::marker::Model;

/// The most frames of one read: its bytes, and those held back from the reads before it, are less than 461 of the
/// shortest frame.
const MOST_FRAMES: usize = 460;

/// Of a read that brought so many frames more is taken to stand behind them.
const BUSY_FRAMES: usize = 64;

/// How far a stream is.
#[derive(Clone, Copy, PartialEq, Eq)]
pub(crate) enum Stage {
    /// It is read on.
    Live,
    /// It is at its end.
    Ended,
    /// It has failed.
    Failed,
}

/// What came of a stream: its bytes, the frames in them, and how many of these were taken off. It takes all its
/// memory when it is made; what came before the last read, proofs alone remember.
#[derive(Drop)]
pub(crate) struct Intake {
    decoder: Reader,
    // the frames of the last piece, and how many of them were taken off
    frames: Vec<Frame>,
    place: usize,
    stage: Stage,
    // each buffer that was read into, with how many bytes of it
    reads: Log<[u8; MOST_BYTES], usize>,
    taken: Log<Frame, ()>,
}

impl Model for Intake {
    ghost use Rattle.fare_net.specs.IntakeValue.{IntakeValue};

    ghost Value = { IntakeValue };

    ghost use Rattle.fare_net.specs.Inside.{intake_of, IsIntake};

    ghost view = { intake_of };

    ghost invariant = { IsIntake };
}

impl Intake {
    // Nothing has come.
    pub(crate) fn new(alloc: Global) -> Result<Intake, AllocError>
        ensures { IfOk result (λ intake. intake ≡ fresh_intake) }
    {
        Ok(Intake {
            decoder: Reader::new(alloc)?,
            frames: Vec::with_capacity(alloc, MOST_FRAMES)?,
            place: 0,
            stage: Stage::Live,
            reads: Log::new(),
            taken: Log::new(),
        })
    }

    // Whether the next piece is to be read: no frame is there, and the stream is read on.
    pub(crate) fn is_waiting(&self) -> bool
        ensures waiting { IsTrue result ↔ IsWaiting self.now }
        ensures holds { Holds self.now }
    {
        self.place >= self.frames.len() && self.stage == Stage::Live
    }

    // Whether nothing more can be taken off: the stream is not read on, and no frame is there.
    pub(crate) fn is_over(&self) -> bool
        ensures over { IsTrue result ↔ IsOver self.now }
    {
        self.place >= self.frames.len() && self.stage != Stage::Live
    }

    // Whether the last read brought so many frames that more are taken to stand behind them.
    pub(crate) fn is_busy(&self) -> bool {
        self.frames.len() >= BUSY_FRAMES
    }

    // How far it is.
    pub(crate) fn stage(&self) -> Stage
        ensures stage { result ≡ self.now.stage }
        ensures holds { Holds self.now }

        // No more frames wait than one read brings.
        ensures few { length self.now.pending ≤ 460 }
    {
        self.stage
    }

    // Takes the next piece of the stream, which the buffer begins with.
    pub(crate) fn feed(&mut self, buffer: &[u8; MOST_BYTES], count: usize)
        requires waiting { IsWaiting self.old }
        requires count { count ≤ 4096 }
        ensures { HasTaken self.old self.new (take count buffer.now) }
    {
        self.reads = self.reads.and(buffer, &count);
        self.frames.clear();
        self.place = 0;
        match feed_piece(&mut self.decoder, &buffer[..count], &mut self.frames) {
            Ok(()) => {}
            Err(_) => self.stage = Stage::Failed,
        }
    }

    // Takes in what a read told, with the bytes that it brought into the buffer.
    pub(crate) fn take_in(&mut self, told: Result<Turn, NetFault>, buffer: &[u8; MOST_BYTES])
        requires waiting { IsWaiting self.old }
        requires few { IfOk told HasFew }
        ensures { HasTakenIn self.old self.new told buffer.now }
    {
        match told {
            Ok(Turn::Read(count)) => self.feed(buffer, count),
            Ok(Turn::Ended) => self.stop(true),
            Ok(Turn::Waited) => self.idle(),
            Err(_) => self.stop(false),
        }
    }

    // A read brought nothing.
    fn idle(&mut self)
        requires { IsWaiting self.old }
        ensures { self.new ≡ self.old }
    {
        self.frames.clear();
        self.place = 0;
    }

    // The stream is at its end, or has failed.
    pub(crate) fn stop(&mut self, ended: bool)
        requires { IsWaiting self.old }
        ensures { self.new ≡ stopped self.old ended }
    {
        self.stage = if ended { Stage::Ended } else { Stage::Failed };
    }

    // Takes the next frame off.
    pub(crate) fn take(&mut self) -> Option<Frame>
        ensures { Takes self.old self.new result }
    {
        let frame = *self.frames.get(self.place)?;
        self.place += 1;
        self.taken = self.taken.and(&frame, &());
        Some(frame)
    }
}
