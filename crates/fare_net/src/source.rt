ghost use Rattle.std.specs.Prelude.{◌≡◌, ◌≤◌, ◌⊎◌, ◌↔◌, true, false, length, IfOk, IfErr, OnOk, OnErr, IsTrue, IsFalse, ◌-◌, Err};
ghost use Rattle.fare_source.specs.Talking.{Waits, Gives, Hears};
ghost use Rattle.fare_net.specs.Intakes.{IsOver, IsWaiting};
ghost use Rattle.fare_net.specs.Spoken.{IsSpoken};
ghost use Rattle.fare_net.specs.Sources.{Advances, Counts, Greets, Hands, HasGreeted, HasRead, HelloFails, IsStill, IsToldAll, Listens, Sends, TakesOff, fresh_source, talk_of};

use crate::answer::{send, spell};
use crate::intake::{Intake, Stage};
use crate::turn::read_once;
use crate::{HelloFault, MOST_BYTES};
use fare_frame::{Frame, LONGEST_FRAME};
use fare_record::StationId;
use fare_scheme::Scheme;
use fare_source::{Source, SourceFault};
use http_server::Log;
use std::alloc::{AllocError, Global};
use std::io::{Read, Write};
use std::marker::Model;

/// The newest version of the frames. Those of the first know of no routes; on a line of either both kinds of taps may
/// come.
const NEWEST_VERSION: u16 = 2;

/// How many bytes of answers wait at most till they are sent in one write.
const MOST_UNSENT: usize = 4_096;

// Whether the frames of a version are spoken.
fn is_spoken(version: u16) -> bool
    ensures { IsTrue result ↔ IsSpoken version }
{
    (1..=NEWEST_VERSION).contains(&version)
}

/// A validator's line as a source, over a reader and a writer. It takes all its memory when it is made, and reads no
/// oftener than it was told; a read that brought nothing counts. Answers are sent together: before it reads on, where
/// no other has room, at `flush`, and when it is dropped. What it gave and was handed, proofs alone remember.
pub struct NetSource<R: Read + Drop, W: Write + Drop> {
    reader: R,
    writer: W,
    intake: Intake,
    // the bytes of the answers that were not sent yet
    unsent: Vec<u8>,
    // how many reads are left
    turns: u64,
    // the greeting was refused
    refused: bool,
    // an answer did not go out whole, so none may follow it
    cut: bool,
    failures: u64,
    given: Log<Frame, ()>,
    answered: Log<Frame, ()>,
}

impl<R: Read + Drop, W: Write + Drop> Model for NetSource<R, W> {
    ghost use Rattle.std.specs.Prelude.{◌≡◌, ◌≤◌, vec_capacity};
    ghost use Rattle.std.specs.Io.KnownBytes.{IsAtEnd};
    ghost use Rattle.fare_net.specs.Histories.{frames_in};
    ghost use Rattle.fare_net.specs.NetValue.{NetValue};
    ghost use Rattle.fare_net.specs.declared.intake.Stage.TheVariants.{Ended};

    ghost Value = { NetValue };

    ghost view = { λ s. record {
      intake = s.intake;
      unread = R.remaining s.reader;
      written = W.contents s.writer;
      unsent = s.unsent.items;
      given = frames_in s.given.items;
      answered = frames_in s.answered.items;
      failures = s.failures;
      refused = s.refused;
      cut = s.cut;
      turns = s.turns;
    } };

    ghost invariant = { λ s. (4096 ≤ vec_capacity s.unsent) × (s.intake.stage ≡ Ended → IsAtEnd (R.remaining s.reader)) };
}

// It is written out, so that a caller doesn't prove again how each part is let go.
impl<R: Read + Drop, W: Write + Drop> Drop for NetSource<R, W> {
    fn drop(self) {
        let NetSource {
            reader,
            mut writer,
            intake,
            unsent,
            turns: _,
            refused: _,
            cut,
            failures: _,
            given,
            answered,
        } = self;
        if !cut && !unsent.is_empty() {
            let _ = send(&mut writer, &unsent);
        }
        drop(reader);
        drop(writer);
        drop(intake);
        drop(unsent);
        drop(given);
        drop(answered);
    }
}

impl<R: Read + Drop, W: Write + Drop> NetSource<R, W> {
    /// A source over a reader and a writer that reads at most so often. `AllocError` where it got no memory; reader and
    /// writer are dropped then.
    pub fn new(
        alloc: Global,
        reader: R,
        writer: W,
        turns: u64,
    ) -> Result<NetSource<R, W>, AllocError>
        ensures { IfOk result (λ source. source ≡ fresh_source (R.remaining reader) (W.contents writer) turns) }
    {
        let intake = Intake::new(alloc)?;
        let unsent = Vec::with_capacity(alloc, MOST_UNSENT)?;
        Ok(NetSource {
            reader,
            writer,
            intake,
            unsent,
            turns,
            refused: false,
            cut: false,
            failures: 0,
            given: Log::new(),
            answered: Log::new(),
        })
    }

    /// Whether it gives no frame any more: its greeting was refused; or the stream is at its end or has failed, and all
    /// frames before that were given.
    pub fn is_over(&self) -> bool
        ensures { IsTrue result ↔ (self.now.refused ≡ true) ⊎ IsOver self.now.intake }
    {
        self.refused || self.intake.is_over()
    }

    /// Sends the answers that were not sent yet. Where the writer fails, how much of them went out is not said, none
    /// follows them, and each answer from then on fails.
    pub fn flush(&mut self)
        ensures sends { Sends self.old self.new }
        ensures told { IsToldAll self.new }
    {
        if self.cut || self.unsent.is_empty() {
            return;
        }
        match send(&mut self.writer, &self.unsent) {
            Ok(()) => self.unsent.clear(),
            Err(_) => self.cut = true,
        }
    }

    // Whether an answer has room, which is made by sending those before it; there is none where the writer failed.
    fn makes_room(&mut self) -> bool
        requires { self.old.cut ≡ false }
        ensures sends { Sends self.old self.new }
        ensures room { IsTrue result → (self.new.cut ≡ false) × (length self.new.unsent ≤ 4045) }
        ensures none { IsFalse result → self.new.cut ≡ true }
    {
        if self.unsent.len() > MOST_UNSENT - LONGEST_FRAME {
            self.flush();
        }
        !self.cut
    }

    // One read, where it is waited for; the stream has failed where none is left.
    fn advance(&mut self)
        requires { IsWaiting self.old.intake }
        ensures advances { Advances self.old self.new }
        ensures turn { self.new.turns ≡ self.old.turns - 1 }
    {
        if self.turns == 0 {
            self.intake.stop(false);
            return;
        }
        self.turns -= 1;
        let mut buffer = [0; MOST_BYTES];
        let told = read_once(&mut self.reader, &mut buffer);
        self.intake.take_in(told, &buffer);
    }

    // Reads until a frame is there, or the stream is at its end or has failed.
    fn fill(&mut self)
        ensures advances { Advances self.old self.new }
        ensures ready { IsWaiting self.new.intake → ⊥ }
        ensures still { (IsWaiting self.old.intake → ⊥) → self.new ≡ self.old }
    {
        if !self.intake.is_waiting() {
            return;
        }
        let turns = self.turns;
        for _ in 0..turns {
            if !self.intake.is_waiting() {
                return;
            }
            self.advance();
        }
        if self.intake.is_waiting() {
            self.intake.stop(false);
        }
    }

    // Where a frame is waited for, sends its answers and reads until one is there, or the stream is at its end or has
    // failed.
    fn read_on(&mut self)
        ensures listens { Listens self.old self.new }
        ensures told { IsWaiting self.old.intake → IsToldAll self.new }
        ensures ready { IsWaiting self.new.intake → ⊥ }
        ensures still { (IsWaiting self.old.intake → ⊥) → self.new ≡ self.old }
    {
        if !self.intake.is_waiting() {
            return;
        }
        self.flush();
        self.fill();
    }

    // Counts a call that fails.
    fn fails(&mut self) -> SourceFault
        ensures failed { result ≡ SourceFault.Failed }
        ensures counted { Counts self.old self.new }
    {
        self.failures = self.failures.saturating_add(1);
        SourceFault::Failed
    }

    // The station of the greeting, which is the next frame.
    fn greet(&mut self, scheme: &Scheme) -> Result<StationId, HelloFault>
        ensures advances { HasGreeted self.old self.new }
        ensures station { IfOk result (Greets scheme.now self.old self.new) }
        ensures fails { IfErr result (HelloFails scheme.now self.old self.new) }
        ensures refused { self.new.refused ≡ self.old.refused }
        ensures open { OnOk result (self.old.refused ≡ false) }
        ensures closed { self.old.refused ≡ true → (result ≡ Err HelloFault.Failed) × IsStill self.old self.new }
    {
        if self.refused {
            return Err(HelloFault::Failed);
        }
        self.fill();
        let stage = self.intake.stage();
        let Some(frame) = self.intake.take() else {
            return Err(if stage == Stage::Ended {
                HelloFault::NoHello
            } else {
                HelloFault::Failed
            });
        };
        let Some(hello) = frame.greeted() else {
            return Err(HelloFault::NoHello);
        };
        if !is_spoken(hello.version()) {
            return Err(HelloFault::BadVersion);
        }
        let Some(station) = scheme.station_of(hello.device()) else {
            return Err(HelloFault::UnknownDevice);
        };
        Ok(station)
    }

    /// The station of the device that greets, by the first frame.
    ///
    /// `NoHello` where that is no greeting, or the reader is at its end before it; `BadVersion` where the greeting is
    /// of a version other than 1 and 2; `UnknownDevice` where the scheme hasn't its device; `Failed` where the reader
    /// failed, a fault stands in place of the frame, or no read is left, and in each call after an error. From an error
    /// on the source is refused: `next` and `answer` answer `Failed`.
    pub fn hello(&mut self, scheme: &Scheme) -> Result<StationId, HelloFault>
        ensures advances { HasGreeted self.old self.new }
        ensures station { IfOk result (Greets scheme.now self.old self.new) }
        ensures fails { IfErr result (HelloFails scheme.now self.old self.new) }
        ensures refused { OnErr result (self.new.refused ≡ true) }
        ensures open { OnOk result (self.new.refused ≡ false) }
        ensures closed { self.old.refused ≡ true → (result ≡ Err HelloFault.Failed) × IsStill self.old self.new }
    {
        let greeted = self.greet(scheme);
        if greeted.is_err() {
            self.refused = true;
        }
        greeted
    }
}

impl<R: Read + Drop, W: Write + Drop> Source for NetSource<R, W> {
    ghost talk = { talk_of };

    /// Whether `next` would answer without a read. Where a frame is waited for it sends its answers and reads once.
    fn is_ready(&mut self) -> bool
        ensures rests { Waits (talk_of self.old) (talk_of self.new) }
        ensures listens { Listens self.old self.new }
        ensures told { self.old.refused ≡ false → IsWaiting self.old.intake → IsToldAll self.new }
        ensures ready { IsTrue result → (self.new.refused ≡ true) ⊎ (IsWaiting self.new.intake → ⊥) }
        ensures waits { IsFalse result → (self.new.refused ≡ false) × IsWaiting self.new.intake }
        ensures closed { self.old.refused ≡ true → self.new ≡ self.old }
    {
        if self.refused || !self.intake.is_waiting() {
            return true;
        }
        self.flush();
        self.advance();
        !self.intake.is_waiting()
    }

    /// Whether `next` would answer without a read; or the last read brought so many frames that more are likely to have
    /// come.
    fn has_next(&self) -> bool {
        self.refused || !self.intake.is_waiting() || self.intake.is_busy()
    }

    /// The next frame of the stream; `None` where the reader is at its end and all frames were given. What stands
    /// behind the last frame, less than a frame, is dropped then. Before it reads it sends its answers.
    ///
    /// `Failed` where the greeting was refused; and, once the frames before it were given, where the reader failed, a
    /// fault of the stream came, or no read is left. It is never `Memory`.
    fn next(&mut self) -> Result<Option<Frame>, SourceFault>
        ensures gives { Gives (talk_of self.old) (talk_of self.new) result }
        ensures reads { HasRead self.old self.new }
        ensures takes { TakesOff self.old self.new result }

        // What it was answered goes out before it reads.
        ensures told { self.old.refused ≡ false → IsWaiting self.old.intake → IsToldAll self.new }

        // Where it was ready, it reads nothing.
        ensures still { (IsWaiting self.old.intake → ⊥) → IsStill self.old self.new }
        ensures closed { self.old.refused ≡ true → (result ≡ Err SourceFault.Failed) × IsStill self.old self.new }
    {
        if self.refused {
            return Err(self.fails());
        }
        self.read_on();
        let stage = self.intake.stage();
        match self.intake.take() {
            Some(frame) => {
                self.given = self.given.and(&frame, &());
                Ok(Some(frame))
            }
            None => {
                if stage == Stage::Ended {
                    Ok(None)
                } else {
                    Err(self.fails())
                }
            }
        }
    }

    /// Takes a frame that is to be sent, with others, before the next read.
    ///
    /// `Failed` where the greeting was refused, or the writer failed before, and nothing is written then; or where there
    /// was no room beside those that were not sent yet and the writer failed at these: how much of them went out is not
    /// said, and no other follows them. It is never `Memory`.
    fn answer(&mut self, frame: &Frame) -> Result<(), SourceFault>
        ensures hears { Hears (talk_of self.old) (talk_of self.new) frame.now result }
        ensures hands { OnOk result (Hands self.old self.new frame.now) }
        ensures whole { OnOk result (self.new.cut ≡ false) }
        ensures stays { (self.new.intake ≡ self.old.intake) × (self.new.unread ≡ self.old.unread) × (self.new.refused ≡ self.old.refused) × (self.new.turns ≡ self.old.turns) }
        ensures closed { (self.old.refused ≡ true) ⊎ (self.old.cut ≡ true) → (result ≡ Err SourceFault.Failed) × (self.new.written ≡ self.old.written) × (self.new.unsent ≡ self.old.unsent) × (self.new.cut ≡ self.old.cut) }
        ensures failed { IfErr result (λ fault. (fault ≡ SourceFault.Failed) × ((self.old.refused ≡ true) ⊎ (self.new.cut ≡ true))) }
    {
        self.answered = self.answered.and(frame, &());
        if self.refused || self.cut || !self.makes_room() {
            return Err(self.fails());
        }
        spell(frame, &mut self.unsent);
        Ok(())
    }
}
