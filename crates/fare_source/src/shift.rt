ghost use Rattle.std.specs.Prelude.{◌≡◌, ◌≢◌, ◌+◌, ◌-◌, ◌⊎◌, ◌↔◌, true, false, IsTrue, IsFalse, IfOk, IfSome};
ghost use Rattle.fare_source.specs.Talking.{Waits, Gives, IsEnd};
ghost use Rattle.fare_source.specs.Shifts.{in_shift, IsSpent, KeepsBounds, WasSpent};

use crate::{Source, SourceFault};
use fare_frame::Frame;

/// A shift of a source: a part of what it gives. The shift is over where the source has come to its end, and, unless it
/// is a whole one, also where the source had nothing to say for so many turns in a row, or after so many frames. The
/// source then goes on: its next shift begins where this one stopped.
#[derive(Drop)]
pub struct Shift<S> {
    source: S,
    // whether only the source's end ends it
    whole: bool,
    // how many quiet turns in a row end it, and how many of them are left
    patience: u64,
    quiet: u64,
    // how many frames are left
    frames: u64,
    over: bool,
}

impl<S> Shift<S> {
    /// The whole of a source, up to its end.
    pub fn whole(source: S) -> Shift<S>
        ensures source { result.source ≡ source }
        ensures whole { result.whole ≡ true }
        ensures over { result.over ≡ false }
    {
        Shift {
            source,
            whole: true,
            patience: 0,
            quiet: 0,
            frames: 0,
            over: false,
        }
    }

    /// A shift of at most so many frames, which is over where the source was quiet for so many turns in a row.
    pub fn new(source: S, patience: u64, frames: u64) -> Shift<S>
        ensures source { result.source ≡ source }
        ensures bounds { (result.whole ≡ false) × (result.patience ≡ patience) × (result.quiet ≡ patience) × (result.frames ≡ frames) }
        ensures over { result.over ≡ false }
    {
        Shift {
            source,
            whole: false,
            patience,
            quiet: patience,
            frames,
            over: false,
        }
    }

    /// Whether it is over: `next` has answered that there is no frame more.
    pub fn is_over(&self) -> bool
        ensures { IsTrue result ↔ (self.now.over ≡ true) }
    {
        self.over
    }

    /// The source, from which the next shift is made.
    pub fn into_source(self) -> S
        ensures { result ≡ self.source }
    {
        let Shift {
            source,
            whole: _,
            patience: _,
            quiet: _,
            frames: _,
            over: _,
        } = self;
        source
    }
}

impl<S: Source> Shift<S> {
    // Whether the source has something to say; a turn in which it hasn't is one of the quiet ones.
    fn listens(&mut self) -> bool
        ensures waits { Waits (S.talk self.old.source) (S.talk self.new.source) }
        ensures same { KeepsBounds self.old self.new }
        ensures fewer { IsFalse result → self.new.quiet ≡ self.old.quiet - 1 }
    {
        if self.source.is_ready() {
            return true;
        }
        self.quiet = self.quiet.saturating_sub(1);
        false
    }

    // Waits until the source has something to say, as long as the shift lasts; false where it doesn't any more.
    fn comes(&mut self) -> bool
        ensures waits { Waits (S.talk self.old.source) (S.talk self.new.source) }
        ensures same { KeepsBounds self.old self.new }
        ensures lasts { IsTrue result → self.new.frames ≢ 0 }
        ensures spent { IsFalse result → IsSpent self.new }
    {
        if self.over || self.frames == 0 {
            return false;
        }
        let turns = self.quiet;
        for _ in 0..turns {
            if self.listens() {
                return true;
            }
        }
        false
    }
}

impl<S: Source> Source for Shift<S> {
    ghost talk = { λ s. in_shift s.whole s.over (S.talk s.source) };

    /// Whether `next` would answer now. A turn in which the source had nothing to say is one of the quiet ones.
    fn is_ready(&mut self) -> bool {
        if self.whole {
            return self.source.is_ready();
        }
        self.over || self.quiet == 0 || self.frames == 0 || self.listens()
    }

    fn has_next(&self) -> bool {
        self.over || self.source.has_next()
    }

    /// The source's next frame; `None` where the shift is over.
    fn next(&mut self) -> Result<Option<Frame>, SourceFault>
        ensures gives { Gives (in_shift self.old.whole self.old.over (S.talk self.old.source)) (in_shift self.new.whole self.new.over (S.talk self.new.source)) result }

        // It is over only at the source's end, or where its quiet turns or its frames are spent.
        ensures cause { IsEnd result → (S.talk self.new.source).ended ⊎ ((self.old.whole ≡ false) × WasSpent self.old self.new) }
        ensures few { IfOk result (λ next. IfSome next (λ _. (self.old.whole ≡ true) ⊎ (self.old.frames ≡ self.new.frames + 1))) }
        ensures same { (self.new.whole ≡ self.old.whole) × (self.new.patience ≡ self.old.patience) }
    {
        if !self.whole && !self.comes() {
            self.over = true;
            return Ok(None);
        }
        let next = self.source.next();
        self.quiet = self.patience;
        self.frames = self.frames.saturating_sub(1);
        if let Ok(None) = &next {
            self.over = true;
        }
        next
    }

    /// The shift is over, unless it is a whole one.
    fn finish(&mut self)
        ensures waits { Waits (in_shift self.old.whole self.old.over (S.talk self.old.source)) (in_shift self.new.whole self.new.over (S.talk self.new.source)) }
        ensures over { IsTrue self.new.over ↔ ((self.old.over ≡ true) ⊎ (self.old.whole ≡ false)) }
    {
        if !self.whole {
            self.over = true;
        }
    }

    fn answer(&mut self, frame: &Frame) -> Result<(), SourceFault> {
        self.source.answer(frame)
    }
}
