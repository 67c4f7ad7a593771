ghost use Rattle.std.specs.Prelude.{◌≡◌, ◌↔◌, ◌+◌, ◌-◌, ◌<◌, max, IsSome, IfSome, IfNone, OnSome, IfOk, OnOk, OnErr, IsErr};
ghost use Rattle.fare_link.specs.Values.{IsSender};

use std::marker::Model;
use thiserror::Error;

/// An acknowledgement of a number that was never given out.
#[derive(Clone, Copy, PartialEq, Eq, Debug, Error)]
#[error("acknowledged ahead of the last number")]
pub struct AckAhead;

/// The sending end. Its base is the greatest acknowledged number, its cursor the greatest number sent since
/// the last rewind; both start at 0, below the first number.
#[derive(PartialEq, Eq, Debug, Drop)]
pub struct Sender {
    base: u64,
    cursor: u64,
}

impl Model for Sender {
    ghost use Rattle.fare_link.specs.Values.{SenderValue, IsSender};

    ghost Value = { SenderValue };

    ghost view = { λ s. record { base = s.base; cursor = s.cursor } };

    ghost invariant = { λ s. IsSender (record { base = s.base; cursor = s.cursor }) };

    ghost inverse = { λ v. record { base = v.base; cursor = v.cursor } };
}

impl Sender {
    /// A sender that sent nothing yet.
    pub fn new() -> Sender
        ensures { result ≡ record { base = 0; cursor = 0 } }
    {
        Sender { base: 0, cursor: 0 }
    }

    /// The greatest acknowledged number.
    pub fn base(&self) -> u64
        ensures value { result ≡ self.now.base }
        ensures valid { IsSender self.now }
    {
        self.base
    }

    /// The greatest number sent since the last rewind, or the base where none was.
    pub fn cursor(&self) -> u64
        ensures value { result ≡ self.now.cursor }
        ensures valid { IsSender self.now }
    {
        self.cursor
    }

    /// The number to send next, if the last one given out isn't reached; it counts as sent from then on.
    pub fn next_link(&mut self, last: u64) -> Option<u64>
        ensures some { IsSome result ↔ (self.old.cursor < last) }
        ensures value { IfSome result (λ link. link ≡ self.old.cursor + 1) }
        ensures sent { OnSome result (self.new ≡ record self.old { cursor = self.old.cursor + 1 }) }
        ensures unchanged { IfNone result (self.new ≡ self.old) }
    {
        if self.cursor >= last {
            return None;
        }
        self.cursor += 1;
        Some(self.cursor)
    }

    /// Goes back to the first unacknowledged number, to send all of them again.
    pub fn rewind(&mut self)
        ensures { self.new ≡ record self.old { cursor = self.old.base } }
    {
        self.cursor = self.base;
    }

    /// Hears that all numbers up to `upto` arrived, where `last` is the last one given out. The answer is how
    /// many of them weren't acknowledged before: 0 at a number that is acknowledged already.
    ///
    /// `AckAhead` where `upto` is neither acknowledged nor given out.
    pub fn acked(&mut self, upto: u64, last: u64) -> Result<u64, AckAhead>
        ensures ahead { IsErr result ↔ ((self.old.base < upto) × (last < upto)) }
        ensures newly { IfOk result (λ n. n ≡ upto - self.old.base) }

        // Neither number falls.
        ensures ok { OnOk result (self.new ≡ record { base = max self.old.base upto; cursor = max self.old.cursor upto }) }
        ensures err { OnErr result (self.new ≡ self.old) }
    {
        if upto <= self.base {
            return Ok(0);
        }
        if upto > last {
            return Err(AckAhead);
        }
        let newly = upto - self.base;
        self.base = upto;
        self.cursor = self.cursor.max(upto);
        Ok(newly)
    }
}
