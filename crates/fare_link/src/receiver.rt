ghost use Rattle.std.specs.Prelude.{◌≡◌, ◌↔◌, ◌+◌, ◌<◌, ◌≤◌};
ghost use Rattle.fare_link.specs.Values.{IsReceiver};

use fare_record::LAST_NUMBER;
use std::marker::Model;

/// What a receiver says of a link number.
#[derive(Clone, Copy, PartialEq, Eq, Debug)]
pub enum Verdict {
    /// The one that is due.
    Next,
    /// One that came before.
    Old,
    /// One past the number that is due.
    Ahead,
}

/// The receiving end: the number that it accepts next, 1 to 2^40.
#[derive(PartialEq, Eq, Debug, Drop)]
pub struct Receiver {
    next: u64,
}

impl Model for Receiver {
    ghost use Rattle.fare_link.specs.Values.{ReceiverValue, IsReceiver};

    ghost Value = { ReceiverValue };

    ghost view = { λ r. record { next = r.next } };

    ghost invariant = { λ r. IsReceiver (record { next = r.next }) };

    ghost inverse = { λ v. record { next = v.next } };
}

impl Receiver {
    /// A receiver that accepted nothing yet.
    pub fn new() -> Receiver
        ensures { result ≡ record { next = 1 } }
    {
        Receiver { next: 1 }
    }

    /// The number that is due.
    pub fn next(&self) -> u64
        ensures value { result ≡ self.now.next }
        ensures valid { IsReceiver self.now }
    {
        self.next
    }

    /// How a link number stands to the one that is due.
    pub fn judge(&self, link: u64) -> Verdict
        ensures next { (result ≡ Verdict.Next) ↔ (link ≡ self.now.next) }
        ensures old { (result ≡ Verdict.Old) ↔ (link < self.now.next) }
        ensures ahead { (result ≡ Verdict.Ahead) ↔ (self.now.next < link) }
    {
        if link < self.next {
            Verdict::Old
        } else if link > self.next {
            Verdict::Ahead
        } else {
            Verdict::Next
        }
    }

    /// Accepts the number that is due.
    pub fn advance(&mut self)
        requires { self.old.next ≤ LAST_NUMBER }
        ensures { self.new ≡ record { next = self.old.next + 1 } }
    {
        self.next += 1;
    }

    /// Goes on after `upto`, whatever was accepted before.
    pub fn resume(&mut self, upto: u64)
        requires { upto ≤ LAST_NUMBER }
        ensures { self.new ≡ record { next = upto + 1 } }
    {
        self.next = upto + 1;
    }
}
