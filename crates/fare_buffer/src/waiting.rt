ghost use Rattle.std.specs.Prelude.{◌≡◌, ◌↔◌, ◌<◌, ◌≤◌, ◌==◌, [], ◌∷◌, ◌++◌, length, drop, slice_get, IsTrue, IsErrOf, IsOk, IfOk, IfErr, OnOk, IsErr};
ghost use Rattle.fare_buffer.specs.Values.{IsCapacity, IsWaiting};

use circular_buffer::HeapCircularBuffer;
use fare_record::Record;
use std::alloc::Global;
use std::marker::Model;
use thiserror::Error;

const MOST_CAPACITY: u32 = 4096;

/// Why no buffer was made.
#[derive(Clone, Copy, PartialEq, Eq, Debug, Error)]
pub enum WaitingFault {
    /// The capacity is not 1 to 4,096.
    #[error("the capacity is out of its range")]
    Range,
    /// There was no memory for it.
    #[error("no memory")]
    Memory,
}

/// A record that found the buffer full.
#[derive(Clone, Copy, PartialEq, Eq, Debug, Error)]
#[error("the buffer is full")]
pub struct Full(pub Record);

/// The taps of a device that wait for their acknowledgement, oldest first, and how many there may be.
#[derive(Debug, Drop)]
pub struct Waiting {
    records: HeapCircularBuffer<Record>,
}

impl Model for Waiting {
    ghost use Rattle.fare_buffer.specs.Values.{WaitingValue, IsWaiting};

    ghost Value = { WaitingValue };

    ghost view = { λ w. record { items = w.records.items; capacity = w.records.capacity } };

    ghost invariant = { λ w. IsWaiting (record { items = w.records.items; capacity = w.records.capacity }) };
}

impl Waiting {
    /// An empty buffer with room for `capacity` taps. `Range` where that is not 1 to 4,096, then
    /// `Memory` where there was none.
    pub fn new(alloc: Global, capacity: u32) -> Result<Waiting, WaitingFault>
        ensures range { IsErrOf result WaitingFault.Range ↔ (IsCapacity capacity → ⊥) }
        ensures made { IfOk result (λ waiting. waiting ≡ record { items = []; capacity = capacity }) }
    {
        if capacity < 1 || capacity > MOST_CAPACITY {
            return Err(WaitingFault::Range);
        }
        let Ok(records) = HeapCircularBuffer::with_capacity(alloc, capacity as usize) else {
            return Err(WaitingFault::Memory);
        };
        Ok(Waiting { records })
    }

    /// Keeps a record behind all others, or hands it back where there is no room, and then keeps what there
    /// was.
    pub fn push(&mut self, numbered: Record) -> Result<(), Full>
        ensures full { IsErr result ↔ (length self.old.items ≡ self.old.capacity) }
        ensures ok { OnOk result (self.new ≡ record self.old { items = self.old.items ++ numbered ∷ [] }) }
        ensures err { IfErr result (λ full. (full.0 ≡ numbered) × (self.new ≡ self.old)) }
    {
        self.records.try_push_back(numbered).map_err(Full)
    }

    /// The record at `index`, counted from the oldest, from 0; None where there is none.
    pub fn get(&self, index: usize) -> Option<Record>
        ensures { result ≡ slice_get self.now.items index }
    {
        self.records.get(index).copied()
    }

    /// Lets the `count` oldest records go.
    pub fn drop_front(&mut self, count: usize)
        requires { count ≤ length self.old.items }
        ensures { self.new ≡ record self.old { items = drop count self.old.items } }
    {
        let kept = self.records.len() - count;
        self.records.truncate_front(kept);
    }

    /// How many records wait.
    pub fn len(&self) -> usize
        ensures value { result ≡ length self.now.items }
        ensures valid { IsWaiting self.now }
    {
        self.records.len()
    }

    /// Whether no record waits.
    pub fn is_empty(&self) -> bool
        ensures { IsTrue result ↔ (self.now.items ≡ []) }
    {
        self.records.is_empty()
    }

    /// Whether there is no room for a further record.
    pub fn is_full(&self) -> bool
        ensures { IsTrue result ↔ (length self.now.items ≡ self.now.capacity) }
    {
        self.records.is_full()
    }

    /// How many records there may be.
    pub fn capacity(&self) -> usize
        ensures value { result ≡ self.now.capacity }
        ensures valid { IsWaiting self.now }
    {
        self.records.capacity()
    }
}
