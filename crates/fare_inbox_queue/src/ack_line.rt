ghost use Rattle.std.specs.Prelude.{◌≡◌, ◌↔◌, ◌≤◌, ◌++◌, ◌∷◌, [], ℕ, All, length, max, IsErrOf, IfOk, IfErr, OnOk, OnErr, IfSome, IfNone};
ghost use Rattle.fare_inbox_queue.specs.Rooms.{IsCapacity};
ghost use Rattle.fare_inbox_queue.specs.Line.{told_of, IsUpTo, IsStored};
ghost use Rattle.fare_inbox_queue.specs.LinePasses.{line_capacity, put_list, stored_of, heard_list, heard_count, IsAckOf, IsHearOf, LineWasFull, LineWasEmpty, unheard_list, IsLineEnded};

use crate::ack_rule::{Drains, LineRule, Parted, Puts, Takes, Together, Told, View};
use crate::fault::MOST_CAPACITY;
use crate::{AckLineEnded, AckPass, Full, HearPass, QueueFault};
use crossbeam_queue::RuledArrayQueue;
use fare_record::AckItem;
use std::alloc::Global;
use std::sync::Wait;

/// What the writer has told one station and the station has not yet taken, at most `capacity` items.
pub struct AckLine {
    pub(crate) queue: RuledArrayQueue<Told, View, LineRule>,
}

impl Drop for AckLine {
    // Derived, the parts of the queue would stand in the proof of each function that may let a line go.
    fn drop(self) {
        let AckLine { queue } = self;
        drop(queue);
    }
}

impl AckLine {
    /// An empty line for at most `capacity` items, with its two passes, of which nothing was put or taken and
    /// nothing is shown as stored.
    ///
    /// `Range` where the capacity is not 1 to 1,024, then `Memory` where there was none.
    pub fn new(alloc: Global, capacity: u32) -> Result<(AckLine, AckPass, HearPass), QueueFault>
        ensures range { IsErrOf result QueueFault.Range ↔ (IsCapacity capacity → ⊥) }
        ensures memory { IsErrOf result QueueFault.Memory → IsCapacity capacity }
        ensures room { IfOk result (λ made. (line_capacity made.0 ≡ capacity) × IsCapacity capacity) }
        ensures passes { IfOk result (λ made. IsAckOf made.0 made.1 × IsHearOf made.0 made.2) }
        ensures lists { IfOk result (λ made. (put_list made.1 ≡ []) × (heard_list made.2 ≡ [])) }
        ensures stored { IfOk result (λ made. (device : ℕ) → stored_of made.1 device ≡ 0) }
    {
        if capacity < 1 || capacity > MOST_CAPACITY {
            return Err(QueueFault::Range);
        }
        let Ok((queue, mut pass)) = RuledArrayQueue::ruled(alloc, capacity as usize) else {
            return Err(QueueFault::Memory);
        };
        let other = queue.another::<Parted>(&mut pass);
        Ok((
            AckLine { queue },
            AckPass { pass },
            HearPass {
                pass: other,
                count: 0,
            },
        ))
    }

    /// Puts an item behind all others, or hands it back where the line was full at some moment of the call, and
    /// then puts nothing. `stored` is how many taps of the item's device are stored, and an acknowledged link
    /// is at most that; the pass shows the greatest that was handed in with an item that was put. The pass came
    /// with the line. It may spin while another thread is in the middle of its step.
    pub fn put<R: Wait>(
        &self,
        rt: &R,
        pass: &mut AckPass,
        item: AckItem,
        stored: u64,
    ) -> Result<(), Full<AckItem>>
        requires queue { IsAckOf self.now pass.old }
        requires stored { IsUpTo item stored }
        ensures queue { IsAckOf self.now pass.new }
        ensures ok { OnOk result (put_list pass.new ≡ put_list pass.old ++ item ∷ []) }
        ensures stored { OnOk result ((device : ℕ) → stored_of pass.new device ≡ max (stored_of pass.old device) (told_of item stored device)) }
        ensures full { IfErr result (λ full. (full.0 ≡ item) × (put_list pass.new ≡ put_list pass.old)) }
        ensures same { OnErr result ((device : ℕ) → stored_of pass.new device ≡ stored_of pass.old device) }
        ensures was_full { OnErr result (LineWasFull self.now pass.new) }
        ensures enough { OnErr result (line_capacity self.now ≤ length (put_list pass.old)) }
    {
        let told = Told { item, stored };
        match self.queue.push_as::<Puts, R>(rt, &mut pass.pass, told) {
            Ok(()) => Ok(()),
            Err(told) => Err(Full(told.item)),
        }
    }

    /// Takes the item at the front. `None` where the line was empty at some moment of the call; then nothing was
    /// taken. The pass came with the line. It may spin while another thread is in the middle of its step.
    pub fn take<R: Wait>(&self, rt: &R, pass: &mut HearPass) -> Option<AckItem>
        requires { IsHearOf self.now pass.old }
        ensures queue { IsHearOf self.now pass.new }
        ensures some { IfSome result (λ item. heard_list pass.new ≡ heard_list pass.old ++ item ∷ []) }
        ensures none { IfNone result (heard_list pass.new ≡ heard_list pass.old) }
        ensures was_empty { IfNone result (LineWasEmpty pass.new) }
    {
        let told = self.queue.pop_as::<Takes, R>(rt, &mut pass.pass)?;
        pass.count = pass.count.saturating_add(1);
        Some(told.item)
    }

    /// Ends the line, with both passes that came with it. What was taken and then what is left is what was put;
    /// each link in it is at most what the writer's pass shows as stored of its device; and no more is left
    /// than the line may hold.
    pub fn finish<R: Wait>(self, rt: &R, ack: AckPass, hear: HearPass) -> AckLineEnded
        requires ack { IsAckOf self ack }
        requires hear { IsHearOf self hear }
        ensures ended { IsLineEnded result }
        ensures all { heard_list hear ++ unheard_list result ≡ put_list ack }
        ensures stored { All (IsStored (stored_of ack)) (heard_list hear ++ unheard_list result) }
        ensures taken { result.taken ≡ heard_count hear }
        ensures left { result.left ≡ length (unheard_list result) }
        ensures few { length (unheard_list result) ≤ line_capacity self }
    {
        let mut pass = ack.into_pass();
        let (other, count) = hear.into_parts();
        self.queue.absorb::<Together>(&mut pass, other);
        let left = self.queue.len_as::<Drains, R>(rt, &mut pass);
        AckLineEnded {
            queue: self,
            pass,
            taken: count,
            left: left as u64,
        }
    }
}
