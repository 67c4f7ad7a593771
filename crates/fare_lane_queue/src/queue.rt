ghost use Rattle.std.specs.Prelude.{◌≡◌, ◌↔◌, ◌≤◌, ◌++◌, ◌∷◌, [], length, IsErrOf, IfOk, IfErr, OnOk, OnErr, IfSome, IfNone};
ghost use Rattle.crossbeam_queue.specs.Passes.{view, IsPassOf};
ghost use Rattle.fare_lane_queue.specs.Lane.{whole, sender, taker, IsRoom, IsNext, AreNumbered};
ghost use Rattle.fare_lane_queue.specs.Passes.{capacity_of, sent_list, taken_list, forward_bases, owner_bases, counted, IsForwardOf, IsOwnerOf, WasFull, WasEmpty, left_list, IsEnded};

use crate::bases::are_distinct;
use crate::rule::{Bases, Ends, LaneRule, Parted, Puts, Takes, Together, View};
use crate::{Ended, ForwardPass, Full, LaneQueueFault, OwnerPass};
use crossbeam_queue::{Pass, RuledArrayQueue};
use fare_record::{DeviceId, Item};
use std::alloc::Global;
use std::marker::Brand;
use std::sync::Wait;

const MOST_CAPACITY: u32 = 1024;

/// What one forwarder has handed on to one owner and the owner has not yet taken, at most `capacity` items.
pub struct LaneQueue {
    pub(crate) queue: RuledArrayQueue<Item, View, LaneRule>,
}

impl Drop for LaneQueue {
    // Derived, the parts of the queue would stand in the proof of each function that may let one go.
    fn drop(self) {
        let LaneQueue { queue } = self;
        drop(queue);
    }
}

// Cuts the one pass of a new queue into the forwarder's, which it becomes, and the owner's. Both show the bases.
fn part<B: Bases>(
    queue: &RuledArrayQueue<Item, View, LaneRule>,
    pass: &mut Pass<Item, View>,
    _bases: &[(DeviceId, u64)],
) -> Pass<Item, View>
    requires picked { _bases.now ≡ B.bases }
    requires queue { IsPassOf queue.now pass.old }
    requires first { view pass.old ≡ whole }
    ensures queue { IsPassOf queue.now pass.new × IsPassOf queue.now result }
    ensures forward { view pass.new ≡ sender _bases.now }
    ensures owner { view result ≡ taker _bases.now }
{
    queue.another::<Parted<B>>(pass)
}

impl LaneQueue {
    /// An empty queue for at most `capacity` items, with its two passes, of which nothing was put or taken.
    /// `bases` has, for each device, how many of its taps the owner has already; a device that is not listed
    /// has 0.
    ///
    /// `Range` where the capacity is not 1 to 1,024 or a device is listed twice, then `Memory` where there was
    /// none.
    pub fn new(
        alloc: Global,
        capacity: u32,
        bases: &[(DeviceId, u64)],
    ) -> Result<(LaneQueue, ForwardPass, OwnerPass), LaneQueueFault>
        ensures range { IsErrOf result LaneQueueFault.Range ↔ (IsRoom capacity bases.now → ⊥) }
        ensures memory { IsErrOf result LaneQueueFault.Memory → IsRoom capacity bases.now }
        ensures room { IfOk result (λ made. (capacity_of made.0 ≡ capacity) × IsRoom capacity bases.now) }
        ensures passes { IfOk result (λ made. IsForwardOf made.0 made.1 × IsOwnerOf made.0 made.2) }
        ensures lists { IfOk result (λ made. (sent_list made.1 ≡ []) × (taken_list made.2 ≡ [])) }
        ensures bases { IfOk result (λ made. (forward_bases made.1 ≡ bases.now) × (owner_bases made.2 ≡ bases.now)) }
    {
        if capacity < 1 || capacity > MOST_CAPACITY || !are_distinct(bases) {
            return Err(LaneQueueFault::Range);
        }
        let Ok((queue, mut forward)) = RuledArrayQueue::ruled(alloc, capacity as usize) else {
            return Err(LaneQueueFault::Memory);
        };
        let owner = part::<Brand>(&queue, &mut forward, bases);
        Ok((
            LaneQueue { queue },
            ForwardPass { pass: forward },
            OwnerPass {
                pass: owner,
                count: 0,
            },
        ))
    }

    /// Puts an item behind all others, or hands it back where the queue was full at some moment of the call,
    /// and then puts nothing. The pass is the one that came with the queue. It may spin while another thread
    /// is in the middle of its step.
    pub fn put<R: Wait>(&self, rt: &R, pass: &mut ForwardPass, item: Item) -> Result<(), Full>
        requires queue { IsForwardOf self.now pass.old }
        requires next { IsNext (forward_bases pass.old) (sent_list pass.old) item }
        ensures queue { IsForwardOf self.now pass.new }
        ensures bases { forward_bases pass.new ≡ forward_bases pass.old }
        ensures ok { OnOk result (sent_list pass.new ≡ sent_list pass.old ++ item ∷ []) }
        ensures full { IfErr result (λ full. (full.0 ≡ item) × (sent_list pass.new ≡ sent_list pass.old)) }
        ensures was_full { OnErr result (WasFull self.now pass.new) }
        ensures enough { OnErr result (capacity_of self.now ≤ length (sent_list pass.old)) }
    {
        match self.queue.push_as::<Puts, R>(rt, &mut pass.pass, item) {
            Ok(()) => Ok(()),
            Err(item) => Err(Full(item)),
        }
    }

    /// Takes the item at the front: a tap with the lane number that comes next for its device, or a
    /// statement. `None` where the queue was empty at some moment of the call; then nothing was taken. The pass
    /// is the one that came with the queue. It may spin while another thread is in the middle of its step.
    pub fn take<R: Wait>(&self, rt: &R, pass: &mut OwnerPass) -> Option<Item>
        requires { IsOwnerOf self.now pass.old }
        ensures queue { IsOwnerOf self.now pass.new }
        ensures bases { owner_bases pass.new ≡ owner_bases pass.old }
        ensures some { IfSome result (λ item. taken_list pass.new ≡ taken_list pass.old ++ item ∷ []) }
        ensures next { IfSome result (IsNext (owner_bases pass.old) (taken_list pass.old)) }
        ensures none { IfNone result (taken_list pass.new ≡ taken_list pass.old) }
        ensures was_empty { IfNone result (WasEmpty pass.new) }
    {
        let item = self.queue.pop_as::<Takes, R>(rt, &mut pass.pass)?;
        pass.count = pass.count.saturating_add(1);
        Some(item)
    }

    /// Ends the queue, with both passes that came with it. What was taken and then what is left is what was
    /// put, in which each device's taps have the lane numbers that follow its base; no more is left than the
    /// queue may hold.
    pub fn finish<R: Wait>(self, rt: &R, forward: ForwardPass, owner: OwnerPass) -> Ended
        requires forward { IsForwardOf self forward }
        requires owner { IsOwnerOf self owner }
        ensures ended { IsEnded result }
        ensures all { taken_list owner ++ left_list result ≡ sent_list forward }
        ensures numbered { AreNumbered (forward_bases forward) (sent_list forward) }
        ensures taken { result.taken ≡ counted (taken_list owner) }
        ensures left { result.left ≡ length (left_list result) }
        ensures few { length (left_list result) ≤ capacity_of self }
    {
        let mut pass = forward.into_pass();
        let (other, count) = owner.into_parts();
        self.queue.absorb::<Together>(&mut pass, other);
        let left = self.queue.len_as::<Ends, R>(rt, &mut pass);
        Ended {
            queue: self,
            pass,
            taken: count,
            left: left as u64,
        }
    }
}
