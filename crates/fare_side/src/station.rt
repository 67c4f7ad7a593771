ghost use Rattle.std.specs.Prelude.{◌≡◌, ◌+◌, ◌<◌, ◌≤◌, ◌↔◌, ℕ, None, Some, Ok, IfOk, IsSome, option_map, length, slice_get};
ghost use Rattle.circular_buffer.specs.Buffer.{buffer};
ghost use Rattle.fare_record.specs.Limits.{IsCount};
ghost use Rattle.fare_scheme.specs.Words.{position_of_device};
ghost use Rattle.fare_collector.specs.Collecting.{next_in};
ghost use Rattle.fare_store.specs.Standing.{Reads};
ghost use Rattle.fare_side.specs.Acknowledging.{line_after};
ghost use Rattle.fare_side.specs.Resuming.{upto_at};

use circular_buffer::HeapCircularBuffer;
use fare_collector::Collector;
use fare_record::{Ack, AckItem, DeviceId};
use fare_scheme::Scheme;
use fare_store::{Fault, Outbox};

/// A station's side of the hub: its collector, and the acknowledgements that wait to be sent to its devices.
#[derive(Drop)]
pub struct Station {
    /// What accepts the taps and the statements of its devices.
    pub collector: Collector,
    /// The acknowledgements that wait, the next to be sent first.
    pub line: HeapCircularBuffer<AckItem>,
}

impl Station {
    /// Each of the station's devices is resumed behind what the outbox has had of it, as it was told in order of
    /// registration. What waits to be sent stays.
    pub fn resume_all(&mut self, scheme: &Scheme, uptos: &[u64])
        requires count { length uptos.now ≡ length scheme.now.devices }
        requires valid { (k : ℕ) (n : ℕ) → slice_get uptos.now k ≡ Some n → IsCount n }
        ensures resumed { (device : ℕ) → IsSome (position_of_device scheme.now device) → next_in self.new.collector device ≡ option_map (λ _. upto_at scheme.now uptos.now device + 1) (next_in self.old.collector device) }
        ensures others { (device : ℕ) → position_of_device scheme.now device ≡ None → next_in self.new.collector device ≡ next_in self.old.collector device }
        ensures station { self.new.collector.station ≡ self.old.collector.station }
        ensures line { self.new.line ≡ self.old.line }
    {
        for (place, device) in scheme.devices().iter().enumerate() {
            let Some(upto) = uptos.get(place) else {
                unreachable!()
            };
            self.collector.resume(*device, *upto);
        }
    }

    /// The line gains how many taps of a device the outbox has had, and the answer is this number. `None` where the
    /// line is full: the outbox is not asked then.
    ///
    /// `Memory` where there was none for the outbox's answer, and `Store` where the outbox failed. Only an
    /// acknowledgement changes the line, and nothing changes the collector.
    pub fn ack<O: Outbox>(&mut self, outbox: &mut O, device: DeviceId) -> Result<Option<u64>, Fault>
        ensures full { result ≡ Ok None ↔ self.old.line.capacity ≤ length self.old.line.items }
        ensures unasked { self.old.line.capacity ≤ length self.old.line.items → outbox.new ≡ outbox.old }
        ensures asked { length self.old.line.items < self.old.line.capacity → Reads (O.standing outbox.old) (O.standing outbox.new) (λ upto. upto ≡ Some ((O.standing outbox.old).value.upto device)) result }
        ensures valid { IfOk result (λ upto. (n : ℕ) → upto ≡ Some n → IsCount n) }
        ensures line { self.new.line ≡ line_after self.old.line device result }
        ensures collector { self.new.collector ≡ self.old.collector }
    {
        if self.line.len() >= self.line.capacity() {
            return Ok(None);
        }
        let upto = outbox.upto(device)?;
        let pushed = self
            .line
            .try_push_back(AckItem::Upto(Ack::new(device, upto)));
        if pushed.is_err() {
            unreachable!()
        }
        Ok(Some(upto))
    }
}
