//! Sources of frames that are written down, and schemes for them, for the tests of sessions.
ghost use Rattle.std.specs.Prelude.{◌≡◌, ◌≤◌, ◌+◌, ◌++◌, ◌∷◌, [], map, reverse, slice_get, vec_len, vec_capacity, IfSome};
ghost use Rattle.fare_day.specs.Clock.{HasRule};
ghost use Rattle.fare_scheme.specs.Demo.{demo_rule, demo_scheme};
ghost use Rattle.fare_scripts.specs.Sources.{tap_frame, IsSourceOf, AreSourcesOf};

use fare_collect::Station;
use fare_frame::Frame;
use fare_samples::{FIRST, Numbers, record};
use fare_scheme::{DemoSize, Scheme};
use fare_source::{Source, SourceFault};
use std::alloc::Global;

/// A source of frames that are written down, which keeps what it gave and what it was answered.
#[derive(Drop)]
pub struct Script {
    /// Those to come, the next one last.
    pub frames: Vec<Frame>,
    /// What it gave.
    pub given: Vec<Frame>,
    /// What it was answered.
    pub answered: Vec<Frame>,
    /// How often it failed.
    pub failures: u64,
    /// How many calls there are up to the one that fails, itself included; 0 for none.
    pub left: u64,
    /// It is ready at each so many asks; 0 for all.
    pub every: u64,
    /// How often it was asked whether it is ready.
    pub asked: u64,
}

// Counts a call, and answers whether it is the one that fails.
fn fails_now(left: &mut u64) -> bool {
    let now = *left == 1;
    *left = left.saturating_sub(1);
    now
}

// Adds a frame to a list that has room for it.
fn keep(frames: &mut Vec<Frame>, frame: &Frame)
    requires { vec_len frames.old + 1 ≤ vec_capacity frames.old }
    ensures { frames.new.items ≡ frames.old.items ++ frame.now ∷ [] }
{
    frames.push_reserved(*frame);
}

impl Source for Script {
    ghost talk = { λ s. record { given = s.given.items; answered = s.answered.items; failures = s.failures; ended = s.frames.items ≡ [] } };

    fn is_ready(&mut self) -> bool {
        self.asked = self.asked.wrapping_add(1);
        self.every == 0 || self.asked % self.every == 0
    }

    fn next(&mut self) -> Result<Option<Frame>, SourceFault> {
        if fails_now(&mut self.left) {
            self.failures = self.failures.saturating_add(1);
            return Err(SourceFault::Failed);
        }
        if self.given.reserve(1).is_err() {
            return Err(SourceFault::Memory);
        }
        let Some(frame) = self.frames.pop() else {
            return Ok(None);
        };
        keep(&mut self.given, &frame);
        Ok(Some(frame))
    }

    fn answer(&mut self, frame: &Frame) -> Result<(), SourceFault> {
        if self.answered.push(*frame).is_err() {
            return Err(SourceFault::Memory);
        }
        if fails_now(&mut self.left) {
            self.failures = self.failures.saturating_add(1);
            return Err(SourceFault::Failed);
        }
        Ok(())
    }
}

impl Script {
    /// The frame that it was answered last, behind the one before it.
    pub fn last_two(&self) -> (Option<Frame>, Option<Frame>)
        ensures before { result.0 ≡ slice_get (reverse self.now.answered.items) 1 }
        ensures last { result.1 ≡ slice_get (reverse self.now.answered.items) 0 }
    {
        let count = self.answered.len();
        let before = count
            .checked_sub(2)
            .and_then(|place| self.answered.get(place).copied());
        (before, self.answered.last().copied())
    }
}

/// A tap of a device with this link, and with the lane number that is like it.
pub fn tapped(device: u64, link: u64) -> Option<Frame>
    ensures { IfSome result (λ frame. frame ≡ tap_frame device link) }
{
    let tap = record(Numbers {
        device,
        link,
        lane: link,
        ..FIRST
    })?;
    Some(Frame::Tapped(tap))
}

/// A source of a device's taps with these links.
pub fn source_of(alloc: Global, device: u64, links: &[u64]) -> Option<Script>
    ensures { IfSome result (λ source. IsSourceOf device links.now source) }
{
    let mut frames = Vec::new(alloc);
    for link in links {
        frames.insert(0, tapped(device, *link)?).ok()?;
    }
    Some(Script {
        frames,
        given: Vec::new(alloc),
        answered: Vec::new(alloc),
        failures: 0,
        left: 0,
        every: 0,
        asked: 0,
    })
}

/// A source for each of the devices up to a number, of its taps with these links.
#[tactic(auto, using(crate::proofs::Sources::one_more))]
pub fn scripts_of(alloc: Global, devices: u64, links: &[u64]) -> Option<Vec<Script>>
    ensures { IfSome result (λ sources. AreSourcesOf devices links.now sources.items) }
{
    let mut sources = Vec::new(alloc);
    for place in 0..devices {
        sources.push(source_of(alloc, place + 1, links)?).ok()?;
    }
    Some(sources)
}

/// The stations' sources, in their order.
pub fn sources_of(alloc: Global, stations: Vec<Station<Script>>) -> Option<Vec<Script>>
    ensures { IfSome result (λ sources. sources.items ≡ map (λ station. station.source) stations.items) }
{
    let mut stations = stations;
    let mut sources = Vec::new(alloc);
    while let Some(station) = stations.pop() {
        let (_, source) = station.into_parts();
        sources.insert(0, source).ok()?;
    }
    Some(sources)
}

/// The demonstration scheme of two devices, with an inbox of one item.
pub fn narrow(alloc: Global) -> Option<Scheme>
    ensures scheme { IfSome result (λ scheme. scheme ≡ demo_scheme DemoSize.TwoDevices 4 1 4 scheme.zone) }
    ensures zone { IfSome result (λ scheme. HasRule scheme.zone demo_rule) }
{
    Scheme::demo(alloc, DemoSize::TwoDevices, 4, 1, 4).ok()
}
