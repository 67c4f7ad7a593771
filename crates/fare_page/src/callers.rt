//! Those who ask.
ghost use Rattle.std.specs.Prelude.{◌≡◌, [], IfOk};
ghost use Rattle.fare_desk.specs.Closing.{GoesOn};
ghost use Rattle.fare_page.specs.Answering.{HasAnswered};

use crate::caller::Caller;
use fare_serve::Progress;
use fare_sessions::Hub;
use fare_store::{Ledger, Outbox};
use std::alloc::{AllocError, Global};
use std::hash::RandomState;
use std::net::TcpListener;
use std::time::{Duration, Instant};

/// How many are heard at once.
const MOST_CALLERS: usize = 16;

/// After how many milliseconds no other one is heard in a pause.
const MOST_MILLIS: u64 = 200;

/// Those who ask a hub over HTTP: the listener that they come to, which must not block, and their connections.
#[derive(Drop)]
pub struct Callers {
    listener: TcpListener,
    callers: Vec<Caller>,
}

// Whether so much time has passed that the others are heard in the next pause.
fn is_late(rt: &HostRuntime, begun: Option<Instant>) -> bool {
    match begun {
        Some(begun) => match begun.elapsed(rt) {
            Ok(passed) => passed >= Duration::from_millis(MOST_MILLIS),
            Err(_) => false,
        },
        None => false,
    }
}

impl Callers {
    /// None has come yet.
    pub fn new(alloc: Global, listener: TcpListener) -> Result<Callers, AllocError>
        ensures { IfOk result (λ callers. (callers.listener ≡ listener) × (callers.callers.items ≡ [])) }
    {
        Ok(Callers {
            listener,
            callers: Vec::with_capacity(alloc, MOST_CALLERS)?,
        })
    }

    // Takes one who waits. Where there is no room, the one who has been there longest is let go. Whether another may wait.
    fn welcome_one(&mut self, rt: &HostRuntime) -> bool {
        let Ok((stream, _)) = self.listener.accept() else {
            return false;
        };
        let Ok(keys) = RandomState::new(rt) else {
            return false;
        };
        if self.callers.len() >= MOST_CALLERS {
            drop(self.callers.remove(0));
        }
        if let Ok(caller) = Caller::new(rt.alloc(), keys, stream) {
            let _ = self.callers.push(caller);
        }
        true
    }

    // Takes those who wait.
    fn welcome(&mut self, rt: &HostRuntime) {
        for _ in 0..MOST_CALLERS {
            if !self.welcome_one(rt) {
                return;
            }
        }
    }

    /// Hears each who has come, once: reads what is there, answers each request that is whole, of the hub, which is at
    /// rest, when serving has come so far, and writes what the connection takes. It waits for none of them, so one
    /// that is silent or slow holds nothing up; and once 200 milliseconds have passed the others are heard in the next
    /// call. A connection gets one answer, and is let go then, when it has been heard 500 times, or when 16 newer ones have
    /// come.
    pub fn answer<O: Outbox, L: Ledger>(
        &mut self,
        rt: &HostRuntime,
        hub: &mut Hub<O, L>,
        progress: &Progress,
    )
        ensures answered { HasAnswered O.standing L.standing progress.now hub.old hub.new }
        ensures goes { GoesOn O.standing L.standing hub.old hub.new }
    {
        let alloc = rt.alloc();
        self.welcome(rt);
        let begun = Instant::now(rt).ok();
        let mut place = 0;
        for _ in 0..MOST_CALLERS {
            if place >= self.callers.len() || is_late(rt, begun) {
                return;
            }
            if self.callers[place].hear(alloc, hub, progress) {
                place += 1;
            } else {
                drop(self.callers.remove(place));
            }
        }
    }
}
