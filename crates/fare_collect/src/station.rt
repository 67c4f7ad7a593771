ghost use Rattle.std.specs.Prelude.{◌≡◌, None, true, false, IsTrue, IsFalse};
ghost use Rattle.fare_collect.specs.Resting.{IsGoing};

use crate::fault::StationFault;
use fare_collector::Collector;
use fare_frame::Frame;
use fare_inbox_queue::{HearPass, StationPass};

/// A station of a session: what judges its devices' taps, and where their frames come from.
pub struct Station<S> {
    pub(crate) collector: Collector,
    pub(crate) source: S,
    pub(crate) post: Option<Post>,
    pub(crate) end: End,
}

// How a station's thread ended.
#[derive(Clone, Copy)]
pub(crate) struct End {
    // a frame that was given and that the inbox didn't take
    pub(crate) held: Option<Frame>,
    // whether its source has come to its end
    pub(crate) ended: bool,
    pub(crate) fault: Option<StationFault>,
}

impl End {
    // No thread has ended yet.
    pub(crate) fn new() -> End
        ensures { result ≡ record { held = None; ended = false; fault = None } }
    {
        End {
            held: None,
            ended: false,
            fault: None,
        }
    }

    // Whether no frame more comes of the source: it has come to its end, or its station met a fault.
    pub(crate) fn is_over(&self) -> bool
        ensures over { IsTrue result → self.now.fault ≡ None → self.now.ended ≡ true }
        ensures going { IsFalse result → IsGoing self.now }
    {
        self.ended || self.fault.is_some()
    }
}

impl<S: Drop> Drop for Station<S> {
    fn drop(self) {
        let Station {
            collector,
            source,
            post,
            end: _,
        } = self;
        drop(collector);
        drop(source);
        drop(post);
    }
}

impl<S: Drop> Station<S> {
    /// Its collector and its source.
    pub fn into_parts(self) -> (Collector, S)
        ensures { result ≡ (self.collector, self.source) }
    {
        let Station {
            collector,
            source,
            post,
            end: _,
        } = self;
        drop(post);
        (collector, source)
    }
}

impl<S> Station<S> {
    /// A station with its collector and its source.
    pub fn new(collector: Collector, source: S) -> Station<S>
        ensures { (result.collector ≡ collector) × (result.source ≡ source) × (result.post ≡ None) }
    {
        Station {
            collector,
            source,
            post: None,
            end: End::new(),
        }
    }
}

// What a station's thread has in a session: its passes, and how it stands.
pub(crate) struct Post {
    pub(crate) pass: StationPass,
    pub(crate) hear: HearPass,
    // a frame that was given and that the inbox didn't take
    pub(crate) held: Option<Frame>,
    // whether its source has come to its end
    pub(crate) ended: bool,
    pub(crate) fault: Option<StationFault>,
}

impl Drop for Post {
    fn drop(self) {
        let Post {
            pass,
            hear,
            held: _,
            ended: _,
            fault: _,
        } = self;
        drop(pass);
        drop(hear);
    }
}

impl Post {
    pub(crate) fn into_parts(self) -> (StationPass, HearPass, End)
        ensures { result ≡ (self.pass, self.hear, record { held = self.held; ended = self.ended; fault = self.fault }) }
    {
        let Post {
            pass,
            hear,
            held,
            ended,
            fault,
        } = self;
        (pass, hear, End { held, ended, fault })
    }
}
