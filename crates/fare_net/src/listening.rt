ghost use Rattle.std.specs.Prelude.{◌≡◌, IfOk, IfErr, IfSome};
ghost use Rattle.fare_net.specs.Listening.{HasHeard, HasNotHeard};

use crate::{ListenFault, NetSource};
use fare_frame::Frame;
use fare_record::StationId;
use fare_scheme::Scheme;
use fare_source::Source;
use std::alloc::Global;
use std::io;
use std::io::Read;

/// What was heard of a line.
#[derive(Drop)]
pub struct Heard {
    /// The station of the device that greeted.
    pub station: StationId,
    /// The frames that followed the greeting.
    pub frames: Vec<Frame>,
    /// Whether they are all, up to the line's end; else the line failed behind them.
    pub ended: bool,
}

/// A whole line, from its greeting to its end or to where it failed, of at most so many reads; nothing is answered.
///
/// `Hello` where the line is no station's. `Memory` where there was none for the frames.
pub fn listen<R: Read + Drop>(
    alloc: Global,
    reader: R,
    scheme: &Scheme,
    turns: u64,
) -> Result<Heard, ListenFault>
    ensures ok { IfOk result (λ heard. IfSome (R.remaining reader) (HasHeard scheme.now heard.station heard.frames.items heard.ended)) }
    ensures fails { IfErr result (λ fault. IfSome (R.remaining reader) (HasNotHeard scheme.now fault)) }
{
    let Ok(mut source) = NetSource::new(alloc, reader, io::sink(), turns) else {
        return Err(ListenFault::Memory);
    };
    let station = match source.hello(scheme) {
        Ok(station) => station,
        Err(fault) => return Err(ListenFault::Hello(fault)),
    };
    let mut frames = Vec::new(alloc);
    loop {
        match source.next() {
            Ok(Some(frame)) => {
                if frames.push(frame).is_err() {
                    return Err(ListenFault::Memory);
                }
            }
            Ok(None) => {
                return Ok(Heard {
                    station,
                    frames,
                    ended: true,
                });
            }
            Err(_) => {
                return Ok(Heard {
                    station,
                    frames,
                    ended: false,
                });
            }
        }
    }
}
