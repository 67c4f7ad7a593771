ghost use Rattle.std.specs.Prelude.{◌≡◌, ◌<◌, ◌≤◌, [], ℕ, true, false, All, length, map, Some, None, vec_len, vec_capacity, slice_index_or, IfOk, OnOk};
ghost use Rattle.fare_inbox_queue.specs.InboxPasses.{station_of, sent_list, IsStationOf};
ghost use Rattle.fare_inbox_queue.specs.LinePasses.{put_list, heard_list, IsAckOf, IsHearOf};
ghost use Rattle.fare_collect.specs.declared.station.Post.{Post};
ghost use Rattle.fare_collect.specs.Opening.{AreNew, WerePosted, IsRelieved, AreRelieved, HavePosts};

use crate::station::{End, Post, Station};
use fare_inbox_queue::{AckLine, HearPass, StationPass};
use fare_writer::Teller;
use std::alloc::{AllocError, Global};

// The acknowledgement lines of a session, with their passes.
pub(crate) struct Lines {
    pub(crate) lines: Vec<AckLine>,
    pub(crate) tellers: Vec<Teller>,
    pub(crate) hears: Vec<HearPass>,
}

impl Drop for Lines {
    fn drop(self) {
        let Lines {
            lines,
            tellers,
            hears,
        } = self;
        drop(lines);
        drop(tellers);
        drop(hears);
    }
}

impl Lines {
    pub(crate) fn into_parts(self) -> (Vec<AckLine>, Vec<Teller>, Vec<HearPass>)
        ensures { result ≡ (self.lines, self.tellers, self.hears) }
    {
        let Lines {
            lines,
            tellers,
            hears,
        } = self;
        (lines, tellers, hears)
    }
}

// So many empty lines.
pub(crate) fn open_lines(alloc: Global, capacity: u32, count: usize) -> Result<Lines, AllocError>
    ensures made { IfOk result (λ made. AreNew count made.lines.items made.tellers.items made.hears.items) }
{
    let mut lines = Vec::with_capacity(alloc, count)?;
    let mut tellers = Vec::with_capacity(alloc, count)?;
    let mut hears = Vec::with_capacity(alloc, count)?;
    for _index in 0..count {
        let Ok((line, pass, hear)) = AckLine::new(alloc, capacity) else {
            return Err(AllocError);
        };
        lines.push(line)?;
        tellers.push(Teller::new(pass))?;
        hears.push(hear)?;
    }
    Ok(Lines {
        lines,
        tellers,
        hears,
    })
}

// Gives each station its post. The two lists stay with the room that they have.
pub(crate) fn post_all<S>(
    stations: &mut [Station<S>],
    passes: &mut Vec<StationPass>,
    hears: &mut Vec<HearPass>,
)
    requires len { (length passes.old.items ≡ length stations.old) × (length hears.old.items ≡ length stations.old) }
    ensures posted { WerePosted passes.old.items hears.old.items stations.old stations.new }
    ensures room { (passes.new.items ≡ []) × (hears.new.items ≡ []) × (length stations.old ≤ vec_capacity passes.new) × (length stations.old ≤ vec_capacity hears.new) }
{
    while let Some(pass) = passes.pop() {
        let Some(hear) = hears.pop() else {
            unreachable!()
        };
        let index = passes.len();
        stations[index].post = Some(Post {
            pass,
            hear,
            held: None,
            ended: false,
            fault: None,
        });
    }
}

// Relieves a station of its post.
fn relieve<S>(station: &mut Station<S>) -> (StationPass, HearPass)
    requires { (s : Post) × (station.old.post ≡ Some s) }
    ensures { IsRelieved station.old result.0 result.1 station.new }
{
    let Some(post) = station.post.take() else {
        unreachable!()
    };
    let (pass, hear, end) = post.into_parts();
    station.end = end;
    (pass, hear)
}

// Relieves the stations of their posts.
pub(crate) fn relieve_all<S>(
    stations: &mut [Station<S>],
    passes: &mut Vec<StationPass>,
    hears: &mut Vec<HearPass>,
)
    requires posts { HavePosts stations.old }
    requires empty { (passes.old.items ≡ []) × (hears.old.items ≡ []) }
    requires room { (length stations.old ≤ vec_capacity passes.old) × (length stations.old ≤ vec_capacity hears.old) }
    ensures { AreRelieved stations.old passes.new.items hears.new.items stations.new }
{
    for station in stations.iter_mut() {
        let (pass, hear) = relieve(station);
        passes.push_reserved(pass);
        hears.push_reserved(hear);
    }
}
