//! How many Prepares a run had, and how many it has at most.

ghost use Rattle.std.specs.Prelude.{◌≡◌, ◌≤◌, ◌<◌, ◌*◌};
ghost use Rattle.ilpstream_local.specs.Schedule.{IsCounted};
ghost use Rattle.ilpstream_local.specs.Sends as spec;
ghost use Rattle.ilpstream_local.specs.Sends.{AreOf};
ghost use Rattle.ilpstream_local.specs.Parts.{part_size};

use crate::chain::Counts;
use crate::parts::part_size;
use crate::play::Play;
use std::alloc::Allocator;

/// How many bytes of data a frame has at most.
const FRAME: usize = 16_000;

/// How many bytes of a stream may wait.
const ROOM: usize = 262_144;

/// How many Prepares the client sent in a finished run.
#[derive(Clone, Copy)]
pub struct LocalSends {
    /// All of them, also those that were lost.
    pub sent: u64,
    /// Those that were lost.
    pub lost: u64,
    /// The greatest number that the law of a run with losses allows. `None` if the law does not hold of the run: the
    /// server sent a Prepare too, or a part of the input has more than 262,144 bytes.
    pub bound: Option<u64>,
}

impl LocalSends {
    /// The numbers of a run in which nothing was sent.
    pub fn none() -> LocalSends {
        LocalSends {
            sent: 0,
            lost: 0,
            bound: None,
        }
    }

    /// Whether more Prepares were sent than the bound.
    pub fn is_past(&self) -> bool
        ensures { result ≡ spec.is_past self.now.sent self.now.bound }
    {
        match self.bound {
            Some(most) => most < self.sent,
            None => false,
        }
    }
}

/// How many frames the part at a place needs.
fn frames_at(size: usize, bytes: usize, place: usize) -> usize
    ensures { result ≡ spec.frames_at size bytes place }
{
    let left = bytes.saturating_sub(place.saturating_mul(size));
    size.min(left).div_ceil(FRAME)
}

/// How many frames the first `parts` parts need.
fn all_frames(size: usize, bytes: usize, parts: usize) -> u64
    requires { parts ≤ 32 }
    ensures count { result ≡ spec.all_frames size bytes parts }
    ensures few { result ≤ 32 * 1152921504606847 }
{
    let mut frames: u64 = 0;
    for place in 0..parts {
        frames += frames_at(size, bytes, place) as u64;
    }
    frames
}

/// The bound of a run, if the law holds of it.
fn bound_of(bytes: usize, streams: usize, lost: u64, returned: usize) -> Option<u64>
    requires some { 0 < streams }
    requires few { streams ≤ 32 }
    requires room { lost ≤ 1_000_000 }
    ensures { result ≡ spec.bound_of bytes streams lost returned }
{
    let size = part_size(bytes, streams);
    if size <= ROOM && returned == 0 {
        return Some(all_frames(size, bytes, streams) + streams as u64 + lost);
    }
    None
}

/// The numbers of a finished run with these counts.
pub(crate) fn sends_of<A: Allocator + Copy>(
    play: &Play<A>,
    bytes: usize,
    counts: Counts,
) -> LocalSends
    requires some { 0 < play.now.asked.streams }
    requires few { play.now.asked.streams ≤ 32 }
    requires counted { IsCounted play.now.asked.lose play.now.events counts }
    ensures { AreOf play.now.asked bytes counts.sent counts.returned result }
{
    let _events = play.events();
    let lost = counts.lost();
    LocalSends {
        sent: counts.sent as u64,
        lost,
        bound: bound_of(bytes, play.streams(), lost, counts.returned),
    }
}
