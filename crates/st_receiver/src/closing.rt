//! What counts as read on each stream once a packet took effect: on a stream that it aborts, all bytes that arrived.
//! The connection's limit on offsets follows from it. Nothing changes.

ghost use Rattle.std.specs.Prelude.{◌≡◌, ◌<◌, ℕ, map, length, slice_index, None, false};
ghost use Rattle.std.specs.List.{list_any};
ghost use Rattle.st_frames.specs.Frames.{frame_of};
ghost use Rattle.st_frames.specs.Seen.{seen};
ghost use Rattle.st_receiver.specs.Streams.{Receiving, read_of};
ghost use Rattle.st_receiver.specs.Data as taken;
ghost use Rattle.st_receiver.specs.Closes.{after_close, after_closes};
ghost use Rattle.st_receiver.specs.Judged.{after_all};
ghost use Rattle.st_receiver.specs.Inside as inside;

use crate::decide::{is_over, reads_of};
use crate::incoming::Incoming;
use crate::intake::Intake;
use st_frames::{Frame, Frames};
use std::alloc::Allocator;

/// What counts for the connection's limit, by the streams' numbers.
#[derive(Clone, Copy)]
struct Tally {
    /// By stream number, the highest end of its data.
    ends: [u64; 65],
    /// By stream number, how many bytes count as read.
    reads: [u64; 65],
    /// By stream number, whether a clean close or an abort arrived.
    over: [bool; 65],
}

/// Whether a clean close or an abort came, by number.
fn all_over<A: Allocator + Copy>(slots: &Vec<Option<Incoming<A>>, A>) -> [bool; 65]
    requires { length slots.now.items ≡ 65 }
    ensures { result ≡ map inside.over_of slots.now.items }
{
    let mut over = [false; 65];
    for k in 0..65 {
        over[k] = is_over(&slots[k]);
    }
    over
}

/// Whether a frame closes the connection.
fn closes(frame: Frame<'_>) -> bool
    ensures { result ≡ inside.closes_connection (seen frame.entry) }
{
    match frame {
        Frame::ConnectionClose {
            code: _,
            message: _,
        } => true,
        _ => false,
    }
}

/// Whether any does.
fn any_closes(mut frames: Frames<'_>) -> bool
    ensures { result ≡ list_any inside.closes_connection (map frame_of frames.entry) }
{
    while let Some((_, frame)) = frames.next() {
        if closes(frame) {
            return true;
        }
    }
    false
}

impl Tally {
    /// A stream is closed: the first close counts, and with another code than 1 all counts as read.
    fn close(&mut self, stream: u64, code: u8)
        requires { stream < 65 }
        ensures { self.new ≡ inside.closed_at self.old stream code }
    {
        let k = stream as usize;
        if !(self.over[k] || code == 1) {
            self.reads[k] = self.ends[k];
        }
        self.over[k] = true;
    }

    /// A frame closes its stream, if it is a StreamClose.
    fn take_close(&mut self, frame: Frame<'_>)
        ensures { (r : Receiving) → inside.Counts r self.old → inside.Counts (after_close r (seen frame.entry)) self.new }
    {
        if let Frame::StreamClose {
            stream,
            code,
            message: _,
        } = frame
        {
            if stream < 65 {
                self.close(stream, code);
            }
        }
    }

    /// The StreamClose frames of a packet, one after another.
    fn take_closes(&mut self, mut frames: Frames<'_>)
        ensures { (r : Receiving) → inside.Counts r self.old → inside.Counts (after_closes r (map frame_of frames.entry)) self.new }
    {
        while let Some((_, frame)) = frames.next() {
            self.take_close(frame);
        }
    }

    /// What counts as read once each direction that has not ended is aborted.
    fn aborted(&self) -> [u64; 65]
        ensures size { length result ≡ 65 }
        ensures reads { (k : ℕ) → k < 65 → slice_index result k ≡ inside.read_once_aborted self.now k }
    {
        let mut reads = [0; 65];
        for k in 0..65 {
            reads[k] = if self.over[k] {
                self.reads[k]
            } else {
                self.ends[k]
            };
        }
        reads
    }
}

impl<A: Allocator + Copy> Intake<A> {
    /// What counts as read on each stream once a packet took effect.
    pub(crate) fn reads_after(&self, frames: Frames<'_>) -> [u64; 65]
        requires { taken.frames_fault self.now.state (map frame_of frames) ≡ None }
        ensures { (amount : ℕ) → result ≡ map read_of (after_all self.now.state amount (map frame_of frames.entry)).streams }
    {
        let mut tally = Tally {
            ends: self.ends_after(frames.again()).unwrap(),
            reads: reads_of(&self.slots),
            over: all_over(&self.slots),
        };
        tally.take_closes(frames.again());
        if any_closes(frames) {
            return tally.aborted();
        }
        tally.reads
    }
}
