//! Whether a packet breaks a rule. Nothing changes: the highest ends are computed as the packet's data would raise
//! them.

ghost use Rattle.std.specs.Prelude.{◌≡◌, ◌<◌, ◌≤◌, ◌+◌, ◌*◌, ◌^◌, map, sum, length, None, is_err, IfOk, OnOk, true};
ghost use Rattle.std.specs.Option.{option_or};
ghost use Rattle.st_frames.specs.Frames.{frame_of};
ghost use Rattle.st_frames.specs.Seen.{seen};
ghost use Rattle.st_reassembly.specs.Held.{is_over};
ghost use Rattle.st_reassembly.specs.Inserting.{inserted};
ghost use Rattle.st_receiver.specs.Streams.{received_of, read_of};
ghost use Rattle.st_receiver.specs.Data as taken;
ghost use Rattle.st_receiver.specs.Limits as limits;
ghost use Rattle.st_receiver.specs.Inside as inside;

use crate::incoming::Incoming;
use crate::intake::Intake;
use crate::reason::Reason;
use st_frames::{Frame, Frames};
use st_reassembly::WINDOW;
use std::alloc::Allocator;

/// By how many bytes the data of all streams may reach past what was read: 1 MiB.
pub const CONNECTION_WINDOW: u64 = 1_048_576;

/// The sum of what there is for each stream.
pub(crate) fn sum_of(ends: &[u64; 65]) -> u128
    ensures total { result ≡ sum ends.now }
    ensures fits { result < 65 * 2 ^ 64 }
{
    let mut total = 0;
    for end in ends.iter() {
        total += u128::from(*end);
    }
    total
}

/// What was received on a stream.
fn received_of<A: Allocator + Copy>(slot: &Option<Incoming<A>>) -> u64
    ensures { result ≡ received_of slot.now }
{
    match slot {
        Some(incoming) => incoming.highest(),
        None => 0,
    }
}

/// What counts as read of it.
fn read_of<A: Allocator + Copy>(slot: &Option<Incoming<A>>) -> u64
    ensures { result ≡ read_of slot.now }
{
    match slot {
        Some(incoming) => incoming.read(),
        None => 0,
    }
}

/// What counts as read, by number.
pub(crate) fn reads_of<A: Allocator + Copy>(slots: &Vec<Option<Incoming<A>>, A>) -> [u64; 65]
    requires { length slots.now.items ≡ 65 }
    ensures { result ≡ map read_of slots.now.items }
{
    let mut reads = [0; 65];
    for k in 0..65 {
        reads[k] = read_of(&slots[k]);
    }
    reads
}

/// The highest byte ends, by number.
fn all_received<A: Allocator + Copy>(slots: &Vec<Option<Incoming<A>>, A>) -> [u64; 65]
    requires { length slots.now.items ≡ 65 }
    ensures { result ≡ map received_of slots.now.items }
{
    let mut ends = [0; 65];
    for k in 0..65 {
        ends[k] = received_of(&slots[k]);
    }
    ends
}

/// A limit as it is advertised: at most the greatest offset.
pub(crate) fn capped(limit: u128) -> u64
    ensures { result ≡ limits.capped limit }
{
    if limit < 18_446_744_073_709_551_615 {
        limit as u64
    } else {
        u64::MAX
    }
}

/// The limit of the connection as it is advertised, by what counts as read on each stream.
pub(crate) fn limit_by(reads: &[u64; 65]) -> u64
    ensures { result ≡ limits.capped (sum reads.now + 1048576) }
{
    capped(sum_of(reads) + u128::from(CONNECTION_WINDOW))
}

/// A clean close or an abort came.
pub(crate) fn is_over<A: Allocator + Copy>(slot: &Option<Incoming<A>>) -> bool
    ensures { result ≡ is_over (inside.held_or slot.now) }
{
    match slot {
        Some(incoming) => incoming.is_over(),
        None => false,
    }
}

/// How many bytes were read.
fn read_count<A: Allocator + Copy>(slot: &Option<Incoming<A>>) -> u64
    ensures { result ≡ (inside.held_or slot.now).read }
{
    match slot {
        Some(incoming) => incoming.read_count(),
        None => 0,
    }
}

/// A chunk ends past the greatest offset or past the stream's window.
#[tactic(auto, using(crate::proofs::Pieces::pieces))]
fn is_past<A: Allocator + Copy>(slot: &Option<Incoming<A>>, offset: u64, bytes: &[u8]) -> bool
    ensures { result ≡ is_err (inserted offset bytes.now (inside.held_or slot.now)) }
{
    let Some(end) = offset.checked_add(bytes.len() as u64) else {
        return true;
    };
    !is_over(slot) && WINDOW < end.saturating_sub(read_count(slot))
}

/// A chunk has bytes that count for the connection.
fn counts<A: Allocator + Copy>(slot: &Option<Incoming<A>>, bytes: &[u8]) -> bool
    ensures { result ≡ inside.counts (inside.held_or slot.now) bytes.now }
{
    !(is_over(slot) || bytes.is_empty())
}

/// A highest byte end once a chunk arrived.
fn raised<A: Allocator + Copy>(
    slot: &Option<Incoming<A>>,
    highest: u64,
    offset: u64,
    bytes: &[u8],
) -> u64
    requires { offset + length bytes.now < 2 ^ 64 }
    ensures { result ≡ inside.raised (inside.held_or slot.now) highest offset bytes.now }
{
    if is_over(slot) || bytes.is_empty() {
        return highest;
    }
    highest.max(offset + bytes.len() as u64)
}

impl<A: Allocator + Copy> Intake<A> {
    /// The limit of the connection as it is advertised.
    pub(crate) fn connection_limit(&self) -> u64
        ensures { result ≡ limits.connection_limit self.now.state }
    {
        limit_by(&reads_of(&self.slots))
    }

    /// Why a stream may not be named.
    fn stream_fault(&self, stream: u64) -> Option<Reason>
        ensures { result ≡ taken.stream_fault self.now.state stream }
    {
        if self.may_be_named(stream) {
            return None;
        }
        Some(Reason::StreamId)
    }

    /// Why a chunk is refused on a stream that may be named. If it is not, its end counts from now on.
    fn piece_fault(
        &self,
        ends: &mut [u64; 65],
        limit: u64,
        stream: u64,
        offset: u64,
        bytes: &[u8],
    ) -> Option<Reason>
        requires { stream < 65 }
        ensures fault { result ≡ inside.piece_fault self.now.state ends.old limit stream offset bytes.now }
        ensures next { result ≡ None → ends.new ≡ inside.ends_with self.now.state ends.old stream offset bytes.now }
    {
        let k = stream as usize;
        let slot = &self.slots[k];
        if is_past(slot, offset, bytes) {
            return Some(Reason::FlowControl);
        }
        ends[k] = raised(slot, ends[k], offset, bytes);
        if counts(slot, bytes) && u128::from(limit) < sum_of(ends) {
            return Some(Reason::FlowControl);
        }
        None
    }

    /// Why a frame is refused. If it is not, its data count from now on.
    fn frame_fault(&self, ends: &mut [u64; 65], limit: u64, frame: Frame<'_>) -> Option<Reason>
        ensures fault { result ≡ inside.told_fault self.now.state ends.old limit (seen frame.entry) }
        ensures next { result ≡ None → ends.new ≡ inside.ends_after self.now.state ends.old (seen frame.entry) }
    {
        match frame {
            Frame::StreamData {
                stream,
                offset,
                bytes,
            } => {
                let fault = self.stream_fault(stream);
                if fault.is_some() {
                    return fault;
                }
                self.piece_fault(ends, limit, stream, offset, bytes)
            }
            Frame::StreamMoney { stream, shares: _ } => self.stream_fault(stream),
            Frame::StreamClose {
                stream,
                code: _,
                message: _,
            } => self.stream_fault(stream),
            _ => None,
        }
    }

    /// The highest byte ends once a packet's frames arrived, or why they are refused: the first that breaks a rule
    /// decides.
    pub(crate) fn ends_after(&self, mut frames: Frames<'_>) -> Result<[u64; 65], Reason>
        ensures { inside.IsEnds self.now.state (map frame_of frames.entry) result }
    {
        let mut ends = all_received(&self.slots);
        let limit = self.connection_limit();
        while let Some((_, frame)) = frames.next() {
            if let Some(fault) = self.frame_fault(&mut ends, limit, frame) {
                return Err(fault);
            }
        }
        Ok(ends)
    }

    /// Why the frames of a packet are refused.
    pub(crate) fn frames_fault(&self, frames: Frames<'_>) -> Option<Reason>
        ensures { result ≡ taken.frames_fault self.now.state (map frame_of frames.entry) }
    {
        match self.ends_after(frames) {
            Ok(_) => None,
            Err(fault) => Some(fault),
        }
    }
}
