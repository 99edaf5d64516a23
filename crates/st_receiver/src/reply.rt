//! The limits that a reply advertises: those of the streams that the packet names, as they are once it took effect.

ghost use Rattle.std.specs.Prelude.{◌≡◌, ◌<◌, ◌||◌, ℕ, map, slice_index_or, false, None, IfSome, IfOk, IsOkUnless};
ghost use Rattle.std.specs.List.{list_any};
ghost use Rattle.std.specs.Option.{option_copied};
ghost use Rattle.st_frames.specs.Frames.{frame_of};
ghost use Rattle.st_frames.specs.Packets.{packet_of};
ghost use Rattle.st_frames.specs.Seen.{seen};
ghost use Rattle.st_frames.specs.Told.{names};
ghost use Rattle.st_receiver.specs.Data as taken;
ghost use Rattle.st_receiver.specs.Judged.{after_all};
ghost use Rattle.st_receiver.specs.Limits as limits;
ghost use Rattle.st_receiver.specs.Decided.{IsPlanFor, limits_in_reply};
ghost use Rattle.st_receiver.specs.Inside as inside;

use crate::decide::limit_by;
use crate::intake::{Intake, Plan};
use crate::money::all_credited;
use crate::reason::Reason;
use st_frames::{Frame, Frames, StreamPacket};
use std::alloc::Allocator;

/// The number of the stream that a frame names.
fn stream_of(frame: Frame<'_>) -> Option<u64>
    ensures { (k : ℕ) → inside.is_number k result ≡ names k (seen frame.entry) }
{
    match frame {
        Frame::StreamClose { stream, .. } => Some(stream),
        Frame::StreamMoney { stream, .. } => Some(stream),
        Frame::StreamMaxMoney { stream, .. } => Some(stream),
        Frame::StreamMoneyBlocked { stream, .. } => Some(stream),
        Frame::StreamData { stream, .. } => Some(stream),
        Frame::StreamMaxData { stream, .. } => Some(stream),
        Frame::StreamDataBlocked { stream, .. } => Some(stream),
        _ => None,
    }
}

/// A stream is named.
fn mark(named: &mut [bool; 65], stream: Option<u64>)
    ensures { (k : ℕ) → k < 65 → slice_index_or named.new k false ≡ (inside.is_number k stream || slice_index_or named.old k false) }
{
    if let Some(stream) = stream {
        if stream < 65 {
            named[stream as usize] = true;
        }
    }
}

/// Which streams the frames of a packet name, by number.
fn named_in(mut frames: Frames<'_>) -> [bool; 65]
    ensures { (k : ℕ) → k < 65 → slice_index_or result k false ≡ list_any (names k) (map frame_of frames.entry) }
{
    let mut named = [false; 65];
    while let Some((_, frame)) = frames.next() {
        mark(&mut named, stream_of(frame));
    }
    named
}

impl<A: Allocator + Copy> Intake<A> {
    /// The limit of the connection once a packet took effect.
    fn limit_after(&self, frames: Frames<'_>) -> u64
        requires { taken.frames_fault self.now.state (map frame_of frames) ≡ None }
        ensures { (amount : ℕ) → result ≡ limits.connection_limit (after_all self.now.state amount (map frame_of frames.entry)) }
    {
        limit_by(&self.reads_after(frames))
    }

    /// The limits for the reply to a packet (RFC 0029, section 5.3): that of the connection, and those of each stream
    /// that the packet's frames name. Without a plan they are as they are now. With the plan that `judge` gave, they
    /// are as they will be after `commit`. Nothing changes. Fails with `NoMemory` if memory is refused.
    pub fn reply_frames<'f>(
        &self,
        packet: &StreamPacket<'_>,
        plan: Option<&Plan>,
    ) -> Result<Vec<Frame<'f>, A>, Reason>
        requires plan { IfSome (option_copied plan) (IsPlanFor self.now (packet_of packet.now)) }
        ensures only_memory { IsOkUnless result Reason.NoMemory }
        ensures told { IfOk result (λ frames. map seen frames.items ≡ limits_in_reply self.now.state (packet_of packet.now) (option_copied plan.entry)) }
    {
        let named = named_in(packet.frames.again());
        match plan {
            Some(plan) => {
                let limit = self.limit_after(packet.frames.again());
                let totals = self.totals_after(packet.frames.again(), plan.amount);
                self.told(limit, &named, &totals)
            }
            None => self.told(self.connection_limit(), &named, &all_credited(&self.slots)),
        }
    }
}
