//! The limits that an end advertises to its peer (RFC 0029, section 5.3).

ghost use Rattle.std.specs.Prelude.{◌≡◌, ◌<◌, map, cond, [], IfOk, OnOk, IsOkUnless};
ghost use Rattle.st_frames.specs.Seen.{seen};
ghost use Rattle.st_receiver.specs.Streams.{fresh_incoming, incoming_or, incoming_at};
ghost use Rattle.st_receiver.specs.Limits.{limits};
ghost use Rattle.st_receiver.specs.Inside.{limits_with, told_frames, Appends, told_with};

use crate::decide::capped;
use crate::incoming::Incoming;
use crate::intake::Intake;
use crate::money::all_credited;
use crate::reason::Reason;
use st_frames::Frame;
use std::alloc::Allocator;

/// How far past what was read the bytes of a stream may reach.
const STREAM_WINDOW: u128 = 65_536;

/// Appends the limits of a stream, as it is or as it would open, with a total of what it was credited.
fn push_both<'f, A: Allocator + Copy>(
    frames: &mut Vec<Frame<'f>, A>,
    stream: u64,
    slot: &Option<Incoming<A>>,
    kept: u64,
    total_received: u64,
) -> Result<(), Reason>
    ensures only_memory { IsOkUnless result Reason.NoMemory }
    ensures told { OnOk result (Appends (told_with total_received stream (incoming_or (fresh_incoming kept) slot.now)) frames.old.items frames.new.items) }
{
    let (read, receive_max) = match slot {
        Some(incoming) => (incoming.read_count(), incoming.receive_max()),
        None => (0, kept),
    };
    frames.push(Frame::StreamMaxData {
        stream,
        max_offset: capped(u128::from(read) + STREAM_WINDOW),
    })?;
    frames.push(Frame::StreamMaxMoney {
        stream,
        receive_max,
        total_received,
    })?;
    Ok(())
}

impl<A: Allocator + Copy> Intake<A> {
    /// Appends the limits of a stream.
    fn push_stream<'f>(
        &self,
        frames: &mut Vec<Frame<'f>, A>,
        stream: u64,
        total_received: u64,
    ) -> Result<(), Reason>
        requires { stream < 65 }
        ensures only_memory { IsOkUnless result Reason.NoMemory }
        ensures told { OnOk result (Appends (told_with total_received stream (incoming_at self.now.state stream)) frames.old.items frames.new.items) }
    {
        let k = stream as usize;
        push_both(frames, stream, &self.slots[k], self.kept[k], total_received)
    }

    /// Appends the limits of a stream if it is named, and is open or the peer may open it.
    fn push_limits<'f>(
        &self,
        frames: &mut Vec<Frame<'f>, A>,
        stream: u64,
        is_named: bool,
        total_received: u64,
    ) -> Result<(), Reason>
        requires { stream < 65 }
        ensures only_memory { IsOkUnless result Reason.NoMemory }
        ensures told { OnOk result (Appends (cond is_named (limits_with self.now.state stream total_received) []) frames.old.items frames.new.items) }
    {
        if is_named && self.may_be_named(stream) {
            return self.push_stream(frames, stream, total_received);
        }
        Ok(())
    }

    /// A limit of the connection, and the limits of the streams that are named, each with the total of what it was
    /// credited.
    pub(crate) fn told<'f>(
        &self,
        limit: u64,
        named: &[bool; 65],
        totals: &[u64; 65],
    ) -> Result<Vec<Frame<'f>, A>, Reason>
        ensures only_memory { IsOkUnless result Reason.NoMemory }
        ensures told { IfOk result (λ frames. map seen frames.items ≡ told_frames self.now.state limit named.now totals.now) }
    {
        let mut frames = Vec::new(self.alloc);
        frames.push(Frame::ConnectionMaxData { max_offset: limit })?;
        for k in 0..64 {
            let stream = k + 1;
            self.push_limits(&mut frames, stream as u64, named[stream], totals[stream])?;
        }
        Ok(frames)
    }

    /// The current limits (RFC 0029, section 5.3): that of the connection, and those of each stream that is open or
    /// that the peer may open. Fails with `NoMemory` if memory is refused.
    pub fn limits<'f>(&self) -> Result<Vec<Frame<'f>, A>, Reason>
        ensures only_memory { IsOkUnless result Reason.NoMemory }
        ensures told { IfOk result (λ frames. map seen frames.items ≡ limits self.now.state) }
    {
        self.told(
            self.connection_limit(),
            &[true; 65],
            &all_credited(&self.slots),
        )
    }
}
