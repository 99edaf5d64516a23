//! The decision on a packet.

ghost use Rattle.std.specs.Prelude.{◌≡◌, ◌<◌, ◌≤◌, ℕ, map, None, true, OnOk, IsOkUnless};
ghost use Rattle.st_frames.specs.Frames.{frame_of};
ghost use Rattle.st_frames.specs.Packets.{packet_of};
ghost use Rattle.st_frames.specs.Seen.{seen};
ghost use Rattle.st_receiver.specs.Data as taken;
ghost use Rattle.st_receiver.specs.Judged.{fault_of};
ghost use Rattle.st_receiver.specs.Standing.{is_ready, opens, AllReady, StaysReady, HasRoom};
ghost use Rattle.st_receiver.specs.Decided.{IsDecision};

use crate::incoming::Window;
use crate::intake::{Decision, Intake, Plan};
use crate::reason::Reason;
use st_frames::{Frame, Frames, StreamPacket};
use std::alloc::Allocator;

impl<A: Allocator + Copy> Intake<A> {
    /// A window waits for a stream that is not open.
    pub(crate) fn make_ready(&mut self, stream: u64) -> Result<(), Reason>
        ensures only_memory { IsOkUnless result Reason.NoMemory }
        ensures state { self.new.state ≡ self.old.state }
        ensures stays { StaysReady self.old self.new }
        ensures ready { OnOk result (stream < 65 → is_ready self.new stream ≡ true) }
    {
        if stream >= 65 {
            return Ok(());
        }
        if self.is_open(stream) {
            return Ok(());
        }
        if self.windows[stream as usize].is_some() {
            return Ok(());
        }
        let Ok(window) = Window::new(self.alloc) else {
            return Err(Reason::NoMemory);
        };
        self.windows[stream as usize] = Some(window);
        Ok(())
    }

    /// Allocates the memory for the stream that a frame opens, if it is not open.
    fn make_frame_ready(&mut self, frame: Frame<'_>) -> Result<(), Reason>
        ensures only_memory { IsOkUnless result Reason.NoMemory }
        ensures state { self.new.state ≡ self.old.state }
        ensures stays { StaysReady self.old self.new }
        ensures ready { OnOk result ((k : ℕ) → k < 65 → opens k (seen frame.entry) ≡ true → is_ready self.new k ≡ true) }
    {
        match frame {
            Frame::StreamData {
                stream,
                offset: _,
                bytes: _,
            } => self.make_ready(stream),
            Frame::StreamMoney { stream, shares: _ } => self.make_ready(stream),
            Frame::StreamClose {
                stream,
                code: _,
                message: _,
            } => self.make_ready(stream),
            _ => Ok(()),
        }
    }

    /// Allocates the memory for each stream that the frames open, if it is not open.
    fn make_all_ready(&mut self, mut frames: Frames<'_>) -> Result<(), Reason>
        requires lawful { taken.frames_fault self.old.state (map frame_of frames) ≡ None }
        ensures only_memory { IsOkUnless result Reason.NoMemory }
        ensures state { self.new.state ≡ self.old.state }
        ensures ready { OnOk result (AllReady self.new (map frame_of frames.entry)) }
    {
        while let Some((_, frame)) = frames.next() {
            self.make_frame_ready(frame)?;
        }
        Ok(())
    }

    /// Makes room for one sequence more.
    fn make_room(&mut self) -> Result<(), Reason>
        ensures only_memory { IsOkUnless result Reason.NoMemory }
        ensures state { self.new.state ≡ self.old.state }
        ensures windows { self.new.windows ≡ self.old.windows }
        ensures room { OnOk result (1 ≤ self.new.room) }
    {
        self.fulfilled.reserve()?;
        Ok(())
    }

    /// Allocates all memory that a packet's effect will need.
    fn reserve(&mut self, packet: &StreamPacket<'_>) -> Result<(), Reason>
        requires lawful { taken.frames_fault self.old.state (map frame_of packet.now.frames) ≡ None }
        ensures only_memory { IsOkUnless result Reason.NoMemory }
        ensures state { self.new.state ≡ self.old.state }
        ensures room { OnOk result (HasRoom self.new (packet_of packet.now)) }
    {
        self.make_all_ready(packet.frames.again())?;
        self.make_room()?;
        Ok(())
    }

    /// The first rule that a packet breaks.
    fn fault(&self, packet: &StreamPacket<'_>, amount: u64) -> Option<Reason>
        ensures { result ≡ fault_of self.now.state (packet_of packet.now) amount }
    {
        if self.closed {
            return Some(Reason::ConnectionClosed);
        }
        if self.fulfilled.contains(packet.sequence) {
            return Some(Reason::Repeated);
        }
        if amount < packet.amount {
            return Some(Reason::AmountTooSmall);
        }
        let fault = self.frames_fault(packet.frames.again());
        if fault.is_some() {
            return fault;
        }
        self.money_fault(packet.frames.again(), amount)
    }

    /// Decides on a packet (RFC 0029, section 5) whose Prepare has this amount, in units of this end's asset. It
    /// changes nothing that was received, but allocates all memory that the packet's effect needs. The reason of a
    /// Reject is the first rule that the packet breaks. It is `NoMemory` only if the packet breaks no rule and memory is
    /// refused.
    pub fn judge(&mut self, packet: &StreamPacket<'_>, amount: u64) -> Decision
        ensures state { self.new.state ≡ self.old.state }
        ensures decision { IsDecision self.new (packet_of packet.now) amount result }
    {
        if let Some(reason) = self.fault(packet, amount) {
            return Decision::Reject {
                code: reason.code(),
                reason,
            };
        }
        match self.reserve(packet) {
            Ok(()) => Decision::Fulfill(Plan { amount }),
            Err(_) => Decision::Reject {
                code: Reason::NoMemory.code(),
                reason: Reason::NoMemory,
            },
        }
    }
}
