//! The effect of a packet that was judged.

ghost use Rattle.std.specs.Prelude.{◌≡◌, ◌≤◌};
ghost use Rattle.st_frames.specs.Packets.{packet_of};
ghost use Rattle.st_receiver.specs.Judged.{effect, with_sequence};
ghost use Rattle.st_receiver.specs.Decided.{IsPlanFor};

use crate::intake::{Intake, Plan};
use st_frames::StreamPacket;
use std::alloc::Allocator;

impl<A: Allocator + Copy> Intake<A> {
    /// Remembers a sequence.
    fn take_sequence(&mut self, sequence: u64)
        requires { 1 ≤ self.old.room }
        ensures { self.new.state ≡ with_sequence sequence self.old.state }
    {
        self.fulfilled.insert(sequence);
    }

    /// Makes a packet take effect, by the plan that `judge` gave for it. Does not allocate.
    pub fn commit(&mut self, packet: &StreamPacket<'_>, plan: Plan)
        requires plan { IsPlanFor self.old (packet_of packet.now) plan }
        ensures { self.new.state ≡ effect self.old.state (packet_of packet.now) plan.amount }
    {
        self.take_frames(packet.frames.again());
        self.take_money(packet.frames.again(), plan.amount);
        self.take_closes(packet.frames.again());
        self.take_connection_closes(packet.frames.again());
        self.take_sequence(packet.sequence);
    }
}
