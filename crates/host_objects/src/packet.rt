//! A plain STREAM packet (RFC 0029), whose frames a host adds and takes one by one.

ghost use Rattle.std.specs.Prelude.{◌≡◌, ◌≤◌, map, true, false, None, Some, Ok, Err, OnOk, OnErr, IfOk, MatchOption, MatchResult};
ghost use Rattle.st_frames.specs.Kinds.{kind_number};
ghost use Rattle.st_frames.specs.Seen.{seen};
ghost use Rattle.st_frames.specs.Written.{written, is_unwritable};
ghost use Rattle.host_objects.specs.Packets.{kept, placed, packet_seen, IsNewPacket, IsSamePacket, IsKept, AreKept, IsPushed, RefusesToPush, ReadsPacket, IsFrameAt, WritesOut};

use crate::frame::KeptFrame;
use st_frames::{
    Frame, FrameError, Frames, PacketKind, StreamPacket, packet_law, read_packet, write_packet,
};
use st_oer::is_address;
use std::alloc::{AllocError, Global};

/// A frame with its index.
#[derive(Drop)]
pub struct PlacedFrame {
    /// Its index over all frames of the packet that was read; of a frame that was added, how many known frames there were.
    pub index: u64,
    /// The frame.
    pub frame: KeptFrame,
}

/// A plain packet (RFC 0029, section 5.2), and what the last call returned.
#[derive(Drop)]
pub struct HostPacket {
    /// The ILP packet that carries it.
    pub kind: PacketKind,
    /// The sequence number.
    pub sequence: u64,
    /// In a Prepare the least amount that the receiver should accept, in a reply the amount that arrived.
    pub amount: u64,
    /// The known frames.
    pub frames: Vec<PlacedFrame>,
    /// The bytes that the last call returned.
    pub output: Vec<u8>,
}

/// Whether a frame has an address that is neither empty nor an ILP address.
fn is_malformed(frame: Frame<'_>) -> bool
    ensures { result ≡ is_unwritable (seen frame.entry) }
{
    match frame {
        Frame::ConnectionNewAddress { address } => !address.is_empty() && !is_address(address),
        _ => false,
    }
}

impl HostPacket {
    /// A packet without frames. Does not allocate.
    pub fn new(alloc: Global, kind: PacketKind, sequence: u64, amount: u64) -> HostPacket
        ensures { IsNewPacket (kind_number kind) sequence amount result }
    {
        HostPacket {
            kind,
            sequence,
            amount,
            frames: Vec::new(alloc),
            output: Vec::new(alloc),
        }
    }

    /// Reads all of the bytes as a plain packet that an ILP packet of this kind carried.
    ///
    /// Fails as `read_packet` does, and with `NoMemory`.
    pub fn read(alloc: Global, kind: PacketKind, bytes: &[u8]) -> Result<HostPacket, FrameError>
        ensures { ReadsPacket (kind_number kind) bytes.now result }
    {
        packet_law();
        let StreamPacket {
            kind: _,
            sequence,
            amount,
            frames,
        } = read_packet(bytes, kind)?;
        let mut packet = HostPacket::new(alloc, kind, sequence, amount);
        packet.keep_all(alloc, frames)?;
        Ok(packet)
    }

    /// Adds copies of frames after the others. Fails if memory is refused.
    fn keep_all(&mut self, alloc: Global, mut frames: Frames<'_>) -> Result<(), AllocError>
        ensures { OnOk result (AreKept self.old self.new frames.entry) }
    {
        while let Some((index, frame)) = frames.next() {
            self.keep(alloc, index, frame)?;
        }
        Ok(())
    }

    /// Adds a copy of a frame after the others. Fails if memory is refused.
    fn keep(&mut self, alloc: Global, index: u64, frame: Frame<'_>) -> Result<(), AllocError>
        ensures { MatchResult result (λ _. IsKept self.old self.new (index, seen frame.entry)) (λ _. IsSamePacket self.old self.new) }
    {
        let frame = KeptFrame::of(alloc, frame)?;
        self.frames.reserve(1)?;
        self.frames.push_reserved(PlacedFrame { index, frame });
        Ok(())
    }

    /// Adds a frame after the others. Its index is how many known frames there were.
    ///
    /// Fails with `FrameFormat` of that index if its address is neither empty nor an ILP address, and with `NoMemory`; then
    /// the packet is as before.
    pub fn push(&mut self, alloc: Global, frame: Frame<'_>) -> Result<(), FrameError>
        ensures { MatchResult result (λ _. IsPushed self.old self.new (seen frame.entry)) (λ e. RefusesToPush self.old self.new (seen frame.entry) e) }
    {
        let index = self.frames.len() as u64;
        if is_malformed(frame) {
            return Err(FrameError::FrameFormat(index));
        }
        self.keep(alloc, index, frame)?;
        Ok(())
    }

    /// The known frame at a place, with its index. `None` exactly if there are not more than `place` frames.
    pub fn frame(&self, place: usize) -> Option<(u64, Frame<'_>)>
        ensures { IsFrameAt place self.now.frames.items result }
    {
        let PlacedFrame { index, frame } = self.frames.get(place)?;
        Some((*index, frame.lent()))
    }

    /// The frames, whose texts and bytes are lent.
    fn lent(&self, alloc: Global) -> Result<Vec<Frame<'_>>, AllocError>
        ensures { IfOk result (λ lent. map seen lent.items ≡ map (λ p. kept p.frame) self.now.frames.items) }
    {
        let mut frames = Vec::with_capacity(alloc, self.frames.len())?;
        for placed in &self.frames {
            frames.push(placed.frame.lent())?;
        }
        Ok(frames)
    }

    /// Outputs the packet's bytes, in the shortest encoding.
    ///
    /// Fails as `write_packet` does; then the packet is as before.
    pub fn write(&mut self, alloc: Global) -> Result<(), FrameError>
        ensures written { WritesOut self.old self.new result }
        ensures same { packet_seen self.new ≡ packet_seen self.old }
        ensures unchanged { OnErr result (self.new ≡ self.old) }
    {
        let frames = self.lent(alloc)?;
        let bytes = write_packet(alloc, self.kind, self.sequence, self.amount, &frames)?;
        drop(frames);
        self.output = bytes;
        Ok(())
    }
}
