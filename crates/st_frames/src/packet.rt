//! A STREAM packet that was read, and its frames.

ghost use Rattle.std.specs.Prelude.{◌≡◌, ◌<◌, ◌≤◌, ◌+◌, ◌^◌, ℕ, List, IsOk, OnOk, IfErr, Err, option_map};
ghost use Rattle.std.specs.Iterator.{YieldsFirstBy, item_count};
ghost use Rattle.st_oer.specs.Seen.{Gives};
ghost use Rattle.st_frames.specs.Frames.{Known};
ghost use Rattle.st_frames.specs.Kinds.{kind_number};
ghost use Rattle.st_frames.specs.Packets.{packet_of};
ghost use Rattle.st_frames.specs.Reading.{raws_at, frame_at, frames_at, packet_at, all_of};
ghost use Rattle.st_frames.specs.Seen.{seen, seen_at};

use crate::error::FrameError;
use crate::field::Malformed;
use crate::frame::Frame;
use crate::kind::PacketKind;
use crate::skeleton::{check_skeleton, raw_frame};
use crate::table::known_frame;
use st_oer::Cut;
use std::marker::Model;

/// The greatest length of a plain packet, in bytes. With its IV and tag it fits the data of an ILP packet.
pub const MAX_PACKET: usize = 32_739;

/// The version of STREAM: the first byte of each packet (RFC 0029).
pub const VERSION: u8 = 1;

/// A plain STREAM packet that was read (RFC 0029, section 5.2).
#[derive(Drop)]
pub struct StreamPacket<'a> {
    /// The kind of the ILP packet that carries it.
    pub kind: PacketKind,
    /// The sequence number. A reply has the sequence number of its request.
    pub sequence: u64,
    /// In a Prepare the least amount that the receiver should accept, in a reply the amount that arrived. In units of
    /// the receiver's asset.
    pub amount: u64,
    /// The known frames, each with its index.
    pub frames: Frames<'a>,
}

/// An iterator over the known frames of a packet that was read. Each comes with its index over all frames of the
/// packet, counted from 0.
#[derive(Drop)]
pub struct Frames<'a> {
    bytes: &'a [u8],
    left: u64,
    index: u64,
}

impl<'a> Model for Frames<'a> {
    ghost use Rattle.std.specs.Prelude.{ℕ, List, ◌+◌, ◌<◌, ◌^◌, IsOk};
    ghost use Rattle.st_frames.specs.Frames.{Known};
    ghost use Rattle.st_frames.specs.Reading.{frames_at, all_of};

    ghost Value = { List (ℕ × Known) };

    ghost view = { λ f. all_of (frames_at f.left f.index f.bytes.now) };

    ghost invariant = { λ f. IsOk (frames_at f.left f.index f.bytes.now) × (f.left + f.index < 2 ^ 64) };
}

impl<'a> Frames<'a> {
    /// An iterator over the same frames from the same place on.
    pub fn again(&self) -> Frames<'a>
        ensures { result ≡ self.now }
    {
        Frames {
            bytes: self.bytes,
            left: self.left,
            index: self.index,
        }
    }
}

impl<'a> Iterator for Frames<'a> {
    type Item = (u64, Frame<'a>);

    ghost next_gives = { YieldsFirstBy seen_at (λ f. f) };

    ghost remaining = { item_count (λ f. f) };

    fn next(&mut self) -> Option<(u64, Frame<'a>)> {
        while self.left > 0 {
            let Ok((known, rest)) = indexed_frame(self.index, self.bytes) else {
                self.left = 0;
                return None;
            };
            let index = self.index;
            self.bytes = rest;
            self.left -= 1;
            self.index += 1;
            if let Some(frame) = known {
                return Some((index, frame));
            }
        }
        None
    }
}

/// The frame with this index, or None for one of an unknown type, and the bytes after it.
#[tactic(auto, unfolding(crate::specs::Reading::frame_at))]
fn indexed_frame(index: u64, bytes: &[u8]) -> Result<(Option<Frame<'_>>, &[u8]), FrameError>
    ensures { Gives (λ x. (option_map seen x.0, x.1.now)) result (frame_at index bytes.now) }
{
    let (kind, contents, rest) = raw_frame(bytes)?;
    match known_frame(kind, contents) {
        Ok(known) => Ok((known, rest)),
        Err(Malformed) => Err(FrameError::FrameFormat(index)),
    }
}

/// Whether the contents of each known frame are well formed, and else the index of the first that are not.
fn check_contents(bytes: &[u8], count: u64) -> Result<(), FrameError>
    requires { IsOk (raws_at count bytes.now) }
    ensures ok { OnOk result (IsOk (frames_at count 0 bytes.now)) }
    ensures err { IfErr result (λ e. frames_at count 0 bytes.now ≡ Err e) }
{
    let mut rest = bytes;
    for index in 0..count {
        let (_, after) = indexed_frame(index, rest)?;
        rest = after;
    }
    Ok(())
}

/// Reads the whole of `bytes` as a plain packet (RFC 0029, section 5.2) that an ILP packet of kind `kind` carried. Does
/// not allocate.
///
/// Ignored are bytes after the last frame, frames of unknown types, and bytes that are left inside the contents of a
/// known frame.
///
/// Fails in this order: `TooLong` above `MAX_PACKET` bytes; `Version`; `Kind`; `Oer` for a fault in the numbers, or in
/// the type or the length of any frame; `FrameFormat` for the first known frame whose contents are malformed. If the
/// version or the kind is missing, the error in its place is `Oer(Short)`.
#[tactic(auto, unfolding(crate::specs::Reading::packet_at))]
pub fn read_packet(bytes: &[u8], kind: PacketKind) -> Result<StreamPacket<'_>, FrameError>
    ensures exact { Gives packet_of result (packet_at (kind_number kind) bytes.now) }
{
    if bytes.len() > MAX_PACKET {
        return Err(FrameError::TooLong);
    }
    let mut cut = Cut::new(bytes);
    if cut.get_u8()? != VERSION {
        return Err(FrameError::Version);
    }
    if cut.get_u8()? != kind.number() {
        return Err(FrameError::Kind);
    }
    let sequence = cut.var_uint()?;
    let amount = cut.var_uint()?;
    let count = cut.var_uint()?;
    let frames = cut.rest();
    check_skeleton(frames, count)?;
    check_contents(frames, count)?;
    Ok(StreamPacket {
        kind,
        sequence,
        amount,
        frames: Frames {
            bytes: frames,
            left: count,
            index: 0,
        },
    })
}
