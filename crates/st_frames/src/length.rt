//! The length of a packet's encoding, in bytes, or why the packet cannot be written. It is computed before memory is
//! requested.

ghost use Rattle.std.specs.Prelude.{◌≡◌, ◌<◌, ◌+◌, ◌^◌, ℕ, length, map, MatchOption};
ghost use Rattle.std.specs.List.{position};
ghost use Rattle.st_oer.specs.Seen.{Gives};
ghost use Rattle.st_frames.specs.Frames.{max_packet};
ghost use Rattle.st_frames.specs.Seen.{seen};
ghost use Rattle.st_frames.specs.Written.{contents_text, frame_text, packet_length, IsLengthWithin};
ghost use Rattle.st_frames.specs.Written as specs;

use crate::error::FrameError;
use crate::frame::Frame;
use crate::packet::MAX_PACKET;
use crate::table::layout;
use st_oer::{is_address, length_size, var_uint_size};

/// The length of a frame's contents.
#[tactic(auto, using(crate::proofs::Puts::lengths))]
pub(crate) fn contents_len(frame: Frame<'_>) -> u128
    ensures { result ≡ length (contents_text (seen frame.entry)) }
{
    let (_, [first, second, third]) = layout(frame);
    first.size() + second.size() + third.size()
}

/// The length of a frame, or None if its contents alone are longer than a packet may be.
#[tactic(auto, unfolding(crate::specs::Written::frame_text), using(crate::proofs::Puts::lengths))]
fn frame_len(frame: Frame<'_>) -> Option<usize>
    ensures { MatchOption result (max_packet < length (frame_text (seen frame.entry))) (λ n. (n ≡ length (frame_text (seen frame.entry))) × (n < 2 ^ 16)) }
{
    let contents = contents_len(frame);
    if contents > MAX_PACKET as u128 {
        return None;
    }
    Some(1 + length_size(contents as u64) + contents as usize)
}

/// Whether a frame has an address that is neither empty nor an ILP address. Such a frame cannot be written.
fn is_unwritable(frame: &Frame<'_>) -> bool
    ensures { result ≡ specs.is_unwritable (seen frame.now) }
{
    match frame {
        Frame::ConnectionNewAddress { address } => !address.is_empty() && !is_address(address),
        _ => false,
    }
}

/// The index of the first frame that can't be written.
fn first_unwritable(frames: &[Frame<'_>]) -> Option<usize>
    ensures { result ≡ position (λ f. specs.is_unwritable (seen f)) frames.now }
{
    frames.iter().position(|frame| is_unwritable(frame))
}

/// The length of a packet, or None if it is more than `MAX_PACKET`.
#[tactic(auto, using(crate::proofs::Puts::lengths))]
fn length_within(sequence: u64, amount: u64, frames: &[Frame<'_>]) -> Option<usize>
    ensures { IsLengthWithin (packet_length sequence amount (map seen frames.now)) result }
{
    let mut total = 2
        + var_uint_size(sequence)
        + var_uint_size(amount)
        + var_uint_size(frames.len() as u64);
    for frame in frames {
        total += frame_len(*frame)?;
        if total > MAX_PACKET {
            return None;
        }
    }
    Some(total)
}

/// The length in bytes of a plain packet (RFC 0029, section 5.2). It does not depend on the kind of the ILP packet.
/// Does not allocate.
///
/// Fails with `FrameFormat` for the first frame whose address is neither empty nor an ILP address, and then with
/// `TooLong` above `MAX_PACKET` bytes.
#[tactic(auto, unfolding(crate::specs::Written::written), using(crate::proofs::Puts::judging))]
pub fn packet_len(sequence: u64, amount: u64, frames: &[Frame<'_>]) -> Result<usize, FrameError>
    ensures { (kind : ℕ) → Gives (λ n. n) result (specs.packet_size kind sequence amount (map seen frames.now)) }
{
    if let Some(index) = first_unwritable(frames) {
        return Err(FrameError::FrameFormat(index as u64));
    }
    length_within(sequence, amount, frames).ok_or(FrameError::TooLong)
}
