//! The bytes that were returned for a Prepare.

ghost use Rattle.std.specs.Prelude.{◌≡◌, ◌≤◌, ◌-◌, length};
ghost use Rattle.st_keys.specs.Sealed.{opened};
ghost use Rattle.st_frames.specs.Frames.{frame_of};
ghost use Rattle.st_frames.specs.Kinds.{kind_number};
ghost use Rattle.std.specs.Prelude.{map};
ghost use Rattle.st_sender.specs.Answering.{after_all_told};
ghost use Rattle.st_end.specs.Answers as answers;
ghost use Rattle.st_end.specs.Inside.{IsBack};

use st_frames::{Frames, PacketKind};
use st_ilp::{Answer, ErrorCode, answer_law, read_answer};
use st_keys::Keys;
use st_oer::Cut;
use st_sender::Outbox;
use std::alloc::Allocator;

/// An answer, and the index in its bytes at which its data start.
#[derive(Clone, Copy)]
pub(crate) enum Back<'a> {
    /// A Fulfill.
    Fulfill {
        fulfillment: [u8; 32],
        start: usize,
    },
    /// A Reject.
    Reject {
        code: ErrorCode,
        by: &'a str,
        message: &'a str,
        start: usize,
    },
    /// Neither of both.
    Unreadable,
}

/// Reads an answer.
pub(crate) fn read_back(bytes: &[u8]) -> Back<'_>
    ensures { IsBack bytes.now result }
{
    answer_law();
    let Ok(answer) = read_answer(bytes) else {
        return Back::Unreadable;
    };
    match answer {
        Answer::Fulfill {
            fulfillment,
            payload,
        } => Back::Fulfill {
            fulfillment,
            start: bytes.len().saturating_sub(payload.len()),
        },
        Answer::Reject {
            code,
            by,
            message,
            payload,
        } => Back::Reject {
            code,
            by,
            message,
            start: bytes.len().saturating_sub(payload.len()),
        },
    }
}

/// The received and the maximum amount in the data of F08 (RFC 0027), if they are exactly two UInt64.
pub(crate) fn amounts_in(payload: &[u8]) -> Option<(u64, u64)>
    ensures { result ≡ answers.amounts_in payload.now }
{
    let mut cut = Cut::new(payload);
    let Ok(received) = cut.get_u64() else {
        return None;
    };
    let Ok(maximum) = cut.get_u64() else {
        return None;
    };
    if !cut.rest().is_empty() {
        return None;
    }
    Some((received, maximum))
}

/// Applies the limits that frames report.
pub(crate) fn raise_all<A: Allocator + Copy>(outbox: &mut Outbox<A>, mut frames: Frames<'_>)
    ensures { outbox.new ≡ after_all_told outbox.old (map frame_of frames.entry) }
{
    while let Some((_, frame)) = frames.next() {
        outbox.raise_limits(&frame);
    }
}

/// Applies the limits in an answer's data, if they open as a packet of this kind with this sequence.
pub(crate) fn raise_from<A: Allocator + Copy>(
    outbox: &mut Outbox<A>,
    keys: &Keys,
    kind: PacketKind,
    sequence: u64,
    payload: &mut [u8],
)
    ensures { outbox.new ≡ answers.raised outbox.old sequence (opened keys.now (kind_number kind) payload.old) }
{
    if let Ok(packet) = keys.open_packet(payload, kind) {
        if packet.sequence == sequence {
            raise_all(outbox, packet.frames.again());
        }
    }
}
