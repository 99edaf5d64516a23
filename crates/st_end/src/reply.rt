//! The bytes of an end's Fulfills and Rejects.

ghost use Rattle.std.specs.Prelude.{◌≡◌, ◌≤◌, [], ◌∷◌, true, length, map, None, Some, IfOk, IsOkUnless};
ghost use Rattle.st_oer.specs.Address.{is_address};
ghost use Rattle.st_ilp.specs.Rules.{is_data};
ghost use Rattle.st_ilp.specs.Packets.{Fulfilled, Rejected};
ghost use Rattle.st_ilp.specs.Spelling.{answer_text};
ghost use Rattle.st_frames.specs.Seen.{seen};
ghost use Rattle.st_ilp.specs.Seen.{prepare_seen};
ghost use Rattle.st_frames.specs.Frames.{frames_of};
ghost use Rattle.st_frames.specs.Kinds.{kind_number};
ghost use Rattle.st_frames.specs.Packets.{packet_of};
ghost use Rattle.st_keys.specs.Sealed.{iv_of};
ghost use Rattle.st_receiver.specs.Streams.{Receiving};
ghost use Rattle.st_receiver.specs.Limits.{reply_frames};
ghost use Rattle.st_end.specs.Receiving as receiving;

use st_frames::{Frame, PacketKind, StreamPacket};
use st_ilp::{Answer, ErrorCode, IlpError, Prepare, write_answer};
use st_keys::{KeyError, Keys, payload_lengths};
use st_streams::EndError;
use std::alloc::Allocator;

/// The code of a Reject of a payload that did not open.
pub(crate) fn code_unopened(fault: KeyError) -> ErrorCode
    ensures { result ≡ receiving.code_unopened fault }
{
    match fault {
        KeyError::Short => ErrorCode::UNEXPECTED_PAYMENT,
        KeyError::Tag => ErrorCode::UNEXPECTED_PAYMENT,
        KeyError::Packet(_) => ErrorCode::APPLICATION_ERROR,
        KeyError::NoMemory => ErrorCode::INTERNAL_ERROR,
    }
}

/// The IV of the reply to a request with this payload.
#[tactic(auto, using(crate::proofs::Replies::turned))]
fn reply_iv(payload: &[u8]) -> [u8; 12]
    requires { 12 ≤ length payload.now }
    ensures { result ≡ receiving.reply_iv (iv_of payload.now) }
{
    let mut iv = [0; 12];
    iv.copy_from_slice(&payload[..12]);
    iv[0] ^= 128;
    iv
}

/// The payload of the reply to a request, with these frames.
#[tactic(auto, using(crate::proofs::Sealing::reply_seals), unfolding(crate::specs::Receiving::reply_payload))]
pub(crate) fn reply_payload<A: Allocator + Copy>(
    alloc: A,
    keys: &Keys,
    kind: PacketKind,
    prepare: &Prepare<'_>,
    packet: &StreamPacket<'_>,
    frames: &[Frame<'_>],
) -> Result<Vec<u8, A>, EndError>
    requires long { 12 ≤ length prepare.now.payload.now }
    requires told { (r : Receiving) × (map seen frames.now ≡ reply_frames r (frames_of (packet_of packet.now))) }
    ensures only_memory { IsOkUnless result EndError.NoMemory }
    ensures sealed { (r : Receiving) → map seen frames.now ≡ reply_frames r (frames_of (packet_of packet.now))
        → IfOk result (λ v. v.items ≡ receiving.reply_payload keys.now (kind_number kind) (prepare_seen prepare.now) (packet_of packet.now) r) }
    ensures fits { IfOk result (λ v. is_data v.items ≡ true) }
{
    payload_lengths();
    match keys.seal_packet(
        alloc,
        reply_iv(prepare.payload),
        kind,
        packet.sequence,
        prepare.amount,
        frames,
    ) {
        Ok(payload) => Ok(payload),
        Err(KeyError::NoMemory) => Err(EndError::NoMemory),
        Err(_) => unreachable!(),
    }
}

/// The bytes of a Reject by this address, without a message.
#[tactic(auto, unfolding(st_ilp::specs::Writing::answer_refusal))]
pub(crate) fn reject_bytes<A: Allocator>(
    alloc: A,
    code: ErrorCode,
    own: &str,
    payload: &[u8],
) -> Result<Vec<u8, A>, EndError>
    requires own { is_address own.now ≡ true }
    requires payload { is_data payload.now ≡ true }
    ensures only_memory { IsOkUnless result EndError.NoMemory }
    ensures text { IfOk result (λ v. v.items ≡ answer_text (Rejected code own.now [] payload.now)) }
{
    let reject = Answer::Reject {
        code,
        by: own,
        message: "",
        payload,
    };
    match write_answer(alloc, &reject) {
        Ok(bytes) => Ok(bytes),
        Err(IlpError::NoMemory) => Err(EndError::NoMemory),
        Err(_) => unreachable!(),
    }
}

/// The bytes of a Fulfill.
#[tactic(auto, unfolding(st_ilp::specs::Writing::answer_refusal))]
pub(crate) fn fulfill_bytes<A: Allocator>(
    alloc: A,
    fulfillment: [u8; 32],
    payload: &[u8],
) -> Result<Vec<u8, A>, EndError>
    requires { is_data payload.now ≡ true }
    ensures only_memory { IsOkUnless result EndError.NoMemory }
    ensures text { IfOk result (λ v. v.items ≡ answer_text (Fulfilled fulfillment payload.now)) }
{
    let fulfill = Answer::Fulfill {
        fulfillment,
        payload,
    };
    match write_answer(alloc, &fulfill) {
        Ok(bytes) => Ok(bytes),
        Err(IlpError::NoMemory) => Err(EndError::NoMemory),
        Err(_) => unreachable!(),
    }
}

/// The bytes of a Reject T00 by this address, without data.
#[tactic(auto, unfolding(crate::specs::Receiving::t00_text))]
pub(crate) fn ready_t00<A: Allocator>(alloc: A, own: &str) -> Result<Vec<u8, A>, EndError>
    requires { is_address own.now ≡ true }
    ensures only_memory { IsOkUnless result EndError.NoMemory }
    ensures text { IfOk result (λ v. v.items ≡ receiving.t00_text own.now) }
{
    reject_bytes(alloc, ErrorCode::INTERNAL_ERROR, own, &[])
}
