//! The answer of an end to bytes that arrived.

ghost use Rattle.std.specs.Prelude.{◌≡◌, ◌≤◌, ℕ, List, true, length, map, string_bytes, Ok, Err, None, Some, IfOk, OnErr, IsOkUnless};
ghost use Rattle.st_ilp.specs.Seen.{prepare_seen};
ghost use Rattle.st_ilp.specs.Spelling.{prepare_kind};
ghost use Rattle.st_frames.specs.Frames.{frames_of};
ghost use Rattle.st_frames.specs.Packets.{packet_of};
ghost use Rattle.st_frames.specs.Seen.{seen};
ghost use Rattle.st_keys.specs.Keys.{fulfillment};
ghost use Rattle.st_keys.specs.Sealed.{opened};
ghost use Rattle.st_receiver.specs.Decided.{IsPlanFor};
ghost use Rattle.st_receiver.specs.Judged.{effect};
ghost use Rattle.st_receiver.specs.Limits as limits;
ghost use Rattle.st_end.specs.Receiving as receiving;
ghost use Rattle.st_end.specs.Receiving.{Unread, Rejects, is_own_condition, received_as, verdict_on, received, no_prepare, f01, received_opened};
ghost use Rattle.st_end.specs.Seen.{received_seen, text_or};
ghost use Rattle.st_end.specs.Inside.{IsJudged, fulfill_text};
ghost use Rattle.st_end.specs.Opened.{IsPayloadOf, IsOpenedBy};

use crate::back::raise_all;
use crate::effect::{last_address, take_effect};
use crate::end::EndState;
use crate::opened::{Opened, Payload, read_plain};
use crate::received::Received;
use crate::reply::{code_unopened, fulfill_bytes, reject_bytes, reply_payload};
use st_frames::{Frame, PacketKind, StreamPacket};
use st_ilp::{ErrorCode, Moment, Prepare, read_prepare};
use st_keys::Keys;
use st_oer::is_within;
use st_receiver::{Decision, Intake, Plan, Reason};
use st_sender::Outbox;
use st_streams::EndError;
use std::alloc::Allocator;

/// A Fulfill, with the frames of its reply and the peer's new address, if it has one.
#[derive(Drop)]
struct Reply<'f, A: Allocator + Copy> {
    bytes: Vec<u8, A>,
    frames: Vec<Frame<'f>, A>,
    peer: Option<String<A>>,
}

/// The Fulfill of a packet by the plan that was made for it, with this fulfillment. Nothing changes.
fn fulfill_reply<'f, A: Allocator + Copy>(
    alloc: A,
    keys: &Keys,
    intake: &Intake<A>,
    prepare: &Prepare<'_>,
    packet: &StreamPacket<'_>,
    preimage: [u8; 32],
    plan: &Plan,
) -> Result<Reply<'f, A>, EndError>
    requires preimage { preimage ≡ fulfillment keys.now prepare.now.payload.now }
    requires long { 12 ≤ length prepare.now.payload.now }
    requires plan { IsPlanFor intake.now (packet_of packet.now) plan.now }
    ensures only_memory { IsOkUnless result EndError.NoMemory }
    ensures frames { IfOk result (λ r. map seen r.frames.items
        ≡ limits.reply_frames (effect intake.now.state (packet_of packet.now) plan.now.amount) (frames_of (packet_of packet.now))) }
    ensures text { IfOk result (λ r. r.bytes.items ≡ fulfill_text keys.now (prepare_seen prepare.now) (packet_of packet.now) intake.now.state plan.now.amount) }
    ensures peer { IfOk result (λ r. (peer : List ℕ) → text_or peer r.peer ≡ receiving.new_peer peer (frames_of (packet_of packet.now))) }
{
    let Ok(frames) = intake.reply_frames(packet, Some(plan)) else {
        return Err(EndError::NoMemory);
    };
    let payload = reply_payload(alloc, keys, PacketKind::Fulfill, prepare, packet, &frames)?;
    let bytes = fulfill_bytes(alloc, preimage, &payload)?;
    let peer = match last_address(packet.frames.again()) {
        Some(address) => Some(String::from_str(alloc, address)?),
        None => None,
    };
    Ok(Reply {
        bytes,
        frames,
        peer,
    })
}

/// What became of a packet.
#[derive(Drop)]
enum Judged<A: Allocator + Copy> {
    /// It breaks a rule, whose reason has this number.
    Rejected(u8),
    /// It took effect: its Fulfill, and the peer's new address, if it has one.
    Taken(Vec<u8, A>, Option<String<A>>),
}

/// Judges a packet, and makes it take effect if it breaks no rule. Its Fulfill has this fulfillment. All memory is allocated
/// before anything changes.
fn judge_packet<A: Allocator + Copy>(
    alloc: A,
    keys: &Keys,
    outbox: &mut Outbox<A>,
    intake: &mut Intake<A>,
    prepare: &Prepare<'_>,
    packet: &StreamPacket<'_>,
    preimage: [u8; 32],
) -> Result<Judged<A>, EndError>
    requires preimage { preimage ≡ fulfillment keys.now prepare.now.payload.now }
    requires long { 12 ≤ length prepare.now.payload.now }
    ensures only_memory { IsOkUnless result EndError.NoMemory }
    ensures judged { IfOk result (λ j. IsJudged keys.now (prepare_seen prepare.now) (packet_of packet.now)
        outbox.old intake.old.state outbox.new intake.new.state j) }
    ensures unchanged { OnErr result ((outbox.new ≡ outbox.old) × (intake.new.state ≡ intake.old.state)) }
{
    match intake.judge(packet, prepare.amount) {
        Decision::Reject { code: _, reason } => {
            if reason == Reason::NoMemory {
                return Err(EndError::NoMemory);
            }
            Ok(Judged::Rejected(reason.number()))
        }
        Decision::Fulfill(plan) => {
            let reply = fulfill_reply(alloc, keys, intake, prepare, packet, preimage, &plan)?;
            let Reply {
                bytes,
                frames,
                peer,
            } = reply;
            take_effect(outbox, intake, packet, plan, &frames);
            Ok(Judged::Taken(bytes, peer))
        }
    }
}

/// The peer's new address, if it has one.
fn take_peer<A: Allocator + Copy>(peer: &mut String<A>, new: Option<String<A>>)
    ensures { string_bytes peer.new ≡ text_or (string_bytes peer.old) new }
{
    let Some(new) = new else {
        return;
    };
    *peer = new;
}

impl<A: Allocator + Copy> EndState<A> {
    /// The answer to a Prepare whose payload was not read.
    fn unread(
        &self,
        code: ErrorCode,
        reason: u8,
        prepare: &Prepare<'_>,
    ) -> Result<Received<A>, EndError>
        ensures only_memory { IsOkUnless result EndError.NoMemory }
        ensures answers { IfOk result (λ r. received_as self.now (prepare_seen prepare.now) (Unread code reason) ≡ (received_seen r, self.now)) }
    {
        Ok(Received {
            bytes: reject_bytes(self.alloc, code, self.own.as_str(), &[])?,
            reason,
            amount: prepare.amount,
            sequence: None,
        })
    }

    /// Rejects a packet that opened: its limits alone are applied.
    fn reject(
        &mut self,
        prepare: &Prepare<'_>,
        packet: &StreamPacket<'_>,
        reason: u8,
    ) -> Result<Received<A>, EndError>
        requires { 12 ≤ length prepare.now.payload.now }
        ensures only_memory { IsOkUnless result EndError.NoMemory }
        ensures answers { IfOk result (λ r. received_as self.old (prepare_seen prepare.now) (Rejects (packet_of packet.now) reason)
            ≡ (received_seen r, self.new)) }
        ensures unchanged { OnErr result (self.new ≡ self.old) }
    {
        let Ok(frames) = self.intake.reply_frames(packet, None) else {
            return Err(EndError::NoMemory);
        };
        let payload = reply_payload(
            self.alloc,
            &self.keys,
            PacketKind::Reject,
            prepare,
            packet,
            &frames,
        )?;
        let bytes = reject_bytes(
            self.alloc,
            ErrorCode::APPLICATION_ERROR,
            self.own.as_str(),
            &payload,
        )?;
        raise_all(&mut self.outbox, packet.frames.again());
        Ok(Received {
            bytes,
            reason,
            amount: prepare.amount,
            sequence: Some(packet.sequence),
        })
    }

    /// Fulfills or rejects a packet that opened. The fulfillment is `preimage`; `fits` says whether it fits the condition.
    fn receive_packet(
        &mut self,
        prepare: &Prepare<'_>,
        packet: &StreamPacket<'_>,
        preimage: [u8; 32],
        fits: bool,
    ) -> Result<Received<A>, EndError>
        requires long { 12 ≤ length prepare.now.payload.now }
        requires preimage { preimage ≡ fulfillment self.old.keys prepare.now.payload.now }
        requires fits { fits ≡ is_own_condition self.old (prepare_seen prepare.now) }
        ensures only_memory { IsOkUnless result EndError.NoMemory }
        ensures answers { IfOk result (λ r. received_opened self.old (prepare_seen prepare.now) (Ok (packet_of packet.now)) ≡ (received_seen r, self.new)) }
        ensures unchanged { OnErr result (self.new ≡ self.old) }
    {
        if !fits {
            return self.reject(prepare, packet, 55);
        }
        let judged = judge_packet(
            self.alloc,
            &self.keys,
            &mut self.outbox,
            &mut self.intake,
            prepare,
            packet,
            preimage,
        )?;
        match judged {
            Judged::Rejected(reason) => self.reject(prepare, packet, reason),
            Judged::Taken(bytes, peer) => {
                take_peer(&mut self.peer, peer);
                Ok(Received {
                    bytes,
                    reason: 0,
                    amount: prepare.amount,
                    sequence: Some(packet.sequence),
                })
            }
        }
    }

    /// Judges the packet of a payload that was opened.
    #[tactic(auto, unfolding(st_keys::specs::Sealed::opened))]
    fn receive_payload(
        &mut self,
        prepare: &Prepare<'_>,
        payload: &Payload<A>,
    ) -> Result<Received<A>, EndError>
        requires { IsPayloadOf self.old.keys (prepare_seen prepare.now) payload.now }
        ensures only_memory { IsOkUnless result EndError.NoMemory }
        ensures answers { IfOk result (λ r. received_opened self.old (prepare_seen prepare.now) (opened self.old.keys prepare_kind prepare.now.payload.now)
            ≡ (received_seen r, self.new)) }
        ensures unchanged { OnErr result (self.new ≡ self.old) }
    {
        match payload {
            Payload::Closed => Err(EndError::NoMemory),
            Payload::Unopened(fault) => self.unread(code_unopened(*fault), fault.number(), prepare),
            Payload::Plain {
                text,
                preimage,
                fits,
            } => match read_plain(text) {
                Err(fault) => self.unread(code_unopened(fault), fault.number(), prepare),
                Ok(packet) => self.receive_packet(prepare, &packet, *preimage, *fits),
            },
        }
    }

    /// The answer to a Prepare whose payload was opened, by the first rule that applies.
    fn receive_prepare(
        &mut self,
        prepare: &Prepare<'_>,
        payload: &Payload<A>,
        now: Moment,
    ) -> Result<Received<A>, EndError>
        requires { IsPayloadOf self.old.keys (prepare_seen prepare.now) payload.now }
        ensures only_memory { IsOkUnless result EndError.NoMemory }
        ensures answers { IfOk result (λ r. received_as self.old (prepare_seen prepare.now) (verdict_on self.old now (Ok (prepare_seen prepare.now)))
            ≡ (received_seen r, self.new)) }
        ensures unchanged { OnErr result (self.new ≡ self.old) }
    {
        if !is_within(self.own.as_str(), prepare.destination) {
            return self.unread(ErrorCode::UNREACHABLE, 56, prepare);
        }
        if prepare.expiry <= now.ms() {
            return self.unread(ErrorCode::TRANSFER_TIMED_OUT, 57, prepare);
        }
        self.receive_payload(prepare, payload)
    }

    /// Handles bytes that arrived at this end, at the moment `now`, and gives the Fulfill or Reject that answers them
    /// (RFC 0027, RFC 0029). A Prepare that breaks no rule is fulfilled: its data are applied first, then its money, then
    /// its closes. The limits in a packet that decrypts are applied even if the Prepare is rejected. Those of a stream that
    /// the packet opens are applied if it is fulfilled.
    ///
    /// `reason` is 0 if the Prepare was fulfilled. Otherwise it is the number of the first rule that applies. 10 to
    /// 17: the bytes are not a Prepare. 56: it has another destination. 57: it expired. 30 to 32: its payload does not
    /// decrypt to a packet. 55: its condition is not that of the payload. 60 to 66: a `Reason` of `st_receiver`.
    ///
    /// The payload is opened first and judged then, as `Opened::of` and `receive_opened` do for threads. If memory to open
    /// it is refused, a Prepare that has another destination or expired is answered all the same.
    ///
    /// Fails with `NoMemory` alone, if memory is refused. Nothing has changed then, and the caller may answer with
    /// `t00`.
    #[tactic(auto, using(crate::proofs::Taking::received_read, crate::proofs::Taking::received_unread))]
    pub fn receive(&mut self, bytes: &[u8], now: Moment) -> Result<Received<A>, EndError>
        ensures only_memory { IsOkUnless result EndError.NoMemory }
        ensures answers { IfOk result (λ r. received self.old bytes.now now ≡ (received_seen r, self.new)) }
        ensures unchanged { OnErr result (self.new ≡ self.old) }
    {
        let prepare = match read_prepare(bytes) {
            Ok(prepare) => prepare,
            Err(fault) => return self.unreadable(fault.number()),
        };
        let payload = Payload::of(self.alloc, &self.keys, &prepare);
        self.receive_prepare(&prepare, &payload, now)
    }

    /// The second half of `receive`: handles bytes that `Opened::of` opened with this end's keys, at the moment `now`, and
    /// gives the answer that `receive` gives to them. The bytes are read once more, and neither hashed nor decrypted.
    ///
    /// Fails with `NoMemory` alone: if memory is refused, or was refused to `Opened::of` and no rule before the payload's
    /// applies. Nothing has changed then, and the caller may answer with `t00`.
    #[tactic(auto, using(crate::proofs::Taking::received_read, crate::proofs::Taking::received_unread))]
    pub fn receive_opened(
        &mut self,
        opened: &Opened<A>,
        now: Moment,
    ) -> Result<Received<A>, EndError>
        requires { IsOpenedBy self.old.keys opened.now.bytes.items opened.now }
        ensures only_memory { IsOkUnless result EndError.NoMemory }
        ensures answers { IfOk result (λ r. received self.old opened.now.bytes.items now ≡ (received_seen r, self.new)) }
        ensures unchanged { OnErr result (self.new ≡ self.old) }
    {
        match read_prepare(&opened.bytes) {
            Ok(prepare) => self.receive_prepare(&prepare, &opened.payload, now),
            Err(fault) => self.unreadable(fault.number()),
        }
    }

    /// The answer to bytes that are not a Prepare.
    fn unreadable(&self, reason: u8) -> Result<Received<A>, EndError>
        ensures only_memory { IsOkUnless result EndError.NoMemory }
        ensures answers { IfOk result (λ r. received_as self.now no_prepare (Unread f01 reason) ≡ (received_seen r, self.now)) }
    {
        Ok(Received {
            bytes: reject_bytes(
                self.alloc,
                ErrorCode::INVALID_PACKET,
                self.own.as_str(),
                &[],
            )?,
            reason,
            amount: 0,
            sequence: None,
        })
    }
}
