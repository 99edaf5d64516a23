//! What a fulfilled packet changes at the sending side.

ghost use Rattle.std.specs.Prelude.{◌≡◌, ◌∷◌, [], ℕ, List, map};
ghost use Rattle.st_frames.specs.Frames.{frame_of};
ghost use Rattle.st_frames.specs.Packets.{packet_of};
ghost use Rattle.st_frames.specs.Seen.{seen};
ghost use Rattle.st_receiver.specs.Judged.{effect};
ghost use Rattle.st_receiver.specs.Decided.{IsPlanFor};
ghost use Rattle.st_end.specs.Receiving as receiving;
ghost use Rattle.st_end.specs.Seen.{address_or};
ghost use Rattle.st_end.specs.Inside.{taken_with};

use crate::back::raise_all;
use st_frames::{Frame, Frames, StreamPacket};
use st_oer::is_address;
use st_receiver::{Intake, Plan};
use st_sender::Outbox;
use st_streams::StreamId;
use std::alloc::Allocator;

/// A stream that is open for receiving opens for sending, if it was not open.
fn open_one<A: Allocator + Copy>(outbox: &mut Outbox<A>, intake: &Intake<A>, stream: StreamId)
    ensures { outbox.new ≡ receiving.opened_at intake.now.state outbox.old stream }
{
    if intake.has_stream(stream) && !outbox.has_stream(stream) {
        outbox.add_stream(stream);
    }
}

/// And so each stream.
#[tactic(auto, using(crate::proofs::Opening::from_first, crate::proofs::Opening::next_opened, crate::proofs::Opening::all_opened))]
pub(crate) fn open_too<A: Allocator + Copy>(outbox: &mut Outbox<A>, intake: &Intake<A>)
    ensures { outbox.new ≡ receiving.opened_too intake.now.state outbox.old }
{
    for i in 0..64_u8 {
        let stream = StreamId::new(i + 1).unwrap();
        open_one(outbox, intake, stream);
    }
}

/// Whether a frame reports the limit at which another says Blocked.
fn tells_blocked(blocked: &Frame<'_>, told: &Frame<'_>) -> bool
    ensures { result ≡ receiving.tells_blocked (seen blocked.now) (seen told.now) }
{
    match *blocked {
        Frame::ConnectionDataBlocked { .. } => match *told {
            Frame::ConnectionMaxData { .. } => true,
            _ => false,
        },
        Frame::StreamDataBlocked { stream: at, .. } => match *told {
            Frame::StreamMaxData { stream, .. } => at == stream,
            _ => false,
        },
        Frame::StreamMoneyBlocked { stream: at, .. } => match *told {
            Frame::StreamMaxMoney { stream, .. } => at == stream,
            _ => false,
        },
        _ => false,
    }
}

/// A frame marks the limit that it reports, if another says Blocked at it.
fn mark_if<A: Allocator + Copy>(outbox: &mut Outbox<A>, blocked: &Frame<'_>, told: &Frame<'_>)
    ensures { outbox.new ≡ receiving.marked_if outbox.old (receiving.tells_blocked (seen blocked.now) (seen told.now)) (seen told.now) }
{
    if tells_blocked(blocked, told) {
        outbox.mark(told);
    }
}

/// A Blocked frame marks its limit at the value that the reply reports.
fn mark<A: Allocator + Copy>(outbox: &mut Outbox<A>, reply: &[Frame<'_>], blocked: &Frame<'_>)
    ensures { outbox.new ≡ receiving.marked (map seen reply.now) outbox.old (seen blocked.now) }
{
    for told in reply {
        mark_if(outbox, blocked, told);
    }
}

/// And so each frame of the request.
pub(crate) fn mark_all<A: Allocator + Copy>(
    outbox: &mut Outbox<A>,
    reply: &[Frame<'_>],
    mut frames: Frames<'_>,
)
    ensures { outbox.new ≡ receiving.all_marked (map seen reply.now) outbox.old (map frame_of frames.entry) }
{
    while let Some((_, frame)) = frames.next() {
        mark(outbox, reply, &frame);
    }
}

/// The address in a frame, if it is a ConnectionNewAddress with a valid address. Otherwise the one before.
fn address_in<'f>(frame: Frame<'f>, before: Option<&'f str>) -> Option<&'f str>
    ensures { (peer : List ℕ) → address_or peer result ≡ receiving.new_peer (address_or peer before.entry) (seen frame.entry ∷ []) }
{
    match frame {
        Frame::ConnectionNewAddress { address } => {
            if is_address(address) {
                Some(address)
            } else {
                before
            }
        }
        _ => before,
    }
}

/// The last new address among frames.
pub(crate) fn last_address<'f>(mut frames: Frames<'f>) -> Option<&'f str>
    ensures { (peer : List ℕ) → address_or peer result ≡ receiving.new_peer peer (map frame_of frames.entry) }
{
    let mut last = None;
    while let Some((_, frame)) = frames.next() {
        last = address_in(frame, last);
    }
    last
}

/// Makes a packet take effect by the plan that was made for it, whose reply has these frames. Its streams are opened before
/// its limits are applied. Does not allocate.
pub(crate) fn take_effect<A: Allocator + Copy>(
    outbox: &mut Outbox<A>,
    intake: &mut Intake<A>,
    packet: &StreamPacket<'_>,
    plan: Plan,
    reply: &[Frame<'_>],
)
    requires plan { IsPlanFor intake.old (packet_of packet.now) plan }
    ensures received { intake.new.state ≡ effect intake.old.state (packet_of packet.now) plan.amount }
    ensures sends { outbox.new ≡ taken_with (map seen reply.now)
        outbox.old (effect intake.old.state (packet_of packet.now) plan.amount) (packet_of packet.now) }
{
    intake.commit(packet, plan);
    open_too(outbox, intake);
    raise_all(outbox, packet.frames.again());
    mark_all(outbox, reply, packet.frames.again());
}
