//! Writing STREAM packets: the one encoding of each.

ghost use Rattle.std.specs.Prelude.{◌≡◌, ◌<◌, ◌≤◌, ◌+◌, ◌++◌, ◌^◌, map, length, vec_len, vec_capacity, None, OnOk, OnErr, IfOk, IsOk, false};
ghost use Rattle.std.specs.List.{position};
ghost use Rattle.st_oer.specs.Seen.{Writes};
ghost use Rattle.st_frames.specs.Kinds.{kind_number};
ghost use Rattle.st_frames.specs.Seen.{seen};
ghost use Rattle.st_frames.specs.Written as specs;

use crate::error::FrameError;
use crate::frame::Frame;
use crate::kind::PacketKind;
use crate::length::{contents_len, packet_len};
use crate::packet::VERSION;
use crate::table::layout;
use st_oer::{put_length, put_u8, put_var_uint};
use std::alloc::Allocator;

/// Appends a frame's contents to a vector that has room for them.
#[tactic(auto, using(crate::proofs::Puts::puts, crate::proofs::Puts::lengths))]
fn append_contents<A: Allocator>(out: &mut Vec<u8, A>, frame: Frame<'_>)
    requires room { vec_len out.old + length (specs.contents_text (seen frame)) ≤ vec_capacity out.old }
    ensures text { out.new.items ≡ out.old.items ++ specs.contents_text (seen frame.entry) }
    ensures fits { specs.is_unwritable (seen frame.entry) ≡ false → specs.KnownFits (seen frame.entry) }
    ensures capacity { vec_capacity out.old ≤ vec_capacity out.new }
{
    let (_, [first, second, third]) = layout(frame);
    first.append(out);
    second.append(out);
    third.append(out);
}

/// Appends a frame, its type and its contents as an octet string, to a vector that has room for it.
#[tactic(auto, unfolding(crate::specs::Written::frame_text), using(crate::proofs::Puts::puts, crate::proofs::Puts::lengths))]
fn append_frame<A: Allocator>(out: &mut Vec<u8, A>, frame: Frame<'_>)
    requires short { length (specs.contents_text (seen frame)) < 2 ^ 64 }
    requires room { vec_len out.old + length (specs.frame_text (seen frame)) ≤ vec_capacity out.old }
    ensures text { out.new.items ≡ out.old.items ++ specs.frame_text (seen frame.entry) }
    ensures fits { specs.is_unwritable (seen frame.entry) ≡ false → specs.KnownFits (seen frame.entry) }
    ensures capacity { vec_capacity out.old ≤ vec_capacity out.new }
{
    let (kind, _) = layout(frame);
    put_u8(out, kind).unwrap();
    put_length(out, contents_len(frame) as u64).unwrap();
    append_contents(out, frame);
}

/// Appends frames one after another to a vector that has room for them.
#[tactic(auto, using(crate::proofs::Puts::puts, crate::proofs::Puts::lengths))]
fn append_frames<A: Allocator>(out: &mut Vec<u8, A>, frames: &[Frame<'_>])
    requires short { length (specs.frames_text (map seen frames.now)) < 2 ^ 64 }
    requires writable { position (λ f. specs.is_unwritable (seen f)) frames.now ≡ None }
    requires room { vec_len out.old + length (specs.frames_text (map seen frames.now)) ≤ vec_capacity out.old }
    ensures text { out.new.items ≡ out.old.items ++ specs.frames_text (map seen frames.now) }
    ensures fits { specs.AllFit (map seen frames.now) }
    ensures capacity { vec_capacity out.old ≤ vec_capacity out.new }
{
    for frame in frames {
        append_frame(out, *frame);
    }
}

/// Appends a packet to a vector that has room for it.
#[tactic(auto, unfolding(crate::specs::Written::packet_text), using(crate::proofs::Puts::puts, crate::proofs::Puts::lengths))]
fn append_packet<A: Allocator>(
    out: &mut Vec<u8, A>,
    kind: PacketKind,
    sequence: u64,
    amount: u64,
    frames: &[Frame<'_>],
)
    requires short { length (specs.frames_text (map seen frames.now)) < 2 ^ 64 }
    requires writable { position (λ f. specs.is_unwritable (seen f)) frames.now ≡ None }
    requires room { vec_len out.old + specs.packet_length sequence amount (map seen frames.now) ≤ vec_capacity out.old }
    ensures text { out.new.items ≡ out.old.items ++ specs.packet_text (kind_number kind) sequence amount (map seen frames.now) }
    ensures fits { specs.AllFit (map seen frames.now) }
    ensures capacity { vec_capacity out.old ≤ vec_capacity out.new }
{
    put_u8(out, VERSION).unwrap();
    put_u8(out, kind.number()).unwrap();
    put_var_uint(out, sequence).unwrap();
    put_var_uint(out, amount).unwrap();
    put_var_uint(out, frames.len() as u64).unwrap();
    append_frames(out, frames);
}

/// Appends a plain packet (RFC 0029, section 5.2) for an ILP packet of kind `kind`. It has the shortest lengths and
/// numbers, and nothing after the last frame.
///
/// All memory is requested at once, before the first byte is written, and none where `out` has `packet_len` bytes of
/// free capacity.
///
/// Fails with `FrameFormat` for the first frame whose address is neither empty nor an ILP address, then with `TooLong`
/// above `MAX_PACKET` bytes, and then with `NoMemory`. `out` then keeps the bytes that it had.
#[tactic(auto, unfolding(crate::specs::Written::written), using(crate::proofs::Puts::sized))]
pub fn put_packet<A: Allocator>(
    out: &mut Vec<u8, A>,
    kind: PacketKind,
    sequence: u64,
    amount: u64,
    frames: &[Frame<'_>],
) -> Result<(), FrameError>
    ensures text { OnOk result (out.new.items ≡ out.old.items ++ specs.packet_text (kind_number kind) sequence amount (map seen frames.now)) }
    ensures unchanged { OnErr result (out.new.items ≡ out.old.items) }
    ensures written { specs.WritesPacket (kind_number kind) sequence amount (map seen frames.now) result }
    ensures fits { OnOk result (specs.AllFit (map seen frames.now)) }
    ensures room { IfOk (specs.packet_size (kind_number kind) sequence amount (map seen frames.now)) (λ n. vec_len out.old + n ≤ vec_capacity out.old → IsOk result) }
    ensures capacity { vec_capacity out.old ≤ vec_capacity out.new }
{
    out.reserve(packet_len(sequence, amount, frames)?)?;
    append_packet(out, kind, sequence, amount, frames);
    Ok(())
}

/// Writes a plain packet (RFC 0029, section 5.2) for an ILP packet of kind `kind` into a new vector. It has the
/// shortest lengths and numbers, and nothing after the last frame.
///
/// Fails with `FrameFormat` for the first frame whose address is neither empty nor an ILP address, then with `TooLong`
/// above `MAX_PACKET` bytes, and then with `NoMemory`.
pub fn write_packet<A: Allocator>(
    alloc: A,
    kind: PacketKind,
    sequence: u64,
    amount: u64,
    frames: &[Frame<'_>],
) -> Result<Vec<u8, A>, FrameError>
    ensures written { Writes FrameError.NoMemory (λ out. out.items) result (specs.written (kind_number kind) sequence amount (map seen frames.now)) }
    ensures fits { IfOk result (λ _. specs.AllFit (map seen frames.now)) }
{
    let mut out = Vec::new(alloc);
    put_packet(&mut out, kind, sequence, amount, frames)?;
    Ok(out)
}
