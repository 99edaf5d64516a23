//! Calls on a plain STREAM packet (RFC 0029), whose frames are added and read one by one.

ghost use Rattle.std.specs.Prelude.{◌≡◌, true, false, MatchOption, MatchResult};
ghost use Rattle.st_frames.specs.Kinds.{kind_number, is_kind};
ghost use Rattle.host_objects.specs.Packets.{IsReadPacket};
ghost use Rattle.ilpstream_c.specs.Frames as frames;
ghost use Rattle.ilpstream_c.specs.Packets.{OnPacket, IsPacketMade, IsPacketRead, RefusesToRead, Heads, Pushes, Shows, Puts, OnPacketWith};

use crate::frame::{HostFrame, byte, data_of, fields_of, frame_given};
use crate::handle::{is_empty, put_new};
use host_objects::{ARGUMENT, DONE, Handle, HostPacket, MISUSE, Object, PacketKind};
use st_frames::FrameError;
use std::alloc::Global;

/// What is done with the packet of a handle. A handle of anything else is refused.
macro_rules! on_packet {
    ($alloc:ident, $handle:ident, $packet:ident => $body:expr) => {{
        let Some(mut object) = $handle.take($alloc) else {
            return MISUSE;
        };
        let code = match &mut *object {
            Object::Packet($packet) => $body,
            _ => MISUSE,
        };
        $handle.put(object);
        code
    }};
}

/// The numbers of a packet, and how many known frames it has.
#[repr(C)]
#[derive(Clone, Copy, Debug, Drop)]
pub struct HostHeader {
    pub sequence: u64,
    pub amount: u64,
    pub frames: usize,
    pub kind: u32,
}

/// The kind of this number: 12, 13 or 14. `None` for every other number.
fn kind_of(number: u32) -> Option<PacketKind>
    ensures { MatchOption result (is_kind number ≡ false) (λ kind. (is_kind number ≡ true) × (kind_number kind ≡ number)) }
{
    PacketKind::of(byte(number)?)
}

/// Makes a packet without frames in an empty handle. `kind` is that of the ILP packet that carries it: 12, 13 or 14.
///
/// `MISUSE` if the handle is not empty; `ARGUMENT` for another kind; 25 if memory is refused.
#[unsafe(no_mangle)]
pub extern "C" fn ilp_packet_new(
    alloc: Global,
    handle: &mut Handle,
    kind: u32,
    sequence: u64,
    amount: u64,
) -> u32
    ensures { IsPacketMade kind sequence amount handle.old.state handle.new.state result }
{
    if !is_empty(alloc, handle) {
        return MISUSE;
    }
    let no_memory = u32::from(FrameError::NoMemory.number());
    match kind_of(kind) {
        Some(kind) => {
            let packet = HostPacket::new(alloc, kind, sequence, amount);
            put_new(alloc, handle, Object::Packet(packet), no_memory)
        }
        None => ARGUMENT,
    }
}

/// The packet that bytes are, which an ILP packet of this kind carried.
fn read(alloc: Global, kind: u32, bytes: &[u8]) -> Result<HostPacket, u32>
    ensures { MatchResult result (λ p. (is_kind kind ≡ true) × IsReadPacket kind bytes.now p) (λ code. RefusesToRead kind bytes.now code) }
{
    let Some(kind) = kind_of(kind) else {
        return Err(ARGUMENT);
    };
    match HostPacket::read(alloc, kind, bytes) {
        Ok(packet) => Ok(packet),
        Err(error) => Err(u32::from(error.number())),
    }
}

/// Reads all of the bytes as a plain packet that an ILP packet of this kind carried, and makes it in an empty handle. Frames of
/// unknown types are skipped.
///
/// `MISUSE` if the handle is not empty; `ARGUMENT` if the kind is not 12, 13 or 14; the number of the first fault: 20 to 24; 25
/// if memory is refused.
#[unsafe(no_mangle)]
pub extern "C" fn ilp_packet_read(
    alloc: Global,
    handle: &mut Handle,
    kind: u32,
    bytes: &[u8],
) -> u32
    ensures { IsPacketRead kind bytes.now handle.old.state handle.new.state result }
{
    if !is_empty(alloc, handle) {
        return MISUSE;
    }
    let no_memory = u32::from(FrameError::NoMemory.number());
    match read(alloc, kind, bytes) {
        Ok(packet) => put_new(alloc, handle, Object::Packet(packet), no_memory),
        Err(code) => code,
    }
}

/// Reports the numbers of a packet, and how many known frames it has.
#[unsafe(no_mangle)]
pub extern "C" fn ilp_packet_header(
    alloc: Global,
    handle: &mut Handle,
    header: &mut HostHeader,
) -> u32
    ensures { OnPacket handle.old.state handle.new.state result (λ old new. Heads old new result header.new) }
{
    on_packet!(alloc, handle, packet => {
        *header = HostHeader {
            sequence: packet.sequence,
            amount: packet.amount,
            frames: packet.frames.len(),
            kind: u32::from(packet.kind.number()),
        };
        DONE
    })
}

/// Adds a frame after the others.
///
/// `ARGUMENT` if the type is not known, a value is given that the type does not have, the code is above 255, or a message or an
/// address is not UTF-8; 23 if an address is neither empty nor an ILP address; 25 if memory is refused.
#[unsafe(no_mangle)]
pub extern "C" fn ilp_packet_push(
    alloc: Global,
    handle: &mut Handle,
    frame: &HostFrame,
    bytes: &[u8],
) -> u32
    ensures { OnPacketWith (frames.frame_given frame.now bytes.now) handle.old.state handle.new.state result (λ k old new. Pushes old new k result) }
{
    let Some(frame) = frame_given(frame, bytes) else {
        return ARGUMENT;
    };
    on_packet!(alloc, handle, packet => match packet.push(alloc, frame) {
        Ok(()) => DONE,
        Err(error) => u32::from(error.number()),
    })
}

/// Reports the known frame at a place, and outputs its text, address or data.
fn show(
    alloc: Global,
    packet: &mut HostPacket,
    place: usize,
    frame: &mut HostFrame,
    index: &mut u64,
    len: &mut usize,
) -> u32
    ensures { Shows packet.old packet.new place result frame.new index.new len.new }
{
    let Some((at, known)) = packet.frame(place) else {
        return ARGUMENT;
    };
    let fields = fields_of(known);
    let Ok(text) = Vec::from_slice(alloc, data_of(known)) else {
        return u32::from(FrameError::NoMemory.number());
    };
    *frame = fields;
    *index = at;
    *len = text.len();
    packet.output = text;
    DONE
}

/// Reports the known frame at a place, counted from 0, and outputs its text, address or data; `len` is how many bytes that
/// are. `index` is counted over all frames, also those of unknown types, of the packet that was read; that of a frame that was
/// added is how many known frames there were.
///
/// `ARGUMENT` if no known frame has this place; 25 if memory is refused.
#[unsafe(no_mangle)]
pub extern "C" fn ilp_packet_frame(
    alloc: Global,
    handle: &mut Handle,
    place: usize,
    frame: &mut HostFrame,
    index: &mut u64,
    len: &mut usize,
) -> u32
    ensures { OnPacket handle.old.state handle.new.state result (λ old new. Shows old new place result frame.new index.new len.new) }
{
    on_packet!(alloc, handle, packet => show(alloc, packet, place, frame, index, len))
}

/// Outputs the bytes of a packet, in the shortest encoding; `len` is how many they are. 23 if a frame has an address that is
/// neither empty nor an ILP address; 24 above 32,739 bytes; 25 if memory is refused.
#[unsafe(no_mangle)]
pub extern "C" fn ilp_packet_write(alloc: Global, handle: &mut Handle, len: &mut usize) -> u32
    ensures { OnPacket handle.old.state handle.new.state result (λ old new. Puts old new result len.new) }
{
    on_packet!(alloc, handle, packet => match packet.write(alloc) {
        Ok(()) => {
            *len = packet.output.len();
            DONE
        }
        Err(error) => u32::from(error.number()),
    })
}
