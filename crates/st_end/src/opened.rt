//! A Prepare whose payload was hashed and opened before an end judges it.

ghost use Rattle.std.specs.Prelude.{◌≤◌, length, Ok};
ghost use Rattle.st_oer.specs.Seen.{Gives};
ghost use Rattle.st_ilp.specs.Seen.{prepare_seen};
ghost use Rattle.st_ilp.specs.Spelling.{prepare_kind};
ghost use Rattle.st_frames.specs.Packets.{packet_of};
ghost use Rattle.st_keys.specs.Sealed.{ciphertext_of, packet_in};
ghost use Rattle.st_end.specs.Opened.{IsPayloadOf, IsOpenedBy};

use st_frames::{PacketKind, StreamPacket, read_packet};
use st_ilp::{Prepare, read_prepare};
use st_keys::{KeyError, Keys, OVERHEAD, condition};
use std::alloc::Allocator;

/// The result of opening a Prepare's payload.
#[derive(Drop)]
pub(crate) enum Payload<A: Allocator + Copy> {
    /// Memory for its text was refused, or there is no Prepare.
    Closed,
    /// It has no room for IV and tag, or its tag is wrong.
    Unopened(KeyError),
    /// It opened.
    Plain {
        /// The IV, the tag and the plain text.
        text: Vec<u8, A>,
        /// The fulfillment of the payload as it was sent.
        preimage: [u8; 32],
        /// Whether the SHA-256 of the fulfillment is the Prepare's condition.
        fits: bool,
    },
}

impl<A: Allocator + Copy> Payload<A> {
    /// Opens a copy of a Prepare's payload. The payload is hashed once, for the condition and the Fulfill.
    pub(crate) fn of(alloc: A, keys: &Keys, prepare: &Prepare<'_>) -> Payload<A>
        ensures { IsPayloadOf keys.now (prepare_seen prepare.now) result }
    {
        let Ok(mut text) = Vec::from_slice(alloc, prepare.payload) else {
            return Payload::Closed;
        };
        if let Err(fault) = keys.unseal_payload(&mut text) {
            return Payload::Unopened(fault);
        }
        let preimage = keys.fulfillment(prepare.payload);
        Payload::Plain {
            text,
            preimage,
            fits: condition(preimage) == prepare.condition,
        }
    }
}

/// Reads the packet in a payload that opened.
pub(crate) fn read_plain(text: &[u8]) -> Result<StreamPacket<'_>, KeyError>
    requires { OVERHEAD ≤ length text.now }
    ensures { Gives packet_of result (packet_in prepare_kind (Ok (ciphertext_of text.now))) }
{
    match read_packet(&text[OVERHEAD..], PacketKind::Prepare) {
        Ok(packet) => Ok(packet),
        Err(fault) => Err(KeyError::Packet(fault)),
    }
}

/// Bytes that arrived, with their payload opened: the first half of `EndState::receive`. It takes the keys alone, so any
/// thread that has them can do it. `EndState::receive_opened` is the second half.
#[derive(Drop)]
pub struct Opened<A: Allocator + Copy> {
    /// The bytes as they arrived.
    pub bytes: Vec<u8, A>,
    pub(crate) payload: Payload<A>,
}

impl<A: Allocator + Copy> Opened<A> {
    /// Reads a Prepare (RFC 0027), hashes its payload, compares the condition, and decrypts a copy of the payload
    /// (RFC 0029). Bytes that are not a Prepare, and a payload that does not decrypt, are kept as such.
    ///
    /// Does not fail. That memory for the copy was refused is kept too: `receive_opened` then answers what it can answer
    /// without the copy, and fails with `NoMemory` otherwise.
    pub fn of(alloc: A, keys: &Keys, bytes: Vec<u8, A>) -> Opened<A>
        ensures { IsOpenedBy keys.now bytes.items result }
    {
        let payload = match read_prepare(&bytes) {
            Ok(prepare) => Payload::of(alloc, keys, &prepare),
            Err(_) => Payload::Closed,
        };
        Opened { bytes, payload }
    }
}
