//! Encrypted packets.

ghost use Rattle.std.specs.Prelude.{◌≡◌, ◌≤◌, ◌++◌, length, take, drop, Ok, OnOk, OnErr, IfOk, map};
ghost use Rattle.st_frames.specs.Kinds.{kind_number};
ghost use Rattle.st_frames.specs.Packets.{packet_of};
ghost use Rattle.st_frames.specs.Seen.{seen};
ghost use Rattle.st_frames.specs.Written.{AllFit, written, packet_with};
ghost use Rattle.st_keys.specs.Sealed.{packet_in, iv_of, tag_of, ciphertext_of, sealed, sealed_packet, unsealed, opened};
ghost use Rattle.st_oer.specs.Seen.{Gives, Writes};

use crate::error::KeyError;
use crate::keys::Keys;
use st_frames::{Frame, FrameError, PacketKind, StreamPacket, packet_len, put_packet, read_packet};
use std::alloc::Allocator;

/// The bytes that a payload has in addition to those of its plain packet: an IV of 12 and a tag of 16.
pub const OVERHEAD: usize = 28;

fn iv_of(payload: &[u8]) -> [u8; 12]
    requires { OVERHEAD ≤ length payload.now }
    ensures { result ≡ iv_of payload.now }
{
    let mut iv = [0u8; 12];
    iv.copy_from_slice(&payload[..12]);
    iv
}

fn tag_of(payload: &[u8]) -> [u8; 16]
    requires { OVERHEAD ≤ length payload.now }
    ensures { result ≡ tag_of payload.now }
{
    let mut tag = [0u8; 16];
    tag.copy_from_slice(&payload[12..OVERHEAD]);
    tag
}

/// A payload that is not sealed yet (RFC 0029): room for an IV and a tag, of `OVERHEAD` bytes, and then the packet.
/// `Keys::seal_payload` seals it. Its memory is requested once, and no other.
///
/// Fails with `FrameFormat`, `TooLong` and `NoMemory`, as `Keys::seal_packet` does.
#[tactic(auto, using(crate::proofs::Written::size_found))]
pub fn plain_payload<A: Allocator>(
    alloc: A,
    kind: PacketKind,
    sequence: u64,
    amount: u64,
    frames: &[Frame<'_>],
) -> Result<Vec<u8, A>, FrameError>
    ensures written { Writes FrameError.NoMemory (λ payload. ciphertext_of payload.items) result (written (kind_number kind) sequence amount (map seen frames.now)) }
    ensures fits { OnOk result (AllFit (map seen frames.now)) }
    ensures long { IfOk result (λ payload. OVERHEAD ≤ length payload.items) }
{
    let length = packet_len(sequence, amount, frames)?;
    let mut payload = Vec::with_capacity(alloc, OVERHEAD + length)?;
    payload.resize(OVERHEAD, 0)?;
    put_packet(&mut payload, kind, sequence, amount, frames)?;
    Ok(payload)
}

/// Reads the packet that follows the first `OVERHEAD` bytes of a payload.
fn packet_behind(payload: &[u8], kind: PacketKind) -> Result<StreamPacket<'_>, KeyError>
    requires long { OVERHEAD ≤ length payload.now }
    ensures { Gives packet_of result (packet_in (kind_number kind) (Ok (ciphertext_of payload.now))) }
{
    match read_packet(&payload[OVERHEAD..], kind) {
        Ok(packet) => Ok(packet),
        Err(fault) => Err(KeyError::Packet(fault)),
    }
}

impl Keys {
    /// Encrypts one packet: the payload is the IV, the tag, and the ciphertext of the packet's encoding (RFC 0029).
    ///
    /// `kind` is the kind of the ILP packet that carries it. The memory of the payload is requested once, and no other.
    /// No two packets of a connection may have the same IV: the caller has to see to that.
    ///
    /// Fails with `Packet` if the packet cannot be written: `FrameFormat` for the first frame with a malformed
    /// address, then `TooLong` above `MAX_PACKET` bytes. Then with `NoMemory`.
    #[tactic(auto, unfolding(crate::specs::Sealed::sealed_packet))]
    pub fn seal_packet<A: Allocator>(
        &self,
        alloc: A,
        iv: [u8; 12],
        kind: PacketKind,
        sequence: u64,
        amount: u64,
        frames: &[Frame<'_>],
    ) -> Result<Vec<u8, A>, KeyError>
        ensures exact { Writes KeyError.NoMemory (λ payload. payload.items) result (sealed_packet self.now iv (kind_number kind) sequence amount (map seen frames.now)) }
        ensures fits { OnOk result (AllFit (map seen frames.now)) }
        ensures opens { IfOk result (λ payload. opened self.now (kind_number kind) payload.items ≡ Ok (packet_with (kind_number kind) sequence amount (map seen frames.now))) }
    {
        let mut payload = plain_payload(alloc, kind, sequence, amount, frames)?;
        self.seal_payload(iv, &mut payload);
        Ok(payload)
    }

    /// Encrypts a payload in place: its bytes from `OVERHEAD` on are the plain text. IV and tag are written in front of
    /// it. No two texts may be sealed under the same IV. Does not allocate.
    #[tactic(auto, unfolding(crate::specs::Sealed::sealed, crate::specs::Sealed::payload_of), using(std::proofs::Common::append_assoc))]
    pub fn seal_payload(&self, iv: [u8; 12], payload: &mut [u8])
        requires { OVERHEAD ≤ length payload.old }
        ensures { payload.new ≡ sealed self.now iv (ciphertext_of payload.old) }
    {
        let (front, text) = payload.split_at_mut(OVERHEAD);
        let (iv_place, tag_place) = front.split_at_mut(12);
        iv_place.copy_from_slice(&iv);
        tag_place.copy_from_slice(&self.seal_text(iv, text));
    }

    /// Decrypts a payload in place: afterwards its bytes from `OVERHEAD` on are the plain text. Does not allocate.
    ///
    /// Fails with `Short` if the payload has fewer bytes than `OVERHEAD`, and then with `Tag` if its tag does not
    /// match its ciphertext. A call that fails leaves the payload as it was.
    #[tactic(auto, unfolding(crate::specs::Sealed::unsealed))]
    pub fn unseal_payload(&self, payload: &mut [u8]) -> Result<(), KeyError>
        ensures exact { Gives (λ _. ciphertext_of payload.new) result (unsealed self.now payload.old) }
        ensures long { OnOk result (OVERHEAD ≤ length payload.old) }
        ensures front { OnOk result (take OVERHEAD payload.new ≡ take OVERHEAD payload.old) }
        ensures unchanged { OnErr result (payload.new ≡ payload.old) }
    {
        if payload.len() < OVERHEAD {
            return Err(KeyError::Short);
        }
        let iv = iv_of(payload);
        let tag = tag_of(payload);
        if !self.unseal_text(iv, tag, &mut payload[OVERHEAD..]) {
            return Err(KeyError::Tag);
        }
        Ok(())
    }

    /// Decrypts a payload in place and reads the packet in it (RFC 0029): `unseal_payload`, then `read_packet` from
    /// byte `OVERHEAD` on. Does not allocate.
    ///
    /// Fails in this order: `Short` if the payload has fewer bytes than `OVERHEAD`; `Tag` if its tag does not
    /// match its ciphertext; `Packet` if the plain text is not a packet of this kind. After `Short` and `Tag` the
    /// payload is as it was, after `Packet` it is decrypted. No clause says what the bytes are afterwards: a caller
    /// whose proof needs them makes the two calls.
    #[tactic(auto, unfolding(crate::specs::Sealed::opened))]
    pub fn open_packet<'a>(
        &self,
        payload: &'a mut [u8],
        kind: PacketKind,
    ) -> Result<StreamPacket<'a>, KeyError>
        ensures exact { Gives packet_of result (opened self.now (kind_number kind) payload.old) }
    {
        self.unseal_payload(payload)?;
        packet_behind(payload, kind)
    }
}
