//! A Prepare whose packet is not sealed yet.

ghost use Rattle.std.specs.Prelude.{◌≡◌, ◌≤◌, ◌+◌, true, length, take, drop, ◌++◌, Ok, OnOk, IfOk, IsOkUnless};
ghost use Rattle.std.specs.Arc.{arc_value};
ghost use Rattle.st_oer.specs.Address.{is_address};
ghost use Rattle.st_ilp.specs.Laws.{IsPrepare};
ghost use Rattle.st_ilp.specs.Seen.{prepare_seen};
ghost use Rattle.st_ilp.specs.Spelling.{prepare_kind, prepare_text};
ghost use Rattle.st_frames.specs.Written.{written};
ghost use Rattle.st_keys.specs.Keys.{fulfillment, condition};
ghost use Rattle.st_keys.specs.Sealed.{ciphertext_of, sealed};
ghost use Rattle.st_end.specs.Sending.{Spells};
ghost use Rattle.st_end.specs.Unsealed.{launched};
ghost use Rattle.st_end.specs.Inside.{IsSpellable, IsPlain, front_of, middle_of};

use crate::flight::{Flight, Open};
use st_frames::{FrameError, PacketKind};
use st_ilp::{IlpError, Moment, Prepare, write_prepare};
use st_keys::{Keys, OVERHEAD, condition, plain_payload};
use st_oer::length_size;
use st_sender::Load;
use st_streams::EndError;
use std::alloc::Allocator;
use std::marker::Model;
use std::sync::Arc;

/// The milliseconds that an answer may take.
const ANSWER_TIME: i64 = 30_000;

/// The bytes of a condition.
const CONDITION: usize = 32;

/// The payload of a packet that is not sealed yet.
#[tactic(auto, using(crate::proofs::Going::writes, crate::proofs::Going::text_short))]
fn plain_load<A: Allocator + Copy>(alloc: A, load: &Load<A>) -> Result<Vec<u8, A>, EndError>
    requires { IsSpellable load.now }
    ensures only_memory { IsOkUnless result EndError.NoMemory }
    ensures written { IfOk result (λ payload. written prepare_kind load.now.sequence load.now.least load.now.frames ≡ Ok (ciphertext_of payload.items)) }
    ensures long { IfOk result (λ payload. OVERHEAD ≤ length payload.items) }
    ensures short { IfOk result (λ payload. length payload.items ≤ 32767) }
    ensures spells { OnOk result (Spells load.now) }
{
    let Ok(frames) = load.frames() else {
        return Err(EndError::NoMemory);
    };
    match plain_payload(
        alloc,
        PacketKind::Prepare,
        load.sequence(),
        load.least(),
        &frames,
    ) {
        Ok(payload) => Ok(payload),
        Err(FrameError::NoMemory) => Err(EndError::NoMemory),
        Err(_) => unreachable!(),
    }
}

/// The bytes of a Prepare.
#[tactic(auto, using(crate::proofs::Going::not_refused))]
fn prepare_bytes<A: Allocator>(alloc: A, prepare: &Prepare<'_>) -> Result<Vec<u8, A>, EndError>
    requires { IsPrepare (prepare_seen prepare.now) }
    ensures only_memory { IsOkUnless result EndError.NoMemory }
    ensures text { IfOk result (λ bytes. bytes.items ≡ prepare_text (prepare_seen prepare.now)) }
    ensures lawful { OnOk result (IsPrepare (prepare_seen prepare.now)) }
{
    match write_prepare(alloc, prepare) {
        Ok(bytes) => Ok(bytes),
        Err(IlpError::NoMemory) => Err(EndError::NoMemory),
        Err(_) => unreachable!(),
    }
}

/// The places in the bytes of a Prepare, which are this many, at which the condition and the payload begin.
#[tactic(auto, using(crate::proofs::Plain::length_parts, crate::proofs::Plain::length_middle))]
fn places(prepare: &Prepare<'_>, size: usize) -> (usize, usize)
    requires { size ≡ length (prepare_text (prepare_seen prepare.now)) }
    ensures { (result.0 ≡ length (front_of (prepare_seen prepare.now)))
        × (result.1 ≡ result.0 + CONDITION + length (middle_of (prepare_seen prepare.now))) }
{
    let payload = prepare.payload.len();
    let peer = prepare.destination.len();
    let payload_at = size - payload;
    let middle = length_size(peer as u64) + peer + length_size(payload as u64);
    (payload_at - middle - CONDITION, payload_at)
}

/// The bytes of a Prepare with a plain payload, and the places of its condition and of that payload.
#[derive(Drop)]
pub(crate) struct Plain<A: Allocator> {
    bytes: Vec<u8, A>,
    condition_at: usize,
    payload_at: usize,
}

impl<A: Allocator + Copy> Plain<A> {
    /// Those of a packet that is sent at this moment to this peer.
    pub(crate) fn of(
        alloc: A,
        peer: &str,
        now: Moment,
        load: &Load<A>,
    ) -> Result<Plain<A>, EndError>
        requires peer { is_address peer.now ≡ true }
        requires load { IsSpellable load.now }
        ensures only_memory { IsOkUnless result EndError.NoMemory }
        ensures plain { IfOk result (λ x. IsPlain peer.now now load.now x.bytes.items x.condition_at x.payload_at) }
    {
        let payload = plain_load(alloc, load)?;
        let prepare = Prepare {
            amount: load.amount(),
            expiry: now.ms() + ANSWER_TIME,
            condition: [0; CONDITION],
            destination: peer,
            payload: &payload,
        };
        let bytes = prepare_bytes(alloc, &prepare)?;
        let (condition_at, payload_at) = places(&prepare, bytes.len());
        Ok(Plain {
            bytes,
            condition_at,
            payload_at,
        })
    }
}

/// Seals a plain payload that begins at its place, puts the condition at its own, and gives it.
#[tactic(auto, unfolding(crate::specs::Unsealed::launched))]
fn seal_at(
    keys: &Keys,
    iv: [u8; 12],
    bytes: &mut [u8],
    condition_at: usize,
    payload_at: usize,
) -> [u8; 32]
    requires front { condition_at + CONDITION ≤ payload_at }
    requires back { payload_at + OVERHEAD ≤ length bytes.old }
    ensures condition { result ≡ condition (fulfillment keys.now (sealed keys.now iv (ciphertext_of (drop payload_at bytes.old)))) }
    ensures bytes { bytes.new ≡ take condition_at bytes.old
        ++ (result ++ (drop (condition_at + 32) (take payload_at bytes.old) ++ sealed keys.now iv (ciphertext_of (drop payload_at bytes.old)))) }
    ensures length { length bytes.new ≡ length bytes.old }
{
    let (front, payload) = bytes.split_at_mut(payload_at);
    keys.seal_payload(iv, payload);
    let condition = condition(keys.fulfillment(payload));
    front[condition_at..condition_at + CONDITION].copy_from_slice(&condition);
    condition
}

/// A Prepare whose flight is booked and whose packet is not sealed yet, as `EndState::send_unsealed` gives it. Contracts see
/// it as the flight and the bytes that `seal` gives. It must be sealed.
#[must_use]
pub struct Unsealed<A: Allocator + Copy> {
    plain: Plain<A>,
    sequence: u64,
    amount: u64,
    iv: [u8; 12],
    keys: Arc<Keys, A>,
}

impl<A: Allocator + Copy> Model for Unsealed<A> {
    ghost use Rattle.std.specs.Prelude.{◌≡◌, ◌≤◌, ◌+◌, length};
    ghost use Rattle.std.specs.Arc.{arc_value};
    ghost use Rattle.st_end.specs.Unsealed.{Launched, launched};

    ghost Value = { Launched };

    ghost view = { λ u. launched (arc_value u.keys) u.iv u.sequence u.amount u.plain.bytes.items u.plain.condition_at u.plain.payload_at };

    ghost invariant = { λ u. (u.plain.condition_at + 32 ≤ u.plain.payload_at) × (u.plain.payload_at + 28 ≤ length u.plain.bytes.items) × (length u.iv ≡ 12) };
}

impl<A: Allocator + Copy> Unsealed<A> {
    pub(crate) fn new(
        plain: Plain<A>,
        sequence: u64,
        amount: u64,
        iv: [u8; 12],
        keys: Arc<Keys, A>,
    ) -> Unsealed<A>
        requires front { plain.condition_at + CONDITION ≤ plain.payload_at }
        requires back { plain.payload_at + OVERHEAD ≤ length plain.bytes.items }
        ensures { result ≡ launched (arc_value keys) iv sequence amount plain.bytes.items plain.condition_at plain.payload_at }
    {
        Unsealed {
            plain,
            sequence,
            amount,
            iv,
            keys,
        }
    }

    /// The sequence of its packet (RFC 0029, section 5.2).
    #[tactic(auto, unfolding(crate::specs::Unsealed::launched))]
    pub fn sequence(&self) -> u64
        ensures { result ≡ self.now.flight.sequence }
    {
        self.sequence
    }

    /// The amount of the Prepare, in units of the end's asset.
    #[tactic(auto, unfolding(crate::specs::Unsealed::launched))]
    pub fn amount(&self) -> u64
        ensures { result ≡ self.now.amount }
    {
        self.amount
    }

    /// The length of the Prepare's bytes.
    pub fn size(&self) -> usize
        ensures { result ≡ length self.now.bytes }
    {
        self.plain.bytes.len()
    }

    /// Encrypts the packet, and gives the flight and the bytes of the Prepare (RFC 0027, RFC 0029). It takes the keys alone, so
    /// any thread can do it, with no lock on the end. Does not allocate, and cannot fail. `EndState::keep` is to be called
    /// before the flight's outcome is handled.
    #[tactic(auto, unfolding(crate::specs::Unsealed::launched))]
    pub fn seal(self) -> (Flight, Vec<u8, A>)
        ensures flight { result.0 ≡ self.flight }
        ensures bytes { result.1.items ≡ self.bytes }
    {
        let Unsealed {
            plain,
            sequence,
            amount: _,
            iv,
            keys,
        } = self;
        let Plain {
            mut bytes,
            condition_at,
            payload_at,
        } = plain;
        let condition = seal_at(&keys, iv, &mut bytes, condition_at, payload_at);
        let flight = Open {
            sequence,
            condition,
        };
        (Flight::new(flight), bytes)
    }
}
