//! Writing ILP packets: the one encoding of each.

ghost use Rattle.std.specs.Prelude.{◌≡◌, ◌≤◌, ◌+◌, ◌++◌, ◌∷◌, length, vec_len, vec_capacity};
ghost use Rattle.st_oer.specs.Seen.{Writes};
ghost use Rattle.st_oer.specs.Spelling.{length_bytes};
ghost use Rattle.st_ilp.specs.Packets.{Fulfilled, Rejected};
ghost use Rattle.st_ilp.specs.Expiry.{expiry_text};
ghost use Rattle.st_ilp.specs.Spelling.{prepare_contents, prepare_text};
ghost use Rattle.st_ilp.specs.Writing.{prepare_written, answer_written};
ghost use Rattle.st_ilp.specs.Seen.{prepare_seen, answer_seen};

use crate::code::ErrorCode;
use crate::error::IlpError;
use crate::expiry::write_expiry;
use crate::packet::{Answer, FULFILL, MAX_DATA, PREPARE, Prepare};
use crate::reject::{append_reject, judge_reject};
use crate::size::{octets_len, reject_size};
use st_oer::{is_address, put_length, put_octets, put_u8, put_u64};
use std::alloc::Allocator;

/// Appends a packet's kind and the length of its contents to a vector that has room for them.
#[tactic(auto, using(crate::proofs::Sizes::sizes))]
pub(crate) fn put_head<A: Allocator>(out: &mut Vec<u8, A>, kind: u8, size: usize)
    requires { vec_len out.old + 1 + length (length_bytes size) ≤ vec_capacity out.old }
    ensures text { out.new.items ≡ out.old.items ++ kind ∷ length_bytes size }
    ensures capacity { vec_capacity out.old ≤ vec_capacity out.new }
{
    put_u8(out, kind).unwrap();
    put_length(out, size as u64).unwrap();
}

/// Appends a Prepare to a vector that has room for it.
#[tactic(auto, unfolding(crate::specs::Spelling::prepare_text, crate::specs::Spelling::prepare_contents), using(crate::proofs::Sizes::sizes))]
fn append_prepare<A: Allocator>(
    out: &mut Vec<u8, A>,
    size: usize,
    expiry: [u8; 17],
    prepare: &Prepare<'_>,
)
    requires room { vec_len out.old + length (prepare_text (prepare_seen prepare.now)) ≤ vec_capacity out.old }
    requires size { size ≡ length (prepare_contents (prepare_seen prepare.now)) }
    requires expiry { expiry ≡ expiry_text prepare.now.expiry }
    ensures { out.new.items ≡ out.old.items ++ prepare_text (prepare_seen prepare.now) }
{
    put_head(out, PREPARE, size);
    put_u64(out, prepare.amount).unwrap();
    out.extend_from_slice(&expiry).unwrap();
    out.extend_from_slice(&prepare.condition).unwrap();
    put_octets(out, prepare.destination.as_bytes()).unwrap();
    put_octets(out, prepare.payload).unwrap();
}

/// The bytes of a Prepare (RFC 0027), in a new vector.
///
/// Fails with `Expiry`, `Address` or `DataTooLong`, checked in this order, and then with `NoMemory` if memory is
/// refused.
#[tactic(auto, unfolding(crate::specs::Writing::prepare_refusal), using(crate::proofs::Sizes::sizes))]
pub fn write_prepare<A: Allocator>(alloc: A, prepare: &Prepare<'_>) -> Result<Vec<u8, A>, IlpError>
    ensures { Writes IlpError.NoMemory (λ out. out.items) result (prepare_written (prepare_seen prepare.now)) }
{
    let expiry = write_expiry(prepare.expiry)?;
    if !is_address(prepare.destination) {
        return Err(IlpError::Address);
    }
    if MAX_DATA < prepare.payload.len() {
        return Err(IlpError::DataTooLong);
    }
    let size = 57 + octets_len(prepare.destination.len()) + octets_len(prepare.payload.len());
    let mut out = Vec::with_capacity(alloc, 1 + octets_len(size))?;
    append_prepare(&mut out, size, expiry, prepare);
    Ok(out)
}

#[tactic(auto, unfolding(crate::specs::Spelling::answer_text, crate::specs::Spelling::answer_contents, crate::specs::Writing::answer_refusal), using(crate::proofs::Sizes::sizes))]
fn fulfill_bytes<A: Allocator>(
    alloc: A,
    fulfillment: [u8; 32],
    payload: &[u8],
) -> Result<Vec<u8, A>, IlpError>
    ensures { Writes IlpError.NoMemory (λ out. out.items) result (answer_written (Fulfilled fulfillment payload.now)) }
{
    if MAX_DATA < payload.len() {
        return Err(IlpError::DataTooLong);
    }
    let size = 32 + octets_len(payload.len());
    let mut out = Vec::with_capacity(alloc, 1 + octets_len(size))?;
    put_head(&mut out, FULFILL, size);
    out.extend_from_slice(&fulfillment).unwrap();
    put_octets(&mut out, payload).unwrap();
    Ok(out)
}

#[tactic(auto, using(crate::proofs::Sizes::sizes))]
fn reject_bytes<A: Allocator>(
    alloc: A,
    code: ErrorCode,
    by: &str,
    message: &str,
    payload: &[u8],
) -> Result<Vec<u8, A>, IlpError>
    ensures { Writes IlpError.NoMemory (λ out. out.items) result (answer_written (Rejected code by.now message.now payload.now)) }
{
    let code = code.text();
    judge_reject(code, by, message, payload)?;
    let size = reject_size(by.len(), message.len(), payload.len());
    let mut out = Vec::with_capacity(alloc, size)?;
    append_reject(&mut out, code, by, message, payload);
    Ok(out)
}

/// The bytes of a Fulfill or a Reject (RFC 0027), in a new vector.
///
/// Fails with `Address` or `DataTooLong`, checked in this order, and then with `NoMemory` if memory is refused.
/// `DataTooLong` is for a message above 8,191 bytes and for data above 32,767.
pub fn write_answer<A: Allocator>(alloc: A, answer: &Answer<'_>) -> Result<Vec<u8, A>, IlpError>
    ensures { Writes IlpError.NoMemory (λ out. out.items) result (answer_written (answer_seen answer.now)) }
{
    match *answer {
        Answer::Fulfill {
            fulfillment,
            payload,
        } => fulfill_bytes(alloc, fulfillment, payload),
        Answer::Reject {
            code,
            by,
            message,
            payload,
        } => reject_bytes(alloc, code, by, message, payload),
    }
}
