//! Writing Rejects, also into a vector with reserved capacity.

ghost use Rattle.std.specs.Prelude.{◌≡◌, ◌≢◌, ◌<◌, ◌≤◌, ◌^◌, ◌+◌, ◌++◌, [], true, length, None, IsOk, IfErr, OnOk, OnErr, vec_len, vec_capacity};
ghost use Rattle.st_ilp.specs.Packets.{Rejected};
ghost use Rattle.st_ilp.specs.Rules.{is_code};
ghost use Rattle.st_ilp.specs.Spelling.{answer_text, answer_contents};
ghost use Rattle.st_ilp.specs.Writing.{answer_refusal, reject_size, Judges, WritesAnswer};

use crate::code::ErrorCode;
use crate::error::IlpError;
use crate::packet::{MAX_DATA, MAX_MESSAGE, REJECT, is_sender};
use crate::size::{self, reject_contents_len};
use crate::writing::put_head;
use st_oer::put_octets;
use std::alloc::Allocator;

/// Checks that these fields may be written in a Reject with this code.
#[tactic(auto, unfolding(crate::specs::Writing::answer_refusal))]
pub(crate) fn judge_reject(
    code: [u8; 3],
    by: &str,
    message: &str,
    payload: &[u8],
) -> Result<(), IlpError>
    requires { is_code code ≡ true }
    ensures judged { Judges (answer_refusal (Rejected code by.now message.now payload.now)) result }
    ensures no_memory { IfErr result (λ e. e ≢ IlpError.NoMemory) }
{
    if !is_sender(by) {
        return Err(IlpError::Address);
    }
    if MAX_MESSAGE < message.len() || MAX_DATA < payload.len() {
        return Err(IlpError::DataTooLong);
    }
    Ok(())
}

/// Appends a Reject to a vector that has room for it.
#[tactic(auto, unfolding(crate::specs::Spelling::answer_text, crate::specs::Spelling::answer_contents), using(crate::proofs::Sizes::sizes))]
pub(crate) fn append_reject<A: Allocator>(
    out: &mut Vec<u8, A>,
    code: [u8; 3],
    by: &str,
    message: &str,
    payload: &[u8],
)
    requires lawful { answer_refusal (Rejected code by.now message.now payload.now) ≡ None }
    requires room { vec_len out.old + length (answer_text (Rejected code by.now message.now payload.now)) ≤ vec_capacity out.old }
    ensures text { out.new.items ≡ out.old.items ++ answer_text (Rejected code by.now message.now payload.now) }
    ensures capacity { vec_capacity out.old ≤ vec_capacity out.new }
{
    let size = reject_contents_len(by.len(), message.len(), payload.len());
    put_head(out, REJECT, size);
    out.extend_from_slice(&code).unwrap();
    put_octets(out, by.as_bytes()).unwrap();
    put_octets(out, message.as_bytes()).unwrap();
    put_octets(out, payload).unwrap();
}

/// The length in bytes of a Reject without a message (RFC 0027), with `by` as its triggeredBy and `data_len` bytes of
/// data.
///
/// The result is exact if the length fits a `usize`, and `usize::MAX` otherwise. Does not allocate.
#[tactic(auto, unfolding(crate::specs::Writing::reject_size))]
pub fn reject_len(by: &str, data_len: usize) -> usize
    ensures exact { reject_size by.now data_len < 2 ^ 64 → result ≡ reject_size by.now data_len }
    ensures past { 2 ^ 64 ≤ reject_size by.now data_len → result ≡ usize.MAX }
{
    size::reject_size(by.len(), 0, data_len)
}

/// Appends a Reject without a message (RFC 0027). `by` is its triggeredBy, `payload` its data. Does not allocate if
/// `out` has `reject_len` bytes of free capacity.
///
/// Fails with `Address` or `DataTooLong`, checked in this order, and then with `NoMemory` if memory is refused. `out`
/// then keeps the bytes that it had.
#[tactic(auto, using(crate::proofs::Sizes::sizes))]
pub fn put_reject<A: Allocator>(
    out: &mut Vec<u8, A>,
    code: ErrorCode,
    by: &str,
    payload: &[u8],
) -> Result<(), IlpError>
    ensures text { OnOk result (out.new.items ≡ out.old.items ++ answer_text (Rejected code by.now [] payload.now)) }
    ensures unchanged { OnErr result (out.new.items ≡ out.old.items) }
    ensures written { WritesAnswer (Rejected code by.now [] payload.now) result }
    ensures room { answer_refusal (Rejected code by.now [] payload.now) ≡ None →
        vec_len out.old + reject_size by.now (length payload.now) ≤ vec_capacity out.old → IsOk result }
    ensures capacity { vec_capacity out.old ≤ vec_capacity out.new }
{
    let code = code.text();
    judge_reject(code, by, "", payload)?;
    out.reserve(reject_len(by, payload.len()))?;
    append_reject(out, code, by, "", payload);
    Ok(())
}
