//! ILP packets: what bytes say, and the bytes that are written. Nothing is kept.

ghost use Rattle.std.specs.Prelude.{◌≡◌, ◌-◌, length, Ok, Err, MatchResult};
ghost use Rattle.st_oer.specs.Spelling.{length_bytes};
ghost use Rattle.st_ilp.specs.Spelling.{answer_text};
ghost use Rattle.st_ilp.specs.Packets.{PreparePacket, AnswerPacket, Fulfilled, Rejected};
ghost use Rattle.st_ilp.specs.Reading.{prepare_at, answer_at};
ghost use Rattle.ilpstream_c.specs.Ilp.{IsPrepareIn, IsAnswerIn, ReadsPrepare, ReadsAnswer, WritesPrepare, WritesFulfill, WritesReject};

use crate::handle::copy_out;
use host_objects::{ARGUMENT, DONE};
use st_ilp::{
    Answer, ErrorCode, IlpError, Prepare, answer_law, prepare_law, read_answer, read_prepare,
    write_answer, write_prepare,
};
use st_oer::{length_size, utf8};
use std::alloc::Global;

/// The kind of a Fulfill (RFC 0027).
const FULFILL: u32 = 13;

/// The kind of a Reject (RFC 0027).
const REJECT: u32 = 14;

/// An ILP Prepare (RFC 0027) whose texts lie in the bytes that were read: `.._at` is the place of a text's first byte,
/// `.._len` how many bytes it has.
#[repr(C)]
#[derive(Clone, Copy, Debug, Drop)]
pub struct HostPrepare {
    pub amount: u64,
    pub expiry: i64,
    pub condition: [u8; 32],
    pub destination_at: usize,
    pub destination_len: usize,
    pub payload_at: usize,
    pub payload_len: usize,
}

/// An ILP Fulfill or Reject (RFC 0027) whose texts lie in the bytes that were read: `.._at` is the place of a text's
/// first byte, `.._len` how many bytes it has. `kind` is 13 or 14; the parts that the other kind has are 0.
#[repr(C)]
#[derive(Clone, Copy, Debug, Drop)]
pub struct HostAnswer {
    pub kind: u32,
    pub fulfillment: [u8; 32],
    pub code: [u8; 3],
    pub by_at: usize,
    pub by_len: usize,
    pub message_at: usize,
    pub message_len: usize,
    pub payload_at: usize,
    pub payload_len: usize,
}

/// The start of octets of this length that end at a place, and the start of their length prefix.
fn octets_before(end: usize, len: usize) -> (usize, usize)
    ensures start { result.0 ≡ end - len }
    ensures front { result.1 ≡ end - len - length (length_bytes len) }
{
    let start = end.saturating_sub(len);
    (start, start.saturating_sub(length_size(len as u64)))
}

/// What bytes say as a Prepare.
fn prepare_in(bytes: &[u8]) -> Result<HostPrepare, IlpError>
    ensures { MatchResult result (λ t. (p : PreparePacket) × ((prepare_at bytes.now ≡ Ok p) × IsPrepareIn bytes.now p t)) (λ e. prepare_at bytes.now ≡ Err e) }
{
    prepare_law();
    let Prepare {
        amount,
        expiry,
        condition,
        destination,
        payload,
    } = read_prepare(bytes)?;
    let (payload_at, behind) = octets_before(bytes.len(), payload.len());
    let (destination_at, _) = octets_before(behind, destination.len());
    Ok(HostPrepare {
        amount,
        expiry,
        condition,
        destination_at,
        destination_len: destination.len(),
        payload_at,
        payload_len: payload.len(),
    })
}

/// Reads all of the bytes as an ILP Prepare (RFC 0027). It returns 0, or the number of the first fault: 10 to 14 or 17.
#[unsafe(no_mangle)]
pub extern "C" fn ilp_prepare_read(bytes: &[u8], prepare: &mut HostPrepare) -> u32
    ensures { ReadsPrepare bytes.now prepare.old prepare.new result }
{
    match prepare_in(bytes) {
        Ok(told) => {
            *prepare = told;
            DONE
        }
        Err(error) => u32::from(error.number()),
    }
}

/// What bytes say as an answer.
fn answer_in(bytes: &[u8]) -> Result<HostAnswer, IlpError>
    ensures { MatchResult result (λ t. (a : AnswerPacket) × ((answer_at bytes.now ≡ Ok a) × IsAnswerIn bytes.now a t)) (λ e. answer_at bytes.now ≡ Err e) }
{
    answer_law();
    let answer = match read_answer(bytes) {
        Ok(answer) => answer,
        Err(error) => return Err(error),
    };
    match answer {
        Answer::Fulfill {
            fulfillment,
            payload,
        } => Ok(fulfill_told(bytes, fulfillment, payload)),
        Answer::Reject {
            code,
            by,
            message,
            payload,
        } => Ok(reject_told(bytes, code.text(), by, message, payload)),
    }
}

/// The struct of a Fulfill that these bytes are.
fn fulfill_told(bytes: &[u8], fulfillment: [u8; 32], payload: &[u8]) -> HostAnswer
    requires { bytes.now ≡ answer_text (Fulfilled fulfillment payload.now) }
    ensures { IsAnswerIn bytes.now (Fulfilled fulfillment payload.now) result }
{
    let (payload_at, _) = octets_before(bytes.len(), payload.len());
    HostAnswer {
        kind: FULFILL,
        fulfillment,
        code: [0; 3],
        by_at: 0,
        by_len: 0,
        message_at: 0,
        message_len: 0,
        payload_at,
        payload_len: payload.len(),
    }
}

/// The struct of a Reject that these bytes are.
fn reject_told(bytes: &[u8], code: [u8; 3], by: &str, message: &str, payload: &[u8]) -> HostAnswer
    requires { bytes.now ≡ answer_text (Rejected code by.now message.now payload.now) }
    ensures { IsAnswerIn bytes.now (Rejected code by.now message.now payload.now) result }
{
    let (payload_at, behind) = octets_before(bytes.len(), payload.len());
    let (message_at, behind) = octets_before(behind, message.len());
    let (by_at, _) = octets_before(behind, by.len());
    HostAnswer {
        kind: REJECT,
        fulfillment: [0; 32],
        code,
        by_at,
        by_len: by.len(),
        message_at,
        message_len: message.len(),
        payload_at,
        payload_len: payload.len(),
    }
}

/// Reads all of the bytes as an ILP Fulfill or Reject (RFC 0027). It returns 0, or the number of the first fault: 10, 11 or 13
/// to 17.
#[unsafe(no_mangle)]
pub extern "C" fn ilp_answer_read(bytes: &[u8], answer: &mut HostAnswer) -> u32
    ensures { ReadsAnswer bytes.now answer.old answer.new result }
{
    match answer_in(bytes) {
        Ok(told) => {
            *answer = told;
            DONE
        }
        Err(error) => u32::from(error.number()),
    }
}

/// Writes an ILP Prepare (RFC 0027) to the front of a buffer. It returns 0; 103 if the buffer is too small; 102 if the
/// destination is not UTF-8; otherwise the number of the refusal: 12, 13, 14 or 18. After 0 and 103 `len` is the length of
/// the Prepare. A refusal leaves the buffer as it was.
#[unsafe(no_mangle)]
pub extern "C" fn ilp_prepare_write(
    alloc: Global,
    amount: u64,
    expiry: i64,
    condition: &[u8; 32],
    destination: &[u8],
    payload: &[u8],
    out: &mut [u8],
    len: &mut usize,
) -> u32
    ensures { WritesPrepare (record { amount = amount; expiry = expiry; condition = condition.now; destination = destination.now; payload = payload.now })
        out.old out.new result len.new }
{
    let Some(destination) = utf8(destination) else {
        return ARGUMENT;
    };
    let prepare = Prepare {
        amount,
        expiry,
        condition: *condition,
        destination,
        payload,
    };
    match write_prepare(alloc, &prepare) {
        Ok(text) => copy_out(&text, out, len),
        Err(error) => u32::from(error.number()),
    }
}

/// Writes an ILP Fulfill (RFC 0027) to the front of a buffer. It returns 0; 103 if the buffer is too small; otherwise the
/// number of the refusal: 14 or 18. After 0 and 103 `len` is the length of the Fulfill. A refusal leaves the buffer as it was.
#[unsafe(no_mangle)]
pub extern "C" fn ilp_fulfill_write(
    alloc: Global,
    fulfillment: &[u8; 32],
    payload: &[u8],
    out: &mut [u8],
    len: &mut usize,
) -> u32
    ensures { WritesFulfill fulfillment.now payload.now out.old out.new result len.new }
{
    let answer = Answer::Fulfill {
        fulfillment: *fulfillment,
        payload,
    };
    match write_answer(alloc, &answer) {
        Ok(text) => copy_out(&text, out, len),
        Err(error) => u32::from(error.number()),
    }
}

/// Writes an ILP Reject (RFC 0027) to the front of a buffer. It returns 0; 103 if the buffer is too small; 102 if `by` or the
/// message is not UTF-8; otherwise the number of the refusal: 13, 14, 16 or 18. After 0 and 103 `len` is the length of the
/// Reject. A refusal leaves the buffer as it was.
#[tactic(auto, unfolding(st_ilp::specs::Writing::answer_refusal))]
#[unsafe(no_mangle)]
pub extern "C" fn ilp_reject_write(
    alloc: Global,
    code: &[u8; 3],
    by: &[u8],
    message: &[u8],
    payload: &[u8],
    out: &mut [u8],
    len: &mut usize,
) -> u32
    ensures { WritesReject code.now by.now message.now payload.now out.old out.new result len.new }
{
    let Some(by) = utf8(by) else {
        return ARGUMENT;
    };
    let Some(message) = utf8(message) else {
        return ARGUMENT;
    };
    let Some(code) = ErrorCode::new(*code) else {
        return u32::from(IlpError::Code.number());
    };
    let answer = Answer::Reject {
        code,
        by,
        message,
        payload,
    };
    match write_answer(alloc, &answer) {
        Ok(text) => copy_out(&text, out, len),
        Err(error) => u32::from(error.number()),
    }
}
