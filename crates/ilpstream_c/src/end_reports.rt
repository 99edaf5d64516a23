//! Calls that say what an end of a connection (RFC 0029) did, and what it can do.

ghost use Rattle.std.specs.Prelude.{◌≡◌, ◌≤◌, length, take, IfOk};
ghost use Rattle.st_end.specs.Calls as calls;
ghost use Rattle.st_end.specs.Totals as totals;
ghost use Rattle.ilpstream_c.specs.Handles.{OnEnd, is_byte, OnEndIf};
ghost use Rattle.ilpstream_c.specs.Failures.{IsFailure, SaysFailure, kind_number};
ghost use Rattle.ilpstream_c.specs.Ends.{Says, SaysRoom, Lists, ready_streams, open_streams, SaysTotals};

use crate::end::on_end;
use crate::handle::copy_out;
use host_objects::{ARGUMENT, DONE, Handle, IDLE, MISUSE, Object};
use st_end::{EndError, EndState, Failed, FailedKind, Totals, by_number};
use std::alloc::{AllocError, Global};

/// What an end did so far.
#[repr(C)]
#[derive(Clone, Copy, Debug, Drop)]
pub struct HostTotals {
    /// How many bytes were written at this end.
    pub accepted: u64,
    /// How many bytes were read at this end.
    pub delivered: u64,
    /// How many units it received.
    pub credited: u64,
    /// How many units of its own were fulfilled.
    pub paid: u64,
}

/// What an end did so far.
#[unsafe(no_mangle)]
pub extern "C" fn ilp_end_totals(alloc: Global, handle: &mut Handle, totals: &mut HostTotals) -> u32
    ensures { OnEnd handle.old.state handle.new.state result (λ old new. SaysTotals old new result totals.new) }
{
    on_end!(alloc, handle, end => {
        let Totals {
            accepted,
            delivered,
            credited,
            paid,
        } = end.state.totals();
        *totals = HostTotals {
            accepted,
            delivered,
            credited,
            paid,
        };
        DONE
    })
}

/// How many bytes a write accepts on a stream at most: `room`, 0 to 262,144. Refused as a write of no bytes is.
#[unsafe(no_mangle)]
pub extern "C" fn ilp_end_room(
    alloc: Global,
    handle: &mut Handle,
    stream: u32,
    room: &mut usize,
) -> u32
    ensures { OnEndIf (is_byte stream) handle.old.state handle.new.state result (λ old new. SaysRoom old new stream result room.new) }
{
    let Ok(stream) = u8::try_from(stream) else {
        return ARGUMENT;
    };
    on_end!(alloc, handle, end => match by_number::room(&end.state, stream) {
        Ok(found) => {
            *room = found as usize;
            DONE
        }
        Err(error) => u32::from(error.number()),
    })
}

/// The streams that can be read.
fn ready_streams(alloc: Global, state: &EndState<Global>) -> Result<Vec<u8>, AllocError>
    ensures { IfOk result (λ found. found.items ≡ ready_streams state.now) }
{
    let mut found = Vec::with_capacity(alloc, 64)?;
    found.extend((1..65_u8).filter(|stream| by_number::is_ready(state, *stream)))?;
    Ok(found)
}

/// The streams that are open.
fn open_streams(alloc: Global, state: &EndState<Global>) -> Result<Vec<u8>, AllocError>
    ensures { IfOk result (λ found. found.items ≡ open_streams state.now) }
{
    let mut found = Vec::with_capacity(alloc, 64)?;
    found.extend((1..65_u8).filter(|stream| by_number::has_stream(state, *stream)))?;
    Ok(found)
}

/// Copies the numbers of the streams that can be read to the front of a buffer, a byte each, rising; `len` is how many they
/// are. `ROOM` if the buffer has fewer bytes: then nothing is copied. 54 if memory is refused.
#[unsafe(no_mangle)]
pub extern "C" fn ilp_end_ready(
    alloc: Global,
    handle: &mut Handle,
    out: &mut [u8],
    len: &mut usize,
) -> u32
    ensures { OnEnd handle.old.state handle.new.state result (λ old new. Lists old new (ready_streams old.state) out.old out.new result len.new) }
{
    on_end!(alloc, handle, end => match ready_streams(alloc, &end.state) {
        Ok(found) => copy_out(&found, out, len),
        Err(AllocError) => u32::from(EndError::NoMemory.number()),
    })
}

/// Copies the numbers of the streams that are open, as `ilp_end_ready` those that can be read.
#[unsafe(no_mangle)]
pub extern "C" fn ilp_end_streams(
    alloc: Global,
    handle: &mut Handle,
    out: &mut [u8],
    len: &mut usize,
) -> u32
    ensures { OnEnd handle.old.state handle.new.state result (λ old new. Lists old new (open_streams old.state) out.old out.new result len.new) }
{
    on_end!(alloc, handle, end => match open_streams(alloc, &end.state) {
        Ok(found) => copy_out(&found, out, len),
        Err(AllocError) => u32::from(EndError::NoMemory.number()),
    })
}

/// `answer` is 1 if a stream is open, otherwise 0.
#[unsafe(no_mangle)]
pub extern "C" fn ilp_end_has_stream(
    alloc: Global,
    handle: &mut Handle,
    stream: u32,
    answer: &mut u32,
) -> u32
    ensures { OnEndIf (is_byte stream) handle.old.state handle.new.state result
        (λ old new. Says old new result answer.new (calls.has_stream old.state stream)) }
{
    let Ok(stream) = u8::try_from(stream) else {
        return ARGUMENT;
    };
    on_end!(alloc, handle, end => {
        *answer = u32::from(by_number::has_stream(&end.state, stream));
        DONE
    })
}

/// `answer` is 1 if this end's own close of a stream was fulfilled, otherwise 0.
#[unsafe(no_mangle)]
pub extern "C" fn ilp_end_settled(
    alloc: Global,
    handle: &mut Handle,
    stream: u32,
    answer: &mut u32,
) -> u32
    ensures { OnEndIf (is_byte stream) handle.old.state handle.new.state result (λ old new. Says old new result answer.new (totals.settled old.state stream)) }
{
    let Ok(stream) = u8::try_from(stream) else {
        return ARGUMENT;
    };
    on_end!(alloc, handle, end => {
        *answer = u32::from(by_number::settled(&end.state, stream));
        DONE
    })
}

/// `answer` is 1 if the connection failed, otherwise 0.
#[unsafe(no_mangle)]
pub extern "C" fn ilp_end_is_failed(alloc: Global, handle: &mut Handle, answer: &mut u32) -> u32
    ensures { OnEnd handle.old.state handle.new.state result (λ old new. Says old new result answer.new old.state.sending.failed) }
{
    on_end!(alloc, handle, end => {
        *answer = u32::from(end.state.is_failed());
        DONE
    })
}

/// Why a Prepare of an end failed. `kind` is 1 if there was no answer, 2 if it was neither a Fulfill nor a Reject, 3 if it
/// was a Fulfill that does not fit, 4 if it was a Reject. Of a Reject it has the code, triggeredBy and the first bytes of
/// the message; of anything else nothing.
#[repr(C)]
#[derive(Clone, Copy, Drop)]
pub struct HostFailure {
    /// 1 to 4.
    pub kind: u32,
    /// The code of the Reject.
    pub code: [u8; 3],
    /// How many bytes its triggeredBy has.
    pub by_len: usize,
    /// How many bytes of its message are in `message`.
    pub message_len: usize,
    /// Its triggeredBy, at the front.
    pub by: [u8; 1023],
    /// Its message, at the front.
    pub message: [u8; 255],
}

/// The number of a kind.
fn kind_number(kind: FailedKind) -> u32
    ensures { result ≡ kind_number kind }
{
    match kind {
        FailedKind::Lost => 1,
        FailedKind::Unreadable => 2,
        FailedKind::Unfit => 3,
        FailedKind::Rejected => 4,
    }
}

/// These bytes at the front of an array, which has room for them.
fn at_front<const N: usize>(bytes: &[u8]) -> [u8; N]
    requires { length bytes.now ≤ N }
    ensures { take (length bytes.now) result ≡ bytes.now }
{
    let mut front = [0; N];
    front[..bytes.len()].copy_from_slice(bytes);
    front
}

/// A cause, for a host.
fn host_failure(failed: &Failed) -> HostFailure
    ensures { IsFailure failed.now result }
{
    let by = failed.by();
    let message = failed.message();
    let code = match failed.code() {
        Some(code) => code.text(),
        None => [0; 3],
    };
    HostFailure {
        kind: kind_number(failed.kind()),
        code,
        by_len: by.len(),
        message_len: message.len(),
        by: at_front(by),
        message: at_front(message),
    }
}

/// Why the last Prepare of this end that failed did so. `IDLE` if none failed yet.
#[unsafe(no_mangle)]
pub extern "C" fn ilp_end_last_failure(
    alloc: Global,
    handle: &mut Handle,
    failure: &mut HostFailure,
) -> u32
    ensures { OnEnd handle.old.state handle.new.state result (λ old new. SaysFailure old new result failure.new) }
{
    on_end!(alloc, handle, end => match end.state.last_failure() {
        Some(failed) => {
            *failure = host_failure(&failed);
            DONE
        }
        None => IDLE,
    })
}
