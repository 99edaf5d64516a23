//! Calls that make an end of a connection (RFC 0029), and those on its streams.

ghost use Rattle.std.specs.Prelude.{◌≡◌, ◌<◌, nat_lt, MatchOption};
ghost use Rattle.st_end.specs.Calls as calls;
ghost use Rattle.ilpstream_c.specs.Handles.{OnEnd, is_byte, is_abort, OnEndIf, OnEndIfBoth};
ghost use Rattle.ilpstream_c.specs.Ends.{IsEndMade, Answers, Numbers, Reads, role_of, config_of, AreNumbers, MakesEnd};

use crate::arguments::address;
use crate::handle::{is_empty, put_new};
use host_objects::{
    ABORTED, ARGUMENT, DONE, ENDED, Handle, HostEnd, IDLE, MISUSE, Object, Piece, code_of,
};
use st_end::{EndError, Role, by_number};
use st_oer::Rate;
use st_sender::EndConfig;
use std::alloc::Global;

/// What is done with the end of a handle. A handle of anything else is refused.
macro_rules! on_end {
    ($alloc:ident, $handle:ident, $end:ident => $body:expr) => {{
        let Some(mut object) = $handle.take($alloc) else {
            return MISUSE;
        };
        let code = match &mut *object {
            Object::End($end) => $body,
            _ => MISUSE,
        };
        $handle.put(object);
        code
    }};
}

pub(crate) use on_end;

/// How an end sends. The prepare amount of a packet (RFC 0029, section 5.2) is its amount times
/// `least_num / least_den`, rounded down.
#[repr(C)]
#[derive(Clone, Copy, Debug, Drop)]
pub struct HostConfig {
    /// How many Prepares may be in flight at once: 1 to 64.
    pub in_flight: usize,
    /// How many Prepares may be sent in all: 1 to 2^31 - 1.
    pub packets: u64,
    /// The greatest amount of one Prepare at the start: 1 to 2^63 - 1.
    pub packet_limit: u64,
    /// Not 0.
    pub least_num: u32,
    /// Not 0.
    pub least_den: u32,
}

/// A role by its number: 0 is a client, 1 a server.
fn role(number: u32) -> Option<Role>
    ensures { MatchOption result (¬ (number < 2)) (λ role. (number < 2) × (role ≡ role_of number)) }
{
    match number {
        0 => Some(Role::Client),
        1 => Some(Role::Server),
        _ => None,
    }
}

/// A configuration whose numbers are in their ranges.
fn config(terms: &HostConfig) -> Option<EndConfig>
    ensures { MatchOption result (¬ (AreNumbers terms.now)) (λ c. AreNumbers terms.now × (c ≡ config_of terms.now)) }
{
    let least = Rate::new(terms.least_num, terms.least_den)?;
    let config = EndConfig::new(terms.in_flight, terms.packets, terms.packet_limit)?;
    Some(config.with_least(least))
}

/// The end of these terms. Fails with `ARGUMENT` exactly if they are not valid, and otherwise with 54 if memory is
/// refused.
fn end_of(
    alloc: Global,
    role: u32,
    secret: &[u8; 32],
    own: &[u8],
    peer: &[u8],
    config: &HostConfig,
) -> Result<HostEnd, u32>
    ensures { MakesEnd role secret.now own.now peer.now config.now result }
{
    let Some(role) = self::role(role) else {
        return Err(ARGUMENT);
    };
    let Some(own) = address(own) else {
        return Err(ARGUMENT);
    };
    let Some(peer) = address(peer) else {
        return Err(ARGUMENT);
    };
    let Some(config) = self::config(config) else {
        return Err(ARGUMENT);
    };
    match HostEnd::new(alloc, role, *secret, own, peer, config) {
        Ok(end) => Ok(end),
        Err(error) => Err(u32::from(error.number())),
    }
}

/// Makes an end in an empty handle. Role 0 is a client, whose own streams are odd, and 1 a server. `own` and `peer` are
/// ILP addresses (RFC 0015).
///
/// `MISUSE` if the handle is not empty; `ARGUMENT` if an address is not valid, or a number is out of its range; 54 if
/// memory is refused.
#[unsafe(no_mangle)]
pub extern "C" fn ilp_end_new(
    alloc: Global,
    handle: &mut Handle,
    role: u32,
    secret: &[u8; 32],
    own: &[u8],
    peer: &[u8],
    config: &HostConfig,
) -> u32
    ensures { IsEndMade role secret.now own.now peer.now config.now handle.old.state handle.new.state result }
{
    if !is_empty(alloc, handle) {
        return MISUSE;
    }
    let no_memory = u32::from(EndError::NoMemory.number());
    match end_of(alloc, role, secret, own, peer, config) {
        Ok(end) => put_new(alloc, handle, Object::End(end), no_memory),
        Err(code) => code,
    }
}

/// Opens the next of this end's own streams, whose number is `stream`.
#[unsafe(no_mangle)]
pub extern "C" fn ilp_end_open_stream(alloc: Global, handle: &mut Handle, stream: &mut u32) -> u32
    ensures { OnEnd handle.old.state handle.new.state result (λ old new. Numbers old new result stream.new (calls.open_stream old.state)) }
{
    on_end!(alloc, handle, end => match end.state.open_stream() {
        Ok(opened) => {
            *stream = u32::from(opened.number());
            DONE
        }
        Err(error) => u32::from(error.number()),
    })
}

/// Accepts bytes that are to be sent on a stream.
#[unsafe(no_mangle)]
pub extern "C" fn ilp_end_write(
    alloc: Global,
    handle: &mut Handle,
    stream: u32,
    bytes: &[u8],
) -> u32
    ensures { OnEndIf (is_byte stream) handle.old.state handle.new.state result (λ old new. Answers old new result (calls.write old.state stream bytes.now)) }
{
    let Ok(stream) = u8::try_from(stream) else {
        return ARGUMENT;
    };
    on_end!(alloc, handle, end => code_of(by_number::write(&mut end.state, stream, bytes)))
}

/// Closes a stream cleanly.
#[unsafe(no_mangle)]
pub extern "C" fn ilp_end_close(alloc: Global, handle: &mut Handle, stream: u32) -> u32
    ensures { OnEndIf (is_byte stream) handle.old.state handle.new.state result (λ old new. Answers old new result (calls.close old.state stream)) }
{
    let Ok(stream) = u8::try_from(stream) else {
        return ARGUMENT;
    };
    on_end!(alloc, handle, end => code_of(by_number::close(&mut end.state, stream)))
}

/// Aborts a stream with a code other than 1.
#[unsafe(no_mangle)]
pub extern "C" fn ilp_end_abort(alloc: Global, handle: &mut Handle, stream: u32, reason: u32) -> u32
    ensures { OnEndIfBoth (is_byte stream) (is_abort reason) handle.old.state handle.new.state result
        (λ old new. Answers old new result (calls.abort old.state stream reason)) }
{
    let Ok(stream) = u8::try_from(stream) else {
        return ARGUMENT;
    };
    if reason == 1 {
        return ARGUMENT;
    }
    let Ok(reason) = u8::try_from(reason) else {
        return ARGUMENT;
    };
    on_end!(alloc, handle, end => code_of(by_number::abort(&mut end.state, stream, reason)))
}

/// Offers this amount, in units, on a stream.
#[unsafe(no_mangle)]
pub extern "C" fn ilp_end_offer(alloc: Global, handle: &mut Handle, stream: u32, amount: u64) -> u32
    ensures { OnEndIf (is_byte stream) handle.old.state handle.new.state result (λ old new. Answers old new result (calls.offer old.state stream amount)) }
{
    let Ok(stream) = u8::try_from(stream) else {
        return ARGUMENT;
    };
    on_end!(alloc, handle, end => code_of(by_number::offer(&mut end.state, stream, amount)))
}

/// Lets a stream receive up to an amount in all.
#[unsafe(no_mangle)]
pub extern "C" fn ilp_end_set_receive_max(
    alloc: Global,
    handle: &mut Handle,
    stream: u32,
    amount: u64,
) -> u32
    ensures { OnEndIf (is_byte stream) handle.old.state handle.new.state result
        (λ old new. Answers old new result (calls.set_receive_max old.state stream amount)) }
{
    let Ok(stream) = u8::try_from(stream) else {
        return ARGUMENT;
    };
    on_end!(alloc, handle, end => code_of(by_number::set_receive_max(&mut end.state, stream, amount)))
}

/// Outputs the first bytes that can be read on a stream, at most `max`, which is not 0; `len` is how many.
///
/// `IDLE` if none can be read yet, `ENDED` if all were read and the peer closed the stream, `ABORTED` if the peer
/// aborted it, with the code `reason`.
#[unsafe(no_mangle)]
pub extern "C" fn ilp_end_read(
    alloc: Global,
    handle: &mut Handle,
    stream: u32,
    max: usize,
    len: &mut usize,
    reason: &mut u64,
) -> u32
    ensures { OnEndIfBoth (is_byte stream) (nat_lt 0 max) handle.old.state handle.new.state result
        (λ old new. Reads old new stream max result len.new reason.new) }
{
    let Ok(stream) = u8::try_from(stream) else {
        return ARGUMENT;
    };
    if max == 0 {
        return ARGUMENT;
    }
    on_end!(alloc, handle, end => match end.read(stream, max) {
        Ok(Piece::Bytes) => {
            *len = end.output.len();
            DONE
        }
        Ok(Piece::Nothing) => IDLE,
        Ok(Piece::End) => ENDED,
        Ok(Piece::Aborted(code)) => {
            *reason = code;
            ABORTED
        }
        Err(error) => u32::from(error.number()),
    })
}
