//! The line that shows on a terminal how far a transfer is.

ghost use Rattle.std.specs.Prelude.{◌≡◌, IfOk, Some, string_bytes};
ghost use Rattle.ilpstream_log.specs.Progress as spec;
ghost use Rattle.ilpstream_log.specs.declared.progress.Brief.TheVariants as brief;

use crate::event::{Cause, Unreached};
use crate::quote::code_text;
use st_streams::Blocked;
use std::alloc::{AllocError, Global};

/// Why an exchange brought no Fulfill, without the texts of a peer.
#[derive(Clone, Copy)]
pub enum Brief {
    /// The link to the neighbour failed.
    Link {
        /// The number of its fault.
        fault: u8,
        /// The status of the response, if it is not 200.
        status: Option<u16>,
    },
    /// No connection to the neighbour was made.
    Unreached(Unreached),
    /// The answer is a Reject of this code.
    Reject([u8; 3]),
    /// The answer is a Fulfill that is not passed back.
    Unfit,
    /// The answer is neither a Fulfill nor a Reject.
    Unreadable,
    /// There was no memory for the exchange.
    NoMemory,
}

/// How far a transfer is.
#[derive(Clone, Copy)]
pub struct Progress {
    /// The bytes that were sent or received.
    pub bytes: u64,
    /// How many bytes the input has, if that is known.
    pub length: Option<u64>,
    /// How many of these bytes arrived in the last seconds.
    pub gained: u64,
    /// The milliseconds of these last seconds.
    pub millis: u64,
    /// The units that were paid or received.
    pub units: u64,
    /// The limit of the peer at which the end waits. `None` if it does not.
    pub waits: Option<Blocked>,
    /// Why the last exchange without a Fulfill brought none. `None` if there was no such exchange.
    pub last: Option<Brief>,
}

impl Cause<'_> {
    /// The cause without the texts of a peer.
    pub fn brief(&self) -> Brief
        ensures { result ≡ spec.brief_of self.now }
    {
        match *self {
            Cause::Link { fault, status } => Brief::Link { fault, status },
            Cause::Unreached(why) => Brief::Unreached(why),
            Cause::Reject { code, .. } => Brief::Reject(code),
            Cause::Unfit => Brief::Unfit,
            Cause::Unreadable => Brief::Unreadable,
            Cause::NoMemory => Brief::NoMemory,
        }
    }
}

/// The part of an input of this length that these bytes are, in percent.
fn percent(bytes: u64, length: u64) -> u128
    ensures { result ≡ spec.percent bytes length }
{
    if length == 0 {
        return 100;
    }
    (u128::from(bytes) * 100 / u128::from(length)).min(100)
}

/// Bytes a second, if `gained` bytes arrived in `millis` milliseconds.
fn rate(gained: u64, millis: u64) -> u128
    ensures { result ≡ spec.rate gained millis }
{
    if millis == 0 {
        return 0;
    }
    u128::from(gained) * 1_000 / u128::from(millis)
}

/// The seconds in which the rest of an input of this length arrives, at the pace of `gained` bytes in `millis` milliseconds.
/// `None` if that is unknown.
fn seconds_left(bytes: u64, length: Option<u64>, gained: u64, millis: u64) -> Option<u128>
    ensures { result ≡ spec.seconds_left bytes length gained millis }
{
    let length = length?;
    if gained == 0 || millis == 0 {
        return None;
    }
    let rest = u128::from(length.saturating_sub(bytes));
    Some(rest * u128::from(millis) / (u128::from(gained) * 1_000))
}

fn part_text(alloc: Global, bytes: u64, length: Option<u64>) -> Result<String, AllocError>
    ensures { IfOk result (λ text. string_bytes text ≡ spec.part_text bytes length) }
{
    let Some(length) = length else {
        return Ok(String::new(alloc));
    };
    let percent = percent(bytes, length);
    format!(in alloc; " ({percent} %)")
}

/// A time as in 1:02:03.
fn time_text(alloc: Global, seconds: u128) -> Result<String, AllocError>
    ensures { IfOk result (λ text. string_bytes text ≡ spec.time_text seconds) }
{
    let hours = seconds / 3_600;
    let (minutes, rest) = (seconds / 60 % 60, seconds % 60);
    let (a, b) = (minutes / 10, minutes % 10);
    let (c, d) = (rest / 10, rest % 10);
    let text = format!(in alloc; "{hours}:{a}{b}:{c}{d}")?;
    Ok(text)
}

fn left_text(alloc: Global, seconds: Option<u128>) -> Result<String, AllocError>
    ensures { IfOk result (λ text. string_bytes text ≡ spec.left_text seconds) }
{
    let Some(seconds) = seconds else {
        return Ok(String::new(alloc));
    };
    let time = time_text(alloc, seconds)?;
    format!(in alloc; ", {time} left")
}

fn waits_text(alloc: Global, waits: Option<Blocked>) -> Result<String, AllocError>
    ensures { IfOk result (λ text. string_bytes text ≡ spec.waits_text waits) }
{
    match waits {
        None => Ok(String::new(alloc)),
        Some(Blocked::Connection { max_offset: limit }) => {
            format!(in alloc; " (waits at the limit of {limit} bytes)")
        }
        Some(
            Blocked::Data {
                max_offset: limit,
                ..
            },
        ) => { format!(in alloc; " (waits at the limit of {limit} bytes)") }
        Some(Blocked::Money { receive_max, .. }) => {
            format!(in alloc; " (waits at the limit of {receive_max} units)")
        }
    }
}

fn link_text(alloc: Global, fault: u8, status: Option<u16>) -> Result<String, AllocError>
    ensures { IfOk result (λ text. string_bytes text ≡ spec.failure_text (Some (brief.Link fault status))) }
{
    match status {
        Some(status) => { format!(in alloc; " (last failure: link fault {fault} status {status})") }
        None => format!(in alloc; " (last failure: link fault {fault})"),
    }
}

fn unreached_text(alloc: Global, why: Unreached) -> Result<String, AllocError>
    ensures { IfOk result (λ text. string_bytes text ≡ spec.failure_text (Some (brief.Unreached why))) }
{
    let word = why.word();
    format!(in alloc; " (last failure: {word})")
}

fn reject_text(alloc: Global, code: &[u8; 3]) -> Result<String, AllocError>
    ensures { IfOk result (λ text. string_bytes text ≡ spec.failure_text (Some (brief.Reject code.now))) }
{
    let code = code_text(alloc, code)?;
    format!(in alloc; " (last failure: reject {code})")
}

fn failure_text(alloc: Global, last: Option<Brief>) -> Result<String, AllocError>
    ensures { IfOk result (λ text. string_bytes text ≡ spec.failure_text last) }
{
    match last {
        None => Ok(String::new(alloc)),
        Some(Brief::Link { fault, status }) => link_text(alloc, fault, status),
        Some(Brief::Unreached(why)) => unreached_text(alloc, why),
        Some(Brief::Reject(code)) => reject_text(alloc, &code),
        Some(Brief::Unfit) => String::from_str(alloc, " (last failure: fulfillment)"),
        Some(Brief::Unreadable) => String::from_str(alloc, " (last failure: answer)"),
        Some(Brief::NoMemory) => String::from_str(alloc, " (last failure: memory)"),
    }
}

/// What follows the units.
#[tactic(auto, using(crate::proofs::Pieces::pieces))]
fn tail_text(alloc: Global, progress: &Progress) -> Result<String, AllocError>
    ensures { IfOk result (λ text. string_bytes text ≡ spec.tail_text progress.now) }
{
    let Progress {
        bytes,
        length,
        gained,
        millis,
        waits,
        last,
        ..
    } = *progress;
    let seconds = seconds_left(bytes, length, gained, millis);
    let left = left_text(alloc, seconds)?;
    let limit = waits_text(alloc, waits)?;
    let failure = failure_text(alloc, last)?;
    format!(in alloc; "{left}{limit}{failure}")
}

/// The line of a transfer that is so far: from the first column of a terminal, whose line it rewrites, and back to it. It has no
/// other control character than these carriage returns and the sequence that clears the rest of the line.
///
/// Fails if memory is refused.
pub fn shown(alloc: Global, progress: &Progress) -> Result<String, AllocError>
    ensures { IfOk result (λ text. string_bytes text ≡ spec.shown_text progress.now) }
{
    let Progress {
        bytes,
        length,
        gained,
        millis,
        units,
        ..
    } = *progress;
    let part = part_text(alloc, bytes, length)?;
    let rate = rate(gained, millis);
    let tail = tail_text(alloc, progress)?;
    format!(in alloc; "\r{bytes} bytes{part}, {rate} bytes/s, {units} units{tail}\x1b[K\r")
}
