//! What is reported to the log.

ghost use Rattle.std.specs.Prelude.{◌≡◌, IfOk, None, string_bytes};
ghost use Rattle.std.specs.Net.Text.{socket_text};
ghost use Rattle.ilpstream_log.specs.declared.progress.Brief.TheVariants.{Reject};
ghost use Rattle.ilpstream_serving.specs.Telling.{cause_told, lost_told, unreached_told};

use crate::cause::{LinkCause, Unreached};
use crate::clock::moment_now;
use crate::error::TransferError;
use crate::journal::LogFile;
use ilpstream_log::{Brief, Cause, Event, Lost, Unreached as Why};
use st_file::FileError;
use st_ilp::{Answer, read_answer};
use st_links::Outcome;
use std::alloc::{AllocError, Global};
use std::net::SocketAddr;
use std::time::Clock;

/// The log of a run, if it has one.
pub type Log<'a> = Option<&'a LogFile>;

/// What became of the exchange of a request.
#[derive(Clone, Copy)]
pub enum Sent {
    /// There was none.
    No,
    /// It brought a Fulfill from this account.
    Fulfilled(usize),
    /// It brought none, and that was reported.
    Unfulfilled,
}

/// Why a packet was refused here.
#[derive(Clone, Copy)]
pub struct Refusal {
    /// The code of the Reject.
    code: [u8; 3],
    /// The number of the reason, if there is one.
    reason: Option<u8>,
}

impl Refusal {
    /// The refusal without its reason.
    pub fn brief(&self) -> Brief
        ensures { result ≡ Reject self.now.code }
    {
        Brief::Reject(self.code)
    }

    /// Memory was refused.
    pub fn without_memory() -> Refusal {
        Refusal {
            code: *b"T00",
            reason: None,
        }
    }
}

/// Why an end refused a packet, by its answer and the number of its reason. `None` if that is 0.
pub fn refusal_of(answer: &[u8], reason: u8) -> Option<Refusal>
    ensures { reason ≡ 0 → result ≡ None }
{
    if reason == 0 {
        return None;
    }
    let Ok(answer) = read_answer(answer) else {
        return None;
    };
    match answer {
        Answer::Reject { code, .. } => Some(Refusal {
            code: code.text(),
            reason: Some(reason),
        }),
        Answer::Fulfill { .. } => None,
    }
}

/// Why no connection was made, as the log reports it.
fn why_of(unreached: Unreached) -> Why
    ensures { result ≡ unreached_told unreached }
{
    match unreached {
        Unreached::Other => Why::Other,
        Unreached::Descriptors => Why::Descriptors,
        Unreached::Name => Why::Name,
        Unreached::Refused => Why::Refused,
        Unreached::Timeout => Why::Timeout,
    }
}

/// Why an exchange brought no answer, as the log reports it.
pub fn cause_of(cause: Option<LinkCause>) -> Cause<'static>
    ensures { result ≡ cause_told cause }
{
    match cause {
        Some(LinkCause::Http(error)) => Cause::Link {
            fault: error.number(),
            status: LinkCause::Http(error).status(),
        },
        Some(LinkCause::NoMemory) => Cause::NoMemory,
        Some(LinkCause::Unreached(unreached)) => Cause::Unreached(why_of(unreached)),
        None => Cause::Unreached(Why::Other),
    }
}

/// What became of a connection on which a response with this status was written, or none was. `None` if its request was
/// answered.
pub(crate) fn lost_by(status: Option<u16>) -> Option<Lost>
    ensures { result ≡ lost_told status }
{
    match status {
        Some(200) => None,
        Some(status) => Some(Lost::Status(status)),
        None => Some(Lost::Cut),
    }
}

/// Writes the line of an event that happens now, if there is a log. The thread has not locked a hub or a desk then.
pub fn tell<R: Clock>(rt: &R, log: Log<'_>, neighbour: usize, event: &Event<'_>) {
    if let Some(journal) = log {
        journal.note(rt, moment_now(rt), neighbour, event);
    }
}

/// Reports why an exchange brought no answer.
fn tell_fault<R: Clock>(rt: &R, log: Log<'_>, neighbour: usize, cause: Option<LinkCause>) {
    tell(rt, log, neighbour, &Event::Exchange(cause_of(cause)));
}

/// Why an exchange with this answer brought no Fulfill. `None` if it did.
pub fn cause_in(answer: &[u8]) -> Option<Cause<'_>> {
    let Ok(answer) = read_answer(answer) else {
        return Some(Cause::Unreadable);
    };
    match answer {
        Answer::Fulfill { .. } => None,
        Answer::Reject {
            code,
            by,
            message,
            ..
        } => Some(Cause::Reject {
            code: code.text(),
            by,
            message,
        }),
    }
}

/// Reports an answer that is not a Fulfill. Returns whether it is one.
fn tell_answer<R: Clock>(rt: &R, log: Log<'_>, neighbour: usize, answer: &[u8]) -> bool {
    let Some(cause) = cause_in(answer) else {
        return true;
    };
    tell(rt, log, neighbour, &Event::Exchange(cause));
    false
}

/// Reports what an exchange brought, if it is not a Fulfill.
pub fn tell_outcome<R: Clock>(
    rt: &R,
    log: Log<'_>,
    neighbour: usize,
    outcome: &Outcome<Global>,
    cause: Option<LinkCause>,
) -> Sent {
    if log.is_none() {
        return Sent::Unfulfilled;
    }
    match outcome {
        Outcome::Answered(answer) => {
            if tell_answer(rt, log, neighbour, answer) {
                return Sent::Fulfilled(neighbour);
            }
        }
        Outcome::Fault => tell_fault(rt, log, neighbour, cause),
    }
    Sent::Unfulfilled
}

/// Reports that a packet from a neighbour was refused here, if the answer is a Reject.
pub(crate) fn tell_refusal<R: Clock>(
    rt: &R,
    log: Log<'_>,
    neighbour: usize,
    answer: &[u8],
    reason: Option<u8>,
) {
    let Ok(answer) = read_answer(answer) else {
        return;
    };
    if let Answer::Reject { code, .. } = answer {
        let code = code.text();
        tell(rt, log, neighbour, &Event::Refused { code, reason });
    }
}

/// Reports what a hop answered by itself: a Reject to an account without an exchange, or one in the place of a Fulfill.
pub fn tell_served<R: Clock>(rt: &R, log: Log<'_>, account: usize, answer: &[u8], sent: Sent) {
    if log.is_none() {
        return;
    }
    match sent {
        Sent::No => tell_refusal(rt, log, account, answer, None),
        Sent::Fulfilled(to) => {
            if !matches!(read_answer(answer), Ok(Answer::Fulfill { .. })) {
                tell(rt, log, to, &Event::Exchange(Cause::Unfit));
            }
        }
        Sent::Unfulfilled => {}
    }
}

/// Reports that the clock was set back by this number of milliseconds, if it was.
pub(crate) fn tell_set_back<R: Clock>(rt: &R, log: Log<'_>, set_back: Option<u64>) {
    if let Some(set_back) = set_back {
        tell(rt, log, 0, &Event::Clock { set_back });
    }
}

/// An address as IP:PORT. Fails if memory is refused.
fn address_text(alloc: Global, address: SocketAddr) -> Result<String, AllocError>
    ensures { IfOk result (λ text. string_bytes text ≡ socket_text address) }
{
    format!(in alloc; "{address}")
}

/// Reports a connection from this address on which no request was answered.
pub fn tell_connection<R: Clock>(
    rt: &R,
    alloc: Global,
    log: Log<'_>,
    from: SocketAddr,
    status: Option<u16>,
) {
    if log.is_none() {
        return;
    }
    if let Some(lost) = lost_by(status) {
        let text = address_text(alloc, from);
        let from = match &text {
            Ok(text) => text.as_str(),
            Err(_) => "",
        };
        tell(rt, log, 0, &Event::Connection { lost, from });
    }
}

/// Reports that an end refused a packet, if it did.
pub fn tell_refused<R: Clock>(rt: &R, log: Log<'_>, refused: Option<Refusal>) {
    if let Some(refusal) = refused {
        let code = refusal.code;
        let reason = refusal.reason;
        tell(rt, log, 0, &Event::Refused { code, reason });
    }
}

/// Reports how a stream ended, if it did.
pub fn tell_end<R: Clock>(rt: &R, log: Log<'_>, stream: u64, ended: &Result<u64, TransferError>) {
    let code = match ended {
        Ok(_) => None,
        Err(TransferError::File(FileError::Aborted(code, _))) => Some(*code),
        Err(_) => return,
    };
    tell(rt, log, 0, &Event::Closed { stream, code });
}
