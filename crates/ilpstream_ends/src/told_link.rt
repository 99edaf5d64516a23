//! What a worker of `send` reports to the log: exchanges without a Fulfill, and what the end alone finds in an answer.

ghost use Rattle.std.specs.Prelude.{◌≡◌};
ghost use Rattle.ilpstream_serving.specs.Telling.{wait_told};
ghost use Rattle.ilpstream_ends.specs.Answering.{end_told};

use ilpstream_log::{Blocked, Cause, Event};
use ilpstream_serving::{HttpLink, Latest, Log, cause_in, cause_of, tell};
use st_devices::Counted;
use st_end::{Failed, FailedKind};
use st_hub::Observer;
use st_ilp::{ErrorCode, Moment};
use st_links::{Link, LinkFault};
use std::alloc::Global;
use std::net::Net;
use std::time::Clock;

/// The log and the watcher to which a worker of `send` reports what its exchanges brought, if there are any.
#[derive(Clone, Copy)]
pub(crate) struct Told<'a> {
    pub(crate) log: Log<'a>,
    pub(crate) last: Option<&'a Latest>,
}

impl Told<'_> {
    /// Reports why an exchange brought no Fulfill.
    fn tell<R: Clock>(&self, rt: &R, cause: Cause<'_>) {
        if let Some(last) = self.last {
            last.keep(cause.brief());
        }
        tell(rt, self.log, 0, &Event::Exchange(cause));
    }
}

/// A link of a sender. What each exchange brought is passed on as it is, and reported to the log if it is not a Fulfill.
#[derive(Drop)]
pub(crate) struct ToldLink<'a, R: Net + Clock> {
    pub(crate) link: HttpLink<'a, R, Global>,
    pub(crate) rt: &'a R,
    pub(crate) told: Told<'a>,
}

impl<R: Net + Clock> Counted for ToldLink<'_, R> {
    ghost fault_count = { λ s. s.link.faults };

    fn faults(&self) -> u64 {
        self.link.faults()
    }
}

impl<R: Net + Clock> ToldLink<'_, R> {
    /// Reports what an exchange brought.
    fn tell(&self, answer: &Result<Vec<u8>, LinkFault>) {
        if self.told.log.is_none() && self.told.last.is_none() {
            return;
        }
        match answer {
            Ok(answer) => {
                if let Some(cause) = cause_in(answer) {
                    self.told.tell(self.rt, cause);
                }
            }
            Err(_) => self.told.tell(self.rt, cause_of(self.link.cause())),
        }
    }
}

impl<R: Net + Clock> Link<Global> for ToldLink<'_, R> {
    fn exchange(&mut self, bytes: &[u8], by: Moment) -> Result<Vec<u8>, LinkFault> {
        if let Some(last) = self.told.last {
            last.sends();
        }
        let answer = self.link.exchange(bytes, by);
        self.tell(&answer);
        answer
    }
}

/// The event of a Prepare that failed, if only the end knows of it: a Fulfill that does not fit, and a new packet limit.
fn event_of(failed: &Failed, limit: u64) -> Option<Event<'static>>
    ensures { result ≡ end_told failed.now limit }
{
    match failed.kind() {
        FailedKind::Unfit => Some(Event::Exchange(Cause::Unfit)),
        FailedKind::Rejected => match failed.code() {
            Some(code) if code == ErrorCode::AMOUNT_TOO_LARGE => Some(Event::Limit { most: limit }),
            _ => None,
        },
        FailedKind::Lost | FailedKind::Unreadable => None,
    }
}

/// The event of a limit of the peer at which the end waits.
fn wait_of(blocked: Blocked) -> Event<'static>
    ensures { result ≡ wait_told blocked }
{
    Event::Waits(blocked)
}

/// Reports Prepares that failed to the log, if the link does not, and limits of the peer.
#[derive(Drop)]
pub(crate) struct ToldFlights<'a, R: Clock> {
    pub(crate) rt: &'a R,
    pub(crate) told: Told<'a>,
}

impl<R: Clock> Observer for ToldFlights<'_, R> {
    fn failed(&mut self, failed: &Failed, limit: u64) {
        match event_of(failed, limit) {
            Some(Event::Exchange(cause)) => self.told.tell(self.rt, cause),
            Some(event) => tell(self.rt, self.told.log, 0, &event),
            None => {}
        }
    }

    fn waits(&mut self, blocked: Blocked) {
        if let Some(last) = self.told.last {
            last.reaches(blocked);
        }
        tell(self.rt, self.told.log, 0, &wait_of(blocked));
    }
}
