//! The links of a thread of a connector to the hop's neighbours.

ghost use Rattle.std.specs.Prelude.{◌≡◌, MatchOption, pos, ◌+ℤ◌};
ghost use Rattle.st_ilp.specs.Moments.{IsMoment};
ghost use Rattle.ilpstream_serving.specs.Moments.{IsEarlier};

use crate::common::Common;
use crate::counts::{Came, came_of};
use ilpstream_serving::{LinkCause, Sent, tell_outcome};
use st_ilp::Moment;
use st_links::{Links, Outcome};
use std::alloc::Global;
use std::net::Net;
use std::sync::Wait;
use std::sync::ledger::Ledger;
use std::time::Clock;

/// The links of one thread of a connector.
#[derive(Drop)]
pub(crate) struct Ways<'a, C: Ledger, D: Ledger, L, R: Net + Wait + Clock> {
    rt: &'a R,
    common: &'a Common<'a, C, D, L>,
    /// The account from which the request arrived.
    from: usize,
    /// How often threads are to have begun to accept before this one may send.
    needed: u64,
    /// When an exchange has to be done, so that its answer can still be passed back. `None` if there is no such moment.
    latest: Option<Moment>,
    /// What the last exchange brought, if there was one.
    pub(crate) came: Came,
    /// What became of the request's exchange.
    pub(crate) sent: Sent,
    /// Whether the request was to be sent to a neighbour, for which its account has a place.
    pub(crate) has_place: bool,
    /// Whether the last exchange could not connect to its neighbour.
    pub(crate) is_unreached: bool,
}

/// How many milliseconds after its connection was accepted a thread may wait for a neighbour: a second less than the whole
/// request may take.
const EXCHANGE_MILLIS: i64 = 29_000;

/// The moment that is `EXCHANGE_MILLIS` after this one.
pub(crate) fn latest_after(now: Moment) -> Option<Moment>
    ensures { MatchOption result (¬ (IsMoment (now +ℤ pos 29000))) (λ latest. latest ≡ now +ℤ pos 29000) }
{
    Moment::new(now.ms() + EXCHANGE_MILLIS)
}

/// The earlier of two moments, of which the first may be missing.
fn earlier(latest: Option<Moment>, by: Moment) -> Moment
    ensures { IsEarlier latest by result }
{
    match latest {
        Some(latest) if latest.ms() < by.ms() => latest,
        _ => by,
    }
}

impl<'a, C: Ledger, D: Ledger, L, R: Net + Wait + Clock> Ways<'a, C, D, L, R> {
    /// Links of which none was used yet, for a request from the account `from`.
    pub(crate) fn new(
        rt: &'a R,
        common: &'a Common<'a, C, D, L>,
        from: usize,
        needed: u64,
        latest: Option<Moment>,
    ) -> Ways<'a, C, D, L, R> {
        Ways {
            rt,
            common,
            from,
            needed,
            latest,
            came: Came::NotSent,
            sent: Sent::No,
            has_place: false,
            is_unreached: false,
        }
    }
}

impl<C: Ledger, D: Ledger, L, R: Net + Wait + Clock> Links<Global> for Ways<'_, C, D, L, R> {
    fn exchange(&mut self, account: usize, bytes: &[u8], by: Moment) -> Outcome<Global> {
        let Common {
            alloc,
            crew,
            neighbourhood,
            t00,
            terms,
            ..
        } = self.common;
        if crew.may_send(self.rt, self.from, self.needed) {
            self.has_place = true;
            let by = earlier(self.latest, by);
            let (outcome, cause) = neighbourhood.exchange(self.rt, *alloc, account, bytes, by);
            self.came = came_of(&outcome);
            self.is_unreached = matches!(cause, Some(LinkCause::Unreached(_)));
            self.sent = tell_outcome(self.rt, terms.log, account, &outcome, cause);
            return outcome;
        }
        match Vec::from_slice(*alloc, t00) {
            Ok(reject) => Outcome::Answered(reject),
            Err(_) => Outcome::Fault,
        }
    }
}
