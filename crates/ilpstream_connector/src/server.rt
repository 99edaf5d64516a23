//! How a thread of a connector answers a request.

ghost use Rattle.std.specs.Prelude.{◌≡◌, IsSome, Some};

use crate::common::Common;
use crate::counts::count_answer;
use crate::storing::Storing;
use crate::ways::{Ways, latest_after};
use ilpstream_serving::{AwaitListener, SharedClock, tell_served};
use st_hop_desk::{Served, serve};
use st_http::Answerer;
use st_ilp::Moment;
use st_links::Keeper;
use std::cell::Cell;
use std::net::Net;
use std::sync::Wait;
use std::sync::ledger::Ledger;
use std::time::Clock;

/// What answers the requests that one thread of a connector accepts.
#[derive(Drop)]
pub(crate) struct Server<'a, C: Ledger, D: Ledger, K: Keeper, L, R: Net + Wait + Clock> {
    pub(crate) rt: &'a R,
    pub(crate) common: &'a Common<'a, C, D, L>,
    /// How often threads are to have begun to accept before this one may send.
    pub(crate) needed: u64,
    /// When an exchange has to be done, so that its answer can still be passed back.
    pub(crate) latest: Option<Moment>,
    pub(crate) books: Storing<'a, K, L, R>,
    pub(crate) clock: SharedClock<'a, R>,
    /// The account from which the last request that was answered arrived at the desk.
    pub(crate) account: Option<usize>,
    /// The account of which the thread has a place, for an exchange, until it is done with its connection.
    pub(crate) sent_for: Option<usize>,
    /// Whether the exchange of the last request could not connect to its neighbour.
    pub(crate) is_unreached: bool,
    /// Set if the last request is to have no answer.
    pub(crate) withheld: &'a Cell<bool>,
}

impl<C: Ledger, D: Ledger, K: Keeper, L: AwaitListener, R: Net + Wait + Clock> Answerer
    for Server<'_, C, D, K, L, R> {
    // An answer was given at the desk to this account.
    ghost gives = { λ _ account _ answer new. IsSome answer → new.account ≡ Some account };

    fn answer(&mut self, account: usize, body: &[u8]) -> Option<Vec<u8>> {
        let (rt, common) = (self.rt, self.common);
        let mut ways = Ways::new(rt, common, account, self.needed, self.latest);
        let served = serve(
            rt,
            &common.desk,
            &common.shares,
            account,
            body,
            &mut ways,
            &mut self.books,
            &mut self.clock,
        );
        if ways.has_place {
            self.sent_for = Some(account);
        }
        match served {
            Ok(Served { account, answer }) => {
                self.account = Some(account);
                self.is_unreached = ways.is_unreached;
                match &answer {
                    Some(answer) => {
                        count_answer(rt, &common.counts, account, ways.came, answer);
                        tell_served(rt, common.terms.log, account, answer, ways.sent);
                    }
                    None => self.withheld.set(true),
                }
                answer
            }
            Err(_) => None,
        }
    }
}

impl<C: Ledger, D: Ledger, K: Keeper, L, R: Net + Wait + Clock> Server<'_, C, D, K, L, R> {
    /// Notes that a connection was accepted now, and how often threads are to have begun to accept before its request may
    /// be sent to a neighbour.
    pub(crate) fn note_accepted(&mut self, needed: u64) {
        let now = st_links::Clock::now(&mut self.clock);
        self.needed = needed;
        self.latest = latest_after(now);
        self.sent_for = None;
        self.is_unreached = false;
        self.withheld.set(false);
    }
}
