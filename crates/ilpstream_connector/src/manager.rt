//! The manager of a connector's threads: it makes them, reports each period, and does what the connector is asked for.

ghost use Rattle.std.specs.Prelude.{◌≡◌, length};

use crate::accounts::AccountTotals;
use crate::common::Common;
use crate::crew::Wanted;
use crate::minutes::{Minutes, Order, tell_minute};
use crate::worker::{Job, spawn_one};
use ilpstream_serving::{AwaitListener, deadline_in, left_until, shut};
use st_links::Keeper;
use std::net::Net;
use std::sync::Wait;
use std::sync::ledger::Ledger;
use std::thread;
use std::thread::{Scope, Threads};
use std::time::{Clock, Duration, Instant};

/// When the manager of a connector's threads has something else to do.
#[derive(Clone, Copy)]
struct Next {
    /// When a period ends.
    period_ends: Option<Instant>,
    /// When it checks for an order, if there may be one.
    looks: Option<Instant>,
}

/// How long the manager waits before it checks for an order.
const LOOK_MILLIS: u64 = 200;

/// How many orders there may be at one check.
const MOST_ORDERS: u32 = 64;

impl Next {
    fn new<C: Ledger, D: Ledger, L>(rt: &impl Clock, common: &Common<'_, C, D, L>) -> Next {
        let mut next = Next {
            period_ends: deadline_in(rt, common.terms.period),
            looks: None,
        };
        next.look_later(rt, common.is_asked);
        next
    }

    fn look_later(&mut self, rt: &impl Clock, is_asked: bool) {
        if is_asked {
            self.looks = deadline_in(rt, Duration::from_millis(LOOK_MILLIS));
        }
    }

    /// The earlier of both moments.
    fn moment(&self) -> Option<Instant> {
        match (self.period_ends, self.looks) {
            (Some(one), Some(other)) => Some(one.min(other)),
            (one, other) => one.or(other),
        }
    }

    /// To be called once `moment` has passed: the period may be over, and there may be orders.
    fn come<C: Ledger, D: Ledger, M: Minutes, L: AwaitListener, R: Wait + Clock>(
        &mut self,
        rt: &R,
        common: &Common<'_, C, D, L>,
        accounts: &mut [AccountTotals],
        minutes: &mut M,
    ) {
        if left_until(rt, self.period_ends).is_none() {
            report(rt, common, accounts, minutes);
            self.period_ends = deadline_in(rt, common.terms.period);
        }
        if common.is_asked && left_until(rt, self.looks).is_none() {
            obey(rt, common, accounts, minutes);
        }
        self.look_later(rt, common.is_asked);
    }
}

/// Reports what the connector has, for which `accounts` has places.
fn report<C: Ledger, D: Ledger, M: Minutes, L>(
    rt: &impl Wait,
    common: &Common<'_, C, D, L>,
    accounts: &mut [AccountTotals],
    minutes: &mut M,
) {
    let Common {
        alloc,
        desk,
        counts,
        crew,
        ..
    } = common;
    tell_minute(rt, *alloc, desk, counts, crew, accounts, minutes);
}

/// Does what the connector is asked for.
fn obey<C: Ledger, D: Ledger, M: Minutes, L: AwaitListener>(
    rt: &impl Wait,
    common: &Common<'_, C, D, L>,
    accounts: &mut [AccountTotals],
    minutes: &mut M,
) {
    for _ in 0..MOST_ORDERS {
        match minutes.next_order() {
            Order::Nothing => return,
            Order::Done => {}
            Order::Report => report(rt, common, accounts, minutes),
            Order::Pause => common.crew.stop(rt),
            Order::Stop => {
                common.crew.stop(rt);
                shut(common.listener);
            }
        }
    }
}

/// Makes the threads of a connector in a scope, whenever too few of them accept, until none is left. Each period it reports
/// what the connector has, for which `accounts` has places.
fn make_threads<
    's,
    E,
    C: Ledger + Send + Sync,
    D: Ledger + Send + Sync,
    K: Keeper + Send,
    M: Minutes,
    R: Net + Wait + Clock + Sync,
>(
    rt: &R,
    scope: &Scope<'s, E>,
    job: &'s Job<'s, C, D, K, R::Listener, R>,
    accounts: &mut [AccountTotals],
    minutes: &mut M,
)
where
    R::Stream: Send,
    R::Listener: AwaitListener + Send + Sync,
{
    let crew = &job.common.crew;
    let mut next = Next::new(rt, job.common);
    for _ in rt.forever() {
        match crew.wants(rt, next.moment()) {
            Wanted::Nothing => return,
            Wanted::Thread => {
                if !spawn_one(scope, job) {
                    crew.do_without(rt);
                }
            }
            Wanted::Moment => next.come(rt, job.common, accounts, minutes),
        }
    }
}

/// Makes the threads of a connector, and waits until none is left.
pub(crate) fn manage<
    'a,
    C: Ledger + Send + Sync,
    D: Ledger + Send + Sync,
    K: Keeper + Send,
    M: Minutes,
    R: Net + Threads + Wait + Clock + Sync,
>(
    rt: &'a R,
    job: &'a Job<'a, C, D, K, R::Listener, R>,
    accounts: &mut [AccountTotals],
    minutes: &mut M,
)
where
    R::Stream: Send,
    R::Listener: AwaitListener + Send + Sync,
    ensures { length accounts.new ≡ length accounts.old }
{
    thread::scope(thread::scope_env(), rt, |scope| {
        make_threads(rt, scope, job, accounts, minutes);
    });
}
