//! The threads of a connector: a lock on their roster, and what wakes those that wait for a change of it.

ghost use Rattle.std.specs.Prelude.{◌≡◌, IfOk, IfSome};
ghost use Rattle.ilpstream_connector.specs.Crew.{IsOfConnector};

use crate::roster::{Failed, Leave, Roster};
use ilpstream_serving::{TransferError, left_until};
use std::alloc::{AllocError, Global};
use std::sync::{Condvar, Mutex, Wait};
use std::time::{Clock, Duration, Instant};

/// How many seconds the manager waits before it tries again to make a thread, unless a thread reports something before.
const RETRY_SECONDS: u64 = 1;

/// What the manager of a connector's threads is to do.
#[derive(Clone, Copy)]
pub(crate) enum Wanted {
    /// One more thread is to be made, for which a request is claimed.
    Thread,
    /// The given moment has passed.
    Moment,
    /// No thread is left.
    Nothing,
}

/// The threads of a connector, under a lock, with what wakes those that wait for a change of it.
#[derive(Drop)]
pub(crate) struct Crew {
    /// How many threads are to accept at any time.
    workers: u8,
    roster: Mutex<Roster>,
    /// Wakes the manager, which makes the threads.
    changed: Condvar,
    /// Wakes threads that wait until another one accepts.
    relieved: Condvar,
}

/// What the threads of a connector leave.
#[derive(Clone, Copy)]
pub(crate) struct CrewEnded {
    /// How many were to accept at any time.
    pub(crate) workers: u8,
    /// How many requests were not sent to a neighbour because too many threads were busy, or too many for their account.
    pub(crate) overloaded: u64,
    /// For how many requests no connection was accepted, since the connector was stopped.
    pub(crate) unserved: u64,
    /// The fault that ended all.
    pub(crate) fault: Option<TransferError>,
}

// Each function here that acquires the lock releases it before it returns.

impl Crew {
    /// No threads yet, for a given number of requests or for any, and for `accounts` accounts. At any time `workers` threads
    /// are to accept.
    pub(crate) fn new(
        alloc: Global,
        requests: Option<u64>,
        workers: u8,
        accounts: usize,
    ) -> Result<Crew, AllocError>
        ensures { IfOk result (λ crew. crew.workers ≡ workers) }
    {
        let roster = Roster::new(alloc, requests, accounts)?;
        Ok(Crew {
            workers,
            roster: Mutex::new(roster),
            changed: Condvar::new(),
            relieved: Condvar::new(),
        })
    }

    /// Waits until one more thread is to be made, for which a request is claimed, until no thread is left, or for a moment,
    /// if one is given. The moment has precedence: it is reported even if threads cannot be made.
    pub(crate) fn wants<R: Wait + Clock>(&self, rt: &R, moment: Option<Instant>) -> Wanted {
        let mut roster = self.roster.lock(rt);
        for _ in rt.forever() {
            let left = left_until(rt, moment);
            if moment.is_some() && left.is_none() {
                return Wanted::Moment;
            }
            if roster.hire(self.workers) {
                return Wanted::Thread;
            }
            if roster.threads() == 0 {
                return Wanted::Nothing;
            }
            roster = match left {
                Some(left) => self.changed.wait_timeout(rt, roster, left).0,
                None => self.changed.wait(rt, roster),
            };
        }
        unreachable!()
    }

    /// Stops the connector: no further thread accepts a connection, and those that have one finish. Each that accepts is to
    /// be woken.
    pub(crate) fn stop(&self, rt: &impl Wait) {
        self.roster.lock(rt).stop();
        self.changed.notify_one();
        self.relieved.notify_all();
    }

    /// Whether the connector is stopped.
    pub(crate) fn is_stopped(&self, rt: &impl Wait) -> bool {
        self.roster.lock(rt).is_stopped()
    }

    /// A thread that accepts asks whether it is to continue. It is not if the connector is stopped.
    pub(crate) fn rest(&self, rt: &impl Wait) -> bool {
        let goes_on = self.roster.lock(rt).rest();
        if !goes_on {
            self.changed.notify_one();
        }
        goes_on
    }

    /// How many requests were not sent to a neighbour so far.
    pub(crate) fn overloaded(&self, rt: &impl Wait) -> u64 {
        self.roster.lock(rt).overloaded
    }

    /// Gives the request of a thread back that could not be made, and waits until a thread reports something, for a
    /// second at most. If there is no other thread, no request is served.
    pub(crate) fn do_without<R: Wait + Clock>(&self, rt: &R) {
        let mut roster = self.roster.lock(rt);
        roster.give_up();
        self.relieved.notify_all();
        if roster.threads() > 0 {
            let time = Duration::from_secs(RETRY_SECONDS);
            let _ = self.changed.wait_timeout(rt, roster, time);
        }
    }

    /// A thread that was made begins to accept.
    pub(crate) fn begin(&self, rt: &impl Wait) {
        self.roster.lock(rt).begin();
        self.relieved.notify_all();
    }

    /// A thread has a connection. Answers what `may_send` asks; `None` if the thread is to end.
    pub(crate) fn take(&self, rt: &impl Wait) -> Option<u64> {
        let needed = self.roster.lock(rt).take();
        self.changed.notify_one();
        needed
    }

    /// The books refused a booking: no further request is served, and nothing more is sent to a neighbour. Each thread that
    /// accepts is to be woken.
    pub(crate) fn refuse(&self, rt: &impl Wait, number: u8) {
        self.roster.lock(rt).refuse(number);
        self.changed.notify_one();
        self.relieved.notify_all();
    }

    /// A thread meets a fault as it accepts. If all are to end, no further request is served: each thread that accepts is
    /// to be woken.
    pub(crate) fn fail(&self, rt: &impl Wait, fault: TransferError) -> Failed
        requires { IsOfConnector fault }
    {
        let failed = self.roster.lock(rt).fail(fault);
        self.changed.notify_one();
        self.relieved.notify_all();
        failed
    }

    /// A thread is done with its connection, of which the request `reached` its neighbour if it was to be sent on, for the
    /// account `sent_for`. Whether the thread is to accept the next one.
    pub(crate) fn finish(&self, rt: &impl Wait, sent_for: Option<usize>, reached: bool) -> bool {
        let goes_on = self.finish_one(rt, sent_for, reached);
        self.changed.notify_one();
        if goes_on {
            self.relieved.notify_all();
        }
        goes_on
    }

    fn finish_one(&self, rt: &impl Wait, sent_for: Option<usize>, reached: bool) -> bool {
        let mut roster = self.roster.lock(rt);
        roster.finish(sent_for);
        roster.go_on(self.workers, reached)
    }

    /// Whether a thread with a connection may send to a neighbour for an account: the account has fewer exchanges than places
    /// are free, and another thread accepts meanwhile. It waits until one does, or none can be made. Each refusal is counted.
    /// After a fault none may send. One that may has a place of its account until it is done.
    pub(crate) fn may_send(&self, rt: &impl Wait, account: usize, needed: u64) -> bool {
        let mut roster = self.roster.lock(rt);
        for _ in rt.forever() {
            match roster.leave(self.workers, account, needed) {
                Leave::Send => {
                    roster.send_for(account);
                    return true;
                }
                Leave::Refuse => {
                    if roster.fault.is_none() {
                        roster.overloaded = roster.overloaded.saturating_add(1);
                    }
                    return false;
                }
                Leave::Wait => roster = self.relieved.wait(rt, roster),
            }
        }
        unreachable!()
    }

    /// How many threads were to accept, how many requests were not sent to a neighbour, and the first fault.
    pub(crate) fn ended(self) -> CrewEnded
        ensures workers { result.workers ≡ self.workers }
        ensures fault { IfSome result.fault IsOfConnector }
    {
        let Crew {
            workers,
            roster,
            ..
        } = self;
        let roster = roster.into_inner();
        CrewEnded {
            workers,
            overloaded: roster.overloaded,
            unserved: roster.unserved(),
            fault: roster.why(),
        }
    }
}
