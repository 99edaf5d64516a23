//! How many threads of a connector accept, how many requests they may still accept, and which of them may send.

ghost use Rattle.std.specs.Prelude.{◌≡◌, ◌⊎◌, ◌+◌, ◌-◌, ◌^◌, ◌<◌, ◌↔◌, ℕ, false, true, not, slice_index, slice_set, IfOk, IfSome, IsNone, IsSome, IsTrue, MatchBool, None, Some};
ghost use Rattle.st_devices.specs.Faults.{count_after};
ghost use Rattle.ilpstream_connector.specs.Crew.{threads_of, Hires, LeavesAgain, LeavesUnserved, IsMissed, Stops, GivesUp, Wants, Begins, Takes, Leaves, IsNeeded, IsDone, GoesOn, Stays, LeavesNone, IsFailed, HasPlace, Sends, IsLeave, IsOfConnector, empty_roster};
ghost use Rattle.ilpstream_serving.specs.declared.error.TransferError.TheVariants.{Books};

use ilpstream_serving::TransferError;
use std::alloc::{AllocError, Global};
use std::marker::Model;

/// How many threads with a connection there may be while further ones send to a neighbour. An account may have as many
/// exchanges as are left of them, so that it leaves at least half of those that it found to others.
pub(crate) const MOST_BUSY: u64 = 1_024;

/// For how many threads a till of a connector has to be: at most this number send to a neighbour at once, and store what
/// their Fulfills book.
pub const MOST_THREADS: usize = MOST_BUSY as usize;

/// How many more threads than workers may wait for a connection, so that not every connection makes a thread.
const SPARE: u64 = 16;

/// Whether a thread may send to a neighbour, so that it accepts nothing until the answer is here.
#[derive(Clone, Copy)]
pub(crate) enum Leave {
    /// It may send.
    Send,
    /// It is to wait until another thread accepts, or none can be made.
    Wait,
    /// It may not.
    Refuse,
}

/// What a thread is to do that met a fault as it accepted.
#[derive(Clone, Copy)]
pub(crate) enum Failed {
    /// It is to try again.
    Again,
    /// It is to end. Other threads accept.
    Leave,
    /// It is to end, and so are all.
    End,
}

/// How many threads send for an account, by the account's place: none for one that is not there.
#[tactic(auto, using(std::proofs::lemmas::List::get_or_past))]
fn sending_for(sending: &[u64], account: usize) -> u64
    ensures { result ≡ slice_index sending.now account }
{
    if account < sending.len() {
        sending[account]
    } else {
        0
    }
}

/// One thread more sends for an account.
#[tactic(auto, using(std::proofs::lemmas::List::set_past))]
fn one_more(sending: &mut [u64], account: usize)
    ensures { sending.new ≡ slice_set sending.old account (count_after 1 (slice_index sending.old account)) }
{
    if account < sending.len() {
        sending[account] = sending[account].saturating_add(1);
    }
}

/// One thread fewer sends for an account.
#[tactic(auto, using(std::proofs::lemmas::List::set_past))]
fn one_less(sending: &mut [u64], account: usize)
    ensures { sending.new ≡ slice_set sending.old account (slice_index sending.old account - 1) }
{
    if account < sending.len() {
        sending[account] = sending[account].saturating_sub(1);
    }
}

/// The threads of a connector, and its requests: the value of one lock. Each request is left, or claimed by one thread, or
/// spent. A thread that accepted a connection keeps its claim until it is done with it.
#[derive(Drop)]
pub(crate) struct Roster {
    requests: u64,
    /// Whether each request is left again once its connection is done, until a fault ended all: then there are always more than
    /// threads.
    is_endless: bool,
    /// Requests that no thread has claimed.
    left: u64,
    /// Threads that are being made.
    coming: u64,
    /// Threads that wait for a connection.
    accepting: u64,
    /// Threads with a connection.
    busy: u64,
    /// How many of these were to send to a neighbour, by the place of the account from which the request arrived.
    sending: Vec<u64>,
    /// Requests whose connections are done, and those for which none is accepted any more since a fault ended all.
    spent: u64,
    /// Requests for which no connection is accepted any more since the connector is stopped.
    unserved: u64,
    /// How often a thread began to accept.
    begun: u64,
    /// Threads that ended because their accepts failed, since the last connection.
    failed: u64,
    /// Whether the last thread could not be made.
    is_refused: bool,
    /// Whether the connector is stopped: then no request is left to any thread, and each that accepts is to end.
    is_stopped: bool,
    /// How many requests were not sent to a neighbour because too many threads were busy.
    pub(crate) overloaded: u64,
    /// The fault that ended all: no request is served after it, but by threads that have a connection.
    pub(crate) fault: Option<TransferError>,
}

impl Model for Roster {
    ghost use Rattle.std.specs.Prelude.{◌≡◌, ◌+◌, ◌-◌, ◌^◌, ◌≤◌, false, IfSome, IsNone, IsSome, IsTrue};
    ghost use Rattle.ilpstream_connector.specs.Crew as crew;

    ghost Value = { crew.Roster };

    ghost view = { λ r. record {
      left = r.left;
      coming = r.coming;
      accepting = r.accepting;
      busy = r.busy;
      sending = r.sending.items;
      spent = r.spent;
      unserved = r.unserved;
      begun = r.begun;
      failed = r.failed;
      refused = r.is_refused;
      endless = r.is_endless;
      stopped = r.is_stopped;
      fault = r.fault;
    } };

    ghost invariant = { λ r. (r.left + r.coming + r.accepting + r.busy + r.spent + r.unserved ≡ r.requests)
        × (r.coming + r.accepting + r.busy ≤ 1279)
        × (IsSome r.fault → r.left ≡ 0)
        × (IfSome r.fault crew.IsOfConnector)
        × (IsTrue r.is_stopped → r.left ≡ 0)
        × (r.is_stopped ≡ false → r.unserved ≡ 0)
        × (IsTrue r.is_endless → (r.requests ≡ 2 ^ 64 - 1) × (IsNone r.fault → r.is_stopped ≡ false → r.spent ≡ 0)) };
}

impl Roster {
    /// No threads, a given number of requests or any, and a given number of accounts.
    pub(crate) fn new(
        alloc: Global,
        requests: Option<u64>,
        accounts: usize,
    ) -> Result<Roster, AllocError>
        ensures { IfOk result (λ roster. roster ≡ empty_roster requests accounts) }
    {
        let is_endless = requests.is_none();
        let requests = requests.unwrap_or(u64::MAX);
        Ok(Roster {
            requests,
            is_endless,
            left: requests,
            coming: 0,
            accepting: 0,
            busy: 0,
            sending: Vec::from_elem(alloc, 0, accounts)?,
            spent: 0,
            unserved: 0,
            begun: 0,
            failed: 0,
            is_refused: false,
            is_stopped: false,
            overloaded: 0,
            fault: None,
        })
    }

    /// How many threads there are, those that are being made among them.
    pub(crate) fn threads(&self) -> u64
        ensures { result ≡ threads_of self.now }
    {
        self.coming + self.accepting + self.busy
    }

    /// Whether a request is left. One always is to an endless connector, until it is stopped or a fault ended all.
    fn has_request(&self) -> bool
        ensures left { IsTrue result ↔ (0 < self.now.left) }
        ensures endless { self.now.endless ≡ true → IsNone self.now.fault → self.now.stopped ≡ false → IsTrue result }
    {
        self.left > 0
    }

    /// Whether there is room for one more thread, if `workers` threads are to accept.
    fn has_room(&self, workers: u8) -> bool
        ensures { IsTrue result ↔ (threads_of self.now < 1024 + workers) }
    {
        self.threads() < MOST_BUSY + u64::from(workers)
    }

    /// Whether fewer threads than workers accept, or are to. Those that could not count, until one can again.
    fn lacks_one(&self, workers: u8) -> bool
        ensures { IsTrue result ↔ (self.now.coming + self.now.accepting + self.now.failed < workers) }
    {
        let workers = u64::from(workers);
        self.failed < workers && self.coming + self.accepting < workers - self.failed
    }

    /// Claims a request for one more thread. False if none is left, enough threads accept, or there is no room for it.
    pub(crate) fn hire(&mut self, workers: u8) -> bool
        ensures hired { MatchBool result (Hires self.old self.new) (self.new ≡ self.old) }
        ensures wanted { IsTrue result ↔ Wants workers self.old }
    {
        if !self.has_request() || !self.lacks_one(workers) || !self.has_room(workers) {
            return false;
        }
        self.left -= 1;
        self.coming += 1;
        self.is_refused = false;
        true
    }

    /// Gives the request of a thread back that could not be made. If there is no other thread, or a fault ended all, no
    /// request is served. To a connector that is stopped that is not a fault.
    pub(crate) fn give_up(&mut self)
        ensures back { 0 < self.old.coming → self.old.stopped ≡ false → IsNone self.old.fault → 0 < threads_of self.new → LeavesAgain self.old self.new }
        ensures last { 0 < self.old.coming → self.old.stopped ≡ false → IsSome self.old.fault ⊎ (threads_of self.new ≡ 0) → GivesUp self.old self.new }
        ensures stopped { 0 < self.old.coming → self.old.stopped ≡ true → IsMissed self.old self.new }
    {
        if self.coming == 0 {
            return;
        }
        self.coming -= 1;
        self.is_refused = true;
        if self.is_stopped {
            self.unserved += 1;
            return;
        }
        if self.fault.is_none() {
            self.left += 1;
        } else {
            self.spent += 1;
        }
        if self.threads() == 0 {
            self.end(TransferError::NoMemory);
        }
    }

    /// The connector is stopped: no request is left to any thread. Those with a connection finish.
    pub(crate) fn stop(&mut self)
        ensures { Stops self.old self.new }
    {
        self.unserved += self.left;
        self.left = 0;
        self.is_stopped = true;
    }

    /// A thread that accepts ends, since the connector is stopped.
    fn leave_unserved(&mut self)
        requires { self.old.stopped ≡ true }
        ensures accepting { 0 < self.old.accepting → LeavesUnserved self.old self.new }
        ensures none { self.old.accepting ≡ 0 → self.new ≡ self.old }
    {
        if self.accepting > 0 {
            self.accepting -= 1;
            self.unserved += 1;
        }
    }

    /// A thread that accepts had no connection for a while. False if it is to end: the connector is stopped.
    pub(crate) fn rest(&mut self) -> bool
        ensures goes_on { result ≡ not self.old.stopped }
        ensures accepting { 0 < self.old.accepting → MatchBool result (self.new ≡ self.old) (LeavesUnserved self.old self.new) }
    {
        if !self.is_stopped {
            return true;
        }
        self.leave_unserved();
        false
    }

    /// The fault that ended all: one of a connector.
    pub(crate) fn why(&self) -> Option<TransferError>
        ensures value { result ≡ self.now.fault }
        ensures fault { IfSome result IsOfConnector }
    {
        self.fault
    }

    /// Whether the connector is stopped.
    pub(crate) fn is_stopped(&self) -> bool
        ensures { result ≡ self.now.stopped }
    {
        self.is_stopped
    }

    /// How many requests no connection was accepted for, since the connector was stopped.
    pub(crate) fn unserved(&self) -> u64
        ensures { result ≡ self.now.unserved }
    {
        self.unserved
    }

    /// Leaves no request to any thread, and notes why.
    fn end(&mut self, fault: TransferError)
        requires { IsOfConnector fault }
        ensures { LeavesNone self.old fault self.new }
    {
        self.spent += self.left;
        self.left = 0;
        if self.fault.is_none() {
            self.fault = Some(fault);
        }
    }

    /// The books refused a booking: no request is left to any thread.
    pub(crate) fn refuse(&mut self, number: u8)
        ensures { LeavesNone self.old (Books number) self.new }
    {
        self.end(TransferError::Books(number));
    }

    /// A thread that was made accepts.
    pub(crate) fn begin(&mut self)
        ensures { 0 < self.old.coming → Begins self.old self.new }
    {
        if self.coming == 0 {
            return;
        }
        self.coming -= 1;
        self.accepting += 1;
        self.begun = self.begun.saturating_add(1);
    }

    /// A thread has a connection. Answers how often threads are to have begun to accept before it may send to a
    /// neighbour: once more if no other thread accepts. After a fault the thread is to end, and the answer is `None`.
    pub(crate) fn take(&mut self) -> Option<u64>
        ensures taken { 0 < self.old.accepting → IsNone self.old.fault → Takes self.old self.new
            × ((needed : ℕ) × (result ≡ Some needed) × IsNeeded self.new needed) }
        ensures left { 0 < self.old.accepting → IsSome self.old.fault → Leaves self.old self.new × (result ≡ None) }
    {
        if self.accepting == 0 {
            return None;
        }
        self.accepting -= 1;
        if self.fault.is_some() {
            self.spent += 1;
            return None;
        }
        self.busy += 1;
        self.failed = 0;
        if self.accepting == 0 {
            Some(self.begun.saturating_add(1))
        } else {
            Some(self.begun)
        }
    }

    /// A thread meets a fault as it accepts. If the connector is stopped, it ends, and that is not a fault. If other threads
    /// accept, it ends, and its request is left again. If none does, it is to try again while threads have connections, which
    /// use file descriptors and memory until they end. Otherwise it ends, and so do all: the first fault is why.
    pub(crate) fn fail(&mut self, fault: TransferError) -> Failed
        requires { IsOfConnector fault }
        ensures { IsFailed self.old fault result self.new }
    {
        if self.fault.is_none() && self.is_stopped {
            self.leave_unserved();
            return Failed::Leave;
        }
        if self.fault.is_none() && self.accepting > 1 {
            self.accepting -= 1;
            self.left += 1;
            self.failed = self.failed.saturating_add(1);
            return Failed::Leave;
        }
        if self.fault.is_none() && self.busy > 0 {
            return Failed::Again;
        }
        self.end(fault);
        if self.accepting > 0 {
            self.accepting -= 1;
            self.spent += 1;
        }
        Failed::End
    }

    /// A thread is done with its connection, which counts as a request whatever it brought; to an endless connector that is not
    /// stopped the request is left again. `sent_for` is the account for which it was to send to a neighbour, if it was.
    pub(crate) fn finish(&mut self, sent_for: Option<usize>)
        ensures { 0 < self.old.busy → IsDone self.old sent_for self.new }
    {
        if self.busy == 0 {
            return;
        }
        self.busy -= 1;
        if self.is_endless && !self.is_stopped && self.fault.is_none() {
            self.left += 1;
        } else {
            self.spent += 1;
        }
        let Some(account) = sent_for else {
            return;
        };
        one_less(self.sending.as_mut_slice(), account);
    }

    /// Claims a request for a thread that is done with its last one. False if it is to end: no request is left, or
    /// more than enough threads accept, which are fewer for a thread that did not reach its neighbour: each that accepts
    /// uses a file descriptor.
    pub(crate) fn go_on(&mut self, workers: u8, reached: bool) -> bool
        ensures claimed { MatchBool result (GoesOn self.old self.new) (self.new ≡ self.old) }
        ensures kept { IsTrue result ↔ Stays workers reached self.old }
    {
        let spare = if reached { SPARE } else { 0 };
        let most = u64::from(workers) + spare;
        if !self.has_request() || self.coming + self.accepting >= most || !self.has_room(workers) {
            return false;
        }
        self.left -= 1;
        self.accepting += 1;
        self.begun = self.begun.saturating_add(1);
        true
    }

    /// Whether an account may have one exchange more: if it has fewer than there are free places.
    fn has_place(&self, account: usize) -> bool
        ensures { IsTrue result ↔ HasPlace self.now account }
    {
        sending_for(&self.sending, account) < MOST_BUSY.saturating_sub(self.busy)
    }

    /// A thread is to send to a neighbour for an account.
    pub(crate) fn send_for(&mut self, account: usize)
        ensures { Sends self.old account self.new }
    {
        one_more(self.sending.as_mut_slice(), account);
    }

    /// Whether a thread may send to a neighbour for an account that waited until threads began to accept this often. After a
    /// fault none may.
    pub(crate) fn leave(&self, workers: u8, account: usize, needed: u64) -> Leave
        ensures { IsLeave workers self.now account needed result }
    {
        if self.fault.is_some() || !self.has_place(account) {
            return Leave::Refuse;
        }
        if needed <= self.begun || (self.left == 0 && self.coming == 0) {
            return Leave::Send;
        }
        if self.coming == 0 && (self.is_refused || !self.has_room(workers)) {
            return Leave::Refuse;
        }
        Leave::Wait
    }
}
