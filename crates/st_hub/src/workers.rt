//! The threads that send for an end.

ghost use Rattle.std.specs.Prelude.{◌≡◌, ℕ, List, true, is_some, IfSome, MatchBool, None, ⊤};
ghost use Rattle.st_links.specs.Outcomes.{outcome_seen};
ghost use Rattle.st_end.specs.State.{EndState};
ghost use Rattle.st_hub.specs.Begins.{Begins, FindsAt, Finds, FindsSome, Exchanged, own_settled};
ghost use Rattle.st_hub.specs.Causes.{cause_of};
ghost use Rattle.st_hub.specs.Hub.{with_core};
ghost use Rattle.st_hub.specs.Seen.{cause_seen};
ghost use Rattle.st_hub.specs.Told.{fails_of, waits_of};
ghost use Rattle.st_hub.specs.Working.{Fills, Gave, WorkedTo};

use crate::bench::Bench;
use crate::causes::{Cause, Observer, close_turn};
use crate::gate::is_temporary;
use crate::hub::HubState;
use crate::turns::{Step, Turn};
use crate::unsealed::UnsealedTurn;
use st_devices::Counted;
use st_ilp::Moment;
use st_links::{Clock, Link, Outcome};
use st_queues::{Gauge, GaugeSeat, HubName};
use st_streams::StreamId;
use std::alloc::Allocator;
use std::sync::atomic::Ordering;
use std::sync::{MutexGuard, Wait};
use std::time::Duration;

/// A source of the IVs under which packets are sealed (AES-GCM, SP 800-38D). It is to give each IV once.
pub trait Ivs: Counted {
    // Which IV the source may give, and the source after it.
    ghost gives: { Self → List ℕ → Self → Type 0 } = { λ _ _ _. ⊤ };

    /// The next IV, of 12 bytes. Returns `None` if the device below failed; the device counted the failure.
    fn next_iv(&mut self) -> Option<[u8; 12]>
        ensures { IfSome result (λ iv. gives self.old iv self.new) };
}

/// Why `work` returned.
#[derive(Clone, Copy, Debug, PartialEq, Eq)]
pub enum WorkEnd {
    /// Some seat at the gauge asked to stop.
    Stopped,
    /// The connection failed.
    Failed,
    /// The source gave no IV.
    IvFault,
    /// Memory was refused.
    NoMemory,
    /// The given number of rounds was made.
    Turns,
    /// The close of the worker's stream was fulfilled.
    Settled,
    /// Nothing more of the worker's stream can be sent: limits of the peer stop all that is left of it, and no Prepare
    /// is in flight whose answer could raise them.
    Stalled,
}

/// What one worker sends with, and for how long.
pub struct Worker<'w, N: HubName<A>, A: Allocator + Copy, L, I, K, W> {
    /// The link over which it exchanges.
    pub link: &'w mut L,
    /// The source of its IVs. One is read only if none is spare.
    pub ivs: &'w mut I,
    /// The clock that gives the moment of each Send.
    pub clock: &'w mut K,
    /// Receives the reports why a Prepare failed, and at which limits of the peer it waits: `Unwatched` ignores them.
    pub watch: &'w mut W,
    /// The gauge at which it is asked to stop, and its seat there.
    pub gauge: &'w Gauge<N, A>,
    /// Its seat at the gauge.
    pub seat: &'w mut GaugeSeat<N, A>,
    /// The stream with whose end it ends: once the stream's close is fulfilled, or if nothing more of it can be sent. With
    /// `None` it ends for neither reason.
    pub stream: Option<StreamId>,
    /// For how long it sleeps at most if it has nothing to send and nobody wakes it.
    pub rest: Duration,
    /// The most rounds that it makes.
    pub turns: u64,
}

/// What a worker found to do.
enum Begun<A: Allocator + Copy> {
    Sends(UnsealedTurn<A>),
    Idle,
    Ends(WorkEnd),
}

// Each function here that takes the lock lets it go before it returns, so that no exchange is made under it. The stream of a
// worker is lent to them: a struct in an `Option` that is passed on by value twice is not covered by the borrow checker.

/// Whether the close of a worker's stream was fulfilled, if it has one.
fn is_settled<N: HubName<A>, A: Allocator + Copy>(
    state: &HubState<N, A>,
    stream: Option<StreamId>,
) -> bool
    ensures { result ≡ own_settled state.now.flow.core stream }
{
    match stream {
        Some(stream) => state.settled(stream),
        None => false,
    }
}

/// What a worker does with a hub of which all was pumped.
fn find<N: HubName<A>, A: Allocator + Copy>(
    state: &mut HubState<N, A>,
    spare_iv: &mut Option<[u8; 12]>,
    stream: &Option<StreamId>,
    now: Moment,
) -> Begun<A>
    requires { is_some spare_iv.old ≡ true }
    ensures finds { FindsAt state.old.flow.core spare_iv.old stream.now now result state.new.flow.core spare_iv.new }
    ensures rest { state.new ≡ with_core state.old state.new.flow.core }
{
    if state.is_failed() {
        return Begun::Ends(WorkEnd::Failed);
    }
    if is_settled(state, *stream) {
        return Begun::Ends(WorkEnd::Settled);
    }
    match state.step(spare_iv, *stream, now) {
        Ok(Step::Sends(turn)) => Begun::Sends(turn),
        Ok(Step::Idle) => Begun::Idle,
        Ok(Step::Stalled) => Begun::Ends(WorkEnd::Stalled),
        Err(_) => Begun::Ends(WorkEnd::NoMemory),
    }
}

/// Looks for something to do, under the lock.
fn look<N: HubName<A>, A: Allocator + Copy>(
    bench: &Bench<N, A>,
    state: &mut HubState<N, A>,
    spare_iv: &mut Option<[u8; 12]>,
    stream: &Option<StreamId>,
    now: Moment,
) -> Begun<A>
    requires { is_some spare_iv.old ≡ true }
    ensures { Finds state.old spare_iv.old stream.now now result state.new spare_iv.new }
{
    let before = state.totals().accepted;
    let pumped = state.pump();
    if state.totals().accepted != before {
        bench.room.notify_all();
    }
    if pumped.is_err() {
        return Begun::Ends(WorkEnd::NoMemory);
    }
    find(state, spare_iv, stream, now)
}

/// Tries once more, so that no wake-up is lost, and sleeps if there is still nothing to do.
fn look_again<N: HubName<A>, A: Allocator + Copy, R: Wait + std::time::Clock>(
    rt: &R,
    bench: &Bench<N, A>,
    state: MutexGuard<'_, HubState<N, A>>,
    spare_iv: &mut Option<[u8; 12]>,
    stream: &Option<StreamId>,
    now: Moment,
    rest: Duration,
) -> Begun<A>
    requires { is_some spare_iv.old ≡ true }
    ensures { FindsSome spare_iv.old stream.now now result spare_iv.new }
{
    let mut state = state;
    bench.idle.fetch_add(1, Ordering::SeqCst);
    let begun = look(bench, &mut *state, spare_iv, stream, now);
    if let Begun::Idle = &begun {
        let _held = bench.woken.wait_timeout(rt, state, rest);
    }
    bench.idle.fetch_sub(1, Ordering::SeqCst);
    begun
}

/// Waits until the gate lets a try through, or somebody asks to stop. Returns whether somebody did.
fn pass_gate<'b, N: HubName<A>, A: Allocator + Copy, R: Wait + std::time::Clock>(
    rt: &R,
    bench: &'b Bench<N, A>,
    gauge: &Gauge<N, A>,
    seat: &mut GaugeSeat<N, A>,
) -> Option<MutexGuard<'b, HubState<N, A>>> {
    let mut state = bench.lock(rt);
    for _ in rt.forever() {
        if gauge.stopped(seat) {
            return None;
        }
        let Some(left) = bench.gate.lock(rt).left(rt, bench.pause) else {
            return Some(state);
        };
        state = bench.woken.wait_timeout(rt, state, left).0;
    }
    unreachable!()
}

/// Begins a round, at the time at which the gate lets it through. If there is nothing to send it sleeps for at most
/// `rest`. It wakes another worker only if more may be due.
fn begin<N: HubName<A>, A: Allocator + Copy, K: Clock, R: Wait + std::time::Clock>(
    rt: &R,
    bench: &Bench<N, A>,
    gauge: &Gauge<N, A>,
    seat: &mut GaugeSeat<N, A>,
    spare_iv: &mut Option<[u8; 12]>,
    stream: &Option<StreamId>,
    clock: &mut K,
    rest: Duration,
) -> Begun<A>
    requires { is_some spare_iv.old ≡ true }
    ensures { Begins K.reads clock.old spare_iv.old stream.now result clock.new spare_iv.new }
{
    let Some(mut state) = pass_gate(rt, bench, gauge, seat) else {
        return Begun::Ends(WorkEnd::Stopped);
    };
    let now = clock.now();
    match look(bench, &mut *state, spare_iv, stream, now) {
        Begun::Sends(turn) => {
            bench.gate.lock(rt).begins(rt);
            if turn.may_leave_more() {
                bench.woken.notify_one();
            }
            Begun::Sends(turn)
        }
        Begun::Idle => look_again(rt, bench, state, spare_iv, stream, now, rest),
        Begun::Ends(end) => Begun::Ends(end),
    }
}

/// Ends a `Turn`, and wakes the workers that wait at the gate if that opens it. Returns why the exchange failed, if it
/// did.
fn finish<N: HubName<A>, A: Allocator + Copy, R: Wait + std::time::Clock>(
    rt: &R,
    bench: &Bench<N, A>,
    turn: Turn<A>,
    outcome: Outcome<A>,
) -> Option<Cause>
    ensures { (e : EndState) × (cause_seen result ≡ cause_of e turn.flight (outcome_seen outcome)) }
{
    let has_failed = is_temporary(&outcome);
    let mut state = bench.lock(rt);
    let cause = close_turn(&mut state, turn, outcome);
    if bench.gate.lock(rt).ends(rt, has_failed) {
        bench.woken.notify_all();
    }
    cause
}

/// Reports a cause, if there is one.
fn tell<W: Observer>(watch: &mut W, cause: Option<Cause>)
    ensures { Gave W.hears watch.old (fails_of (cause_seen cause)) watch.new }
{
    if let Some(cause) = cause {
        watch.failed(&cause.failed, cause.limit);
    }
}

/// Reports the limit of the peer at which the end waits, if the Prepare of a `Turn` says that it does.
fn tell_limit<A: Allocator + Copy, W: Observer>(watch: &mut W, turn: &UnsealedTurn<A>)
    ensures { Gave W.hears watch.old (waits_of turn.now.stops) watch.new }
{
    if let Some(blocked) = turn.blocked_at() {
        watch.waits(blocked);
    }
}

/// The outcome of an exchange over a link: a fault if it gives no answer.
fn exchange<A: Allocator + Copy, L: Link<A>>(link: &mut L, turn: &Turn<A>) -> Outcome<A>
    ensures { Exchanged L.exchanges link.old turn.now.bytes (outcome_seen result) link.new }
{
    match link.exchange(turn.bytes(), turn.expires()) {
        Ok(answer) => Outcome::Answered(answer),
        Err(_) => Outcome::Fault,
    }
}

/// Reads an IV from the source if none is spare. Returns whether one is spare then.
fn fill<I: Ivs>(ivs: &mut I, spare_iv: &mut Option<[u8; 12]>) -> bool
    ensures { MatchBool result (Fills I.gives ivs.old spare_iv.old ivs.new spare_iv.new) ((spare_iv.old ≡ None) × (spare_iv.new ≡ None)) }
{
    if spare_iv.is_none() {
        *spare_iv = ivs.next_iv();
    }
    spare_iv.is_some()
}

/// Makes the rounds of a worker.
fn make_turns<
    N: HubName<A>,
    A: Allocator + Copy,
    L: Link<A>,
    I: Ivs,
    K: Clock,
    W: Observer,
    R: Wait + std::time::Clock,
>(rt: &R, bench: &Bench<N, A>, worker: Worker<'_, N, A, L, I, K, W>) -> WorkEnd
    ensures { WorkedTo I.gives L.exchanges K.reads W.hears worker.entry.stream worker.entry.turns
        (record { ivs = worker.entry.ivs.now; link = worker.entry.link.now; clock = worker.entry.clock.now; watch = worker.entry.watch.now })
        result
        (record { ivs = worker.exit.1.0.now; link = worker.exit.0.now; clock = worker.exit.1.1.0.now; watch = worker.exit.1.1.1.0.now }) }
{
    let Worker {
        link,
        ivs,
        clock,
        watch,
        gauge,
        seat,
        stream,
        rest,
        turns,
    } = worker;
    let mut spare_iv = None;
    for _ in 0..turns {
        if !fill(ivs, &mut spare_iv) {
            return WorkEnd::IvFault;
        }
        match begin(rt, bench, gauge, seat, &mut spare_iv, &stream, clock, rest) {
            Begun::Sends(unsealed) => {
                tell_limit(watch, &unsealed);
                let turn = unsealed.seal();
                let outcome = exchange(link, &turn);
                let cause = finish(rt, bench, turn, outcome);
                tell(watch, cause);
            }
            Begun::Idle => {}
            Begun::Ends(end) => return end,
        }
    }
    WorkEnd::Turns
}

/// Sends for a hub over the worker's link, and returns why it ended. In one round it calls `pump` and `step` under the lock,
/// seals and exchanges the Prepare with the lock open, and calls `keep_turn` and `finish_turn` under the lock again. A `Turn` that is no longer open then
/// changes nothing. With the lock open it reports to its observer if the Prepare carries a Blocked frame, and if it failed.
/// After a round with nothing to send it sleeps, until somebody wakes it (`Bench`) or its rest is over.
///
/// Each packet that it exchanges is sealed under the next IV that its source gave, and no IV serves twice. In a round it exchanges
/// at most one packet, at the time that it read from its clock once in that round, after the gate let it through. It reports to its
/// observer once each of these packets that carries a Blocked frame, and once each that failed, with the values, and nothing else.
///
/// While the last exchange failed for now (no answer, or a Reject whose code begins with `T`), the workers of a hub let one try
/// through, and the next after the bench's pause, whatever their number is.
///
/// It ends early once its seat sees that some seat asked to stop, once the connection failed, if no IV is given, if memory is
/// refused, and with its stream. It waits for the lock. At its end it wakes all other threads.
pub fn work<
    N: HubName<A>,
    A: Allocator + Copy,
    L: Link<A>,
    I: Ivs,
    K: Clock,
    W: Observer,
    R: Wait + std::time::Clock,
>(rt: &R, bench: &Bench<N, A>, worker: Worker<'_, N, A, L, I, K, W>) -> WorkEnd
    ensures { WorkedTo I.gives L.exchanges K.reads W.hears worker.entry.stream worker.entry.turns
        (record { ivs = worker.entry.ivs.now; link = worker.entry.link.now; clock = worker.entry.clock.now; watch = worker.entry.watch.now })
        result
        (record { ivs = worker.exit.1.0.now; link = worker.exit.0.now; clock = worker.exit.1.1.0.now; watch = worker.exit.1.1.1.0.now }) }
{
    let end = make_turns(rt, bench, worker);
    bench.wake_all(rt);
    end
}
