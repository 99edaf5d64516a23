//! The threads of a receiver that accept connections, read requests and open them.

ghost use Rattle.std.specs.Prelude.{◌≡◌, ◌<◌, Err, IfOk, IfSome, vec_len};
ghost use Rattle.ilpstream_serving.specs.Answering.{IsWholeAt};

use crate::asked::{Asked, OpeningKeys, ReceiverName};
use crate::lobby::{Guest, Lobby, MOST_GUESTS};
use crate::readers::Leaves;
use crate::requests::Requests;
use ilpstream_serving::{AwaitListener, ReceiveTerms, shut};
use std::alloc::Global;
use std::io::{Read, Write};
use std::net::OpenStream;
use std::sync::atomic::{AtomicU64, Ordering};
use std::sync::{Mutex, Wait};
use std::thread;
use std::thread::Threads;
use std::time::Clock;

/// What the threads of a receiver share.
#[derive(Drop)]
pub(crate) struct Shared<'a, N: ReceiverName, L: AwaitListener, R: Clock> {
    /// The runtime that measures time.
    pub(crate) rt: &'a R,
    pub(crate) alloc: Global,
    pub(crate) listener: &'a L,
    pub(crate) tokens: &'a [&'a str],
    pub(crate) keys: OpeningKeys<N>,
    pub(crate) requests: Requests<Asked<'a, N, L::Stream, R>>,
    /// Locked by the thread that waits for a new connection: of those without a connection one at a time does.
    pub(crate) turn: Mutex<()>,
    /// How many threads are without a connection.
    pub(crate) free: AtomicU64,
    pub(crate) terms: ReceiveTerms<'a>,
}

impl<N: ReceiverName, L: AwaitListener, R: Clock> Shared<'_, N, L, R> {
    /// Has each thread that reads requests end: no further connection is accepted. Requests that still wait get no response:
    /// they are dropped, with their connections, once nothing is shared any more.
    pub(crate) fn end(&self, rt: &impl Wait) {
        self.requests.end(rt);
        shut(self.listener);
    }

    /// No further connection is accepted. Those on which a request is on its way are finished.
    pub(crate) fn stop(&self, rt: &impl Wait) {
        self.requests.stop(rt);
        shut(self.listener);
    }
}

/// How many of `turns` connections one of the threads may accept: an equal share, and the first thread the rest too.
fn share_of(turns: u64, threads: u8, is_first: bool) -> u64 {
    let threads = u64::from(threads.max(1));
    let share = turns / threads;
    if is_first {
        return share + turns % threads;
    }
    share
}

/// Does what can be done at a thread's connections, and accepts a further one if it `accepts` any. Gives one once its
/// request has arrived intact, and fails if the thread is to end.
fn turn<'g, N: ReceiverName, L: AwaitListener, R: Wait + Clock>(
    rt: &R,
    shared: &Shared<'_, N, L, R>,
    lobby: &mut Lobby<'g, L, R>,
    accepts: bool,
) -> Result<Option<Guest<'g, L::Stream, R>>, Leaves>
where
    L::Stream: Read + Write + OpenStream,
    ensures whole { IfOk result (λ came. IfSome came (λ g. IsWholeAt g.reading.standing)) }
    ensures done { result ≡ Err Leaves.Done → (lobby.new.left ≡ 0) × (vec_len lobby.new.guests ≡ 0) }
    ensures failed { result ≡ Err Leaves.Failed → 0 < lobby.new.left }
{
    let Some(pace) = shared.requests.pace(rt) else {
        return Err(Leaves::Over);
    };
    if pace.is_stopped {
        lobby.stop();
    }
    if lobby.is_done() {
        return Err(Leaves::Done);
    }
    match lobby.turn(pace.time, accepts) {
        Ok(came) => Ok(came),
        Err(_) => Err(Leaves::Failed),
    }
}

/// The same. Of the threads without a connection one at a time waits for a new one. A thread with connections accepts a
/// further one only if no thread is without: so no connection waits for a thread that is busy while another is free.
fn turn_by_turn<'g, N: ReceiverName, L: AwaitListener, R: Wait + Clock>(
    rt: &R,
    shared: &Shared<'_, N, L, R>,
    lobby: &mut Lobby<'g, L, R>,
) -> Result<Option<Guest<'g, L::Stream, R>>, Leaves>
where
    L::Stream: Read + Write + OpenStream,
    ensures whole { IfOk result (λ came. IfSome came (λ g. IsWholeAt g.reading.standing)) }
    ensures done { result ≡ Err Leaves.Done → (lobby.new.left ≡ 0) × (vec_len lobby.new.guests ≡ 0) }
    ensures failed { result ≡ Err Leaves.Failed → 0 < lobby.new.left }
{
    if !lobby.is_empty() {
        let accepts = shared.free.load(Ordering::Relaxed) == 0;
        return turn(rt, shared, lobby, accepts);
    }
    shared.free.fetch_add(1, Ordering::Relaxed);
    let held = shared.turn.lock(rt);
    let turned = turn(rt, shared, lobby, true);
    drop(held);
    shared.free.fetch_sub(1, Ordering::Relaxed);
    turned
}

/// Opens the body of a request, and has it wait to be judged and answered, once fewer than 16 do. If memory is refused for
/// that, its connection ends without a response.
fn hand_over<'a, N: ReceiverName, L: AwaitListener, R: Wait + Clock>(
    rt: &R,
    shared: &Shared<'a, N, L, R>,
    guest: Guest<'a, L::Stream, R>,
)
    requires { IsWholeAt guest.reading.standing }
{
    let Guest {
        stream,
        reading,
        turns,
        ..
    } = guest;
    let asked = Asked::of(shared.alloc, &shared.keys, stream, reading, turns);
    let _ = shared.requests.put(rt, asked);
}

/// Reads requests at a thread's connections, and has each wait to be answered, until the thread is to end.
fn read_all<'a, L: AwaitListener, N: ReceiverName, R: Wait + Clock>(
    rt: &R,
    shared: &Shared<'a, N, L, R>,
    lobby: &mut Lobby<'a, L, R>,
) -> Leaves
where
    L::Stream: Read + Write + OpenStream,
    ensures done { result ≡ Leaves.Done → (lobby.new.left ≡ 0) × (vec_len lobby.new.guests ≡ 0) }
    ensures failed { result ≡ Leaves.Failed → 0 < lobby.new.left }
{
    for _ in rt.forever() {
        match turn_by_turn(rt, shared, lobby) {
            Ok(Some(guest)) => hand_over(rt, shared, guest),
            Ok(None) => {}
            Err(leaves) => return leaves,
        }
    }
    unreachable!()
}

/// A thread of a receiver: it has its share of the connections.
fn open_alone<'a, N: ReceiverName, L: AwaitListener, R: Wait + Clock>(
    rt: &'a R,
    shared: &Shared<'a, N, L, R>,
    is_first: bool,
)
where
    L::Stream: Read + Write + OpenStream,
{
    let ReceiveTerms {
        workers,
        turns,
        log,
        ..
    } = shared.terms;
    let mut lobby = Lobby::new(
        rt,
        shared.alloc,
        shared.listener,
        shared.tokens,
        turns,
        share_of(turns, workers, is_first),
        MOST_GUESTS / usize::from(workers.max(1)),
        log,
    );
    let leaves = read_all(rt, shared, &mut lobby);
    shared.requests.leave(rt, leaves);
}

/// Reads requests by as many threads as the terms say, this one among them, or by fewer if not all can be made. Returns once
/// each has ended.
pub(crate) fn open_all<
    's,
    'a: 's,
    N: ReceiverName + Send + Sync,
    L: AwaitListener + Send + Sync,
    R: Threads + Wait + Clock + Sync,
>(rt: &'a R, shared: &'s Shared<'a, N, L, R>)
where
    L::Stream: Read + Write + OpenStream + Send,
{
    let threads = shared.terms.workers.max(1);
    shared.requests.begin(rt, threads);
    thread::scope(thread::scope_env(), rt, move |scope| {
        for _ in 1..threads {
            if scope.spawn(move || open_alone(rt, shared, false)).is_err() {
                shared.requests.leave(rt, Leaves::Done);
            }
        }
        open_alone(rt, shared, true);
    });
}
