//! The requests that the threads of a receiver opened, until the thread of its end has judged them.

ghost use Rattle.std.specs.Prelude.{◌≡◌, ◌∷◌, [], ◌++◌, false, Err, IfErr, IfNone, IfSome, IsSome, OnErr, OnOk};
ghost use Rattle.ilpstream_ends.specs.Lobby.{HaveEnded, HaveFailed, IsOfLobby};
ghost use Rattle.ilpstream_serving.specs.declared.error.TransferError.TheVariants.{Accept, Silent, Turns};

use crate::readers::{Leaves, Readers};
use ilpstream_serving::{Patience, TransferError, deadline_in, left_until};
use std::alloc::{AllocError, Global};
use std::sync::{Condvar, Mutex, Wait};
use std::time::{Clock, Duration};

/// How many seconds the thread of the end waits for those that read requests to begin.
const BEGIN_SECONDS: u64 = 10;

/// How many requests may wait to be judged. A thread with one more waits until fewer do.
const MOST_WAITING: usize = 16;

/// The requests that wait, and the threads that read them.
#[derive(Drop)]
struct Queue<T> {
    /// Those that are to be judged, in the order in which they were opened.
    asked: Vec<T>,
    readers: Readers,
    /// How long the receiver still waits for a request, as it last said.
    patience: Patience,
    /// Whether the thread of the end waits for a request, and was not signalled since.
    is_awaited: bool,
    /// Whether a thread waits until fewer requests do, and was not signalled since.
    is_crowded: bool,
}

impl<T: Drop> Queue<T> {
    /// A request waits, after those that do. Fails if memory is refused.
    fn put(&mut self, asked: T) -> Result<(), AllocError>
        ensures last { OnOk result (self.new.asked.items ≡ self.old.asked.items ++ asked ∷ []) }
        ensures unchanged { OnErr result (self.new.asked.items ≡ self.old.asked.items) }
    {
        self.asked.push(asked)?;
        Ok(())
    }

    /// The request that waits longest.
    fn take(&mut self) -> Option<T>
        ensures first { IfSome result (λ asked. self.old.asked.items ≡ asked ∷ self.new.asked.items) }
        ensures none { IfNone result (self.old.asked.items ≡ []) }
        ensures readers { self.new.readers ≡ self.old.readers }
    {
        if self.asked.is_empty() {
            return None;
        }
        Some(self.asked.remove(0))
    }

    /// The request that waits longest. Fails if none does, and none will: with `Accept` if a thread ended because the listener
    /// gave no connection, and else with `Turns`.
    fn next(&mut self) -> Result<Option<T>, TransferError>
        ensures known { IfErr result IsOfLobby }
        ensures silent { IfErr result (λ e. ¬ (e ≡ Silent)) }
        ensures turned { result ≡ Err Turns → (self.old.asked.items ≡ []) × HaveEnded self.old.readers }
        ensures unaccepted { result ≡ Err Accept → (self.old.asked.items ≡ []) × HaveFailed self.old.readers }
    {
        if let Some(asked) = self.take() {
            return Ok(Some(asked));
        }
        match self.readers.why() {
            None => Ok(None),
            Some(Leaves::Failed) => Err(TransferError::Accept),
            Some(_) => Err(TransferError::Turns),
        }
    }
}

/// How a thread that reads requests is to continue.
#[derive(Clone, Copy)]
pub(crate) struct Pace {
    /// Whether no further connection is to be accepted.
    pub(crate) is_stopped: bool,
    /// How long a request may take, by the receiver's patience.
    pub(crate) time: Option<Duration>,
}

/// The requests of a receiver under a lock, with what the thread of its end waits for.
#[derive(Drop)]
pub(crate) struct Requests<T> {
    queue: Mutex<Queue<T>>,
    /// Signalled when a request waits, or a thread that reads them begins or ends.
    came: Condvar,
    /// Signalled when fewer requests wait, or the transfer is over.
    room: Condvar,
}

// Each function here that acquires the lock releases it before it returns.

impl<T: Drop> Requests<T> {
    /// None yet, and no thread.
    pub(crate) fn new(alloc: Global, patience: Patience) -> Requests<T> {
        Requests {
            queue: Mutex::new(Queue {
                asked: Vec::new(alloc),
                readers: Readers::none(),
                patience,
                is_awaited: false,
                is_crowded: false,
            }),
            came: Condvar::new(),
            room: Condvar::new(),
        }
    }

    /// This number of threads begins to read requests.
    pub(crate) fn begin(&self, rt: &impl Wait, threads: u8) {
        self.queue.lock(rt).readers.begin(threads);
        self.came.notify_one();
    }

    /// A thread reads no further request.
    pub(crate) fn leave(&self, rt: &impl Wait, leaves: Leaves) {
        self.queue.lock(rt).readers.leave(leaves);
        self.came.notify_one();
    }

    /// How a thread that reads requests is to continue. `None` if it is to end, since the transfer is over.
    pub(crate) fn pace<R: Wait + Clock>(&self, rt: &R) -> Option<Pace> {
        let queue = self.queue.lock(rt);
        if queue.readers.is_over() {
            return None;
        }
        Some(Pace {
            is_stopped: queue.readers.is_stopped(),
            time: queue.patience.left(rt).ok().flatten(),
        })
    }

    /// Has a request wait, once fewer than 16 do or the transfer is over. It is dropped if memory is refused.
    pub(crate) fn put(&self, rt: &impl Wait, asked: T) -> Result<(), AllocError> {
        let mut queue = self.queue.lock(rt);
        for _ in rt.forever() {
            if queue.asked.len() < MOST_WAITING || queue.readers.is_over() {
                break;
            }
            queue.is_crowded = true;
            queue = self.room.wait(rt, queue);
        }
        let put = queue.put(asked);
        let is_awaited = queue.is_awaited;
        queue.is_awaited = false;
        drop(queue);
        if is_awaited {
            self.came.notify_one();
        }
        put
    }

    /// No further connection is to be accepted.
    pub(crate) fn stop(&self, rt: &impl Wait) {
        self.queue.lock(rt).readers.stop();
    }

    /// The transfer is over: each thread that reads requests is to end.
    pub(crate) fn end(&self, rt: &impl Wait) {
        self.queue.lock(rt).readers.end();
        self.room.notify_all();
    }

    /// Waits until threads begin to read requests, for ten seconds at most. False if none did. `readers` is as they are then.
    pub(crate) fn have_readers<R: Wait + Clock>(&self, rt: &R, readers: &mut Readers) -> bool
        ensures { result ≡ false → readers.new.has_begun ≡ false }
    {
        let deadline = deadline_in(rt, Duration::from_secs(BEGIN_SECONDS));
        let mut queue = self.queue.lock(rt);
        for _ in rt.forever() {
            *readers = queue.readers;
            if readers.has_begun() {
                return true;
            }
            let Some(left) = left_until(rt, deadline) else {
                return false;
            };
            queue = self.came.wait_timeout(rt, queue, left).0;
        }
        unreachable!()
    }

    /// The request that waits longest. If none does, it waits until one does, a period is over, or for no reason, and returns
    /// `None` if there is none then. Fails with `Silent` if the patience is over before; with `Turns` or `Accept` if no
    /// further request will be read. `readers` is as the threads were when it looked first.
    pub(crate) fn next<R: Wait + Clock>(
        &self,
        rt: &R,
        patience: &Patience,
        period: Option<Duration>,
        readers: &mut Readers,
    ) -> Result<Option<T>, TransferError>
        ensures silent { IfErr result (λ e. e ≡ Silent → IsSome patience.now.time) }
        ensures turned { result ≡ Err Turns → HaveEnded readers.new }
        ensures unaccepted { result ≡ Err Accept → HaveFailed readers.new }
        ensures known { IfErr result IsOfLobby }
    {
        let mut queue = self.queue.lock(rt);
        queue.patience = *patience;
        *readers = queue.readers;
        if queue.is_crowded {
            queue.is_crowded = false;
            self.room.notify_all();
        }
        if let Some(asked) = queue.next()? {
            return Ok(Some(asked));
        }
        let time = match (patience.left(rt)?, period) {
            (Some(left), Some(period)) => Some(left.min(period)),
            (left, period) => left.or(period),
        };
        queue.is_awaited = true;
        let mut queue = match time {
            Some(time) => self.came.wait_timeout(rt, queue, time).0,
            None => self.came.wait(rt, queue),
        };
        queue.is_awaited = false;
        Ok(queue.take())
    }
}
