//! A hub under its lock, with what its threads wait on.

ghost use Rattle.std.specs.Prelude.{◌≡◌};
ghost use Rattle.std.specs.Duration.{as_nanos};

use crate::gate::Gate;
use crate::hub::HubState;
use st_queues::HubName;
use std::alloc::Allocator;
use std::sync::atomic::{AtomicU64, Ordering};
use std::sync::{Condvar, Mutex, MutexGuard, Wait};
use std::time::{Clock, Duration};

/// The pause between two tries of all workers of a hub after a failure for now, unless another is set, in milliseconds.
const SPACE: u64 = 50;

/// A hub under its lock, with what its workers and the threads that write to it wait on, and the gate that spaces out
/// the workers' tries after a failure.
///
/// A thread that wrote to a ring, read from one, or asked the workers to stop is to call `wake_one` or `wake_all`: a
/// worker with nothing to send sleeps until then, or until its rest is over.
pub struct Bench<N: HubName<A>, A: Allocator + Copy> {
    hub: Mutex<HubState<N, A>>,
    /// The pause between two tries of all workers, while the last exchange failed for now.
    pub pause: Duration,
    pub(crate) gate: Mutex<Gate>,
    // Signalled when a worker may find something to do.
    pub(crate) woken: Condvar,
    // Signalled when the end took something out of a ring.
    pub(crate) room: Condvar,
    // How many workers found nothing to do and are about to sleep, or sleep.
    pub(crate) idle: AtomicU64,
}

// It is written out, so that a caller does not prove again how each part is dropped.
impl<N: HubName<A>, A: Allocator + Copy> Drop for Bench<N, A> {
    fn drop(self) {
        let Bench {
            hub: _,
            pause: _,
            gate: _,
            woken: _,
            room: _,
            idle: _,
        } = self;
    }
}

impl<N: HubName<A>, A: Allocator + Copy> Bench<N, A> {
    /// Makes a bench of a hub, with a pause of 50 ms between two tries after a failure for now. Does not allocate.
    pub fn new(hub: HubState<N, A>) -> Bench<N, A>
        ensures { as_nanos result.pause ≡ 50_000_000 }
    {
        Bench::with_pause(hub, Duration::from_millis(SPACE))
    }

    /// Makes a bench of a hub, with this pause between two tries of its workers after a failure for now. Does not allocate.
    pub fn with_pause(hub: HubState<N, A>, pause: Duration) -> Bench<N, A>
        ensures { result.pause ≡ pause }
    {
        Bench {
            hub: Mutex::new(hub),
            pause,
            gate: Mutex::new(Gate::new()),
            woken: Condvar::new(),
            room: Condvar::new(),
            idle: AtomicU64::new(0),
        }
    }

    /// Takes the hub's lock. It waits for it.
    pub fn lock<'b, R: Wait>(&'b self, rt: &R) -> MutexGuard<'b, HubState<N, A>> {
        self.hub.lock(rt)
    }

    /// Gives the hub, once no thread uses the bench any more.
    pub fn into_hub(self) -> HubState<N, A> {
        let Bench {
            hub,
            pause: _,
            gate: _,
            woken: _,
            room: _,
            idle: _,
        } = self;
        hub.into_inner()
    }

    /// Waits until each worker that found nothing to do sleeps.
    fn settle(&self, rt: &impl Wait) {
        let _held = self.hub.lock(rt);
    }

    /// Wakes one worker that sleeps, if there is one. A thread calls it after it wrote to a ring or read from one. It
    /// waits for the hub's lock if a worker sleeps.
    ///
    /// It adds 0 to the count of idle workers, and does not just read it: a plain read could come before the caller's
    /// write to the ring, also on x86-64. Of this addition and that of a worker which counts itself idle one is the
    /// first. So either the worker is seen here, or it sees what was written.
    pub fn wake_one(&self, rt: &impl Wait) {
        if self.idle.fetch_add(0, Ordering::SeqCst) > 0 {
            self.settle(rt);
            self.woken.notify_one();
        }
    }

    /// Wakes all threads that sleep at this bench. A thread calls it after it asked the workers to stop. It waits for
    /// the hub's lock.
    pub fn wake_all(&self, rt: &impl Wait) {
        self.settle(rt);
        self.woken.notify_all();
        self.room.notify_all();
    }

    /// Waits until there may be room in a ring that was full, for at most `longest`. `known` is what the end had accepted
    /// before the ring was found full, as an earlier call returned it, or any lesser number. It moves what can be moved by
    /// itself, and sleeps only if the end accepted nothing since: otherwise room was made after the ring was found full,
    /// and nobody would wake this thread again. Returns what the end has accepted. It may return although there is no
    /// room.
    pub fn await_room<R: Wait + Clock>(&self, rt: &R, longest: Duration, known: u64) -> u64 {
        let mut state = self.hub.lock(rt);
        let pumped = state.pump();
        let accepted = state.totals().accepted;
        if pumped.is_ok() && accepted == known {
            let (state, _) = self.room.wait_timeout(rt, state, longest);
            return state.totals().accepted;
        }
        accepted
    }
}
