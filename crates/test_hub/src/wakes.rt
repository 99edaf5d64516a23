//! Who is woken, and by what. A thread that nobody wakes sleeps for 40 seconds. Whoever waits for it to wake up looks 30,000 times,
//! for three seconds at least.
use crate::ends::{Counting, moment, stopped_clock};
use crate::hubs::{Locked, offer, open, share_of, work_resting};
use crate::stops::BUSY;
use crate::threads::{Scene, run_threaded};
use crate::watched::TOO_LARGE;
use st_devices::Counted;
use st_end::Failed;
use st_hub::{CreditShare, HubLink, Observer, Unwatched};
use st_ilp::Moment;
use st_links::{Link, LinkFault};
use st_queues::{GaugeSeat, HubName, StreamWriter};
use st_sender::Blocked;
use std::alloc::Global;
use std::process::Abort;
use std::sync::Wait;
use std::sync::atomic::{AtomicU64, Ordering};
use std::thread;
use std::thread::Threads;
use std::time::{Clock, Duration};

/// How often a thread looks that waits for another, and for how many microseconds it sleeps between.
const LOOKS: u64 = 30_000;

const BETWEEN: u64 = 100;

/// The rest of a worker of these tests.
fn long() -> Duration {
    Duration::from_secs(40)
}

/// Time in which another thread usually begins to sleep. If it does not, a test sees less, but does not fail for it.
fn short() -> Duration {
    Duration::from_millis(50)
}

/// The steps that a thread made.
#[derive(Drop)]
struct Steps(AtomicU64);

impl Steps {
    fn new() -> Steps {
        Steps(AtomicU64::new(0))
    }

    fn step(&self) {
        self.0.fetch_add(1, Ordering::SeqCst);
    }

    fn has(&self, count: u64) -> bool {
        self.0.load(Ordering::SeqCst) >= count
    }

    /// Waits until this number of steps was made. Returns whether they were.
    fn awaits<R: Clock>(&self, rt: &R, count: u64) -> bool {
        for _ in 0..LOOKS {
            if self.has(count) {
                return true;
            }
            thread::sleep(rt, Duration::from_micros(BETWEEN));
        }
        false
    }
}

/// A link that gives this Reject, once another thread made `after` steps.
#[derive(Drop)]
struct Rejects<'a, R: Clock> {
    rt: &'a R,
    alloc: Global,
    answer: &'a [u8],
    own: &'a Steps,
    other: &'a Steps,
    after: u64,
    came: bool,
}

impl<R: Clock> Counted for Rejects<'_, R> {
    ghost fault_count = { λ _. 0 };

    fn faults(&self) -> u64 {
        0
    }
}

impl<R: Clock> Link<Global> for Rejects<'_, R> {
    fn exchange(&mut self, _bytes: &[u8], _by: Moment) -> Result<Vec<u8>, LinkFault> {
        self.own.step();
        self.came = self.other.awaits(self.rt, self.after);
        thread::sleep(self.rt, short());
        self.answer
            .to_vec(self.alloc)
            .map_err(|_| LinkFault::NoMemory)
    }
}

/// An observer that waits for `after` steps of another thread when a Prepare failed.
#[derive(Drop)]
struct Awaits<'a, R: Clock> {
    rt: &'a R,
    own: &'a Steps,
    other: &'a Steps,
    after: u64,
    came: bool,
}

impl<R: Clock> Observer for Awaits<'_, R> {
    fn failed(&mut self, _failed: &Failed, _limit: u64) {
        self.own.step();
        self.came = self.other.awaits(self.rt, self.after);
    }

    fn waits(&mut self, _blocked: Blocked) {}
}

/// A worker of this number of rounds, which is to find nothing to send.
fn idle<N: HubName<Global>, M: HubName<Global>, R: Wait + Abort + Clock>(
    rt: &R,
    alloc: Global,
    hubs: &Locked<N, M>,
    seat: &mut GaugeSeat<N, Global>,
    turns: u32,
    ended: &Steps,
) {
    let mut link = Rejects {
        rt,
        alloc,
        answer: BUSY,
        own: ended,
        other: ended,
        after: 0,
        came: false,
    };
    let mut ivs = Counting { first: 1, next: 0 };
    work_resting(
        rt,
        hubs,
        seat,
        &mut link,
        &mut ivs,
        turns,
        &mut Unwatched,
        long(),
    );
    ended.step();
}

/// Exchanges packets with the first hub until a worker of it woke up. Returns whether one did.
fn exchange_until<N: HubName<Global>, M: HubName<Global>, R: Wait + Abort + Clock>(
    rt: &R,
    hubs: &Locked<N, M>,
    share: CreditShare<N>,
    woken: &Steps,
) -> bool {
    let mut link = HubLink::new(rt, &hubs.near, share, stopped_clock(rt));
    for _ in 0..LOOKS {
        if woken.has(1) {
            return true;
        }
        let _answer = link.exchange(b"", moment(rt));
        thread::sleep(rt, Duration::from_micros(BETWEEN));
    }
    false
}

/// A worker sleeps, and the hub receives packets over a link.
pub(crate) fn takes_packets<
    N: HubName<Global> + Send + Sync,
    M: HubName<Global> + Send + Sync,
    R: Threads + Wait + Abort + Clock + Sync,
>(rt: &R, alloc: Global, hubs: &Locked<N, M>, seat: &mut GaugeSeat<N, Global>) {
    let share = share_of(rt, &mut *hubs.near.lock(rt));
    let woken = Steps::new();
    let ((), came) = thread::join(
        rt,
        || idle(rt, alloc, hubs, seat, 1, &woken),
        || exchange_until(rt, hubs, share, &woken),
    );
    sure!(rt; came);
}

#[test]
fn a_link_wakes_a_worker(rt: HostRuntime) {
    run_threaded(&rt, rt.alloc(), Scene::TakesPackets);
}

/// Workers of 0 rounds end, until one that slept woke up. Returns whether one did.
fn end_until<N: HubName<Global>, M: HubName<Global>, R: Wait + Abort + Clock>(
    rt: &R,
    alloc: Global,
    hubs: &Locked<N, M>,
    seat: &mut GaugeSeat<N, Global>,
    woken: &Steps,
) -> bool {
    let ended = Steps::new();
    for _ in 0..LOOKS {
        if woken.has(1) {
            return true;
        }
        idle(rt, alloc, hubs, seat, 0, &ended);
        thread::sleep(rt, Duration::from_micros(BETWEEN));
    }
    false
}

/// A worker sleeps, and others end.
pub(crate) fn others_end<
    N: HubName<Global> + Send + Sync,
    M: HubName<Global> + Send + Sync,
    R: Threads + Wait + Abort + Clock + Sync,
>(rt: &R, alloc: Global, hubs: &Locked<N, M>, seat: &mut GaugeSeat<N, Global>) {
    let mut other = hubs.gauge.split(seat);
    let woken = Steps::new();
    let ((), came) = thread::join(
        rt,
        || idle(rt, alloc, hubs, seat, 1, &woken),
        || end_until(rt, alloc, hubs, &mut other, &woken),
    );
    sure!(rt; came);
}

#[test]
fn a_worker_that_ends_wakes_the_others(rt: HostRuntime) {
    run_threaded(&rt, rt.alloc(), Scene::OthersEnd);
}

/// Waits for room in a ring of the first hub, whose end accepted nothing.
fn await_room<N: HubName<Global>, M: HubName<Global>, R: Wait + Clock>(
    rt: &R,
    hubs: &Locked<N, M>,
    woken: &Steps,
) {
    hubs.near.await_room(rt, long(), 0);
    woken.step();
}

/// Wakes all until a thread woke up. Returns whether one did.
fn wake_until<N: HubName<Global>, M: HubName<Global>, R: Wait + Clock>(
    rt: &R,
    hubs: &Locked<N, M>,
    woken: &Steps,
) -> bool {
    for _ in 0..LOOKS {
        if woken.has(1) {
            return true;
        }
        hubs.near.wake_all(rt);
        thread::sleep(rt, Duration::from_micros(BETWEEN));
    }
    false
}

/// A thread waits for room, and all are woken.
pub(crate) fn all_are_woken<
    N: HubName<Global> + Send + Sync,
    M: HubName<Global> + Send + Sync,
    R: Threads + Wait + Abort + Clock + Sync,
>(rt: &R, _alloc: Global, hubs: &Locked<N, M>, _seat: &mut GaugeSeat<N, Global>) {
    let woken = Steps::new();
    let ((), came) = thread::join(
        rt,
        || await_room(rt, hubs, &woken),
        || wake_until(rt, hubs, &woken),
    );
    sure!(rt; came);
}

#[test]
fn wake_all_wakes_who_waits_for_room(rt: HostRuntime) {
    run_threaded(&rt, rt.alloc(), Scene::AllAreWoken);
}

/// Writes this many chunks of 4,096 bytes.
fn write_chunks<N: HubName<Global>>(
    rt: &impl Abort,
    alloc: Global,
    writer: &mut StreamWriter<N, Global>,
    count: u32,
) {
    for _ in 0..count {
        let chunk = [7u8; 4_096].to_vec(alloc).expect(rt, "memory");
        sure!(rt; writer.try_write(chunk).is_ok());
    }
}

/// A worker that writes this many chunks once another thread sleeps, and whose one exchange waits for that thread. Returns whether
/// it woke up meanwhile.
fn send_chunks<N: HubName<Global>, M: HubName<Global>, R: Wait + Abort + Clock>(
    rt: &R,
    alloc: Global,
    hubs: &Locked<N, M>,
    seat: &mut GaugeSeat<N, Global>,
    writer: &mut StreamWriter<N, Global>,
    count: u32,
    woken: &Steps,
) -> bool {
    let own = Steps::new();
    let mut link = Rejects {
        rt,
        alloc,
        answer: BUSY,
        own: &own,
        other: woken,
        after: 1,
        came: false,
    };
    let mut ivs = Counting { first: 1, next: 0 };
    thread::sleep(rt, short());
    write_chunks(rt, alloc, writer, count);
    work_resting(
        rt,
        hubs,
        seat,
        &mut link,
        &mut ivs,
        1,
        &mut Unwatched,
        long(),
    );
    link.came
}

/// A thread waits for room, and a worker moves what is in the ring.
pub(crate) fn room_is_made<
    N: HubName<Global> + Send + Sync,
    M: HubName<Global> + Send + Sync,
    R: Threads + Wait + Abort + Clock + Sync,
>(rt: &R, alloc: Global, hubs: &Locked<N, M>, seat: &mut GaugeSeat<N, Global>) {
    let (_, mut writer) = open(rt, &mut *hubs.near.lock(rt));
    let woken = Steps::new();
    let ((), came) = thread::join(
        rt,
        || await_room(rt, hubs, &woken),
        || send_chunks(rt, alloc, hubs, seat, &mut writer, 1, &woken),
    );
    sure!(rt; came);
}

#[test]
fn room_that_is_made_wakes_who_waits_for_it(rt: HostRuntime) {
    run_threaded(&rt, rt.alloc(), Scene::RoomIsMade);
}

/// A worker sleeps, and another one sends a full frame of data and has more.
pub(crate) fn more_is_due<
    N: HubName<Global> + Send + Sync,
    M: HubName<Global> + Send + Sync,
    R: Threads + Wait + Abort + Clock + Sync,
>(rt: &R, alloc: Global, hubs: &Locked<N, M>, seat: &mut GaugeSeat<N, Global>) {
    let (_, mut writer) = open(rt, &mut *hubs.near.lock(rt));
    let mut other = hubs.gauge.split(seat);
    let woken = Steps::new();
    let ((), came) = thread::join(
        rt,
        || idle(rt, alloc, hubs, seat, 1, &woken),
        || send_chunks(rt, alloc, hubs, &mut other, &mut writer, 5, &woken),
    );
    sure!(rt; came);
}

#[test]
fn a_worker_that_leaves_more_wakes_another(rt: HostRuntime) {
    run_threaded(&rt, rt.alloc(), Scene::MoreIsDue);
}

/// A worker of a number of rounds whose exchanges bring this Reject, each once the other worker made `after` steps. When a failure
/// is reported to it, it waits for `then` steps. Returns whether these were made.
fn rejected<N: HubName<Global>, M: HubName<Global>, R: Wait + Abort + Clock>(
    rt: &R,
    alloc: Global,
    hubs: &Locked<N, M>,
    seat: &mut GaugeSeat<N, Global>,
    (first, turns, answer): (u8, u32, &[u8]),
    (own, other): (&Steps, &Steps),
    (after, then): (u64, u64),
) -> bool {
    let mut link = Rejects {
        rt,
        alloc,
        answer,
        own,
        other,
        after,
        came: false,
    };
    let mut watch = Awaits {
        rt,
        own,
        other,
        after: then,
        came: false,
    };
    let mut ivs = Counting { first, next: 0 };
    work_resting(
        rt,
        hubs,
        seat,
        &mut link,
        &mut ivs,
        turns,
        &mut watch,
        long(),
    );
    watch.came
}

/// Two workers send 10 units each. The first is refused for now, and waits at the gate: the report of it is its second step. The
/// other one is then refused for good, and waits for the first one's third step, its next exchange, before it ends.
pub(crate) fn gate_opens<
    N: HubName<Global> + Send + Sync,
    M: HubName<Global> + Send + Sync,
    R: Threads + Wait + Abort + Clock + Sync,
>(rt: &R, alloc: Global, hubs: &Locked<N, M>, seat: &mut GaugeSeat<N, Global>) {
    offer(rt, hubs, 20);
    let mut other = hubs.gauge.split(seat);
    let (one, two) = (Steps::new(), Steps::new());
    let (_, came) = thread::join(
        rt,
        || rejected(rt, alloc, hubs, seat, (1, 2, BUSY), (&one, &two), (1, 0)),
        || rejected(
            rt,
            alloc,
            hubs,
            &mut other,
            (2, 1, TOO_LARGE),
            (&two, &one),
            (2, 3),
        ),
    );
    sure!(rt; came);
}

#[test]
fn an_opened_gate_wakes_who_waits_at_it(rt: HostRuntime) {
    run_threaded(&rt, rt.alloc(), Scene::GateOpens);
}
