//! Workers that wait for one another's exchanges.
use crate::ends::{Counting, stopped_clock};
use crate::hubs::{Locked, Trial, credited, gathered, offer, run, share_of, work_on};
use crate::threads::{Scene, run_threaded};
use st_devices::Counted;
use st_hub::{CreditShare, HubLink, HubState, WorkEnd};
use st_ilp::Moment;
use st_links::{Link, LinkFault};
use st_queues::{GaugeSeat, HubName};
use std::alloc::Global;
use std::process::Abort;
use std::sync::Wait;
use std::sync::atomic::{AtomicU64, Ordering};
use std::thread;
use std::thread::Threads;
use std::time::Duration;

/// How often a waiting exchange looks.
const LOOKS: u64 = 10_000;

/// Exchanges that were begun, those that were answered, and the looks of those that waited in vain.
#[derive(Drop)]
struct Counts {
    exchanges: AtomicU64,
    answered: AtomicU64,
    in_vain: AtomicU64,
}

impl Counts {
    fn new() -> Counts {
        Counts {
            exchanges: AtomicU64::new(0),
            answered: AtomicU64::new(0),
            in_vain: AtomicU64::new(0),
        }
    }

    /// Whether an exchange was answered: looks again and again, and sleeps between.
    fn awaits_one<R: std::time::Clock>(&self, rt: &R) -> bool {
        for _ in 0..LOOKS {
            if self.answered.load(Ordering::SeqCst) > 0 {
                return true;
            }
            thread::sleep(rt, Duration::from_micros(100));
        }
        false
    }
}

/// A link that delays the first exchange until another was answered, checks this up to `LOOKS` times, and then gives a
/// fault.
#[derive(Drop)]
struct Gate<'a, L, R: std::time::Clock> {
    rt: &'a R,
    link: L,
    counts: &'a Counts,
}

impl<L, R: std::time::Clock> Counted for Gate<'_, L, R> {
    ghost fault_count = { λ _. 0 };

    fn faults(&self) -> u64 {
        0
    }
}

impl<L: Link<Global>, R: std::time::Clock> Link<Global> for Gate<'_, L, R> {
    fn exchange(&mut self, bytes: &[u8], by: Moment) -> Result<Vec<u8>, LinkFault> {
        let counts = self.counts;
        if counts.exchanges.fetch_add(1, Ordering::SeqCst) == 0 && !counts.awaits_one(self.rt) {
            counts.in_vain.fetch_add(LOOKS, Ordering::SeqCst);
            return Err(LinkFault::Peer);
        }
        let Ok(answer) = self.link.exchange(bytes, by) else {
            return Err(LinkFault::Peer);
        };
        counts.answered.fetch_add(1, Ordering::SeqCst);
        Ok(answer)
    }
}

/// The end of one worker, and its link's share.
fn worker<N: HubName<Global>, M: HubName<Global>, R: Wait + Abort + std::time::Clock>(
    rt: &R,
    hubs: &Locked<N, M>,
    counts: &Counts,
    seat: &mut GaugeSeat<N, Global>,
    share: CreditShare<M>,
    first: u8,
) -> (WorkEnd, CreditShare<M>) {
    let mut gate = Gate {
        rt,
        link: HubLink::new(rt, &hubs.far, share, stopped_clock(rt)),
        counts,
    };
    let mut ivs = Counting { first, next: 0 };
    let told = work_on(rt, hubs, seat, &mut gate, &mut ivs, 100);
    (told, gate.link.into_share())
}

/// Two workers, each in a thread of its own: their links' shares.
fn both<
    N: HubName<Global> + Send + Sync,
    M: HubName<Global> + Send + Sync,
    R: Threads + Wait + Abort + std::time::Clock + Sync,
>(
    rt: &R,
    hubs: &Locked<N, M>,
    counts: &Counts,
    seat: &mut GaugeSeat<N, Global>,
    mine: CreditShare<M>,
    theirs: CreditShare<M>,
) -> (CreditShare<M>, CreditShare<M>) {
    let mut other = hubs.gauge.split(seat);
    let ((first, mine), (second, theirs)) = thread::join(
        rt,
        || worker(rt, hubs, counts, seat, mine, 1),
        || worker(rt, hubs, counts, &mut other, theirs, 2),
    );
    sure!(rt; (first, second) == (WorkEnd::Turns, WorkEnd::Turns));
    (mine, theirs)
}

/// What the second hub was credited, by its two shares.
fn credited_both<M: HubName<Global>>(
    rt: &impl Abort,
    alloc: Global,
    hub: &mut HubState<M, Global>,
    mine: CreditShare<M>,
    theirs: CreditShare<M>,
) -> u64 {
    let mut shares = Vec::new(alloc);
    sure!(rt; shares.push(mine).is_ok());
    sure!(rt; shares.push(theirs).is_ok());
    gathered(rt, hub, shares)
}

/// Two workers send 20 units, 10 in a Prepare. Each waits for the other's exchange: an exchange made under the lock never
/// passes.
pub(crate) fn two_workers<
    N: HubName<Global> + Send + Sync,
    M: HubName<Global> + Send + Sync,
    R: Threads + Wait + Abort + std::time::Clock + Sync,
>(rt: &R, alloc: Global, hubs: &Locked<N, M>, seat: &mut GaugeSeat<N, Global>) {
    offer(rt, hubs, 20);
    let mine = share_of(rt, &mut *hubs.far.lock(rt));
    let theirs = share_of(rt, &mut *hubs.far.lock(rt));
    let counts = Counts::new();
    let (mine, theirs) = both(rt, hubs, &counts, seat, mine, theirs);
    let credited = credited_both(rt, alloc, &mut *hubs.far.lock(rt), mine, theirs);
    sure!(rt; credited == 20);
    sure!(rt; counts.in_vain.load(Ordering::SeqCst) == 0);
}

#[test]
fn two_workers_pass_the_gate(rt: HostRuntime) {
    run_threaded(&rt, rt.alloc(), Scene::TwoWorkers);
}

/// One worker sends them alone.
#[derive(Drop)]
struct OneWorker;

impl<R: Wait + Abort + std::time::Clock> Trial<R> for OneWorker {
    fn run<N: HubName<Global>, M: HubName<Global>>(
        &self,
        rt: &R,
        alloc: Global,
        hubs: &Locked<N, M>,
        seat: &mut GaugeSeat<N, Global>,
    ) {
        offer(rt, hubs, 20);
        let mine = share_of(rt, &mut *hubs.far.lock(rt));
        let counts = Counts::new();
        let (told, mine) = worker(rt, hubs, &counts, seat, mine, 1);
        sure!(rt; told == WorkEnd::Turns);
        sure!(rt; credited(rt, alloc, hubs, mine) == 20);
        sure!(rt; counts.in_vain.load(Ordering::SeqCst) == LOOKS);
    }
}

/// One worker alone gets the fault after `LOOKS` checks, and sends the money again.
#[test]
fn one_worker_does_not(rt: HostRuntime) {
    run(&rt, rt.alloc(), 10, &OneWorker);
}
