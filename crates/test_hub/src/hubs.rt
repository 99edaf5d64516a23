//! Two unused hubs.
ghost use Rattle.std.specs.Prelude.{◌≡◌, ℕ};
ghost use Rattle.st_queues.specs.Lanes.{ring_at};
ghost use Rattle.st_hub.specs.Hub.{IsNew};

use crate::ends::{Counting, client, server, stopped_clock};
use st_end::{EndState, StreamId};
use st_hub::{Bench, CreditShare, HubState, Observer, Unwatched, WorkEnd, Worker, work};
use st_links::Link;
use st_queues::{Gauge, GaugeSeat, HubName, Rings, StreamWriter};
use std::alloc::{Allocator, Global};
use std::marker::Brand;
use std::process::Abort;
use std::sync::Wait;
use std::sync::ledger::Blank;
use std::time::Duration;

/// For how long a worker of these tests sleeps if it has nothing to send.
pub(crate) fn rest() -> Duration {
    Duration::from_millis(1)
}

/// Two hubs under their locks, and the gauge of the first.
#[derive(Drop)]
pub(crate) struct Locked<N: HubName<Global>, M: HubName<Global>> {
    pub(crate) near: Bench<N, Global>,
    pub(crate) gauge: Gauge<N, Global>,
    pub(crate) far: Bench<M, Global>,
}

/// Works at the first hub for this number of rounds.
pub(crate) fn work_on<
    N: HubName<Global>,
    M: HubName<Global>,
    L: Link<Global>,
    R: Wait + Abort + std::time::Clock,
>(
    rt: &R,
    hubs: &Locked<N, M>,
    seat: &mut GaugeSeat<N, Global>,
    link: &mut L,
    ivs: &mut Counting,
    turns: u32,
) -> WorkEnd {
    work_watched(rt, hubs, seat, link, ivs, turns, &mut Unwatched)
}

/// The same, watched.
pub(crate) fn work_watched<
    N: HubName<Global>,
    M: HubName<Global>,
    L: Link<Global>,
    W: Observer,
    R: Wait + Abort + std::time::Clock,
>(
    rt: &R,
    hubs: &Locked<N, M>,
    seat: &mut GaugeSeat<N, Global>,
    link: &mut L,
    ivs: &mut Counting,
    turns: u32,
    watch: &mut W,
) -> WorkEnd {
    work_resting(rt, hubs, seat, link, ivs, turns, watch, rest())
}

/// The same, with this rest.
pub(crate) fn work_resting<
    N: HubName<Global>,
    M: HubName<Global>,
    L: Link<Global>,
    W: Observer,
    R: Wait + Abort + std::time::Clock,
>(
    rt: &R,
    hubs: &Locked<N, M>,
    seat: &mut GaugeSeat<N, Global>,
    link: &mut L,
    ivs: &mut Counting,
    turns: u32,
    watch: &mut W,
    rest: Duration,
) -> WorkEnd {
    let mut clock = stopped_clock(rt);
    work(
        rt,
        &hubs.near,
        Worker {
            link,
            ivs,
            clock: &mut clock,
            gauge: &hubs.gauge,
            seat,
            stream: None,
            rest,
            turns: u64::from(turns),
            watch,
        },
    )
}

/// A new stream, and its writer.
pub(crate) fn open<N: HubName<A>, A: Allocator + Copy>(
    rt: &impl Abort,
    hub: &mut HubState<N, A>,
) -> (StreamId, StreamWriter<N, A>) {
    match hub.open_stream() {
        Ok(opened) => {
            let (stream, writer, _reader) = opened;
            (stream, writer)
        }
        Err(refused) => panic!(rt; "refused {}", refused.number()),
    }
}

/// A further writer of a stream.
pub(crate) fn further<N: HubName<Global>>(
    rt: &impl Abort,
    hub: &mut HubState<N, Global>,
    stream: StreamId,
) -> StreamWriter<N, Global> {
    match hub.add_writer(stream) {
        Ok(writer) => writer,
        Err(refused) => panic!(rt; "refused {}", refused.number()),
    }
}

/// A share of a hub's credit.
pub(crate) fn share_of<N: HubName<A>, A: Allocator + Copy>(
    rt: &impl Abort,
    hub: &mut HubState<N, A>,
) -> CreditShare<N> {
    match hub.share() {
        Ok(share) => share,
        Err(refused) => panic!(rt; "refused {}", refused.number()),
    }
}

/// Pumps a hub that has the memory for it.
pub(crate) fn pump<N: HubName<A>, A: Allocator + Copy>(rt: &impl Abort, hub: &mut HubState<N, A>) {
    sure!(rt; hub.pump() == Ok(()));
}

/// Offers an amount, in units, on a new stream, and returns the stream.
fn offer_at<N: HubName<Global>>(
    rt: &impl Abort,
    hub: &mut HubState<N, Global>,
    amount: u64,
) -> StreamId {
    let (stream, _writer) = open(rt, hub);
    sure!(rt; hub.offer(stream, amount) == Ok(()));
    stream
}

/// Offers an amount, in units, on a stream whose peer accepts 100.
pub(crate) fn offer<N: HubName<Global>, M: HubName<Global>, R: Wait + Abort>(
    rt: &R,
    hubs: &Locked<N, M>,
    amount: u64,
) {
    let stream = offer_at(rt, &mut *hubs.near.lock(rt), amount);
    let told = hubs.far.lock(rt).set_receive_max(stream, 100);
    sure!(rt; told == Ok(()));
}

/// What a hub was credited, by all its shares.
pub(crate) fn gathered<M: HubName<Global>>(
    rt: &impl Abort,
    hub: &mut HubState<M, Global>,
    shares: Vec<CreditShare<M>>,
) -> u64 {
    match hub.gather(shares) {
        Ok(credited) => credited,
        Err((refused, _)) => panic!(rt; "refused {}", refused.number()),
    }
}

/// What the second hub was credited, by its one share.
pub(crate) fn credited<N: HubName<Global>, M: HubName<Global>, R: Wait + Abort>(
    rt: &R,
    alloc: Global,
    hubs: &Locked<N, M>,
    share: CreditShare<M>,
) -> u64 {
    let mut shares = Vec::new(alloc);
    sure!(rt; shares.push(share).is_ok());
    gathered(rt, &mut *hubs.far.lock(rt), shares)
}

/// The rings of a hub.
pub(crate) fn new_rings<A: Allocator + Copy>(rt: &impl Abort, alloc: A) -> Rings<A> {
    match Rings::new(alloc) {
        Ok(rings) => rings,
        Err(refused) => panic!(rt; "refused {}", refused.number()),
    }
}

/// Two hubs over new ends, and a seat at the gauge of the first.
pub(crate) fn new_hubs<N: HubName<Global>, M: HubName<Global>>(
    near: EndState<Global>,
    near_rings: Rings<Global>,
    near_blank: Blank,
    far: EndState<Global>,
    far_rings: Rings<Global>,
    far_blank: Blank,
) -> (Locked<N, M>, GaugeSeat<N, Global>)
    requires near { IsNew near }
    requires near_gauge { near_rings.gauge ≡ N.gauge }
    requires near_writes { (k : ℕ) → N.write_ring k ≡ ring_at near_rings.writes k }
    requires near_reads { (k : ℕ) → N.read_ring k ≡ ring_at near_rings.reads k }
    requires near_name { (near_blank.name ≡ N.name) × (near_blank.parts ≡ N.parts) × (near_blank.parts ≡ 64) }
    requires far { IsNew far }
    requires far_gauge { far_rings.gauge ≡ M.gauge }
    requires far_writes { (k : ℕ) → M.write_ring k ≡ ring_at far_rings.writes k }
    requires far_reads { (k : ℕ) → M.read_ring k ≡ ring_at far_rings.reads k }
    requires far_name { (far_blank.name ≡ M.name) × (far_blank.parts ≡ M.parts) × (far_blank.parts ≡ 64) }
{
    let (near, gauge, seat) = HubState::<N, Global>::new(near, near_rings, near_blank);
    let (far, _, _) = HubState::<M, Global>::new(far, far_rings, far_blank);
    let hubs = Locked {
        near: Bench::new(near),
        gauge,
        far: Bench::new(far),
    };
    (hubs, seat)
}

/// What is tried with a client's hub and a server's.
pub(crate) trait Trial<R> {
    fn run<N: HubName<Global>, M: HubName<Global>>(
        &self,
        rt: &R,
        alloc: Global,
        hubs: &Locked<N, M>,
        seat: &mut GaugeSeat<N, Global>,
    );
}

fn run_named<N: HubName<Global>, M: HubName<Global>, T: Trial<R>, R>(
    rt: &R,
    alloc: Global,
    near: EndState<Global>,
    near_rings: Rings<Global>,
    near_blank: Blank,
    far: EndState<Global>,
    far_rings: Rings<Global>,
    far_blank: Blank,
    trial: &T,
)
    requires near { IsNew near }
    requires near_gauge { near_rings.gauge ≡ N.gauge }
    requires near_writes { (k : ℕ) → N.write_ring k ≡ ring_at near_rings.writes k }
    requires near_reads { (k : ℕ) → N.read_ring k ≡ ring_at near_rings.reads k }
    requires near_name { (near_blank.name ≡ N.name) × (near_blank.parts ≡ N.parts) × (near_blank.parts ≡ 64) }
    requires far { IsNew far }
    requires far_gauge { far_rings.gauge ≡ M.gauge }
    requires far_writes { (k : ℕ) → M.write_ring k ≡ ring_at far_rings.writes k }
    requires far_reads { (k : ℕ) → M.read_ring k ≡ ring_at far_rings.reads k }
    requires far_name { (far_blank.name ≡ M.name) × (far_blank.parts ≡ M.parts) × (far_blank.parts ≡ 64) }
{
    let (hubs, mut seat) = new_hubs::<N, M>(
        near, near_rings, near_blank, far, far_rings, far_blank,
    );
    trial.run(rt, alloc, &hubs, &mut seat);
    drop(hubs);
}

/// Runs this with new hubs. `packet_limit` is the greatest amount of a Prepare of the client.
pub(crate) fn run<T: Trial<R>, R: Abort>(rt: &R, alloc: Global, packet_limit: u64, trial: &T) {
    run_named::<Brand, Brand, T, R>(
        rt,
        alloc,
        client(rt, alloc, packet_limit),
        new_rings(rt, alloc),
        Blank::new(64),
        server(rt, alloc),
        new_rings(rt, alloc),
        Blank::new(64),
        trial,
    );
}
