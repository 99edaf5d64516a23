//! A server's hub while memory is refused: a worker reports this, and the other calls do not
//! allocate.

use crate::ends::{Counting, moment, stopped_clock};
use crate::hubs::{rest, share_of};
use crate::memory::{Refused, begin, came, prepare, run};
use st_end::StreamId;
use st_hub::{Bench, CreditShare, HubError, HubLink, HubState, Unwatched, WorkEnd, Worker, work};
use st_ilp::Moment;
use st_links::{Link, LinkFault, Outcome};
use st_queues::{Gauge, GaugeSeat, Got, HubName, StreamReader, StreamWriter};
use std::alloc::{Allocator, Global};
use std::process::Abort;
use std::sync::Wait;
use test_refusing::Refusing;

/// Calls on money and streams that never allocate.
fn call_streams<N: HubName<A>, A: Allocator + Copy>(rt: &impl Abort, hub: &mut HubState<N, A>) {
    sure!(rt; hub.offer(StreamId::FIRST, 5) == Ok(()));
    sure!(rt; hub.set_receive_max(StreamId::FIRST, 200) == Ok(()));
    sure!(rt; hub.add_writer(StreamId::FIRST).is_ok());
    sure!(rt; hub.take_stream().is_some());
    sure!(rt; hub.take_stream().is_none());
}

/// The calls that never allocate, apart from those with a `Turn` or shares.
fn call_others<N: HubName<A>, A: Allocator + Copy>(
    rt: &impl Abort,
    hub: &mut HubState<N, A>,
    writer: &mut StreamWriter<N, A>,
    reader: &mut StreamReader<N, A>,
) {
    call_streams(rt, hub);
    sure!(rt; hub.meet_writer(writer) == 2);
    sure!(rt; hub.meet_reader(reader) == 0);
    sure!(rt; matches!(reader.try_read(), Got::Nothing));
    sure!(rt; !hub.settled(StreamId::FIRST) && !hub.is_failed() && !hub.t00().is_empty());
}

/// Ends a `Turn` with a fault. Returns how many requests for memory that made.
fn finished<N: HubName<A>, A: Allocator + Copy>(
    heap: &Refusing<Global>,
    hub: &mut HubState<N, A>,
    now: Moment,
) -> Result<u64, HubError> {
    match hub.take_turn([9; 12], now)? {
        Some(turn) => {
            heap.refuse_from(1);
            hub.finish_turn(turn, Outcome::Fault)?;
            Ok(heap.asked())
        }
        None => Err(HubError::NoStream),
    }
}

/// The calls, at a hub whose peer opened stream 1.
fn ask_none<N: HubName<A>, A: Allocator + Copy>(
    rt: &impl Abort,
    heap: &Refusing<Global>,
    hub: &mut HubState<N, A>,
    writer: &mut StreamWriter<N, A>,
    reader: &mut StreamReader<N, A>,
) {
    heap.refuse_from(1);
    call_others(rt, hub, writer, reader);
    sure!(rt; heap.asked() == 0);
    heap.refuse_none();
    sure!(rt; finished(heap, hub, moment(rt)) == Ok(0));
}

/// A hub's one share, which was credited 10 units, is returned.
fn gather_all<N: HubName<A>, A: Allocator + Copy>(
    rt: &impl Abort,
    heap: &Refusing<Global>,
    alloc: A,
    hub: &mut HubState<N, A>,
    share: CreditShare<N>,
) {
    heap.refuse_none();
    let mut shares = Vec::new(alloc);
    sure!(rt; shares.push(share).is_ok());
    heap.refuse_from(1);
    sure!(rt; matches!(hub.gather(shares), Ok(10)));
    sure!(rt; heap.asked() == 0);
}

/// A hub whose peer opened stream 1.
#[derive(Drop)]
struct AskNone<'a> {
    prepare: &'a [u8],
}

impl AskNone<'_> {
    fn ask_at<N: HubName<A>, A: Allocator + Copy>(
        &self,
        rt: &impl Abort,
        heap: &Refusing<Global>,
        alloc: A,
        hub: &mut HubState<N, A>,
    ) {
        heap.refuse_from(1);
        let mut share = share_of(rt, hub);
        sure!(rt; heap.asked() == 0);
        heap.refuse_none();
        let (mut writer, mut reader) = begin(rt, alloc, hub);
        sure!(rt; came(hub, &mut share, self.prepare, moment(rt)) == Ok(10));
        ask_none(rt, heap, hub, &mut writer, &mut reader);
        gather_all(rt, heap, alloc, hub, share);
    }
}

impl<R: Wait + Abort> Refused<R> for AskNone<'_> {
    fn run<N: HubName<A>, A: Allocator + Copy>(
        &self,
        rt: &R,
        heap: &Refusing<Global>,
        alloc: A,
        hub: &Bench<N, A>,
        _gauge: &Gauge<N, A>,
        _seat: &mut GaugeSeat<N, A>,
    ) -> bool {
        self.ask_at(rt, heap, alloc, &mut *hub.lock(rt));
        heap.has_refused()
    }
}

#[test]
fn the_other_calls_ask_for_no_memory(rt: HostRuntime) {
    let heap: Refusing<Global> = Refusing::new(rt.alloc());
    let prepare = prepare(&rt, rt.alloc());
    let prepare = prepare.as_slice();
    sure!(&rt; !run(&rt, &heap, &AskNone { prepare }));
}

/// A worker and a link whose hub is out of memory.
#[derive(Drop)]
struct Starved<'a> {
    prepare: &'a [u8],
}

/// A link, and then a worker over it, report that memory is refused.
fn starve<N: HubName<A>, A: Allocator + Copy, L: Link<A>, R: Wait + Abort + std::time::Clock>(
    rt: &R,
    hub: &Bench<N, A>,
    gauge: &Gauge<N, A>,
    seat: &mut GaugeSeat<N, A>,
    link: &mut L,
    prepare: &[u8],
) {
    sure!(rt; link.exchange(prepare, moment(rt)).err() == Some(LinkFault::NoMemory));
    let mut ivs = Counting { first: 1, next: 0 };
    let mut clock = stopped_clock(rt);
    let told = work(
        rt,
        hub,
        Worker {
            link,
            ivs: &mut ivs,
            clock: &mut clock,
            gauge,
            seat,
            stream: None,
            rest: rest(),
            turns: 1,
            watch: &mut Unwatched,
        },
    );
    sure!(rt; told == WorkEnd::NoMemory);
}

impl<R: Wait + Abort + std::time::Clock> Refused<R> for Starved<'_> {
    fn run<N: HubName<A>, A: Allocator + Copy>(
        &self,
        rt: &R,
        heap: &Refusing<Global>,
        alloc: A,
        hub: &Bench<N, A>,
        gauge: &Gauge<N, A>,
        seat: &mut GaugeSeat<N, A>,
    ) -> bool {
        let share = share_of(rt, &mut *hub.lock(rt));
        let _ends = begin(rt, alloc, &mut *hub.lock(rt));
        let mut link = HubLink::new(rt, hub, share, stopped_clock(rt));
        heap.refuse_from(1);
        starve(rt, hub, gauge, seat, &mut link, self.prepare);
        heap.has_refused()
    }
}

#[test]
fn a_worker_without_memory_tells_it(rt: HostRuntime) {
    let heap: Refusing<Global> = Refusing::new(rt.alloc());
    let prepare = prepare(&rt, rt.alloc());
    let prepare = prepare.as_slice();
    sure!(&rt; run(&rt, &heap, &Starved { prepare }));
}
