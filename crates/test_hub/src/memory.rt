//! A server's hub while memory is refused.
ghost use Rattle.std.specs.Prelude.{◌≡◌, ℕ};
ghost use Rattle.st_queues.specs.Lanes.{ring_at};
ghost use Rattle.st_hub.specs.Hub.{IsNew};

use crate::ends::{client, moment, server};
use crate::hubs::{new_rings, pump, share_of};
use st_end::{EndError, EndState, StreamId};
use st_hub::{Bench, CreditShare, HubError, HubState};
use st_ilp::Moment;
use st_queues::{Gauge, GaugeSeat, HubName, Rings, StreamReader, StreamWriter, Totals};
use std::alloc::{Allocator, Global};
use std::marker::Brand;
use std::process::Abort;
use std::sync::Wait;
use std::sync::ledger::Blank;
use test_refusing::Refusing;

/// What is tried with a hub whose memory `heap` gives and refuses: whether a request was refused.
pub(crate) trait Refused<R> {
    fn run<N: HubName<A>, A: Allocator + Copy>(
        &self,
        rt: &R,
        heap: &Refusing<Global>,
        alloc: A,
        hub: &Bench<N, A>,
        gauge: &Gauge<N, A>,
        seat: &mut GaugeSeat<N, A>,
    ) -> bool;
}

fn run_named<N: HubName<A>, A: Allocator + Copy, T: Refused<R>, R>(
    rt: &R,
    heap: &Refusing<Global>,
    alloc: A,
    core: EndState<A>,
    rings: Rings<A>,
    blank: Blank,
    trial: &T,
) -> bool
    requires fresh { IsNew core }
    requires gauge { rings.gauge ≡ N.gauge }
    requires writes { (k : ℕ) → N.write_ring k ≡ ring_at rings.writes k }
    requires reads { (k : ℕ) → N.read_ring k ≡ ring_at rings.reads k }
    requires name { (blank.name ≡ N.name) × (blank.parts ≡ N.parts) × (blank.parts ≡ 64) }
{
    let (hub, gauge, mut seat) = HubState::<N, A>::new(core, rings, blank);
    let hub = Bench::new(hub);
    let was = trial.run(rt, heap, alloc, &hub, &gauge, &mut seat);
    drop(hub);
    was
}

/// Tries this with a new hub.
pub(crate) fn run<T: Refused<R>, R: Abort>(rt: &R, heap: &Refusing<Global>, trial: &T) -> bool {
    heap.refuse_none();
    run_named::<Brand, &Refusing<Global>, T, R>(
        rt,
        heap,
        heap,
        server(rt, heap),
        new_rings(rt, heap),
        Blank::new(64),
        trial,
    )
}

/// A Prepare of 10 units that a client sends first.
pub(crate) fn prepare(rt: &impl Abort, alloc: Global) -> Vec<u8> {
    let mut end = client(rt, alloc, 1_000);
    sure!(rt; end.open_stream() == Ok(StreamId::FIRST));
    sure!(rt; end.offer(StreamId::FIRST, 10) == Ok(()));
    match end.send([9; 12], moment(rt)) {
        Ok(Some((flight, bytes))) => {
            flight.abandon();
            drop(end);
            bytes
        }
        Ok(None) | Err(_) => panic!(rt; "nothing goes"),
    }
}

/// "ab" and "cd" are written.
fn write_abcd<N: HubName<A>, A: Allocator + Copy>(
    rt: &impl Abort,
    alloc: A,
    writer: &mut StreamWriter<N, A>,
) {
    for chunk in [b"ab", b"cd"] {
        let bytes = Vec::from_slice(alloc, chunk.as_slice()).expect(rt, "memory");
        sure!(rt; writer.try_write(bytes).is_ok());
    }
}

/// A stream of the hub's own, on which "ab" and "cd" are written.
pub(crate) fn begin<N: HubName<A>, A: Allocator + Copy>(
    rt: &impl Abort,
    alloc: A,
    hub: &mut HubState<N, A>,
) -> (StreamWriter<N, A>, StreamReader<N, A>) {
    sure!(rt; hub.set_receive_max(StreamId::FIRST, 100) == Ok(()));
    match hub.open_stream() {
        Ok((_, mut writer, reader)) => {
            write_abcd(rt, alloc, &mut writer);
            (writer, reader)
        }
        Err(refused) => panic!(rt; "refused {}", refused.number()),
    }
}

/// The calls that may allocate.
#[derive(Clone, Copy, Debug, PartialEq, Eq)]
enum Call {
    OpenStream,
    Pump,
    TakeTurn,
    Incoming,
}

/// The number of an opened stream.
fn opened<N: HubName<A>, A: Allocator + Copy>(hub: &mut HubState<N, A>) -> Result<u64, HubError> {
    match hub.open_stream() {
        Ok(opened) => {
            let (stream, _writer, _reader) = opened;
            Ok(u64::from(stream.number()))
        }
        Err(EndError::NoMemory) => Err(HubError::NoMemory),
        Err(_) => Err(HubError::NoStream),
    }
}

/// How many `Turn`s the hub gives: 0 or 1.
fn taken<N: HubName<A>, A: Allocator + Copy>(
    hub: &mut HubState<N, A>,
    now: Moment,
) -> Result<u64, HubError> {
    match hub.take_turn([9; 12], now)? {
        Some(turn) => {
            turn.abandon();
            Ok(1)
        }
        None => Ok(0),
    }
}

/// The amount of a Prepare, if it is fulfilled.
pub(crate) fn came<N: HubName<A>, A: Allocator + Copy>(
    hub: &mut HubState<N, A>,
    share: &mut CreditShare<N>,
    prepare: &[u8],
    now: Moment,
) -> Result<u64, HubError> {
    let received = hub.incoming(share, prepare, now)?;
    if received.reason == 0 {
        Ok(received.amount)
    } else {
        Err(HubError::Stranger)
    }
}

/// A call, the number that it gives, and the hub's totals after it.
#[derive(Drop)]
struct Called<'a> {
    call: Call,
    prepare: &'a [u8],
    now: Moment,
    gives: u64,
    totals: Totals,
    /// The number of the request that is refused.
    n: u64,
}

impl Called<'_> {
    fn call<N: HubName<A>, A: Allocator + Copy>(
        &self,
        hub: &mut HubState<N, A>,
        share: &mut CreditShare<N>,
    ) -> Result<u64, HubError> {
        match self.call {
            Call::OpenStream => opened(hub),
            Call::Pump => hub.pump().map(|()| 0),
            Call::TakeTurn => taken(hub, self.now),
            Call::Incoming => came(hub, share, self.prepare, self.now),
        }
    }

    /// Makes the call, and makes it again if memory was refused. Returns whether it was.
    fn call_again<N: HubName<A>, A: Allocator + Copy>(
        &self,
        rt: &impl Abort,
        heap: &Refusing<Global>,
        hub: &mut HubState<N, A>,
        share: &mut CreditShare<N>,
    ) -> bool {
        heap.refuse_only(self.n);
        let mut told = self.call(hub, share);
        let was = heap.has_refused();
        heap.refuse_none();
        if was {
            sure!(rt; told == Err(HubError::NoMemory));
            told = self.call(hub, share);
        }
        sure!(rt; told == Ok(self.gives));
        was
    }

    /// The call at a hub with a stream of its own.
    fn call_at<N: HubName<A>, A: Allocator + Copy>(
        &self,
        rt: &impl Abort,
        heap: &Refusing<Global>,
        alloc: A,
        hub: &mut HubState<N, A>,
    ) -> bool {
        let mut share = share_of(rt, hub);
        let _ends = begin(rt, alloc, hub);
        if self.call == Call::TakeTurn {
            pump(rt, hub);
        }
        self.call_again(rt, heap, hub, &mut share)
    }
}

/// If its request number n is refused, a call is out of memory. When it is made again, it gives what it should.
impl<R: Wait + Abort> Refused<R> for Called<'_> {
    fn run<N: HubName<A>, A: Allocator + Copy>(
        &self,
        rt: &R,
        heap: &Refusing<Global>,
        alloc: A,
        hub: &Bench<N, A>,
        gauge: &Gauge<N, A>,
        seat: &mut GaugeSeat<N, A>,
    ) -> bool {
        let was = self.call_at(rt, heap, alloc, &mut *hub.lock(rt));
        sure!(rt; gauge.seen(seat) == self.totals);
        was
    }
}

fn totals(accepted: u64, credited: u64) -> Totals {
    Totals {
        accepted,
        delivered: 0,
        credited,
        paid: 0,
    }
}

/// Each request of a call is refused in turn, until a run meets no refusal.
fn refuse_each<R: Wait + Abort>(
    rt: &R,
    heap: &Refusing<Global>,
    prepare: &[u8],
    call: Call,
    gives: u64,
    totals: Totals,
) {
    let now = moment(rt);
    for n in 1..1_000u64 {
        let called = Called {
            call,
            prepare,
            now,
            gives,
            totals,
            n,
        };
        if !run(rt, heap, &called) {
            assert!(rt; 1 < n, "{call:?} asks for none");
            return;
        }
    }
    panic!(rt; "no run met no refusal");
}

#[test]
fn each_call_wants_memory_or_succeeds(rt: HostRuntime) {
    let heap: Refusing<Global> = Refusing::new(rt.alloc());
    let prepare = prepare(&rt, rt.alloc());
    for (call, gives, totals) in [
        (Call::OpenStream, 4, totals(0, 0)),
        (Call::Pump, 0, totals(4, 0)),
        (Call::TakeTurn, 1, totals(4, 0)),
        (Call::Incoming, 10, totals(0, 10)),
    ] {
        refuse_each(&rt, &heap, prepare.as_slice(), call, gives, totals);
    }
}
