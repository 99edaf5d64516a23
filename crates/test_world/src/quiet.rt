//! Lossless runs: what they deliver, and how many Sends it takes, compared with the most that the contract allows.

use st_sender::{EndConfig, MAX_PACKETS};
use st_world::{Trace, World};
use st_world_parts::Side;
use st_world_quiet::{Delivery, Fault, Quiet};
use std::alloc::{Allocator, Global};
use std::process::Abort;
use test_refusing::Refusing;

/// The most units that one Prepare brings.
const PACKET_LIMIT: u64 = 100;

/// One stream's bytes, the hops between the ends, and how many Sends it takes to deliver them. The contract allows 4, 5, 5, 5,
/// 6, 7, 21 and 21.
const ROWS: [(usize, usize, u64); 8] = [
    (0, 0, 1),
    (1, 8, 2),
    (15_999, 0, 2),
    (16_000, 1, 2),
    (16_001, 0, 3),
    (40_000, 2, 4),
    (262_144, 0, 18),
    (262_145, 0, 18),
];

/// `count` bytes, each unlike those 16,000 before and after it.
fn bytes(rt: &impl Abort, alloc: Global, count: usize) -> Vec<u8> {
    let mut bytes = Vec::new(alloc);
    for place in 0..count {
        let pushed = bytes.push((place % 251) as u8);
        sure!(rt; pushed.is_ok());
    }
    bytes
}

/// A world of `hops` hops, in which nothing has happened.
fn world<A: Allocator + Copy>(rt: &impl Abort, alloc: A, hops: usize) -> World<A> {
    let config = EndConfig::new(1, MAX_PACKETS, PACKET_LIMIT).expect(rt, "it is allowed");
    World::new(alloc, hops, config).expect(rt, "there is memory")
}

/// What is seen of a run.
#[derive(Clone, Copy)]
struct Seen {
    /// The number of the refusal.
    fault: Option<u8>,
    /// Whether a call ran out of memory.
    is_noted: bool,
    is_opened: bool,
    /// Whether all bytes of each stream were written and read, and a read gave its end.
    is_whole: bool,
    sends: u64,
    /// How many of them the server answered.
    answered: u64,
    paid: u64,
    credited: u64,
}

impl Seen {
    fn is_delivered(&self) -> bool {
        self.fault.is_none() && !self.is_noted && self.is_whole && self.paid == self.credited
    }

    /// Whether it ended early because memory ran out, and counts each Send that was answered, and at most the next.
    fn is_cut(&self) -> bool {
        match self.fault {
            Some(fault) => fault == 77,
            None => self.is_noted && self.is_counted(),
        }
    }

    fn is_counted(&self) -> bool {
        self.answered <= self.sends && self.sends - self.answered <= 1
    }
}

/// Whether a stream's bytes were all written and read, and a read gave its end.
fn is_whole<A: Allocator + Copy>(trace: &Trace<A>, stream: u8, input: &[u8]) -> bool {
    let Some(ledger) = trace.ledger(Side::Client, stream) else {
        return false;
    };
    ledger.written() == input && ledger.read() == input && ledger.is_closed() && ledger.saw_end()
}

fn are_whole<A: Allocator + Copy>(trace: &Trace<A>, input: &[&[u8]]) -> bool {
    let mut stream: u8 = 1;
    for bytes in input {
        if !is_whole(trace, stream, bytes) {
            return false;
        }
        stream = stream.wrapping_add(2);
    }
    true
}

fn seen_in<A: Allocator + Copy>(
    trace: &Trace<A>,
    input: &[&[u8]],
    fault: Option<u8>,
    sends: u64,
) -> Seen {
    let server = trace.end(Side::Server);
    Seen {
        fault,
        is_noted: trace.refused(),
        is_opened: trace.ledger(Side::Client, 1).is_some(),
        is_whole: are_whole(trace, input),
        sends,
        answered: server.answered().len() as u64,
        paid: trace.end(Side::Client).totals().paid,
        credited: server.totals().credited,
    }
}

fn seen_of<A: Allocator + Copy>(
    ended: &Result<Delivery<A>, (Fault, Trace<A>)>,
    input: &[&[u8]],
) -> Seen {
    match ended {
        Ok(run) => seen_in(run.trace(), input, None, run.sends()),
        Err((fault, trace)) => seen_in(trace, input, Some(fault.number()), 0),
    }
}

/// A run.
fn play<A: Allocator + Copy>(world: World<A>, input: &[&[u8]], money: &[u64]) -> Seen {
    let ended = world.quiet(input, money);
    let seen = seen_of(&ended, input);
    match ended {
        Ok(run) => drop(run),
        Err((_, trace)) => drop(trace),
    }
    seen
}

/// How many Sends it takes to deliver `count` bytes over `hops` hops.
fn sends_for(rt: &impl Abort, alloc: Global, count: usize, hops: usize) -> u64 {
    let input = bytes(rt, alloc, count);
    let seen = play(world(rt, alloc, hops), &[&input], &[0]);
    sure!(rt; seen.is_delivered());
    seen.sends
}

#[test]
fn one_stream_is_delivered(rt: HostRuntime) {
    for &(count, hops, wanted) in &ROWS {
        let sends = sends_for(&rt, rt.alloc(), count, hops);
        sure!(&rt; sends == wanted, count as u64);
    }
}

/// The contract allows 67.
#[test]
fn a_million_bytes_are_delivered(rt: HostRuntime) {
    let sends = sends_for(&rt, rt.alloc(), 1_000_000, 0);
    sure!(&rt; sends == 64);
}

/// Two streams, of which one has bytes, with 250 units: the contract allows 10 Sends.
fn play_two<A: Allocator + Copy>(world: World<A>) -> Seen {
    play(world, &[b"abc", b""], &[200, 50])
}

/// Whether all of it was delivered.
fn are_shared(seen: &Seen) -> bool {
    seen.is_delivered() && seen.sends == 4 && seen.credited == 250
}

#[test]
fn money_goes_with_bytes(rt: HostRuntime) {
    for hops in 0..9 {
        let seen = play_two(world(&rt, rt.alloc(), hops));
        sure!(&rt; are_shared(&seen), hops as u64);
    }
}

/// The run over one hop, in which the request of this number is refused.
fn play_cut(rt: &impl Abort, heap: &Refusing<Global>, n: u64) -> Seen {
    heap.refuse_none();
    let world = world(rt, heap, 1);
    heap.refuse_only(n);
    play_two(world)
}

#[test]
fn a_refused_request_is_told(rt: HostRuntime) {
    let heap = Refusing::new(rt.alloc());
    let (mut noted, mut unrecorded) = (false, false);
    for n in 1..1_000 {
        let seen = play_cut(&rt, &heap, n);
        if !heap.has_refused() {
            sure!(&rt; are_shared(&seen) && noted && unrecorded, n);
            return;
        }
        sure!(&rt; seen.is_cut(), n);
        noted = noted || seen.fault.is_none();
        unrecorded = unrecorded || seen.fault.is_some();
    }
    panic!(&rt; "there were more requests");
}
