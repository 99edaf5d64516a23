//! Worked schedules of which each request for memory is refused in turn. What could not be recorded has not happened, what a
//! core call found no memory for is left as it was, and the same event then does what the schedule says.

use crate::player::{Player, other};
use crate::rows::{account, config};
use st_hop::Account;
use st_receiver::Got;
use st_world::{Event, Fault, Trace};
use st_world_parts::{AnsweredAtEnd, Side, Told, Way};
use std::alloc::{Allocator, Global};
use std::process::Abort;
use test_refusing::Refusing;

/// What is written and read.
const TEXT: &[u8] = b"ab";

/// The two ways of a Prepare.
const UP: Way = Way::ToServer;

const DOWN: Way = Way::ToClient;

/// The schedules.
#[derive(Clone, Copy)]
enum Schedule {
    /// The Fulfill of the first Prepare is lost, and its bytes are sent again.
    BytesAgain,
    /// A hop passes at most 100 units on, of 150 that are offered.
    TooLarge,
    /// The Fulfill that the second of two hops gave is lost towards the first.
    LostFulfill,
    /// Bytes and money are sent both ways over a hop.
    BothWays,
}

impl Schedule {
    /// The hops, each with the most units that it passes on.
    fn limits(self) -> &'static [u64] {
        match self {
            Schedule::BytesAgain => &[],
            Schedule::TooLarge => &[100],
            Schedule::LostFulfill => &[1_000, 1_000],
            Schedule::BothWays => &[1_000],
        }
    }

    fn play<A: Allocator + Copy>(self, rt: &impl Abort, player: &mut Player<A>) {
        player.open(rt, Side::Client, 1);
        match self {
            Schedule::BytesAgain => send_again(rt, player),
            Schedule::TooLarge => learn_limit(rt, player),
            Schedule::LostFulfill => lose_fulfill(rt, player),
            Schedule::BothWays => {
                go_both_ways(rt, player);
                come_both_ways(rt, player);
            }
        }
    }

    /// Whether the trace is that of the schedule.
    fn is_right<A: Allocator + Copy>(self, trace: &Trace<A>) -> bool {
        match self {
            Schedule::BytesAgain => is_read(trace) && has_fulfilled(trace, &[1, 2, 3], 0),
            Schedule::TooLarge => {
                stands(trace, 0, 0, (100, 100))
                    && has_paid(trace, Side::Client, 100, 100)
                    && has_turned_back(trace, 150)
                    && has_fulfilled(trace, &[2], 100)
            }
            Schedule::LostFulfill => {
                stands(trace, 1, 0, (20, 10))
                    && has_paid(trace, Side::Client, 10, 20)
                    && has_fulfilled(trace, &[1, 2], 10)
            }
            Schedule::BothWays => {
                stands(trace, 0, 0, (10, 10))
                    && has_paid(trace, Side::Client, 10, 10)
                    && has_paid(trace, Side::Server, 20, 20)
                    && has_fulfilled(trace, &[1], 10)
            }
        }
    }
}

/// An end writes the text on a stream.
fn write<A: Allocator + Copy>(rt: &impl Abort, player: &mut Player<A>, side: Side, stream: u8) {
    player.call(rt, &Event::Write(side, stream, TEXT));
}

/// The first of these Prepares is lost on its way back.
fn send_again<A: Allocator + Copy>(rt: &impl Abort, player: &mut Player<A>) {
    write(rt, player, Side::Client, 1);
    player.call(rt, &Event::Close(Side::Client, 1));
    player.send(rt, Side::Client);
    player.arrive(rt, 0, UP, 1);
    player.lose(rt, 0, UP, 1);
    player.send(rt, Side::Client);
    player.arrive(rt, 0, UP, 2);
    player.come_back(rt, 0, UP);
    player.send(rt, Side::Client);
    player.arrive(rt, 0, UP, 3);
    read(rt, player, Side::Server, 1);
    for _ in 0..2 {
        let told = player.read(rt, Side::Server, 1);
        sure!(rt; matches!(told, Told::Gave(Ok(Got::End))));
    }
}

/// The text is read at an end.
fn read<A: Allocator + Copy>(rt: &impl Abort, player: &mut Player<A>, side: Side, stream: u8) {
    match player.read(rt, side, stream) {
        Told::Gave(Ok(Got::Bytes(bytes))) => sure!(rt; bytes.as_slice() == TEXT),
        _ => panic!(rt; "there are bytes"),
    }
}

fn learn_limit<A: Allocator + Copy>(rt: &impl Abort, player: &mut Player<A>) {
    player.offer(rt, Side::Client, 1, 150, 500);
    player.send(rt, Side::Client);
    player.turn_back(rt, 0, UP, 1);
    player.come_back(rt, 0, UP);
    player.send(rt, Side::Client);
    player.pass(rt, 0, UP, 2);
    player.arrive(rt, 1, UP, 1);
    player.come_back(rt, 1, UP);
    player.come_back(rt, 0, UP);
}

fn lose_fulfill<A: Allocator + Copy>(rt: &impl Abort, player: &mut Player<A>) {
    player.offer(rt, Side::Client, 1, 10, 100);
    player.send(rt, Side::Client);
    player.pass(rt, 0, UP, 1);
    player.pass(rt, 1, UP, 1);
    player.arrive(rt, 2, UP, 1);
    player.come_back(rt, 2, UP);
    player.lose(rt, 1, UP, 1);
    player.come_back(rt, 0, UP);
    player.send(rt, Side::Client);
    player.pass(rt, 0, UP, 2);
    player.pass(rt, 1, UP, 2);
    player.arrive(rt, 2, UP, 2);
    for link in [2, 1, 0] {
        player.come_back(rt, link, UP);
    }
}

/// Both ends write and offer, and both their Prepares arrive at the other end.
fn go_both_ways<A: Allocator + Copy>(rt: &impl Abort, player: &mut Player<A>) {
    player.open(rt, Side::Server, 2);
    write(rt, player, Side::Client, 1);
    write(rt, player, Side::Server, 2);
    player.offer(rt, Side::Client, 1, 10, 100);
    player.offer(rt, Side::Server, 2, 20, 100);
    player.send(rt, Side::Client);
    player.send(rt, Side::Server);
    player.pass(rt, 0, UP, 1);
    player.pass(rt, 1, DOWN, 1);
    player.arrive(rt, 1, UP, 1);
    player.arrive(rt, 0, DOWN, 1);
}

/// Their answers arrive, and what was received is read.
fn come_both_ways<A: Allocator + Copy>(rt: &impl Abort, player: &mut Player<A>) {
    player.come_back(rt, 1, UP);
    player.come_back(rt, 0, DOWN);
    player.come_back(rt, 0, UP);
    player.come_back(rt, 1, DOWN);
    read(rt, player, Side::Server, 1);
    read(rt, player, Side::Client, 2);
}

/// Whether the text was read to its end, and nothing else that a stream's record reports has happened.
fn is_read<A: Allocator + Copy>(trace: &Trace<A>) -> bool {
    let Some(ledger) = trace.ledger(Side::Client, 1) else {
        return false;
    };
    ledger.written() == TEXT
        && ledger.read() == TEXT
        && ledger.is_closed()
        && ledger.saw_end()
        && !ledger.is_aborted()
        && !ledger.saw_abort()
        && trace.ledger(Side::Server, 1).is_none()
}

/// Whether the first hop rejected a Prepare of this amount that it put on no link.
fn has_turned_back<A: Allocator + Copy>(trace: &Trace<A>, amount: u64) -> bool {
    let Some(hop) = trace.hop(0) else {
        return false;
    };
    for entry in hop.answered() {
        if entry.amount_in == amount && entry.outgoing.is_none() && !entry.fulfilled {
            return true;
        }
    }
    false
}

/// Whether an end paid so much, and the other one was credited so much.
fn has_paid<A: Allocator + Copy>(trace: &Trace<A>, side: Side, paid: u64, credited: u64) -> bool {
    trace.end(side).totals().paid == paid && trace.end(other(side)).totals().credited == credited
}

/// Whether the claimer's claims against the neighbour before it, and the payer's dues to the one after it, are these.
fn stands<A: Allocator + Copy>(
    trace: &Trace<A>,
    claimer: usize,
    payer: usize,
    balances: (u64, u64),
) -> bool {
    let (Some(claimer), Some(payer)) = (trace.hop(claimer), trace.hop(payer)) else {
        return false;
    };
    (claimer.claims(0), payer.dues(1)) == (Ok(balances.0), Ok(balances.1))
}

/// Whether the server fulfilled Prepares of these sequences and this amount, and no others.
fn has_fulfilled<A: Allocator + Copy>(trace: &Trace<A>, sequences: &[u64], amount: u64) -> bool {
    let mut wanted = sequences.iter();
    for entry in trace.end(Side::Server).answered() {
        if entry.fulfilled && !is_next(entry, wanted.next(), amount) {
            return false;
        }
    }
    wanted.next().is_none()
}

fn is_next(entry: &AnsweredAtEnd, sequence: Option<&u64>, amount: u64) -> bool {
    entry.amount == amount && entry.sequence == sequence.copied()
}

/// Hops that pass on so much.
fn hops(rt: &impl Abort, alloc: Global, limits: &[u64]) -> Vec<Account> {
    let mut hops = Vec::new(alloc);
    for limit in limits {
        sure!(rt; hops.push(account(*limit)).is_ok());
    }
    hops
}

/// That the trace is that of the schedule. If a request was refused, one event was not recorded or ran out of memory.
fn check<A: Allocator + Copy>(
    rt: &impl Abort,
    player: &Player<A>,
    schedule: Schedule,
    met: bool,
    n: u64,
) {
    sure!(rt; schedule.is_right(player.trace()), n);
    sure!(rt; player.trace().refused() == (player.lacks() > 0), n);
    sure!(rt; player.refusals() == u64::from(met), n);
}

/// The schedule, whose request `n` is refused: whether there was one.
fn meets(
    rt: &impl Abort,
    heap: &Refusing<Global>,
    hops: &[Account],
    schedule: Schedule,
    n: u64,
) -> bool {
    heap.refuse_only(n);
    match Player::new(rt, heap, hops, config(rt)) {
        Ok(mut player) => {
            schedule.play(rt, &mut player);
            check(rt, &player, schedule, heap.has_refused(), n);
            drop(player);
        }
        Err(fault) => {
            sure!(rt; fault == Fault::NoMemory);
            let made = Player::new(rt, heap, hops, config(rt));
            drop(made.expect(rt, "one request alone is refused"));
        }
    }
    heap.has_refused()
}

/// Refuses each request in turn, until a run meets no refusal.
fn refuse_each(rt: &impl Abort, global: Global, schedule: Schedule) {
    let heap: Refusing<Global> = Refusing::new(global);
    let hops = hops(rt, global, schedule.limits());
    for n in 1..10_000_u64 {
        if !meets(rt, &heap, &hops, schedule, n) {
            assert!(rt; 20 < n, "it asks for more");
            return;
        }
    }
    panic!(rt; "no run met no refusal");
}

#[test]
fn bytes_go_again_without_memory(rt: HostRuntime) {
    refuse_each(&rt, rt.alloc(), Schedule::BytesAgain);
}

#[test]
fn a_packet_limit_is_learned_without_memory(rt: HostRuntime) {
    refuse_each(&rt, rt.alloc(), Schedule::TooLarge);
}

#[test]
fn a_fulfill_is_lost_without_memory(rt: HostRuntime) {
    refuse_each(&rt, rt.alloc(), Schedule::LostFulfill);
}

#[test]
fn both_ways_without_memory(rt: HostRuntime) {
    refuse_each(&rt, rt.alloc(), Schedule::BothWays);
}
