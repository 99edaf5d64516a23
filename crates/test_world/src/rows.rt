//! Hops that exchange, and worlds that are refused.

use st_hop::Account;
use st_ilp::Moment;
use st_oer::Rate;
use st_sender::EndConfig;
use st_world::{Event, Fault, MAX_HOPS, Trace, World};
use st_world_parts::{Side, Way};
use std::alloc::Global;
use std::process::Abort;

const IV: [u8; 12] = [0, 1, 2, 3, 4, 5, 6, 7, 8, 9, 10, 11];

fn moment(rt: &impl Abort) -> Moment {
    Moment::new(0).expect(rt, "it is not below 0")
}

/// At most 16 Prepares in flight, 1,000 in all, of up to 1,000 units.
pub(crate) fn config(rt: &impl Abort) -> EndConfig {
    EndConfig::new(16, 1_000, 1_000).expect(rt, "it is allowed")
}

/// An account with no limit but that of a packet.
pub(crate) fn account(max_packet: u64) -> Account {
    Account {
        limit: 1_000_000,
        max_packet,
    }
}

/// The schedule's trace, in which no call ran out of memory.
fn played(rt: &impl Abort, world: World<Global>, events: &[Event<'_>]) -> Trace<Global> {
    match world.play(events) {
        Ok(trace) => {
            sure!(rt; !trace.refused());
            trace
        }
        Err(_) => panic!(rt; "there is memory"),
    }
}

pub(crate) fn rate(rt: &impl Abort, num: u32, den: u32) -> Rate {
    Rate::new(num, den).expect(rt, "neither is 0")
}

/// Two hops that exchange at 3 to 2 and at 1 to 2.
fn exchanging(rt: &impl Abort, alloc: Global) -> World<Global> {
    let least = config(rt).with_least(rate(rt, 3, 4));
    let hops = [
        (account(1_000), rate(rt, 3, 2)),
        (account(1_000), rate(rt, 1, 2)),
    ];
    World::with_rates(alloc, &hops, least).expect(rt, "there is memory")
}

/// What happens to 100 units that cross them.
fn happens(place: usize, now: Moment) -> Event<'static> {
    match place {
        0 => Event::OpenStream(Side::Client),
        1 => Event::ReceiveMax(Side::Server, 1, 100),
        2 => Event::Offer(Side::Client, 1, 100),
        3 => Event::Send(Side::Client, IV, now),
        4 => Event::Arrive(0, Way::ToServer, 1, now),
        5 => Event::Arrive(1, Way::ToServer, 1, now),
        6 => Event::Arrive(2, Way::ToServer, 1, now),
        7 => Event::AnswerArrives(2, Way::ToServer, 1, now),
        8 => Event::AnswerArrives(1, Way::ToServer, 1, now),
        _ => Event::AnswerArrives(0, Way::ToServer, 1, now),
    }
}

fn events(rt: &impl Abort, alloc: Global) -> Vec<Event<'static>> {
    let now = moment(rt);
    let mut events = Vec::new(alloc);
    for place in 0..10 {
        sure!(rt; events.push(happens(place, now)).is_ok());
    }
    events
}

/// The trace of 100 units that cross them.
fn exchanged(rt: &impl Abort, alloc: Global) -> Trace<Global> {
    let events = events(rt, alloc);
    played(rt, exchanging(rt, alloc), &events)
}

/// The claims of a hop against the one before it, and its dues to the one after it.
pub(crate) fn balances(trace: &Trace<Global>, place: usize) -> Option<(u64, u64)> {
    let hop = trace.hop(place)?;
    Some((hop.claims(0).ok()?, hop.dues(1).ok()?))
}

fn check_exchange(rt: &impl Abort, trace: &Trace<Global>) {
    sure!(rt; balances(trace, 0) == Some((100, 150)));
    sure!(rt; balances(trace, 1) == Some((150, 75)));
    sure!(rt; trace.end(Side::Client).totals().paid == 100);
    sure!(rt; trace.end(Side::Server).totals().credited == 75);
}

#[test]
fn hops_exchange(rt: HostRuntime) {
    let trace = exchanged(&rt, rt.alloc());
    check_exchange(&rt, &trace);
    drop(trace);
}

/// Why a world could not be made.
fn refusal(made: Result<World<Global>, Fault>) -> Option<u8> {
    let fault = made.err()?;
    Some(fault.number())
}

#[test]
fn no_chain_is_longer_than_eight_hops(rt: HostRuntime) {
    let hops = |count| refusal(World::new(rt.alloc(), count, config(&rt)));
    sure!(&rt; (hops(0), hops(MAX_HOPS), hops(MAX_HOPS + 1)) == (None, None, Some(78)));
    let high = [Account {
        limit: 1 << 63,
        max_packet: 1,
    }];
    let made = World::with_hops(rt.alloc(), &high, config(&rt));
    sure!(&rt; refusal(made) == Some(78));
}
