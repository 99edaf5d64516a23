//! A Prepare that passes through a hop.

use st_hop::{Account, HopError, HopState, Link, Moment, Outcome, Route, Verdict};
use std::alloc::Global;

/// A hop between account 0, for `example.a`, and account 1, for `example.b`: each may owe 100.
fn hop_between(alloc: Global) -> Result<HopState<Global>, HopError> {
    let account = Account {
        limit: 100,
        max_packet: 1_000,
    };
    let routes = [
        Route::one_to_one("example.a", 0),
        Route::one_to_one("example.b", 1),
    ];
    HopState::new(alloc, "example.c", &[account, account], &routes)
}

/// Forwards a Prepare of account 0 over a link, and settles the answer: the bytes to return.
fn pass_on<L: Link<Global>>(
    hop: &mut HopState<Global>,
    prepare: &[u8],
    link: &mut L,
    now: Moment,
) -> Result<Vec<u8>, HopError> {
    match hop.arrive(0, prepare, now)? {
        Verdict::Answer(reject) => Ok(reject),
        Verdict::Forward {
            ticket,
            account: _,
            bytes,
        } => {
            let by = Moment::new(ticket.read().expiry).unwrap_or(now);
            let outcome = match link.exchange(&bytes, by) {
                Ok(answer) => Outcome::Answered(answer),
                Err(_) => Outcome::Fault,
            };
            Ok(hop.settle(ticket, outcome, now))
        }
    }
}

#[test]
fn a_prepare_is_passed_on_and_settled(rt: HostRuntime) {
    let mut hop = hop_between(rt.alloc()).expect(&rt, "memory");
    let mut link = crate::desks::Neighbour {
        alloc: rt.alloc(),
        answer: Some(crate::hop::FULFILL),
        asked: 0,
    };
    let now = crate::hop::moment(&rt, 0);
    let answer = pass_on(&mut hop, crate::hop::PREPARE, &mut link, now).expect(&rt, "memory");
    sure!(&rt; answer.as_slice() == crate::hop::FULFILL.as_slice());
    sure!(&rt; crate::hop::counts(&hop) == [Ok(5), Ok(0), Ok(0), Ok(0), Ok(5), Ok(0)]);
}
