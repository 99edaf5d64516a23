//! Tries after a temporary Reject.
use crate::ends::Counting;
use crate::hubs::{Locked, Trial, offer, run, work_on};
use st_devices::Counted;
use st_hub::WorkEnd;
use st_ilp::Moment;
use st_links::{Link, LinkFault};
use st_queues::{GaugeSeat, HubName};
use std::alloc::Global;
use std::process::Abort;
use std::sync::Wait;
use std::time::{Duration, Instant};

/// A link that gives a Reject of class T each time.
#[derive(Drop)]
struct Busy {
    alloc: Global,
    exchanges: u64,
}

/// A Reject that says that the destination has too little liquidity for now.
pub(crate) const BUSY: &[u8; 17] = b"\x0e\x0fT04\x09example.b\0\0";

impl Counted for Busy {
    ghost fault_count = { λ _. 0 };

    fn faults(&self) -> u64 {
        0
    }
}

impl Link<Global> for Busy {
    fn exchange(&mut self, _bytes: &[u8], _by: Moment) -> Result<Vec<u8>, LinkFault> {
        self.exchanges = self.exchanges.saturating_add(1);
        BUSY.to_vec(self.alloc).map_err(|_| LinkFault::NoMemory)
    }
}

/// Five tries after one another, with 50 ms between two.
#[derive(Drop)]
struct IsSpaced;

impl<R: Wait + Abort + std::time::Clock> Trial<R> for IsSpaced {
    fn run<N: HubName<Global>, M: HubName<Global>>(
        &self,
        rt: &R,
        alloc: Global,
        hubs: &Locked<N, M>,
        seat: &mut GaugeSeat<N, Global>,
    ) {
        offer(rt, hubs, 10);
        let mut link = Busy {
            alloc,
            exchanges: 0,
        };
        let mut ivs = Counting { first: 1, next: 0 };
        let begun = Instant::now(rt).expect(rt, "there is a clock");
        sure!(rt; work_on(rt, hubs, seat, &mut link, &mut ivs, 5) == WorkEnd::Turns);
        let took = begun.elapsed(rt).expect(rt, "there is a clock");
        sure!(rt; link.exchanges == 5);
        sure!(rt; took >= Duration::from_millis(200));
    }
}

#[test]
fn tries_after_a_temporary_reject_are_spaced(rt: HostRuntime) {
    run(&rt, rt.alloc(), 1_000, &IsSpaced);
}
