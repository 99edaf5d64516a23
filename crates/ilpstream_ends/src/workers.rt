//! The worker threads of `send`.

use crate::delivery::STREAM;
use crate::ivs::SharedIvs;
use crate::told_link::{Told, ToldFlights, ToldLink};
use ilpstream_serving::{LastMoment, SendTerms, SharedClock, link_to};
use st_hub::{Bench, Ivs, WorkEnd, Worker, work};
use st_queues::{Gauge, GaugeSeat, HubName};
use std::alloc::Global;
use std::net::Net;
use std::sync::{Mutex, Wait};
use std::time::Duration;

/// For how many milliseconds a worker sleeps at most if it has nothing to send and nobody wakes it.
const REST: u64 = 1_000;

// Each function here that acquires a lock releases it before it returns.

/// A further seat at the gauge.
fn split_seat<N: HubName<Global>>(
    rt: &impl Wait,
    gauge: &Gauge<N, Global>,
    seat: &Mutex<GaugeSeat<N, Global>>,
) -> GaugeSeat<N, Global> {
    gauge.split(&mut seat.lock(rt))
}

/// Works for a hub over a link of its own, until stream 1 is settled or stalled, in at most the rounds that the terms
/// allow, each with one exchange or none. Then it asks the other workers to stop.
pub(crate) fn work_alone<N: HubName<Global>, I: Ivs, R: Net + Wait + std::time::Clock>(
    rt: &R,
    alloc: Global,
    bench: &Bench<N, Global>,
    gauge: &Gauge<N, Global>,
    seat: &Mutex<GaugeSeat<N, Global>>,
    ivs: &Mutex<I>,
    last: &Mutex<LastMoment>,
    terms: SendTerms<'_>,
    told: Told<'_>,
) -> WorkEnd {
    let mut seat = split_seat(rt, gauge, seat);
    let end = match link_to(alloc, rt, terms.neighbour, terms.turns) {
        Ok(link) => work(
            rt,
            bench,
            Worker {
                link: &mut ToldLink { link, rt, told },
                ivs: &mut SharedIvs::new(rt, ivs),
                clock: &mut SharedClock {
                    rt,
                    last,
                    log: terms.log,
                },
                gauge,
                seat: &mut seat,
                stream: Some(STREAM),
                rest: Duration::from_millis(REST),
                turns: terms.turns,
                watch: &mut ToldFlights { rt, told },
            },
        ),
        Err(_) => WorkEnd::NoMemory,
    };
    gauge.ask_stop(&mut seat);
    bench.wake_all(rt);
    end
}
