//! An answer that is lost.
use crate::ends::{Counting, stopped_clock};
use crate::hubs::{Locked, Trial, credited, offer, run, share_of, work_on};
use st_devices::Counted;
use st_hub::{CreditShare, HubLink};
use st_ilp::Moment;
use st_links::{Link, LinkFault};
use st_queues::{GaugeSeat, HubName};
use std::alloc::Global;
use std::process::Abort;
use std::sync::Wait;

/// A link that loses its first answer.
#[derive(Drop)]
struct Losing<L> {
    link: L,
    exchanges: u64,
}

impl<L> Counted for Losing<L> {
    ghost fault_count = { λ _. 0 };

    fn faults(&self) -> u64 {
        0
    }
}

impl<L: Link<Global>> Link<Global> for Losing<L> {
    fn exchange(&mut self, bytes: &[u8], by: Moment) -> Result<Vec<u8>, LinkFault> {
        self.exchanges = self.exchanges.saturating_add(1);
        match self.link.exchange(bytes, by) {
            Ok(answer) if self.exchanges > 1 => Ok(answer),
            _ => Err(LinkFault::Peer),
        }
    }
}

/// Sends over a link that loses its first answer: the link's share.
fn send_losing<N: HubName<Global>, M: HubName<Global>, R: Wait + Abort + std::time::Clock>(
    rt: &R,
    hubs: &Locked<N, M>,
    seat: &mut GaugeSeat<N, Global>,
    share: CreditShare<M>,
) -> CreditShare<M> {
    let mut link = Losing {
        link: HubLink::new(rt, &hubs.far, share, stopped_clock(rt)),
        exchanges: 0,
    };
    let mut ivs = Counting { first: 1, next: 0 };
    work_on(rt, hubs, seat, &mut link, &mut ivs, 4);
    link.link.into_share()
}

/// 10 units are sent in one Prepare, whose answer is lost, and are sent again.
#[derive(Drop)]
struct LosesAnAnswer;

impl<R: Wait + Abort + std::time::Clock> Trial<R> for LosesAnAnswer {
    fn run<N: HubName<Global>, M: HubName<Global>>(
        &self,
        rt: &R,
        alloc: Global,
        hubs: &Locked<N, M>,
        seat: &mut GaugeSeat<N, Global>,
    ) {
        offer(rt, hubs, 10);
        let share = share_of(rt, &mut *hubs.far.lock(rt));
        let share = send_losing(rt, hubs, seat, share);
        sure!(rt; hubs.gauge.seen(seat).paid == 10);
        sure!(rt; credited(rt, alloc, hubs, share) == 20);
    }
}

#[test]
fn a_lost_answer_is_credited_and_not_paid(rt: HostRuntime) {
    run(&rt, rt.alloc(), 1_000, &LosesAnAnswer);
}
