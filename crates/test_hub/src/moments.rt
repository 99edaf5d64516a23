//! Until when an answer is of use, and a Prepare that arrives too late.
use crate::ends::{Counting, clock_at, stopped_clock};
use crate::hubs::{Locked, Trial, credited, offer, run, share_of, work_on};
use st_devices::Counted;
use st_hub::{CreditShare, HubLink};
use st_ilp::{Moment, read_prepare};
use st_links::{Link, LinkFault};
use st_queues::{GaugeSeat, HubName};
use std::alloc::Global;
use std::process::Abort;
use std::sync::Wait;

/// A link that notes how many exchanges may last until the expiry that their Prepares name, and how many may not.
#[derive(Drop)]
struct Noting<L> {
    link: L,
    until_expiry: u64,
    others: u64,
}

impl<L: Counted> Counted for Noting<L> {
    ghost fault_count = { λ n. L.fault_count n.link };

    fn faults(&self) -> u64 {
        self.link.faults()
    }
}

impl<L: Link<Global>> Link<Global> for Noting<L> {
    fn exchange(&mut self, bytes: &[u8], by: Moment) -> Result<Vec<u8>, LinkFault> {
        match read_prepare(bytes) {
            Ok(prepare) if prepare.expiry == by.ms() => {
                self.until_expiry = self.until_expiry.saturating_add(1);
            }
            _ => self.others = self.others.saturating_add(1),
        }
        self.link.exchange(bytes, by)
    }
}

/// 10 units are sent in a Prepare whose answer is of use until its expiry.
#[derive(Drop)]
struct IsOfUse;

impl<R: Wait + Abort + std::time::Clock> Trial<R> for IsOfUse {
    fn run<N: HubName<Global>, M: HubName<Global>>(
        &self,
        rt: &R,
        alloc: Global,
        hubs: &Locked<N, M>,
        seat: &mut GaugeSeat<N, Global>,
    ) {
        offer(rt, hubs, 10);
        let share = share_of(rt, &mut *hubs.far.lock(rt));
        let mut link = Noting {
            link: HubLink::new(rt, &hubs.far, share, stopped_clock(rt)),
            until_expiry: 0,
            others: 0,
        };
        let mut ivs = Counting { first: 1, next: 0 };
        work_on(rt, hubs, seat, &mut link, &mut ivs, 4);
        sure!(rt; link.until_expiry > 0);
        sure!(rt; link.others == 0);
        sure!(rt; credited(rt, alloc, hubs, link.link.into_share()) == 10);
    }
}

#[test]
fn an_answer_is_of_use_until_the_prepare_expires(rt: HostRuntime) {
    run(&rt, rt.alloc(), 1_000, &IsOfUse);
}

/// What a hub is credited of 10 units that are sent at the time 0, when its clock says another.
#[derive(Drop)]
struct Arrives {
    at: i64,
    credited: u64,
}

/// Sends to the second hub, whose clock says this moment: the link's share.
fn send_at<N: HubName<Global>, M: HubName<Global>, R: Wait + Abort + std::time::Clock>(
    rt: &R,
    hubs: &Locked<N, M>,
    seat: &mut GaugeSeat<N, Global>,
    share: CreditShare<M>,
    at: i64,
) -> CreditShare<M> {
    let mut link = HubLink::new(rt, &hubs.far, share, clock_at(rt, at));
    let mut ivs = Counting { first: 1, next: 0 };
    work_on(rt, hubs, seat, &mut link, &mut ivs, 4);
    link.into_share()
}

impl<R: Wait + Abort + std::time::Clock> Trial<R> for Arrives {
    fn run<N: HubName<Global>, M: HubName<Global>>(
        &self,
        rt: &R,
        alloc: Global,
        hubs: &Locked<N, M>,
        seat: &mut GaugeSeat<N, Global>,
    ) {
        offer(rt, hubs, 10);
        let share = share_of(rt, &mut *hubs.far.lock(rt));
        let share = send_at(rt, hubs, seat, share, self.at);
        sure!(rt; credited(rt, alloc, hubs, share) == self.credited);
    }
}

/// A Prepare lives 30 seconds.
#[test]
fn a_prepare_that_expired_is_not_fulfilled(rt: HostRuntime) {
    let in_time = Arrives {
        at: 29_999,
        credited: 10,
    };
    let late = Arrives {
        at: 30_000,
        credited: 0,
    };
    run(&rt, rt.alloc(), 1_000, &in_time);
    run(&rt, rt.alloc(), 1_000, &late);
}
