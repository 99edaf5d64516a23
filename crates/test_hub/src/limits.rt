//! What an end accepts: its workers raise no limit of it.
use crate::hubs::{Locked, Trial, offer, open, run, share_of};
use crate::links::send_over;
use crate::streams::send_all;
use st_queues::{GaugeSeat, HubName};
use std::alloc::Global;
use std::process::Abort;
use std::sync::Wait;

/// A worker of the client sends 10 units. The server then offers 10 on its first stream, of which the client accepts none.
#[derive(Drop)]
struct AcceptsNothing;

impl<R: Wait + Abort + std::time::Clock> Trial<R> for AcceptsNothing {
    fn run<N: HubName<Global>, M: HubName<Global>>(
        &self,
        rt: &R,
        _alloc: Global,
        hubs: &Locked<N, M>,
        seat: &mut GaugeSeat<N, Global>,
    ) {
        offer(rt, hubs, 10);
        let share = share_of(rt, &mut *hubs.far.lock(rt));
        let _share = send_over(rt, hubs, seat, share, 8);
        sure!(rt; hubs.gauge.seen(seat).paid == 10);
        let (stream, _writer) = open(rt, &mut *hubs.far.lock(rt));
        sure!(rt; hubs.far.lock(rt).offer(stream, 10) == Ok(()));
        send_all(rt, &hubs.far, &hubs.near);
        sure!(rt; stream.number() == 2 && hubs.near.lock(rt).totals().credited == 0);
    }
}

#[test]
fn a_worker_raises_no_limit(rt: HostRuntime) {
    run(&rt, rt.alloc(), 1_000, &AcceptsNothing);
}
