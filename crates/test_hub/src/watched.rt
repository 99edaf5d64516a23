//! What a worker reports of its exchanges.
use crate::ends::{Counting, stopped_clock};
use crate::hubs::{Locked, Trial, offer, run, share_of, work_watched};
use st_devices::Counted;
use st_end::{Failed, FailedKind};
use st_hub::{HubLink, Observer};
use st_ilp::{ErrorCode, Moment};
use st_links::{Link, LinkFault};
use st_queues::{GaugeSeat, HubName};
use st_sender::Blocked;
use std::alloc::Global;
use std::process::Abort;
use std::sync::Wait;

/// A Reject F08 of `test.c` with the message "full": 10 units arrived, and 5 may be sent.
pub(crate) const TOO_LARGE: &[u8] =
    b"\x0e\x20F08\x06test.c\x04full\x10\0\0\0\0\0\0\0\x0a\0\0\0\0\0\0\0\x05";

/// A link that gives no answer, then that Reject, and then bytes that are not an answer.
#[derive(Drop)]
struct Failing {
    alloc: Global,
    exchanges: u64,
}

impl Counted for Failing {
    ghost fault_count = { λ _. 0 };

    fn faults(&self) -> u64 {
        0
    }
}

impl Link<Global> for Failing {
    fn exchange(&mut self, _bytes: &[u8], _by: Moment) -> Result<Vec<u8>, LinkFault> {
        self.exchanges = self.exchanges.saturating_add(1);
        let answer = match self.exchanges {
            1 => return Err(LinkFault::Peer),
            2 => TOO_LARGE,
            _ => b"\x0e",
        };
        answer.to_vec(self.alloc).map_err(|_| LinkFault::NoMemory)
    }
}

/// What was reported: how often, and the last cause.
#[derive(Drop)]
struct Notes {
    count: u64,
    kind: FailedKind,
    code: Option<ErrorCode>,
    limit: u64,
    is_of_hop: bool,
}

impl Observer for Notes {
    fn failed(&mut self, failed: &Failed, limit: u64) {
        self.count = self.count.saturating_add(1);
        self.kind = failed.kind();
        self.code = failed.code();
        self.limit = limit;
        self.is_of_hop = failed.by() == b"test.c".as_slice()
            && failed.message() == b"full".as_slice();
    }

    fn waits(&mut self, _blocked: Blocked) {}
}

/// 10 units are sent in one Prepare, which fails three times.
#[derive(Drop)]
struct Fails;

impl<R: Wait + Abort + std::time::Clock> Trial<R> for Fails {
    fn run<N: HubName<Global>, M: HubName<Global>>(
        &self,
        rt: &R,
        alloc: Global,
        hubs: &Locked<N, M>,
        seat: &mut GaugeSeat<N, Global>,
    ) {
        offer(rt, hubs, 10);
        let mut link = Failing {
            alloc,
            exchanges: 0,
        };
        let mut ivs = Counting { first: 1, next: 0 };
        let mut notes = Notes {
            count: 0,
            kind: FailedKind::Unfit,
            code: None,
            limit: 0,
            is_of_hop: true,
        };
        work_watched(rt, hubs, seat, &mut link, &mut ivs, 1, &mut notes);
        sure!(rt; notes.count == 1 && notes.kind == FailedKind::Lost);
        sure!(rt; notes.limit == 1_000 && !notes.is_of_hop);
        work_watched(rt, hubs, seat, &mut link, &mut ivs, 1, &mut notes);
        sure!(rt; notes.count == 2 && notes.kind == FailedKind::Rejected);
        sure!(rt; notes.code == Some(ErrorCode::AMOUNT_TOO_LARGE) && notes.limit == 5 && notes.is_of_hop);
        work_watched(rt, hubs, seat, &mut link, &mut ivs, 1, &mut notes);
        sure!(rt; notes.count == 3 && notes.kind == FailedKind::Unreadable);
        sure!(rt; notes.code.is_none() && hubs.near.lock(rt).packet_limit() == 5);
    }
}

/// The limits of the peer that were reported: how many, and the last.
#[derive(Drop)]
struct Limits {
    count: u64,
    last: Option<Blocked>,
}

impl Observer for Limits {
    fn failed(&mut self, _failed: &Failed, _limit: u64) {}

    fn waits(&mut self, blocked: Blocked) {
        self.count = self.count.saturating_add(1);
        self.last = Some(blocked);
    }
}

/// 110 units are offered on a stream that accepts 100: one Prepare is refused, one is fulfilled, and one is a
/// Blocked frame.
#[derive(Drop)]
struct Waits;

impl<R: Wait + Abort + std::time::Clock> Trial<R> for Waits {
    fn run<N: HubName<Global>, M: HubName<Global>>(
        &self,
        rt: &R,
        _alloc: Global,
        hubs: &Locked<N, M>,
        seat: &mut GaugeSeat<N, Global>,
    ) {
        offer(rt, hubs, 110);
        let share = share_of(rt, &mut *hubs.far.lock(rt));
        let mut link = HubLink::new(rt, &hubs.far, share, stopped_clock(rt));
        let mut ivs = Counting { first: 1, next: 0 };
        let mut limits = Limits {
            count: 0,
            last: None,
        };
        work_watched(rt, hubs, seat, &mut link, &mut ivs, 2, &mut limits);
        sure!(rt; limits.count == 0);
        work_watched(rt, hubs, seat, &mut link, &mut ivs, 2, &mut limits);
        let told = Blocked::Money {
            stream: 1,
            receive_max: 100,
            total: 100,
        };
        sure!(rt; limits.count == 1 && limits.last == Some(told));
    }
}

#[test]
fn a_limit_at_which_it_waits_is_reported(rt: HostRuntime) {
    run(&rt, rt.alloc(), 1_000, &Waits);
}

#[test]
fn each_failed_prepare_is_reported(rt: HostRuntime) {
    run(&rt, rt.alloc(), 1_000, &Fails);
}
