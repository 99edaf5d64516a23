//! A link to another hub in the same process.

ghost use Rattle.std.specs.Prelude.{◌≡◌};
ghost use Rattle.st_hub.specs.Turns.{AnswersOver};

use crate::bench::Bench;
use crate::turns::CreditShare;
use st_devices::Counted;
use st_end::Received;
use st_ilp::Moment;
use st_links::{Clock, Link, LinkFault};
use st_queues::HubName;
use std::alloc::Allocator;
use std::sync::Wait;

/// A link in memory to the hub named `N`. An exchange takes that hub's lock and calls `HubState::incoming`.
#[derive(Drop)]
pub struct HubLink<'a, N: HubName<A>, A: Allocator + Copy, K: Clock, R: Wait> {
    rt: &'a R,
    hub: &'a Bench<N, A>,
    share: CreditShare<N>,
    clock: K,
}

impl<'a, N: HubName<A>, A: Allocator + Copy, K: Clock, R: Wait> HubLink<'a, N, A, K, R> {
    /// Makes a link to a hub. `share` is one of that hub's shares, in which the link books what it credits, and `clock`
    /// gives the moment at which each packet arrives.
    pub fn new(
        rt: &'a R,
        hub: &'a Bench<N, A>,
        share: CreditShare<N>,
        clock: K,
    ) -> HubLink<'a, N, A, K, R>
        ensures { result.share ≡ share }
    {
        HubLink {
            rt,
            hub,
            share,
            clock,
        }
    }
}

impl<N: HubName<A>, A: Allocator + Copy, K: Clock + Drop, R: Wait> HubLink<'_, N, A, K, R> {
    /// Returns the share, with the units that were credited over this link.
    pub fn into_share(self) -> CreditShare<N>
        ensures { result ≡ self.entry.share }
    {
        self.share
    }
}

impl<N: HubName<A>, A: Allocator + Copy, K: Clock, R: Wait> Counted for HubLink<'_, N, A, K, R> {
    ghost fault_count = { λ _. 0 };

    fn faults(&self) -> u64 {
        0
    }
}

impl<N: HubName<A>, A: Allocator + Copy, K: Clock, R: Wait> Link<A> for HubLink<'_, N, A, K, R> {
    // An end answered these bytes at some moment, and what it credited by that was added to the link's share.
    ghost exchanges = { λ old bytes answer new. AnswersOver old.share bytes answer new.share };

    /// Gives the bytes of a packet to the hub and returns its answer. It waits for the hub's lock, and wakes a worker of
    /// that hub. Fails with `LinkFault::NoMemory` if memory is refused.
    fn exchange(&mut self, bytes: &[u8], _by: Moment) -> Result<Vec<u8, A>, LinkFault> {
        let now = self.clock.now();
        let taken = self.hub.lock(self.rt).incoming(&mut self.share, bytes, now);
        self.hub.wake_one(self.rt);
        match taken {
            Ok(Received { bytes, .. }) => Ok(bytes),
            Err(_) => Err(LinkFault::NoMemory),
        }
    }
}
