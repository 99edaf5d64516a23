//! A link for tests whose exchange of a given number fails.

ghost use Rattle.std.specs.Prelude.{◌≡◌, ◌↔◌, IsTrue};
ghost use Rattle.st_links.specs.Links.{IsDue, IsExchange, exchanges_made, failing_exchange, faults_answered, link_behind};

use crate::link::{Link, LinkFault};
use st_devices::Counted;
use st_ilp::Moment;
use std::alloc::Allocator;

/// A link for tests around another link. The exchange of one number, counted from 1, fails with `LinkFault::Device`,
/// and the failure is counted. Each other exchange is made over the inner link.
#[derive(Drop)]
pub struct FailLink<L> {
    link: L,
    calls: u64,
    faults: u64,
    fails_at: u64,
}

impl<L> FailLink<L> {
    /// Wraps a link so that its exchange number `k`, counted from 1, fails. With `k` 0 no exchange is made to fail.
    pub fn new(link: L, k: u64) -> Self
        ensures link { link_behind result ≡ link }
        ensures calls { exchanges_made result ≡ 0 }
        ensures faults { faults_answered result ≡ 0 }
        ensures number { failing_exchange result ≡ k }
    {
        FailLink {
            link,
            calls: 0,
            faults: 0,
            fails_at: k,
        }
    }

    /// Returns the inner link.
    pub fn into_inner(self) -> L
        ensures { result ≡ link_behind self }
    {
        self.link
    }

    /// Whether the next exchange fails.
    fn is_due(&self) -> bool
        ensures { IsTrue result ↔ IsDue self.now }
    {
        0 < self.fails_at && self.calls == self.fails_at - 1
    }
}

impl<L> Counted for FailLink<L> {
    ghost fault_count = { λ s. faults_answered s };

    fn faults(&self) -> u64 {
        self.faults
    }
}

impl<A: Allocator + Copy, L: Link<A>> Link<A> for FailLink<L> {
    ghost exchanges = { λ old bytes answer new. IsExchange L.exchanges old bytes answer new };

    fn exchange(&mut self, bytes: &[u8], by: Moment) -> Result<Vec<u8, A>, LinkFault> {
        let result = if self.is_due() {
            Err(LinkFault::Device)
        } else {
            self.link.exchange(bytes, by)
        };
        self.calls = self.calls.saturating_add(1);
        if matches!(&result, Err(LinkFault::Device)) {
            self.faults = self.faults.saturating_add(1);
        }
        result
    }
}
