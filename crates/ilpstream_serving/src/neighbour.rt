//! The links to neighbours.

ghost use Rattle.std.specs.Prelude.{◌≡◌, IsNone, IfOk, MatchOption, Some, slice_get};

use crate::cause::{LinkCause, Unreached};
use crate::http_link::HttpLink;
use st_http::Neighbour;
use st_ilp::Moment;
use st_links::{Link, Outcome};
use std::alloc::{AllocError, Global};
use std::net::{Net, SocketAddr};
use std::sync::{Mutex, Wait};
use std::time::Clock;

/// A link to a neighbour, with at most `turns` I/O calls of its TCP stream for each exchange.
pub fn link_to<'n, N: Net + Clock>(
    alloc: Global,
    net: &'n N,
    neighbour: Neighbour<'_>,
    turns: u64,
) -> Result<HttpLink<'n, N, Global>, AllocError>
    ensures neighbour { IfOk result (λ l. l.neighbour ≡ Some (record { host = neighbour.entry.host.now; token = neighbour.entry.token.now })) }
    ensures turns { IfOk result (λ l. l.turns ≡ turns) }
{
    HttpLink::new(alloc, alloc, net, neighbour.host, neighbour.token, turns)
}

/// What the links of a connector share: the host at which each account is reached, and the address to which its name was
/// resolved last.
#[derive(Drop)]
pub struct Neighbourhood<'a> {
    neighbours: &'a [Option<Neighbour<'a>>],
    addresses: Mutex<Vec<Option<SocketAddr>>>,
    turns: u64,
}

impl<'a> Neighbourhood<'a> {
    /// The neighbours of a connector, by account, with at most `turns` I/O calls of a TCP stream for each exchange.
    pub fn new(
        alloc: Global,
        neighbours: &'a [Option<Neighbour<'a>>],
        turns: u64,
    ) -> Result<Neighbourhood<'a>, AllocError> {
        let mut addresses = Vec::new(alloc);
        for _ in neighbours {
            addresses.push(None)?;
        }
        Ok(Neighbourhood {
            neighbours,
            addresses: Mutex::new(addresses),
            turns,
        })
    }

    /// The neighbour of an account: the one at its place, if there is one.
    fn way(&self, account: usize) -> Option<Neighbour<'a>>
        ensures { MatchOption (slice_get self.now.neighbours.now account) (IsNone result) (λ n. result ≡ n) }
    {
        self.neighbours.get(account).copied().flatten()
    }

    /// The address at which an account was reached last.
    fn address(&self, rt: &impl Wait, account: usize) -> Option<SocketAddr> {
        let addresses = self.addresses.lock(rt);
        addresses.get(account).copied().flatten()
    }

    /// Notes the address at which an account was reached, or that it was not.
    fn set_address(&self, rt: &impl Wait, account: usize, address: Option<SocketAddr>) {
        let mut addresses = self.addresses.lock(rt);
        if let Some(place) = addresses.get_mut(account) {
            *place = address;
        }
    }

    /// One exchange with the neighbour of an account, over a link of its own, and why it brought no answer.
    pub fn exchange<R: Net + Wait + Clock>(
        &self,
        rt: &R,
        alloc: Global,
        account: usize,
        bytes: &[u8],
        by: Moment,
    ) -> (Outcome<Global>, Option<LinkCause>) {
        let Some(neighbour) = self.way(account) else {
            return (Outcome::Fault, Some(LinkCause::Unreached(Unreached::Other)));
        };
        let Ok(mut link) = link_to(alloc, rt, neighbour, self.turns) else {
            return (Outcome::Fault, Some(LinkCause::NoMemory));
        };
        link.set_address(self.address(rt, account));
        let answer = link.exchange(bytes, by);
        self.set_address(rt, account, link.address());
        match answer {
            Ok(answer) => (Outcome::Answered(answer), None),
            Err(_) => (Outcome::Fault, link.cause()),
        }
    }
}
