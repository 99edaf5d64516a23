//! What a trace shows.

ghost use Rattle.std.specs.Prelude.{◌≡◌, MatchOption, Some, None, length, slice_get};
ghost use Rattle.std.specs.FinMap as fmap;
ghost use Rattle.st_world_parts.specs.Sides.{at};
ghost use Rattle.st_world_parts.specs.Seen.{side_seen};

use crate::trace::Trace;
use st_world_parts::{Node, Party, Side, StreamLog};
use std::alloc::Allocator;

impl<A: Allocator + Copy> Trace<A> {
    /// Whether some call of an end or a hop ran out of memory. Does not allocate.
    pub fn refused(&self) -> bool
        ensures { result ≡ self.now.refused }
    {
        self.refused
    }

    /// The number of hops. Does not allocate.
    pub fn hops(&self) -> usize
        ensures { result ≡ length self.now.nodes }
    {
        self.nodes.len()
    }

    /// An end, with the Prepares that it answered. Does not allocate.
    pub fn end(&self, side: Side) -> &Party<A>
        ensures { result.now ≡ at self.now.ends (side_seen side) }
    {
        match side {
            Side::Client => &self.client,
            Side::Server => &self.server,
        }
    }

    /// A hop, with the Prepares that it answered. `place` 0 is the hop next to the client. `None` if there is no such
    /// hop. Does not allocate.
    pub fn hop(&self, place: usize) -> Option<&Node<A>>
        ensures { MatchOption result (slice_get self.now.nodes place ≡ None) (λ n. slice_get self.now.nodes place ≡ Some n.now) }
    {
        self.nodes.get(place)
    }

    /// What was written and read of a stream that the end `side` writes, and how its reader learned of its end. `None`
    /// if nothing was accepted or read of it. Does not allocate.
    pub fn ledger(&self, side: Side, stream: u8) -> Option<&StreamLog<A>>
        ensures { MatchOption result (fmap.get (at self.now.ledgers (side_seen side)) stream ≡ None)
            (λ x. fmap.get (at self.now.ledgers (side_seen side)) stream ≡ Some x.now) }
    {
        match side {
            Side::Client => self.from_client.get(stream),
            Side::Server => self.from_server.get(stream),
        }
    }
}
