//! The Prepares and answers that were sent over the links.

ghost use Rattle.std.specs.Prelude.{◌≡◌, false, [], IfOk, MatchOption, Some, None};
ghost use Rattle.st_world_parts.specs.State.{nth, empty_direction, empty_link};
ghost use Rattle.st_world_parts.specs.Sides.{at};
ghost use Rattle.st_world_parts.specs.Ends.{prepare_of_flight, flight_of};
ghost use Rattle.st_world_parts.specs.Hops.{prepare_of_ticket};
ghost use Rattle.st_world_parts.specs.Seen.{way_seen};
ghost use Rattle.st_world_parts.specs.Parts.{lane_in, taken_in};

use crate::side::Way;
use st_end::Open as SentFrame;
use st_hop::Open;
use std::alloc::{AllocError, Allocator};
use std::marker::Model;

/// A Prepare that was sent over a link, with what its sender needs for the answer.
#[derive(Drop)]
pub struct SentPrepare<A: Allocator + Copy> {
    pub(crate) bytes: Vec<u8, A>,
    /// The sequence of its flight at the end that put it, or the number of its ticket at the hop.
    pub(crate) name: u64,
    pub(crate) condition: [u8; 32],
    /// For which Prepare of the link before it a hop put it, from 1.
    pub(crate) cause: usize,
}

impl<A: Allocator + Copy> Model for SentPrepare<A> {
    ghost use Rattle.st_world_parts.specs.State as world;
    ghost use Rattle.std.specs.Coded.{codes};

    ghost Value = { world.SentPrepare };

    ghost coded = { Prim.hlevel (codes) };

    ghost view = { λ a. record { bytes = a.bytes.items; name = a.name; condition = a.condition; cause = a.cause } };
}

impl<A: Allocator + Copy> SentPrepare<A> {
    /// The Prepare of a flight.
    pub(crate) fn of_flight(flight: &SentFrame, bytes: Vec<u8, A>) -> SentPrepare<A>
        ensures { result ≡ prepare_of_flight flight.now bytes.items }
    {
        let condition = flight.condition;
        SentPrepare {
            bytes,
            name: flight.sequence,
            condition,
            cause: 0,
        }
    }

    /// The Prepare of a ticket, which a hop put for this one of the link before it.
    pub(crate) fn of_ticket(ticket: &Open, bytes: Vec<u8, A>, cause: usize) -> SentPrepare<A>
        ensures { result ≡ prepare_of_ticket ticket.now bytes.items cause }
    {
        let condition = ticket.condition;
        SentPrepare {
            bytes,
            name: ticket.number,
            condition,
            cause,
        }
    }

    /// Its flight at the end that put it.
    pub(crate) fn flight(&self) -> SentFrame
        ensures { result ≡ flight_of self.now }
    {
        let condition = self.condition;
        SentFrame {
            sequence: self.name,
            condition,
        }
    }

    /// The bytes of the Prepare.
    pub fn bytes(&self) -> &[u8]
        ensures { result.now ≡ self.now.bytes }
    {
        self.bytes.as_slice()
    }
}

/// An answer, a Fulfill or a Reject, that was sent back over a link.
#[derive(Drop)]
pub struct SentAnswer<A: Allocator + Copy> {
    /// The Prepare that it answers, from 1.
    pub(crate) which: usize,
    pub(crate) bytes: Vec<u8, A>,
    /// Whether the one who put the Prepare booked it as fulfilled with this.
    pub(crate) taken: bool,
}

impl<A: Allocator + Copy> Model for SentAnswer<A> {
    ghost use Rattle.st_world_parts.specs.State as world;
    ghost use Rattle.std.specs.Coded.{codes};

    ghost Value = { world.SentAnswer };

    ghost coded = { Prim.hlevel (codes) };

    ghost view = { λ a. record { which = a.which; bytes = a.bytes.items; taken = a.taken } };
}

impl<A: Allocator + Copy> SentAnswer<A> {
    pub(crate) fn new(which: usize, bytes: Vec<u8, A>) -> SentAnswer<A>
        ensures { result ≡ record { which = which; bytes = bytes.items; taken = false } }
    {
        SentAnswer {
            which,
            bytes,
            taken: false,
        }
    }

    /// The number of the Prepare that it answers, from 1.
    pub fn which(&self) -> usize
        ensures { result ≡ self.now.which }
    {
        self.which
    }

    /// The bytes of the answer.
    pub fn bytes(&self) -> &[u8]
        ensures { result.now ≡ self.now.bytes }
    {
        self.bytes.as_slice()
    }

    /// Whether the one who sent the Prepare booked it as fulfilled by this answer.
    pub fn is_taken(&self) -> bool
        ensures { result ≡ self.now.taken }
    {
        self.taken
    }

    /// Gives the bytes of the answer away.
    pub fn into_bytes(self) -> Vec<u8, A>
        ensures { result.items ≡ self.bytes }
    {
        self.bytes
    }
}

/// One direction of a link: the Prepares that were sent in it and the answers that were sent back to them, each in
/// order.
pub struct Direction<A: Allocator + Copy> {
    pub(crate) prepares: Vec<SentPrepare<A>, A>,
    pub(crate) given: Vec<SentAnswer<A>, A>,
}

// It is written out, so that a caller does not prove again how each part is dropped.
impl<A: Allocator + Copy> Drop for Direction<A> {
    fn drop(self) {
        let Direction {
            prepares: _,
            given: _,
        } = self;
    }
}

impl<A: Allocator + Copy> Model for Direction<A> {
    ghost use Rattle.st_world_parts.specs.State as world;
    ghost use Rattle.std.specs.Coded.{codes};

    ghost Value = { world.Direction };

    ghost coded = { Prim.hlevel (codes) };

    ghost view = { λ a. record { prepares = a.prepares.items; given = a.given.items } };
}

impl<A: Allocator + Copy> Direction<A> {
    /// Nothing was put there.
    pub(crate) fn new(alloc: A) -> Direction<A>
        ensures { result ≡ empty_direction }
    {
        Direction {
            prepares: Vec::new(alloc),
            given: Vec::new(alloc),
        }
    }

    /// The Prepares that were sent in it, in order.
    pub fn prepares(&self) -> &[SentPrepare<A>]
        ensures { result.now ≡ self.now.prepares }
    {
        self.prepares.as_slice()
    }

    /// The answers that were sent back to them, in order.
    pub fn answers(&self) -> &[SentAnswer<A>]
        ensures { result.now ≡ self.now.given }
    {
        self.given.as_slice()
    }

    /// The Prepare of this number, from 1. `None` if there is none.
    pub fn prepare(&self, which: usize) -> Option<&SentPrepare<A>>
        ensures { MatchOption result (nth self.now.prepares which ≡ None) (λ p. nth self.now.prepares which ≡ Some p.now) }
    {
        let place = which.checked_sub(1)?;
        self.prepares.get(place)
    }

    /// The answer of this number, from 1. `None` if there is none.
    pub fn answer(&self, which: usize) -> Option<&SentAnswer<A>>
        ensures { MatchOption result (nth self.now.given which ≡ None) (λ g. nth self.now.given which ≡ Some g.now) }
    {
        let place = which.checked_sub(1)?;
        self.given.get(place)
    }
}

/// A link, in both directions.
pub struct Link<A: Allocator + Copy> {
    /// The Prepares towards the server, and their answers.
    pub client: Direction<A>,
    /// The Prepares towards the client, and their answers.
    pub server: Direction<A>,
}

// It is written out, so that a caller does not prove again how each part is dropped.
impl<A: Allocator + Copy> Drop for Link<A> {
    fn drop(self) {
        let Link {
            client: _,
            server: _,
        } = self;
    }
}

impl<A: Allocator + Copy> Model for Link<A> {
    ghost use Rattle.st_world_parts.specs.State.{Direction};
    ghost use Rattle.st_world_parts.specs.Sides.{Both};
    ghost use Rattle.std.specs.Coded.{codes};

    ghost Value = { Both Direction };

    ghost coded = { Prim.hlevel (codes) };

    ghost view = { λ a. record { client = a.client; server = a.server } };
}

impl<A: Allocator + Copy> Link<A> {
    /// A link over which nothing was sent.
    pub fn new(alloc: A) -> Link<A>
        ensures { result ≡ empty_link }
    {
        Link {
            client: Direction::new(alloc),
            server: Direction::new(alloc),
        }
    }

    /// One direction of the link.
    pub fn lane(&self, way: Way) -> &Direction<A>
        ensures { result.now ≡ at self.now (way_seen way) }
    {
        match way {
            Way::ToServer => &self.client,
            Way::ToClient => &self.server,
        }
    }
}

/// A copy of the Prepare number `which`, from 1, of a link and a direction. `None` if there is none. Fails if memory
/// is refused.
pub fn copy_put<A: Allocator + Copy>(
    alloc: A,
    links: &[Link<A>],
    link: usize,
    way: Way,
    which: usize,
) -> Result<Option<SentPrepare<A>>, AllocError>
    ensures { IfOk result (λ o. o ≡ nth (lane_in links.now link (way_seen way)).prepares which) }
{
    let Some(link) = links.get(link) else {
        return Ok(None);
    };
    let Some(put) = link.lane(way).prepare(which) else {
        return Ok(None);
    };
    Ok(Some(SentPrepare {
        bytes: Vec::from_slice(alloc, put.bytes.as_slice())?,
        name: put.name,
        condition: put.condition,
        cause: put.cause,
    }))
}

/// A copy of the answer number `which`, from 1, of a link and a direction. `None` if there is none. Fails if memory
/// is refused.
pub fn copy_given<A: Allocator + Copy>(
    alloc: A,
    links: &[Link<A>],
    link: usize,
    way: Way,
    which: usize,
) -> Result<Option<SentAnswer<A>>, AllocError>
    ensures { IfOk result (λ o. o ≡ nth (lane_in links.now link (way_seen way)).given which) }
{
    let Some(link) = links.get(link) else {
        return Ok(None);
    };
    let Some(answer) = link.lane(way).answer(which) else {
        return Ok(None);
    };
    Ok(Some(SentAnswer {
        which: answer.which,
        bytes: Vec::from_slice(alloc, answer.bytes.as_slice())?,
        taken: answer.taken,
    }))
}

/// Notes that the j-th answer, from 1, was booked as a Fulfill, if it was.
pub(crate) fn mark_taken<A: Allocator + Copy>(
    given: &mut Vec<SentAnswer<A>, A>,
    which: usize,
    booked: bool,
)
    ensures { given.new.items ≡ taken_in booked given.old.items which }
{
    if !booked {
        return;
    }
    let Some(place) = which.checked_sub(1) else {
        return;
    };
    if place < given.len() {
        let answer = &mut given[place];
        answer.taken = true;
    }
}
