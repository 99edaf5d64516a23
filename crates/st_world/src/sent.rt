//! The Prepares and answers that were sent over the links of a world.

ghost use Rattle.std.specs.Prelude.{◌≡◌, MatchOption, Some, None};
ghost use Rattle.st_world_parts.specs.State.{direction_at, nth};
ghost use Rattle.st_world_parts.specs.Seen.{way_seen};

use crate::world::World;
use st_world_parts::{SentAnswer, SentPrepare, Way};
use std::alloc::Allocator;

impl<A: Allocator + Copy> World<A> {
    /// All Prepares that were ever sent over a link in this direction, in order. None if there is no such link. Does
    /// not allocate.
    pub fn prepares(&self, link: usize, way: Way) -> &[SentPrepare<A>]
        ensures { result.now ≡ (direction_at self.now link (way_seen way)).prepares }
    {
        match self.links.get(link) {
            Some(over) => over.lane(way).prepares(),
            None => &[],
        }
    }

    /// All answers that were ever sent back to the Prepares of a link and this direction, in order. None if there is no
    /// such link. Does not allocate.
    pub fn answers(&self, link: usize, way: Way) -> &[SentAnswer<A>]
        ensures { result.now ≡ (direction_at self.now link (way_seen way)).given }
    {
        match self.links.get(link) {
            Some(over) => over.lane(way).answers(),
            None => &[],
        }
    }

    /// The Prepare number `which`, from 1, of a link and a direction: the one of `Event::Arrive` and `Event::Fault`.
    /// `None` if there is none. Does not allocate.
    pub fn prepare(&self, link: usize, way: Way, which: usize) -> Option<&SentPrepare<A>>
        ensures { MatchOption result (nth (direction_at self.now link (way_seen way)).prepares which ≡ None)
            (λ p. nth (direction_at self.now link (way_seen way)).prepares which ≡ Some p.now) }
    {
        match self.links.get(link) {
            Some(over) => over.lane(way).prepare(which),
            None => None,
        }
    }

    /// The answer number `which`, from 1, of a link and a direction: the one of `Event::AnswerArrives`. `None` if there
    /// is none. Does not allocate.
    pub fn answer(&self, link: usize, way: Way, which: usize) -> Option<&SentAnswer<A>>
        ensures { MatchOption result (nth (direction_at self.now link (way_seen way)).given which ≡ None)
            (λ g. nth (direction_at self.now link (way_seen way)).given which ≡ Some g.now) }
    {
        match self.links.get(link) {
            Some(over) => over.lane(way).answer(which),
            None => None,
        }
    }
}
