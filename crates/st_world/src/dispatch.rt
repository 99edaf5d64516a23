//! What arrives over a link: at which end or hop.

ghost use Rattle.std.specs.Prelude.{◌≡◌, ◌+◌, ◌<◌, length, OnErr, IfOk};
ghost use Rattle.st_links.specs.Outcomes.{outcome_seen};
ghost use Rattle.st_world_parts.specs.Sides as sides;
ghost use Rattle.st_world_parts.specs.State.{nth, far, near};
ghost use Rattle.st_world_parts.specs.Events as events;
ghost use Rattle.st_world_parts.specs.Parts.{lane_in};
ghost use Rattle.st_world_parts.specs.Seen.{way_seen, told_seen};
ghost use Rattle.st_world.specs.Left.{in_world, ComesOver, GoesBackOver, MeetsOver, ReturnsOver};

use crate::trace::Trace;
use st_ilp::Moment;
use st_links::Outcome;
use st_world_parts::{Link, SentPrepare, Side, Told, Way, copy_given, copy_put};
use std::alloc::{AllocError, Allocator};

impl<A: Allocator + Copy> Trace<A> {
    /// A Prepare for the server comes to the far end of its link.
    fn arrive_for_server(
        &mut self,
        links: &mut [Link<A>],
        link: usize,
        which: usize,
        put: &SentPrepare<A>,
        now: Moment,
    ) -> Result<Told<A>, AllocError>
        requires within { link < length links.old }
        requires links { length links.old ≡ length self.old.nodes + 1 }
        ensures met { IfOk result (λ told. ComesOver self.old links.old link sides.Client which now put.now
            (far (in_world self.old links.old) link sides.Client) (told_seen told) self.new links.new) }
        ensures same_self { OnErr result (self.new ≡ self.old) }
        ensures same_links { OnErr result (links.new ≡ links.old) }
        ensures nodes { length self.new.nodes ≡ length self.old.nodes }
    {
        if link == self.hops() {
            return self.arrive_server(links, link, which, put, now);
        }
        self.arrive_up(links, link, which, put, now)
    }

    /// A Prepare for the client comes to the far end of its link.
    fn arrive_for_client(
        &mut self,
        links: &mut [Link<A>],
        link: usize,
        which: usize,
        put: &SentPrepare<A>,
        now: Moment,
    ) -> Result<Told<A>, AllocError>
        requires within { link < length links.old }
        requires links { length links.old ≡ length self.old.nodes + 1 }
        ensures met { IfOk result (λ told. ComesOver self.old links.old link sides.Server which now put.now
            (far (in_world self.old links.old) link sides.Server) (told_seen told) self.new links.new) }
        ensures same_self { OnErr result (self.new ≡ self.old) }
        ensures same_links { OnErr result (links.new ≡ links.old) }
        ensures nodes { length self.new.nodes ≡ length self.old.nodes }
    {
        let Some(hop) = link.checked_sub(1) else {
            return self.arrive_client(links, link, which, put, now);
        };
        self.arrive_down(links, hop, which, put, now)
    }

    /// A Prepare arrives at the far end of its link.
    pub(crate) fn arrive(
        &mut self,
        links: &mut [Link<A>],
        link: usize,
        way: Way,
        which: usize,
        now: Moment,
    ) -> Result<Told<A>, AllocError>
        requires { length links.old ≡ length self.old.nodes + 1 }
        ensures met { IfOk result (λ told. MeetsOver self.old links.old (events.Arrive link (way_seen way) which now) (told_seen told) self.new links.new) }
        ensures same_self { OnErr result (self.new ≡ self.old) }
        ensures same_links { OnErr result (links.new ≡ links.old) }
        ensures nodes { length self.new.nodes ≡ length self.old.nodes }
    {
        let Some(put) = copy_put(self.alloc, links, link, way, which)? else {
            return Ok(Told::Nothing);
        };
        match way {
            Way::ToServer => self.arrive_for_server(links, link, which, &put, now),
            Way::ToClient => self.arrive_for_client(links, link, which, &put, now),
        }
    }

    /// An outcome of a Prepare for the server arrives at whoever put it.
    fn back_for_server(
        &mut self,
        links: &mut [Link<A>],
        link: usize,
        which: usize,
        put: &SentPrepare<A>,
        outcome: Outcome<A>,
        now: Moment,
    ) -> Result<Told<A>, AllocError>
        requires within { link < length links.old }
        requires links { length links.old ≡ length self.old.nodes + 1 }
        ensures met { IfOk result (λ told. ReturnsOver self.old links.old link sides.Client which now put.now (outcome_seen outcome)
            (near (in_world self.old links.old) link sides.Client) (told_seen told) self.new links.new) }
        ensures same_self { OnErr result (self.new ≡ self.old) }
        ensures same_links { OnErr result (links.new ≡ links.old) }
        ensures nodes { length self.new.nodes ≡ length self.old.nodes }
    {
        let Some(hop) = link.checked_sub(1) else {
            let (way, side) = (Way::ToServer, Side::Client);
            let told = self.back_end(links, link, way, side, which, put, outcome, now);
            return Ok(told);
        };
        self.back_up(links, hop, which, put, outcome, now)
    }

    /// An outcome of a Prepare for the client arrives at whoever put it.
    fn back_for_client(
        &mut self,
        links: &mut [Link<A>],
        link: usize,
        which: usize,
        put: &SentPrepare<A>,
        outcome: Outcome<A>,
        now: Moment,
    ) -> Result<Told<A>, AllocError>
        requires within { link < length links.old }
        requires links { length links.old ≡ length self.old.nodes + 1 }
        ensures met { IfOk result (λ told. ReturnsOver self.old links.old link sides.Server which now put.now (outcome_seen outcome)
            (near (in_world self.old links.old) link sides.Server) (told_seen told) self.new links.new) }
        ensures same_self { OnErr result (self.new ≡ self.old) }
        ensures same_links { OnErr result (links.new ≡ links.old) }
        ensures nodes { length self.new.nodes ≡ length self.old.nodes }
    {
        if link == self.hops() {
            let (way, side) = (Way::ToClient, Side::Server);
            let told = self.back_end(links, link, way, side, which, put, outcome, now);
            return Ok(told);
        }
        self.back_down(links, link, which, put, outcome, now)
    }

    /// An outcome arrives at whoever put this Prepare.
    fn back(
        &mut self,
        links: &mut [Link<A>],
        link: usize,
        way: Way,
        which: usize,
        put: usize,
        outcome: Outcome<A>,
        now: Moment,
    ) -> Result<Told<A>, AllocError>
        requires { length links.old ≡ length self.old.nodes + 1 }
        ensures met { IfOk result (λ told. GoesBackOver self.old links.old link (way_seen way) which now (outcome_seen outcome)
            (nth (lane_in links.old link (way_seen way)).prepares put) (told_seen told) self.new links.new) }
        ensures same_self { OnErr result (self.new ≡ self.old) }
        ensures same_links { OnErr result (links.new ≡ links.old) }
        ensures nodes { length self.new.nodes ≡ length self.old.nodes }
    {
        let Some(put) = copy_put(self.alloc, links, link, way, put)? else {
            return Ok(Told::Nothing);
        };
        match way {
            Way::ToServer => self.back_for_server(links, link, which, &put, outcome, now),
            Way::ToClient => self.back_for_client(links, link, which, &put, outcome, now),
        }
    }

    /// An answer arrives at whoever put its Prepare.
    pub(crate) fn answer(
        &mut self,
        links: &mut [Link<A>],
        link: usize,
        way: Way,
        which: usize,
        now: Moment,
    ) -> Result<Told<A>, AllocError>
        requires { length links.old ≡ length self.old.nodes + 1 }
        ensures met { IfOk result (λ told. MeetsOver self.old links.old (events.AnswerArrives link (way_seen way) which now)
            (told_seen told) self.new links.new) }
        ensures same_self { OnErr result (self.new ≡ self.old) }
        ensures same_links { OnErr result (links.new ≡ links.old) }
        ensures nodes { length self.new.nodes ≡ length self.old.nodes }
    {
        let Some(answer) = copy_given(self.alloc, links, link, way, which)? else {
            return Ok(Told::Nothing);
        };
        let put = answer.which();
        let outcome = Outcome::Answered(answer.into_bytes());
        self.back(links, link, way, which, put, outcome, now)
    }

    /// Whoever put a Prepare learns that no answer will arrive.
    pub(crate) fn fault(
        &mut self,
        links: &mut [Link<A>],
        link: usize,
        way: Way,
        which: usize,
        now: Moment,
    ) -> Result<Told<A>, AllocError>
        requires { length links.old ≡ length self.old.nodes + 1 }
        ensures met { IfOk result (λ told. MeetsOver self.old links.old (events.Fault link (way_seen way) which now) (told_seen told) self.new links.new) }
        ensures same_self { OnErr result (self.new ≡ self.old) }
        ensures same_links { OnErr result (links.new ≡ links.old) }
        ensures nodes { length self.new.nodes ≡ length self.old.nodes }
    {
        self.back(links, link, way, 0, which, Outcome::Fault, now)
    }
}
