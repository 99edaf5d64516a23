//! One event.

ghost use Rattle.std.specs.Prelude.{◌≡◌, ◌+◌, true, length, OnErr, IfOk};
ghost use Rattle.st_world.specs.Steps.{Happens};
ghost use Rattle.st_world_parts.specs.Seen.{told_seen};
ghost use Rattle.st_world.specs.Seen.{event_seen};
ghost use Rattle.st_world.specs.Left.{in_world, lacks, MayLack};

use crate::event::Event;
use crate::trace::Trace;
use st_world_parts::{Link, Told};
use std::alloc::{AllocError, Allocator};

impl<A: Allocator + Copy> Trace<A> {
    /// One event, over these links.
    pub(crate) fn take_event(
        &mut self,
        links: &mut [Link<A>],
        event: &Event<'_>,
    ) -> Result<Told<A>, AllocError>
        requires { length links.old ≡ length self.old.nodes + 1 }
        ensures happens { IfOk result (λ told. Happens (in_world self.old links.old) (event_seen event.now) (told_seen told) (in_world self.new links.new)) }
        ensures same_self { OnErr result (self.new ≡ self.old) }
        ensures same_links { OnErr result (links.new ≡ links.old) }
        ensures nodes { length self.new.nodes ≡ length self.old.nodes }
        ensures memory { IfOk result (λ told. lacks (told_seen told) ≡ true → MayLack (event_seen event.now)) }
    {
        match event {
            Event::OpenStream(side) => Ok(self.open(*side)),
            Event::Write(side, stream, bytes) => { self.write(*side, *stream, bytes) }
            Event::Read(side, stream, max) => {
                if *max == 0 {
                    return Ok(Told::Nothing);
                }
                self.read(*side, *stream, *max)
            }
            Event::Close(side, stream) => Ok(self.close(*side, *stream)),
            Event::Abort(side, stream, code) => {
                if *code == 1 {
                    return Ok(Told::Nothing);
                }
                Ok(self.abort(*side, *stream, *code))
            }
            Event::Offer(side, stream, amount) => Ok(self.offer(*side, *stream, *amount)),
            Event::ReceiveMax(side, stream, amount) => Ok(self.raise(*side, *stream, *amount)),
            Event::Send(side, iv, now) => {
                let _range = now.ms();
                self.send(links, *side, *iv, *now)
            }
            Event::Arrive(link, way, which, now) => {
                let _range = now.ms();
                self.arrive(links, *link, *way, *which, *now)
            }
            Event::AnswerArrives(link, way, which, now) => {
                let _range = now.ms();
                self.answer(links, *link, *way, *which, *now)
            }
            Event::Fault(link, way, which, now) => {
                let _range = now.ms();
                self.fault(links, *link, *way, *which, *now)
            }
            Event::Crash(hop) => Ok(self.crash(*hop)),
            Event::Refused => Ok(Told::Nothing),
        }
    }
}
