//! A world: the result of a run so far, and the links over which it continues.

ghost use Rattle.std.specs.Prelude.{◌≡◌, ◌<◌, ℕ, true, length, take, is_ok, OnErr, IfOk, IfErr, IsOkUnless};
ghost use Rattle.st_end.specs.Calls.{has_stream};
ghost use Rattle.st_end.specs.Reading.{read};
ghost use Rattle.st_world.specs.Steps.{Happens};
ghost use Rattle.st_world.specs.Holds.{Holds};
ghost use Rattle.st_world_parts.specs.Sides.{at};
ghost use Rattle.st_world_parts.specs.State.{end_at};
ghost use Rattle.st_world_parts.specs.Seen.{side_seen, told_seen};
ghost use Rattle.st_world.specs.Seen.{event_seen, events_seen};
ghost use Rattle.st_world.specs.Left.{left_of, lacks, LeftBy, MayLack};

use crate::event::Event;
use crate::fault::Fault;
use crate::laws::every_run_holds;
use crate::trace::Trace;
use st_world_parts::{Link, Side, Told};
use std::alloc::Allocator;
use std::marker::Model;

/// Two ends, the hops between them, and everything that was ever sent over the links. It is reached from the start of a
/// chain by events.
pub struct World<A: Allocator + Copy> {
    pub(crate) trace: Trace<A>,
    pub(crate) links: Vec<Link<A>, A>,
}

// It is written out, so that a caller does not prove again how each part is dropped.
impl<A: Allocator + Copy> Drop for World<A> {
    fn drop(self) {
        let World { trace: _, links: _ } = self;
    }
}

impl<A: Allocator + Copy> Model for World<A> {
    ghost use Rattle.std.specs.Prelude.{◌≡◌, ◌+◌, length};
    ghost use Rattle.std.specs.Coded.{codes};
    ghost use Rattle.std.specs.FinMap as map;
    ghost use Rattle.st_world_parts.specs.State as state;
    ghost use Rattle.st_world.specs.Left.{in_world, IsReached};

    ghost Value = { state.World };

    ghost coded = { Prim.hlevel (codes, map.code) };

    ghost view = { λ a. in_world a.trace a.links.items };

    ghost invariant = { λ a. (length a.links.items ≡ length a.trace.nodes + 1) × IsReached (in_world a.trace a.links.items) };
}

impl<A: Allocator + Copy> World<A> {
    /// The result of the run so far. Does not allocate.
    pub fn trace(&self) -> &Trace<A>
        ensures trace { result.now ≡ left_of self.now }
        ensures holds { Holds self.now }
    {
        every_run_holds();
        &self.trace
    }

    /// Whether the connection failed at an end. That end sends nothing any more then. Does not allocate.
    pub fn is_failed(&self, side: Side) -> bool
        ensures { result ≡ (at self.now.ends (side_seen side)).state.sending.failed }
    {
        self.trace.end(side).is_failed()
    }

    /// Whether a stream is open at an end. If it is not, an event by which it is written, read or closed there is
    /// refused, and changes nothing. Does not allocate.
    pub fn has_stream(&self, side: Side, stream: u8) -> bool
        ensures has { result ≡ has_stream (end_at self.now (side_seen side)) stream }
        ensures reads { (limit : ℕ) → is_ok (read (end_at self.now (side_seen side)) stream limit).0 ≡ result }
    {
        self.trace.end(side).has_stream(stream)
    }

    /// Plays one event, and gives the result of its call. It is `Told::NoMemory` if the call of the end or the hop ran
    /// out of memory. The end or hop is then as before, except that the limits of an end may have risen. A close, an
    /// abort, an offer and a receive max do not allocate. Fails with `NoMemory` if memory for the world's own record of
    /// the event is refused, and then nothing has happened.
    pub fn step(&mut self, event: &Event<'_>) -> Result<Told<A>, Fault>
        ensures happens { IfOk result (λ told. Happens self.old (event_seen event.now) (told_seen told) self.new) }
        ensures only_memory { IsOkUnless result Fault.NoMemory }
        ensures unchanged { OnErr result (self.new ≡ self.old) }
        ensures memory { IfOk result (λ told. lacks (told_seen told) ≡ true → MayLack (event_seen event.now)) }
    {
        let told = self.trace.take_event(&mut self.links, event)?;
        Ok(told)
    }

    /// Plays a list of events, and gives the result of the run. If an event could not be recorded, it gives the error
    /// and the result of the events before it. What holds of every run (`every_run_holds` of st_world) holds of the
    /// world that is left.
    pub fn play(mut self, events: &[Event<'_>]) -> Result<Trace<A>, (Fault, Trace<A>)>
        ensures run { IfOk result (λ t. LeftBy self (events_seen events.now) t) }
        ensures part { IfErr result (λ e. (n : ℕ) × (n < length events.now) × LeftBy self (events_seen (take n events.now)) e.1) }
        ensures only_memory { IfErr result (λ e. e.0 ≡ Fault.NoMemory) }
    {
        for event in events {
            if let Err(fault) = self.step(event) {
                return Err((fault, self.into_trace()));
            }
        }
        Ok(self.into_trace())
    }

    /// The result of the run, without the links. Does not allocate.
    // Within a caller LLVM takes minutes to follow its moves, each of nearly 20,000 bytes.
    #[inline(never)]
    pub fn into_trace(self) -> Trace<A>
        ensures trace { result ≡ left_of self }
        ensures holds { Holds self }
    {
        every_run_holds();
        let World { trace, links: _ } = self;
        trace
    }
}
