//! A ring as the hub stores it: the hub's side, and the application's side until it is handed out.
ghost use Rattle.std.specs.Prelude.{◌≡◌, ◌↔◌, [], false, None, IfSome, IsSome};

use crate::ends::{ReadEnd, WriteEnd};
use crate::items::{Delivery, Item};
use crate::name::HubName;
use crate::reader::StreamReader;
use crate::writer::StreamWriter;
use rtrb::{Consumer, Producer};
use std::alloc::Allocator;

/// A ring from a writer to the hub, as the hub stores it.
#[derive(Drop)]
pub struct WriteRing<A: Allocator + Copy> {
    /// The hub's side.
    pub end: WriteEnd<A>,
    /// The writer's side, until it is handed out.
    pub held: Option<Producer<Item<A>, A>>,
    /// Whether the hub has read the writer's end from the ring.
    pub over: bool,
}

impl<A: Allocator + Copy> WriteRing<A> {
    ghost use Rattle.st_queues.specs.Lanes.{IsOurs};

    /// Hands out the writer. `None` if it was handed out before. Does not allocate.
    pub fn hand_out<N: HubName<A>>(&mut self, alloc: A) -> Option<StreamWriter<N, A>>
        requires { IsOurs N.write_ring self.old }
        ensures found { IsSome result ↔ IsSome self.old.held }
        ensures fresh { IfSome result (λ w. (w.ring ≡ self.old.end.ring) × (w.items ≡ []) × (w.free ≡ 64) × (w.ended ≡ false)) }
        ensures left { (self.new.held ≡ None) × (self.new.end ≡ self.old.end) × (self.new.over ≡ self.old.over) }
    {
        match self.held.take() {
            Some(producer) => Some(StreamWriter::new(alloc, producer, self.end.ring)),
            None => None,
        }
    }
}

/// A ring from the hub to a reader, as the hub stores it.
#[derive(Drop)]
pub struct ReadRing<A: Allocator + Copy> {
    /// The hub's side.
    pub end: ReadEnd<A>,
    /// The reader's side, until it is handed out.
    pub held: Option<Consumer<Delivery<A>, A>>,
    /// Whether the hub has put an end into the ring.
    pub over: bool,
}

impl<A: Allocator + Copy> ReadRing<A> {
    ghost use Rattle.st_queues.specs.Lanes.{IsOurRead};
    ghost use Rattle.st_queues.specs.declared.items.Over.TheVariants.{Open};

    /// Hands out the reader. `None` if it was handed out before. Does not allocate.
    pub fn hand_out<N: HubName<A>>(&mut self) -> Option<StreamReader<N, A>>
        requires { IsOurRead N.read_ring self.old }
        ensures found { IsSome result ↔ IsSome self.old.held }
        ensures fresh { IfSome result (λ r. (r.stream ≡ self.old.end.stream) × (r.items ≡ []) × (r.known ≡ []) × (r.over ≡ Open)) }
        ensures left { (self.new.held ≡ None) × (self.new.end ≡ self.old.end) × (self.new.over ≡ self.old.over) }
    {
        match self.held.take() {
            Some(consumer) => Some(StreamReader::new(consumer, self.end.stream)),
            None => None,
        }
    }
}
