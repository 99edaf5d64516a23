//! The hub's side of the rings.
ghost use Rattle.std.specs.Prelude.{◌≡◌, ◌+◌, ◌≤◌, ◌<◌, ◌↔◌, [], ◌∷◌, ◌++◌, length, IsTrue};
ghost use mathlib.Core.List.{IsPrefix};
ghost use Rattle.st_queues.specs.Names.{producer_ring, consumer_ring};
ghost use Rattle.st_queues.specs.Writing.{WritesNothing};
ghost use Rattle.st_queues.specs.Reading.{ReadsNothing};

use crate::items::{Delivery, Item};
use crate::name::HubName;
use crate::reader::StreamReader;
use crate::writer::StreamWriter;
use rtrb::{Consumer, Producer};
use std::alloc::Allocator;

/// The hub's side of a ring that a writer fills, with the ring's number.
#[derive(Drop)]
pub struct WriteEnd<A: Allocator + Copy> {
    pub(crate) consumer: Consumer<Item<A>, A>,
    pub(crate) ring: u16,
}

impl<A: Allocator + Copy> WriteEnd<A> {
    ghost use Rattle.st_queues.specs.WriteEnds.{taken, known, SameWriteEnd};

    /// Whether the ring has an item. Does not wait.
    pub fn look(&mut self) -> bool
        ensures same { SameWriteEnd self.old self.new × (taken self.new ≡ taken self.old) × IsPrefix (known self.old) (known self.new) }
        ensures found { IsTrue result ↔ (0 < length (known self.new)) }
    {
        self.consumer.slots() > 0
    }

    /// The first item, which stays in the ring. Requires that an item is known to be there, as `look` checks.
    pub fn first(&self) -> &Item<A>
        requires { 0 < length (known self.now) }
        ensures { IsPrefix (result.now ∷ []) (known self.now) }
    {
        self.consumer.peek_known()
    }

    /// Removes the first item. Requires that an item is known to be there, as `look` checks.
    pub fn drop_first(&mut self)
        requires { 0 < length (known self.old) }
        ensures same { SameWriteEnd self.old self.new }
        ensures took { (x : _) → IsPrefix (x ∷ []) (known self.old) → (taken self.new ≡ taken self.old ++ x ∷ []) × (known self.old ≡ x ∷ known self.new) }
    {
        let _ = self.consumer.pop_known();
    }

    /// The number of items in the ring, read with access to both sides. The items read so far, followed by those in the
    /// ring, are exactly the items that the writer wrote.
    pub fn meet<N: HubName<A>>(&mut self, writer: &mut StreamWriter<N, A>) -> usize
        requires { (consumer_ring self.old.consumer ≡ N.write_ring self.old.ring) × (writer.old.ring ≡ self.old.ring) }
        ensures same { SameWriteEnd self.old self.new × (taken self.new ≡ taken self.old) × IsPrefix (known self.old) (known self.new) }
        ensures writer { WritesNothing writer.old writer.new }
        ensures count { result ≡ length (known self.new) }
        ensures whole { taken self.new ++ known self.new ≡ writer.new.items }
    {
        self.consumer.slots_beside(&mut writer.producer)
    }
}

/// The hub's side of a ring that a reader empties, with the index of its stream.
#[derive(Drop)]
pub struct ReadEnd<A: Allocator + Copy> {
    pub(crate) producer: Producer<Delivery<A>, A>,
    pub(crate) stream: u8,
}

impl<A: Allocator + Copy> ReadEnd<A> {
    ghost use Rattle.st_queues.specs.ReadEnds.{put_in, free_of, SameReadEnd};

    /// The number of items for which the ring has room. Does not wait.
    pub fn room(&mut self) -> usize
        ensures same { SameReadEnd self.old self.new × (put_in self.new ≡ put_in self.old) × (free_of self.old ≤ free_of self.new) }
        ensures room { result ≡ free_of self.new }
    {
        self.producer.slots()
    }

    /// Puts an item into the ring. Requires that room for it is known, as `room` checks.
    pub fn put(&mut self, delivery: Delivery<A>)
        requires { 0 < free_of self.old }
        ensures same { SameReadEnd self.old self.new }
        ensures put { (put_in self.new ≡ put_in self.old ++ delivery ∷ []) × (free_of self.old ≡ free_of self.new + 1) }
    {
        self.producer.push_reserved(delivery);
    }

    /// The number of items in the ring, read with both sides at hand. The items read so far, followed by those in the
    /// ring, are exactly the items that the hub put in.
    pub fn meet<N: HubName<A>>(&mut self, reader: &mut StreamReader<N, A>) -> usize
        requires { (producer_ring self.old.producer ≡ N.read_ring self.old.stream) × (reader.old.stream ≡ self.old.stream) }
        ensures same { SameReadEnd self.old self.new × (put_in self.new ≡ put_in self.old) × (free_of self.old ≤ free_of self.new) }
        ensures reader { ReadsNothing reader.old reader.new }
        ensures count { result ≡ length reader.new.known }
        ensures whole { reader.new.items ++ reader.new.known ≡ put_in self.new }
    {
        reader.consumer.slots_beside(&mut self.producer)
    }
}
