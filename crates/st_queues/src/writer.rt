//! The application's side of a ring to write to.
ghost use Rattle.std.specs.Prelude.{◌≡◌, ◌+◌, ◌≤◌, ◌<◌, true, false, vec_len, IfErr, OnOk, IsOk};
ghost use Rattle.rtrb.specs.Ring.{sent, known_free};
ghost use Rattle.st_queues.specs.Names.{producer_ring};
ghost use Rattle.st_queues.specs.Writing.{IsLawful, RefusesChunk, RefusesEnd, WritesChunk, WritesEnd, WritesNothing};

use crate::error::QueueError;
use crate::items::Item;
use crate::name::HubName;
use rtrb::Producer;
use std::alloc::Allocator;
use std::marker::{Model, PhantomData};

/// The greatest length of a chunk, in bytes.
pub const MAX_CHUNK: usize = 4096;

/// A writer of a stream of the hub `N`.
#[derive(Drop)]
pub struct StreamWriter<N: HubName<A>, A: Allocator + Copy> {
    pub(crate) producer: Producer<Item<A>, A>,
    alloc: A,
    // The number of its ring in the hub, below 512.
    ring: u16,
    ended: bool,
    of: PhantomData<N>,
}

impl<N: HubName<A>, A: Allocator + Copy> Model for StreamWriter<N, A> {
    ghost use Rattle.std.specs.Prelude.{◌≡◌, ◌<◌, if◌then◌else◌};
    ghost use Rattle.rtrb.specs.Ring.{sent, known_free};
    ghost use Rattle.st_queues.specs.Writing.{Written};
    ghost use Rattle.st_queues.specs.Names.{producer_ring};

    ghost Value = { Written A };

    ghost view = { λ w. record { ring = w.ring; items = sent w.producer; free = if w.ended then 0 else known_free w.producer; ended = w.ended } };

    ghost invariant = { λ w. (producer_ring w.producer ≡ N.write_ring w.ring) × (w.ring < 512) };
}

impl<N: HubName<A>, A: Allocator + Copy> StreamWriter<N, A> {
    // The end of the ring of this number in the hub.
    pub(crate) fn new(alloc: A, producer: Producer<Item<A>, A>, ring: u16) -> StreamWriter<N, A>
        requires named { producer_ring producer ≡ N.write_ring ring }
        requires place { ring < 512 }
        ensures { (result.ring ≡ ring) × (result.items ≡ sent producer) × (result.free ≡ known_free producer) × (result.ended ≡ false) }
    {
        StreamWriter {
            producer,
            alloc,
            ring,
            ended: false,
            of: PhantomData,
        }
    }

    /// Puts a chunk of 1 to 4,096 bytes into the ring. Does not allocate and does not wait.
    ///
    /// Fails with `BadLength` if the chunk is empty or longer, then with `Ended` after an end, and then with `Full`
    /// if the ring has no room. The error gives the chunk back.
    pub fn try_write(&mut self, chunk: Vec<u8, A>) -> Result<(), QueueError<A>>
        ensures same { (self.new.ring ≡ self.old.ring) × (self.new.ended ≡ self.old.ended) }
        ensures ok { OnOk result (WritesChunk chunk self.old self.new) }
        ensures err { IfErr result (λ e. RefusesChunk (vec_len chunk) chunk self.new e) }
        ensures unchanged { IfErr result (λ _. (self.new.items ≡ self.old.items) × (self.old.free ≤ self.new.free)) }
        ensures succeeds { IsLawful (vec_len chunk) → 0 < self.old.free → IsOk result }
    {
        if chunk.is_empty() || chunk.len() > MAX_CHUNK {
            return Err(QueueError::BadLength(chunk));
        }
        if self.ended {
            return Err(QueueError::Ended(chunk));
        }
        if self.producer.is_full() {
            return Err(QueueError::Full(chunk));
        }
        self.producer.push_reserved(Item::Chunk(chunk));
        Ok(())
    }

    /// Puts the end into the ring: nothing can be written after it. Does not allocate and does not wait.
    ///
    /// Fails with `Ended` after an end, and then with `Full` if the ring has no room. The error has an empty chunk.
    pub fn try_end(&mut self) -> Result<(), QueueError<A>>
        ensures same { self.new.ring ≡ self.old.ring }
        ensures ok { OnOk result (WritesEnd self.old self.new) }
        ensures err { IfErr result (λ e. RefusesEnd self.new e) }
        ensures unchanged { IfErr result (λ _. (self.new.items ≡ self.old.items) × (self.new.ended ≡ self.old.ended) × (self.old.free ≤ self.new.free)) }
        ensures succeeds { 0 < self.old.free → IsOk result }
    {
        if self.ended {
            return Err(QueueError::Ended(Vec::new(self.alloc)));
        }
        if self.producer.is_full() {
            return Err(QueueError::Full(Vec::new(self.alloc)));
        }
        self.producer.push_reserved(Item::End);
        self.ended = true;
        Ok(())
    }

    /// The number of items for which the ring has room, 0 after an end. The hub may make more room at any time.
    pub fn free(&mut self) -> usize
        ensures room { result ≡ self.new.free }
        ensures ended { self.old.ended ≡ true → result ≡ 0 }
        ensures same { WritesNothing self.old self.new }
    {
        if self.ended {
            return 0;
        }
        self.producer.slots()
    }

    /// The number of its ring in the hub: 0 to 511.
    pub fn ring(&self) -> usize
        ensures { (result ≡ self.now.ring) × (result < 512) }
    {
        usize::from(self.ring)
    }
}
