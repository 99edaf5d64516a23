//! The trait for what bytes are sent to.

ghost use Rattle.std.specs.Prelude.{ℕ, List};
ghost use Rattle.st_file.specs.Sinks.{Ends, Puts, Taken};

use std::alloc::Allocator;

/// A value that holds a list of bytes.
pub trait Chunk {
    // The bytes, in order.
    ghost bytes: { Self → List ℕ };
}

impl<A: Allocator + Copy> Chunk for Vec<u8, A> {
    ghost bytes = { λ v. v.items };
}

/// What became of a chunk, or of an end, that a sink was given.
#[must_use]
#[derive(Drop)]
pub enum Put<C> {
    /// The sink accepted it.
    Taken,
    /// The sink did not accept it now, and gives it back: it may be given again.
    Again(C),
    /// The sink accepts no more, and gives it back.
    Closed(C),
}

/// Something that accepts chunks of bytes, and then an end. A call may wait for room.
pub trait Sink<C: Chunk> {
    // What it accepted so far.
    ghost taken: { Self → Taken };

    /// Takes a whole chunk, or gives it back whole.
    fn put(&mut self, chunk: C) -> Put<C>
        ensures { Puts C.bytes (taken self.old) (taken self.new) chunk result };

    /// Takes the end, after which no chunk is put, or does not.
    fn end(&mut self) -> Put<()>
        ensures { Ends (taken self.old) (taken self.new) result };
}
