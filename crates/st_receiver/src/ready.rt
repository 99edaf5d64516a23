//! Whether a stream can be read.

ghost use Rattle.std.specs.Prelude.{◌≡◌};
ghost use Rattle.st_receiver.specs.Ready.{ready_of, is_ready};

use crate::incoming::Incoming;
use crate::intake::Intake;
use st_streams::StreamId;
use std::alloc::Allocator;

/// Whether a read of a place's stream gives anything.
fn ready_of<A: Allocator + Copy>(slot: &Option<Incoming<A>>) -> bool
    ensures { result ≡ ready_of slot.now }
{
    match slot {
        Some(incoming) => incoming.is_ready(),
        None => false,
    }
}

impl<A: Allocator + Copy> Intake<A> {
    /// Whether `read` gives anything on a stream but `Nothing`: bytes, the end, or an abort. `false` if the stream is not
    /// open. Does not allocate.
    pub fn is_ready(&self, stream: StreamId) -> bool
        ensures { result ≡ is_ready self.now.state stream }
    {
        ready_of(&self.slots[stream.place()])
    }
}
