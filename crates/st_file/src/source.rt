//! The trait for what bytes are read from.

ghost use Rattle.st_file.specs.Sources.{Given, Gives};

use st_queues::Got;
use std::alloc::Allocator;

/// Something that gives bytes in chunks, and then an end or an abort. No call waits.
pub trait Source<A: Allocator + Copy> {
    // What it gave so far.
    ghost given: { Self → Given };

    /// The next bytes; nothing if there are none yet; or the end or the abort of the stream.
    fn next(&mut self) -> Got<A>
        ensures { Gives (given self.old) (given self.new) result };
}
