//! The writer of a ring as a sink, and the reader of a ring as a source.

use crate::sink::{Put, Sink};
use crate::source::Source;
use st_queues::{Got, HubName, QueueError, StreamReader, StreamWriter};
use std::alloc::Allocator;

/// A ring's writer as a sink: the bytes that it accepted are those of the chunks that it wrote. It is closed for a chunk
/// of an invalid length, and after its end.
impl<N: HubName<A>, A: Allocator + Copy> Sink<Vec<u8, A>> for StreamWriter<N, A> {
    ghost use Rattle.st_file.specs.Rings.{taken_by};

    ghost taken = { λ w. taken_by w };

    fn put(&mut self, chunk: Vec<u8, A>) -> Put<Vec<u8, A>> {
        match self.try_write(chunk) {
            Ok(()) => Put::Taken,
            Err(QueueError::BadLength(back)) => Put::Closed(back),
            Err(QueueError::Ended(back)) => Put::Closed(back),
            Err(QueueError::Full(back)) => Put::Again(back),
            Err(QueueError::NoMemory) => unreachable!(),
        }
    }

    fn end(&mut self) -> Put<()> {
        match self.try_end() {
            Ok(()) => Put::Taken,
            Err(QueueError::Full(_)) => Put::Again(()),
            Err(_) => Put::Closed(()),
        }
    }
}

/// A ring's reader as a source: the bytes that it gave are those that it read.
impl<N: HubName<A>, A: Allocator + Copy> Source<A> for StreamReader<N, A> {
    ghost use Rattle.st_file.specs.Rings.{given_by};

    ghost given = { λ r. given_by r };

    fn next(&mut self) -> Got<A> {
        self.try_read()
    }
}
