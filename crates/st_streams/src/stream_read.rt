//! What a read gives.

use std::alloc::Allocator;

/// The result of a read of a stream.
#[derive(Drop)]
pub enum StreamRead<A: Allocator + Copy> {
    /// The first bytes that were not read yet, at least one.
    Bytes(Vec<u8, A>),
    /// No byte can be read yet.
    Nothing,
    /// The stream was closed cleanly, and all its bytes were read.
    End,
    /// The peer aborted the stream with this code (RFC 0029, section 5.3).
    Aborted(u64),
}
