//! What is sent through the rings.
use std::alloc::Allocator;

/// An item that a writer puts into its ring.
#[derive(Drop)]
pub enum Item<A: Allocator + Copy> {
    /// 1 to 4,096 bytes.
    Chunk(Vec<u8, A>),
    /// The writer's end. Nothing follows it.
    End,
}

/// An item that the hub puts into a reader's ring.
#[derive(Drop)]
pub enum Delivery<A: Allocator + Copy> {
    /// The next bytes of the stream.
    Bytes(Vec<u8, A>),
    /// The stream was closed cleanly, and all of its bytes were delivered.
    End,
    /// The stream was aborted, with this code.
    Aborted(u64),
}

/// Whether a reader has read an end, and which.
#[derive(Clone, Copy)]
pub enum Over {
    /// No end yet.
    Open,
    /// The end of a stream that was closed cleanly.
    Ended,
    /// The abort, with its code.
    Aborted(u64),
}
