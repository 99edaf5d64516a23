//! The outcome of an exchange.

use std::alloc::Allocator;

/// The outcome of a forwarded Prepare.
#[derive(Debug, Drop)]
pub enum Outcome<A: Allocator + Copy> {
    /// The bytes of the answer.
    Answered(Vec<u8, A>),
    /// There was no answer.
    Fault,
}
