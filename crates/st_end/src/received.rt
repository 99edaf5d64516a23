//! The answer to bytes that arrived.

use std::alloc::Allocator;

/// The answer to bytes that arrived at an end, and what a log of answered Prepares needs.
#[derive(Drop)]
pub struct Received<A: Allocator + Copy> {
    /// The Fulfill or Reject that answers them (RFC 0027).
    pub bytes: Vec<u8, A>,
    /// The number of the reason of a Reject; 0 for a Fulfill.
    pub reason: u8,
    /// The amount of the Prepare in units of this end's asset; 0 if the bytes are not a Prepare.
    pub amount: u64,
    /// The sequence of its packet (RFC 0029, section 5.2), if its payload was decrypted.
    pub sequence: Option<u64>,
}
