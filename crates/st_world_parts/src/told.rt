//! The result of an event.

use st_end::EndError;
use st_receiver::Got;
use std::alloc::Allocator;

/// The result of an event: what the end or the hop answered. A Prepare or an answer that was sent is the last of its
/// list on the link.
#[derive(Drop)]
pub enum Told<A: Allocator + Copy> {
    /// An end had nothing to send, or there was no call.
    Nothing,
    /// The result of a call on a stream. A write that is `Ok` took all of its bytes.
    Call(Result<(), EndError>),
    /// An end learned the outcome of a Prepare: whether it was the Fulfill (RFC 0027) with the fitting fulfillment, by
    /// which the end booked what the Prepare carried.
    Took(bool),
    /// The number of the stream that was opened.
    Opened(Result<u8, EndError>),
    /// The result of a read.
    Gave(Result<Got<A>, EndError>),
    /// An end sent a Prepare over its own link.
    Sent,
    /// An end answered a Prepare.
    Answered {
        /// The number of the reason of a Reject; 0 for a Fulfill.
        reason: u8,
        /// The amount of the Prepare, in units of the end's asset.
        amount: u64,
        /// The sequence of its packet (RFC 0029, section 5.2), if its payload was decrypted.
        sequence: Option<u64>,
    },
    /// A hop sent an answer back.
    Replied,
    /// A hop forwarded the Prepare over the next link.
    Went,
    /// The call ran out of memory.
    NoMemory,
}
