//! Chunks of a stream that arrive out of order.

use st_reassembly::{Inbox, InboxError};
use std::alloc::Allocator;

/// The bytes of a stream whose chunks arrived out of order, one of them twice.
fn in_order<A: Allocator + Copy>(alloc: A) -> Result<Vec<u8, A>, InboxError> {
    let mut inbox = Inbox::new(alloc)?;
    inbox.insert(2, b"cd")?;
    inbox.insert(0, b"ab")?;
    inbox.insert(0, b"XY")?;
    inbox.take(100)
}

#[test]
fn pieces_come_in_order(rt: HostRuntime) -> Result<(), std::test::Fail> {
    assert!(rt; in_order(rt.alloc())?.as_slice() == b"abcd".as_slice());
    Ok(())
}
