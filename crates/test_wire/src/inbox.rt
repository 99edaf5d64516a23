//! An inbox that chunks are put into and read from while memory is refused.

use st_reassembly::{Inbox, InboxError};
use std::alloc::{Allocator, Global};
use std::process::Abort;
use test_refusing::Refusing;

type Heap = Refusing<Global>;

/// "ab" at 0 and "ef" at 4, with a gap between them.
fn gapped<'a>(rt: &impl Abort, heap: &'a Heap) -> Inbox<&'a Heap> {
    let mut inbox = Inbox::new(heap).expect(rt, "there is memory");
    assert!(rt; inbox.insert(0, b"ab") == Ok(()));
    assert!(rt; inbox.insert(4, b"ef") == Ok(()));
    inbox
}

/// Whether these bytes were returned, or why none were.
fn came<A: Allocator + Copy>(
    answer: Result<Vec<u8, A>, InboxError>,
    bytes: &[u8],
) -> Result<bool, InboxError> {
    match answer {
        Ok(taken) => Ok(taken.as_slice() == bytes),
        Err(error) => Err(error),
    }
}

/// Once an inbox is made, an insert asks for no memory and succeeds.
#[test]
fn insert_asks_for_no_memory(rt: HostRuntime) {
    let heap: Heap = Refusing::new(rt.alloc());
    let mut inbox = gapped(&rt, &heap);
    heap.refuse_from(1);
    assert!(rt; inbox.insert(1, b"XcdXgh") == Ok(()));
    assert!(rt; inbox.insert(65_535, b"z") == Ok(()));
    assert!(rt; heap.asked() == 0);
    heap.refuse_none();
    assert!(rt; came(inbox.take(9), b"abcdefh") == Ok(true));
}

/// What needs no new memory does not request any.
#[test]
fn closes_and_counts_ask_for_no_memory(rt: HostRuntime) {
    let heap: Heap = Refusing::new(rt.alloc());
    let mut inbox = gapped(&rt, &heap);
    let mut aborted = gapped(&rt, &heap);
    heap.refuse_from(1);
    inbox.finish();
    aborted.abort(9);
    assert!(rt; inbox.run_length() == 2);
    assert!(rt; inbox.read_count() == 0);
    assert!(rt; inbox.end_at() == Some(6));
    assert!(rt; aborted.abort_code() == Some(9));
    assert!(rt; heap.asked() == 0);
}
