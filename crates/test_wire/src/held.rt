use st_reassembly::{Inbox, InboxError};
use std::alloc::Global;
use std::process::Abort;

/// An inbox to which nothing came.
fn blank(rt: &impl Abort, alloc: Global) -> Inbox<Global> {
    Inbox::new(alloc).expect(rt, "there is memory")
}

#[test]
fn refuses_past_the_window_and_past_the_offsets(rt: HostRuntime) {
    let mut inbox = blank(&rt, rt.alloc());
    assert!(rt; inbox.insert(65_535, b"a") == Ok(()));
    assert!(rt; inbox.insert(65_536, b"a") == Err(InboxError::PastWindow));
    assert!(rt; inbox.insert(65_536, b"") == Ok(()));
    assert!(rt; inbox.insert(65_537, b"") == Err(InboxError::PastWindow));
    assert!(rt; inbox.insert(18_446_744_073_709_551_615, b"ab") == Err(InboxError::Overflow));
    assert!(rt; inbox.insert(18_446_744_073_709_551_615, b"a") == Err(InboxError::Overflow));
    assert!(rt; inbox.insert(18_446_744_073_709_551_615, b"") == Err(InboxError::PastWindow));
    assert!(rt; inbox.run_length() == 0);
    assert!(rt; inbox.read_count() == 0);
}

/// A stream keeps its window of 65,536 bytes, with 8,192 for the marks, until its end was read or it was aborted.
#[test]
fn a_window_is_let_go_at_the_end(rt: HostRuntime) {
    let mut inbox = blank(&rt, rt.alloc());
    assert!(rt; inbox.insert(0, b"abc") == Ok(()));
    inbox.finish();
    assert!(rt; inbox.take(2).is_ok());
    assert!(rt; inbox.room() == 73_728);
    assert!(rt; inbox.take(2).is_ok());
    assert!(rt; inbox.room() == 0);
    assert!(rt; inbox.insert(2, b"cd") == Ok(()));
    assert!(rt; inbox.run_length() == 0);
    assert!(rt; inbox.read_count() == 3);
    let mut aborted = blank(&rt, rt.alloc());
    aborted.abort(9);
    assert!(rt; aborted.room() == 0);
}
