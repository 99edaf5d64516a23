//! The command `frames` over a reader and two writers.

use ilpstream_frames::{CountRead, CountWrite, run_frames};
use std::alloc::Allocator;

/// The status of `frames` over these lines, and what it printed.
fn frames<A: Allocator + Copy>(alloc: A, lines: &[u8]) -> (u8, Vec<u8, A>) {
    let mut reader = CountRead::new(lines);
    let mut writer = CountWrite::new(Vec::new(alloc));
    let mut errors = CountWrite::new(Vec::new(alloc));
    let status = run_frames(alloc, &mut reader, &mut writer, &mut errors);
    (status, writer.into_inner())
}

#[test]
fn lines_are_answered(rt: HostRuntime) {
    let (status, out) = frames(rt.alloc(), b"010c010201000101140701010100026162\n");
    sure!(&rt; status == 0);
    sure!(&rt; out.as_slice() == b"stream 1 2 6162\n".as_slice());
}
