//! A run of `local` of which each request for memory is refused in turn.

use crate::local::{answer_to, settings};
use std::alloc::Global;
use std::process::Abort;
use test_refusing::Refusing;

const TEXT: &[u8] = b"abcd";

/// The run whose request `n` is refused: whether there was one. It prints the fault of that and writes nothing; with
/// memory back it writes what it reads.
fn meets(rt: &impl Abort, alloc: Global, heap: &Refusing<Global>, n: u64) -> bool {
    let settings = settings(1, 2, 2);
    heap.refuse_only(n);
    let told = answer_to(heap, alloc, &settings, TEXT);
    let met = heap.has_refused();
    heap.refuse_none();
    if met {
        sure!(rt; told.is_fault(b"fault 99\n"), n);
    } else {
        sure!(rt; told.is_done(TEXT), n);
    }
    met
}

#[test]
fn each_request_is_refused(rt: HostRuntime) {
    let alloc = rt.alloc();
    let heap: Refusing<Global> = Refusing::new(alloc);
    for n in 1..10_000_u64 {
        if !meets(&rt, alloc, &heap, n) {
            sure!(&rt; 20 < n);
            return;
        }
    }
    panic!(rt; "no run met no refusal");
}
