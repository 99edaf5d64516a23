//! What is moved, and what is reported of it.

use crate::devices::{Heap, Script, Step, Wire};
use st_devices::{Counting, FailAt};
use st_file::{FileError, send_all, store_all};
use std::alloc::Global;
use std::process::Abort;
use test_refusing::Refusing;

/// Two texts, written in three calls of a writer that takes three bytes a call.
const STEPS: [Step; 5] = [
    Step::Nothing,
    Step::Text(b"abcd"),
    Step::Nothing,
    Step::Text(b"ef"),
    Step::End,
];

/// The first of these six bytes.
fn first(count: u64) -> &'static [u8] {
    match b"abcdef".get(..count as usize) {
        Some(bytes) => bytes,
        None => b"",
    }
}

/// Whether a send over a reader that gives two bytes a call, of which call `k` fails, returns `told`, gives the sink these bytes,
/// and ends it or not.
fn sends(alloc: Global, k: u64, told: Result<u64, FileError>, bytes: &[u8], ended: bool) -> bool {
    let mut reader = Counting::new(FailAt::new(Wire::new(alloc, b"abcdef", 2, 0), k));
    let mut sink = Heap::new(alloc, 0);
    let got = send_all(alloc, &mut reader, &mut sink, 100);
    got == told && sink.bytes.as_slice() == bytes && sink.ended == ended
}

/// Whether a store over a writer of three bytes a call, of which call `k` fails, returns `told`, and writes these bytes.
fn stores(
    alloc: Global,
    steps: &[Step],
    k: u64,
    told: Result<u64, FileError>,
    bytes: &[u8],
) -> bool {
    let mut source = Script::new(alloc, steps);
    let mut writer = Counting::new(FailAt::new(Wire::new(alloc, b"", 3, 0), k));
    let got = store_all(&mut source, &mut writer, 100);
    got == told && writer.into_inner().into_inner().output() == bytes
}

/// The same of a writer with no fault, with at most `turns` calls.
fn stores_in(
    alloc: Global,
    steps: &[Step],
    turns: u64,
    told: Result<u64, FileError>,
    bytes: &[u8],
) -> bool {
    let mut source = Script::new(alloc, steps);
    let mut writer = Counting::new(Wire::new(alloc, b"", 3, 0));
    let got = store_all(&mut source, &mut writer, turns);
    got == told && writer.into_inner().output() == bytes
}

/// A writer takes three bytes and then fails; a reader gives two and then fails.
#[test]
fn a_fault_tells_what_was_moved(rt: HostRuntime) {
    let alloc = rt.alloc();
    let steps = [Step::Text(b"abcdef"), Step::End];
    sure!(&rt; stores(alloc, &steps, 2, Err(FileError::WriteFault(3)), b"abc"));
    sure!(&rt; sends(alloc, 2, Err(FileError::ReadFault(2)), b"ab", false));
}

/// Each read fails in turn. There are three that give two bytes, and one that meets the end.
#[test]
fn each_read_fails_in_turn(rt: HostRuntime) {
    let alloc = rt.alloc();
    for k in 1..=4u64 {
        let count = 2 * (k - 1);
        sure!(&rt; sends(alloc, k, Err(FileError::ReadFault(count)), first(count), false), k);
    }
    sure!(&rt; sends(alloc, 5, Ok(6), b"abcdef", true));
}

/// Each write fails in turn, and then the flush: the writer takes three bytes, one, two, and is flushed.
#[test]
fn each_write_fails_in_turn(rt: HostRuntime) {
    let alloc = rt.alloc();
    for (k, count) in [(1, 0), (2, 3), (3, 4), (4, 6)] {
        let told = Err(FileError::WriteFault(count));
        sure!(&rt; stores(alloc, &STEPS, k, told, first(count)), k);
    }
    sure!(&rt; stores(alloc, &STEPS, 5, Ok(6), b"abcdef"));
}

/// A send with at most `turns` calls, of which each refusal and each interruption uses one.
fn sends_in(
    rt: &impl Abort,
    alloc: Global,
    refusals: u64,
    interrupted: u64,
    turns: u64,
    calls: u64,
) {
    let mut reader = Counting::new(Wire::new(alloc, b"abcdef", 2, interrupted));
    let mut sink = Heap::new(alloc, refusals);
    let told = send_all(alloc, &mut reader, &mut sink, turns);
    if turns < calls {
        let spent = turns.saturating_sub(refusals.saturating_add(interrupted));
        let count = spent / 2 * 2;
        sure!(rt; told == Err(FileError::Turns(count)), turns);
        sure!(rt; sink.bytes.len() as u64 == count, turns);
        sure!(rt; !sink.ended, turns);
    } else {
        sure!(rt; told == Ok(6), turns);
        sure!(rt; sink.ended, turns);
    }
}

/// Six bytes need four reads, three puts and an end; a call that is refused or interrupted needs one more.
#[test]
fn turns_of_a_send_are_used_up(rt: HostRuntime) {
    for (refusals, interrupted, calls) in [(0, 0, 8), (3, 0, 11), (0, 2, 10)] {
        for turns in 0..=calls {
            sends_in(&rt, rt.alloc(), refusals, interrupted, turns, calls);
        }
    }
}

/// The steps need five calls, the writes three and the flush one. Each row: the calls, and the bytes that are written by then.
#[test]
fn turns_of_a_store_are_used_up(rt: HostRuntime) {
    let alloc = rt.alloc();
    let rows = [
        (0, 0),
        (1, 0),
        (2, 0),
        (3, 3),
        (4, 4),
        (5, 4),
        (6, 4),
        (7, 6),
        (8, 6),
    ];
    for (turns, count) in rows {
        let told = Err(FileError::Turns(count));
        sure!(&rt; stores_in(alloc, &STEPS, turns, told, first(count)), turns);
    }
    sure!(&rt; stores_in(alloc, &STEPS, 9, Ok(6), b"abcdef"));
}

/// An abort is reported with its code, after what was given before it.
#[test]
fn an_abort_is_told(rt: HostRuntime) {
    let steps = [Step::Text(b"ab"), Step::Aborted(7)];
    sure!(&rt; stores_in(rt.alloc(), &steps, 100, Err(FileError::Aborted(7, 2)), b"ab"));
}

/// A send whose request `n` is refused; what was not read is still there, and goes then.
fn send_refused(rt: &impl Abort, heap: &Refusing<Global>, alloc: Global, n: u64) {
    let mut reader = Counting::new(Wire::new(alloc, b"abcdef", 2, 0));
    let mut sink = Heap::new(alloc, 0);
    heap.refuse_only(n);
    let told = send_all(heap, &mut reader, &mut sink, 100);
    let met = heap.has_refused();
    heap.refuse_none();
    sure!(rt; met == (n < 5), n);
    if met {
        let count = n.saturating_sub(1).saturating_mul(2);
        sure!(rt; told == Err(FileError::NoMemory(count)), n);
        sure!(rt; sink.bytes.len() as u64 == count, n);
        let rest = 6u64.saturating_sub(count);
        sure!(rt; send_all(heap, &mut reader, &mut sink, 100) == Ok(rest), n);
    } else {
        sure!(rt; told == Ok(6), n);
    }
    sure!(rt; sink.bytes.as_slice() == b"abcdef".as_slice(), n);
}

/// Each request for memory is refused in turn: one for each read that gives bytes or meets the end.
#[test]
fn each_request_is_refused(rt: HostRuntime) {
    let heap: Refusing<Global> = Refusing::new(rt.alloc());
    for n in 1..=5u64 {
        send_refused(&rt, &heap, rt.alloc(), n);
    }
}

/// A long input goes in chunks of 4,096 bytes, and the last is what is left.
#[test]
fn long_inputs_are_cut(rt: HostRuntime) {
    let alloc = rt.alloc();
    let input = Vec::from_elem(alloc, 7u8, 10_000).expect(&rt, "memory");
    let mut reader = Counting::new(Wire::new(alloc, &input, 8_192, 0));
    let mut sink = Heap::new(alloc, 0);
    sure!(&rt; send_all(alloc, &mut reader, &mut sink, 8) == Ok(10_000));
    sure!(&rt; sink.longest == 4_096);
    sure!(&rt; sink.bytes.as_slice() == input.as_slice());
}
