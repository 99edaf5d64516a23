//! The bytes of an outgoing stream, which are accepted and claimed while memory is refused.

use st_unacked::Unacked;
use std::alloc::{AllocError, Allocator, Global};
use std::process::Abort;
use test_refusing::Refusing;

type Heap = Refusing<Global>;

/// Accepts as long as the offsets are few.
fn accept<A: Allocator + Copy>(bytes: &mut Unacked<A>, more: &[u8]) -> Result<(), AllocError> {
    if bytes.accepted() < 1_000_000 && more.len() < 1_000_000 {
        bytes.accept(more)?;
    }
    Ok(())
}

/// Claims at most `most` of the lowest queued bytes.
fn claim_most<A: Allocator + Copy>(
    bytes: &mut Unacked<A>,
    sequence: u64,
    most: u64,
) -> Result<(), AllocError> {
    if let Some((from, end)) = bytes.lowest_due() {
        bytes.claim(sequence, from, end.min(from.saturating_add(most)))?;
    }
    Ok(())
}

/// Claims the lowest two queued bytes.
fn claim<A: Allocator + Copy>(bytes: &mut Unacked<A>, sequence: u64) -> Result<(), AllocError> {
    claim_most(bytes, sequence, 2)
}

/// A copy of at most `most` of the lowest queued bytes.
fn read<A: Allocator + Copy>(
    alloc: A,
    bytes: &Unacked<A>,
    most: u64,
) -> Result<Vec<u8, A>, AllocError> {
    match bytes.lowest_due() {
        Some((from, end)) => bytes.piece(alloc, from, end.min(from.saturating_add(most))),
        None => Ok(Vec::new(alloc)),
    }
}

/// Whether the copy of at most `most` of the lowest queued bytes is `want`.
fn reads<A: Allocator + Copy>(alloc: A, bytes: &Unacked<A>, most: u64, want: &[u8]) -> bool {
    match read(alloc, bytes, most) {
        Ok(got) => got.as_slice() == want,
        Err(_) => false,
    }
}

/// The numbers from 0 to 250, again and again: three chunks of them.
fn three_chunks() -> [u8; 12_288] {
    let mut all = [0; 12_288];
    for i in 0..12_288 {
        all[i] = (i % 251) as u8;
    }
    all
}

/// The bytes from one place to another, or none.
fn part(bytes: &[u8], from: usize, to: usize) -> &[u8] {
    bytes.get(from..to).unwrap_or(&[])
}

/// "abcdef", of which "ab" is in flight by sequence 1.
fn partly_sent<'a>(rt: &impl Abort, heap: &'a Heap) -> Unacked<&'a Heap> {
    let mut bytes = Unacked::new(heap);
    assert!(rt; accept(&mut bytes, b"abcdef").is_ok());
    assert!(rt; claim(&mut bytes, 1).is_ok());
    bytes
}

/// Handling an answer does not allocate.
#[test]
fn answers_ask_for_no_memory(rt: HostRuntime) {
    let heap: Heap = Refusing::new(rt.alloc());
    let mut bytes = partly_sent(&rt, &heap);
    assert!(rt; claim(&mut bytes, 2).is_ok());
    assert!(rt; claim(&mut bytes, 3).is_ok());
    heap.refuse_from(1);
    assert!(rt; bytes.acknowledged(2) == 4);
    bytes.failed(1);
    assert!(rt; bytes.lowest_due() == Some((0, 2)));
    assert!(rt; bytes.count() == 4);
    bytes.drop_bytes();
    assert!(rt; bytes.is_done());
    assert!(rt; bytes.acknowledged(3) == 6);
    assert!(rt; heap.asked() == 0);
}

/// What a stream kept is given back with its last byte.
#[test]
fn the_room_of_a_stream_is_given_back(rt: HostRuntime) {
    let heap: Heap = Refusing::new(rt.alloc());
    let mut bytes = partly_sent(&rt, &heap);
    assert!(rt; claim(&mut bytes, 2).is_ok());
    assert!(rt; claim(&mut bytes, 3).is_ok());
    assert!(rt; bytes.acknowledged(1) == 2);
    assert!(rt; bytes.acknowledged(3) == 6);
    assert!(rt; 2 <= bytes.room());
    assert!(rt; bytes.acknowledged(2) == 4);
    assert!(rt; bytes.room() == 0);
}

/// Chunks of acknowledged bytes are freed though an earlier packet has no answer yet, except those that have other bytes.
#[test]
fn a_gap_keeps_the_chunks_at_its_ends(rt: HostRuntime) {
    let heap: Heap = Refusing::new(rt.alloc());
    let mut bytes = Unacked::new(&heap);
    assert!(rt; accept(&mut bytes, &three_chunks()).is_ok());
    assert!(rt; bytes.room() == 12_288);
    assert!(rt; claim_most(&mut bytes, 1, 100).is_ok());
    assert!(rt; claim_most(&mut bytes, 2, 12_088).is_ok());
    assert!(rt; claim_most(&mut bytes, 3, 100).is_ok());
    assert!(rt; bytes.acknowledged(2) == 12_188);
    assert!(rt; bytes.count() == 200);
    assert!(rt; bytes.room() == 8_192);
    bytes.failed(3);
    assert!(rt; reads(&heap, &bytes, 1_000, &three_chunks()[12_188..]));
    bytes.drop_bytes();
    assert!(rt; bytes.room() == 0);
}

/// Bytes that are written in two parts are read over the chunks' ends.
#[test]
fn a_piece_goes_over_chunks(rt: HostRuntime) {
    let heap: Heap = Refusing::new(rt.alloc());
    let all = three_chunks();
    let mut bytes = Unacked::new(&heap);
    assert!(rt; accept(&mut bytes, part(&all, 0, 5_000)).is_ok());
    assert!(rt; accept(&mut bytes, part(&all, 5_000, 12_288)).is_ok());
    assert!(rt; bytes.room() == 12_288);
    assert!(rt; claim_most(&mut bytes, 1, 4_000).is_ok());
    assert!(rt; reads(&heap, &bytes, 8_000, part(&all, 4_000, 12_000)));
}

/// If a request of `accept` is refused, nothing is accepted and nothing is kept.
#[test]
fn each_refused_request_accepts_nothing(rt: HostRuntime) {
    let heap: Heap = Refusing::new(rt.alloc());
    let mut refused = 0_u64;
    for n in 1..20 {
        let mut bytes = Unacked::new(&heap);
        heap.refuse_only(n);
        if accept(&mut bytes, &three_chunks()).is_err() {
            refused = refused.saturating_add(1);
            assert!(rt; bytes.accepted() == 0);
            assert!(rt; bytes.count() == 0);
            assert!(rt; bytes.room() == 0);
        }
        heap.refuse_none();
    }
    assert!(rt; 5 <= refused && refused < 19);
}

/// If memory for a copy is refused, the bytes stay as they are.
#[test]
fn a_refused_copy_changes_nothing(rt: HostRuntime) {
    let heap: Heap = Refusing::new(rt.alloc());
    let mut bytes = partly_sent(&rt, &heap);
    heap.refuse_only(1);
    assert!(rt; read(&heap, &bytes, 3).is_err());
    heap.refuse_none();
    assert!(rt; bytes.lowest_due() == Some((2, 6)));
    assert!(rt; reads(&heap, &bytes, 3, b"cde"));
    assert!(rt; bytes.count() == 6);
}
