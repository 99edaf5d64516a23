//! A window of places, in which the byte at an offset lies at the remainder of the offset.
ghost use Rattle.std.specs.Prelude.{◌≡◌, ℕ, true, ◌+◌, ◌-◌, ◌^◌, ◌%◌, ◌<◌, ◌≤◌, ◌⊎◌, if◌then◌else◌, length, max, min, vec_capacity, None, nat_lt, IfOk, IsSome, slice_index};
ghost use Rattle.st_reassembly.specs.Ring.{byte_at, cell, Overwrites, FillsPlaces, JoinsBytes, KeepsBytesBefore, byte_below, ForgetsBytes, places, cells};

use crate::marks::{WORDS, mark, next_place, unmark};
use std::alloc::{AllocError, Allocator};

/// The greatest number of bytes past the read count at which a chunk may end.
pub const WINDOW: u64 = 65_536;

/// How many places there are.
const PLACES: usize = WINDOW as usize;

/// The byte at each place that is marked.
#[derive(Drop)]
pub struct Ring<A: Allocator> {
    /// A byte for each place.
    pub bytes: Vec<u8, A>,
    /// A bit for each place.
    pub marks: Vec<u64, A>,
}

/// A window with no byte in it. Fails if memory is refused.
pub fn empty<A: Allocator + Copy>(alloc: A) -> Result<Ring<A>, AllocError>
    ensures size { IfOk result (λ r. length r.bytes.items ≡ 65536) }
    ensures words { IfOk result (λ r. length r.marks.items ≡ 1024) }
    ensures empty { IfOk result (λ r. (q : ℕ) → cell r.bytes.items r.marks.items q ≡ None) }
{
    let bytes = Vec::from_elem(alloc, 0, PLACES)?;
    let marks = Vec::from_elem(alloc, 0, WORDS)?;
    Ok(Ring { bytes, marks })
}

/// The place of the byte at an offset.
fn place_of(offset: u64) -> usize
    ensures { result ≡ offset % 65536 }
{
    (offset % WINDOW) as usize
}

/// Overwrites the bytes from `at` on with `piece`.
fn write_at<A: Allocator>(bytes: &mut Vec<u8, A>, at: usize, piece: &[u8])
    requires { at + length piece.now ≤ length bytes.old.items }
    ensures len { length bytes.new.items ≡ length bytes.old.items }
    ensures bytes { Overwrites at piece.now bytes.old.items bytes.new.items }
{
    bytes[at..at + piece.len()].copy_from_slice(piece);
}

/// Puts each byte of `piece` into its place, from `at` on, if the place is empty.
fn fill<A: Allocator>(ring: &mut Ring<A>, at: usize, piece: &[u8])
    requires size { length ring.old.bytes.items ≡ 65536 }
    requires words { length ring.old.marks.items ≡ 1024 }
    requires within { at + length piece.now ≤ 65536 }
    ensures size { length ring.new.bytes.items ≡ 65536 }
    ensures words { length ring.new.marks.items ≡ 1024 }
    ensures fills { FillsPlaces at piece.now (places ring.old) (places ring.new) }
{
    let end = at + piece.len();
    let mut from = at;
    while from < end {
        let first = next_place(&ring.marks, false, from, end);
        let last = next_place(&ring.marks, true, first, end);
        write_at(&mut ring.bytes, first, &piece[first - at..last - at]);
        mark(&mut ring.marks, first, last);
        from = last;
    }
}

/// Puts each byte of `piece` into its place, if the place is empty.
fn lay<A: Allocator>(ring: &mut Ring<A>, offset: u64, piece: &[u8])
    requires size { length ring.old.bytes.items ≡ 65536 }
    requires words { length ring.old.marks.items ≡ 1024 }
    requires few { length piece.now ≤ 65536 }
    ensures size { length ring.new.bytes.items ≡ 65536 }
    ensures words { length ring.new.marks.items ≡ 1024 }
    ensures lays { JoinsBytes offset (byte_at offset piece.now) (cells ring.old) (cells ring.new) }
    ensures around { KeepsBytesBefore offset piece.now (cells ring.old) (cells ring.new) }
{
    let at = place_of(offset);
    let front = piece.len().min(PLACES - at);
    fill(ring, at, &piece[..front]);
    fill(ring, 0, &piece[front..]);
}

/// Puts each byte of `piece` whose offset is from `low` on and below `high` into its place, if the place is empty.
/// Returns the offset past the last such byte, or 0 if there is none.
pub fn join<A: Allocator>(ring: &mut Ring<A>, offset: u64, piece: &[u8], low: u64, high: u64) -> u64
    requires size { length ring.old.bytes.items ≡ 65536 }
    requires words { length ring.old.marks.items ≡ 1024 }
    requires fits { offset + length piece.now < 2 ^ 64 }
    requires near { min high (offset + length piece.now) ≤ low + 65536 }
    ensures size { length ring.new.bytes.items ≡ 65536 }
    ensures words { length ring.new.marks.items ≡ 1024 }
    ensures joins { JoinsBytes low (byte_below high offset piece.now) (cells ring.old) (cells ring.new) }
    ensures past { result ≡ (if nat_lt (max offset low) (min high (offset + length piece.now)) then min high (offset + length piece.now) else 0) }
{
    let end = high.min(offset + piece.len() as u64);
    let start = offset.max(low);
    if end <= start {
        return 0;
    }
    let from = (start - offset) as usize;
    let to = (end - offset) as usize;
    lay(ring, start, &piece[from..to]);
    end
}

/// The number of places from that of `first` on that have a byte without a gap.
pub fn row_length<A: Allocator>(ring: &Ring<A>, first: u64) -> usize
    requires size { length ring.now.bytes.items ≡ 65536 }
    requires words { length ring.now.marks.items ≡ 1024 }
    ensures few { result ≤ 65536 }
    ensures held { (k : ℕ) → k < result → IsSome (cell ring.now.bytes.items ring.now.marks.items (first + k)) }
    ensures longest { (result ≡ 65536) ⊎ (cell ring.now.bytes.items ring.now.marks.items (first + result) ≡ None) }
{
    let at = place_of(first);
    let stop = next_place(&ring.marks, false, at, PLACES);
    if stop < PLACES {
        return stop - at;
    }
    PLACES - at + next_place(&ring.marks, false, 0, at)
}

/// The bytes at `count` places from that of `first` on.
pub fn row<A: Allocator + Copy>(
    alloc: A,
    ring: &Ring<A>,
    first: u64,
    count: usize,
) -> Result<Vec<u8, A>, AllocError>
    requires size { length ring.now.bytes.items ≡ 65536 }
    requires few { count ≤ 65536 }
    ensures len { IfOk result (λ v. length v.items ≡ count) }
    ensures bytes { IfOk result (λ v. (k : ℕ) → k < count → slice_index v.items k ≡ slice_index ring.now.bytes.items ((first + k) % 65536)) }
{
    let at = place_of(first);
    let front = count.min(PLACES - at);
    let mut row = Vec::with_capacity(alloc, count)?;
    row.extend_from_slice(&ring.bytes[at..at + front])?;
    row.extend_from_slice(&ring.bytes[..count - front])?;
    Ok(row)
}

/// Empties `count` places from that of `first` on.
pub fn forget<A: Allocator>(ring: &mut Ring<A>, first: u64, count: usize)
    requires words { length ring.old.marks.items ≡ 1024 }
    requires few { count ≤ 65536 }
    ensures bytes { ring.new.bytes.items ≡ ring.old.bytes.items }
    ensures words { length ring.new.marks.items ≡ 1024 }
    ensures left { ForgetsBytes first count (cells ring.old) (cells ring.new) }
{
    let at = place_of(first);
    let front = count.min(PLACES - at);
    unmark(&mut ring.marks, at, at + front);
    unmark(&mut ring.marks, 0, count - front);
}

/// A window without memory.
pub fn none<A: Allocator + Copy>(alloc: A) -> Ring<A>
    ensures freed { vec_capacity result.bytes + vec_capacity result.marks ≡ 0 }
    ensures empty { (q : ℕ) → cell result.bytes.items result.marks.items q ≡ None }
{
    Ring {
        bytes: Vec::new(alloc),
        marks: Vec::new(alloc),
    }
}

/// The memory of the window, in bytes.
pub fn room<A: Allocator>(ring: &Ring<A>) -> usize
    ensures { vec_capacity ring.now.bytes + vec_capacity ring.now.marks ≡ 0 → result ≡ 0 }
{
    ring.bytes
        .capacity()
        .saturating_add(ring.marks.capacity().saturating_mul(8))
}

/// A second window with the same bytes, or without memory if the first has none.
pub fn copy<A: Allocator + Copy>(
    alloc: A,
    ring: &Ring<A>,
    freed: bool,
) -> Result<Ring<A>, AllocError>
    requires { freed ≡ true → vec_capacity ring.now.bytes + vec_capacity ring.now.marks ≡ 0 }
    ensures bytes { IfOk result (λ r. r.bytes.items ≡ ring.now.bytes.items) }
    ensures marks { IfOk result (λ r. r.marks.items ≡ ring.now.marks.items) }
    ensures freed { IfOk result (λ r. freed ≡ true → vec_capacity r.bytes + vec_capacity r.marks ≡ 0) }
{
    if freed {
        return Ok(none(alloc));
    }
    let bytes = ring.bytes.clone()?;
    let marks = ring.marks.clone()?;
    Ok(Ring { bytes, marks })
}
