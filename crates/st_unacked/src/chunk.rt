//! The bytes of a stream in chunks, each of which has memory of its own for 4,096 bytes. A chunk without a byte that is
//! unacknowledged is freed.
ghost use Rattle.std.specs.Prelude.{◌≡◌, ℕ, ◌+◌, ◌-◌, ◌^◌, ◌<◌, ◌≤◌, IfOk, OnErr, OnOk, filter, length, min, slice_index, true, vec_capacity};
ghost use Rattle.std.specs.List.{slice_range};
ghost use Rattle.st_unacked.specs.Chunks.{Block, ends_past, byte_in, covers, Laid, is_held, room_behind, written, last_written, padded, IsCut, HasBytes};

use crate::run::{Run, is_kept_in};
use std::alloc::{AllocError, Allocator};
use std::marker::Model;

/// The memory of a chunk, in bytes.
pub const CHUNK: usize = 4_096;

/// Bytes from an offset on, in memory of their own. Those after the last byte accepted are zeros.
#[derive(Drop)]
pub struct Chunk<A: Allocator> {
    at: u64,
    page: Box<[u8; CHUNK], A>,
}

impl<A: Allocator> Model for Chunk<A> {
    ghost use Rattle.std.specs.Prelude.{◌≡◌, length};
    ghost use Rattle.st_unacked.specs.Chunks.{Block};

    ghost Value = { Block };

    ghost view = { λ c. record { at = c.at; bytes = c.page.value } };

    ghost invariant = { λ c. length c.page.value ≡ 4096 };
}

impl<A: Allocator> Chunk<A> {
    /// A chunk with these bytes in front.
    fn holding(alloc: A, at: u64, bytes: &[u8]) -> Result<Chunk<A>, AllocError>
        requires { length bytes.now ≤ 4096 }
        ensures { IfOk result (λ c. c ≡ record { at = at; bytes = padded bytes.now }) }
    {
        let mut page = [0; CHUNK];
        page[..bytes.len()].copy_from_slice(bytes);
        let page = Box::new(alloc, page)?;
        Ok(Chunk { at, page })
    }

    /// Whether an offset lies before the end of its memory.
    fn ends_past(&self, offset: u64) -> bool
        ensures { result ≡ ends_past offset self.now }
    {
        offset.saturating_sub(self.at) < CHUNK as u64
    }

    /// How many bytes from an offset on it has room for.
    fn room_behind(&self, at: u64) -> u64
        ensures { result ≡ 4096 - (at - self.now.at) }
    {
        (CHUNK as u64).saturating_sub(at.saturating_sub(self.at))
    }

    /// Puts bytes in from an offset on.
    fn write(&mut self, at: u64, bytes: &[u8])
        requires { at - self.old.at + length bytes.now ≤ 4096 }
        ensures { self.new ≡ record { at = self.old.at; bytes = written (at - self.old.at) bytes.now self.old.bytes } }
    {
        let place = at.saturating_sub(self.at) as usize;
        self.page[place..place + bytes.len()].copy_from_slice(bytes);
    }

    /// Its bytes from one offset on and before another.
    fn part(&self, from: u64, to: u64) -> &[u8]
        requires from { self.now.at ≤ from }
        requires here { ends_past from self.now ≡ true }
        requires order { from < to }
        ensures bytes { result.now ≡ slice_range self.now.bytes (from - self.now.at) (min 4096 (to - self.now.at)) }
        ensures len { length result.now ≡ min 4096 (to - self.now.at) - (from - self.now.at) }
    {
        let start = (from - self.at) as usize;
        let end = (CHUNK as u64).min(to - self.at) as usize;
        &self.page[start..end]
    }

    /// Whether one of its bytes is kept.
    fn is_held<B: Allocator>(&self, runs: &Vec<Run, B>) -> bool
        ensures { result ≡ is_held runs.now.items self.now }
    {
        is_kept_in(runs, self.at, CHUNK as u64)
    }
}

/// How many bytes from an offset on the last chunk has room for.
fn room_behind<A: Allocator>(chunks: &Vec<Chunk<A>, A>, at: u64) -> u64
    ensures { result ≡ room_behind at chunks.now.items }
{
    let count = chunks.len();
    if count == 0 {
        return 0;
    }
    chunks[count - 1].room_behind(at)
}

/// Puts bytes into the last chunk from an offset on.
fn write_last<A: Allocator>(chunks: &mut Vec<Chunk<A>, A>, at: u64, bytes: &[u8])
    requires { length bytes.now ≤ room_behind at chunks.old.items }
    ensures items { chunks.new.items ≡ last_written at bytes.now chunks.old.items }
    ensures len { length chunks.new.items ≡ length chunks.old.items }
    ensures places { vec_capacity chunks.new ≡ vec_capacity chunks.old }
{
    let count = bytes.len();
    if count == 0 {
        return;
    }
    let last = chunks.len() - 1;
    chunks[last].write(at, bytes);
}

/// Cuts the bytes from an offset on into new chunks.
fn cut<A: Allocator + Copy>(alloc: A, at: u64, bytes: &[u8]) -> Result<Vec<Chunk<A>, A>, AllocError>
    requires { at + length bytes.now < 2 ^ 64 }
    ensures { IfOk result (λ v. IsCut at bytes.now v.items) }
{
    let mut all = Vec::new(alloc);
    let mut done = 0;
    while done < bytes.len() {
        let next = done + (bytes.len() - done).min(CHUNK);
        let chunk = Chunk::holding(alloc, at + done as u64, &bytes[done..next])?;
        all.push(chunk)?;
        done = next;
    }
    Ok(all)
}

/// Appends bytes from the offset `at` on, after all others: first to the last chunk as far as it has room, the others
/// to new chunks. Appends all of them, or none if memory is refused.
pub fn add<A: Allocator + Copy>(
    alloc: A,
    chunks: &mut Vec<Chunk<A>, A>,
    at: u64,
    more: &[u8],
) -> Result<(), AllocError>
    requires laid { Laid 0 at chunks.old.items }
    requires fits { at + length more.now < 2 ^ 64 }
    ensures adds { OnOk result (HasBytes at more.now chunks.old.items chunks.new.items) }
    ensures unchanged { OnErr result (chunks.new.items ≡ chunks.old.items) }
    ensures places { OnErr result (vec_capacity chunks.new ≡ vec_capacity chunks.old) }
{
    let head = room_behind(chunks, at).min(more.len() as u64);
    let (front, rest) = more.split_at(head as usize);
    let mut new = cut(alloc, at + head, rest)?;
    chunks.reserve(new.len())?;
    write_last(chunks, at, front);
    chunks.append(&mut new).unwrap();
    Ok(())
}

/// Frees the chunks without a byte that is kept, and the table of chunks with the last of them.
pub fn let_go<A: Allocator, B: Allocator>(chunks: &mut Vec<Chunk<A>, A>, runs: &Vec<Run, B>)
    ensures items { chunks.new.items ≡ filter (is_held runs.now.items) chunks.old.items }
    ensures freed { length chunks.new.items ≡ 0 → vec_capacity chunks.new ≡ 0 }
{
    chunks.retain(|chunk| chunk.is_held(runs));
    if chunks.is_empty() {
        chunks.shrink_to_fit();
    }
}

/// Some of the bytes from one offset on and before another, which lie in one chunk.
fn part_at<A: Allocator>(chunks: &Vec<Chunk<A>, A>, from: u64, to: u64) -> &[u8]
    requires order { from < to }
    requires there { covers chunks.now.items from ≡ true }
    ensures some { 0 < length result.now }
    ensures most { from + length result.now ≤ to }
    ensures bytes { (k : ℕ) → k < length result.now → slice_index result.now k ≡ byte_in chunks.now.items (from + k) }
{
    for chunk in chunks {
        if chunk.ends_past(from) {
            return chunk.part(from, to);
        }
    }
    &[]
}

/// A copy of the bytes from one offset on and before another.
pub fn copy<A: Allocator + Copy>(
    alloc: A,
    chunks: &Vec<Chunk<A>, A>,
    from: u64,
    to: u64,
) -> Result<Vec<u8, A>, AllocError>
    requires order { from ≤ to }
    requires there { (q : ℕ) → from ≤ q → q < to → covers chunks.now.items q ≡ true }
    ensures len { IfOk result (λ v. length v.items ≡ to - from) }
    ensures bytes { IfOk result (λ v. (k : ℕ) → k < length v.items → slice_index v.items k ≡ byte_in chunks.now.items (from + k)) }
{
    let mut all = Vec::with_capacity(alloc, (to - from) as usize)?;
    let mut at = from;
    while at < to {
        let part = part_at(chunks, at, to);
        all.extend_from_slice(part)?;
        at += part.len() as u64;
    }
    Ok(all)
}
