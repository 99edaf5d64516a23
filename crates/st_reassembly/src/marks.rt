//! A mark for each of 65,536 places, 64 to a word.
ghost use Rattle.std.specs.Prelude.{◌≡◌, ℕ, ◌<◌, ◌≤◌, ◌&&◌, ◌||◌, not, length};
ghost use Rattle.st_streams.specs.Table.{is_between};
ghost use Rattle.st_reassembly.specs.Ring.{is_marked};

use crate::words::{is_blank, lowest, part, turned};
use std::alloc::Allocator;

/// The number of words for all marks.
pub const WORDS: usize = 1_024;

/// The first place from `from` on and before `to` whose mark is `wanted`, or `to`.
pub fn next_place<A: Allocator>(marks: &Vec<u64, A>, wanted: bool, from: usize, to: usize) -> usize
    requires words { length marks.now.items ≡ 1024 }
    requires order { from ≤ to }
    requires within { to ≤ 65536 }
    ensures from { from ≤ result }
    ensures to { result ≤ to }
    ensures passed { (k : ℕ) → from ≤ k → k < result → is_marked marks.now.items k ≡ not wanted }
    ensures found { result < to → is_marked marks.now.items result ≡ wanted }
{
    let mut at = from;
    while at < to {
        let word = at / 64;
        let bits = turned(marks[word], wanted);
        if is_blank(bits) {
            at = 64 * word + 64;
            continue;
        }
        let bit = lowest(bits, (at % 64) as u32);
        at = 64 * word + bit as usize;
        if bit < 64 {
            return at.min(to);
        }
    }
    to
}

/// Marks the places from `from` on and before `to`.
pub fn mark<A: Allocator>(marks: &mut Vec<u64, A>, from: usize, to: usize)
    requires words { length marks.old.items ≡ 1024 }
    requires within { to ≤ 65536 }
    ensures words { length marks.new.items ≡ 1024 }
    ensures marked { (k : ℕ) → k < 65536 → is_marked marks.new.items k ≡ (is_between from to k || is_marked marks.old.items k) }
{
    for word in from / 64..to.div_ceil(64) {
        marks[word] |= part(word, from, to);
    }
}

/// Clears the marks of the places from `from` on and before `to`.
pub fn unmark<A: Allocator>(marks: &mut Vec<u64, A>, from: usize, to: usize)
    requires words { length marks.old.items ≡ 1024 }
    requires within { to ≤ 65536 }
    ensures words { length marks.new.items ≡ 1024 }
    ensures unmarked { (k : ℕ) → k < 65536 → is_marked marks.new.items k ≡ (not (is_between from to k) && is_marked marks.old.items k) }
{
    for word in from / 64..to.div_ceil(64) {
        marks[word] &= !part(word, from, to);
    }
}
