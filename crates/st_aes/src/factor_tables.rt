//! The tables with which sixteen products are computed at once.
//!
//! No call reads memory at a place, or takes a branch, that depends on a bit of a factor.

ghost use Rattle.std.specs.Prelude.{◌≡◌, ℕ, [], ◌∷◌, ◌+◌, ◌*◌, ◌-◌, ◌/◌, ◌%◌, ◌^◌, ◌<◌, ◌==◌, if◌then◌else◌, bit_xor, replicate, slice_index};
ghost use Rattle.std.specs.Int.{w128, bit_at, to_be_bytes};
ghost use Rattle.st_aes.specs.BlockField.{four_bits};
ghost use Rattle.st_aes.specs.Rows.{cell, HasTables, IsMultiples, folded_first, folded_second};

use crate::block_field::block_times_x;
use crate::rows::{Rows, Square, Tables, pair, turned};
use crate::wide_pass::store_all;
use std::simd::{u8x16, u64x2};

/// The bytes of a block, the last one first.
#[inline(always)]
fn bytes_of(v: u128) -> u8x16
    ensures { (b : ℕ) → b < 16 → slice_index result (15 - b) ≡ slice_index (to_be_bytes w128 v) b }
{
    u64x2::from_array([(v % (1 << 64)) as u64, (v >> 64) as u64]).to_le_bytes()
}

/// A vector, if bit `k` of `n` is set.
#[inline(always)]
fn where_set(n: usize, k: u32, v: u8x16) -> u8x16
    requires { k < 4 }
    ensures { result ≡ (if bit_at n k == 1 then v else replicate 16 0) }
{
    if (n >> k) & 1 == 1 {
        v
    } else {
        u8x16::splat(0)
    }
}

/// The sum of those of four vectors whose bits of `n` are set, the highest bit first.
#[inline(always)]
fn sum_at(n: usize, p: u8x16, q: u8x16, r: u8x16, s: u8x16) -> u8x16
    ensures { (l : ℕ) → l < 16 → slice_index result l ≡ four_bits (λ j. cell (p ∷ q ∷ r ∷ s ∷ []) j l) 0 n }
{
    where_set(n, 3, p) ^ where_set(n, 2, q) ^ where_set(n, 1, r) ^ where_set(n, 0, s)
}

/// The sixteen sums of four vectors.
#[inline(always)]
fn sums_of(p: u8x16, q: u8x16, r: u8x16, s: u8x16) -> Square
    ensures { (n l : ℕ) → n < 16 → l < 16 → cell result n l ≡ four_bits (λ j. cell (p ∷ q ∷ r ∷ s ∷ []) j l) 0 n }
{
    [
        sum_at(0, p, q, r, s),
        sum_at(1, p, q, r, s),
        sum_at(2, p, q, r, s),
        sum_at(3, p, q, r, s),
        sum_at(4, p, q, r, s),
        sum_at(5, p, q, r, s),
        sum_at(6, p, q, r, s),
        sum_at(7, p, q, r, s),
        sum_at(8, p, q, r, s),
        sum_at(9, p, q, r, s),
        sum_at(10, p, q, r, s),
        sum_at(11, p, q, r, s),
        sum_at(12, p, q, r, s),
        sum_at(13, p, q, r, s),
        sum_at(14, p, q, r, s),
        sum_at(15, p, q, r, s),
    ]
}

/// The multiples for the first four bits of a block: of all sixteen the first bytes, the second ones, and so on.
fn first_multiples(y: u128) -> Square
    ensures { IsMultiples result y 0 }
{
    let p = block_times_x(y);
    let q = block_times_x(p);
    let r = block_times_x(q);
    let [
        t0,
        t1,
        t2,
        t3,
        t4,
        t5,
        t6,
        t7,
        t8,
        t9,
        t10,
        t11,
        t12,
        t13,
        t14,
        t15,
    ] = turned(sums_of(bytes_of(y), bytes_of(p), bytes_of(q), bytes_of(r)));
    [
        t15, t14, t13, t12, t11, t10, t9, t8, t7, t6, t5, t4, t3, t2, t1, t0,
    ]
}

// ---- from four bits to the next four

#[inline(always)]
fn added(a: u8x16, b: u8x16) -> u8x16
    ensures { (l : ℕ) → l < 16 → slice_index result l ≡ bit_xor (slice_index a l) (slice_index b l) }
{
    a ^ b
}

/// The high four bits of each lane.
#[inline(always)]
fn high(v: u8x16) -> u8x16
    ensures { (l : ℕ) → l < 16 → slice_index result l ≡ slice_index v l / 16 }
{
    v >> u8x16::splat(4)
}

/// The low four bits of each lane, as its high ones.
#[inline(always)]
fn raised(v: u8x16) -> u8x16
    ensures { (l : ℕ) → l < 16 → slice_index result l ≡ slice_index v l * 16 % 256 }
{
    v << u8x16::splat(4)
}

/// Four bits lower, with the low four bits of the byte before it above them.
#[inline(always)]
fn lower(before: u8x16, v: u8x16) -> u8x16
    ensures { (l : ℕ) → l < 16 → slice_index result l ≡ bit_xor (slice_index v l / 16) (slice_index before l * 16 % 256) }
{
    added(high(v), raised(before))
}

/// A table's bytes at the low four bits of each lane.
#[inline(always)]
fn at_low(table: u8x16, v: u8x16) -> u8x16
    ensures { (l : ℕ) → l < 16 → slice_index result l ≡ slice_index table (slice_index v l % 16) }
{
    table.swizzle_dyn(v & u8x16::splat(15))
}

/// The first byte of what is beyond x^127, by the four lowest bits of the last byte.
#[inline(always)]
fn first_folded(last: u8x16) -> u8x16
    ensures { (l : ℕ) → l < 16 → slice_index result l ≡ slice_index folded_first (slice_index last l % 16) }
{
    at_low(
        u8x16::from_array([
            0x00, 0x1c, 0x38, 0x24, 0x70, 0x6c, 0x48, 0x54, 0xe1, 0xfd, 0xd9, 0xc5, 0x91, 0x8d,
            0xa9, 0xb5,
        ]),
        last,
    )
}

/// And its second byte.
#[inline(always)]
fn second_folded(last: u8x16) -> u8x16
    ensures { (l : ℕ) → l < 16 → slice_index result l ≡ slice_index folded_second (slice_index last l % 16) }
{
    at_low(
        u8x16::from_array([
            0x00, 0x20, 0x40, 0x60, 0x80, 0xa0, 0xc0, 0xe0, 0x00, 0x20, 0x40, 0x60, 0x80, 0xa0,
            0xc0, 0xe0,
        ]),
        last,
    )
}

/// The multiples for the next four bits of a block: those for the four before them, times x^4.
#[inline(always)]
fn next_multiples(s: Square) -> Square
    ensures { (y i : ℕ) → y < 2 ^ 128 → IsMultiples s y i → IsMultiples result y (i + 1) }
{
    let [
        s0,
        s1,
        s2,
        s3,
        s4,
        s5,
        s6,
        s7,
        s8,
        s9,
        s10,
        s11,
        s12,
        s13,
        s14,
        s15,
    ] = s;
    [
        added(high(s0), first_folded(s15)),
        added(lower(s0, s1), second_folded(s15)),
        lower(s1, s2),
        lower(s2, s3),
        lower(s3, s4),
        lower(s4, s5),
        lower(s5, s6),
        lower(s6, s7),
        lower(s7, s8),
        lower(s8, s9),
        lower(s9, s10),
        lower(s10, s11),
        lower(s11, s12),
        lower(s12, s13),
        lower(s13, s14),
        lower(s14, s15),
    ]
}

/// Their first eight vectors, each with the eighth after it.
#[inline(always)]
fn paired(s: Square) -> Rows
    ensures { (b n : ℕ) → b < 16 → n < 16 → cell result (b % 8) (16 * (b / 8) + n) ≡ cell s b n }
{
    let [
        s0,
        s1,
        s2,
        s3,
        s4,
        s5,
        s6,
        s7,
        s8,
        s9,
        s10,
        s11,
        s12,
        s13,
        s14,
        s15,
    ] = s;
    [
        pair(s0, s8),
        pair(s1, s9),
        pair(s2, s10),
        pair(s3, s11),
        pair(s4, s12),
        pair(s5, s13),
        pair(s6, s14),
        pair(s7, s15),
    ]
}

/// Writes the tables of a factor.
pub(crate) fn put_tables(out: &mut Tables, y: u128)
    ensures { HasTables out.new y }
{
    let mut rows = first_multiples(y);
    for i in 0..32usize {
        store_all(out, 256 * i, &paired(rows));
        let next = next_multiples(rows);
        rows = next;
    }
}
