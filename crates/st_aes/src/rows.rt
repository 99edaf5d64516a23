//! Products of sixteen blocks and one factor at once. Vector k below 8 has byte k of each block, and then byte k + 8.
//!
//! Four bits of each block are looked up at once, in a table of sixteen bytes that lies in a register: no memory is read at
//! a place that depends on them.

ghost use Rattle.std.specs.Prelude.{◌≡◌, ℕ, ◌+◌, ◌*◌, ◌/◌, ◌%◌, ◌^◌, ◌<◌, ◌≤◌, ◌==◌, if◌then◌else◌, bit_xor, length, slice_index};
ghost use Rattle.std.specs.Simd.Lanes.{chunk};
ghost use Rattle.st_aes.specs.Planes.{plane};
ghost use Rattle.st_aes.specs.Rows.{cell, added_byte, HasTables, AddsProducts};

use crate::wide_planes::of_bytes;
use std::simd::{u8x16, u8x32};

/// For each four bits i of a block and each k below 8, from byte 256i + 32k on: byte k of the sixteen multiples, and then
/// byte k + 8 of them.
pub(crate) type Tables = [u8; 8192];

/// Sixteen blocks.
pub(crate) type Rows = [u8x32; 8];

/// The first half of a vector, twice.
#[inline(always)]
fn front_twice(a: u8x32) -> u8x32
    ensures { (l : ℕ) → l < 32 → slice_index result l ≡ slice_index a (l % 16) }
{
    a.swizzle([
        0, 1, 2, 3, 4, 5, 6, 7, 8, 9, 10, 11, 12, 13, 14, 15, 0, 1, 2, 3, 4, 5, 6, 7, 8, 9, 10, 11,
        12, 13, 14, 15,
    ])
}

/// The second half of a vector, twice.
#[inline(always)]
fn back_twice(a: u8x32) -> u8x32
    ensures { (l : ℕ) → l < 32 → slice_index result l ≡ slice_index a (16 + l % 16) }
{
    a.swizzle([
        16, 17, 18, 19, 20, 21, 22, 23, 24, 25, 26, 27, 28, 29, 30, 31, 16, 17, 18, 19, 20, 21, 22,
        23, 24, 25, 26, 27, 28, 29, 30, 31,
    ])
}

/// A table's bytes at the high four bits of each lane.
#[inline(always)]
fn at_high(table: u8x32, v: u8x32) -> u8x32
    ensures { (l : ℕ) → l < 32 → slice_index result l ≡ slice_index table (16 * (l / 16) + slice_index v l / 16) }
{
    table.swizzle_dyn_within::<16>(v >> u8x32::splat(4))
}

/// And at the low ones.
#[inline(always)]
fn at_low(table: u8x32, v: u8x32) -> u8x32
    ensures { (l : ℕ) → l < 32 → slice_index result l ≡ slice_index table (16 * (l / 16) + slice_index v l % 16) }
{
    table.swizzle_dyn_within::<16>(v & u8x32::splat(15))
}

/// A sum of three vectors of bytes.
#[inline(always)]
fn sum(a: u8x32, b: u8x32, c: u8x32) -> u8x32
    ensures sum { (l : ℕ) → l < 32 → slice_index result l ≡ bit_xor (bit_xor (slice_index a l) (slice_index b l)) (slice_index c l) }
    ensures bytes { (l : ℕ) → slice_index result l < 256 }
{
    of_bytes(a ^ b ^ c)
}

/// A table of two times sixteen bytes, from byte `i` on.
#[inline(always)]
fn table(t: &[u8], i: usize) -> u8x32
    requires { i + 32 ≤ length t.now }
    ensures { result ≡ chunk i 32 t.now }
{
    u8x32::from_slice(&t[i..])
}

/// What byte `m` of each block adds to vector `k` of the products.
#[inline(always)]
fn added(t: &Tables, v: u8x32, m: usize, k: usize, a: u8x32) -> u8x32
    requires row { m < 16 }
    requires vector { k < 8 }
    ensures sum { (l : ℕ) → l < 32 → slice_index result l ≡ added_byte t.now (slice_index v l) m k l (slice_index a l) }
    ensures bytes { (l : ℕ) → slice_index result l < 256 }
{
    let high = at_high(table(t, 512 * m + 32 * k), v);
    let low = at_low(table(t, 512 * m + 256 + 32 * k), v);
    sum(a, high, low)
}

/// Adds what byte `m` of each block adds to its product.
#[inline(always)]
fn step(t: &Tables, v: u8x32, m: usize, acc: Rows) -> Rows
    requires { m < 16 }
    ensures sum { (k l : ℕ) → k < 8 → l < 32 → slice_index (plane result k) l ≡ added_byte t.now (slice_index v l) m k l (slice_index (plane acc k) l) }
    ensures bytes { (k l : ℕ) → k < 8 → slice_index (plane result k) l < 256 }
{
    let [a0, a1, a2, a3, a4, a5, a6, a7] = acc;
    [
        added(t, v, m, 0, a0),
        added(t, v, m, 1, a1),
        added(t, v, m, 2, a2),
        added(t, v, m, 3, a3),
        added(t, v, m, 4, a4),
        added(t, v, m, 5, a5),
        added(t, v, m, 6, a6),
        added(t, v, m, 7, a7),
    ]
}

/// Sixteen blocks, to which the products of sixteen others and the factor of these tables are added.
pub(crate) fn with_products(t: &Tables, rows: &Rows, start: Rows) -> Rows
    requires start { (k l : ℕ) → k < 8 → slice_index (plane start k) l < 256 }
    requires rows { (k l : ℕ) → k < 8 → slice_index (plane rows.now k) l < 256 }
    ensures bytes { (k l : ℕ) → k < 8 → slice_index (plane result k) l < 256 }
    ensures sum { (y : ℕ) → y < 2 ^ 128 → HasTables t.now y → AddsProducts y start rows.now result }
{
    let mut acc = start;
    'front: for k in 0..8usize {
        let next = step(t, front_twice(rows[k]), k, acc);
        acc = next;
    }
    'back: for k in 0..8usize {
        let next = step(t, back_twice(rows[k]), k + 8, acc);
        acc = next;
    }
    acc
}

// ---- the blocks of a text, byte by byte

/// Sixteen vectors of sixteen bytes.
pub(crate) type Square = [u8x16; 16];

/// The first halves of two vectors, byte by byte in turn.
#[inline(always)]
fn woven_low(a: u8x16, b: u8x16) -> u8x16
    ensures { (c : ℕ) → c < 16 → slice_index result c ≡ (if c % 2 == 0 then slice_index a (0 + c / 2) else slice_index b (0 + c / 2)) }
{
    let (low, _) = a.interleave(b);
    low
}

/// The second halves.
#[inline(always)]
fn woven_high(a: u8x16, b: u8x16) -> u8x16
    ensures { (c : ℕ) → c < 16 → slice_index result c ≡ (if c % 2 == 0 then slice_index a (8 + c / 2) else slice_index b (8 + c / 2)) }
{
    let (_, high) = a.interleave(b);
    high
}

/// Each vector of the first eight, woven with the eighth after it.
#[inline(always)]
fn woven(a: Square) -> Square
    ensures { (r c : ℕ) → r < 16 → c < 16 → cell result r c ≡ cell a (r / 2 + 8 * (c % 2)) (8 * (r % 2) + c / 2) }
{
    let [
        a0,
        a1,
        a2,
        a3,
        a4,
        a5,
        a6,
        a7,
        a8,
        a9,
        a10,
        a11,
        a12,
        a13,
        a14,
        a15,
    ] = a;
    [
        woven_low(a0, a8),
        woven_high(a0, a8),
        woven_low(a1, a9),
        woven_high(a1, a9),
        woven_low(a2, a10),
        woven_high(a2, a10),
        woven_low(a3, a11),
        woven_high(a3, a11),
        woven_low(a4, a12),
        woven_high(a4, a12),
        woven_low(a5, a13),
        woven_high(a5, a13),
        woven_low(a6, a14),
        woven_high(a6, a14),
        woven_low(a7, a15),
        woven_high(a7, a15),
    ]
}

/// Byte c of vector r is byte r of vector c afterwards.
#[inline(always)]
pub(crate) fn turned(a: Square) -> Square
    ensures { (r c : ℕ) → r < 16 → c < 16 → cell result r c ≡ cell a c r }
{
    woven(woven(woven(woven(a))))
}

/// Two vectors, one after the other.
#[inline(always)]
pub(crate) fn pair(a: u8x16, b: u8x16) -> u8x32
    ensures pair { (l : ℕ) → l < 32 → slice_index result l ≡ (if l / 16 == 0 then slice_index a (l % 16) else slice_index b (l % 16)) }
    ensures bytes { (l : ℕ) → slice_index result l < 256 }
{
    of_bytes(a.shuffle(
        b,
        [
            0, 1, 2, 3, 4, 5, 6, 7, 8, 9, 10, 11, 12, 13, 14, 15, 16, 17, 18, 19, 20, 21, 22, 23,
            24, 25, 26, 27, 28, 29, 30, 31,
        ],
    ))
}

/// Block `m` of a text, from byte `at` on.
#[inline(always)]
fn block_at(text: &[u8], at: usize, m: usize) -> u8x16
    requires { at + 16 * m + 16 ≤ length text.now }
    ensures { (b : ℕ) → b < 16 → slice_index result b ≡ slice_index text.now (at + 16 * m + b) }
{
    u8x16::from_slice(&text[at + 16 * m..])
}

/// Sixteen blocks of a text, from byte `at` on.
pub(crate) fn blocks_at(text: &[u8], at: usize) -> Rows
    requires { at + 256 ≤ length text.now }
    ensures bytes { (k l : ℕ) → k < 8 → slice_index (plane result k) l < 256 }
    ensures cells { (j b : ℕ) → j < 16 → b < 16 → cell result (b % 8) (16 * (b / 8) + j) ≡ slice_index text.now (at + 16 * j + b) }
{
    let [
        t0,
        t1,
        t2,
        t3,
        t4,
        t5,
        t6,
        t7,
        t8,
        t9,
        t10,
        t11,
        t12,
        t13,
        t14,
        t15,
    ] = turned([
        block_at(text, at, 0),
        block_at(text, at, 1),
        block_at(text, at, 2),
        block_at(text, at, 3),
        block_at(text, at, 4),
        block_at(text, at, 5),
        block_at(text, at, 6),
        block_at(text, at, 7),
        block_at(text, at, 8),
        block_at(text, at, 9),
        block_at(text, at, 10),
        block_at(text, at, 11),
        block_at(text, at, 12),
        block_at(text, at, 13),
        block_at(text, at, 14),
        block_at(text, at, 15),
    ]);
    [
        pair(t0, t8),
        pair(t1, t9),
        pair(t2, t10),
        pair(t3, t11),
        pair(t4, t12),
        pair(t5, t13),
        pair(t6, t14),
        pair(t7, t15),
    ]
}
