//! The cipher of sixteen blocks in one pass (FIPS 197, section 5.1), in planes. Written by gen/planes.py.

ghost use Rattle.std.specs.Prelude.{◌≡◌, ℕ, ◌+◌, ◌*◌, ◌/◌, ◌%◌, ◌<◌, ◌≤◌, List, length, slice_index};
ghost use Rattle.std.specs.Simd.Lanes.{chunk};
ghost use Rattle.st_aes.specs.Cipher.{encrypt_with};
ghost use Rattle.st_aes.specs.Planes.{plane, half, state_at, vectors_at, IsRoundKeys};

use crate::cipher::RoundKeys;
use crate::wide_planes::{Planes, added, mixed, shifted, substituted, transposed};
use std::simd::{u8x16, u8x32};

/// Writes a vector from byte `at` on.
#[inline(always)]
fn store(out: &mut [u8], at: usize, v: u8x32)
    requires { at + 32 ≤ length out.old }
    ensures long { length out.new ≡ length out.old }
    ensures written { (k : ℕ) → k < 32 → slice_index out.new (at + k) ≡ slice_index v k }
    ensures before { (k : ℕ) → k < at → slice_index out.new k ≡ slice_index out.old k }
{
    v.copy_to_slice(&mut out[at..]);
}

/// Writes eight vectors from byte `at` on.
#[inline(always)]
pub(crate) fn store_all(out: &mut [u8], at: usize, v: &Planes)
    requires { at + 256 ≤ length out.old }
    ensures long { length out.new ≡ length out.old }
    ensures written { (i : ℕ) → i < 256 → slice_index out.new (at + i) ≡ slice_index (plane v.now (i / 32)) (i % 32) }
    ensures before { (k : ℕ) → k < at → slice_index out.new k ≡ slice_index out.old k }
{
    for j in 0..8usize {
        store(out, at + 32 * j, v[j]);
    }
}

/// Eight vectors from byte `at` on.
#[inline(always)]
fn load(bytes: &[u8], at: usize) -> Planes
    requires { at + 256 ≤ length bytes.now }
    ensures { result ≡ vectors_at 32 bytes.now at }
{
    [
        u8x32::from_slice(&bytes[at..]),
        u8x32::from_slice(&bytes[at + 32..]),
        u8x32::from_slice(&bytes[at + 64..]),
        u8x32::from_slice(&bytes[at + 96..]),
        u8x32::from_slice(&bytes[at + 128..]),
        u8x32::from_slice(&bytes[at + 160..]),
        u8x32::from_slice(&bytes[at + 192..]),
        u8x32::from_slice(&bytes[at + 224..]),
    ]
}

/// Sixteen bytes from byte `at` on, twice.
#[inline(always)]
fn load_twice(bytes: &[u8], at: usize) -> u8x32
    requires { at + 16 ≤ length bytes.now }
    ensures { (l : ℕ) → l < 32 → slice_index result l ≡ slice_index bytes.now (at + l % 16) }
{
    u8x16::from_slice(&bytes[at..]).swizzle([
        0, 1, 2, 3, 4, 5, 6, 7, 8, 9, 10, 11, 12, 13, 14, 15, 0, 1, 2, 3, 4, 5, 6, 7, 8, 9, 10, 11,
        12, 13, 14, 15,
    ])
}

/// The key of a round for all states, from byte `at` of the round keys on.
#[inline(always)]
fn load_key(keys: &[u8], at: usize) -> Planes
    requires { at + 128 ≤ length keys.now }
    ensures { (g j : ℕ) → g < 2 → j < 8 → state_at result g j ≡ state_at (vectors_at 16 keys.now at) 0 j }
{
    [
        load_twice(keys, at),
        load_twice(keys, at + 16),
        load_twice(keys, at + 32),
        load_twice(keys, at + 48),
        load_twice(keys, at + 64),
        load_twice(keys, at + 80),
        load_twice(keys, at + 96),
        load_twice(keys, at + 112),
    ]
}

/// The cipher of sixteen blocks, two in each vector.
pub(crate) fn encrypted(keys: &RoundKeys, v: Planes) -> Planes
    requires { (j l : ℕ) → j < 8 → slice_index (plane v j) l < 256 }
    ensures { (ws : List (List ℕ)) → IsRoundKeys keys.now ws → (g j : ℕ) → g < 2 → j < 8 → half (plane result j) g ≡ encrypt_with ws (half (plane v j) g) }
{
    let mut q = added(transposed(v), load_key(keys, 0));
    for n in 0..13usize {
        let next = added(
            mixed(shifted(substituted(q))),
            load_key(keys, 128 * (n + 1)),
        );
        q = next;
    }
    transposed(added(shifted(substituted(q)), load_key(keys, 1792)))
}

/// The cipher of sixteen blocks, one after another.
pub(crate) fn encrypted_blocks(keys: &RoundKeys, blocks: &[u8; 256]) -> [u8; 256]
    ensures { (ws : List (List ℕ)) → IsRoundKeys keys.now ws → (m : ℕ) → m < 16 → chunk (16 * m) 16 result ≡ encrypt_with ws (chunk (16 * m) 16 blocks.now) }
{
    let mut out = [0u8; 256];
    store_all(&mut out, 0, &encrypted(keys, load(blocks, 0)));
    out
}
