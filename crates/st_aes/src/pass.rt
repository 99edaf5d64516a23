//! The cipher of eight blocks in one pass (FIPS 197, section 5.1), in planes. Written by gen/planes.py.

ghost use Rattle.std.specs.Prelude.{◌≡◌, ℕ, ◌+◌, ◌*◌, ◌/◌, ◌%◌, ◌<◌, ◌≤◌, List, length, slice_index};
ghost use Rattle.std.specs.Simd.Lanes.{chunk};
ghost use Rattle.st_aes.specs.Cipher.{encrypt_with};
ghost use Rattle.st_aes.specs.Planes.{plane, half, vectors_at, IsRoundKeys};

use crate::cipher::RoundKeys;
use crate::planes::{Planes, added, mixed, shifted, substituted, transposed};
use std::simd::u8x16;

/// Writes a vector from byte `at` on.
#[inline(always)]
fn store(out: &mut [u8], at: usize, v: u8x16)
    requires { at + 16 ≤ length out.old }
    ensures long { length out.new ≡ length out.old }
    ensures written { (k : ℕ) → k < 16 → slice_index out.new (at + k) ≡ slice_index v k }
    ensures before { (k : ℕ) → k < at → slice_index out.new k ≡ slice_index out.old k }
{
    v.copy_to_slice(&mut out[at..]);
}

/// Writes eight vectors from byte `at` on.
#[inline(always)]
pub(crate) fn store_all(out: &mut [u8], at: usize, v: &Planes)
    requires { at + 128 ≤ length out.old }
    ensures long { length out.new ≡ length out.old }
    ensures written { (i : ℕ) → i < 128 → slice_index out.new (at + i) ≡ slice_index (plane v.now (i / 16)) (i % 16) }
    ensures before { (k : ℕ) → k < at → slice_index out.new k ≡ slice_index out.old k }
{
    for j in 0..8usize {
        store(out, at + 16 * j, v[j]);
    }
}

/// Eight vectors from byte `at` on.
#[inline(always)]
fn load(bytes: &[u8], at: usize) -> Planes
    requires { at + 128 ≤ length bytes.now }
    ensures { result ≡ vectors_at 16 bytes.now at }
{
    [
        u8x16::from_slice(&bytes[at..]),
        u8x16::from_slice(&bytes[at + 16..]),
        u8x16::from_slice(&bytes[at + 32..]),
        u8x16::from_slice(&bytes[at + 48..]),
        u8x16::from_slice(&bytes[at + 64..]),
        u8x16::from_slice(&bytes[at + 80..]),
        u8x16::from_slice(&bytes[at + 96..]),
        u8x16::from_slice(&bytes[at + 112..]),
    ]
}

/// The cipher of eight blocks, one in each vector.
pub(crate) fn encrypted(keys: &RoundKeys, v: Planes) -> Planes
    requires { (j l : ℕ) → j < 8 → slice_index (plane v j) l < 256 }
    ensures { (ws : List (List ℕ)) → IsRoundKeys keys.now ws → (j : ℕ) → j < 8 → half (plane result j) 0 ≡ encrypt_with ws (half (plane v j) 0) }
{
    let mut q = added(transposed(v), load(keys, 0));
    for n in 0..13usize {
        let next = added(mixed(shifted(substituted(q))), load(keys, 128 * (n + 1)));
        q = next;
    }
    transposed(added(shifted(substituted(q)), load(keys, 1792)))
}

/// The cipher of eight blocks, one after another.
pub(crate) fn encrypted_blocks(keys: &RoundKeys, blocks: &[u8; 128]) -> [u8; 128]
    ensures { (ws : List (List ℕ)) → IsRoundKeys keys.now ws → (m : ℕ) → m < 8 → chunk (16 * m) 16 result ≡ encrypt_with ws (chunk (16 * m) 16 blocks.now) }
{
    let mut out = [0u8; 128];
    store_all(&mut out, 0, &encrypted(keys, load(blocks, 0)));
    out
}
