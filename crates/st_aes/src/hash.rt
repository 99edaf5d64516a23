//! GHASH (SP 800-38D, section 6.4) of a ciphertext.

ghost use Rattle.std.specs.Prelude.{◌≡◌, ℕ, ◌<◌, ◌≤◌, ◌+◌, ◌*◌, ◌/◌, ◌%◌, length, slice_index};
ghost use Rattle.st_aes.specs.BlockField.{hash_from};
ghost use Rattle.st_aes.specs.Gcm.{block_of, block_number, padded, hashed_blocks, ghash, hash_key};
ghost use Rattle.st_aes.specs.Planes.{plane};
ghost use Rattle.st_aes.specs.Rows.{block_behind};

use crate::block_field::product;
use crate::key::Key;
use crate::rows::{blocks_at, with_products};
use crate::wide_pass::store_all;
use std::simd::u8x32;

/// Block `b` of a text, if it is not short.
#[inline(always)]
fn whole_block(text: &[u8], b: usize) -> [u8; 16]
    requires { 16 * b + 16 ≤ length text.now }
    ensures { result ≡ padded (block_of text.now b) }
{
    let mut whole = [0u8; 16];
    for j in 0..16usize {
        whole[j] = text[16 * b + j];
    }
    whole
}

/// Block `b` of a text, padded with zeros.
#[inline(always)]
fn padded_block(text: &[u8], b: usize) -> [u8; 16]
    requires { 16 * b < length text.now }
    ensures { result ≡ padded (block_of text.now b) }
{
    if text.len() - 16 * b >= 16 {
        return whole_block(text, b);
    }
    let mut out = [0u8; 16];
    for j in 0..16usize {
        if j < text.len() - 16 * b {
            out[j] = text[16 * b + j];
        }
    }
    out
}

/// Block `j` of sixteen whose rows have these bytes.
fn block_from(bytes: &[u8; 256], j: usize) -> [u8; 16]
    requires { j < 16 }
    ensures { result ≡ block_behind bytes.now j }
{
    let mut out = [0u8; 16];
    for b in 0..16usize {
        out[b] = bytes[32 * (b % 8) + (16 * (b / 8) + j)];
    }
    out
}

/// The hash of the first `groups` times sixteen blocks of a text: sixteen sums that have the same hash, and then it.
fn hash_front(key: &Key, text: &[u8], groups: usize) -> u128
    requires { 256 * groups ≤ length text.now }
    ensures { result ≡ hash_from (hash_key key.now) 0 (λ b. block_number (padded (block_of text.now b))) (16 * groups) }
{
    let mut rows = [u8x32::splat(0); 8];
    'groups: for p in 0..groups {
        let next = with_products(&key.parts.tables, &rows, blocks_at(text, 256 * p));
        rows = next;
    }
    let mut bytes = [0u8; 256];
    store_all(&mut bytes, 0, &rows);
    let mut y = 0u128;
    'sums: for j in 0..16usize {
        let block = u128::from_be_bytes(block_from(&bytes, j));
        y = product(&key.parts.hash_high, &key.parts.hash_low, y ^ block);
    }
    y
}

/// The same, if there may be none.
fn hash_start(key: &Key, text: &[u8], groups: usize) -> u128
    requires { 256 * groups ≤ length text.now }
    ensures { result ≡ hash_from (hash_key key.now) 0 (λ b. block_number (padded (block_of text.now b))) (16 * groups) }
{
    if groups == 0 {
        return 0;
    }
    hash_front(key, text, groups)
}

/// How many times sixteen blocks are hashed at once: of a short text none.
fn groups_of(length: usize) -> usize
    ensures { 256 * result ≤ length }
{
    if length >= 768 { length / 256 } else { 0 }
}

#[tactic(auto, unfolding(crate::specs::Gcm::ghash))]
pub(crate) fn ghash(key: &Key, text: &[u8]) -> u128
    ensures { result ≡ ghash (hash_key key.now) (hashed_blocks text.now) }
{
    let groups = groups_of(text.len());
    let mut y = hash_start(key, text, groups);
    for b in 16 * groups..(text.len() + 15) / 16 {
        let block = u128::from_be_bytes(padded_block(text, b));
        y = product(&key.parts.hash_high, &key.parts.hash_low, y ^ block);
    }
    product(
        &key.parts.hash_high,
        &key.parts.hash_low,
        y ^ text.len().wrapping_mul(8) as u128,
    )
}
