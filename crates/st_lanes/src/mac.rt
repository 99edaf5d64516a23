//! HMAC-SHA256 (RFC 2104) of up to eight texts under one key.

ghost use Rattle.std.specs.Prelude.{◌≡◌, ℕ, List, ◌<◌, ◌≤◌, [], length, map, slice_index_or};
ghost use Rattle.sha2.specs.Sha256.{compress, digest_bytes, initial_hash_256};
ghost use Rattle.st_lanes.specs.Lanes.{lane, text};
ghost use Rattle.st_lanes.specs.Mac.{IsKeyedBy, hmac_under, with_pad};
ghost use Rattle.st_lanes.specs.Padded.{block_behind, digest_behind};

use crate::padding::padded_block;
use crate::rounds::compress;
use crate::texts::{INITIAL, LANES, digest_in, digests_behind, fill_lanes, in_each_lane, words_in};
use sha2::{Digest, Sha256};
use std::simd::u32x8;

/// What HMAC-SHA256 has after its key's blocks (RFC 2104, section 4): two hash values, and the kit's hashers with the same. The key
/// itself is not stored.
#[derive(Drop)]
pub struct Keyed {
    inner: [u32; 8],
    outer: [u32; 8],
    inner_hasher: Sha256,
    outer_hasher: Sha256,
}

/// A key with the same byte added to each of its bytes.
fn with_pad(pad: u8, key: [u8; 64]) -> [u8; 64]
    ensures { result ≡ with_pad pad key }
{
    let mut out = key;
    for byte in out.iter_mut() {
        *byte ^= pad;
    }
    out
}

/// The hash value after one block.
fn after(block: [u8; 64]) -> [u32; 8]
    ensures { result ≡ compress initial_hash_256 block }
{
    words_in(&compress(in_each_lane(INITIAL), &[block; 8]), 0)
}

/// The one block of each digest and its padding, for a digest after one block.
fn digest_blocks(digests: &[[u8; 32]]) -> [[u8; 64]; 8]
    requires { length digests.now ≤ LANES }
    ensures { (l : ℕ) → l < length digests.now → slice_index_or result l [] ≡ block_behind 64 (slice_index_or digests.now l []) 0 }
{
    let mut blocks = [[0; 64]; LANES];
    'lanes: for at in 0..digests.len() {
        blocks[at] = padded_block(&digests[at], 64, 0);
    }
    blocks
}

/// Writes the digest of each lane's hash value.
fn put_digests(states: &[u32x8; 8], out: &mut [[u8; 32]])
    requires { length out.old ≤ LANES }
    ensures each { (l : ℕ) → l < length out.old → slice_index_or out.new l [] ≡ digest_bytes (lane 8 states.now l) 8 }
    ensures places { length out.new ≡ length out.old }
{
    'lanes: for at in 0..out.len() {
        out[at] = digest_in(states, at);
    }
}

/// Puts in the place of each digest that of a message of one block, with the hash value `start`, and the digest.
fn close(start: [u32; 8], out: &mut [[u8; 32]])
    requires { length out.old ≤ LANES }
    ensures each { (l : ℕ) → l < length out.old → length (slice_index_or out.old l []) ≡ 32 → slice_index_or out.new l [] ≡ digest_behind start 64 (slice_index_or out.old l []) }
    ensures places { length out.new ≡ length out.old }
{
    let blocks = digest_blocks(out);
    let states = compress(in_each_lane(start), &blocks);
    put_digests(&states, out);
}

fn copied(hasher: &Sha256) -> Sha256
    ensures { result ≡ hasher.now }
{
    match hasher.clone() {
        Ok(copy) => copy,
        Err(_) => unreachable!(),
    }
}

impl Keyed {
    /// Of a key of one block. RFC 2104 says how other keys become one: a longer key is hashed, and zeros follow a shorter one.
    pub fn of(key: [u8; 64]) -> Keyed
        ensures { IsKeyedBy key result }
    {
        let inner = with_pad(0x36, key);
        let outer = with_pad(0x5c, key);
        Keyed {
            inner: after(inner),
            outer: after(outer),
            inner_hasher: Sha256::new_with_prefix(inner),
            outer_hasher: Sha256::new_with_prefix(outer),
        }
    }

    /// HMAC-SHA256 of a text under the key. Does not allocate.
    pub fn hmac(&self, text: &[u8]) -> [u8; 32]
        ensures { (key : List ℕ) → IsKeyedBy key self.now → result ≡ hmac_under key text.now }
    {
        let mut inner = copied(&self.inner_hasher);
        inner.update(text);
        let mut outer = copied(&self.outer_hasher);
        outer.update(inner.finalize());
        outer.finalize()
    }

    fn hmacs_in_lanes(&self, texts: &[&[u8]], out: &mut [[u8; 32]])
        requires few { length texts.now ≤ LANES }
        requires places { length out.old ≡ length texts.now }
        ensures { (key : List ℕ) → IsKeyedBy key self.now → out.new ≡ map (hmac_under key) (map (λ t. t.now) texts.now) }
    {
        digests_behind(self.inner, 64, texts, out);
        close(self.outer, out);
    }

    fn hmacs_in_turn(&self, texts: &[&[u8]], out: &mut [[u8; 32]])
        requires places { length out.old ≡ length texts.now }
        ensures { (key : List ℕ) → IsKeyedBy key self.now → out.new ≡ map (hmac_under key) (map (λ t. t.now) texts.now) }
    {
        'turns: for at in 0..texts.len() {
            out[at] = self.hmac(texts[at]);
        }
    }

    /// HMAC-SHA256 of each text under the key. Takes at most `LANES` texts, of any lengths, and as many places. Does not allocate.
    ///
    /// As with `digests`, texts of like lengths should be given together.
    pub fn hmacs(&self, texts: &[&[u8]], out: &mut [[u8; 32]])
        requires few { length texts.now ≤ LANES }
        requires places { length out.old ≡ length texts.now }
        ensures { (key : List ℕ) → IsKeyedBy key self.now → out.new ≡ map (hmac_under key) (map (λ t. t.now) texts.now) }
    {
        if fill_lanes(texts) {
            self.hmacs_in_lanes(texts, out);
        } else {
            self.hmacs_in_turn(texts, out);
        }
    }
}
