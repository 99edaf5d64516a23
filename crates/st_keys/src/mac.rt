//! HMAC-SHA256 (RFC 2104).

ghost use Rattle.std.specs.Prelude.{◌≡◌, ◌++◌, ◌≤◌, length, drop};
ghost use Rattle.st_keys.specs.Mac.{block_key, with_pad, hmac};

use sha2::{Digest, Sha256};

/// The bytes of a block of SHA-256.
const BLOCK: usize = 64;

/// Writes bytes over the front.
fn put_front(out: &mut [u8], front: &[u8])
    requires { length front.now ≤ length out.old }
    ensures { out.new ≡ front.now ++ drop (length front.now) out.old }
{
    out[..front.len()].copy_from_slice(front);
}

/// A key as one block: a key longer than a block is hashed first, a shorter one is padded with zeros.
#[tactic(auto, unfolding(crate::specs::Mac::block_key))]
pub(crate) fn block_key(key: &[u8]) -> [u8; 64]
    ensures { result ≡ block_key key.now }
{
    let mut out = [0u8; BLOCK];
    if key.len() > BLOCK {
        let digest = Sha256::digest(key);
        put_front(&mut out, &digest);
    } else {
        put_front(&mut out, key);
    }
    out
}

fn with_pad(pad: u8, key: [u8; 64]) -> [u8; 64]
    ensures { result ≡ with_pad pad key }
{
    let mut out = key;
    for byte in out.iter_mut() {
        *byte ^= pad;
    }
    out
}

/// HMAC-SHA256 of a text (RFC 2104, section 2). The key may have any length.
#[tactic(auto, unfolding(crate::specs::Mac::hmac))]
pub fn hmac(key: &[u8], text: &[u8]) -> [u8; 32]
    ensures { result ≡ hmac key.now text.now }
{
    let key = block_key(key);
    let mut inner = Sha256::new();
    inner.update(with_pad(0x36, key));
    inner.update(text);
    let mut outer = Sha256::new();
    outer.update(with_pad(0x5c, key));
    outer.update(inner.finalize());
    outer.finalize()
}
