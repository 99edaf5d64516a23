//! The keys that both ends derive from their shared secret (RFC 0029).

ghost use Rattle.std.specs.Prelude.{◌≡◌, ◌≤◌, ◌↔◌, IsTrue, length, map};
ghost use Rattle.std.specs.Bool.{OnTrue, OnFalse};
ghost use Rattle.st_aes.specs.Gcm.{tag, counter_mode};
ghost use Rattle.st_keys.specs.Keys.{keys_of, fulfillment, condition};

use crate::mac::{block_key, hmac};
use sha2::{Digest, Sha256};
use st_aes::{Key, seal, unseal};
use st_lanes::{Keyed, LANES};
use std::marker::Model;

/// The keys of a connection, derived once from its shared secret of 32 bytes (RFC 0029). The secret itself is not
/// stored.
#[derive(Drop)]
pub struct Keys {
    encryption: Key,
    fulfillment: [u8; 32],
    /// What HMAC-SHA256 has after the blocks of the fulfillment key, so that no call computes it again.
    keyed: Keyed,
}

impl Model for Keys {
    ghost use Rattle.st_keys.specs.Keys.{DerivedKeys};
    ghost use Rattle.st_keys.specs.Mac.{block_key};
    ghost use Rattle.st_lanes.specs.Mac.{IsKeyedBy};

    ghost Value = { DerivedKeys };

    ghost view = { λ k. record { encryption_key = k.encryption; fulfillment_key = k.fulfillment } };

    ghost invariant = { λ k. IsKeyedBy (block_key k.fulfillment) k.keyed };
}

impl Keys {
    /// Derives the keys from a shared secret of 32 bytes (RFC 0029).
    #[tactic(auto, unfolding(crate::specs::Keys::keys_of))]
    pub fn of(secret: [u8; 32]) -> Keys
        ensures { result ≡ keys_of secret }
    {
        let fulfillment = hmac(&secret, b"ilp_stream_fulfillment");
        Keys {
            encryption: Key::new(hmac(&secret, b"ilp_stream_encryption")),
            fulfillment,
            keyed: Keyed::of(block_key(&fulfillment)),
        }
    }

    /// Encrypts a text in place and gives its tag.
    pub(crate) fn seal_text(&self, iv: [u8; 12], text: &mut [u8]) -> [u8; 16]
        ensures text { text.new ≡ counter_mode self.now.encryption_key iv text.old }
        ensures tag { result ≡ tag self.now.encryption_key iv text.new }
    {
        seal(&self.encryption, iv, text)
    }

    /// Decrypts a text in place where `expected` is its tag.
    pub(crate) fn unseal_text(&self, iv: [u8; 12], expected: [u8; 16], text: &mut [u8]) -> bool
        ensures exact { IsTrue result ↔ (expected ≡ tag self.now.encryption_key iv text.old) }
        ensures opened { OnTrue result (text.new ≡ counter_mode self.now.encryption_key iv text.old) }
        ensures unchanged { OnFalse result (text.new ≡ text.old) }
    {
        unseal(&self.encryption, iv, expected, text)
    }

    /// The fulfillment of a Prepare with this payload (RFC 0029): the HMAC-SHA256 of the payload under the fulfillment
    /// key. The payload is the data as sent: IV, tag and ciphertext. Does not allocate.
    pub fn fulfillment(&self, payload: &[u8]) -> [u8; 32]
        ensures { result ≡ fulfillment self.now payload.now }
    {
        self.keyed.hmac(payload)
    }

    /// The fulfillments of the Prepares with these payloads (RFC 0029), each as `fulfillment` gives it, in the order of the
    /// payloads. Takes at most `LANES` payloads, of any lengths, and as many places. Does not allocate.
    ///
    /// They are computed side by side. So payloads of like lengths should be given together, and for one payload
    /// `fulfillment` takes less time.
    pub fn fulfillments(&self, payloads: &[&[u8]], out: &mut [[u8; 32]])
        requires few { length payloads.now ≤ LANES }
        requires places { length out.old ≡ length payloads.now }
        ensures { out.new ≡ map (fulfillment self.now) (map (λ p. p.now) payloads.now) }
    {
        self.keyed.hmacs(payloads, out);
    }
}

/// The condition of a fulfillment: its SHA-256 digest (RFC 0027).
pub fn condition(fulfillment: [u8; 32]) -> [u8; 32]
    ensures { result ≡ condition fulfillment }
{
    Sha256::digest(fulfillment)
}
