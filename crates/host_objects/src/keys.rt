//! The keys of a connection, for a host that seals and opens packets itself (RFC 0029).

ghost use Rattle.std.specs.Prelude.{◌≡◌, ◌≤◌, length, IsOkUnless, IfOk, OnOk, OnErr, Ok};
ghost use Rattle.st_aes.specs.Gcm.{tag, counter_mode};
ghost use Rattle.st_keys.specs.Keys.{keys_of, fulfillment};
ghost use Rattle.st_keys.specs.Sealed.{ciphertext_of, sealed, unsealed};
ghost use Rattle.host_objects.specs.KeyRings.{IsNewKeys, Unseals};

use st_aes::{Key, seal};
use st_keys::{KeyError, Keys, OVERHEAD, hmac};
use std::alloc::Global;
use std::marker::Model;

/// The keys of a connection, with the one that texts are sealed with.
#[derive(Drop)]
struct Sealer {
    keys: Keys,
    encryption: Key,
}

impl Model for Sealer {
    ghost use Rattle.std.specs.Prelude.{◌≡◌};
    ghost use Rattle.st_keys.specs.Keys.{DerivedKeys};

    ghost Value = { DerivedKeys };

    ghost view = { λ s. s.keys };

    ghost invariant = { λ s. s.encryption ≡ s.keys.encryption_key };
}

impl Sealer {
    #[tactic(auto, unfolding(st_keys::specs::Keys::keys_of))]
    fn of(secret: [u8; 32]) -> Sealer
        ensures { result ≡ keys_of secret }
    {
        Sealer {
            keys: Keys::of(secret),
            encryption: Key::new(hmac(&secret, b"ilp_stream_encryption")),
        }
    }

    /// Encrypts a text in place and gives its tag.
    fn seal_text(&self, iv: [u8; 12], text: &mut [u8]) -> [u8; 16]
        ensures text { text.new ≡ counter_mode self.now.encryption_key iv text.old }
        ensures tag { result ≡ tag self.now.encryption_key iv text.new }
    {
        seal(&self.encryption, iv, text)
    }

    /// Encrypts a text where it lies, from byte `OVERHEAD` on, and writes IV and tag in front of it.
    #[tactic(auto, unfolding(st_keys::specs::Sealed::sealed, st_keys::specs::Sealed::payload_of), using(std::proofs::Common::append_assoc))]
    fn seal_payload(&self, iv: [u8; 12], payload: &mut [u8])
        requires { OVERHEAD ≤ length payload.old }
        ensures { payload.new ≡ sealed self.now iv (ciphertext_of payload.old) }
    {
        let (front, text) = payload.split_at_mut(OVERHEAD);
        let (iv_place, tag_place) = front.split_at_mut(12);
        iv_place.copy_from_slice(&iv);
        tag_place.copy_from_slice(&self.seal_text(iv, text));
    }

    /// Decrypts a payload in place, and copies its text.
    fn unseal_text(&self, alloc: Global, payload: &mut [u8]) -> Result<Vec<u8>, KeyError>
        ensures { Unseals (λ text. text.items) (unsealed self.now payload.old) result }
    {
        self.keys.unseal_payload(payload)?;
        Ok(Vec::from_slice(alloc, &payload[OVERHEAD..])?)
    }

    fn fulfillment(&self, payload: &[u8]) -> [u8; 32]
        ensures { result ≡ fulfillment self.now payload.now }
    {
        self.keys.fulfillment(payload)
    }
}

/// The plain text after room for an IV and a tag.
fn with_overhead(alloc: Global, text: &[u8]) -> Result<Vec<u8>, KeyError>
    ensures only_memory { IsOkUnless result KeyError.NoMemory }
    ensures text { IfOk result (λ payload. ciphertext_of payload.items ≡ text.now) }
    ensures long { IfOk result (λ payload. OVERHEAD ≤ length payload.items) }
{
    let mut payload = Vec::with_capacity(alloc, text.len().saturating_add(OVERHEAD))?;
    payload.resize(OVERHEAD, 0)?;
    payload.extend_from_slice(text)?;
    Ok(payload)
}

/// The keys of a connection (RFC 0029), and what the last call returned.
#[derive(Drop)]
pub struct HostKeys {
    keys: Sealer,
    /// The bytes that the last call returned.
    pub output: Vec<u8>,
}

impl HostKeys {
    /// Derives the keys from a shared secret of 32 bytes. Does not allocate.
    pub fn new(alloc: Global, secret: [u8; 32]) -> HostKeys
        ensures { IsNewKeys (keys_of secret) result }
    {
        HostKeys {
            keys: Sealer::of(secret),
            output: Vec::new(alloc),
        }
    }

    /// Outputs the payload of a plain text: the IV, the tag and the ciphertext, `OVERHEAD` bytes more than the text. The text
    /// is not inspected. No two payloads of a connection may have the same IV.
    ///
    /// Fails with `NoMemory`; then nothing changes.
    pub fn seal(&mut self, alloc: Global, iv: [u8; 12], text: &[u8]) -> Result<(), KeyError>
        ensures only_memory { IsOkUnless result KeyError.NoMemory }
        ensures sealed { OnOk result (self.new.output.items ≡ sealed self.old.keys iv text.now) }
        ensures keys { self.new.keys ≡ self.old.keys }
        ensures unchanged { OnErr result (self.new ≡ self.old) }
    {
        let mut payload = with_overhead(alloc, text)?;
        self.keys.seal_payload(iv, &mut payload);
        self.output = payload;
        Ok(())
    }

    /// Outputs the plain text of a payload.
    ///
    /// Fails with `Short` if the payload has fewer bytes than `OVERHEAD`, with `Tag` if its tag does not match its
    /// ciphertext, and with `NoMemory`; then nothing changes.
    pub fn open(&mut self, alloc: Global, payload: &[u8]) -> Result<(), KeyError>
        ensures opened { Unseals (λ _. self.new.output.items) (unsealed self.old.keys payload.now) result }
        ensures keys { self.new.keys ≡ self.old.keys }
        ensures unchanged { OnErr result (self.new ≡ self.old) }
    {
        let mut copy = Vec::from_slice(alloc, payload)?;
        self.output = self.keys.unseal_text(alloc, &mut copy)?;
        Ok(())
    }

    /// The fulfillment of a Prepare whose data is this payload. Does not allocate.
    pub fn fulfillment(&self, payload: &[u8]) -> [u8; 32]
        ensures { result ≡ fulfillment self.now.keys payload.now }
    {
        self.keys.fulfillment(payload)
    }
}
