//! A text that is encrypted and decrypted.

use st_aes::{Key, seal, unseal};

/// Encrypts a text where it lies, and decrypts it again: whether its tag was right.
fn there_and_back(text: &mut [u8]) -> bool {
    let key = Key::new([7; 32]);
    let tag = seal(&key, [1; 12], text);
    unseal(&key, [1; 12], tag, text)
}

#[test]
fn a_text_is_encrypted_and_decrypted(rt: HostRuntime) {
    let mut text = *b"a text of any length";
    sure!(&rt; there_and_back(&mut text));
    sure!(&rt; text == *b"a text of any length");
}
