mod vectors;

use st_aes::{Key, block, seal, unseal};
use vectors::case_15;

/// Byte i is `first + step * i` modulo 256.
fn rising<const N: usize>(first: u8, step: u8) -> [u8; N] {
    let mut bytes = [0u8; N];
    let mut next = first;
    for i in 0..N {
        bytes[i] = next;
        next = next.wrapping_add(step);
    }
    bytes
}

/// FIPS 197, appendix C.3.
#[test]
fn block_of_the_standard(rt: HostRuntime) {
    let key = Key::new(rising(0, 1));
    sure!(&rt;
        block(&key, rising(0x00, 0x11))
            == [ 0x8e, 0xa2, 0xb7, 0xca, 0x51, 0x67, 0x45, 0xbf, 0xea, 0xfc, 0x49, 0x90, 0x4b, 0x49, 0x60, 0x89, ]
    );
}

/// Test cases 13 and 14 of the GCM submission: key and IV are zero.
#[test]
fn zero_key(rt: HostRuntime) {
    let key = Key::new([0; 32]);
    let tag = seal(&key, [0; 12], &mut []);
    sure!(&rt;
        tag
            == [ 0x53, 0x0f, 0x8a, 0xfb, 0xc7, 0x45, 0x36, 0xb9, 0xa9, 0x63, 0xb4, 0xf1, 0xc4, 0xcb, 0x73, 0x8b, ]
    );
    let mut text = [0u8; 16];
    let tag = seal(&key, [0; 12], &mut text);
    sure!(&rt;
        text
            == [ 0xce, 0xa7, 0x40, 0x3d, 0x4d, 0x60, 0x6b, 0x6e, 0x07, 0x4e, 0xc5, 0xd3, 0xba, 0xf3, 0x9d, 0x18, ]
    );
    sure!(&rt;
        tag
            == [ 0xd0, 0xd1, 0xc8, 0xa7, 0x99, 0x99, 0x6b, 0xf0, 0x26, 0x5b, 0x98, 0xb5, 0xd4, 0x8a, 0xb9, 0x19, ]
    );
    sure!(&rt; unseal(&key, [0; 12], tag, &mut text));
    sure!(&rt; text == [0u8; 16]);
}

/// A tag that is wrong in its last byte alone leaves the bytes, also if there are none.
#[test]
fn wrong_tag(rt: HostRuntime) {
    let key = Key::new([0; 32]);
    let mut tag = seal(&key, [0; 12], &mut []);
    sure!(&rt; tag[15] == 0x8b);
    tag[15] = 0x8a;
    sure!(&rt; !unseal(&key, [0; 12], tag, &mut []));

    let mut text = [0u8; 16];
    let mut tag = seal(&key, [0; 12], &mut text);
    let sealed = text;
    tag[15] ^= 1;
    sure!(&rt; !unseal(&key, [0; 12], tag, &mut text));
    sure!(&rt; text == sealed);
}

#[test]
fn case_of_the_submission(rt: HostRuntime) {
    let key = Key::new(case_15::KEY);
    let mut text = case_15::TEXT;
    let tag = seal(&key, case_15::IV, &mut text);
    sure!(&rt; text == case_15::CIPHERTEXT);
    sure!(&rt; tag == case_15::TAG);
}
