mod vectors;

use st_lanes::{Keyed, digests};
use vectors::{
    DIGESTS, HASH_KEY_FIRST, HASHED_KEY, KEYED_HASHES, LARGER_TEXT, LETTERS, LETTERS_DIGEST,
    LONGER, TWO_BLOCKS,
};

/// In lanes, whose last blocks are at other places.
#[test]
fn eight_texts(rt: HostRuntime) {
    let texts: [&[u8]; 8] = [
        b"abc",
        b"",
        TWO_BLOCKS,
        LONGER,
        &LETTERS[..55],
        &LETTERS[..64],
        &LETTERS[..119],
        &LETTERS[..311],
    ];
    let mut out = [[0; 32]; 8];
    digests(&texts, &mut out);
    sure!(&rt; out == DIGESTS);
}

/// One after another, since the one is so long.
#[test]
fn a_long_text_and_nothing(rt: HostRuntime) {
    let texts: [&[u8]; 2] = [&LETTERS, b""];
    let mut out = [[0; 32]; 2];
    digests(&texts, &mut out);
    sure!(&rt; out == [LETTERS_DIGEST, DIGESTS[1]]);
}

fn key() -> Keyed {
    let mut key = [0; 64];
    key[..32].copy_from_slice(&HASHED_KEY);
    Keyed::of(key)
}

#[test]
fn five_texts_under_one_key(rt: HostRuntime) {
    let texts: [&[u8]; 5] = [
        HASH_KEY_FIRST,
        LARGER_TEXT,
        b"",
        &LETTERS[..119],
        &LETTERS[..120],
    ];
    let mut out = [[0; 32]; 5];
    key().hmacs(&texts, &mut out);
    sure!(&rt; out == KEYED_HASHES);
}

#[test]
fn two_texts_under_one_key(rt: HostRuntime) {
    let texts: [&[u8]; 2] = [HASH_KEY_FIRST, LARGER_TEXT];
    let mut out = [[0; 32]; 2];
    key().hmacs(&texts, &mut out);
    sure!(&rt; out == [KEYED_HASHES[0], KEYED_HASHES[1]]);
}
