mod vectors;

use st_keys::{Keys, condition, hmac};
use vectors::{
    CONDITION, FULFILLMENT, FULFILLMENTS, HI_THERE, JEFE, KEY_OF_64, KEY_OF_65, LARGER_KEY,
    LARGER_TEXT, LETTERS, OF_65, OF_119, PAYLOAD, TEXT,
};

const SECRET: [u8; 32] = [0; 32];

#[test]
fn keyed_hashes(rt: HostRuntime) {
    sure!(&rt; hmac(b"Jefe", b"what do ya want for nothing?") == JEFE);
    sure!(&rt; hmac(&[0x0b; 20], b"Hi There") == HI_THERE);
    let larger = [0xaa; 131];
    sure!(&rt; hmac(
            &larger,
            b"Test Using Larger Than Block-Size Key - Hash Key First"
        ) == LARGER_KEY);
    sure!(&rt; hmac(
            &larger,
            b"This is a test using a larger than block-size key and a larger than block-size data. The key needs to be hashed before being used by the HMAC algorithm."
        ) == LARGER_TEXT);
    sure!(&rt; hmac(&[0xaa; 64], b"Hi There") == KEY_OF_64);
    sure!(&rt; hmac(&[0xaa; 65], b"Hi There") == KEY_OF_65);
}

#[test]
fn fulfillment_of_a_payload(rt: HostRuntime) {
    let fulfillment = Keys::of(SECRET).fulfillment(&PAYLOAD);
    sure!(&rt; fulfillment == FULFILLMENT);
    sure!(&rt; condition(fulfillment) == CONDITION);
}

/// One after another, since the last is so long.
#[test]
fn fulfillments_of_eight_lengths(rt: HostRuntime) {
    let payloads: [&[u8]; 8] = [
        b"",
        &LETTERS[..1],
        &LETTERS[..55],
        &LETTERS[..56],
        &LETTERS[..63],
        &LETTERS[..64],
        &LETTERS[..65],
        &LETTERS,
    ];
    let mut out = [[0; 32]; 8];
    Keys::of(SECRET).fulfillments(&payloads, &mut out);
    sure!(&rt; out == FULFILLMENTS);
}

/// In lanes, whose last blocks are at other places.
#[test]
fn fulfillments_of_eight_like_lengths(rt: HostRuntime) {
    let payloads: [&[u8]; 8] = [
        b"",
        &LETTERS[..1],
        &LETTERS[..55],
        &LETTERS[..56],
        &LETTERS[..63],
        &LETTERS[..64],
        &LETTERS[..65],
        &LETTERS[..119],
    ];
    let mut out = [[0; 32]; 8];
    Keys::of(SECRET).fulfillments(&payloads, &mut out);
    let mut expected = FULFILLMENTS;
    expected[7] = OF_119;
    sure!(&rt; out == expected);
}

/// In five of the lanes.
#[test]
fn fulfillments_of_one_length(rt: HostRuntime) {
    let payloads: [&[u8]; 5] = [
        &TEXT[..65],
        &TEXT[1..66],
        &TEXT[2..67],
        &TEXT[3..68],
        &TEXT[4..69],
    ];
    let mut out = [[0; 32]; 5];
    Keys::of(SECRET).fulfillments(&payloads, &mut out);
    sure!(&rt; out == OF_65);
}

#[test]
fn fulfillments_of_one_and_of_none(rt: HostRuntime) {
    let keys = Keys::of(SECRET);
    let mut out = [[0; 32]; 1];
    keys.fulfillments(&[&PAYLOAD], &mut out);
    sure!(&rt; out == [FULFILLMENT]);
    keys.fulfillments(&[], &mut []);
}
