//! Sealed packets: what memory sealing asks for, and what opening leaves of a payload.

use st_frames::{Frame, FrameError, PacketKind};
use st_keys::{KeyError, Keys};
use std::alloc::Global;
use std::test::Fail;
use test_refusing::Refusing;

const IV: [u8; 12] = [0, 1, 2, 3, 4, 5, 6, 7, 8, 9, 10, 11];

/// "hi" of stream 1 at offset 0.
const HI: Frame<'static> = Frame::StreamData {
    stream: 1,
    offset: 0,
    bytes: b"hi",
};

/// Sequence 1, amount 0 and that frame, sealed for the secret of 32 zero bytes under `IV`, by `AESGCM` of the package
/// `cryptography` (48.0.0) of Python.
const SEALED: [u8; 45] = [
    0x00, 0x01, 0x02, 0x03, 0x04, 0x05, 0x06, 0x07, 0x08, 0x09, 0x0a, 0x0b, 0x61, 0x79, 0x74, 0xab,
    0x7c, 0xe4, 0x26, 0xcb, 0xcc, 0xb8, 0x20, 0x37, 0x6e, 0x5f, 0x43, 0xd5, 0x22, 0x61, 0xcc, 0xc4,
    0xa8, 0xfb, 0xbc, 0xea, 0xc7, 0x77, 0xfa, 0x2d, 0x32, 0xae, 0x95, 0xa6, 0x2f,
];

/// Its IV and tag, and then the packet by RFC 0029, section 5.
const OPENED: [u8; 45] = [
    0x00, 0x01, 0x02, 0x03, 0x04, 0x05, 0x06, 0x07, 0x08, 0x09, 0x0a, 0x0b, 0x61, 0x79, 0x74, 0xab,
    0x7c, 0xe4, 0x26, 0xcb, 0xcc, 0xb8, 0x20, 0x37, 0x6e, 0x5f, 0x43, 0xd5, 0x01, 0x0c, 0x01, 0x01,
    0x01, 0x00, 0x01, 0x01, 0x14, 0x07, 0x01, 0x01, 0x01, 0x00, 0x02, 0x68, 0x69,
];

/// The empty text, sealed so.
const EMPTY: [u8; 28] = [
    0x00, 0x01, 0x02, 0x03, 0x04, 0x05, 0x06, 0x07, 0x08, 0x09, 0x0a, 0x0b, 0x91, 0x9c, 0xe2, 0xaa,
    0x62, 0x6c, 0xe3, 0xe6, 0x76, 0xdd, 0xcf, 0xb0, 0xf2, 0xa8, 0xe0, 0xdf,
];

/// How sealing these frames is refused, if it is.
fn refusal(heap: &Refusing<Global>, keys: &Keys, frames: &[Frame<'_>]) -> Option<KeyError> {
    keys.seal_packet(heap, IV, PacketKind::Prepare, 1, 0, frames)
        .err()
}

/// The one request that sealing makes is refused, and then not.
#[test]
fn a_packet_is_sealed_or_not(rt: HostRuntime) {
    let heap: Refusing<Global> = Refusing::new(rt.alloc());
    let keys = Keys::of([0; 32]);
    heap.refuse_only(1);
    sure!(&rt; refusal(&heap, &keys, &[HI]) == Some(KeyError::NoMemory));
    sure!(&rt; KeyError::NoMemory.number() == 33);
    heap.refuse_from(2);
    let sealed = keys.seal_packet(&heap, IV, PacketKind::Prepare, 1, 0, &[HI]);
    let payload = sealed.expect(&rt, "it is sealed");
    sure!(&rt; (heap.asked(), payload.capacity()) == (1, 45));
    sure!(&rt; payload.as_slice() == SEALED.as_slice());
}

/// Opening leaves IV and tag as they were, and the text after them.
#[test]
fn what_opening_leaves(rt: HostRuntime) -> Result<(), Fail> {
    let keys = Keys::of([0; 32]);
    let mut payload = SEALED;
    sure!(&rt; keys.open_packet(&mut payload, PacketKind::Prepare)?.sequence == 1);
    sure!(&rt; payload == OPENED);
    Ok(())
}

/// The same if the text is not a packet of its kind, also if it is empty.
#[test]
fn what_a_refused_packet_leaves(rt: HostRuntime) {
    let keys = Keys::of([0; 32]);
    let mut payload = SEALED;
    let refused = keys.open_packet(&mut payload, PacketKind::Fulfill).err();
    sure!(&rt; refused == Some(KeyError::Packet(FrameError::Kind)));
    sure!(&rt; payload == OPENED);
    let mut empty = EMPTY;
    let refused = keys.open_packet(&mut empty, PacketKind::Prepare).err();
    sure!(&rt; refused.map(|e| (e.number(), e.inner())) == Some((32, Some(22))));
    sure!(&rt; empty == EMPTY);
}

/// One with a wrong byte in its IV, its tag or its ciphertext is left as it was.
#[test]
fn what_a_wrong_tag_leaves(rt: HostRuntime) {
    let keys = Keys::of([0; 32]);
    for wrong in 0..45usize {
        let mut payload = SEALED;
        payload[wrong] ^= 1;
        let before = payload;
        let refused = keys.open_packet(&mut payload, PacketKind::Prepare).err();
        assert!(rt; refused == Some(KeyError::Tag), "at {wrong}");
        assert!(rt; payload == before, "at {wrong}");
    }
}
