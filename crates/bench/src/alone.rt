//! What an end does to each packet's bytes, alone.

use st_frames::{Frame, PacketKind};
use st_keys::{KeyError, Keys, condition};
use std::alloc::Global;

/// Seals and opens a packet of these bytes: whether it is the same packet.
fn seal_one(alloc: Global, keys: &Keys, piece: &[u8], number: u64) -> Result<bool, KeyError> {
    let data = Frame::StreamData {
        stream: 1,
        offset: 0,
        bytes: piece,
    };
    let mut iv = [0; 12];
    iv[4..].copy_from_slice(&number.to_be_bytes());
    let mut payload = keys.seal_packet(alloc, iv, PacketKind::Prepare, number, 0, &[data])?;
    let packet = keys.open_packet(&mut payload, PacketKind::Prepare)?;
    Ok(packet.sequence == number)
}

/// Seals and opens `packets` packets of these bytes: how many were opened.
pub(crate) fn seal_again(alloc: Global, piece: &[u8], packets: u64) -> Result<u64, KeyError> {
    let keys = Keys::of([7; 32]);
    let mut opened = 0_u64;
    for number in 0..packets {
        if seal_one(alloc, &keys, piece, number)? {
            opened = opened.saturating_add(1);
        }
    }
    Ok(opened)
}

/// Hashes these bytes a given number of times as the two ends do, once at the sender and once at the receiver, and gives the
/// last condition.
pub(crate) fn hash_again(piece: &[u8], packets: u64) -> [u8; 32] {
    let keys = Keys::of([7; 32]);
    let mut last = [0; 32];
    for _ in 0..packets {
        for _ in 0..2 {
            last = condition(keys.fulfillment(piece));
        }
    }
    last
}
