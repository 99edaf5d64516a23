//! A STREAM packet that is sealed and opened.

use st_keys::{Frame, KeyError, Keys, PacketKind};
use std::alloc::Global;

/// Seals "hi", the first bytes of stream 1, for an ILP Prepare, and opens the payload as the peer does, who has the secret.
fn is_heard(secret: [u8; 32], iv: [u8; 12], alloc: Global) -> Result<bool, KeyError> {
    let hi = Frame::StreamData {
        stream: 1,
        offset: 0,
        bytes: b"hi",
    };
    let mut payload = Keys::of(secret).seal_packet(alloc, iv, PacketKind::Prepare, 1, 0, &[hi])?;
    let packet = Keys::of(secret).open_packet(&mut payload, PacketKind::Prepare)?;
    Ok(packet.frames.again().next() == Some((0, hi)))
}

#[test]
fn a_packet_is_sealed_and_opened(rt: HostRuntime) -> Result<(), std::test::Fail> {
    sure!(&rt; is_heard([7; 32], [0; 12], rt.alloc())?);
    Ok(())
}
