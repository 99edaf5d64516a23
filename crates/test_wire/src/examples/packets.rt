//! A STREAM packet that is read.

use st_frames::{Frame, FrameError, PacketKind, read_packet};

/// The bytes of the first StreamData frame in a packet that a Prepare carried, with the frame's index.
fn first_data(packet: &[u8]) -> Result<Option<(u64, &[u8])>, FrameError> {
    for (index, frame) in read_packet(packet, PacketKind::Prepare)?.frames {
        if let Frame::StreamData { bytes, .. } = frame {
            return Ok(Some((index, bytes)));
        }
    }
    Ok(None)
}

#[test]
fn a_packet_is_read(rt: HostRuntime) {
    let packet = b"\x01\x0c\x01\x01\x01\0\x01\x01\x14\x07\x01\x01\x01\0\x02hi";
    sure!(&rt; first_data(packet) == Ok(Some((0, b"hi".as_slice()))));
    sure!(&rt; first_data(b"\x02") == Err(FrameError::Version));
}
