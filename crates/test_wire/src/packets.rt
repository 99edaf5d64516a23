//! Worked STREAM packets that are read; and written ones: each frame, none, and 300 of them while memory is refused.

use st_frames::{Frame, FrameError, PacketKind, read_packet, write_packet};
use std::alloc::{Allocator, Global};
use test_refusing::Refusing;

/// Kind 12, sequence 1, amount 0, one frame: StreamData, stream 1, offset 0, "hi".
const HI: &[u8; 17] = b"\x01\x0c\x01\x01\x01\0\x01\x01\x14\x07\x01\x01\x01\0\x02hi";

/// Kind 12, sequence 1, amount 0, one frame.
const HEAD: [u8; 8] = [0x01, 0x0c, 0x01, 0x01, 0x01, 0x00, 0x01, 0x01];

/// Whether bytes are a packet of kind 12, sequence 1 and amount 0 with this frame at this index and no other known frame.
fn says(bytes: &[u8], index: u64, frame: Frame<'_>) -> bool {
    let Ok(packet) = read_packet(bytes, PacketKind::Prepare) else {
        return false;
    };
    let mut frames = packet.frames;
    frames.next() == Some((index, frame))
        && frames.next() == None
        && (packet.sequence, packet.amount) == (1, 0)
}

#[test]
fn packets_are_read(rt: HostRuntime) {
    let hi = Frame::StreamData {
        stream: 1,
        offset: 0,
        bytes: b"hi",
    };
    let greatest = Frame::ConnectionMaxData {
        max_offset: u64::MAX,
    };
    let rows: [(&[u8], u64, Frame<'_>); 4] = [
        (HI, 0, hi),
        // bytes after the last frame
        (
            b"\x01\x0c\x01\x01\x01\0\x01\x01\x14\x07\x01\x01\x01\0\x02hi\xff\xff",
            0,
            hi,
        ),
        // an unknown frame in front
        (
            b"\x01\x0c\x01\x01\x01\0\x01\x02\x99\x01\0\x14\x07\x01\x01\x01\0\x02hi",
            1,
            hi,
        ),
        // a limit of nine bytes
        (
            b"\x01\x0c\x01\x01\x01\0\x01\x01\x03\x0a\x09\x01\0\0\0\0\0\0\0\0",
            0,
            greatest,
        ),
    ];
    for (bytes, index, frame) in rows {
        assert!(rt; says(bytes, index, frame), "{bytes:?}");
    }
}

/// Each frame type, and its bytes by RFC 0029, section 5.3.
fn samples() -> [(&'static [u8], Frame<'static>); 13] {
    [
        (
            b"\x01\x04\x01\x02\x6e\x6f",
            Frame::ConnectionClose {
                code: 1,
                message: "no",
            },
        ),
        (
            b"\x02\x04\x03\x67\x2e\x61",
            Frame::ConnectionNewAddress { address: "g.a" },
        ),
        (b"\x02\x01\0", Frame::ConnectionNewAddress { address: "" }),
        (
            b"\x03\x03\x02\x01\0",
            Frame::ConnectionMaxData { max_offset: 256 },
        ),
        (
            b"\x04\x02\x01\x7f",
            Frame::ConnectionDataBlocked { max_offset: 127 },
        ),
        (
            b"\x10\x04\x01\x01\x09\0",
            Frame::StreamClose {
                stream: 1,
                code: 9,
                message: "",
            },
        ),
        (
            b"\x10\x06\x01\x01\xff\x02\xc3\xa9",
            Frame::StreamClose {
                stream: 1,
                code: 255,
                message: "é",
            },
        ),
        (
            b"\x11\x04\x01\x03\x01\x80",
            Frame::StreamMoney {
                stream: 3,
                shares: 128,
            },
        ),
        (
            b"\x12\x07\x01\x02\x02\xff\xff\x01\0",
            Frame::StreamMaxMoney {
                stream: 2,
                receive_max: 65_535,
                total_received: 0,
            },
        ),
        (
            b"\x13\x0d\x01\x01\x08\xff\xff\xff\xff\xff\xff\xff\xff\x01\x05",
            Frame::StreamMoneyBlocked {
                stream: 1,
                send_max: u64::MAX,
                total_sent: 5,
            },
        ),
        (
            b"\x14\x07\x01\x01\x01\0\x02\x68\x69",
            Frame::StreamData {
                stream: 1,
                offset: 0,
                bytes: b"hi",
            },
        ),
        (
            b"\x15\x05\x01\x05\x02\x40\0",
            Frame::StreamMaxData {
                stream: 5,
                max_offset: 16_384,
            },
        ),
        (
            b"\x16\x04\x01\x40\x01\0",
            Frame::StreamDataBlocked {
                stream: 64,
                max_offset: 0,
            },
        ),
    ]
}

/// Whether a packet with one frame is written so, and read again.
fn is_both_ways(alloc: Global, bytes: &[u8], frame: Frame<'_>) -> bool {
    match write_packet(alloc, PacketKind::Prepare, 1, 0, &[frame]) {
        Ok(packet) => packet.starts_with(&HEAD)
            && packet.ends_with(bytes)
            && packet.len() == HEAD.len().saturating_add(bytes.len())
            && says(&packet, 0, frame),
        Err(_) => false,
    }
}

#[test]
fn each_frame_both_ways(rt: HostRuntime) {
    for (bytes, frame) in samples() {
        assert!(rt; is_both_ways(rt.alloc(), bytes, frame), "{bytes:?}");
    }
}

/// Whether a packet of another kind and without frames is written so.
fn is_written(alloc: Global, bytes: &[u8]) -> bool {
    match write_packet(alloc, PacketKind::Reject, 256, 1, &[]) {
        Ok(packet) => packet.as_slice() == bytes,
        Err(_) => false,
    }
}

/// How many frames a packet has that all allow nothing.
fn count(bytes: &[u8]) -> Option<u64> {
    let mut count = 0u64;
    for (_, frame) in read_packet(bytes, PacketKind::Prepare).ok()?.frames {
        if frame != (Frame::ConnectionMaxData { max_offset: 0 }) {
            return None;
        }
        count = count.saturating_add(1);
    }
    Some(count)
}

/// The length and the frames of a packet of 300.
fn many<A: Allocator>(alloc: A) -> Result<(usize, Option<u64>), FrameError> {
    let frames = [Frame::ConnectionMaxData { max_offset: 0 }; 300];
    match write_packet(alloc, PacketKind::Prepare, 1, 0, &frames) {
        Ok(bytes) => Ok((bytes.len(), count(&bytes))),
        Err(error) => Err(error),
    }
}

/// The one request that it makes is refused, and then not.
#[test]
fn packets_are_written_or_not(rt: HostRuntime) {
    sure!(&rt; is_written(rt.alloc(), b"\x01\x0e\x02\x01\0\x01\x01\x01\0"));
    let heap: Refusing<Global> = Refusing::new(rt.alloc());
    heap.refuse_only(1);
    sure!(&rt; many(&heap) == Err(FrameError::NoMemory));
    heap.refuse_from(2);
    sure!(&rt; many(&heap) == Ok((1_209, Some(300))));
}
