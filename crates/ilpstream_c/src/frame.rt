//! Frames of a STREAM packet (RFC 0029, section 5.3), as a host passes and receives them.

ghost use Rattle.std.specs.Prelude.{◌≡◌, ◌<◌, true, false, MatchOption, option_map};
ghost use Rattle.st_frames.specs.Seen.{seen};
ghost use Rattle.ilpstream_c.specs.Handles.{is_byte};
ghost use Rattle.ilpstream_c.specs.Frames as specs;

use st_frames::Frame;
use st_oer::utf8;

/// A frame's type, stream, numbers and code. The first and the second number are those that follow the stream number,
/// in the order of RFC 0029, section 5.3. What the type of a frame does not have is 0.
#[repr(C)]
#[derive(Clone, Copy, Debug, Drop)]
pub struct HostFrame {
    pub stream: u64,
    pub first: u64,
    pub second: u64,
    pub kind: u32,
    pub code: u32,
}

/// A frame's type, stream, numbers and code, for a host.
pub(crate) fn fields_of(frame: Frame<'_>) -> HostFrame
    ensures { result ≡ specs.fields (seen frame.entry) }
{
    let (kind, stream, first, second, code) = match frame {
        Frame::ConnectionClose { code, .. } => (0x01, 0, 0, 0, code),
        Frame::ConnectionNewAddress { .. } => (0x02, 0, 0, 0, 0),
        Frame::ConnectionMaxData { max_offset } => (0x03, 0, max_offset, 0, 0),
        Frame::ConnectionDataBlocked { max_offset } => (0x04, 0, max_offset, 0, 0),
        Frame::StreamClose { stream, code, .. } => (0x10, stream, 0, 0, code),
        Frame::StreamMoney { stream, shares } => (0x11, stream, shares, 0, 0),
        Frame::StreamMaxMoney {
            stream,
            receive_max,
            total_received,
        } => (0x12, stream, receive_max, total_received, 0),
        Frame::StreamMoneyBlocked {
            stream,
            send_max,
            total_sent,
        } => (0x13, stream, send_max, total_sent, 0),
        Frame::StreamData { stream, offset, .. } => (0x14, stream, offset, 0, 0),
        Frame::StreamMaxData { stream, max_offset } => (0x15, stream, max_offset, 0, 0),
        Frame::StreamDataBlocked { stream, max_offset } => (0x16, stream, max_offset, 0, 0),
    };
    HostFrame {
        stream,
        first,
        second,
        kind,
        code: u32::from(code),
    }
}

/// A frame's text, address or data. No bytes if its type has none.
pub(crate) fn data_of(frame: Frame<'_>) -> &[u8]
    ensures { result.now ≡ specs.data_of (seen frame.entry) }
{
    match frame {
        Frame::ConnectionClose { message, .. } | Frame::StreamClose { message, .. } => {
            message.as_bytes()
        }
        Frame::ConnectionNewAddress { address } => address.as_bytes(),
        Frame::StreamData { bytes, .. } => bytes,
        _ => &[],
    }
}

/// A number as a byte. `None` exactly if it is above 255.
pub(crate) fn byte(number: u32) -> Option<u8>
    ensures { MatchOption result (is_byte number ≡ false) (λ byte. (is_byte number ≡ true) × (byte ≡ number)) }
{
    u8::try_from(number).ok()
}

/// The frame of a host's fields and data, which may have values that its type does not have.
#[tactic(auto, unfolding(crate::specs::Frames::frame_with))]
fn frame_with<'d>(given: &HostFrame, bytes: &'d [u8]) -> Option<Frame<'d>>
    ensures { option_map seen result ≡ specs.frame_with given.now bytes.now }
{
    let HostFrame {
        stream,
        first,
        second,
        kind,
        code,
    } = *given;
    let frame = match kind {
        0x01 => Frame::ConnectionClose {
            code: byte(code)?,
            message: utf8(bytes)?,
        },
        0x02 => Frame::ConnectionNewAddress {
            address: utf8(bytes)?,
        },
        0x03 => Frame::ConnectionMaxData { max_offset: first },
        0x04 => Frame::ConnectionDataBlocked { max_offset: first },
        0x10 => Frame::StreamClose {
            stream,
            code: byte(code)?,
            message: utf8(bytes)?,
        },
        0x11 => Frame::StreamMoney {
            stream,
            shares: first,
        },
        0x12 => Frame::StreamMaxMoney {
            stream,
            receive_max: first,
            total_received: second,
        },
        0x13 => Frame::StreamMoneyBlocked {
            stream,
            send_max: first,
            total_sent: second,
        },
        0x14 => Frame::StreamData {
            stream,
            offset: first,
            bytes,
        },
        0x15 => Frame::StreamMaxData {
            stream,
            max_offset: first,
        },
        0x16 => Frame::StreamDataBlocked {
            stream,
            max_offset: first,
        },
        _ => return None,
    };
    Some(frame)
}

/// Whether a frame has all that a host gave.
fn has_all(given: &HostFrame, bytes: &[u8], frame: Frame<'_>) -> bool
    ensures { result ≡ specs.has_all given.now bytes.now (seen frame.entry) }
{
    let HostFrame {
        stream,
        first,
        second,
        kind: _,
        code,
    } = fields_of(frame);
    given.stream == stream
        && given.first == first
        && given.second == second
        && given.code == code
        && bytes.len() == data_of(frame).len()
}

/// The frame of a host's fields and data. `None` exactly if the type is not known, a value is given that the type does not
/// have, the code is above 255, or a message or an address is not UTF-8.
pub(crate) fn frame_given<'d>(given: &HostFrame, bytes: &'d [u8]) -> Option<Frame<'d>>
    ensures { option_map seen result ≡ specs.frame_given given.now bytes.now }
{
    let frame = frame_with(given, bytes)?;
    if has_all(given, bytes, frame) {
        Some(frame)
    } else {
        None
    }
}
