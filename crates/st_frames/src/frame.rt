//! The frames of a packet (RFC 0029, section 5.3).

/// A frame of one of the eleven types that this profile reads, with its fields in the order of RFC 0029, section 5.3.
///
/// Types 05, 06, 07 and 17 of the RFC are skipped as unknown frames. Texts and bytes are borrowed from the packet that
/// was read. A `max_offset`, `receive_max`, `send_max`, `total_received` or `total_sent` is `u64::MAX` if the packet
/// has a greater number.
#[derive(Clone, Copy, Debug, PartialEq, Eq)]
pub enum Frame<'a> {
    /// Type 01: the connection is closed.
    ConnectionClose {
        /// The error code (RFC 0029, section 5.3): 1 means no error.
        code: u8,
        /// A message for people. It may be empty.
        message: &'a str,
    },
    /// Type 02: the sender of the frame has another address from now on.
    ConnectionNewAddress {
        /// The ILP address (RFC 0015). An empty one changes nothing.
        address: &'a str,
    },
    /// Type 03: the most bytes that the sender of the frame accepts over the whole connection.
    ConnectionMaxData {
        /// The greatest sum of the highest offsets of all streams, in bytes.
        max_offset: u64,
    },
    /// Type 04: the sender of the frame has more bytes than the connection's limit allows.
    ConnectionDataBlocked {
        /// The sum of the highest offsets of all streams that it wants to reach, in bytes.
        max_offset: u64,
    },
    /// Type 10: a stream is closed.
    StreamClose {
        /// The stream number: odd if the client opened the stream, even if the server did.
        stream: u64,
        /// The error code (RFC 0029, section 5.3): 1 means no error.
        code: u8,
        /// A message for people. It may be empty.
        message: &'a str,
    },
    /// Type 11: a share of the packet's amount belongs to a stream.
    StreamMoney {
        /// The stream number.
        stream: u64,
        /// The stream gets the packet's amount times its shares, divided by the shares of all streams in the packet.
        shares: u64,
    },
    /// Type 12: the most money that the sender of the frame accepts on a stream.
    StreamMaxMoney {
        /// The stream number.
        stream: u64,
        /// The greatest total that it accepts on the stream, in units of its own asset.
        receive_max: u64,
        /// The total that it has received on the stream so far, in units of its own asset.
        total_received: u64,
    },
    /// Type 13: the sender of the frame has more money for a stream than the stream's limit allows.
    StreamMoneyBlocked {
        /// The stream number.
        stream: u64,
        /// The greatest total that it wants to send on the stream, in units of its own asset.
        send_max: u64,
        /// The total that it has sent on the stream so far, in units of its own asset.
        total_sent: u64,
    },
    /// Type 14: bytes of a stream.
    StreamData {
        /// The stream number.
        stream: u64,
        /// The offset of the first of the bytes in the stream, counted from 0.
        offset: u64,
        /// The bytes (field `data` in RFC 0029). There may be none.
        bytes: &'a [u8],
    },
    /// Type 15: the most bytes of a stream that the sender of the frame accepts.
    StreamMaxData {
        /// The stream number.
        stream: u64,
        /// The offset below which it accepts bytes.
        max_offset: u64,
    },
    /// Type 16: the sender of the frame has more bytes of a stream than the stream's limit allows.
    StreamDataBlocked {
        /// The stream number.
        stream: u64,
        /// The offset up to which it wants to send.
        max_offset: u64,
    },
}
