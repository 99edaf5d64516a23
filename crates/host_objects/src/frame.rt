//! A frame of a STREAM packet whose texts and bytes are its own.

ghost use Rattle.std.specs.Prelude.{◌≡◌, IfOk};
ghost use Rattle.st_frames.specs.Seen.{seen};
ghost use Rattle.host_objects.specs.Packets.{kept};

use st_frames::Frame;
use std::alloc::{AllocError, Global};

/// A frame of one of the eleven known types (RFC 0029, section 5.3), as `st_frames::Frame` has them, whose texts and
/// bytes are its own.
#[derive(Drop)]
pub enum KeptFrame {
    /// Type 01.
    ConnectionClose {
        code: u8,
        message: String,
    },
    /// Type 02.
    ConnectionNewAddress {
        address: String,
    },
    /// Type 03.
    ConnectionMaxData {
        max_offset: u64,
    },
    /// Type 04.
    ConnectionDataBlocked {
        max_offset: u64,
    },
    /// Type 10.
    StreamClose {
        stream: u64,
        code: u8,
        message: String,
    },
    /// Type 11.
    StreamMoney {
        stream: u64,
        shares: u64,
    },
    /// Type 12.
    StreamMaxMoney {
        stream: u64,
        receive_max: u64,
        total_received: u64,
    },
    /// Type 13.
    StreamMoneyBlocked {
        stream: u64,
        send_max: u64,
        total_sent: u64,
    },
    /// Type 14.
    StreamData {
        stream: u64,
        offset: u64,
        bytes: Vec<u8>,
    },
    /// Type 15.
    StreamMaxData {
        stream: u64,
        max_offset: u64,
    },
    /// Type 16.
    StreamDataBlocked {
        stream: u64,
        max_offset: u64,
    },
}

impl KeptFrame {
    /// A copy of a frame. Fails if memory is refused.
    pub fn of(alloc: Global, frame: Frame<'_>) -> Result<KeptFrame, AllocError>
        ensures { IfOk result (λ k. kept k ≡ seen frame.entry) }
    {
        Ok(match frame {
            Frame::ConnectionClose { code, message } => KeptFrame::ConnectionClose {
                code,
                message: String::from_str(alloc, message)?,
            },
            Frame::ConnectionNewAddress { address } => KeptFrame::ConnectionNewAddress {
                address: String::from_str(alloc, address)?,
            },
            Frame::ConnectionMaxData { max_offset } => KeptFrame::ConnectionMaxData { max_offset },
            Frame::ConnectionDataBlocked { max_offset } => {
                KeptFrame::ConnectionDataBlocked { max_offset }
            }
            Frame::StreamClose {
                stream,
                code,
                message,
            } => KeptFrame::StreamClose {
                stream,
                code,
                message: String::from_str(alloc, message)?,
            },
            Frame::StreamMoney { stream, shares } => KeptFrame::StreamMoney { stream, shares },
            Frame::StreamMaxMoney {
                stream,
                receive_max,
                total_received,
            } => KeptFrame::StreamMaxMoney {
                stream,
                receive_max,
                total_received,
            },
            Frame::StreamMoneyBlocked {
                stream,
                send_max,
                total_sent,
            } => KeptFrame::StreamMoneyBlocked {
                stream,
                send_max,
                total_sent,
            },
            Frame::StreamData {
                stream,
                offset,
                bytes,
            } => KeptFrame::StreamData {
                stream,
                offset,
                bytes: Vec::from_slice(alloc, bytes)?,
            },
            Frame::StreamMaxData { stream, max_offset } => {
                KeptFrame::StreamMaxData { stream, max_offset }
            }
            Frame::StreamDataBlocked { stream, max_offset } => {
                KeptFrame::StreamDataBlocked { stream, max_offset }
            }
        })
    }

    /// The same frame, whose texts and bytes are lent.
    pub fn lent(&self) -> Frame<'_>
        ensures { seen result ≡ kept self.now }
    {
        match self {
            KeptFrame::ConnectionClose { code, message } => Frame::ConnectionClose {
                code: *code,
                message: message.as_str(),
            },
            KeptFrame::ConnectionNewAddress { address } => Frame::ConnectionNewAddress {
                address: address.as_str(),
            },
            KeptFrame::ConnectionMaxData { max_offset } => Frame::ConnectionMaxData {
                max_offset: *max_offset,
            },
            KeptFrame::ConnectionDataBlocked { max_offset } => Frame::ConnectionDataBlocked {
                max_offset: *max_offset,
            },
            KeptFrame::StreamClose {
                stream,
                code,
                message,
            } => Frame::StreamClose {
                stream: *stream,
                code: *code,
                message: message.as_str(),
            },
            KeptFrame::StreamMoney { stream, shares } => Frame::StreamMoney {
                stream: *stream,
                shares: *shares,
            },
            KeptFrame::StreamMaxMoney {
                stream,
                receive_max,
                total_received,
            } => Frame::StreamMaxMoney {
                stream: *stream,
                receive_max: *receive_max,
                total_received: *total_received,
            },
            KeptFrame::StreamMoneyBlocked {
                stream,
                send_max,
                total_sent,
            } => Frame::StreamMoneyBlocked {
                stream: *stream,
                send_max: *send_max,
                total_sent: *total_sent,
            },
            KeptFrame::StreamData {
                stream,
                offset,
                bytes,
            } => Frame::StreamData {
                stream: *stream,
                offset: *offset,
                bytes: bytes.as_slice(),
            },
            KeptFrame::StreamMaxData { stream, max_offset } => Frame::StreamMaxData {
                stream: *stream,
                max_offset: *max_offset,
            },
            KeptFrame::StreamDataBlocked { stream, max_offset } => Frame::StreamDataBlocked {
                stream: *stream,
                max_offset: *max_offset,
            },
        }
    }
}
