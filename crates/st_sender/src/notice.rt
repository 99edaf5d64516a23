//! Frames about limits.

ghost use Rattle.std.specs.Prelude.{◌≡◌, false, MatchOption};
ghost use Rattle.st_frames.specs.Seen.{seen};
ghost use Rattle.st_sender.specs.Flights.{same_limit};
ghost use Rattle.st_sender.specs.ControlFrames.{is_limit};
ghost use Rattle.st_sender.specs.Shown.{telling};
ghost use Rattle.st_sender.specs.Stops.{stops_at};

use st_frames::Frame;
use st_streams::Blocked;

/// A frame about a limit (RFC 0029, section 5.3): a Blocked frame for a limit of the peer, which is sent in a packet of its
/// own, or the value of a limit of this end.
#[derive(Clone, Copy, Debug, PartialEq, Eq)]
pub enum Notice {
    /// Bytes wait beyond the peer's limit on the sum of the streams' ends, which is `max_offset`.
    ConnectionDataBlocked {
        max_offset: u64,
    },
    /// Bytes of a stream wait beyond the peer's limit on its offsets, which is `max_offset`.
    StreamDataBlocked {
        stream: u64,
        max_offset: u64,
    },
    /// Money of a stream waits beyond the peer's receive max. `total` is how much of the stream's money was fulfilled.
    StreamMoneyBlocked {
        stream: u64,
        receive_max: u64,
        total: u64,
    },
    /// This end's limit on the sum of the ends of the peer's streams.
    ConnectionMaxData {
        max_offset: u64,
    },
    /// This end's limit on the offsets of a stream.
    StreamMaxData {
        stream: u64,
        max_offset: u64,
    },
    /// This end's receive max of a stream, and in `total` how much was received, in units of this end's asset.
    StreamMaxMoney {
        stream: u64,
        receive_max: u64,
        total: u64,
    },
}

impl Notice {
    /// The limit of the peer that it reports. `None` if it reports one of this end.
    pub fn stops_at(self) -> Option<Blocked>
        ensures { result ≡ stops_at (telling self) }
    {
        match self {
            Notice::ConnectionDataBlocked { max_offset } => {
                Some(Blocked::Connection { max_offset })
            }
            Notice::StreamDataBlocked { stream, max_offset } => {
                Some(Blocked::Data { stream, max_offset })
            }
            Notice::StreamMoneyBlocked {
                stream,
                receive_max,
                total,
            } => Some(Blocked::Money {
                stream,
                receive_max,
                total,
            }),
            Notice::ConnectionMaxData { .. }
            | Notice::StreamMaxData { .. }
            | Notice::StreamMaxMoney { .. } => None,
        }
    }

    /// The limit that a frame carries. `None` for a frame that carries no limit.
    pub fn of_limit(frame: &Frame<'_>) -> Option<Notice>
        ensures { MatchOption result (is_limit (seen frame.now) ≡ false) (λ n. telling n ≡ seen frame.now) }
    {
        match *frame {
            Frame::ConnectionMaxData { max_offset } => {
                Some(Notice::ConnectionMaxData { max_offset })
            }
            Frame::StreamMaxData { stream, max_offset } => {
                Some(Notice::StreamMaxData { stream, max_offset })
            }
            Frame::StreamMaxMoney {
                stream,
                receive_max,
                total_received,
            } => Some(Notice::StreamMaxMoney {
                stream,
                receive_max,
                total: total_received,
            }),
            _ => None,
        }
    }

    /// The frame that is written for it.
    pub fn spelled<'a>(self) -> Frame<'a>
        ensures { seen result ≡ telling self }
    {
        match self {
            Notice::ConnectionDataBlocked { max_offset } => {
                Frame::ConnectionDataBlocked { max_offset }
            }
            Notice::StreamDataBlocked { stream, max_offset } => {
                Frame::StreamDataBlocked { stream, max_offset }
            }
            Notice::StreamMoneyBlocked {
                stream,
                receive_max,
                total,
            } => Frame::StreamMoneyBlocked {
                stream,
                send_max: receive_max,
                total_sent: total,
            },
            Notice::ConnectionMaxData { max_offset } => Frame::ConnectionMaxData { max_offset },
            Notice::StreamMaxData { stream, max_offset } => {
                Frame::StreamMaxData { stream, max_offset }
            }
            Notice::StreamMaxMoney {
                stream,
                receive_max,
                total,
            } => Frame::StreamMaxMoney {
                stream,
                receive_max,
                total_received: total,
            },
        }
    }

    /// Whether both carry the same limit of this end, whatever their values.
    pub fn tells_same(self, other: Notice) -> bool
        ensures { result ≡ same_limit (telling self) (telling other) }
    {
        match self {
            Notice::ConnectionMaxData { .. } => match other {
                Notice::ConnectionMaxData { .. } => true,
                _ => false,
            },
            Notice::StreamMaxData { stream: own, .. } => match other {
                Notice::StreamMaxData { stream, .. } => own == stream,
                _ => false,
            },
            Notice::StreamMaxMoney { stream: own, .. } => match other {
                Notice::StreamMaxMoney { stream, .. } => own == stream,
                _ => false,
            },
            _ => false,
        }
    }
}
