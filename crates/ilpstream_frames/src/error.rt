//! Why a line of input is refused.

ghost use Rattle.std.specs.Prelude.{◌≡◌};
ghost use Rattle.ilpstream_frames.specs.Errors.{number, inner};

use st_frames::FrameError;
use st_reassembly::InboxError;
use thiserror::Error;

/// Why a line of `frames` is refused. A refused line changes nothing.
#[derive(Clone, Copy, Debug, PartialEq, Eq, Error)]
pub enum LineError {
    /// A character is not a hexadecimal digit, or the number of digits is odd.
    #[error("the line is not hexadecimal")]
    NotHex,
    /// The bytes are not the plain STREAM packet of a Prepare (RFC 0029).
    #[error("{0}")]
    Packet(FrameError),
    /// A StreamData frame names a stream outside 1 to 64.
    #[error("the stream's number is not within 1 to 64")]
    StreamId,
    /// The inbox of a stream refuses the bytes of a frame.
    #[error("{0}")]
    Inbox(InboxError),
}

impl LineError {
    /// The number of the refusal in the program's table: 95, 63, or that of the wrapped error.
    pub fn number(&self) -> u8
        ensures { result ≡ number self.now }
    {
        match self {
            LineError::NotHex => 95,
            LineError::Packet(e) => e.number(),
            LineError::StreamId => 63,
            LineError::Inbox(e) => e.number(),
        }
    }

    /// The number that the wrapped error carries, if there is one.
    pub fn inner(&self) -> Option<u64>
        ensures { result ≡ inner self.now }
    {
        match self {
            LineError::Packet(e) => e.inner(),
            LineError::Inbox(e) => e.inner(),
            LineError::NotHex | LineError::StreamId => None,
        }
    }
}

ghost use Rattle.ilpstream_frames.specs.declared.error.LineError.TheVariants.{Packet, Inbox};

impl From<FrameError> for LineError {
    ghost from_gives = { λ x e. e ≡ Packet x };

    fn from(error: FrameError) -> LineError {
        LineError::Packet(error)
    }
}

impl From<InboxError> for LineError {
    ghost from_gives = { λ x e. e ≡ Inbox x };

    fn from(error: InboxError) -> LineError {
        LineError::Inbox(error)
    }
}
