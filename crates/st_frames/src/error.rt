//! Errors of reading and writing STREAM packets.

ghost use Rattle.std.specs.Prelude.{◌≡◌};
ghost use Rattle.st_frames.specs.Errors.{number, inner, wrapped};
ghost use Rattle.st_frames.specs.declared.error.FrameError.TheVariants.{NoMemory};

use st_oer::OerError;
use std::alloc::AllocError;
use thiserror::Error;

/// Why a STREAM packet could not be read or written (RFC 0029).
#[derive(Clone, Copy, Debug, PartialEq, Eq, Error)]
pub enum FrameError {
    /// The first byte, the version, is not 1.
    #[error("the packet is of another version of STREAM")]
    Version,
    /// The second byte is not the kind of the ILP packet that carried the packet.
    #[error("the packet is of another kind than the ILP packet that carried it")]
    Kind,
    /// A number of the packet, a frame's type or a frame's length is malformed (RFC 0030).
    #[error("the packet is malformed: {0}")]
    Oer(OerError),
    /// The contents of a known frame are malformed. The number is its index over all frames, from 0.
    #[error("frame {0} is malformed")]
    FrameFormat(u64),
    /// The packet has more than `MAX_PACKET` bytes.
    #[error("the packet is too long")]
    TooLong,
    /// Memory for the packet was refused.
    #[error("out of memory")]
    NoMemory,
}

impl FrameError {
    /// The error number that programs print: 20 to 25.
    pub fn number(&self) -> u8
        ensures { result ≡ number self.now }
    {
        match self {
            FrameError::Version => 20,
            FrameError::Kind => 21,
            FrameError::Oer(_) => 22,
            FrameError::FrameFormat(_) => 23,
            FrameError::TooLong => 24,
            FrameError::NoMemory => 25,
        }
    }

    /// The number of the error that `Oer` carries, or the frame index that `FrameFormat` carries. `None` for every
    /// other error.
    pub fn inner(&self) -> Option<u64>
        ensures { result ≡ inner self.now }
    {
        match self {
            FrameError::Oer(fault) => Some(u64::from(fault.number())),
            FrameError::FrameFormat(index) => Some(*index),
            _ => None,
        }
    }
}

impl From<AllocError> for FrameError {
    ghost from_gives = { λ _ e. e ≡ NoMemory };

    fn from(_error: AllocError) -> FrameError {
        FrameError::NoMemory
    }
}

impl From<OerError> for FrameError {
    ghost from_gives = { λ fault e. e ≡ wrapped fault };

    fn from(fault: OerError) -> FrameError {
        match fault {
            OerError::NoMemory => FrameError::NoMemory,
            fault => FrameError::Oer(fault),
        }
    }
}
