//! Why a packet is rejected.

ghost use Rattle.std.specs.Prelude.{◌≡◌};
ghost use Rattle.st_receiver.specs.Reasons as reasons;
ghost use Rattle.st_receiver.specs.declared.reason.Reason.TheVariants.{NoMemory};

use st_reassembly::InboxError;
use std::alloc::{AllocError, AllocFailed};
use thiserror::Error;

/// Why a packet is rejected. `NoMemory` is also the error of a call that ran out of memory.
#[derive(Clone, Copy, Debug, PartialEq, Eq, Error)]
pub enum Reason {
    /// A Prepare with this packet's sequence was fulfilled before.
    #[error("the sequence was fulfilled before")]
    Repeated,
    /// The Prepare's amount is below the packet's prepare amount (RFC 0029, section 5.2).
    #[error("the amount is below the packet's least")]
    AmountTooSmall,
    /// The data end past the greatest offset, or past the window of the stream or of the connection.
    #[error("data end past a window")]
    FlowControl,
    /// A frame names a stream of number 0 or above 64, or one of this end's own that is not open.
    #[error("a stream has a number that the peer may not use")]
    StreamId,
    /// The amount has no stream to go to, or the sum of shares is above 2^64 - 1.
    #[error("the amount has no shares to go by")]
    NoShares,
    /// The credit of a stream would exceed its receive max, or that of the connection 2^63 - 1.
    #[error("the amount is past what may be received")]
    OverReceiveMax,
    /// The peer closed the connection.
    #[error("the connection is closed")]
    ConnectionClosed,
    /// Out of memory: memory was refused.
    #[error("out of memory")]
    NoMemory,
}

impl Reason {
    /// The reason's number: 60 to 67, in the order of the variants.
    pub fn number(&self) -> u8
        ensures { result ≡ reasons.number self.now }
    {
        match self {
            Reason::Repeated => 60,
            Reason::AmountTooSmall => 61,
            Reason::FlowControl => 62,
            Reason::StreamId => 63,
            Reason::NoShares => 64,
            Reason::OverReceiveMax => 65,
            Reason::ConnectionClosed => 66,
            Reason::NoMemory => 67,
        }
    }

    /// The number of an inner error: always `None`.
    pub fn inner(&self) -> Option<u64>
        ensures { result ≡ reasons.inner self.now }
    {
        None
    }

    /// The code of the Reject (RFC 0027): T00 for `NoMemory`, F99 for all others.
    pub fn code(&self) -> [u8; 3]
        ensures { result ≡ reasons.code_of self.now }
    {
        match self {
            Reason::NoMemory => *b"T00",
            _ => *b"F99",
        }
    }
}

impl From<AllocError> for Reason {
    ghost from_gives = { λ _ e. e ≡ NoMemory };

    fn from(_error: AllocError) -> Reason {
        Reason::NoMemory
    }
}

impl<T: Drop> From<AllocFailed<T>> for Reason {
    ghost from_gives = { λ _ e. e ≡ NoMemory };

    fn from(_error: AllocFailed<T>) -> Reason {
        Reason::NoMemory
    }
}
