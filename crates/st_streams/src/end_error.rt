//! Why an end refuses a call.

ghost use Rattle.std.specs.Prelude.{◌≡◌};
ghost use Rattle.st_streams.specs.Errors as errors;
ghost use Rattle.st_streams.specs.declared.end_error.EndError.TheVariants.{NoMemory};

use std::alloc::{AllocError, AllocFailed};
use thiserror::Error;

/// Why a call on an end failed. The end is as before the call.
#[derive(Clone, Copy, Debug, PartialEq, Eq, Error)]
pub enum EndError {
    /// The stream is not open, or this end has no number left for one more.
    #[error("the stream is not open")]
    NoStream,
    /// The connection failed, and nothing is sent any more.
    #[error("the connection failed")]
    ConnectionFailed,
    /// The stream was closed or aborted, or the peer closed the connection.
    #[error("the stream was closed")]
    Closed,
    /// More than 262,144 bytes of the stream would be unacknowledged, or 2^63 bytes or more be accepted in all.
    #[error("too many bytes are not acknowledged")]
    Full,
    /// The sum of all offers would be 2^63 or more.
    #[error("the offers come to too much")]
    AmountTooLarge,
    /// Out of memory: memory that the call asked for was refused.
    #[error("out of memory")]
    NoMemory,
}

impl EndError {
    /// The error's number: 50 to 54, or 58.
    pub fn number(&self) -> u8
        ensures { result ≡ errors.number self.now }
    {
        match self {
            EndError::NoStream => 50,
            EndError::ConnectionFailed => 58,
            EndError::Closed => 51,
            EndError::Full => 52,
            EndError::AmountTooLarge => 53,
            EndError::NoMemory => 54,
        }
    }

    /// The number of an inner error: always `None`.
    pub fn inner(&self) -> Option<u64>
        ensures { result ≡ errors.inner self.now }
    {
        None
    }
}

impl From<AllocError> for EndError {
    ghost from_gives = { λ _ e. e ≡ NoMemory };

    fn from(_error: AllocError) -> EndError {
        EndError::NoMemory
    }
}

impl<T: Drop> From<AllocFailed<T>> for EndError {
    ghost from_gives = { λ _ e. e ≡ NoMemory };

    fn from(_error: AllocFailed<T>) -> EndError {
        EndError::NoMemory
    }
}
