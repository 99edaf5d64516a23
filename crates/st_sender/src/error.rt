//! Why an outbox refuses a call.

ghost use Rattle.std.specs.Prelude.{◌≡◌};
ghost use Rattle.st_sender.specs.Errors as errors;
ghost use Rattle.st_sender.specs.declared.error.OutboxError.TheVariants.{NoMemory};

use st_streams::EndError;
use std::alloc::{AllocError, AllocFailed};
use thiserror::Error;

/// Why a call on an outbox was refused.
#[derive(Clone, Copy, Debug, PartialEq, Eq, Error)]
pub enum OutboxError {
    /// The stream is not open.
    #[error("the stream is not open")]
    NoStream,
    /// The stream was closed.
    #[error("the stream was closed")]
    Closed,
    /// More than `MAX_UNACKED` bytes of the stream would be unacknowledged, or 2^63 bytes or more be accepted in all.
    #[error("too many bytes are not acknowledged")]
    Full,
    /// The sum of all offers would be 2^63 or more.
    #[error("the offers come to too much")]
    AmountTooLarge,
    /// Out of memory: memory that the call asked for was refused.
    #[error("out of memory")]
    NoMemory,
}

impl OutboxError {
    /// The error's number: 50 to 54, in the order of the variants.
    pub fn number(&self) -> u8
        ensures { result ≡ errors.number self.now }
    {
        match self {
            OutboxError::NoStream => 50,
            OutboxError::Closed => 51,
            OutboxError::Full => 52,
            OutboxError::AmountTooLarge => 53,
            OutboxError::NoMemory => 54,
        }
    }

    /// The number of an inner error: always `None`.
    pub fn inner(&self) -> Option<u64>
        ensures { result ≡ errors.inner self.now }
    {
        None
    }
}

impl From<AllocError> for OutboxError {
    ghost from_gives = { λ _ e. e ≡ NoMemory };

    fn from(_error: AllocError) -> OutboxError {
        OutboxError::NoMemory
    }
}

impl<T: Drop> From<AllocFailed<T>> for OutboxError {
    ghost from_gives = { λ _ e. e ≡ NoMemory };

    fn from(_error: AllocFailed<T>) -> OutboxError {
        OutboxError::NoMemory
    }
}

impl From<OutboxError> for EndError {
    ghost from_gives = { λ fault e. e ≡ errors.wrapped fault };

    fn from(fault: OutboxError) -> EndError {
        match fault {
            OutboxError::NoStream => EndError::NoStream,
            OutboxError::Closed => EndError::Closed,
            OutboxError::Full => EndError::Full,
            OutboxError::AmountTooLarge => EndError::AmountTooLarge,
            OutboxError::NoMemory => EndError::NoMemory,
        }
    }
}
