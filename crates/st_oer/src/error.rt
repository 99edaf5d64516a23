//! Errors of reading and writing OER fields.

ghost use Rattle.std.specs.Prelude.{◌≡◌};
ghost use Rattle.st_oer.specs.Errors.{number, inner};
ghost use Rattle.st_oer.specs.declared.error.OerError.TheVariants.{NoMemory};

use std::alloc::{AllocError, AllocFailed};
use thiserror::Error;

/// Why a field could not be read or appended (RFC 0030).
#[derive(Clone, Copy, Debug, PartialEq, Eq, Error)]
pub enum OerError {
    /// The field goes past the end of the input.
    #[error("a field goes past the end")]
    Short,
    /// A length prefix is not written in the fewest bytes.
    #[error("a length is not in its shortest form")]
    LongLength,
    /// A number has no bytes, or is not written in the fewest bytes.
    #[error("a number is not in its shortest form")]
    LongNumber,
    /// A length prefix, or a number other than a limit, has more than eight bytes.
    #[error("a length or number takes more than eight bytes")]
    TooBig,
    /// Memory for the appended bytes was refused.
    #[error("out of memory")]
    NoMemory,
}

impl OerError {
    /// The error number that programs print: 1 to 5.
    pub fn number(&self) -> u8
        ensures { result ≡ number self.now }
    {
        match self {
            OerError::Short => 1,
            OerError::LongLength => 2,
            OerError::LongNumber => 3,
            OerError::TooBig => 4,
            OerError::NoMemory => 5,
        }
    }

    /// The number of an inner error. These errors have none: always `None`.
    pub fn inner(&self) -> Option<u64>
        ensures { result ≡ inner self.now }
    {
        None
    }
}

impl From<AllocError> for OerError {
    ghost from_gives = { λ _ e. e ≡ NoMemory };

    fn from(_error: AllocError) -> OerError {
        OerError::NoMemory
    }
}

impl<T: Drop> From<AllocFailed<T>> for OerError {
    ghost from_gives = { λ _ e. e ≡ NoMemory };

    fn from(_error: AllocFailed<T>) -> OerError {
        OerError::NoMemory
    }
}
