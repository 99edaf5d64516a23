//! Errors of reading and writing ILP packets.

ghost use Rattle.std.specs.Prelude.{◌≡◌};
ghost use Rattle.st_ilp.specs.Errors.{number, inner, wrapped};
ghost use Rattle.st_ilp.specs.declared.error.IlpError.TheVariants.{NoMemory};

use st_oer::OerError;
use std::alloc::{AllocError, AllocFailed};
use thiserror::Error;

/// Why an ILP packet, or the text of an expiry, could not be read or written (RFC 0027).
#[derive(Clone, Copy, Debug, PartialEq, Eq, Error)]
pub enum IlpError {
    /// A field, or the octet string around the fields, has a malformed encoding (RFC 0030).
    #[error("bad spelling: {0}")]
    Oer(OerError),
    /// The packet is of a kind other than the requested one.
    #[error("the packet is of another kind")]
    Kind,
    /// An expiry is not a date and time of the years 0000 to 9999 in 17 digits.
    #[error("the expiry is no date and time")]
    Expiry,
    /// A destination, or a triggeredBy that is not empty, is not an ILP address (RFC 0015).
    #[error("an address is malformed")]
    Address,
    /// The data has more than 32,767 bytes, or a message that is to be written has more than 8,191.
    #[error("data or a message is too long")]
    DataTooLong,
    /// A message is not UTF-8.
    #[error("the message is not UTF-8")]
    NotUtf8,
    /// An error code has a character outside `!` to `~`.
    #[error("the code is malformed")]
    Code,
    /// Bytes follow the last field or the packet.
    #[error("bytes follow the last field or the packet")]
    Trailing,
    /// Memory for the packet's bytes was refused.
    #[error("out of memory")]
    NoMemory,
}

impl IlpError {
    /// The error number that programs print: 10 to 18.
    pub fn number(&self) -> u8
        ensures { result ≡ number self.now }
    {
        match self {
            IlpError::Oer(_) => 10,
            IlpError::Kind => 11,
            IlpError::Expiry => 12,
            IlpError::Address => 13,
            IlpError::DataTooLong => 14,
            IlpError::NotUtf8 => 15,
            IlpError::Code => 16,
            IlpError::Trailing => 17,
            IlpError::NoMemory => 18,
        }
    }

    /// The number of the encoding error that `Oer` carries, and `None` for every other error.
    pub fn inner(&self) -> Option<u64>
        ensures { result ≡ inner self.now }
    {
        match self {
            IlpError::Oer(error) => Some(u64::from(error.number())),
            IlpError::Kind
            | IlpError::Expiry
            | IlpError::Address
            | IlpError::DataTooLong
            | IlpError::NotUtf8
            | IlpError::Code
            | IlpError::Trailing
            | IlpError::NoMemory => None,
        }
    }
}

impl From<OerError> for IlpError {
    ghost from_gives = { λ fault e. e ≡ wrapped fault };

    fn from(fault: OerError) -> IlpError {
        match fault {
            OerError::NoMemory => IlpError::NoMemory,
            fault => IlpError::Oer(fault),
        }
    }
}

impl From<AllocError> for IlpError {
    ghost from_gives = { λ _ e. e ≡ NoMemory };

    fn from(_error: AllocError) -> IlpError {
        IlpError::NoMemory
    }
}

impl<T: Drop> From<AllocFailed<T>> for IlpError {
    ghost from_gives = { λ _ e. e ≡ NoMemory };

    fn from(_error: AllocFailed<T>) -> IlpError {
        IlpError::NoMemory
    }
}
