//! Errors of sealing and opening payloads.

ghost use Rattle.std.specs.Prelude.{◌≡◌};
ghost use Rattle.st_keys.specs.Errors.{number, inner, wrapped};
ghost use Rattle.st_keys.specs.declared.error.KeyError.TheVariants.{NoMemory};

use st_frames::FrameError;
use std::alloc::AllocError;
use thiserror::Error;

/// Why a payload could not be sealed or opened (RFC 0029).
#[derive(Clone, Copy, Debug, PartialEq, Eq, Error)]
pub enum KeyError {
    /// The payload is shorter than an IV and a tag: 28 bytes.
    #[error("the payload is too short for an IV and a tag")]
    Short,
    /// The tag does not match the ciphertext.
    #[error("the payload's tag is wrong")]
    Tag,
    /// The plain packet could not be read or written.
    #[error("{0}")]
    Packet(FrameError),
    /// Memory for the payload was refused.
    #[error("out of memory")]
    NoMemory,
}

impl KeyError {
    /// The error number that programs print: 30 to 33.
    pub fn number(&self) -> u8
        ensures { result ≡ number self.now }
    {
        match self {
            KeyError::Short => 30,
            KeyError::Tag => 31,
            KeyError::Packet(_) => 32,
            KeyError::NoMemory => 33,
        }
    }

    /// The number of the error that `Packet` carries, and `None` for every other error.
    pub fn inner(&self) -> Option<u64>
        ensures { result ≡ inner self.now }
    {
        match self {
            KeyError::Packet(fault) => Some(u64::from(fault.number())),
            _ => None,
        }
    }
}

impl From<FrameError> for KeyError {
    ghost from_gives = { λ fault e. e ≡ wrapped fault };

    fn from(fault: FrameError) -> KeyError {
        match fault {
            FrameError::NoMemory => KeyError::NoMemory,
            fault => KeyError::Packet(fault),
        }
    }
}

impl From<AllocError> for KeyError {
    ghost from_gives = { λ _ e. e ≡ NoMemory };

    fn from(_error: AllocError) -> KeyError {
        KeyError::NoMemory
    }
}
