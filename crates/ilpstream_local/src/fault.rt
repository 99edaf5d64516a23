//! Why a run ends before its work is done.

ghost use Rattle.std.specs.Prelude.{◌≡◌};
ghost use Rattle.ilpstream_local.specs.Errors.{fault_number};
ghost use Rattle.ilpstream_local.specs.declared.fault.LocalFault.TheVariants.{NoMemory};

use std::alloc::{AllocError, AllocFailed};
use thiserror::Error;

/// Why a run ends before its work is done.
#[derive(Clone, Copy, Debug, PartialEq, Eq, Error)]
pub enum LocalFault {
    /// The connection failed: too many Prepares in a row had no Fulfill.
    #[error("the connection failed")]
    Failed,
    /// The input has more than `MAX_BYTES` bytes.
    #[error("the input is too long")]
    TooLong,
    /// The reader failed.
    #[error("the input could not be read")]
    Input,
    /// The writer failed.
    #[error("the output could not be written")]
    Output,
    /// The limit of I/O calls was reached: too many reads and writes.
    #[error("the turns ran out")]
    Turns,
    /// There were `MAX_EVENTS` events, and not everything was read.
    #[error("there were too many events")]
    Events,
    /// Out of memory: memory was refused.
    #[error("out of memory")]
    NoMemory,
}

impl LocalFault {
    /// The error's number, which the command prints after `fault`.
    pub fn number(&self) -> u8
        ensures { result ≡ fault_number self.now }
    {
        match self {
            LocalFault::Failed => 58,
            LocalFault::TooLong => 84,
            LocalFault::Input => 90,
            LocalFault::Output => 91,
            LocalFault::Turns => 93,
            LocalFault::Events => 97,
            LocalFault::NoMemory => 99,
        }
    }
}

impl From<AllocError> for LocalFault {
    ghost from_gives = { λ _ e. e ≡ NoMemory };

    fn from(_error: AllocError) -> LocalFault {
        LocalFault::NoMemory
    }
}

impl<T: Drop> From<AllocFailed<T>> for LocalFault {
    ghost from_gives = { λ _ e. e ≡ NoMemory };

    fn from(_error: AllocFailed<T>) -> LocalFault {
        LocalFault::NoMemory
    }
}
