//! Errors of a hop.

ghost use Rattle.std.specs.Prelude.{◌≡◌};
ghost use Rattle.st_hop.specs.Errors as errors;
ghost use Rattle.st_hop.specs.declared.error.HopError.TheVariants.{NoMemory};

use std::alloc::{AllocError, AllocFailed};
use thiserror::Error;

/// Why a call failed. The hop is as it was before the call.
#[derive(Clone, Copy, Debug, PartialEq, Eq, Error)]
pub enum HopError {
    /// The own address or a prefix is not an ILP address, a route names an account that does not exist, a prefix is
    /// given twice, or an account's limit is above 2^63 - 1.
    #[error("the table of accounts and routes is malformed")]
    BadTable,
    /// Memory that the call requested was refused. The Prepare can be answered with `t00`.
    #[error("out of memory")]
    NoMemory,
    /// There is no account with this index.
    #[error("no such account")]
    NoAccount,
    /// Not each account has a claim and a due, one owes more than its limit above its due, or a sum is above 2^63 - 1.
    #[error("the books are malformed")]
    BadBooks,
}

impl HopError {
    /// The error number that programs print: 34 to 37.
    pub fn number(&self) -> u8
        ensures { result ≡ errors.number self.now }
    {
        match self {
            HopError::BadTable => 34,
            HopError::NoMemory => 35,
            HopError::NoAccount => 36,
            HopError::BadBooks => 37,
        }
    }

    /// The number of an inner error. These errors have none: always `None`.
    pub fn inner(&self) -> Option<u64>
        ensures { result ≡ errors.inner self.now }
    {
        None
    }
}

impl From<AllocError> for HopError {
    ghost from_gives = { λ _ e. e ≡ NoMemory };

    fn from(_error: AllocError) -> HopError {
        HopError::NoMemory
    }
}

impl<T: Drop> From<AllocFailed<T>> for HopError {
    ghost from_gives = { λ _ e. e ≡ NoMemory };

    fn from(_error: AllocFailed<T>) -> HopError {
        HopError::NoMemory
    }
}
