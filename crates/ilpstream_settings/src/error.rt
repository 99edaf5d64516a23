//! The errors of reading a connector's table.

ghost use Rattle.std.specs.Prelude.{◌≡◌};
ghost use Rattle.ilpstream_settings.specs.Errors as errors;
ghost use Rattle.ilpstream_settings.specs.declared.error.TableError.TheVariants.{NoMemory};

use std::alloc::{AllocError, AllocFailed};
use thiserror::Error;

/// Why a text is not a table.
#[derive(Clone, Copy, Debug, PartialEq, Eq, Error)]
pub enum TableError {
    /// A line is not empty, and is neither an account nor a route.
    #[error("a line is neither an account nor a route")]
    BadLine,
    /// Two accounts have one name: the same `NAME=`, or one has the number of an account that has no name.
    #[error("two accounts have one name")]
    SameName,
    /// Memory that the call asked for was refused.
    #[error("out of memory")]
    NoMemory,
}

impl TableError {
    /// The error's number in the program's table of faults: 96 or 99.
    pub fn number(&self) -> u8
        ensures { result ≡ errors.number self.now }
    {
        match self {
            TableError::BadLine | TableError::SameName => 96,
            TableError::NoMemory => 99,
        }
    }
}

impl From<AllocError> for TableError {
    ghost from_gives = { λ _ e. e ≡ NoMemory };

    fn from(_error: AllocError) -> TableError {
        TableError::NoMemory
    }
}

impl<T: Drop> From<AllocFailed<T>> for TableError {
    ghost from_gives = { λ _ e. e ≡ NoMemory };

    fn from(_error: AllocFailed<T>) -> TableError {
        TableError::NoMemory
    }
}
