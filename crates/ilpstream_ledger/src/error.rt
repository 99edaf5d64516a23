//! Why a ledger ends a command.

ghost use Rattle.std.specs.Prelude.{◌≡◌};
ghost use Rattle.ilpstream_ledger.specs.Errors as errors;
ghost use Rattle.ilpstream_ledger.specs.declared.error.LedgerError.TheVariants as ledger;

use st_hop_books::BooksError;
use std::alloc::{AllocError, AllocFailed};
use thiserror::Error;

/// Why the books of a file cannot be used, or cannot be used with a table.
#[derive(Clone, Copy, Debug, PartialEq, Eq, Error)]
pub enum LedgerError {
    /// The books have an account that the table lacks, and something is owed there.
    #[error("the table lacks an account of the books at which something is owed")]
    Unlisted,
    /// An account owes more than its limit in the table and what it is owed.
    #[error("an account owes more than its limit")]
    BelowOwed,
    /// Another amount has the reference, or the same one the other way round.
    #[error("another entry has this reference")]
    Reused,
    /// The books refused.
    #[error("{0}")]
    Books(BooksError),
    /// Memory was refused.
    #[error("out of memory")]
    NoMemory,
}

impl LedgerError {
    /// The error's number in the program's table of faults: 122, 123, 125, that of the books' refusal, or 99.
    pub fn number(&self) -> u8
        ensures { result ≡ errors.number self.now }
    {
        match self {
            LedgerError::Unlisted => 122,
            LedgerError::BelowOwed => 123,
            LedgerError::Reused => 125,
            LedgerError::Books(error) => error.number(),
            LedgerError::NoMemory => 99,
        }
    }

    /// The number that a wrapped error carries. `None` if there is none.
    pub fn inner(&self) -> Option<u64>
        ensures { result ≡ errors.inner self.now }
    {
        match self {
            LedgerError::Books(error) => error.inner(),
            _ => None,
        }
    }
}

impl From<BooksError> for LedgerError {
    ghost from_gives = { λ cause e. e ≡ ledger.Books cause };

    fn from(error: BooksError) -> LedgerError {
        LedgerError::Books(error)
    }
}

impl From<AllocError> for LedgerError {
    ghost from_gives = { λ _ e. e ≡ ledger.NoMemory };

    fn from(_error: AllocError) -> LedgerError {
        LedgerError::NoMemory
    }
}

impl<T: Drop> From<AllocFailed<T>> for LedgerError {
    ghost from_gives = { λ _ e. e ≡ ledger.NoMemory };

    fn from(_error: AllocFailed<T>) -> LedgerError {
        LedgerError::NoMemory
    }
}
