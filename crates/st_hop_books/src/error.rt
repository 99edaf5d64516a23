//! Why books refuse.

ghost use Rattle.std.specs.Prelude.{◌≡◌};
ghost use Rattle.st_hop_books.specs.Errors as errors;
ghost use Rattle.st_hop_books.specs.declared.error.BooksError.TheVariants.{NoMemory, Device};

use sqlite_trees::error::StoreError;
use std::alloc::{AllocError, AllocFailed};
use std::io;
use thiserror::Error;

/// Why a call was refused. The books are as they were before the call.
#[derive(Clone, Copy, Debug, PartialEq, Eq, Error)]
pub enum BooksError {
    /// The file is not a database, or has other tables or rows than books.
    #[error("the file holds no books")]
    NoBooks,
    /// Another process has the file, or it cannot be opened.
    #[error("the file cannot be opened")]
    Taken,
    /// The disk failed.
    #[error("the disk failed")]
    Device,
    /// The disk is full.
    #[error("the disk is full")]
    Full,
    /// The file is damaged.
    #[error("the file is damaged")]
    Damaged,
    /// The disk failed before, so the books have to be opened again.
    #[error("the books are shut")]
    Shut,
    /// A booking or a payment names no account.
    #[error("there is no such account")]
    NoAccount,
    /// A sum would be above 2^63 - 1, the starts above 2^32 - 1, or a payment or its moment is above 2^63 - 1.
    #[error("a sum would be too large")]
    TooMuch,
    /// An account has this name already.
    #[error("an account has this name")]
    NameTaken,
    /// SQLite cannot store a line with this name: it has about a billion bytes.
    #[error("the name is too long")]
    BadName,
    /// Memory was refused.
    #[error("out of memory")]
    NoMemory,
    /// A payment is above what is owed on its side.
    #[error("less is owed than was paid")]
    TooLittle,
}

impl BooksError {
    /// The error's number in the program's table of faults: 110 to 121.
    pub fn number(&self) -> u8
        ensures { result ≡ errors.number self.now }
    {
        match self {
            BooksError::NoBooks => 110,
            BooksError::Taken => 111,
            BooksError::Device => 112,
            BooksError::Full => 113,
            BooksError::Damaged => 114,
            BooksError::Shut => 115,
            BooksError::NoAccount => 116,
            BooksError::TooMuch => 117,
            BooksError::NameTaken => 118,
            BooksError::BadName => 119,
            BooksError::NoMemory => 120,
            BooksError::TooLittle => 121,
        }
    }

    /// The number of a wrapped error. A `BooksError` wraps none, so this is always `None`.
    pub fn inner(&self) -> Option<u64>
        ensures { result ≡ errors.inner self.now }
    {
        None
    }
}

impl From<StoreError> for BooksError {
    ghost from_gives = { λ e told. told ≡ errors.told e };

    fn from(error: StoreError) -> BooksError {
        match error {
            StoreError::OutOfMemory => BooksError::NoMemory,
            StoreError::Io => BooksError::Device,
            StoreError::Corrupt => BooksError::Damaged,
            StoreError::Full => BooksError::Full,
            StoreError::Broken => BooksError::Shut,
            StoreError::Unstorable => BooksError::BadName,
        }
    }
}

impl From<io::Error> for BooksError {
    ghost from_gives = { λ _ e. e ≡ Device };

    fn from(_error: io::Error) -> BooksError {
        BooksError::Device
    }
}

impl From<AllocError> for BooksError {
    ghost from_gives = { λ _ e. e ≡ NoMemory };

    fn from(_error: AllocError) -> BooksError {
        BooksError::NoMemory
    }
}

impl<T: Drop> From<AllocFailed<T>> for BooksError {
    ghost from_gives = { λ _ e. e ≡ NoMemory };

    fn from(_error: AllocFailed<T>) -> BooksError {
        BooksError::NoMemory
    }
}
