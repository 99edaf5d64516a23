//! Errors of the rings.

ghost use Rattle.std.specs.Prelude.{◌≡◌};
ghost use Rattle.st_queues.specs.Errors as errors;
ghost use Rattle.st_queues.specs.declared.error.QueueError.TheVariants.{NoMemory};

use std::alloc::{AllocError, Allocator};
use std::fmt;
use thiserror::Error;

/// Why a call failed. A chunk that could not be written is given back. An end that could not be written gives an empty
/// chunk.
#[derive(Drop, Error)]
pub enum QueueError<A: Allocator + Copy> {
    /// Memory that the call requested was refused.
    #[error("out of memory")]
    NoMemory,
    /// The ring has no room for an item.
    #[error("the ring is full")]
    Full(Vec<u8, A>),
    /// The chunk is empty or longer than `MAX_CHUNK`.
    #[error("the chunk is empty or too long")]
    BadLength(Vec<u8, A>),
    /// The writer has written its end.
    #[error("the writer has ended")]
    Ended(Vec<u8, A>),
}

impl<A: Allocator + Copy> QueueError<A> {
    /// The error number that programs print: 69 to 72.
    pub fn number(&self) -> u8
        ensures { result ≡ errors.number self.now }
    {
        match self {
            QueueError::NoMemory => 69,
            QueueError::Full(_) => 70,
            QueueError::BadLength(_) => 71,
            QueueError::Ended(_) => 72,
        }
    }

    /// The number of an inner error. These errors have none: always `None`.
    pub fn inner(&self) -> Option<u64>
        ensures { result ≡ errors.inner self.now }
    {
        None
    }
}

impl<A: Allocator + Copy> fmt::Debug for QueueError<A> {
    fn fmt<W: fmt::Write>(&self, f: &mut fmt::Formatter<W>) -> fmt::Result {
        write!(f, "refused {}", self.number())
    }
}

impl<A: Allocator + Copy> From<AllocError> for QueueError<A> {
    ghost from_gives = { λ _ e. e ≡ NoMemory };

    fn from(_error: AllocError) -> QueueError<A> {
        QueueError::NoMemory
    }
}
