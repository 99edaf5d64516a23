//! Why a world could not be made or could not record an event.

ghost use Rattle.std.specs.Prelude.{◌≡◌};
ghost use Rattle.st_world.specs.Faults as faults;
ghost use Rattle.st_world.specs.declared.fault.Fault.TheVariants.{NoMemory};

use std::alloc::{AllocError, AllocFailed};
use thiserror::Error;

/// Why a world could not be made, or could not record an event.
#[derive(Clone, Copy, Debug, PartialEq, Eq, Error)]
pub enum Fault {
    /// Out of memory: memory for the world's own records was refused. The world is as before the event.
    #[error("out of memory")]
    NoMemory,
    /// There are more than `MAX_HOPS` hops, or the limits of one are not valid.
    #[error("no such chain")]
    BadChain,
}

impl Fault {
    /// The error's number: 77 or 78.
    pub fn number(&self) -> u8
        ensures { result ≡ faults.number self.now }
    {
        match self {
            Fault::NoMemory => 77,
            Fault::BadChain => 78,
        }
    }

    /// The number of an inner error: always `None`.
    pub fn inner(&self) -> Option<u64>
        ensures { result ≡ faults.inner self.now }
    {
        None
    }
}

impl From<AllocError> for Fault {
    ghost from_gives = { λ _ e. e ≡ NoMemory };

    fn from(_error: AllocError) -> Fault {
        Fault::NoMemory
    }
}

impl<T: Drop> From<AllocFailed<T>> for Fault {
    ghost from_gives = { λ _ e. e ≡ NoMemory };

    fn from(_error: AllocFailed<T>) -> Fault {
        Fault::NoMemory
    }
}
