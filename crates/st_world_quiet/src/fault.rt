//! Why a lossless run could not be played.

ghost use Rattle.std.specs.Prelude.{◌≡◌};
ghost use Rattle.st_world_quiet.specs.Faults as faults;

use thiserror::Error;

/// Why a lossless run could not be played, or not to its end.
#[derive(Clone, Copy, Debug, PartialEq, Eq, Error)]
pub enum Fault {
    /// Out of memory: memory for the world's records was refused.
    #[error("out of memory")]
    NoMemory,
    /// There are no streams, more than 32 streams, or not one amount for each stream.
    #[error("not 1 to 32 streams with an amount for each")]
    BadInput,
}

impl Fault {
    /// The error's number: 77 or 78.
    pub fn number(&self) -> u8
        ensures { result ≡ faults.number self.now }
    {
        match self {
            Fault::NoMemory => 77,
            Fault::BadInput => 78,
        }
    }

    /// The number of an inner error: always `None`.
    pub fn inner(&self) -> Option<u64>
        ensures { result ≡ faults.inner self.now }
    {
        None
    }
}
