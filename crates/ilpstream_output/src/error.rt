//! Why a run ends early.

ghost use Rattle.std.specs.Prelude.{◌≡◌};
ghost use Rattle.ilpstream_output.specs.Errors.{fault_number};

use std::alloc::AllocError;
use thiserror::Error;

/// Why a run ends before its work is done.
#[derive(Clone, Copy, Debug, PartialEq, Eq, Error)]
pub enum Fault {
    /// The reader failed.
    #[error("the input could not be read")]
    Input,
    /// The writer failed.
    #[error("the output could not be written")]
    Output,
    /// The allowed number of reads and writes was used up.
    #[error("the turns ran out")]
    Turns,
    /// Memory for a line or for a text was refused.
    #[error("out of memory")]
    NoMemory,
}

impl Fault {
    /// The number of the fault, as the program prints it: 90, 91, 93 or 99.
    pub fn number(&self) -> u8
        ensures { result ≡ fault_number self.now }
    {
        match self {
            Fault::Input => 90,
            Fault::Output => 91,
            Fault::Turns => 93,
            Fault::NoMemory => 99,
        }
    }
}

ghost use Rattle.ilpstream_output.specs.declared.error.Fault.TheVariants.{NoMemory};

impl From<AllocError> for Fault {
    ghost from_gives = { λ _ e. e ≡ NoMemory };

    fn from(_error: AllocError) -> Fault {
        Fault::NoMemory
    }
}
