//! The errors with which `local` ends early.

ghost use Rattle.std.specs.Prelude.{◌≡◌};
ghost use Rattle.ilpstream_main.specs.Local as local;

use ilpstream_local::LocalFault;
use ilpstream_net::RunError;
use thiserror::Error;

/// Why `local` with a file for its totals ended before its work was done.
#[derive(Clone, Copy, Debug, PartialEq, Eq, Error)]
pub enum LocalError {
    /// Its totals have no place, or cannot be written.
    #[error("{0}")]
    Run(RunError),
    /// The run ended early.
    #[error("{0}")]
    Local(LocalFault),
    /// More Prepares were sent than the bound of the run.
    #[error("more Prepares were sent than the bound")]
    PastBound,
}

impl LocalError {
    /// The number of the error, as the program prints it (`fault N`).
    pub fn number(&self) -> u8
        ensures { result ≡ local.fault_number self.now }
    {
        match self {
            LocalError::Run(error) => error.number(),
            LocalError::Local(fault) => fault.number(),
            LocalError::PastBound => 126,
        }
    }
}
