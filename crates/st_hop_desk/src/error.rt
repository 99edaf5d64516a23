//! The errors of a desk.

ghost use Rattle.std.specs.Prelude.{◌≡◌};
ghost use Rattle.st_hop_desk.specs.Errors as errors;
ghost use Rattle.st_hop_desk.specs.declared.error.DeskError.TheVariants.{NoMemory};

use std::alloc::AllocError;
use thiserror::Error;

/// Why a call of a desk failed. The desk is as it was before the call.
#[derive(Clone, Copy, Debug, PartialEq, Eq, Error)]
pub enum DeskError {
    /// 63 shares are outstanding, the most that a desk has.
    #[error("no share is left")]
    NoShareLeft,
    /// The ticket is not open at this desk.
    #[error("the ticket is not open here")]
    Stranger,
    /// An outstanding share was not given back.
    #[error("a share is missing")]
    MissingShare,
    /// Memory that the call asked for was refused.
    #[error("out of memory")]
    NoMemory,
}

impl DeskError {
    /// The error's number in the program's table of faults: 68, 73, 74 or 75.
    pub fn number(&self) -> u8
        ensures { result ≡ errors.number self.now }
    {
        match self {
            DeskError::NoShareLeft => 68,
            DeskError::Stranger => 73,
            DeskError::MissingShare => 74,
            DeskError::NoMemory => 75,
        }
    }

    /// The number of a wrapped error. A `DeskError` wraps none, so this is always `None`.
    pub fn inner(&self) -> Option<u64>
        ensures { result ≡ errors.inner self.now }
    {
        None
    }
}

impl From<AllocError> for DeskError {
    ghost from_gives = { λ _ e. e ≡ NoMemory };

    fn from(_error: AllocError) -> DeskError {
        DeskError::NoMemory
    }
}
