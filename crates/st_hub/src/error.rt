//! The errors of a hub.

ghost use Rattle.std.specs.Prelude.{◌≡◌};
ghost use Rattle.st_hub.specs.Errors as errors;
ghost use Rattle.st_hub.specs.declared.error.HubError.TheVariants.{NoMemory};

use std::alloc::AllocError;
use thiserror::Error;

/// Why a call of a hub failed.
#[derive(Clone, Copy, Debug, PartialEq, Eq, Error)]
pub enum HubError {
    /// No stream of this number is open.
    #[error("the stream is not open")]
    NoStream,
    /// 63 shares are outstanding, the most that a hub has.
    #[error("no share is left")]
    NoShareLeft,
    /// The `Turn` is not open at this hub.
    #[error("the turn is not open here")]
    Stranger,
    /// An outstanding share was not given back.
    #[error("a share is missing")]
    MissingShare,
    /// Memory that the call asked for was refused.
    #[error("out of memory")]
    NoMemory,
    /// All eight writers of the stream were handed out.
    #[error("the stream has eight writers")]
    EightWriters,
    /// Each writer of the stream that was handed out has ended.
    #[error("the stream is closed")]
    WriterTooLate,
}

impl HubError {
    /// The error's number in the program's table of faults: 50, 68, 73 to 76, or 79.
    pub fn number(&self) -> u8
        ensures { result ≡ errors.number self.now }
    {
        match self {
            HubError::NoStream => 50,
            HubError::NoShareLeft => 68,
            HubError::Stranger => 73,
            HubError::MissingShare => 74,
            HubError::NoMemory => 75,
            HubError::EightWriters => 76,
            HubError::WriterTooLate => 79,
        }
    }

    /// The number of a wrapped error. A `HubError` wraps none, so this is always `None`.
    pub fn inner(&self) -> Option<u64>
        ensures { result ≡ errors.inner self.now }
    {
        None
    }
}

impl From<AllocError> for HubError {
    ghost from_gives = { λ _ e. e ≡ NoMemory };

    fn from(_error: AllocError) -> HubError {
        HubError::NoMemory
    }
}
