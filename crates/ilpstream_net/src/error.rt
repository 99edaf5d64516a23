//! The errors that end a command early.

ghost use Rattle.std.specs.Prelude.{◌≡◌};
ghost use Rattle.ilpstream_net.specs.Errors as errors;

use ilpstream_ledger::LedgerError;
use ilpstream_output::Fault;
use ilpstream_serving::TransferError;
use std::alloc::AllocError;
use thiserror::Error;

/// Why a command ended before its work was done.
#[derive(Clone, Copy, Debug, PartialEq, Eq, Error)]
pub enum RunError {
    /// The input or the output failed, the allowed number of I/O calls was used up, or memory was refused.
    #[error("{0}")]
    Fault(Fault),
    /// The file of random bytes cannot be opened.
    #[error("the file of random bytes cannot be opened")]
    NoRandom,
    /// The command cannot listen at the address.
    #[error("nothing can listen at the address")]
    NoListener,
    /// Memory for the hop of a connector was refused.
    #[error("out of memory")]
    NoHop,
    /// The table of a connector is bad.
    #[error("the table is bad")]
    BadTable,
    /// The text of an option is bad, or the file that it names for totals or events cannot be opened, or the file that has
    /// the token or the secret cannot be read or its first line is bad.
    #[error("an option is bad")]
    BadOption,
    /// The transfer failed.
    #[error("{0}")]
    Transfer(TransferError),
    /// The books cannot be used, or not with this table.
    #[error("{0}")]
    Ledger(LedgerError),
}

impl RunError {
    /// The number of the error, as the program prints it (`fault N`).
    pub fn number(&self) -> u8
        ensures { result ≡ errors.number self.now }
    {
        match self {
            RunError::Fault(fault) => fault.number(),
            RunError::NoRandom => 90,
            RunError::NoListener => 80,
            RunError::NoHop => 35,
            RunError::BadTable => 96,
            RunError::BadOption => 98,
            RunError::Transfer(error) => error.number(),
            RunError::Ledger(error) => error.number(),
        }
    }
}

ghost use Rattle.ilpstream_net.specs.declared.error.RunError.TheVariants.{Fault as IsFault, Ledger, Transfer};
ghost use Rattle.ilpstream_output.specs.declared.error.Fault.TheVariants.{NoMemory};

impl From<Fault> for RunError {
    ghost from_gives = { λ x e. e ≡ IsFault x };

    fn from(fault: Fault) -> RunError {
        RunError::Fault(fault)
    }
}

impl From<TransferError> for RunError {
    ghost from_gives = { λ x e. e ≡ Transfer x };

    fn from(error: TransferError) -> RunError {
        RunError::Transfer(error)
    }
}

impl From<LedgerError> for RunError {
    ghost from_gives = { λ x e. e ≡ Ledger x };

    fn from(error: LedgerError) -> RunError {
        RunError::Ledger(error)
    }
}

impl From<AllocError> for RunError {
    ghost from_gives = { λ _ e. e ≡ IsFault NoMemory };

    fn from(_error: AllocError) -> RunError {
        RunError::Fault(Fault::NoMemory)
    }
}
