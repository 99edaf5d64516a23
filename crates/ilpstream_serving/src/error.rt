//! The errors of `send`, `receive` and `connector`.

ghost use Rattle.std.specs.Prelude.{◌≡◌};
ghost use Rattle.ilpstream_serving.specs.Errors as errors;
ghost use Rattle.ilpstream_serving.specs.declared.error.TransferError.TheVariants.{File, NoMemory};

use st_file::FileError;
use st_hop_desk::DeskError;
use st_streams::EndError;
use std::alloc::{AllocError, AllocFailed};
use thiserror::Error;

/// Why `send_on`, `receive_on` or `connector_on` did not succeed.
#[derive(Clone, Copy, Debug, PartialEq, Eq, Error)]
pub enum TransferError {
    /// The connection failed: the largest allowed number of exchanges in a row brought no Fulfill.
    #[error("the connection failed")]
    Failed,
    /// No Prepare is in flight, and the limits that the peer set let nothing of the rest be sent.
    #[error("no limit of the peer lets the rest go")]
    Stalled,
    /// Memory for the rings of the end's streams was refused.
    #[error("out of memory")]
    Rings,
    /// The listener gave no connection.
    #[error("no connection could be accepted")]
    Accept,
    /// The allowed number of connections, or of the workers' rounds, was used up.
    #[error("the turns were used up")]
    Turns,
    /// No valid request arrived for as long as the receiver's patience lasts.
    #[error("no request arrived in time")]
    Silent,
    /// The source of IVs failed, or ended.
    #[error("no IV was given")]
    IvFault,
    /// Memory that the command asked for itself was refused.
    #[error("out of memory")]
    NoMemory,
    /// The end of the connection refused a call.
    #[error("{0}")]
    End(EndError),
    /// The hop refused a call.
    #[error("{0}")]
    Desk(DeskError),
    /// The input was not read whole, or the output not written whole.
    #[error("{0}")]
    File(FileError),
    /// The books refused a booking with this number.
    #[error("the books refused a booking")]
    Books(u8),
}

impl TransferError {
    /// The error's number in the program's table of faults. For `End`, `Desk` and `File` it is that of the wrapped
    /// error, and for `Books` that of the books.
    pub fn number(&self) -> u8
        ensures { result ≡ errors.number self.now }
    {
        match self {
            TransferError::Failed => 58,
            TransferError::Stalled => 59,
            TransferError::Rings => 69,
            TransferError::Accept => 80,
            TransferError::Turns => 86,
            TransferError::Silent => 88,
            TransferError::IvFault => 90,
            TransferError::NoMemory => 99,
            TransferError::End(error) => error.number(),
            TransferError::Desk(error) => error.number(),
            TransferError::File(error) => error.number(),
            TransferError::Books(number) => *number,
        }
    }

    /// The number that a wrapped error carries, for example the bytes written before it. `None` if there is none.
    pub fn inner(&self) -> Option<u64>
        ensures { result ≡ errors.inner self.now }
    {
        match self {
            TransferError::End(error) => error.inner(),
            TransferError::Desk(error) => error.inner(),
            TransferError::File(error) => error.inner(),
            _ => None,
        }
    }
}

impl From<FileError> for TransferError {
    ghost from_gives = { λ cause e. e ≡ File cause };

    fn from(error: FileError) -> TransferError {
        TransferError::File(error)
    }
}

impl From<AllocError> for TransferError {
    ghost from_gives = { λ _ e. e ≡ NoMemory };

    fn from(_error: AllocError) -> TransferError {
        TransferError::NoMemory
    }
}

impl<T: Drop> From<AllocFailed<T>> for TransferError {
    ghost from_gives = { λ _ e. e ≡ NoMemory };

    fn from(_error: AllocFailed<T>) -> TransferError {
        TransferError::NoMemory
    }
}
