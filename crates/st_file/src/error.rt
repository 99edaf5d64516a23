//! The errors of moving bytes from a reader or to a writer.

ghost use Rattle.std.specs.Prelude.{◌≡◌};
ghost use Rattle.st_file.specs.Errors as errors;

use thiserror::Error;

/// Why not all bytes were moved. Each variant carries the number of bytes that were; at `u64::MAX` that number stays.
#[derive(Clone, Copy, Debug, PartialEq, Eq, Error)]
pub enum FileError {
    /// The reader failed, after this number of bytes was sent. The reader's wrapper (`Counting`) counted the failure.
    #[error("the input could not be read after {0} bytes")]
    ReadFault(u64),
    /// The writer failed, after this number of bytes was written. The writer's wrapper (`Counting`) counted the
    /// failure.
    #[error("the output could not be written after {0} bytes")]
    WriteFault(u64),
    /// The stream was aborted with this code (the first number), after this number of bytes (the second) was written.
    #[error("the stream was aborted with code {0} after {1} bytes")]
    Aborted(u64, u64),
    /// The allowed number of calls was used up, after this number of bytes was moved.
    #[error("the turns were used up after {0} bytes")]
    Turns(u64),
    /// Memory was refused, after this number of bytes was sent.
    #[error("out of memory after {0} bytes")]
    NoMemory(u64),
    /// The sink accepts no more, after this number of bytes was sent.
    #[error("nothing more is taken after {0} bytes")]
    Closed(u64),
}

impl FileError {
    /// The error's number in the program's table of faults: 89 to 94.
    pub fn number(&self) -> u8
        ensures { result ≡ errors.number self.now }
    {
        match self {
            FileError::ReadFault(_) => 90,
            FileError::WriteFault(_) => 91,
            FileError::Aborted(_, _) => 92,
            FileError::Turns(_) => 93,
            FileError::NoMemory(_) => 94,
            FileError::Closed(_) => 89,
        }
    }

    /// The number that the error carries: the code for `Aborted`, and otherwise the number of bytes moved.
    pub fn inner(&self) -> Option<u64>
        ensures { result ≡ errors.inner self.now }
    {
        match self {
            FileError::ReadFault(bytes)
            | FileError::WriteFault(bytes)
            | FileError::Turns(bytes)
            | FileError::NoMemory(bytes)
            | FileError::Closed(bytes) => Some(*bytes),
            FileError::Aborted(code, _) => Some(*code),
        }
    }
}
