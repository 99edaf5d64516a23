//! Why a run ends before its end.

/// Why a run ends before its end.
#[derive(Clone, Copy, Drop)]
pub(crate) enum Stop {
    /// Memory for the world's own record was refused.
    NoMemory,
    /// A call ran out of memory.
    Refused,
    /// No stream could be opened.
    NoStream,
    /// There were more rounds than a lossless run has.
    Endless,
}
