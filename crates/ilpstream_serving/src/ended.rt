//! The result of a transfer.

use crate::error::TransferError;
use st_streams::EndTotals;

/// The result of `send_on` or `receive_on`.
#[derive(Clone, Copy)]
pub struct Ended {
    /// The number of bytes of the input that were sent, or of the output that were written; or why not all were.
    pub result: Result<u64, TransferError>,
    /// The totals of the end, whatever the result is.
    pub totals: EndTotals,
}
