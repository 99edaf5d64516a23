//! The totals of an end.

/// The totals of an end, or of the hub around it. None of them falls, and each is at most 2^64 - 1.
#[derive(Clone, Copy, Debug, PartialEq, Eq)]
pub struct EndTotals {
    /// The number of bytes that it accepted from its writers.
    pub accepted: u64,
    /// The number of bytes that it delivered to its readers.
    pub delivered: u64,
    /// The sum of the amounts of the Prepares that it fulfilled, in units of its asset.
    pub credited: u64,
    /// The sum of the amounts of the Prepares whose Fulfill it took, in units of its asset.
    pub paid: u64,
}
