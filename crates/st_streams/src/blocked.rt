//! The limits at which an end waits.

/// A limit of the peer at which bytes or money of this end wait, as a Blocked frame reports it (RFC 0029, section 5.3).
#[derive(Clone, Copy, Debug, PartialEq, Eq)]
pub enum Blocked {
    /// The limit on the sum of the streams' ends: ConnectionDataBlocked.
    Connection {
        /// The most bytes.
        max_offset: u64,
    },
    /// The limit on the offsets of a stream: StreamDataBlocked.
    Data {
        /// The number of the stream.
        stream: u64,
        /// The most bytes.
        max_offset: u64,
    },
    /// The receive max of a stream: StreamMoneyBlocked.
    Money {
        /// The number of the stream.
        stream: u64,
        /// The most that the peer accepts on it, in units of the peer's asset.
        receive_max: u64,
        /// How much of the stream's money was fulfilled.
        total: u64,
    },
}
