//! Readers and writers that count their I/O calls and errors, and calls with a bound on their number.
//!
//! `Counted` is what a device counts, `CountRead` and `CountWrite` count for any reader or writer, and `FailAt` fails
//! at a call of a given number. `read_turn`, `write_turn` and `flush_turn` are one call each; `put_all` makes calls
//! until all is written.
#![tactic(auto)]

mod counted;
mod fail_at;
mod tally;
mod turn;

pub use counted::{CountRead, CountWrite, Counted, Counting};
pub use fail_at::FailAt;
pub use tally::Tally;
pub use turn::{
    FlushTurn, PutError, ReadTurn, WriteTurn, flush_turn, put_all, read_turn, write_turn,
};
