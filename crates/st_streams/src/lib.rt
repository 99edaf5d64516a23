//! What the crates of an end share: the number of a stream, the totals of an end, the limit at which it waits, what a read
//! gives, why a call is refused, tables with a place for each stream, and laws of finite maps from numbers, for crates that
//! store a map in arrays. Of these only the five types are code.
//!
//! A crate that stores a map in arrays says which value is at each number (`table` in `specs/Table.antt`), and what its
//! calls do to the map, value by value. The lemmas of `proofs/Tables.antt` connect the two. By the laws, a table is the one
//! map with its function's values.
#![tactic(auto)]

mod blocked;
mod end_error;
mod laws;
mod stream_id;
mod stream_read;
mod totals;

pub use blocked::Blocked;
pub use end_error::EndError;
pub use laws::{bytes_are_put_pointwise, same_is_put_pointwise, table_is_pointwise};
pub use stream_id::StreamId;
pub use stream_read::StreamRead;
pub use totals::EndTotals;
