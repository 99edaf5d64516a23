//! The receive buffer of one direction of a stream. Chunks arrive at any offset, in any order and more than once. Their
//! bytes are buffered until they can be read without a gap. If an offset arrives more than once, its first byte is
//! the one that is read.
//!
//! The contracts describe the buffer as the finite map of `specs/Held.antt`, and each call as a function of it.
//! `specs/Run.antt` says which bytes can be read, `specs/Closing.antt` how the direction ends. A chunk may end at most
//! `WINDOW` bytes past the read count. One window of fixed size has room for all of them (`ring`), with a bit for each
//! place (`marks`, `words`), so an insert does not allocate.
#![tactic(auto)]

mod error;
mod inbox;
mod laws;
mod marks;
mod ring;
mod words;

pub use error::InboxError;
pub use inbox::Inbox;
pub use laws::{finish_is_least, insert_is_pointwise, read_is_pointwise, run_is_longest};
pub use ring::WINDOW;
