//! Moves the bytes of files to rings, and of rings to files.
//!
//! `send_all` moves the bytes of a reader to a sink, in chunks of at most 4,096 bytes. `store_all` moves the bytes of a
//! source to a writer. The writer and the reader of st_queues' rings are a sink and a source. Each call of a device, a
//! sink or a source counts against a given number of calls; a call that was refused or interrupted is made again. An
//! error says how many bytes were moved before it.
#![tactic(auto)]

mod error;
mod rings;
mod send;
mod sink;
mod source;
mod store;

pub use error::FileError;
pub use send::{PIECE, send_all};
pub use sink::{Chunk, Put, Sink};
pub use source::Source;
pub use st_devices::{CountRead, CountWrite, Counting};
pub use st_queues::Got;
pub use store::{flush_all, store_all, write_piece};
