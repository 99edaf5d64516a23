//! The packets of the Interledger Protocol, version 4 (RFC 0027): Prepare, Fulfill and Reject.
//!
//! Readers do not allocate: texts and data are slices of the input. Writers append or return the one encoding of a
//! packet. An expiry is a number of milliseconds since 1970-01-01 00:00 UTC. A reader reports the first fault: the
//! packet's outer octet string is checked first, then the fields in their order.
#![tactic(auto)]

mod code;
mod error;
mod expiry;
mod laws;
mod moment;
mod packet;
mod reading;
mod reject;
mod size;
mod writing;

pub use code::ErrorCode;
pub use error::IlpError;
pub use expiry::{read_expiry, write_expiry};
pub use laws::{
    answer_law, expiry_law, kind_law, none_begins_another, prepare_law, reading_wants_no_memory,
    reject_size_law, size_law,
};
pub use moment::Moment;
pub use packet::{Answer, MAX_DATA, MAX_MESSAGE, Prepare};
pub use reading::{read_answer, read_prepare};
pub use reject::{put_reject, reject_len};
pub use st_oer::OerError;
pub use writing::{write_answer, write_prepare};
