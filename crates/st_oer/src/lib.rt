//! The fields that Interledger packets are made of, in OER (RFC 0030).
//!
//! `Cut` reads fields from a slice, and the `put_` functions append them to a vector. Each value has one encoding,
//! except limits (`specs/Spelling.antt`). A field is read exactly if the bytes begin with its encoding; otherwise the
//! first fault is the error (`specs/Reading.antt`, `laws`).
//!
//! The crate also has the checks of addresses (RFC 0015) and of UTF-8 texts, and exchange rates.
#![tactic(auto)]

mod address;
mod cut;
mod error;
mod laws;
mod put;
mod rate;
mod reading;
mod text;

pub use address::{MAX_ADDRESS, is_address, is_within};
pub use cut::Cut;
pub use error::OerError;
pub use laws::{
    digits_are_fewest, fields_are_read_as_spelled, no_spelling_begins_another,
    reading_wants_no_memory,
};
pub use put::{length_size, put_length, put_octets, put_u8, put_u64, put_var_uint, var_uint_size};
pub use rate::Rate;
pub use st_devices::{CountRead, CountWrite, Counted, FailAt};
pub use text::utf8;
