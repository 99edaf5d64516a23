//! ILP over HTTP (RFC 0035, the synchronous mode): one request and one response over a stream, each with a head of at
//! most 8,192 bytes and a body of at most 65,535 bytes.
//!
//! `Reading` reads a message in chunks of any size; `exchange` and `serve_one` are loops over it. What a byte list
//! means as a request or as a response is in specs/Message.antt; the bytes that are written are in specs/Texts.antt.
//! Each stream carries one exchange. There is no keep-alive, no chunked body, no interim response and no TLS; a proxy
//! in front may do TLS. The stream is never flushed, so it has to pass on what it was given.
#![tactic(auto)]

mod answerer;
mod bearer;
mod client;
mod error;
mod fields;
mod head;
mod laws;
mod length;
mod neighbour;
mod reading;
mod reads;
mod server;
mod texts;
mod verdict;

pub use answerer::Answerer;
pub use client::exchange;
pub use error::HttpError;
pub use laws::{
    equal_numbers_have_equal_digits, heads_end_at_their_first_empty_line, messages_end,
    refusals_stay, wants_what_is_left,
};
pub use neighbour::Neighbour;
pub use reading::Reading;
pub use server::{refuse, respond, serve_one};
pub use st_devices::Counting;
pub use texts::{answer_text, is_field_text, refusal_text, request_text};
