//! Files and money between machines: the part of `send` and `receive` that runs (RFC 0035, RFC 0029).
//!
//! `receive_on` answers the requests that arrive at a listener from one end of a connection, and writes to an output
//! what its peer sends on stream 1. `send_on` sends an input with money on stream 1, by workers that share one hub.
//! Each returns a `TransferError` if it fails, of which `number` gives the program's fault, and reports the totals of
//! its end.
#![tactic(auto)]

mod asked;
mod delivery;
mod ends;
mod faults;
mod inlet;
mod ivs;
mod lobby;
mod opening;
mod readers;
mod receive;
mod receiver;
mod requests;
mod send;
mod threads;
mod told_link;
mod workers;

pub use ends::{ReceivingEnd, client_end, server_end};
pub use ivs::{ReaderIvs, SharedIvs};
pub use receive::receive_on;
pub use send::send_on;
