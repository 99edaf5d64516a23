//! STREAM packets (RFC 0029, version 1): plain packets, as they are before encryption and after decryption.
//!
//! `read_packet` checks a whole packet and then gives its known frames one after another, without allocating.
//! `write_packet` writes the one encoding that this profile gives a packet, and `put_packet` appends it to a vector.
//! `FrameError::number` is the number of an error. `FrameError::inner` is the index of the malformed frame, or the
//! number of the encoding error.
#![tactic(auto)]

mod error;
mod field;
mod frame;
mod kind;
mod laws;
mod length;
mod packet;
mod skeleton;
mod table;
mod writing;

pub use error::FrameError;
pub use frame::Frame;
pub use kind::PacketKind;
pub use laws::{frames_law, packet_law, prefix_law, reading_wants_no_memory, written_law};
pub use length::packet_len;
pub use packet::{Frames, MAX_PACKET, StreamPacket, VERSION, read_packet};
pub use st_oer::OerError;
pub use writing::{put_packet, write_packet};
