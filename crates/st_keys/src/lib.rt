//! The keys of a STREAM connection and its encrypted packets (RFC 0029): the data field of an ILP packet.
//!
//! `Keys` derives all keys from the shared secret. `seal_packet` gives the payload of one packet: `plain_payload`,
//! and then `seal_payload` in place. `open_packet` decrypts a payload in place and reads its packet. `fulfillment` and
//! `condition` give those of a payload, and `fulfillments` gives those of up to eight.
//! `KeyError::number` is the number of an error, and `KeyError::inner` that of the packet's error.
#![tactic(auto)]

mod error;
mod keys;
mod laws;
mod mac;
mod payload;

pub use error::KeyError;
pub use keys::{Keys, condition};
pub use laws::{hashes_have_32_bytes, opens_without_memory, payload_lengths, sealed_opens};
pub use mac::hmac;
pub use payload::{OVERHEAD, plain_payload};
pub use st_frames::{Frame, FrameError, Frames, PacketKind, StreamPacket};
pub use st_lanes::LANES;
