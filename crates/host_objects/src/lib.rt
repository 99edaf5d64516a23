//! What a host that is not written in Rattle holds, as a program in C, Rust or Python: an object in a block of memory of
//! its own, by its address.
//!
//! An `Object` is an end of a connection with the flights that wait for their answer, a hop with its open tickets, the keys
//! of a connection, a message of HTTP that is read, or a STREAM packet with its frames. A flight and a ticket are known to
//! the host by a number, and each is spent once, whatever the host does. The bytes that a call returns are the object's output:
//! they stay in the object until the next call that returns bytes. A `Handle` is the address of an object, or null. The numbers
//! that calls return are constants. `ilpstream_c` has the calls themselves.
#![tactic(auto)]

mod code;
mod end;
mod frame;
mod handle;
mod hop;
mod keys;
mod message;
mod object;
mod packet;

pub use code::{
    ABORTED, ARGUMENT, DONE, ENDED, IDLE, MISUSE, ONWARD, ROOM, UNKNOWN, code_of, hop_code_of,
};
pub use end::{Answered, HostEnd, Piece};
pub use frame::KeptFrame;
pub use handle::Handle;
pub use hop::{HostHop, Settling, Way};
pub use keys::HostKeys;
pub use message::{HostMessage, HostSide, Progress};
pub use object::Object;
pub use packet::{HostPacket, PlacedFrame};
pub use st_frames::PacketKind;
