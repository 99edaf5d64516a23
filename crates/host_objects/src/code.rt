//! The numbers that calls return to a host: 0, an answer or a refusal of this boundary, or a library's own refusal.

ghost use Rattle.std.specs.Prelude.{◌≡◌};
ghost use Rattle.host_objects.specs.Codes.{code_of, hop_code_of};

use st_end::EndError;
use st_hop::HopError;

/// The call did what it is for.
pub const DONE: u32 = 0;
/// There is nothing to be sent, or nothing can be read yet.
pub const IDLE: u32 = 100;
/// The handle is empty or of another kind; of a call that makes an object, it is not empty.
pub const MISUSE: u32 = 101;
/// An argument is out of its range.
pub const ARGUMENT: u32 = 102;
/// The buffer is too small.
pub const ROOM: u32 = 103;
/// There is no such open flight or ticket.
pub const UNKNOWN: u32 = 104;
/// All bytes were read, and the peer closed the stream.
pub const ENDED: u32 = 105;
/// The peer aborted the stream.
pub const ABORTED: u32 = 106;
/// The bytes are forwarded to another account.
pub const ONWARD: u32 = 107;

/// The number of an end's answer: 0, or that of the refusal.
pub fn code_of<T: Drop>(answer: Result<T, EndError>) -> u32
    ensures { result ≡ code_of answer }
{
    match answer {
        Ok(_) => DONE,
        Err(error) => u32::from(error.number()),
    }
}

/// The number of a hop's answer: 0, or that of the refusal.
pub fn hop_code_of<T: Drop>(answer: Result<T, HopError>) -> u32
    ensures { result ≡ hop_code_of answer }
{
    match answer {
        Ok(_) => DONE,
        Err(error) => u32::from(error.number()),
    }
}
