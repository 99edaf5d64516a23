//! The events of a world.

use st_ilp::Moment;
use st_world_parts::{Side, Way};

/// An event of a world. Links are numbered from 0 at the client. The Prepares that were ever sent over a link in a
/// direction are numbered from 1, and so are the answers; `k` is the number of a Prepare, `j` that of an answer. An
/// event that names nothing that exists, or a Prepare whose outcome was already taken, changes nothing.
#[derive(Clone, Copy)]
pub enum Event<'a> {
    /// An end opens its next stream.
    OpenStream(Side),
    /// An end queues bytes to be sent on a stream.
    Write(Side, u8, &'a [u8]),
    /// An end reads at most this number of bytes of a stream. With 0 nothing happens.
    Read(Side, u8, usize),
    /// An end closes a stream cleanly.
    Close(Side, u8),
    /// An end aborts a stream with a code of RFC 0029, section 5.3. With code 1 nothing happens.
    Abort(Side, u8, u8),
    /// An end offers this amount on a stream, in units of its asset.
    Offer(Side, u8, u64),
    /// An end raises a stream's receive max to this amount, in units of its asset.
    ReceiveMax(Side, u8, u64),
    /// An end sends a Prepare at this moment, sealed under this IV.
    Send(Side, [u8; 12], Moment),
    /// Link, direction, `k`, moment: the Prepare arrives at the far end of the link.
    Arrive(usize, Way, usize, Moment),
    /// Link, direction, `j`, moment: the answer arrives at the sender of its Prepare.
    AnswerArrives(usize, Way, usize, Moment),
    /// Link, direction, `k`, moment: the sender of the Prepare learns that no answer will arrive.
    Fault(usize, Way, usize, Moment),
    /// The hop at this index crashes, and starts again with its books. It has no open ticket any more, and the sender of
    /// a Prepare that was pending there learns nothing of it.
    Crash(usize),
    /// A call that was refused before it reached an end or a hop. Nothing happens.
    Refused,
}
