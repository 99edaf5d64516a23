//! What an end receives on all streams of a connection.

ghost use Rattle.std.specs.Prelude.{◌≡◌, ◌≤◌, ◌<◌, IfOk, IsOkUnless, true};
ghost use Rattle.st_frames.specs.Packets.{packet_of};
ghost use Rattle.st_frames.specs.Frames.{frame_of};
ghost use Rattle.st_receiver.specs.Streams.{new_receiving, may_name, is_open};
ghost use Rattle.st_receiver.specs.Judged.{effect};
ghost use Rattle.st_streams.specs.Slots.{no_slots};
ghost use Rattle.st_receiver.specs.Decided.{IsDecision, IsPlanFor};

use crate::incoming::{Incoming, Window};
use crate::reason::Reason;
use crate::sequences::Sequences;
use st_frames::StreamPacket;
use st_streams::StreamId;
use std::alloc::Allocator;
use std::marker::Model;

/// How many places a table of streams has: streams are numbered from 1 to 64.
pub(crate) const PLACES: usize = 65;

/// The receiving side of a connection: the bytes, the money and the closes of all streams, and which Prepares were
/// fulfilled.
pub struct Intake<A: Allocator + Copy> {
    pub(crate) alloc: A,
    /// Of this end's own stream numbers: 1 for a client, 0 for a server.
    pub(crate) parity: u8,
    /// The streams by number, if they are open.
    pub(crate) slots: Vec<Option<Incoming<A>>, A>,
    /// The empty windows that wait for streams that are not open.
    pub(crate) windows: Vec<Option<Window<A>>, A>,
    /// The receive max that waits for each stream that is not open.
    pub(crate) kept: [u64; 65],
    pub(crate) fulfilled: Sequences<A>,
    /// What was credited on all streams: at most 2^63 - 1.
    pub(crate) credit: u64,
    /// The peer closed the connection.
    pub(crate) closed: bool,
}

// It is written out, so that a caller does not prove again how each part is dropped.
impl<A: Allocator + Copy> Drop for Intake<A> {
    fn drop(self) {
        let Intake {
            alloc: _,
            parity: _,
            slots: _,
            windows: _,
            kept: _,
            fulfilled: _,
            credit: _,
            closed: _,
        } = self;
    }
}

impl<A: Allocator + Copy> Model for Intake<A> {
    ghost use Rattle.std.specs.Prelude.{◌≡◌, length};
    ghost use Rattle.std.specs.Coded.{codes};
    ghost use Rattle.std.specs.FinMap as map;
    ghost use Rattle.st_receiver.specs.Standing.{Standing};

    ghost Value = { Standing };

    ghost coded = { Prim.hlevel (codes, map.code) };

    ghost view = { λ s. record {
      state = record { parity = s.parity; streams = s.slots.items; kept = s.kept; fulfilled = s.fulfilled.set; credit = s.credit; closed = s.closed };
      room = s.fulfilled.room;
      windows = s.windows.items;
    } };

    ghost invariant = { λ s. (length s.slots.items ≡ 65) × (length s.windows.items ≡ 65) };
}

/// The right to make a packet take effect. `judge` gives it, and `commit` takes it.
#[derive(Debug, PartialEq, Eq, Drop)]
pub struct Plan {
    pub(crate) amount: u64,
}

/// The decision on a packet.
#[derive(Debug, PartialEq, Eq, Drop)]
pub enum Decision {
    /// The Prepare may be fulfilled, after `commit` with this plan.
    Fulfill(Plan),
    /// The Prepare is to be rejected, with this code (RFC 0027) and for this reason.
    Reject { code: [u8; 3], reason: Reason },
}

/// A list of empty places.
fn no_places<T: Drop, A: Allocator>(alloc: A) -> Result<Vec<Option<T>, A>, Reason>
    ensures only_memory { IsOkUnless result Reason.NoMemory }
    ensures empty { IfOk result (λ v. v.items ≡ no_slots) }
{
    let mut places = Vec::with_capacity(alloc, PLACES)?;
    for k in 0..PLACES {
        places.push(None)?;
    }
    Ok(places)
}

impl<A: Allocator + Copy> Intake<A> {
    /// A receiving side with no open stream. `parity` is that of this end's own stream numbers (RFC 0029, section 4.1):
    /// 1 for a client, 0 for a server. Fails with `NoMemory` if memory is refused.
    pub fn new(alloc: A, parity: u8) -> Result<Intake<A>, Reason>
        ensures only_memory { IsOkUnless result Reason.NoMemory }
        ensures empty { IfOk result (λ s. s.state ≡ new_receiving parity) }
    {
        let slots = no_places(alloc)?;
        let windows = no_places(alloc)?;
        Ok(Intake {
            alloc,
            parity,
            slots,
            windows,
            kept: [0; 65],
            fulfilled: Sequences::new(alloc),
            credit: 0,
            closed: false,
        })
    }

    /// Whether a stream is open. Does not allocate.
    pub fn has_stream(&self, stream: StreamId) -> bool
        ensures { result ≡ is_open self.now.state stream }
    {
        self.is_open(u64::from(stream.number()))
    }

    /// Whether a stream is open, or has a number that the peer may open. Does not allocate.
    pub fn may_name(&self, stream: StreamId) -> bool
        ensures { result ≡ may_name self.now.state stream }
    {
        self.may_be_named(u64::from(stream.number()))
    }

    /// Whether a frame's number is that of an open stream.
    pub(crate) fn is_open(&self, stream: u64) -> bool
        ensures { result ≡ is_open self.now.state stream }
    {
        stream < 65 && self.slots[stream as usize].is_some()
    }

    /// Whether a frame may have this number: that of an open stream, or of one that the peer may open.
    pub(crate) fn may_be_named(&self, stream: u64) -> bool
        ensures { result ≡ may_name self.now.state stream }
    {
        1 <= stream
            && stream <= 64
            && (self.slots[stream as usize].is_some() || stream % 2 != u64::from(self.parity))
    }
}
