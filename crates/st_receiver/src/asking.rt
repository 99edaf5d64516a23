//! What an end asks of its receiving side, and the streams that it opens itself.

ghost use Rattle.std.specs.Prelude.{◌≡◌, ◌<◌, ◌≤◌, ◌*◌, ◌^◌, true, length, map, sum, IfOk, OnOk, OnErr, IsOkUnless};
ghost use Rattle.st_streams.specs.Slots.{slot};
ghost use Rattle.st_receiver.specs.Streams.{opened_stream, may_name, is_open, incoming_at, with_incoming, with_max, with_kept, with_receive_max, credited_of, delivered_of, all_delivered};
ghost use Rattle.st_receiver.specs.Reading.{got, got_count, after_got};
ghost use Rattle.st_receiver.specs.Decided.{got_seen};

use crate::apply::drawn;
use crate::incoming::Incoming;
use crate::intake::Intake;
use crate::reason::Reason;
use st_streams::{StreamId, StreamRead};
use std::alloc::Allocator;

/// What a stream was credited.
pub(crate) fn credited_of<A: Allocator + Copy>(slot: &Option<Incoming<A>>) -> u64
    ensures { result ≡ credited_of slot.now }
{
    match slot {
        Some(incoming) => incoming.credited(),
        None => 0,
    }
}

/// How many bytes were read on a stream.
fn delivered_of<A: Allocator + Copy>(slot: &Option<Incoming<A>>) -> u64
    ensures { result ≡ delivered_of slot.now }
{
    match slot {
        Some(incoming) => incoming.read_count(),
        None => 0,
    }
}

/// How many bytes were read on all streams.
fn all_delivered<A: Allocator + Copy>(slots: &Vec<Option<Incoming<A>>, A>) -> u128
    requires { length slots.now.items ≡ 65 }
    ensures total { result ≡ sum (map delivered_of slots.now.items) }
    ensures fits { result < 65 * 2 ^ 64 }
{
    let mut total = 0;
    for slot in slots.iter() {
        total += u128::from(delivered_of(slot));
    }
    total
}

impl<A: Allocator + Copy> Intake<A> {
    /// The parity of this end's own stream numbers (RFC 0029, section 4.1): 1 for a client, 0 for a server.
    pub fn parity(&self) -> u8
        ensures { result ≡ self.now.state.parity }
    {
        self.parity
    }

    /// Whether the peer closed the connection. Does not allocate.
    pub fn is_closed(&self) -> bool
        ensures { result ≡ self.now.state.closed }
    {
        self.closed
    }

    /// The number of bytes read on all streams. Does not allocate.
    pub fn delivered(&self) -> u128
        ensures { result ≡ all_delivered self.now.state }
    {
        all_delivered(&self.slots)
    }

    /// The amount credited on all streams, in units of this end's asset. Does not allocate.
    pub fn credited(&self) -> u64
        ensures { result ≡ self.now.state.credit }
    {
        self.credit
    }

    /// Opens a stream of this end's own. If it is open already, it stays as it is. Fails with `NoMemory` if memory is
    /// refused, and then nothing has changed.
    pub fn open(&mut self, stream: StreamId) -> Result<(), Reason>
        ensures only_memory { IsOkUnless result Reason.NoMemory }
        ensures opened { OnOk result (self.new.state ≡ opened_stream self.old.state stream) }
        ensures unchanged { OnErr result (self.new.state ≡ self.old.state) }
    {
        let number = u64::from(stream.number());
        self.make_ready(number)?;
        self.open_ready(number);
        Ok(())
    }

    /// The amount credited on a stream, in units of this end's asset: 0 if the stream is not open. Does not
    /// allocate.
    pub fn credited_to(&self, stream: StreamId) -> u64
        ensures { result ≡ credited_of (slot self.now.state.streams stream) }
    {
        credited_of(&self.slots[stream.place()])
    }

    /// Raises the receive max of a stream that is open.
    fn raise_open(&mut self, stream: u64, amount: u64)
        requires { is_open self.old.state stream ≡ true }
        ensures { self.new.state ≡ with_incoming self.old.state stream (with_max amount (incoming_at self.old.state stream)) }
    {
        let k = stream as usize;
        let mut incoming = drawn(&mut self.slots, &mut self.windows, &self.kept, k);
        incoming.raise_receive_max(amount);
        self.slots[k] = Some(incoming);
    }

    /// Raises the receive max that waits for a stream that is not open.
    fn raise_kept(&mut self, stream: u64, amount: u64)
        requires { stream < 65 }
        ensures { self.new.state ≡ with_kept self.old.state stream amount }
    {
        let k = stream as usize;
        self.kept[k] = self.kept[k].max(amount);
    }

    /// Raises a stream's receive max (RFC 0029, section 5.3) to `amount`, in units of this end's asset. It is the most
    /// that the stream may receive in all. A smaller amount than before changes nothing. For a stream that the peer has
    /// not opened yet, it is kept until the stream opens. The stream must be open, or one that the peer may open, as
    /// `may_name` says.
    pub fn set_receive_max(&mut self, stream: StreamId, amount: u64)
        requires { may_name self.old.state stream ≡ true }
        ensures { self.new.state ≡ with_receive_max self.old.state stream amount }
    {
        let number = u64::from(stream.number());
        if self.is_open(number) {
            self.raise_open(number, amount);
        } else {
            self.raise_kept(number, amount);
        }
    }

    /// Reads the first bytes that can be read on an open stream, at most `max` of them. If there are none, it gives
    /// `End` once all bytes were read, else `Nothing`. After an abort it gives `Aborted` with the code. Fails with
    /// `NoMemory` if memory is refused, and then nothing has changed.
    pub fn read(&mut self, stream: StreamId, max: usize) -> Result<StreamRead<A>, Reason>
        requires { is_open self.old.state stream ≡ true }
        ensures only_memory { IsOkUnless result Reason.NoMemory }
        ensures got { IfOk result (λ g. got_seen g ≡ got max (incoming_at self.old.state stream).held) }
        ensures few { IfOk result (λ g. got_count (got_seen g) ≤ 65536) }
        ensures left { OnOk result (self.new.state ≡ after_got self.old.state stream max) }
        ensures unchanged { OnErr result (self.new.state ≡ self.old.state) }
    {
        self.read_at(stream.place(), max)
    }

    /// As `read`, by the place of the stream.
    fn read_at(&mut self, k: usize, max: usize) -> Result<StreamRead<A>, Reason>
        requires { is_open self.old.state k ≡ true }
        ensures only_memory { IsOkUnless result Reason.NoMemory }
        ensures got { IfOk result (λ g. got_seen g ≡ got max (incoming_at self.old.state k).held) }
        ensures few { IfOk result (λ g. got_count (got_seen g) ≤ 65536) }
        ensures left { OnOk result (self.new.state ≡ after_got self.old.state k max) }
        ensures unchanged { OnErr result (self.new.state ≡ self.old.state) }
    {
        let mut incoming = drawn(&mut self.slots, &mut self.windows, &self.kept, k);
        let got = incoming.get(max);
        self.slots[k] = Some(incoming);
        got
    }
}
