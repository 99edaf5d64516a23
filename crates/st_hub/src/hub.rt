//! The state of an end (a hub) that several threads share under one lock.

ghost use Rattle.std.specs.Prelude.{◌≡◌, ◌≢◌, ℕ, ◌++◌, length, OnOk, OnErr, IfOk, IfErr, IfSome, IfNone, IsOkUnless, ◌<◌};
ghost use Rattle.st_end.specs.Calls as calls;
ghost use Rattle.st_end.specs.Calls.{OrWants};
ghost use Rattle.st_end.specs.Receiving.{t00_text};
ghost use Rattle.st_end.specs.Totals as totals;
ghost use Rattle.st_queues.specs.Lanes.{ring_at};
ghost use Rattle.st_queues.specs.Watching.{IsUpTo, nothing_seen};
ghost use Rattle.st_hub.specs.Flow.{inlet_at, outlet_at, Tied};
ghost use Rattle.st_hub.specs.Handing.{IsTaken, number_in, HandsOut, TakesLeft, AddsWriter, RefusesWriter};
ghost use Rattle.st_hub.specs.Steps.{Flows, Continues};
ghost use Rattle.st_hub.specs.Trying.{known_at, HadMemory, AllTried};
ghost use Rattle.st_hub.specs.Hub.{IsNew, IsNewHub, with_core};
ghost use Rattle.st_hub.specs.declared.error.HubError.TheVariants.{NoMemory};

use crate::error::HubError;
use crate::pumping::Pumped;
use crate::streams::Streams;
use st_end::{EndError, EndState, Failed};
use st_queues::{Gauge, GaugeSeat, HubName, HubSeat, Named, Rings, StreamReader, StreamWriter};
use st_streams::{EndTotals, StreamId};
use std::alloc::Allocator;
use std::marker::Model;
use std::sync::ledger::{Blank, Book, Share};

/// An end of a connection with the rings of its streams, a gauge of its totals and the ledger of its credit: the value
/// of one lock. Contracts see it as the end, the items taken from and put into each ring, what is known to be in each
/// writer's ring, the room that is known in each reader's ring, and the outstanding shares.
pub struct HubState<N: HubName<A>, A: Allocator + Copy> {
    pub(crate) streams: Streams<N, A>,
    pub(crate) gauge: Gauge<N, A>,
    pub(crate) seat: HubSeat<N, A>,
    pub(crate) credit: Book<N>,
    // What was never given out, with what was returned.
    pub(crate) spare: Share<N>,
    // How many shares are out: at most 63.
    pub(crate) out: u64,
}

// It is written out, so that a caller does not prove again how each part is dropped.
impl<N: HubName<A>, A: Allocator + Copy> Drop for HubState<N, A> {
    fn drop(self) {
        let HubState {
            streams: _,
            gauge: _,
            seat: _,
            credit: _,
            spare: _,
            out: _,
        } = self;
    }
}

impl<N: HubName<A>, A: Allocator + Copy> Model for HubState<N, A> {
    ghost use Rattle.std.specs.Prelude.{◌≡◌, ◌+◌, ◌<◌};
    ghost use Rattle.std.specs.Coded.{codes};
    ghost use Rattle.std.specs.FinMap as map;
    ghost use Rattle.st_end.specs.Totals.{totals};
    ghost use Rattle.st_hub.specs.Hub.{Hub};

    ghost Value = { Hub A };

    ghost coded = { Prim.hlevel (codes, map.code) };

    ghost view = { λ h. record { flow = h.streams.flow; known = h.streams.known; room = h.streams.room; out = h.out; kept = h.spare.amount } };

    ghost invariant = { λ h. (h.seat ≡ totals h.streams.flow.core) × (h.credit.total ≡ h.streams.flow.core.receiving.credit)
        × (h.spare.parts + h.out ≡ 64) × (h.out < 64) × (N.parts ≡ 64) };
}

/// Publishes what the end did by now.
pub(crate) fn publish<N: HubName<A>, A: Allocator + Copy>(
    gauge: &Gauge<N, A>,
    seat: &mut HubSeat<N, A>,
    streams: &Streams<N, A>,
)
    requires { IsUpTo seat.old (totals.totals streams.now.flow.core) }
    ensures { seat.new ≡ totals.totals streams.now.flow.core }
{
    gauge.publish(seat, streams.totals());
}

// Whether all was moved that can be.
fn told(pumped: Pumped) -> Result<(), HubError>
    ensures ok { OnOk result (HadMemory pumped) }
    ensures only_memory { IsOkUnless result NoMemory }
{
    match pumped {
        Pumped::NoMemory => Err(HubError::NoMemory),
        Pumped::Moved | Pumped::Nothing | Pumped::Stuck => Ok(()),
    }
}

impl<N: HubName<A>, A: Allocator + Copy> HubState<N, A> {
    /// Makes a hub over a new end, and returns it with a gauge of its totals and a seat at that gauge. `N` is the hub's
    /// name: `rings` and the `blank` of 64 parts were picked for it. Does not allocate.
    pub fn new(
        core: EndState<A>,
        rings: Rings<A>,
        blank: Blank,
    ) -> (HubState<N, A>, Gauge<N, A>, GaugeSeat<N, A>)
        requires fresh { IsNew core }
        requires gauge { rings.gauge ≡ N.gauge }
        requires writes { (k : ℕ) → N.write_ring k ≡ ring_at rings.writes k }
        requires reads { (k : ℕ) → N.read_ring k ≡ ring_at rings.reads k }
        requires name { (blank.name ≡ N.name) × (blank.parts ≡ N.parts) × (blank.parts ≡ 64) }
        ensures hub { IsNewHub core result.0 }
        ensures seat { result.2 ≡ nothing_seen }
    {
        let Named {
            writes,
            reads,
            hub_gauge,
            hub_seat,
            gauge,
            seat,
            alloc,
        } = rings.named::<N>();
        let (credit, spare) = blank.open::<N>();
        let hub = HubState {
            streams: Streams::new(alloc, core, writes, reads),
            gauge: hub_gauge,
            seat: hub_seat,
            credit,
            spare,
            out: 0,
        };
        (hub, gauge, seat)
    }

    /// Opens the next stream of this end and returns its number, its first writer and its reader (RFC 0029).
    ///
    /// Fails, in this order: `NoStream` after the end's last stream; `ConnectionFailed`; `Closed` if the peer closed
    /// the connection; `NoMemory` if memory is refused. At an error no stream is opened.
    pub fn open_stream(
        &mut self,
    ) -> Result<(StreamId, StreamWriter<N, A>, StreamReader<N, A>), EndError>
        ensures answers { OrWants self.old.flow.core (calls.open_stream self.old.flow.core) (number_in result, self.new.flow.core) }
        ensures handed { IfOk result (λ x. (s : ℕ) × HandsOut self.old.flow self.new.flow x.0 x.1 x.2 s) }
        ensures unchanged { OnErr result (self.new.flow ≡ self.old.flow) }
        ensures rest { (self.new.out ≡ self.old.out) × (self.new.kept ≡ self.old.kept) }
    {
        let HubState {
            streams,
            gauge,
            seat,
            ..
        } = self;
        let opened = streams.open_stream();
        publish(gauge, seat, streams);
        opened
    }

    /// Returns the number, the first writer and the reader of the lowest open stream whose reader nobody took yet. Such
    /// a stream is one that the peer opened. Returns `None` only if there is none. Does not allocate.
    pub fn take_stream(&mut self) -> Option<(StreamId, StreamWriter<N, A>, StreamReader<N, A>)>
        ensures taken { IfSome result (λ x. (s : ℕ) × TakesLeft self.old.flow self.new.flow x.0 x.1 x.2 s) }
        ensures none { IfNone result (((s : ℕ) → s < 64 → IsTaken self.old.flow s) × (self.new.flow ≡ self.old.flow)) }
        ensures rest { (self.new.out ≡ self.old.out) × (self.new.kept ≡ self.old.kept) }
    {
        self.streams.take_stream()
    }

    /// Gives a further writer of a stream, with a ring of its own. A stream has at most eight writers. Does not
    /// allocate.
    ///
    /// Fails, in this order: `NoStream` if no stream of this number is open; `EightWriters` if all writers were handed
    /// out; `WriterTooLate` if each writer that was handed out has ended.
    pub fn add_writer(&mut self, stream: StreamId) -> Result<StreamWriter<N, A>, HubError>
        ensures added { IfOk result (λ w. (j : ℕ) × AddsWriter self.old.flow self.new.flow stream w j) }
        ensures refused { IfErr result (λ e. (self.new.flow ≡ self.old.flow) × RefusesWriter self.old.flow stream e) }
        ensures rest { (self.new.out ≡ self.old.out) × (self.new.kept ≡ self.old.kept) }
    {
        self.streams.add_writer(stream)
    }

    /// Adds `amount` units, in this end's asset, to the money that a stream is to send. Does not allocate.
    ///
    /// Fails as `EndState::offer` does, in this order: `NoStream`; `ConnectionFailed`; `Closed` if the peer closed the
    /// connection or the stream was closed or aborted; `AmountTooLarge` if all offers would come to 2^63 or more.
    pub fn offer(&mut self, stream: StreamId, amount: u64) -> Result<(), EndError>
        ensures answers { calls.offer self.old.flow.core stream amount ≡ (result, self.new.flow.core) }
        ensures rest { self.new ≡ with_core self.old self.new.flow.core }
    {
        let HubState {
            streams,
            gauge,
            seat,
            ..
        } = self;
        let answer = streams.offer(stream, amount);
        publish(gauge, seat, streams);
        answer
    }

    /// Raises the total that a stream may receive to `amount` units, in this end's asset. A smaller amount than before
    /// changes nothing. Does not allocate.
    ///
    /// Fails with `NoStream`, as `EndState::set_receive_max` does, for a number that is neither open nor one of the
    /// peer's.
    pub fn set_receive_max(&mut self, stream: StreamId, amount: u64) -> Result<(), EndError>
        ensures answers { calls.set_receive_max self.old.flow.core stream amount ≡ (result, self.new.flow.core) }
        ensures rest { self.new ≡ with_core self.old self.new.flow.core }
    {
        let HubState {
            streams,
            gauge,
            seat,
            ..
        } = self;
        let answer = streams.set_receive_max(stream, amount);
        publish(gauge, seat, streams);
        answer
    }

    /// Moves items between the rings and the end. Whole chunks, and the ends of writers, move from the writers' rings
    /// to the end if the end accepts them; one that it refuses stays in its ring. Bytes that can be read move to the
    /// readers' rings while there is room. A stream is closed when the end of the last of its writers is moved.
    ///
    /// Each ring of each open stream is tried. All items that this hub knew to be in a writer's ring are removed. It
    /// stops before only at the writer's end, at an item that the end refuses, or after 64 items. All room that it knew
    /// of in a reader's ring is filled. It stops before only if nothing can be read, at the stream's end, or after 64
    /// items. `meet_writer` lets the hub know all that is in a ring, and a pump looks for more too.
    ///
    /// Fails with `NoMemory` if memory is refused. What was moved before stays moved, and the next item stays in its
    /// place.
    pub fn pump(&mut self) -> Result<(), HubError>
        ensures flows { Flows self.old.flow self.new.flow }
        ensures continues { Continues self.old.flow self.new.flow }
        ensures tried { OnOk result (AllTried self.old.flow self.old.known self.old.room self.new.flow) }
        ensures only_memory { IsOkUnless result NoMemory }
        ensures rest { (self.new.out ≡ self.old.out) × (self.new.kept ≡ self.old.kept) }
    {
        let HubState {
            streams,
            gauge,
            seat,
            ..
        } = self;
        let pumped = streams.pump();
        publish(gauge, seat, streams);
        told(pumped)
    }

    /// Returns the number of items in a writer's ring. Its contract says that the items taken from the ring, followed
    /// by those in it, are the items that the writer wrote. The hub then knows them all. It also says that the bytes
    /// that the end accepted on each stream are a merge of the items taken from the stream's rings. Does not allocate.
    pub fn meet_writer(&mut self, writer: &mut StreamWriter<N, A>) -> usize
        ensures same { (self.new.flow ≡ self.old.flow) × (self.new.room ≡ self.old.room) }
        ensures rest { (self.new.out ≡ self.old.out) × (self.new.kept ≡ self.old.kept) }
        ensures writer { (writer.new.ring ≡ writer.old.ring) × (writer.new.items ≡ writer.old.items) × (writer.new.ended ≡ writer.old.ended) }
        ensures count { result ≡ length (known_at self.new.known writer.old.ring) }
        ensures others { (r : ℕ) → r ≢ writer.old.ring → known_at self.new.known r ≡ known_at self.old.known r }
        ensures whole { (inlet_at self.old.flow.inlets writer.old.ring).taken ++ known_at self.new.known writer.old.ring ≡ writer.old.items }
        ensures merged { (s : ℕ) → s < 64 → Tied self.old.flow s }
    {
        self.streams.meet_writer(writer)
    }

    /// Returns the number of items in a reader's ring. Its contract says that the items that the reader read, followed
    /// by those in its ring, are the items that the hub delivered. Does not allocate.
    pub fn meet_reader(&mut self, reader: &mut StreamReader<N, A>) -> usize
        ensures same { (self.new.flow ≡ self.old.flow) × (self.new.known ≡ self.old.known) }
        ensures rest { (self.new.out ≡ self.old.out) × (self.new.kept ≡ self.old.kept) }
        ensures reader { (reader.new.stream ≡ reader.old.stream) × (reader.new.items ≡ reader.old.items) × (reader.new.over ≡ reader.old.over) }
        ensures count { result ≡ length reader.new.known }
        ensures whole { reader.old.items ++ reader.new.known ≡ (outlet_at self.old.flow.outlets reader.old.stream).put }
    {
        self.streams.meet_reader(reader)
    }

    /// The end's totals so far: bytes accepted and delivered, units credited and paid. Does not allocate.
    pub fn totals(&self) -> EndTotals
        ensures { result ≡ totals.totals self.now.flow.core }
    {
        self.streams.core().totals()
    }

    /// Whether this end's own StreamClose of a stream (RFC 0029) was fulfilled. Does not allocate.
    pub fn settled(&self, stream: StreamId) -> bool
        ensures { result ≡ totals.settled self.now.flow.core stream }
    {
        self.streams.core().settled(stream)
    }

    /// Whether the connection failed. Does not allocate.
    pub fn is_failed(&self) -> bool
        ensures { result ≡ self.now.flow.core.sending.failed }
    {
        self.streams.core().is_failed()
    }

    /// Why the last Prepare of this end that failed did so, as `EndState::last_failure` returns it. Does not allocate.
    pub fn last_failure(&self) -> Option<Failed>
        ensures { result ≡ self.now.flow.core.last }
    {
        self.streams.core().last_failure()
    }

    /// The greatest amount that this end's next Prepare may have, in units of its asset. Does not allocate.
    pub fn packet_limit(&self) -> u64
        ensures { result ≡ self.now.flow.core.sending.packet_limit }
    {
        self.streams.core().packet_limit()
    }

    /// A complete Reject with code T00 (RFC 0027), kept ready as the answer if memory is refused. Does not allocate.
    pub fn t00(&self) -> &[u8]
        ensures { result.now ≡ t00_text self.now.flow.core.own }
    {
        self.streams.core().t00()
    }
}
