//! An end with the rings of its streams.

ghost use Rattle.std.specs.Prelude.{◌≡◌, ◌≢◌, ◌<◌, ℕ, true, List, ◌++◌, length, vec_len, OnErr, IfOk, IfErr, IfSome, IfNone, IsOkUnless, MatchOption};
ghost use Rattle.st_end.specs.Calls as calls;
ghost use Rattle.st_end.specs.Calls.{OrWants};
ghost use Rattle.st_end.specs.Sending as sending;
ghost use Rattle.st_end.specs.Sending.{GoesNone};
ghost use Rattle.st_end.specs.Unsealed.{GoesUnsealed, known};
ghost use Rattle.st_end.specs.Answers.{ended, pays};
ghost use Rattle.st_end.specs.Receiving.{received};
ghost use Rattle.st_end.specs.Totals as totals;
ghost use Rattle.st_end.specs.Seen.{received_seen};
ghost use Rattle.st_links.specs.Outcomes.{outcome_seen};
ghost use Rattle.st_queues.specs.Lanes.{AllNamed, AllNamedReads};
ghost use Rattle.st_hub.specs.Flow.{inlet_at, outlet_at, Tied};
ghost use Rattle.st_hub.specs.Handing.{IsTaken, number_in, HandsOut, TakesLeft, AddsWriter, RefusesWriter};
ghost use Rattle.st_hub.specs.Steps.{Flows, Continues};
ghost use Rattle.st_hub.specs.Keeping.{Keeps, Rises};
ghost use Rattle.st_hub.specs.Hub.{IsNew};
ghost use Rattle.st_hub.specs.Trying.{with_end, known_at, HadMemory, AllTried};
ghost use Rattle.st_hub.specs.Turns.{credited_by};
ghost use Rattle.st_hub.specs.Inside.{beside_of};

use crate::adding::{first_unused, further_writer, is_stream, is_too_late};
use crate::error::HubError;
use crate::lanes::{ends, first_left};
use crate::pumping::Pumped;
use crate::{lanes, pumping};
use st_end::{EndError, EndState, Flight, Received, Unsealed};
use st_ilp::Moment;
use st_links::Outcome;
use st_queues::{HubName, ReadRing, StreamReader, StreamWriter, WriteRing};
use st_streams::{EndTotals, StreamId};
use std::alloc::Allocator;
use std::marker::{Model, PhantomData};

/// An end with its rings. Contracts see it as the end, what was removed from each writer's ring and what was put into
/// each reader's, what is known to be in each writer's ring, and the room known in each reader's.
pub(crate) struct Streams<N: HubName<A>, A: Allocator + Copy> {
    core: EndState<A>,
    // By ring number: writer j of the stream at place s is at 8 s + j.
    writes: Vec<WriteRing<A>, A>,
    // By place: the stream of number k is at k - 1.
    reads: Vec<ReadRing<A>, A>,
    alloc: A,
    of: PhantomData<N>,
}

// It is written out, so that a caller does not prove again how each part is dropped.
impl<N: HubName<A>, A: Allocator + Copy> Drop for Streams<N, A> {
    fn drop(self) {
        let Streams {
            core: _,
            writes: _,
            reads: _,
            alloc: _,
            of: _,
        } = self;
    }
}

impl<N: HubName<A>, A: Allocator + Copy> Model for Streams<N, A> {
    ghost use Rattle.std.specs.Coded.{codes};
    ghost use Rattle.std.specs.FinMap as map;
    ghost use Rattle.st_hub.specs.Trying.{Beside};
    ghost use Rattle.st_hub.specs.Inside.{beside_of, IsSound};

    ghost Value = { Beside A };

    ghost coded = { Prim.hlevel (codes, map.code) };

    ghost view = { λ h. beside_of h.core h.writes.items h.reads.items };

    ghost invariant = { λ h. IsSound N.write_ring N.read_ring h.core h.writes.items h.reads.items };
}

impl<N: HubName<A>, A: Allocator + Copy> Streams<N, A> {
    /// A new end with unused rings. Does not allocate.
    pub(crate) fn new(
        alloc: A,
        core: EndState<A>,
        writes: Vec<WriteRing<A>, A>,
        reads: Vec<ReadRing<A>, A>,
    ) -> Streams<N, A>
        requires fresh { IsNew core }
        requires writes { (vec_len writes ≡ 512) × AllNamed N.write_ring writes.items }
        requires reads { (vec_len reads ≡ 64) × AllNamedReads N.read_ring reads.items }
        ensures { result ≡ beside_of core writes.items reads.items }
    {
        Streams {
            core,
            writes,
            reads,
            alloc,
            of: PhantomData,
        }
    }

    /// What the end did so far.
    pub(crate) fn totals(&self) -> EndTotals
        ensures { result ≡ totals.totals self.now.flow.core }
    {
        self.core.totals()
    }

    /// The end.
    pub(crate) fn core(&self) -> &EndState<A>
        ensures { result.now ≡ self.now.flow.core }
    {
        &self.core
    }

    /// The end's `offer`.
    pub(crate) fn offer(&mut self, stream: StreamId, amount: u64) -> Result<(), EndError>
        ensures answers { calls.offer self.old.flow.core stream amount ≡ (result, self.new.flow.core) }
        ensures keeps { Keeps 0 self.old.flow.core self.new.flow.core }
        ensures rest { self.new ≡ with_end self.old self.new.flow.core }
    {
        self.core.offer(stream, amount)
    }

    /// The end's `set_receive_max`.
    pub(crate) fn set_receive_max(&mut self, stream: StreamId, amount: u64) -> Result<(), EndError>
        ensures answers { calls.set_receive_max self.old.flow.core stream amount ≡ (result, self.new.flow.core) }
        ensures keeps { Keeps 0 self.old.flow.core self.new.flow.core }
        ensures rest { self.new ≡ with_end self.old self.new.flow.core }
    {
        self.core.set_receive_max(stream, amount)
    }

    /// The end's `send_unsealed`.
    pub(crate) fn send_unsealed(
        &mut self,
        iv: [u8; 12],
        now: Moment,
    ) -> Result<Option<Unsealed<A>>, EndError>
        ensures only_memory { IsOkUnless result EndError.NoMemory }
        ensures goes { IfOk result (λ sent. MatchOption sent (GoesNone self.old.flow.core × (self.new.flow.core ≡ self.old.flow.core))
            (λ x. GoesUnsealed self.old.flow.core iv now x.flight x.bytes self.new.flow.core)) }
        ensures unchanged { OnErr result (self.new.flow.core ≡ self.old.flow.core) }
        ensures keeps { Keeps 0 self.old.flow.core self.new.flow.core }
        ensures rest { self.new ≡ with_end self.old self.new.flow.core }
    {
        self.core.send_unsealed(iv, now)
    }

    /// The end's `keep`.
    pub(crate) fn keep(&mut self, iv: [u8; 12], flight: &Flight)
        ensures kept { self.new.flow.core ≡ known self.old.flow.core iv flight.now }
        ensures keeps { Keeps 0 self.old.flow.core self.new.flow.core }
        ensures rest { self.new ≡ with_end self.old self.new.flow.core }
    {
        self.core.keep(iv, flight)
    }

    /// Ends a flight of the end with its outcome, and returns whether that is a Fulfill that fits.
    pub(crate) fn settle(&mut self, flight: Flight, outcome: Outcome<A>) -> bool
        requires { sending.is_open self.old.flow.core flight ≡ true }
        ensures left { self.new.flow.core ≡ ended self.old.flow.core flight (outcome_seen outcome) }
        ensures paid { result ≡ pays flight (outcome_seen outcome) }
        ensures keeps { Keeps 0 self.old.flow.core self.new.flow.core }
        ensures rest { self.new ≡ with_end self.old self.new.flow.core }
    {
        settle_flight(&mut self.core, flight, outcome)
    }

    /// The end's `receive`.
    pub(crate) fn receive(&mut self, bytes: &[u8], now: Moment) -> Result<Received<A>, EndError>
        ensures only_memory { IsOkUnless result EndError.NoMemory }
        ensures answers { IfOk result (λ r. received self.old.flow.core bytes.now now ≡ (received_seen r, self.new.flow.core)) }
        ensures keeps { IfOk result (λ r. Keeps (credited_by (received_seen r)) self.old.flow.core self.new.flow.core) }
        ensures unchanged { OnErr result (self.new.flow.core ≡ self.old.flow.core) }
        ensures rest { self.new ≡ with_end self.old self.new.flow.core }
    {
        self.core.receive(bytes, now)
    }

    /// Opens a stream at the end, and hands out its first writer and its reader.
    pub(crate) fn open_stream(
        &mut self,
    ) -> Result<(StreamId, StreamWriter<N, A>, StreamReader<N, A>), EndError>
        ensures answers { OrWants self.old.flow.core (calls.open_stream self.old.flow.core) (number_in result, self.new.flow.core) }
        ensures handed { IfOk result (λ x. (s : ℕ) × HandsOut self.old.flow self.new.flow x.0 x.1 x.2 s) }
        ensures unchanged { OnErr result (self.new ≡ self.old) }
        ensures keeps { Keeps 0 self.old.flow.core self.new.flow.core }
    {
        let Streams {
            core,
            writes,
            reads,
            alloc,
            ..
        } = self;
        let stream = core.open_stream()?;
        let place = stream.place() - 1;
        let (writer, reader) = ends::<N, A>(*alloc, writes, reads, place);
        Ok((stream, writer, reader))
    }

    /// Hands out the ends of the lowest stream that is open and whose ends nobody has.
    pub(crate) fn take_stream(
        &mut self,
    ) -> Option<(StreamId, StreamWriter<N, A>, StreamReader<N, A>)>
        ensures taken { IfSome result (λ x. (s : ℕ) × TakesLeft self.old.flow self.new.flow x.0 x.1 x.2 s) }
        ensures none { IfNone result (((s : ℕ) → s < 64 → IsTaken self.old.flow s) × (self.new ≡ self.old)) }
    {
        let Streams {
            core,
            writes,
            reads,
            alloc,
            ..
        } = self;
        let place = first_left(core, reads)?;
        let (writer, reader) = ends::<N, A>(*alloc, writes, reads, usize::from(place));
        let stream = StreamId::new(place + 1).unwrap();
        Some((stream, writer, reader))
    }

    /// Hands out a further writer of an open stream.
    pub(crate) fn add_writer(&mut self, stream: StreamId) -> Result<StreamWriter<N, A>, HubError>
        ensures added { IfOk result (λ w. (j : ℕ) × AddsWriter self.old.flow self.new.flow stream w j) }
        ensures refused { IfErr result (λ e. (self.new ≡ self.old) × RefusesWriter self.old.flow stream e) }
    {
        let Streams {
            core,
            writes,
            alloc,
            ..
        } = self;
        if !is_stream(core, stream) {
            return Err(HubError::NoStream);
        }
        let place = stream.place() - 1;
        let Some(further) = first_unused(writes, place) else {
            return Err(HubError::EightWriters);
        };
        if is_too_late::<N, A>(writes, place) {
            return Err(HubError::WriterTooLate);
        }
        Ok(further_writer::<N, A>(*alloc, writes, 8 * place + further))
    }

    /// The number of items in a writer's ring, with the writer in hand.
    pub(crate) fn meet_writer(&mut self, writer: &mut StreamWriter<N, A>) -> usize
        ensures same { (self.new.flow ≡ self.old.flow) × (self.new.room ≡ self.old.room) }
        ensures writer { (writer.new.ring ≡ writer.old.ring) × (writer.new.items ≡ writer.old.items) × (writer.new.ended ≡ writer.old.ended) }
        ensures count { result ≡ length (known_at self.new.known writer.old.ring) }
        ensures others { (r : ℕ) → r ≢ writer.old.ring → known_at self.new.known r ≡ known_at self.old.known r }
        ensures whole { (inlet_at self.old.flow.inlets writer.old.ring).taken ++ known_at self.new.known writer.old.ring ≡ writer.old.items }
        ensures merged { (s : ℕ) → s < 64 → Tied self.old.flow s }
    {
        lanes::meet_writer(&mut self.writes, writer)
    }

    /// The number of items in a reader's ring, with the reader in hand.
    pub(crate) fn meet_reader(&mut self, reader: &mut StreamReader<N, A>) -> usize
        ensures same { (self.new.flow ≡ self.old.flow) × (self.new.known ≡ self.old.known) }
        ensures reader { (reader.new.stream ≡ reader.old.stream) × (reader.new.items ≡ reader.old.items) × (reader.new.over ≡ reader.old.over) }
        ensures count { result ≡ length reader.new.known }
        ensures whole { reader.old.items ++ reader.new.known ≡ (outlet_at self.old.flow.outlets reader.old.stream).put }
    {
        lanes::meet_reader(&mut self.reads, reader)
    }

    /// Moves what can be moved between the rings and the end.
    pub(crate) fn pump(&mut self) -> Pumped
        ensures flows { Flows self.old.flow self.new.flow }
        ensures rises { Rises self.old.flow.core self.new.flow.core }
        ensures money { self.new.flow.core.receiving.credit ≡ self.old.flow.core.receiving.credit }
        ensures continues { Continues self.old.flow self.new.flow }
        ensures tried { HadMemory result → AllTried self.old.flow self.old.known self.old.room self.new.flow }
    {
        let Streams {
            core,
            writes,
            reads,
            ..
        } = self;
        pumping::pump::<N, A>(core, writes, reads)
    }
}

// Ends a flight with its outcome, and returns whether that is a Fulfill that fits.
fn settle_flight<A: Allocator + Copy>(
    core: &mut EndState<A>,
    flight: Flight,
    outcome: Outcome<A>,
) -> bool
    requires { sending.is_open core.old flight ≡ true }
    ensures left { core.new ≡ ended core.old flight (outcome_seen outcome) }
    ensures paid { result ≡ pays flight (outcome_seen outcome) }
{
    match outcome {
        Outcome::Answered(mut bytes) => core.answer(flight, &mut bytes),
        Outcome::Fault => {
            core.fault(flight);
            false
        }
    }
}
