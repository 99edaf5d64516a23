//! What moves between the rings and the end.

ghost use Rattle.std.specs.Prelude.{◌≡◌, ℕ, ◌+◌, ◌*◌, ◌<◌, true, not, ◌&&◌, nat_eq, List, map, OnOk, OnErr, IfErr, Err, MatchBool};
ghost use Rattle.st_end.specs.Calls as calls;
ghost use Rattle.st_queues.specs.WriteEnds.{taken, known, SameWriteEnd};
ghost use Rattle.st_queues.specs.ReadEnds.{put_in, free_of, SameReadEnd};
ghost use Rattle.st_hub.specs.Flow.{inlet_at, has_end, has_last, is_writing};
ghost use Rattle.st_hub.specs.Handing.{NoOther, SomeOther};
ghost use Rattle.st_hub.specs.Steps.{Flows};
ghost use Rattle.st_hub.specs.Moving.{ClosesIf, AfterTake, AfterGive};
ghost use Rattle.st_hub.specs.Trying.{HadMemory, Longer, Stops, Fuller, StopsGiving, Found, Tried, TriedRead, AllTried};
ghost use Rattle.st_hub.specs.Inside.{inlet_of, known_of, room_of, flow_of, FlowsIn, FlowsOut, TriesWriters, TriesReader, taken_at, stands_at, put_at, free_at, Grow, Fill, AllLanes, AllReadLanes};

use st_end::{EndError, EndState, by_number};
use st_queues::{Delivery, HubName, Item, ROOM, ReadRing, STREAMS, WRITERS, WriteRing};
use st_receiver::Got;
use std::alloc::Allocator;

/// The most bytes of a read.
const READ_LIMIT: usize = 4096;

/// The result of a try to move an item.
#[derive(Clone, Copy)]
pub(crate) enum Pumped {
    /// It was moved.
    Moved,
    /// A read found nothing.
    Nothing,
    /// There is none, there is no room for it, or the end refused it.
    Stuck,
    /// Memory was refused.
    NoMemory,
}

/// Whether a writer was handed out whose end is not removed from its ring yet.
pub(crate) fn is_busy<A: Allocator + Copy>(lane: &WriteRing<A>) -> bool
    requires { lane.now.over ≡ has_end (taken lane.now.end) }
    ensures { result ≡ is_writing (inlet_of lane.now) }
{
    lane.held.is_none() && !lane.over
}

// Closes a stream with the end of its last writer.
fn close_last<A: Allocator + Copy>(
    core: &mut EndState<A>,
    stream: u8,
    is_last: bool,
) -> Result<(), EndError>
    ensures closed { OnOk result (ClosesIf is_last core.old stream core.new) }
    ensures refused { OnErr result (core.new ≡ core.old) }
    ensures why { IfErr result (λ e. calls.close core.new stream ≡ (Err e, core.new)) }
{
    if is_last {
        by_number::close(core, stream)
    } else {
        Ok(())
    }
}

// Moves the first item of a ring to the end, if the end accepts it.
fn take_first<A: Allocator + Copy>(
    core: &mut EndState<A>,
    lane: &mut WriteRing<A>,
    stream: u8,
    is_last: bool,
) -> Pumped
    requires { lane.old.over ≡ has_end (taken lane.old.end) }
    ensures same { SameWriteEnd lane.old.end lane.new.end × (lane.new.held ≡ lane.old.held) }
    ensures over { lane.new.over ≡ has_end (taken lane.new.end) }
    ensures after { AfterTake stream is_last core.old (taken lane.old.end) result core.new (taken lane.new.end) }
    ensures grows { Longer (taken lane.old.end) (known lane.old.end) (taken lane.new.end) (known lane.new.end) }
    ensures stops { Stops stream result (taken lane.old.end) core.new (taken lane.new.end) (known lane.new.end) }
{
    let WriteRing { end, held: _, over } = lane;
    if *over || !end.look() {
        return Pumped::Stuck;
    }
    match end.first() {
        Item::Chunk(chunk) => match by_number::write(core, stream, chunk) {
            Ok(()) => {
                end.drop_first();
                Pumped::Moved
            }
            Err(why) => match why {
                EndError::NoMemory => Pumped::NoMemory,
                _ => Pumped::Stuck,
            },
        },
        Item::End => match close_last(core, stream, is_last) {
            Ok(()) => {
                end.drop_first();
                *over = true;
                Pumped::Moved
            }
            Err(_) => Pumped::Stuck,
        },
    }
}

// Delivers what a read gives to a ring that has room, and whose last was not put there yet.
fn give_first<A: Allocator + Copy>(
    core: &mut EndState<A>,
    lane: &mut ReadRing<A>,
    stream: u8,
) -> Pumped
    requires { lane.old.over ≡ has_last (put_in lane.old.end) }
    ensures same { SameReadEnd lane.old.end lane.new.end × (lane.new.held ≡ lane.old.held) }
    ensures over { lane.new.over ≡ has_last (put_in lane.new.end) }
    ensures after { AfterGive stream core.old (put_in lane.old.end) result core.new (put_in lane.new.end) }
    ensures fills { Fuller (put_in lane.old.end) (free_of lane.old.end) (put_in lane.new.end) (free_of lane.new.end) }
    ensures stops { StopsGiving stream core.old (put_in lane.old.end) result core.new (put_in lane.new.end) (free_of lane.new.end) }
{
    let ReadRing { end, held: _, over } = lane;
    if *over || end.room() == 0 {
        return Pumped::Stuck;
    }
    match by_number::read(core, stream, READ_LIMIT) {
        Ok(Got::Bytes(bytes)) => {
            end.put(Delivery::Bytes(bytes));
            Pumped::Moved
        }
        Ok(Got::Nothing) => Pumped::Nothing,
        Ok(Got::End) => {
            end.put(Delivery::End);
            *over = true;
            Pumped::Moved
        }
        Ok(Got::Aborted(code)) => {
            end.put(Delivery::Aborted(code));
            *over = true;
            Pumped::Moved
        }
        Err(why) => match why {
            EndError::NoMemory => Pumped::NoMemory,
            _ => Pumped::Stuck,
        },
    }
}

// Whether this is another writer of the stream, and is left.
fn is_other_busy<N: HubName<A>, A: Allocator + Copy>(
    writes: &Vec<WriteRing<A>, A>,
    place: usize,
    writer: usize,
    other: usize,
) -> bool
    requires { AllLanes N.write_ring writes.now.items × (place < 64) × (other < 8) }
    ensures { result ≡ (not (nat_eq other writer) && is_writing (inlet_at (map inlet_of writes.now.items) (8 * place + other))) }
{
    if other == writer {
        return false;
    }
    let lane = &writes[8 * place + other];
    is_busy(lane)
}

/// Whether no other writer of the stream at this place is left.
pub(crate) fn is_last<N: HubName<A>, A: Allocator + Copy>(
    writes: &Vec<WriteRing<A>, A>,
    place: usize,
    writer: usize,
) -> bool
    requires { AllLanes N.write_ring writes.now.items × (place < 64) }
    ensures { MatchBool result (NoOther (map inlet_of writes.now.items) place writer) (SomeOther (map inlet_of writes.now.items) place writer) }
{
    for other in 0..usize::from(WRITERS) {
        if is_other_busy::<N, A>(writes, place, writer, other) {
            return false;
        }
    }
    true
}

// One try to remove an item from a ring in place.
fn take_one<N: HubName<A>, A: Allocator + Copy>(
    core: &mut EndState<A>,
    writes: &mut Vec<WriteRing<A>, A>,
    place: usize,
    writer: usize,
) -> Pumped
    requires { AllLanes N.write_ring writes.old.items × (place < 64) × (writer < 8) }
    ensures lanes { AllLanes N.write_ring writes.new.items }
    ensures flows { FlowsIn core.old writes.old.items core.new writes.new.items }
    ensures grows { Grow writes.old.items writes.new.items }
    ensures stops { Stops (place + 1) result (taken_at writes.old.items (8 * place + writer)) core.new
        (taken_at writes.new.items (8 * place + writer)) (stands_at writes.new.items (8 * place + writer)) }
{
    let last = is_last::<N, A>(writes, place, writer);
    let lane = &mut writes[8 * place + writer];
    take_first(core, lane, place as u8 + 1, last)
}

// One try to deliver to a ring in place.
fn give_one<N: HubName<A>, A: Allocator + Copy>(
    core: &mut EndState<A>,
    reads: &mut Vec<ReadRing<A>, A>,
    place: usize,
) -> Pumped
    requires { AllReadLanes N.read_ring reads.old.items × (place < 64) }
    ensures lanes { AllReadLanes N.read_ring reads.new.items }
    ensures flows { FlowsOut core.old reads.old.items core.new reads.new.items }
    ensures fills { Fill reads.old.items reads.new.items }
    ensures stops { StopsGiving (place + 1) core.old (put_at reads.old.items place) result core.new (put_at reads.new.items place)
        (free_at reads.new.items place) }
{
    let lane = &mut reads[place];
    give_first(core, lane, place as u8 + 1)
}

// Moves all that the end accepts of one ring.
fn take_ring<N: HubName<A>, A: Allocator + Copy>(
    core: &mut EndState<A>,
    writes: &mut Vec<WriteRing<A>, A>,
    place: usize,
    writer: usize,
) -> Pumped
    requires { AllLanes N.write_ring writes.old.items × (place < 64) × (writer < 8) }
    ensures lanes { AllLanes N.write_ring writes.new.items }
    ensures flows { FlowsIn core.old writes.old.items core.new writes.new.items }
    ensures grows { Grow writes.old.items writes.new.items }
    ensures found { HadMemory result
        → Found core.new (place + 1) (taken_at writes.old.items (8 * place + writer)) (stands_at writes.old.items (8 * place + writer))
        (taken_at writes.new.items (8 * place + writer)) }
{
    for _ in 0..ROOM {
        match take_one::<N, A>(core, writes, place, writer) {
            Pumped::Moved => {}
            stopped => return stopped,
        }
    }
    Pumped::Moved
}

// Moves all that the end accepts of one stream, ring by ring.
fn take_stream<N: HubName<A>, A: Allocator + Copy>(
    core: &mut EndState<A>,
    writes: &mut Vec<WriteRing<A>, A>,
    place: usize,
) -> Pumped
    requires { AllLanes N.write_ring writes.old.items × (place < 64) }
    ensures lanes { AllLanes N.write_ring writes.new.items }
    ensures flows { FlowsIn core.old writes.old.items core.new writes.new.items }
    ensures grows { Grow writes.old.items writes.new.items }
    ensures tried { HadMemory result → TriesWriters core.old writes.old.items place core.new writes.new.items }
{
    for writer in 0..usize::from(WRITERS) {
        if let Pumped::NoMemory = take_ring::<N, A>(core, writes, place, writer) {
            return Pumped::NoMemory;
        }
    }
    Pumped::Moved
}

// Delivers all that there is room for of one stream.
fn give_stream<N: HubName<A>, A: Allocator + Copy>(
    core: &mut EndState<A>,
    reads: &mut Vec<ReadRing<A>, A>,
    place: usize,
) -> Pumped
    requires { AllReadLanes N.read_ring reads.old.items × (place < 64) }
    ensures lanes { AllReadLanes N.read_ring reads.new.items }
    ensures flows { FlowsOut core.old reads.old.items core.new reads.new.items }
    ensures fills { Fill reads.old.items reads.new.items }
    ensures tried { HadMemory result → TriesReader core.old reads.old.items place core.new reads.new.items }
{
    for _ in 0..ROOM {
        match give_one::<N, A>(core, reads, place) {
            Pumped::Moved => {}
            stopped => return stopped,
        }
    }
    Pumped::Moved
}

// Moves what can be moved of one stream. One that is not open has nothing to move: the ends of its rings are here still,
// and the end would refuse a write or a read.
fn pump_stream<N: HubName<A>, A: Allocator + Copy>(
    core: &mut EndState<A>,
    writes: &mut Vec<WriteRing<A>, A>,
    reads: &mut Vec<ReadRing<A>, A>,
    place: usize,
) -> Pumped
    requires { AllLanes N.write_ring writes.old.items × AllReadLanes N.read_ring reads.old.items × (place < 64) }
    ensures lanes { AllLanes N.write_ring writes.new.items × AllReadLanes N.read_ring reads.new.items }
    ensures flows { Flows (flow_of core.old writes.old.items reads.old.items) (flow_of core.new writes.new.items reads.new.items) }
    ensures grows { Grow writes.old.items writes.new.items × Fill reads.old.items reads.new.items }
    ensures tried { HadMemory result → calls.has_stream core.old (place + 1) ≡ true → (j : ℕ) → j < 8
        → Tried (flow_of core.old writes.old.items reads.old.items) (map known_of writes.old.items) place j
        (flow_of core.new writes.new.items reads.new.items) }
    ensures read { HadMemory result → calls.has_stream core.old (place + 1) ≡ true
        → TriedRead (flow_of core.old writes.old.items reads.old.items) (map room_of reads.old.items) place
        (flow_of core.new writes.new.items reads.new.items) }
{
    if !by_number::has_stream(core, place as u8 + 1) {
        return Pumped::Nothing;
    }
    if let Pumped::NoMemory = take_stream::<N, A>(core, writes, place) {
        return Pumped::NoMemory;
    }
    give_stream::<N, A>(core, reads, place)
}

/// Moves what can be moved. At `NoMemory` what was moved stays moved, and the next item stays in its place.
pub(crate) fn pump<N: HubName<A>, A: Allocator + Copy>(
    core: &mut EndState<A>,
    writes: &mut Vec<WriteRing<A>, A>,
    reads: &mut Vec<ReadRing<A>, A>,
) -> Pumped
    requires { AllLanes N.write_ring writes.old.items × AllReadLanes N.read_ring reads.old.items }
    ensures lanes { AllLanes N.write_ring writes.new.items × AllReadLanes N.read_ring reads.new.items }
    ensures flows { Flows (flow_of core.old writes.old.items reads.old.items) (flow_of core.new writes.new.items reads.new.items) }
    ensures tried { HadMemory result
        → AllTried (flow_of core.old writes.old.items reads.old.items) (map known_of writes.old.items) (map room_of reads.old.items)
        (flow_of core.new writes.new.items reads.new.items) }
{
    for place in 0..usize::from(STREAMS) {
        if let Pumped::NoMemory = pump_stream::<N, A>(core, writes, reads, place) {
            return Pumped::NoMemory;
        }
    }
    Pumped::Moved
}
