//! The rings of a hub, by their places.

ghost use Rattle.std.specs.Prelude.{◌≡◌, ◌≢◌, ◌+◌, ◌*◌, ◌<◌, ℕ, true, false, not, ◌&&◌, ◌++◌, length, map, IfSome, IfNone};
ghost use Rattle.st_end.specs.Calls.{has_stream};
ghost use Rattle.st_hub.specs.Flow.{inlet_at, outlet_at, writer_out, reader_out};
ghost use Rattle.st_hub.specs.Handing.{IsFreshWriter, IsFreshReader};
ghost use Rattle.st_hub.specs.Inside.{inlet_of, outlet_of, stands_at, AllLanes, AllReadLanes};

use st_end::{EndState, by_number};
use st_queues::{HubName, ReadRing, StreamReader, StreamWriter, WriteRing};
use std::alloc::Allocator;

/// Hands out the writer of a ring, if it was not handed out before. Does not allocate.
pub(crate) fn writer<N: HubName<A>, A: Allocator + Copy>(
    alloc: A,
    writes: &mut Vec<WriteRing<A>, A>,
    ring: usize,
) -> Option<StreamWriter<N, A>>
    requires { AllLanes N.write_ring writes.old.items × (ring < 512) }
    ensures lanes { AllLanes N.write_ring writes.new.items }
    ensures found { IfSome result (λ w. IsFreshWriter ring w × ((inlet_at (map inlet_of writes.old.items) ring).out ≡ false)) }
    ensures none { IfNone result ((inlet_at (map inlet_of writes.old.items) ring).out ≡ true) }
    ensures out { map inlet_of writes.new.items ≡ writer_out (map inlet_of writes.old.items) ring }
{
    let lane = &mut writes[ring];
    lane.hand_out::<N>(alloc)
}

/// Hands out the reader of a stream, if it was not handed out before. Does not allocate.
pub(crate) fn reader<N: HubName<A>, A: Allocator + Copy>(
    reads: &mut Vec<ReadRing<A>, A>,
    place: usize,
) -> Option<StreamReader<N, A>>
    requires { AllReadLanes N.read_ring reads.old.items × (place < 64) }
    ensures lanes { AllReadLanes N.read_ring reads.new.items }
    ensures found { IfSome result (λ r. IsFreshReader place r × ((outlet_at (map outlet_of reads.old.items) place).out ≡ false)) }
    ensures none { IfNone result ((outlet_at (map outlet_of reads.old.items) place).out ≡ true) }
    ensures out { map outlet_of reads.new.items ≡ reader_out (map outlet_of reads.old.items) place }
{
    let lane = &mut reads[place];
    lane.hand_out::<N>()
}

/// Hands out the first writer and the reader of a stream that nobody has. Does not allocate.
pub(crate) fn ends<N: HubName<A>, A: Allocator + Copy>(
    alloc: A,
    writes: &mut Vec<WriteRing<A>, A>,
    reads: &mut Vec<ReadRing<A>, A>,
    place: usize,
) -> (StreamWriter<N, A>, StreamReader<N, A>)
    requires lanes { AllLanes N.write_ring writes.old.items × AllReadLanes N.read_ring reads.old.items × (place < 64) }
    requires held { ((inlet_at (map inlet_of writes.old.items) (8 * place)).out ≡ false)
        × ((outlet_at (map outlet_of reads.old.items) place).out ≡ false) }
    ensures lanes { AllLanes N.write_ring writes.new.items × AllReadLanes N.read_ring reads.new.items }
    ensures fresh { IsFreshWriter (8 * place) result.0 × IsFreshReader place result.1 }
    ensures out { (map inlet_of writes.new.items ≡ writer_out (map inlet_of writes.old.items) (8 * place))
        × (map outlet_of reads.new.items ≡ reader_out (map outlet_of reads.old.items) place) }
{
    let Some(writer) = writer::<N, A>(alloc, writes, 8 * place) else {
        unreachable!();
    };
    let Some(reader) = reader::<N, A>(reads, place) else {
        unreachable!();
    };
    (writer, reader)
}

/// The lowest place of an open stream whose reader is still here.
pub(crate) fn first_left<A: Allocator + Copy>(
    core: &EndState<A>,
    reads: &Vec<ReadRing<A>, A>,
) -> Option<u8>
    requires { length reads.now.items ≡ 64 }
    ensures found { IfSome result (λ s. (s < 64) × (has_stream core.now (s + 1) ≡ true) × ((outlet_at (map outlet_of reads.now.items) s).out ≡ false)) }
    ensures lowest { IfSome result (λ s. (t : ℕ) → t < s
        → has_stream core.now (t + 1) ≡ true → (outlet_at (map outlet_of reads.now.items) t).out ≡ true) }
    ensures none { IfNone result ((t : ℕ) → t < 64
        → has_stream core.now (t + 1) ≡ true → (outlet_at (map outlet_of reads.now.items) t).out ≡ true) }
{
    for place in 0..64u8 {
        if is_left(core, reads, place) {
            return Some(place);
        }
    }
    None
}

// Whether a stream is open whose reader is still here.
fn is_left<A: Allocator + Copy>(core: &EndState<A>, reads: &Vec<ReadRing<A>, A>, place: u8) -> bool
    requires { (length reads.now.items ≡ 64) × (place < 64) }
    ensures { result ≡ (has_stream core.now (place + 1) && not (outlet_at (map outlet_of reads.now.items) place).out) }
{
    by_number::has_stream(core, place + 1) && is_here(reads, place)
}

// Whether the reader of a stream is still here.
fn is_here<A: Allocator + Copy>(reads: &Vec<ReadRing<A>, A>, place: u8) -> bool
    requires { (length reads.now.items ≡ 64) × (place < 64) }
    ensures { result ≡ not (outlet_at (map outlet_of reads.now.items) place).out }
{
    reads[usize::from(place)].held.is_some()
}

/// The number of items in the ring of this writer. Does not allocate.
pub(crate) fn meet_writer<N: HubName<A>, A: Allocator + Copy>(
    writes: &mut Vec<WriteRing<A>, A>,
    writer: &mut StreamWriter<N, A>,
) -> usize
    requires { AllLanes N.write_ring writes.old.items }
    ensures lanes { AllLanes N.write_ring writes.new.items × (map inlet_of writes.new.items ≡ map inlet_of writes.old.items) }
    ensures writer { (writer.new.ring ≡ writer.old.ring) × (writer.new.items ≡ writer.old.items) × (writer.new.ended ≡ writer.old.ended) }
    ensures count { result ≡ length (stands_at writes.new.items writer.old.ring) }
    ensures others { (r : ℕ) → r ≢ writer.old.ring → stands_at writes.new.items r ≡ stands_at writes.old.items r }
    ensures whole { (inlet_at (map inlet_of writes.old.items) writer.old.ring).taken ++ stands_at writes.new.items writer.old.ring ≡ writer.old.items }
{
    let lane = &mut writes[writer.ring()];
    lane.end.meet(writer)
}

/// The number of items in the ring of this reader. Does not allocate.
pub(crate) fn meet_reader<N: HubName<A>, A: Allocator + Copy>(
    reads: &mut Vec<ReadRing<A>, A>,
    reader: &mut StreamReader<N, A>,
) -> usize
    requires { AllReadLanes N.read_ring reads.old.items }
    ensures lanes { AllReadLanes N.read_ring reads.new.items × (map outlet_of reads.new.items ≡ map outlet_of reads.old.items) }
    ensures reader { (reader.new.stream ≡ reader.old.stream) × (reader.new.items ≡ reader.old.items) × (reader.new.over ≡ reader.old.over) }
    ensures count { result ≡ length reader.new.known }
    ensures whole { reader.old.items ++ reader.new.known ≡ (outlet_at (map outlet_of reads.old.items) reader.old.stream).put }
{
    let lane = &mut reads[reader.stream()];
    lane.end.meet(reader)
}
