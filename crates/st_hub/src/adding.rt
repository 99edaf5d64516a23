//! Further writers of a stream.

ghost use Rattle.std.specs.Prelude.{◌≡◌, ◌+◌, ◌*◌, ◌<◌, ℕ, true, false, not, length, map, IfSome, IfNone, MatchBool};
ghost use Rattle.st_hub.specs.Flow.{inlet_at, writer_out};
ghost use Rattle.st_hub.specs.Handing.{IsStream, IsFreshWriter, AllOut, SomeOut, NoneOut, IsTooLate};
ghost use Rattle.st_hub.specs.Inside.{inlet_of, AllLanes};

use crate::lanes;
use crate::pumping::is_last;
use st_end::EndState;
use st_queues::{HubName, StreamWriter, WRITERS, WriteRing};
use st_streams::StreamId;
use std::alloc::Allocator;

/// Whether a stream is open.
pub(crate) fn is_stream<A: Allocator + Copy>(core: &EndState<A>, stream: StreamId) -> bool
    ensures { MatchBool result (IsStream core.now stream) (¬ (IsStream core.now stream)) }
{
    let _ = stream.number();
    core.has_stream(stream)
}

// Whether a writer's end is still here.
fn is_unused<A: Allocator + Copy>(
    writes: &Vec<WriteRing<A>, A>,
    place: usize,
    writer: usize,
) -> bool
    requires { (length writes.now.items ≡ 512) × (place < 64) × (writer < 8) }
    ensures { result ≡ not (inlet_at (map inlet_of writes.now.items) (8 * place + writer)).out }
{
    writes[8 * place + writer].held.is_some()
}

/// The first of a stream's further writers that is still here.
pub(crate) fn first_unused<A: Allocator + Copy>(
    writes: &Vec<WriteRing<A>, A>,
    place: usize,
) -> Option<usize>
    requires { (length writes.now.items ≡ 512) × (place < 64) }
    ensures found { IfSome result (λ j. (0 < j) × (j < 8) × ((inlet_at (map inlet_of writes.now.items) (8 * place + j)).out ≡ false)) }
    ensures none { IfNone result (AllOut (map inlet_of writes.now.items) place) }
{
    for writer in 1..usize::from(WRITERS) {
        if is_unused(writes, place, writer) {
            return Some(writer);
        }
    }
    None
}

// Whether a writer of the stream was handed out.
fn is_written<A: Allocator + Copy>(writes: &Vec<WriteRing<A>, A>, place: usize) -> bool
    requires { (length writes.now.items ≡ 512) × (place < 64) }
    ensures { MatchBool result (SomeOut (map inlet_of writes.now.items) place) (NoneOut (map inlet_of writes.now.items) place) }
{
    for writer in 0..usize::from(WRITERS) {
        if !is_unused(writes, place, writer) {
            return true;
        }
    }
    false
}

/// Whether a writer of the stream was handed out, and each that was has ended.
pub(crate) fn is_too_late<N: HubName<A>, A: Allocator + Copy>(
    writes: &Vec<WriteRing<A>, A>,
    place: usize,
) -> bool
    requires { AllLanes N.write_ring writes.now.items × (place < 64) }
    ensures { MatchBool result (IsTooLate (map inlet_of writes.now.items) place) (¬ (IsTooLate (map inlet_of writes.now.items) place)) }
{
    if !is_written(writes, place) {
        return false;
    }
    is_last::<N, A>(writes, place, usize::from(WRITERS))
}

/// Hands out a writer that is still here.
pub(crate) fn further_writer<N: HubName<A>, A: Allocator + Copy>(
    alloc: A,
    writes: &mut Vec<WriteRing<A>, A>,
    ring: usize,
) -> StreamWriter<N, A>
    requires lanes { AllLanes N.write_ring writes.old.items × (ring < 512) }
    requires held { (inlet_at (map inlet_of writes.old.items) ring).out ≡ false }
    ensures lanes { AllLanes N.write_ring writes.new.items }
    ensures fresh { IsFreshWriter ring result }
    ensures out { map inlet_of writes.new.items ≡ writer_out (map inlet_of writes.old.items) ring }
{
    let Some(writer) = lanes::writer::<N, A>(alloc, writes, ring) else {
        unreachable!();
    };
    writer
}
