//! One ring between two threads.
ghost use Rattle.std.specs.Prelude.{◌≡◌, ℕ, IfSome};
ghost use Rattle.st_queues.specs.Lanes.{AllNamed, Fresh, IsOurs, ring_at};

use st_queues::{HubName, Item, Named, QueueError, Rings, StreamWriter, WriteEnd, WriteRing};
use std::alloc::Global;
use std::marker::Brand;
use std::thread;
use std::thread::Threads;

/// Writes a chunk as soon as there is room: whether it was accepted.
pub(crate) fn write<N: HubName<Global>>(
    writer: &mut StreamWriter<N, Global>,
    mut chunk: Vec<u8>,
) -> bool {
    for _ in 0..u64::MAX {
        match writer.try_write(chunk) {
            Ok(()) => return true,
            Err(QueueError::Full(back)) => chunk = back,
            Err(_) => return false,
        }
        thread::yield_now();
    }
    false
}

/// Writes an end as soon as there is room.
pub(crate) fn end<N: HubName<Global>>(writer: &mut StreamWriter<N, Global>) {
    for _ in 0..u64::MAX {
        match writer.try_end() {
            Err(QueueError::Full(_)) => thread::yield_now(),
            _ => return,
        }
    }
}

/// Writes `chunks` chunks of `length` bytes, and then an end.
pub(crate) fn write_all<N: HubName<Global>>(
    alloc: Global,
    writer: &mut StreamWriter<N, Global>,
    chunks: u64,
    length: u64,
) {
    for _ in 0..chunks {
        let Ok(chunk) = Vec::from_elem(alloc, 7, length as usize) else {
            break;
        };
        if !write(writer, chunk) {
            break;
        }
    }
    end(writer);
}

/// Takes the first item: whether that was a chunk.
fn take(ring: &mut WriteEnd<Global>) -> Option<bool> {
    if !ring.look() {
        return None;
    }
    let is_chunk = matches!(ring.first(), Item::Chunk(_));
    ring.drop_first();
    Some(is_chunk)
}

/// Removes items until the end: how many chunks that was.
fn take_all(ring: &mut WriteEnd<Global>) -> u64 {
    let mut came = 0_u64;
    for _ in 0..u64::MAX {
        match take(ring) {
            Some(true) => came = came.saturating_add(1),
            Some(false) => return came,
            None => thread::yield_now(),
        }
    }
    came
}

/// The ring of this number.
fn lane_at<N: HubName<Global>>(
    mut lanes: Vec<WriteRing<Global>>,
    ring: usize,
) -> Option<WriteRing<Global>>
    requires { AllNamed N.write_ring lanes.items }
    ensures { IfSome result (λ x. Fresh ring x × IsOurs N.write_ring x) }
{
    if ring >= lanes.len() {
        return None;
    }
    Some(lanes.swap_remove(ring))
}

fn pass_named<N: HubName<Global> + Send + Sync, R: Threads + Sync>(
    rt: &R,
    alloc: Global,
    rings: Rings<Global>,
    chunks: u64,
    length: u64,
) -> Option<u64>
    requires gauge { rings.gauge ≡ N.gauge }
    requires writes { (k : ℕ) → N.write_ring k ≡ ring_at rings.writes k }
    requires reads { (k : ℕ) → N.read_ring k ≡ ring_at rings.reads k }
{
    let Named { writes, .. } = rings.named::<N>();
    let mut lane = lane_at::<N>(writes, 0)?;
    let mut writer = lane.hand_out::<N>(alloc)?;
    let WriteRing { mut end, .. } = lane;
    let (_, came) = thread::join(
        rt,
        || write_all(alloc, &mut writer, chunks, length),
        || take_all(&mut end),
    );
    Some(came)
}

/// Passes chunks of `length` bytes, 1 to 4,096, from one thread to another: how many arrived.
pub(crate) fn pass_chunks<R: Threads + Sync>(
    rt: &R,
    alloc: Global,
    chunks: u64,
    length: u64,
) -> u64 {
    match Rings::new(alloc) {
        Ok(rings) => pass_named::<Brand, R>(rt, alloc, rings, chunks, length).unwrap_or(0),
        Err(_) => 0,
    }
}
