//! All rings of a hub and its gauge, before the hub has a name.
ghost use Rattle.std.specs.Prelude.{◌≡◌, ℕ, ◌<◌, length, vec_len, IfOk, IsOkUnless};
ghost use Rattle.st_queues.specs.Lanes.{Fresh, FreshRead, AllFresh, AllFreshReads, AllNamed, AllNamedReads, ring_at};
ghost use Rattle.st_queues.specs.Watching.{nothing_seen, no_totals};

use crate::ends::{ReadEnd, WriteEnd};
use crate::error::QueueError;
use crate::gauge::{Gauge, GaugeSeat, HubSeat, NamedGauge, Opened};
use crate::items::{Delivery, Item};
use crate::lanes::{ReadRing, WriteRing};
use crate::name::HubName;
use rtrb::RingBuffer;
use std::alloc::{AllocError, Allocator};
use std::marker::Model;

/// The number of streams of a hub.
pub const STREAMS: u8 = 64;

/// The number of writers of each stream. Writer `j` of stream `s` has the ring number `8 s + j`.
pub const WRITERS: u8 = 8;

/// The number of items for which a new ring has room.
pub const ROOM: usize = 64;

// The rings to write to: STREAMS times WRITERS.
const WRITE_RINGS: u16 = 512;

/// The rings and the gauge of a hub that has no name yet. Contracts see them as the identities of the rings and the
/// gauge.
pub struct Rings<A: Allocator + Copy> {
    writes: Vec<WriteRing<A>, A>,
    reads: Vec<ReadRing<A>, A>,
    gauge: Opened<A>,
    alloc: A,
}

// It is written out, so that a caller does not prove again how each part is dropped.
impl<A: Allocator + Copy> Drop for Rings<A> {
    fn drop(self) {
        let Rings {
            writes: _,
            reads: _,
            gauge: _,
            alloc: _,
        } = self;
    }
}

impl<A: Allocator + Copy> Model for Rings<A> {
    ghost use Rattle.std.specs.Prelude.{◌≡◌, map, vec_len};
    ghost use Rattle.std.specs.Arc.{arc_value};
    ghost use Rattle.st_queues.specs.Names.{HubIds};
    ghost use Rattle.st_queues.specs.Lanes.{AllFresh, AllFreshReads, write_lane_ring, read_lane_ring};

    ghost Value = { HubIds A };

    ghost view = { λ r. record { gauge = (arc_value r.gauge.table).shared.table_id; writes = map write_lane_ring r.writes.items; reads = map read_lane_ring r.reads.items } };

    ghost invariant = { λ r. (vec_len r.writes ≡ 512) × (vec_len r.reads ≡ 64) × AllFresh r.writes.items × AllFreshReads r.reads.items };
}

// The ring of this number, with both its ends.
fn write_lane<A: Allocator + Copy>(alloc: A, ring: u16) -> Result<WriteRing<A>, AllocError>
    ensures { IfOk result (λ x. Fresh ring x) }
{
    let (producer, consumer) = RingBuffer::<Item<A>>::new(alloc, ROOM)?;
    Ok(WriteRing {
        end: WriteEnd { consumer, ring },
        held: Some(producer),
        over: false,
    })
}

fn read_lane<A: Allocator + Copy>(alloc: A, stream: u8) -> Result<ReadRing<A>, AllocError>
    ensures { IfOk result (λ x. FreshRead stream x) }
{
    let (producer, consumer) = RingBuffer::<Delivery<A>>::new(alloc, ROOM)?;
    Ok(ReadRing {
        end: ReadEnd { producer, stream },
        held: Some(consumer),
        over: false,
    })
}

fn write_lanes<A: Allocator + Copy>(alloc: A) -> Result<Vec<WriteRing<A>, A>, AllocError>
    ensures { IfOk result (λ v. (vec_len v ≡ 512) × AllFresh v.items) }
{
    let mut lanes = Vec::new(alloc);
    for ring in 0..WRITE_RINGS {
        let lane = write_lane(alloc, ring)?;
        lanes.push(lane)?;
    }
    Ok(lanes)
}

fn read_lanes<A: Allocator + Copy>(alloc: A) -> Result<Vec<ReadRing<A>, A>, AllocError>
    ensures { IfOk result (λ v. (vec_len v ≡ 64) × AllFreshReads v.items) }
{
    let mut lanes = Vec::new(alloc);
    for stream in 0..STREAMS {
        let lane = read_lane(alloc, stream)?;
        lanes.push(lane)?;
    }
    Ok(lanes)
}

impl<A: Allocator + Copy> Rings<A> {
    /// The rings of 64 streams, with room for 64 items each, and a gauge at 0. No other call of this crate allocates.
    ///
    /// Fails with `NoMemory` if memory is refused.
    pub fn new(alloc: A) -> Result<Rings<A>, QueueError<A>>
        ensures made { IfOk result (λ r. (length r.writes ≡ 512) × (length r.reads ≡ 64) × (r.gauge.words ≡ 5)) }
        ensures refused { IsOkUnless result QueueError.NoMemory }
    {
        Ok(Rings {
            writes: write_lanes(alloc)?,
            reads: read_lanes(alloc)?,
            gauge: Opened::new(alloc)?,
            alloc,
        })
    }

    /// The rings and the gauge under the name `N` that was created for them. Does not allocate.
    pub fn named<N: HubName<A>>(self) -> Named<N, A>
        requires gauge { self.gauge ≡ N.gauge }
        requires writes { (k : ℕ) → N.write_ring k ≡ ring_at self.writes k }
        requires reads { (k : ℕ) → N.read_ring k ≡ ring_at self.reads k }
        ensures writes { (vec_len result.writes ≡ 512) × AllNamed N.write_ring result.writes.items }
        ensures reads { (vec_len result.reads ≡ 64) × AllNamedReads N.read_ring result.reads.items }
        ensures seats { (result.hub_seat ≡ no_totals) × (result.seat ≡ nothing_seen) }
    {
        let Rings {
            writes,
            reads,
            gauge,
            alloc,
        } = self;
        let NamedGauge {
            hub_gauge,
            hub_seat,
            gauge,
            seat,
        } = gauge.named::<N>();
        Named {
            writes,
            reads,
            hub_gauge,
            hub_seat,
            gauge,
            seat,
            alloc,
        }
    }
}

/// The rings and the gauge of the hub `N` at its start.
#[derive(Drop)]
pub struct Named<N: HubName<A>, A: Allocator + Copy> {
    /// The rings from writers, by number: writer `j` of stream `s` is at `8 s + j`.
    pub writes: Vec<WriteRing<A>, A>,
    /// The rings to readers, by the index of their stream.
    pub reads: Vec<ReadRing<A>, A>,
    /// The gauge that the hub publishes on.
    pub hub_gauge: Gauge<N, A>,
    /// The one seat that publishes.
    pub hub_seat: HubSeat<N, A>,
    /// The gauge for watchers.
    pub gauge: Gauge<N, A>,
    /// A watcher's seat.
    pub seat: GaugeSeat<N, A>,
    /// The allocator of the rings.
    pub alloc: A,
}
