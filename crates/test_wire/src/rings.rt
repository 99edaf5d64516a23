ghost use Rattle.std.specs.Prelude.{◌≡◌, ℕ, IfSome};
ghost use Rattle.st_queues.specs.Lanes.{AllNamed, Fresh, IsOurs, ring_at};
ghost use Rattle.st_queues.specs.Watching.{no_totals};
ghost use Rattle.st_queues.specs.WriteEnds.{SameWriteEnd};

use st_queues::{
    Gauge, GaugeSeat, HubName, HubSeat, Item, Named, QueueError, Rings, StreamWriter, Totals,
    WriteEnd, WriteRing,
};
use std::alloc::Global;
use std::marker::Brand;
use std::process::Abort;

/// The ring of this number.
fn write_lane<N: HubName<Global>>(
    mut lanes: Vec<WriteRing<Global>>,
    ring: usize,
) -> Option<WriteRing<Global>>
    requires { AllNamed N.write_ring lanes.items }
    ensures { IfSome result (λ x. Fresh ring x × IsOurs N.write_ring x) }
{
    if ring >= lanes.len() {
        return None;
    }
    Some(lanes.swap_remove(ring))
}

/// Whether this is the refusal of that number, with the chunk given back.
fn is_refused(told: Result<(), QueueError<Global>>, number: u8, chunk: &[u8]) -> bool {
    let Err(error) = told else {
        return false;
    };
    if error.number() != number || error.inner().is_some() {
        return false;
    }
    match error {
        QueueError::NoMemory => false,
        QueueError::Full(c) | QueueError::BadLength(c) | QueueError::Ended(c) => {
            c.as_slice() == chunk
        }
    }
}

/// Removes the first item, and returns whether it is these bytes; none for the end.
fn next_is(end: &mut WriteEnd<Global>, bytes: Option<&[u8]>) -> bool
    ensures { SameWriteEnd end.old end.new }
{
    if !end.look() {
        return false;
    }
    let is = match end.first() {
        Item::Chunk(chunk) => bytes == Some(chunk.as_slice()),
        Item::End => bytes.is_none(),
    };
    end.drop_first();
    is
}

/// A ring of its own and its writer.
fn open_write<N: HubName<Global>>(
    rt: &impl Abort,
    alloc: Global,
    rings: Rings<Global>,
    ring: usize,
) -> (WriteRing<Global>, StreamWriter<N, Global>)
    requires gauge { rings.gauge ≡ N.gauge }
    requires writes { (k : ℕ) → N.write_ring k ≡ ring_at rings.writes k }
    requires reads { (k : ℕ) → N.read_ring k ≡ ring_at rings.reads k }
    ensures lane { IsOurs N.write_ring result.0 }
    ensures writer { result.1.ring ≡ result.0.end.ring }
{
    let Named { writes, .. } = rings.named::<N>();
    let mut lane = write_lane::<N>(writes, ring).expect(rt, "the ring is there");
    let writer = lane.hand_out::<N>(alloc).expect(rt, "nobody took it");
    (lane, writer)
}

/// A fresh ring takes 64 chunks of one byte.
fn fill<N: HubName<Global>>(rt: &impl Abort, alloc: Global, writer: &mut StreamWriter<N, Global>)
    ensures { writer.new.ring ≡ writer.old.ring }
{
    sure!(rt; writer.free() == 64);
    for _ in 0..64u8 {
        sure!(rt; writer.try_write(Vec::from_slice(alloc, b"a").expect(rt, "memory")).is_ok());
    }
    sure!(rt; writer.free() == 0);
}

/// A full ring refuses a chunk, an end, an empty chunk, and one of 4,097 bytes.
fn refuse_more<N: HubName<Global>>(
    rt: &impl Abort,
    alloc: Global,
    writer: &mut StreamWriter<N, Global>,
)
    ensures { writer.new.ring ≡ writer.old.ring }
{
    let last = Vec::from_slice(alloc, b"z").expect(rt, "memory");
    sure!(rt; is_refused(writer.try_write(last), 70, b"z"));
    sure!(rt; is_refused(writer.try_end(), 70, b""));
    sure!(rt; is_refused(writer.try_write(Vec::new(alloc)), 71, b""));
    let long = Vec::from_elem(alloc, 7, 4097).expect(rt, "memory");
    let back = writer.try_write(long);
    sure!(rt; matches!(&back, Err(QueueError::BadLength(chunk)) if chunk.len() == 4097));
}

/// A ring is filled, and has room for one once one was removed.
fn fill_ring<N: HubName<Global>, R: Abort>(rt: &R, alloc: Global, rings: Rings<Global>, ring: usize)
    requires gauge { rings.gauge ≡ N.gauge }
    requires writes { (k : ℕ) → N.write_ring k ≡ ring_at rings.writes k }
    requires reads { (k : ℕ) → N.read_ring k ≡ ring_at rings.reads k }
{
    let (mut lane, mut writer) = open_write::<N>(rt, alloc, rings, ring);
    sure!(rt; writer.ring() == ring);
    fill(rt, alloc, &mut writer);
    refuse_more(rt, alloc, &mut writer);
    sure!(rt; lane.end.meet(&mut writer) == 64);
    sure!(rt; next_is(&mut lane.end, Some(b"a".as_slice())));
    sure!(rt; writer.free() == 1);
    sure!(rt; writer.try_end().is_ok());
    sure!(rt; lane.end.meet(&mut writer) == 64);
    sure!(rt; lane.hand_out::<N>(alloc).is_none());
}

#[test]
fn a_fresh_ring_takes_64_items(rt: HostRuntime) {
    for ring in [0, 7, 511] {
        let rings = Rings::new(rt.alloc()).expect(&rt, "memory");
        fill_ring::<Brand, HostRuntime>(&rt, rt.alloc(), rings, ring);
    }
}

fn totals(accepted: u64, delivered: u64, credited: u64, paid: u64) -> Totals
    ensures { (result.accepted ≡ accepted) × (result.delivered ≡ delivered) × (result.credited ≡ credited) × (result.paid ≡ paid) }
{
    Totals {
        accepted,
        delivered,
        credited,
        paid,
    }
}

/// Totals are published twice, and each seat sees them.
fn publish_twice<N: HubName<Global>>(
    rt: &impl Abort,
    hub_gauge: &Gauge<N, Global>,
    gauge: &Gauge<N, Global>,
    hub_seat: &mut HubSeat<N, Global>,
    seat: &mut GaugeSeat<N, Global>,
    other: &mut GaugeSeat<N, Global>,
)
    requires { hub_seat.old ≡ no_totals }
{
    sure!(rt; gauge.seen(seat) == totals(0, 0, 0, 0));
    hub_gauge.publish(hub_seat, totals(4, 3, 2, 1));
    sure!(rt; gauge.seen(seat) == totals(4, 3, 2, 1));
    hub_gauge.publish(hub_seat, totals(4, 30, 2, 10));
    sure!(rt; hub_gauge.seen(other) == totals(4, 30, 2, 10));
}

/// One seat asks to stop, and each sees it.
fn stop_once<N: HubName<Global>>(
    rt: &impl Abort,
    hub_gauge: &Gauge<N, Global>,
    gauge: &Gauge<N, Global>,
    seat: &mut GaugeSeat<N, Global>,
    other: &mut GaugeSeat<N, Global>,
) {
    sure!(rt; !gauge.stopped(seat));
    gauge.ask_stop(other);
    sure!(rt; gauge.stopped(other));
    sure!(rt; hub_gauge.stopped(seat));
    sure!(rt; gauge.stopped(&mut gauge.split(seat)));
}

fn watch<N: HubName<Global>, R: Abort>(rt: &R, rings: Rings<Global>)
    requires gauge { rings.gauge ≡ N.gauge }
    requires writes { (k : ℕ) → N.write_ring k ≡ ring_at rings.writes k }
    requires reads { (k : ℕ) → N.read_ring k ≡ ring_at rings.reads k }
{
    let Named {
        hub_gauge,
        mut hub_seat,
        gauge,
        mut seat,
        ..
    } = rings.named::<N>();
    let mut other = gauge.split(&mut seat);
    publish_twice(rt, &hub_gauge, &gauge, &mut hub_seat, &mut seat, &mut other);
    stop_once(rt, &hub_gauge, &gauge, &mut seat, &mut other);
    sure!(rt; gauge.seen(&mut seat) == totals(4, 30, 2, 10));
}

#[test]
fn a_gauge_tells_what_was_published(rt: HostRuntime) {
    let rings = Rings::new(rt.alloc()).expect(&rt, "memory");
    watch::<Brand, HostRuntime>(&rt, rings);
}
