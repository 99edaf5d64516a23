//! The rings and the gauge of a hub, made and used while memory is refused.
ghost use Rattle.std.specs.Prelude.{◌≡◌, ℕ, IfSome};
ghost use Rattle.st_queues.specs.Lanes.{AllNamed, AllNamedReads, IsOurs, IsOurRead, ring_at};
ghost use Rattle.st_queues.specs.ReadEnds.{SameReadEnd};
ghost use Rattle.st_queues.specs.Watching.{no_totals};
ghost use Rattle.st_queues.specs.WriteEnds.{SameWriteEnd};

use st_queues::{
    Delivery, Gauge, GaugeSeat, Got, HubName, HubSeat, Named, QueueError, ReadEnd, ReadRing, Rings,
    StreamWriter, Totals, WriteEnd, WriteRing,
};
use std::alloc::{Allocator, Global};
use std::marker::Brand;
use std::process::Abort;
use test_refusing::Refusing;

/// Each request of new rings is refused in turn.
#[test]
fn rings_are_refused_where_memory_is(rt: HostRuntime) {
    let heap: Refusing<Global> = Refusing::new(rt.alloc());
    for n in 1..3000u64 {
        heap.refuse_only(n);
        let answer = Rings::new(&heap);
        let met = heap.has_refused();
        heap.refuse_none();
        match answer {
            Err(error) => {
                sure!(&rt; met, n);
                sure!(&rt; error.number() == 69);
            }
            Ok(_) => {
                sure!(&rt; !met, n);
                sure!(&rt; 1152 < n);
                return;
            }
        }
    }
    panic!(rt; "no run met no refusal");
}

/// The first ring.
fn first_write<N: HubName<A>, A: Allocator + Copy>(
    mut lanes: Vec<WriteRing<A>, A>,
) -> Option<WriteRing<A>>
    requires { AllNamed N.write_ring lanes.items }
    ensures { IfSome result (λ x. IsOurs N.write_ring x) }
{
    if lanes.is_empty() {
        return None;
    }
    Some(lanes.swap_remove(0))
}

fn first_read<N: HubName<A>, A: Allocator + Copy>(
    mut lanes: Vec<ReadRing<A>, A>,
) -> Option<ReadRing<A>>
    requires { AllNamedReads N.read_ring lanes.items }
    ensures { IfSome result (λ x. IsOurRead N.read_ring x) }
{
    if lanes.is_empty() {
        return None;
    }
    Some(lanes.swap_remove(0))
}

fn drop_one<A: Allocator + Copy>(end: &mut WriteEnd<A>)
    ensures { SameWriteEnd end.old end.new }
{
    if end.look() {
        end.drop_first();
    }
}

fn put_abort<A: Allocator + Copy>(end: &mut ReadEnd<A>)
    ensures { SameReadEnd end.old end.new }
{
    if end.room() > 0 {
        end.put(Delivery::Aborted(3));
    }
}

/// Two chunks and an end are written, and the end is refused when it is written again.
fn write_three<N: HubName<A>, A: Allocator + Copy>(
    rt: &impl Abort,
    writer: &mut StreamWriter<N, A>,
    one: Vec<u8, A>,
    two: Vec<u8, A>,
)
    ensures { writer.new.ring ≡ writer.old.ring }
{
    sure!(rt; writer.try_write(one).is_ok());
    sure!(rt; writer.try_write(two).is_ok());
    sure!(rt; writer.try_end().is_ok());
    sure!(rt; matches!(writer.try_end(), Err(QueueError::Ended(_))));
    sure!(rt; writer.free() == 0);
}

/// Two chunks and an end go through the first ring.
fn use_write_ring<N: HubName<A>, A: Allocator + Copy>(
    rt: &impl Abort,
    alloc: A,
    writes: Vec<WriteRing<A>, A>,
    one: Vec<u8, A>,
    two: Vec<u8, A>,
)
    requires { AllNamed N.write_ring writes.items }
{
    let mut lane = first_write::<N, A>(writes).expect(rt, "there is a ring");
    let mut writer = lane.hand_out::<N>(alloc).expect(rt, "nobody took it");
    write_three(rt, &mut writer, one, two);
    sure!(rt; lane.end.meet(&mut writer) == 3);
    drop_one(&mut lane.end);
    sure!(rt; lane.end.meet(&mut writer) == 2);
}

/// An abort goes through the first reader's ring.
fn use_read_ring<N: HubName<A>, A: Allocator + Copy>(rt: &impl Abort, reads: Vec<ReadRing<A>, A>)
    requires { AllNamedReads N.read_ring reads.items }
{
    let mut lane = first_read::<N, A>(reads).expect(rt, "there is a ring");
    let mut reader = lane.hand_out::<N>().expect(rt, "nobody took it");
    put_abort(&mut lane.end);
    sure!(rt; lane.end.meet(&mut reader) == 1);
    sure!(rt; matches!(reader.try_read(), Got::Aborted(3)));
}

/// Totals are published, and a stop is asked for.
fn use_gauge<N: HubName<A>, A: Allocator + Copy>(
    rt: &impl Abort,
    gauge: &Gauge<N, A>,
    hub_seat: &mut HubSeat<N, A>,
    seat: &mut GaugeSeat<N, A>,
)
    requires { hub_seat.old ≡ no_totals }
{
    let totals = Totals {
        accepted: 2,
        delivered: 0,
        credited: 0,
        paid: 0,
    };
    gauge.publish(hub_seat, totals);
    let mut other = gauge.split(seat);
    sure!(rt; gauge.seen(&mut other) == totals);
    gauge.ask_stop(seat);
    sure!(rt; gauge.stopped(&mut other));
}

/// Two chunks and an end go through the first ring, an abort through the first reader's, and totals are published.
fn use_all<N: HubName<A>, A: Allocator + Copy, R: Abort>(
    rt: &R,
    alloc: A,
    rings: Rings<A>,
    one: Vec<u8, A>,
    two: Vec<u8, A>,
)
    requires gauge { rings.gauge ≡ N.gauge }
    requires writes { (k : ℕ) → N.write_ring k ≡ ring_at rings.writes k }
    requires reads { (k : ℕ) → N.read_ring k ≡ ring_at rings.reads k }
{
    let Named {
        writes,
        reads,
        hub_gauge,
        mut hub_seat,
        mut seat,
        ..
    } = rings.named::<N>();
    use_write_ring::<N, A>(rt, alloc, writes, one, two);
    use_read_ring::<N, A>(rt, reads);
    use_gauge(rt, &hub_gauge, &mut hub_seat, &mut seat);
}

/// Once rings are made no call asks for memory.
#[test]
fn rings_that_are_made_ask_for_no_memory(rt: HostRuntime) {
    let heap: Refusing<Global> = Refusing::new(rt.alloc());
    let rings = Rings::new(&heap).expect(&rt, "memory");
    let one = Vec::from_slice(&heap, b"ab").expect(&rt, "memory");
    let two = Vec::from_elem(&heap, 7, 4096).expect(&rt, "memory");
    heap.refuse_from(1);
    use_all::<Brand, &Refusing<Global>, HostRuntime>(&rt, &heap, rings, one, two);
    sure!(&rt; heap.asked() == 0);
}
