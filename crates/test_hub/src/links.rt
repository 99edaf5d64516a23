//! Two hubs, connected by a link.
use crate::ends::{Counting, stopped_clock};
use crate::hubs::{Locked, Trial, credited, open, pump, run, share_of, work_on};
use crate::readings::Reading;
use st_end::StreamId;
use st_hub::{CreditShare, HubLink, HubState, WorkEnd};
use st_queues::{GaugeSeat, HubName, StreamWriter};
use std::alloc::Global;
use std::process::Abort;
use std::sync::Wait;

/// Sends to the second hub over a link, for this number of rounds of one worker. Returns the link's
/// share.
pub(crate) fn send_over<N: HubName<Global>, M: HubName<Global>, R: Wait + Abort + std::time::Clock>(
    rt: &R,
    hubs: &Locked<N, M>,
    seat: &mut GaugeSeat<N, Global>,
    share: CreditShare<M>,
    turns: u32,
) -> CreditShare<M> {
    let mut link = HubLink::new(rt, &hubs.far, share, stopped_clock(rt));
    let mut ivs = Counting { first: 1, next: 0 };
    let told = work_on(rt, hubs, seat, &mut link, &mut ivs, turns);
    sure!(rt; told == WorkEnd::Turns);
    link.into_share()
}

/// "ab" and "cd" are written on a stream.
pub(crate) fn write_two<N: HubName<Global>>(
    rt: &impl Abort,
    alloc: Global,
    writer: &mut StreamWriter<N, Global>,
    one: &[u8; 2],
    two: &[u8; 2],
) {
    for chunk in [one, two] {
        let bytes = chunk.to_vec(alloc).expect(rt, "memory");
        sure!(rt; writer.try_write(bytes).is_ok());
    }
}

/// "ab" and "cd" are written on a stream, and pumped, and 10 units are offered there.
fn write_abcd<N: HubName<Global>>(
    rt: &impl Abort,
    alloc: Global,
    hub: &mut HubState<N, Global>,
) -> StreamId {
    let (stream, mut writer) = open(rt, hub);
    write_two(rt, alloc, &mut writer, b"ab", b"cd");
    pump(rt, hub);
    sure!(rt; hub.meet_writer(&mut writer) == 0);
    sure!(rt; hub.offer(stream, 10) == Ok(()));
    stream
}

/// "abcd" arrives on one stream, which is not over.
fn read_abcd<M: HubName<Global>>(rt: &impl Abort, alloc: Global, hub: &mut HubState<M, Global>) {
    let mut reading = Reading::new(alloc);
    reading.go_on(rt, hub);
    sure!(rt; reading.read.as_slice() == b"abcd".as_slice());
    sure!(rt; !reading.is_over);
    sure!(rt; hub.take_stream().is_none());
}

/// "ab" and "cd" are written at one hub, with 10 units offered, and read at the other.
#[derive(Drop)]
struct Written;

impl<R: Wait + Abort + std::time::Clock> Trial<R> for Written {
    fn run<N: HubName<Global>, M: HubName<Global>>(
        &self,
        rt: &R,
        alloc: Global,
        hubs: &Locked<N, M>,
        seat: &mut GaugeSeat<N, Global>,
    ) {
        let stream = write_abcd(rt, alloc, &mut *hubs.near.lock(rt));
        sure!(rt; hubs.gauge.seen(seat).accepted == 4);
        sure!(rt; hubs.far.lock(rt).set_receive_max(stream, 100) == Ok(()));
        let share = share_of(rt, &mut *hubs.far.lock(rt));
        let share = send_over(rt, hubs, seat, share, 8);
        sure!(rt; hubs.gauge.seen(seat).paid == 10);
        read_abcd(rt, alloc, &mut *hubs.far.lock(rt));
        sure!(rt; credited(rt, alloc, hubs, share) == 10);
    }
}

#[test]
fn what_is_written_is_read_at_the_other_hub(rt: HostRuntime) {
    run(&rt, rt.alloc(), 1_000, &Written);
}
