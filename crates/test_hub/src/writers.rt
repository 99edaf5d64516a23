//! Chunks that are pumped, from one writer and from several.
use crate::hubs::{Locked, Trial, further, open, pump, run, share_of};
use crate::links::{send_over, write_two};
use crate::readings::Reading;
use st_end::StreamId;
use st_hub::HubState;
use st_queues::{GaugeSeat, HubName, StreamWriter};
use std::alloc::Global;
use std::process::Abort;
use std::sync::Wait;

/// Two bytes are written and pumped.
fn write_one<N: HubName<Global>>(rt: &impl Abort, alloc: Global, hub: &mut HubState<N, Global>) {
    let (_, mut writer) = open(rt, hub);
    let chunk = b"ab".to_vec(alloc).expect(rt, "memory");
    sure!(rt; writer.try_write(chunk).is_ok());
    pump(rt, hub);
    sure!(rt; hub.meet_writer(&mut writer) == 0);
}

/// What was written is what the gauge shows.
#[derive(Drop)]
struct ReadsBack;

impl<R: Wait + Abort> Trial<R> for ReadsBack {
    fn run<N: HubName<Global>, M: HubName<Global>>(
        &self,
        rt: &R,
        alloc: Global,
        hubs: &Locked<N, M>,
        seat: &mut GaugeSeat<N, Global>,
    ) {
        write_one(rt, alloc, &mut *hubs.near.lock(rt));
        sure!(rt; hubs.gauge.seen(seat).accepted == 2);
    }
}

#[test]
fn reads_back(rt: HostRuntime) {
    run(&rt, rt.alloc(), 1_000, &ReadsBack);
}

/// The number of a refusal of a further writer, 0 if there is none.
fn refusal<N: HubName<Global>>(hub: &mut HubState<N, Global>, stream: StreamId) -> u8 {
    match hub.add_writer(stream) {
        Ok(_) => 0,
        Err(refused) => refused.number(),
    }
}

/// The stream is closed with the second of two ends.
fn end_two<N: HubName<Global>>(
    rt: &impl Abort,
    hub: &mut HubState<N, Global>,
    stream: StreamId,
    first: &mut StreamWriter<N, Global>,
    second: &mut StreamWriter<N, Global>,
) {
    sure!(rt; first.try_end().is_ok());
    pump(rt, hub);
    sure!(rt; hub.offer(stream, 0) == Ok(()));
    sure!(rt; second.try_end().is_ok());
    pump(rt, hub);
    sure!(rt; hub.offer(stream, 0).err().map(|e| e.number()) == Some(51));
    sure!(rt; refusal(hub, stream) == 79);
}

/// One writer puts "aa" and "bb", the other one "cc", and both end.
fn write_all<N: HubName<Global>>(rt: &impl Abort, alloc: Global, hub: &mut HubState<N, Global>) {
    sure!(rt; refusal(hub, StreamId::FIRST) == 50);
    let (stream, mut first) = open(rt, hub);
    let mut second = further(rt, hub, stream);
    write_two(rt, alloc, &mut first, b"aa", b"bb");
    let chunk = b"cc".to_vec(alloc).expect(rt, "memory");
    sure!(rt; second.try_write(chunk).is_ok());
    pump(rt, hub);
    end_two(rt, hub, stream, &mut first, &mut second);
}

/// Whether each writer's chunks are in their order and whole.
fn is_merged(bytes: &[u8]) -> bool {
    bytes == b"aabbcc".as_slice() || bytes == b"aaccbb".as_slice() || bytes == b"ccaabb".as_slice()
}

/// What both wrote arrives intact.
fn read_merged<M: HubName<Global>>(rt: &impl Abort, alloc: Global, hub: &mut HubState<M, Global>) {
    let mut reading = Reading::new(alloc);
    reading.go_on(rt, hub);
    sure!(rt; reading.is_over);
    sure!(rt; is_merged(reading.read.as_slice()));
}

/// Two writers of one stream, whose bytes are read at the other hub.
#[derive(Drop)]
struct TwoWriters;

impl<R: Wait + Abort + std::time::Clock> Trial<R> for TwoWriters {
    fn run<N: HubName<Global>, M: HubName<Global>>(
        &self,
        rt: &R,
        alloc: Global,
        hubs: &Locked<N, M>,
        seat: &mut GaugeSeat<N, Global>,
    ) {
        write_all(rt, alloc, &mut *hubs.near.lock(rt));
        sure!(rt; hubs.gauge.seen(seat).accepted == 6);
        let share = share_of(rt, &mut *hubs.far.lock(rt));
        let _share = send_over(rt, hubs, seat, share, 8);
        read_merged(rt, alloc, &mut *hubs.far.lock(rt));
    }
}

#[test]
fn two_writers_are_merged(rt: HostRuntime) {
    run(&rt, rt.alloc(), 1_000, &TwoWriters);
}
