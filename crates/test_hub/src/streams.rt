//! Each stream of a connection, and each writer of a stream.
use crate::ends::{moment, stopped_clock};
use crate::hubs::{Locked, Trial, further, open, pump, run, share_of};
use st_hub::{Bench, HubLink, HubState, Turn};
use st_links::{Link, Outcome};
use st_queues::{GaugeSeat, Got, HubName, StreamReader, StreamWriter};
use std::alloc::Global;
use std::process::Abort;
use std::sync::Wait;

/// How many streams an end opens, and how many writers a stream has.
const OWN: u8 = 32;

const WRITERS: u8 = 8;

/// One byte is written.
fn write_byte<N: HubName<Global>>(
    rt: &impl Abort,
    alloc: Global,
    writer: &mut StreamWriter<N, Global>,
) {
    let byte = b"x".to_vec(alloc).expect(rt, "memory");
    sure!(rt; writer.try_write(byte).is_ok());
}

/// A byte is written by each of the writers of a new stream.
fn write_stream<N: HubName<Global>>(rt: &impl Abort, alloc: Global, hub: &mut HubState<N, Global>) {
    let (stream, mut first) = open(rt, hub);
    write_byte(rt, alloc, &mut first);
    for _ in 1..WRITERS {
        let mut writer = further(rt, hub, stream);
        write_byte(rt, alloc, &mut writer);
    }
}

/// A byte is written by each writer of each stream that an end can open: one call moves all of them.
fn write_all<N: HubName<Global>>(rt: &impl Abort, alloc: Global, hub: &mut HubState<N, Global>) {
    for _ in 0..OWN {
        write_stream(rt, alloc, hub);
    }
    pump(rt, hub);
    sure!(rt; hub.totals().accepted == 256);
}

/// The next Prepare of a hub, under an IV of this number.
fn next<N: HubName<Global>, R: Wait + Abort>(
    rt: &R,
    hub: &Bench<N, Global>,
    number: u8,
) -> Option<Turn<Global>> {
    match hub.lock(rt).take_turn([number; 12], moment(rt)) {
        Ok(turn) => turn,
        Err(refused) => panic!(rt; "refused {}", refused.number()),
    }
}

/// Sends all that a hub has to the other one.
pub(crate) fn send_all<N: HubName<Global>, M: HubName<Global>, R: Wait + Abort + std::time::Clock>(
    rt: &R,
    from: &Bench<N, Global>,
    to: &Bench<M, Global>,
) {
    let share = share_of(rt, &mut *to.lock(rt));
    let mut link = HubLink::new(rt, to, share, stopped_clock(rt));
    for number in 0..200u8 {
        let Some(turn) = next(rt, from, number) else {
            return;
        };
        let outcome = match link.exchange(turn.bytes(), turn.expires()) {
            Ok(answer) => Outcome::Answered(answer),
            Err(_) => Outcome::Fault,
        };
        sure!(rt; from.lock(rt).finish_turn(turn, outcome).is_ok());
    }
}

/// How many bytes a ring has.
fn count<N: HubName<Global>>(reader: &mut StreamReader<N, Global>) -> usize {
    match reader.try_read() {
        Got::Bytes(bytes) => bytes.len(),
        _ => 0,
    }
}

/// Each stream that the peer opened has the bytes of its writers.
fn read_all<N: HubName<Global>>(rt: &impl Abort, hub: &mut HubState<N, Global>) {
    pump(rt, hub);
    for n in 0..u64::from(OWN) {
        let Some((_, _, mut reader)) = hub.take_stream() else {
            panic!(rt; "there is no stream {n}");
        };
        sure!(rt; count(&mut reader) == 8, n);
    }
}

/// Both ends send on each of their streams, the client on 1, 3, .. 63 and the server on 2, 4, .. 64.
#[derive(Drop)]
struct BothWays;

impl<R: Wait + Abort + std::time::Clock> Trial<R> for BothWays {
    fn run<N: HubName<Global>, M: HubName<Global>>(
        &self,
        rt: &R,
        alloc: Global,
        hubs: &Locked<N, M>,
        _seat: &mut GaugeSeat<N, Global>,
    ) {
        write_all(rt, alloc, &mut *hubs.near.lock(rt));
        send_all(rt, &hubs.near, &hubs.far);
        read_all(rt, &mut *hubs.far.lock(rt));
        write_all(rt, alloc, &mut *hubs.far.lock(rt));
        send_all(rt, &hubs.far, &hubs.near);
        read_all(rt, &mut *hubs.near.lock(rt));
    }
}

#[test]
fn each_stream_and_each_writer_is_pumped(rt: HostRuntime) {
    run(&rt, rt.alloc(), 1_000, &BothWays);
}
