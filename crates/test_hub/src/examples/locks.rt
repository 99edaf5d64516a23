//! An end under a lock.

use st_hub::{Bench, HubError, HubName, Link, Moment, Outcome, QueueError, StreamWriter, Turn};
use std::alloc::Global;
use std::sync::Wait;

/// Puts a text and the end of its stream into a ring. It needs no lock, and does not wait.
fn write_last<N: HubName<Global>>(
    writer: &mut StreamWriter<N, Global>,
    text: Vec<u8>,
) -> Result<(), QueueError<Global>> {
    writer.try_write(text)?;
    writer.try_end()
}

/// Under the lock: moves what is in the rings, and returns the next Prepare, if there is one.
fn next_turn<N: HubName<Global>>(
    rt: &impl Wait,
    hub: &Bench<N, Global>,
    iv: [u8; 12],
    now: Moment,
) -> Result<Option<Turn<Global>>, HubError> {
    let mut hub = hub.lock(rt);
    hub.pump()?;
    hub.take_turn(iv, now)
}

/// Sends one Prepare over a link with the lock open, and processes the answer. Returns whether a
/// Prepare was sent.
fn send_one<N: HubName<Global>, L: Link<Global>>(
    rt: &impl Wait,
    hub: &Bench<N, Global>,
    link: &mut L,
    iv: [u8; 12],
    now: Moment,
) -> Result<bool, HubError> {
    let Some(turn) = next_turn(rt, hub, iv, now)? else {
        return Ok(false);
    };
    let outcome = match link.exchange(turn.bytes(), turn.expires()) {
        Ok(answer) => Outcome::Answered(answer),
        Err(_) => Outcome::Fault,
    };
    hub.lock(rt).finish_turn(turn, outcome)?;
    Ok(true)
}

/// "hi" and its end are sent by two Prepares, and then there is nothing to send.
fn send_hi<N: HubName<Global>, M: HubName<Global>, R: Wait + std::process::Abort>(
    rt: &R,
    alloc: Global,
    hubs: &crate::hubs::Locked<N, M>,
) -> st_end::StreamId {
    let (stream, mut writer) = crate::hubs::open(rt, &mut *hubs.near.lock(rt));
    let text = b"hi".to_vec(alloc).expect(rt, "memory");
    sure!(rt; write_last(&mut writer, text).is_ok());
    let share = crate::hubs::share_of(rt, &mut *hubs.far.lock(rt));
    let mut link = st_hub::HubLink::new(rt, &hubs.far, share, crate::ends::stopped_clock(rt));
    let now = crate::ends::moment(rt);
    sure!(rt; send_one(rt, &hubs.near, &mut link, [0; 12], now) == Ok(true));
    sure!(rt; send_one(rt, &hubs.near, &mut link, [1; 12], now) == Ok(true));
    sure!(rt; send_one(rt, &hubs.near, &mut link, [2; 12], now) == Ok(false));
    stream
}

#[derive(Drop)]
struct OneWorker;

impl<R: Wait + std::process::Abort> crate::hubs::Trial<R> for OneWorker {
    fn run<N: HubName<Global>, M: HubName<Global>>(
        &self,
        rt: &R,
        alloc: Global,
        hubs: &crate::hubs::Locked<N, M>,
        _seat: &mut st_queues::GaugeSeat<N, Global>,
    ) {
        let stream = send_hi(rt, alloc, hubs);
        sure!(rt; hubs.near.lock(rt).settled(stream));
        let mut reading = crate::readings::Reading::new(alloc);
        reading.go_on(rt, &mut *hubs.far.lock(rt));
        sure!(rt; reading.is_over && reading.read.as_slice() == b"hi".as_slice());
    }
}

#[test]
fn an_end_is_served_under_its_lock(rt: HostRuntime) {
    crate::hubs::run(&rt, rt.alloc(), 1_000, &OneWorker);
}
