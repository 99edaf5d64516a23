//! Two hubs in memory, each linked to the other by its workers.
ghost use Rattle.std.specs.Prelude.{◌≡◌, ℕ};
ghost use Rattle.st_queues.specs.Lanes.{ring_at};
ghost use Rattle.st_hub.specs.Hub.{IsNew};

use crate::halves::{Counting, Half, Still, new_half};
use crate::ring::{end, write};
use st_end::Role;
use st_hub::{Bench, HubLink, HubState, Unwatched, Worker, work};
use st_ilp::Moment;
use st_queues::{Gauge, GaugeSeat, Got, HubName, StreamReader, StreamWriter};
use std::alloc::Global;
use std::marker::Brand;
use std::sync::ledger::Blank;
use std::sync::{Mutex, Wait};
use std::thread;
use std::thread::Threads;
use std::time::Duration;

/// For how many microseconds the reader sleeps if nothing arrived.
const REST: u64 = 100;

/// For how many milliseconds a worker sleeps at most if it has nothing to send and nobody wakes it.
const IDLE: u64 = 1_000;

/// A hub under its lock, its gauge, and a seat there.
#[derive(Drop)]
struct Side<N: HubName<Global>> {
    hub: Bench<N, Global>,
    gauge: Gauge<N, Global>,
    seat: Mutex<GaugeSeat<N, Global>>,
}

fn new_side<N: HubName<Global>>(half: Half, blank: Blank) -> Side<N>
    requires fresh { IsNew half.end }
    requires gauge { half.rings.gauge ≡ N.gauge }
    requires writes { (k : ℕ) → N.write_ring k ≡ ring_at half.rings.writes k }
    requires reads { (k : ℕ) → N.read_ring k ≡ ring_at half.rings.reads k }
    requires name { (blank.name ≡ N.name) × (blank.parts ≡ N.parts) × (blank.parts ≡ 64) }
{
    let Half { end, rings } = half;
    let (hub, gauge, seat) = HubState::<N, Global>::new(end, rings, blank);
    Side {
        hub: Bench::new(hub),
        gauge,
        seat: Mutex::new(seat),
    }
}

/// Sends from one hub to the other, until its workers are asked to stop.
fn send_on<'a, N: HubName<Global>, M: HubName<Global>, R: Wait + std::time::Clock>(
    rt: &'a R,
    from: &Side<N>,
    to: &'a Side<M>,
    clock: Still,
    first: u8,
) {
    let mut mine = clock;
    let Ok(share) = to.hub.lock(rt).share() else {
        return;
    };
    let mut link = HubLink::new(rt, &to.hub, share, clock);
    let mut ivs = Counting { first, next: 0 };
    let mut seat = from.gauge.split(&mut from.seat.lock(rt));
    let _ = work(
        rt,
        &from.hub,
        Worker {
            link: &mut link,
            ivs: &mut ivs,
            clock: &mut mine,
            gauge: &from.gauge,
            seat: &mut seat,
            stream: None,
            rest: Duration::from_millis(IDLE),
            turns: u64::from(u32::MAX),
            watch: &mut Unwatched,
        },
    );
}

/// Runs `workers` workers of each hub, until they are asked to stop.
fn work_all<
    N: HubName<Global> + Send + Sync,
    M: HubName<Global> + Send + Sync,
    R: Threads + Wait + std::time::Clock + Sync,
>(rt: &R, alloc: Global, near: &Side<N>, far: &Side<M>, clock: Still, workers: u8) {
    let _ = thread::map_indices(
        rt,
        alloc,
        2 * usize::from(workers),
        &|k| {
            if k % 2 == 0 {
                send_on(rt, near, far, clock, u8::try_from(k).unwrap_or(0));
            } else {
                send_on(rt, far, near, clock, u8::try_from(k).unwrap_or(0));
            }
        },
    );
}

/// Writes `chunks` chunks of 4,096 bytes, and then an end, and wakes a worker after each.
fn write_all<N: HubName<Global>, R: Wait>(
    rt: &R,
    alloc: Global,
    near: &Side<N>,
    writer: &mut StreamWriter<N, Global>,
    chunks: u64,
) {
    for _ in 0..chunks {
        let Ok(chunk) = Vec::from_elem(alloc, 7, 4_096) else {
            break;
        };
        if !write(writer, chunk) {
            break;
        }
        near.hub.wake_one(rt);
    }
    end(writer);
    near.hub.wake_one(rt);
}

/// Reads what arrives until the end, and wakes a worker after each read: how many bytes that was.
fn read_all<M: HubName<Global>, R: Wait + std::time::Clock>(
    rt: &R,
    far: &Side<M>,
    reader: &mut StreamReader<M, Global>,
) -> u64 {
    let mut came = 0_u64;
    for _ in 0..u64::MAX {
        match reader.try_read() {
            Got::Bytes(bytes) => {
                came = came.saturating_add(bytes.len() as u64);
                far.hub.wake_one(rt);
            }
            Got::Nothing => thread::sleep(rt, Duration::from_micros(REST)),
            _ => return came,
        }
    }
    came
}

/// The reader of the stream that the peer opens.
fn reader_at<M: HubName<Global>, R: Wait>(
    rt: &R,
    far: &Side<M>,
) -> Option<StreamReader<M, Global>> {
    far.hub.lock(rt).take_stream().map(|(_, _, reader)| reader)
}

/// Waits for a stream, reads it, and asks the workers of both hubs to stop: how many bytes arrived.
fn take<N: HubName<Global>, M: HubName<Global>, R: Wait + std::time::Clock>(
    rt: &R,
    near: &Side<N>,
    far: &Side<M>,
) -> u64 {
    let mut came = 0;
    for _ in 0..u64::MAX {
        match reader_at(rt, far) {
            Some(mut reader) => {
                came = read_all(rt, far, &mut reader);
                break;
            }
            None => thread::sleep(rt, Duration::from_micros(REST)),
        }
    }
    near.gauge.ask_stop(&mut near.seat.lock(rt));
    far.gauge.ask_stop(&mut far.seat.lock(rt));
    near.hub.wake_all(rt);
    far.hub.wake_all(rt);
    came
}

/// The writer of a new stream.
fn writer_at<N: HubName<Global>, R: Wait>(
    rt: &R,
    near: &Side<N>,
) -> Option<StreamWriter<N, Global>> {
    match near.hub.lock(rt).open_stream() {
        Ok((_, writer, _)) => Some(writer),
        Err(_) => None,
    }
}

/// Writes at the one hub and reads at the other, while workers of both send: how many bytes arrived.
fn pass_beside<
    N: HubName<Global> + Send + Sync,
    M: HubName<Global> + Send + Sync,
    R: Threads + Wait + std::time::Clock + Sync,
>(rt: &R, alloc: Global, near: &Side<N>, far: &Side<M>, chunks: u64, workers: u8) -> Option<u64> {
    let clock = Still(Moment::new(0)?);
    let mut writer = writer_at(rt, near)?;
    let (_, (_, came)) = thread::join(
        rt,
        || work_all(rt, alloc, near, far, clock, workers),
        || {
            thread::join(
                rt,
                || write_all(rt, alloc, near, &mut writer, chunks),
                || take(rt, near, far),
            )
        },
    );
    Some(came)
}

fn pass_named<
    N: HubName<Global> + Send + Sync,
    M: HubName<Global> + Send + Sync,
    R: Threads + Wait + std::time::Clock + Sync,
>(
    rt: &R,
    alloc: Global,
    near: Half,
    near_blank: Blank,
    far: Half,
    far_blank: Blank,
    chunks: u64,
    workers: u8,
) -> Option<u64>
    requires near { IsNew near.end }
    requires near_gauge { near.rings.gauge ≡ N.gauge }
    requires near_writes { (k : ℕ) → N.write_ring k ≡ ring_at near.rings.writes k }
    requires near_reads { (k : ℕ) → N.read_ring k ≡ ring_at near.rings.reads k }
    requires near_name { (near_blank.name ≡ N.name) × (near_blank.parts ≡ N.parts) × (near_blank.parts ≡ 64) }
    requires far { IsNew far.end }
    requires far_gauge { far.rings.gauge ≡ M.gauge }
    requires far_writes { (k : ℕ) → M.write_ring k ≡ ring_at far.rings.writes k }
    requires far_reads { (k : ℕ) → M.read_ring k ≡ ring_at far.rings.reads k }
    requires far_name { (far_blank.name ≡ M.name) × (far_blank.parts ≡ M.parts) × (far_blank.parts ≡ 64) }
{
    let near = new_side::<N>(near, near_blank);
    let far = new_side::<M>(far, far_blank);
    pass_beside(rt, alloc, &near, &far, chunks, workers)
}

/// Passes `chunks` chunks of 4,096 bytes from a writer of one hub to a reader of another, by `workers` workers of each:
/// how many bytes arrived.
pub(crate) fn pass_bytes<R: Threads + Wait + std::time::Clock + Sync>(
    rt: &R,
    alloc: Global,
    chunks: u64,
    workers: u8,
) -> Option<u64> {
    let near = new_half(alloc, Role::Client, "test.a", "test.b")?;
    let far = new_half(alloc, Role::Server, "test.b", "test.a")?;
    pass_named::<Brand, Brand, R>(
        rt,
        alloc,
        near,
        Blank::new(64),
        far,
        Blank::new(64),
        chunks,
        workers,
    )
}
