//! The threads of a sender: one feeds the input to the hub, the workers send, and one more reports the progress.

ghost use Rattle.std.specs.Prelude.{◌≡◌, length, IfOk, IfSome};
ghost use Rattle.st_file.specs.Errors.{counted};

use crate::inlet::{Inlet, Until};
use crate::ivs::ReaderIvs;
use crate::told_link::Told;
use crate::workers::work_alone;
use ilpstream_serving::{LastMoment, Latest, SendTerms, Watch};
use st_devices::Counting;
use st_end::Totals;
use st_file::{FileError, send_all};
use st_hub::{Bench, WorkEnd};
use st_queues::{Gauge, GaugeSeat, HubName, StreamWriter};
use std::alloc::Global;
use std::io::Read;
use std::net::Net;
use std::sync::{Mutex, Wait};
use std::thread;
use std::thread::{Parker, Threads};
use std::time::Duration;

/// Moves the input to the ring of its stream. If that fails, the workers are asked to stop.
fn feed<I: Read + Drop, N: HubName<Global>, R: Wait + std::time::Clock>(
    rt: &R,
    alloc: Global,
    bench: &Bench<N, Global>,
    input: I,
    writer: StreamWriter<N, Global>,
    gauge: &Gauge<N, Global>,
    seat: &mut GaugeSeat<N, Global>,
    turns: u64,
) -> Result<u64, FileError>
    ensures { IfOk result (λ n. IfSome (I.remaining input) (λ bytes. n ≡ counted (length bytes))) }
{
    let mut reader = Counting::new(Until {
        input,
        gauge,
        seat: gauge.split(seat),
    });
    let mut inlet = Inlet {
        rt,
        bench,
        writer,
        gauge,
        seat: gauge.split(seat),
        accepted: 0,
    };
    let fed = send_all(alloc, &mut reader, &mut inlet, turns);
    if fed.is_err() {
        gauge.ask_stop(seat);
        bench.wake_all(rt);
    }
    fed
}

/// What the threads of a transfer share.
#[derive(Drop)]
pub(crate) struct Shared<'a, N: HubName<Global>, G> {
    pub(crate) alloc: Global,
    pub(crate) bench: Bench<N, Global>,
    pub(crate) gauge: Gauge<N, Global>,
    /// The seat at the gauge from which each worker gets its own.
    pub(crate) seat: Mutex<GaugeSeat<N, Global>>,
    pub(crate) ivs: Mutex<ReaderIvs<G>>,
    /// The moment that the clock gave last, to any worker.
    pub(crate) moment: Mutex<LastMoment>,
    /// Why the workers ended, in the order in which they did.
    pub(crate) ends: Mutex<Vec<WorkEnd>>,
    pub(crate) terms: SendTerms<'a>,
    /// Whether somebody watches the progress of the transfer.
    pub(crate) is_watched: bool,
    pub(crate) last: Latest,
    /// Puts the thread that reports it to sleep.
    pub(crate) parker: Parker,
}

/// Notes why a worker ended, if there is room for that.
fn note_end<N: HubName<Global>, G>(rt: &impl Wait, shared: &Shared<'_, N, G>, end: WorkEnd) {
    let _ = shared.ends.lock(rt).push(end);
}

/// What an end has done so far, by its hub's gauge.
fn totals_so_far<N: HubName<Global>>(
    gauge: &Gauge<N, Global>,
    seat: &mut GaugeSeat<N, Global>,
) -> Totals
    ensures bytes { (result.accepted ≡ seat.new.totals.accepted) × (result.delivered ≡ seat.new.totals.delivered) }
    ensures units { (result.credited ≡ seat.new.totals.credited) × (result.paid ≡ seat.new.totals.paid) }
{
    let seen = gauge.seen(seat);
    Totals {
        accepted: seen.accepted,
        delivered: seen.delivered,
        credited: seen.credited,
        paid: seen.paid,
    }
}

/// Reports the progress of the transfer, each period, until the workers are asked to stop. It does not lock the hub.
fn watch_beside<N: HubName<Global>, G, V: Watch + Drop, R: Wait>(
    rt: &R,
    shared: &Shared<'_, N, G>,
    seat: GaugeSeat<N, Global>,
    watch: V,
    period: Duration,
) {
    let mut seat = seat;
    let mut watch = watch;
    for _ in rt.forever() {
        shared.parker.park_timeout(rt, period);
        if shared.gauge.stopped(&mut seat) {
            break;
        }
        let totals = totals_so_far(&shared.gauge, &mut seat);
        watch.look(&totals, shared.last.waits(totals.paid), shared.last.seen());
    }
    watch.end();
}

/// Runs one worker, and notes why it ended.
fn work_noting<N: HubName<Global>, G: Read, R: Net + Wait + std::time::Clock>(
    rt: &R,
    shared: &Shared<'_, N, G>,
) {
    let Shared {
        alloc,
        bench,
        gauge,
        seat,
        ivs,
        moment,
        terms,
        last,
        ..
    } = shared;
    let told = Told {
        log: terms.log,
        last: if shared.is_watched { Some(last) } else { None },
    };
    let end = work_alone(rt, *alloc, bench, gauge, seat, ivs, moment, *terms, told);
    note_end(rt, shared, end);
    shared.parker.unpark();
}

/// Moves the input to the ring while the workers send, each in a thread of its own, and one more reports the progress, if
/// that is asked for. If too few threads can be made, fewer workers send, or nothing is reported; if none can, nothing is
/// sent. Returns how much input was moved.
pub(crate) fn feed_beside<
    'a,
    N: HubName<Global> + Send + Sync,
    I: Read + Drop,
    G: Read + Drop + Send,
    V: Watch + Drop + Send,
    R: Net + Threads + Wait + std::time::Clock + Sync,
>(
    rt: &'a R,
    shared: &'a Shared<'a, N, G>,
    writer: StreamWriter<N, Global>,
    seat: GaugeSeat<N, Global>,
    input: I,
    watch: V,
) -> Result<u64, FileError>
where
    R::Stream: Send,
    R::Listener: Send,
    ensures { IfOk result (λ n. IfSome (I.remaining input) (λ bytes. n ≡ counted (length bytes))) }
{
    thread::scope(
        thread::scope_env(),
        rt,
        move |scope| -> Result<u64, FileError>
            ensures { IfOk result (λ n. IfSome (I.remaining input) (λ bytes. n ≡ counted (length bytes))) }
        {
            let mut own = seat;
            let mut has_worker = false;
            for _ in 0..shared.terms.workers {
                has_worker |= scope.spawn(move || work_noting(rt, shared)).is_ok();
            }
            if !has_worker {
                note_end(rt, shared, WorkEnd::NoMemory);
                shared.gauge.ask_stop(&mut own);
                shared.parker.unpark();
            }
            if let Some(period) = watch.period() {
                let seat = shared.gauge.split(&mut own);
                let _ = scope.spawn(move || watch_beside(rt, shared, seat, watch, period));
            }
            let (alloc, turns) = (shared.alloc, shared.terms.turns);
            feed(
                rt,
                alloc,
                &shared.bench,
                input,
                writer,
                &shared.gauge,
                &mut own,
                turns,
            )
        },
    )
}
