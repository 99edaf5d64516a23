//! The command `send`.

ghost use Rattle.std.specs.Prelude.{◌≡◌, ℕ, length, Err, IfErr, IfOk, IfSome, IsOkUnless};
ghost use Rattle.std.specs.Duration.{as_nanos};
ghost use Rattle.st_queues.specs.Lanes.{ring_at};
ghost use Rattle.st_file.specs.Errors.{counted};
ghost use Rattle.st_hub.specs.Hub.{IsNew};
ghost use Rattle.ilpstream_serving.specs.Moments.{pause_in};
ghost use Rattle.ilpstream_ends.specs.Outcomes.{ComesTo, IsTold, OpensWith, WhyNotBegun, no_totals};
ghost use Rattle.ilpstream_serving.specs.declared.error.TransferError.TheVariants.{Rings as NoRings};

use crate::faults::told;
use crate::ivs::ReaderIvs;
use crate::threads::{Shared, feed_beside};
use ilpstream_serving::{Ended, LastMoment, Latest, SendTerms, TransferError, Watch};
use st_end::{EndState, Totals};
use st_hub::{Bench, HubState};
use st_queues::{Gauge, GaugeSeat, HubName, Rings, StreamWriter};
use std::alloc::Global;
use std::io::Read;
use std::marker::Brand;
use std::net::Net;
use std::sync::ledger::Blank;
use std::sync::{Mutex, Wait};
use std::thread::{Parker, Threads};
use std::time::Duration;

/// After how many failures in a row a connection fails.
const TRIES: u32 = 200;

/// The pause between two tries after a failure, if the `TRIES` after which a connection fails are spread over these seconds.
fn pause_of(seconds: u64) -> Duration
    ensures { as_nanos result ≡ pause_in seconds }
{
    let whole = Duration::from_secs(seconds);
    match whole.checked_div(TRIES) {
        Some(pause) => pause,
        None => unreachable!(),
    }
}

/// A hub under its lock, whose workers try on for as long as the terms say.
fn bench_of<N: HubName<Global>>(hub: HubState<N, Global>, terms: &SendTerms<'_>) -> Bench<N, Global>
    ensures { as_nanos result.pause ≡ pause_in terms.now.patience }
{
    Bench::with_pause(hub, pause_of(terms.patience))
}

/// A hub whose stream 1 is open, with the writer of that stream, and a gauge of the hub.
#[derive(Drop)]
struct Opened<N: HubName<Global>> {
    hub: HubState<N, Global>,
    writer: StreamWriter<N, Global>,
    gauge: Gauge<N, Global>,
    seat: GaugeSeat<N, Global>,
}

/// Opens stream 1 and offers the money on it.
fn open_on<N: HubName<Global>>(
    hub: &mut HubState<N, Global>,
    money: u64,
) -> Result<StreamWriter<N, Global>, TransferError>
    ensures opened { IfOk result (λ _. OpensWith hub.old.flow.core money hub.new.flow.core) }
    ensures refused { IfErr result (WhyNotBegun hub.old.flow.core money) }
{
    let (stream, writer, _reader) = match hub.open_stream() {
        Ok(opened) => opened,
        Err(error) => return Err(TransferError::End(error)),
    };
    match hub.offer(stream, money) {
        Ok(()) => Ok(writer),
        Err(error) => Err(TransferError::End(error)),
    }
}

/// A hub over a new end, with stream 1 open and the money offered there.
fn open<N: HubName<Global>>(
    end: EndState<Global>,
    rings: Rings<Global>,
    blank: Blank,
    money: u64,
) -> Result<Opened<N>, TransferError>
    requires fresh { IsNew end }
    requires gauge { rings.gauge ≡ N.gauge }
    requires writes { (k : ℕ) → N.write_ring k ≡ ring_at rings.writes k }
    requires reads { (k : ℕ) → N.read_ring k ≡ ring_at rings.reads k }
    requires name { (blank.name ≡ N.name) × (blank.parts ≡ N.parts) × (blank.parts ≡ 64) }
    ensures opened { IfOk result (λ opened. OpensWith end money opened.hub.flow.core) }
    ensures refused { IfErr result (WhyNotBegun end money) }
{
    let (mut hub, gauge, seat) = HubState::<N, Global>::new(end, rings, blank);
    match open_on(&mut hub, money) {
        Ok(writer) => Ok(Opened {
            hub,
            writer,
            gauge,
            seat,
        }),
        Err(error) => Err(error),
    }
}

/// Sends over an open hub.
#[tactic(auto, using(crate::proofs::Outcomes::told_so))]
fn transfer<
    N: HubName<Global> + Send + Sync,
    I: Read + Drop,
    G: Read + Drop + Send,
    V: Watch + Drop + Send,
    R: Net + Threads + Wait + std::time::Clock + Sync,
>(
    rt: &R,
    alloc: Global,
    opened: Opened<N>,
    input: I,
    random: G,
    terms: SendTerms<'_>,
    watch: V,
) -> Ended
where
    R::Stream: Send,
    R::Listener: Send,
    ensures whole { IfOk result.result (λ n. IfSome (I.remaining input) (λ bytes. n ≡ counted (length bytes))) }
    ensures told { IsTold result.result result.totals }
{
    let Opened {
        hub,
        writer,
        gauge,
        mut seat,
    } = opened;
    let theirs = gauge.split(&mut seat);
    let shared = Shared {
        alloc,
        bench: bench_of(hub, &terms),
        gauge,
        seat: Mutex::new(theirs),
        ivs: Mutex::new(ReaderIvs::new(random)),
        moment: Mutex::new(LastMoment::none()),
        ends: Mutex::new(Vec::new(alloc)),
        terms,
        is_watched: watch.period().is_some(),
        last: Latest::none(),
        parker: Parker::new(),
    };
    let fed = feed_beside(rt, &shared, writer, seat, input, watch);
    let Shared { bench, ends, .. } = shared;
    let hub = bench.into_hub();
    let result = told(&hub, fed, &ends.into_inner());
    Ended {
        result,
        totals: hub.totals(),
    }
}

/// A transfer that did not begin.
fn refused(error: TransferError) -> Ended
    ensures refused { result.result ≡ Err error }
    ensures told { result.totals ≡ no_totals }
{
    Ended {
        result: Err(error),
        totals: Totals {
            accepted: 0,
            delivered: 0,
            credited: 0,
            paid: 0,
        },
    }
}

/// A transfer under the name that was picked for its hub.
fn run<
    N: HubName<Global> + Send + Sync,
    I: Read + Drop,
    G: Read + Drop + Send,
    V: Watch + Drop + Send,
    R: Net + Threads + Wait + std::time::Clock + Sync,
>(
    rt: &R,
    alloc: Global,
    end: EndState<Global>,
    rings: Rings<Global>,
    blank: Blank,
    input: I,
    random: G,
    terms: SendTerms<'_>,
    watch: V,
) -> Ended
where
    R::Stream: Send,
    R::Listener: Send,
    requires fresh { IsNew end }
    requires gauge { rings.gauge ≡ N.gauge }
    requires writes { (k : ℕ) → N.write_ring k ≡ ring_at rings.writes k }
    requires reads { (k : ℕ) → N.read_ring k ≡ ring_at rings.reads k }
    requires name { (blank.name ≡ N.name) × (blank.parts ≡ N.parts) × (blank.parts ≡ 64) }
    ensures whole { IfOk result.result (λ n. IfSome (I.remaining input) (λ bytes. n ≡ counted (length bytes))) }
    ensures told { ComesTo end terms.entry.money result.result result.totals }
{
    match open::<N>(end, rings, blank, terms.money) {
        Ok(opened) => transfer(rt, alloc, opened, input, random, terms, watch),
        Err(error) => refused(error),
    }
}

/// The rings of a transfer's streams. Fails with `Rings` alone, if memory is refused.
fn rings_of(alloc: Global) -> Result<Rings<Global>, TransferError>
    ensures { IsOkUnless result NoRings }
{
    match Rings::new(alloc) {
        Ok(rings) => Ok(rings),
        Err(_) => Err(TransferError::Rings),
    }
}

/// Runs a sender: sends `input` on stream 1 of a new connection, which is then closed cleanly, and the money of the terms
/// on the same stream (RFC 0029). Several workers share the hub of `end` and exchange Prepares with one neighbour over
/// ILP over HTTP (RFC 0035, the synchronous mode). Gives the number of bytes sent, once the stream's close was
/// fulfilled, and the totals of the end. A transfer that did not begin has totals of 0.
///
/// - `random`: the source of the IVs, 12 bytes for each; each Prepare is sealed under one of its own.
/// - `input`: if it has nothing yet for some time, its read is to fail with `Interrupted`, so that a transfer whose
///   connection failed ends: it is read again then, unless the workers ended.
///
/// - `watch`: the progress of the transfer is reported to it, in a thread of its own if it has a period.
///
/// Each worker has a thread. If too few threads can be made, fewer workers send. The call waits for them.
///
/// Fails with `Failed` if the connection failed; with `Stalled` if the limits of the peer let nothing of the rest be
/// sent, and no Prepare is in flight; with `IvFault` if `random` failed or ended; with `File` if the input was
/// not read whole; with `Turns` if the workers' rounds were used up; with `End` if the end refuses the stream or
/// the money; with `Rings` if memory for the rings is refused; with `NoMemory` if other memory is, or no thread
/// can be made.
pub fn send_on<
    I: Read + Drop,
    G: Read + Drop + Send,
    V: Watch + Drop + Send,
    R: Net + Threads + Wait + std::time::Clock + Sync,
>(
    rt: &R,
    alloc: Global,
    end: EndState<Global>,
    input: I,
    random: G,
    terms: SendTerms<'_>,
    watch: V,
) -> Ended
where
    R::Stream: Send,
    R::Listener: Send,
    requires fresh { IsNew end }
    ensures whole { IfOk result.result (λ n. IfSome (I.remaining input) (λ bytes. n ≡ counted (length bytes))) }
    ensures told { ComesTo end terms.entry.money result.result result.totals }
{
    match rings_of(alloc) {
        Ok(rings) => run::<Brand, I, G, V, R>(
            rt,
            alloc,
            end,
            rings,
            Blank::new(64),
            input,
            random,
            terms,
            watch,
        ),
        Err(error) => refused(error),
    }
}
