//! The command `receive`.

ghost use Rattle.std.specs.Prelude.{◌≡◌, true, IfErr, OnOk, IsSome, Err};
ghost use Rattle.st_devices.specs.Tallies.{device_of, tally_of};
ghost use Rattle.st_end.specs.Calls as calls;
ghost use Rattle.ilpstream_ends.specs.Keeping.{Receives, ReceivesFrom, TellsTotals, faults_reported, file_stream};
ghost use Rattle.ilpstream_ends.specs.Lobby.{HaveEnded, HaveFailed, HaveNoListener, IsOfLobby};
ghost use Rattle.ilpstream_serving.specs.declared.error.TransferError.TheVariants.{Accept, Silent, Turns};

use crate::asked::{Asked, OpeningKeys, ReceiverName};
use crate::delivery::{Delivered, STREAM, deliver};
use crate::ends::ReceivingEnd;
use crate::opening::{Shared, open_all};
use crate::readers::Readers;
use crate::receiver::Receiver;
use crate::requests::Requests;
use ilpstream_serving::{
    AwaitListener, Ended, Idle, Patience, ReceiveTerms, TransferError, Watch, accept_without_waits,
    tell_end, tell_refused,
};
use st_devices::Counting;
use st_keys::Keys;
use st_links::Clock;
use std::alloc::Global;
use std::io::{Read, Write};
use std::marker::Brand;
use std::net::OpenStream;
use std::sync::atomic::AtomicU64;
use std::sync::{Mutex, Wait};
use std::thread::{Threads, join_mut};

/// Waits for the next request. `idle` is called each period meanwhile.
///
/// Fails with `Silent` if none arrived for as long as the patience lasts; with `Turns` if no further connection may be
/// accepted and none is left, as once `idle` says that it is stopped; with `Accept` if the listener gives no connection.
fn next_request<'a, N: ReceiverName, L: AwaitListener, R: Wait + std::time::Clock, V: Watch>(
    rt: &R,
    shared: &Shared<'a, N, L, R>,
    patience: &Patience,
    readers: &mut Readers,
    idle: &mut Idle<'_, V>,
) -> Result<Asked<'a, N, L::Stream, R>, TransferError>
    ensures silent { IfErr result (λ e. e ≡ Silent → IsSome patience.now.time) }
    ensures turned { result ≡ Err Turns → HaveEnded readers.new }
    ensures unaccepted { result ≡ Err Accept → HaveFailed readers.new }
    ensures known { IfErr result IsOfLobby }
{
    for _ in rt.forever() {
        let came = shared.requests.next(rt, patience, idle.period(), readers)?;
        idle.look();
        if idle.is_stopped() {
            shared.stop(rt);
        }
        if let Some(asked) = came {
            return Ok(asked);
        }
    }
    unreachable!()
}

/// Judges and answers the requests that other threads opened, and writes what arrives, until the stream ended. `readers` is as
/// those threads were when it last looked.
fn judge_all<
    N: ReceiverName,
    L: AwaitListener,
    R: Wait + std::time::Clock,
    W: Write,
    K: Clock,
    V: Watch,
>(
    rt: &R,
    shared: &Shared<'_, N, L, R>,
    receiver: &mut Receiver<K>,
    writer: &mut Counting<W>,
    readers: &mut Readers,
    watch: &mut V,
) -> Result<u64, TransferError>
where
    L::Stream: Write + OpenStream,
    requires { N.start ≡ receiver.old.end }
    ensures told { Receives receiver.old.end receiver.new.end (W.contents (device_of writer.old)) (W.contents (device_of writer.new)) result }
    ensures flushed { OnOk result ((tally_of writer.new).flushed ≡ true) }
    ensures faults { (tally_of writer.new).faults ≡ faults_reported result (tally_of writer.old).faults }
    ensures patient { result ≡ Err Silent → IsSome shared.now.terms.patience }
    ensures turned { result ≡ Err Turns → HaveEnded readers.new }
    ensures unaccepted { result ≡ Err Accept → HaveNoListener readers.new }
{
    let mut written = 0;
    let mut patience = Patience::new(rt, shared.terms.patience);
    let mut last = None;
    if !shared.requests.have_readers(rt, readers) {
        return Err(TransferError::Accept);
    }
    'requests: for _ in rt.forever() {
        let mut idle = Idle {
            watch: &mut *watch,
            totals: receiver.end.totals(),
            last,
        };
        let mut asked = match next_request(rt, shared, &patience, readers, &mut idle) {
            Ok(asked) => asked,
            Err(TransferError::Silent) => return Err(TransferError::Silent),
            Err(TransferError::Turns) => return Err(TransferError::Turns),
            Err(TransferError::Accept) => return Err(TransferError::Accept),
            Err(_) => unreachable!(),
        };
        let _ = asked.answer(shared.alloc, receiver);
        drop(asked);
        tell_refused(rt, shared.terms.log, receiver.refused);
        if let Some(refusal) = &receiver.refused {
            last = Some(refusal.brief());
        }
        let mut left = shared.terms.turns;
        match deliver(&mut receiver.end, writer, &mut written, &mut left) {
            Ok(Delivered::More) => patience.renew(rt),
            Ok(Delivered::Whole) => return Ok(written),
            Err(error) => return Err(error),
        }
    }
    unreachable!()
}

/// The same. Then the threads that read requests are to end.
fn judge_and_end<
    N: ReceiverName,
    L: AwaitListener,
    R: Wait + std::time::Clock,
    W: Write,
    K: Clock,
    V: Watch,
>(
    rt: &R,
    shared: &Shared<'_, N, L, R>,
    receiver: &mut Receiver<K>,
    writer: &mut Counting<W>,
    watch: &mut V,
) -> Result<u64, TransferError>
where
    L::Stream: Write + OpenStream,
    requires { N.start ≡ receiver.old.end }
    ensures told { Receives receiver.old.end receiver.new.end (W.contents (device_of writer.old)) (W.contents (device_of writer.new)) result }
    ensures flushed { OnOk result ((tally_of writer.new).flushed ≡ true) }
    ensures faults { (tally_of writer.new).faults ≡ faults_reported result (tally_of writer.old).faults }
    ensures patient { result ≡ Err Silent → IsSome shared.now.terms.patience }
{
    let mut readers = Readers::none();
    let result = judge_all(rt, shared, receiver, writer, &mut readers, watch);
    shared.end(rt);
    result
}

/// Reads and opens requests by further threads, and judges and answers them in this one, until the stream ended.
fn receive_beside<
    's,
    'a: 's,
    N: ReceiverName + Send + Sync,
    L: AwaitListener + Send + Sync,
    R: Threads + Wait + std::time::Clock + Sync,
    W: Write,
    K: Clock,
    V: Watch,
>(
    rt: &'a R,
    shared: &'s Shared<'a, N, L, R>,
    receiver: &mut Receiver<K>,
    writer: &mut Counting<W>,
    watch: &mut V,
) -> Result<u64, TransferError>
where
    L::Stream: Read + Write + OpenStream + Send,
    requires { N.start ≡ receiver.old.end }
    ensures told { Receives receiver.old.end receiver.new.end (W.contents (device_of writer.old)) (W.contents (device_of writer.new)) result }
    ensures flushed { OnOk result ((tally_of writer.new).flushed ≡ true) }
    ensures faults { (tally_of writer.new).faults ≡ faults_reported result (tally_of writer.old).faults }
    ensures patient { result ≡ Err Silent → IsSome shared.now.terms.patience }
{
    let (_, result) = join_mut(
        rt,
        &mut || open_all(rt, shared),
        &mut || -> Result<u64, TransferError>
            requires { N.start ≡ receiver.now.end }
            ensures told { Receives receiver.entry.now.end receiver.exit.now.end (W.contents (device_of writer.entry.now)) (W.contents (device_of writer.exit.now)) result }
            ensures flushed { OnOk result ((tally_of writer.exit.now).flushed ≡ true) }
            ensures faults { (tally_of writer.exit.now).faults ≡ faults_reported result (tally_of writer.entry.now).faults }
            ensures patient { result ≡ Err Silent → IsSome shared.entry.now.terms.patience }
        { judge_and_end(rt, shared, receiver, writer, watch) },
    );
    result
}

/// The same. Then nothing is shared any more: requests that still wait are dropped.
fn receive_sharing<
    'a,
    N: ReceiverName + Send + Sync,
    L: AwaitListener + Send + Sync,
    R: Threads + Wait + std::time::Clock + Sync,
    W: Write,
    K: Clock,
    V: Watch,
>(
    shared: Shared<'a, N, L, R>,
    receiver: &mut Receiver<K>,
    writer: &mut Counting<W>,
    watch: &mut V,
) -> Result<u64, TransferError>
where
    L::Stream: Read + Write + OpenStream + Send,
    requires { N.start ≡ receiver.old.end }
    ensures told { Receives receiver.old.end receiver.new.end (W.contents (device_of writer.old)) (W.contents (device_of writer.new)) result }
    ensures flushed { OnOk result ((tally_of writer.new).flushed ≡ true) }
    ensures faults { (tally_of writer.new).faults ≡ faults_reported result (tally_of writer.old).faults }
    ensures patient { result ≡ Err Silent → IsSome shared.entry.terms.patience }
{
    let result = receive_beside(shared.rt, &shared, receiver, writer, watch);
    // At the end of the scope it would be dropped too, but no proof is found then: a call knows its lifetimes.
    drop(shared);
    result
}

/// The same, under the name that was picked for the receiver. The keys are those of its end.
fn receive_all<
    'a,
    N: ReceiverName + Send + Sync,
    L: AwaitListener + Send + Sync,
    R: Threads + Wait + std::time::Clock + Sync,
    W: Write,
    K: Clock,
    V: Watch,
>(
    rt: &'a R,
    listener: &'a L,
    tokens: &'a [&'a str],
    keys: Keys,
    receiver: &mut Receiver<K>,
    writer: &mut Counting<W>,
    terms: ReceiveTerms<'a>,
    watch: &mut V,
) -> Result<u64, TransferError>
where
    L::Stream: Read + Write + OpenStream + Send,
    requires start { N.start ≡ receiver.old.end }
    requires keys { keys ≡ receiver.old.end.keys }
    ensures told { Receives receiver.old.end receiver.new.end (W.contents (device_of writer.old)) (W.contents (device_of writer.new)) result }
    ensures flushed { OnOk result ((tally_of writer.new).flushed ≡ true) }
    ensures faults { (tally_of writer.new).faults ≡ faults_reported result (tally_of writer.old).faults }
    ensures patient { result ≡ Err Silent → IsSome terms.entry.patience }
{
    let alloc = receiver.alloc;
    let shared = Shared {
        rt,
        alloc,
        listener,
        tokens,
        keys: OpeningKeys::<N>::new(keys),
        requests: Requests::new(alloc, Patience::new(rt, terms.patience)),
        turn: Mutex::new(()),
        free: AtomicU64::new(0),
        terms,
    };
    receive_sharing(shared, receiver, writer, watch)
}

/// Sets the stream's receive maximum, then answers requests and writes what arrives. The keys are those of the end.
#[tactic(auto, using(crate::proofs::Keeping::set_max_keys))]
fn receive_from<
    'a,
    L: AwaitListener + Send + Sync,
    R: Threads + Wait + std::time::Clock + Sync,
    W: Write,
    K: Clock,
    V: Watch,
>(
    rt: &'a R,
    listener: &'a L,
    tokens: &'a [&'a str],
    keys: Keys,
    receiver: &mut Receiver<K>,
    writer: &mut Counting<W>,
    terms: ReceiveTerms<'a>,
    watch: &mut V,
) -> Result<u64, TransferError>
where
    L::Stream: Read + Write + OpenStream + Send,
    requires { keys ≡ receiver.old.end.keys }
    ensures told { ReceivesFrom (calls.set_receive_max receiver.old.end file_stream terms.entry.receive_max) receiver.new.end (W.contents (device_of writer.old)) (W.contents (device_of writer.new)) result }
    ensures flushed { OnOk result ((tally_of writer.new).flushed ≡ true) }
    ensures faults { (tally_of writer.new).faults ≡ faults_reported result (tally_of writer.old).faults }
    ensures patient { result ≡ Err Silent → IsSome terms.entry.patience }
{
    match receiver.end.set_receive_max(STREAM, terms.receive_max) {
        Ok(()) => receive_all::<Brand, L, R, W, K, V>(
            rt, listener, tokens, keys, receiver, writer, terms, watch,
        ),
        Err(error) => Err(TransferError::End(error)),
    }
}

/// Runs a receiver: answers the requests with the bearer token of the terms that arrive at `listener`, over ILP over
/// HTTP (RFC 0035, the synchronous mode). `terms.workers` threads read and open them, and this one judges them, one
/// after another, and writes the response of each. The answers are those of `end`, which sends no Prepare of its own. The
/// bytes that arrive on stream 1 are written to `writer` (RFC 0029): after each response what can be read then, before
/// the next request is judged. The result is the number of bytes written, once the stream ended cleanly and the request
/// that brought its end was answered. Requests that still wait then get no response: their connections are closed.
///
/// Up to 256 connections are read at once, by each thread an equal share of them, so that none that is silent or slow
/// delays another; if one more arrives at a thread, its oldest is closed. `clock` gives the moments at which Prepares
/// arrive. `rt` is the runtime that measures time: a request may take 30 seconds to arrive, and no longer than the
/// receiver's patience; its answer may be written until then, and for 5 seconds at least. A response is at most some
/// kilobytes, and nothing else is written to its connection, so that the write does not wait for the peer. Up to 16
/// requests wait to be judged; a thread with one more waits meanwhile. A valid request is one that is answered by the
/// end: the patience begins again once what it brought is written. After each request, stream 1 and the output together
/// are called at most `terms.turns` times. A connection that fails, is cut off, is too slow or uses up its I/O calls
/// ends alone. The progress of the transfer is reported to `watch` each time that the receiver waited: for what
/// arrives, and for a period at most.
///
/// The result is `Accept` if each thread has ended, and one of them since the listener gave it no connection 100 times
/// in a row while none was open, or if no thread can be made; `Silent` if no valid request arrived for as long as the
/// patience lasts; `Turns` after the last connection, also if `watch` stopped it; `File` if the output fails or its
/// calls are used up, and if the peer aborted the stream; `End` if `end` refuses the receive maximum, or memory to read
/// the stream is refused. What arrived before is written.
pub fn receive_on<
    L: AwaitListener + Send + Sync + Drop,
    R: Threads + Wait + std::time::Clock + Sync,
    W: Write,
    K: Clock + Drop,
    V: Watch,
>(
    rt: &R,
    alloc: Global,
    listener: L,
    end: ReceivingEnd,
    writer: &mut Counting<W>,
    clock: K,
    terms: ReceiveTerms<'_>,
    watch: &mut V,
) -> Ended
where
    L::Stream: Read + Write + OpenStream + Send,
    ensures told { TellsTotals (calls.set_receive_max end file_stream terms.entry.receive_max) (W.contents (device_of writer.old)) (W.contents (device_of writer.new)) result.totals result.result }
    ensures flushed { OnOk result.result ((tally_of writer.new).flushed ≡ true) }
    ensures faults { (tally_of writer.new).faults ≡ faults_reported result.result (tally_of writer.old).faults }
    ensures patient { result.result ≡ Err Silent → IsSome terms.entry.patience }
{
    let (end, keys) = end.into_parts();
    let mut receiver = Receiver {
        end,
        clock,
        alloc,
        refused: None,
    };
    let tokens = [terms.token];
    accept_without_waits(&listener);
    let result = receive_from(
        rt,
        &listener,
        &tokens,
        keys,
        &mut receiver,
        writer,
        terms,
        watch,
    );
    watch.end();
    tell_end(rt, terms.log, u64::from(STREAM.number()), &result);
    Ended {
        result,
        totals: receiver.end.totals(),
    }
}
