//! Prepares that are opened before the end judges them: with the same answers as in one call, and while memory is refused.
ghost use Rattle.std.specs.Prelude.{◌≡◌};
ghost use Rattle.st_end.specs.Opened.{IsOpenedBy};

use crate::ends::{client, moment};
use st_end::{EndError, EndState, Opened, Received, Role, StreamId};
use st_ilp::Moment;
use st_keys::Keys;
use st_oer::is_address;
use st_sender::EndConfig;
use std::alloc::{Allocator, Global};
use std::process::Abort;
use test_refusing::Refusing;

/// The secret of each end here.
const SECRET: [u8; 32] = [0; 32];

/// A Prepare to "test.b" with two bytes on stream 1 and no money.
fn prepare(rt: &impl Abort, alloc: Global) -> Vec<u8> {
    let mut end = client(rt, alloc, 1_000);
    sure!(rt; end.open_stream() == Ok(StreamId::FIRST));
    sure!(rt; end.write(StreamId::FIRST, b"hi") == Ok(()));
    match end.send([9; 12], moment(rt)) {
        Ok(Some((flight, bytes))) => {
            flight.abandon();
            drop(end);
            bytes
        }
        Ok(None) | Err(_) => panic!(rt; "nothing goes"),
    }
}

/// A server with these addresses and the same secret, and its keys once more.
fn end_and_keys<A: Allocator + Copy>(
    rt: &impl Abort,
    alloc: A,
    own: &str,
    peer: &str,
) -> (EndState<A>, Keys)
    ensures { result.0.keys ≡ result.1 }
{
    let config = EndConfig::new(16, 1_000, 1_000).expect(rt, "it is allowed");
    if !is_address(own) || !is_address(peer) {
        panic!(rt; "no address");
    }
    match EndState::new(alloc, Role::Server, Keys::of(SECRET), own, peer, config) {
        Ok(end) => (end, Keys::of(SECRET)),
        Err(refused) => panic!(rt; "refused {}", refused.number()),
    }
}

/// These bytes, opened while the memory of their text is refused or not.
fn open<'h>(
    rt: &impl Abort,
    heap: &'h Refusing<Global>,
    keys: &Keys,
    bytes: &[u8],
    refuse: bool,
) -> Opened<&'h Refusing<Global>>
    ensures { IsOpenedBy keys.now result.bytes.items result }
{
    heap.refuse_none();
    let bytes = Vec::from_slice(heap, bytes).expect(rt, "memory");
    if refuse {
        heap.refuse_from(1);
    }
    let opened = Opened::of(heap, keys, bytes);
    sure!(rt; heap.has_refused() == refuse);
    heap.refuse_none();
    opened
}

/// The reason and the amount of an answer.
fn outcome<A: Allocator + Copy>(
    answer: Result<Received<A>, EndError>,
) -> Result<(u8, u64), EndError> {
    let Received { reason, amount, .. } = answer?;
    Ok((reason, amount))
}

/// The answer of a server to these bytes, which it opens itself, and whether it is then ready to read stream 1.
fn answer_at_once(rt: &impl Abort, alloc: Global, bytes: &[u8]) -> (Received<Global>, bool) {
    let (mut end, _) = end_and_keys(rt, alloc, "test.b", "test.a");
    let answer = end.receive(bytes, moment(rt)).expect(rt, "memory");
    let is_ready = end.is_ready(StreamId::FIRST);
    drop(end);
    (answer, is_ready)
}

/// The same of bytes that were opened before.
fn answer_opened(rt: &impl Abort, alloc: Global, bytes: &[u8]) -> (Received<Global>, bool) {
    let (mut end, keys) = end_and_keys(rt, alloc, "test.b", "test.a");
    let bytes = Vec::from_slice(alloc, bytes).expect(rt, "memory");
    let opened = Opened::of(alloc, &keys, bytes);
    let answer = end.receive_opened(&opened, moment(rt)).expect(rt, "memory");
    let is_ready = end.is_ready(StreamId::FIRST);
    drop(end);
    (answer, is_ready)
}

/// The answer of the two calls is that of the one.
#[test]
fn opened_bytes_are_answered_alike(rt: HostRuntime) {
    let rt = &rt;
    let bytes = prepare(rt, rt.alloc());
    let (whole, one) = answer_at_once(rt, rt.alloc(), &bytes);
    let (halves, two) = answer_opened(rt, rt.alloc(), &bytes);
    sure!(rt; whole.reason == 0 && halves.reason == 0);
    sure!(rt; whole.amount == halves.amount);
    sure!(rt; whole.sequence == halves.sequence);
    sure!(rt; whole.bytes.as_slice() == halves.bytes.as_slice());
    sure!(rt; one && two);
}

/// What a server of this address answers if memory for the text was refused, and whether stream 1 was opened.
fn answer_closed(
    rt: &impl Abort,
    heap: &Refusing<Global>,
    own: &str,
    bytes: &[u8],
    now: Moment,
) -> (Result<(u8, u64), EndError>, bool) {
    let (mut end, keys) = end_and_keys(rt, heap, own, "test.a");
    let closed = open(rt, heap, &keys, bytes, true);
    let answer = outcome(end.receive_opened(&closed, now));
    let has_stream = end.has_stream(StreamId::FIRST);
    drop(end);
    (answer, has_stream)
}

/// If memory for the text was refused, the payload cannot be judged. A Prepare that an earlier rule rejects is answered.
#[test]
fn opening_is_refused_memory(rt: HostRuntime) {
    let rt = &rt;
    let bytes = prepare(rt, rt.alloc());
    let heap = Refusing::new(rt.alloc());
    let now = moment(rt);
    let late = Moment::new(1_000_000).expect(rt, "a moment");
    let (answer, has_stream) = answer_closed(rt, &heap, "test.b", &bytes, now);
    sure!(rt; answer == Err(EndError::NoMemory));
    sure!(rt; !has_stream);
    sure!(rt; answer_closed(rt, &heap, "test.c", &bytes, now).0 == Ok((56, 0)));
    sure!(rt; answer_closed(rt, &heap, "test.b", &bytes, late).0 == Ok((57, 0)));
}

/// Makes the second call while its request number `n` is refused: whether it makes that request.
fn judge_while_refused<A: Allocator + Copy>(
    rt: &impl Abort,
    heap: &Refusing<Global>,
    end: &mut EndState<A>,
    opened: &Opened<A>,
    n: u64,
) -> bool
    requires { IsOpenedBy end.old.keys opened.now.bytes.items opened.now }
{
    heap.refuse_only(n);
    let answer = outcome(end.receive_opened(opened, moment(rt)));
    let was = heap.has_refused();
    heap.refuse_none();
    if was {
        sure!(rt; answer == Err(EndError::NoMemory));
        sure!(rt; !end.has_stream(StreamId::FIRST));
    } else {
        sure!(rt; answer == Ok((0, 0)));
        sure!(rt; end.is_ready(StreamId::FIRST));
    }
    was
}

/// The same at a new end, by which these bytes are opened.
fn open_and_judge(rt: &impl Abort, heap: &Refusing<Global>, bytes: &[u8], n: u64) -> bool {
    heap.refuse_none();
    let (mut end, keys) = end_and_keys(rt, heap, "test.b", "test.a");
    let opened = open(rt, heap, &keys, bytes, false);
    let was = judge_while_refused(rt, heap, &mut end, &opened, n);
    drop(end);
    was
}

#[test]
fn judging_is_refused_memory(rt: HostRuntime) {
    let rt = &rt;
    let bytes = prepare(rt, rt.alloc());
    let heap = Refusing::new(rt.alloc());
    for n in 1..1_000_u64 {
        if !open_and_judge(rt, &heap, &bytes, n) {
            sure!(rt; n > 2);
            return;
        }
    }
    panic!(rt; "each request is refused");
}
