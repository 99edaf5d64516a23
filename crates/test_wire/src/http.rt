//! HTTP over streams of which each call fails in turn, under refused memory, and with invalid responses.

use st_devices::{Counting, FailAt};
use st_http::{Answerer, HttpError, exchange, serve_one};
use std::alloc::{Allocator, Global};
use std::io;
use std::io::{ErrorKind, Read, Write};
use std::process::Abort;
use test_refusing::Refusing;

/// A Prepare (RFC 0027).
const PREPARE: &[u8; 70] = b"\x0c\x44\0\0\0\0\0\0\0\x0520240102030405006\
\x66\x68\x7a\xad\xf8\x62\xbd\x77\x6c\x8f\xc1\x8b\x8e\x9f\x8e\x20\
\x08\x97\x14\x85\x6e\xe2\x33\xb3\x90\x2a\x59\x1d\x0d\x5f\x29\x25\x09example.b\0";

const HOST: &str = "127.0.0.1:7770";

/// The head of the request of a Prepare of 70 bytes to that host with the token `t1`: 149 bytes.
const REQUEST_HEAD: &str =
    "POST /ilp HTTP/1.1\r\nHost: 127.0.0.1:7770\r\nAuthorization: Bearer t1\r\nContent-Type: application/octet-stream\r\nContent-Length: 70\r\nConnection: close\r\n\r\n";

/// A response of 17 bytes, and bytes that are not to be read. Its head has 42 bytes.
const RESPONSE: &[u8] = b"HTTP/1.1 200 OK\r\nContent-Length: 00017\r\n\r\n0123456789abcdefgmore";

/// Its body.
const BODY: &[u8] = b"0123456789abcdefg";

/// A request with the token `t1`. Its head has 71 bytes, and its body five.
const POST: &[u8] =
    b"POST /ilp HTTP/1.1\r\nAuthorization: Bearer t1\r\nContent-Length: 00005\r\n\r\nhello";

/// The response to it if the answer is `ANSWER`: 133 bytes.
const ANSWERED: &str =
    "HTTP/1.1 200 OK\r\nContent-Type: application/octet-stream\r\nContent-Length: 35\r\nConnection: close\r\n\r\n\u{d}!012345678901234567890123456789012";

const ANSWER: &str = "\u{d}!012345678901234567890123456789012";

/// As curl 7.88.1 sent it over loopback: `curl -H 'Authorization: Bearer t1' -H 'Content-Type: application/octet-stream'
/// --data-binary hello http://127.0.0.1:7770/ilp`.
const FROM_CURL: &[u8] =
    b"POST /ilp HTTP/1.1\r\nHost: 127.0.0.1:7770\r\nUser-Agent: curl/7.88.1\r\nAccept: */*\r\nAuthorization: Bearer t1\r\nContent-Type: application/octet-stream\r\nContent-Length: 5\r\n\r\nhello";

/// A stream in memory that moves at most `piece` bytes a call.
#[derive(Drop)]
struct Wire<'a> {
    input: &'a [u8],
    output: Vec<u8>,
    piece: usize,
}

impl<'a> Wire<'a> {
    fn new(alloc: Global, input: &'a [u8], piece: usize) -> Self {
        Wire {
            input,
            output: Vec::new(alloc),
            piece,
        }
    }
}

impl<'a> Read for Wire<'a> {
    fn read(&mut self, buf: &mut [u8]) -> io::Result<usize> {
        let room = buf.len().min(self.piece);
        self.input.read(&mut buf[..room])
    }
}

impl<'a> Write for Wire<'a> {
    fn write(&mut self, buf: &[u8]) -> io::Result<usize> {
        let room = buf.len().min(self.piece);
        if self.output.extend_from_slice(&buf[..room]).is_err() {
            return Err(io::Error::from(ErrorKind::OutOfMemory));
        }
        Ok(room)
    }

    fn flush(&mut self) -> io::Result<()> {
        Ok(())
    }
}

/// An answerer that keeps the account and the body of the last request, and counts the requests.
#[derive(Drop)]
struct Noting {
    alloc: Global,
    answer: Option<&'static str>,
    calls: u32,
    account: usize,
    body: Vec<u8>,
}

impl Noting {
    fn new(alloc: Global, answer: Option<&'static str>) -> Self {
        Noting {
            alloc,
            answer,
            calls: 0,
            account: 9,
            body: Vec::new(alloc),
        }
    }

    /// Whether the last request was this account's, with this body.
    fn noted(&self, account: usize, body: &[u8]) -> bool {
        self.account == account && self.body.as_slice() == body
    }
}

impl Answerer for Noting {
    ghost gives = { λ _ _ _ _ _. Unit {0} };

    fn answer(&mut self, account: usize, body: &[u8]) -> Option<Vec<u8>> {
        self.calls = self.calls.saturating_add(1);
        self.account = account;
        self.body.clear();
        self.body.extend_from_slice(body).ok()?;
        Vec::from_slice(self.alloc, self.answer?.as_bytes()).ok()
    }
}

/// An exchange of `PREPARE` over a stream that moves 100 bytes a call, of which the call number `k` fails: what it gave,
/// what was written, and how many calls were made and failed.
fn exchange_at(
    alloc: Global,
    response: &[u8],
    k: u64,
    turns: u64,
) -> (Result<Vec<u8>, HttpError>, Vec<u8>, (u64, u64)) {
    let mut stream = Counting::new(FailAt::new(Wire::new(alloc, response, 100), k));
    let got = exchange(alloc, alloc, &mut stream, HOST, "t1", PREPARE, turns);
    let counts = (stream.tally().calls, stream.tally().faults);
    (got, stream.into_inner().into_inner().output, counts)
}

/// The bytes of the request: 219.
fn request(rt: &impl Abort, alloc: Global) -> Vec<u8> {
    let mut request = Vec::from_slice(alloc, REQUEST_HEAD.as_bytes()).expect(rt, "memory");
    sure!(rt; request.extend_from_slice(PREPARE).is_ok());
    request
}

/// Whether this is the body of `RESPONSE`.
fn is_body<A: Allocator + Copy>(got: Result<Vec<u8, A>, HttpError>) -> bool {
    match got {
        Ok(body) => body.as_slice() == BODY,
        Err(_) => false,
    }
}

/// An exchange whose call number `k` fails: the fault, and what was written before.
fn exchange_fails(rt: &impl Abort, alloc: Global, request: &[u8], k: u64) {
    let (want, sent) = match k {
        1 => (HttpError::WriteFault(0), 0),
        2 => (HttpError::WriteFault(100), 100),
        3 => (HttpError::WriteFault(200), 200),
        _ => (HttpError::ReadFault, 219),
    };
    let (got, written, counts) = exchange_at(alloc, RESPONSE, k, 1_000);
    sure!(rt; got.is_err_and(|e| e == want), k);
    sure!(rt; written.len() == sent && request.starts_with(&written), k);
    sure!(rt; counts == (k, 1), k);
}

/// The request is written by three calls, and the response read by one for each byte of its head and one for its body.
#[test]
fn each_call_of_an_exchange_fails_in_turn(rt: HostRuntime) {
    let alloc = rt.alloc();
    let request = request(&rt, alloc);
    sure!(&rt; request.len() == 219);
    for k in 1..=46u64 {
        exchange_fails(&rt, alloc, &request, k);
    }
    let (got, written, counts) = exchange_at(alloc, RESPONSE, 47, 46);
    sure!(&rt; is_body(got));
    sure!(&rt; written.as_slice() == request.as_slice());
    sure!(&rt; counts == (46, 0));
}

/// One I/O call less than are needed: the limit counts calls, and none is made beyond it.
#[test]
fn turns_are_calls(rt: HostRuntime) {
    for turns in 0..46u64 {
        let (got, _, counts) = exchange_at(rt.alloc(), RESPONSE, 0, turns);
        sure!(&rt; got.is_err_and(|e| e == HttpError::Turns), turns);
        sure!(&rt; counts == (turns, 0), turns);
    }
}

/// A response of another status, and one whose body ends a byte early.
#[test]
fn responses_are_refused(rt: HostRuntime) {
    let unauthorized = b"HTTP/1.1 401 Unauthorized\r\nContent-Length: 0\r\n\r\n";
    let cut = b"HTTP/1.1 200 OK\r\nContent-Length: 17\r\n\r\n0123456789abcdef";
    let (got, ..) = exchange_at(rt.alloc(), unauthorized, 0, 1_000);
    sure!(&rt; got.is_err_and(|e| e == HttpError::Status(401)));
    let (got, ..) = exchange_at(rt.alloc(), cut, 0, 1_000);
    sure!(&rt; got.is_err_and(|e| e == HttpError::Cut));
}

/// A service of `POST` over a stream whose call number `k` fails: what it gave, what was written, and how many calls were
/// made and failed.
fn serve_at(
    alloc: Global,
    answerer: &mut Noting,
    k: u64,
) -> (Result<(), HttpError>, Vec<u8>, (u64, u64)) {
    let mut stream = Counting::new(FailAt::new(Wire::new(alloc, POST, 100), k));
    let got = serve_one(alloc, alloc, &mut stream, &["t0", "t1"], answerer, 74);
    let counts = (stream.tally().calls, stream.tally().faults);
    (got, stream.into_inner().into_inner().output, counts)
}

/// A service whose call number `k` fails: the fault, and what was answered and written before.
fn service_fails(rt: &impl Abort, alloc: Global, k: u64) {
    let (want, calls, sent) = match k {
        73 => (Err(HttpError::WriteFault(0)), 1, 0),
        74 => (Err(HttpError::WriteFault(100)), 1, 100),
        75 => (Ok(()), 1, 133),
        _ => (Err(HttpError::ReadFault), 0, 0),
    };
    let mut answerer = Noting::new(alloc, Some(ANSWER));
    let (got, written, counts) = serve_at(alloc, &mut answerer, k);
    sure!(rt; got == want, k);
    sure!(rt; answerer.calls == calls, k);
    sure!(rt; calls == 0 || answerer.noted(1, b"hello"), k);
    sure!(rt; written.len() == sent && ANSWERED.as_bytes().starts_with(&written), k);
    sure!(rt; counts == (k.min(74), u64::from(k < 75)), k);
}

/// The request is read by one call for each byte of its head and one for its body, and the response written by two.
#[test]
fn each_call_of_a_service_fails_in_turn(rt: HostRuntime) {
    for k in 1..=75u64 {
        service_fails(&rt, rt.alloc(), k);
    }
}

/// A head of more bytes than the calls that are allowed, one byte a call: they are used up, and nothing was answered.
#[test]
fn a_slow_request_uses_up_the_turns(rt: HostRuntime) {
    let alloc = rt.alloc();
    let mut stream = Counting::new(Wire::new(alloc, FROM_CURL, 1));
    let mut answerer = Noting::new(alloc, None);
    let got = serve_one(alloc, alloc, &mut stream, &["t1"], &mut answerer, 100);
    sure!(&rt; got == Err(HttpError::Turns));
    sure!(&rt; stream.tally().calls == 100);
    sure!(&rt; answerer.calls == 0);
    sure!(&rt; stream.into_inner().output.is_empty());
}

/// A request with a token that is not known is answered, and nobody is asked.
#[test]
fn another_token_is_turned_down(rt: HostRuntime) {
    let alloc = rt.alloc();
    let mut stream = Counting::new(Wire::new(alloc, POST, 100));
    let mut answerer = Noting::new(alloc, Some(ANSWER));
    let got = serve_one(
        alloc,
        alloc,
        &mut stream,
        &["t2", "t"],
        &mut answerer,
        1_000,
    );
    sure!(&rt; got == Ok(()));
    sure!(&rt; answerer.calls == 0);
    let text = "HTTP/1.1 401 Unauthorized\r\nContent-Length: 0\r\nConnection: close\r\n\r\n";
    sure!(&rt; stream.into_inner().output.as_slice() == text.as_bytes());
}

/// Whether an exchange brings the body, if there is memory.
fn exchanges(heap: &Refusing<Global>, alloc: Global) -> bool {
    let mut stream = Counting::new(Wire::new(alloc, RESPONSE, 100));
    is_body(exchange(heap, alloc, &mut stream, HOST, "t1", PREPARE, 1_000))
}

/// An exchange whose request `n` for memory is refused: whether there was one. With memory back a new stream is answered.
fn exchange_meets(rt: &impl Abort, heap: &Refusing<Global>, alloc: Global, n: u64) -> bool {
    heap.refuse_only(n);
    let mut stream = Counting::new(Wire::new(alloc, RESPONSE, 100));
    let got = exchange(heap, alloc, &mut stream, HOST, "t1", PREPARE, 1_000);
    let met = heap.has_refused();
    heap.refuse_none();
    if met {
        sure!(rt; got.is_err_and(|e| e == HttpError::NoMemory), n);
        sure!(rt; stream.tally().faults == 0, n);
        sure!(rt; exchanges(heap, alloc), n);
    } else {
        sure!(rt; is_body(got));
    }
    met
}

/// Each request for memory of an exchange is refused in turn.
#[test]
fn each_request_of_an_exchange_is_refused(rt: HostRuntime) {
    let heap: Refusing<Global> = Refusing::new(rt.alloc());
    for n in 1..100u64 {
        if !exchange_meets(&rt, &heap, rt.alloc(), n) {
            sure!(&rt; 3 < n);
            return;
        }
    }
    panic!(rt; "no run met no refusal");
}

/// A service whose request `n` for memory is refused: whether there was one. Nothing is written then.
fn service_meets(rt: &impl Abort, heap: &Refusing<Global>, alloc: Global, n: u64) -> bool {
    heap.refuse_only(n);
    let mut stream = Counting::new(Wire::new(alloc, POST, 100));
    let mut answerer = Noting::new(alloc, Some(ANSWER));
    let got = serve_one(heap, alloc, &mut stream, &["t1"], &mut answerer, 1_000);
    let met = heap.has_refused();
    heap.refuse_none();
    let written = stream.into_inner().output;
    if met {
        sure!(rt; got == Err(HttpError::NoMemory), n);
        sure!(rt; written.is_empty(), n);
        sure!(rt; answerer.calls <= 1, n);
    } else {
        sure!(rt; got == Ok(()));
        sure!(rt; written.as_slice() == ANSWERED.as_bytes());
    }
    met
}

/// Each request for memory of a service is refused in turn.
#[test]
fn each_request_of_a_service_is_refused(rt: HostRuntime) {
    let heap: Refusing<Global> = Refusing::new(rt.alloc());
    for n in 1..100u64 {
        if !service_meets(&rt, &heap, rt.alloc(), n) {
            sure!(&rt; 3 < n);
            return;
        }
    }
    panic!(rt; "no run met no refusal");
}
