//! How connections are accepted, and how the request of one connection is served.

ghost use Rattle.std.specs.Prelude.{IsOkUnless};
ghost use Rattle.ilpstream_serving.specs.Answering.{AskedOnce};
ghost use Rattle.ilpstream_serving.specs.declared.error.TransferError.TheVariants.{Accept};

use crate::buffered::Buffered;
use crate::error::TransferError;
use crate::http_link::ANSWER_SECONDS;
use crate::telling::{Log, tell_connection};
use crate::timed::Timed;
use crate::waiting::AwaitListener;
use crate::watched::Watched;
use libc::net::{POLLIN, SHUT_RDWR, poll, shutdown};
use libc::types::pollfd;
use st_devices::Counting;
use st_http::{Answerer, serve_one};
use std::alloc::Global;
use std::cell::Cell;
use std::io::{ErrorKind, Read, Write};
use std::net::{OpenListener, OpenStream, SocketAddr};
use std::thread;
use std::time::{Clock, Duration};

/// How often in a row `accept` may fail.
pub const TRIES: u32 = 100;

/// How many milliseconds pass between two tries of a call that failed.
pub const PAUSE: u64 = 10;

/// How many seconds there are at least to write an answer.
pub const WRITE_SECONDS: u64 = 5;

/// How many milliseconds a thread waits for a connection, if it is then to ask whether it is to continue.
const LOOK_MILLIS: i32 = 200;

/// How one try to accept a connection ended.
#[derive(Drop)]
pub enum Tried<S> {
    /// A connection from this address was accepted.
    Came(S, SocketAddr),
    /// There was none in time.
    Nothing,
    /// The listener failed.
    Failed,
    /// The listener is shut.
    Shut,
}

/// Has no `accept` of a listener wait, if it has a file descriptor.
pub fn accept_without_waits(listener: &impl AwaitListener) {
    if let Some(descriptor) = listener.descriptor() {
        os::set_nonblocking(descriptor, true);
    }
}

/// Accepts a connection, if one arrives within 200 milliseconds. The listener is to be one whose `accept` does not wait, if it
/// has a file descriptor.
pub fn accept_soon<L: AwaitListener>(listener: &L) -> Tried<L::Stream> {
    if let Some(fd) = listener.descriptor() {
        let mut fds = [pollfd {
            fd,
            events: POLLIN,
            revents: 0,
        }];
        let ready = poll(&mut fds, LOOK_MILLIS);
        if ready == 0 {
            return Tried::Nothing;
        }
        if ready < 0 {
            return Tried::Failed;
        }
    }
    match listener.accept() {
        Ok((stream, from)) => Tried::Came(stream, from),
        Err(error) => match error.kind() {
            ErrorKind::WouldBlock | ErrorKind::Interrupted => Tried::Nothing,
            ErrorKind::InvalidInput => Tried::Shut,
            _ => Tried::Failed,
        },
    }
}

/// Accepts the next connection of a listener, and gives the address of its other side. If that fails, for example because the process
/// has no file descriptor left, it tries again after 10 milliseconds. Fails with `Accept` after 100 failures in a row, or 10
/// milliseconds after the listener was found shut.
pub fn accept_next<L: OpenListener>(
    rt: &impl Clock,
    listener: &L,
) -> Result<(L::Stream, SocketAddr), TransferError>
    ensures refused { IsOkUnless result Accept }
{
    for _ in 0..TRIES {
        let is_shut = match listener.accept() {
            Ok(accepted) => return Ok(accepted),
            Err(error) => error.kind() == ErrorKind::InvalidInput,
        };
        thread::sleep(rt, Duration::from_millis(PAUSE));
        if is_shut {
            break;
        }
    }
    Err(TransferError::Accept)
}

/// Shuts a listener: each `accept` of it fails from now on, those that wait among them. Linux resets the connections that
/// were not accepted yet. One without a file descriptor stays as it is.
pub fn shut(listener: &impl AwaitListener) {
    if let Some(descriptor) = listener.descriptor() {
        let _ = shutdown(descriptor, SHUT_RDWR);
    }
}

/// Reads one request from a stream, has it answered if it is valid, and writes the response.
#[tactic(auto, using(crate::proofs::Unanswered::asked_served))]
fn serve_stream<S: Read + Write, T: Answerer>(
    alloc: Global,
    stream: &mut Counting<S>,
    tokens: &[&str],
    answerer: &mut T,
    turns: u64,
)
    ensures { AskedOnce T.gives answerer.old answerer.new }
{
    match serve_one(alloc, alloc, stream, tokens, answerer, turns) {
        Ok(()) => {}
        // What fails on the connection ends it alone.
        Err(_) => {}
    }
}

/// Reads one request from a connection, has it answered if it is valid, and writes the response (RFC 0035, the
/// synchronous mode). The request may take 30 seconds, the response as long as is left of them and 5 seconds at least, and
/// both together `turns` I/O calls. What fails on the connection ends it alone, and so does a refusal of memory for its
/// buffer. Once the answerer has set `withheld` nothing is written. A connection on which no request was answered is reported
/// to `log`.
pub fn serve_on<S: Read + Write + OpenStream + Drop, T: Answerer>(
    rt: &impl Clock,
    alloc: Global,
    stream: S,
    from: SocketAddr,
    tokens: &[&str],
    answerer: &mut T,
    turns: u64,
    withheld: &Cell<bool>,
    log: Log<'_>,
)
    ensures { AskedOnce T.gives answerer.old answerer.new }
{
    let _ = stream.set_nodelay(true);
    let time = Duration::from_secs(ANSWER_SECONDS);
    let timed = Timed::answering(stream, rt, time, Duration::from_secs(WRITE_SECONDS));
    let Ok(buffered) = Buffered::new(alloc, timed) else {
        return;
    };
    let mut stream = Counting::new(Watched::new(buffered, withheld));
    serve_stream(alloc, &mut stream, tokens, answerer, turns);
    tell_connection(rt, alloc, log, from, stream.into_inner().status());
}
