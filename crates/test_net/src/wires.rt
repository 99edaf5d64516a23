//! A network for tests: its connections are over sockets or in memory, one of their calls may fail, and its clock may not advance.

ghost use Rattle.std.specs.Io.{ReadsAtMost, WritesAtMost};

use ilpstream_serving::AwaitListener;
use std::io;
use std::io::{ErrorKind, Read, Write};
use std::net::{Net, OpenListener, OpenStream, SocketAddr, TcpListener, TcpStream, UdpSocket};
use std::os::fd::{AsRawFd, OwnedFd};
use std::os::unix;
use std::os::unix::net::UnixStream;
use std::sync::Wait;
use std::sync::atomic::{AtomicU64, Ordering};
use std::thread::Threads;
use std::time::{Clock, Duration};

/// What a test sees of its connections, for all threads, and the time of their clock.
#[derive(Drop)]
pub(crate) struct Seen {
    /// How often a listener was asked for a connection.
    asked: AtomicU64,
    /// How many connections there were.
    made: AtomicU64,
    /// How many of their calls failed.
    failed: AtomicU64,
    /// How many bytes were written on them.
    written: AtomicU64,
    /// The time-outs that were set last, in nanoseconds: for a connection attempt, a read and a write. 0 if there is none.
    connect_nanos: AtomicU64,
    read_nanos: AtomicU64,
    write_nanos: AtomicU64,
    /// Milliseconds since the start of 1970 that the clock always gives. If they are 0, it is that of the runtime.
    millis: AtomicU64,
}

impl Seen {
    /// Nothing yet, by a clock that always gives this number of milliseconds, or by that of the runtime if it is 0.
    pub(crate) fn at(millis: u64) -> Seen {
        Seen {
            asked: AtomicU64::new(0),
            made: AtomicU64::new(0),
            failed: AtomicU64::new(0),
            written: AtomicU64::new(0),
            connect_nanos: AtomicU64::new(0),
            read_nanos: AtomicU64::new(0),
            write_nanos: AtomicU64::new(0),
            millis: AtomicU64::new(millis),
        }
    }

    /// Sets the clock.
    pub(crate) fn set_millis(&self, millis: u64) {
        self.millis.store(millis, Ordering::SeqCst);
    }

    /// How often a listener was asked for a connection.
    pub(crate) fn asked(&self) -> u64 {
        self.asked.load(Ordering::SeqCst)
    }

    /// How many connections there were, and how many bytes were written on them.
    pub(crate) fn moved(&self) -> (u64, u64) {
        let made = self.made.load(Ordering::SeqCst);
        (made, self.written.load(Ordering::SeqCst))
    }

    /// How many calls failed.
    pub(crate) fn failed(&self) -> u64 {
        self.failed.load(Ordering::SeqCst)
    }

    /// The last time-out of a connection attempt, in nanoseconds.
    pub(crate) fn connect_nanos(&self) -> u64 {
        self.connect_nanos.load(Ordering::SeqCst)
    }

    /// The last time-outs of a read and of a write, in nanoseconds.
    pub(crate) fn nanos(&self) -> (u64, u64) {
        let read = self.read_nanos.load(Ordering::SeqCst);
        (read, self.write_nanos.load(Ordering::SeqCst))
    }

    /// The next connection, over this device. Of the first the call `k` fails.
    fn wire<'a>(&'a self, device: Device<'a>, k: u64) -> Wire<'a> {
        let is_first = self.made.fetch_add(1, Ordering::SeqCst) == 0;
        Wire {
            device,
            fails_at: if is_first { k } else { 0 },
            calls: 0,
            seen: self,
        }
    }

    /// Notes the result of a call.
    fn note(&self, moved: &io::Result<usize>, is_written: bool) {
        match moved {
            Ok(n) if is_written => {
                self.written.fetch_add(*n as u64, Ordering::SeqCst);
            }
            Ok(_) => (),
            Err(_) => {
                self.failed.fetch_add(1, Ordering::SeqCst);
            }
        }
    }
}

/// The nanoseconds of a time-out. None has 0.
fn nanos_of(time: Option<Duration>) -> u64 {
    match time {
        Some(time) => u64::try_from(time.as_nanos()).unwrap_or(u64::MAX),
        None => 0,
    }
}

/// The most bytes that one call of a connection in memory moves.
const PIECE: usize = 64;

/// What a connection is over.
#[derive(Drop)]
enum Device<'a> {
    Socket(TcpStream),
    /// These bytes are read from it, and it accepts all that is written.
    Memory(&'a [u8]),
}

/// Reads a part of bytes in memory.
fn read_piece(bytes: &mut &[u8], buf: &mut [u8]) -> io::Result<usize>
    ensures { ReadsAtMost result buf.new }
{
    let room = buf.len().min(PIECE);
    bytes.read(&mut buf[..room])
}

impl Device<'_> {
    fn take(&mut self, buf: &mut [u8]) -> io::Result<usize>
        ensures { ReadsAtMost result buf.new }
    {
        match self {
            Device::Socket(stream) => stream.read(buf),
            Device::Memory(bytes) => read_piece(bytes, buf),
        }
    }

    fn put(&mut self, buf: &[u8]) -> io::Result<usize>
        ensures { WritesAtMost result buf.now }
    {
        match self {
            Device::Socket(stream) => stream.write(buf),
            Device::Memory(_) => Ok(buf.len().min(PIECE)),
        }
    }
}

/// A connection of which one call fails, or none. It counts its calls itself, since the prover refuses the drop of a `FailAt` next
/// to a borrow.
#[derive(Drop)]
pub(crate) struct Wire<'a> {
    device: Device<'a>,
    /// The number of the call that fails, from 1. If it is 0 none fails.
    fails_at: u64,
    calls: u64,
    seen: &'a Seen,
}

impl Wire<'_> {
    /// Whether the next call fails, which it counts.
    fn fails(&mut self) -> bool {
        self.calls = self.calls.saturating_add(1);
        self.calls == self.fails_at
    }
}

impl Read for Wire<'_> {
    fn read(&mut self, buf: &mut [u8]) -> io::Result<usize> {
        let read = if self.fails() {
            Err(io::Error::from(ErrorKind::Other))
        } else {
            self.device.take(buf)
        };
        self.seen.note(&read, false);
        read
    }
}

impl Write for Wire<'_> {
    fn write(&mut self, buf: &[u8]) -> io::Result<usize> {
        let written = if self.fails() {
            Err(io::Error::from(ErrorKind::Other))
        } else {
            self.device.put(buf)
        };
        self.seen.note(&written, true);
        written
    }

    fn flush(&mut self) -> io::Result<()> {
        Ok(())
    }
}

impl OpenStream for Wire<'_> {
    fn set_read_timeout(&self, time: Option<Duration>) -> io::Result<()> {
        let nanos = nanos_of(time);
        self.seen.read_nanos.store(nanos, Ordering::SeqCst);
        Ok(())
    }

    fn set_write_timeout(&self, time: Option<Duration>) -> io::Result<()> {
        let nanos = nanos_of(time);
        self.seen.write_nanos.store(nanos, Ordering::SeqCst);
        Ok(())
    }
}

impl AsRawFd for Wire<'_> {
    fn as_raw_fd(&self) -> i32 {
        -1
    }
}

/// A listener of which each connection brings these bytes, or which gives none.
#[derive(Drop)]
pub(crate) struct Door<'a> {
    pub(crate) seen: &'a Seen,
    pub(crate) brings: Option<&'a [u8]>,
    /// The call of the first connection that fails.
    pub(crate) k: u64,
}

impl<'a> OpenListener for Door<'a> {
    type Stream = Wire<'a>;

    fn accept(&self) -> io::Result<(Wire<'a>, SocketAddr)> {
        self.seen.asked.fetch_add(1, Ordering::SeqCst);
        match self.brings {
            Some(bytes) => {
                let wire = self.seen.wire(Device::Memory(bytes), self.k);
                Ok((wire, SocketAddr::from(([127, 0, 0, 1], 1))))
            }
            None => Err(io::Error::from(ErrorKind::Other)),
        }
    }
}

impl AsRawFd for Door<'_> {
    fn as_raw_fd(&self) -> i32 {
        -1
    }
}

impl AwaitListener for Door<'_> {}

/// A network of which each connection that is made brings these bytes, or is a socket of the wrapped runtime.
#[derive(Drop)]
pub(crate) struct Wires<'a, R> {
    pub(crate) rt: &'a R,
    pub(crate) seen: &'a Seen,
    pub(crate) brings: Option<&'a [u8]>,
    /// The call of the first connection that fails.
    pub(crate) k: u64,
}

impl<R: Wait> Wait for Wires<'_, R> {}

impl<R: Threads> Threads for Wires<'_, R> {}

impl<R: Clock> Clock for Wires<'_, R> {
    fn monotonic(&self) -> io::Result<Duration> {
        match self.seen.millis.load(Ordering::SeqCst) {
            0 => self.rt.monotonic(),
            _ => Ok(Duration::from_secs(1_000)),
        }
    }

    fn since_1970(&self) -> io::Result<Duration> {
        match self.seen.millis.load(Ordering::SeqCst) {
            0 => self.rt.since_1970(),
            millis => Ok(Duration::from_millis(millis)),
        }
    }

    fn sleep(&self, time: Duration) {
        self.rt.sleep(time)
    }
}

impl<'a, R: Net<Listener = TcpListener, Stream = TcpStream>> Wires<'a, R> {
    /// What the next connection is over.
    fn device(&self, at: SocketAddr, timeout: Duration) -> io::Result<Device<'a>> {
        match self.brings {
            Some(bytes) => Ok(Device::Memory(bytes)),
            None => match self.rt.connect_timeout(at, timeout) {
                Ok(stream) => Ok(Device::Socket(stream)),
                Err(error) => Err(error),
            },
        }
    }
}

/// It has connections with a time-out alone. All else is written out, since the prover takes longer for the trait's own bodies.
impl<'a, R: Net<Listener = TcpListener, Stream = TcpStream>> Net for Wires<'a, R> {
    type Stream = Wire<'a>;

    type Listener = Door<'a>;

    fn bind(&self, _: SocketAddr) -> io::Result<Door<'a>> {
        Err(io::Error::from(ErrorKind::Unsupported))
    }

    fn connect(&self, _: SocketAddr) -> io::Result<Wire<'a>> {
        Err(io::Error::from(ErrorKind::Unsupported))
    }

    fn connect_timeout(&self, at: SocketAddr, timeout: Duration) -> io::Result<Wire<'a>> {
        let nanos = nanos_of(Some(timeout));
        self.seen.connect_nanos.store(nanos, Ordering::SeqCst);
        match self.device(at, timeout) {
            Ok(device) => Ok(self.seen.wire(device, self.k)),
            Err(error) => Err(error),
        }
    }

    fn bind_udp(&self, _: SocketAddr) -> io::Result<UdpSocket> {
        Err(io::Error::from(ErrorKind::Unsupported))
    }

    fn lookup_host(&self, _: &str, _: u16, _: &mut [SocketAddr]) -> io::Result<usize> {
        Err(io::Error::from(ErrorKind::Unsupported))
    }

    fn connect_unix(&self, _: &unix::net::SocketAddr) -> io::Result<UnixStream> {
        Err(io::Error::from(ErrorKind::Unsupported))
    }

    fn unix_pair(&self) -> io::Result<(UnixStream, UnixStream)> {
        Err(io::Error::from(ErrorKind::Unsupported))
    }

    fn unix_socket(&self) -> io::Result<OwnedFd> {
        Err(io::Error::from(ErrorKind::Unsupported))
    }
}
