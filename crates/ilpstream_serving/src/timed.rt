//! A stream whose calls end by a deadline.

ghost use Rattle.std.specs.Prelude.{◌≡◌, ◌<◌, None, Some, IfSome, true};
ghost use Rattle.std.specs.Duration.{as_nanos};

use std::io;
use std::io::{ErrorKind, Read, Write};
use std::net::OpenStream;
use std::time::{Clock, Duration, Instant};

/// The milliseconds by which a call may end after the deadline: a time-out that is later by no more is not set again.
const SLACK_MILLIS: u64 = 100;

/// A stream with one deadline for all of its calls. Before the first read and the first write the stream's time-out is set to
/// what is left until the deadline, and before a later one if that has changed by more than a tenth of a second. From the
/// deadline on each call fails with `ErrorKind::TimedOut`, and so does each call if the clock cannot be read. A call that
/// began before the deadline ends at most a tenth of a second after it.
///
/// If a time for an answer is set, the first write moves the deadline to at least that time from then on, once: what was
/// read until shortly before the deadline can still be answered.
#[derive(Drop)]
pub struct Timed<'r, S, R: Clock> {
    stream: S,
    clock: &'r R,
    deadline: Option<Instant>,
    // The least time for the writes, until the first of them.
    answer: Option<Duration>,
    // The time-outs that the stream has for its reads and for its writes, once they were set.
    read_timeout: Option<Duration>,
    write_timeout: Option<Duration>,
}

/// The moment that is `time` from now, if the clock can be read.
pub fn deadline_in(clock: &impl Clock, time: Duration) -> Option<Instant> {
    Instant::now(clock).ok()?.checked_add(time)
}

/// Whether a stream's time-out has to be set again: if it has none, or one that is sooner than what is left until the
/// deadline, or later by more than `SLACK_MILLIS`.
fn is_outdated(set: Option<Duration>, left: Duration) -> bool
    ensures unset { set ≡ None → result ≡ true }
{
    let Some(set) = set else {
        return true;
    };
    match set.checked_sub(left) {
        Some(more) => more > Duration::from_millis(SLACK_MILLIS),
        None => true,
    }
}

/// What is left until a deadline: nothing if it has passed or the clock cannot be read.
pub fn left_until(clock: &impl Clock, deadline: Option<Instant>) -> Option<Duration>
    ensures none { deadline ≡ None → result ≡ None }
    ensures some { IfSome result (λ left. 0 < as_nanos left) }
{
    let now = Instant::now(clock).ok()?;
    let left = deadline?.checked_duration_since(now)?;
    if left.is_zero() { None } else { Some(left) }
}

impl<'r, S, R: Clock> Timed<'r, S, R> {
    /// The stream, of which all calls together may take `time`.
    pub fn new(stream: S, clock: &'r R, time: Duration) -> Timed<'r, S, R>
        ensures { (result.stream ≡ stream) × (result.answer ≡ None) }
    {
        Timed::until(stream, clock, deadline_in(clock, time))
    }

    /// The stream, of which all calls together may take `time`, and the writes at least `answer` from the first of them on.
    pub fn answering(stream: S, clock: &'r R, time: Duration, answer: Duration) -> Timed<'r, S, R>
        ensures { (result.stream ≡ stream) × (result.answer ≡ Some answer) }
    {
        Timed {
            stream,
            clock,
            deadline: deadline_in(clock, time),
            answer: Some(answer),
            read_timeout: None,
            write_timeout: None,
        }
    }

    /// The stream with this deadline. If there is none, each call fails.
    pub(crate) fn until(stream: S, clock: &'r R, deadline: Option<Instant>) -> Timed<'r, S, R>
        ensures { (result.stream ≡ stream) × (result.deadline ≡ deadline) × (result.answer ≡ None) }
    {
        Timed {
            stream,
            clock,
            deadline,
            answer: None,
            read_timeout: None,
            write_timeout: None,
        }
    }

    /// What is left for a write. The first write moves the deadline if it is sooner than the time for an answer.
    fn left_to_write(&mut self) -> Option<Duration>
        ensures stream { self.new.stream ≡ self.old.stream }
        ensures once { self.new.answer ≡ None }
        ensures kept { self.old.answer ≡ None → self.new.deadline ≡ self.old.deadline }
    {
        if let Some(time) = self.answer.take() {
            self.deadline = self.deadline.max(deadline_in(self.clock, time));
        }
        left_until(self.clock, self.deadline)
    }
}

impl<S: Read + OpenStream, R: Clock> Read for Timed<'_, S, R> {
    ghost remaining = { λ s. S.remaining s.stream };

    fn read(&mut self, buf: &mut [u8]) -> io::Result<usize> {
        let Some(left) = left_until(self.clock, self.deadline) else {
            return Err(io::Error::from(ErrorKind::TimedOut));
        };
        if is_outdated(self.read_timeout, left) {
            self.stream.set_read_timeout(Some(left))?;
            self.read_timeout = Some(left);
        }
        self.stream.read(buf)
    }
}

impl<S: Write + OpenStream, R: Clock> Write for Timed<'_, S, R> {
    ghost contents = { λ s. S.contents s.stream };

    fn write(&mut self, buf: &[u8]) -> io::Result<usize> {
        let Some(left) = self.left_to_write() else {
            return Err(io::Error::from(ErrorKind::TimedOut));
        };
        if is_outdated(self.write_timeout, left) {
            self.stream.set_write_timeout(Some(left))?;
            self.write_timeout = Some(left);
        }
        self.stream.write(buf)
    }

    fn flush(&mut self) -> io::Result<()> {
        self.stream.flush()
    }
}
