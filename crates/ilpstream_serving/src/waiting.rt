//! How long a receiver waits for its next request.

ghost use Rattle.std.specs.Prelude.{◌≡◌, ◌↔◌, IsSome, IfErr, None, Ok};
ghost use Rattle.ilpstream_serving.specs.Moments.{IsSeconds, IsWait};
ghost use Rattle.ilpstream_serving.specs.declared.error.TransferError.TheVariants.{Silent};

use crate::error::TransferError;
use crate::timed::{deadline_in, left_until};
use std::net::{OpenListener, TcpListener, TcpStream};
use std::os::fd::AsRawFd;
use std::time::{Clock, Duration, Instant};

/// A listener for whose connections `poll` can wait.
pub trait AwaitListener: OpenListener {
    /// The listener's file descriptor. `None` if `poll` cannot wait for it: then one connection after another is
    /// accepted and read, and each call waits.
    fn descriptor(&self) -> Option<i32> {
        None
    }

    /// The file descriptor of one of its connections. `None` if `poll` cannot wait for it.
    fn descriptor_of(_stream: &Self::Stream) -> Option<i32> {
        None
    }
}

impl AwaitListener for TcpListener {
    fn descriptor(&self) -> Option<i32> {
        Some(self.as_raw_fd())
    }

    fn descriptor_of(stream: &TcpStream) -> Option<i32> {
        Some(stream.as_raw_fd())
    }
}

/// A time in whole milliseconds, rounded up, as `poll` expects it.
pub fn millis_of(time: Duration) -> i32
    ensures { IsWait time result }
{
    i32::try_from(time.as_millis().saturating_add(1)).unwrap_or(i32::MAX)
}

/// How long a receiver waits for a request, and until when.
#[derive(Clone, Copy)]
pub struct Patience {
    time: Option<Duration>,
    deadline: Option<Instant>,
}

impl Patience {
    /// A patience of this number of seconds that begins now. `None` is one without end.
    pub fn new(rt: &impl Clock, seconds: Option<u64>) -> Patience
        ensures some { IsSome result.time → IsSome seconds }
        ensures seconds { IsSeconds seconds result.time }
    {
        let time = match seconds {
            Some(seconds) => Some(Duration::from_secs(seconds)),
            None => None,
        };
        let mut patience = Patience {
            time,
            deadline: None,
        };
        patience.renew(rt);
        patience
    }

    /// The patience begins again.
    pub fn renew(&mut self, rt: &impl Clock)
        ensures { self.new.time ≡ self.old.time }
    {
        if let Some(time) = self.time {
            self.deadline = deadline_in(rt, time);
        }
    }

    /// What is left of it. `None` if it has no end. Fails with `Silent` if it is over, or if the clock cannot be
    /// read.
    pub fn left(&self, rt: &impl Clock) -> Result<Option<Duration>, TransferError>
        ensures silent { IfErr result (λ e. (e ≡ Silent) × IsSome self.now.time) }
        ensures endless { result ≡ Ok None ↔ self.now.time ≡ None }
    {
        if self.time.is_none() {
            return Ok(None);
        }
        match left_until(rt, self.deadline) {
            Some(left) => Ok(Some(left)),
            None => Err(TransferError::Silent),
        }
    }
}
