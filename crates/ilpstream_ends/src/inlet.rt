//! How the input of `send` is moved to the ring of its stream, until the workers are asked to stop.

ghost use Rattle.std.specs.Prelude.{◌≡◌};

use st_file::{Put, Sink};
use st_hub::Bench;
use st_queues::{Gauge, GaugeSeat, HubName, StreamWriter};
use std::alloc::Global;
use std::io;
use std::io::{ErrorKind, Read};
use std::sync::Wait;
use std::time::Duration;

/// For how many milliseconds the feeding thread sleeps at most if the ring is full and no worker wakes it.
const REST: u64 = 1_000;

/// A reader that gives an error once the workers were asked to stop, even if input is left.
#[derive(Drop)]
pub(crate) struct Until<'a, I, N: HubName<Global>> {
    pub(crate) input: I,
    pub(crate) gauge: &'a Gauge<N, Global>,
    pub(crate) seat: GaugeSeat<N, Global>,
}

impl<I: Read, N: HubName<Global>> Read for Until<'_, I, N> {
    ghost remaining = { λ s. I.remaining s.input };

    fn read(&mut self, buf: &mut [u8]) -> io::Result<usize> {
        if self.gauge.stopped(&mut self.seat) {
            return Err(io::Error::from(ErrorKind::ConnectionAborted));
        }
        self.input.read(buf)
    }
}

/// The ring of the stream as a sink that wakes a worker if it accepted something, and sleeps if the ring is full, until
/// a worker makes room. Once the workers were asked to stop, it accepts no more: what it had accepted reached the ring.
#[derive(Drop)]
pub(crate) struct Inlet<'a, N: HubName<Global>, R: Wait + std::time::Clock> {
    pub(crate) rt: &'a R,
    pub(crate) bench: &'a Bench<N, Global>,
    pub(crate) writer: StreamWriter<N, Global>,
    pub(crate) gauge: &'a Gauge<N, Global>,
    pub(crate) seat: GaugeSeat<N, Global>,
    /// What the end had accepted when this last waited for room.
    pub(crate) accepted: u64,
}

impl<N: HubName<Global>, R: Wait + std::time::Clock> Inlet<'_, N, R> {
    /// Waits until there may be room in the ring.
    fn rest(&mut self)
        ensures { self.new.writer ≡ self.old.writer }
    {
        let longest = Duration::from_millis(REST);
        self.accepted = self.bench.await_room(self.rt, longest, self.accepted);
    }
}

impl<N: HubName<Global>, R: Wait + std::time::Clock> Sink<Vec<u8>> for Inlet<'_, N, R> {
    ghost use Rattle.st_file.specs.Rings.{taken_by};

    ghost taken = { λ s. taken_by s.writer };

    fn put(&mut self, chunk: Vec<u8>) -> Put<Vec<u8>> {
        if self.gauge.stopped(&mut self.seat) {
            return Put::Closed(chunk);
        }
        let answer = Sink::put(&mut self.writer, chunk);
        match &answer {
            Put::Taken => self.bench.wake_one(self.rt),
            Put::Again(_) => self.rest(),
            Put::Closed(_) => {}
        }
        answer
    }

    fn end(&mut self) -> Put<()> {
        if self.gauge.stopped(&mut self.seat) {
            return Put::Closed(());
        }
        let answer = Sink::end(&mut self.writer);
        match &answer {
            Put::Taken => self.bench.wake_one(self.rt),
            Put::Again(()) => self.rest(),
            Put::Closed(()) => {}
        }
        answer
    }
}
