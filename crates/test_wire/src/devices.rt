//! The devices, the sink and the source of the tests.

use st_file::{Put, Sink, Source};
use st_queues::Got;
use std::alloc::{Allocator, Global};
use std::io;
use std::io::{ErrorKind, Read, Write};

/// A device in memory that moves at most `piece` bytes a call. Its first `interrupted` calls are interrupted.
#[derive(Drop)]
pub(crate) struct Wire<'a> {
    input: &'a [u8],
    output: Vec<u8>,
    piece: usize,
    interrupted: u64,
}

impl<'a> Wire<'a> {
    pub(crate) fn new(alloc: Global, input: &'a [u8], piece: usize, interrupted: u64) -> Self {
        Wire {
            input,
            output: Vec::new(alloc),
            piece,
            interrupted,
        }
    }

    /// What was written.
    pub(crate) fn output(&self) -> &[u8] {
        &self.output
    }

    fn is_interrupted(&mut self) -> bool {
        let again = 0 < self.interrupted;
        self.interrupted = self.interrupted.saturating_sub(1);
        again
    }
}

impl<'a> Read for Wire<'a> {
    fn read(&mut self, buf: &mut [u8]) -> io::Result<usize> {
        if self.is_interrupted() {
            return Err(io::Error::from(ErrorKind::Interrupted));
        }
        let room = buf.len().min(self.piece);
        self.input.read(&mut buf[..room])
    }
}

impl<'a> Write for Wire<'a> {
    fn write(&mut self, buf: &[u8]) -> io::Result<usize> {
        if self.is_interrupted() {
            return Err(io::Error::from(ErrorKind::Interrupted));
        }
        let room = buf.len().min(self.piece);
        if self.output.extend_from_slice(&buf[..room]).is_err() {
            return Err(io::Error::from(ErrorKind::OutOfMemory));
        }
        Ok(room)
    }

    fn flush(&mut self) -> io::Result<()> {
        Ok(())
    }
}

/// A sink in memory that refuses its first `refusals` calls, and knows its longest chunk.
#[derive(Drop)]
pub(crate) struct Heap {
    pub(crate) bytes: Vec<u8>,
    pub(crate) ended: bool,
    pub(crate) longest: usize,
    refusals: u64,
}

impl Heap {
    pub(crate) fn new(alloc: Global, refusals: u64) -> Self {
        Heap {
            bytes: Vec::new(alloc),
            ended: false,
            longest: 0,
            refusals,
        }
    }
}

impl<A: Allocator + Copy> Sink<Vec<u8, A>> for Heap {
    ghost use Rattle.std.specs.Prelude.{None};

    ghost taken = { λ s. record { bytes = s.bytes.items; ended = s.ended; calls = None } };

    fn put(&mut self, chunk: Vec<u8, A>) -> Put<Vec<u8, A>> {
        if 0 < self.refusals {
            self.refusals -= 1;
            return Put::Again(chunk);
        }
        match self.bytes.extend_from_slice(&chunk) {
            Ok(()) => {
                self.longest = self.longest.max(chunk.len());
                Put::Taken
            }
            Err(_) => Put::Again(chunk),
        }
    }

    fn end(&mut self) -> Put<()> {
        if 0 < self.refusals {
            self.refusals -= 1;
            return Put::Again(());
        }
        self.ended = true;
        Put::Taken
    }
}

/// What a source gives at one call.
#[derive(Clone, Copy)]
pub(crate) enum Step {
    Text(&'static [u8]),
    Nothing,
    End,
    Aborted(u64),
}

/// A source that gives one step after the other, and then its end.
#[derive(Drop)]
pub(crate) struct Script<'a> {
    steps: &'a [Step],
    place: usize,
    given: Vec<u8>,
    ended: bool,
    aborted: bool,
    code: u64,
    alloc: Global,
}

impl<'a> Script<'a> {
    pub(crate) fn new(alloc: Global, steps: &'a [Step]) -> Self {
        Script {
            steps,
            place: 0,
            given: Vec::new(alloc),
            ended: false,
            aborted: false,
            code: 0,
            alloc,
        }
    }
}

impl<'a> Source<Global> for Script<'a> {
    ghost use Rattle.std.specs.Prelude.{None, if◌then◌else◌};
    ghost use Rattle.st_queues.specs.declared.items.Over.TheVariants as over;

    ghost given = { λ s. record { bytes = s.given.items; over = if s.ended then over.Ended else (if s.aborted then over.Aborted s.code else over.Open); calls = None } };

    fn next(&mut self) -> Got<Global> {
        let step = match self.steps.get(self.place) {
            Some(step) => *step,
            None => Step::End,
        };
        self.place = self.place.saturating_add(1);
        self.ended = false;
        self.aborted = false;
        match step {
            Step::Text(text) => {
                let Ok(bytes) = Vec::from_slice(self.alloc, text) else {
                    return Got::Nothing;
                };
                match self.given.extend_from_slice(text) {
                    Ok(()) => Got::Bytes(bytes),
                    Err(_) => Got::Nothing,
                }
            }
            Step::Nothing => Got::Nothing,
            Step::End => {
                self.ended = true;
                Got::End
            }
            Step::Aborted(code) => {
                self.aborted = true;
                self.code = code;
                Got::Aborted(code)
            }
        }
    }
}
