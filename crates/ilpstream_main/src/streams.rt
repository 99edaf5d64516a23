//! The standard streams that the process was started with.
//!
//! If one of the descriptors 0 to 2 is closed, the next file that is opened has its number. It is then read as the input,
//! or what the program prints is written to it. So the number of each closed stream is reserved before anything else is
//! opened.

ghost use Rattle.std.specs.Prelude.{◌≡◌};
ghost use Rattle.ilpstream_main.specs.Streams as spec;

use ilpstream_output::Fault;
use ilpstream_words::Request;
use libc::net::{POLLNVAL, poll};
use libc::types::pollfd;
use std::fs::{File, Files};
use std::os::fd::RawFd;

/// What is opened under the number of a closed stream: a folder. No read of it and no write to it succeeds.
const FOLDER: &str = "/";

/// Which standard streams are open.
#[derive(Clone, Copy)]
pub struct Streams {
    /// Whether standard input is open.
    pub input: bool,
    /// Whether standard output is open.
    pub output: bool,
}

/// The fault of a stream that is needed, if it is closed.
fn unless(is_open: bool, fault: Fault) -> Option<Fault>
    ensures { result ≡ spec.unless is_open fault }
{
    if is_open { None } else { Some(fault) }
}

/// The fault of a command that needs both streams, if one is closed.
fn missing_one(streams: Streams) -> Option<Fault>
    ensures { result ≡ spec.missing_one streams }
{
    if streams.input {
        unless(streams.output, Fault::Output)
    } else {
        Some(Fault::Input)
    }
}

/// The fault of a command that needs a standard stream which is closed: of the input for `send` and for a `connector`
/// without a file of its table, of the output for `receive` and `ledger`, of either for `local` with a file for its totals.
/// `frames`, `explain` and `local` without one open nothing: their first read or write fails.
pub(crate) fn missing(request: &Request<'_>, streams: Streams) -> Option<Fault>
    ensures { result ≡ spec.missing request.now streams }
{
    match request {
        Request::Frames | Request::Explain(_) => None,
        Request::Local(request) => {
            if request.totals.is_some() {
                missing_one(streams)
            } else {
                None
            }
        }
        Request::Send(_) => unless(streams.input, Fault::Input),
        Request::Connector(settings) => {
            unless(streams.input || settings.table.is_some(), Fault::Input)
        }
        Request::Receive(_) | Request::Ledger(_) => unless(streams.output, Fault::Output),
    }
}

/// Whether the process has this descriptor.
fn is_open(fd: RawFd) -> bool {
    let mut fds = [pollfd {
        fd,
        events: 0,
        revents: 0,
    }];
    poll(&mut fds, 0);
    fds[0].revents & POLLNVAL == 0
}

/// A standard stream.
#[derive(Drop)]
enum Stream {
    Open,
    /// It is closed, and a file has its number, if one could be opened.
    Closed(Option<File>),
}

impl Stream {
    /// The stream of this descriptor. If it is closed, it has to be the lowest number that is free: the folder has that
    /// number then.
    fn held<N: Files<File = File>>(rt: &N, fd: RawFd) -> Stream {
        if is_open(fd) {
            Stream::Open
        } else {
            Stream::Closed(File::open(rt, FOLDER).ok())
        }
    }

    fn is_open(&self) -> bool {
        matches!(self, Stream::Open)
    }

    /// Whether no further file can have its number.
    fn is_held(&self) -> bool {
        !matches!(self, Stream::Closed(None))
    }
}

/// The three standard streams, whose numbers no other file has while this is there.
#[derive(Drop)]
pub(crate) struct Held {
    input: Stream,
    output: Stream,
    errors: Stream,
}

impl Held {
    /// Reserves the numbers of the closed standard streams of the process. Nothing may have been opened before.
    pub(crate) fn new<N: Files<File = File>>(rt: &N) -> Held {
        let input = Stream::held(rt, 0);
        let output = Stream::held(rt, 1);
        let errors = Stream::held(rt, 2);
        Held {
            input,
            output,
            errors,
        }
    }

    /// Which of them are open. If the number of one cannot be reserved, none counts as open.
    pub(crate) fn streams(&self) -> Streams {
        let is_held = self.input.is_held() && self.output.is_held() && self.errors.is_held();
        Streams {
            input: is_held && self.input.is_open(),
            output: is_held && self.output.is_open(),
        }
    }
}
