//! The program as a process runs it, with the arguments of that process.

ghost use Rattle.std.specs.Prelude.{◌≡◌, ◌≤◌, ◌⊎◌, map};
ghost use Rattle.st_devices.specs.Tallies.{tally_of};
ghost use Rattle.ilpstream_output.specs.Endings.{HasEnded, Says, TellsFault};
ghost use Rattle.ilpstream_main.specs.Process.{LacksWords, ObeysSome, TellsTerminal};
ghost use Rattle.ilpstream_main.specs.Texts.{not_utf8_text};

use crate::program::run;
use crate::stdin::{Interruptible, STDIN};
use crate::streams::{Held, Streams};
use crate::system_books::SystemBooks;
use ilpstream_ledger::OpensBooks;
use ilpstream_output::{Fault, say, tell_fault};
use ilpstream_words::{Request, read_words};
use st_devices::{CountRead, CountWrite};
use std::alloc::Global;
use std::convert::AsStr;
use std::fs::{File, Files};
use std::io::{ErrorKind, IsTerminal, Read, Write};
use std::net::{Net, TcpListener, TcpStream};
use std::process::ExitCode;
use std::rt::Env;
use std::sync::Wait;
use std::thread::Threads;
use std::{env, io};

/// What is printed to a terminal before its lines are read.
const WAITS: &str =
    "ilpstream: reads packets from the terminal, one a line in hexadecimal; Ctrl-D on a new line ends them\n";

/// What is printed if an argument is not UTF-8.
const NOT_UTF8: &str = "error: invalid UTF-8 was detected in one or more arguments\n";

/// The arguments of the command line; the first is the program's name.
fn words<H: Env + Alloc>(host: &H) -> io::Result<Vec<String<H::A>, H::A>> {
    Ok(env::args(host)?.collect(host.alloc())?)
}

/// Reports why the arguments cannot be read. Status 2 if they are not UTF-8, and otherwise that of fault 99, out of memory.
fn refuse_words<E: Write>(errors: &mut CountWrite<E>, error: &io::Error) -> u8
    ensures { ((result ≡ 2) × Says not_utf8_text E.contents errors.old errors.new)
        ⊎ TellsFault Fault.NoMemory E.contents errors.old errors.new result }
{
    if error.kind() == ErrorKind::OutOfMemory {
        return tell_fault(errors, Fault::NoMemory);
    }
    say(errors, NOT_UTF8);
    2
}

/// Prints what the program waits for, if the reader is a terminal and the arguments ask for `frames`.
fn tell_terminal<S: AsStr, E: Write>(
    alloc: Global,
    is_terminal: bool,
    words: &[S],
    errors: &mut CountWrite<E>,
)
    ensures { TellsTerminal is_terminal (map S.text words.now) E.contents errors.old errors.new }
{
    if is_terminal && let Ok(Request::Frames) = read_words(alloc, words) {
        say(errors, WAITS);
    }
}

/// Does what the arguments ask for, after the note for a terminal.
fn obey<
    S: AsStr,
    R: Read,
    W: Write,
    E: Write,
    N: Net<Listener = TcpListener, Stream = TcpStream>
        + Files<File = File>
        + Threads
        + Wait
        + std::time::Clock
        + Sync,
    O: OpensBooks,
>(
    rt: &N,
    opener: &O,
    alloc: Global,
    streams: Streams,
    is_terminal: bool,
    words: &[S],
    reader: &mut CountRead<R>,
    writer: &mut CountWrite<W>,
    errors: &mut CountWrite<E>,
) -> u8
    ensures obeys { ObeysSome streams is_terminal R.remaining W.contents E.contents
        (HasEnded (tally_of reader.old) (tally_of reader.new) (tally_of writer.old) (tally_of writer.new))
        reader.old reader.new writer.old writer.new errors.old errors.new result }
    ensures status { result ≤ 2 }
{
    tell_terminal(alloc, is_terminal, words, errors);
    run(rt, opener, alloc, streams, words, reader, writer, errors)
}

/// Runs the program with the arguments of `host`, as `run` does, and returns its exit status. `streams` says which standard
/// streams are open. If the arguments ask for `frames` and the reader is a terminal (`is_terminal`), it first writes to
/// `errors` what it waits for. Arguments that are not UTF-8 give status 2. If memory for the arguments is refused, it
/// reports fault 99.
pub fn start<
    H: Env + Alloc,
    R: Read,
    W: Write,
    E: Write,
    N: Net<Listener = TcpListener, Stream = TcpStream>
        + Files<File = File>
        + Threads
        + Wait
        + std::time::Clock
        + Sync,
    O: OpensBooks,
>(
    rt: &N,
    opener: &O,
    alloc: Global,
    host: &H,
    streams: Streams,
    is_terminal: bool,
    reader: &mut CountRead<R>,
    writer: &mut CountWrite<W>,
    errors: &mut CountWrite<E>,
) -> u8
    ensures does { ObeysSome streams is_terminal R.remaining W.contents E.contents
        (HasEnded (tally_of reader.old) (tally_of reader.new) (tally_of writer.old) (tally_of writer.new))
        reader.old reader.new writer.old writer.new errors.old errors.new result
        ⊎ LacksWords reader.old reader.new writer.old writer.new E.contents errors.old errors.new result }
    ensures status { result ≤ 2 }
{
    match words(host) {
        Ok(words) => obey(
            rt,
            opener,
            alloc,
            streams,
            is_terminal,
            words.as_slice(),
            reader,
            writer,
            errors,
        ),
        Err(error) => refuse_words(errors, &error),
    }
}

/// Runs the program `ilpstream` and returns its exit code. `host` gives the arguments and the standard streams of the
/// process, and opens books. `rt`, the same runtime, gives files, sockets, threads and the time. A read of standard input
/// for which nothing arrives within 200 milliseconds is interrupted, and made again. Before anything else is opened, the
/// number of each closed standard stream is reserved, so that no file that is opened later has it.
pub fn ilpstream<
    N: Net<Listener = TcpListener, Stream = TcpStream>
        + Files<File = File>
        + Threads
        + Wait
        + std::time::Clock
        + Sync,
>(host: &HostRuntime, rt: &N) -> ExitCode {
    let held = Held::new(rt);
    let streams = held.streams();
    let input = host.stdin();
    let is_terminal = input.is_terminal();
    let mut reader = CountRead::new(Interruptible::new(input, STDIN));
    let mut writer = CountWrite::new(host.stdout());
    let mut errors = CountWrite::new(host.stderr());
    ExitCode::from(start(
        rt,
        &SystemBooks::new(host),
        host.alloc(),
        host,
        streams,
        is_terminal,
        &mut reader,
        &mut writer,
        &mut errors,
    ))
}
