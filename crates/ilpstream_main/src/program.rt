//! The program, over its arguments and three streams.

ghost use Rattle.std.specs.Prelude.{◌≡◌, ◌≤◌, ◌⊎◌, map, None, Some};
ghost use Rattle.st_devices.specs.Tallies.{tally_of};
ghost use Rattle.clap.specs.Words.{HasKind, Kinds, kind_of};
ghost use Rattle.ilpstream_output.specs.Endings.{HasEnded, TellsFault};
ghost use Rattle.ilpstream_main.specs.Settings.{IsLawful};
ghost use Rattle.ilpstream_main.specs.Endings.{Does, DoesUnless, LacksMemory, TellsAnswer, TellsNumber};
ghost use Rattle.ilpstream_main.specs.Streams as closed;
ghost use Rattle.ilpstream_main.specs.Process.{Obeys};

use crate::local::local;
use crate::receive::run_receive;
use crate::send::run_send;
use crate::streams::{Streams, missing};
use crate::tell::{tell_end, tell_number, tell_terminal};
use clap::Error;
use clap::error::ErrorKind;
use ilpstream_frames::run_frames;
use ilpstream_ledger::OpensBooks;
use ilpstream_net::{run_connector, run_ledger};
use ilpstream_output::{Fault, TURNS, explain, put, say, tell_fault};
use ilpstream_words::{Request, WordsError, broken_rule, read_words};
use st_devices::{CountRead, CountWrite, Tally};
use std::alloc::Global;
use std::convert::AsStr;
use std::fs::{File, Files};
use std::io::{Read, Write};
use std::net::{Net, TcpListener, TcpStream};
use std::sync::Wait;
use std::thread::Threads;

/// Writes help or the version. Status 0, or that of a fault.
fn show<W: Write, E: Write>(
    alloc: Global,
    writer: &mut CountWrite<W>,
    errors: &mut CountWrite<E>,
    error: &Error,
) -> u8
    ensures { (r : Tally) → ((result ≡ 0) × HasEnded r r (tally_of writer.old) (tally_of writer.new) None × (errors.new ≡ errors.old))
        ⊎ ((x : Fault) × HasEnded r r (tally_of writer.old) (tally_of writer.new) (Some x) × TellsFault x E.contents errors.old errors.new result)
        ⊎ LacksMemory writer.old writer.new E.contents errors.old errors.new result }
{
    let Ok(text) = format!(in alloc; "{error}") else {
        return tell_fault(errors, Fault::NoMemory);
    };
    let mut turns = TURNS;
    match put(writer, text.as_bytes(), &mut turns) {
        Ok(()) => 0,
        Err(fault) => tell_fault(errors, fault),
    }
}

/// Writes what is wrong with the arguments, as far as `errors` accepts it. Status 2, or that of a fault.
fn refuse<E: Write>(alloc: Global, errors: &mut CountWrite<E>, error: &Error) -> u8
    ensures { (result ≡ 2) ⊎ TellsFault Fault.NoMemory E.contents errors.old errors.new result }
{
    let Ok(text) = format!(in alloc; "{error}") else {
        return tell_fault(errors, Fault::NoMemory);
    };
    say(errors, text.as_str());
    2
}

/// Reports what clap answers in place of a command.
fn tell<W: Write, E: Write>(
    alloc: Global,
    writer: &mut CountWrite<W>,
    errors: &mut CountWrite<E>,
    error: &Error,
) -> u8
    ensures memory { kind_of error.now ≡ ErrorKind.OutOfMemory → LacksMemory writer.old writer.new E.contents errors.old errors.new result }
    ensures told { (r : Tally) (kinds : Kinds) → HasKind kinds error.now
        → TellsAnswer kinds (HasEnded r r (tally_of writer.old) (tally_of writer.new)) E.contents writer.old writer.new errors.old errors.new result }
    ensures status { result ≤ 2 }
{
    match error.kind() {
        ErrorKind::OutOfMemory => tell_fault(errors, Fault::NoMemory),
        ErrorKind::DisplayHelp | ErrorKind::DisplayVersion => show(alloc, writer, errors, error),
        _ => refuse(alloc, errors, error),
    }
}

/// Does what was asked for. The status: 0 is done, 1 a run that refused a line or met a fault, 2 a number that `explain`
/// does not know.
fn done<
    R: Read,
    W: Write,
    E: Write,
    N: Net<Listener = TcpListener, Stream = TcpStream>
        + Files<File = File>
        + Threads
        + Wait
        + std::time::Clock
        + Sync,
    O: OpensBooks,
>(
    rt: &N,
    opener: &O,
    alloc: Global,
    request: &Request<'_>,
    reader: &mut CountRead<R>,
    writer: &mut CountWrite<W>,
    errors: &mut CountWrite<E>,
) -> u8
    requires { IsLawful request.now }
    ensures does { Does request.now R.remaining W.contents E.contents
        (HasEnded (tally_of reader.old) (tally_of reader.new) (tally_of writer.old) (tally_of writer.new))
        reader.old reader.new writer.old writer.new errors.old errors.new result }
    ensures status { result ≤ 2 }
{
    match request {
        Request::Frames => run_frames(alloc, reader, writer, errors),
        Request::Local(request) => local(rt, alloc, request, reader, writer, errors),
        Request::Send(settings) => {
            let mut obstacle = None;
            let ended = run_send(rt, alloc, settings, reader, &mut obstacle);
            tell_end(alloc, errors, &obstacle, ended)
        }
        Request::Receive(settings) => {
            let mut obstacle = None;
            let ended = run_receive(rt, alloc, settings, writer, &mut obstacle);
            tell_end(alloc, errors, &obstacle, ended)
        }
        Request::Connector(settings) => {
            let mut obstacle = None;
            let ended = run_connector(rt, opener, alloc, settings, reader, &mut obstacle);
            tell_end(alloc, errors, &obstacle, ended)
        }
        Request::Ledger(settings) => {
            let ended = run_ledger(rt, opener, alloc, settings, writer);
            tell_end(alloc, errors, &None, ended)
        }
        Request::Explain(number) => explain(*number, writer, errors),
    }
}

/// Does what was asked for, or reports that a standard stream is closed which that needs: then nothing is read, written or
/// opened. The status is as for `done`.
fn obey<
    R: Read,
    W: Write,
    E: Write,
    N: Net<Listener = TcpListener, Stream = TcpStream>
        + Files<File = File>
        + Threads
        + Wait
        + std::time::Clock
        + Sync,
    O: OpensBooks,
>(
    rt: &N,
    opener: &O,
    alloc: Global,
    streams: Streams,
    request: &Request<'_>,
    reader: &mut CountRead<R>,
    writer: &mut CountWrite<W>,
    errors: &mut CountWrite<E>,
) -> u8
    requires { IsLawful request.now }
    ensures does { DoesUnless (closed.missing request.now streams) request.now R.remaining W.contents E.contents
        (HasEnded (tally_of reader.old) (tally_of reader.new) (tally_of writer.old) (tally_of writer.new))
        reader.old reader.new writer.old writer.new errors.old errors.new result }
    ensures status { result ≤ 2 }
{
    match missing(request, streams) {
        Some(fault) => {
            let status = tell_number(alloc, errors, fault.number());
            tell_terminal(alloc, "a standard stream that the command needs is closed");
            status
        }
        None => done(rt, opener, alloc, request, reader, writer, errors),
    }
}

/// Reports that the text of an option is bad; on a terminal also the rule that it breaks.
fn tell_bad_option<S: AsStr, E: Write>(alloc: Global, words: &[S], errors: &mut CountWrite<E>) -> u8
    ensures { TellsNumber 98 E.contents errors.old errors.new result }
{
    let status = tell_number(alloc, errors, 98);
    if let Some(rule) = broken_rule(alloc, words) {
        tell_terminal(alloc, rule);
    }
    status
}

/// Runs the command that the arguments name and returns the exit status: 0 if it did its work, or printed help or the
/// version; 1 if a line was refused or a fault ended the run; 2 if the arguments are refused, or `explain` is given a
/// number that it does not know. The first argument is the program's name. With no further argument it runs `frames`.
/// `opener` opens the books of `connector` and `ledger`. `streams` says which standard streams are open: a command that
/// needs one which is closed ends with fault 90 or 91 before it opens anything.
///
/// Help and the version are written to `writer`, a mistake in the arguments to `errors`. Fault 98 reports an option whose
/// text is bad, and fault 99 that memory was refused.
pub fn run<
    S: AsStr,
    R: Read,
    W: Write,
    E: Write,
    N: Net<Listener = TcpListener, Stream = TcpStream>
        + Files<File = File>
        + Threads
        + Wait
        + std::time::Clock
        + Sync,
    O: OpensBooks,
>(
    rt: &N,
    opener: &O,
    alloc: Global,
    streams: Streams,
    words: &[S],
    reader: &mut CountRead<R>,
    writer: &mut CountWrite<W>,
    errors: &mut CountWrite<E>,
) -> u8
    ensures obeys { Obeys streams (map S.text words.now) R.remaining W.contents E.contents
        (HasEnded (tally_of reader.old) (tally_of reader.new) (tally_of writer.old) (tally_of writer.new))
        reader.old reader.new writer.old writer.new errors.old errors.new result }
    ensures status { result ≤ 2 }
{
    match read_words(alloc, words) {
        Ok(request) => obey(rt, opener, alloc, streams, &request, reader, writer, errors),
        Err(WordsError::Refused(error)) => tell(alloc, writer, errors, &error),
        Err(WordsError::BadOption) => tell_bad_option(alloc, words, errors),
    }
}
