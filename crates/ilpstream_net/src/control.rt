//! What a command is asked while it runs, by lines that are written to a pipe.

ghost use Rattle.std.specs.Prelude.{◌≡◌, IfErr, IfOk, IsNone, IsSome};
ghost use Rattle.ilpstream_net.specs.Control as spec;
ghost use Rattle.ilpstream_net.specs.declared.error.RunError.TheVariants.{BadOption};

use crate::error::RunError;
use crate::log::{Log, reopen, tell};
use crate::obstacle::{Cause, Obstacle, Step, back, cause_of};
use ilpstream_log::{Event, Heard};
use ilpstream_serving::without_waits;
use std::alloc::Global;
use std::fs::{File, Files, OpenOptions};
use std::io::Read;
use std::os::unix::fs::FileTypeExt;
use std::time::Clock;

/// How many bytes of a line are kept. A longer one asks for nothing.
const MOST_LINE: usize = 256;

/// How many bytes are read at one look at most.
const MOST_BYTES: u32 = 4_096;

/// What a line asks for.
#[derive(Clone, Copy)]
pub enum Asked {
    /// To accept no further connection, to finish what is open, and to end.
    Stop,
    /// To write the totals now.
    Totals,
    /// To open the file of the log anew.
    Log,
    /// To read the file of the table anew, and to continue with that table.
    Table,
}

/// What a line asks for. `None` if a command does not know the line.
fn asked_by(line: &[u8]) -> Option<Asked>
    ensures { result ≡ spec.asked_by line.now }
{
    if line == b"stop".as_slice() {
        return Some(Asked::Stop);
    }
    if line == b"totals".as_slice() {
        return Some(Asked::Totals);
    }
    if line == b"log".as_slice() {
        return Some(Asked::Log);
    }
    if line == b"table".as_slice() {
        return Some(Asked::Table);
    }
    None
}

/// What is asked of a command. One that reads no table from a file does not know the line `table`.
fn known(has_table: bool, asked: Option<Asked>) -> Option<Asked>
    ensures { result ≡ spec.known has_table asked }
{
    match asked {
        Some(Asked::Table) if !has_table => None,
        asked => asked,
    }
}

/// The pipe by which a command is asked things while it runs.
#[derive(Drop)]
pub struct Control<'a, N> {
    rt: &'a N,
    alloc: Global,
    pipe: File,
    /// The bytes of the line that were read so far, as far as they are kept.
    line: Vec<u8>,
    /// Whether the line was read to its end.
    is_whole: bool,
    /// Whether the command reads a table from a file.
    has_table: bool,
    log: Log<'a>,
    /// The name of the log's file, if there is a log.
    log_name: Option<&'a str>,
}

/// Opens the pipe of this name. It is opened to read and to write, so that neither the open nor a read waits for a writer, and so
/// that it never is at its end.
fn open_pipe<N: Files<File = File>>(rt: &N, name: &str) -> Result<File, Cause> {
    match rt.metadata(name) {
        Ok(found) if found.file_type().is_fifo() => {}
        Ok(_) => return Err(Cause::NoPipe),
        Err(error) => return Err(cause_of(&error)),
    }
    match OpenOptions::new().read(true).write(true).open(rt, name) {
        Ok(file) => Ok(without_waits(file)),
        Err(error) => Err(cause_of(&error)),
    }
}

/// Opens the pipe of this name, if one was asked for. Fails with `BadOption` if there is no such pipe, or it cannot be
/// opened.
pub fn pipe_of<'a, N: Files<File = File>>(
    rt: &N,
    name: Option<&'a str>,
    obstacle: &mut Option<Obstacle<'a>>,
) -> Result<Option<File>, RunError>
    ensures none { IsNone name.entry → IfOk result (λ pipe. IsNone pipe) }
    ensures some { IsSome name.entry → IfOk result (λ pipe. IsSome pipe) }
    ensures refused { IfErr result (λ e. e ≡ BadOption) }
{
    let Some(name) = name else {
        return Ok(None);
    };
    match open_pipe(rt, name) {
        Ok(pipe) => Ok(Some(pipe)),
        Err(cause) => {
            let step = Step::Control;
            *obstacle = Some(Obstacle { step, name, cause });
            Err(RunError::BadOption)
        }
    }
}

impl<'a, N: Files<File = File> + Clock> Control<'a, N> {
    /// The lines of this pipe, of which none was read.
    pub fn new(
        rt: &'a N,
        alloc: Global,
        pipe: File,
        log: Log<'a>,
        log_name: Option<&'a str>,
        has_table: bool,
    ) -> Control<'a, N> {
        Control {
            rt,
            alloc,
            pipe,
            line: Vec::new(alloc),
            is_whole: false,
            has_table,
            log,
            log_name,
        }
    }

    /// Keeps a byte of a line, up to one byte more than `MOST_LINE`.
    fn keep(&mut self, byte: u8) {
        if self.line.len() <= MOST_LINE {
            // (if memory is refused, this byte is missing from the line)
            let _ = self.line.push(byte);
        }
    }

    /// Reads further bytes, up to the end of the line. False if the end is not among them.
    fn read_line(&mut self) -> bool {
        for _ in 0..MOST_BYTES {
            let mut byte = [0];
            match self.pipe.read(&mut byte) {
                Ok(1) if byte[0] == b'\n' => return true,
                Ok(1) => self.keep(byte[0]),
                _ => return false,
            }
        }
        false
    }

    /// Reports what became of the last line.
    pub(crate) fn tell(&self, heard: Heard<'_>) {
        self.tell_of(self.line.as_slice(), heard);
    }

    /// Reports what became of a line, which may be an earlier one.
    pub(crate) fn tell_of(&self, line: &[u8], heard: Heard<'_>) {
        tell(self.rt, self.log, &Event::Control { line, heard });
    }

    /// Opens the file of the log anew.
    fn open_log(&self) {
        match reopen(self.rt, self.log, self.log_name) {
            Ok(()) => self.tell(Heard::Done),
            Err(cause) => self.tell(Heard::Failed(back(cause))),
        }
    }

    /// Does what can be done at once: opens the log anew. Reports what became of the line, except for one that asks for the
    /// table: whoever reads the table reports that.
    fn hear(&self, asked: Option<Asked>) {
        match asked {
            None => self.tell(Heard::Unknown),
            Some(Asked::Log) => self.open_log(),
            Some(Asked::Stop | Asked::Totals) => self.tell(Heard::Done),
            Some(Asked::Table) => {}
        }
    }

    /// The next line, if it was written to its end, and what it asks for. What it asks of the log is done at once. Does not
    /// wait.
    pub fn next(&mut self) -> Option<Option<Asked>> {
        if self.is_whole {
            self.line.clear();
            self.is_whole = false;
        }
        if !self.read_line() {
            return None;
        }
        self.is_whole = true;
        let asked = known(self.has_table, asked_by(self.line.as_slice()));
        self.hear(asked);
        Some(asked)
    }
}
