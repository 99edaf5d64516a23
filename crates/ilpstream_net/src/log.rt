//! The log of a command.

ghost use Rattle.std.specs.Prelude.{◌≡◌, ◌⊎◌, IfErr, IfOk, IsNone, IsSome, Result};
ghost use Rattle.ilpstream_output.specs.declared.error.Fault.TheVariants.{NoMemory};
ghost use Rattle.ilpstream_net.specs.Totals as spec;
ghost use Rattle.ilpstream_net.specs.declared.error.RunError.TheVariants.{BadOption, Fault as IsFault};

use crate::error::RunError;
use crate::obstacle::{Cause, Obstacle, Step, cause_of, words_of};
use crate::totals::ended_with;
use ilpstream_connector::{AccountTotals, Counts};
use ilpstream_log::{AccountCounts, Event};
use ilpstream_output::Fault;
use ilpstream_serving::{LogFile, RuntimeClock, log_anew, log_in};
use ilpstream_settings::{TableFault, WholeFault, table_fault, whole_fault};
use st_ilp::Moment;
use st_streams::EndTotals;
use std::alloc::Global;
use std::fs::{File, Files, OpenOptions};
use std::io;
use std::os::unix::fs::FileTypeExt;
use std::time::Clock;

/// The log of a run, if it has one.
pub type Log<'a> = Option<&'a LogFile>;

/// The greatest number of a neighbour whose lines are counted by themselves.
const LAST: u32 = 255;

/// Opens the file of this name to append to it, and makes it if it does not exist. It is never emptied. A writer that opens
/// a pipe waits until a reader opens it too. So a pipe is first opened to read and to write, which never waits.
fn at_end<N: Files<File = File>>(rt: &N, name: &str) -> io::Result<File> {
    let is_pipe = match rt.metadata(name) {
        Ok(found) => found.file_type().is_fifo(),
        Err(_) => false,
    };
    let reader = if is_pipe {
        Some(OpenOptions::new().read(true).append(true).open(rt, name)?)
    } else {
        None
    };
    let file = OpenOptions::new().append(true).create(true).open(rt, name)?;
    drop(reader);
    Ok(file)
}

/// Opens the file of this name to append to it, if one was asked for, and makes it if it does not exist. Fails with
/// `BadOption` if it cannot be opened.
fn log_file<'a, N: Files<File = File>>(
    rt: &N,
    name: Option<&'a str>,
    obstacle: &mut Option<Obstacle<'a>>,
) -> Result<Option<File>, RunError>
    ensures none { IsNone name.entry → IfOk result (λ file. IsNone file) }
    ensures some { IsSome name.entry → IfOk result (λ file. IsSome file) }
    ensures refused { IfErr result (λ e. e ≡ BadOption) }
{
    let Some(name) = name else {
        return Ok(None);
    };
    match at_end(rt, name) {
        Ok(file) => Ok(Some(file)),
        Err(error) => {
            *obstacle = Some(Obstacle::of_file(Step::Log, name, &error));
            Err(RunError::BadOption)
        }
    }
}

/// The log in the file of this name, if one was asked for. Its lines are appended to what the file has. Fails with
/// `BadOption` if the file cannot be opened, and with a fault if memory is refused.
pub(crate) fn journal<'a, N: Files<File = File>>(
    rt: &N,
    alloc: Global,
    name: Option<&'a str>,
    obstacle: &mut Option<Obstacle<'a>>,
) -> Result<Option<LogFile>, RunError>
    ensures none { IsNone name.entry → IfOk result (λ log. IsNone log) }
    ensures some { IsSome name.entry → IfOk result (λ log. IsSome log) }
    ensures refused { IfErr result (λ e. (e ≡ BadOption) ⊎ (e ≡ IsFault NoMemory)) }
{
    match log_file(rt, name, obstacle) {
        Ok(None) => Ok(None),
        Ok(Some(file)) => match log_in(alloc, file, LAST) {
            Ok(journal) => Ok(Some(journal)),
            Err(_) => Err(RunError::Fault(Fault::NoMemory)),
        },
        Err(error) => Err(error),
    }
}

/// Opens the file of a log anew, by its name, and continues the log there. The lines in the file that the log had stay. If
/// this fails, the log stays in that file. Does nothing without a log.
pub(crate) fn reopen<N: Files<File = File> + Clock>(
    rt: &N,
    log: Log<'_>,
    name: Option<&str>,
) -> Result<(), Cause> {
    let (Some(journal), Some(name)) = (log, name) else {
        return Ok(());
    };
    match at_end(rt, name) {
        Ok(file) => {
            if log_anew(rt, journal, file) {
                Ok(())
            } else {
                Err(Cause::Other)
            }
        }
        Err(error) => Err(cause_of(&error)),
    }
}

/// The current time.
fn now(rt: &impl Clock) -> Moment {
    st_links::Clock::now(&mut RuntimeClock::new(rt))
}

/// Writes the line of an event of the command itself that happens now, if there is a log.
pub(crate) fn tell<N: Clock>(rt: &N, log: Log<'_>, event: &Event<'_>) {
    if let Some(journal) = log {
        journal.note(rt, now(rt), 0, event);
    }
}

/// Writes the totals of an end, if there is a log.
pub(crate) fn tell_end<N: Clock>(rt: &N, log: Log<'_>, totals: &EndTotals) {
    tell(rt, log, &Event::End(*totals));
}

/// Writes the totals of an end so far, and what was left out before, if there is a log.
pub(crate) fn tell_minute<N: Clock>(rt: &N, log: Log<'_>, totals: &EndTotals) {
    tell_end(rt, log, totals);
    if let Some(journal) = log {
        journal.catch_up(rt, now(rt));
    }
}

/// What the log has of an account whose totals and whose Prepares' ends are these.
fn account_counts(
    totals: AccountTotals,
    counts: ilpstream_connector::AccountCounts,
) -> AccountCounts
    ensures owed { (result.claims ≡ totals.claims) × (result.dues ≡ totals.dues) × (result.held ≡ totals.held) }
    ensures ends { (result.fulfilled ≡ counts.fulfilled) × (result.rejected ≡ counts.rejected)
        × (result.lost ≡ counts.lost) × (result.refused ≡ counts.refused) }
{
    AccountCounts {
        claims: totals.claims,
        dues: totals.dues,
        held: totals.held,
        fulfilled: counts.fulfilled,
        rejected: counts.rejected,
        lost: counts.lost,
        refused: counts.refused,
    }
}

/// Writes the totals of each account of a connector, and its Rejects by their codes.
fn note_accounts<N: Clock>(rt: &N, journal: &LogFile, totals: &[AccountTotals], counts: &Counts) {
    let now = now(rt);
    for (number, account) in totals.iter().enumerate() {
        if let Some(ends) = counts.accounts.get(number) {
            let event = Event::Account(account_counts(*account, *ends));
            journal.note(rt, now, number, &event);
        }
    }
    for it in counts.codes.iter() {
        let event = Event::Rejects {
            code: it.code,
            count: it.count,
        };
        journal.note(rt, now, it.account, &event);
    }
}

/// Writes the totals of a connector's accounts, and what was left out before, if there is a log.
pub(crate) fn tell_accounts<N: Clock>(
    rt: &N,
    log: Log<'_>,
    totals: &[AccountTotals],
    counts: &Counts,
) {
    if let Some(journal) = log {
        note_accounts(rt, journal, totals, counts);
        journal.catch_up(rt, now(rt));
    }
}

/// Writes the line of a bad table's number, and the rule that it breaks.
fn tell_line<N: Clock>(rt: &N, log: Log<'_>, line: usize, words: &str) {
    let event = Event::Table { line, words };
    tell(rt, log, &event);
}

/// Writes which line of a connector's table is bad, and the rule that it breaks, if there is a log and such a line. It is a
/// line that is bad by itself or, if there is none, one that breaks a rule of the whole table.
pub(crate) fn tell_table<N: Clock>(rt: &N, alloc: Global, log: Log<'_>, bytes: &[u8]) {
    if log.is_none() {
        return;
    }
    match table_fault(alloc, bytes) {
        Ok(Some(TableFault { line, fault })) => {
            if let Ok(words) = format!(in alloc; "{fault}") {
                tell_line(rt, log, line, words.as_str());
            }
        }
        Ok(None) => tell_whole(rt, alloc, log, bytes),
        Err(_) => {}
    }
}

/// Writes which line of a connector's table breaks a rule of the whole table, and the rule, if there is such a line.
fn tell_whole<N: Clock>(rt: &N, alloc: Global, log: Log<'_>, bytes: &[u8]) {
    if let Ok(Some(WholeFault { line, fault })) = whole_fault(alloc, bytes) {
        if let Ok(words) = format!(in alloc; "{fault}") {
            tell_line(rt, log, line, words.as_str());
        }
    }
}

/// Writes how a command ended, after what was left out before. Waits at most a second for the reader of the log.
fn note_end<N: Clock>(
    rt: &N,
    alloc: Global,
    journal: &LogFile,
    obstacle: &Option<Obstacle<'_>>,
    ended: Result<(), RunError>,
) {
    let now = now(rt);
    journal.catch_up(rt, now);
    match ended {
        Ok(()) => journal.finish(rt, now, &Event::Done),
        Err(error) => {
            // (an empty text if memory is refused)
            let words = words_of(alloc, error, obstacle).unwrap_or(String::new(alloc));
            let event = Event::Failed {
                fault: error.number(),
                words: words.as_str(),
            };
            journal.finish(rt, now, &event);
        }
    }
}

/// Whether no line waits that could not be written.
fn written(journal: &LogFile) -> Result<(), Fault> {
    if journal.has_failed() {
        Err(Fault::Output)
    } else {
        Ok(())
    }
}

/// Writes how a command ended, and why, if there is a log. Returns the result of the command: its own error or, if it has
/// none, that the log failed.
pub fn tell_run<N: Clock>(
    rt: &N,
    alloc: Global,
    log: Log<'_>,
    obstacle: &Option<Obstacle<'_>>,
    ended: Result<(), RunError>,
) -> Result<(), RunError>
    ensures none { IsNone log.entry → result ≡ ended }
    ensures told { (told : Result (Unit {0}) Fault) × (result ≡ spec.ended_with ended told) }
{
    match log {
        Some(journal) => {
            note_end(rt, alloc, journal, obstacle, ended);
            ended_with(ended, written(journal))
        }
        None => ended,
    }
}
