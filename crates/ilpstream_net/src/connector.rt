//! The command `connector`.

ghost use Rattle.std.specs.Prelude.{◌≡◌, IfSome, IsNone, IsSome, Result};
ghost use Rattle.ilpstream_output.specs.declared.error.Fault.{Fault};
ghost use Rattle.ilpstream_net.specs.Table.{EndsConnector};
ghost use Rattle.ilpstream_net.specs.Totals.{ended_with};

use crate::carried::Carried;
use crate::control::{Control, pipe_of};
use crate::error::RunError;
use crate::log::{Log, journal, tell, tell_run};
use crate::obstacle::Obstacle;
use crate::renewal::serve_table;
use crate::reports::{EachMinute, Reports, TableFile};
use crate::totals::{ConnectorTotals, Telling, place_for, tell_accounts};
use ilpstream_connector::Counts;
use ilpstream_ledger::OpensBooks;
use ilpstream_log::{Event, Start};
use ilpstream_output::Fault;
use ilpstream_settings::ConnectorSettings;
use st_devices::CountRead;
use std::alloc::Global;
use std::fs::{File, Files};
use std::io::Read;
use std::net::{Net, TcpListener, TcpStream};
use std::sync::Wait;
use std::thread::Threads;

/// The file of a connector's table, if it has one.
fn table_of<'a>(settings: &ConnectorSettings<'a>) -> Option<TableFile<'a>>
    ensures none { IsNone settings.now.table → IsNone result }
    ensures named { IfSome settings.now.table (λ name. IfSome result (λ file. (file.name ≡ name) × (file.own ≡ settings.now.own))) }
    ensures some { IsSome settings.now.table → IsSome result }
{
    let name = settings.table?;
    let own = settings.own;
    Some(TableFile { name, own })
}

/// What a connector of these settings has to report, before its first table. `telling` is the place for its totals, and
/// `pipe` the pipe by which it is asked things, if these were asked for.
fn reports_of<'r, 'a: 'r, N: Files<File = File> + std::time::Clock>(
    rt: &'r N,
    alloc: Global,
    settings: &ConnectorSettings<'a>,
    telling: Telling<'r, N>,
    pipe: Option<File>,
    log: Log<'r>,
) -> Reports<'r, 'a, EachMinute<'r, N>>
    requires placed { IsSome settings.now.totals → IsSome telling.place }
    requires opened { IsSome settings.now.control → IsSome pipe }
    ensures requests { result.requests ≡ settings.now.requests }
    ensures told { (result.minutes.telling.place ≡ telling.entry.place) × (result.log ≡ log.entry) × (result.minutes.log ≡ log.entry) }
    ensures control { IsSome settings.now.control → IsSome result.minutes.control }
    ensures table { IsSome settings.now.table → IsSome result.minutes.table }
{
    let has_table = settings.table.is_some();
    let control = match pipe {
        Some(pipe) => Some(Control::new(rt, alloc, pipe, log, settings.log, has_table)),
        None => None,
    };
    Reports {
        totals: ConnectorTotals {
            accounts: Vec::new(alloc),
            counts: Counts::none(alloc),
            overloaded: 0,
        },
        minutes: EachMinute {
            rt,
            alloc,
            telling,
            log,
            control,
            table: table_of(settings),
            next: None,
            is_stopped: false,
        },
        log,
        obstacle: None,
        listener: None,
        requests: settings.requests,
        carried: Carried::none(alloc),
    }
}

/// Writes the totals of a connector at its end, if a file for them was asked for, and gives what prevented it from running,
/// if something did. Returns the result of the command.
fn tell_reports<'a, N: Files<File = File>>(
    reports: Reports<'_, 'a, EachMinute<'_, N>>,
    obstacle: &mut Option<Obstacle<'a>>,
    ended: Result<(), RunError>,
) -> Result<(), RunError>
    ensures none { IsNone reports.entry.minutes.telling.place → result ≡ ended }
    ensures told { (told : Result (Unit {0}) Fault) × (result ≡ ended_with ended told) }
{
    let Reports {
        totals,
        minutes,
        obstacle: found,
        ..
    } = reports;
    *obstacle = found;
    tell_accounts(minutes.telling, &totals, ended)
}

/// Reads the table, and runs a connector by it, with the books in a file if one is asked for. Writes its totals if a file
/// for them is asked for: at the end, and also each minute if that file can be replaced. If the file for the totals cannot
/// be made, or the pipe for orders cannot be opened, nothing else is done.
#[tactic(auto, using(crate::proofs::Tables::bad_option, crate::proofs::Tables::no_memory))]
fn serve_reporting<
    'a,
    R: Read,
    N: Net<Listener = TcpListener, Stream = TcpStream>
        + Files<File = File>
        + Threads
        + Wait
        + std::time::Clock
        + Sync,
    O: OpensBooks,
>(
    rt: &N,
    opener: &O,
    alloc: Global,
    settings: &ConnectorSettings<'a>,
    reader: &mut CountRead<R>,
    log: Log<'_>,
    obstacle: &mut Option<Obstacle<'a>>,
) -> Result<(), RunError>
    ensures { EndsConnector settings.now R.remaining reader.old reader.new result }
{
    let pipe = match pipe_of(rt, settings.control, obstacle) {
        Ok(pipe) => pipe,
        Err(_) => return Err(RunError::BadOption),
    };
    match place_for(rt, alloc, settings.totals, obstacle) {
        Ok(telling) => {
            let mut reports = reports_of(rt, alloc, settings, telling, pipe, log);
            let ended = serve_table(rt, opener, alloc, settings, reader, &mut reports);
            tell_reports(reports, obstacle, ended)
        }
        Err(RunError::BadOption) => Err(RunError::BadOption),
        Err(_) => Err(RunError::Fault(Fault::NoMemory)),
    }
}

/// Writes to the log that a connector starts, and by which settings, if there is a log.
fn tell_start<N: std::time::Clock>(rt: &N, log: Log<'_>, settings: &ConnectorSettings<'_>) {
    let start = Start::Connector {
        listen: settings.listen,
        own: settings.own,
        workers: settings.workers,
        requests: settings.requests,
    };
    tell(rt, log, &Event::Start(start));
}

/// Reads the table, and runs a connector by it, as the settings say. If the log or the pipe for orders cannot be opened, or
/// the file for the totals cannot be made, nothing else is done. Sets `obstacle` if a file or an address prevents the run.
#[tactic(auto, using(crate::proofs::Tables::bad_option, crate::proofs::Tables::no_memory))]
pub fn run_connector<
    'a,
    R: Read,
    N: Net<Listener = TcpListener, Stream = TcpStream>
        + Files<File = File>
        + Threads
        + Wait
        + std::time::Clock
        + Sync,
    O: OpensBooks,
>(
    rt: &N,
    opener: &O,
    alloc: Global,
    settings: &ConnectorSettings<'a>,
    reader: &mut CountRead<R>,
    obstacle: &mut Option<Obstacle<'a>>,
) -> Result<(), RunError>
    ensures { EndsConnector settings.now R.remaining reader.old reader.new result }
{
    let journal = match journal(rt, alloc, settings.log, obstacle) {
        Ok(journal) => journal,
        Err(RunError::BadOption) => return Err(RunError::BadOption),
        Err(_) => return Err(RunError::Fault(Fault::NoMemory)),
    };
    let log = journal.as_ref();
    tell_start(rt, log, settings);
    let ended = serve_reporting(rt, opener, alloc, settings, reader, log, obstacle);
    tell_run(rt, alloc, log, obstacle, ended)
}
