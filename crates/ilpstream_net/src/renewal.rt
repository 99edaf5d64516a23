//! A connector by its tables, one after another.

ghost use Rattle.std.specs.Prelude.{◌≡◌};
ghost use Rattle.st_devices.specs.Tallies.{device_of, tally_of};
ghost use Rattle.ilpstream_net.specs.Table.{EndsBy, EndsByFile, EndsConnector, GoesOn, Lives};
ghost use Rattle.ilpstream_net.specs.Table as spec;

use crate::error::RunError;
use crate::input::read_whole;
use crate::log::tell_table;
use crate::obstacle::{Obstacle, Step};
use crate::reports::{Renews, Reports};
use crate::serve::serve;
use crate::table_file::{Unread, bytes_of, table_in};
use ilpstream_connector::Minutes;
use ilpstream_ledger::{LedgerError, OpensBooks};
use ilpstream_output::Fault;
use ilpstream_settings::ConnectorSettings;
use st_devices::CountRead;
use std::alloc::Global;
use std::fs::{File, Files};
use std::io::Read;
use std::net::{Net, TcpListener, TcpStream};
use std::sync::Wait;
use std::thread::Threads;

/// Runs a connector by the table in these bytes.
fn serve_bytes<
    'a,
    N: Net<Listener = TcpListener, Stream = TcpStream> + Threads + Wait + std::time::Clock + Sync,
    O: OpensBooks,
    M: Minutes,
>(
    rt: &N,
    opener: &O,
    alloc: Global,
    settings: &ConnectorSettings<'a>,
    bytes: &[u8],
    reports: &mut Reports<'_, 'a, M>,
) -> Result<(), RunError>
    ensures { Lives settings.now.own.now settings.now.ledger bytes.now result }
{
    let log = reports.log;
    let ended = match table_in(alloc, bytes) {
        Ok(table) => serve(rt, opener, alloc, settings, &table, reports),
        Err(error) => Err(error),
    };
    if let Err(RunError::BadTable) = ended {
        tell_table(rt, alloc, log, bytes);
    }
    ended
}

/// Why a connector cannot continue with another table: that does not fit what is owed. `None` if the error has another
/// reason.
fn misfit(error: RunError) -> Option<&'static str> {
    match error {
        RunError::Ledger(LedgerError::Unlisted) => {
            Some("the table lacks an account of the books at which something is owed")
        }
        RunError::Ledger(LedgerError::BelowOwed) => Some("an account owes more than its limit"),
        RunError::NoHop => Some("the table does not fit what is owed, or out of memory"),
        _ => None,
    }
}

/// How a connector ended by a table after its first one. That table was checked before, so that it is not bad now. Should
/// it be bad, the error is `NoHop`.
fn later(ended: Result<(), RunError>) -> Result<(), RunError>
    ensures { result ≡ spec.later ended }
{
    match ended {
        Err(RunError::BadTable) => Err(RunError::NoHop),
        ended => ended,
    }
}

/// Runs a connector by the next table, or again by the last one if the next one does not fit what is owed. `table` is then
/// the one by which it ran.
#[tactic(auto, using(crate::proofs::Tables::goes_on))]
fn go_on<
    'a,
    N: Net<Listener = TcpListener, Stream = TcpStream> + Threads + Wait + std::time::Clock + Sync,
    O: OpensBooks,
    M: Renews,
>(
    rt: &N,
    opener: &O,
    alloc: Global,
    settings: &ConnectorSettings<'a>,
    table: &mut Vec<u8>,
    next: Vec<u8>,
    reports: &mut Reports<'_, 'a, M>,
) -> Result<(), RunError>
    ensures { GoesOn settings.now.ledger result }
{
    let ended = serve_bytes(rt, opener, alloc, settings, &next, reports);
    let why = match ended {
        Ok(()) => None,
        Err(error) => misfit(error),
    };
    let Some(why) = why else {
        *table = next;
        return later(ended);
    };
    reports.minutes.keeps_table(why);
    later(serve_bytes(rt, opener, alloc, settings, table, reports))
}

/// The table with which a connector continues after it ended by its last one. `None` if it is to end.
fn next_table<M: Renews>(reports: &mut Reports<'_, '_, M>) -> Option<Vec<u8>> {
    let next = reports.minutes.next_table()?;
    match reports.requests {
        Some(0) => None,
        _ => Some(next),
    }
}

/// Runs a connector by the table in these bytes, and then by each table that it is given while it runs.
#[tactic(auto, using(crate::proofs::Tables::lives_on))]
fn serve_lives<
    'a,
    N: Net<Listener = TcpListener, Stream = TcpStream> + Threads + Wait + std::time::Clock + Sync,
    O: OpensBooks,
    M: Renews,
>(
    rt: &N,
    opener: &O,
    alloc: Global,
    settings: &ConnectorSettings<'a>,
    first: Vec<u8>,
    reports: &mut Reports<'_, 'a, M>,
) -> Result<(), RunError>
    ensures { Lives settings.now.own.now settings.now.ledger first.items result }
{
    let mut table = first;
    let mut ended = serve_bytes(rt, opener, alloc, settings, &table, reports);
    for _ in rt.forever() {
        if ended.is_err() {
            return ended;
        }
        let Some(next) = next_table(reports) else {
            return ended;
        };
        ended = go_on(rt, opener, alloc, settings, &mut table, next, reports);
    }
    unreachable!()
}

/// Reads the table, and runs a connector by it.
#[tactic(auto, using(crate::proofs::Tables::lives_by))]
fn serve_input<
    'a,
    R: Read,
    N: Net<Listener = TcpListener, Stream = TcpStream> + Threads + Wait + std::time::Clock + Sync,
    O: OpensBooks,
    M: Renews,
>(
    rt: &N,
    opener: &O,
    alloc: Global,
    settings: &ConnectorSettings<'a>,
    reader: &mut CountRead<R>,
    reports: &mut Reports<'_, 'a, M>,
) -> Result<(), RunError>
    ensures { EndsBy settings.now.own.now settings.now.ledger (R.remaining (device_of reader.old)) (tally_of reader.old) (tally_of reader.new) result }
{
    let bytes = read_whole(alloc, reader)?;
    serve_lives(rt, opener, alloc, settings, bytes, reports)
}

/// Reads the table in the file of this name, and runs a connector by it.
fn serve_file<
    'a,
    N: Net<Listener = TcpListener, Stream = TcpStream>
        + Files<File = File>
        + Threads
        + Wait
        + std::time::Clock
        + Sync,
    O: OpensBooks,
    M: Renews,
>(
    rt: &N,
    opener: &O,
    alloc: Global,
    settings: &ConnectorSettings<'a>,
    name: &'a str,
    reports: &mut Reports<'_, 'a, M>,
) -> Result<(), RunError>
    ensures { EndsByFile settings.now.own.now settings.now.ledger result }
{
    match bytes_of(rt, alloc, name) {
        Ok(bytes) => serve_lives(rt, opener, alloc, settings, bytes, reports),
        Err(Unread::NoMemory) => Err(RunError::Fault(Fault::NoMemory)),
        Err(Unread::Refused(cause)) => {
            let step = Step::Table;
            reports.obstacle = Some(Obstacle { step, name, cause });
            Err(RunError::BadOption)
        }
    }
}

/// Runs a connector by the table in its file, if it has one, and otherwise by the table in its input.
pub(crate) fn serve_table<
    'a,
    R: Read,
    N: Net<Listener = TcpListener, Stream = TcpStream>
        + Files<File = File>
        + Threads
        + Wait
        + std::time::Clock
        + Sync,
    O: OpensBooks,
    M: Renews,
>(
    rt: &N,
    opener: &O,
    alloc: Global,
    settings: &ConnectorSettings<'a>,
    reader: &mut CountRead<R>,
    reports: &mut Reports<'_, 'a, M>,
) -> Result<(), RunError>
    ensures { EndsConnector settings.now R.remaining reader.old reader.new result }
{
    match settings.table {
        Some(name) => serve_file(rt, opener, alloc, settings, name, reports),
        None => serve_input(rt, opener, alloc, settings, reader, reports),
    }
}
