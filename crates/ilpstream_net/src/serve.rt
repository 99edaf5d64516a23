//! A connector by one table.

ghost use Rattle.std.specs.Prelude.{◌≡◌, true, IfErr, IfOk, IsNone, IsSome};
ghost use Rattle.std.specs.Duration.{as_nanos};
ghost use Rattle.ilpstream_output.specs.Endings.{most_turns};
ghost use Rattle.ilpstream_net.specs.Restored.{IsOfBooks};
ghost use Rattle.ilpstream_net.specs.Table.{Serves, is_hop};
ghost use Rattle.ilpstream_net.specs.declared.error.RunError.TheVariants.{NoListener};

use crate::carried::Carried;
use crate::error::RunError;
use crate::hop::{Going, hop_of, neighbours_of, restored};
use crate::listening::tell_listening;
use crate::log::{Log, tell};
use crate::obstacle::Obstacle;
use crate::reports::Reports;
use crate::totals::{ConnectorTotals, places};
use ilpstream_connector::{ConnectorEnded, Counts, MOST_THREADS, Minutes, connector_on};
use ilpstream_ledger::{LedgerError, OpensBooks, Placed, Watched, Watcher};
use ilpstream_log::Event;
use ilpstream_output::{Fault, TURNS};
use ilpstream_serving::{ConnectTerms, Neighbour};
use ilpstream_settings::{ConnectorSettings, Table};
use sqlite_trees::store::Alter;
use st_hop::HopState;
use st_hop_books::Books;
use st_hop_desk::{NoBooks, Till};
use st_links::Keeper;
use std::alloc::Global;
use std::net::{Net, TcpListener, TcpStream};
use std::sync::Wait;
use std::thread::Threads;
use std::time::Duration;

/// How many seconds pass between two times that a connector writes its totals while it runs.
const PERIOD_SECONDS: u64 = 60;

/// The listener of a connector: the one that it had with its last table, or a new one at the address of the settings.
fn listener_of<
    'a,
    N: Net<Listener = TcpListener, Stream = TcpStream> + std::time::Clock,
    M: Minutes,
>(
    rt: &N,
    alloc: Global,
    settings: &ConnectorSettings<'a>,
    reports: &mut Reports<'_, 'a, M>,
) -> Result<TcpListener, RunError>
    ensures { IfErr result (λ e. e ≡ NoListener) }
{
    if let Some(listener) = reports.listener.take() {
        return Ok(listener);
    }
    match TcpListener::bind(rt, settings.listen) {
        Ok(listener) => {
            tell_listening(rt, alloc, reports.log, settings.verbose, &listener);
            Ok(listener)
        }
        Err(error) => {
            reports.obstacle = Some(Obstacle::of_address(settings.listen, &error));
            Err(RunError::NoListener)
        }
    }
}

/// What a connector is to do by these settings: what is left of its requests, and its accounts, which are known by these tokens
/// and reached so.
fn terms_of<'t>(
    settings: &ConnectorSettings<'_>,
    tokens: &'t [&'t str],
    neighbours: &'t [Option<Neighbour<'t>>],
    requests: Option<u64>,
    log: Log<'t>,
) -> ConnectTerms<'t>
    ensures accounts { (result.tokens ≡ tokens.entry) × (result.neighbours ≡ neighbours.entry) }
    ensures work { (result.workers ≡ settings.now.workers) × (result.requests ≡ requests) × (result.turns ≡ most_turns) }
    ensures period { as_nanos result.period ≡ 60_000_000_000 }
    ensures log { result.log ≡ log.entry }
{
    ConnectTerms {
        tokens,
        neighbours,
        requests,
        workers: settings.workers,
        turns: TURNS,
        period: Duration::from_secs(PERIOD_SECONDS),
        log,
    }
}

/// Runs a connector over a hop of the table's accounts, and sets its totals. There is a till if and only if the settings
/// ask for books. What the connector books is stored through it.
fn serve_by<
    'a,
    N: Net<Listener = TcpListener, Stream = TcpStream> + Threads + Wait + std::time::Clock + Sync,
    K: Keeper + Send + Drop,
    M: Minutes,
>(
    rt: &N,
    alloc: Global,
    settings: &ConnectorSettings<'a>,
    table: &Table<'_, Global>,
    hop: HopState<Global>,
    till: Option<&Till<K, Global>>,
    reports: &mut Reports<'_, 'a, M>,
) -> Result<(), RunError>
    requires made { is_hop settings.now.own.now table.now.accounts.items table.now.routes.items ≡ true }
    requires stored { IsSome settings.now.ledger → IsSome till }
    requires unstored { IsNone settings.now.ledger → IsNone till }
    ensures { Serves settings.now.own.now settings.now.ledger table.now.accounts.items table.now.routes.items result }
{
    let tokens = table.tokens(alloc)?;
    let neighbours = neighbours_of(alloc, &table.accounts)?;
    if settings.totals.is_some() {
        reports.totals.accounts = places(alloc, table.accounts.len())?;
        reports.totals.counts = Counts::new(alloc, table.accounts.len())?;
    }
    let listener = listener_of(rt, alloc, settings, reports)?;
    let (requests, log) = (reports.requests, reports.log);
    let terms = terms_of(settings, &tokens, &neighbours, requests, log);
    let ConnectorEnded {
        result,
        accounts,
        counts,
        overloaded,
        unserved,
        ..
    } = connector_on(rt, alloc, &listener, hop, terms, till, &mut reports.minutes);
    reports.listener = Some(listener);
    reports.requests = reports.requests.map(|_| unserved);
    reports.totals = ConnectorTotals {
        accounts,
        counts,
        overloaded,
    };
    match result {
        Ok(_) => Ok(()),
        Err(error) => Err(RunError::Transfer(error)),
    }
}

/// Runs a connector that continues with what its books say is owed. What it books is stored there, as long as their files
/// are those that were opened. The books are closed at its end.
fn serve_with<
    'a,
    N: Net<Listener = TcpListener, Stream = TcpStream> + Threads + Wait + std::time::Clock + Sync,
    S: Alter + Send + Drop,
    W: Watcher + Send + Drop,
    M: Minutes,
>(
    rt: &N,
    alloc: Global,
    settings: &ConnectorSettings<'a>,
    table: &Table<'_, Global>,
    mut books: Books<S>,
    watcher: W,
    reports: &mut Reports<'_, 'a, M>,
) -> Result<(), RunError>
    requires made { is_hop settings.now.own.now table.now.accounts.items table.now.routes.items ≡ true }
    requires asked { IsSome settings.now.ledger }
    ensures { Serves settings.now.own.now settings.now.ledger table.now.accounts.items table.now.routes.items result }
{
    let Going { hop, places } = match restored(alloc, settings.own, table, &mut books) {
        Ok(going) => going,
        Err(error) => return Err(error),
    };
    let books = Placed::new(alloc, books, places, settings.keep_fulfillments);
    let books = Watched::new(watcher, books);
    let till = Till::new(alloc, books, MOST_THREADS)?;
    serve_by(rt, alloc, settings, table, hop, Some(&till), reports)
}

/// Runs a connector by a table, without books. It continues with what the accounts of the last table owed and were owed.
fn serve_without<
    'a,
    N: Net<Listener = TcpListener, Stream = TcpStream> + Threads + Wait + std::time::Clock + Sync,
    M: Minutes,
>(
    rt: &N,
    alloc: Global,
    settings: &ConnectorSettings<'a>,
    table: &Table<'_, Global>,
    hop: HopState<Global>,
    reports: &mut Reports<'_, 'a, M>,
) -> Result<(), RunError>
    requires made { is_hop settings.now.own.now table.now.accounts.items table.now.routes.items ≡ true }
    requires unasked { IsNone settings.now.ledger }
    ensures { Serves settings.now.own.now settings.now.ledger table.now.accounts.items table.now.routes.items result }
{
    let hop = match reports.carried.hop_of(alloc, settings.own, table, hop) {
        Ok(hop) => hop,
        Err(error) => return Err(error),
    };
    let none = None::<&Till<NoBooks, Global>>;
    match serve_by(rt, alloc, settings, table, hop, none, reports) {
        Ok(()) => {
            reports.carried = Carried::of(alloc, table, &reports.totals.accounts)?;
            Ok(())
        }
        Err(error) => Err(error),
    }
}

/// Merges the log of the books into their file at the end of a run, by opening them once more. If that fails, the next
/// start does it, or reports why it cannot.
fn fold<O: OpensBooks>(opener: &O, file: &str) {
    drop(opener.open_existing(file));
}

/// Opens the books in the file that was asked for, and makes the watcher of that file. Fails as the books do, or with a
/// fault if memory is refused.
fn books_of<N: std::time::Clock, O: OpensBooks>(
    rt: &N,
    opener: &O,
    file: &str,
    own: &str,
    log: Log<'_>,
) -> Result<(Books<O::Store>, O::Watcher), RunError>
    ensures found { IfOk result (λ opened. O.finds opener.now file.now opened.0) }
    ensures refused { IfErr result IsOfBooks }
{
    match opener.open(file, own) {
        Ok(books) => {
            if books.starts() == 0 {
                tell(rt, log, &Event::NewBooks);
            }
            match opener.watcher(file) {
                Ok(watcher) => Ok((books, watcher)),
                Err(_) => Err(RunError::Fault(Fault::NoMemory)),
            }
        }
        Err(error) => Err(RunError::Ledger(LedgerError::Books(error))),
    }
}

/// Runs a connector by a table, with the books in a file if one is asked for. The books are opened only if a hop may have
/// the table.
#[tactic(auto, using(crate::proofs::Tables::no_books))]
pub(crate) fn serve<
    'a,
    N: Net<Listener = TcpListener, Stream = TcpStream> + Threads + Wait + std::time::Clock + Sync,
    O: OpensBooks,
    M: Minutes,
>(
    rt: &N,
    opener: &O,
    alloc: Global,
    settings: &ConnectorSettings<'a>,
    table: &Table<'_, Global>,
    reports: &mut Reports<'_, 'a, M>,
) -> Result<(), RunError>
    ensures { Serves settings.now.own.now settings.now.ledger table.now.accounts.items table.now.routes.items result }
{
    let hop = match hop_of(alloc, settings.own, table) {
        Ok(hop) => hop,
        Err(error) => return Err(error),
    };
    let Some(file) = settings.ledger else {
        return serve_without(rt, alloc, settings, table, hop, reports);
    };
    match books_of(rt, opener, file, settings.own, reports.log) {
        Ok((books, watcher)) => {
            let ended = serve_with(rt, alloc, settings, table, books, watcher, reports);
            if ended.is_ok() {
                fold(opener, file);
            }
            ended
        }
        Err(error) => Err(error),
    }
}
