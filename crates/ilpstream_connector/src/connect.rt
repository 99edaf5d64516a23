//! The command `connector`.

ghost use Rattle.std.specs.Prelude.{◌≡◌, ◌⊎◌, Err, IfErr, IfOk, length, sum, vec_len};
ghost use Rattle.ilpstream_connector.specs.Accounts.{AreTotalsOf};
ghost use Rattle.ilpstream_connector.specs.Crew.{IsOfConnector};
ghost use Rattle.ilpstream_serving.specs.declared.error.TransferError.TheVariants.{NoMemory};

use crate::accounts::{AccountTotals, note, places};
use crate::common::{Common, common_of};
use crate::counts::Counts;
use crate::crew::CrewEnded;
use crate::manager::manage;
use crate::minutes::Minutes;
use crate::worker::Job;
use ilpstream_serving::{AwaitListener, ConnectTerms, TransferError, accept_without_waits};
use st_hop::HopState;
use st_hop_desk::{AccountShares, HopDesk, Owed, Till};
use st_links::Keeper;
use std::alloc::Global;
use std::marker::Brand;
use std::net::Net;
use std::sync::Wait;
use std::sync::ledger::{Blank, Ledger};
use std::thread::Threads;
use std::time::Clock;

/// How a connector ended.
#[derive(Drop)]
pub struct ConnectorEnded {
    /// What all accounts owe the hop at the end, and what the hop owes them, in units; or why the connector ended
    /// before its last request.
    pub result: Result<Owed, TransferError>,
    /// The totals of each account that has a token, by the account's place. Empty if memory for them was refused.
    pub accounts: Vec<AccountTotals>,
    /// How the Prepares of these accounts ended. Empty where the totals are.
    pub counts: Counts,
    /// How many Prepares were answered with T00 in place of being forwarded, because too many threads were busy, or too many
    /// for their account.
    pub overloaded: u64,
    /// For how many requests no connection was accepted, since the connector was stopped or paused before.
    pub unserved: u64,
    /// How many threads were to wait for a connection at any time.
    pub workers: u8,
}

/// The result of a connector: what is owed, or its fault. What the desk has of each account is noted in any case.
fn gathered<C: Ledger, D: Ledger>(
    alloc: Global,
    desk: &mut HopDesk<C, D, Global>,
    shares: AccountShares<C, D>,
    served: Result<(), TransferError>,
    accounts: &mut [AccountTotals],
) -> Result<Owed, TransferError>
    requires { IfErr served IsOfConnector }
    ensures noted { AreTotalsOf desk.old.hop accounts.new }
    ensures fault { IfErr served (λ e. result ≡ Err e) }
    ensures faults { IfErr result IsOfConnector }
    ensures owed { IfOk result (λ owed. (owed.claims ≡ sum desk.old.hop.claims) × (owed.dues ≡ sum desk.old.hop.dues)) }
{
    note(desk.hop(), accounts);
    served?;
    let mut all = Vec::new(alloc);
    all.push(shares)?;
    match desk.gather(all) {
        Ok(owed) => Ok(owed),
        Err((error, _)) => Err(TransferError::Desk(error)),
    }
}

/// A connector that ended before it answered any request.
fn unbegun(
    alloc: Global,
    error: TransferError,
    accounts: Vec<AccountTotals>,
    workers: u8,
) -> ConnectorEnded
    ensures accounts { result.accounts ≡ accounts }
    ensures fault { result.result ≡ Err error }
    ensures workers { result.workers ≡ workers }
{
    ConnectorEnded {
        result: Err(error),
        accounts,
        counts: Counts::none(alloc),
        overloaded: 0,
        unserved: 0,
        workers,
    }
}

/// How a connector ended, of which no thread is left.
fn ended<C: Ledger, D: Ledger, L>(
    alloc: Global,
    common: Common<'_, C, D, L>,
    accounts: Vec<AccountTotals>,
) -> ConnectorEnded
    ensures accounts { vec_len result.accounts ≡ vec_len accounts }
    ensures faults { IfErr result.result IsOfConnector }
    ensures workers { result.workers ≡ common.entry.crew.workers }
{
    let mut accounts = accounts;
    let Common {
        desk,
        shares,
        counts,
        crew,
        ..
    } = common;
    let CrewEnded {
        workers,
        overloaded,
        unserved,
        fault,
    } = crew.ended();
    let served = match fault {
        Some(fault) => Err(fault),
        None => Ok(()),
    };
    let result = gathered(
        alloc,
        &mut desk.into_inner(),
        shares.into_inner(),
        served,
        accounts.as_mut_slice(),
    );
    ConnectorEnded {
        result,
        accounts,
        counts: counts.into_inner(),
        overloaded,
        unserved,
        workers,
    }
}

/// A connector under the names that were picked for its ledgers, which writes the totals of its accounts.
fn run<
    C: Ledger + Send + Sync,
    D: Ledger + Send + Sync,
    K: Keeper + Send,
    M: Minutes,
    R: Net + Threads + Wait + Clock + Sync,
>(
    rt: &R,
    alloc: Global,
    listener: &R::Listener,
    hop: HopState<Global>,
    claims: Blank,
    dues: Blank,
    terms: ConnectTerms<'_>,
    till: Option<&Till<K, Global>>,
    minutes: &mut M,
    accounts: Vec<AccountTotals>,
) -> ConnectorEnded
where
    R::Stream: Send,
    R::Listener: AwaitListener + Send + Sync,
    requires claims { (claims.name ≡ C.name) × (claims.parts ≡ C.parts) × (claims.parts ≡ 64) }
    requires dues { (dues.name ≡ D.name) × (dues.parts ≡ D.parts) × (dues.parts ≡ 64) }
    ensures accounts { vec_len result.accounts ≡ vec_len accounts }
    ensures faults { IfErr result.result IsOfConnector }
    ensures workers { result.workers ≡ terms.entry.workers }
{
    let workers = terms.workers;
    let desk = HopDesk::<C, D, Global>::new(alloc, hop, claims, dues);
    let common = match common_of(alloc, listener, desk, terms, minutes.is_asked()) {
        Ok(common) => common,
        Err(error) => return unbegun(alloc, error, accounts, workers),
    };
    if common.is_asked {
        accept_without_waits(listener);
    }
    let mut accounts = accounts;
    let job = Job {
        rt,
        common: &common,
        till,
    };
    manage(rt, &job, accounts.as_mut_slice(), minutes);
    ended(alloc, common, accounts)
}

/// Runs a connector: answers requests that arrive at `listener`, over ILP over HTTP (RFC 0035, the synchronous mode), by
/// the rules of `hop` (RFC 0027), which may have books of an earlier one. `rt` is the network of the listener and of the
/// links to neighbours, and has the threads and the time. `terms` says how many requests are answered, by how many threads,
/// and at which addresses the accounts are reached.
///
/// Each thread accepts a connection, serves one request on it, and waits for the answer of the neighbour if the
/// request is a Prepare that is forwarded. Whenever fewer threads than `terms.workers` wait for a connection, one more
/// is made, up to 1,024 and `terms.workers` in all. A thread that is done waits for the next connection, unless
/// `terms.workers` and 16 more threads do, or `terms.workers` if it could not connect to its neighbour. An account may have
/// at most N exchanges at once, if N are left of 1,024 threads with a connection. A Prepare beyond them that would be
/// forwarded is answered with T00 at once, and counted; so is one if no further thread can be made and none waits for a
/// connection.
///
/// With a `till`, what a Fulfill books is committed there before the Fulfill is passed back, each booking once. A Fulfill
/// that was not stored is answered with T01 in its place. If the books refused the commit that had it, nobody knows, and the
/// connection is closed without an answer. The till has to be for `MOST_THREADS`. Without one, what is booked is in memory alone.
///
/// A thread to which the listener gives no connection 100 times in a row ends if others wait for one, and no further
/// thread is made in its place until one of them has a connection.
///
/// Fails with `Accept` if that is the last thread that waits, and none has a connection; with `NoMemory` if memory
/// is refused, or not one thread can be made; with `Books` and the number of the books once they refused a booking. Then
/// no further request is served: the listener is shut, and connections that no thread accepted are closed. A Prepare that a
/// thread has by then is answered with T00 if it was not sent on, and otherwise as its exchange ends. A listener without a
/// file descriptor is not shut: each thread that waits at it ends once it gives a connection or an error.
///
/// Each period of the terms, the thread that calls reports to `minutes` what the accounts have then. Meanwhile no thread
/// is made, so `minutes` has to be quick. If it may ask for something, it is asked each 200 milliseconds, and
/// one thread at a time waits for a connection, for no longer. Once it asks for a stop, the listener is shut, no further
/// connection is accepted, and those that threads have are finished. That is not a fault. Once it asks for a pause, the listener
/// stays as it is, and connections wait there.
///
/// The call ends with its threads. The totals of the accounts, and how their Prepares ended, are given whatever the result
/// is.
pub fn connector_on<R: Net + Threads + Wait + Clock + Sync, K: Keeper + Send + Drop, M: Minutes>(
    rt: &R,
    alloc: Global,
    listener: &R::Listener,
    hop: HopState<Global>,
    terms: ConnectTerms<'_>,
    till: Option<&Till<K, Global>>,
    minutes: &mut M,
) -> ConnectorEnded
where
    R::Stream: Send,
    R::Listener: AwaitListener + Send + Sync,
    ensures accounts { (vec_len result.accounts ≡ length terms.entry.tokens.now) ⊎ (result.result ≡ Err NoMemory) }
    ensures faults { IfErr result.result IsOfConnector }
    ensures workers { result.workers ≡ terms.entry.workers }
{
    match places(alloc, terms.tokens.len()) {
        Ok(accounts) => run::<Brand, Brand, K, M, R>(
            rt,
            alloc,
            listener,
            hop,
            Blank::new(64),
            Blank::new(64),
            terms,
            till,
            minutes,
            accounts,
        ),
        Err(_) => unbegun(
            alloc,
            TransferError::NoMemory,
            Vec::new(alloc),
            terms.workers,
        ),
    }
}
