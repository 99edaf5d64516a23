//! The sides of a transfer, with the addresses, the tokens and the secret of the tests.
ghost use Rattle.std.specs.Prelude.{◌≡◌, IfOk};
ghost use Rattle.st_hub.specs.Hub as hub;

use ilpstream_connector::{ConnectorEnded, Minutes, NoMinutes, connector_on};
use ilpstream_ends::{client_end, receive_on, send_on, server_end};
use ilpstream_serving::{
    AwaitListener, ConnectTerms, Ended, Neighbour, NoWatch, ReceiveTerms, RuntimeClock, SendTerms,
    TransferError,
};
use st_devices::Counting;
use st_end::{EndState, Totals};
use st_hop::{Account, HopError, HopState, Route};
use st_hop_desk::{NoBooks, Owed, Till};
use st_links::Keeper;
use st_oer::{Rate, is_address};
use st_sender::EndConfig;
use std::alloc::Global;
use std::io;
use std::io::{Read, Write};
use std::net::{Net, OpenStream, TcpListener, TcpStream};
use std::sync::Wait;
use std::thread::Threads;
use std::time::Duration;

/// More I/O calls than one exchange needs, and more rounds of a worker than a transfer does.
pub(crate) const TURNS: u64 = 1_000_000;

/// By which each side's requests are known at the next one.
pub(crate) const TOKEN: &str = "t0";

const SECRET: [u8; 32] = [7; 32];

const SENDER: &str = "test.a";

const RECEIVER: &str = "test.b";

/// What a sender offers, how much of it has to arrive, and in how many rounds of its workers; how much a receiver accepts, in how
/// many connections; and how many workers each of both has.
#[derive(Clone, Copy)]
pub(crate) struct Terms {
    pub(crate) money: u64,
    pub(crate) least: Rate,
    pub(crate) workers: u8,
    pub(crate) turns: u64,
    pub(crate) receive_max: u64,
    pub(crate) connections: u64,
}

/// This much money, all of which has to arrive, by this number of workers, and all the rounds and connections that it needs.
pub(crate) fn with_money(money: u64, workers: u8) -> Terms {
    Terms {
        money,
        least: Rate::new(1, 1).unwrap(),
        workers,
        turns: TURNS,
        receive_max: money,
        connections: TURNS,
    }
}

/// The packets of a connection, in all and in flight.
fn config() -> Option<EndConfig> {
    EndConfig::new(16, 100_000, 1_000_000)
}

/// IVs that count up.
#[derive(Drop)]
pub(crate) struct Counter {
    pub(crate) next: u64,
}

impl Read for Counter {
    fn read(&mut self, buf: &mut [u8]) -> io::Result<usize> {
        let bytes = self.next.to_be_bytes();
        self.next = self.next.wrapping_add(1);
        let n = buf.len().min(8);
        buf[..n].copy_from_slice(&bytes[..n]);
        Ok(n)
    }
}

/// The totals of an end that did nothing.
pub(crate) fn nothing_yet() -> Totals {
    Totals {
        accepted: 0,
        delivered: 0,
        credited: 0,
        paid: 0,
    }
}

/// The receiver `test.b`, at this listener and into this writer.
pub(crate) fn receive<
    L: AwaitListener + Send + Sync + Drop,
    W: Write,
    R: Threads + Wait + std::time::Clock + Sync,
>(
    rt: &R,
    alloc: Global,
    listener: L,
    writer: &mut Counting<W>,
    terms: Terms,
) -> Result<u64, TransferError>
where
    L::Stream: Read + Write + OpenStream + Send,
{
    receive_telling(rt, alloc, listener, writer, terms).result
}

/// How the receiver `test.b` ends if it makes no end.
fn no_end(error: TransferError) -> Ended {
    Ended {
        result: Err(error),
        totals: nothing_yet(),
    }
}

/// The receiver `test.b`, at this listener and into this writer, and the totals of its end.
pub(crate) fn receive_telling<
    L: AwaitListener + Send + Sync + Drop,
    W: Write,
    R: Threads + Wait + std::time::Clock + Sync,
>(rt: &R, alloc: Global, listener: L, writer: &mut Counting<W>, terms: Terms) -> Ended
where
    L::Stream: Read + Write + OpenStream + Send,
{
    let Some(config) = config() else {
        return no_end(TransferError::NoMemory);
    };
    if !is_address(SENDER) || !is_address(RECEIVER) {
        return no_end(TransferError::NoMemory);
    }
    match server_end(alloc, SECRET, RECEIVER, SENDER, config) {
        Ok(end) => {
            let terms = ReceiveTerms {
                token: TOKEN,
                receive_max: terms.receive_max,
                patience: None,
                workers: terms.workers,
                turns: terms.connections,
                log: None,
            };
            let clock = RuntimeClock::new(rt);
            receive_on(rt, alloc, listener, end, writer, clock, terms, &mut NoWatch)
        }
        Err(error) => no_end(TransferError::End(error)),
    }
}

/// A hop with the sender's side at account 0, and the receiver's at account 1, which exchanges one for one.
fn new_hop(alloc: Global) -> Result<HopState<Global>, HopError> {
    let account = Account {
        limit: 1_000_000,
        max_packet: 1_000_000,
    };
    let route = Route {
        prefix: RECEIVER,
        account: 1,
        rate: Rate::new(1, 1).unwrap(),
    };
    HopState::new(alloc, "test.h", &[account, account], &[route])
}

/// How many requests a connector serves, by how many workers, and the milliseconds of a period after which it reports its
/// totals.
#[derive(Clone, Copy)]
pub(crate) struct Crossing {
    pub(crate) requests: u64,
    pub(crate) workers: u8,
    pub(crate) period: u64,
}

/// 1,000 requests, four workers and a period of an hour.
pub(crate) fn usual() -> Crossing {
    Crossing {
        requests: 1_000,
        workers: 4,
        period: 3_600_000,
    }
}

/// The terms of a connector with these tokens and neighbours.
fn terms_of<'a>(
    tokens: &'a [&'a str],
    neighbours: &'a [Option<Neighbour<'a>>],
    crossing: Crossing,
) -> ConnectTerms<'a> {
    ConnectTerms {
        tokens,
        neighbours,
        requests: Some(crossing.requests),
        workers: crossing.workers,
        turns: TURNS,
        period: Duration::from_millis(crossing.period),
        log: None,
    }
}

/// A connector, with the receiver's side at the host `next`. It reports what all accounts owe, and what it owes them.
pub(crate) fn connect<
    R: Net<Listener = TcpListener, Stream = TcpStream> + Threads + Wait + std::time::Clock + Sync,
>(rt: &R, alloc: Global, listener: TcpListener, next: &str) -> Result<Owed, TransferError> {
    let till = None::<&Till<NoBooks, Global>>;
    connect_storing(rt, alloc, listener, next, 4, till)?.result
}

/// How such a connector ended, with this number of workers, and with a till or without; an error if there is no memory for
/// its hop.
pub(crate) fn connect_storing<
    R: Net<Listener = TcpListener, Stream = TcpStream> + Threads + Wait + std::time::Clock + Sync,
    K: Keeper + Send + Drop,
>(
    rt: &R,
    alloc: Global,
    listener: TcpListener,
    next: &str,
    workers: u8,
    till: Option<&Till<K, Global>>,
) -> Result<ConnectorEnded, TransferError> {
    let crossing = Crossing { workers, ..usual() };
    connect_telling(rt, alloc, listener, next, crossing, till, &mut NoMinutes)
}

/// How a connector at a listener of this network ended, which reports its totals here and has the receiver's side at `next`.
pub(crate) fn connect_telling<
    N: Net + Threads + Wait + std::time::Clock + Sync,
    K: Keeper + Send + Drop,
    M: Minutes,
>(
    net: &N,
    alloc: Global,
    listener: N::Listener,
    next: &str,
    crossing: Crossing,
    till: Option<&Till<K, Global>>,
    minutes: &mut M,
) -> Result<ConnectorEnded, TransferError>
where
    N::Stream: Send,
    N::Listener: AwaitListener + Send + Sync,
{
    let Ok(hop) = new_hop(alloc) else {
        return Err(TransferError::NoMemory);
    };
    let tokens = [TOKEN, "t1"];
    let neighbours = [None, Neighbour::new(next, TOKEN)];
    let terms = terms_of(&tokens, &neighbours, crossing);
    Ok(connector_on(net, alloc, &listener, hop, terms, till, minutes))
}

/// The end of the sender `test.a`.
pub(crate) fn sender(alloc: Global, least: Rate) -> Result<EndState<Global>, TransferError>
    ensures { IfOk result hub.IsNew }
{
    let Some(config) = config() else {
        return Err(TransferError::NoMemory);
    };
    if !is_address(SENDER) || !is_address(RECEIVER) {
        return Err(TransferError::NoMemory);
    }
    match client_end(alloc, SECRET, SENDER, RECEIVER, config.with_least(least)) {
        Ok(end) => Ok(end),
        Err(error) => Err(TransferError::End(error)),
    }
}

/// The sender `test.a`, by the neighbour `next`, with IVs from this reader.
pub(crate) fn send<
    I: Read + Drop,
    G: Read + Drop + Send,
    R: Net + Threads + Wait + std::time::Clock + Sync,
>(
    rt: &R,
    alloc: Global,
    next: &str,
    input: I,
    random: G,
    terms: Terms,
) -> Result<u64, TransferError>
where
    R::Stream: Send,
    R::Listener: Send,
{
    send_telling(rt, alloc, next, input, random, terms, &mut nothing_yet())
}

/// The same, and the totals of its end.
pub(crate) fn send_telling<
    I: Read + Drop,
    G: Read + Drop + Send,
    R: Net + Threads + Wait + std::time::Clock + Sync,
>(
    rt: &R,
    alloc: Global,
    next: &str,
    input: I,
    random: G,
    terms: Terms,
    totals: &mut Totals,
) -> Result<u64, TransferError>
where
    R::Stream: Send,
    R::Listener: Send,
{
    let Terms {
        money,
        least,
        workers,
        turns,
        ..
    } = terms;
    let Some(neighbour) = Neighbour::new(next, TOKEN) else {
        return Err(TransferError::NoMemory);
    };
    let end = sender(alloc, least)?;
    let ended = send_on(
        rt,
        alloc,
        end,
        input,
        random,
        SendTerms {
            neighbour,
            money,
            workers,
            patience: 10,
            turns,
            log: None,
        },
        NoWatch,
    );
    *totals = ended.totals;
    ended.result
}
