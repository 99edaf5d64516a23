//! The settings of each command.

ghost use Rattle.std.specs.Prelude.{◌≡◌, ℕ, Option, true, false, MatchOption};
ghost use Rattle.st_oer.specs.Address as address;
ghost use Rattle.ilpstream_settings.specs.declared.settings.LocalRequest.{LocalRequest};
ghost use Rattle.ilpstream_settings.specs.declared.settings.SendSettings.{SendSettings};
ghost use Rattle.ilpstream_settings.specs.declared.settings.ReceiveSettings.{ReceiveSettings};
ghost use Rattle.ilpstream_settings.specs.declared.settings.ConnectorSettings.{ConnectorSettings};
ghost use Rattle.ilpstream_settings.specs.Numbers.{IsHostPort};
ghost use Rattle.ilpstream_settings.specs.Settings.{IsChosen, IsConnector, IsLocal, IsReceive, IsSend, IsWithin, connector_texts, local_texts, receive_texts, said, send_texts};

use crate::number::read_number;
use crate::options::{ConnectorOptions, LocalOptions, ReceiveOptions, SendOptions};
use crate::source::{Secret, Token, secret_of, token_of};
use crate::text::{is_host_port, read_rate};
use st_oer::{Rate, is_address};

/// The most connectors between the two ends of `local`.
pub const MAX_HOPS: u64 = 8;
/// The largest number N of `local --lose`, which drops each N-th Prepare.
pub const MAX_LOSE: u64 = 1_000_000;
/// The most streams of `local`.
pub const MAX_STREAMS: u64 = 32;
/// The largest amount of money, in units.
pub const MAX_MONEY: u64 = (1 << 63) - 1;
/// The most worker threads of a command.
pub const MAX_WORKERS: u64 = 16;
/// The most seconds that `receive` can be asked to wait for a request, and that `send` can be asked to try on: a day.
pub const MAX_PATIENCE: u64 = 86_400;
/// The fewest seconds that `send` can be asked to try on, which are the default too.
pub const LEAST_SEND_PATIENCE: u32 = 10;
/// The most requests that a connector can be asked to answer.
pub const MAX_REQUESTS: u64 = (1 << 31) - 1;

/// The settings of `local`.
#[derive(Clone, Copy)]
pub struct LocalSettings {
    /// The number of connectors between the two ends: 0 to 8, by default 1.
    pub hops: u8,
    /// Each N-th Prepare of the client is dropped, N from 0 to 1,000,000; 0, the default, drops none.
    pub lose: u64,
    /// The number of streams that the input is divided among: 1 to 32, by default 1.
    pub streams: u8,
}

/// What `local` is asked for: its settings, and the file of its totals.
#[derive(Clone, Copy)]
pub struct LocalRequest<'a> {
    /// The settings of the run.
    pub settings: LocalSettings,
    /// The name of the file that the totals are written to, if one was given.
    pub totals: Option<&'a str>,
}

/// The settings of `send`.
#[derive(Clone, Copy)]
pub struct SendSettings<'a> {
    /// The neighbour that requests are sent to, written HOST:PORT.
    pub to: &'a str,
    /// The bearer token by which the neighbour knows this end.
    pub token: Token<'a>,
    /// The shared secret of the connection, 32 bytes (RFC 0029).
    pub secret: Secret<'a>,
    /// This end's ILP address.
    pub address: &'a str,
    /// The receiver's ILP address.
    pub peer: &'a str,
    /// The money that is offered on the stream, in units: 0, the default, to 2^63 - 1.
    pub money: u64,
    /// The number of threads that send: 1 to 16, by default 4.
    pub workers: u8,
    /// Over how many seconds the tries are spread after whose failure the connection fails: 10, the default, to 86,400.
    pub patience: u64,
    /// The name of the file that random bytes are read from, by default /dev/urandom.
    pub random: &'a str,
    /// The lowest accepted rate: the units that have to arrive for the units that are sent, rounded down; by default 1
    /// to 1.
    pub least: Rate,
    /// The name of the file that the totals are written to, if one was given.
    pub totals: Option<&'a str>,
    /// The name of the file to which a line for each event is appended, if one was given.
    pub log: Option<&'a str>,
}

/// The settings of `receive`.
#[derive(Clone, Copy)]
pub struct ReceiveSettings<'a> {
    /// The address at which requests are accepted, written HOST:PORT.
    pub listen: &'a str,
    /// The bearer token that a request has to show.
    pub token: Token<'a>,
    /// The shared secret of the connection, 32 bytes (RFC 0029).
    pub secret: Secret<'a>,
    /// This end's ILP address.
    pub address: &'a str,
    /// The sender's ILP address.
    pub peer: &'a str,
    /// The most money that is accepted on the stream, in units: 0, the default, to 2^63 - 1.
    pub receive_max: u64,
    /// The number of threads that read requests: 1 to 16, by default 4.
    pub workers: u8,
    /// The number of seconds that may pass without a valid request: 1 to 86,400. `None`, the default, is any number.
    pub patience: Option<u64>,
    /// The name of the file that the totals are written to, if one was given.
    pub totals: Option<&'a str>,
    /// The name of the file to which a line for each event is appended, if one was given.
    pub log: Option<&'a str>,
    /// Whether the command reports on standard error what it does: where it listens.
    pub verbose: bool,
    /// The name of the pipe by which the command is asked things while it runs, if one was given.
    pub control: Option<&'a str>,
}

/// The settings of `connector`.
#[derive(Clone, Copy)]
pub struct ConnectorSettings<'a> {
    /// The address at which requests are accepted, written HOST:PORT.
    pub listen: &'a str,
    /// The connector's own ILP address.
    pub own: &'a str,
    /// The number of requests that are answered before the connector ends: 1 to 2^31 - 1. `None`, with `--endless`, is any
    /// number.
    pub requests: Option<u64>,
    /// The number of threads that answer: 1 to 16, by default 4.
    pub workers: u8,
    /// The name of the file that the totals are written to, if one was given.
    pub totals: Option<&'a str>,
    /// The name of the file to which a line for each event is appended, if one was given.
    pub log: Option<&'a str>,
    /// The name of the file that the books are kept in, if one was given.
    pub ledger: Option<&'a str>,
    /// Whether the books keep the fulfillments that prove claims.
    pub keep_fulfillments: bool,
    /// Whether the command reports on standard error what it does: where it listens.
    pub verbose: bool,
    /// The name of the pipe by which the command is asked things while it runs, if one was given.
    pub control: Option<&'a str>,
    /// The name of the file that has the table, if one was given. Without one the table is standard input.
    pub table: Option<&'a str>,
}

/// The number that bytes write, from `least` to `most`.
pub(crate) fn number_within(bytes: &[u8], least: u64, most: u64) -> Option<u64>
    ensures { MatchOption result ((n : ℕ) → ¬ (IsWithin least most bytes.now n)) (IsWithin least most bytes.now) }
{
    let number = read_number(bytes, most)?;
    if number < least {
        return None;
    }
    Some(number)
}

/// The number that a text writes, from `least` to `most`.
fn number(text: &str, least: u64, most: u64) -> Option<u64>
    ensures { MatchOption result ((n : ℕ) → ¬ (IsWithin least most text.now n)) (IsWithin least most text.now) }
{
    number_within(text.as_bytes(), least, most)
}

/// The number that the text of an option writes, from `least` to `most`, if the option is given.
fn chosen(text: Option<&str>, least: u64, most: u64) -> Option<Option<u64>>
    ensures { MatchOption result ((n : Option ℕ) → ¬ (IsChosen least most (said text.entry) n)) (IsChosen least most (said text.entry)) }
{
    match text {
        None => Some(None),
        Some(text) => match number(text, least, most) {
            Some(number) => Some(Some(number)),
            None => None,
        },
    }
}

/// The text, if it is HOST:PORT.
fn host_port(text: &str) -> Option<&str>
    ensures { MatchOption result (¬ (IsHostPort text.now)) (λ t. (t ≡ text.entry) × IsHostPort text.now) }
{
    if is_host_port(text) { Some(text) } else { None }
}

/// The text, if it is an ILP address.
fn address(text: &str) -> Option<&str>
    ensures { MatchOption result (address.is_address text.now ≡ false) (λ t. (t ≡ text.entry) × (address.is_address text.now ≡ true)) }
{
    if is_address(text) { Some(text) } else { None }
}

impl<'a> LocalRequest<'a> {
    /// What the texts of the options ask for. `None` exactly if one of the texts is bad.
    pub fn read(options: &LocalOptions<'a>) -> Option<LocalRequest<'a>>
        ensures { MatchOption result ((s : LocalRequest) → ¬ (IsLocal (local_texts options.now) s)) (IsLocal (local_texts options.now)) }
    {
        Some(LocalRequest {
            settings: LocalSettings {
                hops: number(options.hops, 0, MAX_HOPS)? as u8,
                lose: number(options.lose, 0, MAX_LOSE)?,
                streams: number(options.streams, 1, MAX_STREAMS)? as u8,
            },
            totals: options.totals,
        })
    }
}

impl<'a> SendSettings<'a> {
    /// The settings that the texts of the options write. `None` exactly if one of the texts is bad.
    pub fn read(options: &SendOptions<'a>) -> Option<SendSettings<'a>>
        ensures { MatchOption result ((s : SendSettings) → ¬ (IsSend (send_texts options.now) s)) (IsSend (send_texts options.now)) }
    {
        Some(SendSettings {
            to: host_port(options.to)?,
            token: token_of(options.token, options.token_file)?,
            secret: secret_of(options.secret, options.secret_file)?,
            address: address(options.address)?,
            peer: address(options.peer)?,
            money: number(options.money, 0, MAX_MONEY)?,
            workers: number(options.workers, 1, MAX_WORKERS)? as u8,
            patience: number(
                options.patience,
                u64::from(LEAST_SEND_PATIENCE),
                MAX_PATIENCE,
            )?,
            random: options.random,
            least: read_rate(options.least)?,
            totals: options.totals,
            log: options.log,
        })
    }
}

impl<'a> ReceiveSettings<'a> {
    /// The settings that the texts of the options write. `None` exactly if one of the texts is bad.
    pub fn read(options: &ReceiveOptions<'a>) -> Option<ReceiveSettings<'a>>
        ensures { MatchOption result ((s : ReceiveSettings) → ¬ (IsReceive (receive_texts options.now) s)) (IsReceive (receive_texts options.now)) }
    {
        Some(ReceiveSettings {
            listen: host_port(options.listen)?,
            token: token_of(options.token, options.token_file)?,
            secret: secret_of(options.secret, options.secret_file)?,
            address: address(options.address)?,
            peer: address(options.peer)?,
            receive_max: number(options.receive_max, 0, MAX_MONEY)?,
            workers: number(options.workers, 1, MAX_WORKERS)? as u8,
            patience: chosen(options.patience, 1, MAX_PATIENCE)?,
            totals: options.totals,
            log: options.log,
            verbose: options.verbose,
            control: options.control,
        })
    }
}

impl<'a> ConnectorSettings<'a> {
    /// The settings that the texts of the options write. `None` exactly if one of the texts is bad.
    pub fn read(options: &ConnectorOptions<'a>) -> Option<ConnectorSettings<'a>>
        ensures { MatchOption result ((s : ConnectorSettings) → ¬ (IsConnector (connector_texts options.now) s)) (IsConnector (connector_texts options.now)) }
    {
        Some(ConnectorSettings {
            listen: host_port(options.listen)?,
            own: address(options.own)?,
            requests: chosen(options.requests, 1, MAX_REQUESTS)?,
            workers: number(options.workers, 1, MAX_WORKERS)? as u8,
            totals: options.totals,
            log: options.log,
            ledger: options.ledger,
            keep_fulfillments: options.keep_fulfillments,
            verbose: options.verbose,
            control: options.control,
            table: options.table,
        })
    }
}
