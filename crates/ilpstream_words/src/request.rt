//! What the arguments of the command line ask for.

ghost use Rattle.std.specs.Prelude.{◌≡◌, ℕ, IfOk, MatchOption, codes, map, option_map};
ghost use Rattle.clap.specs.Words.{FailsBy, all_of, fault_of, first_of, found_of, rows_of, subcommand_rows_of};
ghost use Rattle.ilpstream_settings.specs.Ledger as ledger;
ghost use Rattle.ilpstream_settings.specs.Numbers.{IsNumber};
ghost use Rattle.ilpstream_settings.specs.Settings as settings;
ghost use Rattle.ilpstream_words.specs.Pairs as pairs;
ghost use Rattle.ilpstream_words.specs.Program as grammar;
ghost use Rattle.ilpstream_words.specs.Words as spec;
ghost use Rattle.ilpstream_words.specs.declared.request.Request.{Request};
ghost use Rattle.ilpstream_words.specs.Words.{Asks, AsksBy, IsBad, Reads, command_of, refusals, value_of};

use crate::error::WordsError;
use crate::pairs::look_at_pairs;
use crate::program::program;
use clap::{ArgMatches, Error};
use ilpstream_settings::{
    ConnectorOptions, ConnectorSettings, LedgerOptions, LedgerSettings, LocalOptions, LocalRequest,
    ReceiveOptions, ReceiveSettings, SendOptions, SendSettings, read_number,
};
use std::alloc::Global;
use std::convert::AsStr;

/// The command that a run is asked to do, with its settings.
#[derive(Clone, Copy)]
pub enum Request<'a> {
    /// `frames`, or no command.
    Frames,
    /// `local`, with its settings and the file of its totals.
    Local(LocalRequest<'a>),
    /// `send`, with its settings.
    Send(SendSettings<'a>),
    /// `receive`, with its settings.
    Receive(ReceiveSettings<'a>),
    /// `connector`, with its settings.
    Connector(ConnectorSettings<'a>),
    /// `ledger`, with its settings.
    Ledger(LedgerSettings<'a>),
    /// `explain`, with the number of a fault.
    Explain(u8),
}

/// The value of an option, if it has one.
pub(crate) fn chosen<'a>(matches: &ArgMatches<'a>, name: &str) -> Option<&'a str>
    ensures { settings.said result ≡ first_of name.now (rows_of (found_of matches.now)) }
{
    matches.get_str(name)
}

/// The value of an option, or an empty text if it has none.
fn value<'a>(matches: &ArgMatches<'a>, name: &str) -> &'a str
    ensures { result.now ≡ value_of name.now (rows_of (found_of matches.now)) }
{
    chosen(matches, name).unwrap_or("")
}

/// Whether an option without a value is given.
pub(crate) fn is_set(matches: &ArgMatches<'_>, name: &str) -> bool
    ensures { result ≡ pairs.is_set name.now (rows_of (found_of matches.now)) }
{
    value(matches, name) == "true"
}

fn local<'a>(matches: &ArgMatches<'a>) -> LocalOptions<'a>
    ensures { settings.local_texts result ≡ spec.local_texts (rows_of (found_of matches.now)) }
{
    LocalOptions {
        hops: value(matches, "hops"),
        lose: value(matches, "lose"),
        streams: value(matches, "streams"),
        totals: chosen(matches, "totals"),
    }
}

pub(crate) fn send<'a>(matches: &ArgMatches<'a>) -> SendOptions<'a>
    ensures { settings.send_texts result ≡ spec.send_texts (rows_of (found_of matches.now)) }
{
    SendOptions {
        to: value(matches, "to"),
        token: chosen(matches, "token"),
        token_file: chosen(matches, "token-file"),
        secret: chosen(matches, "secret"),
        secret_file: chosen(matches, "secret-file"),
        address: value(matches, "address"),
        peer: value(matches, "peer"),
        money: value(matches, "money"),
        workers: value(matches, "workers"),
        patience: value(matches, "patience"),
        random: value(matches, "random"),
        least: value(matches, "least"),
        totals: chosen(matches, "totals"),
        log: chosen(matches, "log"),
    }
}

pub(crate) fn receive<'a>(matches: &ArgMatches<'a>) -> ReceiveOptions<'a>
    ensures { settings.receive_texts result ≡ spec.receive_texts (rows_of (found_of matches.now)) }
{
    ReceiveOptions {
        listen: value(matches, "listen"),
        token: chosen(matches, "token"),
        token_file: chosen(matches, "token-file"),
        secret: chosen(matches, "secret"),
        secret_file: chosen(matches, "secret-file"),
        address: value(matches, "address"),
        peer: value(matches, "peer"),
        receive_max: value(matches, "receive-max"),
        workers: value(matches, "workers"),
        patience: chosen(matches, "patience"),
        totals: chosen(matches, "totals"),
        log: chosen(matches, "log"),
        verbose: is_set(matches, "verbose"),
        control: chosen(matches, "control"),
    }
}

pub(crate) fn connector<'a>(matches: &ArgMatches<'a>) -> ConnectorOptions<'a>
    ensures { settings.connector_texts result ≡ spec.connector_texts (rows_of (found_of matches.now)) }
{
    ConnectorOptions {
        listen: value(matches, "listen"),
        own: value(matches, "own"),
        requests: chosen(matches, "requests"),
        workers: value(matches, "workers"),
        totals: chosen(matches, "totals"),
        log: chosen(matches, "log"),
        ledger: chosen(matches, "ledger"),
        keep_fulfillments: is_set(matches, "keep-fulfillments"),
        verbose: is_set(matches, "verbose"),
        control: chosen(matches, "control"),
        table: chosen(matches, "table"),
    }
}

/// The words after the file of `ledger`, if there are any.
pub(crate) fn payment<'w, 'a>(matches: &'w ArgMatches<'a>) -> Option<&'w [&'a str]>
    ensures { option_map (λ words. map (λ word. word.now) words.now) result ≡ all_of (codes "payment") (rows_of (found_of matches.now)) }
{
    matches.get_strs("payment")
}

fn ledger<'w, 'a>(matches: &'w ArgMatches<'a>) -> LedgerOptions<'w, 'a>
    ensures { ledger.ledger_texts result ≡ spec.ledger_texts (rows_of (found_of matches.now)) }
{
    LedgerOptions {
        file: value(matches, "file"),
        payment: payment(matches),
    }
}

/// The byte that a text writes in decimal digits.
fn byte_of(text: &str) -> Option<u8>
    ensures { MatchOption result ((n : ℕ) → ¬ (IsNumber 255 text.now n)) (IsNumber 255 text.now) }
{
    Some(read_number(text.as_bytes(), u64::from(u8::MAX))? as u8)
}

/// The command of this name with the settings that its options say. `None` if an option is bad, or there is no such
/// command.
fn request_of<'a>(name: &str, matches: &ArgMatches<'a>) -> Option<Request<'a>>
    ensures { MatchOption result (IsBad name.now (rows_of (found_of matches.now))) (Asks name.now (rows_of (found_of matches.now))) }
{
    match name {
        "frames" => Some(Request::Frames),
        "local" => Some(Request::Local(LocalRequest::read(&local(matches))?)),
        "send" => {
            let Some(settings) = SendSettings::read(&send(matches)) else {
                return None;
            };
            Some(Request::Send(settings))
        }
        "receive" => Some(Request::Receive(ReceiveSettings::read(&receive(matches))?)),
        "connector" => Some(Request::Connector(ConnectorSettings::read(&connector(matches))?)),
        "ledger" => Some(Request::Ledger(LedgerSettings::read(&ledger(matches))?)),
        "explain" => Some(Request::Explain(byte_of(value(matches, "number"))?)),
        _ => None,
    }
}

/// What clap makes of the arguments; the first is the program's name.
pub(crate) fn parse<'a, S: AsStr>(alloc: Global, words: &'a [S]) -> Result<ArgMatches<'a>, Error>
    ensures kinds { FailsBy (fault_of grammar.program (map S.text words.now)) result }
    ensures command { IfOk result (λ m. subcommand_rows_of m ≡ command_of (map S.text words.now)) }
{
    program(alloc).finish()?.try_get_matches_from(words)
}

/// What clap makes of the arguments, if exactly one of each pair of options is given.
fn taken<'a, S: AsStr>(alloc: Global, words: &'a [S]) -> Result<ArgMatches<'a>, Error>
    ensures kinds { FailsBy (refusals (map S.text words.now)) result }
    ensures command { IfOk result (λ m. subcommand_rows_of m ≡ command_of (map S.text words.now)) }
{
    let matches = parse(alloc, words)?;
    match look_at_pairs(alloc, &matches) {
        Ok(()) => Ok(matches),
        Err(error) => Err(error),
    }
}

/// The command and its settings. `None` if the text of an option is bad.
fn asked<'a>(matches: &ArgMatches<'a>) -> Option<Request<'a>>
    ensures { MatchOption result ((r : Request) → ¬ (AsksBy (subcommand_rows_of matches.now) r)) (AsksBy (subcommand_rows_of matches.now)) }
{
    match matches.subcommand() {
        None => Some(Request::Frames),
        Some((name, inner)) => request_of(name, inner),
    }
}

/// Reads the arguments of the command line; the first is the program's name. Without a command the request is `Frames`.
///
/// Fails with `Refused` if clap refuses the arguments, if both or neither of a pair of options is given, if they ask for help
/// or the version, and if memory is refused; with `BadOption` if the text of an option is bad.
pub fn read_words<'a, S: AsStr>(alloc: Global, words: &'a [S]) -> Result<Request<'a>, WordsError>
    ensures { Reads (map S.text words.now) result }
{
    match taken(alloc, words) {
        Ok(matches) => match asked(&matches) {
            Some(request) => Ok(request),
            None => Err(WordsError::BadOption),
        },
        Err(error) => Err(WordsError::Refused(error)),
    }
}
