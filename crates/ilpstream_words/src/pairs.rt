//! Pairs of options of which exactly one has to be given, and how many words `ledger` accepts.

ghost use Rattle.std.specs.Prelude.{◌≡◌, [], ◌∷◌, Some, map, option_map};
ghost use Rattle.clap.specs.Words.{FailsBy, HasKind, found_of, rows_of, subcommand_rows_of};
ghost use Rattle.ilpstream_words.specs.Pairs as spec;
ghost use Rattle.ilpstream_words.specs.Pairs.{connector_fault, count_fault, keeping_fault, keys_fault, pair_fault, pairs_fault, requests_fault};

use crate::request::{chosen, is_set, payment};
use crate::texts::{CONNECTOR_USAGE, LEDGER_USAGE, RECEIVE_USAGE, SEND_USAGE};
use clap::error::ErrorKind;
use clap::{ArgMatches, Command, Error};
use std::alloc::Global;

/// What is said of a pair of options.
struct Messages {
    /// If both are given.
    both: &'static str,
    /// If neither is.
    neither: &'static str,
}

/// What is said of `--token` and `--token-file`.
const TOKEN: Messages = Messages {
    both: "the argument '--token <TOKEN>' cannot be used with '--token-file <FILE>'",
    neither: "the following required arguments were not provided:\n  <--token <TOKEN>|--token-file <FILE>>",
};

/// What is said of `--secret` and `--secret-file`.
const SECRET: Messages = Messages {
    both: "the argument '--secret <HEX>' cannot be used with '--secret-file <FILE>'",
    neither: "the following required arguments were not provided:\n  <--secret <HEX>|--secret-file <FILE>>",
};

/// What is said of `--requests` and `--endless`.
const REQUESTS: Messages = Messages {
    both: "the argument '--requests <N>' cannot be used with '--endless'",
    neither: "the following required arguments were not provided:\n  <--requests <N>|--endless>",
};

/// An error of this kind in the form of clap's, with this usage; or one of memory that was refused.
fn refusal(alloc: Global, usage: &'static str, kind: ErrorKind, message: &str) -> Error
    ensures { HasKind (kind ∷ []) result }
{
    let mut command = Command::new(alloc, "ilpstream").override_usage(usage);
    match command.error(kind, message) {
        Ok(error) => error,
        Err(refused) => Error::from(refused),
    }
}

/// Looks whether exactly one of a pair is given.
fn look(
    alloc: Global,
    usage: &'static str,
    messages: &Messages,
    one: bool,
    other: bool,
) -> Result<(), Error>
    ensures { FailsBy (pair_fault one other) result }
{
    match (one, other) {
        (true, true) => Err(refusal(alloc, usage, ErrorKind::ArgumentConflict, messages.both)),
        (false, false) => Err(refusal(
            alloc,
            usage,
            ErrorKind::MissingRequiredArgument,
            messages.neither,
        )),
        _ => Ok(()),
    }
}

/// Whether an option is given.
fn is_given(matches: &ArgMatches<'_>, name: &str) -> bool
    ensures { result ≡ spec.is_given name.now (rows_of (found_of matches.now)) }
{
    chosen(matches, name).is_some()
}

/// Checks the number of requests of `connector`, or that there is none.
fn look_at_requests(alloc: Global, matches: &ArgMatches<'_>) -> Result<(), Error>
    ensures { FailsBy (requests_fault (rows_of (found_of matches.now))) result }
{
    let requests = is_given(matches, "requests");
    let endless = is_set(matches, "endless");
    look(alloc, CONNECTOR_USAGE, &REQUESTS, requests, endless)
}

/// What is said if fulfillments are to be kept without books.
const KEEPING: &str =
    "the following required arguments were not provided:\n  --ledger <FILE>, which '--keep-fulfillments' needs";

/// Checks that there are books, if fulfillments are to be kept.
fn look_at_keeping(alloc: Global, matches: &ArgMatches<'_>) -> Result<(), Error>
    ensures { FailsBy (keeping_fault (rows_of (found_of matches.now))) result }
{
    if is_set(matches, "keep-fulfillments") && !is_given(matches, "ledger") {
        return Err(refusal(
            alloc,
            CONNECTOR_USAGE,
            ErrorKind::MissingRequiredArgument,
            KEEPING,
        ));
    }
    Ok(())
}

/// Checks the options of `connector`.
fn look_at_connector(alloc: Global, matches: &ArgMatches<'_>) -> Result<(), Error>
    ensures { FailsBy (connector_fault (rows_of (found_of matches.now))) result }
{
    look_at_requests(alloc, matches)?;
    look_at_keeping(alloc, matches)
}

/// Checks the token and the secret of a command, each of which is given or in a file.
fn look_at_keys(alloc: Global, usage: &'static str, matches: &ArgMatches<'_>) -> Result<(), Error>
    ensures { FailsBy (keys_fault (rows_of (found_of matches.now))) result }
{
    let token = is_given(matches, "token");
    let token_file = is_given(matches, "token-file");
    look(alloc, usage, &TOKEN, token, token_file)?;
    let secret = is_given(matches, "secret");
    let secret_file = is_given(matches, "secret-file");
    look(alloc, usage, &SECRET, secret, secret_file)
}

/// What is said of four words after the file of `ledger`.
const COUNT: &str =
    "unexpected argument found: after 'settle <NAME> <AMOUNT>' only '--reference <TEXT>' is accepted";

/// Looks how many words follow the file of `ledger`: four say nothing.
#[tactic(auto, using(crate::proofs::Counted::four_refused, crate::proofs::Counted::others_taken))]
fn look_at_count(alloc: Global, words: Option<&[&str]>) -> Result<(), Error>
    ensures { FailsBy (count_fault (option_map (λ all. map (λ word. word.now) all.now) words.entry)) result }
{
    let Some(words) = words else {
        return Ok(());
    };
    if words.len() == 4 {
        return Err(refusal(alloc, LEDGER_USAGE, ErrorKind::WrongNumberOfValues, COUNT));
    }
    Ok(())
}

/// Checks the pairs of the command of this name.
fn look_at(alloc: Global, name: &str, matches: &ArgMatches<'_>) -> Result<(), Error>
    ensures { FailsBy (pairs_fault (Some (name.now, rows_of (found_of matches.now)))) result }
{
    match name {
        "send" => look_at_keys(alloc, SEND_USAGE, matches),
        "receive" => look_at_keys(alloc, RECEIVE_USAGE, matches),
        "connector" => look_at_connector(alloc, matches),
        "ledger" => look_at_count(alloc, payment(matches)),
        _ => Ok(()),
    }
}

/// Checks that exactly one of each pair of the command's options is given: `send` and `receive` need a token and a secret, each from an
/// option or from a file, and `connector` a number of requests or that there is none. It also checks that `connector` has books if it is to
/// keep fulfillments, and that `ledger` does not have four words after its file.
///
/// Fails with `ArgumentConflict` if both of a pair are given, with `MissingRequiredArgument` if neither is or books are missing, with
/// `WrongNumberOfValues` for the words of `ledger`, and with `OutOfMemory`.
pub(crate) fn look_at_pairs(alloc: Global, matches: &ArgMatches<'_>) -> Result<(), Error>
    ensures { FailsBy (pairs_fault (subcommand_rows_of matches.now)) result }
{
    match matches.subcommand() {
        None => Ok(()),
        Some((name, inner)) => look_at(alloc, name, inner),
    }
}
