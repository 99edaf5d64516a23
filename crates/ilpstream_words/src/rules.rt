//! Which rule the text of an option breaks.

use crate::request::{connector, parse, receive, send};
use clap::ArgMatches;
use ilpstream_settings::{
    ConnectorOptions, ReceiveOptions, SendOptions, read_number, read_rate, read_secret,
};
use st_http::is_field_text;
use st_oer::is_address;
use std::alloc::Global;
use std::convert::AsStr;

/// The rule of each number, which clap has compared with its bounds.
const DIGITS: &str = "a number has digits alone";

/// 64 hexadecimal digits.
const ZEROS: &str = "0000000000000000000000000000000000000000000000000000000000000000";

/// Whether a text has digits alone.
fn is_number(text: &str) -> bool {
    read_number(text.as_bytes(), u64::MAX).is_some()
}

/// The rule that what both ends have breaks, if it breaks one.
fn end_rule(
    token: Option<&str>,
    secret: Option<&str>,
    address: &str,
    peer: &str,
) -> Option<&'static str> {
    if !is_field_text(token.unwrap_or("token")) {
        return Some("--token is 1 to 255 visible characters");
    }
    if read_secret(secret.unwrap_or(ZEROS)).is_none() {
        return Some("--secret is 64 hexadecimal digits");
    }
    if !is_address(address) {
        return Some("--address is an ILP address");
    }
    if !is_address(peer) {
        return Some("--peer is an ILP address");
    }
    None
}

/// The rule that a text of `send` breaks.
fn send_rule(it: &SendOptions<'_>) -> &'static str {
    if let Some(rule) = end_rule(it.token, it.secret, it.address, it.peer) {
        return rule;
    }
    if read_rate(it.least).is_none() {
        return "--least is NUM:DEN, each from 1 to 4294967295";
    }
    if is_number(it.money) && is_number(it.workers) && is_number(it.patience) {
        "--to is HOST:PORT, with a port up to 65535"
    } else {
        DIGITS
    }
}

/// The rule that a text of `receive` breaks.
fn receive_rule(it: &ReceiveOptions<'_>) -> &'static str {
    if let Some(rule) = end_rule(it.token, it.secret, it.address, it.peer) {
        return rule;
    }
    if is_number(it.receive_max) && is_number(it.workers) && is_number(it.patience.unwrap_or("1")) {
        "--listen is HOST:PORT, with a port up to 65535"
    } else {
        DIGITS
    }
}

/// The rule that a text of `connector` breaks.
fn connector_rule(it: &ConnectorOptions<'_>) -> &'static str {
    if !is_address(it.own) {
        return "--own is an ILP address";
    }
    if is_number(it.requests.unwrap_or("1")) && is_number(it.workers) {
        "--listen is HOST:PORT, with a port up to 65535"
    } else {
        DIGITS
    }
}

/// The rule that a text of the command of this name breaks.
fn rule_of(name: &str, matches: &ArgMatches<'_>) -> &'static str {
    match name {
        "send" => send_rule(&send(matches)),
        "receive" => receive_rule(&receive(matches)),
        "connector" => connector_rule(&connector(matches)),
        "ledger" => {
            "after FILE comes settle NAME AMOUNT, settle NAME -AMOUNT or adjust NAME claims|dues N, and --reference TEXT"
        }
        _ => DIGITS,
    }
}

/// The rule that the text of an option breaks, for arguments that `read_words` answers with `BadOption`. `None` for others
/// that clap refuses, and if memory is refused.
pub fn broken_rule<S: AsStr>(alloc: Global, words: &[S]) -> Option<&'static str> {
    let Ok(matches) = parse(alloc, words) else {
        return None;
    };
    let (name, inner) = matches.subcommand()?;
    Some(rule_of(name, inner))
}
