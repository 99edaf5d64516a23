//! Which line of a connector's table is bad, and which rule it breaks.

ghost use Rattle.std.specs.Prelude.{◌≡◌, ◌≤◌, ◌∷◌, ℕ, List, Option, IfOk, MatchOption, codes, length, map};
ghost use Rattle.std.specs.Borrow.{Bor};
ghost use Rattle.std.specs.List.{AllByRecursion};
ghost use Rattle.std.specs.Str.Lines.{lines};
ghost use Rattle.ilpstream_settings.specs.declared.line.AccountLine.{AccountLine};
ghost use Rattle.st_hop.specs.declared.route.Route.{Route};
ghost use Rattle.st_oer.specs.Ratios.{Ratio};
ghost use Rattle.ilpstream_settings.specs.Faults as rules;
ghost use Rattle.ilpstream_settings.specs.Faults.{Breaks, BreaksRated, BreaksTerms, HasGoodLines, IsFirstFault, IsGood, IsTableFault};
ghost use Rattle.ilpstream_settings.specs.Numbers.{AreTerms, IsNumber};
ghost use Rattle.ilpstream_settings.specs.Settings.{most_money, said};
ghost use Rattle.ilpstream_settings.specs.Table.{IsAccount, IsAccountLine, IsRouteLine};
ghost use Rattle.ilpstream_settings.specs.Table as specs;

use crate::line::{leads_to, name_in, words_of};
use crate::number::read_number;
use crate::settings::MAX_MONEY;
use crate::text::{is_host_port, rate_of};
use st_http::is_field_text;
use std::alloc::{AllocError, Allocator};
use std::str;
use thiserror::Error;

/// The rule that a line of a table breaks, by the word that breaks it.
#[derive(Clone, Copy, Debug, PartialEq, Eq, Error)]
pub enum LineFault {
    /// A byte of the line is no UTF-8.
    #[error("the line is not UTF-8")]
    NotUtf8,
    /// The first word is neither `account` nor `route`.
    #[error("the first word is neither `account` nor `route`")]
    Kind,
    /// An account does not have five or six fields after `account`.
    #[error("an account is `account LIMIT MAX TOKEN HOST:PORT TOKEN`, with NAME= in front of LIMIT or without it")]
    AccountWords,
    /// The first of six fields after `account` is not `NAME=` and a name.
    #[error("NAME= is followed by 1 to 255 visible characters")]
    Name,
    /// LIMIT is not a number from 0 to 2^63 - 1.
    #[error("LIMIT is a number from 0 to 2^63 - 1")]
    Limit,
    /// MAX is not a number from 0 to 2^63 - 1.
    #[error("MAX is a number from 0 to 2^63 - 1")]
    MaxPacket,
    /// The token of the account's requests is not 1 to 255 visible characters.
    #[error("the first TOKEN has 1 to 255 visible characters")]
    Token,
    /// HOST:PORT is not one, and not `-` before `-` either.
    #[error("HOST:PORT has a name, a colon and a port up to 65535, or is `-` with `-` for its TOKEN")]
    HostPort,
    /// The token that is shown at HOST:PORT is not 1 to 255 visible characters.
    #[error("the TOKEN behind HOST:PORT has 1 to 255 visible characters")]
    TokenThere,
    /// A route does not have two or four fields after `route`.
    #[error("a route is `route PREFIX ACCOUNT`, with NUM DEN behind it or without them")]
    RouteWords,
    /// ACCOUNT is not a number from 0 to 2^63 - 1.
    #[error("ACCOUNT is a number from 0 to 2^63 - 1")]
    RouteAccount,
    /// NUM and DEN are not two numbers from 1 to 2^32 - 1.
    #[error("NUM and DEN are numbers from 1 to 4294967295")]
    Rate,
}

/// The first bad line of a table.
#[derive(Clone, Copy)]
pub struct TableFault {
    /// The number of the line, from 1.
    pub line: usize,
    /// The rule that it breaks.
    pub fault: LineFault,
}

/// The rule that the five fields of an account break, if they break one.
fn terms_fault(
    limit: &str,
    max_packet: &str,
    token: &str,
    host: &str,
    out: &str,
) -> Option<LineFault>
    ensures { MatchOption result
        ((name : Option (Bor (List ℕ))) → (x : AccountLine) × IsAccount (said name) limit.now max_packet.now token.now host.now out.now x)
        (BreaksTerms limit.now max_packet.now token.now host.now out.now) }
{
    let Some(_limit) = read_number(limit.as_bytes(), MAX_MONEY) else {
        return Some(LineFault::Limit);
    };
    let Some(_max_packet) = read_number(max_packet.as_bytes(), MAX_MONEY) else {
        return Some(LineFault::MaxPacket);
    };
    if !is_field_text(token) {
        return Some(LineFault::Token);
    }
    match leads_to(host, out) {
        Some(_neighbour) => None,
        None if is_host_port(host) => Some(LineFault::TokenThere),
        None => Some(LineFault::HostPort),
    }
}

/// The rule that the fields after `account` break, if they break one.
fn account_fault(words: &[&str]) -> Option<LineFault>
    ensures { MatchOption result
        ((x : AccountLine) × IsAccountLine (codes "account" ∷ map (λ w. w.now) words.now) x)
        (Breaks (codes "account" ∷ map (λ w. w.now) words.now)) }
{
    match *words {
        [limit, max_packet, token, host, out] => terms_fault(limit, max_packet, token, host, out),
        [word, limit, max_packet, token, host, out] => match name_in(word) {
            Some(_name) => terms_fault(limit, max_packet, token, host, out),
            None => Some(LineFault::Name),
        },
        _ => Some(LineFault::AccountWords),
    }
}

/// The rule that the fields after `route` break, if they break one.
fn route_fault(words: &[&str]) -> Option<LineFault>
    ensures { MatchOption result
        ((r : Route) × IsRouteLine (codes "route" ∷ map (λ w. w.now) words.now) r)
        (Breaks (codes "route" ∷ map (λ w. w.now) words.now)) }
{
    match *words {
        [_, account] => match read_number(account.as_bytes(), MAX_MONEY) {
            Some(_account) => None,
            None => Some(LineFault::RouteAccount),
        },
        [_, account, num, den] => rated_fault(account, num, den),
        _ => Some(LineFault::RouteWords),
    }
}

/// The rule that the fields of a route with a rate break, if they break one.
fn rated_fault(account: &str, num: &str, den: &str) -> Option<LineFault>
    ensures { MatchOption result
        ((n : ℕ) × IsNumber most_money account.now n × ((r : Ratio) × AreTerms num.now den.now r))
        (BreaksRated account.now num.now den.now) }
{
    let Some(_account) = read_number(account.as_bytes(), MAX_MONEY) else {
        return Some(LineFault::RouteAccount);
    };
    match rate_of(num.as_bytes(), den.as_bytes()) {
        Some(_rate) => None,
        None => Some(LineFault::Rate),
    }
}

/// The rule that a line breaks, if it breaks one. The line is given as the texts between its spaces.
fn line_fault(words: &[&str]) -> Option<LineFault>
    ensures { MatchOption result (IsGood (map (λ w. w.now) words.now)) (Breaks (map (λ w. w.now) words.now)) }
{
    let [kind, rest @ ..] = words else {
        return None;
    };
    if *kind == "account" {
        return account_fault(rest);
    }
    if *kind == "route" {
        return route_fault(rest);
    }
    Some(LineFault::Kind)
}

/// The first bad line of these, and the rule that it breaks.
fn first_fault<A: Allocator + Copy>(
    alloc: A,
    lines: &[&str],
) -> Result<Option<TableFault>, AllocError>
    ensures { IfOk result (λ r. MatchOption r
        (AllByRecursion (λ l. IsGood (specs.words_of l)) (map (λ l. l.now) lines.now))
        (λ f. IsFirstFault (map (λ l. l.now) lines.now) f.line f.fault)) }
{
    for index in 0..lines.len() {
        let words = words_of(alloc, lines[index])?;
        match line_fault(&words) {
            Some(fault) => {
                let line = index + 1;
                return Ok(Some(TableFault { line, fault }));
            }
            None => {}
        }
    }
    Ok(None)
}

/// The first bad line of a text.
fn text_fault<A: Allocator + Copy>(alloc: A, text: &str) -> Result<Option<TableFault>, AllocError>
    ensures { IfOk result (λ r. MatchOption r
        (AllByRecursion (λ l. IsGood (specs.words_of l)) (lines text.now))
        (λ f. IsFirstFault (lines text.now) f.line f.fault)) }
{
    let lines: Vec<&str, A> = text.lines().collect(alloc)?;
    first_fault(alloc, &lines)
}

/// The number of newlines in these bytes.
fn line_ends(bytes: &[u8]) -> usize
    ensures counted { result ≡ rules.line_ends bytes.now }
    ensures bounded { result ≤ length bytes.now }
{
    let mut count = 0;
    for index in 0..bytes.len() {
        if bytes[index] == b'\n' {
            count += 1;
        }
    }
    count
}

/// The first bad line of a table, and the rule that it breaks. `None` if no line is bad: then `read_table` refuses the
/// table, if at all, since two accounts have one name. Fails if memory is refused.
pub fn table_fault<A: Allocator + Copy>(
    alloc: A,
    bytes: &[u8],
) -> Result<Option<TableFault>, AllocError>
    ensures { IfOk result (λ r. MatchOption r (HasGoodLines bytes.now) (λ f. IsTableFault bytes.now f.line f.fault)) }
{
    match str::from_utf8(bytes) {
        Ok(text) => text_fault(alloc, text),
        Err(error) => {
            let line = 1 + line_ends(&bytes[..error.valid_up_to()]);
            let fault = LineFault::NotUtf8;
            Ok(Some(TableFault { line, fault }))
        }
    }
}
