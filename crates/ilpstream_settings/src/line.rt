//! A line of a connector's table.

ghost use Rattle.std.specs.Prelude.{◌≡◌, ◌∷◌, ℕ, List, Option, IfOk, MatchOption, codes, map};
ghost use Rattle.ilpstream_settings.specs.declared.line.AccountLine.{AccountLine};
ghost use Rattle.st_hop.specs.declared.route.Route.{Route};
ghost use Rattle.st_http.specs.declared.neighbour.Neighbour.{Neighbour};
ghost use Rattle.ilpstream_settings.specs.Numbers.{IsNumber};
ghost use Rattle.ilpstream_settings.specs.Settings.{most_money, said};
ghost use Rattle.ilpstream_settings.specs.Table.{IsAccount, IsAccountLine, IsNaming, IsRoute, IsRouteLine, Leads};
ghost use Rattle.ilpstream_settings.specs.Table as specs;

use crate::number::read_number;
use crate::settings::MAX_MONEY;
use crate::text::{is_host_port, rate_of};
use st_hop::{Account, Route};
use st_http::{Neighbour, is_field_text};
use st_oer::Rate;
use std::alloc::{AllocError, Allocator};

/// An account of a connector's table.
#[derive(Clone, Copy)]
pub struct AccountLine<'a> {
    /// The account's name, if its line gives one: 1 to 255 visible characters.
    pub name: Option<&'a str>,
    /// The most that the account may owe, and the most that one Prepare from it may carry, in units.
    pub terms: Account,
    /// The bearer token by which the connector knows the account: 1 to 255 visible characters.
    pub token: &'a str,
    /// The neighbour to which the Prepares for the account are sent. `None` for an account to which none is sent.
    pub neighbour: Option<Neighbour<'a>>,
}

/// The parts of a line, which spaces separate.
pub(crate) fn words_of<'a, A: Allocator + Copy>(
    alloc: A,
    line: &'a str,
) -> Result<Vec<&'a str, A>, AllocError>
    ensures { IfOk result (λ words. map (λ w. w.now) words.items ≡ specs.words_of line.now) }
{
    line.split(' ')
        .filter(|word| !word.is_empty())
        .collect(alloc)
}

/// The neighbour to which an account's Prepares are sent, by the last two parts of its line: none by `- -`. `None` if
/// they are not valid.
pub(crate) fn leads_to<'a>(host: &'a str, token: &'a str) -> Option<Option<Neighbour<'a>>>
    ensures { MatchOption result ((n : Option Neighbour) → ¬ (Leads host.now token.now n)) (Leads host.now token.now) }
{
    if host == "-" && token == "-" {
        return Some(None);
    }
    if is_host_port(host) && is_field_text(token) {
        return Some(Some(Neighbour { host, token }));
    }
    None
}

/// The name that a word `NAME=..` gives. `None` for any other word.
pub(crate) fn name_in(word: &str) -> Option<&str>
    ensures { MatchOption result ((name : List ℕ) → ¬ (IsNaming word.now name)) (λ name. IsNaming word.now name.now) }
{
    let (key, name) = word.split_once('=')?;
    if key == "NAME" && is_field_text(name) {
        return Some(name);
    }
    None
}

/// The account of this name, or of none, that the other five parts of its line say.
fn account_by<'a>(
    name: Option<&'a str>,
    limit: &str,
    max_packet: &str,
    token: &'a str,
    host: &'a str,
    out: &'a str,
) -> Option<AccountLine<'a>>
    ensures { MatchOption result
        ((a : AccountLine) → ¬ (IsAccount (said name.entry) limit.now max_packet.now token.now host.now out.now a))
        (IsAccount (said name.entry) limit.now max_packet.now token.now host.now out.now) }
{
    let neighbour = leads_to(host, out)?;
    let limit = read_number(limit.as_bytes(), MAX_MONEY)?;
    let max_packet = read_number(max_packet.as_bytes(), MAX_MONEY)?;
    if !is_field_text(token) {
        return None;
    }
    Some(AccountLine {
        name,
        terms: Account { limit, max_packet },
        token,
        neighbour,
    })
}

/// The account that the parts after `account` say. `None` exactly if they are not valid.
pub(crate) fn account_of<'a>(words: &[&'a str]) -> Option<AccountLine<'a>>
    ensures { MatchOption result
        ((a : AccountLine) → ¬ (IsAccountLine (codes "account" ∷ map (λ w. w.now) words.now) a))
        (IsAccountLine (codes "account" ∷ map (λ w. w.now) words.now)) }
{
    match *words {
        [limit, max_packet, token, host, out] => {
            account_by(None, limit, max_packet, token, host, out)
        }
        [word, limit, max_packet, token, host, out] => {
            account_by(Some(name_in(word)?), limit, max_packet, token, host, out)
        }
        _ => None,
    }
}

/// The route to an account of this number, at this rate.
fn route_by<'a>(prefix: &'a str, account: &str, rate: Rate) -> Option<Route<'a>>
    ensures { MatchOption result ((n : ℕ) → ¬ (IsNumber most_money account.now n)) (IsRoute prefix.now account.now rate) }
{
    let account = read_number(account.as_bytes(), MAX_MONEY)?;
    Some(Route {
        prefix,
        account: account as usize,
        rate,
    })
}

/// The route that the parts after `route` say. `None` exactly if they are not valid.
pub(crate) fn route_of<'a>(words: &[&'a str]) -> Option<Route<'a>>
    ensures { MatchOption result
        ((r : Route) → ¬ (IsRouteLine (codes "route" ∷ map (λ w. w.now) words.now) r))
        (IsRouteLine (codes "route" ∷ map (λ w. w.now) words.now)) }
{
    match *words {
        [prefix, account] => route_by(prefix, account, Rate::new(1, 1)?),
        [prefix, account, num, den] => {
            route_by(prefix, account, rate_of(num.as_bytes(), den.as_bytes())?)
        }
        _ => None,
    }
}
