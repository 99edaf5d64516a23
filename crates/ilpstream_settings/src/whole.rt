//! Which line of a connector's table breaks a rule of the whole table.

ghost use Rattle.std.specs.Prelude.{◌≡◌, ◌∷◌, ◌++◌, [], false, true, length, IfOk, MatchBool, MatchOption, map, string_bytes};
ghost use Rattle.std.specs.Str.Lines.{lines};
ghost use Rattle.st_hop.specs.Seen.{way_seen};
ghost use Rattle.st_hop.specs.Table.{is_way};
ghost use Rattle.ilpstream_settings.specs.Faults.{HasGoodLines};
ghost use Rattle.ilpstream_settings.specs.Table.{name_of as name_by, words_of as words_by};
ghost use Rattle.ilpstream_settings.specs.Whole.{BreaksWhole, IsFirstRoute, IsSaid, IsStep, IsWhole, IsWholeFault, are_routes, is_one_of, routes_of};
ghost use Rattle.ilpstream_settings.specs.Whole as specs;

use crate::line::{AccountLine, account_of, route_of, words_of};
use crate::names::name_of;
use indexmap::IndexSet;
use st_hop::Route;
use st_oer::{is_address, utf8};
use std::alloc::{AllocError, Allocator};
use std::hash::{BuildHasherDefault, FoldHasher};
use thiserror::Error;

/// The rule of the whole table that a line breaks which is good by itself.
#[derive(Clone, Copy, Debug, PartialEq, Eq, Error)]
pub enum WholeRule {
    /// An account before has the account's name.
    #[error("each name stands once, and an account without NAME= has its number as its name")]
    SameName,
    /// The route's PREFIX is not an ILP address (RFC 0015).
    #[error("PREFIX is an ILP address")]
    NoAddress,
    /// The table has no account of the route's number.
    #[error("ACCOUNT is the number of an account of the table, from 0")]
    NoAccount,
    /// A route before has the route's PREFIX.
    #[error("each PREFIX stands once")]
    SamePrefix,
}

/// The first line of a table that breaks a rule of the whole table.
#[derive(Clone, Copy, PartialEq, Eq)]
pub struct WholeFault {
    /// The number of the line, from 1.
    pub line: usize,
    /// The rule that it breaks.
    pub fault: WholeRule,
}

/// What a line says.
enum Said<'a> {
    Nothing,
    Account(AccountLine<'a>),
    Route(Route<'a>),
    Bad,
}

/// A route, and the number of its line, from 1.
#[derive(Clone, Copy)]
struct PlacedRoute<'a> {
    line: usize,
    route: Route<'a>,
}

/// What a line does to the names and routes before it.
enum Step {
    /// It adds what it says to them.
    Added,
    /// It says an account whose name one before has.
    SameName,
    /// It is bad by itself.
    Bad,
}

type Names<A> = IndexSet<String<A>, BuildHasherDefault<FoldHasher>, A>;

type Prefixes<'a, A> = IndexSet<&'a str, BuildHasherDefault<FoldHasher>, A>;

/// What the lines of a table say, as far as they are read.
#[derive(Drop)]
struct Lines<'a, A: Allocator + Copy> {
    /// The names of its accounts, which are numbered from 0.
    names: Names<A>,
    routes: Vec<PlacedRoute<'a>, A>,
}

/// What a line says, which is given as the texts between its spaces.
fn line_said<'a>(words: &[&'a str]) -> Said<'a>
    ensures { IsSaid (map (λ w. w.now) words.now) result }
{
    let [kind, rest @ ..] = words else {
        return Said::Nothing;
    };
    if *kind == "account" {
        return match account_of(rest) {
            Some(account) => Said::Account(account),
            None => Said::Bad,
        };
    }
    if *kind == "route" {
        return match route_of(rest) {
            Some(route) => Said::Route(route),
            None => Said::Bad,
        };
    }
    Said::Bad
}

/// Adds the name of an account, or returns `false` if one before has it.
fn take_name<A: Allocator + Copy>(
    alloc: A,
    names: &mut Names<A>,
    account: &AccountLine<'_>,
) -> Result<bool, AllocError>
    ensures { IfOk result (λ fresh. MatchBool fresh
        ((is_one_of (map string_bytes names.old.keys) (name_by (length names.old.keys) account.now) ≡ false)
        × (map string_bytes names.new.keys ≡ map string_bytes names.old.keys ++ name_by (length names.old.keys) account.now ∷ []))
        (is_one_of (map string_bytes names.old.keys) (name_by (length names.old.keys) account.now) ≡ true)) }
{
    let name = name_of(alloc, names.len(), account)?;
    let fresh = names.insert(name)?;
    Ok(fresh)
}

impl<'a, A: Allocator + Copy> Lines<'a, A> {
    fn new(alloc: A) -> Lines<'a, A>
        ensures { (result.names.keys ≡ []) × (result.routes.items ≡ []) }
    {
        Lines {
            names: Names::with_hasher(alloc, BuildHasherDefault::<FoldHasher>::new()),
            routes: Vec::new(alloc),
        }
    }

    /// Adds what the line of this number says. The line is given as the texts between its spaces.
    fn take_line(&mut self, alloc: A, line: usize, words: &[&'a str]) -> Result<Step, AllocError>
        ensures { IfOk result (IsStep (map (λ w. w.now) words.now) line self.old.names.keys self.old.routes.items self.new.names.keys self.new.routes.items) }
    {
        match line_said(words) {
            Said::Nothing => Ok(Step::Added),
            Said::Account(account) => {
                if take_name(alloc, &mut self.names, &account)? {
                    Ok(Step::Added)
                } else {
                    Ok(Step::SameName)
                }
            }
            Said::Route(route) => {
                if self.routes.push(PlacedRoute { line, route }).is_err() {
                    return Err(AllocError);
                }
                Ok(Step::Added)
            }
            Said::Bad => Ok(Step::Bad),
        }
    }

    /// Adds what the line of this number says.
    fn take_text(&mut self, alloc: A, line: usize, text: &'a str) -> Result<Step, AllocError>
        ensures { IfOk result (IsStep (words_by text.now) line self.old.names.keys self.old.routes.items self.new.names.keys self.new.routes.items) }
    {
        let words = words_of(alloc, text)?;
        self.take_line(alloc, line, &words)
    }
}

/// Adds the prefix of a route, or returns the rule that the route breaks after others of these prefixes.
fn take_route<'a, A: Allocator + Copy>(
    accounts: usize,
    prefixes: &mut Prefixes<'a, A>,
    route: &Route<'a>,
) -> Result<Option<WholeRule>, AllocError>
    ensures { IfOk result (λ fault. MatchOption fault
        ((is_way accounts (way_seen route.now) ≡ true)
        × (is_one_of (map (λ k. k.now) prefixes.old.keys) route.now.prefix.now ≡ false)
        × (map (λ k. k.now) prefixes.new.keys ≡ map (λ k. k.now) prefixes.old.keys ++ route.now.prefix.now ∷ []))
        (BreaksWhole accounts (map (λ k. k.now) prefixes.old.keys) route.now)) }
{
    if !is_address(route.prefix) {
        return Ok(Some(WholeRule::NoAddress));
    }
    if route.account >= accounts {
        return Ok(Some(WholeRule::NoAccount));
    }
    if !prefixes.insert(route.prefix)? {
        return Ok(Some(WholeRule::SamePrefix));
    }
    Ok(None)
}

/// The first of these routes that breaks a rule, in a table of `count` accounts.
fn routes_fault<A: Allocator + Copy>(
    alloc: A,
    accounts: usize,
    routes: &[PlacedRoute<'_>],
) -> Result<Option<WholeFault>, AllocError>
    ensures { IfOk result (λ r. MatchOption r
        (are_routes accounts (routes_of routes.now) ≡ true)
        (λ f. IsFirstRoute accounts routes.now f.line f.fault)) }
{
    let mut prefixes = Prefixes::with_hasher(alloc, BuildHasherDefault::<FoldHasher>::new());
    for index in 0..routes.len() {
        let it = &routes[index];
        let broken = take_route(accounts, &mut prefixes, &it.route)?;
        match broken {
            Some(fault) => {
                let line = it.line;
                return Ok(Some(WholeFault { line, fault }));
            }
            None => {}
        }
    }
    Ok(None)
}

/// The first of these lines that breaks a rule of the whole table.
fn lines_fault<A: Allocator + Copy>(
    alloc: A,
    lines: &[&str],
) -> Result<Option<WholeFault>, AllocError>
    ensures { IfOk result (λ r. MatchOption r
        (specs.AreGood (map (λ l. l.now) lines.now) → IsWhole (map (λ l. l.now) lines.now))
        (λ f. IsWholeFault (map (λ l. l.now) lines.now) f.line f.fault)) }
{
    let mut read = Lines::new(alloc);
    for index in 0..lines.len() {
        let line = index + 1;
        let step = read.take_text(alloc, line, lines[index])?;
        match step {
            Step::Added => {}
            Step::SameName => {
                let fault = WholeRule::SameName;
                return Ok(Some(WholeFault { line, fault }));
            }
            Step::Bad => return Ok(None),
        }
    }
    routes_fault(alloc, read.names.len(), &read.routes)
}

/// The first line of a table that breaks a rule of the whole table, and this rule, if no line is bad by itself: the account
/// whose name one before has; if there is none, the route whose PREFIX is not an ILP address, whose account is not there,
/// or whose PREFIX one before has. `None` if a hop can be made of the table, and also if `table_fault` finds a line.
/// Fails if memory is refused.
pub fn whole_fault<A: Allocator + Copy>(
    alloc: A,
    bytes: &[u8],
) -> Result<Option<WholeFault>, AllocError>
    ensures { IfOk result (λ r. MatchOption r (HasGoodLines bytes.now → IsWhole (lines bytes.now)) (λ f. IsWholeFault (lines bytes.now) f.line f.fault)) }
{
    let Some(text) = utf8(bytes) else {
        return Ok(None);
    };
    let lines: Vec<&str, A> = text.lines().collect(alloc)?;
    lines_fault(alloc, &lines)
}
