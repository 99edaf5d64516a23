//! A connector's table: its accounts and its routes.

ghost use Rattle.std.specs.Prelude.{◌≡◌, ◌≢◌, [], IfErr, IfOk, OnOk, map, string_bytes};
ghost use Rattle.std.specs.Str.Lines.{lines};
ghost use Rattle.ilpstream_settings.specs.declared.error.TableError.TheVariants.{BadLine, SameName};
ghost use Rattle.ilpstream_settings.specs.Table.{AreDistinct, HasBad, HasSameName, IsBad, Says, Takes};
ghost use Rattle.ilpstream_settings.specs.Table as specs;

use crate::error::TableError;
use crate::line::{AccountLine, account_of, route_of, words_of};
use crate::names::{are_distinct, names_of};
use st_hop::{Account, Route};
use std::alloc::{AllocError, Allocator};

/// The accounts of a connector, numbered from 0, and its routes, both in the order of their lines.
#[derive(Drop)]
pub struct Table<'a, A: Allocator + Copy> {
    /// The accounts. A route names one by its place in this list.
    pub accounts: Vec<AccountLine<'a>, A>,
    /// The routes: each sends the addresses within a prefix to an account, at a rate.
    pub routes: Vec<Route<'a>, A>,
}

impl<'a, A: Allocator + Copy> Table<'a, A> {
    fn new(alloc: A) -> Table<'a, A>
        ensures { (result.accounts.items ≡ []) × (result.routes.items ≡ []) }
    {
        Table {
            accounts: Vec::new(alloc),
            routes: Vec::new(alloc),
        }
    }

    /// The limits of each account, as a hop needs them. Fails if memory is refused.
    pub fn terms(&self, alloc: A) -> Result<Vec<Account, A>, AllocError>
        ensures { IfOk result (λ terms. terms.items ≡ map (λ x. x.terms) self.now.accounts.items) }
    {
        self.accounts
            .iter()
            .map(|account| account.terms)
            .collect(alloc)
    }

    /// The bearer token of each account, as a server needs them. Fails if memory is refused.
    pub fn tokens(&self, alloc: A) -> Result<Vec<&'a str, A>, AllocError>
        ensures { IfOk result (λ tokens. tokens.items ≡ map (λ x. x.token) self.now.accounts.items) }
    {
        self.accounts
            .iter()
            .map(|account| account.token)
            .collect(alloc)
    }

    /// The name of each account: that of its line, or its number in decimal digits if the line has none. Fails if
    /// memory is refused.
    pub fn names(&self, alloc: A) -> Result<Vec<String<A>, A>, AllocError>
        ensures { IfOk result (λ names. map string_bytes names.items ≡ specs.names_of self.now.accounts.items) }
    {
        names_of(alloc, &self.accounts)
    }

    /// Adds what a line says, which is given as the texts between its spaces.
    fn take_line(&mut self, words: &[&'a str]) -> Result<(), TableError>
        ensures taken { OnOk result (Takes (map (λ w. w.now) words.now)
            self.old.accounts.items self.old.routes.items self.new.accounts.items self.new.routes.items) }
        ensures bad { IfErr result (λ e. e ≡ BadLine → IsBad (map (λ w. w.now) words.now)) }
        ensures other { IfErr result (λ e. e ≢ SameName) }
    {
        let [kind, rest @ ..] = words else {
            return Ok(());
        };
        if *kind == "account" {
            let Some(account) = account_of(rest) else {
                return Err(TableError::BadLine);
            };
            self.accounts.push(account)?;
        } else if *kind == "route" {
            let Some(route) = route_of(rest) else {
                return Err(TableError::BadLine);
            };
            if self.routes.push(route).is_err() {
                return Err(TableError::NoMemory);
            }
        } else {
            return Err(TableError::BadLine);
        }
        Ok(())
    }
}

/// Reads a table, line by line. An account is `account LIMIT MAX TOKEN HOST:PORT TOKEN`, with `- -` in place of the last
/// two if nothing is sent to it, and with `NAME=` and its name in front of LIMIT if it has one. A route is
/// `route PREFIX ACCOUNT`, with `NUM DEN` after it for a rate other than 1 to 1. The parts of a line are separated by
/// spaces; empty lines are skipped.
///
/// Fails with `BadLine` if a line is neither, with `SameName` if two accounts have one name, and with `NoMemory` if
/// memory is refused.
pub fn read_table<'a, A: Allocator + Copy>(
    alloc: A,
    text: &'a str,
) -> Result<Table<'a, A>, TableError>
    ensures said { IfOk result (λ table. Says (lines text.now) table.accounts.items table.routes.items) }
    ensures distinct { IfOk result (λ table. AreDistinct (specs.names_of table.accounts.items)) }
    ensures bad { IfErr result (λ e. e ≡ BadLine → HasBad text.now) }
    ensures same { IfErr result (λ e. e ≡ SameName → HasSameName text.now) }
{
    let lines: Vec<&'a str, A> = text.lines().collect(alloc)?;
    let mut table = Table::new(alloc);
    for line in &lines {
        let words = words_of(alloc, line)?;
        table.take_line(&words)?;
    }
    let names = table.names(alloc)?;
    if !are_distinct(alloc, &names)? {
        return Err(TableError::SameName);
    }
    Ok(table)
}
