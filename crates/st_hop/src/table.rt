//! Checks of the table of accounts and routes that a hop is made of.

ghost use Rattle.std.specs.Prelude.{◌≡◌, true, map, IfOk, OnOk, string_bytes};
ghost use Rattle.std.specs.List.{list_all, list_any};
ghost use Rattle.st_hop.specs.Table.{are_parts, is_table, is_distinct, is_account, is_way, has_prefix, RefusesBadTable};
ghost use Rattle.st_hop.specs.Seen.{way_seen};
ghost use Rattle.st_oer.specs.Address.{is_address};
ghost use Rattle.st_hop.specs.Refusals.{t00_text};

use crate::account::Account;
use crate::error::HopError;
use crate::refusal::Refusal;
use crate::room::reject;
use crate::route::{Route, Routes};
use st_oer::is_address;
use std::alloc::{AllocError, Allocator};

/// The greatest limit of an account, and the greatest sum of claims, reserved amounts or dues.
pub(crate) const MAX_SUM: u64 = (1 << 63) - 1;

/// Whether one of the routes has this prefix.
fn has_prefix(prefix: &str, routes: &[Route<'_>]) -> bool
    ensures { result ≡ list_any (has_prefix prefix.now) (map way_seen routes.now) }
{
    for route in routes {
        if prefix == route.prefix {
            return true;
        }
    }
    false
}

/// Whether no prefix is given twice.
fn is_distinct(routes: &[Route<'_>]) -> bool
    ensures { result ≡ is_distinct (map way_seen routes.now) }
{
    for (i, route) in routes.iter().enumerate() {
        if has_prefix(route.prefix, &routes[i + 1..]) {
            return false;
        }
    }
    true
}

/// Whether each prefix is an ILP address, and each account exists.
fn are_ways(accounts: usize, routes: &[Route<'_>]) -> bool
    ensures { result ≡ list_all (is_way accounts) (map way_seen routes.now) }
{
    for route in routes {
        if !is_address(route.prefix) || route.account >= accounts {
            return false;
        }
    }
    true
}

/// Whether no account's limit is too high.
fn are_accounts(accounts: &[Account]) -> bool
    ensures { result ≡ list_all is_account accounts.now }
{
    accounts.iter().all(|account| account.limit <= MAX_SUM)
}

/// Whether a hop can be made of these, apart from prefixes that are given twice.
fn are_parts(own: &str, accounts: &[Account], routes: &[Route<'_>]) -> bool
    ensures { result ≡ are_parts own.now accounts.now (map way_seen routes.now) }
{
    is_address(own) && are_accounts(accounts) && are_ways(accounts.len(), routes)
}

/// The routes of a table of which a hop can be made.
///
/// Prefixes are compared with each other only if memory for them was refused.
pub(crate) fn routes_of<A: Allocator + Copy>(
    alloc: A,
    own: &str,
    accounts: &[Account],
    routes: &[Route<'_>],
) -> Result<Routes<A>, HopError>
    ensures kept { IfOk result (λ kept. kept ≡ map way_seen routes.now) }
    ensures lawful { OnOk result (is_table own.now accounts.now (map way_seen routes.now) ≡ true) }
    ensures refused { RefusesBadTable (is_table own.now accounts.now (map way_seen routes.now)) result }
{
    if !are_parts(own, accounts, routes) {
        return Err(HopError::BadTable);
    }
    match Routes::new(alloc, routes) {
        Ok(Some(kept)) => Ok(kept),
        Ok(None) => Err(HopError::BadTable),
        Err(AllocError) => {
            if is_distinct(routes) {
                Err(HopError::NoMemory)
            } else {
                Err(HopError::BadTable)
            }
        }
    }
}

/// What a hop keeps of its table, and the Reject that it sends if memory is refused.
pub(crate) struct TableParts<A: Allocator + Copy> {
    own: String<A>,
    accounts: Vec<Account, A>,
    routes: Routes<A>,
    t00: Vec<u8, A>,
}

// It is written out, so that a caller does not prove again how each part is dropped.
impl<A: Allocator + Copy> Drop for TableParts<A> {
    fn drop(self) {
        let TableParts {
            own: _,
            accounts: _,
            routes: _,
            t00: _,
        } = self;
    }
}

impl<A: Allocator + Copy> TableParts<A> {
    /// Copies the address and the accounts.
    pub(crate) fn new(
        alloc: A,
        own: &str,
        accounts: &[Account],
        routes: Routes<A>,
    ) -> Result<TableParts<A>, AllocError>
        requires { is_address own.now ≡ true }
        ensures own { IfOk result (λ t. string_bytes t.own ≡ own.now) }
        ensures accounts { IfOk result (λ t. t.accounts.items ≡ accounts.now) }
        ensures routes { IfOk result (λ t. t.routes ≡ routes) }
        ensures t00 { IfOk result (λ t. t.t00.items ≡ t00_text own.now) }
    {
        Ok(TableParts {
            own: String::from_str(alloc, own)?,
            accounts: Vec::from_slice(alloc, accounts)?,
            routes,
            t00: reject(alloc, own, Refusal::InternalError)?,
        })
    }

    /// The address, the accounts, the routes and the Reject.
    pub(crate) fn take(self) -> (String<A>, Vec<Account, A>, Routes<A>, Vec<u8, A>)
        ensures own { string_bytes result.0 ≡ string_bytes self.own }
        ensures accounts { result.1.items ≡ self.accounts.items }
        ensures routes { result.2 ≡ self.routes }
        ensures t00 { result.3.items ≡ self.t00.items }
    {
        let TableParts {
            own,
            accounts,
            routes,
            t00,
        } = self;
        (own, accounts, routes, t00)
    }
}
