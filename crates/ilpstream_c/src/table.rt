//! The table of a hop, as a host gives it.

ghost use Rattle.std.specs.Prelude.{◌≡◌, ◌&&◌, true, false, map, IfOk, MatchOption, MatchResult};
ghost use Rattle.st_oer.specs.Address.{is_address};
ghost use Rattle.st_hop.specs.Seen.{way_seen};
ghost use Rattle.ilpstream_c.specs.Hops.{account_of, way_of, ways_of, is_rate, are_routes, IsRefusedUnless, IsTableOf};

use crate::arguments::address;
use host_objects::ARGUMENT;
use st_hop::{Account, HopError, Route};
use st_oer::Rate;
use std::alloc::{AllocError, Global};

/// A neighbour's terms, in units of its link.
#[repr(C)]
#[derive(Clone, Copy, Debug, Drop)]
pub struct HostAccount {
    /// The most that it may owe, less what the hop owes it: at most 2^63 - 1.
    pub limit: u64,
    /// The greatest amount of one Prepare from it.
    pub max_packet: u64,
}

/// A route: Prepares for addresses within a prefix are forwarded to an account, with the amount times `num / den`.
#[repr(C)]
#[derive(Clone, Copy, Debug, Drop)]
pub struct HostRoute {
    /// The number of bytes of its prefix, which follows the others in the text of all prefixes.
    pub prefix_len: usize,
    /// The index of the account.
    pub account: usize,
    /// Not 0.
    pub num: u32,
    /// Not 0.
    pub den: u32,
}

/// The accounts, for st_hop.
fn accounts_of(alloc: Global, accounts: &[HostAccount]) -> Result<Vec<Account>, AllocError>
    ensures { IfOk result (λ kept. kept.items ≡ map account_of accounts.now) }
{
    let mut kept = Vec::new(alloc);
    for account in accounts {
        kept.push(Account {
            limit: account.limit,
            max_packet: account.max_packet,
        })?;
    }
    Ok(kept)
}

/// A route with this prefix, for st_hop. `None` exactly if its rate has a 0.
fn route_of<'t>(prefix: &'t str, route: &HostRoute) -> Option<Route<'t>>
    ensures { MatchOption result (is_rate route.now ≡ false) (λ r. (is_rate route.now ≡ true) × (way_seen r ≡ way_of prefix.now route.now)) }
{
    let rate = Rate::new(route.num, route.den)?;
    Some(Route {
        prefix,
        account: route.account,
        rate,
    })
}

/// The routes, for st_hop, whose prefixes follow each other in a text. Fails with `ARGUMENT` if the text is not that of
/// the prefixes, one of them is not an ILP address, or a rate has a 0; and with 35 if memory is refused.
fn routes_of<'t>(alloc: Global, text: &'t [u8], routes: &[HostRoute]) -> Result<Vec<Route<'t>>, u32>
    ensures { MatchResult result (λ kept. (are_routes text.now routes.now ≡ true) × (map way_seen kept.items ≡ ways_of text.now routes.now))
        (λ code. IsRefusedUnless (are_routes text.now routes.now) code) }
{
    let mut kept = Vec::new(alloc);
    let mut rest = text;
    for route in routes {
        if rest.len() < route.prefix_len {
            return Err(ARGUMENT);
        }
        let (prefix, behind) = rest.split_at(route.prefix_len);
        let Some(prefix) = address(prefix) else {
            return Err(ARGUMENT);
        };
        let Some(route) = route_of(prefix, route) else {
            return Err(ARGUMENT);
        };
        if kept.push(route).is_err() {
            return Err(u32::from(HopError::NoMemory.number()));
        }
        rest = behind;
    }
    if rest.is_empty() {
        Ok(kept)
    } else {
        Err(ARGUMENT)
    }
}

/// A table, for st_hop.
#[derive(Drop)]
pub(crate) struct Table<'t> {
    pub(crate) own: &'t str,
    pub(crate) accounts: Vec<Account>,
    pub(crate) routes: Vec<Route<'t>>,
}

/// The table, for st_hop. Fails with `ARGUMENT` if the address is not valid, or as `routes_of` does; and with 35 if memory
/// is refused.
pub(crate) fn table_of<'t>(
    alloc: Global,
    own: &'t [u8],
    accounts: &[HostAccount],
    text: &'t [u8],
    routes: &[HostRoute],
) -> Result<Table<'t>, u32>
    ensures { MatchResult result (λ t. IsTableOf own.now accounts.now text.now routes.now t)
        (λ code. IsRefusedUnless (is_address own.now && are_routes text.now routes.now) code) }
{
    let Some(own) = address(own) else {
        return Err(ARGUMENT);
    };
    let routes = routes_of(alloc, text, routes)?;
    let Ok(accounts) = accounts_of(alloc, accounts) else {
        return Err(u32::from(HopError::NoMemory.number()));
    };
    Ok(Table {
        own,
        accounts,
        routes,
    })
}
