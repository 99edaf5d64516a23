//! The totals of a hop's accounts.

ghost use Rattle.std.specs.Prelude.{◌≡◌, ◌<◌, length, replicate, IfOk, vec_len};
ghost use Rattle.ilpstream_connector.specs.Accounts.{AreTotalsOf, no_totals, totals_at};

use st_hop::HopState;
use std::alloc::{AllocError, Global};

/// What is owed between a hop and one of its accounts, and what is reserved against that account, in units.
#[derive(Clone, Copy)]
pub struct AccountTotals {
    /// What the account owes the hop, in units.
    pub claims: u64,
    /// What the hop owes the account, in units.
    pub dues: u64,
    /// The sum of the amounts of the account's Prepares that wait for their answer, in units.
    pub held: u64,
}

/// Places for the totals of `count` accounts, all 0.
pub(crate) fn places(alloc: Global, count: usize) -> Result<Vec<AccountTotals>, AllocError>
    ensures many { IfOk result (λ places. vec_len places ≡ count) }
    ensures zero { IfOk result (λ places. places.items ≡ replicate count no_totals) }
{
    let nothing = AccountTotals {
        claims: 0,
        dues: 0,
        held: 0,
    };
    Vec::from_elem(alloc, nothing, count)
}

/// The totals of an account; zeros for an account that the hop does not have.
fn totals_of(hop: &HopState<Global>, account: usize) -> AccountTotals
    ensures { account < length hop.now.accounts → result ≡ totals_at hop.now account }
{
    AccountTotals {
        claims: hop.claims(account).unwrap_or(0),
        dues: hop.dues(account).unwrap_or(0),
        held: hop.held(account).unwrap_or(0),
    }
}

/// Writes the totals of each account of a hop to its place.
pub(crate) fn note(hop: &HopState<Global>, accounts: &mut [AccountTotals])
    ensures { AreTotalsOf hop.now accounts.new }
{
    for account in 0..accounts.len() {
        accounts[account] = totals_of(hop, account);
    }
}
