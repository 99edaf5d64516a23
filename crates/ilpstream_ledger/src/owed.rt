//! What the accounts of a table owe and are owed by the books, and whether a connector can continue with it.

ghost use Rattle.std.specs.Prelude.{◌≡◌, ◌≢◌, ◌↔◌, ◌≤◌, ◌<◌, ◌+◌, ◌^◌, true, false, Some, slice_get, length, map, sum, IsTrue, IfOk, string_bytes};
ghost use Rattle.st_hop.specs.Books.{AreWithin};
ghost use Rattle.st_hop_books.specs.Sums.{nothing};
ghost use Rattle.ilpstream_ledger.specs.Names as by_name;
ghost use Rattle.ilpstream_ledger.specs.Names.{AreListed, HasUnlisted, IsNone, claims_of, dues_of};
ghost use Rattle.ilpstream_ledger.specs.Placing.{HasBelow};

use sqlite_trees::store::Alter;
use st_hop::Account;
use st_hop_books::{Amounts, Books};
use std::alloc::{AllocError, Global};

/// What accounts owe and are owed, in the order of a table.
#[derive(Drop)]
pub(crate) struct Owed {
    pub(crate) claims: Vec<u64>,
    pub(crate) dues: Vec<u64>,
}

/// What the account of this name owes and is owed: nothing if the books have none.
pub(crate) fn amounts_of<S: Alter>(books: &Books<S>, name: &str) -> Amounts
    ensures { result ≡ by_name.amounts_of books.now.names books.now.amounts name.now }
{
    match books.place_of(name) {
        Some(at) => books.amounts()[at],
        None => Amounts { claims: 0, dues: 0 },
    }
}

/// What the accounts of a table owe and are owed. Fails if memory is refused.
pub(crate) fn owed_by<S: Alter>(
    alloc: Global,
    books: &Books<S>,
    table: &[String],
) -> Result<Owed, AllocError>
    ensures claims { IfOk result (λ owed. owed.claims.items ≡ claims_of books.now.names books.now.amounts (map string_bytes table.now)) }
    ensures dues { IfOk result (λ owed. owed.dues.items ≡ dues_of books.now.names books.now.amounts (map string_bytes table.now)) }
{
    let mut claims = Vec::new(alloc);
    let mut dues = Vec::new(alloc);
    for name in table {
        let amounts = amounts_of(books, name.as_str());
        claims.push(amounts.claims)?;
        dues.push(amounts.dues)?;
    }
    Ok(Owed { claims, dues })
}

fn is_named(line: &String, name: &[u8]) -> bool
    ensures { IsTrue result ↔ (string_bytes line.now ≡ name.now) }
{
    line.as_str().as_bytes() == name
}

/// Whether one of the table's accounts has this name.
fn is_in(table: &[String], name: &[u8]) -> bool
    ensures yes { result ≡ true → (line : _) × (slice_get (map string_bytes table.now) line ≡ Some name.now) }
    ensures no { result ≡ false → IsNone (map string_bytes table.now) name.now }
{
    for line in 0..table.len() {
        if is_named(&table[line], name) {
            return true;
        }
    }
    false
}

fn is_owed(amounts: Amounts) -> bool
    ensures { IsTrue result ↔ (amounts ≢ nothing) }
{
    amounts.claims != 0 || amounts.dues != 0
}

/// Whether each account of the books at which something is owed is one of the table's.
pub(crate) fn are_listed<S: Alter>(books: &Books<S>, table: &[String]) -> bool
    ensures yes { result ≡ true → AreListed books.now.names books.now.amounts (map string_bytes table.now) }
    ensures no { result ≡ false → HasUnlisted books.now.names books.now.amounts (map string_bytes table.now) }
{
    let amounts = books.amounts();
    for at in 0..amounts.len() {
        let Some(name) = books.name(at) else {
            unreachable!();
        };
        if is_owed(amounts[at]) && !is_in(table, name) {
            return false;
        }
    }
    true
}

/// Whether a claim is no more than the limit above the due.
fn is_within(limit: u64, claim: u64, due: u64) -> bool
    ensures yes { result ≡ true → claim ≤ limit + due }
    ensures no { result ≡ false → limit + due < claim }
{
    u128::from(claim) <= u128::from(limit) + u128::from(due)
}

/// Whether no account owes more than its limit above what it is owed.
pub(crate) fn are_within(accounts: &[Account], owed: &Owed) -> bool
    requires claims { length owed.now.claims.items ≡ length accounts.now }
    requires dues { length owed.now.dues.items ≡ length accounts.now }
    ensures yes { result ≡ true → AreWithin accounts.now owed.now.claims.items owed.now.dues.items }
    ensures no { result ≡ false → HasBelow accounts.now owed.now.claims.items owed.now.dues.items }
{
    for at in 0..accounts.len() {
        if !is_within(accounts[at].limit, owed.claims[at], owed.dues[at]) {
            return false;
        }
    }
    true
}

/// Whether the sum of amounts is less than 2^63.
pub(crate) fn is_countable(amounts: &[u64]) -> bool
    ensures yes { result ≡ true → sum amounts.now < 2 ^ 63 }
    ensures no { result ≡ false → 2 ^ 63 ≤ sum amounts.now }
{
    let mut total: u64 = 0;
    for amount in amounts {
        if *amount > i64::MAX as u64 - total {
            return false;
        }
        total += *amount;
    }
    true
}
