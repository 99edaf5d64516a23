//! How a connector is started with books and a table.

ghost use Rattle.std.specs.Prelude.{◌≡◌, ◌<◌, ◌+◌, ◌*◌, ◌^◌, Some, length, map, slice_get, IfErr, IfOk, OnOk, string_bytes};
ghost use Rattle.sqlite_trees.specs.View.{IsClean};
ghost use Rattle.st_hop.specs.Books.{AreBooks};
ghost use Rattle.st_hop_books.specs.Standing.{LeavesOnly, sums_of};
ghost use Rattle.ilpstream_ledger.specs.Names.{AreListed, claims_of, dues_of};
ghost use Rattle.ilpstream_ledger.specs.Placed.{ArePlaces};
ghost use Rattle.ilpstream_ledger.specs.Placing.{Grows, IsByTable, IsLate, IsOfDisk, IsOfStep, WhyNotPlaced, first_of, most_starts};

use crate::error::LedgerError;
use crate::owed::{Owed, are_listed, are_within, is_countable, owed_by};
use sqlite_trees::store::Alter;
use st_hop::Account;
use st_hop_books::{Books, BooksError};
use std::alloc::Global;

/// How many starts books can have: 2^20 - 1.
const MOST_STARTS: u64 = (1 << 20) - 1;

/// How many tickets a life can number: 2^44.
const TICKETS: u64 = 1 << 44;

/// What a connector continues with that is started with books. The lists are in the order of its table.
#[derive(Drop)]
pub struct Life {
    /// The place in the books of each account.
    pub places: Vec<usize>,
    /// What each account owes.
    pub claims: Vec<u64>,
    /// What each account is owed.
    pub dues: Vec<u64>,
    /// The number of its first ticket. No earlier life has given out this number or a higher one.
    pub first: u64,
}

/// Compares the books with a table, and gives what its accounts owe and are owed.
fn compare<S: Alter>(
    alloc: Global,
    books: &Books<S>,
    table: &[String],
    accounts: &[Account],
) -> Result<Owed, LedgerError>
    requires { length table.now ≡ length accounts.now }
    ensures claims { IfOk result (λ owed. owed.claims.items ≡ claims_of books.now.names books.now.amounts (map string_bytes table.now)) }
    ensures dues { IfOk result (λ owed. owed.dues.items ≡ dues_of books.now.names books.now.amounts (map string_bytes table.now)) }
    ensures fit { IfOk result (λ owed. AreBooks accounts.now owed.claims.items owed.dues.items) }
    ensures listed { OnOk result (AreListed books.now.names books.now.amounts (map string_bytes table.now)) }
    ensures room { OnOk result (books.now.starts < most_starts) }
    ensures refused { IfErr result (WhyNotPlaced books.now (map string_bytes table.now) accounts.now) }
{
    if !are_listed(books, table) {
        return Err(LedgerError::Unlisted);
    }
    let owed = owed_by(alloc, books, table)?;
    if !are_within(accounts, &owed) {
        return Err(LedgerError::BelowOwed);
    }
    if !is_countable(&owed.claims) || !is_countable(&owed.dues) || books.starts() >= MOST_STARTS {
        return Err(LedgerError::Books(BooksError::TooMuch));
    }
    Ok(owed)
}

/// The place of the account of this name, which is added if the books lack it.
fn place_or_add<S: Alter>(books: &mut Books<S>, name: &str) -> Result<usize, BooksError>
    ensures placed { IfOk result (λ at. slice_get books.new.names at ≡ Some name.now) }
    ensures grows { Grows books.old books.new }
    ensures starts { books.new.starts ≡ books.old.starts }
    ensures cause { IfErr result (λ e. IsClean (S.Store.view books.new.store) → IsOfDisk e) }
{
    match books.place_of(name) {
        Some(at) => Ok(at),
        None => books.add(name),
    }
}

/// The places of a table's accounts. Those that the books lack are added.
fn place_all<S: Alter>(
    alloc: Global,
    books: &mut Books<S>,
    table: &[String],
) -> Result<Vec<usize>, LedgerError>
    ensures placed { IfOk result (λ places. ArePlaces books.new.names (map string_bytes table.now) places.items) }
    ensures grows { Grows books.old books.new }
    ensures starts { books.new.starts ≡ books.old.starts }
    ensures cause { IfErr result (λ e. IsClean (S.Store.view books.new.store) → IsOfStep e) }
    ensures late { IfErr result IsLate }
{
    let mut places = Vec::new(alloc);
    for name in table {
        places.push(place_or_add(books, name.as_str())?)?;
    }
    Ok(places)
}

/// Counts a start, and gives the number of its first ticket.
fn begin<S: Alter>(books: &mut Books<S>) -> Result<u64, LedgerError>
    requires { books.old.starts < most_starts }
    ensures first { IfOk result (λ first. first ≡ first_of books.new.starts) }
    ensures begun { OnOk result (books.new.starts ≡ books.old.starts + 1) }
    ensures durable { OnOk result (IsClean (S.Store.view books.new.store) → LeavesOnly S.Store books.new.store (sums_of S.Store books.new)) }
    ensures names { books.new.names ≡ books.old.names }
    ensures amounts { books.new.amounts ≡ books.old.amounts }
    ensures cause { IfErr result (λ e. IsClean (S.Store.view books.new.store) → IsOfStep e) }
    ensures late { IfErr result IsLate }
{
    let starts = books.begin_life()?;
    Ok(starts * TICKETS)
}

/// Begins a connector's life with books and a table: the names of the table's accounts and their limits. Accounts are known
/// by their names, so the order of the lines may change. Names that the books lack are added, and the start is counted. At
/// `Ok` all of it is on the disk.
///
/// Before anything is written it refuses with `Unlisted` if the table lacks an account of the books at which something is
/// owed, with `BelowOwed` if an account owes more than its limit above what it is owed, and with the books' `TooMuch` if all
/// claims or all dues come to 2^63 or more, or 2^20 - 1 starts are counted. It fails with what the books refuse, and with
/// `NoMemory`.
pub fn place<S: Alter>(
    alloc: Global,
    books: &mut Books<S>,
    table: &[String],
    accounts: &[Account],
) -> Result<Life, LedgerError>
    requires { length table.now ≡ length accounts.now }
    ensures placed { IfOk result (λ life. ArePlaces books.new.names (map string_bytes table.now) life.places.items) }
    ensures claims { IfOk result (λ life. life.claims.items ≡ claims_of books.old.names books.old.amounts (map string_bytes table.now)) }
    ensures dues { IfOk result (λ life. life.dues.items ≡ dues_of books.old.names books.old.amounts (map string_bytes table.now)) }
    ensures fit { IfOk result (λ life. AreBooks accounts.now life.claims.items life.dues.items) }
    ensures listed { OnOk result (AreListed books.old.names books.old.amounts (map string_bytes table.now)) }
    ensures first { IfOk result (λ life. life.first ≡ first_of books.new.starts) }
    ensures begun { OnOk result (books.new.starts ≡ books.old.starts + 1) }
    ensures durable { OnOk result (IsClean (S.Store.view books.new.store) → LeavesOnly S.Store books.new.store (sums_of S.Store books.new)) }
    ensures grows { Grows books.old books.new }
    ensures refused { IfErr result (λ e. IsClean (S.Store.view books.new.store) → WhyNotPlaced books.old (map string_bytes table.now) accounts.now e) }
    ensures untouched { IfErr result (λ e. IsByTable e → books.new ≡ books.old) }
{
    let owed = compare(alloc, books, table, accounts)?;
    let places = place_all(alloc, books, table)?;
    let first = begin(books)?;
    let Owed { claims, dues } = owed;
    Ok(Life {
        places,
        claims,
        dues,
        first,
    })
}
