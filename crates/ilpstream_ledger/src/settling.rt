//! Payments outside Interledger, and adjustments.

ghost use Rattle.std.specs.Prelude.{◌≡◌, ◌≢◌, false, IsTrue, IfErr, IfOk, OnErr, OnOk};
ghost use Rattle.ilpstream_ledger.specs.Names.{amounts_of};
ghost use Rattle.ilpstream_ledger.specs.Placing.{IsLate};
ghost use Rattle.ilpstream_ledger.specs.Settling.{IsOnce, IsSettled, IsUnsettled, WhyNotOnce, WhyUnsettled};

use crate::error::LedgerError;
use crate::owed;
use sqlite_trees::store::Alter;
use st_hop_books::{Amounts, Books, BooksError, Entry, Kind, Payment};
use st_links::BalanceSide;

/// What was entered under a reference, now or before.
#[derive(Clone, Copy)]
pub struct Once {
    /// What the account owes and is owed then.
    pub amounts: Amounts,
    /// Whether it was entered before: nothing is changed then.
    pub repeated: bool,
}

/// Books a payment outside Interledger: takes it off what the account of this name owes, or off what it is owed, and keeps a
/// line of it with its moment, in milliseconds since 1970, or the last line's if that is later. Returns what it owes and is
/// owed then.
///
/// Fails with the books' `NoAccount` if they have no such name, with their `TooLittle` if less is owed, and with what else
/// they refuse. The books are then as before.
pub fn settle<S: Alter>(
    books: &mut Books<S>,
    name: &str,
    side: BalanceSide,
    amount: u64,
    moment: u64,
) -> Result<Amounts, LedgerError>
    ensures settled { OnOk result (IsSettled S.Store books.old name.now side amount moment books.new) }
    ensures told { IfOk result (λ amounts. amounts ≡ amounts_of books.new.names books.new.amounts name.now) }
    ensures unsettled { OnErr result (IsUnsettled S.Store books.old books.new) }
    ensures late { IfErr result IsLate }
    ensures why { IfErr result (WhyUnsettled S.Store books.old name.now side amount moment books.new) }
{
    let Some(at) = books.place_of(name) else {
        return Err(LedgerError::Books(BooksError::NoAccount));
    };
    let payment = Payment {
        account: at,
        kind: Kind::Paid,
        side,
        amount,
        moment,
    };
    books.pay(payment, "")?;
    Ok(owed::amounts_of(books, name))
}

/// Whether two entries are of one kind and one amount.
fn is_same(one: Entry, other: Entry) -> bool
    ensures yes { IsTrue result → one ≡ other }
    ensures no { result ≡ false → one ≢ other }
{
    one == other
}

/// Enters a payment or an adjustment under a reference, once however often it is asked for: as `settle` does, unless the books
/// have an entry of this account and side with this reference. Then nothing is changed.
///
/// Fails with `Reused` if that entry is of another amount, or of the other kind; otherwise as `settle`. The books are then as
/// before.
#[tactic(auto, using(crate::proofs::Repeats::place_within, crate::proofs::Repeats::reread_unsettled, crate::proofs::Repeats::refused_unsettled, crate::proofs::Repeats::once_before, crate::proofs::Repeats::once_now, crate::proofs::Repeats::why_unread, crate::proofs::Repeats::why_reused, crate::proofs::Repeats::why_unpaid))]
pub fn settle_once<S: Alter>(
    books: &mut Books<S>,
    name: &str,
    side: BalanceSide,
    entry: Entry,
    moment: u64,
    reference: &str,
) -> Result<Once, LedgerError>
    ensures once { IfOk result (λ r. IsOnce S.Store r.repeated books.old name.now side entry moment reference.now books.new) }
    ensures told { IfOk result (λ r. r.amounts ≡ amounts_of books.new.names books.new.amounts name.now) }
    ensures unsettled { OnErr result (IsUnsettled S.Store books.old books.new) }
    ensures late { IfErr result IsLate }
    ensures why { IfErr result (WhyNotOnce S.Store books.old name.now side entry moment reference.now books.new) }
{
    let at = match books.place_of(name) {
        Some(at) => at,
        None => return Err(LedgerError::Books(BooksError::NoAccount)),
    };
    match books.entered(at, side, reference) {
        Err(error) => return Err(LedgerError::Books(error)),
        Ok(Some(found)) => {
            if !is_same(found, entry) {
                return Err(LedgerError::Reused);
            }
            return Ok(Once {
                amounts: owed::amounts_of(books, name),
                repeated: true,
            });
        }
        Ok(None) => {}
    }
    let payment = Payment {
        account: at,
        kind: entry.kind,
        side,
        amount: entry.amount,
        moment,
    };
    match books.pay(payment, reference) {
        Err(error) => Err(LedgerError::Books(error)),
        Ok(()) => Ok(Once {
            amounts: owed::amounts_of(books, name),
            repeated: false,
        }),
    }
}
