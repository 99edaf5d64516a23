//! Sums of an account, and what a payment or an adjustment makes of them.

ghost use Rattle.std.specs.Prelude.{◌≡◌, ◌⊎◌, ◌+◌, ◌^◌, ◌<◌, ◌≤◌, None, IfErr, IfOk, IfSome, OnOk};
ghost use Rattle.st_hop_books.specs.Payments.{on_side, less, more, changed, Covers, FallsShort};
ghost use Rattle.st_hop_books.specs.Sums.{IsAbove};
ghost use Rattle.st_hop_books.specs.declared.error.BooksError.TheVariants.{TooLittle, TooMuch};

use crate::error::BooksError;
use st_links::BalanceSide;

/// What is owed between a connector and an account, in units.
#[derive(Clone, Copy, Debug, PartialEq, Eq)]
pub struct Amounts {
    /// What the account owes.
    pub claims: u64,
    /// What it is owed.
    pub dues: u64,
}

/// What a manual entry does to a sum.
#[derive(Clone, Copy, Debug, PartialEq, Eq)]
pub enum Kind {
    /// A payment outside Interledger: its amount is taken off.
    Paid,
    /// What both sides agreed on, as after a restored backup: its amount is added.
    Adjusted,
}

/// A payment outside Interledger, or an adjustment.
#[derive(Clone, Copy, Debug, PartialEq, Eq)]
pub struct Payment {
    /// The place of the account.
    pub account: usize,
    /// Whether its amount is taken off or added.
    pub kind: Kind,
    /// The sum that it changes.
    pub side: BalanceSide,
    /// In units.
    pub amount: u64,
    /// When it was booked, in milliseconds since 1970.
    pub moment: u64,
}

/// What was entered under a reference.
#[derive(Clone, Copy, Debug, PartialEq, Eq)]
pub struct Entry {
    /// Whether the amount was taken off or added.
    pub kind: Kind,
    /// In units.
    pub amount: u64,
}

/// What is known of the payments and the fulfillments.
#[derive(Clone, Copy)]
pub(crate) struct Tally {
    /// How many payments there are.
    pub(crate) lines: u64,
    /// The moment of the last one, in milliseconds since 1970; 0 if there is none.
    pub(crate) latest: u64,
    /// The id of the last fulfillment; 0 if there is none.
    pub(crate) filed: u64,
}

/// What a payment leaves of an account's amounts, if they cover it.
fn take_off(amounts: Amounts, side: BalanceSide, amount: u64) -> Option<Amounts>
    ensures left { IfSome result (λ a. a ≡ less side amount amounts) }
    ensures covered { IfSome result (λ a. amount ≤ on_side side amounts) }
    ensures short { result ≡ None → on_side side amounts < amount }
{
    let Amounts { claims, dues } = amounts;
    match side {
        BalanceSide::Claims => {
            let Some(claims) = claims.checked_sub(amount) else {
                return None;
            };
            Some(Amounts { claims, dues })
        }
        BalanceSide::Dues => {
            let Some(dues) = dues.checked_sub(amount) else {
                return None;
            };
            Some(Amounts { claims, dues })
        }
    }
}

/// What an adjustment makes of an account's amounts, if they can be counted.
fn add_on(amounts: Amounts, side: BalanceSide, amount: u64) -> Option<Amounts>
    ensures more { IfSome result (λ a. a ≡ more side amount amounts) }
    ensures above { result ≡ None → IsAbove (more side amount amounts) }
{
    let Amounts { claims, dues } = amounts;
    match side {
        BalanceSide::Claims => {
            let Some(claims) = claims.checked_add(amount) else {
                return None;
            };
            Some(Amounts { claims, dues })
        }
        BalanceSide::Dues => {
            let Some(dues) = dues.checked_add(amount) else {
                return None;
            };
            Some(Amounts { claims, dues })
        }
    }
}

/// What a payment or an adjustment makes of an account's amounts.
pub(crate) fn change(
    amounts: Amounts,
    kind: Kind,
    side: BalanceSide,
    amount: u64,
) -> Result<Amounts, BooksError>
    ensures changed { IfOk result (λ a. a ≡ changed kind side amount amounts) }
    ensures covered { OnOk result (Covers kind side amount amounts) }
    ensures cause { IfErr result (λ e. ((e ≡ TooLittle) × FallsShort kind side amount amounts) ⊎ ((e ≡ TooMuch) × IsAbove (changed kind side amount amounts))) }
{
    match kind {
        Kind::Paid => match take_off(amounts, side, amount) {
            Some(left) => Ok(left),
            None => Err(BooksError::TooLittle),
        },
        Kind::Adjusted => match add_on(amounts, side, amount) {
            Some(more) => Ok(more),
            None => Err(BooksError::TooMuch),
        },
    }
}
