//! How books are printed.

ghost use Rattle.std.specs.Prelude.{◌≡◌, IfOk, string_bytes};
ghost use Rattle.ilpstream_ledger.specs.Texts as texts;

use sqlite_trees::store::Alter;
use st_hop_books::{Amounts, Books};
use std::alloc::{AllocError, Global};

/// The line of an account: `account alice claims 500 dues 0`. Fails if memory is refused.
#[tactic(auto, using(crate::proofs::Pieces::pieces))]
pub fn account_text(alloc: Global, name: &[u8], amounts: Amounts) -> Result<Vec<u8>, AllocError>
    ensures { IfOk result (λ line. line.items ≡ texts.account_text name.now amounts) }
{
    let Amounts { claims, dues } = amounts;
    let mut line = Vec::from_slice(alloc, "account ".as_bytes())?;
    line.extend_from_slice(name)?;
    let sums = format!(in alloc; " claims {claims} dues {dues}\n")?;
    line.extend_from_slice(sums.as_bytes())?;
    Ok(line)
}

/// The line of an account without its newline. Fails if memory is refused.
#[tactic(auto, using(crate::proofs::Pieces::pieces))]
fn sums_text(alloc: Global, name: &[u8], amounts: Amounts) -> Result<Vec<u8>, AllocError>
    ensures { IfOk result (λ line. line.items ≡ texts.sums_text name.now amounts) }
{
    let Amounts { claims, dues } = amounts;
    let mut line = Vec::from_slice(alloc, "account ".as_bytes())?;
    line.extend_from_slice(name)?;
    let sums = format!(in alloc; " claims {claims} dues {dues}")?;
    line.extend_from_slice(sums.as_bytes())?;
    Ok(line)
}

/// The line of an account whose entry was booked before: `account alice claims 500 dues 0 booked before`. Fails if memory is
/// refused.
#[tactic(auto, using(crate::proofs::Pieces::pieces))]
pub fn repeated_text(alloc: Global, name: &[u8], amounts: Amounts) -> Result<Vec<u8>, AllocError>
    ensures { IfOk result (λ line. line.items ≡ texts.repeated_text name.now amounts) }
{
    let mut line = sums_text(alloc, name, amounts)?;
    line.extend_from_slice(b" booked before\n")?;
    Ok(line)
}

/// A line for each account, in the order of the books.
fn accounts_text<S: Alter>(alloc: Global, books: &Books<S>) -> Result<Vec<u8>, AllocError>
    ensures { IfOk result (λ text. text.items ≡ texts.accounts_text books.now.names books.now.amounts) }
{
    let mut text = Vec::new(alloc);
    let amounts = books.amounts();
    for at in 0..amounts.len() {
        let Some(name) = books.name(at) else {
            unreachable!();
        };
        let line = account_text(alloc, name, amounts[at])?;
        text.extend_from_slice(line.as_slice())?;
    }
    Ok(text)
}

/// The line of the starts.
#[tactic(auto, using(crate::proofs::Pieces::pieces))]
fn starts_text(alloc: Global, starts: u64) -> Result<String, AllocError>
    ensures { IfOk result (λ text. string_bytes text ≡ texts.starts_text starts) }
{
    format!(in alloc; "starts {starts}\n")
}

/// A line for each account, and one for the starts, as `ilpstream ledger` prints them. Fails if memory is refused.
pub fn ledger_text<S: Alter>(alloc: Global, books: &Books<S>) -> Result<Vec<u8>, AllocError>
    ensures { IfOk result (λ text. text.items ≡ texts.ledger_text books.now.starts books.now.names books.now.amounts) }
{
    let mut text = accounts_text(alloc, books)?;
    let starts = starts_text(alloc, books.starts())?;
    text.extend_from_slice(starts.as_bytes())?;
    Ok(text)
}
