//! A payment outside Interledger or an adjustment, in the two tables of a store.

ghost use Rattle.std.specs.Prelude.{◌≡◌, ◌≢◌, ◌⊎◌, ◌+◌, ◌++◌, ◌^◌, ◌<◌, ◌≤◌, max, pos, length, List, slice_get, Some, IsTrue, IsOk, IfErr, IfOk, IfSome, OnOk, OnErr};
ghost use Rattle.sqlite_value.specs.Order.{Row as Values};
ghost use Rattle.sqlite_trees.specs.View.{IsClean, IsQuiet, OnlyWrites};
ghost use Rattle.sqlite_trees.specs.declared.store.Shape.TheVariants as shapes;
ghost use Rattle.st_hop_books.specs.declared.error.BooksError.TheVariants.{NoMemory, TooMuch};
ghost use Rattle.st_hop_books.specs.Payments.{sign_text, side_text, entry_text, paid_off, IsCovered, IsEntryText, IsUncountable};
ghost use Rattle.st_hop_books.specs.Trail.{next_line, next_tally, with_entry};
ghost use Rattle.st_hop_books.specs.Table.{payment_tree};
ghost use Rattle.st_hop_books.specs.Standing.{AddsEntry, Holds, Keeps, PutsRow, RecoversTo, trail_in};
ghost use Rattle.st_hop_books.specs.Reasons.{FailsOnlyFor, row_excuses};
ghost use Rattle.st_hop_books.specs.Commits.{payment_excuses};

use crate::balance::{Amounts, Kind, Payment, Tally, change};
use crate::error::BooksError;
use crate::table::{conclude, counted, set_line};
use sqlite_trees::store::Alter;
use sqlite_value::row::Row;
use sqlite_value::value::{Bytes, ValueRef};
use st_links::BalanceSide;
use std::alloc::{AllocError, Global};

/// The word of a side in the second table.
fn word_of(side: BalanceSide) -> &'static [u8]
    ensures { result.now ≡ side_text side }
{
    match side {
        BalanceSide::Claims => b"claims",
        BalanceSide::Dues => b"dues",
    }
}

/// The text in front of the word of a side.
fn sign_of(kind: Kind) -> &'static [u8]
    ensures { result.now ≡ sign_text kind }
{
    match kind {
        Kind::Paid => b"",
        Kind::Adjusted => b"+",
    }
}

/// The text of an entry of the second table, whose reference may be empty.
pub(crate) fn text_of(
    alloc: Global,
    kind: Kind,
    side: BalanceSide,
    reference: &str,
) -> Result<Vec<u8>, AllocError>
    ensures { IfOk result (λ text. text.items ≡ entry_text kind side reference.now) }
{
    let mut text = Vec::from_slice(alloc, sign_of(kind))?;
    text.extend_from_slice(word_of(side))?;
    if reference.len() == 0 {
        return Ok(text);
    }
    text.extend_from_slice(b" ")?;
    text.extend_from_slice(reference.as_bytes())?;
    Ok(text)
}

/// The greater one of a moment and the last payment's.
fn moment_after(latest: u64, moment: u64) -> Result<i64, BooksError>
    ensures later { IfOk result (λ n. n ≡ pos (max latest moment)) }
    ensures cause { IfErr result (λ e. (e ≡ NoMemory) ⊎ ((e ≡ TooMuch) × (2 ^ 63 ≤ moment))) }
{
    let Some(own) = counted(moment) else {
        return Err(BooksError::TooMuch);
    };
    // No line has a moment that cannot be counted.
    let Some(last) = counted(latest) else {
        return Err(BooksError::NoMemory);
    };
    if moment < latest {
        return Ok(last);
    }
    Ok(own)
}

/// The tally with one payment more.
pub(crate) fn next_tally(before: Tally, payment: Payment) -> Option<Tally>
    ensures { IfSome result (λ next. next ≡ next_tally before payment) }
{
    let lines = before.lines.checked_add(1)?;
    if payment.moment < before.latest {
        return Some(Tally {
            lines,
            latest: before.latest,
            filed: before.filed,
        });
    }
    Some(Tally {
        lines,
        latest: payment.moment,
        filed: before.filed,
    })
}

/// Makes a row the line of a payment, after those that are there.
fn write_payment(
    row: &mut Row,
    before: Tally,
    name: &Bytes,
    payment: Payment,
    text: &[u8],
) -> Result<(), BooksError>
    ensures line { OnOk result (row.new ≡ next_line before name.now text.now payment) }
    ensures cause { IfErr result (λ e. (e ≡ NoMemory) ⊎ ((e ≡ TooMuch) × IsUncountable payment)) }
{
    let Some(amount) = counted(payment.amount) else {
        return Err(BooksError::TooMuch);
    };
    let moment = moment_after(before.latest, payment.moment)?;
    // No disk has room for that number of payments.
    let Some(next) = before.lines.checked_add(1) else {
        return Err(BooksError::NoMemory);
    };
    let Some(id) = counted(next) else {
        return Err(BooksError::NoMemory);
    };
    row.clear();
    row.push(ValueRef::Int(id))?;
    row.push(ValueRef::Null)?;
    row.push(ValueRef::Text(name.as_slice()))?;
    row.push(ValueRef::Text(text))?;
    row.push(ValueRef::Int(amount))?;
    row.push(ValueRef::Int(moment))?;
    Ok(())
}

/// Writes the line of a payment at the end of the second table.
fn add_payment<S: Alter>(
    store: &mut S,
    row: &mut Row,
    before: Tally,
    name: &Bytes,
    payment: Payment,
    text: &[u8],
) -> Result<(), BooksError>
    requires { IsClean (S.Store.view store.old) → (S.Store.view store.old).shape payment_tree ≡ shapes.Table }
    ensures put { PutsRow S.Store store.old store.new result payment_tree (next_line before name.now text.now payment) }
    ensures frame { OnOk result (IsClean (S.Store.view store.new) → OnlyWrites (S.Store.view store.old) (S.Store.view store.new)) }
    ensures keeps { Keeps (S.Store.view store.old) (S.Store.view store.new) }
    ensures quiet { IsQuiet S.Store.view S.Store.faults S.Store.recovers S.Store.is_shielded store.old store.new }
    ensures cause { FailsOnlyFor S.Store store.old store.new result
        (row_excuses (IsUncountable payment) (S.Store.view store.old) payment_tree (next_line before name.now text.now payment)) }
{
    write_payment(row, before, name, payment, text)?;
    store.put(1, row)?;
    Ok(())
}

/// Writes what a payment leaves of its account's line, and then the payment's line.
fn enter_payment<S: Alter>(
    store: &mut S,
    row: &mut Row,
    names: &[Bytes],
    draft: &mut [Amounts],
    before: Tally,
    payment: Payment,
    text: &[u8],
) -> Result<(), BooksError>
    requires table { IsClean (S.Store.view store.old) → (S.Store.view store.old).shape 0 ≡ shapes.Table }
    requires audit { IsClean (S.Store.view store.old) → (S.Store.view store.old).shape payment_tree ≡ shapes.Table }
    requires named { length names.now ≡ length draft.old }
    requires words { IsEntryText payment.kind payment.side text.now }
    ensures covered { OnOk result (IsCovered draft.old payment) }
    ensures paid { OnOk result (draft.new ≡ paid_off draft.old payment) }
    ensures frame { OnOk result (IsClean (S.Store.view store.new) → OnlyWrites (S.Store.view store.old) (S.Store.view store.new)) }
    ensures drawn { OnOk result (IsClean (S.Store.view store.new)
        → AddsEntry (S.Store.view store.old) (S.Store.view store.new) names.now draft.old draft.new before payment text.now) }
    ensures keeps { Keeps (S.Store.view store.old) (S.Store.view store.new) }
    ensures quiet { IsQuiet S.Store.view S.Store.faults S.Store.recovers S.Store.is_shielded store.old store.new }
    ensures cause { FailsOnlyFor S.Store store.old store.new result (payment_excuses (S.Store.view store.old) names.now draft.old payment text.now) }
{
    let at = payment.account;
    if at >= draft.len() {
        return Err(BooksError::NoAccount);
    }
    let after = change(draft[at], payment.kind, payment.side, payment.amount)?;
    set_line(store, row, names, draft, at, after)?;
    add_payment(store, row, before, &names[at], payment, text)
}

/// Commits a payment, or rolls back. The count of starts serves the clauses alone.
pub(crate) fn commit_payment<S: Alter>(
    store: &mut S,
    row: &mut Row,
    _starts: u32,
    names: &[Bytes],
    draft: &mut [Amounts],
    before: Tally,
    payment: Payment,
    text: &[u8],
) -> Result<(), BooksError>
    requires holds { Holds (S.Store.view store.old) _starts names.now draft.old (trail_in (S.Store.view store.old)) before }
    requires named { length names.now ≡ length draft.old }
    requires words { IsEntryText payment.kind payment.side text.now }
    ensures covered { OnOk result (IsCovered draft.old payment) }
    ensures paid { OnOk result (draft.new ≡ paid_off draft.old payment) }
    ensures holds { OnOk result (Holds (S.Store.view store.new) _starts names.now draft.new
        (with_entry (trail_in (S.Store.view store.old)) names.now payment text.now) (next_tally before payment)) }
    ensures stays_open { OnOk result (IsClean (S.Store.view store.new) → IsTrue (S.Store.view store.new).is_open) }
    ensures undone { OnErr result (Holds (S.Store.view store.new) _starts names.now draft.old (trail_in (S.Store.view store.old)) before) }
    ensures any_moment { RecoversTo S.Store store.old store.new _starts names.now
        (paid_off draft.old payment) (with_entry (trail_in (S.Store.view store.old)) names.now payment text.now) }
    ensures cause { FailsOnlyFor S.Store store.old store.new result (payment_excuses (S.Store.view store.old) names.now draft.old payment text.now) }
{
    let entered = enter_payment(store, row, names, draft, before, payment, text);
    conclude(store, entered)
}
