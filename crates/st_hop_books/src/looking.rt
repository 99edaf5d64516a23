//! What the second table has under a reference.

ghost use Rattle.std.specs.Prelude.{◌≡◌, ◌≢◌, false, None, IsTrue, IfErr, IfOk, IfSome};
ghost use Rattle.sqlite_value.specs.declared.value.Value.TheVariants.{Text};
ghost use Rattle.sqlite_value.specs.Order.{column};
ghost use Rattle.sqlite_trees.specs.View.{IsClean, IsQuiet};
ghost use Rattle.sqlite_trees.specs.declared.error.StoreError.{StoreError};
ghost use Rattle.sqlite_trees.specs.declared.store.Shape.TheVariants as shapes;
ghost use Rattle.st_hop_books.specs.Errors.{told};
ghost use Rattle.st_hop_books.specs.Payments.{HasText, FindsText, text_for};
ghost use Rattle.st_hop_books.specs.Table.{payment_tree};
ghost use Rattle.st_hop_books.specs.Standing.{Keeps};

use crate::balance::{Entry, Kind};
use crate::error::BooksError;
use crate::lines::{count_in, text_in};
use sqlite_trees::store::{Alter, Direction, Store};
use sqlite_value::row::Row;

/// Whether a column has this text.
fn is_text(row: &Row, at: usize, text: &[u8]) -> bool
    ensures yes { IsTrue result → column row.now at ≡ Text text.now }
    ensures no { result ≡ false → column row.now at ≢ Text text.now }
{
    match text_in(row, at) {
        Some(found) => found == text,
        None => false,
    }
}

/// The kind of the entry of a row, if it is of this account and has one of two texts.
fn kind_of(row: &Row, name: &[u8], paid: &[u8], adjusted: &[u8]) -> Option<Kind>
    ensures found { IfSome result (λ kind. HasText name.now (text_for paid.now adjusted.now kind) row.now) }
    ensures none { result ≡ None → (¬ HasText name.now paid.now row.now) × (¬ HasText name.now adjusted.now row.now) }
{
    if !is_text(row, 2, name) {
        return None;
    }
    if is_text(row, 3, paid) {
        return Some(Kind::Paid);
    }
    if is_text(row, 3, adjusted) {
        return Some(Kind::Adjusted);
    }
    None
}

/// Looks through the second table for the entry of an account that has one of two texts: that of a payment, or that of an
/// adjustment.
pub(crate) fn find<S: Alter>(
    store: &mut S,
    row: &mut Row,
    name: &[u8],
    paid: &[u8],
    adjusted: &[u8],
) -> Result<Option<Entry>, BooksError>
    requires { IsClean (S.Store.view store.old) → (S.Store.view store.old).shape payment_tree ≡ shapes.Table }
    ensures found { IfOk result (λ e. IsClean (S.Store.view store.new)
        → FindsText ((S.Store.view store.old).trees payment_tree) name.now paid.now adjusted.now e) }
    ensures sound { IfOk result (λ _. IsClean (S.Store.view store.new) → (S.Store.view store.old).is_broken ≡ false) }
    ensures keeps { Keeps (S.Store.view store.old) (S.Store.view store.new) }
    ensures quiet { IsQuiet S.Store.view S.Store.faults S.Store.recovers S.Store.is_shielded store.old store.new }
    ensures cause { IfErr result (λ e. (why : StoreError) × (e ≡ told why)) }
{
    row.clear();
    store.seek(0, 1, row, Direction::Forward)?;
    'rows: for _ in 0..u64::MAX {
        if !store.next(0, row)? {
            return Ok(None);
        }
        let Some(kind) = kind_of(row, name, paid, adjusted) else {
            continue;
        };
        let Some(amount) = count_in(row, 4) else {
            return Err(BooksError::Damaged);
        };
        return Ok(Some(Entry { kind, amount }));
    }
    Err(BooksError::NoMemory)
}
