//! Rows that are read as lines of the two tables.

ghost use Rattle.std.specs.Prelude.{◌≡◌, ◌≢◌, ◌+◌, ◌++◌, pos, length, List, ℕ, None, IsTrue, IfSome};
ghost use Rattle.sqlite_value.specs.declared.value.Value.TheVariants.{Null, Int, Text};
ghost use Rattle.sqlite_value.specs.Order.{column};
ghost use Rattle.st_hop_books.specs.declared.balance.Kind.{Kind};
ghost use Rattle.st_hop_books.specs.declared.balance.Kind.TheVariants.{Paid, Adjusted};
ghost use Rattle.st_hop_books.specs.Payments.{sign_text, side_text, payment_line};
ghost use Rattle.st_hop_books.specs.Table.{line};

use crate::balance::{Amounts, Kind};
use sqlite_value::row::Row;
use sqlite_value::value::ValueRef;
use st_links::BalanceSide;

/// The number in a column, if it is one and not below 0.
pub(crate) fn count_in(row: &Row, at: usize) -> Option<u64>
    ensures { IfSome result (λ n. column row.now at ≡ Int (pos n)) }
{
    match row.get(at) {
        ValueRef::Int(n) if n >= 0 => Some(n as u64),
        _ => None,
    }
}

/// The text in a column, if it is one.
pub(crate) fn text_in(row: &Row, at: usize) -> Option<&[u8]>
    ensures text { IfSome result (λ t. column row.now at ≡ Text t.now) }
    ensures none { result ≡ None → (t : List ℕ) → column row.now at ≢ Text t }
{
    match row.get(at) {
        ValueRef::Text(text) => Some(text),
        _ => None,
    }
}

pub(crate) fn is_null(row: &Row, at: usize) -> bool
    ensures { IsTrue result → column row.now at ≡ Null }
{
    match row.get(at) {
        ValueRef::Null => true,
        _ => false,
    }
}

/// The name and the amounts of an account's line, if the row is the line at this place.
pub(crate) fn line_in(row: &Row, at: usize) -> Option<(&[u8], Amounts)>
    ensures { IfSome result (λ l. row.now ≡ line (at + 1) l.0.now l.1) }
{
    if row.len() != 5 || !is_null(row, 1) {
        return None;
    }
    let id = count_in(row, 0)?;
    if (at as u64).checked_add(1) != Some(id) {
        return None;
    }
    let name = text_in(row, 2)?;
    let claims = count_in(row, 3)?;
    let dues = count_in(row, 4)?;
    Some((name, Amounts { claims, dues }))
}

/// What a plus in front of the text of an entry says, and the rest of the text.
fn kind_in(text: &[u8]) -> (Kind, &[u8])
    ensures { text.now ≡ sign_text result.0 ++ result.1.now }
{
    match text.strip_prefix(b"+") {
        Some(rest) => (Kind::Adjusted, rest),
        None => (Kind::Paid, text),
    }
}

/// The side that a text begins with, and the rest of the text.
fn side_in(text: &[u8]) -> Option<(BalanceSide, &[u8])>
    ensures { IfSome result (λ s. text.now ≡ side_text s.0 ++ s.1.now) }
{
    if let Some(rest) = text.strip_prefix(b"claims") {
        return Some((BalanceSide::Claims, rest));
    }
    let rest = text.strip_prefix(b"dues")?;
    Some((BalanceSide::Dues, rest))
}

/// The parts of a payment's line.
#[derive(Clone, Copy)]
pub(crate) struct PaymentLine<'a> {
    name: &'a [u8],
    text: &'a [u8],
    kind: Kind,
    side: BalanceSide,
    // A space and the reference, or nothing.
    rest: &'a [u8],
    amount: u64,
    /// When it was booked, in milliseconds since 1970.
    pub(crate) moment: u64,
}

/// Whether a row has six columns, and begins as the line after `before` others.
fn is_next(row: &Row, before: u64) -> bool
    ensures { IsTrue result → (length row.now ≡ 6) × (column row.now 0 ≡ Int (pos (before + 1))) × (column row.now 1 ≡ Null) }
{
    if row.len() != 6 || !is_null(row, 1) {
        return false;
    }
    let Some(id) = count_in(row, 0) else {
        return false;
    };
    before.checked_add(1) == Some(id)
}

/// The text after a side: nothing, or a space and the reference.
fn reference_in(rest: &[u8]) -> Option<&[u8]>
    ensures { IfSome result (λ r. r.now ≡ rest.now) }
{
    if rest.is_empty() || rest.starts_with(b" ") {
        return Some(rest);
    }
    None
}

/// The parts of a payment's line, if the row is the line after `before` others.
pub(crate) fn payment_in(row: &Row, before: u64) -> Option<PaymentLine<'_>>
    ensures line { IfSome result (λ p. row.now ≡ payment_line (before + 1) p.name.now p.text.now p.amount p.moment) }
    ensures text { IfSome result (λ p. p.text.now ≡ sign_text p.kind ++ side_text p.side ++ p.rest.now) }
{
    if !is_next(row, before) {
        return None;
    }
    let name = text_in(row, 2)?;
    let text = text_in(row, 3)?;
    let (kind, unsigned) = kind_in(text);
    let (side, rest) = side_in(unsigned)?;
    let rest = reference_in(rest)?;
    let amount = count_in(row, 4)?;
    let moment = count_in(row, 5)?;
    Some(PaymentLine {
        name,
        text,
        kind,
        side,
        rest,
        amount,
        moment,
    })
}
