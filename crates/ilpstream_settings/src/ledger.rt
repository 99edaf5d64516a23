//! The settings of `ledger`: the file of the books, and a payment outside Interledger or an adjustment.

ghost use Rattle.std.specs.Prelude.{◌≡◌, ℕ, [], ◌∷◌, List, Option, MatchOption, map, option_map};
ghost use Rattle.ilpstream_settings.specs.Ledger as spec;
ghost use Rattle.ilpstream_settings.specs.Settings.{IsWithin, most_money};
ghost use Rattle.ilpstream_settings.specs.declared.ledger.LedgerSettings.{LedgerSettings};
ghost use Rattle.ilpstream_settings.specs.declared.ledger.Payment.{Payment};
ghost use Rattle.st_links.specs.declared.side.BalanceSide.{BalanceSide};
ghost use Rattle.ilpstream_settings.specs.Ledger.{IsAdjust, IsAdjusted, IsAmount, IsLedger, IsPaidOnce, IsPayment, IsSettle, IsSettleOnce, IsSide, Pays, ledger_texts};

use crate::options::LedgerOptions;
use crate::settings::{MAX_MONEY, number_within};
use st_http::is_field_text;
use st_links::BalanceSide;

/// Whether an amount is taken off or added.
#[derive(Clone, Copy)]
pub enum Kind {
    /// A payment outside Interledger: it is taken off.
    Settle,
    /// What both sides agreed on: it is added.
    Adjust,
}

/// A payment outside Interledger between the connector and a neighbour, or an adjustment.
#[derive(Clone, Copy)]
pub struct Payment<'a> {
    /// The name of the neighbour's account: 1 to 255 visible characters.
    pub name: &'a str,
    /// Whether the amount is taken off or added.
    pub kind: Kind,
    /// The amount, in units: 1 to 2^63 - 1.
    pub amount: u64,
    /// What the amount changes.
    pub side: BalanceSide,
    /// By which it is booked once: 1 to 128 characters from 0x20 to 0x7e. An adjustment has one.
    pub reference: Option<&'a str>,
}

/// The settings of `ledger`.
#[derive(Clone, Copy)]
pub struct LedgerSettings<'a> {
    /// The name of the file that the books are kept in.
    pub file: &'a str,
    /// The payment or the adjustment that is booked, if one was given.
    pub payment: Option<Payment<'a>>,
}

/// The amount that a text writes, and what it is taken off: dues if it begins with a minus.
fn amount_of(text: &str) -> Option<(BalanceSide, u64)>
    ensures { MatchOption result ((s : BalanceSide) (n : ℕ) → ¬ (IsAmount text.now s n)) (λ p. IsAmount text.now p.0 p.1) }
{
    let bytes = text.as_bytes();
    match bytes.strip_prefix(b"-") {
        Some(digits) => Some((BalanceSide::Dues, number_within(digits, 1, MAX_MONEY)?)),
        None => Some((BalanceSide::Claims, number_within(bytes, 1, MAX_MONEY)?)),
    }
}

/// Whether a text may be a reference: 1 to 128 characters from 0x20 to 0x7e.
#[tactic(auto, using(st_http::proofs::Walks::and_more))]
pub fn is_reference(text: &str) -> bool
    ensures { result ≡ spec.is_reference text.now }
{
    let bytes = text.as_bytes();
    let mut printable = !bytes.is_empty() && bytes.len() <= 128;
    for byte in bytes {
        printable &= *byte >= 0x20 && *byte <= 0x7e;
    }
    printable
}

/// The payment of the arguments `settle NAME AMOUNT`. `None` exactly if they are not valid.
fn settle_of<'a>(words: &[&'a str]) -> Option<Payment<'a>>
    ensures { MatchOption result ((p : Payment) → ¬ (IsSettle (map (λ w. w.now) words.now) p)) (IsSettle (map (λ w. w.now) words.now)) }
{
    let [settle, name, amount] = *words else {
        return None;
    };
    if settle != "settle" || !is_field_text(name) {
        return None;
    }
    let (side, amount) = amount_of(amount)?;
    Some(Payment {
        name,
        kind: Kind::Settle,
        amount,
        side,
        reference: None,
    })
}

/// The payment of these texts under a reference. `None` exactly if they are not valid.
fn paid_once<'a>(name: &'a str, amount: &str, reference: &'a str) -> Option<Payment<'a>>
    ensures { MatchOption result ((p : Payment) → ¬ (IsPaidOnce name.now amount.now reference.now p)) (IsPaidOnce name.now amount.now reference.now) }
{
    if !is_field_text(name) || !is_reference(reference) {
        return None;
    }
    let (side, amount) = amount_of(amount)?;
    Some(Payment {
        name,
        kind: Kind::Settle,
        amount,
        side,
        reference: Some(reference),
    })
}

/// The payment of five arguments.
#[tactic(auto, using(crate::proofs::Entries::once_said, crate::proofs::Entries::not_settle, crate::proofs::Entries::no_option))]
fn once_by<'a>(
    word: &str,
    name: &'a str,
    amount: &str,
    option: &str,
    reference: &'a str,
) -> Option<Payment<'a>>
    ensures { MatchOption result
        ((p : Payment) → ¬ (IsSettleOnce (word.now ∷ name.now ∷ amount.now ∷ option.now ∷ reference.now ∷ []) p))
        (IsSettleOnce (word.now ∷ name.now ∷ amount.now ∷ option.now ∷ reference.now ∷ [])) }
{
    if word != "settle" {
        return None;
    }
    if option != "--reference" {
        return None;
    }
    paid_once(name, amount, reference)
}

/// The payment of the arguments `settle NAME AMOUNT --reference TEXT`. `None` exactly if they are not valid.
fn settle_once_of<'a>(words: &[&'a str]) -> Option<Payment<'a>>
    ensures { MatchOption result ((p : Payment) → ¬ (IsSettleOnce (map (λ w. w.now) words.now) p)) (IsSettleOnce (map (λ w. w.now) words.now)) }
{
    let [settle, name, amount, option, reference] = *words else {
        return None;
    };
    once_by(settle, name, amount, option, reference)
}

/// The side that a word names.
fn side_of(word: &str) -> Option<BalanceSide>
    ensures { MatchOption result ((s : BalanceSide) → ¬ (IsSide word.now s)) (IsSide word.now) }
{
    if word == "claims" {
        return Some(BalanceSide::Claims);
    }
    if word == "dues" {
        return Some(BalanceSide::Dues);
    }
    None
}

/// The units that a text writes in digits.
fn units_of(text: &str) -> Option<u64>
    ensures { MatchOption result ((n : ℕ) → ¬ (IsWithin 1 most_money text.now n)) (IsWithin 1 most_money text.now) }
{
    number_within(text.as_bytes(), 1, MAX_MONEY)
}

/// The adjustment of these texts. `None` exactly if they are not valid.
fn adjusted<'a>(name: &'a str, side: &str, amount: &str, reference: &'a str) -> Option<Payment<'a>>
    ensures { MatchOption result ((p : Payment) → ¬ (IsAdjusted name.now side.now amount.now reference.now p))
        (IsAdjusted name.now side.now amount.now reference.now) }
{
    if !is_field_text(name) || !is_reference(reference) {
        return None;
    }
    let side = side_of(side)?;
    let amount = units_of(amount)?;
    Some(Payment {
        name,
        kind: Kind::Adjust,
        amount,
        side,
        reference: Some(reference),
    })
}

/// The adjustment of six arguments.
#[tactic(auto, using(crate::proofs::Entries::adjustment_said, crate::proofs::Entries::not_adjust, crate::proofs::Entries::no_option_of_six))]
fn adjusted_by<'a>(
    word: &str,
    name: &'a str,
    side: &str,
    amount: &str,
    option: &str,
    reference: &'a str,
) -> Option<Payment<'a>>
    ensures { MatchOption result
        ((p : Payment) → ¬ (IsAdjust (word.now ∷ name.now ∷ side.now ∷ amount.now ∷ option.now ∷ reference.now ∷ []) p))
        (IsAdjust (word.now ∷ name.now ∷ side.now ∷ amount.now ∷ option.now ∷ reference.now ∷ [])) }
{
    if word != "adjust" {
        return None;
    }
    if option != "--reference" {
        return None;
    }
    adjusted(name, side, amount, reference)
}

/// The adjustment of the arguments `adjust NAME claims|dues N --reference TEXT`. `None` exactly if they are not valid.
fn adjust_of<'a>(words: &[&'a str]) -> Option<Payment<'a>>
    ensures { MatchOption result ((p : Payment) → ¬ (IsAdjust (map (λ w. w.now) words.now) p)) (IsAdjust (map (λ w. w.now) words.now)) }
{
    let [adjust, name, side, amount, option, reference] = *words else {
        return None;
    };
    adjusted_by(adjust, name, side, amount, option, reference)
}

/// The payment or the adjustment of these arguments. `None` exactly if they are not valid.
#[tactic(auto, using(crate::proofs::Entries::adjustment_alone))]
fn payment_of<'a>(words: &[&'a str]) -> Option<Payment<'a>>
    ensures { MatchOption result ((p : Payment) → ¬ (IsPayment (map (λ w. w.now) words.now) p)) (IsPayment (map (λ w. w.now) words.now)) }
{
    if let Some(payment) = settle_of(words) {
        return Some(payment);
    }
    if let Some(payment) = settle_once_of(words) {
        return Some(payment);
    }
    adjust_of(words)
}

/// The payment of these arguments, if there are any.
fn chosen_payment<'a>(words: Option<&[&'a str]>) -> Option<Option<Payment<'a>>>
    ensures { MatchOption result
        ((p : Option Payment) → ¬ (Pays (option_map (λ ws. map (λ w. w.now) ws.now) words.entry) p))
        (Pays (option_map (λ ws. map (λ w. w.now) ws.now) words.entry)) }
{
    match words {
        None => Some(None),
        Some(words) => match payment_of(words) {
            Some(payment) => Some(Some(payment)),
            None => None,
        },
    }
}

impl<'a> LedgerSettings<'a> {
    /// The settings that the texts of the arguments say. `None` exactly if one of the texts is bad.
    pub fn read(options: &LedgerOptions<'_, 'a>) -> Option<LedgerSettings<'a>>
        ensures { MatchOption result ((s : LedgerSettings) → ¬ (IsLedger (ledger_texts options.now) s)) (IsLedger (ledger_texts options.now)) }
    {
        Some(LedgerSettings {
            file: options.file,
            payment: chosen_payment(options.payment)?,
        })
    }
}
