//! The command `ledger`.

ghost use Rattle.std.specs.Prelude.{◌≡◌, Some, IfErr, IfOk, OnOk};
ghost use Rattle.std.specs.Io.KnownBytes.{Appends};
ghost use Rattle.st_devices.specs.Tallies.{device_of, tally_of};
ghost use Rattle.ilpstream_output.specs.declared.error.Fault.{Fault};
ghost use Rattle.ilpstream_ledger.specs.Placing.{IsLate};
ghost use Rattle.ilpstream_net.specs.Ledger.{EndsLedger, FailsToWrite, IsPrinted, IsPrintedAlone, IsPrintedOnce, PrintsFound};
ghost use Rattle.ilpstream_net.specs.Ledger as specs;
ghost use Rattle.ilpstream_net.specs.declared.error.RunError.TheVariants as run;

use crate::error::RunError;
use ilpstream_ledger::{
    LedgerError, OpensBooks, account_text, ledger_text, repeated_text, settle, settle_once,
};
use ilpstream_output::{TURNS, put};
use ilpstream_serving::RuntimeClock;
use ilpstream_settings::{LedgerSettings, Payment};
use sqlite_trees::store::Alter;
use st_devices::CountWrite;
use st_hop_books::{Amounts, Books, Entry, Kind};
use st_links::{BalanceSide, Clock};
use std::alloc::{AllocError, Global};
use std::io::Write;

/// Whether the books take an amount off or add it.
fn kind_of(kind: ilpstream_settings::Kind) -> Kind
    ensures { result ≡ specs.kind_of kind }
{
    match kind {
        ilpstream_settings::Kind::Settle => Kind::Paid,
        ilpstream_settings::Kind::Adjust => Kind::Adjusted,
    }
}

/// The current time, in milliseconds since the start of 1970; 0 if the clock cannot be read.
fn moment<C: std::time::Clock>(rt: &C) -> u64 {
    u64::try_from(RuntimeClock::new(rt).now().ms()).unwrap_or(0)
}

/// Books a payment without a reference, and gives the line of its account.
fn settled<S: Alter, C: std::time::Clock>(
    rt: &C,
    alloc: Global,
    books: &mut Books<S>,
    name: &str,
    side: BalanceSide,
    amount: u64,
) -> Result<Vec<u8>, LedgerError>
    ensures printed { IfOk result (λ text. IsPrintedAlone S.Store name.now side amount books.old books.new text.items) }
    ensures late { IfErr result IsLate }
{
    let left = settle(books, name, side, amount, moment(rt))?;
    Ok(account_text(alloc, name.as_bytes(), left)?)
}

/// The line of an account whose entry was booked before, or now.
fn once_text(
    alloc: Global,
    repeated: bool,
    name: &[u8],
    amounts: Amounts,
) -> Result<Vec<u8>, AllocError>
    ensures { IfOk result (λ text. text.items ≡ specs.once_text repeated name.now amounts) }
{
    if repeated {
        return repeated_text(alloc, name, amounts);
    }
    account_text(alloc, name, amounts)
}

/// Books a payment or an adjustment once under its reference, and gives the line of its account.
#[tactic(auto, using(crate::proofs::Ledgers::printed_once))]
fn settled_once<S: Alter, C: std::time::Clock>(
    rt: &C,
    alloc: Global,
    books: &mut Books<S>,
    name: &str,
    side: BalanceSide,
    entry: Entry,
    reference: &str,
) -> Result<Vec<u8>, LedgerError>
    ensures printed { IfOk result (λ text. IsPrintedOnce S.Store name.now side entry reference.now books.old books.new text.items) }
    ensures late { IfErr result IsLate }
{
    let once = settle_once(books, name, side, entry, moment(rt), reference)?;
    Ok(once_text(alloc, once.repeated, name.as_bytes(), once.amounts)?)
}

/// Books a payment or an adjustment, and gives the line of its account.
fn entered<S: Alter, C: std::time::Clock>(
    rt: &C,
    alloc: Global,
    books: &mut Books<S>,
    payment: Payment<'_>,
) -> Result<Vec<u8>, LedgerError>
    ensures printed { IfOk result (λ text. IsPrinted S.Store (Some payment.entry) books.old books.new text.items) }
    ensures late { IfErr result IsLate }
{
    let Payment {
        name,
        kind,
        amount,
        side,
        reference,
    } = payment;
    match reference {
        None => settled(rt, alloc, books, name, side, amount),
        Some(reference) => {
            let entry = Entry {
                kind: kind_of(kind),
                amount,
            };
            settled_once(rt, alloc, books, name, side, entry, reference)
        }
    }
}

/// What is printed of books: the line of the account of which a payment or an adjustment was booked, or all of them.
fn text_of<S: Alter, C: std::time::Clock>(
    rt: &C,
    alloc: Global,
    books: &mut Books<S>,
    payment: Option<Payment<'_>>,
) -> Result<Vec<u8>, LedgerError>
    ensures printed { IfOk result (λ text. IsPrinted S.Store payment.entry books.old books.new text.items) }
    ensures late { IfErr result IsLate }
{
    match payment {
        Some(payment) => entered(rt, alloc, books, payment),
        None => Ok(ledger_text(alloc, books)?),
    }
}

/// Writes the text of books that were opened.
fn print<W: Write>(writer: &mut CountWrite<W>, text: &[u8]) -> Result<(), RunError>
    ensures whole { OnOk result (Appends (W.contents (device_of writer.old)) (W.contents (device_of writer.new)) text.now) }
    ensures refused { IfErr result (λ e. (x : Fault) × (e ≡ run.Fault x) × FailsToWrite x (tally_of writer.old) (tally_of writer.new)) }
{
    let mut turns = TURNS;
    put(writer, text, &mut turns)?;
    Ok(())
}

/// Prints the books in a file: a line for each account, and one for the starts. With a payment or an adjustment it books
/// that, with the current time, and prints the line of its account after that. The file has to contain books already: none
/// are made.
///
/// Nothing is printed if the books refuse.
pub fn run_ledger<W: Write, C: std::time::Clock, O: OpensBooks>(
    rt: &C,
    opener: &O,
    alloc: Global,
    settings: &LedgerSettings<'_>,
    writer: &mut CountWrite<W>,
) -> Result<(), RunError>
    ensures found { OnOk result (PrintsFound O.Store.Store (O.finds_existing opener.now settings.now.file.now)
        settings.now.payment (W.contents (device_of writer.old)) (W.contents (device_of writer.new))) }
    ensures ends { EndsLedger W.contents settings.now.payment writer.old writer.new result }
{
    let text = match opener.open_existing(settings.file) {
        Ok(mut books) => text_of(rt, alloc, &mut books, settings.payment)?,
        Err(error) => return Err(RunError::Ledger(LedgerError::Books(error))),
    };
    print(writer, &text)
}
