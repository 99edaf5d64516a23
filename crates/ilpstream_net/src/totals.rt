//! The file to which a connector writes its totals.

ghost use Rattle.std.specs.Prelude.{◌≡◌, ◌⊎◌, IfErr, IfOk, IsNone, IsSome, OnErr, OnOk, Result, string_bytes, vec_len};
ghost use Rattle.std.specs.Io.KnownBytes.{Appends};
ghost use Rattle.st_devices.specs.Tallies.{device_of};
ghost use Rattle.ilpstream_net.specs.Totals as spec;
ghost use Rattle.ilpstream_net.specs.declared.error.RunError.TheVariants.{BadOption, Fault as IsFault};
ghost use Rattle.ilpstream_output.specs.declared.error.Fault.TheVariants.{NoMemory};

use crate::beside::{Beside, Place, Unmade, is_replaced, replace};
use crate::counts::counts_text;
use crate::error::RunError;
use crate::obstacle::{Obstacle, Step};
use ilpstream_connector::{AccountTotals, Counts, Minutes};
use ilpstream_output::{Fault, TURNS, put};
use st_devices::CountWrite;
use std::alloc::{AllocError, Global};
use std::fs::{File, Files};
use std::io::Write;

/// The totals of a connector.
#[derive(Drop)]
pub(crate) struct ConnectorTotals {
    /// Those of each account, by the account's number. Empty if nothing is known of them.
    pub(crate) accounts: Vec<AccountTotals>,
    /// How the Prepares of each account ended. Empty if nothing is known of them.
    pub(crate) counts: Counts,
    /// How many Prepares were answered with T00 because too many threads were busy.
    pub(crate) overloaded: u64,
}

/// What a connector writes of its totals.
#[derive(Clone, Copy)]
struct Report<'a> {
    accounts: &'a [AccountTotals],
    counts: &'a Counts,
    overloaded: u64,
}

/// The place to which a connector writes its totals.
#[derive(Drop)]
pub(crate) enum TotalsPlace<'a, N> {
    /// A file that was opened at the start, since it is not a regular one. It is written only at the end.
    Open(CountWrite<File>),
    /// A regular file, or one that does not exist yet. It is replaced by a new file.
    Beside(Beside<'a, N>),
}

/// The place to which a connector writes its totals, if a file was asked for, and the memory for them.
#[derive(Drop)]
pub struct Telling<'a, N> {
    alloc: Global,
    place: Option<TotalsPlace<'a, N>>,
}

/// The totals of `count` accounts, all 0.
pub(crate) fn places(alloc: Global, count: usize) -> Result<Vec<AccountTotals>, AllocError>
    ensures { IfOk result (λ places. vec_len places ≡ count) }
{
    let mut places = Vec::new(alloc);
    for _ in 0..count {
        places.push(AccountTotals {
            claims: 0,
            dues: 0,
            held: 0,
        })?;
    }
    Ok(places)
}

/// The line that reports the totals of the account of this number.
#[tactic(auto, using(crate::proofs::Pieces::pieces), unfolding(crate::specs::Totals::account_text))]
fn account_text(alloc: Global, number: usize, account: AccountTotals) -> Result<String, AllocError>
    ensures { IfOk result (λ text. string_bytes text ≡ spec.account_text number account) }
{
    let AccountTotals { claims, dues, held } = account;
    let text = format!(in alloc; "account {number} claims {claims} dues {dues} held {held}\n")?;
    Ok(text)
}

/// The lines that report the totals of accounts, numbered from 0.
fn accounts_text(alloc: Global, accounts: &[AccountTotals]) -> Result<String, AllocError>
    ensures { IfOk result (λ text. string_bytes text ≡ spec.accounts_text 0 accounts.now) }
{
    let mut text = String::new(alloc);
    for number in 0..accounts.len() {
        let line = account_text(alloc, number, accounts[number])?;
        text.push_str(line.as_str())?;
    }
    Ok(text)
}

/// The line that reports how many Prepares were answered with T00 because too many threads were busy. Empty if there were
/// none.
#[tactic(auto, using(crate::proofs::Pieces::pieces))]
fn overloaded_text(alloc: Global, overloaded: u64) -> Result<String, AllocError>
    ensures { IfOk result (λ text. string_bytes text ≡ spec.overloaded_text overloaded) }
{
    if overloaded == 0 {
        return Ok(String::new(alloc));
    }
    let text = format!(in alloc; "overloaded {overloaded}\n")?;
    Ok(text)
}

/// The lines that report what is owed at a connector, and how many Prepares it did not forward because it had no thread.
fn owed_text(alloc: Global, report: Report<'_>) -> Result<String, AllocError>
    ensures { IfOk result (λ text. string_bytes text ≡ spec.owed_text report.entry.accounts.now report.entry.overloaded) }
{
    let mut text = accounts_text(alloc, report.accounts)?;
    let last = overloaded_text(alloc, report.overloaded)?;
    text.push_str(last.as_str())?;
    Ok(text)
}

/// The lines that report the totals of a connector.
fn connector_text(alloc: Global, report: Report<'_>) -> Result<Vec<u8>, AllocError>
    ensures { IfOk result (λ text. text.items ≡ spec.connector_text
        report.entry.accounts.now report.entry.overloaded report.entry.counts.now.accounts.items report.entry.counts.now.codes.items) }
{
    let owed = owed_text(alloc, report)?;
    let counts = counts_text(alloc, report.counts)?;
    let mut text = Vec::from_slice(alloc, owed.as_bytes())?;
    text.extend_from_slice(&counts)?;
    Ok(text)
}

/// Writes the totals of a connector.
fn put_accounts<W: Write>(
    alloc: Global,
    file: &mut CountWrite<W>,
    report: Report<'_>,
) -> Result<(), Fault>
    ensures { OnOk result (Appends (W.contents (device_of file.old)) (W.contents (device_of file.new))
        (spec.connector_text report.entry.accounts.now report.entry.overloaded report.entry.counts.now.accounts.items report.entry.counts.now.codes.items)) }
{
    let text = connector_text(alloc, report)?;
    let mut turns = TURNS;
    put(file, &text, &mut turns)
}

/// Replaces the totals of a connector.
fn replace_accounts<W: Write + Drop, P: Place<W>>(
    alloc: Global,
    place: &mut P,
    report: Report<'_>,
) -> Result<(), Fault>
    ensures whole { OnOk result (spec.Replaced (P.held place.old) (P.held place.new)
        (spec.connector_text report.entry.accounts.now report.entry.overloaded report.entry.counts.now.accounts.items report.entry.counts.now.codes.items)) }
    ensures kept { OnErr result (P.held place.new ≡ P.held place.old) }
{
    let text = connector_text(alloc, report)?;
    replace(place, &text)
}

/// The result of a command: its own error, or else that of writing its totals.
pub(crate) fn ended_with(
    ended: Result<(), RunError>,
    told: Result<(), Fault>,
) -> Result<(), RunError>
    ensures { result ≡ spec.ended_with ended told }
{
    ended?;
    told?;
    Ok(())
}

/// Opens a file that is not replaced, and empties it if it can be. Fails with `BadOption` if it cannot be opened.
fn open_place<'a, 'n: 'a, N: Files<File = File>>(
    rt: &'a N,
    alloc: Global,
    name: &'n str,
    obstacle: &mut Option<Obstacle<'n>>,
) -> Result<Telling<'a, N>, RunError>
    ensures some { IfOk result (λ telling. IsSome telling.place) }
    ensures refused { IfErr result (λ e. e ≡ BadOption) }
{
    match File::create(rt, name) {
        Ok(file) => {
            let place = Some(TotalsPlace::Open(CountWrite::new(file)));
            Ok(Telling { alloc, place })
        }
        Err(error) => {
            *obstacle = Some(Obstacle::of_file(Step::Totals, name, &error));
            Err(RunError::BadOption)
        }
    }
}

/// Makes a new file next to the one of this name and removes it again, to check that this can be done. Fails with
/// `BadOption` if it cannot, and with a fault if memory is refused.
fn place_beside<'a, 'n: 'a, N: Files<File = File>>(
    rt: &'a N,
    alloc: Global,
    name: &'n str,
    obstacle: &mut Option<Obstacle<'n>>,
) -> Result<Telling<'a, N>, RunError>
    ensures some { IfOk result (λ telling. IsSome telling.place) }
    ensures refused { IfErr result (λ e. (e ≡ BadOption) ⊎ (e ≡ IsFault NoMemory)) }
{
    let mut beside = Beside::new(rt, alloc, name);
    match beside.can_begin() {
        Ok(()) => {
            let place = Some(TotalsPlace::Beside(beside));
            Ok(Telling { alloc, place })
        }
        Err(Unmade::Refused(cause)) => {
            let step = Step::Beside;
            *obstacle = Some(Obstacle { step, name, cause });
            Err(RunError::BadOption)
        }
        Err(Unmade::NoMemory) => Err(RunError::Fault(Fault::NoMemory)),
    }
}

/// Determines how a connector is to write its totals. If a file of that name exists and is not a regular one, it is opened,
/// and emptied if it can be. Otherwise a new file is made next to it and removed again, to check that this can be done.
/// Fails with `BadOption` if the file cannot be opened or made, and with a fault if memory is refused.
pub fn place_for<'a, 'n: 'a, N: Files<File = File>>(
    rt: &'a N,
    alloc: Global,
    name: Option<&'n str>,
    obstacle: &mut Option<Obstacle<'n>>,
) -> Result<Telling<'a, N>, RunError>
    ensures none { IsNone name.entry → IfOk result (λ telling. IsNone telling.place) }
    ensures some { IsSome name.entry → IfOk result (λ telling. IsSome telling.place) }
    ensures refused { IfErr result (λ e. (e ≡ BadOption) ⊎ (e ≡ IsFault NoMemory)) }
{
    let Some(name) = name else {
        return Ok(Telling { alloc, place: None });
    };
    if is_replaced(rt, name) {
        place_beside(rt, alloc, name, obstacle)
    } else {
        open_place(rt, alloc, name, obstacle)
    }
}

/// Writes the totals of a connector at its end.
fn tell_last<N: Files<File = File>>(
    alloc: Global,
    place: TotalsPlace<'_, N>,
    report: Report<'_>,
) -> Result<(), Fault> {
    match place {
        TotalsPlace::Open(mut file) => put_accounts(alloc, &mut file, report),
        TotalsPlace::Beside(mut place) => replace_accounts(alloc, &mut place, report),
    }
}

/// Writes a text to the place of the totals, if a file was asked for.
pub fn tell_text<N: Files<File = File>>(telling: Telling<'_, N>, text: &[u8]) -> Result<(), Fault> {
    match telling.place {
        Some(TotalsPlace::Open(mut file)) => {
            let mut turns = TURNS;
            put(&mut file, text, &mut turns)
        }
        Some(TotalsPlace::Beside(mut place)) => replace(&mut place, text),
        None => Ok(()),
    }
}

/// Writes the totals of a connector, if a file was asked for, however it ended. Returns the result of the command.
pub(crate) fn tell_accounts<N: Files<File = File>>(
    telling: Telling<'_, N>,
    totals: &ConnectorTotals,
    ended: Result<(), RunError>,
) -> Result<(), RunError>
    ensures none { IsNone telling.entry.place → result ≡ ended }
    ensures told { (told : Result (Unit {0}) Fault) × (result ≡ spec.ended_with ended told) }
{
    let Telling { alloc, place } = telling;
    match place {
        Some(place) => {
            let report = Report {
                accounts: &totals.accounts,
                counts: &totals.counts,
                overloaded: totals.overloaded,
            };
            ended_with(ended, tell_last(alloc, place, report))
        }
        None => ended,
    }
}

impl<N: Files<File = File>> Minutes for Telling<'_, N> {
    fn minute(&mut self, totals: &[AccountTotals], counts: &Counts, overloaded: u64) {
        if let Some(TotalsPlace::Beside(place)) = &mut self.place {
            let report = Report {
                accounts: totals,
                counts,
                overloaded,
            };
            // (what could not be written is tried again after the next minute)
            let _ = replace_accounts(self.alloc, place, report);
        }
    }
}
