//! The lines that report how the Prepares of a connector's accounts ended.

ghost use Rattle.std.specs.Prelude.{◌≡◌, IfOk, string_bytes};
ghost use Rattle.ilpstream_net.specs.Totals as spec;

use ilpstream_connector::{AccountCounts, CodeCount, Counts};
use std::alloc::{AllocError, Global};

/// The first half of the line of the account of this number.
#[tactic(auto, using(crate::proofs::Pieces::pieces), unfolding(crate::specs::Totals::count_front))]
fn count_front(alloc: Global, number: usize, counts: AccountCounts) -> Result<String, AllocError>
    ensures { IfOk result (λ text. string_bytes text ≡ spec.count_front number counts) }
{
    let AccountCounts {
        fulfilled,
        rejected,
        ..
    } = counts;
    let text = format!(in alloc; "count {number} fulfilled {fulfilled} rejected {rejected}")?;
    Ok(text)
}

/// The second half of the line of an account.
#[tactic(auto, using(crate::proofs::Pieces::pieces), unfolding(crate::specs::Totals::count_back))]
fn count_back(alloc: Global, counts: AccountCounts) -> Result<String, AllocError>
    ensures { IfOk result (λ text. string_bytes text ≡ spec.count_back counts) }
{
    let AccountCounts { lost, refused, .. } = counts;
    let text = format!(in alloc; " lost {lost} refused {refused}\n")?;
    Ok(text)
}

/// The line of the account of this number.
fn count_text(alloc: Global, number: usize, counts: AccountCounts) -> Result<String, AllocError>
    ensures { IfOk result (λ text. string_bytes text ≡ spec.count_text number counts) }
{
    let mut text = count_front(alloc, number, counts)?;
    let back = count_back(alloc, counts)?;
    text.push_str(back.as_str())?;
    Ok(text)
}

/// The line of a code.
#[tactic(auto, using(crate::proofs::Pieces::pieces), unfolding(crate::specs::Totals::code_text))]
fn code_text(alloc: Global, code: CodeCount) -> Result<Vec<u8>, AllocError>
    ensures { IfOk result (λ text. text.items ≡ spec.code_text code) }
{
    let CodeCount {
        account,
        code,
        count,
    } = code;
    let front = format!(in alloc; "code {account} ")?;
    let back = format!(in alloc; " {count}\n")?;
    let mut text = Vec::from_slice(alloc, front.as_bytes())?;
    text.extend_from_slice(&code)?;
    text.extend_from_slice(back.as_bytes())?;
    Ok(text)
}

/// The line of an account's Rejects whose codes have no line of their own. Empty if there are no such Rejects.
#[tactic(auto, using(crate::proofs::Pieces::pieces), unfolding(crate::specs::Totals::other_text))]
fn other_text(alloc: Global, number: usize, counts: AccountCounts) -> Result<String, AllocError>
    ensures { IfOk result (λ text. string_bytes text ≡ spec.other_text number counts) }
{
    let other = counts.other;
    if other == 0 {
        return Ok(String::new(alloc));
    }
    let text = format!(in alloc; "code {number} other {other}\n")?;
    Ok(text)
}

/// A line of an account.
#[derive(Clone, Copy)]
enum Line {
    /// How its Prepares ended.
    Fates,
    /// How many of its Rejects have a code without a line of its own. It is left out if there are no such Rejects.
    OtherCodes,
}

/// This line of the account of this number.
fn line_text(
    alloc: Global,
    line: Line,
    number: usize,
    counts: AccountCounts,
) -> Result<String, AllocError>
    ensures { IfOk result (λ text. string_bytes text ≡ spec.line_text line number counts) }
{
    match line {
        Line::Fates => count_text(alloc, number, counts),
        Line::OtherCodes => other_text(alloc, number, counts),
    }
}

/// This line of each account, numbered from 0.
fn lines_text(alloc: Global, line: Line, counts: &[AccountCounts]) -> Result<String, AllocError>
    ensures { IfOk result (λ text. string_bytes text ≡ spec.lines_from (spec.line_text line) 0 counts.now) }
{
    let mut text = String::new(alloc);
    for number in 0..counts.len() {
        let one = line_text(alloc, line, number, counts[number])?;
        text.push_str(one.as_str())?;
    }
    Ok(text)
}

/// The lines of codes.
fn codes_lines(alloc: Global, codes: &[CodeCount]) -> Result<Vec<u8>, AllocError>
    ensures { IfOk result (λ text. text.items ≡ spec.lines_from (λ place. spec.code_text) 0 codes.now) }
{
    let mut text = Vec::new(alloc);
    for place in 0..codes.len() {
        let line = code_text(alloc, codes[place])?;
        text.extend_from_slice(&line)?;
    }
    Ok(text)
}

/// The lines that report how the Prepares of accounts ended.
pub(crate) fn counts_text(alloc: Global, counts: &Counts) -> Result<Vec<u8>, AllocError>
    ensures { IfOk result (λ text. text.items ≡ spec.counts_text counts.now.accounts.items counts.now.codes.items) }
{
    let front = lines_text(alloc, Line::Fates, &counts.accounts)?;
    let codes = codes_lines(alloc, &counts.codes)?;
    let others = lines_text(alloc, Line::OtherCodes, &counts.accounts)?;
    let mut text = Vec::from_slice(alloc, front.as_bytes())?;
    text.extend_from_slice(&codes)?;
    text.extend_from_slice(others.as_bytes())?;
    Ok(text)
}
