//! The text of a line.

ghost use Rattle.std.specs.Prelude.{◌≡◌, ◌++◌, IfOk, string_bytes};
ghost use Rattle.ilpstream_log.specs.Lines as spec;

use crate::date::date_text;
use crate::event::{AccountCounts, Cause, Event, Heard, Kind, Lost};
use crate::quote::{bare, code_text, quoted, quoted_short};
use crate::starts::start_text;
use st_ilp::Moment;
use st_streams::{Blocked, EndTotals};
use std::alloc::{AllocError, Global};

fn listening_text(alloc: Global, address: &str) -> Result<String, AllocError>
    ensures { IfOk result (λ text. string_bytes text ≡ spec.listening_text address.now) }
{
    let address = bare(alloc, address.as_bytes())?;
    format!(in alloc; "listening address={address}\n")
}

fn link_text(alloc: Global, neighbour: usize, fault: u8) -> Result<String, AllocError>
    ensures { IfOk result (λ text. string_bytes text ≡ spec.link_text neighbour fault) }
{
    format!(in alloc; "exchange neighbour={neighbour} cause=link fault={fault}\n")
}

fn status_text(
    alloc: Global,
    neighbour: usize,
    fault: u8,
    status: u16,
) -> Result<String, AllocError>
    ensures { IfOk result (λ text. string_bytes text ≡ spec.status_text neighbour fault status) }
{
    format!(in alloc; "exchange neighbour={neighbour} cause=link fault={fault} status={status}\n")
}

fn reject_front(alloc: Global, neighbour: usize, code: &[u8; 3]) -> Result<String, AllocError>
    ensures { IfOk result (λ text. string_bytes text ≡ spec.reject_front neighbour code.now) }
{
    let code = code_text(alloc, code)?;
    format!(in alloc; "exchange neighbour={neighbour} cause=reject code={code} ")
}

fn reject_back(alloc: Global, by: &str, message: &str) -> Result<String, AllocError>
    ensures { IfOk result (λ text. string_bytes text ≡ spec.reject_back by.now message.now) }
{
    let by = quoted_short(alloc, by.as_bytes())?;
    let message = quoted_short(alloc, message.as_bytes())?;
    format!(in alloc; "triggered_by={by} message={message}\n")
}

/// A text, and then another one.
fn joined(front: String, back: &str) -> Result<String, AllocError>
    ensures { IfOk result (λ text. string_bytes text ≡ string_bytes front ++ back.now) }
{
    let mut text = front;
    text.push_str(back)?;
    Ok(text)
}

fn reject_text(
    alloc: Global,
    neighbour: usize,
    code: &[u8; 3],
    by: &str,
    message: &str,
) -> Result<String, AllocError>
    ensures { IfOk result (λ text. string_bytes text ≡ spec.reject_front neighbour code.now ++ spec.reject_back by.now message.now) }
{
    let back = reject_back(alloc, by, message)?;
    joined(reject_front(alloc, neighbour, code)?, back.as_str())
}

/// The line of an exchange whose cause is one word.
fn plain_cause_text(alloc: Global, neighbour: usize, word: &str) -> Result<String, AllocError>
    ensures { IfOk result (λ text. string_bytes text ≡ spec.plain_cause_text neighbour word.now) }
{
    format!(in alloc; "exchange neighbour={neighbour} cause={word}\n")
}

fn exchange_text(alloc: Global, neighbour: usize, cause: Cause<'_>) -> Result<String, AllocError>
    ensures { IfOk result (λ text. string_bytes text ≡ spec.exchange_text neighbour cause.entry) }
{
    match cause {
        Cause::Link {
            fault,
            status: None,
        } => link_text(alloc, neighbour, fault),
        Cause::Link {
            fault,
            status: Some(status),
        } => status_text(alloc, neighbour, fault, status),
        Cause::Unreached(why) => plain_cause_text(alloc, neighbour, why.word()),
        Cause::Reject { code, by, message } => reject_text(alloc, neighbour, &code, by, message),
        Cause::Unfit => plain_cause_text(alloc, neighbour, "fulfillment"),
        Cause::Unreadable => plain_cause_text(alloc, neighbour, "answer"),
        Cause::NoMemory => plain_cause_text(alloc, neighbour, "memory"),
    }
}

fn refused_text(alloc: Global, neighbour: usize, code: &[u8; 3]) -> Result<String, AllocError>
    ensures { IfOk result (λ text. string_bytes text ≡ spec.refused_text neighbour code.now) }
{
    let code = code_text(alloc, code)?;
    format!(in alloc; "refused neighbour={neighbour} code={code}\n")
}

fn reason_text(
    alloc: Global,
    neighbour: usize,
    code: &[u8; 3],
    reason: u8,
) -> Result<String, AllocError>
    ensures { IfOk result (λ text. string_bytes text ≡ spec.reason_text neighbour code.now reason) }
{
    let code = code_text(alloc, code)?;
    format!(in alloc; "refused neighbour={neighbour} code={code} reason={reason}\n")
}

fn connection_text(alloc: Global, lost: Lost, from: &str) -> Result<String, AllocError>
    ensures { IfOk result (λ text. string_bytes text ≡ spec.connection_text lost from.now) }
{
    let from = quoted(alloc, from.as_bytes())?;
    match lost {
        Lost::Status(status) => { format!(in alloc; "connection status={status} from={from}\n") }
        Lost::Cut => format!(in alloc; "connection cut from={from}\n"),
    }
}

fn limit_text(alloc: Global, neighbour: usize, most: u64) -> Result<String, AllocError>
    ensures { IfOk result (λ text. string_bytes text ≡ spec.limit_text neighbour most) }
{
    format!(in alloc; "limit neighbour={neighbour} most={most}\n")
}

fn waits_text(alloc: Global, blocked: Blocked) -> Result<String, AllocError>
    ensures { IfOk result (λ text. string_bytes text ≡ spec.waits_text blocked) }
{
    match blocked {
        Blocked::Connection { max_offset: limit } => {
            format!(in alloc; "waits at=connection-data limit={limit}\n")
        }
        Blocked::Data {
            stream,
            max_offset: limit,
        } => { format!(in alloc; "waits at=stream-data stream={stream} limit={limit}\n") }
        Blocked::Money {
            stream,
            receive_max,
            total,
        } => {
            format!(in alloc;
                "waits at=stream-money stream={stream} receive_max={receive_max} total={total}\n"
            )
        }
    }
}

fn clock_text(alloc: Global, set_back: u64) -> Result<String, AllocError>
    ensures { IfOk result (λ text. string_bytes text ≡ spec.clock_text set_back) }
{
    format!(in alloc; "clock set_back_ms={set_back}\n")
}

fn control_text(alloc: Global, line: &[u8], heard: Heard<'_>) -> Result<String, AllocError>
    ensures { IfOk result (λ text. string_bytes text ≡ spec.control_text line.now heard.entry) }
{
    let line = quoted_short(alloc, line)?;
    match heard {
        Heard::Done => format!(in alloc; "control line={line}\n"),
        Heard::Unknown => format!(in alloc; "control unknown line={line}\n"),
        Heard::Failed(words) => {
            let words = quoted(alloc, words.as_bytes())?;
            format!(in alloc; "control failed line={line} words={words}\n")
        }
    }
}

fn table_text(alloc: Global, line: usize, words: &str) -> Result<String, AllocError>
    ensures { IfOk result (λ text. string_bytes text ≡ spec.table_text line words.now) }
{
    let words = quoted(alloc, words.as_bytes())?;
    format!(in alloc; "table line={line} words={words}\n")
}

fn closed_text(alloc: Global, stream: u64) -> Result<String, AllocError>
    ensures { IfOk result (λ text. string_bytes text ≡ spec.closed_text stream) }
{
    format!(in alloc; "closed stream={stream}\n")
}

fn aborted_text(alloc: Global, stream: u64, code: u64) -> Result<String, AllocError>
    ensures { IfOk result (λ text. string_bytes text ≡ spec.aborted_text stream code) }
{
    format!(in alloc; "closed stream={stream} code={code}\n")
}

fn end_text(alloc: Global, totals: EndTotals) -> Result<String, AllocError>
    ensures { IfOk result (λ text. string_bytes text ≡ spec.end_text totals) }
{
    let EndTotals {
        accepted,
        delivered,
        credited,
        paid,
    } = totals;
    format!(in alloc;
        "totals accepted={accepted} delivered={delivered} credited={credited} paid={paid}\n"
    )
}

fn account_front(
    alloc: Global,
    neighbour: usize,
    totals: AccountCounts,
) -> Result<String, AllocError>
    ensures { IfOk result (λ text. string_bytes text ≡ spec.account_front neighbour totals) }
{
    let AccountCounts {
        claims,
        dues,
        held,
        ..
    } = totals;
    format!(in alloc; "totals neighbour={neighbour} claims={claims} dues={dues} held={held} ")
}

fn account_back(alloc: Global, totals: AccountCounts) -> Result<String, AllocError>
    ensures { IfOk result (λ text. string_bytes text ≡ spec.account_back totals) }
{
    let AccountCounts {
        fulfilled,
        rejected,
        lost,
        refused,
        ..
    } = totals;
    format!(in alloc; "fulfilled={fulfilled} rejected={rejected} lost={lost} refused={refused}\n")
}

fn account_text(
    alloc: Global,
    neighbour: usize,
    totals: AccountCounts,
) -> Result<String, AllocError>
    ensures { IfOk result (λ text. string_bytes text ≡ spec.account_front neighbour totals ++ spec.account_back totals) }
{
    let back = account_back(alloc, totals)?;
    joined(account_front(alloc, neighbour, totals)?, back.as_str())
}

fn rejects_text(
    alloc: Global,
    neighbour: usize,
    code: &[u8; 3],
    count: u64,
) -> Result<String, AllocError>
    ensures { IfOk result (λ text. string_bytes text ≡ spec.rejects_text neighbour code.now count) }
{
    let code = code_text(alloc, code)?;
    format!(in alloc; "totals neighbour={neighbour} code={code} rejected={count}\n")
}

fn more_text(alloc: Global, neighbour: usize, kind: Kind, count: u64) -> Result<String, AllocError>
    ensures { IfOk result (λ text. string_bytes text ≡ spec.more_text neighbour kind count) }
{
    let word = kind.word();
    if kind.is_of_neighbour() {
        format!(in alloc; "more neighbour={neighbour} event={word} count={count}\n")
    } else {
        format!(in alloc; "more event={word} count={count}\n")
    }
}

fn no_room_text(alloc: Global, count: u64) -> Result<String, AllocError>
    ensures { IfOk result (λ text. string_bytes text ≡ spec.no_room_text count) }
{
    format!(in alloc; "more lost={count}\n")
}

fn failed_text(alloc: Global, fault: u8, words: &str) -> Result<String, AllocError>
    ensures { IfOk result (λ text. string_bytes text ≡ spec.failed_text fault words.now) }
{
    let words = quoted(alloc, words.as_bytes())?;
    format!(in alloc; "end fault={fault} words={words}\n")
}

/// What follows the date, with the newline.
fn event_text(alloc: Global, neighbour: usize, event: &Event<'_>) -> Result<String, AllocError>
    ensures { IfOk result (λ text. string_bytes text ≡ spec.event_text neighbour event.now) }
{
    match *event {
        Event::Start(start) => start_text(alloc, start),
        Event::Listening { address } => listening_text(alloc, address),
        Event::Exchange(cause) => exchange_text(alloc, neighbour, cause),
        Event::Refused { code, reason: None } => refused_text(alloc, neighbour, &code),
        Event::Refused {
            code,
            reason: Some(reason),
        } => reason_text(alloc, neighbour, &code, reason),
        Event::Connection { lost, from } => connection_text(alloc, lost, from),
        Event::Limit { most } => limit_text(alloc, neighbour, most),
        Event::Waits(blocked) => waits_text(alloc, blocked),
        Event::Clock { set_back } => clock_text(alloc, set_back),
        Event::Control { line, heard } => control_text(alloc, line, heard),
        Event::NewBooks => String::from_str(alloc, "books new\n"),
        Event::Table { line, words } => table_text(alloc, line, words),
        Event::Closed { stream, code: None } => closed_text(alloc, stream),
        Event::Closed {
            stream,
            code: Some(code),
        } => aborted_text(alloc, stream, code),
        Event::End(totals) => end_text(alloc, totals),
        Event::Account(totals) => account_text(alloc, neighbour, totals),
        Event::Rejects { code, count } => rejects_text(alloc, neighbour, &code, count),
        Event::More { kind, count } => more_text(alloc, neighbour, kind, count),
        Event::NoRoom { count } => no_room_text(alloc, count),
        Event::Done => String::from_str(alloc, "end ok\n"),
        Event::Failed { fault, words } => failed_text(alloc, fault, words),
    }
}

/// The line of an event that happened at a moment, about the neighbour of this number:
/// `2026-01-02T03:04:05.006Z EVENT key=value ..` and a newline. Dates are in UTC. Numbers and codes have no quotes. Texts are in
/// double quotes: bytes from 32 to 126 as they are, but `"` as `\"` and `\` as `\\`, and each other byte as `\xHH`. So a line has
/// one newline, at its end, whatever a peer sent. A text of a peer is cut at 256 characters of the line.
///
/// Fails if memory is refused.
#[tactic(auto, using(crate::proofs::Pieces::pieces), unfolding(crate::specs::Lines::line_text))]
pub fn line(
    alloc: Global,
    moment: Moment,
    neighbour: usize,
    event: &Event<'_>,
) -> Result<Vec<u8>, AllocError>
    ensures { IfOk result (λ text. text.items ≡ spec.line_text moment neighbour event.now) }
{
    let behind = event_text(alloc, neighbour, event)?;
    let mut text = Vec::from_slice(alloc, &date_text(moment))?;
    text.push(b' ')?;
    text.extend_from_slice(behind.as_bytes())?;
    Ok(text)
}
