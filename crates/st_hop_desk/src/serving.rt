//! How one thread serves a hop.

ghost use Rattle.std.specs.Prelude.{◌≡◌, ◌≤ℤ◌, ◌<ℤ◌, pos, true, false, None, Some, IfOk, MatchOption, OnErr};
ghost use Rattle.st_ilp.specs.Reading.{is_fulfill_text};
ghost use Rattle.st_links.specs.Outcomes.{outcome_seen};
ghost use Rattle.st_hop.specs.Seen.{verdict_seen};
ghost use Rattle.st_hop.specs.Settling.{is_booked};
ghost use Rattle.st_links.specs.Answers.{told};
ghost use Rattle.st_hop_desk.specs.Deadlines.{deadline};
ghost use Rattle.st_hop_desk.specs.Serving.{AnswersBy, EndsAs, IsAnswered, IsOf, IsServed, IsSettlement, IsStrange, IsT00, IsTokenOf, IsUnfulfilled, IsVerdict, IsAsked, around};
ghost use Rattle.st_hop_desk.specs.declared.stored.Fate.TheVariants as fated;
ghost use Rattle.st_hop_desk.specs.Stored as stored;

use crate::desk::{AccountShares, Arrived, HopDesk};
use crate::error::DeskError;
use crate::stored::{Books, Fate, booking_of};
use st_hop::{HopError, Ticket, Verdict};
use st_ilp::Moment;
use st_links::{Booked, Clock, Links, Outcome};
use std::alloc::Allocator;
use std::sync::ledger::Ledger;
use std::sync::{Mutex, Wait};

// Each function here that acquires the lock releases it before it returns, so that no exchange is made under it.

fn arrive<C: Ledger, D: Ledger, A: Allocator + Copy>(
    rt: &impl Wait,
    desk: &Mutex<HopDesk<C, D, A>>,
    account: usize,
    bytes: &[u8],
    now: Moment,
) -> Result<Arrived<A>, HopError>
    ensures account { IfOk result (λ a. a.account ≡ account) }
    ensures of { IfOk result (λ a. IsOf account (verdict_seen a.verdict)) }
    ensures verdict { IfOk result (λ a. IsVerdict account bytes.now now (verdict_seen a.verdict)) }
{
    desk.lock(rt).arrive(account, bytes, now)
}

fn settle<C: Ledger, D: Ledger, A: Allocator + Copy>(
    rt: &impl Wait,
    desk: &Mutex<HopDesk<C, D, A>>,
    shares: &Mutex<AccountShares<C, D>>,
    ticket: Ticket,
    outcome: Outcome<A>,
    now: Moment,
    token: Option<Booked>,
) -> Result<Vec<u8, A>, DeskError>
    ensures settled { IfOk result (λ v. IsSettlement ticket (stored.counted ticket (outcome_seen outcome) now token) now v.items) }
    ensures strange { OnErr result (IsStrange ticket) }
    ensures fulfills { IfOk result (λ v. is_fulfill_text v.items ≡ is_booked ticket (stored.counted ticket (outcome_seen outcome) now token) now) }
{
    let mut shares = shares.lock(rt);
    desk.lock(rt)
        .settle(&mut shares, ticket, outcome, now, token)
}

fn t00<C: Ledger, D: Ledger, A: Allocator + Copy>(
    rt: &impl Wait,
    desk: &Mutex<HopDesk<C, D, A>>,
) -> Result<Vec<u8, A>, DeskError>
    ensures text { IfOk result (λ v. IsT00 v.items) }
    ensures fails { IfOk result (λ v. is_fulfill_text v.items ≡ false) }
{
    desk.lock(rt).copy_of_t00()
}

/// The last `Moment`, in milliseconds since the start of 1970.
const LAST: i64 = 253_402_300_000_000;

/// The moment from which on an answer to this ticket's Prepare is too late: its expiry, and the last `Moment` if the expiry
/// is later than that. `now` if the expiry is before 1970.
fn deadline_of(ticket: &Ticket, now: Moment) -> Moment
    ensures lesser { pos 0 ≤ℤ ticket.now.expiry → result ≡ deadline ticket.now.expiry }
    ensures before_1970 { ticket.now.expiry <ℤ pos 0 → result ≡ now }
{
    let expiry = ticket.read().expiry;
    let by = if expiry <= LAST { expiry } else { LAST };
    match Moment::new(by) {
        Some(by) => by,
        None => now,
    }
}

/// How a Prepare was answered.
#[derive(Drop)]
pub struct Served<A: Allocator + Copy> {
    /// The index of the account that the Prepare arrived from, and against which its amount was reserved if the hop
    /// forwarded it.
    pub account: usize,
    /// The bytes that answer the Prepare (RFC 0027). `None` if nobody knows whether what it books is stored, or if that is
    /// stored and its ticket is not open any more: then there is no answer that is right.
    pub answer: Option<Vec<u8, A>>,
}

/// The fate of what this outcome books. `None` if it books nothing.
fn fate_of<A: Allocator + Copy, B: Books>(
    books: &mut B,
    ticket: &Ticket,
    outcome: &Outcome<A>,
    now: Moment,
) -> Option<Fate>
    ensures asked { IsAsked B.stores ticket.now (outcome_seen outcome.now) now books.old result books.new }
{
    if !ticket.is_booked_by(outcome, now) {
        return None;
    }
    Some(books.store(booking_of(ticket, outcome, now)))
}

/// The token that a fate leaves, by which the ticket is settled. `None` if the fate is not known.
fn token_of(fate: Option<Fate>) -> Option<Option<Booked>>
    ensures { MatchOption result (fate ≡ Some fated.Unknown) (λ token. IsTokenOf fate token) }
{
    match fate {
        Some(Fate::Stored(token)) => Some(Some(token)),
        Some(Fate::Refused) => Some(None),
        Some(Fate::Unknown) => None,
        None => Some(None),
    }
}

/// Ends a ticket by the fate of what it books, and gives what answers its Prepare. If nobody knows that fate the ticket stays
/// open, with its amount reserved, and there is no answer.
fn end<C: Ledger, D: Ledger, A: Allocator + Copy>(
    rt: &impl Wait,
    desk: &Mutex<HopDesk<C, D, A>>,
    shares: &Mutex<AccountShares<C, D>>,
    ticket: Ticket,
    outcome: Outcome<A>,
    now: Moment,
    fate: Option<Fate>,
) -> Result<Option<Vec<u8, A>>, DeskError>
    requires { MatchOption fate (is_booked ticket (outcome_seen outcome) now ≡ false)
        (λ fate. (is_booked ticket (outcome_seen outcome) now ≡ true) × stored.IsFateOf (stored.booking_of ticket (outcome_seen outcome) now) fate) }
    ensures fulfills { IfOk result (λ answer. MatchOption fate (IsUnfulfilled (told answer)) (λ fate. AnswersBy fate (told answer))) }
    ensures ends { IfOk result (λ answer. EndsAs ticket (outcome_seen outcome) now fate (told answer)) }
{
    let Some(token) = token_of(fate) else {
        ticket.abandon();
        return Ok(None);
    };
    let is_stored = token.is_some();
    match settle(rt, desk, shares, ticket, outcome, now, token) {
        Ok(answer) => Ok(Some(answer)),
        Err(_) if is_stored => Ok(None),
        Err(_) => Ok(Some(t00(rt, desk)?)),
    }
}

/// What answers a Prepare that arrived: the hop's own Reject, or the answer that arrives over the links.
fn answer_to<C: Ledger, D: Ledger, A: Allocator + Copy, T: Links<A>, B: Books, K: Clock>(
    rt: &impl Wait,
    desk: &Mutex<HopDesk<C, D, A>>,
    shares: &Mutex<AccountShares<C, D>>,
    _account: usize,
    verdict: Verdict<A>,
    links: &mut T,
    books: &mut B,
    clock: &mut K,
    now: Moment,
) -> Result<Option<Vec<u8, A>>, DeskError>
    requires { IsOf _account (verdict_seen verdict) }
    ensures { IfOk result (λ answer. IsAnswered T.exchanges B.stores K.reads _account (verdict_seen verdict)
        (around links.old books.old clock.old) (around links.new books.new clock.new) (told answer)) }
{
    match verdict {
        Verdict::Answer(answer) => Ok(Some(answer)),
        Verdict::Forward {
            ticket,
            account,
            bytes,
        } => {
            let by = deadline_of(&ticket, now);
            let outcome = links.exchange(account, &bytes, by);
            let now = clock.now();
            let fate = fate_of(books, &ticket, &outcome, now);
            end(rt, desk, shares, ticket, outcome, now, fate)
        }
    }
}

/// Answers a Prepare that an account sent. If the hop forwards it, the answer is the one that arrives over the link of the
/// account to which it is sent (`links`, by account), and what is booked is added to the shares. The result names the
/// account from which the desk let the Prepare arrive.
///
/// The desk is locked to let the Prepare arrive and to settle it; the shares are locked while it is settled. No lock is
/// kept during the exchange, nor while `books` store what the Fulfill books. A Fulfill is passed back only once that is stored.
/// If it is not stored the answer is T01. If nobody knows, there is no answer: it is lost, like an answer that does not
/// reach the neighbour, and the amount stays reserved until the process ends. The answer is T00 (RFC 0027) if memory was
/// refused on arrival, if there is no such account, or if the ticket is not open any more. Fails with `NoMemory` if
/// there is no memory for T00 either. It waits for the locks.
pub fn serve<C: Ledger, D: Ledger, A: Allocator + Copy, T: Links<A>, B: Books, K: Clock>(
    rt: &impl Wait,
    desk: &Mutex<HopDesk<C, D, A>>,
    shares: &Mutex<AccountShares<C, D>>,
    account: usize,
    bytes: &[u8],
    links: &mut T,
    books: &mut B,
    clock: &mut K,
) -> Result<Served<A>, DeskError>
    ensures account { IfOk result (λ s. s.account ≡ account) }
    ensures served { IfOk result (λ s. IsServed T.exchanges B.stores K.reads account bytes.now
        (around links.old books.old clock.old) (around links.new books.new clock.new) (told s.answer)) }
{
    let now = clock.now();
    let (account, answer) = match arrive(rt, desk, account, bytes, now) {
        Ok(arrived) => {
            let Arrived { account, verdict } = arrived;
            (
                account,
                answer_to(rt, desk, shares, account, verdict, links, books, clock, now)?,
            )
        }
        Err(_) => (account, Some(t00(rt, desk)?)),
    };
    Ok(Served { account, answer })
}
