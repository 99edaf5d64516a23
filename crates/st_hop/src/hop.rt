//! The state of a hop: accounts, routes and pending Prepares.

ghost use Rattle.std.specs.Prelude.{◌≡◌, ◌<◌, ◌≤◌, ◌≤ℤ◌, pos, ◌^◌, false, length, map, sum, IfOk, IfErr, OnErr, IsErrOf, IsTrue, IsOkUnless, ◌↔◌, nat_lt, slice_index, if◌then◌else◌, None, MatchBool};
ghost use Rattle.st_oer.specs.Ratios.{exchanged};
ghost use Rattle.st_ilp.specs.Writing.{prepare_refusal};
ghost use Rattle.st_ilp.specs.Seen.{prepare_seen};
ghost use Rattle.st_hop.specs.Refusals.{reject_text, t00_text};
ghost use Rattle.st_hop.specs.Books.{WhyNotRestored, restored};
ghost use Rattle.st_hop.specs.Hop.{held_of, is_over_limit, last_next, holding, restarted};
ghost use Rattle.st_hop.specs.Tickets.{IsAmong};
ghost use Rattle.st_hop.specs.Routing.{route_to};
ghost use Rattle.st_hop.specs.Arriving.{Answers, judged, routed, arrived, sent_on, ticket_for, onward};
ghost use Rattle.st_hop.specs.Table.{is_table, new_hop, RefusesBadTable};
ghost use Rattle.st_hop.specs.Lawful.{IsLawful};
ghost use Rattle.st_hop.specs.Seen.{way_seen, verdict_seen, IsReady, GoesAcross};

use crate::account::{Account, is_beyond, raise, zeros};
use crate::books::totals_of;
use crate::error::HopError;
use crate::refusal::Refusal;
use crate::room::{Room, reject};
use crate::route::{NextHop, Route, Routes};
use crate::table::{MAX_SUM, TableParts, routes_of};
use crate::ticket::{Open, Ticket};
use crate::verdict::Verdict;
use crate::waiting::{Waiting, is_waiting};
use st_ilp::{IlpError, Moment, Prepare, read_prepare, write_prepare};
use st_oer::Rate;
use std::alloc::Allocator;
use std::collections::BTreeMap;
use std::marker::Model;

/// The time that the hop takes off a Prepare's expiry when it forwards it, in milliseconds.
const HOP_TIME: i64 = 1000;

/// The state of a hop: the claims and dues of its accounts, and the Prepares that wait for their answer.
pub struct HopState<A: Allocator + Copy> {
    pub(crate) own: String<A>,
    accounts: Vec<Account, A>,
    routes: Routes<A>,
    pub(crate) claims: Vec<u64, A>,
    pub(crate) dues: Vec<u64, A>,
    pub(crate) waiting: BTreeMap<u64, Waiting<A>, A>,
    next: u64,
    // What the open tickets hold, by account.
    pub(crate) held: Vec<u64, A>,
    // Sums over all accounts, of what is booked and of that with what the open tickets add. Each is below 2^63.
    pub(crate) all_claims: u64,
    pub(crate) all_dues: u64,
    pub(crate) claimed: u64,
    pub(crate) due: u64,
    t00: Vec<u8, A>,
    alloc: A,
}

// It is written out, so that a caller does not prove again how each part is dropped.
impl<A: Allocator + Copy> Drop for HopState<A> {
    fn drop(self) {
        let HopState {
            own: _,
            accounts: _,
            routes: _,
            claims: _,
            dues: _,
            waiting: _,
            next: _,
            held: _,
            all_claims: _,
            all_dues: _,
            claimed: _,
            due: _,
            t00: _,
            alloc: _,
        } = self;
    }
}

impl<A: Allocator + Copy> Model for HopState<A> {
    ghost use Rattle.std.specs.Prelude.{string_bytes};
    ghost use Rattle.std.specs.Coded.{codes};
    ghost use Rattle.st_hop.specs.Hop.{Hop};
    ghost use Rattle.st_hop.specs.Inside.{IsSound, tickets_of};

    ghost Value = { Hop };

    ghost coded = { Prim.hlevel (codes) };

    ghost view = { λ s. record {
      own = string_bytes s.own;
      accounts = s.accounts.items;
      routes = s.routes;
      claims = s.claims.items;
      dues = s.dues.items;
      tickets = tickets_of s.waiting.entries;
      next = s.next;
    } };

    ghost invariant = { λ s. IsSound (record {
      own = string_bytes s.own;
      accounts = s.accounts.items;
      routes = s.routes;
      claims = s.claims.items;
      dues = s.dues.items;
      tickets = tickets_of s.waiting.entries;
      next = s.next;
    })
        s.held.items s.all_claims s.all_dues s.claimed s.due s.waiting.entries s.t00.items };
}

/// The Prepare that is forwarded at a rate.
fn onward<'b>(prepare: &Prepare<'b>, rate: Rate) -> Prepare<'b>
    requires time { pos 1000 ≤ℤ prepare.now.expiry }
    requires amount { exchanged rate prepare.now.amount < 2 ^ 64 }
    ensures { prepare_seen result ≡ onward rate (prepare_seen prepare.now) }
{
    Prepare {
        amount: rate.of(prepare.amount) as u64,
        expiry: prepare.expiry - HOP_TIME,
        condition: prepare.condition,
        destination: prepare.destination,
        payload: prepare.payload,
    }
}

impl<A: Allocator + Copy> HopState<A> {
    /// A hop with the ILP address `own`, these accounts and routes, and nothing owed yet. Accounts are numbered from 0.
    ///
    /// Fails with `BadTable` if `own` or a prefix is not an ILP address, a route names an account that does not
    /// exist, a prefix is given twice, or a limit is above 2^63 - 1. Otherwise with `NoMemory` if memory is refused.
    pub fn new(
        alloc: A,
        own: &str,
        accounts: &[Account],
        routes: &[Route<'_>],
    ) -> Result<HopState<A>, HopError>
        ensures made { IfOk result (λ h. h ≡ new_hop own.now accounts.now (map way_seen routes.now)) }
        ensures refused { RefusesBadTable (is_table own.now accounts.now (map way_seen routes.now)) result }
    {
        let routes = routes_of(alloc, own, accounts, routes)?;
        let table = TableParts::new(alloc, own, accounts, routes)?;
        let claims = zeros(alloc, accounts.len())?;
        let dues = zeros(alloc, accounts.len())?;
        let held = zeros(alloc, accounts.len())?;
        let (own, accounts, routes, t00) = table.take();
        Ok(HopState {
            own,
            accounts,
            routes,
            claims,
            dues,
            waiting: BTreeMap::new(alloc),
            next: 0,
            held,
            all_claims: 0,
            all_dues: 0,
            claimed: 0,
            due: 0,
            t00,
            alloc,
        })
    }

    /// A hop with this address, these accounts and these routes, with the books of an earlier one: the claims and
    /// dues of each account, in the units of its link. No ticket is open. Its tickets are numbered from `next`, which has
    /// to be above each number that an earlier hop with these books gave out.
    ///
    /// Fails with `BadTable` as `new` does. Otherwise fails with `BadBooks` if not each account has a claim and a due, an
    /// account owes more than its limit plus its due, or a sum is above 2^63 - 1. Otherwise fails with `NoMemory` if a
    /// request for memory was refused.
    pub fn restored(
        alloc: A,
        own: &str,
        accounts: &[Account],
        routes: &[Route<'_>],
        claims: &[u64],
        dues: &[u64],
        next: u64,
    ) -> Result<HopState<A>, HopError>
        ensures made { IfOk result (λ h. h ≡ restored (new_hop own.now accounts.now (map way_seen routes.now)) claims.now dues.now next) }
        ensures refused { IfErr result (WhyNotRestored own.now accounts.now (map way_seen routes.now) claims.now dues.now) }
    {
        let totals = totals_of(accounts, claims, dues);
        let routes = match routes_of(alloc, own, accounts, routes) {
            Ok(routes) => routes,
            Err(HopError::NoMemory) if totals.is_none() => return Err(HopError::BadBooks),
            Err(error) => return Err(error),
        };
        let Some(totals) = totals else {
            return Err(HopError::BadBooks);
        };
        let table = TableParts::new(alloc, own, accounts, routes)?;
        let claims = Vec::from_slice(alloc, claims)?;
        let dues = Vec::from_slice(alloc, dues)?;
        let held = zeros(alloc, accounts.len())?;
        let (own, accounts, routes, t00) = table.take();
        Ok(HopState {
            own,
            accounts,
            routes,
            claims,
            dues,
            waiting: BTreeMap::new(alloc),
            next,
            held,
            all_claims: totals.claims,
            all_dues: totals.dues,
            claimed: totals.claims,
            due: totals.dues,
            t00,
            alloc,
        })
    }

    /// What an account owes the hop: the sum of the amounts of the fulfilled Prepares that arrived from it, in the
    /// units of its link. Does not allocate. Fails with `NoAccount` if there is no account with this index.
    pub fn claims(&self, account: usize) -> Result<u64, HopError>
        ensures { result ≡ (if nat_lt account (length self.now.accounts) then Ok (slice_index self.now.claims account) else Err HopError.NoAccount) }
    {
        self.claims.get(account).copied().ok_or(HopError::NoAccount)
    }

    /// What the hop owes an account: the sum of the amounts of the fulfilled Prepares that were forwarded to it, in the
    /// units of its link. Does not allocate. Fails with `NoAccount` if there is no account with this index.
    pub fn dues(&self, account: usize) -> Result<u64, HopError>
        ensures { result ≡ (if nat_lt account (length self.now.accounts) then Ok (slice_index self.now.dues account) else Err HopError.NoAccount) }
    {
        self.dues.get(account).copied().ok_or(HopError::NoAccount)
    }

    /// What is reserved against an account: the sum of the amounts of the Prepares from it that wait for their answer,
    /// in the units of its link. Does not allocate. Fails with `NoAccount` if there is no account with this index.
    pub fn held(&self, account: usize) -> Result<u64, HopError>
        ensures { result ≡ (if nat_lt account (length self.now.accounts) then Ok (held_of self.now account) else Err HopError.NoAccount) }
    {
        self.held.get(account).copied().ok_or(HopError::NoAccount)
    }

    /// The sum of what all accounts owe the hop, whatever the units of their links. Does not allocate.
    pub fn all_claims(&self) -> u64
        ensures { result ≡ sum self.now.claims }
    {
        self.all_claims
    }

    /// The sum of what the hop owes all accounts, whatever the units of their links. Does not allocate.
    pub fn all_dues(&self) -> u64
        ensures { result ≡ sum self.now.dues }
    {
        self.all_dues
    }

    /// The bytes of a Reject T00 (RFC 0027), ready for use when memory is refused. Does not allocate.
    pub fn t00(&self) -> &[u8]
        ensures { result.now ≡ t00_text self.now.own }
    {
        self.t00.as_slice()
    }

    /// Whether `ticket` belongs to a pending Prepare of this hop, one that is not settled yet. Does not allocate.
    pub fn is_open(&self, ticket: &Ticket) -> bool
        ensures { IsTrue result ↔ IsAmong self.now.tickets ticket.now }
    {
        is_waiting(&self.waiting, ticket.read())
    }

    /// Whether the received amount exceeds the account's limit, or one of the hop's sums would exceed 2^63 - 1.
    fn is_over_limit(&self, account: usize, received: u64, sent: u128) -> bool
        requires { account < length self.now.accounts }
        ensures { result ≡ is_over_limit self.now account received sent }
    {
        is_beyond(
            &self.accounts[account],
            self.claims[account],
            self.held[account],
            self.dues[account],
            received,
        ) || received > MAX_SUM - self.claimed
            || sent > u128::from(MAX_SUM - self.due)
    }

    /// The next hop to which the routes lead a Prepare, or the first rule that stops it there.
    fn routed(&self, account: usize, prepare: &Prepare<'_>) -> Result<NextHop, Refusal>
        requires { account < length self.now.accounts }
        ensures { result ≡ routed self.now account (prepare_seen prepare.now) (route_to self.now.routes (prepare_seen prepare.now).destination) }
    {
        let Some(next) = self.routes.find(prepare.destination) else {
            return Err(Refusal::Unreachable);
        };
        if next.account == account {
            return Err(Refusal::Unreachable);
        }
        if self.is_over_limit(account, prepare.amount, next.rate.of(prepare.amount)) {
            return Err(Refusal::InsufficientLiquidity);
        }
        if self.next == u64::MAX {
            return Err(Refusal::InternalError);
        }
        Ok(next)
    }

    /// The next hop of a Prepare, or the first rule that rejects it.
    fn judge(&self, account: usize, prepare: &Prepare<'_>, now: Moment) -> Result<NextHop, Refusal>
        requires { account < length self.now.accounts }
        ensures { result ≡ judged self.now account (prepare_seen prepare.now) now }
    {
        let maximum = self.accounts[account].max_packet;
        if prepare.amount > maximum {
            return Err(Refusal::AmountTooLarge {
                received: prepare.amount,
                maximum,
            });
        }
        if prepare.expiry <= now.ms() + HOP_TIME {
            return Err(Refusal::InsufficientTimeout);
        }
        self.routed(account, prepare)
    }

    /// The answer with the hop's own Reject.
    fn refuse(&self, refusal: Refusal) -> Result<Verdict<A>, HopError>
        ensures answers { IfOk result (λ v. verdict_seen v ≡ Answers (reject_text self.now.own refusal)) }
        ensures only_memory { IsOkUnless result HopError.NoMemory }
    {
        Ok(Verdict::Answer(reject(self.alloc, self.own.as_str(), refusal)?))
    }

    /// Reserves the amount of a Prepare that is forwarded as another one, and reserves memory for the answer.
    fn hold(
        &mut self,
        incoming: usize,
        outgoing: usize,
        received: &Prepare<'_>,
        sent: &Prepare<'_>,
    ) -> Result<Ticket, HopError>
        requires incoming { incoming < length self.old.accounts }
        requires outgoing { outgoing < length self.old.accounts }
        requires fits { is_over_limit self.old incoming received.now.amount sent.now.amount ≡ false }
        requires number { self.old.next < last_next }
        ensures held { IfOk result (λ t. self.new ≡ holding self.old t) }
        ensures ticket { IfOk result (λ t. t ≡ ticket_for self.old.next incoming outgoing (prepare_seen received.now) (prepare_seen sent.now)) }
        ensures only_memory { IsOkUnless result HopError.NoMemory }
        ensures unchanged { OnErr result (self.new ≡ self.old) }
    {
        let room = Room::new(self.alloc, self.own.as_str(), Refusal::PeerUnreachable)?;
        let ticket = Open {
            number: self.next,
            incoming,
            outgoing,
            amount_in: received.amount,
            amount_out: sent.amount,
            condition: sent.condition,
            expiry: sent.expiry,
        };
        let _ = self
            .waiting
            .insert(ticket.number, Waiting { ticket, room })?;
        raise(&mut self.held, incoming, received.amount);
        self.claimed += received.amount;
        self.due += sent.amount;
        self.next += 1;
        Ok(Ticket::new(ticket))
    }

    /// Forwards a Prepare and reserves its amount.
    fn forward(
        &mut self,
        incoming: usize,
        next: NextHop,
        prepare: &Prepare<'_>,
    ) -> Result<Verdict<A>, HopError>
        requires incoming { incoming < length self.old.accounts }
        requires outgoing { next.account < length self.old.accounts }
        requires fits { is_over_limit self.old incoming prepare.now.amount (exchanged next.rate prepare.now.amount) ≡ false }
        requires number { self.old.next < last_next }
        requires time { pos 1000 ≤ℤ prepare.now.expiry }
        requires written { prepare_refusal (onward next.rate (prepare_seen prepare.now)) ≡ None }
        ensures sent { IfOk result (λ v. sent_on self.old incoming (prepare_seen prepare.now) (Ok next) ≡ (verdict_seen v, self.new)) }
        ensures only_memory { IsOkUnless result HopError.NoMemory }
        ensures unchanged { OnErr result (self.new ≡ self.old) }
    {
        let sent = onward(prepare, next.rate);
        let bytes = match write_prepare(self.alloc, &sent) {
            Ok(bytes) => bytes,
            Err(IlpError::NoMemory) => return Err(HopError::NoMemory),
            Err(_) => unreachable!(),
        };
        let ticket = self.hold(incoming, next.account, prepare, &sent)?;
        Ok(Verdict::Forward {
            ticket,
            account: next.account,
            bytes,
        })
    }

    /// Handles the bytes of a Prepare that arrived from an account, `now` being the current time (RFC 0027). Gives the
    /// Prepare to forward with a ticket for its answer, or the Reject that answers it.
    ///
    /// The amount of a forwarded Prepare is reserved against the account. The forwarded amount is that amount at the
    /// rate of the route, rounded down; it may be 0. The ticket is open afterwards, as `settle` requires. Once 2^64 - 1
    /// tickets were given out, a Prepare that could otherwise be forwarded is answered with T00.
    ///
    /// Fails with `NoAccount` if there is no account with this index, and otherwise with `NoMemory` if memory is
    /// refused.
    pub fn arrive(
        &mut self,
        account: usize,
        bytes: &[u8],
        now: Moment,
    ) -> Result<Verdict<A>, HopError>
        ensures arrived { IfOk result (λ v. arrived self.old account bytes.now now ≡ (verdict_seen v, self.new)) }
        ensures ready { IfOk result (λ v. IsReady self.new v) }
        ensures across { IfOk result (λ v. GoesAcross self.old account v) }
        ensures books_nothing { (self.new.claims ≡ self.old.claims) × (self.new.dues ≡ self.old.dues) }
        ensures refused { MatchBool (nat_lt account (length self.old.accounts)) (IsOkUnless result HopError.NoMemory) (IsErrOf result HopError.NoAccount) }
        ensures unchanged { OnErr result (self.new ≡ self.old) }
    {
        if account >= self.accounts.len() {
            return Err(HopError::NoAccount);
        }
        let Ok(prepare) = read_prepare(bytes) else {
            return self.refuse(Refusal::InvalidPacket);
        };
        match self.judge(account, &prepare, now) {
            Ok(next) => self.forward(account, next, &prepare),
            Err(refusal) => self.refuse(refusal),
        }
    }

    /// Ends all open tickets, as a restart with the same books does. Claims and dues stay, nothing is reserved any more,
    /// and the numbers of tickets continue. Does not allocate.
    ///
    /// No later ticket has the number of one that was open, so an answer to an earlier Prepare settles nothing.
    pub fn restart(&mut self)
        ensures { self.new ≡ restarted self.old self.old.next }
    {
        self.waiting.clear();
        self.held.fill(0);
        self.claimed = self.all_claims;
        self.due = self.all_dues;
    }

    /// A law of every hop, for callers that keep no list of the calls. It does nothing. The accounts are within their
    /// limits, the sums below 2^63, and the tickets in the order of their numbers.
    pub fn is_lawful(&self)
        ensures { IsLawful self.now }
    {
        let _own = &self.own;
    }
}
