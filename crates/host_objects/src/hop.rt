//! A hop, with the tickets that wait for their answer and the bytes that the last call returned.

ghost use Rattle.std.specs.Prelude.{◌≡◌, ◌<◌, length, map, nat_lt, Some, None, OnOk, OnErr, IfOk, IfErr, IsOkUnless, IsErrOf, MatchBool, MatchOption};
ghost use Rattle.st_hop.specs.declared.ticket.Open as open_ticket;
ghost use Rattle.st_hop.specs.Books.{AreBooks, WhyNotRestored, restored};
ghost use Rattle.st_links.specs.Outcomes.{outcome_seen};
ghost use Rattle.st_hop.specs.Seen.{way_seen};
ghost use Rattle.st_hop.specs.Table.{is_table, new_hop, RefusesBadTable};
ghost use Rattle.host_objects.specs.Hops.{IsNewHop, IsSameHop, IsTicket, HasNoTicket, Arrives, IsSettled, IsAbandoned, IsRestarted, IsToldBooking, FindsNoTicket};

use st_hop::{Account, HopError, HopState, Open, OpenTicket, Route, Verdict, books_go_on};
use st_ilp::Moment;
use st_links::Outcome;
use std::alloc::{AllocError, Global};

/// The place of an open ticket of this number.
fn place_of(state: &HopState<Global>, kept: &[OpenTicket], number: u64) -> Option<usize>
    ensures { MatchOption result (HasNoTicket state.now kept.now number) (λ place. (t : open_ticket.Open) × IsTicket state.now kept.now number place t) }
{
    for (place, ticket) in kept.iter().enumerate() {
        if ticket.number() == number && ticket.is_open(state) {
            return Some(place);
        }
    }
    None
}

/// What became of a Prepare: what its output is.
#[derive(Clone, Copy, Debug, PartialEq, Eq)]
pub enum Way {
    /// They answer it.
    Back,
    /// They are forwarded to an account, under the number of a ticket.
    Onward {
        /// The number of the ticket.
        ticket: u64,
        /// The index of the account.
        account: usize,
    },
}

/// What settling a ticket would book.
#[derive(Clone, Copy, Debug, PartialEq, Eq)]
pub enum Settling {
    /// No open ticket has the number.
    Unknown,
    /// Nothing.
    Nothing,
    /// The claim and the due of this ticket.
    Books(Open),
}

/// A hop, the tickets that it gave out and that are not spent, and the bytes that the last call returned.
#[derive(Drop)]
pub struct HostHop {
    /// The hop.
    pub state: HopState<Global>,
    /// Its open tickets, in the order in which they were given out.
    pub tickets: Vec<OpenTicket>,
    /// The bytes that the last call returned.
    pub output: Vec<u8>,
}

impl HostHop {
    /// A hop with this address, these accounts and these routes. Fails as `HopState::new` does.
    pub fn new(
        alloc: Global,
        own: &str,
        accounts: &[Account],
        routes: &[Route<'_>],
    ) -> Result<HostHop, HopError>
        ensures made { IfOk result (λ k. IsNewHop (new_hop own.now accounts.now (map way_seen routes.now)) k) }
        ensures refused { RefusesBadTable (is_table own.now accounts.now (map way_seen routes.now)) result }
    {
        Ok(HostHop {
            state: HopState::new(alloc, own, accounts, routes)?,
            tickets: Vec::new(alloc),
            output: Vec::new(alloc),
        })
    }

    /// A hop with this address, these accounts and these routes, with the claims and dues of an earlier one.
    /// Its tickets are numbered from `next` on. Fails as `HopState::restored` does.
    pub fn restored(
        alloc: Global,
        own: &str,
        accounts: &[Account],
        routes: &[Route<'_>],
        claims: &[u64],
        dues: &[u64],
        next: u64,
    ) -> Result<HostHop, HopError>
        ensures made { IfOk result (λ k. IsNewHop (restored (new_hop own.now accounts.now (map way_seen routes.now)) claims.now dues.now next) k) }
        ensures books { OnOk result (AreBooks accounts.now claims.now dues.now) }
        ensures refused { IfErr result (WhyNotRestored own.now accounts.now (map way_seen routes.now) claims.now dues.now) }
    {
        let state = HopState::restored(alloc, own, accounts, routes, claims, dues, next)?;
        state.is_lawful();
        books_go_on();
        Ok(HostHop {
            state,
            tickets: Vec::new(alloc),
            output: Vec::new(alloc),
        })
    }

    /// Ends all open tickets, as a restart with the same books does. Claims and dues stay, nothing is reserved any more,
    /// and the numbers of tickets continue.
    pub fn restart(&mut self)
        ensures { IsRestarted self.old self.new }
    {
        self.state.restart();
        self.tickets.clear();
    }

    /// Handles the bytes of a Prepare from an account. Outputs the bytes that answer it, or those to forward. Fails with
    /// `NoAccount` if there is no account with this index, and otherwise with `NoMemory` if memory is refused.
    pub fn arrive(&mut self, account: usize, bytes: &[u8], now: Moment) -> Result<Way, HopError>
        ensures refused { MatchBool (nat_lt account (length self.old.state.accounts))
            (IsOkUnless result HopError.NoMemory) (IsErrOf result HopError.NoAccount) }
        ensures arrived { IfOk result (λ way. Arrives self.old account bytes.now now way self.new) }
        ensures unchanged { OnErr result (IsSameHop self.old self.new) }
    {
        let _claims = self.state.claims(account)?;
        self.tickets.reserve(1)?;
        match self.state.arrive(account, bytes, now)? {
            Verdict::Answer(answer) => {
                self.output = answer;
                Ok(Way::Back)
            }
            Verdict::Forward {
                ticket,
                account,
                bytes,
            } => {
                let number = ticket.read().number;
                self.tickets.push_reserved(OpenTicket::new(ticket));
                self.output = bytes;
                Ok(Way::Onward {
                    ticket: number,
                    account,
                })
            }
        }
    }

    /// Ends a Prepare that was forwarded under this number, and outputs the answer to the Prepare that had arrived. Whether an open
    /// ticket has this number.
    fn close(&mut self, number: u64, outcome: Outcome<Global>, now: Moment) -> bool
        ensures { MatchBool result (IsSettled self.old self.new number (outcome_seen outcome) now) (FindsNoTicket number self.old self.new) }
    {
        let Some(place) = place_of(&self.state, &self.tickets, number) else {
            return false;
        };
        let ticket = self.tickets.remove(place).spend();
        self.output = self.state.settle(ticket, outcome, now);
        true
    }

    /// Handles the bytes of the answer to a Prepare that was forwarded under this number, and outputs the answer to the
    /// Prepare that had arrived. `false` exactly if no open ticket has this number. Fails if memory is refused.
    pub fn settle(
        &mut self,
        alloc: Global,
        number: u64,
        bytes: &[u8],
        now: Moment,
    ) -> Result<bool, AllocError>
        ensures settled { IfOk result (λ found. MatchBool found (IsSettled self.old self.new number (Some bytes.now) now)
            (FindsNoTicket number self.old self.new)) }
        ensures unchanged { OnErr result (self.new ≡ self.old) }
    {
        let outcome = Outcome::Answered(Vec::from_slice(alloc, bytes)?);
        Ok(self.close(number, outcome, now))
    }

    /// What `settle` with the same arguments would book. Changes nothing. Fails if memory is refused.
    pub fn books(
        &self,
        alloc: Global,
        number: u64,
        bytes: &[u8],
        now: Moment,
    ) -> Result<Settling, AllocError>
        ensures { IfOk result (λ found. IsToldBooking self.now number bytes.now now found) }
    {
        let Some(place) = place_of(&self.state, &self.tickets, number) else {
            return Ok(Settling::Unknown);
        };
        let outcome = Outcome::Answered(Vec::from_slice(alloc, bytes)?);
        let ticket = &self.tickets[place];
        if ticket.books(&outcome, now) {
            Ok(Settling::Books(ticket.read()))
        } else {
            Ok(Settling::Nothing)
        }
    }

    /// There is no answer to a Prepare that was forwarded under this number: outputs the answer to the Prepare that had arrived.
    /// Whether an open ticket has this number.
    pub fn fault(&mut self, number: u64, now: Moment) -> bool
        ensures { MatchBool result (IsSettled self.old self.new number None now) (FindsNoTicket number self.old self.new) }
    {
        self.close(number, Outcome::Fault, now)
    }

    /// Gives up a ticket without an answer. The amount stays reserved. Whether an open ticket has this number.
    pub fn abandon(&mut self, number: u64) -> bool
        ensures { MatchBool result (IsAbandoned self.old self.new number) (FindsNoTicket number self.old self.new) }
    {
        let Some(place) = place_of(&self.state, &self.tickets, number) else {
            return false;
        };
        self.tickets.remove(place).spend().abandon();
        true
    }
}
