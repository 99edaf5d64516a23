//! A ticket that is kept until its Prepare is answered.

ghost use Rattle.std.specs.Prelude.{◌≡◌, ◌↔◌, IsTrue};
ghost use Rattle.st_links.specs.Outcomes.{outcome_seen};
ghost use Rattle.st_hop.specs.Settling.{is_booked};
ghost use Rattle.st_hop.specs.Tickets.{IsAmong};

use crate::hop::HopState;
use crate::ticket::{Open, Ticket};
use st_ilp::Moment;
use st_links::Outcome;
use std::alloc::Allocator;
use std::marker::Model;

/// A ticket that waits for its answer. It may be dropped, unlike a `Ticket`, and is abandoned then.
pub struct OpenTicket {
    ticket: Ticket,
}

impl Model for OpenTicket {
    ghost use Rattle.st_hop.specs.declared.ticket.Open as open_ticket;

    ghost Value = { open_ticket.Open };

    ghost view = { λ k. k.ticket };
}

impl Drop for OpenTicket {
    fn drop(self) {
        let OpenTicket { ticket } = self;
        ticket.abandon();
    }
}

impl OpenTicket {
    /// Keeps a ticket.
    pub fn new(ticket: Ticket) -> OpenTicket
        ensures { result ≡ ticket }
    {
        OpenTicket { ticket }
    }

    /// The ticket's number.
    pub fn number(&self) -> u64
        ensures { result ≡ self.now.number }
    {
        self.ticket.read().number
    }

    /// Whether it belongs to a pending Prepare of this hop. Does not allocate.
    pub fn is_open<A: Allocator + Copy>(&self, state: &HopState<A>) -> bool
        ensures { IsTrue result ↔ IsAmong state.now.tickets self.now }
    {
        state.is_open(&self.ticket)
    }

    /// Whether settling it with an outcome at the time `now` books its claim and its due. Does not allocate.
    pub fn books<A: Allocator + Copy>(&self, outcome: &Outcome<A>, now: Moment) -> bool
        ensures { result ≡ is_booked self.now (outcome_seen outcome.now) now }
    {
        self.ticket.is_booked_by(outcome, now)
    }

    /// The ticket's number, accounts, amounts, condition and expiry.
    pub fn read(&self) -> Open
        ensures { result ≡ self.now }
    {
        self.ticket.read()
    }

    /// The ticket, to settle it.
    pub fn spend(self) -> Ticket
        ensures { result ≡ self }
    {
        let OpenTicket { ticket } = self;
        ticket
    }
}
