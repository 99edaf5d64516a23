//! A ticket in the slot of a caller.

use st_hop::{HopState, Moment, Outcome, Ticket};
use std::alloc::Global;

/// Settles the ticket that a slot keeps, and empties the slot.
fn settle_slot(
    hop: &mut HopState<Global>,
    slot: &mut Option<Ticket>,
    outcome: Outcome<Global>,
    now: Moment,
) -> Option<Vec<u8>> {
    let ticket = slot.take()?;
    if hop.is_open(&ticket) {
        Some(hop.settle(ticket, outcome, now))
    } else {
        ticket.abandon();
        None
    }
}

#[test]
fn a_slot_keeps_a_ticket(rt: HostRuntime) {
    let mut hop = crate::hop::new_hop(rt.alloc()).expect(&rt, "memory");
    let outcome = crate::hop::with_answer(&rt, rt.alloc(), crate::hop::FULFILL);
    let now = crate::hop::moment(&rt, 0);
    let mut slot = Some(crate::hop::ticket_of(&rt, &mut hop));
    let first = settle_slot(&mut hop, &mut slot, outcome, now);
    let second = settle_slot(&mut hop, &mut slot, Outcome::Fault, now);
    if let Some(ticket) = slot {
        ticket.abandon();
    }
    sure!(&rt; first.is_some_and(|answer| answer.as_slice() == crate::hop::FULFILL.as_slice()));
    sure!(&rt; second.is_none());
    sure!(&rt; (hop.all_claims(), hop.all_dues()) == (5, 5));
}
