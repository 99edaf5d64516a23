//! What a settlement books, and the books in which that is stored before it.

ghost use Rattle.std.specs.Prelude.{◌≡◌, true, ⊤};
ghost use Rattle.st_links.specs.Outcomes.{outcome_seen};
ghost use Rattle.st_links.specs.declared.booking.Booking as bookings;
ghost use Rattle.st_hop_desk.specs.Stored as stored;
ghost use Rattle.st_hop_desk.specs.declared.stored.Fate as fates;
ghost use Rattle.st_hop_desk.specs.declared.stored.Fate.TheVariants as fated;

use st_hop::Ticket;
use st_ilp::{Answer, Moment, read_answer};
use st_links::{Booked, Booking, Keeper, Outcome, Proof, commit_one};
use std::alloc::Allocator;

/// The fate of a booking that was to be stored.
#[must_use]
#[derive(Drop)]
pub enum Fate {
    /// It is stored: a crash does not lose it. The token is that of this booking.
    Stored(Booked),
    /// It is not stored, and no later start finds it.
    Refused,
    /// It may be stored or not: the next start finds it, or does not.
    Unknown,
}

impl Fate {
    /// The fate of a booking that a commit gave this token, or none. Without one it is known only if no commit had the booking.
    pub(crate) fn new(token: Option<Booked>, is_known: bool) -> Fate
        ensures { result ≡ stored.fate_by token is_known }
    {
        match token {
            Some(token) => Fate::Stored(token),
            None if is_known => Fate::Refused,
            None => Fate::Unknown,
        }
    }
}

/// The store in which the desk of a hop books a Fulfill, before it settles the ticket and passes the Fulfill on.
pub trait Books {
    // What a booking with this fate made of the books.
    ghost stores: { Self → bookings.Booking → fates.Fate → Self → Type 0 } = { λ _ _ _ _. ⊤ };

    /// Stores a booking, so that a crash does not lose it, and gives its fate.
    fn store(&mut self, booking: Booking) -> Fate
        ensures token { stored.IsFateOf booking result }
        ensures stores { stores self.old booking result self.new };
}

/// Books in memory alone: what was booked is lost when the process ends.
#[derive(Clone, Copy, Debug, PartialEq, Eq)]
pub struct NoBooks;

impl Keeper for NoBooks {
    ghost commits = { λ _ _ _. ⊤ };

    ghost keeps = { λ _ _ _ _. ⊥ };

    fn commit(&mut self, _: &[Booking]) -> Result<(), u8> {
        Ok(())
    }
}

impl Books for NoBooks {
    // No booking is refused.
    ghost stores = { λ _ booking fate _. fate ≡ fated.Stored booking };

    fn store(&mut self, booking: Booking) -> Fate {
        match commit_one(self, booking) {
            Ok(token) => Fate::Stored(token),
            Err(_) => Fate::Refused,
        }
    }
}

/// What proves the claim of a ticket that ends so: `None` if the outcome is not a Fulfill.
fn proof_of<A: Allocator + Copy>(
    ticket: &Ticket,
    outcome: &Outcome<A>,
    now: Moment,
) -> Option<Proof>
    ensures { result ≡ stored.proof_of ticket.now (outcome_seen outcome.now) now }
{
    match outcome {
        Outcome::Answered(bytes) => match read_answer(bytes) {
            Ok(
                Answer::Fulfill {
                    fulfillment,
                    payload: _,
                },
            ) => {
                let condition = ticket.read().condition;
                Some(Proof {
                    condition,
                    fulfillment,
                    moment: now.ms(),
                })
            }
            _ => None,
        },
        Outcome::Fault => None,
    }
}

/// What is booked if this ticket ends fulfilled, by this outcome at the moment `now`. The account from which the Prepare
/// arrived owes the incoming amount more, which the condition and the fulfillment prove, and the account to which it was
/// forwarded is owed the outgoing amount more, each in the units of its link.
pub fn booking_of<A: Allocator + Copy>(
    ticket: &Ticket,
    outcome: &Outcome<A>,
    now: Moment,
) -> Booking
    ensures { result ≡ stored.booking_of ticket.now (outcome_seen outcome.now) now }
{
    let open = ticket.read();
    Booking {
        payer: open.incoming,
        claim: open.amount_in,
        payee: open.outgoing,
        due: open.amount_out,
        proof: proof_of(ticket, outcome, now),
    }
}

fn is_same_proof(one: &Proof, other: &Proof) -> bool
    ensures { result ≡ stored.is_same_proof one.now other.now }
{
    (one.condition == other.condition && one.fulfillment == other.fulfillment)
        && one.moment == other.moment
}

fn are_same_proofs(one: &Option<Proof>, other: &Option<Proof>) -> bool
    ensures { result ≡ stored.are_same_proofs one.now other.now }
{
    match (one, other) {
        (None, None) => true,
        (Some(one), Some(other)) => is_same_proof(one, other),
        _ => false,
    }
}

/// Whether two bookings are the same.
pub(crate) fn is_same(one: Booking, other: Booking) -> bool
    ensures { result ≡ stored.is_same one other }
{
    ((one.payer == other.payer && one.claim == other.claim)
        && (one.payee == other.payee && one.due == other.due))
        && are_same_proofs(&one.proof, &other.proof)
}

/// Whether this is the token of what the ticket books.
fn is_stored<A: Allocator + Copy>(
    ticket: &Ticket,
    outcome: &Outcome<A>,
    now: Moment,
    token: &Option<Booked>,
) -> bool
    ensures { result ≡ stored.is_stored ticket.now (outcome_seen outcome.now) now token.now }
{
    match token {
        Some(token) => is_same(token.booking(), booking_of(ticket, outcome, now)),
        None => false,
    }
}

/// The outcome that counts for a ticket: a Fulfill whose booking was not stored counts as no answer.
pub(crate) fn counted<A: Allocator + Copy>(
    ticket: &Ticket,
    outcome: Outcome<A>,
    now: Moment,
    token: &Option<Booked>,
) -> Outcome<A>
    ensures { outcome_seen result ≡ stored.counted ticket.now (outcome_seen outcome) now token.now }
{
    if ticket.is_booked_by(&outcome, now) && !is_stored(ticket, &outcome, now, token) {
        return Outcome::Fault;
    }
    outcome
}
