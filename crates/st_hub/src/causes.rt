//! Why an exchange brought no Fulfill, and at which limit an end waits, for an observer of the workers.

ghost use Rattle.std.specs.Prelude.{◌≡◌, ⊤};
ghost use Rattle.st_links.specs.Outcomes.{outcome_seen};
ghost use Rattle.st_end.specs.Unsealed.{known};
ghost use Rattle.st_hub.specs.Causes.{cause_of, cause_with, end_after};
ghost use Rattle.st_hub.specs.Hub.{with_core};
ghost use Rattle.st_hub.specs.Seen.{cause_seen};
ghost use Rattle.st_hub.specs.Told.{Event, Waits, Fails};

use crate::hub::HubState;
use crate::turns::Turn;
use st_end::Failed;
use st_links::Outcome;
use st_queues::HubName;
use st_sender::Blocked;
use std::alloc::Allocator;

/// Receives a report of each exchange of a worker that brought no Fulfill, and of each limit at which it waits, as a
/// log does.
pub trait Observer {
    // What the observer may be after it heard this event.
    ghost hears: { Self → Event → Self → Type 0 } = { λ _ _ _. ⊤ };

    /// A Prepare failed, for this cause. `limit` is the end's packet limit after it, in units of its asset: after F08
    /// (RFC 0027) it is a new one. It is called once for each exchange whose Prepare was open and is not fulfilled, in
    /// the worker's thread, while it holds no lock of the hub.
    fn failed(&mut self, failed: &Failed, limit: u64)
        ensures { hears self.old (Fails (record { failed = failed.now; limit = limit })) self.new };

    /// A Prepare with a Blocked frame is sent (RFC 0029, section 5.3): bytes or money of this end wait at this limit of
    /// the peer. It is called before the exchange, in the worker's thread, while it holds no lock of the hub.
    fn waits(&mut self, blocked: Blocked)
        ensures { hears self.old (Waits blocked) self.new };
}

/// An observer that does nothing.
#[derive(Clone, Copy, Debug, Drop)]
pub struct Unwatched;

impl Observer for Unwatched {
    ghost hears = { λ old _ new. new ≡ old };

    fn failed(&mut self, _failed: &Failed, _limit: u64) {}

    fn waits(&mut self, _blocked: Blocked) {}
}

/// Why an exchange failed, and the packet limit after it.
#[derive(Drop)]
pub(crate) struct Cause {
    pub(crate) failed: Failed,
    pub(crate) limit: u64,
}

/// The last cause of a hub, and its packet limit.
fn last_cause<N: HubName<A>, A: Allocator + Copy>(state: &HubState<N, A>) -> Option<Cause>
    ensures { cause_seen result ≡ cause_with state.now.flow.core.sending.packet_limit state.now.flow.core.last }
{
    let failed = state.last_failure()?;
    Some(Cause {
        failed,
        limit: state.packet_limit(),
    })
}

/// Ends a `Turn`, and returns why it failed, if it did.
#[tactic(auto, using(crate::proofs::Failing::strange_tells_none, crate::proofs::Failing::paid_tells_none, crate::proofs::Failing::unpaid_tells))]
fn end_turn<N: HubName<A>, A: Allocator + Copy>(
    state: &mut HubState<N, A>,
    turn: Turn<A>,
    outcome: Outcome<A>,
) -> Option<Cause>
    ensures cause { cause_seen result ≡ cause_of state.old.flow.core turn.flight (outcome_seen outcome) }
    ensures ended { state.new ≡ with_core state.old (end_after state.old.flow.core turn.flight (outcome_seen outcome)) }
{
    match state.finish_turn(turn, outcome) {
        Ok(true) | Err(_) => None,
        Ok(false) => last_cause(state),
    }
}

/// Lets the hub know the condition of a `Turn`, ends it, and returns why it failed, if it did.
pub(crate) fn close_turn<N: HubName<A>, A: Allocator + Copy>(
    state: &mut HubState<N, A>,
    turn: Turn<A>,
    outcome: Outcome<A>,
) -> Option<Cause>
    ensures cause { cause_seen result ≡ cause_of (known state.old.flow.core turn.iv turn.flight) turn.flight (outcome_seen outcome) }
    ensures ended { state.new
        ≡ with_core state.old (end_after (known state.old.flow.core turn.iv turn.flight) turn.flight (outcome_seen outcome)) }
{
    state.keep_turn(&turn);
    end_turn(state, turn, outcome)
}
