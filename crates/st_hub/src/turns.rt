//! The calls of a hub for threads that send Prepares, and for those that receive them.

ghost use Rattle.std.specs.Prelude.{◌≡◌, ◌≢◌, ◌+◌, ◌<◌, true, false, not, sum, vec_len, is_some, OnErr, IfOk, IfErr, IfSome, IsOkUnless, MatchBool, MatchOption};
ghost use Rattle.st_links.specs.Outcomes.{outcome_seen};
ghost use Rattle.st_sender.specs.Stops.{blocked_at};
ghost use Rattle.st_end.specs.Sending as sending;
ghost use Rattle.st_end.specs.Sending.{Goes, GoesNone};
ghost use Rattle.st_end.specs.Unsealed.{GoesUnsealed, known};
ghost use Rattle.st_end.specs.Answers.{ended, pays};
ghost use Rattle.st_end.specs.Receiving.{received};
ghost use Rattle.st_end.specs.Seen.{received_seen};
ghost use Rattle.st_hub.specs.Hub.{with_core};
ghost use Rattle.st_hub.specs.Stalls.{Does, IsStalled, own_waits};
ghost use Rattle.st_hub.specs.Turns.{credited_by, IsExpiryOf};
ghost use Rattle.st_hub.specs.declared.error.HubError.TheVariants.{NoShareLeft, Stranger, MissingShare, NoMemory};

use crate::error::HubError;
use crate::hub::{HubState, publish};
use crate::unsealed::{UnsealedTurn, limit_of, turn_at};
use st_end::{EndState, Flight, Received};
use st_ilp::Moment;
use st_links::Outcome;
use st_queues::HubName;
use st_sender::Blocked;
use st_streams::StreamId;
use std::alloc::Allocator;
use std::marker::Model;
use std::sync::ledger::{Ledger, Share};

/// The largest number of `CreditShare`s of one hub that can be outstanding at a time: one for each thread that receives
/// Prepares.
pub const SHARES: u64 = 63;

/// A Prepare that a hub gave out to be sent, and that waits for its answer. It must be spent: by
/// `HubState::finish_turn`, or by `abandon`.
#[must_use]
pub struct Turn<A: Allocator + Copy> {
    // Under which its packet was sealed.
    pub(crate) iv: [u8; 12],
    pub(crate) flight: Flight,
    pub(crate) bytes: Vec<u8, A>,
    // The moment that the bytes say.
    pub(crate) expiry: Moment,
    // The limit of the peer that its Blocked frame reports.
    pub(crate) stops: Option<Blocked>,
}

impl<A: Allocator + Copy> Model for Turn<A> {
    ghost use Rattle.st_hub.specs.Turns.{Sent, IsExpiryOf};

    ghost Value = { Sent };

    ghost view = { λ t. record { iv = t.iv; flight = t.flight; bytes = t.bytes.items; stops = t.stops } };

    ghost invariant = { λ t. IsExpiryOf t.bytes.items t.expiry };
}

impl<A: Allocator + Copy> Turn<A> {
    /// The bytes of the Prepare (RFC 0027).
    pub fn bytes(&self) -> &[u8]
        ensures { result.now ≡ self.now.bytes }
    {
        self.bytes.as_slice()
    }

    /// The moment at which the Prepare expires, as its bytes say (RFC 0027, expiresAt): an answer that arrives later is of
    /// no use. Its contract says so up to the last `Moment`, some minutes before the year 9999 ends.
    pub fn expires(&self) -> Moment
        ensures { IsExpiryOf self.now.bytes result }
    {
        self.expiry
    }

    /// The limit of the peer at which bytes or money wait, if the Prepare carries a Blocked frame (RFC 0029, section
    /// 5.3). Does not allocate.
    pub fn blocked_at(&self) -> Option<Blocked>
        ensures { result ≡ self.now.stops }
    {
        self.stops
    }

    /// Gives the `Turn` up, if its answer will not be processed. What the Prepare carries stays in flight. Does not
    /// allocate.
    pub fn abandon(self) {
        let Turn {
            iv: _,
            flight,
            bytes: _,
            expiry: _,
            stops: _,
        } = self;
        flight.abandon();
    }
}

/// The result of one step of a worker.
#[must_use]
pub enum Step<A: Allocator + Copy> {
    /// A Prepare is to be sealed and exchanged.
    Sends(UnsealedTurn<A>),
    /// Nothing can be sent now.
    Idle,
    /// Nothing can be sent any more, unless the peer sends a packet of its own: the limits that the peer set stop all
    /// that is left of a stream, and no Prepare is in flight whose answer could raise them.
    Stalled,
}

/// One thread's part of the hub's ledger of credit, in units: what was credited by the Prepares that this thread took
/// in.
#[derive(Drop)]
pub struct CreditShare<N: Ledger> {
    share: Share<N>,
}

impl<N: Ledger> Model for CreditShare<N> {
    ghost use Rattle.std.specs.Prelude.{◌≡◌, ℕ};

    ghost Value = { ℕ };

    ghost view = { λ s. s.share.amount };

    ghost invariant = { λ s. s.share.parts ≡ 1 };
}

/// Whether a worker's stream waits, if it has one.
fn waits<A: Allocator + Copy>(core: &EndState<A>, stream: Option<StreamId>) -> bool
    ensures { result ≡ own_waits core.now stream }
{
    match stream {
        Some(stream) => core.waits(stream),
        None => false,
    }
}

impl<N: HubName<A>, A: Allocator + Copy> HubState<N, A> {
    /// Gives a share of the credit for one thread that receives Prepares, with nothing credited. Does not allocate.
    ///
    /// Fails with `NoShareLeft` if 63 are outstanding; then nothing has changed.
    pub fn share(&mut self) -> Result<CreditShare<N>, HubError>
        ensures given { IfOk result (λ s. (s ≡ 0) × (self.old.out < 63) × (self.new ≡ record self.old { out = self.old.out + 1 })) }
        ensures none_left { IfErr result (λ e. (e ≡ NoShareLeft) × (self.old.out ≡ 63) × (self.new ≡ self.old)) }
    {
        if self.out >= SHARES {
            return Err(HubError::NoShareLeft);
        }
        let HubState { spare, out, .. } = self;
        let share = spare.split_off(1, 0);
        *out += 1;
        Ok(CreditShare { share })
    }

    /// Returns the next Prepare that is to be sent at the time `now`, sealed under `iv`, as `EndState::send` makes it.
    /// Returns `None` if nothing can be sent now. No IV may be used for two packets of a connection (SP 800-38D): the
    /// caller sees to that. It is `take_unsealed`, `UnsealedTurn::seal` and `keep_turn`.
    ///
    /// Fails with `NoMemory` if memory is refused, and for no other reason; then nothing has changed.
    pub fn take_turn(&mut self, iv: [u8; 12], now: Moment) -> Result<Option<Turn<A>>, HubError>
        ensures only_memory { IsOkUnless result NoMemory }
        ensures goes { IfOk result (λ sent. MatchOption sent (GoesNone self.old.flow.core × (self.new.flow.core ≡ self.old.flow.core))
            (λ t. Goes self.old.flow.core iv now t.flight t.bytes self.new.flow.core)) }
        ensures stops { IfOk result (λ sent. IfSome sent (λ t. t.stops ≡ blocked_at self.new.flow.core.sending.flights t.flight.sequence)) }
        ensures unchanged { OnErr result (self.new.flow.core ≡ self.old.flow.core) }
        ensures rest { self.new ≡ with_core self.old self.new.flow.core }
    {
        let Some(unsealed) = self.take_unsealed(iv, now)? else {
            return Ok(None);
        };
        let turn = unsealed.seal();
        self.keep_turn(&turn);
        Ok(Some(turn))
    }

    /// The first part of `take_turn`, which leaves the sealing to `UnsealedTurn::seal`. No lock is needed for that. Until
    /// `keep_turn` is called, the `Turn` is not open here.
    ///
    /// `None`, and failure, as of `take_turn`.
    pub fn take_unsealed(
        &mut self,
        iv: [u8; 12],
        now: Moment,
    ) -> Result<Option<UnsealedTurn<A>>, HubError>
        ensures only_memory { IsOkUnless result NoMemory }
        ensures goes { IfOk result (λ sent. MatchOption sent (GoesNone self.old.flow.core × (self.new.flow.core ≡ self.old.flow.core))
            (λ t. GoesUnsealed self.old.flow.core iv now t.flight t.bytes self.new.flow.core)) }
        ensures stops { IfOk result (λ sent. IfSome sent (λ t. t.stops ≡ blocked_at self.new.flow.core.sending.flights t.flight.sequence)) }
        ensures iv { IfOk result (λ sent. IfSome sent (λ t. t.iv ≡ iv)) }
        ensures unchanged { OnErr result (self.new.flow.core ≡ self.old.flow.core) }
        ensures rest { self.new ≡ with_core self.old self.new.flow.core }
    {
        let HubState {
            streams,
            gauge,
            seat,
            ..
        } = self;
        let sent = streams.send_unsealed(iv, now);
        let stops = limit_of(streams.core(), &sent);
        publish(gauge, seat, streams);
        match sent {
            Ok(Some(unsealed)) => Ok(Some(turn_at(iv, unsealed, stops, now))),
            Ok(None) => Ok(None),
            Err(_) => Err(HubError::NoMemory),
        }
    }

    /// Lets the hub know the condition of a `Turn` that `take_unsealed` gave and that is sealed now. It is then open here, and
    /// `finish_turn` can end it. If the hub waits for no such condition, nothing changes. Does not allocate.
    pub fn keep_turn(&mut self, turn: &Turn<A>)
        ensures kept { self.new.flow.core ≡ known self.old.flow.core turn.now.iv turn.now.flight }
        ensures rest { self.new ≡ with_core self.old self.new.flow.core }
    {
        let HubState {
            streams,
            gauge,
            seat,
            ..
        } = self;
        streams.keep(turn.iv, &turn.flight);
        publish(gauge, seat, streams);
    }

    /// Whether nothing can be sent any more of a stream, unless the peer sends a packet of its own. It is to be called
    /// when `take_unsealed` gave `None`. Does not allocate.
    fn is_stalled(&self, stream: Option<StreamId>) -> bool
        requires { GoesNone self.now.flow.core }
        ensures { MatchBool result (IsStalled self.now.flow.core stream) (¬ (IsStalled self.now.flow.core stream)) }
    {
        let core = self.streams.core();
        core.in_flight() == 0 && waits(core, stream)
    }

    /// Makes one step of a worker at the time `now`. It returns the next Prepare as `take_unsealed` does, under the IV in
    /// `spare_iv`, which is to be there; that IV is then used up, and `spare_iv` is `None`. If nothing can be sent, `spare_iv`
    /// keeps its IV, and the step is `Stalled` exactly if nothing is in flight and `stream` still waits: bytes that it
    /// accepted are not acknowledged, or its close is not fulfilled. Without a `stream` no step is `Stalled`.
    ///
    /// Fails with `NoMemory` if memory is refused, and for no other reason; then nothing has changed.
    pub fn step(
        &mut self,
        spare_iv: &mut Option<[u8; 12]>,
        stream: Option<StreamId>,
        now: Moment,
    ) -> Result<Step<A>, HubError>
        requires spare_iv { is_some spare_iv.old ≡ true }
        ensures only_memory { IsOkUnless result NoMemory }
        ensures does { IfOk result (λ step. Does self.old.flow.core spare_iv.old stream now step self.new.flow.core spare_iv.new) }
        ensures unchanged { OnErr result ((self.new.flow.core ≡ self.old.flow.core) × (spare_iv.new ≡ spare_iv.old)) }
        ensures rest { self.new ≡ with_core self.old self.new.flow.core }
    {
        let Some(iv) = *spare_iv else {
            unreachable!();
        };
        match self.take_unsealed(iv, now) {
            Ok(Some(turn)) => {
                *spare_iv = None;
                Ok(Step::Sends(turn))
            }
            Ok(None) => {
                if self.is_stalled(stream) {
                    Ok(Step::Stalled)
                } else {
                    Ok(Step::Idle)
                }
            }
            Err(refused) => Err(refused),
        }
    }

    /// Ends a `Turn` with its outcome, as `EndState::answer` does with the bytes of an answer and `EndState::fault`
    /// without one. Returns whether the outcome is a Fulfill that fits; if not, `last_failure` says why. Does not
    /// allocate.
    ///
    /// Fails with `Stranger` if the `Turn` is not open at this hub. Then nothing has changed, and the `Turn` is spent.
    pub fn finish_turn(&mut self, turn: Turn<A>, outcome: Outcome<A>) -> Result<bool, HubError>
        ensures finished { IfOk result (λ _. (sending.is_open self.old.flow.core turn.flight ≡ true)
            × (self.new.flow.core ≡ ended self.old.flow.core turn.flight (outcome_seen outcome))) }
        ensures paid { IfOk result (λ paid. paid ≡ pays turn.flight (outcome_seen outcome)) }
        ensures stranger { IfErr result (λ e. (e ≡ Stranger) × (sending.is_open self.old.flow.core turn.flight ≡ false) × (self.new ≡ self.old)) }
        ensures rest { self.new ≡ with_core self.old self.new.flow.core }
    {
        let Turn {
            iv: _,
            flight,
            bytes: _,
            expiry: _,
            stops: _,
        } = turn;
        if !self.streams.core().is_open(&flight) {
            flight.abandon();
            return Err(HubError::Stranger);
        }
        let HubState {
            streams,
            gauge,
            seat,
            ..
        } = self;
        let paid = streams.settle(flight, outcome);
        publish(gauge, seat, streams);
        Ok(paid)
    }

    /// Processes the bytes that arrived from the peer at the time `now`, and returns the Fulfill or Reject that answers
    /// them, as `EndState::receive` does (RFC 0027, RFC 0029). The units that it credits are added to `share`.
    ///
    /// Fails with `NoMemory` if memory is refused, and for no other reason. Then nothing has changed, and the caller
    /// may answer `t00`.
    pub fn incoming(
        &mut self,
        share: &mut CreditShare<N>,
        bytes: &[u8],
        now: Moment,
    ) -> Result<Received<A>, HubError>
        ensures answers { IfOk result (λ r. received self.old.flow.core bytes.now now ≡ (received_seen r, self.new.flow.core)) }
        ensures credited { IfOk result (λ r. share.new ≡ share.old + credited_by (received_seen r)) }
        ensures refused { IfErr result (λ e. (e ≡ NoMemory) × (self.new ≡ self.old) × (share.new ≡ share.old)) }
        ensures rest { self.new ≡ with_core self.old self.new.flow.core }
    {
        let HubState {
            streams,
            gauge,
            seat,
            credit,
            ..
        } = self;
        let CreditShare { share } = share;
        let before = streams.totals().credited;
        let Ok(answer) = streams.receive(bytes, now) else {
            return Err(HubError::NoMemory);
        };
        credit.add(share, streams.totals().credited - before);
        publish(gauge, seat, streams);
        Ok(answer)
    }

    /// Takes all shares back and returns the units that the end was credited, which are the sum of the shares.
    ///
    /// Fails with `MissingShare`, and gives the shares back, if their number is not that of the outstanding ones.
    pub fn gather(
        &mut self,
        shares: Vec<CreditShare<N>, A>,
    ) -> Result<u64, (HubError, Vec<CreditShare<N>, A>)>
        ensures credit { IfOk result (λ n. (n ≡ self.old.flow.core.receiving.credit) × (n ≡ self.old.kept + sum shares.items)) }
        ensures all_here { IfOk result (λ n. (vec_len shares ≡ self.old.out) × (self.new ≡ record self.old { out = 0; kept = n })) }
        ensures missing { IfErr result (λ back. (back ≡ (MissingShare, shares)) × (vec_len shares ≢ self.old.out) × (self.new ≡ self.old)) }
    {
        if shares.len() as u64 != self.out {
            return Err((HubError::MissingShare, shares));
        }
        let HubState {
            streams,
            credit,
            spare,
            out,
            ..
        } = self;
        for share in shares {
            let CreditShare { share } = share;
            spare.merge(share);
        }
        credit.audit(spare);
        *out = 0;
        Ok(streams.totals().credited)
    }
}
