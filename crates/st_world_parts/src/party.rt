//! An end with its open flights and its answered Prepares.

ghost use Rattle.std.specs.Prelude.{◌≡◌, ◌≢◌, ◌<◌, ℕ, true, false, OnErr, IfOk, IfSome, IsNone, MatchOption, Some, None, slice_get, is_ok, IsOkUnless};
ghost use Rattle.std.specs.List.{remove};
ghost use Rattle.st_links.specs.Outcomes.{outcome_seen};
ghost use Rattle.st_oer.specs.Address.{is_address};
ghost use Rattle.st_end.specs.State.{new_end};
ghost use Rattle.st_end.specs.Calls.{has_stream};
ghost use Rattle.st_end.specs.Reading.{read};
ghost use Rattle.st_end.specs.Totals as totals;
ghost use Rattle.st_end.specs.Sending.{is_open};
ghost use Rattle.st_world_parts.specs.State.{new_party};
ghost use Rattle.st_world_parts.specs.Seen.{told_seen};
ghost use Rattle.st_world_parts.specs.Kept.{AreKept};
ghost use Rattle.st_world_parts.specs.Parts.{EndSends, EndMet, EndBack};

use crate::entry::{AnsweredAtEnd, amount_in, is_fulfill};
use crate::lane::{Direction, SentAnswer, SentPrepare, mark_taken};
use crate::told::Told;
use st_end::{EndError, EndState, Flight, Open, OpenFlight, Role, Totals, by_number};
use st_ilp::Moment;
use st_keys::Keys;
use st_links::Outcome;
use st_sender::EndConfig;
use std::alloc::{AllocError, Allocator};
use std::marker::Model;

/// The index of a flight.
fn place_of(kept: &[OpenFlight], wanted: Open) -> Option<usize>
    ensures found { IfSome result (λ i. slice_get kept.now i ≡ Some wanted) }
    ensures absent { IsNone result → (i : ℕ) → slice_get kept.now i ≢ Some wanted }
{
    for (i, flight) in kept.iter().enumerate() {
        if flight.is(&wanted) {
            return Some(i);
        }
    }
    None
}

/// Whether the flight at this place is open at the end.
fn is_open_at<A: Allocator + Copy>(
    state: &EndState<A>,
    kept: &[OpenFlight],
    place: usize,
    wanted: Open,
) -> bool
    requires { slice_get kept.now place ≡ Some wanted }
    ensures { result ≡ is_open state.now wanted }
{
    kept[place].is_open(state)
}

/// The index of an open flight.
fn open_place<A: Allocator + Copy>(
    state: &EndState<A>,
    kept: &[OpenFlight],
    wanted: Open,
) -> Option<usize>
    requires { AreKept state.now.conditions kept.now }
    ensures found { IfSome result (λ i. (slice_get kept.now i ≡ Some wanted) × (is_open state.now wanted ≡ true)) }
    ensures absent { IsNone result → is_open state.now wanted ≡ false }
{
    let place = place_of(kept, wanted)?;
    if !is_open_at(state, kept, place, wanted) {
        return None;
    }
    Some(place)
}

/// Takes out the flight of a place.
fn take_flight<A: Allocator>(kept: &mut Vec<OpenFlight, A>, place: usize, wanted: Open) -> Flight
    requires { slice_get kept.old.items place ≡ Some wanted }
    ensures taken { result ≡ wanted }
    ensures rest { kept.new.items ≡ remove kept.old.items place }
{
    kept.remove(place).spend()
}

/// An end (RFC 0029), its open flights, and the Prepares that it answered. A flight represents a Prepare that was sent
/// and has no outcome yet.
pub struct Party<A: Allocator + Copy> {
    pub(crate) state: EndState<A>,
    kept: Vec<OpenFlight, A>,
    answered: Vec<AnsweredAtEnd, A>,
    alloc: A,
}

// It is written out, so that a caller does not prove again how each part is dropped.
impl<A: Allocator + Copy> Drop for Party<A> {
    fn drop(self) {
        let Party {
            state: _,
            kept: _,
            answered: _,
            alloc: _,
        } = self;
    }
}

impl<A: Allocator + Copy> Model for Party<A> {
    ghost use Rattle.st_world_parts.specs.State as world;
    ghost use Rattle.std.specs.Coded.{codes};
    ghost use Rattle.std.specs.FinMap as map;
    ghost use Rattle.st_world_parts.specs.Kept.{AreKept};

    ghost Value = { world.Party };

    ghost coded = { Prim.hlevel (codes, map.code) };

    ghost view = { λ a. record { state = a.state; answered = a.answered.items } };

    ghost invariant = { λ a. AreKept a.state.conditions a.kept.items };
}

impl<A: Allocator + Copy> Party<A> {
    /// An end that has done nothing yet. `own` and `peer` must be ILP addresses (RFC 0015). Its one error is
    /// `NoMemory`, if memory is refused.
    pub fn new(
        alloc: A,
        role: Role,
        keys: Keys,
        own: &str,
        peer: &str,
        config: EndConfig,
    ) -> Result<Party<A>, EndError>
        requires own { is_address own.now ≡ true }
        requires peer { is_address peer.now ≡ true }
        ensures opening { IfOk result (λ p. p ≡ new_party (new_end role keys own.now peer.now config)) }
        ensures only_memory { IsOkUnless result EndError.NoMemory }
    {
        let state = EndState::new(alloc, role, keys, own, peer, config)?;
        Ok(Party {
            state,
            kept: Vec::new(alloc),
            answered: Vec::new(alloc),
            alloc,
        })
    }

    /// Whether the connection failed. Nothing is sent any more then. Does not allocate.
    pub fn is_failed(&self) -> bool
        ensures { result ≡ self.now.state.sending.failed }
    {
        self.state.is_failed()
    }

    /// Whether a stream is open. A call on one that is not is refused with `NoStream`. Does not allocate.
    pub fn has_stream(&self, stream: u8) -> bool
        ensures has { result ≡ has_stream self.now.state stream }
        ensures reads { (limit : ℕ) → is_ok (read self.now.state stream limit).0 ≡ result }
    {
        self.state.reads_what_is_open();
        by_number::has_stream(&self.state, stream)
    }

    /// The end's totals: bytes written and read, amounts credited and paid. Does not allocate.
    pub fn totals(&self) -> Totals
        ensures { result ≡ totals.totals self.now.state }
    {
        self.state.totals()
    }

    /// The Prepares that it answered, in order. Does not allocate.
    pub fn answered(&self) -> &[AnsweredAtEnd]
        ensures { result.now ≡ self.now.answered }
    {
        self.answered.as_slice()
    }
}

/// Calls `EndState::send` at an end, under this IV and at the moment `now`. Its Prepare is recorded on the lane, and
/// the result is `Told::Sent`. It is `Told::Nothing` if there is none to send, and `Told::NoMemory` if the call ran out
/// of memory. Fails if memory for the record is refused, and then nothing has changed.
pub fn send_from<A: Allocator + Copy>(
    party: &mut Party<A>,
    lane: &mut Direction<A>,
    iv: [u8; 12],
    now: Moment,
) -> Result<Told<A>, AllocError>
    ensures sent { IfOk result (λ told. EndSends iv now (told_seen told) party.old party.new lane.old lane.new) }
    ensures same_party { OnErr result (party.new ≡ party.old) }
    ensures same_lane { OnErr result (lane.new ≡ lane.old) }
{
    party.kept.reserve(1)?;
    lane.prepares.reserve(1)?;
    match party.state.send(iv, now) {
        Ok(Some((flight, bytes))) => {
            let put = SentPrepare::of_flight(&flight.read(), bytes);
            party.kept.push(OpenFlight::new(flight)).unwrap();
            lane.prepares.push(put).unwrap();
            Ok(Told::Sent)
        }
        Ok(None) => Ok(Told::Nothing),
        Err(_) => Ok(Told::NoMemory),
    }
}

/// A Prepare arrives at an end, at the moment `now`: its answer is sent back on the lane, on which it is the Prepare
/// number `which`, and it is recorded. If the call runs out of memory, the answer is a Reject T00 and the result
/// `Told::NoMemory`. Fails if memory for the record is refused, and then nothing has changed.
pub fn arrive_at_end<A: Allocator + Copy>(
    party: &mut Party<A>,
    lane: &mut Direction<A>,
    which: usize,
    bytes: &[u8],
    now: Moment,
) -> Result<Told<A>, AllocError>
    ensures met { IfOk result (λ told. EndMet which bytes.now now (told_seen told) party.old party.new lane.old lane.new) }
    ensures same_party { OnErr result (party.new ≡ party.old) }
    ensures same_lane { OnErr result (lane.new ≡ lane.old) }
{
    party.answered.reserve(1)?;
    lane.given.reserve(1)?;
    let t00 = Vec::from_slice(party.alloc, party.state.t00())?;
    match party.state.receive(bytes, now) {
        Ok(received) => {
            let entry = AnsweredAtEnd {
                amount: received.amount,
                sequence: received.sequence,
                fulfilled: is_fulfill(&received.bytes),
            };
            party.answered.push(entry).unwrap();
            lane.given
                .push(SentAnswer::new(which, received.bytes))
                .unwrap();
            Ok(Told::Answered {
                reason: received.reason,
                amount: received.amount,
                sequence: received.sequence,
            })
        }
        Err(_) => {
            let entry = AnsweredAtEnd {
                amount: amount_in(bytes),
                sequence: None,
                fulfilled: false,
            };
            party.answered.push(entry).unwrap();
            lane.given.push(SentAnswer::new(which, t00)).unwrap();
            Ok(Told::NoMemory)
        }
    }
}

/// The outcome of a Prepare that an end sent on the lane. If its flight is open, the outcome is applied, and the result
/// is `Told::Took`. If it is the answer number `which` of the lane and was booked as the Fulfill, that is noted. Does
/// not allocate.
pub fn settle_at_end<A: Allocator + Copy>(
    party: &mut Party<A>,
    lane: &mut Direction<A>,
    put: &SentPrepare<A>,
    which: usize,
    outcome: Outcome<A>,
) -> Told<A>
    ensures { EndBack put.now which (outcome_seen outcome) (told_seen result) party.old party.new lane.old lane.new }
{
    let wanted = put.flight();
    let Some(place) = open_place(&party.state, &party.kept, wanted) else {
        return Told::Nothing;
    };
    let flight = take_flight(&mut party.kept, place, wanted);
    match outcome {
        Outcome::Answered(mut bytes) => {
            let taken = party.state.answer(flight, bytes.as_mut_slice());
            mark_taken(&mut lane.given, which, taken);
            Told::Took(taken)
        }
        Outcome::Fault => {
            party.state.fault(flight);
            mark_taken(&mut lane.given, which, false);
            Told::Took(false)
        }
    }
}
