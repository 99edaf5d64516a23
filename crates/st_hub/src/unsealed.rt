//! A `Turn` whose packet is not sealed yet.

ghost use Rattle.std.specs.Prelude.{◌≡◌, IfOk, IfSome, pos, ◌+ℤ◌};
ghost use Rattle.st_ilp.specs.Moments.{IsMoment};
ghost use Rattle.st_sender.specs.Stops.{blocked_at};
ghost use Rattle.st_hub.specs.Turns.{ExpiresAt};

use crate::turns::Turn;
use st_end::{EndError, EndState, Unsealed};
use st_ilp::Moment;
use st_sender::Blocked;
use std::alloc::Allocator;
use std::marker::Model;

/// For how many milliseconds a Prepare lives, as `EndState::send` makes it.
const LIFE: i64 = 30_000;

/// The most bytes of a stream that one frame of a Prepare has.
const FRAME_BYTES: usize = 16_000;

/// The moment at which a Prepare expires that is made now.
fn after(now: Moment) -> Moment
    ensures { IsMoment (now +ℤ pos 30000) → result ≡ now +ℤ pos 30000 }
{
    match Moment::new(now.ms() + LIFE) {
        Some(moment) => moment,
        None => now,
    }
}

/// A `Turn` whose packet is not sealed yet. Contracts see it as the `Turn` that `seal` gives. It must be sealed.
#[must_use]
pub struct UnsealedTurn<A: Allocator + Copy> {
    iv: [u8; 12],
    unsealed: Unsealed<A>,
    // The moment that its bytes will say.
    expiry: Moment,
    // The limit of the peer that its Blocked frame reports.
    stops: Option<Blocked>,
}

impl<A: Allocator + Copy> Model for UnsealedTurn<A> {
    ghost use Rattle.st_hub.specs.Turns.{Sent, IsExpiryOf};

    ghost Value = { Sent };

    ghost view = { λ t. record { iv = t.iv; flight = t.unsealed.flight; bytes = t.unsealed.bytes; stops = t.stops } };

    ghost invariant = { λ t. IsExpiryOf t.unsealed.bytes t.expiry };
}

/// The limit of the peer that the Blocked frame of a sent Prepare reports.
pub(crate) fn limit_of<A: Allocator + Copy>(
    core: &EndState<A>,
    sent: &Result<Option<Unsealed<A>>, EndError>,
) -> Option<Blocked>
    ensures { IfOk sent.now (λ s. IfSome s (λ x. result ≡ blocked_at core.now.sending.flights x.flight.sequence)) }
{
    match sent {
        Ok(Some(unsealed)) => core.blocked_at(unsealed.sequence()),
        Ok(None) | Err(_) => None,
    }
}

/// The `Turn`, not sealed yet, of a Prepare that was made at this time.
pub(crate) fn turn_at<A: Allocator + Copy>(
    iv: [u8; 12],
    unsealed: Unsealed<A>,
    stops: Option<Blocked>,
    made: Moment,
) -> UnsealedTurn<A>
    requires { ExpiresAt unsealed.bytes (made +ℤ pos 30000) }
    ensures turn { (result.flight ≡ unsealed.flight) × (result.bytes ≡ unsealed.bytes) }
    ensures rest { (result.iv ≡ iv) × (result.stops ≡ stops) }
{
    UnsealedTurn {
        iv,
        unsealed,
        expiry: after(made),
        stops,
    }
}

impl<A: Allocator + Copy> UnsealedTurn<A> {
    /// The limit of the peer at which bytes or money wait, if the Prepare carries a Blocked frame (RFC 0029, section
    /// 5.3). Does not allocate.
    pub fn blocked_at(&self) -> Option<Blocked>
        ensures { result ≡ self.now.stops }
    {
        self.stops
    }

    /// Whether more may be due after it: it pays an amount, or it has the length of a full frame of data. Otherwise it
    /// carries all that could be sent.
    pub(crate) fn may_leave_more(&self) -> bool {
        self.unsealed.size() >= FRAME_BYTES || self.unsealed.amount() > 0
    }

    /// Encrypts the packet and hashes it, as `Unsealed::seal` does. It needs no lock. Does not allocate, and cannot fail.
    pub fn seal(self) -> Turn<A>
        ensures { result ≡ self }
    {
        let UnsealedTurn {
            iv,
            unsealed,
            expiry,
            stops,
        } = self;
        let (flight, bytes) = unsealed.seal();
        Turn {
            iv,
            flight,
            bytes,
            expiry,
            stops,
        }
    }
}
