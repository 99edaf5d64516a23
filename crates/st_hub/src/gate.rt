//! What the workers of a hub wait on, and the gate that spaces out their tries after a failure.

ghost use Rattle.std.specs.Prelude.{◌≡◌, ◌≤◌, ◌<◌, ◌+◌, ◌-◌, ◌&&◌, true, false, not, IfSome, MatchOption};
ghost use Rattle.std.specs.Duration.{as_nanos};
ghost use Rattle.std.specs.Time.{instant_nanos};
ghost use Rattle.st_links.specs.Outcomes.{outcome_seen};
ghost use Rattle.st_hub.specs.Gates.{is_temporary};

use st_ilp::{Answer, read_answer};
use st_links::Outcome;
use std::alloc::Allocator;
use std::time::{Clock, Duration, Instant};

/// Whether an exchange failed for now: there is no answer, or one that cannot be read, or a Reject whose code begins
/// with `T`, a temporary error (RFC 0027).
pub(crate) fn is_temporary<A: Allocator + Copy>(outcome: &Outcome<A>) -> bool
    ensures { result ≡ is_temporary (outcome_seen outcome.now) }
{
    match outcome {
        Outcome::Answered(bytes) => {
            let Ok(answer) = read_answer(bytes) else {
                return true;
            };
            match answer {
                Answer::Reject { code, .. } => code.class() == b'T',
                Answer::Fulfill { .. } => false,
            }
        }
        Outcome::Fault => true,
    }
}

/// What is left of a pause that began at this time. `None` if it is over.
fn left_of(pause: Duration, begun: Instant, now: Instant) -> Option<Duration>
    ensures { MatchOption result
        (as_nanos pause ≤ instant_nanos now - instant_nanos begun)
        (λ left. (0 < as_nanos left) × (as_nanos left + (instant_nanos now - instant_nanos begun) ≡ as_nanos pause)) }
{
    let left = pause.saturating_sub(now.duration_since(begun));
    if left.is_zero() { None } else { Some(left) }
}

/// A gate that is shut while the last exchange failed for now. It then lets one try through, and after a pause the next.
#[derive(Drop)]
pub(crate) struct Gate {
    is_shut: bool,
    // When it was shut, or let a try through last. `None` if the clock could not be read.
    last: Option<Instant>,
}

impl Gate {
    /// An open gate.
    pub(crate) fn new() -> Gate
        ensures { result.is_shut ≡ false }
    {
        Gate {
            is_shut: false,
            last: None,
        }
    }

    /// How long the next try is still to wait if tries are this pause apart: what is left of it since the last one.
    /// `None` if it may begin, and if the clock cannot be read.
    pub(crate) fn left(&self, rt: &impl Clock, pause: Duration) -> Option<Duration>
        ensures { IfSome result (λ left. (self.now.is_shut ≡ true) × (0 < as_nanos left) × (as_nanos left ≤ as_nanos pause)) }
    {
        if !self.is_shut {
            return None;
        }
        let now = Instant::now(rt).ok()?;
        left_of(pause, self.last?, now)
    }

    /// Notes that a try begins.
    pub(crate) fn begins(&mut self, rt: &impl Clock)
        ensures { self.new.is_shut ≡ self.old.is_shut }
    {
        if self.is_shut {
            self.last = Instant::now(rt).ok();
        }
    }

    /// Notes how an exchange ended. Returns whether that opened the gate.
    pub(crate) fn ends(&mut self, rt: &impl Clock, is_temporary: bool) -> bool
        ensures shut { self.new.is_shut ≡ is_temporary }
        ensures opened { result ≡ (self.old.is_shut && not is_temporary) }
    {
        let was_shut = self.is_shut;
        self.is_shut = is_temporary;
        if is_temporary && !was_shut {
            self.last = Instant::now(rt).ok();
        }
        was_shut && !is_temporary
    }
}
