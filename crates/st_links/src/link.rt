//! The traits through which a hop or an end reaches its neighbours and reads the time.

ghost use Rattle.std.specs.Prelude.{◌≡◌, ℕ, ℤ, List, Option, Result, IfErr, ⊤};
ghost use Rattle.st_links.specs.Outcomes.{outcome_seen};
ghost use Rattle.st_devices.specs.Faults.{Rose};
ghost use Rattle.st_links.specs.Answers.{answer_seen};
ghost use Rattle.st_links.specs.Links.{IsExchangeAt};
ghost use Rattle.st_links.specs.declared.link.LinkFault as faults;
ghost use Rattle.st_links.specs.declared.link.LinkFault.TheVariants.{Device};

use crate::outcome::Outcome;
use st_devices::Counted;
use st_ilp::Moment;
use std::alloc::Allocator;
use thiserror::Error;

/// Why an exchange over a link brought no answer.
#[derive(Clone, Copy, Debug, PartialEq, Eq, Error)]
pub enum LinkFault {
    /// The device below the link failed. It counted the failure (`Counted`).
    #[error("the device failed")]
    Device,
    /// The neighbour sent no answer, or none that can be read.
    #[error("the neighbour gave no answer")]
    Peer,
    /// Memory that the exchange asked for was refused.
    #[error("out of memory")]
    NoMemory,
}

/// A link to one neighbour: it sends a Prepare there and returns the bytes of the answer (RFC 0027).
pub trait Link<A: Allocator + Copy>: Counted {
    // Which answer to these bytes the link may give, and the link after it.
    ghost exchanges: { Self → List ℕ → Result (List ℕ) faults.LinkFault → Self → Type 0 } = { λ _ _ _ _. ⊤ };

    /// Sends the bytes of a Prepare and gives those of the answer. `by` is the moment from which on an answer is of no use:
    /// the expiry of the Prepare. At `LinkFault::Device` the count of faults rose during the call, or is at `u64::MAX`.
    fn exchange(&mut self, bytes: &[u8], by: Moment) -> Result<Vec<u8, A>, LinkFault>
        ensures exchanges { exchanges self.old bytes.now (answer_seen result) self.new }
        ensures counted { IfErr result (λ e. e ≡ Device → Rose (Self.fault_count self.old) (Self.fault_count self.new)) };
}

/// The links of a hop: one for each account that is sent to.
pub trait Links<A: Allocator + Copy> {
    // What an account may answer to these bytes, by that moment, and the links after it.
    ghost exchanges: { Self → ℕ → List ℕ → ℤ → Option (List ℕ) → Self → Type 0 } = { λ _ _ _ _ _ _. ⊤ };

    /// Sends the bytes of a Prepare to an account and gives its answer: `Outcome::Fault` if there is no link to it, or
    /// the link gives no answer. `by` is the moment from which on an answer is of no use.
    fn exchange(&mut self, account: usize, bytes: &[u8], by: Moment) -> Outcome<A>
        ensures { exchanges self.old account bytes.now by (outcome_seen result) self.new };
}

impl<A: Allocator + Copy, L: Link<A>> Links<A> for Vec<L, A> {
    // One exchange, of the link at the account's place.
    ghost exchanges = { λ old account bytes _ outcome new. IsExchangeAt L.exchanges old.items account bytes outcome new.items };

    fn exchange(&mut self, account: usize, bytes: &[u8], by: Moment) -> Outcome<A> {
        match self.get_mut(account) {
            Some(link) => match link.exchange(bytes, by) {
                Ok(answer) => Outcome::Answered(answer),
                Err(_) => Outcome::Fault,
            },
            None => Outcome::Fault,
        }
    }
}

/// A source of the present time.
pub trait Clock {
    // Which moment the clock may give, and the clock after it.
    ghost reads: { Self → ℤ → Self → Type 0 } = { λ _ _ _. ⊤ };

    /// The present moment, in milliseconds since the start of 1970 (UTC).
    fn now(&mut self) -> Moment
        ensures { reads self.old result self.new };
}
