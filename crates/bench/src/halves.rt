//! Ends, a clock and IVs for the two hubs.
ghost use Rattle.std.specs.Prelude.{◌≡◌, IfOk, IfSome};
ghost use Rattle.st_hub.specs.Hub.{IsNew};

use st_devices::Counted;
use st_end::{EndError, EndState, Role};
use st_hub::Ivs;
use st_ilp::Moment;
use st_keys::Keys;
use st_links::Clock;
use st_oer::is_address;
use st_queues::Rings;
use st_sender::{EndConfig, MAX_PACKETS};
use std::alloc::Global;

/// A new end with these addresses, of which at most 16 Prepares are in flight at once.
fn end_between(
    alloc: Global,
    role: Role,
    own: &str,
    peer: &str,
) -> Result<EndState<Global>, EndError>
    ensures { IfOk result IsNew }
{
    let Some(config) = EndConfig::new(16, MAX_PACKETS, 1) else {
        return Err(EndError::NoStream);
    };
    if !is_address(own) || !is_address(peer) {
        return Err(EndError::NoStream);
    }
    EndState::new(alloc, role, Keys::of([7; 32]), own, peer, config)
}

/// A new end, and rings of which nothing was used.
#[derive(Drop)]
pub(crate) struct Half {
    pub(crate) end: EndState<Global>,
    pub(crate) rings: Rings<Global>,
}

/// The half of the client `test.a`, or of the server `test.b`.
pub(crate) fn new_half(alloc: Global, role: Role, own: &str, peer: &str) -> Option<Half>
    ensures { IfSome result (λ h. IsNew h.end) }
{
    match end_between(alloc, role, own, peer) {
        Ok(end) => match Rings::new(alloc) {
            Ok(rings) => Some(Half { end, rings }),
            Err(_) => None,
        },
        Err(_) => None,
    }
}

/// A clock that does not advance.
#[derive(Clone, Copy)]
pub(crate) struct Still(pub(crate) Moment);

impl Clock for Still {
    fn now(&mut self) -> Moment {
        self.0
    }
}

/// IVs that count up. The first byte differs between workers.
#[derive(Drop)]
pub(crate) struct Counting {
    pub(crate) first: u8,
    pub(crate) next: u64,
}

impl Counted for Counting {
    ghost fault_count = { λ _. 0 };

    fn faults(&self) -> u64 {
        0
    }
}

impl Ivs for Counting {
    fn next_iv(&mut self) -> Option<[u8; 12]> {
        let mut iv = [0; 12];
        iv[0] = self.first;
        let number = self.next.to_be_bytes();
        iv[4..12].copy_from_slice(&number);
        self.next = self.next.wrapping_add(1);
        Some(iv)
    }
}
