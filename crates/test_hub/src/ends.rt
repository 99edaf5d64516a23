//! Ends, clocks and IVs for the tests of this crate.
ghost use Rattle.std.specs.Prelude.{◌≡◌, IfOk};
ghost use Rattle.st_hub.specs.Hub.{IsNew};

use st_devices::Counted;
use st_end::{EndError, EndState, Role};
use st_hub::Ivs;
use st_ilp::Moment;
use st_keys::Keys;
use st_links::Clock;
use st_oer::is_address;
use st_sender::EndConfig;
use std::alloc::{Allocator, Global};
use std::process::Abort;

/// The secret that both ends have.
const SECRET: [u8; 32] = [0; 32];

/// An end with these addresses, which have to be some.
fn end_between<A: Allocator + Copy>(
    alloc: A,
    role: Role,
    own: &str,
    peer: &str,
    packet_limit: u64,
) -> Result<EndState<A>, EndError>
    ensures { IfOk result IsNew }
{
    let Some(config) = EndConfig::new(16, 1_000, packet_limit) else {
        return Err(EndError::NoStream);
    };
    if !is_address(own) || !is_address(peer) {
        return Err(EndError::NoStream);
    }
    EndState::new(alloc, role, Keys::of(SECRET), own, peer, config)
}

/// The client `test.a`, with this greatest amount of a Prepare.
pub(crate) fn client<A: Allocator + Copy>(
    rt: &impl Abort,
    alloc: A,
    packet_limit: u64,
) -> EndState<A>
    ensures { IsNew result }
{
    match end_between(alloc, Role::Client, "test.a", "test.b", packet_limit) {
        Ok(end) => end,
        Err(refused) => panic!(rt; "refused {}", refused.number()),
    }
}

/// The server `test.b`.
pub(crate) fn server<A: Allocator + Copy>(rt: &impl Abort, alloc: A) -> EndState<A>
    ensures { IsNew result }
{
    match end_between(alloc, Role::Server, "test.b", "test.a", 1_000) {
        Ok(end) => end,
        Err(refused) => panic!(rt; "refused {}", refused.number()),
    }
}

/// One moment.
#[derive(Drop)]
pub(crate) struct Still(Moment);

pub(crate) fn moment(rt: &impl Abort) -> Moment {
    Moment::new(0).expect(rt, "a moment")
}

pub(crate) fn stopped_clock(rt: &impl Abort) -> Still {
    Still(moment(rt))
}

/// A clock that always says this moment.
pub(crate) fn clock_at(rt: &impl Abort, ms: i64) -> Still {
    Still(Moment::new(ms).expect(rt, "a moment"))
}

impl Clock for Still {
    fn now(&mut self) -> Moment {
        self.0
    }
}

/// IVs that count up. Different workers have different first bytes.
#[derive(Drop)]
pub(crate) struct Counting {
    pub(crate) first: u8,
    pub(crate) next: u64,
}

impl Counted for Counting {
    ghost fault_count = { λ _. 0 };

    fn faults(&self) -> u64 {
        0
    }
}

impl Ivs for Counting {
    fn next_iv(&mut self) -> Option<[u8; 12]> {
        let mut iv = [0; 12];
        iv[0] = self.first;
        let number = self.next.to_be_bytes();
        iv[4..12].copy_from_slice(&number);
        self.next = self.next.wrapping_add(1);
        Some(iv)
    }
}
