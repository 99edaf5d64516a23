//! A hop, and Prepares that arrive there.

use crate::packets::{fulfill, long_address, prefixes, prepares, prepares_nowhere};
use st_hop::{Account, HopState, Route, Verdict};
use st_ilp::Moment;
use st_links::Outcome;
use std::alloc::Global;

/// The terms of each account. Fewer than 2^63 Prepares of one unit do not meet the limit.
const TERMS: Account = Account {
    limit: (1 << 63) - 1,
    max_packet: 1,
};

/// What to measure. `main` says what each of them is.
#[derive(Clone, Copy, Drop)]
pub(crate) struct Sizes {
    pub(crate) accounts: u64,
    pub(crate) open: u64,
    pub(crate) fulfilled: u64,
    pub(crate) unreachable: u64,
    pub(crate) has_long_route: bool,
}

/// What became of the Prepares.
#[derive(Clone, Copy, Drop)]
pub(crate) struct Counts {
    pub(crate) forwarded: u64,
    pub(crate) fulfilled: u64,
    pub(crate) rejected: u64,
}

/// A hop whose accounts have these prefixes, in this order.
fn hop_with(alloc: Global, prefixes: &[String]) -> Option<HopState<Global>> {
    let mut routes = Vec::new(alloc);
    for (account, prefix) in prefixes.iter().enumerate() {
        if routes
            .push(Route::one_to_one(prefix.as_str(), account))
            .is_err()
        {
            return None;
        }
    }
    let accounts = Vec::from_elem(alloc, TERMS, prefixes.len()).ok()?;
    HopState::new(alloc, "test.hop", &accounts, &routes).ok()
}

/// The hop of these sizes, with nothing open.
fn new_hop(alloc: Global, sizes: Sizes) -> Option<HopState<Global>> {
    let mut prefixes = prefixes(alloc, sizes.accounts)?;
    if sizes.has_long_route {
        prefixes.push(long_address(alloc, "a")?).ok()?;
    }
    hop_with(alloc, &prefixes)
}

/// The Prepare of a number, each account's in turn, and the account that sends it.
fn nth(prepares: &[Vec<u8>], number: u64) -> Option<(usize, &[u8])> {
    let account = number as usize % prepares.len().max(1);
    let bytes = prepares.get(account)?;
    Some((account, bytes))
}

/// This number of Prepares arrive in turn, and stay open.
fn leave_open(
    hop: &mut HopState<Global>,
    prepares: &[Vec<u8>],
    times: u64,
    now: Moment,
) -> Option<()> {
    for number in 0..times {
        let (account, prepare) = nth(prepares, number)?;
        match hop.arrive(account, prepare, now).ok()? {
            Verdict::Forward {
                ticket,
                account: _,
                bytes: _,
            } => ticket.abandon(),
            Verdict::Answer(_) => return None,
        }
    }
    Some(())
}

/// This number of Prepares arrive in turn, and each that is forwarded is settled with the Fulfill, which `settle` gives back.
fn pass(
    alloc: Global,
    hop: &mut HopState<Global>,
    prepares: &[Vec<u8>],
    times: u64,
    now: Moment,
) -> Option<Counts> {
    let mut answer = fulfill(alloc)?;
    let (mut forwarded, mut rejected) = (0_u64, 0_u64);
    for number in 0..times {
        let (account, prepare) = nth(prepares, number)?;
        match hop.arrive(account, prepare, now).ok()? {
            Verdict::Forward {
                ticket,
                account: _,
                bytes: _,
            } => {
                answer = hop.settle(ticket, Outcome::Answered(answer), now);
                forwarded = forwarded.saturating_add(1);
            }
            Verdict::Answer(reject) => {
                if reject.get(2..5) == Some(b"F02") {
                    rejected = rejected.saturating_add(1);
                }
            }
        }
    }
    Some(Counts {
        forwarded,
        fulfilled: hop.all_claims(),
        rejected,
    })
}

/// Prepares arrive for addresses within the routes: those that stay open, and those that are fulfilled.
fn pass_routed(
    alloc: Global,
    hop: &mut HopState<Global>,
    sizes: Sizes,
    now: Moment,
) -> Option<Counts> {
    let prepares = prepares(alloc, sizes.accounts)?;
    leave_open(hop, &prepares, sizes.open, now)?;
    pass(alloc, hop, &prepares, sizes.fulfilled, now)
}

/// This number of Prepares arrive for an address to which no route leads.
fn pass_nowhere(
    alloc: Global,
    hop: &mut HopState<Global>,
    times: u64,
    now: Moment,
) -> Option<Counts> {
    let prepares = prepares_nowhere(alloc)?;
    pass(alloc, hop, &prepares, times, now)
}

/// Passes what the sizes ask for through a new hop.
fn pass_through(alloc: Global, hop: &mut HopState<Global>, sizes: Sizes) -> Option<Counts> {
    let now = Moment::new(0)?;
    let routed = pass_routed(alloc, hop, sizes, now)?;
    let nowhere = pass_nowhere(alloc, hop, sizes.unreachable, now)?;
    Some(Counts {
        forwarded: routed.forwarded.saturating_add(nowhere.forwarded),
        fulfilled: nowhere.fulfilled,
        rejected: routed.rejected.saturating_add(nowhere.rejected),
    })
}

/// Makes the hop, and passes what the sizes ask for. `None` if memory was refused, or a Prepare was to stay open and was not
/// forwarded.
pub(crate) fn pass_all(alloc: Global, sizes: Sizes) -> Option<Counts> {
    let mut hop = new_hop(alloc, sizes)?;
    pass_through(alloc, &mut hop, sizes)
}
