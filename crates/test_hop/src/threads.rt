//! Two threads that serve one hop at once.
ghost use Rattle.std.specs.Prelude.{◌≡◌};

use crate::desks::{FULFILL, PREPARE, gathered, new_hop, shares_of, stopped_clock};
use st_devices::Counted;
use st_hop::HopState;
use st_hop_desk::{AccountShares, HopDesk, NoBooks, Owed, serve};
use st_ilp::Moment;
use st_links::{Link, LinkFault};
use std::alloc::Global;
use std::marker::Brand;
use std::process::Abort;
use std::sync::atomic::{AtomicU64, Ordering};
use std::sync::ledger::{Blank, Ledger};
use std::sync::{Mutex, Wait};
use std::test::Fail;
use std::thread;
use std::thread::Threads;
use std::time::Duration;

/// A neighbour that delays the first exchange until another was answered, for `LOOKS` checks, and then has a fault.
#[derive(Drop)]
struct Gate<'a, R: std::time::Clock> {
    rt: &'a R,
    alloc: Global,
    exchanges: &'a AtomicU64,
    answered: &'a AtomicU64,
}

const LOOKS: u32 = 10_000;

impl<R: std::time::Clock> Counted for Gate<'_, R> {
    ghost fault_count = { λ _. 0 };

    fn faults(&self) -> u64 {
        0
    }
}

impl<R: std::time::Clock> Gate<'_, R> {
    /// Whether another exchange was answered while this one waited.
    fn opens(&self) -> bool {
        for _ in 0..LOOKS {
            if self.answered.load(Ordering::SeqCst) > 0 {
                return true;
            }
            thread::sleep(self.rt, Duration::from_micros(100));
        }
        false
    }
}

impl<R: std::time::Clock> Link<Global> for Gate<'_, R> {
    fn exchange(&mut self, _bytes: &[u8], _by: Moment) -> Result<Vec<u8>, LinkFault> {
        if self.exchanges.fetch_add(1, Ordering::SeqCst) == 0 && !self.opens() {
            return Err(LinkFault::Peer);
        }
        self.answered.fetch_add(1, Ordering::SeqCst);
        FULFILL.to_vec(self.alloc).map_err(|_| LinkFault::NoMemory)
    }
}

/// Whether the Prepare was answered with the Fulfill.
fn is_fulfilled<C: Ledger, D: Ledger, R: Wait + Abort + std::time::Clock>(
    rt: &R,
    alloc: Global,
    desk: &Mutex<HopDesk<C, D, Global>>,
    shares: &Mutex<AccountShares<C, D>>,
    exchanges: &AtomicU64,
    answered: &AtomicU64,
) -> bool {
    let gate = || Gate {
        rt,
        alloc,
        exchanges,
        answered,
    };
    let mut links = Vec::from_array(alloc, [gate(), gate()]).expect(rt, "memory");
    let mut clock = stopped_clock(rt);
    match serve(
        rt,
        desk,
        shares,
        0,
        PREPARE,
        &mut links,
        &mut NoBooks,
        &mut clock,
    ) {
        Ok(served) => match served.answer {
            Some(answer) => answer.as_slice() == FULFILL.as_slice(),
            None => false,
        },
        Err(_) => false,
    }
}

/// Whether each of two threads was answered with the Fulfill.
fn both<
    C: Ledger + Send + Sync,
    D: Ledger + Send + Sync,
    R: Threads + Wait + Abort + std::time::Clock + Sync,
>(
    rt: &R,
    alloc: Global,
    desk: &Mutex<HopDesk<C, D, Global>>,
    shares: &Mutex<AccountShares<C, D>>,
) -> (bool, bool) {
    let exchanges = AtomicU64::new(0);
    let answered = AtomicU64::new(0);
    thread::join(
        rt,
        || is_fulfilled(rt, alloc, desk, shares, &exchanges, &answered),
        || is_fulfilled(rt, alloc, desk, shares, &exchanges, &answered),
    )
}

/// Whether each of two threads was answered with the Fulfill, and what is owed then.
fn two_serve<
    C: Ledger + Send + Sync,
    D: Ledger + Send + Sync,
    R: Threads + Wait + Abort + std::time::Clock + Sync,
>(rt: &R, alloc: Global, hop: HopState<Global>, claims: Blank, dues: Blank) -> ((bool, bool), Owed)
    requires claims { (claims.name ≡ C.name) × (claims.parts ≡ C.parts) × (claims.parts ≡ 64) }
    requires dues { (dues.name ≡ D.name) × (dues.parts ≡ D.parts) × (dues.parts ≡ 64) }
{
    let mut desk = HopDesk::<C, D, Global>::new(alloc, hop, claims, dues);
    let shares = Mutex::new(shares_of(rt, &mut desk));
    let desk = Mutex::new(desk);
    let told = both(rt, alloc, &desk, &shares);
    let mut desk = desk.into_inner();
    (told, gathered(rt, alloc, &mut desk, shares.into_inner()))
}

/// Each of two threads waits for the other's exchange: one alone, or an exchange made under the lock, never passes.
#[test]
fn both_pass_the_gate(rt: HostRuntime) -> Result<(), Fail> {
    let alloc = rt.alloc();
    let hop = new_hop(alloc)?;
    let (told, owed) = two_serve::<Brand, Brand, _>(
        &rt,
        alloc,
        hop,
        Blank::new(64),
        Blank::new(64),
    );
    assert!(rt; told == (true, true));
    let wanted = Owed {
        claims: 10,
        dues: 10,
    };
    assert!(rt; owed == wanted);
    Ok(())
}
