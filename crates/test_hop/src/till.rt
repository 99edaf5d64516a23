//! A till that threads share.

ghost use Rattle.std.specs.Prelude.{⊤};

use st_hop_desk::{Fate, Till, deposit, refused_at};
use st_links::{Booking, Keeper};
use std::alloc::Global;
use std::process::Abort;
use std::sync::Wait;
use std::test::Fail;
use std::thread;
use std::thread::Threads;
use std::time::{Clock, Duration};

/// Books that sum up claims and dues, and refuse with 93 what would bring the claims above `most`.
#[derive(Drop)]
struct Sums {
    claims: u64,
    dues: u64,
    most: u64,
}

impl Keeper for Sums {
    ghost commits = { λ _ _ _. ⊤ };

    ghost keeps = { λ _ _ _ _. ⊤ };

    fn commit(&mut self, bookings: &[Booking]) -> Result<(), u8> {
        let (mut claims, mut dues) = (self.claims, self.dues);
        for booking in bookings {
            claims = claims.saturating_add(booking.claim);
            dues = dues.saturating_add(booking.due);
        }
        if claims > self.most {
            return Err(93);
        }
        (self.claims, self.dues) = (claims, dues);
        Ok(())
    }
}

/// What one Fulfill books.
const BOOKING: Booking = Booking {
    payer: 0,
    claim: 3,
    payee: 1,
    due: 2,
    proof: None,
};

/// How many deposits were stored, and of how many nobody knows it.
#[derive(Clone, Copy, Debug, PartialEq, Eq)]
struct Fates {
    stored: u64,
    unknown: u64,
}

/// What became of ten deposits.
fn ten<R: Wait>(rt: &R, till: &Till<Sums, Global>) -> Fates {
    let mut fates = Fates {
        stored: 0,
        unknown: 0,
    };
    for _ in 0..10 {
        match deposit(rt, till, BOOKING) {
            Fate::Stored(_) => fates.stored = fates.stored.saturating_add(1),
            Fate::Unknown => fates.unknown = fates.unknown.saturating_add(1),
            Fate::Refused => {}
        }
    }
    fates
}

/// What became of the deposits of two threads, what the books then have, and with which number they refused.
fn two<R: Threads + Wait + Abort + Sync>(
    rt: &R,
    alloc: Global,
    most: u64,
) -> (Fates, u64, u64, Option<u8>) {
    let books = Sums {
        claims: 0,
        dues: 0,
        most,
    };
    let till = Till::new(alloc, books, 2).expect(rt, "memory");
    let (one, other) = thread::join(rt, || ten(rt, &till), || ten(rt, &till));
    let seen = refused_at(rt, &till);
    let (books, refused) = till.into_books();
    assert!(rt; seen == refused);
    let both = Fates {
        stored: one.stored.saturating_add(other.stored),
        unknown: one.unknown.saturating_add(other.unknown),
    };
    (both, books.claims, books.dues, refused)
}

/// What two threads deposit is committed, each booking once.
#[test]
fn two_threads_deposit(rt: HostRuntime) -> Result<(), Fail> {
    let all = Fates {
        stored: 20,
        unknown: 0,
    };
    assert!(rt; two(&rt, rt.alloc(), 60) == (all, 60, 40, None));
    Ok(())
}

/// After a refusal nothing is committed, and each token is that of a booking that the books have. Only of the one or two bookings
/// that were refused nobody knows whether they are stored.
#[test]
fn a_refusal_ends_a_till(rt: HostRuntime) -> Result<(), Fail> {
    let (Fates { stored, unknown }, claims, dues, refused) = two(&rt, rt.alloc(), 31);
    assert!(rt; refused == Some(93));
    assert!(rt; claims == stored.saturating_mul(3) && dues == stored.saturating_mul(2));
    assert!(rt; stored <= 10 && (unknown == 1 || unknown == 2));
    Ok(())
}

/// A till for no thread accepts nothing.
#[test]
fn a_till_for_nobody_is_full(rt: HostRuntime) -> Result<(), Fail> {
    let books = Sums {
        claims: 0,
        dues: 0,
        most: 9,
    };
    let till = Till::new(rt.alloc(), books, 0)?;
    assert!(rt; matches!(deposit(&rt, &till, BOOKING), Fate::Refused));
    assert!(rt; till.into_books().0.claims == 0);
    Ok(())
}

/// Books whose first commit takes 100 ms, and that sum up claims.
#[derive(Drop)]
struct Slow<'a, R: Clock> {
    rt: &'a R,
    commits: u64,
    claims: u64,
}

impl<R: Clock> Keeper for Slow<'_, R> {
    ghost commits = { λ _ _ _. ⊤ };

    ghost keeps = { λ _ _ _ _. ⊤ };

    fn commit(&mut self, bookings: &[Booking]) -> Result<(), u8> {
        if self.commits == 0 {
            thread::sleep(self.rt, Duration::from_millis(100));
        }
        self.commits = self.commits.saturating_add(1);
        for booking in bookings {
            self.claims = self.claims.saturating_add(booking.claim);
        }
        Ok(())
    }
}

/// Whether one deposit is stored.
fn is_stored<R: Wait + Clock>(rt: &R, till: &Till<Slow<'_, R>, Global>) -> bool {
    matches!(deposit(rt, till, BOOKING), Fate::Stored(_))
}

/// Whether the deposits of two threads are.
fn are_two<R: Threads + Wait + Clock + Sync>(rt: &R, till: &Till<Slow<'_, R>, Global>) -> bool {
    let (one, other) = thread::join(rt, || is_stored(rt, till), || is_stored(rt, till));
    one && other
}

/// Whether those of four are.
fn are_four<R: Threads + Wait + Clock + Sync>(rt: &R, till: &Till<Slow<'_, R>, Global>) -> bool {
    let (one, other) = thread::join(rt, || are_two(rt, till), || are_two(rt, till));
    one && other
}

/// Whether those of eight are.
fn are_eight<R: Threads + Wait + Clock + Sync>(rt: &R, till: &Till<Slow<'_, R>, Global>) -> bool {
    let (one, other) = thread::join(rt, || are_four(rt, till), || are_four(rt, till));
    one && other
}

/// Of twelve threads most wait for the first commit. Each booking is stored once, several by one commit.
#[test]
fn twelve_threads_deposit(rt: HostRuntime) -> Result<(), Fail> {
    let rt = &rt;
    let books = Slow {
        rt,
        commits: 0,
        claims: 0,
    };
    let till = Till::new(rt.alloc(), books, 12)?;
    let (eight, four) = thread::join(rt, || are_eight(rt, &till), || are_four(rt, &till));
    assert!(rt; eight && four);
    let (books, refused) = till.into_books();
    assert!(rt; books.claims == 36 && refused.is_none());
    assert!(rt; books.commits < 12);
    Ok(())
}
